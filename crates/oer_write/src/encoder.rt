//! The encoder.
ghost use Rattle.std.specs.Prelude.{◌≡◌, ◌≤◌, ◌+◌, ◌<◌, ◌^◌, ◌&&◌, not, true, false, List, [], ◌∷◌, ◌++◌, length, take, drop, cond, OnOk, IfOk, IfErr};
ghost use Rattle.asn1_core.specs.Octets.{Octets, pack};
ghost use Rattle.oer_spec.specs.Places.{extension_bit};
ghost use Rattle.asn1_core.specs.declared.codec.Codec.TheVariants.{Coer};
ghost use Rattle.asn1_core.specs.declared.error.EncodeErrorKind.TheVariants.{OutOfMemory};
ghost use Rattle.oer_spec.specs.Writing.{AppendsOrMemory, BeginsWith};
ghost use Rattle.oer_write.specs.Held.{length_within, Holds, IsInFront, Leaves, lent_frame, marks, pieces_in, shut_at};
ghost use Rattle.oer_write.specs.Layout.{Ascends, merged};
ghost use Rattle.oer_write.specs.Preambles.{IsSized, preamble_octets};
ghost use Rattle.oer_write.specs.Scopes.{any_true, extension_of, set_octets};
ghost use Rattle.oer_write.specs.Seen.{around, frame_of, opens_in, IsLaid, IsSound};
ghost use Rattle.oer_write.specs.Written.{Written, append, no_scope, fresh};

use crate::enc::EncoderOptions;
use crate::insertions::Insertions;
use crate::region::Region;
use crate::scopes::{Preamble, Scope};
use asn1_core::{Codec, EncodeErrorKind};
use std::alloc::Global;
use std::marker::Model;

/// Writes values by the canonical rules.
///
/// Contracts see the octets written so far, the innermost open scope with what was recorded in it, and the scopes around
/// it. A value appends its octets; a scope gives its closure an encoder in which the scope is open, and appends the whole
/// as the closure ends. After a refusal the octets still begin with those of before, and the same scopes are open.
#[derive(Drop)]
pub struct Encoder<'buffer> {
    pub(crate) output: &'buffer mut Vec<u8>,
    /// What belongs at places of the output, in order of place: none where nothing is open.
    pub(crate) insertions: Insertions,
    pub(crate) scope: Scope,
    /// Lent for an element of a list or an alternative of a choice.
    pub(crate) is_lent: bool,
    /// Whether something is open whose octets aren't in their places yet: a sequence, a set, or an open type.
    pub(crate) is_inside: bool,
    pub(crate) alloc: Global,
}

impl<'buffer> Model for Encoder<'buffer> {
    ghost use Rattle.oer_write.specs.Written.{Written};

    ghost Value = { Written };

    ghost use Rattle.oer_write.specs.Seen.{seen, is_sound};

    ghost view = { seen };

    ghost invariant = { is_sound };
}

impl<'buffer> Encoder<'buffer> {
    /// An encoder that appends to `output`.
    ///
    /// `worker` may hold anything, and is left as it is. Takes no memory.
    #[tactic(auto, using(crate::proofs::Regions::none_around, crate::proofs::Regions::none_laid))]
    #[inline(always)]
    pub fn from_buffer(
        alloc: Global,
        _options: EncoderOptions,
        output: &'buffer mut Vec<u8>,
        _worker: &mut Vec<u8>,
    ) -> Encoder<'buffer>
        ensures encoder { result ≡ record { octets = output.old.items; frame = no_scope; outer = [] } }
        ensures worker { _worker.new ≡ _worker.old }
    {
        Encoder {
            output,
            insertions: Insertions::new(alloc),
            scope: Scope::none(alloc, 0, 0),
            is_lent: false,
            is_inside: false,
            alloc,
        }
    }

    /// An encoder that appends to `output`, lent for an element, an alternative or a component.
    #[tactic(auto, using(crate::proofs::Regions::none_around, crate::proofs::Regions::none_laid))]
    #[inline(always)]
    pub(crate) fn lent(
        alloc: Global,
        is_inside: bool,
        insertions: Insertions,
        output: &'buffer mut Vec<u8>,
    ) -> Encoder<'buffer>
        requires alone { is_inside ≡ false → insertions ≡ [] }
        requires ascends { Ascends 0 insertions (length output.old.items) }
        ensures { result ≡ record { octets = merged output.old.items insertions; frame = shut_at (length (merged output.old.items insertions)); outer = marks true is_inside insertions } }
    {
        let start = output.len();
        let first = insertions.len();
        let is_lent = true;
        Encoder {
            output,
            insertions,
            scope: Scope::none(alloc, start, first),
            is_lent,
            is_inside,
            alloc,
        }
    }

    /// An encoder with a new scope open that appends to `output`.
    #[tactic(auto, using(crate::proofs::Regions::none_around, crate::proofs::Regions::none_laid))]
    #[inline(always)]
    pub(crate) fn open(
        alloc: Global,
        is_set: bool,
        extensible: bool,
        insertions: Insertions,
        output: &'buffer mut Vec<u8>,
    ) -> Encoder<'buffer>
        requires { Ascends 0 insertions (length output.old.items) }
        ensures { result ≡ record { octets = merged output.old.items insertions; frame = fresh is_set extensible (length (merged output.old.items insertions)); outer = marks false true insertions } }
    {
        let start = output.len();
        let first = insertions.len();
        let is_lent = false;
        let is_inside = true;
        Encoder {
            output,
            insertions,
            scope: Scope::open(alloc, is_set, extensible, start, first),
            is_lent,
            is_inside,
            alloc,
        }
    }

    /// Takes out the octets written, and leaves none.
    ///
    /// No scope may be open, and it may not be an encoder that was lent: what belongs in front of its octets is put there later.
    /// Takes no memory.
    #[inline(always)]
    pub fn output(&mut self) -> Vec<u8>
        requires shut { self.old.frame.is_open ≡ false }
        requires outermost { self.old.outer ≡ [] }
        ensures taken { result.items ≡ self.old.octets }
        ensures left { self.new ≡ record self.old { octets = [] } }
    {
        let empty = Vec::new(self.alloc);
        std::mem::replace(&mut *self.output, empty)
    }

    /// The rules that are written by: always the canonical ones.
    pub fn codec(&self) -> Codec
        ensures { result ≡ Coer }
    {
        Codec::Coer
    }

    /// How many octets are written, with those of all insertions.
    #[inline(always)]
    pub(crate) fn written(&self) -> u128
        ensures { result ≡ length self.now.octets + length_within self.now.frame }
    {
        self.output.len() as u128 + self.insertions.inserted() as u128
    }

    /// The output and the insertions, once the additions of its open sequence are closed, and the sequence's preamble.
    ///
    /// The scope stays where it is, so that nothing of it is copied; what is written afterwards is lost.
    #[inline(always)]
    pub(crate) fn close_sequence(
        &mut self,
    ) -> (Vec<u8>, Insertions, Result<Preamble, EncodeErrorKind>)
        requires sequence { (self.old.frame.is_open && not self.old.frame.is_set) ≡ true }
        ensures preamble { IfOk result.2 (λ p. IsSized p × (preamble_octets p ≡ pack (extension_bit self.old.frame.extensible (any_true self.old.frame.bitmap) ++ self.old.frame.presence))) }
        ensures done { OnOk result.2 (Holds (append (extension_of self.old.frame.bitmap self.old.frame.opens) self.old) result.0.items result.1) }
        ensures refused { IfErr result.2 (λ k. (k ≡ OutOfMemory) × Leaves self.old result.0.items result.1) }
        ensures counted { length self.old.frame.bitmap < 2 ^ 64 }
    {
        let alloc = self.alloc;
        let _count = self.scope.bitmap.len();
        let mut octets = std::mem::replace(&mut *self.output, Vec::new(alloc));
        let mut insertions = std::mem::replace(&mut self.insertions, Insertions::new(alloc));
        let closed = self
            .scope
            .close_sequence(alloc, &mut octets, &mut insertions);
        self.scope.region = Region::at(0, 0);
        self.scope.is_open = false;
        self.is_inside = false;
        (octets, insertions, closed)
    }

    /// The output cut at `start`, and behind it its open set; what is written afterwards is lost.
    pub(crate) fn close_set(&mut self) -> (Vec<u8>, Insertions, Result<(), EncodeErrorKind>)
        requires set { self.old.frame.is_set ≡ true }
        ensures written { (front : Octets) × IsInFront self.old front × AppendsOrMemory result.2 (set_octets self.old.frame) front result.0.items }
        ensures kept { result.1 ≡ pieces_in self.old.outer }
        ensures counted { length self.old.frame.bitmap < 2 ^ 64 }
    {
        let alloc = self.alloc;
        let _count = self.scope.bitmap.len();
        let mut octets = std::mem::replace(&mut *self.output, Vec::new(alloc));
        let mut insertions = std::mem::replace(&mut self.insertions, Insertions::new(alloc));
        octets.truncate(self.scope.region.base);
        insertions.cut(self.scope.region.first);
        let closed = self.scope.write_set(alloc, &mut octets);
        self.scope.region = Region::at(0, 0);
        self.scope.is_open = false;
        self.is_inside = false;
        (octets, insertions, closed)
    }

    /// The output and the insertions, where no scope is open.
    #[inline(always)]
    pub(crate) fn into_parts(self) -> (Vec<u8>, Insertions)
        requires { self.frame.is_open ≡ false }
        ensures holds { Holds self.entry result.0.items result.1 }
        ensures alone { self.entry.outer ≡ lent_frame false ∷ [] → result.1 ≡ [] }
    {
        let Encoder {
            output,
            insertions,
            scope: _,
            is_lent: _,
            is_inside: _,
            alloc,
        } = self;
        (std::mem::replace(output, Vec::new(alloc)), insertions)
    }
}

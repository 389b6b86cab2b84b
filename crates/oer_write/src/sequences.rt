//! Sequences: a closure writes the components straight behind the octets of before; the preamble is put in front of them.
ghost use Rattle.std.specs.Prelude.{◌≡◌, ◌<◌, ◌≤◌, ◌++◌, ◌⊎◌, take, [], false, length, OnOk, OnErr, IfErr};
ghost use Rattle.std.specs.Fn.{FnOnceTakesAtMut};
ghost use Rattle.asn1_core.specs.Octets.{Octets};
ghost use Rattle.asn1_core.specs.declared.error.EncodeErrorKind.TheVariants.{OutOfMemory};
ghost use Rattle.oer_spec.specs.Tree.{Rows, Struct};
ghost use Rattle.oer_write.specs.Rows.{IsKnownToWrite};
ghost use Rattle.oer_write.specs.Scopes.{Promise, IsNew, IsOrderly, RanInScope, Closed, Stopped, Broken, sequence_octets};
ghost use Rattle.oer_write.specs.Held.{Kept};
ghost use Rattle.oer_write.specs.Layout.{Adds, Ascends, slots};
ghost use Rattle.oer_write.specs.Preambles.{IsSized, preamble_octets};
ghost use Rattle.oer_write.specs.Written.{Written, WriteFrame, Encodes, Refused, WantsMemory};

use crate::encoder::Encoder;
use crate::insertions::Insertions;
use crate::scopes::{Preamble, close_scope, lend, open_scope};
use asn1_core::{Constructed, EncodeError, EncodeErrorKind, Tag};
use std::alloc::Global;

/// The same with more than eight octets.
#[inline(always)]
fn close_long(
    alloc: Global,
    is_inside: bool,
    start: usize,
    slot: usize,
    octets: &[u8],
    output: &mut Vec<u8>,
    insertions: &mut Insertions,
) -> Result<(), EncodeErrorKind>
    requires many { 8 < length octets.now }
    requires slot { slot ≤ length insertions.old }
    requires start { start ≤ length output.old.items }
    requires alone { is_inside ≡ false → slot ≡ 0 }
    requires adds { (content : Octets) × Adds content (take start output.old.items) (take slot insertions.old ++ slots is_inside start) output.old.items insertions.old }
    ensures done { (content : Octets) → Adds content (take start output.old.items) (take slot insertions.old ++ slots is_inside start) output.old.items insertions.old → OnOk result (Adds (octets.now ++ content) (take start output.old.items) (take slot insertions.old) output.new.items insertions.new) }
    ensures refused { IfErr result (λ k. (k ≡ OutOfMemory) × (output.new.items ≡ output.old.items) × (insertions.new ≡ insertions.old)) }
    ensures alone { is_inside ≡ false → OnOk result (insertions.new ≡ []) }
{
    if is_inside {
        return insertions.fill_apart(alloc, slot, octets);
    }
    insertions.join_apart(alloc, start, octets, output)
}

/// Closes a sequence by its preamble.
#[inline(always)]
fn close_by(
    alloc: Global,
    is_inside: bool,
    start: usize,
    slot: usize,
    preamble: Preamble,
    output: &mut Vec<u8>,
    insertions: &mut Insertions,
) -> Result<(), EncodeErrorKind>
    requires sized { IsSized preamble }
    requires slot { slot ≤ length insertions.old }
    requires start { start ≤ length output.old.items }
    requires alone { is_inside ≡ false → slot ≡ 0 }
    requires adds { (content : Octets) × Adds content (take start output.old.items) (take slot insertions.old ++ slots is_inside start) output.old.items insertions.old }
    ensures done { (content : Octets) → Adds content (take start output.old.items) (take slot insertions.old ++ slots is_inside start) output.old.items insertions.old → OnOk result (Adds (preamble_octets preamble ++ content) (take start output.old.items) (take slot insertions.old) output.new.items insertions.new) }
    ensures refused { IfErr result (λ k. (k ≡ OutOfMemory) × (output.new.items ≡ output.old.items) × (insertions.new ≡ insertions.old)) }
    ensures alone { is_inside ≡ false → OnOk result (insertions.new ≡ []) }
{
    match preamble {
        Preamble::Few(octets) => close_scope(is_inside, start, slot, octets, output, insertions),
        Preamble::Many(octets) => close_long(
            alloc,
            is_inside,
            start,
            slot,
            octets.as_slice(),
            output,
            insertions,
        ),
    }
}

/// Writes a sequence: the octets of its root components and additions straight behind those of before.
#[inline(always)]
fn write_sequence<F: FnOnce(&mut Encoder<'_>) -> Result<(), EncodeError>>(
    alloc: Global,
    extensible: bool,
    is_inside: bool,
    output: &mut Vec<u8>,
    insertions: &mut Insertions,
    f: F,
) -> Result<(), EncodeError>
    requires callable { (lent : Written) → IsNew false extensible lent → FnOnceTakesAtMut F.FnOnce f lent }
    requires orderly { IsOrderly false extensible (Promise F.FnOnce f) }
    requires alone { is_inside ≡ false → insertions.old ≡ [] }
    requires ascends { Ascends 0 insertions.old (length output.old.items) }
    ensures done { OnOk result ((frame : WriteFrame) × (o : Octets) × RanInScope (Promise F.FnOnce f) false extensible frame o × Adds (sequence_octets frame o) output.old.items insertions.old output.new.items insertions.new) }
    ensures refused { IfErr result (λ x. WantsMemory x ⊎ Stopped (Promise F.FnOnce f) false extensible x) }
    ensures kept { Kept output.old.items insertions.old output.new.items insertions.new }
    ensures alone { is_inside ≡ false → OnOk result (insertions.new ≡ []) }
{
    let start = output.len();
    let slot = insertions.len();
    open_scope(alloc, is_inside, &mut *output, &mut *insertions)?;
    let (answer, octets, pieces, closed) = {
        let empty = Insertions::new(alloc);
        let pieces = std::mem::replace(&mut *insertions, empty);
        let mut inner = Encoder::open(alloc, false, extensible, pieces, &mut *output);
        let answer = lend(&mut inner, f);
        let (octets, pieces, closed) = inner.close_sequence();
        (answer, octets, pieces, closed)
    };
    *output = octets;
    *insertions = pieces;
    answer?;
    let preamble = closed?;
    close_by(alloc, is_inside, start, slot, preamble, output, insertions)?;
    Ok(())
}

/// Writes a sequence; where it refuses, the output and the insertions are as before.
fn put_sequence<F: FnOnce(&mut Encoder<'_>) -> Result<(), EncodeError>>(
    alloc: Global,
    extensible: bool,
    is_inside: bool,
    output: &mut Vec<u8>,
    insertions: &mut Insertions,
    f: F,
) -> Result<(), EncodeError>
    requires callable { (lent : Written) → IsNew false extensible lent → FnOnceTakesAtMut F.FnOnce f lent }
    requires orderly { IsOrderly false extensible (Promise F.FnOnce f) }
    requires alone { is_inside ≡ false → insertions.old ≡ [] }
    requires ascends { Ascends 0 insertions.old (length output.old.items) }
    ensures done { OnOk result ((frame : WriteFrame) × (o : Octets) × RanInScope (Promise F.FnOnce f) false extensible frame o × Adds (sequence_octets frame o) output.old.items insertions.old output.new.items insertions.new) }
    ensures refused { IfErr result (λ x. WantsMemory x ⊎ Stopped (Promise F.FnOnce f) false extensible x) }
    ensures unchanged { OnErr result (output.new.items ≡ output.old.items) }
    ensures kept { OnErr result (insertions.new ≡ insertions.old) }
    ensures alone { is_inside ≡ false → OnOk result (insertions.new ≡ []) }
{
    let start = output.len();
    let slot = insertions.len();
    match write_sequence(
        alloc,
        extensible,
        is_inside,
        &mut *output,
        &mut *insertions,
        f,
    ) {
        Ok(()) => Ok(()),
        Err(e) => {
            output.truncate(start);
            insertions.cut_apart(alloc, slot);
            Err(e)
        }
    }
}

impl<'buffer> Encoder<'buffer> {
    /// Writes a SEQUENCE (X.696, 16), whose components the closure writes in a scope of its own.
    ///
    /// What the closure recorded and wrote there decides what is appended: the preamble of the extension bit and the
    /// presence bits, the root components, and where some addition is present the bitmap and the open types. So a closure
    /// that is known to write the rows of a sequence writes that sequence. Refused by what the closure refused, or for
    /// want of memory.
    #[inline(always)]
    pub fn encode_sequence<
        const RL: usize,
        const EL: usize,
        C: Constructed<RL, EL>,
        F: FnOnce(&mut Encoder<'_>) -> Result<(), EncodeError>,
    >(&mut self, _tag: Tag, f: F) -> Result<(), EncodeError>
        requires callable { (lent : Written) → IsNew false C.IS_EXTENSIBLE lent → FnOnceTakesAtMut F.FnOnce f lent }
        requires orderly { IsOrderly false C.IS_EXTENSIBLE (Promise F.FnOnce f) }
        ensures done { OnOk result (Closed (Promise F.FnOnce f) C.IS_EXTENSIBLE self.old self.new) }
        ensures refused { IfErr result (λ x. Broken (Promise F.FnOnce f) false C.IS_EXTENSIBLE x self.old self.new) }
        ensures tree { (roots additions : Rows) → IsKnownToWrite C.IS_EXTENSIBLE (Promise F.FnOnce f) roots additions → OnOk result (Encodes (Struct false C.IS_EXTENSIBLE roots additions) self.old self.new) }
        ensures tree_refused { (roots additions : Rows) → IsKnownToWrite C.IS_EXTENSIBLE (Promise F.FnOnce f) roots additions → IfErr result (λ x. Refused (Struct false C.IS_EXTENSIBLE roots additions) x self.old self.new) }
    {
        self.sequence(C::IS_EXTENSIBLE, f)
    }

    #[tactic(auto, using(crate::proofs::Regions::more_shown, crate::proofs::Regions::more_within))]
    #[inline(always)]
    fn sequence<F: FnOnce(&mut Encoder<'_>) -> Result<(), EncodeError>>(
        &mut self,
        extensible: bool,
        f: F,
    ) -> Result<(), EncodeError>
        requires callable { (lent : Written) → IsNew false extensible lent → FnOnceTakesAtMut F.FnOnce f lent }
        requires orderly { IsOrderly false extensible (Promise F.FnOnce f) }
        ensures done { OnOk result (Closed (Promise F.FnOnce f) extensible self.old self.new) }
        ensures refused { IfErr result (λ x. Broken (Promise F.FnOnce f) false extensible x self.old self.new) }
        ensures unchanged { OnErr result (self.new ≡ self.old) }
    {
        let empty = Insertions::new(self.alloc);
        let mut pieces = std::mem::replace(&mut self.insertions, empty);
        let answer = put_sequence(
            self.alloc,
            extensible,
            self.is_inside,
            &mut *self.output,
            &mut pieces,
            f,
        );
        self.insertions = pieces;
        answer?;
        Ok(())
    }
}

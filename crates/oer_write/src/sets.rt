//! Sets: root components in the order of their tags, whatever the order in which they are handed in.
ghost use Rattle.std.specs.Prelude.{◌≡◌, ◌++◌, ◌⊎◌, List, [], true, length, map, OnOk, OnErr, IfErr};
ghost use Rattle.std.specs.Fn.{FnOnceTakesAtMut};
ghost use Rattle.asn1_core.specs.Octets.{Octets};
ghost use Rattle.asn1_core.specs.declared.error.EncodeErrorKind.TheVariants.{OutOfMemory};
ghost use Rattle.oer_spec.specs.Places.{bodies, by_tag, presence};
ghost use Rattle.oer_spec.specs.Tree.{Rows, Struct};
ghost use Rattle.oer_spec.specs.Writing.{AppendsOrMemory, BeginsWith};
ghost use Rattle.oer_write.specs.Kept.{item};
ghost use Rattle.oer_write.specs.Rows.{IsKnownToWriteSet};
ghost use Rattle.oer_write.specs.Scopes.{Promise, IsNew, IsOrderly, IsSameInAnyOrder, RanInScope, SetClosed, Stopped, Broken, set_octets};
ghost use Rattle.oer_write.specs.Seen.{frame_of};
ghost use Rattle.oer_write.specs.Written.{Written, WriteFrame, Encodes, Refused, WantsMemory};
ghost use Rattle.oer_write.specs.Layout.{Ascends, Piece};

use crate::bits::Bits;
use crate::component::{Component, Components, body_of};
use crate::encoder::Encoder;
use crate::insertions::Insertions;
use crate::scopes::{Scope, lend};
use asn1_core::{Constructed, EncodeError, EncodeErrorKind, Tag};
use std::alloc::Global;

/// Sorts components by their tags.
fn arrange(components: &mut Vec<Component>) -> Result<(), EncodeErrorKind>
    ensures done { OnOk result ((o : Octets) → map (item o) components.new.items ≡ by_tag (map (item o) components.old.items)) }
    ensures refused { IfErr result (λ k. k ≡ OutOfMemory) }
{
    components.sort_by_key(|component| component.key)?;
    Ok(())
}

/// Appends the presence bits of components.
fn put_presence(
    alloc: Global,
    components: &[Component],
    bits: &mut Bits,
) -> Result<(), EncodeErrorKind>
    ensures done { OnOk result (bits.new ≡ bits.old ++ presence (map (item []) components.now)) }
    ensures refused { IfErr result (λ k. k ≡ OutOfMemory) }
{
    for component in components {
        if component.marked {
            bits.push(alloc, component.bit)?;
        }
    }
    Ok(())
}

/// Appends the octets of components.
fn put_bodies(
    components: &[Component],
    octets: &[u8],
    out: &mut Vec<u8>,
) -> Result<(), EncodeErrorKind>
    ensures done { OnOk result (out.new.items ≡ out.old.items ++ bodies (map (item octets.now) components.now)) }
    ensures refused { IfErr result (λ k. k ≡ OutOfMemory) }
    ensures begins { BeginsWith out.old.items out.new.items }
{
    for component in components {
        out.extend_from_slice(body_of(component, octets))?;
    }
    Ok(())
}

impl Scope {
    /// Writes a set, its components and their presence bits in the order of their tags (X.696, 18).
    pub(crate) fn write_set(
        &mut self,
        alloc: Global,
        out: &mut Vec<u8>,
    ) -> Result<(), EncodeErrorKind>
        requires { self.old.is_set ≡ true }
        ensures { (o : Octets) (is : List Piece) → AppendsOrMemory result (set_octets (frame_of o is self.old)) out.old.items out.new.items }
    {
        let Components {
            mut places,
            octets,
            insertions: _,
        } = std::mem::replace(&mut self.components, Components::new(alloc));
        arrange(&mut places)?;
        let mut presence = Bits::new(alloc);
        put_presence(alloc, &places, &mut presence)?;
        self.write_preamble(alloc, &presence, out)?;
        put_bodies(&places, &octets, out)?;
        self.write_extension(alloc, out)
    }
}

/// Writes a set; octets that the closure writes otherwise than by the calls for components and additions are dropped.
fn write_set<F: FnOnce(&mut Encoder<'_>) -> Result<(), EncodeError>>(
    alloc: Global,
    extensible: bool,
    output: &mut Vec<u8>,
    insertions: &mut Insertions,
    f: F,
) -> Result<(), EncodeError>
    requires callable { (lent : Written) → IsNew true extensible lent → FnOnceTakesAtMut F.FnOnce f lent }
    requires orderly { IsOrderly true extensible (Promise F.FnOnce f) }
    requires ascends { Ascends 0 insertions.old (length output.old.items) }
    ensures done { OnOk result ((frame : WriteFrame) × (o : Octets) × RanInScope (Promise F.FnOnce f) true extensible frame o × (output.new.items ≡ output.old.items ++ set_octets frame)) }
    ensures refused { IfErr result (λ x. WantsMemory x ⊎ Stopped (Promise F.FnOnce f) true extensible x) }
    ensures begins { BeginsWith output.old.items output.new.items }
    ensures kept { insertions.new ≡ insertions.old }
{
    let (answer, octets, pieces, closed) = {
        let empty = Insertions::new(alloc);
        let pieces = std::mem::replace(&mut *insertions, empty);
        let mut inner = Encoder::open(alloc, true, extensible, pieces, &mut *output);
        let answer = lend(&mut inner, f);
        let (octets, pieces, closed) = inner.close_set();
        (answer, octets, pieces, closed)
    };
    *output = octets;
    *insertions = pieces;
    answer?;
    closed?;
    Ok(())
}

/// Writes a set; where it refuses, the output is as before.
#[tactic(auto, using(crate::proofs::Filling::cut_begun))]
fn put_set<F: FnOnce(&mut Encoder<'_>) -> Result<(), EncodeError>>(
    alloc: Global,
    extensible: bool,
    output: &mut Vec<u8>,
    insertions: &mut Insertions,
    f: F,
) -> Result<(), EncodeError>
    requires callable { (lent : Written) → IsNew true extensible lent → FnOnceTakesAtMut F.FnOnce f lent }
    requires orderly { IsOrderly true extensible (Promise F.FnOnce f) }
    requires ascends { Ascends 0 insertions.old (length output.old.items) }
    ensures done { OnOk result ((frame : WriteFrame) × (o : Octets) × RanInScope (Promise F.FnOnce f) true extensible frame o × (output.new.items ≡ output.old.items ++ set_octets frame)) }
    ensures refused { IfErr result (λ x. WantsMemory x ⊎ Stopped (Promise F.FnOnce f) true extensible x) }
    ensures unchanged { OnErr result (output.new.items ≡ output.old.items) }
    ensures kept { insertions.new ≡ insertions.old }
{
    let start = output.len();
    match write_set(alloc, extensible, &mut *output, &mut *insertions, f) {
        Ok(()) => Ok(()),
        Err(e) => {
            output.truncate(start);
            Err(e)
        }
    }
}

impl<'buffer> Encoder<'buffer> {
    /// Writes a SET (X.696, 18), whose components the closure writes in a scope of its own.
    ///
    /// Each root component is kept apart; as the closure ends they are written in the order of their tags, and so are
    /// their presence bits, whatever the order in which they were handed in. Octets that the closure writes otherwise than by
    /// the calls for components and additions are dropped. Refused by what the closure refused, or for want of memory.
    pub fn encode_set<
        const RL: usize,
        const EL: usize,
        C: Constructed<RL, EL>,
        F: FnOnce(&mut Encoder<'_>) -> Result<(), EncodeError>,
    >(&mut self, _tag: Tag, f: F) -> Result<(), EncodeError>
        requires callable { (lent : Written) → IsNew true C.IS_EXTENSIBLE lent → FnOnceTakesAtMut F.FnOnce f lent }
        requires orderly { IsOrderly true C.IS_EXTENSIBLE (Promise F.FnOnce f) }
        ensures done { OnOk result (SetClosed (Promise F.FnOnce f) C.IS_EXTENSIBLE self.old self.new) }
        ensures refused { IfErr result (λ x. Broken (Promise F.FnOnce f) true C.IS_EXTENSIBLE x self.old self.new) }
        ensures tree { (roots additions : Rows) → IsKnownToWriteSet C.IS_EXTENSIBLE (Promise F.FnOnce f) roots additions → OnOk result (Encodes (Struct true C.IS_EXTENSIBLE roots additions) self.old self.new) }
        ensures tree_refused { (roots additions : Rows) → IsKnownToWriteSet C.IS_EXTENSIBLE (Promise F.FnOnce f) roots additions → IfErr result (λ x. Refused (Struct true C.IS_EXTENSIBLE roots additions) x self.old self.new) }
        ensures any_order { IsSameInAnyOrder }
    {
        self.set(C::IS_EXTENSIBLE, f)
    }

    #[tactic(auto, using(crate::proofs::Regions::more_shown, crate::proofs::Regions::more_within))]
    fn set<F: FnOnce(&mut Encoder<'_>) -> Result<(), EncodeError>>(
        &mut self,
        extensible: bool,
        f: F,
    ) -> Result<(), EncodeError>
        requires callable { (lent : Written) → IsNew true extensible lent → FnOnceTakesAtMut F.FnOnce f lent }
        requires orderly { IsOrderly true extensible (Promise F.FnOnce f) }
        ensures done { OnOk result (SetClosed (Promise F.FnOnce f) extensible self.old self.new) }
        ensures refused { IfErr result (λ x. Broken (Promise F.FnOnce f) true extensible x self.old self.new) }
        ensures unchanged { OnErr result (self.new ≡ self.old) }
    {
        let empty = Insertions::new(self.alloc);
        let mut pieces = std::mem::replace(&mut self.insertions, empty);
        let answer = put_set(self.alloc, extensible, &mut *self.output, &mut pieces, f);
        self.insertions = pieces;
        answer
    }
}

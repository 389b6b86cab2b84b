//! Components of the open scope: required and optional ones, and those that a closure writes. Explicit prefixes.
ghost use Rattle.std.specs.Prelude.{◌≡◌, true, false, [], ◌∷◌, ◌++◌, ◌⊎◌, length, OnOk, IfErr, IfSome};
ghost use Rattle.asn1_core.specs.declared.codec.Codec.TheVariants.{Coer};
ghost use Rattle.asn1_core.specs.declared.error.EncodeErrorKind.TheVariants.{OutOfMemory};
ghost use Rattle.oer_spec.specs.Encoding.{IsEncodable, canonical_octets};
ghost use Rattle.oer_spec.specs.Places.{absent, needed};
ghost use Rattle.oer_spec.specs.Spelled.{IsConsistent};
ghost use Rattle.oer_spec.specs.Tree.{NoRows, Present, Absent, slot_of, Tree};
ghost use Rattle.oer_spec.specs.Failures.{Fails};
ghost use Rattle.oer_write.specs.Layout.{Adds, Ascends};
ghost use Rattle.oer_write.specs.Rows.{WritesRows, InSequence, InSet, required, optional};
ghost use Rattle.oer_write.specs.Written.{Keeps, Encodes, Refused, WantsMemory, Written};
ghost use Rattle.std.specs.Fn.{FnOnceTakesAtMut};
ghost use Rattle.asn1_core.specs.Octets.{Octets};
ghost use Rattle.oer_write.specs.ByClosure.{AppendedBy, RefusedInside, PutBy, KeptBy, ComponentBroken, IsKnownToWriteTree};
ghost use Rattle.oer_write.specs.Lists.{WroteElement, IsOrderlyHere};
ghost use Rattle.oer_write.specs.Scopes.{Promise};

use crate::component::{Component, Components, push_place};
use crate::encode::Encode;
use crate::encoder::Encoder;
use crate::insertions::Insertions;
use asn1_core::{Constraints, EncodeError, EncodeErrorKind, Tag};
use std::alloc::Global;

impl<'buffer> Encoder<'buffer> {
    /// Records a presence bit of a sequence.
    #[inline(always)]
    fn mark(&mut self, bit: bool) -> Result<(), EncodeErrorKind>
        ensures done { OnOk result (self.new ≡ record self.old { frame = record self.old.frame { presence = self.old.frame.presence ++ (bit ∷ []) } }) }
        ensures refused { IfErr result (λ k. (k ≡ OutOfMemory) × Keeps self.old self.new) }
    {
        self.scope.presence.push(self.alloc, bit)?;
        Ok(())
    }

    /// Writes an optional component of a sequence that is present, whatever scope is open.
    #[inline(always)]
    fn write_present<E: Encode>(
        &mut self,
        tag: Tag,
        constraints: Constraints,
        value: &E,
    ) -> Result<(), EncodeError>
        requires { IsConsistent constraints }
        ensures written { WritesRows (optional tag (Present (E.tree constraints value.now))) NoRows self.old result self.new }
        ensures value { OnOk result (E.IsValue value.now) }
    {
        self.mark(true)?;
        value.encode_with_tag_and_constraints(self, tag, constraints)
    }

    /// Keeps a component of a set apart: the components are lent to the call, and the encoder isn't.
    #[inline(always)]
    fn keep_component<E: Encode>(
        &mut self,
        tag: Tag,
        constraints: Constraints,
        marked: bool,
        value: &E,
    ) -> Result<(), EncodeError>
        requires { IsConsistent constraints }
        ensures encodable { OnOk result (IsEncodable (E.tree constraints value.now)) }
        ensures done { OnOk result (self.new ≡ record self.old { frame = record self.old.frame { components = self.old.frame.components ++ (record { tag = tag; marked = marked; bit = true; octets = canonical_octets (E.tree constraints value.now) } ∷ []) } }) }
        ensures value { OnOk result (E.IsValue value.now) }
        ensures refused { IfErr result (λ x. (x.kind ≡ OutOfMemory) ⊎ Fails (E.tree constraints value.now) x.kind) }
        ensures mode { IfErr result (λ x. x.codec ≡ Coer) }
        ensures keeps { Keeps self.old self.new }
    {
        let mut components = self.take_components();
        let answer = components.push_value(self.alloc, tag, constraints, marked, value);
        self.scope.components = components;
        answer
    }

    /// The same where it is absent.
    #[inline(always)]
    fn keep_absent(&mut self, tag: Tag) -> Result<(), EncodeError>
        ensures done { OnOk result (self.new ≡ record self.old { frame = record self.old.frame { components = self.old.frame.components ++ (absent tag ∷ []) } }) }
        ensures refused { IfErr result (λ x. WantsMemory x) }
        ensures keeps { Keeps self.old self.new }
    {
        let mut components = self.take_components();
        let answer = components.push_absent(tag);
        self.scope.components = components;
        answer?;
        Ok(())
    }

    /// Takes out the components of a set, to be lent to a call; they are put back behind it.
    #[inline(always)]
    pub(crate) fn take_components(&mut self) -> Components
        ensures taken { result ≡ self.old.frame.components }
        ensures left { self.new ≡ record self.old { frame = record self.old.frame { components = [] } } }
    {
        std::mem::replace(&mut self.scope.components, Components::new(self.alloc))
    }

    /// Writes a required component under constraints that stand in place of the type's own.
    ///
    /// In a set this is the only way to write one. Refused by what the value is refused by.
    #[inline(always)]
    pub fn encode_component<E: Encode>(
        &mut self,
        tag: Tag,
        constraints: Constraints,
        value: &E,
    ) -> Result<(), EncodeError>
        requires { IsConsistent constraints }
        ensures in_sequence { InSequence (required tag (E.tree constraints value.now)) NoRows self.old result self.new }
        ensures in_set { InSet (required tag (E.tree constraints value.now)) NoRows self.old result self.new }
        ensures value { OnOk result (E.IsValue value.now) }
    {
        if self.scope.is_set {
            return self.keep_component(tag, constraints, false, value);
        }
        value.encode_with_tag_and_constraints(self, tag, constraints)?;
        Ok(())
    }

    /// Writes an optional component of a sequence (X.696, 16): its presence bit, and the value that is there under the
    /// type's own constraints.
    ///
    /// It doesn't ask what scope is open: as a set closes, what it wrote is dropped. Refused by what the value is refused by,
    /// or for want of memory; the octets of before and the open scopes stay.
    #[inline(always)]
    pub fn encode_optional_in_sequence<E: Encode>(
        &mut self,
        tag: Tag,
        value: Option<&E>,
    ) -> Result<(), EncodeError>
        ensures written { WritesRows (optional tag (slot_of (λ x. E.tree E.CONSTRAINTS x.now) value.entry)) NoRows self.old result self.new }
        ensures value { OnOk result (IfSome value.entry (λ x. E.IsValue x.now)) }
    {
        self.mark(value.is_some())?;
        match value {
            Some(value) => value.encode_with_tag(self, tag),
            None => Ok(()),
        }
    }

    /// Writes an optional component that is present, under constraints that stand in place of the type's own.
    ///
    /// Refused by what the value is refused by.
    #[inline(always)]
    pub fn encode_some_with_tag_and_constraints<E: Encode>(
        &mut self,
        tag: Tag,
        constraints: Constraints,
        value: &E,
    ) -> Result<(), EncodeError>
        requires { IsConsistent constraints }
        ensures in_sequence { InSequence (optional tag (Present (E.tree constraints value.now))) NoRows self.old result self.new }
        ensures in_set { InSet (optional tag (Present (E.tree constraints value.now))) NoRows self.old result self.new }
        ensures value { OnOk result (E.IsValue value.now) }
    {
        if self.scope.is_set {
            return self.keep_component(tag, constraints, true, value);
        }
        self.write_present(tag, constraints, value)
    }

    /// Writes an optional component that is present, with the type's own tag and constraints.
    ///
    /// Refused by what the value is refused by.
    #[inline(always)]
    pub fn encode_some<E: Encode>(&mut self, value: &E) -> Result<(), EncodeError>
        ensures in_sequence { InSequence (optional E.TAG (Present (E.tree E.CONSTRAINTS value.now))) NoRows self.old result self.new }
        ensures in_set { InSet (optional E.TAG (Present (E.tree E.CONSTRAINTS value.now))) NoRows self.old result self.new }
        ensures value { OnOk result (E.IsValue value.now) }
    {
        self.encode_some_with_tag_and_constraints(E::TAG, E::CONSTRAINTS, value)
    }

    /// Records that an optional component is absent.
    ///
    /// Refused for want of memory alone.
    #[inline(always)]
    pub fn encode_none_with_tag(&mut self, tag: Tag) -> Result<(), EncodeError>
        ensures in_sequence { InSequence (optional tag Absent) NoRows self.old result self.new }
        ensures in_set { InSet (optional tag Absent) NoRows self.old result self.new }
    {
        if self.scope.is_set {
            return self.keep_absent(tag);
        }
        self.mark(false)?;
        Ok(())
    }

    /// Records that an optional component with the type's own tag is absent.
    ///
    /// Refused for want of memory alone.
    #[inline(always)]
    pub fn encode_none<E: Encode>(&mut self) -> Result<(), EncodeError>
        ensures in_sequence { InSequence (optional E.TAG Absent) NoRows self.old result self.new }
        ensures in_set { InSet (optional E.TAG Absent) NoRows self.old result self.new }
    {
        self.encode_none_with_tag(E::TAG)
    }

    /// Writes a value behind an explicit tag, of which the octet encoding rules write nothing (X.696, 8.7).
    #[inline(always)]
    pub fn encode_explicit_prefix<E: Encode>(
        &mut self,
        _tag: Tag,
        value: &E,
    ) -> Result<(), EncodeError>
        ensures done { OnOk result (Encodes (E.tree E.CONSTRAINTS value.now) self.old self.new) }
        ensures value { OnOk result (E.IsValue value.now) }
        ensures refused { IfErr result (λ x. Refused (E.tree E.CONSTRAINTS value.now) x self.old self.new) }
    {
        value.encode(self)
    }
}

/// Lends an encoder to a closure.
#[inline(always)]
fn lend_to<F: FnOnce(&mut Encoder<'_>) -> Result<(), EncodeError>>(
    encoder: &mut Encoder<'_>,
    f: F,
) -> Result<(), EncodeError>
    requires callable { FnOnceTakesAtMut F.FnOnce f encoder.old }
    ensures { Promise F.FnOnce f encoder.old result encoder.new }
{
    f(encoder)
}

/// Lends an encoder with no scope open to a closure.
#[inline(always)]
fn put_by<F: FnOnce(&mut Encoder<'_>) -> Result<(), EncodeError>>(
    encoder: &mut Encoder<'_>,
    f: F,
) -> Result<(), EncodeError>
    requires callable { FnOnceTakesAtMut F.FnOnce f encoder.old }
    requires orderly { IsOrderlyHere (Promise F.FnOnce f) }
    requires shut { encoder.old.frame.is_open ≡ false }
    ensures done { OnOk result (AppendedBy (Promise F.FnOnce f) encoder.old.octets encoder.new.octets) }
    ensures refused { IfErr result (λ x. RefusedInside (Promise F.FnOnce f) x) }
    ensures keeps { Keeps encoder.old encoder.new }
{
    lend_to(encoder, f)?;
    Ok(())
}

/// Lends an encoder with no scope open, over an output.
#[inline(always)]
fn put_into<F: FnOnce(&mut Encoder<'_>) -> Result<(), EncodeError>>(
    alloc: Global,
    is_inside: bool,
    f: F,
    out: &mut Vec<u8>,
    insertions: &mut Insertions,
) -> Result<(), EncodeError>
    requires callable { (lent : Written) → lent.frame.is_open ≡ false → FnOnceTakesAtMut F.FnOnce f lent }
    requires orderly { IsOrderlyHere (Promise F.FnOnce f) }
    requires alone { is_inside ≡ false → insertions.old ≡ [] }
    requires ascends { Ascends 0 insertions.old (length out.old.items) }
    ensures done { OnOk result ((o : Octets) × WroteElement (Promise F.FnOnce f) o × Adds o out.old.items insertions.old out.new.items insertions.new) }
    ensures refused { IfErr result (λ x. RefusedInside (Promise F.FnOnce f) x) }
    ensures grown { (o : Octets) × Adds o out.old.items insertions.old out.new.items insertions.new }
    ensures alone { is_inside ≡ false → insertions.new ≡ [] }
{
    let empty = Insertions::new(alloc);
    let pieces = std::mem::replace(&mut *insertions, empty);
    let mut inner = Encoder::lent(alloc, is_inside, pieces, &mut *out);
    let answer = put_by(&mut inner, f);
    let (octets, pieces) = inner.into_parts();
    *out = octets;
    *insertions = pieces;
    answer
}

impl Components {
    /// Writes a required component by a closure behind the others.
    fn push_by<F: FnOnce(&mut Encoder<'_>) -> Result<(), EncodeError>>(
        &mut self,
        alloc: Global,
        tag: Tag,
        f: F,
    ) -> Result<(), EncodeError>
        requires callable { (lent : Written) → lent.frame.is_open ≡ false → FnOnceTakesAtMut F.FnOnce f lent }
        requires orderly { IsOrderlyHere (Promise F.FnOnce f) }
        ensures done { OnOk result ((o : Octets) × WroteElement (Promise F.FnOnce f) o × (self.new ≡ self.old ++ (needed tag o ∷ []))) }
        ensures refused { IfErr result (λ x. WantsMemory x ⊎ RefusedInside (Promise F.FnOnce f) x) }
    {
        let start = self.octets.len();
        put_into(alloc, false, f, &mut self.octets, &mut self.insertions)?;
        let size = self.octets.len() - start;
        push_place(
            &mut self.places,
            Component::new(tag, false, true, start, size),
        )?;
        Ok(())
    }
}

impl<'buffer> Encoder<'buffer> {
    /// Writes a required component by a closure (X.696, 16 and 18), as `encode_component` writes one by its type.
    ///
    /// The closure is lent an encoder with no scope open. What it appends there is in a sequence appended to what was
    /// written before; in a set it is kept apart under the tag, until the set is closed. So a closure that is known to
    /// write a tree writes that tree's row. Refused by what the closure refused, or for want of memory.
    ///
    /// rasn has no such call. It serves a component whose type contains itself: its writer calls itself in the closure.
    pub fn encode_component_with<F: FnOnce(&mut Encoder<'_>) -> Result<(), EncodeError>>(
        &mut self,
        tag: Tag,
        f: F,
    ) -> Result<(), EncodeError>
        requires callable { (lent : Written) → lent.frame.is_open ≡ false → FnOnceTakesAtMut F.FnOnce f lent }
        requires orderly { IsOrderlyHere (Promise F.FnOnce f) }
        ensures in_sequence { self.old.frame.is_set ≡ false → OnOk result (PutBy (Promise F.FnOnce f) self.old self.new) }
        ensures in_set { self.old.frame.is_set ≡ true → OnOk result (KeptBy (Promise F.FnOnce f) tag self.old self.new) }
        ensures refused { IfErr result (λ x. ComponentBroken (Promise F.FnOnce f) x self.old self.new) }
        ensures tree { (t : Tree) → IsKnownToWriteTree (Promise F.FnOnce f) t → InSequence (required tag t) NoRows self.old result self.new }
        ensures tree_in_set { (t : Tree) → IsKnownToWriteTree (Promise F.FnOnce f) t → InSet (required tag t) NoRows self.old result self.new }
    {
        self.component_by(tag, f)
    }

    fn component_by<F: FnOnce(&mut Encoder<'_>) -> Result<(), EncodeError>>(
        &mut self,
        tag: Tag,
        f: F,
    ) -> Result<(), EncodeError>
        requires callable { (lent : Written) → lent.frame.is_open ≡ false → FnOnceTakesAtMut F.FnOnce f lent }
        requires orderly { IsOrderlyHere (Promise F.FnOnce f) }
        ensures in_sequence { self.old.frame.is_set ≡ false → OnOk result (PutBy (Promise F.FnOnce f) self.old self.new) }
        ensures in_set { self.old.frame.is_set ≡ true → OnOk result (KeptBy (Promise F.FnOnce f) tag self.old self.new) }
        ensures refused { IfErr result (λ x. ComponentBroken (Promise F.FnOnce f) x self.old self.new) }
    {
        if self.scope.is_set {
            return self.keep_by(tag, f);
        }
        self.put_inside(f)
    }

    /// Keeps a component of a set apart: the components are lent to the call, and the encoder isn't.
    fn keep_by<F: FnOnce(&mut Encoder<'_>) -> Result<(), EncodeError>>(
        &mut self,
        tag: Tag,
        f: F,
    ) -> Result<(), EncodeError>
        requires callable { (lent : Written) → lent.frame.is_open ≡ false → FnOnceTakesAtMut F.FnOnce f lent }
        requires orderly { IsOrderlyHere (Promise F.FnOnce f) }
        ensures done { OnOk result (KeptBy (Promise F.FnOnce f) tag self.old self.new) }
        ensures refused { IfErr result (λ x. WantsMemory x ⊎ RefusedInside (Promise F.FnOnce f) x) }
        ensures keeps { Keeps self.old self.new }
    {
        let mut components = self.take_components();
        let answer = components.push_by(self.alloc, tag, f);
        self.scope.components = components;
        answer
    }

    /// Lends an encoder with no scope open, over the same output.
    fn put_inside<F: FnOnce(&mut Encoder<'_>) -> Result<(), EncodeError>>(
        &mut self,
        f: F,
    ) -> Result<(), EncodeError>
        requires callable { (lent : Written) → lent.frame.is_open ≡ false → FnOnceTakesAtMut F.FnOnce f lent }
        requires orderly { IsOrderlyHere (Promise F.FnOnce f) }
        ensures in_sequence { OnOk result (PutBy (Promise F.FnOnce f) self.old self.new) }
        ensures refused { IfErr result (λ x. RefusedInside (Promise F.FnOnce f) x) }
        ensures keeps { Keeps self.old self.new }
    {
        let empty = Insertions::new(self.alloc);
        let mut pieces = std::mem::replace(&mut self.insertions, empty);
        let answer = put_into(
            self.alloc,
            self.is_inside,
            f,
            &mut *self.output,
            &mut pieces,
        );
        self.insertions = pieces;
        answer
    }
}

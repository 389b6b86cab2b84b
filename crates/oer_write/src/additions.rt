//! Extension additions of the open scope: each that is present is written as an open type.
ghost use Rattle.std.specs.Prelude.{◌≡◌, ◌≤◌, ◌⊎◌, ◌&&◌, not, true, false, List, [], ◌∷◌, ◌++◌, take, length, OnOk, OnErr, IfErr, IfSome};
ghost use Rattle.asn1_core.specs.declared.codec.Codec.TheVariants.{Coer};
ghost use Rattle.asn1_core.specs.declared.error.EncodeErrorKind.TheVariants.{OutOfMemory};
ghost use Rattle.oer_spec.specs.Encoding.{canonical_octets};
ghost use Rattle.oer_spec.specs.Failures.{Fails};
ghost use Rattle.oer_spec.specs.Spelled.{IsConsistent};
ghost use Rattle.oer_spec.specs.Writing.{BeginsWith};
ghost use Rattle.oer_spec.specs.Tree.{NoRows, Present, Absent, slot_of, present_unless};
ghost use Rattle.oer_write.specs.Held.{Kept};
ghost use Rattle.oer_write.specs.Layout.{Ascends};
ghost use Rattle.oer_write.specs.Rows.{WritesRows, InSet, RowsRefused, IsOpenEncodable, optional, defaulted, open_type};
ghost use Rattle.oer_write.specs.Seen.{around, within, IsLaid};
ghost use Rattle.oer_write.specs.Written.{Keeps, WantsMemory};

use crate::encode::Encode;
use crate::encoder::Encoder;
use crate::insertions::Insertions;
use crate::opening::{Composite, Leaf, WritesOpen, is_leaf, put_open};
use crate::region::{Region, begin};
use asn1_core::{AsnType, Constraints, EncodeError, EncodeErrorKind, Tag};
use std::alloc::Global;
use std::marker::PhantomData;

/// The constraints that an addition is written under.
trait WrittenUnder: Drop {
    ghost use Rattle.asn1_core.specs.declared.constraints.Constraints.{Constraints};

    ghost bounds: { Self → Constraints };

    fn constraints(self) -> Constraints
        ensures { result ≡ bounds self };
}

/// Such as are handed in.
impl WrittenUnder for Constraints {
    ghost bounds = { λ c. c };

    #[inline(always)]
    fn constraints(self) -> Constraints {
        self
    }
}

/// A type's own: they take no room where they are handed on, and are folded away behind.
#[derive(Drop)]
struct Own<E>(PhantomData<E>);

impl<E: AsnType> WrittenUnder for Own<E> {
    ghost bounds = { λ o. E.CONSTRAINTS };

    #[inline(always)]
    fn constraints(self) -> Constraints {
        E::CONSTRAINTS
    }
}

/// Appends an open type to octets that stand apart, all in their places.
#[inline(never)]
fn put_apart<E: Encode, C: WrittenUnder>(
    alloc: Global,
    tag: Tag,
    rule: C,
    value: &E,
    out: &mut Vec<u8>,
) -> Result<(), EncodeError>
    requires { IsConsistent (C.bounds rule) }
    ensures short { OnOk result (IsOpenEncodable (E.tree (C.bounds rule) value.now)) }
    ensures done { OnOk result (out.new.items ≡ out.old.items ++ open_type (canonical_octets (E.tree (C.bounds rule) value.now))) }
    ensures value { OnOk result (E.IsValue value.now) }
    ensures refused { IfErr result (λ x. (x.kind ≡ OutOfMemory) ⊎ Fails (E.tree (C.bounds rule) value.now) x.kind) }
    ensures mode { IfErr result (λ x. x.codec ≡ Coer) }
    ensures unchanged { OnErr result (out.new.items ≡ out.old.items) }
{
    let mut insertions = Insertions::new(alloc);
    put_open::<E, Composite>(
        alloc,
        false,
        tag,
        rule.constraints(),
        value,
        out,
        &mut insertions,
    )
}

/// Appends an open type to the additions that lie in the output; where it refuses, these are as before.
#[inline(never)]
fn put_behind<E: Encode, C: WrittenUnder, W: WritesOpen>(
    alloc: Global,
    tag: Tag,
    rule: C,
    value: &E,
    region: &mut Region,
    out: &mut Vec<u8>,
    insertions: &mut Insertions,
) -> Result<(), EncodeError>
    requires consistent { IsConsistent (C.bounds rule) }
    requires laid { IsLaid region.old (length out.old.items) insertions.old }
    requires before { Ascends 0 (take region.old.first insertions.old) region.old.base }
    ensures short { OnOk result (IsOpenEncodable (E.tree (C.bounds rule) value.now)) }
    ensures done { OnOk result (within region.new out.new.items insertions.new ≡ within region.old out.old.items insertions.old ++ open_type (canonical_octets (E.tree (C.bounds rule) value.now))) }
    ensures value { OnOk result (E.IsValue value.now) }
    ensures refused { IfErr result (λ x. (x.kind ≡ OutOfMemory) ⊎ Fails (E.tree (C.bounds rule) value.now) x.kind) }
    ensures mode { IfErr result (λ x. x.codec ≡ Coer) }
    ensures octets { around region.new out.new.items insertions.new ≡ around region.old out.old.items insertions.old }
    ensures unchanged { OnErr result (within region.new out.new.items insertions.new ≡ within region.old out.old.items insertions.old) }
    ensures laid { IsLaid region.new (length out.new.items) insertions.new }
    ensures base { region.new.base ≡ region.old.base }
    ensures first { region.new.first ≡ region.old.first }
    ensures front { take region.old.first insertions.new ≡ take region.old.first insertions.old }
{
    begin(alloc, region, insertions, out)?;
    put_open::<E, W>(
        alloc,
        true,
        tag,
        rule.constraints(),
        value,
        &mut *out,
        &mut *insertions,
    )?;
    region.end = out.len();
    region.last = insertions.len();
    Ok(())
}

/// The same by the value's sort: each has a call of its own, so that a value is inlined once.
#[inline(always)]
fn put_by_sort<E: Encode, C: WrittenUnder>(
    alloc: Global,
    tag: Tag,
    rule: C,
    value: &E,
    region: &mut Region,
    out: &mut Vec<u8>,
    insertions: &mut Insertions,
) -> Result<(), EncodeError>
    requires consistent { IsConsistent (C.bounds rule) }
    requires laid { IsLaid region.old (length out.old.items) insertions.old }
    requires before { Ascends 0 (take region.old.first insertions.old) region.old.base }
    ensures short { OnOk result (IsOpenEncodable (E.tree (C.bounds rule) value.now)) }
    ensures done { OnOk result (within region.new out.new.items insertions.new ≡ within region.old out.old.items insertions.old ++ open_type (canonical_octets (E.tree (C.bounds rule) value.now))) }
    ensures value { OnOk result (E.IsValue value.now) }
    ensures refused { IfErr result (λ x. (x.kind ≡ OutOfMemory) ⊎ Fails (E.tree (C.bounds rule) value.now) x.kind) }
    ensures mode { IfErr result (λ x. x.codec ≡ Coer) }
    ensures octets { around region.new out.new.items insertions.new ≡ around region.old out.old.items insertions.old }
    ensures unchanged { OnErr result (within region.new out.new.items insertions.new ≡ within region.old out.old.items insertions.old) }
    ensures laid { IsLaid region.new (length out.new.items) insertions.new }
    ensures base { region.new.base ≡ region.old.base }
    ensures first { region.new.first ≡ region.old.first }
    ensures front { take region.old.first insertions.new ≡ take region.old.first insertions.old }
{
    if is_leaf(E::TAG) {
        return put_behind::<E, C, Leaf>(alloc, tag, rule, value, region, out, insertions);
    }
    put_behind::<E, C, Composite>(alloc, tag, rule, value, region, out, insertions)
}

impl<'buffer> Encoder<'buffer> {
    /// Writes an addition that is present as an open type, and records whether it is, under the type's own constraints.
    ///
    /// Refused by what the value is refused by.
    #[inline(always)]
    pub fn encode_optional_addition<E: Encode>(
        &mut self,
        tag: Tag,
        value: Option<&E>,
    ) -> Result<(), EncodeError>
        ensures written { WritesRows NoRows (optional tag (slot_of (λ x. E.tree E.CONSTRAINTS x.now) value.entry)) self.old result self.new }
        ensures in_set { InSet NoRows (optional tag (slot_of (λ x. E.tree E.CONSTRAINTS x.now) value.entry)) self.old result self.new }
        ensures value { OnOk result (IfSome value.entry (λ x. E.IsValue x.now)) }
    {
        self.add(tag, Own::<E>(PhantomData), value)
    }

    /// Writes an addition that is present as an open type, and records whether it is, under constraints that stand in
    /// place of the type's own.
    ///
    /// Refused by what the value is refused by.
    #[inline(always)]
    pub fn encode_extension_addition<E: Encode>(
        &mut self,
        tag: Tag,
        constraints: Constraints,
        value: Option<&E>,
    ) -> Result<(), EncodeError>
        requires { IsConsistent constraints }
        ensures written { WritesRows NoRows (optional tag (slot_of (λ x. E.tree constraints x.now) value.entry)) self.old result self.new }
        ensures in_set { InSet NoRows (optional tag (slot_of (λ x. E.tree constraints x.now) value.entry)) self.old result self.new }
        ensures value { OnOk result (IfSome value.entry (λ x. E.IsValue x.now)) }
    {
        self.add(tag, constraints, value)
    }

    /// Writes an addition group that is present as an open type, and records whether it is.
    ///
    /// Refused by what the group is refused by.
    #[inline(always)]
    pub fn encode_extension_addition_group<E: Encode>(
        &mut self,
        value: Option<&E>,
    ) -> Result<(), EncodeError>
        ensures written { WritesRows NoRows (optional E.TAG (slot_of (λ x. E.tree E.CONSTRAINTS x.now) value.entry)) self.old result self.new }
        ensures in_set { InSet NoRows (optional E.TAG (slot_of (λ x. E.tree E.CONSTRAINTS x.now) value.entry)) self.old result self.new }
        ensures value { OnOk result (IfSome value.entry (λ x. E.IsValue x.now)) }
    {
        self.encode_optional_addition(E::TAG, value)
    }

    /// Writes an addition as an open type, or nothing where it equals its default, and records which.
    ///
    /// Refused by what the value is refused by.
    #[inline(always)]
    pub fn encode_extension_addition_default<E: Encode + PartialEq>(
        &mut self,
        tag: Tag,
        constraints: Constraints,
        value: &E,
        default: &E,
    ) -> Result<(), EncodeError>
        requires { IsConsistent constraints }
        ensures written { WritesRows NoRows (defaulted tag (E.tree constraints default.now) (present_unless (E.eq value.now default.now) (E.tree constraints value.now))) self.old result self.new }
        ensures in_set { InSet NoRows (defaulted tag (E.tree constraints default.now) (present_unless (E.eq value.now default.now) (E.tree constraints value.now))) self.old result self.new }
        ensures value { E.eq value.now default.now ≡ false → OnOk result (E.IsValue value.now) }
    {
        let spelled = if *value == *default {
            None
        } else {
            Some(value)
        };
        self.add(tag, constraints, spelled)
    }

    /// Records whether an addition is present, and writes one that is.
    #[inline(always)]
    fn add<E: Encode, C: WrittenUnder>(
        &mut self,
        tag: Tag,
        rule: C,
        value: Option<&E>,
    ) -> Result<(), EncodeError>
        requires { IsConsistent (C.bounds rule) }
        ensures written { WritesRows NoRows (optional tag (slot_of (λ x. E.tree (C.bounds rule) x.now) value.entry)) self.old result self.new }
        ensures in_set { InSet NoRows (optional tag (slot_of (λ x. E.tree (C.bounds rule) x.now) value.entry)) self.old result self.new }
        ensures value { OnOk result (IfSome value.entry (λ x. E.IsValue x.now)) }
    {
        self.scope.bitmap.push(self.alloc, value.is_some())?;
        match value {
            None => Ok(()),
            Some(value) => self.put_addition(tag, rule, value),
        }
    }

    /// Writes an addition as an open type: in a sequence straight into the output.
    #[inline(always)]
    fn put_addition<E: Encode, C: WrittenUnder>(
        &mut self,
        tag: Tag,
        rule: C,
        value: &E,
    ) -> Result<(), EncodeError>
        requires { IsConsistent (C.bounds rule) }
        ensures short { OnOk result (IsOpenEncodable (E.tree (C.bounds rule) value.now)) }
        ensures done { OnOk result (self.new ≡ record self.old { frame = record self.old.frame { opens = self.old.frame.opens ++ open_type (canonical_octets (E.tree (C.bounds rule) value.now)) } }) }
        ensures value { OnOk result (E.IsValue value.now) }
        ensures refused { IfErr result (λ x. RowsRefused NoRows (optional tag (Present (E.tree (C.bounds rule) value.now))) x self.old self.new) }
    {
        if self.scope.is_sequence() {
            return self.put_within(tag, rule, value);
        }
        let mut opens = std::mem::replace(&mut self.scope.opens, Vec::new(self.alloc));
        let answer = put_apart(self.alloc, tag, rule, value, &mut opens);
        self.scope.opens = opens;
        answer
    }

    /// Writes an addition straight into the output.
    #[inline(always)]
    fn put_within<E: Encode, C: WrittenUnder>(
        &mut self,
        tag: Tag,
        rule: C,
        value: &E,
    ) -> Result<(), EncodeError>
        requires consistent { IsConsistent (C.bounds rule) }
        requires sequence { (self.old.frame.is_open && not self.old.frame.is_set) ≡ true }
        ensures short { OnOk result (IsOpenEncodable (E.tree (C.bounds rule) value.now)) }
        ensures done { OnOk result (self.new ≡ record self.old { frame = record self.old.frame { opens = self.old.frame.opens ++ open_type (canonical_octets (E.tree (C.bounds rule) value.now)) } }) }
        ensures value { OnOk result (E.IsValue value.now) }
        ensures refused { IfErr result (λ x. RowsRefused NoRows (optional tag (Present (E.tree (C.bounds rule) value.now))) x self.old self.new) }
    {
        let mut region = self.scope.region;
        let empty = Insertions::new(self.alloc);
        let mut pieces = std::mem::replace(&mut self.insertions, empty);
        let answer = put_by_sort(
            self.alloc,
            tag,
            rule,
            value,
            &mut region,
            &mut *self.output,
            &mut pieces,
        );
        self.scope.region = region;
        self.insertions = pieces;
        answer?;
        Ok(())
    }
}

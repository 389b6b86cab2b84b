//! Integers are written by the value constraint.
ghost use Rattle.std.specs.Prelude.{◌≡◌, true, OnOk, IfErr};
ghost use Rattle.asn1_core.specs.Bounds.{value_bounds};
ghost use Rattle.oer_spec.specs.Tree.{Int};
ghost use Rattle.oer_spec.specs.Spelled.{integer};
ghost use Rattle.oer_write.specs.Written.{Encodes, Refused, RefusedLeaf};

use crate::encode::Encode;
use crate::encoder::Encoder;
use asn1_core::{Constraints, EncodeError, Tag};
use asn1_ints::{ConstrainedInteger, Integer, IntegerRange, IntegerType};
use oer_leaf_write::{write_integer, write_wide_integer};

impl<'buffer> Encoder<'buffer> {
    /// Writes an INTEGER (X.696, 10) under the value constraint: in as many octets as a range asks for, or behind a length.
    ///
    /// A number outside a range that isn't extensible, or outside i128 under one, is refused by
    /// `ValueConstraintNotSatisfied`.
    #[inline(always)]
    pub fn encode_integer<I: IntegerType>(
        &mut self,
        _tag: Tag,
        constraints: Constraints,
        value: &I,
    ) -> Result<(), EncodeError>
        ensures done { OnOk result (Encodes (integer constraints (I.number value.now)) self.old self.new) }
        ensures value { I.admits (I.number value.now) ≡ true }
        ensures refused { IfErr result (λ x. RefusedLeaf (Int (value_bounds constraints) (I.number value.now)) x self.old self.new) }
        ensures law { IfErr result (λ x. Refused (integer constraints (I.number value.now)) x self.old self.new) }
    {
        self.put_integer(constraints, value)
    }

    #[tactic(auto, using(crate::proofs::Regions::more_shown, crate::proofs::Regions::more_within), unfolding(oer_spec::specs::Spelled::integer, oer_spec::specs::Encoding::canonical_octets, oer_spec::specs::Encoding::fails))]
    #[inline(always)]
    fn put_integer<I: IntegerType>(
        &mut self,
        constraints: Constraints,
        value: &I,
    ) -> Result<(), EncodeError>
        ensures done { OnOk result (Encodes (integer constraints (I.number value.now)) self.old self.new) }
        ensures value { I.admits (I.number value.now) ≡ true }
        ensures refused { IfErr result (λ x. RefusedLeaf (Int (value_bounds constraints) (I.number value.now)) x self.old self.new) }
    {
        let _admitted = value.is_negative();
        write_integer(constraints, value, &mut *self.output)?;
        Ok(())
    }

    /// Writes an INTEGER as `encode_integer` does, of a type that is seldom constrained: the layout by a range is a call.
    #[inline(always)]
    pub(crate) fn encode_wide_integer<I: IntegerType>(
        &mut self,
        constraints: Constraints,
        value: &I,
    ) -> Result<(), EncodeError>
        ensures done { OnOk result (Encodes (integer constraints (I.number value.now)) self.old self.new) }
        ensures value { I.admits (I.number value.now) ≡ true }
        ensures refused { IfErr result (λ x. RefusedLeaf (Int (value_bounds constraints) (I.number value.now)) x self.old self.new) }
        ensures law { IfErr result (λ x. Refused (integer constraints (I.number value.now)) x self.old self.new) }
    {
        self.put_wide_integer(constraints, value)
    }

    #[tactic(auto, using(crate::proofs::Regions::more_shown, crate::proofs::Regions::more_within), unfolding(oer_spec::specs::Spelled::integer, oer_spec::specs::Encoding::canonical_octets, oer_spec::specs::Encoding::fails))]
    #[inline(always)]
    fn put_wide_integer<I: IntegerType>(
        &mut self,
        constraints: Constraints,
        value: &I,
    ) -> Result<(), EncodeError>
        ensures done { OnOk result (Encodes (integer constraints (I.number value.now)) self.old self.new) }
        ensures value { I.admits (I.number value.now) ≡ true }
        ensures refused { IfErr result (λ x. RefusedLeaf (Int (value_bounds constraints) (I.number value.now)) x self.old self.new) }
    {
        let _admitted = value.is_negative();
        write_wide_integer(constraints, value, &mut *self.output)?;
        Ok(())
    }
}

impl Encode for i8 {
    #[inline(always)]
    fn encode_with_tag_and_constraints(
        &self,
        encoder: &mut Encoder<'_>,
        tag: Tag,
        constraints: Constraints,
    ) -> Result<(), EncodeError> {
        encoder.encode_integer(tag, constraints, self)
    }
}

impl Encode for i16 {
    #[inline(always)]
    fn encode_with_tag_and_constraints(
        &self,
        encoder: &mut Encoder<'_>,
        tag: Tag,
        constraints: Constraints,
    ) -> Result<(), EncodeError> {
        encoder.encode_integer(tag, constraints, self)
    }
}

impl Encode for i32 {
    #[inline(always)]
    fn encode_with_tag_and_constraints(
        &self,
        encoder: &mut Encoder<'_>,
        tag: Tag,
        constraints: Constraints,
    ) -> Result<(), EncodeError> {
        encoder.encode_integer(tag, constraints, self)
    }
}

impl Encode for i64 {
    #[inline(always)]
    fn encode_with_tag_and_constraints(
        &self,
        encoder: &mut Encoder<'_>,
        tag: Tag,
        constraints: Constraints,
    ) -> Result<(), EncodeError> {
        encoder.encode_integer(tag, constraints, self)
    }
}

impl Encode for i128 {
    #[inline(always)]
    fn encode_with_tag_and_constraints(
        &self,
        encoder: &mut Encoder<'_>,
        tag: Tag,
        constraints: Constraints,
    ) -> Result<(), EncodeError> {
        encoder.encode_integer(tag, constraints, self)
    }
}

impl Encode for isize {
    #[inline(always)]
    fn encode_with_tag_and_constraints(
        &self,
        encoder: &mut Encoder<'_>,
        tag: Tag,
        constraints: Constraints,
    ) -> Result<(), EncodeError> {
        encoder.encode_integer(tag, constraints, self)
    }
}

impl Encode for u8 {
    #[inline(always)]
    fn encode_with_tag_and_constraints(
        &self,
        encoder: &mut Encoder<'_>,
        tag: Tag,
        constraints: Constraints,
    ) -> Result<(), EncodeError> {
        encoder.encode_integer(tag, constraints, self)
    }
}

impl Encode for u16 {
    #[inline(always)]
    fn encode_with_tag_and_constraints(
        &self,
        encoder: &mut Encoder<'_>,
        tag: Tag,
        constraints: Constraints,
    ) -> Result<(), EncodeError> {
        encoder.encode_integer(tag, constraints, self)
    }
}

impl Encode for u32 {
    #[inline(always)]
    fn encode_with_tag_and_constraints(
        &self,
        encoder: &mut Encoder<'_>,
        tag: Tag,
        constraints: Constraints,
    ) -> Result<(), EncodeError> {
        encoder.encode_integer(tag, constraints, self)
    }
}

impl Encode for u64 {
    #[inline(always)]
    fn encode_with_tag_and_constraints(
        &self,
        encoder: &mut Encoder<'_>,
        tag: Tag,
        constraints: Constraints,
    ) -> Result<(), EncodeError> {
        encoder.encode_integer(tag, constraints, self)
    }
}

impl Encode for u128 {
    #[inline(always)]
    fn encode_with_tag_and_constraints(
        &self,
        encoder: &mut Encoder<'_>,
        tag: Tag,
        constraints: Constraints,
    ) -> Result<(), EncodeError> {
        encoder.encode_integer(tag, constraints, self)
    }
}

impl Encode for usize {
    #[inline(always)]
    fn encode_with_tag_and_constraints(
        &self,
        encoder: &mut Encoder<'_>,
        tag: Tag,
        constraints: Constraints,
    ) -> Result<(), EncodeError> {
        encoder.encode_integer(tag, constraints, self)
    }
}

impl Encode for Integer {
    #[inline(always)]
    fn encode_with_tag_and_constraints(
        &self,
        encoder: &mut Encoder<'_>,
        _tag: Tag,
        constraints: Constraints,
    ) -> Result<(), EncodeError> {
        encoder.encode_wide_integer(constraints, self)
    }
}

impl<R: IntegerRange> Encode for ConstrainedInteger<R> {
    #[inline(always)]
    fn encode_with_tag_and_constraints(
        &self,
        encoder: &mut Encoder<'_>,
        tag: Tag,
        constraints: Constraints,
    ) -> Result<(), EncodeError> {
        encoder.encode_integer(tag, constraints, self)
    }
}

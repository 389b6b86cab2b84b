//! Bit strings.
ghost use Rattle.std.specs.Prelude.{OnOk, IfErr};
ghost use Rattle.asn1_core.specs.Bounds.{size_bounds};
ghost use Rattle.asn1_strings.specs.NamedBits.{IsNamed};
ghost use Rattle.oer_spec.specs.Spelled.{bit_string, named_bit_string};
ghost use Rattle.oer_spec.specs.Tree.{Bits, Named};
ghost use Rattle.oer_write.specs.Written.{Encodes, Refused, RefusedLeaf};

use crate::encode::Encode;
use crate::encoder::Encoder;
use asn1_core::{Constraints, EncodeError, Tag};
use asn1_strings::{BitString, NamedBits};
use oer_leaf_write::{write_bit_string, write_named_bits};

impl<'buffer> Encoder<'buffer> {
    /// Writes a BIT STRING (X.696, 13).
    ///
    /// Refused, the first that applies: a size that a constraint that isn't extensible doesn't allow, by
    /// `SizeConstraintNotSatisfied` with the size; more than `usize::MAX / 8` octets behind a length, by
    /// `LengthExceedsPlatformSize`.
    #[inline(always)]
    pub fn encode_bit_string(
        &mut self,
        _tag: Tag,
        constraints: Constraints,
        value: &BitString,
    ) -> Result<(), EncodeError>
        ensures done { OnOk result (Encodes (bit_string constraints value.now) self.old self.new) }
        ensures refused { IfErr result (λ x. RefusedLeaf (Bits (size_bounds constraints) value.now) x self.old self.new) }
        ensures law { IfErr result (λ x. Refused (bit_string constraints value.now) x self.old self.new) }
    {
        self.put_bits(constraints, value)
    }

    #[tactic(auto, using(crate::proofs::Regions::more_shown, crate::proofs::Regions::more_within), unfolding(oer_spec::specs::Spelled::bit_string, oer_spec::specs::Encoding::canonical_octets, oer_spec::specs::Encoding::fails))]
    #[inline(always)]
    fn put_bits(&mut self, constraints: Constraints, value: &BitString) -> Result<(), EncodeError>
        ensures done { OnOk result (Encodes (bit_string constraints value.now) self.old self.new) }
        ensures refused { IfErr result (λ x. RefusedLeaf (Bits (size_bounds constraints) value.now) x self.old self.new) }
    {
        write_bit_string(constraints, value, &mut *self.output)?;
        Ok(())
    }

    /// Writes a BIT STRING with named bits (X.680, 22.7, and X.696, 13.3): its bits, and 0 bits up to the least size.
    ///
    /// Refused as `encode_bit_string` refuses these bits.
    #[inline(always)]
    pub fn encode_named_bits(
        &mut self,
        _tag: Tag,
        constraints: Constraints,
        value: &NamedBits,
    ) -> Result<(), EncodeError>
        ensures done { OnOk result (Encodes (named_bit_string constraints value.now) self.old self.new) }
        ensures refused { IfErr result (λ x. RefusedLeaf (Named (size_bounds constraints) value.now) x self.old self.new) }
        ensures named { IsNamed value.now }
        ensures law { IfErr result (λ x. Refused (named_bit_string constraints value.now) x self.old self.new) }
    {
        self.put_named_bits(constraints, value)
    }

    #[tactic(auto, using(crate::proofs::Regions::more_shown, crate::proofs::Regions::more_within), unfolding(oer_spec::specs::Spelled::named_bit_string, oer_spec::specs::Encoding::canonical_octets, oer_spec::specs::Encoding::fails))]
    #[inline(always)]
    fn put_named_bits(
        &mut self,
        constraints: Constraints,
        value: &NamedBits,
    ) -> Result<(), EncodeError>
        ensures done { OnOk result (Encodes (named_bit_string constraints value.now) self.old self.new) }
        ensures refused { IfErr result (λ x. RefusedLeaf (Named (size_bounds constraints) value.now) x self.old self.new) }
        ensures named { IsNamed value.now }
    {
        write_named_bits(constraints, value, &mut *self.output)?;
        Ok(())
    }
}

impl Encode for BitString {
    #[inline(always)]
    fn encode_with_tag_and_constraints(
        &self,
        encoder: &mut Encoder<'_>,
        tag: Tag,
        constraints: Constraints,
    ) -> Result<(), EncodeError> {
        encoder.encode_bit_string(tag, constraints, self)
    }
}

impl Encode for NamedBits {
    #[inline(always)]
    fn encode_with_tag_and_constraints(
        &self,
        encoder: &mut Encoder<'_>,
        tag: Tag,
        constraints: Constraints,
    ) -> Result<(), EncodeError> {
        encoder.encode_named_bits(tag, constraints, self)
    }
}

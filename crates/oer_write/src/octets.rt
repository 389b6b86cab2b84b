//! Octet strings and the octets of open types.
ghost use Rattle.std.specs.Prelude.{None, OnOk, IfErr};
ghost use Rattle.asn1_core.specs.Bounds.{size_bounds};
ghost use Rattle.asn1_core.specs.Texts.{AnyOctets};
ghost use Rattle.oer_spec.specs.Spelled.{text, unsized_text};
ghost use Rattle.oer_spec.specs.Tree.{Text, InOctets};
ghost use Rattle.oer_write.specs.Written.{Encodes, Refused, RefusedLeaf};

use crate::encode::Encode;
use crate::encoder::Encoder;
use asn1_core::{Constraints, EncodeError, Tag};
use asn1_strings::{Any, OctetString};
use oer_leaf_write::{write_any, write_octet_string};

impl<'buffer> Encoder<'buffer> {
    /// Writes an OCTET STRING (X.696, 14).
    ///
    /// Refused, the first that applies: a size that a constraint that isn't extensible doesn't allow, by
    /// `SizeConstraintNotSatisfied` with the size; more than `usize::MAX / 8` octets behind a length, by
    /// `LengthExceedsPlatformSize`.
    #[inline(always)]
    pub fn encode_octet_string(
        &mut self,
        _tag: Tag,
        constraints: Constraints,
        value: &[u8],
    ) -> Result<(), EncodeError>
        ensures done { OnOk result (Encodes (text AnyOctets constraints value.now) self.old self.new) }
        ensures refused { IfErr result (λ x. RefusedLeaf (Text AnyOctets (size_bounds constraints) (InOctets value.now)) x self.old self.new) }
        ensures law { IfErr result (λ x. Refused (text AnyOctets constraints value.now) x self.old self.new) }
    {
        self.put_octets(constraints, value)
    }

    #[tactic(auto, using(crate::proofs::Regions::more_shown, crate::proofs::Regions::more_within), unfolding(oer_spec::specs::Spelled::text, oer_spec::specs::Encoding::canonical_octets, oer_spec::specs::Encoding::fails))]
    #[inline(always)]
    fn put_octets(&mut self, constraints: Constraints, value: &[u8]) -> Result<(), EncodeError>
        ensures done { OnOk result (Encodes (text AnyOctets constraints value.now) self.old self.new) }
        ensures refused { IfErr result (λ x. RefusedLeaf (Text AnyOctets (size_bounds constraints) (InOctets value.now)) x self.old self.new) }
    {
        write_octet_string(constraints, value, &mut *self.output)?;
        Ok(())
    }

    /// Writes octets as an open type (X.696, 30): a length, and the octets.
    ///
    /// More than `usize::MAX / 8` octets are refused by `LengthExceedsPlatformSize`.
    #[inline(always)]
    pub fn encode_any(&mut self, _tag: Tag, value: &Any) -> Result<(), EncodeError>
        ensures done { OnOk result (Encodes (unsized_text AnyOctets value.now) self.old self.new) }
        ensures refused { IfErr result (λ x. RefusedLeaf (Text AnyOctets None (InOctets value.now)) x self.old self.new) }
        ensures law { IfErr result (λ x. Refused (unsized_text AnyOctets value.now) x self.old self.new) }
    {
        self.put_any(value)
    }

    #[tactic(auto, using(crate::proofs::Regions::more_shown, crate::proofs::Regions::more_within), unfolding(oer_spec::specs::Spelled::unsized_text, oer_spec::specs::Encoding::canonical_octets, oer_spec::specs::Encoding::fails))]
    #[inline(always)]
    fn put_any(&mut self, value: &Any) -> Result<(), EncodeError>
        ensures done { OnOk result (Encodes (unsized_text AnyOctets value.now) self.old self.new) }
        ensures refused { IfErr result (λ x. RefusedLeaf (Text AnyOctets None (InOctets value.now)) x self.old self.new) }
    {
        write_any(value.as_bytes(), &mut *self.output)?;
        Ok(())
    }
}

impl Encode for OctetString {
    #[inline(always)]
    fn encode_with_tag_and_constraints(
        &self,
        encoder: &mut Encoder<'_>,
        tag: Tag,
        constraints: Constraints,
    ) -> Result<(), EncodeError> {
        encoder.encode_octet_string(tag, constraints, self.as_bytes())
    }
}

impl Encode for Any {
    #[inline(always)]
    fn encode_with_tag_and_constraints(
        &self,
        encoder: &mut Encoder<'_>,
        tag: Tag,
        _constraints: Constraints,
    ) -> Result<(), EncodeError> {
        let _octets = self.as_bytes();
        encoder.encode_any(tag, self)
    }
}

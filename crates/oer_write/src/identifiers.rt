//! Object identifiers.
ghost use Rattle.std.specs.Prelude.{OnOk, IfErr};
ghost use Rattle.oer_spec.specs.Spelled.{IsIdentifier, identifier};
ghost use Rattle.oer_write.specs.Written.{Encodes, Refused, RefusedIdentifier};

use crate::encode::Encode;
use crate::encoder::Encoder;
use asn1_core::{Constraints, EncodeError, Tag};
use asn1_strings::ObjectIdentifier;
use oer_leaf_write::write_object_identifier;

impl<'buffer> Encoder<'buffer> {
    /// Writes an OBJECT IDENTIFIER (X.696, 21) by its arcs: a length, and the contents octets.
    ///
    /// Refused, the first that applies: arcs that are no identifier, by `InvalidObjectIdentifier`; more than
    /// `usize::MAX / 8` octets, by `LengthExceedsPlatformSize`.
    pub fn encode_object_identifier(&mut self, _tag: Tag, value: &[u32]) -> Result<(), EncodeError>
        ensures done { OnOk result (Encodes (identifier value.now) self.old self.new) }
        ensures value { OnOk result (IsIdentifier value.now) }
        ensures refused { IfErr result (λ x. RefusedIdentifier value.now x self.old self.new) }
        ensures law { IsIdentifier value.now → IfErr result (λ x. Refused (identifier value.now) x self.old self.new) }
    {
        self.put_arcs(value)
    }

    #[tactic(auto, using(crate::proofs::Regions::more_shown, crate::proofs::Regions::more_within), unfolding(oer_spec::specs::Spelled::identifier, oer_spec::specs::Encoding::canonical_octets, oer_spec::specs::Encoding::fails))]
    fn put_arcs(&mut self, value: &[u32]) -> Result<(), EncodeError>
        ensures done { OnOk result (Encodes (identifier value.now) self.old self.new) }
        ensures value { OnOk result (IsIdentifier value.now) }
        ensures refused { IfErr result (λ x. RefusedIdentifier value.now x self.old self.new) }
    {
        write_object_identifier(value, &mut *self.output)?;
        Ok(())
    }
}

impl Encode for ObjectIdentifier {
    fn encode_with_tag_and_constraints(
        &self,
        encoder: &mut Encoder<'_>,
        tag: Tag,
        _constraints: Constraints,
    ) -> Result<(), EncodeError> {
        encoder.encode_object_identifier(tag, self.arcs())
    }
}

//! BOOLEAN and NULL.
ghost use Rattle.std.specs.Prelude.{◌≡◌, Ok, OnOk, IfErr};
ghost use Rattle.oer_spec.specs.Spelled.{boolean, null};
ghost use Rattle.oer_write.specs.Written.{Encodes, Keeps, WantsMemory};

use crate::encode::Encode;
use crate::encoder::Encoder;
use asn1_core::{Constraints, EncodeError, Tag};
use oer_leaf_write::write_bool;

impl<'buffer> Encoder<'buffer> {
    /// Writes a BOOLEAN (X.696, 9): FF for true, 00 for false.
    ///
    /// Refused for want of memory alone.
    #[tactic(auto, using(crate::proofs::Regions::more_shown, crate::proofs::Regions::more_within), unfolding(oer_spec::specs::Spelled::boolean, oer_spec::specs::Encoding::canonical_octets, oer_spec::specs::Encoding::fails))]
    #[inline(always)]
    pub fn encode_bool(&mut self, _tag: Tag, value: bool) -> Result<(), EncodeError>
        ensures done { OnOk result (Encodes (boolean value) self.old self.new) }
        ensures refused { IfErr result (λ x. WantsMemory x × Keeps self.old self.new) }
    {
        write_bool(value, &mut *self.output)?;
        Ok(())
    }

    /// Writes NULL (X.696, 15): no octets.
    ///
    /// Never refused.
    #[tactic(auto, unfolding(oer_spec::specs::Spelled::null, oer_spec::specs::Encoding::canonical_octets, oer_spec::specs::Encoding::fails))]
    pub fn encode_null(&mut self, _tag: Tag) -> Result<(), EncodeError>
        ensures never { result ≡ Ok tt }
        ensures done { OnOk result (Encodes (null tt) self.old self.new) }
        ensures refused { IfErr result (λ x. WantsMemory x × Keeps self.old self.new) }
    {
        // no octets stand for it
        Ok(())
    }
}

impl Encode for bool {
    #[inline(always)]
    fn encode_with_tag_and_constraints(
        &self,
        encoder: &mut Encoder<'_>,
        tag: Tag,
        _constraints: Constraints,
    ) -> Result<(), EncodeError> {
        encoder.encode_bool(tag, *self)
    }
}

impl Encode for () {
    #[inline(always)]
    fn encode_with_tag_and_constraints(
        &self,
        encoder: &mut Encoder<'_>,
        tag: Tag,
        _constraints: Constraints,
    ) -> Result<(), EncodeError> {
        encoder.encode_null(tag)
    }
}

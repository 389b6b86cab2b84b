//! Enumerated values.
ghost use Rattle.std.specs.Prelude.{OnOk, IfErr};
ghost use Rattle.oer_spec.specs.Spelled.{enumerated};
ghost use Rattle.oer_write.specs.Written.{Encodes, Keeps, WantsMemory};

use crate::encoder::Encoder;
use asn1_core::{EncodeError, Enumerated, Tag};
use oer_leaf_write::write_enumerated;

impl<'buffer> Encoder<'buffer> {
    /// Writes an ENUMERATED value (X.696, 11) by its number: one octet from 0 to 127; else an octet 128 + k and the k shortest
    /// octets of the number.
    ///
    /// Refused for want of memory alone.
    #[inline(always)]
    pub fn encode_enumerated<E: Enumerated>(
        &mut self,
        tag: Tag,
        value: &E,
    ) -> Result<(), EncodeError>
        ensures done { OnOk result (Encodes (enumerated (E.number value.now)) self.old self.new) }
        ensures refused { IfErr result (λ x. WantsMemory x × Keeps self.old self.new) }
    {
        self.encode_enumerated_number(tag, value.discriminant())
    }

    /// Writes an ENUMERATED value by its number, as `encode_enumerated` does: for a type that has values of newer versions.
    ///
    /// Refused for want of memory alone.
    #[tactic(auto, using(crate::proofs::Regions::more_shown, crate::proofs::Regions::more_within), unfolding(oer_spec::specs::Spelled::enumerated, oer_spec::specs::Encoding::canonical_octets, oer_spec::specs::Encoding::fails))]
    pub fn encode_enumerated_number(&mut self, _tag: Tag, number: isize) -> Result<(), EncodeError>
        ensures done { OnOk result (Encodes (enumerated number) self.old self.new) }
        ensures refused { IfErr result (λ x. WantsMemory x × Keeps self.old self.new) }
    {
        write_enumerated(number, &mut *self.output)?;
        Ok(())
    }
}

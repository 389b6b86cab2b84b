//! The trait of the types that are written.
ghost use Rattle.std.specs.Prelude.{◌≡◌, true, OnOk, IfErr};
ghost use Rattle.oer_spec.specs.Spelled.{IsConsistent};
ghost use Rattle.oer_write.specs.Written.{Encodes, Refused};

use crate::encoder::Encoder;
use asn1_core::{Constraints, EncodeError, Tag};
use oer_spec::Spelled;

/// A type whose values are written.
///
/// Its required method keeps the law of writing: it answers `Ok` only where the value's tree can be written, and then the
/// tree's canonical octets stand behind those of before and nothing else is changed. It refuses only for want of memory, or
/// by a kind whose condition the tree breaks, always in the mode `Coer`; the octets then still begin with those of before,
/// and the same scopes are open. Constraints that are handed in are consistent.
pub trait Encode: Spelled {
    /// Writes the value under constraints that stand in place of the type's own.
    #[inline(always)]
    fn encode_with_tag_and_constraints(
        &self,
        encoder: &mut Encoder<'_>,
        tag: Tag,
        constraints: Constraints,
    ) -> Result<(), EncodeError>
        requires { IsConsistent constraints }
        ensures done { OnOk result (Encodes (Self.tree constraints self.now) encoder.old encoder.new) }
        ensures value { OnOk result (Self.IsValue self.now) }
        ensures refused { IfErr result (λ x. Refused (Self.tree constraints self.now) x encoder.old encoder.new) };

    /// Writes the value under the type's own constraints.
    #[inline(always)]
    final fn encode(&self, encoder: &mut Encoder<'_>) -> Result<(), EncodeError>
        ensures done { OnOk result (Encodes (Self.tree Self.CONSTRAINTS self.now) encoder.old encoder.new) }
        ensures value { OnOk result (Self.IsValue self.now) }
        ensures refused { IfErr result (λ x. Refused (Self.tree Self.CONSTRAINTS self.now) x encoder.old encoder.new) }
    {
        self.encode_with_tag_and_constraints(encoder, Self::TAG, Self::CONSTRAINTS)
    }

    /// Writes the value with another tag, under the type's own constraints.
    #[inline(always)]
    final fn encode_with_tag(&self, encoder: &mut Encoder<'_>, tag: Tag) -> Result<(), EncodeError>
        ensures done { OnOk result (Encodes (Self.tree Self.CONSTRAINTS self.now) encoder.old encoder.new) }
        ensures value { OnOk result (Self.IsValue self.now) }
        ensures refused { IfErr result (λ x. Refused (Self.tree Self.CONSTRAINTS self.now) x encoder.old encoder.new) }
    {
        self.encode_with_tag_and_constraints(encoder, tag, Self::CONSTRAINTS)
    }

    /// Writes the value under constraints that stand in place of the type's own.
    #[inline(always)]
    final fn encode_with_constraints(
        &self,
        encoder: &mut Encoder<'_>,
        constraints: Constraints,
    ) -> Result<(), EncodeError>
        requires { IsConsistent constraints }
        ensures done { OnOk result (Encodes (Self.tree constraints self.now) encoder.old encoder.new) }
        ensures value { OnOk result (Self.IsValue self.now) }
        ensures refused { IfErr result (λ x. Refused (Self.tree constraints self.now) x encoder.old encoder.new) }
    {
        self.encode_with_tag_and_constraints(encoder, Self::TAG, constraints)
    }

    /// Whether there is a value: always.
    final fn is_present(&self) -> bool
        ensures { result ≡ true }
    {
        true
    }
}

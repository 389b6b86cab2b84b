//! The trait of types that are read.

ghost use Rattle.oer_read.specs.Law.{Decodes};

use crate::decoder::Decoder;
use asn1_core::{Constraints, DecodeError, Tag};
use oer_spec::Spelled;
use std::alloc::Global;

/// A type that is read.
pub trait Decode: Spelled {
    ghost use Rattle.std.specs.Prelude.{Result};
    ghost use Rattle.asn1_core.specs.declared.constraints.Constraints.{Constraints};
    ghost use Rattle.asn1_core.specs.declared.error.DecodeError.{DecodeError};
    ghost use Rattle.oer_spec.specs.Spelled.{IsConsistent};
    ghost use Rattle.oer_read.specs.State.{State};

    /// What the type promises of its answers beside the law, so that a scope can promise which refusal it passes on: a
    /// leaf's whole clause. `λ c s r t. ⊤` promises nothing more than the law.
    ghost Answered: { Constraints → State → Result Self DecodeError → State → Type 0 };

    /// Reads a value, under the handed-in tag and constraints.
    fn decode_with_tag_and_constraints(
        alloc: Global,
        decoder: &mut Decoder<'_>,
        tag: Tag,
        constraints: Constraints,
    ) -> Result<Self, DecodeError>
        requires { IsConsistent constraints }
        ensures law { Decodes (Self.tree constraints) Self.IsValue decoder.old result decoder.new }
        ensures answered { Self.Answered constraints decoder.old result decoder.new };

    /// Reads a value, under the type's own tag and constraints.
    #[inline(always)]
    final fn decode(alloc: Global, decoder: &mut Decoder<'_>) -> Result<Self, DecodeError>
        ensures law { Decodes (Self.tree Self.CONSTRAINTS) Self.IsValue decoder.old result decoder.new }
        ensures answered { Self.Answered Self.CONSTRAINTS decoder.old result decoder.new }
    {
        Self::decode_with_tag_and_constraints(alloc, decoder, Self::TAG, Self::CONSTRAINTS)
    }

    /// Reads a value, under the handed-in tag and the type's own constraints.
    #[inline(always)]
    final fn decode_with_tag(
        alloc: Global,
        decoder: &mut Decoder<'_>,
        tag: Tag,
    ) -> Result<Self, DecodeError>
        ensures law { Decodes (Self.tree Self.CONSTRAINTS) Self.IsValue decoder.old result decoder.new }
        ensures answered { Self.Answered Self.CONSTRAINTS decoder.old result decoder.new }
    {
        Self::decode_with_tag_and_constraints(alloc, decoder, tag, Self::CONSTRAINTS)
    }

    /// Reads a value, under the type's own tag and the handed-in constraints.
    #[inline(always)]
    final fn decode_with_constraints(
        alloc: Global,
        decoder: &mut Decoder<'_>,
        constraints: Constraints,
    ) -> Result<Self, DecodeError>
        requires { IsConsistent constraints }
        ensures law { Decodes (Self.tree constraints) Self.IsValue decoder.old result decoder.new }
        ensures answered { Self.Answered constraints decoder.old result decoder.new }
    {
        Self::decode_with_tag_and_constraints(alloc, decoder, Self::TAG, constraints)
    }
}

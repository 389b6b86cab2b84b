//! Reading BOOLEAN and NULL.

ghost use Rattle.std.specs.Prelude.{◌≡◌, Ok, Err, IfErr};
ghost use Rattle.oer_spec.specs.Spelled.{boolean, null, IsAny};
ghost use Rattle.oer_read.specs.Answers.{Answers};
ghost use Rattle.oer_read.specs.Law.{Decodes, IsForMemory};
ghost use Rattle.oer_spec.specs.Reading.{bool_at};

use crate::decode::Decode;
use crate::decoder::Decoder;
use asn1_core::{Constraints, DecodeError, Tag};
use oer_leaf_read::read_bool;
use std::alloc::Global;

impl<'input> Decoder<'input> {
    /// Reads a BOOLEAN (X.696, 9).
    ///
    /// Refused: `Incomplete`; `InvalidBool` where an octet is neither 00 nor FF, in canonical mode.
    #[inline(always)]
    pub fn decode_bool(&mut self, _tag: Tag) -> Result<bool, DecodeError>
        ensures function { Answers (λ v. v) self.old result self.new (bool_at self.old.codec self.old.input) }
        ensures no_memory { IfErr result (λ e. IsForMemory e → ⊥) }
        ensures law { Decodes boolean IsAny self.old result self.new }
    {
        let answer = read_bool(self.codec(), self.remaining());
        self.take(answer)
    }

    /// Reads a NULL, which has no octets (X.696, 15); it never refuses.
    #[inline(always)]
    pub fn decode_null(&mut self, _tag: Tag) -> Result<(), DecodeError>
        ensures answer { result ≡ Ok tt }
        ensures unchanged { self.new ≡ self.old }
        ensures law { Decodes null IsAny self.old result self.new }
    {
        Ok(())
    }
}

impl Decode for bool {
    ghost use Rattle.oer_spec.specs.Reading.{bool_at};
    ghost use Rattle.std.specs.Prelude.{false};
    ghost use Rattle.oer_read.specs.Answers.{LeafAnswers};

    ghost Answered = { λ c s r t. LeafAnswers (λ v. v) false s r t (bool_at s.codec s.input) };

    #[inline(always)]
    fn decode_with_tag_and_constraints(
        _alloc: Global,
        decoder: &mut Decoder<'_>,
        tag: Tag,
        _constraints: Constraints,
    ) -> Result<bool, DecodeError> {
        decoder.decode_bool(tag)
    }
}

impl Decode for () {
    ghost use Rattle.std.specs.Prelude.{◌≡◌, Ok};

    ghost Answered = { λ c s r t. (r ≡ Ok tt) × (t ≡ s) };

    #[inline(always)]
    fn decode_with_tag_and_constraints(
        _alloc: Global,
        decoder: &mut Decoder<'_>,
        tag: Tag,
        _constraints: Constraints,
    ) -> Result<(), DecodeError> {
        decoder.decode_null(tag)
    }
}

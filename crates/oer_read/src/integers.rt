//! Integers are read by the value constraint.

ghost use Rattle.std.specs.Prelude.{◌≡◌, IsTrue, true, IfErr};
ghost use Rattle.asn1_core.specs.Bounds.{value_bounds};
ghost use Rattle.oer_spec.specs.ReadingIntegers.{integer_at};
ghost use Rattle.oer_spec.specs.Spelled.{integer};
ghost use Rattle.oer_read.specs.Answers.{Answers};
ghost use Rattle.oer_read.specs.Law.{Decodes, IsForMemory};

use crate::decode::Decode;
use crate::decoder::Decoder;
use asn1_core::{Constraints, DecodeError, Tag};
use asn1_ints::{ConstrainedInteger, Integer, IntegerRange, IntegerType};
use oer_leaf_read::read_integer;
use std::alloc::Global;

impl<'input> Decoder<'input> {
    /// Reads an INTEGER (X.696, 10) under the value constraint: of a fixed count of octets, or behind a length.
    ///
    /// Refused, the first that applies: what the octets are refused by (docs/REFUSALS.md); `IntegerOverflow` where the
    /// number isn't one of the type; `ValueConstraintNotSatisfied` where it is outside a constraint that isn't extensible,
    /// or no i128 under one. Types that take no memory never answer `OutOfMemory`.
    #[inline(always)]
    pub fn decode_integer<I: IntegerType>(
        &mut self,
        alloc: Global,
        _tag: Tag,
        constraints: Constraints,
    ) -> Result<I, DecodeError>
        ensures function { Answers I.number self.old result self.new (integer_at I.admits (value_bounds constraints) self.old.codec self.old.input) }
        ensures memory { IfErr result (λ e. IsForMemory e → IsTrue I.TAKES_MEMORY) }
        ensures law { Decodes (λ v. integer constraints (I.number v)) (λ v. I.admits (I.number v) ≡ true) self.old result self.new }
    {
        let answer = read_integer(alloc, self.codec(), constraints, self.remaining());
        self.take(answer)
    }
}

impl Decode for i8 {
    ghost use Rattle.oer_read.specs.Answers.{IntegerAnswers};

    ghost Answered = { IntegerAnswers ⟦<i8 as IntegerType>⟧.number ⟦<i8 as IntegerType>⟧.admits ⟦<i8 as IntegerType>⟧.TAKES_MEMORY };

    #[inline(always)]
    fn decode_with_tag_and_constraints(
        alloc: Global,
        decoder: &mut Decoder<'_>,
        tag: Tag,
        constraints: Constraints,
    ) -> Result<i8, DecodeError> {
        decoder.decode_integer(alloc, tag, constraints)
    }
}

impl Decode for i16 {
    ghost use Rattle.oer_read.specs.Answers.{IntegerAnswers};

    ghost Answered = { IntegerAnswers ⟦<i16 as IntegerType>⟧.number ⟦<i16 as IntegerType>⟧.admits ⟦<i16 as IntegerType>⟧.TAKES_MEMORY };

    #[inline(always)]
    fn decode_with_tag_and_constraints(
        alloc: Global,
        decoder: &mut Decoder<'_>,
        tag: Tag,
        constraints: Constraints,
    ) -> Result<i16, DecodeError> {
        decoder.decode_integer(alloc, tag, constraints)
    }
}

impl Decode for i32 {
    ghost use Rattle.oer_read.specs.Answers.{IntegerAnswers};

    ghost Answered = { IntegerAnswers ⟦<i32 as IntegerType>⟧.number ⟦<i32 as IntegerType>⟧.admits ⟦<i32 as IntegerType>⟧.TAKES_MEMORY };

    #[inline(always)]
    fn decode_with_tag_and_constraints(
        alloc: Global,
        decoder: &mut Decoder<'_>,
        tag: Tag,
        constraints: Constraints,
    ) -> Result<i32, DecodeError> {
        decoder.decode_integer(alloc, tag, constraints)
    }
}

impl Decode for i64 {
    ghost use Rattle.oer_read.specs.Answers.{IntegerAnswers};

    ghost Answered = { IntegerAnswers ⟦<i64 as IntegerType>⟧.number ⟦<i64 as IntegerType>⟧.admits ⟦<i64 as IntegerType>⟧.TAKES_MEMORY };

    #[inline(always)]
    fn decode_with_tag_and_constraints(
        alloc: Global,
        decoder: &mut Decoder<'_>,
        tag: Tag,
        constraints: Constraints,
    ) -> Result<i64, DecodeError> {
        decoder.decode_integer(alloc, tag, constraints)
    }
}

impl Decode for i128 {
    ghost use Rattle.oer_read.specs.Answers.{IntegerAnswers};

    ghost Answered = { IntegerAnswers ⟦<i128 as IntegerType>⟧.number ⟦<i128 as IntegerType>⟧.admits ⟦<i128 as IntegerType>⟧.TAKES_MEMORY };

    #[inline(always)]
    fn decode_with_tag_and_constraints(
        alloc: Global,
        decoder: &mut Decoder<'_>,
        tag: Tag,
        constraints: Constraints,
    ) -> Result<i128, DecodeError> {
        decoder.decode_integer(alloc, tag, constraints)
    }
}

impl Decode for isize {
    ghost use Rattle.oer_read.specs.Answers.{IntegerAnswers};

    ghost Answered = { IntegerAnswers ⟦<isize as IntegerType>⟧.number ⟦<isize as IntegerType>⟧.admits ⟦<isize as IntegerType>⟧.TAKES_MEMORY };

    #[inline(always)]
    fn decode_with_tag_and_constraints(
        alloc: Global,
        decoder: &mut Decoder<'_>,
        tag: Tag,
        constraints: Constraints,
    ) -> Result<isize, DecodeError> {
        decoder.decode_integer(alloc, tag, constraints)
    }
}

impl Decode for u8 {
    ghost use Rattle.oer_read.specs.Answers.{IntegerAnswers};

    ghost Answered = { IntegerAnswers ⟦<u8 as IntegerType>⟧.number ⟦<u8 as IntegerType>⟧.admits ⟦<u8 as IntegerType>⟧.TAKES_MEMORY };

    #[inline(always)]
    fn decode_with_tag_and_constraints(
        alloc: Global,
        decoder: &mut Decoder<'_>,
        tag: Tag,
        constraints: Constraints,
    ) -> Result<u8, DecodeError> {
        decoder.decode_integer(alloc, tag, constraints)
    }
}

impl Decode for u16 {
    ghost use Rattle.oer_read.specs.Answers.{IntegerAnswers};

    ghost Answered = { IntegerAnswers ⟦<u16 as IntegerType>⟧.number ⟦<u16 as IntegerType>⟧.admits ⟦<u16 as IntegerType>⟧.TAKES_MEMORY };

    #[inline(always)]
    fn decode_with_tag_and_constraints(
        alloc: Global,
        decoder: &mut Decoder<'_>,
        tag: Tag,
        constraints: Constraints,
    ) -> Result<u16, DecodeError> {
        decoder.decode_integer(alloc, tag, constraints)
    }
}

impl Decode for u32 {
    ghost use Rattle.oer_read.specs.Answers.{IntegerAnswers};

    ghost Answered = { IntegerAnswers ⟦<u32 as IntegerType>⟧.number ⟦<u32 as IntegerType>⟧.admits ⟦<u32 as IntegerType>⟧.TAKES_MEMORY };

    #[inline(always)]
    fn decode_with_tag_and_constraints(
        alloc: Global,
        decoder: &mut Decoder<'_>,
        tag: Tag,
        constraints: Constraints,
    ) -> Result<u32, DecodeError> {
        decoder.decode_integer(alloc, tag, constraints)
    }
}

impl Decode for u64 {
    ghost use Rattle.oer_read.specs.Answers.{IntegerAnswers};

    ghost Answered = { IntegerAnswers ⟦<u64 as IntegerType>⟧.number ⟦<u64 as IntegerType>⟧.admits ⟦<u64 as IntegerType>⟧.TAKES_MEMORY };

    #[inline(always)]
    fn decode_with_tag_and_constraints(
        alloc: Global,
        decoder: &mut Decoder<'_>,
        tag: Tag,
        constraints: Constraints,
    ) -> Result<u64, DecodeError> {
        decoder.decode_integer(alloc, tag, constraints)
    }
}

impl Decode for u128 {
    ghost use Rattle.oer_read.specs.Answers.{IntegerAnswers};

    ghost Answered = { IntegerAnswers ⟦<u128 as IntegerType>⟧.number ⟦<u128 as IntegerType>⟧.admits ⟦<u128 as IntegerType>⟧.TAKES_MEMORY };

    #[inline(always)]
    fn decode_with_tag_and_constraints(
        alloc: Global,
        decoder: &mut Decoder<'_>,
        tag: Tag,
        constraints: Constraints,
    ) -> Result<u128, DecodeError> {
        decoder.decode_integer(alloc, tag, constraints)
    }
}

impl Decode for usize {
    ghost use Rattle.oer_read.specs.Answers.{IntegerAnswers};

    ghost Answered = { IntegerAnswers ⟦<usize as IntegerType>⟧.number ⟦<usize as IntegerType>⟧.admits ⟦<usize as IntegerType>⟧.TAKES_MEMORY };

    #[inline(always)]
    fn decode_with_tag_and_constraints(
        alloc: Global,
        decoder: &mut Decoder<'_>,
        tag: Tag,
        constraints: Constraints,
    ) -> Result<usize, DecodeError> {
        decoder.decode_integer(alloc, tag, constraints)
    }
}

impl Decode for Integer {
    ghost use Rattle.oer_read.specs.Answers.{IntegerAnswers};

    ghost Answered = { IntegerAnswers ⟦<Integer as IntegerType>⟧.number ⟦<Integer as IntegerType>⟧.admits ⟦<Integer as IntegerType>⟧.TAKES_MEMORY };

    #[inline(always)]
    fn decode_with_tag_and_constraints(
        alloc: Global,
        decoder: &mut Decoder<'_>,
        tag: Tag,
        constraints: Constraints,
    ) -> Result<Integer, DecodeError> {
        decoder.decode_integer(alloc, tag, constraints)
    }
}

impl<R: IntegerRange> Decode for ConstrainedInteger<R> {
    ghost use Rattle.oer_read.specs.Answers.{IntegerAnswers};

    ghost Answered = { IntegerAnswers ⟦<ConstrainedInteger<R> as IntegerType>⟧.number ⟦<ConstrainedInteger<R> as IntegerType>⟧.admits ⟦<ConstrainedInteger<R> as IntegerType>⟧.TAKES_MEMORY };

    #[inline(always)]
    fn decode_with_tag_and_constraints(
        alloc: Global,
        decoder: &mut Decoder<'_>,
        tag: Tag,
        constraints: Constraints,
    ) -> Result<ConstrainedInteger<R>, DecodeError> {
        decoder.decode_integer(alloc, tag, constraints)
    }
}

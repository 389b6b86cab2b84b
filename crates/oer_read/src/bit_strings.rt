//! Reading bit strings.

ghost use Rattle.asn1_core.specs.Bounds.{size_bounds};
ghost use Rattle.asn1_strings.specs.NamedBits.{IsNamed};
ghost use Rattle.oer_spec.specs.ReadingBits.{bit_string_at, named_bits_at};
ghost use Rattle.oer_spec.specs.Spelled.{IsAny, bit_string, named_bit_string};
ghost use Rattle.oer_read.specs.Answers.{Answers};
ghost use Rattle.oer_read.specs.Law.{Decodes};

use crate::decode::Decode;
use crate::decoder::Decoder;
use asn1_core::{Constraints, DecodeError, Tag};
use asn1_strings::{BitString, NamedBits};
use oer_leaf_read::{read_bit_string, read_named_bits};
use std::alloc::Global;

impl<'input> Decoder<'input> {
    /// Reads a BIT STRING (X.696, 13) under the size constraint, which counts bits: of a fixed size its bits, else a
    /// length, the count of unused bits, and the octets.
    ///
    /// Refused, the first that applies: of a fixed size `Incomplete`; else what the length is refused by; a length of
    /// zero, in canonical mode by `NotValidCanonicalEncoding`; where the count of unused bits isn't there `Incomplete`; a
    /// count above 7 or above the bits that there are by `InvalidBitString`; above `usize::MAX / 8` octets by
    /// `LengthExceedsPlatformWidth`; where octets are missing `Incomplete`. Then, of any size, a nonzero unused bit in
    /// canonical mode by `NotValidCanonicalEncoding`; `SizeConstraintNotSatisfied` with the size in bits. `OutOfMemory`
    /// comes last.
    #[inline(always)]
    pub fn decode_bit_string(
        &mut self,
        alloc: Global,
        _tag: Tag,
        constraints: Constraints,
    ) -> Result<BitString, DecodeError>
        ensures function { Answers (λ v. v) self.old result self.new (bit_string_at (size_bounds constraints) self.old.codec self.old.input) }
        ensures law { Decodes (bit_string constraints) IsAny self.old result self.new }
    {
        let answer = read_bit_string(alloc, self.codec(), constraints, self.remaining());
        self.take(answer)
    }

    /// Reads a BIT STRING with named bits (X.680, 22.7, and X.696, 13.3) under the size constraint, as `decode_bit_string`
    /// reads its bits, and drops the 0 bits at their end.
    ///
    /// Refused, the first that applies: as `decode_bit_string` without want of memory; in canonical mode 0 bits at the end
    /// that the least size doesn't want, by `NotValidCanonicalEncoding`. `OutOfMemory` comes last.
    #[inline(always)]
    pub fn decode_named_bits(
        &mut self,
        alloc: Global,
        _tag: Tag,
        constraints: Constraints,
    ) -> Result<NamedBits, DecodeError>
        ensures function { Answers (λ v. v) self.old result self.new (named_bits_at (size_bounds constraints) self.old.codec self.old.input) }
        ensures law { Decodes (named_bit_string constraints) IsNamed self.old result self.new }
    {
        let answer = read_named_bits(alloc, self.codec(), constraints, self.remaining());
        self.take(answer)
    }
}

impl Decode for BitString {
    ghost use Rattle.std.specs.Prelude.{true};
    ghost use Rattle.asn1_core.specs.Bounds.{size_bounds};
    ghost use Rattle.oer_spec.specs.ReadingBits.{bit_string_at};
    ghost use Rattle.oer_read.specs.Answers.{LeafAnswers};

    ghost Answered = { λ c s r t. LeafAnswers (λ v. v) true s r t (bit_string_at (size_bounds c) s.codec s.input) };

    #[inline(always)]
    fn decode_with_tag_and_constraints(
        alloc: Global,
        decoder: &mut Decoder<'_>,
        tag: Tag,
        constraints: Constraints,
    ) -> Result<BitString, DecodeError> {
        decoder.decode_bit_string(alloc, tag, constraints)
    }
}

impl Decode for NamedBits {
    ghost use Rattle.std.specs.Prelude.{true};
    ghost use Rattle.asn1_core.specs.Bounds.{size_bounds};
    ghost use Rattle.oer_spec.specs.ReadingBits.{named_bits_at};
    ghost use Rattle.oer_read.specs.Answers.{LeafAnswers};

    ghost Answered = { λ c s r t. LeafAnswers (λ v. v) true s r t (named_bits_at (size_bounds c) s.codec s.input) };

    #[inline(always)]
    fn decode_with_tag_and_constraints(
        alloc: Global,
        decoder: &mut Decoder<'_>,
        tag: Tag,
        constraints: Constraints,
    ) -> Result<NamedBits, DecodeError> {
        decoder.decode_named_bits(alloc, tag, constraints)
    }
}

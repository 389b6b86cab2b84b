//! Reading octet strings and the octets of open types.

ghost use Rattle.std.specs.Prelude.{None, IfErr};
ghost use Rattle.asn1_core.specs.Bounds.{size_bounds};
ghost use Rattle.asn1_core.specs.Texts.{AnyOctets};
ghost use Rattle.oer_spec.specs.ReadingTexts.{octet_string_at};
ghost use Rattle.oer_spec.specs.Spelled.{IsTextOf, text, unsized_text};
ghost use Rattle.oer_read.specs.Answers.{Answers};
ghost use Rattle.oer_read.specs.Law.{Decodes, IsForMemory};

use crate::decode::Decode;
use crate::decoder::Decoder;
use crate::owned::read_own_octets;
use asn1_core::{Constraints, DecodeError, Tag};
use asn1_strings::{Any, OctetString};
use oer_leaf_read::read_octet_string;
use std::alloc::Global;

impl<'input> Decoder<'input> {
    /// Reads an OCTET STRING (X.696, 14) under the size constraint, which counts octets: as many octets as a fixed size
    /// has, else a length and that many. What is answered are octets of the input; no memory is taken.
    ///
    /// Refused, the first that applies: of a fixed size `Incomplete`; else what the length is refused by; above
    /// `usize::MAX / 8` octets by `LengthExceedsPlatformWidth`; `Incomplete`; `SizeConstraintNotSatisfied` with the size
    /// in octets.
    #[inline(always)]
    pub fn decode_octet_string(
        &mut self,
        _tag: Tag,
        constraints: Constraints,
    ) -> Result<&'input [u8], DecodeError>
        ensures function { Answers (λ v. v.now) self.old result self.new (octet_string_at (size_bounds constraints) self.old.codec self.old.input) }
        ensures no_memory { IfErr result (λ e. IsForMemory e → ⊥) }
        ensures law { Decodes (λ v. text AnyOctets constraints v.now) (λ v. IsTextOf AnyOctets v.now) self.old result self.new }
    {
        let answer = read_octet_string(self.codec(), constraints, self.remaining());
        self.take(answer)
    }

    /// Reads the octets of an open type (X.696, 30): a length and that many.
    ///
    /// Refused as `decode_octet_string` does without constraints; then `OutOfMemory`.
    #[inline(always)]
    pub fn decode_any(&mut self, alloc: Global, _tag: Tag) -> Result<Any, DecodeError>
        ensures function { Answers (λ v. v) self.old result self.new (octet_string_at None self.old.codec self.old.input) }
        ensures law { Decodes (unsized_text AnyOctets) (IsTextOf AnyOctets) self.old result self.new }
    {
        let answer = read_own_octets(alloc, self.codec(), Constraints::NONE, self.remaining());
        self.take(answer)
    }

    /// Reads an OCTET STRING as `decode_octet_string` does, and copies it; then it may refuse by `OutOfMemory`.
    #[inline(always)]
    fn own_octet_string(
        &mut self,
        alloc: Global,
        constraints: Constraints,
    ) -> Result<OctetString, DecodeError>
        ensures function { Answers (λ v. v) self.old result self.new (octet_string_at (size_bounds constraints) self.old.codec self.old.input) }
        ensures law { Decodes (text AnyOctets constraints) (IsTextOf AnyOctets) self.old result self.new }
    {
        let answer = read_own_octets(alloc, self.codec(), constraints, self.remaining());
        self.take(answer)
    }
}

/// A copy of what `decode_octet_string` reads.
impl Decode for OctetString {
    ghost use Rattle.std.specs.Prelude.{true};
    ghost use Rattle.asn1_core.specs.Bounds.{size_bounds};
    ghost use Rattle.oer_spec.specs.ReadingTexts.{octet_string_at};
    ghost use Rattle.oer_read.specs.Answers.{LeafAnswers};

    ghost Answered = { λ c s r t. LeafAnswers (λ v. v) true s r t (octet_string_at (size_bounds c) s.codec s.input) };

    #[inline(always)]
    fn decode_with_tag_and_constraints(
        alloc: Global,
        decoder: &mut Decoder<'_>,
        _tag: Tag,
        constraints: Constraints,
    ) -> Result<OctetString, DecodeError> {
        decoder.own_octet_string(alloc, constraints)
    }
}

impl Decode for Any {
    ghost use Rattle.std.specs.Prelude.{true, None};
    ghost use Rattle.oer_spec.specs.ReadingTexts.{octet_string_at};
    ghost use Rattle.oer_read.specs.Answers.{LeafAnswers};

    ghost Answered = { λ c s r t. LeafAnswers (λ v. v) true s r t (octet_string_at None s.codec s.input) };

    #[inline(always)]
    fn decode_with_tag_and_constraints(
        alloc: Global,
        decoder: &mut Decoder<'_>,
        tag: Tag,
        _constraints: Constraints,
    ) -> Result<Any, DecodeError> {
        decoder.decode_any(alloc, tag)
    }
}

//! Reading object identifiers.

ghost use Rattle.std.specs.Prelude.{None};
ghost use Rattle.asn1_core.specs.declared.error.DecodeErrorKind.TheVariants.{InvalidObjectIdentifier};
ghost use Rattle.asn1_strings.specs.Identifiers.{arcs_octets};
ghost use Rattle.oer_spec.specs.ReadingTexts.{are_contents, text_at};
ghost use Rattle.oer_spec.specs.Spelled.{IsIdentifier, identifier};
ghost use Rattle.oer_read.specs.Answers.{Answers};
ghost use Rattle.oer_read.specs.Law.{Decodes};

use crate::decode::Decode;
use crate::decoder::Decoder;
use asn1_core::{Constraints, DecodeError, Tag};
use asn1_strings::ObjectIdentifier;
use oer_leaf_read::read_object_identifier;
use std::alloc::Global;

impl<'input> Decoder<'input> {
    /// Reads an OBJECT IDENTIFIER (X.696, 21; X.690, 8.19): a length and the contents octets.
    ///
    /// Refused as `decode_octet_string` does without constraints; then `InvalidObjectIdentifier` where the octets are none,
    /// or an arc is past `u32::MAX`. `OutOfMemory` may come before that.
    #[inline(always)]
    pub fn decode_object_identifier(
        &mut self,
        alloc: Global,
        _tag: Tag,
    ) -> Result<ObjectIdentifier, DecodeError>
        ensures function { Answers arcs_octets self.old result self.new (text_at are_contents InvalidObjectIdentifier None self.old.codec self.old.input) }
        ensures law { Decodes identifier IsIdentifier self.old result self.new }
    {
        let answer = read_object_identifier(alloc, self.codec(), self.remaining());
        self.take(answer)
    }
}

impl Decode for ObjectIdentifier {
    ghost use Rattle.std.specs.Prelude.{true, None};
    ghost use Rattle.asn1_core.specs.declared.error.DecodeErrorKind.TheVariants.{InvalidObjectIdentifier};
    ghost use Rattle.asn1_strings.specs.Identifiers.{arcs_octets};
    ghost use Rattle.oer_spec.specs.ReadingTexts.{are_contents, text_at};
    ghost use Rattle.oer_read.specs.Answers.{LeafAnswers};

    ghost Answered = { λ c s r t. LeafAnswers arcs_octets true s r t (text_at are_contents InvalidObjectIdentifier None s.codec s.input) };

    #[inline(always)]
    fn decode_with_tag_and_constraints(
        alloc: Global,
        decoder: &mut Decoder<'_>,
        tag: Tag,
        _constraints: Constraints,
    ) -> Result<ObjectIdentifier, DecodeError> {
        decoder.decode_object_identifier(alloc, tag)
    }
}

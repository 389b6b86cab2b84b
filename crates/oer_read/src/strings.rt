//! Reading character strings.

ghost use Rattle.std.specs.Prelude.{true, string_bytes};
ghost use Rattle.std.specs.Str.{is_utf8};
ghost use Rattle.asn1_core.specs.Bounds.{size_bounds};
ghost use Rattle.asn1_core.specs.Texts.{Bmp, General, Graphic, Ia5, Numeric, Printable, Teletex, Utf8, Visible, is_ia5, is_numeric, is_printable, is_visible, unit_of};
ghost use Rattle.asn1_core.specs.declared.error.DecodeErrorKind.TheVariants.{StringConversionFailed, PermittedAlphabetError};
ghost use Rattle.asn1_strings.specs.Characters.{are_characters};
ghost use Rattle.oer_spec.specs.ReadingTexts.{characters_at, text_at};
ghost use Rattle.oer_spec.specs.Spelled.{IsTextOf, text};
ghost use Rattle.oer_read.specs.Answers.{Answers};
ghost use Rattle.oer_read.specs.Law.{Decodes};

use crate::decode::Decode;
use crate::decoder::Decoder;
use crate::owned::{read_own_text, read_own_utf8};
use asn1_core::{Constraints, DecodeError, Tag, Utf8String};
use asn1_strings::{
    BmpCharacters, BmpString, CharacterSet, GeneralCharacters, GeneralString, GraphicCharacters,
    GraphicString, Ia5Characters, Ia5String, NumericCharacters, NumericString, PrintableCharacters,
    PrintableString, RestrictedString, TeletexCharacters, TeletexString, VisibleCharacters,
    VisibleString,
};
use std::alloc::Global;

impl<'input> Decoder<'input> {
    /// Reads a UTF8String (X.696, 27), whose size counts octets.
    ///
    /// Refused as `decode_octet_string` does; then `StringConversionFailed` where the octets are no UTF-8; then
    /// `OutOfMemory`.
    #[inline(always)]
    pub fn decode_utf8_string(
        &mut self,
        alloc: Global,
        _tag: Tag,
        constraints: Constraints,
    ) -> Result<Utf8String, DecodeError>
        ensures function { Answers (λ v. string_bytes v) self.old result self.new (text_at is_utf8 StringConversionFailed (size_bounds constraints) self.old.codec self.old.input) }
        ensures law { Decodes (λ v. text Utf8 constraints (string_bytes v)) (λ v. IsTextOf Utf8 (string_bytes v)) self.old result self.new }
    {
        let answer = read_own_utf8(alloc, self.codec(), constraints, self.remaining());
        self.take(answer)
    }

    /// Reads a VisibleString (X.696, 27), whose size counts characters of one octet.
    ///
    /// Refused as `decode_octet_string` does; then `PermittedAlphabetError` where a character is outside the alphabet;
    /// then `OutOfMemory`.
    #[inline(always)]
    pub fn decode_visible_string(
        &mut self,
        alloc: Global,
        _tag: Tag,
        constraints: Constraints,
    ) -> Result<VisibleString, DecodeError>
        ensures function { Answers (λ v. v) self.old result self.new
            (characters_at 1 (are_characters 1 is_visible) (size_bounds constraints) self.old.codec self.old.input) }
        ensures law { Decodes (text Visible constraints) (IsTextOf Visible) self.old result self.new }
    {
        self.restricted::<VisibleCharacters>(alloc, constraints)
    }

    /// Reads a GeneralString (X.696, 27), whose size counts characters of one octet; any octet is one.
    ///
    /// Refused as `decode_octet_string` does; then `OutOfMemory`.
    #[inline(always)]
    pub fn decode_general_string(
        &mut self,
        alloc: Global,
        _tag: Tag,
        constraints: Constraints,
    ) -> Result<GeneralString, DecodeError>
        ensures function { Answers (λ v. v) self.old result self.new
            (characters_at 1 (are_characters 1 (λ _. true)) (size_bounds constraints) self.old.codec self.old.input) }
        ensures law { Decodes (text General constraints) (IsTextOf General) self.old result self.new }
    {
        self.restricted::<GeneralCharacters>(alloc, constraints)
    }

    /// Reads a GraphicString (X.696, 27), whose size counts characters of one octet; any octet is one.
    ///
    /// Refused as `decode_octet_string` does; then `OutOfMemory`.
    #[inline(always)]
    pub fn decode_graphic_string(
        &mut self,
        alloc: Global,
        _tag: Tag,
        constraints: Constraints,
    ) -> Result<GraphicString, DecodeError>
        ensures function { Answers (λ v. v) self.old result self.new
            (characters_at 1 (are_characters 1 (λ _. true)) (size_bounds constraints) self.old.codec self.old.input) }
        ensures law { Decodes (text Graphic constraints) (IsTextOf Graphic) self.old result self.new }
    {
        self.restricted::<GraphicCharacters>(alloc, constraints)
    }

    /// Reads a Ia5String (X.696, 27), whose size counts characters of one octet.
    ///
    /// Refused as `decode_octet_string` does; then `PermittedAlphabetError` where a character is outside the alphabet;
    /// then `OutOfMemory`.
    #[inline(always)]
    pub fn decode_ia5_string(
        &mut self,
        alloc: Global,
        _tag: Tag,
        constraints: Constraints,
    ) -> Result<Ia5String, DecodeError>
        ensures function { Answers (λ v. v) self.old result self.new
            (characters_at 1 (are_characters 1 is_ia5) (size_bounds constraints) self.old.codec self.old.input) }
        ensures law { Decodes (text Ia5 constraints) (IsTextOf Ia5) self.old result self.new }
    {
        self.restricted::<Ia5Characters>(alloc, constraints)
    }

    /// Reads a PrintableString (X.696, 27), whose size counts characters of one octet.
    ///
    /// Refused as `decode_octet_string` does; then `PermittedAlphabetError` where a character is outside the alphabet;
    /// then `OutOfMemory`.
    #[inline(always)]
    pub fn decode_printable_string(
        &mut self,
        alloc: Global,
        _tag: Tag,
        constraints: Constraints,
    ) -> Result<PrintableString, DecodeError>
        ensures function { Answers (λ v. v) self.old result self.new
            (characters_at 1 (are_characters 1 is_printable) (size_bounds constraints) self.old.codec self.old.input) }
        ensures law { Decodes (text Printable constraints) (IsTextOf Printable) self.old result self.new }
    {
        self.restricted::<PrintableCharacters>(alloc, constraints)
    }

    /// Reads a NumericString (X.696, 27), whose size counts characters of one octet.
    ///
    /// Refused as `decode_octet_string` does; then `PermittedAlphabetError` where a character is outside the alphabet;
    /// then `OutOfMemory`.
    #[inline(always)]
    pub fn decode_numeric_string(
        &mut self,
        alloc: Global,
        _tag: Tag,
        constraints: Constraints,
    ) -> Result<NumericString, DecodeError>
        ensures function { Answers (λ v. v) self.old result self.new
            (characters_at 1 (are_characters 1 is_numeric) (size_bounds constraints) self.old.codec self.old.input) }
        ensures law { Decodes (text Numeric constraints) (IsTextOf Numeric) self.old result self.new }
    {
        self.restricted::<NumericCharacters>(alloc, constraints)
    }

    /// Reads a TeletexString (X.696, 27), whose size counts characters of one octet; any octet is one.
    ///
    /// Refused as `decode_octet_string` does; then `OutOfMemory`.
    #[inline(always)]
    pub fn decode_teletex_string(
        &mut self,
        alloc: Global,
        _tag: Tag,
        constraints: Constraints,
    ) -> Result<TeletexString, DecodeError>
        ensures function { Answers (λ v. v) self.old result self.new
            (characters_at 1 (are_characters 1 (λ _. true)) (size_bounds constraints) self.old.codec self.old.input) }
        ensures law { Decodes (text Teletex constraints) (IsTextOf Teletex) self.old result self.new }
    {
        self.restricted::<TeletexCharacters>(alloc, constraints)
    }

    /// Reads a BMPString (X.696, 27), whose size counts characters of two octets.
    ///
    /// Refused, the first that applies: of a fixed size, twice the size past `usize::MAX` by
    /// `LengthExceedsPlatformWidth`, then `Incomplete`; else what the length is refused by, above `usize::MAX / 8` octets
    /// by `LengthExceedsPlatformWidth`, `Incomplete`, an odd count of octets by `PermittedAlphabetError`, and
    /// `SizeConstraintNotSatisfied` with the size in characters. `OutOfMemory` comes last.
    #[inline(always)]
    pub fn decode_bmp_string(
        &mut self,
        alloc: Global,
        _tag: Tag,
        constraints: Constraints,
    ) -> Result<BmpString, DecodeError>
        ensures function { Answers (λ v. v) self.old result self.new
            (characters_at 2 (are_characters 2 (λ _. true)) (size_bounds constraints) self.old.codec self.old.input) }
        ensures law { Decodes (text Bmp constraints) (IsTextOf Bmp) self.old result self.new }
    {
        self.restricted::<BmpCharacters>(alloc, constraints)
    }

    /// Reads a restricted character string, whose size counts characters.
    fn restricted<C: CharacterSet>(
        &mut self,
        alloc: Global,
        constraints: Constraints,
    ) -> Result<RestrictedString<C>, DecodeError>
        ensures function { Answers (λ v. v) self.old result self.new
            (characters_at (unit_of C.rule) (are_characters (unit_of C.rule) C.permitted) (size_bounds constraints) self.old.codec self.old.input) }
        ensures law { Decodes (text C.rule constraints) (IsTextOf C.rule) self.old result self.new }
    {
        let answer = read_own_text(alloc, self.codec(), constraints, self.remaining());
        self.take(answer)
    }
}

impl Decode for Utf8String {
    ghost use Rattle.std.specs.Prelude.{true, string_bytes};
    ghost use Rattle.std.specs.Str.{is_utf8};
    ghost use Rattle.asn1_core.specs.Bounds.{size_bounds};
    ghost use Rattle.asn1_core.specs.declared.error.DecodeErrorKind.TheVariants.{StringConversionFailed};
    ghost use Rattle.oer_spec.specs.ReadingTexts.{text_at};
    ghost use Rattle.oer_read.specs.Answers.{LeafAnswers};

    ghost Answered = { λ c s r t. LeafAnswers (λ v. string_bytes v) true s r t (text_at is_utf8 StringConversionFailed (size_bounds c) s.codec s.input) };

    #[inline(always)]
    fn decode_with_tag_and_constraints(
        alloc: Global,
        decoder: &mut Decoder<'_>,
        tag: Tag,
        constraints: Constraints,
    ) -> Result<Utf8String, DecodeError> {
        decoder.decode_utf8_string(alloc, tag, constraints)
    }
}

impl<C: CharacterSet> Decode for RestrictedString<C> {
    ghost use Rattle.std.specs.Prelude.{true};
    ghost use Rattle.asn1_core.specs.Bounds.{size_bounds};
    ghost use Rattle.asn1_core.specs.Texts.{unit_of};
    ghost use Rattle.asn1_strings.specs.Characters.{are_characters};
    ghost use Rattle.oer_spec.specs.ReadingTexts.{characters_at};
    ghost use Rattle.oer_read.specs.Answers.{LeafAnswers};

    ghost Answered = { λ c s r t. LeafAnswers (λ v. v) true s r t (characters_at (unit_of C.rule) (are_characters (unit_of C.rule) C.permitted) (size_bounds c) s.codec s.input) };

    #[inline(always)]
    fn decode_with_tag_and_constraints(
        alloc: Global,
        decoder: &mut Decoder<'_>,
        _tag: Tag,
        constraints: Constraints,
    ) -> Result<RestrictedString<C>, DecodeError> {
        decoder.restricted(alloc, constraints)
    }
}

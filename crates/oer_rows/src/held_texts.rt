//! Character strings whose characters are UTF-8's or ASCII's, as components.
//!
//! No bound is stated yet that leads to a type whose struct has a bound itself, as `Ia5String` has; a struct of it without
//! parameters can stand there. So a row that stands in another has these, and not the types within.

use asn1_core::{AsnType, Constraints, DecodeError, EncodeError, Tag, Utf8String};
use asn1_strings::{Ia5String, NumericString, PrintableString, VisibleString};
use oer_read::{Decode, Decoder};
use oer_spec::{EqualAsSpelled, Spelled};
use oer_write::{Encode, Encoder};
use std::alloc::{AllocError, Global};
use std::fmt::{self, Debug};
use std::marker::Model;

/// `UTF8String`: contracts see its octets, so that a definition can name a value of it.
#[derive(Drop)]
pub struct Utf8Text(pub Utf8String);

/// As what it holds.
impl Debug for Utf8Text {
    fn fmt<W: fmt::Write>(&self, f: &mut fmt::Formatter<W>) -> fmt::Result {
        self.0.fmt(f)
    }
}

impl Model for Utf8Text {
    ghost use Rattle.std.specs.Prelude.{List, ℕ, string_bytes};

    ghost Value = { List ℕ };

    ghost view = { λ t. string_bytes t.0 };
}

impl PartialEq for Utf8Text {
    ghost use Rattle.std.specs.Prelude.{nat_eq};
    ghost use Rattle.std.specs.Cmp.Lexicographic.{pointwise, nat_list_eq_equiv};
    ghost use Rattle.std.specs.Cmp.{partial_equiv_from_equiv};

    ghost eq = { pointwise nat_eq };

    ghost laws = { partial_equiv_from_equiv nat_list_eq_equiv };

    fn eq(&self, other: &Utf8Text) -> bool {
        self.0 == other.0
    }
}

impl Eq for Utf8Text {
    ghost use Rattle.std.specs.Cmp.Lexicographic.{nat_list_eq_equiv};

    ghost laws = { nat_list_eq_equiv };
}

impl Clone for Utf8Text {
    ghost use Rattle.std.specs.Prelude.{◌≡◌};

    ghost is_clone = { λ x y. y ≡ x };

    /// The same text.
    fn clone(&self) -> Result<Utf8Text, AllocError> {
        let text = self.0.clone()?;
        Ok(Utf8Text(text))
    }
}

impl AsnType for Utf8Text {
    ghost use Rattle.std.specs.Prelude.{refl};
    ghost use Rattle.asn1_core.specs.declared.tag.TheConstants.Tag.{UTF8_STRING};
    ghost use Rattle.asn1_core.specs.declared.constraints.TheConstants.Constraints.{NONE};

    ghost TAG = { UTF8_STRING };

    const TAG: Tag = Tag::UTF8_STRING;

    ghost CONSTRAINTS = { NONE };

    const CONSTRAINTS: Constraints = Constraints::NONE;

    ghost consistent = { refl };
}

impl Spelled for Utf8Text {
    ghost use Rattle.asn1_core.specs.Texts.{Utf8};
    ghost use Rattle.oer_spec.specs.Spelled.{IsTextOf, text, text_is, texts_alike};

    ghost tree = { text Utf8 };

    ghost IsValue = { IsTextOf Utf8 };

    ghost is_tree = { λ c k o i. text_is Utf8 c o i };

    ghost alike = { λ c k o p i j. texts_alike Utf8 c o p };
}

impl EqualAsSpelled for Utf8Text {
    ghost use Rattle.asn1_core.specs.Texts.{Utf8};
    ghost use Rattle.oer_spec.specs.Spelled.{texts_same};

    ghost eq_is_same = { λ c k o p i j. texts_same Utf8 c o p };
}

impl Encode for Utf8Text {
    #[inline(always)]
    fn encode_with_tag_and_constraints(
        &self,
        encoder: &mut Encoder<'_>,
        tag: Tag,
        constraints: Constraints,
    ) -> Result<(), EncodeError> {
        self.0
            .encode_with_tag_and_constraints(encoder, tag, constraints)
    }
}

impl Decode for Utf8Text {
    ghost use Rattle.std.specs.Prelude.{true};
    ghost use Rattle.std.specs.Str.{is_utf8};
    ghost use Rattle.asn1_core.specs.Bounds.{size_bounds};
    ghost use Rattle.asn1_core.specs.declared.error.DecodeErrorKind.TheVariants.{StringConversionFailed};
    ghost use Rattle.oer_spec.specs.ReadingTexts.{text_at};
    ghost use Rattle.oer_read.specs.Answers.{LeafAnswers};

    ghost Answered = { λ c s r t. LeafAnswers (λ v. v) true s r t (text_at is_utf8 StringConversionFailed (size_bounds c) s.codec s.input) };

    #[inline(always)]
    fn decode_with_tag_and_constraints(
        alloc: Global,
        decoder: &mut Decoder<'_>,
        tag: Tag,
        constraints: Constraints,
    ) -> Result<Utf8Text, DecodeError> {
        match decoder.decode_utf8_string(alloc, tag, constraints) {
            Ok(content) => Ok(Utf8Text(content)),
            Err(e) => Err(e),
        }
    }
}

/// `NumericString`
#[derive(Clone, PartialEq, Eq, Drop)]
pub struct NumericText(pub NumericString);

/// As what it holds.
impl Debug for NumericText {
    fn fmt<W: fmt::Write>(&self, f: &mut fmt::Formatter<W>) -> fmt::Result {
        self.0.fmt(f)
    }
}

impl AsnType for NumericText {
    ghost use Rattle.std.specs.Prelude.{refl};
    ghost use Rattle.asn1_core.specs.declared.tag.TheConstants.Tag.{NUMERIC_STRING};
    ghost use Rattle.asn1_core.specs.declared.constraints.TheConstants.Constraints.{NONE};

    ghost TAG = { NUMERIC_STRING };

    const TAG: Tag = Tag::NUMERIC_STRING;

    ghost CONSTRAINTS = { NONE };

    const CONSTRAINTS: Constraints = Constraints::NONE;

    ghost consistent = { refl };
}

impl Spelled for NumericText {
    ghost tree = { λ c v. ⟦<NumericString as Spelled>⟧.tree c v.0 };

    ghost IsValue = { λ v. ⟦<NumericString as Spelled>⟧.IsValue v.0 };

    ghost is_tree = { λ c k v i. ⟦<NumericString as Spelled>⟧.is_tree c k v.0 i };

    ghost alike = { λ c k v w i j. ⟦<NumericString as Spelled>⟧.alike c k v.0 w.0 i j };
}

impl EqualAsSpelled for NumericText {
    ghost use Rattle.asn1_core.specs.Texts.{Numeric};
    ghost use Rattle.oer_spec.specs.Spelled.{texts_same};

    ghost eq_is_same = { λ c k v w i j. texts_same Numeric c v.0 w.0 };
}

impl Encode for NumericText {
    #[inline(always)]
    fn encode_with_tag_and_constraints(
        &self,
        encoder: &mut Encoder<'_>,
        tag: Tag,
        constraints: Constraints,
    ) -> Result<(), EncodeError> {
        self.0
            .encode_with_tag_and_constraints(encoder, tag, constraints)
    }
}

impl Decode for NumericText {
    ghost use Rattle.std.specs.Result.{result_map_both};

    ghost Answered = { λ c s r t. ⟦<NumericString as Decode>⟧.Answered c s (result_map_both (λ v. v.0) (λ e. e) r) t };

    #[inline(always)]
    fn decode_with_tag_and_constraints(
        alloc: Global,
        decoder: &mut Decoder<'_>,
        tag: Tag,
        constraints: Constraints,
    ) -> Result<NumericText, DecodeError> {
        match NumericString::decode_with_tag_and_constraints(alloc, decoder, tag, constraints) {
            Ok(content) => Ok(NumericText(content)),
            Err(e) => Err(e),
        }
    }
}

/// `PrintableString`
#[derive(Clone, PartialEq, Eq, Drop)]
pub struct PrintableText(pub PrintableString);

/// As what it holds.
impl Debug for PrintableText {
    fn fmt<W: fmt::Write>(&self, f: &mut fmt::Formatter<W>) -> fmt::Result {
        self.0.fmt(f)
    }
}

impl AsnType for PrintableText {
    ghost use Rattle.std.specs.Prelude.{refl};
    ghost use Rattle.asn1_core.specs.declared.tag.TheConstants.Tag.{PRINTABLE_STRING};
    ghost use Rattle.asn1_core.specs.declared.constraints.TheConstants.Constraints.{NONE};

    ghost TAG = { PRINTABLE_STRING };

    const TAG: Tag = Tag::PRINTABLE_STRING;

    ghost CONSTRAINTS = { NONE };

    const CONSTRAINTS: Constraints = Constraints::NONE;

    ghost consistent = { refl };
}

impl Spelled for PrintableText {
    ghost tree = { λ c v. ⟦<PrintableString as Spelled>⟧.tree c v.0 };

    ghost IsValue = { λ v. ⟦<PrintableString as Spelled>⟧.IsValue v.0 };

    ghost is_tree = { λ c k v i. ⟦<PrintableString as Spelled>⟧.is_tree c k v.0 i };

    ghost alike = { λ c k v w i j. ⟦<PrintableString as Spelled>⟧.alike c k v.0 w.0 i j };
}

impl EqualAsSpelled for PrintableText {
    ghost use Rattle.asn1_core.specs.Texts.{Printable};
    ghost use Rattle.oer_spec.specs.Spelled.{texts_same};

    ghost eq_is_same = { λ c k v w i j. texts_same Printable c v.0 w.0 };
}

impl Encode for PrintableText {
    #[inline(always)]
    fn encode_with_tag_and_constraints(
        &self,
        encoder: &mut Encoder<'_>,
        tag: Tag,
        constraints: Constraints,
    ) -> Result<(), EncodeError> {
        self.0
            .encode_with_tag_and_constraints(encoder, tag, constraints)
    }
}

impl Decode for PrintableText {
    ghost use Rattle.std.specs.Result.{result_map_both};

    ghost Answered = { λ c s r t. ⟦<PrintableString as Decode>⟧.Answered c s (result_map_both (λ v. v.0) (λ e. e) r) t };

    #[inline(always)]
    fn decode_with_tag_and_constraints(
        alloc: Global,
        decoder: &mut Decoder<'_>,
        tag: Tag,
        constraints: Constraints,
    ) -> Result<PrintableText, DecodeError> {
        match PrintableString::decode_with_tag_and_constraints(alloc, decoder, tag, constraints) {
            Ok(content) => Ok(PrintableText(content)),
            Err(e) => Err(e),
        }
    }
}

/// `VisibleString`
#[derive(Clone, PartialEq, Eq, Drop)]
pub struct VisibleText(pub VisibleString);

/// As what it holds.
impl Debug for VisibleText {
    fn fmt<W: fmt::Write>(&self, f: &mut fmt::Formatter<W>) -> fmt::Result {
        self.0.fmt(f)
    }
}

impl AsnType for VisibleText {
    ghost use Rattle.std.specs.Prelude.{refl};
    ghost use Rattle.asn1_core.specs.declared.tag.TheConstants.Tag.{VISIBLE_STRING};
    ghost use Rattle.asn1_core.specs.declared.constraints.TheConstants.Constraints.{NONE};

    ghost TAG = { VISIBLE_STRING };

    const TAG: Tag = Tag::VISIBLE_STRING;

    ghost CONSTRAINTS = { NONE };

    const CONSTRAINTS: Constraints = Constraints::NONE;

    ghost consistent = { refl };
}

impl Spelled for VisibleText {
    ghost tree = { λ c v. ⟦<VisibleString as Spelled>⟧.tree c v.0 };

    ghost IsValue = { λ v. ⟦<VisibleString as Spelled>⟧.IsValue v.0 };

    ghost is_tree = { λ c k v i. ⟦<VisibleString as Spelled>⟧.is_tree c k v.0 i };

    ghost alike = { λ c k v w i j. ⟦<VisibleString as Spelled>⟧.alike c k v.0 w.0 i j };
}

impl EqualAsSpelled for VisibleText {
    ghost use Rattle.asn1_core.specs.Texts.{Visible};
    ghost use Rattle.oer_spec.specs.Spelled.{texts_same};

    ghost eq_is_same = { λ c k v w i j. texts_same Visible c v.0 w.0 };
}

impl Encode for VisibleText {
    #[inline(always)]
    fn encode_with_tag_and_constraints(
        &self,
        encoder: &mut Encoder<'_>,
        tag: Tag,
        constraints: Constraints,
    ) -> Result<(), EncodeError> {
        self.0
            .encode_with_tag_and_constraints(encoder, tag, constraints)
    }
}

impl Decode for VisibleText {
    ghost use Rattle.std.specs.Result.{result_map_both};

    ghost Answered = { λ c s r t. ⟦<VisibleString as Decode>⟧.Answered c s (result_map_both (λ v. v.0) (λ e. e) r) t };

    #[inline(always)]
    fn decode_with_tag_and_constraints(
        alloc: Global,
        decoder: &mut Decoder<'_>,
        tag: Tag,
        constraints: Constraints,
    ) -> Result<VisibleText, DecodeError> {
        match VisibleString::decode_with_tag_and_constraints(alloc, decoder, tag, constraints) {
            Ok(content) => Ok(VisibleText(content)),
            Err(e) => Err(e),
        }
    }
}

/// `IA5String`
#[derive(Clone, PartialEq, Eq, Drop)]
pub struct Ia5Text(pub Ia5String);

/// As what it holds.
impl Debug for Ia5Text {
    fn fmt<W: fmt::Write>(&self, f: &mut fmt::Formatter<W>) -> fmt::Result {
        self.0.fmt(f)
    }
}

impl AsnType for Ia5Text {
    ghost use Rattle.std.specs.Prelude.{refl};
    ghost use Rattle.asn1_core.specs.declared.tag.TheConstants.Tag.{IA5_STRING};
    ghost use Rattle.asn1_core.specs.declared.constraints.TheConstants.Constraints.{NONE};

    ghost TAG = { IA5_STRING };

    const TAG: Tag = Tag::IA5_STRING;

    ghost CONSTRAINTS = { NONE };

    const CONSTRAINTS: Constraints = Constraints::NONE;

    ghost consistent = { refl };
}

impl Spelled for Ia5Text {
    ghost tree = { λ c v. ⟦<Ia5String as Spelled>⟧.tree c v.0 };

    ghost IsValue = { λ v. ⟦<Ia5String as Spelled>⟧.IsValue v.0 };

    ghost is_tree = { λ c k v i. ⟦<Ia5String as Spelled>⟧.is_tree c k v.0 i };

    ghost alike = { λ c k v w i j. ⟦<Ia5String as Spelled>⟧.alike c k v.0 w.0 i j };
}

impl EqualAsSpelled for Ia5Text {
    ghost use Rattle.asn1_core.specs.Texts.{Ia5};
    ghost use Rattle.oer_spec.specs.Spelled.{texts_same};

    ghost eq_is_same = { λ c k v w i j. texts_same Ia5 c v.0 w.0 };
}

impl Encode for Ia5Text {
    #[inline(always)]
    fn encode_with_tag_and_constraints(
        &self,
        encoder: &mut Encoder<'_>,
        tag: Tag,
        constraints: Constraints,
    ) -> Result<(), EncodeError> {
        self.0
            .encode_with_tag_and_constraints(encoder, tag, constraints)
    }
}

impl Decode for Ia5Text {
    ghost use Rattle.std.specs.Result.{result_map_both};

    ghost Answered = { λ c s r t. ⟦<Ia5String as Decode>⟧.Answered c s (result_map_both (λ v. v.0) (λ e. e) r) t };

    #[inline(always)]
    fn decode_with_tag_and_constraints(
        alloc: Global,
        decoder: &mut Decoder<'_>,
        tag: Tag,
        constraints: Constraints,
    ) -> Result<Ia5Text, DecodeError> {
        match Ia5String::decode_with_tag_and_constraints(alloc, decoder, tag, constraints) {
            Ok(content) => Ok(Ia5Text(content)),
            Err(e) => Err(e),
        }
    }
}

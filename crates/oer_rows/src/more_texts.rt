//! Character strings of other characters, as components.
//!
//! No bound is stated yet that leads to a type whose struct has a bound itself, as `BmpString` has; a struct of it without
//! parameters can stand there. So a row that stands in another has these, and not the types within.

use asn1_core::{AsnType, Constraints, DecodeError, EncodeError, Tag};
use asn1_strings::{BmpString, GeneralString, GraphicString, TeletexString, UniversalString};
use oer_read::{Decode, Decoder};
use oer_spec::{EqualAsSpelled, Spelled};
use oer_write::{Encode, Encoder};
use std::alloc::Global;
use std::fmt::{self, Debug};

/// `GeneralString`
#[derive(Clone, PartialEq, Eq, Drop)]
pub struct GeneralText(pub GeneralString);

/// As what it holds.
impl Debug for GeneralText {
    fn fmt<W: fmt::Write>(&self, f: &mut fmt::Formatter<W>) -> fmt::Result {
        self.0.fmt(f)
    }
}

impl AsnType for GeneralText {
    ghost use Rattle.std.specs.Prelude.{refl};
    ghost use Rattle.asn1_core.specs.declared.tag.TheConstants.Tag.{GENERAL_STRING};
    ghost use Rattle.asn1_core.specs.declared.constraints.TheConstants.Constraints.{NONE};

    ghost TAG = { GENERAL_STRING };

    const TAG: Tag = Tag::GENERAL_STRING;

    ghost CONSTRAINTS = { NONE };

    const CONSTRAINTS: Constraints = Constraints::NONE;

    ghost consistent = { refl };
}

impl Spelled for GeneralText {
    ghost tree = { λ c v. ⟦<GeneralString as Spelled>⟧.tree c v.0 };

    ghost IsValue = { λ v. ⟦<GeneralString as Spelled>⟧.IsValue v.0 };

    ghost is_tree = { λ c k v i. ⟦<GeneralString as Spelled>⟧.is_tree c k v.0 i };

    ghost alike = { λ c k v w i j. ⟦<GeneralString as Spelled>⟧.alike c k v.0 w.0 i j };
}

impl EqualAsSpelled for GeneralText {
    ghost use Rattle.asn1_core.specs.Texts.{General};
    ghost use Rattle.oer_spec.specs.Spelled.{texts_same};

    ghost eq_is_same = { λ c k v w i j. texts_same General c v.0 w.0 };
}

impl Encode for GeneralText {
    #[inline(always)]
    fn encode_with_tag_and_constraints(
        &self,
        encoder: &mut Encoder<'_>,
        tag: Tag,
        constraints: Constraints,
    ) -> Result<(), EncodeError> {
        self.0
            .encode_with_tag_and_constraints(encoder, tag, constraints)
    }
}

impl Decode for GeneralText {
    ghost use Rattle.std.specs.Result.{result_map_both};

    ghost Answered = { λ c s r t. ⟦<GeneralString as Decode>⟧.Answered c s (result_map_both (λ v. v.0) (λ e. e) r) t };

    #[inline(always)]
    fn decode_with_tag_and_constraints(
        alloc: Global,
        decoder: &mut Decoder<'_>,
        tag: Tag,
        constraints: Constraints,
    ) -> Result<GeneralText, DecodeError> {
        match GeneralString::decode_with_tag_and_constraints(alloc, decoder, tag, constraints) {
            Ok(content) => Ok(GeneralText(content)),
            Err(e) => Err(e),
        }
    }
}

/// `GraphicString`
#[derive(Clone, PartialEq, Eq, Drop)]
pub struct GraphicText(pub GraphicString);

/// As what it holds.
impl Debug for GraphicText {
    fn fmt<W: fmt::Write>(&self, f: &mut fmt::Formatter<W>) -> fmt::Result {
        self.0.fmt(f)
    }
}

impl AsnType for GraphicText {
    ghost use Rattle.std.specs.Prelude.{refl};
    ghost use Rattle.asn1_core.specs.declared.tag.TheConstants.Tag.{GRAPHIC_STRING};
    ghost use Rattle.asn1_core.specs.declared.constraints.TheConstants.Constraints.{NONE};

    ghost TAG = { GRAPHIC_STRING };

    const TAG: Tag = Tag::GRAPHIC_STRING;

    ghost CONSTRAINTS = { NONE };

    const CONSTRAINTS: Constraints = Constraints::NONE;

    ghost consistent = { refl };
}

impl Spelled for GraphicText {
    ghost tree = { λ c v. ⟦<GraphicString as Spelled>⟧.tree c v.0 };

    ghost IsValue = { λ v. ⟦<GraphicString as Spelled>⟧.IsValue v.0 };

    ghost is_tree = { λ c k v i. ⟦<GraphicString as Spelled>⟧.is_tree c k v.0 i };

    ghost alike = { λ c k v w i j. ⟦<GraphicString as Spelled>⟧.alike c k v.0 w.0 i j };
}

impl EqualAsSpelled for GraphicText {
    ghost use Rattle.asn1_core.specs.Texts.{Graphic};
    ghost use Rattle.oer_spec.specs.Spelled.{texts_same};

    ghost eq_is_same = { λ c k v w i j. texts_same Graphic c v.0 w.0 };
}

impl Encode for GraphicText {
    #[inline(always)]
    fn encode_with_tag_and_constraints(
        &self,
        encoder: &mut Encoder<'_>,
        tag: Tag,
        constraints: Constraints,
    ) -> Result<(), EncodeError> {
        self.0
            .encode_with_tag_and_constraints(encoder, tag, constraints)
    }
}

impl Decode for GraphicText {
    ghost use Rattle.std.specs.Result.{result_map_both};

    ghost Answered = { λ c s r t. ⟦<GraphicString as Decode>⟧.Answered c s (result_map_both (λ v. v.0) (λ e. e) r) t };

    #[inline(always)]
    fn decode_with_tag_and_constraints(
        alloc: Global,
        decoder: &mut Decoder<'_>,
        tag: Tag,
        constraints: Constraints,
    ) -> Result<GraphicText, DecodeError> {
        match GraphicString::decode_with_tag_and_constraints(alloc, decoder, tag, constraints) {
            Ok(content) => Ok(GraphicText(content)),
            Err(e) => Err(e),
        }
    }
}

/// `TeletexString`
#[derive(Clone, PartialEq, Eq, Drop)]
pub struct TeletexText(pub TeletexString);

/// As what it holds.
impl Debug for TeletexText {
    fn fmt<W: fmt::Write>(&self, f: &mut fmt::Formatter<W>) -> fmt::Result {
        self.0.fmt(f)
    }
}

impl AsnType for TeletexText {
    ghost use Rattle.std.specs.Prelude.{refl};
    ghost use Rattle.asn1_core.specs.declared.tag.TheConstants.Tag.{TELETEX_STRING};
    ghost use Rattle.asn1_core.specs.declared.constraints.TheConstants.Constraints.{NONE};

    ghost TAG = { TELETEX_STRING };

    const TAG: Tag = Tag::TELETEX_STRING;

    ghost CONSTRAINTS = { NONE };

    const CONSTRAINTS: Constraints = Constraints::NONE;

    ghost consistent = { refl };
}

impl Spelled for TeletexText {
    ghost tree = { λ c v. ⟦<TeletexString as Spelled>⟧.tree c v.0 };

    ghost IsValue = { λ v. ⟦<TeletexString as Spelled>⟧.IsValue v.0 };

    ghost is_tree = { λ c k v i. ⟦<TeletexString as Spelled>⟧.is_tree c k v.0 i };

    ghost alike = { λ c k v w i j. ⟦<TeletexString as Spelled>⟧.alike c k v.0 w.0 i j };
}

impl EqualAsSpelled for TeletexText {
    ghost use Rattle.asn1_core.specs.Texts.{Teletex};
    ghost use Rattle.oer_spec.specs.Spelled.{texts_same};

    ghost eq_is_same = { λ c k v w i j. texts_same Teletex c v.0 w.0 };
}

impl Encode for TeletexText {
    #[inline(always)]
    fn encode_with_tag_and_constraints(
        &self,
        encoder: &mut Encoder<'_>,
        tag: Tag,
        constraints: Constraints,
    ) -> Result<(), EncodeError> {
        self.0
            .encode_with_tag_and_constraints(encoder, tag, constraints)
    }
}

impl Decode for TeletexText {
    ghost use Rattle.std.specs.Result.{result_map_both};

    ghost Answered = { λ c s r t. ⟦<TeletexString as Decode>⟧.Answered c s (result_map_both (λ v. v.0) (λ e. e) r) t };

    #[inline(always)]
    fn decode_with_tag_and_constraints(
        alloc: Global,
        decoder: &mut Decoder<'_>,
        tag: Tag,
        constraints: Constraints,
    ) -> Result<TeletexText, DecodeError> {
        match TeletexString::decode_with_tag_and_constraints(alloc, decoder, tag, constraints) {
            Ok(content) => Ok(TeletexText(content)),
            Err(e) => Err(e),
        }
    }
}

/// `BMPString`
#[derive(Clone, PartialEq, Eq, Drop)]
pub struct BmpText(pub BmpString);

/// As what it holds.
impl Debug for BmpText {
    fn fmt<W: fmt::Write>(&self, f: &mut fmt::Formatter<W>) -> fmt::Result {
        self.0.fmt(f)
    }
}

impl AsnType for BmpText {
    ghost use Rattle.std.specs.Prelude.{refl};
    ghost use Rattle.asn1_core.specs.declared.tag.TheConstants.Tag.{BMP_STRING};
    ghost use Rattle.asn1_core.specs.declared.constraints.TheConstants.Constraints.{NONE};

    ghost TAG = { BMP_STRING };

    const TAG: Tag = Tag::BMP_STRING;

    ghost CONSTRAINTS = { NONE };

    const CONSTRAINTS: Constraints = Constraints::NONE;

    ghost consistent = { refl };
}

impl Spelled for BmpText {
    ghost tree = { λ c v. ⟦<BmpString as Spelled>⟧.tree c v.0 };

    ghost IsValue = { λ v. ⟦<BmpString as Spelled>⟧.IsValue v.0 };

    ghost is_tree = { λ c k v i. ⟦<BmpString as Spelled>⟧.is_tree c k v.0 i };

    ghost alike = { λ c k v w i j. ⟦<BmpString as Spelled>⟧.alike c k v.0 w.0 i j };
}

impl EqualAsSpelled for BmpText {
    ghost use Rattle.asn1_core.specs.Texts.{Bmp};
    ghost use Rattle.oer_spec.specs.Spelled.{texts_same};

    ghost eq_is_same = { λ c k v w i j. texts_same Bmp c v.0 w.0 };
}

impl Encode for BmpText {
    #[inline(always)]
    fn encode_with_tag_and_constraints(
        &self,
        encoder: &mut Encoder<'_>,
        tag: Tag,
        constraints: Constraints,
    ) -> Result<(), EncodeError> {
        self.0
            .encode_with_tag_and_constraints(encoder, tag, constraints)
    }
}

impl Decode for BmpText {
    ghost use Rattle.std.specs.Result.{result_map_both};

    ghost Answered = { λ c s r t. ⟦<BmpString as Decode>⟧.Answered c s (result_map_both (λ v. v.0) (λ e. e) r) t };

    #[inline(always)]
    fn decode_with_tag_and_constraints(
        alloc: Global,
        decoder: &mut Decoder<'_>,
        tag: Tag,
        constraints: Constraints,
    ) -> Result<BmpText, DecodeError> {
        match BmpString::decode_with_tag_and_constraints(alloc, decoder, tag, constraints) {
            Ok(content) => Ok(BmpText(content)),
            Err(e) => Err(e),
        }
    }
}

/// `UniversalString`
#[derive(Clone, PartialEq, Eq, Drop)]
pub struct UniversalText(pub UniversalString);

/// As what it holds.
impl Debug for UniversalText {
    fn fmt<W: fmt::Write>(&self, f: &mut fmt::Formatter<W>) -> fmt::Result {
        self.0.fmt(f)
    }
}

impl AsnType for UniversalText {
    ghost use Rattle.std.specs.Prelude.{refl};
    ghost use Rattle.asn1_core.specs.declared.tag.TheConstants.Tag.{UNIVERSAL_STRING};
    ghost use Rattle.asn1_core.specs.declared.constraints.TheConstants.Constraints.{NONE};

    ghost TAG = { UNIVERSAL_STRING };

    const TAG: Tag = Tag::UNIVERSAL_STRING;

    ghost CONSTRAINTS = { NONE };

    const CONSTRAINTS: Constraints = Constraints::NONE;

    ghost consistent = { refl };
}

impl Spelled for UniversalText {
    ghost tree = { λ c v. ⟦<UniversalString as Spelled>⟧.tree c v.0 };

    ghost IsValue = { λ v. ⟦<UniversalString as Spelled>⟧.IsValue v.0 };

    ghost is_tree = { λ c k v i. ⟦<UniversalString as Spelled>⟧.is_tree c k v.0 i };

    ghost alike = { λ c k v w i j. ⟦<UniversalString as Spelled>⟧.alike c k v.0 w.0 i j };
}

impl EqualAsSpelled for UniversalText {
    ghost use Rattle.asn1_core.specs.Texts.{Universal};
    ghost use Rattle.oer_spec.specs.Spelled.{texts_same};

    ghost eq_is_same = { λ c k v w i j. texts_same Universal c v.0 w.0 };
}

impl Encode for UniversalText {
    #[inline(always)]
    fn encode_with_tag_and_constraints(
        &self,
        encoder: &mut Encoder<'_>,
        tag: Tag,
        constraints: Constraints,
    ) -> Result<(), EncodeError> {
        self.0
            .encode_with_tag_and_constraints(encoder, tag, constraints)
    }
}

impl Decode for UniversalText {
    ghost use Rattle.std.specs.Result.{result_map_both};

    ghost Answered = { λ c s r t. ⟦<UniversalString as Decode>⟧.Answered c s (result_map_both (λ v. v.0) (λ e. e) r) t };

    #[inline(always)]
    fn decode_with_tag_and_constraints(
        alloc: Global,
        decoder: &mut Decoder<'_>,
        tag: Tag,
        constraints: Constraints,
    ) -> Result<UniversalText, DecodeError> {
        match UniversalString::decode_with_tag_and_constraints(alloc, decoder, tag, constraints) {
            Ok(content) => Ok(UniversalText(content)),
            Err(e) => Err(e),
        }
    }
}

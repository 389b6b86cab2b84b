//! Choices of the alternatives of a type: every impl of a codec's traits is the library's.
ghost use Rattle.std.specs.Prelude.{◌≡◌, ◌++◌, true, IfErr};
ghost use Rattle.oer_choices.specs.Choosing.{are_apart, IsOneOf};
ghost use Rattle.oer_read.specs.Law.{Decodes};

use crate::alternatives::ReadsAlternatives;
use asn1_core::{AsnType, Choice, Constraints, DecodeError, EncodeError, Tag};
use oer_read::{Decode, DecodeChoice, Decoder};
use oer_spec::Spelled;
use oer_write::{Encode, Encoder};
use std::alloc::Global;
use std::fmt;
use std::fmt::{Debug, Formatter};

/// A type whose alternatives stand in a row, with what the row says of them under the type's own name: what it says to be the
/// content of a `OneOf` that is written.
pub trait Alternating: Drop {
    ghost use Rattle.std.specs.Prelude.{◌≡◌, ◌++◌, [], true, is_some};
    ghost use Rattle.std.specs.Option.{option_map_or};
    ghost use Rattle.oer_choices.specs.Choosing.{are_apart, Choices, AreChoices};
    ghost use Rattle.oer_choices.specs.Putting.{PutsOne};

    /// The values of the row.
    type Values;

    ghost row_choices: { Choices Self.Values };

    ghost row_are_choices: { AreChoices row_choices };

    ghost alternative: { Self → Self.Values };

    /// The tags of the root alternatives, in the order of the row.
    const VARIANTS: &'static [Tag];

    /// The tags of the extension additions, where the row is extensible.
    const EXTENDED_VARIANTS: Option<&'static [Tag]>;

    /// `VARIANTS`: the row's own.
    fn root_tags() -> &'static [Tag]
        ensures { result.now ≡ Self.row_choices.roots };

    /// `EXTENDED_VARIANTS`: the row's own.
    fn addition_tags() -> Option<&'static [Tag]>
        ensures is { is_some result ≡ Self.row_choices.is_extensible }
        ensures tags { option_map_or (λ t. t.now) result [] ≡ Self.row_choices.additions };

    /// The value of that alternative.
    fn from_alternative(value: Self::Values) -> Self
        ensures { alternative result ≡ value };

    /// Writes the alternative of the choice `E` that is there, by `AlternativeViews::write_alternative` of the row: `Ok`
    /// only for an admitted value.
    ///
    /// Refused by what the value is refused by, or for want of memory.
    fn put<E: Choice>(&self, encoder: &mut Encoder<'_>) -> Result<(), EncodeError>
        ensures { PutsOne E.root_tags E.addition_tags (Self.row_choices.tag_of (Self.alternative self.now)) (Self.row_choices.child (Self.alternative self.now)) (Self.row_choices.IsValue (Self.alternative self.now)) encoder.old result encoder.new };

    /// No tag stands twice, and each number is one of u32.
    ghost apart: { are_apart (Self.row_choices.roots ++ Self.row_choices.additions) ≡ true };
}

/// A type that is read by its row.
pub trait TakesAlternative: Alternating {
    ghost use Rattle.asn1_core.specs.declared.error.DecodeError.{DecodeError};
    ghost use Rattle.asn1_core.specs.declared.tag.Tag.{Tag};
    ghost use Rattle.oer_choices.specs.Choosing.{IsOneOf};
    ghost use Rattle.oer_read.specs.State.{State};

    /// Why reading the alternative with that tag is refused (`ReadsAlternatives::Refuses` of the row).
    ghost Refuses: { Tag → State → DecodeError → Type 0 };

    /// Reads what the alternative with that tag holds (X.696, 20): `read_alternative`.
    ///
    /// Refused as `ReadsAlternatives::read` refuses, with the choice `D`.
    fn take<D: Choice>(
        alloc: Global,
        decoder: &mut Decoder<'_>,
        tag: Tag,
    ) -> Result<Self, DecodeError>
        ensures law { Decodes (λ v. Self.row_choices.child (Self.alternative v)) (λ v. IsOneOf Self.row_choices (Self.alternative v) × (Self.row_choices.tag_of (Self.alternative v) ≡ tag)) decoder.old result decoder.new }
        ensures refused { IfErr result (λ e. Self.Refuses tag decoder.old e) };
}

/// Reads what the alternative with that tag holds (X.696, 20), by the row `R` of `T`: what `TakesAlternative::take` calls.
///
/// Refused as `ReadsAlternatives::read` refuses.
pub fn read_alternative<T: Alternating, R: ReadsAlternatives<Values = T::Values>, D: Choice>(
    alloc: Global,
    decoder: &mut Decoder<'_>,
    tag: Tag,
) -> Result<T, DecodeError>
    requires apart { are_apart (R.choices.roots ++ R.choices.additions) ≡ true }
    ensures law { Decodes (λ v. R.choices.child (T.alternative v)) (λ v. IsOneOf R.choices (T.alternative v) × (R.choices.tag_of (T.alternative v) ≡ tag)) decoder.old result decoder.new }
    ensures refused { IfErr result (λ e. R.Refuses tag decoder.old e) }
{
    match R::read::<D>(alloc, decoder, tag) {
        Ok(value) => Ok(T::from_alternative(value)),
        Err(e) => Err(e),
    }
}

/// The CHOICE (X.680, clause 29) of the alternatives of `T`.
#[derive(Clone, PartialEq, Eq, Drop)]
pub struct OneOf<T>(pub T);

/// As the alternative's.
impl<T: Debug> Debug for OneOf<T> {
    fn fmt<W: fmt::Write>(&self, f: &mut Formatter<W>) -> fmt::Result {
        Debug::fmt(&self.0, f)
    }
}

impl<T: Alternating> AsnType for OneOf<T> {
    ghost use Rattle.std.specs.Prelude.{refl};
    ghost use Rattle.asn1_core.specs.declared.tag.TheConstants.Tag.{EOC};
    ghost use Rattle.asn1_core.specs.declared.constraints.TheConstants.Constraints.{NONE};

    ghost TAG = { EOC };

    const TAG: Tag = Tag::EOC;

    ghost CONSTRAINTS = { NONE };

    const CONSTRAINTS: Constraints = Constraints::NONE;

    ghost consistent = { refl };

    const IS_CHOICE: bool = true;
}

impl<T: Alternating> Choice for OneOf<T> {
    ghost use Rattle.std.specs.Prelude.{◌++◌};
    ghost use Rattle.oer_choices.specs.Choosing.{distinct_tags};

    ghost root_tags = { T.row_choices.roots };

    ghost addition_tags = { T.row_choices.additions };

    ghost is_extensible = { T.row_choices.is_extensible };

    const VARIANTS: &'static [Tag] = T::VARIANTS;

    const EXTENDED_VARIANTS: Option<&'static [Tag]> = T::EXTENDED_VARIANTS;

    fn root_tags() -> &'static [Tag] {
        T::root_tags()
    }

    fn addition_tags() -> Option<&'static [Tag]> {
        T::addition_tags()
    }

    ghost distinct = { distinct_tags (T.row_choices.roots ++ T.row_choices.additions) T.apart };
}

impl<T: Alternating> Spelled for OneOf<T> {
    ghost use Rattle.oer_choices.specs.Choosing.{tree_of, IsOneOf, choices_is, choices_alike};

    ghost tree = { λ c v. tree_of T.row_choices (T.alternative v.0) };

    ghost IsValue = { λ v. IsOneOf T.row_choices (T.alternative v.0) };

    ghost is_tree = { λ c k v i. choices_is T.row_choices T.row_are_choices (T.alternative v.0) i };

    ghost alike = { λ c k v w i j. choices_alike T.row_choices T.row_are_choices (T.alternative v.0) (T.alternative w.0) i j };
}

impl<T: Alternating> Encode for OneOf<T> {
    #[inline(always)]
    fn encode_with_tag_and_constraints(
        &self,
        encoder: &mut Encoder<'_>,
        _tag: Tag,
        _constraints: Constraints,
    ) -> Result<(), EncodeError> {
        self.0.put::<OneOf<T>>(encoder)
    }
}

impl<T: TakesAlternative> DecodeChoice for OneOf<T> {
    ghost use Rattle.std.specs.Prelude.{refl, IfErr};
    ghost use Rattle.oer_choices.specs.Choosing.{choices_small};

    ghost tag_of = { λ v. T.row_choices.tag_of (T.alternative v.0) };

    ghost child = { λ v. T.row_choices.child (T.alternative v.0) };

    ghost AnsweredFor = { λ g s r t. IfErr r (λ e. T.Refuses g s e) };

    ghost is_choice = { λ c v. refl };

    ghost small = { λ v i. choices_small T.row_choices T.row_are_choices (T.alternative v.0) i };

    fn from_tag(
        alloc: Global,
        decoder: &mut Decoder<'_>,
        tag: Tag,
    ) -> Result<OneOf<T>, DecodeError> {
        match T::take::<OneOf<T>>(alloc, decoder, tag) {
            Ok(value) => Ok(OneOf(value)),
            Err(e) => Err(e),
        }
    }
}

impl<T: TakesAlternative> Decode for OneOf<T> {
    ghost use Rattle.std.specs.Prelude.{◌≡◌, IfErr};
    ghost use Rattle.oer_choices.specs.Choosing.{IsOneOf};
    ghost use Rattle.oer_read.specs.Choices.{ChoiceAnswers};
    ghost use Rattle.oer_read.specs.Law.{Promised};

    ghost Answered = { λ c s r t. ChoiceAnswers (λ g s r t. Promised (λ v. T.row_choices.child (T.alternative v.0)) (λ v. IsOneOf T.row_choices (T.alternative v.0) × (T.row_choices.tag_of (T.alternative v.0) ≡ g)) (λ s r t. IfErr r (λ e. T.Refuses g s e)) s r t) T.row_choices.roots T.row_choices.additions T.row_choices.is_extensible s r t };

    fn decode_with_tag_and_constraints(
        alloc: Global,
        decoder: &mut Decoder<'_>,
        _tag: Tag,
        constraints: Constraints,
    ) -> Result<OneOf<T>, DecodeError> {
        decoder.decode_choice::<OneOf<T>>(alloc, constraints)
    }
}

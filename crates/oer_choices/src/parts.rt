//! Rows of many alternatives: rows of parts, each an enum of few of them, since types stand at most 64 deep in one another, and the
//! language doesn't cover what reads many by one row.
ghost use Rattle.std.specs.Prelude.{◌≡◌, ◌++◌, IfErr};
ghost use Rattle.asn1_core.specs.Tags.{AreDistinct};
ghost use Rattle.oer_read.specs.Law.{Decodes};

use crate::alternatives::{Alternative, Alternatives, Either, ReadsAlternatives};
use asn1_core::{Choice, DecodeError, EncodeError, Tag};
use oer_read::Decoder;
use oer_rows::{End, Place};
use oer_spec::Spelled;
use oer_write::Encoder;
use std::alloc::Global;
use std::marker::PhantomData;

/// The alternatives of the part `P`, and the row `R` after them.
pub struct Part<P, R>(PhantomData<(P, R)>);

/// A row that can be asked for a tag.
pub trait HoldsTags: Alternatives {
    ghost use Rattle.std.specs.Prelude.{◌≡◌, ◌++◌};
    ghost use Rattle.asn1_core.specs.Tags.{holds};

    /// Whether an alternative of the row has that tag.
    fn holds(tag: Tag) -> bool
        ensures { result ≡ holds (Self.choices.roots ++ Self.choices.additions) tag };
}

impl HoldsTags for End {
    #[inline(always)]
    fn holds(_tag: Tag) -> bool {
        false
    }
}

impl<G: Place, B: Spelled, R: HoldsTags> HoldsTags for Alternative<G, B, R> {
    #[inline(always)]
    fn holds(tag: Tag) -> bool {
        G::tag() == tag || R::holds(tag)
    }
}

/// Some alternatives of a choice: an enum that has a row of its own.
pub trait ChoicePart: Drop {
    ghost use Rattle.std.specs.Prelude.{◌≡◌};
    ghost use Rattle.oer_choices.specs.Choosing.{Choices, AreChoices};

    /// The values of the row.
    type Values;

    ghost row_choices: { Choices Self.Values };

    ghost row_are_choices: { AreChoices row_choices };

    ghost alternative: { Self → Self.Values };

    /// The value of that alternative.
    fn from_alternative(value: Self::Values) -> Self
        ensures { alternative result ≡ value };
}

/// A part that is read by its row.
pub trait ReadsPart: ChoicePart {
    ghost use Rattle.std.specs.Prelude.{◌≡◌, ◌++◌};
    ghost use Rattle.asn1_core.specs.Tags.{holds};
    ghost use Rattle.asn1_core.specs.declared.error.DecodeError.{DecodeError};
    ghost use Rattle.asn1_core.specs.declared.tag.Tag.{Tag};
    ghost use Rattle.oer_read.specs.State.{State};

    /// Why reading the alternative with that tag is refused (`ReadsAlternatives::Refuses` of the row).
    ghost Refuses: { Tag → State → DecodeError → Type 0 };

    /// Whether one of these alternatives has that tag: `HoldsTags::holds` of the row.
    fn has(tag: Tag) -> bool
        ensures { result ≡ holds (Self.row_choices.roots ++ Self.row_choices.additions) tag };

    /// Reads what the alternative with that tag holds (X.696, 20): `read_part`.
    ///
    /// Refused as `ReadsAlternatives::read` refuses, with the choice `D`.
    fn take<D: Choice>(
        alloc: Global,
        decoder: &mut Decoder<'_>,
        tag: Tag,
    ) -> Result<Self, DecodeError>
        requires distinct { AreDistinct (Self.row_choices.roots ++ Self.row_choices.additions) }
        ensures law { Decodes (λ v. Self.row_choices.child (Self.alternative v)) (λ v. Self.row_choices.IsValue (Self.alternative v) × (Self.row_choices.tag_of (Self.alternative v) ≡ tag)) decoder.old result decoder.new }
        ensures refused { IfErr result (λ e. Self.Refuses tag decoder.old e) };
}

/// A part that is written where it stands: one that a choice of very many alternatives holds.
pub trait PutsPart: ChoicePart {
    ghost use Rattle.oer_choices.specs.Putting.{PutsOne};

    /// Writes the alternative of the choice `E` that is there, as `Alternating::put` (X.696, 20): `Ok` only for an admitted value.
    ///
    /// Refused by what the value is refused by, or for want of memory.
    fn put<E: Choice>(&self, encoder: &mut Encoder<'_>) -> Result<(), EncodeError>
        ensures { PutsOne E.root_tags E.addition_tags (Self.row_choices.tag_of (Self.alternative self.now)) (Self.row_choices.child (Self.alternative self.now)) (Self.row_choices.IsValue (Self.alternative self.now)) encoder.old result encoder.new };
}

/// Reads what the alternative with that tag holds (X.696, 20), by the row `R` of `P`: what `ReadsPart::take` calls.
///
/// Refused as `ReadsAlternatives::read` refuses.
pub fn read_part<P: ChoicePart, R: ReadsAlternatives<Values = P::Values>, D: Choice>(
    alloc: Global,
    decoder: &mut Decoder<'_>,
    tag: Tag,
) -> Result<P, DecodeError>
    requires distinct { AreDistinct (R.choices.roots ++ R.choices.additions) }
    ensures law { Decodes (λ v. R.choices.child (P.alternative v)) (λ v. R.choices.IsValue (P.alternative v) × (R.choices.tag_of (P.alternative v) ≡ tag)) decoder.old result decoder.new }
    ensures refused { IfErr result (λ e. R.Refuses tag decoder.old e) }
{
    match R::read::<D>(alloc, decoder, tag) {
        Ok(value) => Ok(P::from_alternative(value)),
        Err(e) => Err(e),
    }
}

impl<P: ChoicePart, R: Alternatives> Alternatives for Part<P, R> {
    ghost use Rattle.oer_choices.specs.Choosing.{through, through_is};
    ghost use Rattle.oer_choices.specs.Both.{both_of, both_of_is};

    type Values = Either<P, R::Values>;

    ghost choices = { both_of (through P.alternative P.row_choices) R.choices };

    ghost are_choices = { both_of_is (through P.alternative P.row_choices) R.choices (through_is P.alternative P.row_choices P.row_are_choices) R.are_choices };
}

impl<P: ReadsPart, R: ReadsAlternatives> ReadsAlternatives for Part<P, R> {
    ghost use Rattle.std.specs.Prelude.{◌++◌};
    ghost use Rattle.oer_choices.specs.Refusals.{PartRefused};

    ghost Refuses = { λ g s e. PartRefused (P.row_choices.roots ++ P.row_choices.additions) P.Refuses R.Refuses g s e };

    fn read<D: Choice>(
        alloc: Global,
        decoder: &mut Decoder<'_>,
        tag: Tag,
    ) -> Result<Self::Values, DecodeError> {
        if P::has(tag) {
            match P::take::<D>(alloc, decoder, tag) {
                Ok(value) => Ok(Either::First(value)),
                Err(e) => Err(e),
            }
        } else {
            match R::read::<D>(alloc, decoder, tag) {
                Ok(value) => Ok(Either::Rest(value)),
                Err(e) => Err(e),
            }
        }
    }
}

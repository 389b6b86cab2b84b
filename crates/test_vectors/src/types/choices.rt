//! Choices of a boolean and of another type.
ghost use Rattle.std.specs.Prelude.{refl};
ghost use Rattle.rasn_oer.specs.Alternative.{First, Rest};

use oer_types::{BoolChoice, Pair};
use rasn_oer::prelude::*;
use std::alloc::Global;

/// `CHOICE { a BOOLEAN, b Pair }`
pub type PairChoice = OneOf<PairAlternatives>;

/// The alternatives of a `PairChoice`.
#[derive(Debug, PartialEq, Eq, Drop)]
pub enum PairAlternatives {
    A(bool),
    B(Pair),
}

type PairRow = Alternative<Context<0>, bool, Alternative<Context<1>, Pair, End>>;

impl Alternating for PairAlternatives {
    ghost use Rattle.test_vectors.specs.declared.types.choices.PairAlternatives.TheVariants.{A, B};

    type Values = <PairRow as Alternatives>::Values;

    ghost row_choices = { ⟦<PairRow as Alternatives>⟧.choices };

    ghost row_are_choices = { ⟦<PairRow as Alternatives>⟧.are_choices };

    ghost alternative = { elim [ A a ↦ First a | B b ↦ Rest (First b) ] };

    const VARIANTS: &'static [Tag] = ROOTS;

    const EXTENDED_VARIANTS: Option<&'static [Tag]> = None;

    fn root_tags() -> &'static [Tag] {
        Self::VARIANTS
    }

    fn addition_tags() -> Option<&'static [Tag]> {
        Self::EXTENDED_VARIANTS
    }

    fn from_alternative(value: <PairRow as Alternatives>::Values) -> PairAlternatives {
        from_row!(value => PairAlternatives: A, B)
    }

    #[inline(always)]
    fn put<E: Choice>(&self, encoder: &mut Encoder<'_>) -> Result<(), EncodeError> {
        let view = to_row!(self => PairAlternatives: A, B);
        PairRow::write_alternative::<E>(&view, encoder)
    }

    ghost apart = { refl };
}

impl TakesAlternative for PairAlternatives {
    ghost Refuses = { ⟦<PairRow as ReadsAlternatives>⟧.Refuses };

    fn take<D: Choice>(
        alloc: Global,
        decoder: &mut Decoder<'_>,
        tag: Tag,
    ) -> Result<Self, DecodeError> {
        read_alternative::<Self, PairRow, D>(alloc, decoder, tag)
    }
}

/// `CHOICE { a BOOLEAN, b BoolChoice, ... }`
pub type NestedChoice = OneOf<NestedAlternatives>;

/// The alternatives of a `NestedChoice`.
#[derive(Debug, PartialEq, Eq, Drop)]
pub enum NestedAlternatives {
    A(bool),
    B(BoolChoice),
}

type NestedRow = Alternative<
    Context<0>,
    bool,
    Alternative<Context<1>, BoolChoice, Extensible<End>>,
>;

/// The tags of both choices.
const ROOTS: &'static [Tag] = tags![Context 0, Context 1];

impl Alternating for NestedAlternatives {
    ghost use Rattle.test_vectors.specs.declared.types.choices.NestedAlternatives.TheVariants.{A, B};

    type Values = <NestedRow as Alternatives>::Values;

    ghost row_choices = { ⟦<NestedRow as Alternatives>⟧.choices };

    ghost row_are_choices = { ⟦<NestedRow as Alternatives>⟧.are_choices };

    ghost alternative = { elim [ A a ↦ First a | B b ↦ Rest (First b) ] };

    const VARIANTS: &'static [Tag] = ROOTS;

    const EXTENDED_VARIANTS: Option<&'static [Tag]> = Some(&[]);

    fn root_tags() -> &'static [Tag] {
        Self::VARIANTS
    }

    fn addition_tags() -> Option<&'static [Tag]> {
        Self::EXTENDED_VARIANTS
    }

    fn from_alternative(value: <NestedRow as Alternatives>::Values) -> NestedAlternatives {
        from_row!(value => NestedAlternatives: A, B)
    }

    #[inline(always)]
    fn put<E: Choice>(&self, encoder: &mut Encoder<'_>) -> Result<(), EncodeError> {
        let view = to_row!(self => NestedAlternatives: A, B);
        NestedRow::write_alternative::<E>(&view, encoder)
    }

    ghost apart = { refl };
}

impl TakesAlternative for NestedAlternatives {
    ghost Refuses = { ⟦<NestedRow as ReadsAlternatives>⟧.Refuses };

    fn take<D: Choice>(
        alloc: Global,
        decoder: &mut Decoder<'_>,
        tag: Tag,
    ) -> Result<Self, DecodeError> {
        read_alternative::<Self, NestedRow, D>(alloc, decoder, tag)
    }
}

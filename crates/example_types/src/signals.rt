//! A choice by the row of its alternatives.
ghost use Rattle.std.specs.Prelude.{refl};
ghost use Rattle.rasn_oer.specs.Alternative.{First, Rest};

use rasn_oer::prelude::*;
use std::alloc::Global;

/// `CHOICE { busy BOOLEAN, level INTEGER, ..., count INTEGER (0..65535) }`
pub type Signal = OneOf<SignalAlternatives>;

/// The alternatives of a `Signal`.
#[derive(Debug, PartialEq, Eq, Drop)]
pub enum SignalAlternatives {
    Busy(bool),
    Level(Integer),
    Count(u16),
}

type SignalRow = Alternative<Context<0>, bool, Alternative<Context<1>, Integer, SignalAdditions>>;

type SignalAdditions = Extensible<Alternative<Context<2>, u16, End>>;

const SIGNAL_ROOTS: &'static [Tag] = tags![Context 0, Context 1];

const SIGNAL_ADDITIONS: &'static [Tag] = tags![Context 2];

impl Alternating for SignalAlternatives {
    ghost use Rattle.example_types.specs.declared.signals.SignalAlternatives.TheVariants.{Busy, Level, Count};

    type Values = <SignalRow as Alternatives>::Values;

    ghost row_choices = { ⟦<SignalRow as Alternatives>⟧.choices };

    ghost row_are_choices = { ⟦<SignalRow as Alternatives>⟧.are_choices };

    ghost alternative = { elim [ Busy b ↦ First b | Level n ↦ Rest (First n) | Count n ↦ Rest (Rest (First n)) ] };

    const VARIANTS: &'static [Tag] = SIGNAL_ROOTS;

    const EXTENDED_VARIANTS: Option<&'static [Tag]> = Some(SIGNAL_ADDITIONS);

    fn root_tags() -> &'static [Tag] {
        Self::VARIANTS
    }

    fn addition_tags() -> Option<&'static [Tag]> {
        Self::EXTENDED_VARIANTS
    }

    fn from_alternative(value: <SignalRow as Alternatives>::Values) -> SignalAlternatives {
        from_row!(value => SignalAlternatives: Busy, Level, Count)
    }

    #[inline(always)]
    fn put<E: Choice>(&self, encoder: &mut Encoder<'_>) -> Result<(), EncodeError> {
        let view = to_row!(self => SignalAlternatives: Busy, Level, Count);
        SignalRow::write_alternative::<E>(&view, encoder)
    }

    ghost apart = { refl };
}

impl TakesAlternative for SignalAlternatives {
    ghost Refuses = { ⟦<SignalRow as ReadsAlternatives>⟧.Refuses };

    fn take<D: Choice>(
        alloc: Global,
        decoder: &mut Decoder<'_>,
        tag: Tag,
    ) -> Result<Self, DecodeError> {
        read_alternative::<Self, SignalRow, D>(alloc, decoder, tag)
    }
}

//! Choices that hold a value of another type, in two versions, of which the newer has a further alternative.

use crate::versions::pairs::{OnPair, with_pair};
use rasn_oer::Decode;
use rasn_oer::prelude::*;
use std::alloc::Global;

/// `CHOICE { inner [0] T, ... }`
pub type Choice1<T> = OneOf<Choice1Alternatives<T>>;

/// The alternative of a `Choice1`.
#[derive(Drop)]
pub enum Choice1Alternatives<T> {
    Inner(T),
}

/// `CHOICE { inner [0] T, ..., added [1] T }`: a newer version of `Choice1`
pub type Choice2<T> = OneOf<Choice2Alternatives<T>>;

/// The alternatives of a `Choice2`.
#[derive(Drop)]
pub enum Choice2Alternatives<T> {
    Inner(T),
    Added(T),
}

type Choice1Row<T> = Alternative<Context<0>, T, Extensible<End>>;

type Choice2Row<T> = Alternative<Context<0>, T, Extensible<Alternative<Context<1>, T, End>>>;

const INNER: &'static [Tag] = tags![Context 0];

const NONE_ADDED: &'static [Tag] = &[];

const ADDED: &'static [Tag] = tags![Context 1];

impl<T: Decode + Encode> Alternating for Choice1Alternatives<T> {
    ghost use Rattle.std.specs.Prelude.{refl};
    ghost use Rattle.oer_choices.specs.declared.alternatives.Either.TheVariants.{First};
    ghost use Rattle.test_types.specs.declared.versions.choices.Choice1Alternatives.TheVariants.{Inner};

    type Values = <Choice1Row<T> as Alternatives>::Values;

    ghost row_choices = { ⟦<Choice1Row<T> as Alternatives>⟧.choices };

    ghost row_are_choices = { ⟦<Choice1Row<T> as Alternatives>⟧.are_choices };

    ghost alternative = { elim [ Inner v ↦ First v ] };

    const VARIANTS: &'static [Tag] = INNER;

    const EXTENDED_VARIANTS: Option<&'static [Tag]> = Some(NONE_ADDED);

    fn root_tags() -> &'static [Tag] {
        INNER
    }

    fn addition_tags() -> Option<&'static [Tag]> {
        Some(NONE_ADDED)
    }

    fn from_alternative(value: <Choice1Row<T> as Alternatives>::Values) -> Choice1Alternatives<T> {
        from_row!(value => Choice1Alternatives: Inner)
    }

    #[inline(always)]
    fn put<E: Choice>(&self, encoder: &mut Encoder<'_>) -> Result<(), EncodeError> {
        let view = to_row!(self => Choice1Alternatives: Inner);
        <Choice1Row<T>>::write_alternative::<E>(&view, encoder)
    }

    ghost apart = { refl };
}

impl<T: Decode + Encode> TakesAlternative for Choice1Alternatives<T> {
    ghost Refuses = { ⟦<Choice1Row<T> as ReadsAlternatives>⟧.Refuses };

    fn take<D: Choice>(
        alloc: Global,
        decoder: &mut Decoder<'_>,
        tag: Tag,
    ) -> Result<Self, DecodeError> {
        read_alternative::<Self, Choice1Row<T>, D>(alloc, decoder, tag)
    }
}

impl<T: Decode + Encode> Alternating for Choice2Alternatives<T> {
    ghost use Rattle.std.specs.Prelude.{refl};
    ghost use Rattle.oer_choices.specs.declared.alternatives.Either.TheVariants.{First, Rest};
    ghost use Rattle.test_types.specs.declared.versions.choices.Choice2Alternatives.TheVariants.{Inner, Added};

    type Values = <Choice2Row<T> as Alternatives>::Values;

    ghost row_choices = { ⟦<Choice2Row<T> as Alternatives>⟧.choices };

    ghost row_are_choices = { ⟦<Choice2Row<T> as Alternatives>⟧.are_choices };

    ghost alternative = { elim [ Inner v ↦ First v | Added v ↦ Rest (First v) ] };

    const VARIANTS: &'static [Tag] = INNER;

    const EXTENDED_VARIANTS: Option<&'static [Tag]> = Some(ADDED);

    fn root_tags() -> &'static [Tag] {
        INNER
    }

    fn addition_tags() -> Option<&'static [Tag]> {
        Some(ADDED)
    }

    fn from_alternative(value: <Choice2Row<T> as Alternatives>::Values) -> Choice2Alternatives<T> {
        from_row!(value => Choice2Alternatives: Inner, Added)
    }

    #[inline(always)]
    fn put<E: Choice>(&self, encoder: &mut Encoder<'_>) -> Result<(), EncodeError> {
        let view = to_row!(self => Choice2Alternatives: Inner, Added);
        <Choice2Row<T>>::write_alternative::<E>(&view, encoder)
    }

    ghost apart = { refl };
}

impl<T: Decode + Encode> TakesAlternative for Choice2Alternatives<T> {
    ghost Refuses = { ⟦<Choice2Row<T> as ReadsAlternatives>⟧.Refuses };

    fn take<D: Choice>(
        alloc: Global,
        decoder: &mut Decoder<'_>,
        tag: Tag,
    ) -> Result<Self, DecodeError> {
        read_alternative::<Self, Choice2Row<T>, D>(alloc, decoder, tag)
    }
}

/// The work on two versions, within one version of a choice.
#[derive(Drop)]
struct InOne<W>(W);

impl<W: OnPair> OnPair for InOne<W> {
    type Output = W::Output;

    fn on<New: Decode + Encode, Old: Decode + Encode>(self) -> W::Output {
        // by a box, whose size is known
        self.0.on::<Choice2<Box<New>>, Choice2<Box<Old>>>()
    }
}

/// The work on two versions, within two versions of a choice.
#[derive(Drop)]
struct InTwo<W>(W);

impl<W: OnPair> OnPair for InTwo<W> {
    type Output = W::Output;

    fn on<New: Decode + Encode, Old: Decode + Encode>(self) -> W::Output {
        self.0.on::<Choice2<Box<New>>, Choice1<Box<Old>>>()
    }
}

/// Does it with the versions that the words name, within those of a choice that stand in front of them: `seq2/seq1`,
/// `choice2/choice1:seq2/seq1`. None where they name none.
pub fn with_versions<W: OnPair + Drop>(words: &str, work: W) -> Option<W::Output> {
    match words.split_once(':') {
        None => with_pair(words, work),
        Some((choices, pair)) => match choices {
            "choice2/choice2" => with_pair(pair, InOne(work)),
            "choice2/choice1" => with_pair(pair, InTwo(work)),
            _ => None,
        },
    }
}

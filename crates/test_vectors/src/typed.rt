//! Types of rasn's tests by their words, and the constraints behind a word.

use crate::types::{
    BoxedPair, Chosen, Colors, Explicit, MoreColors, NestedChoice, Optional1, Optional2, Optional3,
    Untagged,
};
use crate::values::{Seen, Shown};
use anyhow::{Error, Result};
use asn1_core::{Bounded, Constraints, DecodeErrorKind};
use oer_types::Holding;
use oertool_words::constrained::{UnderConstraints, with_word};
use std::str::FromStr;

/// What is shown of octets.
type Answer = Result<std::result::Result<Seen, DecodeErrorKind>>;

/// `SEQUENCE { inner BOOLEAN }`
type Single = Holding<bool>;

fn number<N: FromStr + Drop>(text: &str) -> Option<N>
where
    N::Err: Drop,
{
    match text.parse::<N>() {
        Ok(number) => Some(number),
        Err(_) => None,
    }
}

/// The bounds of a text like `3..6`, or of one number.
fn bounds<N: FromStr + Drop>(text: &str) -> Option<Bounded<N>>
where
    N::Err: Drop,
{
    match text.split_once("..") {
        Some((start, end)) => Some(Bounded::Range {
            start: Some(number(start)?),
            end: Some(number(end)?),
        }),
        None => Some(Bounded::Single(number(text)?)),
    }
}

/// The constraints of a text like `3..6)` or `SIZE(3..6))`: what stands behind a word's `(`.
fn constraints(text: &str) -> Option<Constraints> {
    match text.strip_prefix("SIZE(") {
        Some(sizes) => Some(Constraints::NONE.with_size(bounds(sizes.strip_suffix("))")?)?)),
        None => Some(Constraints::NONE.with_value(bounds(text.strip_suffix(")")?)?)),
    }
}

/// By the word of a choice or of an enumerated type; else of a type of the repository.
fn with_choice(word: &str, shown: Shown<'_>) -> Option<Answer> {
    match word {
        "NestedChoice" => Some(shown.under::<NestedChoice>(Constraints::NONE)),
        "Colors" => Some(shown.under::<Colors>(Constraints::NONE)),
        "MoreColors" => Some(shown.under::<MoreColors>(Constraints::NONE)),
        _ => with_word(word, shown),
    }
}

/// By the word of a sequence of components without parts.
fn with_sequence(word: &str, shown: Shown<'_>) -> Option<Answer> {
    match word {
        "Single" => Some(shown.under::<Single>(Constraints::NONE)),
        "Untagged" => Some(shown.under::<Untagged>(Constraints::NONE)),
        "Explicit" => Some(shown.under::<Explicit>(Constraints::NONE)),
        _ => with_choice(word, shown),
    }
}

/// By the word of a type of rasn's tests that has none of the repository's, or else of one of the repository.
pub fn with_typed(word: &str, shown: Shown<'_>) -> Option<Answer> {
    match word {
        "Optional1" => Some(shown.under::<Optional1>(Constraints::NONE)),
        "Optional2" => Some(shown.under::<Optional2>(Constraints::NONE)),
        "Optional3" => Some(shown.under::<Optional3>(Constraints::NONE)),
        "BoxedPair" => Some(shown.under::<BoxedPair>(Constraints::NONE)),
        "Chosen" => Some(shown.under::<Chosen>(Constraints::NONE)),
        _ => with_sequence(word, shown),
    }
}

/// The word of a text like `int(0..255)`: what stands before the `(`.
pub fn word_of(typed: &str) -> &str {
    match typed.split_once("(") {
        Some((word, _text)) => word,
        None => typed,
    }
}

/// The constraints behind the word, if there are any.
pub fn constraints_of(typed: &str) -> Result<Option<Constraints>> {
    match typed.split_once("(") {
        Some((_word, text)) => match constraints(text) {
            Some(constraints) => Ok(Some(constraints)),
            None => Err(Error::msg("no such constraints")),
        },
        None => Ok(None),
    }
}

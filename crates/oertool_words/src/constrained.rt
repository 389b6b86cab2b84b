//! Types by a word, under constraints: those without a word of the program, and behind them those with one.
use crate::known::{OnType, with_type};
use asn1_core::{AsnType, Bounded, Constraints, SetOf};
use asn1_ints::Integer;
use asn1_strings::{
    Any, BitString, BmpString, GeneralString, GraphicString, Ia5String, NamedBits, NumericString,
    OctetString, PrintableString, TeletexString, UniversalString, VisibleString,
};
use oer_types::{
    AddDef, AllDefault, AllOptional, BoolChoice, Bush, Chain, ConstrainedOptions, Enum3, HashedId3,
    Link, MixedSet, Negative, Nested, Node, Pair, Positive,
};
use oer_write::Encode;
use rasn_oer::Decode;
use std::fmt::Debug;

/// What is done with a type under constraints.
pub trait UnderConstraints {
    type Output;

    fn under<T: Decode + Encode + Debug + PartialEq>(
        self,
        constraints: Constraints,
    ) -> Self::Output;
}

/// The same under the type's own constraints.
#[derive(Drop)]
struct Own<W> {
    work: W,
}

impl<W: UnderConstraints> OnType for Own<W> {
    type Output = W::Output;

    fn on<T: Decode + Encode + Debug + PartialEq>(self) -> W::Output {
        self.work.under::<T>(T::CONSTRAINTS)
    }
}

pub fn values(start: i128, end: i128) -> Constraints {
    Constraints::NONE.with_value(Bounded::Range {
        start: Some(start),
        end: Some(end),
    })
}

pub fn sizes(start: usize, end: usize) -> Constraints {
    Constraints::NONE.with_size(Bounded::Range {
        start: Some(start),
        end: Some(end),
    })
}

/// The values 1 to 8, and further ones.
pub fn extensible() -> Constraints {
    Constraints::NONE.with_extensible_value(Bounded::Range {
        start: Some(1),
        end: Some(8),
    })
}

/// By the word of an integer type and its range.
fn with_number<W: UnderConstraints + Drop>(word: &str, work: W) -> Option<W::Output> {
    match word {
        "0..255" => Some(work.under::<Integer>(values(0, 255))),
        "0..65535" => Some(work.under::<Integer>(values(0, 65535))),
        "2..65535" => Some(work.under::<Integer>(values(2, 65535))),
        "-5..5" => Some(work.under::<Integer>(values(-5, 5))),
        "-129..0" => Some(work.under::<Integer>(values(-129, 0))),
        _ => with_further_number(word, work),
    }
}

/// Further ranges of an integer.
fn with_further_number<W: UnderConstraints + Drop>(word: &str, work: W) -> Option<W::Output> {
    match word {
        "5..5" => Some(work.under::<Integer>(Constraints::NONE.with_value(Bounded::Single(5)))),
        "0..i128max" => Some(work.under::<Integer>(values(0, i128::MAX))),
        "i16range" => Some(work.under::<Integer>(values(-32768, 32767))),
        "ext1..8" => Some(work.under::<Integer>(extensible())),
        _ => with_rust_number(word, work),
    }
}

/// Numbers of Rust.
fn with_rust_number<W: UnderConstraints + Drop>(word: &str, work: W) -> Option<W::Output> {
    match word {
        "i8in0..255" => Some(work.under::<i8>(values(0, 255))),
        "u8inext1..8" => Some(work.under::<u8>(extensible())),
        "i16inext1..8" => Some(work.under::<i16>(extensible())),
        "u128" => Some(work.under::<u128>(u128::CONSTRAINTS)),
        _ => with_wrapped_number(word, work),
    }
}

/// Structs around a number, and an enumerated value.
fn with_wrapped_number<W: UnderConstraints + Drop>(word: &str, work: W) -> Option<W::Output> {
    match word {
        "Positive" => Some(work.under::<Positive>(Positive::CONSTRAINTS)),
        "Negative<Integer>" => {
            Some(work.under::<Negative<Integer>>(<Negative<Integer>>::CONSTRAINTS))
        }
        "Negative<Positive>" => {
            Some(work.under::<Negative<Positive>>(<Negative<Positive>>::CONSTRAINTS))
        }
        "Enum3" => Some(work.under::<Enum3>(Constraints::NONE)),
        _ => with_scope(word, work),
    }
}

/// By the word of a sequence, a choice or a list, or of nothing or a box.
fn with_scope<W: UnderConstraints + Drop>(word: &str, work: W) -> Option<W::Output> {
    match word {
        "null" => Some(work.under::<()>(Constraints::NONE)),
        "Boxed" => Some(work.under::<Box<bool>>(Constraints::NONE)),
        "Pair" => Some(work.under::<Pair>(Constraints::NONE)),
        "Nested" => Some(work.under::<Nested>(Constraints::NONE)),
        _ => with_options(word, work),
    }
}

fn with_options<W: UnderConstraints + Drop>(word: &str, work: W) -> Option<W::Output> {
    match word {
        "AllOptional" => Some(work.under::<AllOptional>(Constraints::NONE)),
        "AllDefault" => Some(work.under::<AllDefault>(Constraints::NONE)),
        "ConstrainedOptions" => Some(work.under::<ConstrainedOptions>(Constraints::NONE)),
        "AddDef" => Some(work.under::<AddDef>(Constraints::NONE)),
        _ => with_other_scope(word, work),
    }
}

fn with_other_scope<W: UnderConstraints + Drop>(word: &str, work: W) -> Option<W::Output> {
    match word {
        "BoolChoice" => Some(work.under::<BoolChoice>(Constraints::NONE)),
        "MixedSet" => Some(work.under::<MixedSet>(Constraints::NONE)),
        "SetOfOctets" => Some(work.under::<SetOf<OctetString>>(Constraints::NONE)),
        _ => with_recursive(word, work),
    }
}

/// By the word of a type that contains itself.
fn with_recursive<W: UnderConstraints + Drop>(word: &str, work: W) -> Option<W::Output> {
    match word {
        "Bush" => Some(work.under::<Bush>(Constraints::NONE)),
        "Link" => Some(work.under::<Link>(Constraints::NONE)),
        "Node" => Some(work.under::<Node>(Constraints::NONE)),
        "Chain" => Some(work.under::<Chain>(Constraints::NONE)),
        _ => with_type(word, Own { work }),
    }
}

/// By the word of a type and its constraints; the type's own where the word names none.
pub fn with_word<W: UnderConstraints + Drop>(word: &str, work: W) -> Option<W::Output> {
    match word {
        "octets3..6" => Some(work.under::<OctetString>(sizes(3, 6))),
        "bits3..6" => Some(work.under::<BitString>(sizes(3, 6))),
        "bits14" => Some(work.under::<BitString>(sizes(14, 14))),
        "named" => Some(work.under::<NamedBits>(Constraints::NONE)),
        "named4..8" => Some(work.under::<NamedBits>(sizes(4, 8))),
        "utf8of3" => Some(work.under::<String>(sizes(3, 3))),
        "bmpof2" => Some(work.under::<BmpString>(sizes(2, 2))),
        "universalof2" => Some(work.under::<UniversalString>(sizes(2, 2))),
        _ => with_text(word, work),
    }
}

/// Character strings.
fn with_text<W: UnderConstraints + Drop>(word: &str, work: W) -> Option<W::Output> {
    match word {
        "bmp" => Some(work.under::<BmpString>(Constraints::NONE)),
        "universal" => Some(work.under::<UniversalString>(Constraints::NONE)),
        "numeric" => Some(work.under::<NumericString>(Constraints::NONE)),
        "printable" => Some(work.under::<PrintableString>(Constraints::NONE)),
        "visible" => Some(work.under::<VisibleString>(Constraints::NONE)),
        "ia5" => Some(work.under::<Ia5String>(Constraints::NONE)),
        _ => with_wide_text(word, work),
    }
}

/// Strings of any octets.
fn with_wide_text<W: UnderConstraints + Drop>(word: &str, work: W) -> Option<W::Output> {
    match word {
        "general" => Some(work.under::<GeneralString>(Constraints::NONE)),
        "graphic" => Some(work.under::<GraphicString>(Constraints::NONE)),
        "teletex" => Some(work.under::<TeletexString>(Constraints::NONE)),
        "any" => Some(work.under::<Any>(Constraints::NONE)),
        "HashedId3" => Some(work.under::<HashedId3>(HashedId3::CONSTRAINTS)),
        _ => with_number(word, work),
    }
}

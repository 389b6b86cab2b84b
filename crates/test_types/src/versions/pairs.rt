//! Two versions of a type by their words.
//!
//! A function names one type: what the check looks at in one grows with the square of how many it names. So the newer version is
//! chosen first, and the older one by functions over any newer type.

use asn1_core::SetOf;
use asn1_ints::Integer;
use oer_types::{
    DeepDefault, ExtendedOptional, Foo, Holder1, Holder2, MixedSet, MixedSet2, Outer,
    PriorityChoice, Sequence1, Sequence2, Sequence3, Sequence5, Sequence7,
    SequenceDuplicatesExtended, TopLevel,
};
use oer_write::Encode;
use rasn_oer::Decode;

/// What is done with two versions of a type.
pub trait OnPair {
    type Output;

    fn on<New: Decode + Encode, Old: Decode + Encode>(self) -> Self::Output;
}

/// The words of two versions.
#[derive(Clone, Copy)]
struct Versions<'a> {
    newer: &'a str,
    older: &'a str,
}

/// Does it with the newer type and the first version of the sequence.
fn to_sequence1<New: Decode + Encode, W: OnPair + Drop>(older: &str, work: W) -> Option<W::Output> {
    match older {
        "seq1" => Some(work.on::<New, Sequence1>()),
        _ => None,
    }
}

fn to_sequence5<New: Decode + Encode, W: OnPair + Drop>(older: &str, work: W) -> Option<W::Output> {
    match older {
        "seq5" => Some(work.on::<New, Sequence5>()),
        _ => to_sequence1::<New, W>(older, work),
    }
}

fn to_sequence2<New: Decode + Encode, W: OnPair + Drop>(older: &str, work: W) -> Option<W::Output> {
    match older {
        "seq2" => Some(work.on::<New, Sequence2>()),
        _ => to_sequence5::<New, W>(older, work),
    }
}

/// Does it with the newer type and any version of the sequence.
fn to_sequence7<New: Decode + Encode, W: OnPair + Drop>(older: &str, work: W) -> Option<W::Output> {
    match older {
        "seq7" => Some(work.on::<New, Sequence7>()),
        _ => to_sequence2::<New, W>(older, work),
    }
}

fn to_outer<New: Decode + Encode, W: OnPair + Drop>(older: &str, work: W) -> Option<W::Output> {
    match older {
        "outer" => Some(work.on::<New, Outer>()),
        _ => to_sequence1::<New, W>(older, work),
    }
}

/// The same of a list of such sequences.
fn to_bag1<New: Decode + Encode, W: OnPair + Drop>(older: &str, work: W) -> Option<W::Output> {
    match older {
        "bag1" => Some(work.on::<New, SetOf<Sequence1>>()),
        _ => None,
    }
}

fn to_bag2<New: Decode + Encode, W: OnPair + Drop>(older: &str, work: W) -> Option<W::Output> {
    match older {
        "bag2" => Some(work.on::<New, SetOf<Sequence2>>()),
        _ => to_bag1::<New, W>(older, work),
    }
}

fn to_bag3<New: Decode + Encode, W: OnPair + Drop>(older: &str, work: W) -> Option<W::Output> {
    match older {
        "bag3" => Some(work.on::<New, SetOf<Sequence7>>()),
        _ => to_bag2::<New, W>(older, work),
    }
}

/// Of a sequence with such a default.
fn to_holder1<New: Decode + Encode, W: OnPair + Drop>(older: &str, work: W) -> Option<W::Output> {
    match older {
        "holder1" => Some(work.on::<New, Holder1>()),
        _ => None,
    }
}

fn to_holder2<New: Decode + Encode, W: OnPair + Drop>(older: &str, work: W) -> Option<W::Output> {
    match older {
        "holder2" => Some(work.on::<New, Holder2>()),
        _ => to_holder1::<New, W>(older, work),
    }
}

/// Of a set.
fn to_mixed_set<New: Decode + Encode, W: OnPair + Drop>(older: &str, work: W) -> Option<W::Output> {
    match older {
        "mixset" => Some(work.on::<New, MixedSet>()),
        _ => None,
    }
}

fn to_mixed_set2<New: Decode + Encode, W: OnPair + Drop>(
    older: &str,
    work: W,
) -> Option<W::Output> {
    match older {
        "mixset2" => Some(work.on::<New, MixedSet2>()),
        _ => to_mixed_set::<New, W>(older, work),
    }
}

/// Of a type of one version as both.
fn to_itself<T: Decode + Encode, W: OnPair + Drop>(
    words: Versions<'_>,
    work: W,
) -> Option<W::Output> {
    if words.older == words.newer {
        Some(work.on::<T, T>())
    } else {
        None
    }
}

/// By the words of two versions of a sequence; none where they name none.
fn from_sequence1<W: OnPair + Drop>(words: Versions<'_>, work: W) -> Option<W::Output> {
    match words.newer {
        "seq1" => to_sequence1::<Sequence1, W>(words.older, work),
        _ => from_sequence5(words, work),
    }
}

fn from_sequence5<W: OnPair + Drop>(words: Versions<'_>, work: W) -> Option<W::Output> {
    match words.newer {
        "seq5" => to_sequence5::<Sequence5, W>(words.older, work),
        _ => from_sequence2(words, work),
    }
}

fn from_sequence2<W: OnPair + Drop>(words: Versions<'_>, work: W) -> Option<W::Output> {
    match words.newer {
        "seq2" => to_sequence2::<Sequence2, W>(words.older, work),
        _ => from_sequence7(words, work),
    }
}

fn from_sequence7<W: OnPair + Drop>(words: Versions<'_>, work: W) -> Option<W::Output> {
    match words.newer {
        "seq7" => to_sequence7::<Sequence7, W>(words.older, work),
        _ => from_sequence3(words, work),
    }
}

fn from_sequence3<W: OnPair + Drop>(words: Versions<'_>, work: W) -> Option<W::Output> {
    match words.newer {
        "seq3" => to_sequence1::<Sequence3, W>(words.older, work),
        _ => from_outer(words, work),
    }
}

fn from_outer<W: OnPair + Drop>(words: Versions<'_>, work: W) -> Option<W::Output> {
    match words.newer {
        "outer" => to_outer::<Outer, W>(words.older, work),
        _ => from_bag1(words, work),
    }
}

/// Of an unordered list.
fn from_bag1<W: OnPair + Drop>(words: Versions<'_>, work: W) -> Option<W::Output> {
    match words.newer {
        "bag1" => to_bag1::<SetOf<Sequence1>, W>(words.older, work),
        _ => from_bag2(words, work),
    }
}

fn from_bag2<W: OnPair + Drop>(words: Versions<'_>, work: W) -> Option<W::Output> {
    match words.newer {
        "bag2" => to_bag2::<SetOf<Sequence2>, W>(words.older, work),
        _ => from_bag3(words, work),
    }
}

fn from_bag3<W: OnPair + Drop>(words: Versions<'_>, work: W) -> Option<W::Output> {
    match words.newer {
        "bag3" => to_bag3::<SetOf<Sequence7>, W>(words.older, work),
        _ => from_holder1(words, work),
    }
}

/// Of a sequence with a default.
fn from_holder1<W: OnPair + Drop>(words: Versions<'_>, work: W) -> Option<W::Output> {
    match words.newer {
        "holder1" => to_holder1::<Holder1, W>(words.older, work),
        _ => from_holder2(words, work),
    }
}

fn from_holder2<W: OnPair + Drop>(words: Versions<'_>, work: W) -> Option<W::Output> {
    match words.newer {
        "holder2" => to_holder2::<Holder2, W>(words.older, work),
        _ => from_mixed_set(words, work),
    }
}

/// Of a set.
fn from_mixed_set<W: OnPair + Drop>(words: Versions<'_>, work: W) -> Option<W::Output> {
    match words.newer {
        "mixset" => to_mixed_set::<MixedSet, W>(words.older, work),
        _ => from_mixed_set2(words, work),
    }
}

fn from_mixed_set2<W: OnPair + Drop>(words: Versions<'_>, work: W) -> Option<W::Output> {
    match words.newer {
        "mixset2" => to_mixed_set2::<MixedSet2, W>(words.older, work),
        _ => from_integer(words, work),
    }
}

/// Of a type of one version.
fn from_integer<W: OnPair + Drop>(words: Versions<'_>, work: W) -> Option<W::Output> {
    match words.newer {
        "int" => to_itself::<Integer, W>(words, work),
        _ => from_integers(words, work),
    }
}

fn from_integers<W: OnPair + Drop>(words: Versions<'_>, work: W) -> Option<W::Output> {
    match words.newer {
        "ints" => to_itself::<Vec<Integer>, W>(words, work),
        _ => from_choice(words, work),
    }
}

fn from_choice<W: OnPair + Drop>(words: Versions<'_>, work: W) -> Option<W::Output> {
    match words.newer {
        "choice" => to_itself::<PriorityChoice, W>(words, work),
        _ => from_set(words, work),
    }
}

fn from_set<W: OnPair + Drop>(words: Versions<'_>, work: W) -> Option<W::Output> {
    match words.newer {
        "foo" => to_itself::<Foo, W>(words, work),
        _ => from_duplicates(words, work),
    }
}

fn from_duplicates<W: OnPair + Drop>(words: Versions<'_>, work: W) -> Option<W::Output> {
    match words.newer {
        "dup" => to_itself::<SequenceDuplicatesExtended, W>(words, work),
        _ => from_extended(words, work),
    }
}

fn from_extended<W: OnPair + Drop>(words: Versions<'_>, work: W) -> Option<W::Output> {
    match words.newer {
        "extopt" => to_itself::<ExtendedOptional, W>(words, work),
        _ => from_deep_default(words, work),
    }
}

fn from_deep_default<W: OnPair + Drop>(words: Versions<'_>, work: W) -> Option<W::Output> {
    match words.newer {
        "deepdef" => to_itself::<DeepDefault, W>(words, work),
        _ => from_top_level(words, work),
    }
}

fn from_top_level<W: OnPair + Drop>(words: Versions<'_>, work: W) -> Option<W::Output> {
    match words.newer {
        "toplevel" => to_itself::<TopLevel, W>(words, work),
        _ => None,
    }
}

/// Does it with the versions that words like `seq2/seq1` name, or with a type of one version as both; none where they name none.
pub fn with_pair<W: OnPair + Drop>(words: &str, work: W) -> Option<W::Output> {
    match words.split_once('/') {
        Some((newer, older)) => from_sequence1(Versions { newer, older }, work),
        None => None,
    }
}

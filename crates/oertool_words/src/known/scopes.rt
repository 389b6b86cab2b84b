//! The program's words for sequences, sets, choices and lists.
use crate::known::OnType;
use asn1_core::SetOf;
use asn1_ints::Integer;
use oer_types::{
    DeepDefault, DefaultAndOptional, DefaultInteger, Empty, EmptyExtensible, ExtendedOptional, Foo,
    Holder1, Holder2, ManyOptional, MixedSet, MixedSet2, Nest, Omitted, OnlyChoice, Outer,
    PriorityChoice, Sequence1, Sequence2, Sequence3, Sequence5, Sequence6, Sequence7,
    SequenceDuplicatesExtended, TopLevel, WideChoice,
};

/// Does it with the sequence or set of that word; the work again where none has it.
///
/// A few types a function: what the check looks at in one grows with the square of how many it names.
pub(super) fn with_sequence<W: OnType>(word: &str, work: W) -> Result<W::Output, W> {
    match word {
        "empty" => Ok(work.on::<Empty>()),
        "emptyext" => Ok(work.on::<EmptyExtensible>()),
        "seq1" => Ok(work.on::<Sequence1>()),
        "omitted" => Ok(work.on::<Omitted>()),
        _ => with_additions(word, work),
    }
}

fn with_additions<W: OnType>(word: &str, work: W) -> Result<W::Output, W> {
    match word {
        "seq2" => Ok(work.on::<Sequence2>()),
        "seq5" => Ok(work.on::<Sequence5>()),
        "seq7" => Ok(work.on::<Sequence7>()),
        _ => with_groups(word, work),
    }
}

fn with_groups<W: OnType>(word: &str, work: W) -> Result<W::Output, W> {
    match word {
        "seq3" => Ok(work.on::<Sequence3>()),
        "seq6" => Ok(work.on::<Sequence6>()),
        "outer" => Ok(work.on::<Outer>()),
        _ => with_long_sequence(word, work),
    }
}

fn with_long_sequence<W: OnType>(word: &str, work: W) -> Result<W::Output, W> {
    match word {
        "dup" => Ok(work.on::<SequenceDuplicatesExtended>()),
        _ => with_many_components(word, work),
    }
}

fn with_many_components<W: OnType>(word: &str, work: W) -> Result<W::Output, W> {
    match word {
        "extopt" => Ok(work.on::<ExtendedOptional>()),
        _ => with_many_optional(word, work),
    }
}

fn with_many_optional<W: OnType>(word: &str, work: W) -> Result<W::Output, W> {
    match word {
        "manyopt" => Ok(work.on::<ManyOptional>()),
        _ => with_default(word, work),
    }
}

fn with_default<W: OnType>(word: &str, work: W) -> Result<W::Output, W> {
    match word {
        "defint" => Ok(work.on::<DefaultInteger>()),
        "defopt" => Ok(work.on::<DefaultAndOptional>()),
        "deepdef" => Ok(work.on::<DeepDefault>()),
        _ => with_holder(word, work),
    }
}

fn with_holder<W: OnType>(word: &str, work: W) -> Result<W::Output, W> {
    match word {
        "holder1" => Ok(work.on::<Holder1>()),
        "holder2" => Ok(work.on::<Holder2>()),
        "toplevel" => Ok(work.on::<TopLevel>()),
        _ => with_set(word, work),
    }
}

fn with_set<W: OnType>(word: &str, work: W) -> Result<W::Output, W> {
    match word {
        "foo" => Ok(work.on::<Foo>()),
        "mixset" => Ok(work.on::<MixedSet>()),
        "mixset2" => Ok(work.on::<MixedSet2>()),
        _ => Err(work),
    }
}

/// Does it with the list or choice of that word; the work again where none has it.
pub(super) fn with_list_or_choice<W: OnType>(word: &str, work: W) -> Result<W::Output, W> {
    match word {
        "choice" => Ok(work.on::<PriorityChoice>()),
        "tagmax" => Ok(work.on::<WideChoice>()),
        "tag130" => Ok(work.on::<OnlyChoice>()),
        _ => with_list(word, work),
    }
}

fn with_list<W: OnType>(word: &str, work: W) -> Result<W::Output, W> {
    match word {
        "ints" => Ok(work.on::<Vec<Integer>>()),
        "nulls" => Ok(work.on::<Vec<()>>()),
        "nest" => Ok(work.on::<Nest>()),
        _ => with_unordered_list(word, work),
    }
}

fn with_unordered_list<W: OnType>(word: &str, work: W) -> Result<W::Output, W> {
    match word {
        "intset" => Ok(work.on::<SetOf<Integer>>()),
        "bag1" => Ok(work.on::<SetOf<Sequence1>>()),
        _ => with_further_bag(word, work),
    }
}

fn with_further_bag<W: OnType>(word: &str, work: W) -> Result<W::Output, W> {
    match word {
        "bag2" => Ok(work.on::<SetOf<Sequence2>>()),
        "bag3" => Ok(work.on::<SetOf<Sequence7>>()),
        _ => Err(work),
    }
}

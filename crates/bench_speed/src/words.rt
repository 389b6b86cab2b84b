//! Types by a word: those without a word of oertool, and behind them those with one.

use asn1_strings::OctetString;
use asn1_times::UtcTime;
use oer_types::{Adding, Chain, Enum3, Link, Sequence2};
use oertool_words::known::{OnType, with_type};

/// Does it with the type of that word; none where no type has it.
///
/// One or two types a function: what the check looks at in one grows with the types that it names.
pub(crate) fn with_word<W: OnType + Drop>(word: &str, work: W) -> Option<W::Output> {
    match word {
        "link" => Some(work.on::<Link>()),
        "additions" => Some(work.on::<Chain>()),
        _ => with_leaves(word, work),
    }
}

/// A list of leaves.
fn with_leaves<W: OnType + Drop>(word: &str, work: W) -> Option<W::Output> {
    match word {
        "times" => Some(work.on::<Vec<UtcTime>>()),
        "colors" => Some(work.on::<Vec<Enum3>>()),
        _ => with_sequence(word, work),
    }
}

/// Octets as an addition, or a list of small sequences.
fn with_sequence<W: OnType + Drop>(word: &str, work: W) -> Option<W::Output> {
    match word {
        "added" => Some(work.on::<Adding<OctetString>>()),
        "seqs" => Some(work.on::<Vec<Sequence2>>()),
        _ => with_type(word, work),
    }
}

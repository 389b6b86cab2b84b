//! Values that may be deeper than the levels that are read, so made by code.

use crate::measuring::{Figures, Plan, measure};
use anyhow::Result;
use oer_types::{
    Bare, Chain, ChainComponents, Held, Link, LinkChoiceAlternatives, LinkComponents, ListOf, Nest,
    OneOf, Sequence,
};
use std::alloc::Global;
use std::rt::Clock;

/// An empty list in lists of one element, `count` of these.
fn nest(alloc: Global, count: u32) -> Result<Nest> {
    let mut nest = Nest(ListOf(Vec::new(alloc)));
    for _ in 0..count {
        nest = Nest(ListOf(vec![in alloc; Bare(nest)]?));
    }
    Ok(nest)
}

/// `count` sequences, each of which but the last ends in a choice of the next.
fn links(alloc: Global, count: u32) -> Result<Link> {
    let mut b = LinkChoiceAlternatives::A(true);
    for _ in 1..count {
        let link = Link(Sequence(LinkComponents {
            a: None,
            b: OneOf(b),
        }));
        b = LinkChoiceAlternatives::B(Held(Box::new(alloc, link)?));
    }
    Ok(Link(Sequence(LinkComponents {
        a: None,
        b: OneOf(b),
    })))
}

/// `count` sequences, each of which but the last has the next as its addition.
fn additions(alloc: Global, count: u32) -> Result<Chain> {
    let mut next = None;
    for _ in 1..count {
        let chain = Chain(Sequence(ChainComponents { ok: true, next }));
        next = Some(Held(Box::new(alloc, chain)?));
    }
    Ok(Chain(Sequence(ChainComponents { ok: true, next })))
}

/// Measures the value of that word; nothing where it is no such value's.
pub(crate) fn measure_deep<C: Clock>(
    clock: &C,
    alloc: Global,
    word: &str,
    count: u32,
    plan: &Plan,
) -> Result<Option<Figures>> {
    match word {
        "nest" => measure(clock, alloc, plan, &nest(alloc, count)?),
        "link" => measure(clock, alloc, plan, &links(alloc, count)?),
        "additions" => measure(clock, alloc, plan, &additions(alloc, count)?),
        _ => Ok(None),
    }
}

//! Cycles of types that contain one another: where each is cut, and an order of use that has the types of a cycle together.

use crate::definitions::{Cycle, Definition, Part, Tie};
use crate::order::{behind_names, order_around, order_of_use};
use oergen_parse::ast::Body;
use std::alloc::{AllocError, Global};
use std::collections::BTreeMap;

/// Definitions by what contains one another: the number of each, and those of each number, what is used behind what uses it.
#[derive(Drop)]
struct Grouping {
    users: Vec<Vec<usize>>,
    numbers: Vec<Option<usize>>,
    groups: Vec<Vec<usize>>,
}

/// So many lists with nothing in them.
fn empty_lists(alloc: Global, count: usize) -> Result<Vec<Vec<usize>>, AllocError> {
    let mut lists = Vec::new(alloc);
    for _ in 0..count {
        lists.push(Vec::new(alloc))?;
    }
    Ok(lists)
}

/// Puts a definition to the users of those that its parts lead to.
fn push_user(users: &mut Vec<Vec<usize>>, at: usize, parts: &[Part<'_>]) -> Result<(), AllocError> {
    for part in parts.iter() {
        let Some(target) = part.target else {
            continue;
        };
        if let Some(list) = users.get_mut(target) {
            list.push(at)?;
        }
    }
    Ok(())
}

/// For each definition, those whose parts lead to it.
fn users_of(alloc: Global, all: &[Definition<'_>]) -> Result<Vec<Vec<usize>>, AllocError> {
    let mut users = empty_lists(alloc, all.len())?;
    for (at, definition) in all.iter().enumerate() {
        push_user(&mut users, at, definition.parts.as_slice())?;
    }
    Ok(users)
}

impl Grouping {
    /// Gives a definition a number; false where it has one.
    fn takes(&mut self, at: usize, number: usize) -> bool {
        match self.numbers.get_mut(at) {
            Some(own) if own.is_none() => {
                *own = Some(number);
                true
            }
            _ => false,
        }
    }

    /// A definition and those that lead to it, as far as they have no number yet: all get the next one.
    fn group_from(&mut self, alloc: Global, start: usize) -> Result<Vec<usize>, AllocError> {
        let number = self.groups.len();
        let mut group = Vec::new(alloc);
        let mut open = Vec::new(alloc);
        open.push(start)?;
        for _ in 0..u64::MAX {
            let Some(at) = open.pop() else {
                break;
            };
            if self.takes(at, number) {
                group.push(at)?;
                if let Some(users) = self.users.get(at) {
                    open.extend_from_slice(users.as_slice())?;
                }
            }
        }
        Ok(group)
    }

    /// Whether two definitions have one number.
    fn are_together(&self, at: usize, other: usize) -> bool {
        self.numbers.get(at).copied() == self.numbers.get(other).copied()
    }

    /// Whether a definition of another number has a part that leads to one.
    fn is_used_outside(&self, at: usize) -> bool {
        match self.users.get(at) {
            Some(users) => users.iter().any(|user| !self.are_together(at, *user)),
            None => false,
        }
    }
}

/// The groups of all definitions. Against the order of use, each begins with one that no other of it is done behind: so those that
/// lead to it and have no number are just those that it leads to as well.
fn grouping_of(alloc: Global, all: &[Definition<'_>]) -> Result<Grouping, AllocError> {
    let order = order_of_use(alloc, all)?;
    let mut grouping = Grouping {
        users: users_of(alloc, all)?,
        numbers: vec![in alloc; None; all.len()]?,
        groups: Vec::new(alloc),
    };
    for at in order.iter().rev() {
        let group = grouping.group_from(alloc, *at)?;
        if !group.is_empty() {
            grouping.groups.push(group)?;
        }
    }
    Ok(grouping)
}

/// Whether a definition has a part that leads to itself.
fn contains_itself(all: &[Definition<'_>], at: usize) -> bool {
    match all.get(at) {
        Some(definition) => definition.parts.iter().any(|part| part.target == Some(at)),
        None => false,
    }
}

/// How willingly a cycle is cut at a type: at a SEQUENCE before a SET, at that before a CHOICE, at that before a list; nothing where
/// it can't be.
fn rank_of(definition: &Definition<'_>) -> Option<u8> {
    match definition.of.body {
        Body::Sequence(_) => Some(0),
        Body::Set(_) => Some(1),
        Body::Choice(_) => Some(2),
        Body::SequenceOf(_) | Body::SetOf(_) => Some(3),
        Body::Reference(_) | Body::Enumerated(_, _) => None,
        Body::Simple(_) | Body::Integer(_) | Body::BitString(_) => None,
    }
}

/// The types that a cycle may be cut at, as they are tried: of one sort first those that others use, then as they stand in the text.
fn candidates_of(
    alloc: Global,
    all: &[Definition<'_>],
    grouping: &Grouping,
    group: &[usize],
) -> Result<BTreeMap<(u8, u8, usize), usize>, AllocError> {
    let mut candidates = BTreeMap::new(alloc);
    for at in group.iter() {
        if let Some(rank) = all.get(*at).and_then(|definition| rank_of(definition)) {
            let hidden = u8::from(!grouping.is_used_outside(*at));
            candidates.insert((rank, hidden, *at), *at)?;
        }
    }
    Ok(candidates)
}

/// The types of a cycle in order of use, but the one that it is cut at, which is the last; nothing where none cuts it.
fn cut(
    alloc: Global,
    all: &[Definition<'_>],
    grouping: &Grouping,
    group: &[usize],
) -> Result<Option<Vec<usize>>, AllocError> {
    let candidates = candidates_of(alloc, all, grouping, group)?;
    for at in candidates.values() {
        let order = order_around(alloc, all, grouping.numbers.as_slice(), *at)?;
        if order.is_some() {
            return Ok(order);
        }
    }
    Ok(None)
}

/// How a part leads back into the cycle of the definition at a place.
fn tie_of(
    all: &[Definition<'_>],
    grouping: &Grouping,
    at: usize,
    part: &Part<'_>,
    knot: Option<usize>,
) -> Tie {
    match part.target {
        Some(target) if grouping.are_together(at, target) => {
            let base = behind_names(all, target);
            if knot == Some(base) {
                Tie::Knot
            } else {
                Tie::Member(base)
            }
        }
        _ => Tie::Plain,
    }
}

/// How each part of the definition at a place leads back into its cycle.
fn ties_of(
    alloc: Global,
    all: &[Definition<'_>],
    grouping: &Grouping,
    at: usize,
    knot: Option<usize>,
) -> Result<Vec<Tie>, AllocError> {
    let mut ties = Vec::new(alloc);
    if let Some(definition) = all.get(at) {
        for part in definition.parts.iter() {
            ties.push(tie_of(all, grouping, at, part, knot))?;
        }
    }
    Ok(ties)
}

/// Says of each part how it leads back.
fn set_ties(parts: &mut Vec<Part<'_>>, ties: &[Tie]) {
    for (place, tie) in ties.iter().enumerate() {
        if let Some(part) = parts.get_mut(place) {
            part.tie = *tie;
        }
    }
}

/// Says of the types of a cycle that they are of it.
fn set_cycle(
    alloc: Global,
    all: &mut Vec<Definition<'_>>,
    grouping: &Grouping,
    group: &[usize],
    cycle: Cycle,
) -> Result<(), AllocError> {
    for at in group.iter() {
        let ties = ties_of(alloc, all.as_slice(), grouping, *at, cycle.knot)?;
        if let Some(definition) = all.get_mut(*at) {
            definition.cycle = Some(cycle);
            set_ties(&mut definition.parts, ties.as_slice());
        }
    }
    Ok(())
}

/// Puts the types of a group behind others, in order of use; where they are a cycle, each says so.
fn push_group(
    alloc: Global,
    all: &mut Vec<Definition<'_>>,
    grouping: &Grouping,
    group: &[usize],
    order: &mut Vec<usize>,
) -> Result<(), AllocError> {
    let number = order.len();
    if group.len() == 1 && !group.iter().any(|at| contains_itself(all.as_slice(), *at)) {
        return order.extend_from_slice(group);
    }
    let knot_last = cut(alloc, all.as_slice(), grouping, group)?;
    let (places, knot) = match &knot_last {
        Some(places) => (places.as_slice(), places.last().copied()),
        None => (group, None),
    };
    set_cycle(alloc, all, grouping, group, Cycle { number, knot })?;
    order.extend_from_slice(places)
}

/// Finds the cycles, says in each definition of which it is, and answers an order of use: each place behind those that it uses, the
/// types of a cycle together, the one that it is cut at behind the others.
pub fn find_cycles(alloc: Global, all: &mut Vec<Definition<'_>>) -> Result<Vec<usize>, AllocError> {
    let grouping = grouping_of(alloc, all.as_slice())?;
    let mut order = Vec::new(alloc);
    for group in grouping.groups.iter().rev() {
        push_group(alloc, all, &grouping, group.as_slice(), &mut order)?;
    }
    Ok(order)
}

//! An order in which each type stands behind those that it uses, and the places where a box is needed.
ghost use Rattle.std.specs.Prelude.{◌≡◌};
ghost use Rattle.oergen_layouts.specs.Untagged.{first_target, is_name_of, past_names};

use crate::definitions::{Definition, Part};
use oergen_parse::ast::{Body, Type};
use std::alloc::{AllocError, Global};

/// How many names may stand for one another.
const MAX_CHAIN: usize = 64;

/// What the walk knows of a definition.
#[derive(Clone, Copy, PartialEq, Eq)]
enum Mark {
    New,
    Open,
    Done,
}

/// The walk: what is known, what is open with the part that comes next, what is done in turn, and the parts that lead back.
#[derive(Drop)]
struct Walk {
    marks: Vec<Mark>,
    open: Vec<(usize, usize)>,
    done: Vec<usize>,
    back: Vec<(usize, usize)>,
}

impl Walk {
    /// Begins a definition that is new. One that is open is led back to, from the part.
    fn enter(&mut self, target: usize, from: (usize, usize)) -> Result<(), AllocError> {
        match self.marks.get(target).copied() {
            Some(Mark::New) => {
                self.mark(target, Mark::Open);
                self.open.push((target, 0))?;
            }
            Some(Mark::Open) => self.back.push(from)?,
            _ => {}
        }
        Ok(())
    }

    fn mark(&mut self, at: usize, mark: Mark) {
        if let Some(place) = self.marks.get_mut(at) {
            *place = mark;
        }
    }
}

/// Past names of types, which hold nothing themselves, to the type that is named.
pub fn behind_names(definitions: &[Definition<'_>], start: usize) -> usize
    ensures { result ≡ past_names 64 definitions.now start }
{
    let mut at = start;
    for _ in 0..MAX_CHAIN {
        match definitions.get(at) {
            Some(definition) if is_name(definition.of) => {
                at = first_target(definition).unwrap_or(at);
            }
            Some(_) | None => return at,
        }
    }
    at
}

/// Whether a type is a name of another.
fn is_name(of: &Type) -> bool
    ensures { result ≡ is_name_of of.now.body }
{
    matches!(of.body, Body::Reference(_))
}

/// What the first part of a definition leads to.
fn first_target(definition: &Definition<'_>) -> Option<usize>
    ensures { result ≡ first_target definition.now }
{
    match definition.parts.first() {
        Some(part) => part.target,
        None => None,
    }
}

/// The definition that a part leads to; where boxes are sought, not through a list, and past names.
fn target_of(definitions: &[Definition<'_>], part: &Part<'_>, for_boxes: bool) -> Option<usize> {
    let target = part.target?;
    if !for_boxes {
        return Some(target);
    }
    if part.lists == 0 {
        Some(behind_names(definitions, target))
    } else {
        None
    }
}

/// Walks from one definition to all that it uses and that are new.
fn walk_from(
    definitions: &[Definition<'_>],
    start: usize,
    for_boxes: bool,
    walk: &mut Walk,
) -> Result<(), AllocError> {
    walk.enter(start, (start, 0))?;
    for _ in 0..u64::MAX {
        let Some((at, next)) = walk.open.pop() else {
            break;
        };
        let Some(definition) = definitions.get(at) else {
            continue;
        };
        match definition.parts.get(next) {
            Some(part) => {
                walk.open.push((at, next.saturating_add(1)))?;
                if let Some(target) = target_of(definitions, part, for_boxes) {
                    walk.enter(target, (at, next))?;
                }
            }
            None => {
                walk.mark(at, Mark::Done);
                walk.done.push(at)?;
            }
        }
    }
    Ok(())
}

/// Walks from every definition, in turn.
fn walked(
    alloc: Global,
    definitions: &[Definition<'_>],
    for_boxes: bool,
) -> Result<Walk, AllocError> {
    let mut walk = Walk {
        marks: vec![in alloc; Mark::New; definitions.len()]?,
        open: Vec::new(alloc),
        done: Vec::new(alloc),
        back: Vec::new(alloc),
    };
    for start in 0..definitions.len() {
        if walk.marks.get(start).copied() == Some(Mark::New) {
            walk_from(definitions, start, for_boxes, &mut walk)?;
        }
    }
    Ok(walk)
}

/// The places of definitions in order of use: each behind those that it uses, but where types contain themselves.
pub fn order_of_use(
    alloc: Global,
    definitions: &[Definition<'_>],
) -> Result<Vec<usize>, AllocError> {
    Ok(walked(alloc, definitions, false)?.done)
}

/// The parts that need a box, as the places of definition and part: without them a type would contain itself other than by a list.
pub fn boxes(
    alloc: Global,
    definitions: &[Definition<'_>],
) -> Result<Vec<(usize, usize)>, AllocError> {
    Ok(walked(alloc, definitions, true)?.back)
}

/// Marks by which a walk stays among the definitions that have one's number.
fn marks_around(
    alloc: Global,
    numbers: &[Option<usize>],
    one: usize,
) -> Result<Vec<Mark>, AllocError> {
    let own = numbers.get(one).copied();
    let mut marks = Vec::new(alloc);
    for number in numbers.iter() {
        marks.push(if Some(*number) == own {
            Mark::New
        } else {
            Mark::Done
        })?;
    }
    Ok(marks)
}

/// Whether a part, by the places of definition and part, leads to a definition.
fn leads_to(definitions: &[Definition<'_>], from: (usize, usize), to: usize) -> bool {
    match definitions.get(from.0).and_then(|d| d.parts.get(from.1)) {
        Some(part) => part.target == Some(to),
        None => false,
    }
}

/// The places of those that have one's number, in order of use but for that one, which is the last: nothing where others contain
/// themselves without it.
pub fn order_around(
    alloc: Global,
    definitions: &[Definition<'_>],
    numbers: &[Option<usize>],
    one: usize,
) -> Result<Option<Vec<usize>>, AllocError> {
    let mut walk = Walk {
        marks: marks_around(alloc, numbers, one)?,
        open: Vec::new(alloc),
        done: Vec::new(alloc),
        back: Vec::new(alloc),
    };
    walk_from(definitions, one, false, &mut walk)?;
    if walk
        .back
        .iter()
        .all(|from| leads_to(definitions, *from, one))
    {
        Ok(Some(walk.done))
    } else {
        Ok(None)
    }
}

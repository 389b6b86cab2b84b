//! Types that contain one another: which of them are printed, and all of a cycle together.

use oergen_layouts::definitions::{Cycle, Definition, Part, Tie};
use oergen_layouts::rows::{Position, Row};
use oergen_layouts::scope::Scope;
use oergen_parse::ast::{Body, Need};
use oergen_parse::refusal::Refusal;
use std::alloc::Global;

/// Whether an addition that leads back into its cycle is printed: it and those in front of it are OPTIONAL, and none is in a group.
fn is_printed_addition(definition: &Definition<'_>, row: Row<'_>) -> bool {
    for part in definition.parts.iter() {
        let Some(one) = part.row else {
            continue;
        };
        if one.position == Position::Root {
            continue;
        }
        if one.position != Position::Addition || !matches!(one.need, Need::Optional) {
            return false;
        }
        if one.name.index == row.name.index {
            return true;
        }
    }
    false
}

/// What can be read in the place of a part that leads back into its cycle; nothing where it is printed.
fn unprinted(definition: &Definition<'_>, part: &Part<'_>) -> Option<&'static str> {
    let Some(row) = part.row else {
        return None;
    };
    if matches!(definition.of.body, Body::Choice(_)) {
        None
    } else if matches!(row.need, Need::Default(_)) {
        Some("a type that doesn't contain itself through a default: others aren't printed yet")
    } else if row.position != Position::Root && !is_printed_addition(definition, row) {
        Some(
            "a type that contains itself through an extension addition only if that one and those in front of it are OPTIONAL, in no group: others aren't printed yet",
        )
    } else {
        None
    }
}

/// Refuses a type of a cycle that holds knots in a form that isn't printed.
fn require_form<'m>(scope: Scope<'m, '_>, definition: &Definition<'m>) -> Result<(), Refusal> {
    for part in definition.parts.iter() {
        if let (true, Some(reads)) = (part.tie != Tie::Plain, unprinted(definition, part)) {
            return Err(scope.refused(part.inner.first, reads));
        }
    }
    Ok(())
}

/// Refuses a cycle one of whose types holds knots in a form that isn't printed, and one that isn't cut.
pub fn require_cycle<'m>(
    scope: Scope<'m, '_>,
    all: &[Definition<'m>],
    cycle: Cycle,
    run: &[usize],
) -> Result<(), Refusal> {
    for at in run.iter() {
        if let Some(definition) = all.get(*at) {
            require_form(scope, definition)?;
        }
    }
    match (cycle.knot, run.first().and_then(|at| all.get(*at))) {
        (None, Some(first)) => Err(scope.refused(
            first.of.first,
            "types that contain themselves only through one of them: others aren't printed yet",
        )),
        (Some(_), _) | (None, None) => Ok(()),
    }
}

/// The types of a cycle among places, from the one at `turn` on.
pub fn run_of<'o>(
    all: &[Definition<'_>],
    order: &'o [usize],
    turn: usize,
    cycle: Cycle,
) -> &'o [usize] {
    let mut to = turn;
    for at in order.iter().skip(turn) {
        match all.get(*at).and_then(|definition| definition.cycle) {
            Some(own) if own.number == cycle.number => to = to.saturating_add(1),
            _ => break,
        }
    }
    order.get(turn..to).unwrap_or(&[])
}

/// The same refusal again, for another type.
pub fn again(alloc: Global, why: &Refusal) -> Refusal {
    match why {
        Refusal::OutOfMemory => Refusal::OutOfMemory,
        Refusal::At { place, met, reads } => {
            Refusal::new(alloc, *place, met.as_str(), reads.as_str())
        }
    }
}

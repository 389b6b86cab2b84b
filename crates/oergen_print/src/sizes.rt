//! How many fields printed types reach: the language refuses a type that reaches more than 10,000, so the large parts of large types are
//! held in boxes.

use oergen_layouts::definitions::{Definition, Part, Tie};
use oergen_parse::ast::Need;
use std::alloc::{AllocError, Global};

/// How many fields a type reaches at most whose parts stand in it as they are. They are counted roughly, and what is written from
/// references reaches some more.
const MAX_FIELDS: usize = 5000;

/// How many fields a part reaches at least that is held in a box.
const LARGE: usize = 100;

/// The fields of a list and of a box, and roughly those of a type without parts.
const FEW: usize = 6;

/// A part's own field, and that of an Option around it.
const AROUND: usize = 2;

/// How many fields a part reaches.
fn part_size(sizes: &[usize], part: &Part<'_>) -> usize {
    let at = match part.tie {
        Tie::Knot => None,
        Tie::Member(at) => Some(at),
        Tie::Plain => part.target,
    };
    if part.lists != 0 || part.is_held {
        return FEW;
    }
    at.and_then(|at| sizes.get(at)).copied().unwrap_or(FEW)
}

/// How many fields a type with these parts reaches.
fn size_of(sizes: &[usize], parts: &[Part<'_>]) -> usize {
    let mut size = FEW;
    for part in parts.iter() {
        size = size
            .saturating_add(part_size(sizes, part))
            .saturating_add(AROUND);
    }
    size
}

/// Whether a part can be held in a box: an alternative, or a component without a default, that is no list and holds no knot.
fn can_be_held(part: &Part<'_>) -> bool {
    let has_default = match part.row {
        Some(row) => matches!(row.need, Need::Default(_)),
        None => true,
    };
    !has_default && part.lists == 0 && part.tie == Tie::Plain
}

/// Holds the large ones of a type's parts in boxes where it would reach too many fields, and answers how many it reaches.
fn settled_size(sizes: &[usize], parts: &mut Vec<Part<'_>>) -> usize {
    let whole = size_of(sizes, parts.as_slice());
    if whole <= MAX_FIELDS {
        return whole;
    }
    for part in parts.iter_mut() {
        part.is_held = can_be_held(part) && part_size(sizes, part) >= LARGE;
    }
    size_of(sizes, parts.as_slice())
}

/// Holds the large parts of types in boxes where a type would reach too many fields; by an order of use.
pub fn hold_large(
    alloc: Global,
    all: &mut Vec<Definition<'_>>,
    order: &[usize],
) -> Result<(), AllocError> {
    let mut sizes = vec![in alloc; FEW; all.len()]?;
    for at in order.iter() {
        if let Some(definition) = all.get_mut(*at) {
            let own = settled_size(sizes.as_slice(), &mut definition.parts);
            if let Some(place) = sizes.get_mut(*at) {
                *place = own;
            }
        }
    }
    Ok(())
}

//! How deep the structs, enums, tuples and references of printed types stand in one another: the language refuses more than 64.

use crate::chains::{FLAT, HOLDING, NESTED, PART};
use crate::choices::ALTERNATIVES;
use crate::sequences::{in_text_order, root_places};
use crate::shapes::{drops_zeros, number_of_octets, sizes_of};
use oergen_layouts::definitions::{Definition, Part, Tie};
use oergen_layouts::rows::Position;
use oergen_layouts::scope::Scope;
use oergen_parse::ast::{Body, Need, Simple};
use oergen_parse::refusal::Refusal;
use std::alloc::AllocError;

/// How deep the language lets them stand.
const MAX_DEPTH: usize = 64;

/// How many lists may stand directly in one another: past some more the compiler gives up on their impls.
const MAX_LISTS: usize = 40;

/// How many components a row has at most: past some more the compiler gives up on its impls.
const MAX_CELLS: usize = 50;

/// How many of a type that contains itself: no structs hold the rest of its row.
const MAX_CYCLE_CELLS: usize = NESTED;

/// The depth of a list, and of a type in a box: what they hold lies apart.
const APART: usize = 4;

/// The depth of a number of any size.
const INTEGER: usize = 5;

/// The depth of a bit string.
const BITS: usize = 4;

/// The depth of a bit string without 0 bits at its end.
const NAMED_BITS: usize = 5;

/// The depth of the octets of an alternative of a newer version, less that of the enum that a CHOICE has.
const KEPT: usize = 7;

/// What stands around a component where a row is written: the reference to all of them, and its own.
const VIEW: usize = 2;

/// The structs that hold the rest of a long row: one behind so many cells, and one behind the root.
const HELD: usize = 2;

/// What stands around a value that a call answers with what is left behind it.
const ANSWER: usize = 2;

/// How deep a printed type is: itself, and what is printed or answered that holds it; and how many components its row has.
#[derive(Clone, Copy)]
pub struct Depth {
    own: usize,
    within: usize,
    cells: usize,
}

impl Depth {
    /// That of a value, as a call answers it.
    fn of(own: usize) -> Depth {
        Depth {
            own,
            within: own.saturating_add(ANSWER),
            cells: 0,
        }
    }
}

/// What is counted of a row so far: its cells, the most of them that it or a group of it has, the deepest, and the deepest within
/// their pairs.
#[derive(Clone, Copy)]
struct Row {
    count: usize,
    most: usize,
    own: usize,
    within: usize,
}

impl Row {
    /// A row without cells.
    fn empty() -> Row {
        Row {
            count: 0,
            most: 0,
            own: 0,
            within: 0,
        }
    }

    /// The row with a further cell: each is a pair with those behind it.
    fn with(self, field: usize) -> Row {
        self.at(self.count.saturating_add(1), field)
    }

    /// The row with a cell so deep in it.
    fn at(self, level: usize, field: usize) -> Row {
        let within = level.saturating_add(VIEW).saturating_add(field);
        Row {
            count: level,
            most: self.most.max(level),
            own: self.own.max(field),
            within: self.within.max(within),
        }
    }

    /// The depth of a type of that row: a struct of the library around a struct or an enum.
    fn depth(self) -> Depth {
        let whole = Depth::of(self.own.saturating_add(2));
        let held = if self.count > NESTED { HELD } else { 0 };
        Depth {
            own: whole.own,
            within: whole.within.max(self.within.saturating_add(held)),
            cells: self.most,
        }
    }
}

/// The depth of a type without parts, less its limits.
fn simple_depth(simple: Simple) -> usize {
    match simple {
        Simple::Boolean | Simple::Null => 0,
        Simple::Date => 3,
        Simple::ObjectIdentifier | Simple::UtcTime | Simple::GeneralizedTime => 4,
        Simple::OctetString | Simple::Any => 8,
        Simple::Utf8String | Simple::NumericString | Simple::PrintableString => 5,
        Simple::VisibleString | Simple::Ia5String | Simple::GeneralString => 5,
        Simple::GraphicString | Simple::TeletexString => 5,
        Simple::BmpString | Simple::UniversalString => 5,
    }
}

/// The depth of the type at a place.
fn own_at(depths: &[Depth], at: Option<usize>) -> usize {
    match at.and_then(|at| depths.get(at)) {
        Some(depth) => depth.own,
        None => 0,
    }
}

/// The depth of a part, within its limits, without an Option around it.
fn part_depth<'m>(
    scope: Scope<'m, '_>,
    depths: &[Depth],
    part: &Part<'m>,
) -> Result<usize, Refusal> {
    let at = match part.tie {
        Tie::Knot => return Ok(APART),
        Tie::Member(at) => Some(at),
        Tie::Plain => part.target,
    };
    if part.lists != 0 || part.is_held {
        return Ok(APART);
    }
    let (own, has_limits) = match &scope.base_of(part.inner)?.body {
        Body::Integer(_) => {
            let (rust, has_limits, _) = number_of_octets(scope, part.inner)?;
            (if rust == "Integer" { INTEGER } else { 0 }, has_limits)
        }
        Body::BitString(names) => {
            let (has_limits, limits) = sizes_of(scope, part.inner)?;
            let is_named = drops_zeros(names.as_slice(), limits);
            (if is_named { NAMED_BITS } else { BITS }, has_limits)
        }
        Body::Simple(simple) => (simple_depth(*simple), sizes_of(scope, part.inner)?.0),
        Body::Sequence(_) | Body::Set(_) | Body::Choice(_) => (own_at(depths, at), false),
        Body::Enumerated(_, _) | Body::Reference(_) => (own_at(depths, at), false),
        Body::SequenceOf(_) | Body::SetOf(_) => (own_at(depths, at), false),
    };
    Ok(if has_limits {
        own.max(1).saturating_add(1)
    } else {
        own
    })
}

/// The depth of a component's or an alternative's field: of an addition an Option, but where it has a default.
fn field_depth<'m>(
    scope: Scope<'m, '_>,
    depths: &[Depth],
    part: &Part<'m>,
    is_addition: bool,
) -> Result<usize, Refusal> {
    let own = part_depth(scope, depths, part)?;
    let is_option = match part.row {
        Some(row) => match row.need {
            Need::Optional => true,
            Need::Required => is_addition,
            Need::Default(_) => false,
        },
        None => false,
    };
    Ok(if is_option {
        own.saturating_add(1)
    } else {
        own
    })
}

/// A row with the cells of parts at some places behind its own.
fn with_places<'m>(
    scope: Scope<'m, '_>,
    depths: &[Depth],
    parts: &[Part<'m>],
    places: &[usize],
    before: Row,
) -> Result<Row, Refusal> {
    let mut row = before;
    for at in places.iter() {
        if let Some(part) = parts.get(*at) {
            row = row.with(field_depth(scope, depths, part, false)?);
        }
    }
    Ok(row)
}

/// A row with the cell of an addition group behind its own: an Option of a sequence.
fn with_group<'m>(
    scope: Scope<'m, '_>,
    depths: &[Depth],
    parts: &[Part<'m>],
    number: usize,
    before: Row,
) -> Result<Row, Refusal> {
    let places = in_text_order(scope.alloc, parts, Position::Group(number))?;
    let inner = with_places(scope, depths, parts, places.as_slice(), Row::empty())?;
    let group = inner.depth();
    let row = before.with(group.own.saturating_add(1));
    Ok(Row {
        most: row.most.max(group.cells),
        within: row.within.max(group.within),
        ..row
    })
}

/// A row with the cells of the additions behind its own.
fn with_additions<'m>(
    scope: Scope<'m, '_>,
    depths: &[Depth],
    parts: &[Part<'m>],
    before: Row,
) -> Result<Row, Refusal> {
    let mut row = before;
    let mut counted = 0usize;
    for part in parts.iter() {
        match part.row.map(|one| one.position) {
            Some(Position::Addition) => row = row.with(field_depth(scope, depths, part, true)?),
            Some(Position::Group(number)) if number != counted => {
                counted = number;
                row = with_group(scope, depths, parts, number, row)?;
            }
            Some(Position::Root | Position::Group(_)) | None => {}
        }
    }
    Ok(row)
}

/// The depth of a SEQUENCE or a SET.
fn sequence_depth<'m>(
    scope: Scope<'m, '_>,
    depths: &[Depth],
    parts: &[Part<'m>],
    is_set: bool,
) -> Result<Depth, Refusal> {
    let places = root_places(scope.alloc, parts, is_set)?;
    let roots = with_places(scope, depths, parts, places.as_slice(), Row::empty())?;
    Ok(with_additions(scope, depths, parts, roots)?.depth())
}

/// The depth of a CHOICE.
fn choice_depth<'m>(
    scope: Scope<'m, '_>,
    depths: &[Depth],
    definition: &Definition<'m>,
) -> Result<Depth, Refusal> {
    let mut row = Row::empty();
    if definition.keeps_unknown {
        row.own = KEPT;
    }
    let count = definition.parts.len();
    let held = usize::from(count > HOLDING);
    for (at, part) in definition.parts.iter().enumerate() {
        let field = field_depth(scope, depths, part, false)?.saturating_add(held);
        row = if count > FLAT {
            row.at(part_level(at), field)
        } else {
            row.with(field)
        };
    }
    Ok(row.depth())
}

/// How deep an alternative stands at most in a row of parts, of which the last one of the root may not be full: a part is an enum too.
fn part_level(at: usize) -> usize {
    (at / PART).saturating_add(at % PART).saturating_add(4)
}

/// The depth of a name for a type, for a list or for a type without parts.
fn named_depth<'m>(
    scope: Scope<'m, '_>,
    depths: &[Depth],
    parts: &[Part<'m>],
) -> Result<Depth, Refusal> {
    match parts.first() {
        Some(part) => Ok(Depth::of(part_depth(scope, depths, part)?)),
        None => Ok(Depth::of(0)),
    }
}

/// The depth of a type, by those of the types that it uses.
fn depth_of<'m>(
    scope: Scope<'m, '_>,
    depths: &[Depth],
    definition: &Definition<'m>,
) -> Result<Depth, Refusal> {
    let parts = definition.parts.as_slice();
    match &definition.of.body {
        Body::Sequence(_) => sequence_depth(scope, depths, parts, false),
        Body::Set(_) => sequence_depth(scope, depths, parts, true),
        Body::Choice(_) => choice_depth(scope, depths, definition),
        Body::Enumerated(_, _) => Ok(Depth::of(2)),
        Body::Simple(_) | Body::Integer(_) | Body::BitString(_) => named_depth(
            scope, depths, parts,
        ),
        Body::SequenceOf(_) | Body::SetOf(_) | Body::Reference(_) => {
            named_depth(scope, depths, parts)
        }
    }
}

/// The depth of the type at a place; of a knot with the struct that it is. None is told of one that is refused by itself.
fn told_depth<'m>(
    scope: Scope<'m, '_>,
    depths: &[Depth],
    definition: &Definition<'m>,
    at: usize,
) -> Result<Depth, AllocError> {
    let is_knot = definition.cycle.and_then(|cycle| cycle.knot) == Some(at);
    match depth_of(scope, depths, definition) {
        Ok(depth) if is_knot => Ok(Depth {
            own: depth.own.saturating_add(1),
            within: depth.within.saturating_add(1),
            ..depth
        }),
        Ok(depth) => Ok(depth),
        Err(Refusal::OutOfMemory) => Err(AllocError),
        Err(_) => Ok(Depth::of(0)),
    }
}

/// The depths of types, in an order of use.
pub fn depths_of<'m>(
    scope: Scope<'m, '_>,
    all: &[Definition<'m>],
    order: &[usize],
) -> Result<Vec<Depth>, AllocError> {
    let mut depths = vec![in scope.alloc; Depth::of(0); all.len()]?;
    for at in order.iter() {
        if let Some(definition) = all.get(*at) {
            let depth = told_depth(scope, depths.as_slice(), definition, *at)?;
            if let Some(place) = depths.get_mut(*at) {
                *place = depth;
            }
        }
    }
    Ok(depths)
}

/// How many lists stand directly in one another where a part stands, also those that have names.
fn lists_of(all: &[Definition<'_>], start: &Part<'_>) -> usize {
    let mut lists = start.lists;
    let mut target = start.target;
    for _ in 0..all.len() {
        match target
            .and_then(|at| all.get(at))
            .and_then(|named| named.parts.first())
        {
            Some(part) if part.row.is_none() && part.tie == Tie::Plain => {
                lists = lists.saturating_add(part.lists);
                target = part.target;
            }
            _ => break,
        }
    }
    lists
}

/// Refuses a type with too many lists in one another.
fn require_lists<'m>(
    scope: Scope<'m, '_>,
    all: &[Definition<'m>],
    definition: &Definition<'m>,
) -> Result<(), Refusal> {
    for part in definition.parts.iter() {
        if lists_of(all, part) > MAX_LISTS {
            let at = match part.row {
                Some(row) => row.of.first,
                None => definition.of.first,
            };
            return Err(scope.refused(at, "at most 40 lists directly inside one another"));
        }
    }
    Ok(())
}

/// How many cells the row of a type has at most, and what can be read where it has more.
fn limit_of(definition: &Definition<'_>) -> (usize, &'static str) {
    if matches!(definition.of.body, Body::Choice(_)) {
        return (MAX_CELLS, ALTERNATIVES);
    }
    match definition.cycle {
        None => (
            MAX_CELLS,
            "at most 50 components, and in a group as many: others aren't printed yet",
        ),
        Some(_) => (
            MAX_CYCLE_CELLS,
            "at most 30 components of a type that contains itself, and in a group as many: others aren't printed yet",
        ),
    }
}

/// Refuses a type that is too deep for the language.
pub fn require_depth<'m>(
    scope: Scope<'m, '_>,
    all: &[Definition<'m>],
    definition: &Definition<'m>,
    depth: Option<&Depth>,
) -> Result<(), Refusal> {
    require_lists(scope, all, definition)?;
    let (most, limit) = limit_of(definition);
    match depth {
        Some(depth) if depth.cells > most => Err(scope.refused(definition.of.first, limit)),
        Some(depth) if depth.within > MAX_DEPTH => Err(scope.refused(
            definition.of.first,
            "a type that is at most 64 deep in Rust, as docs/COMPILER.md counts it: what a list holds is counted anew",
        )),
        _ => Ok(()),
    }
}

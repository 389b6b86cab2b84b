//! A component as a cell of a row.

use crate::defaults::{Wish, push_default};
use crate::items::push_limits;
use crate::notes::push_note;
use crate::shapes::shape_of;
use crate::text::Text;
use asn1_core::{Class, Tag};
use oergen_layouts::definitions::{Definition, Part, Tie};
use oergen_layouts::rows::Row;
use oergen_layouts::scope::Scope;
use oergen_parse::ast::Need;
use oergen_parse::lexer::TokenId;
use oergen_parse::refusal::Refusal;
use std::alloc::{AllocError, Global};
use std::collections::BTreeMap;

/// What stands in front of a field or a variant.
const INDENT: &str = "    ";

/// How many defaults may stand in one another.
const MAX_LEVELS: u32 = 64;

/// A cell of a row, as it is printed.
#[derive(Drop)]
pub struct Cell {
    /// The comments in front of the component, as documentation.
    pub note: Text,
    /// The field's name.
    pub field: Text,
    /// The field's type.
    pub field_type: Text,
    /// The component's name as the name of a type.
    pub camel: Text,
    /// The cell's own name.
    pub head: &'static str,
    /// Its arguments before the row behind it, a line each.
    pub arguments: Text,
    /// Its line in the table, less the index.
    pub entry: Text,
    /// Whether the type holds knots of its cycle.
    pub holds_knot: bool,
}

impl Cell {
    /// A cell without texts.
    fn new(alloc: Global, head: &'static str) -> Cell {
        Cell {
            note: Text::new(alloc),
            field: Text::new(alloc),
            field_type: Text::new(alloc),
            camel: Text::new(alloc),
            head,
            arguments: Text::new(alloc),
            entry: Text::new(alloc),
            holds_knot: false,
        }
    }

    /// The cell of a type that leads back into its cycle so: one for what holds knots has a name of its own.
    fn tied(self, tie: Tie) -> Cell {
        if tie == Tie::Plain {
            return self;
        }
        let head = match self.head {
            "Required" => "RequiredKnot",
            "Optional" => "OptionalKnot",
            "OptionalAddition" => "OptionalAdditionKnot",
            "Alternative" => "AlternativeKnot",
            other => other,
        };
        Cell {
            head,
            holds_knot: true,
            ..self
        }
    }

    /// The cell; refused where memory was refused for a piece of it.
    fn end(self) -> Result<Cell, AllocError> {
        let is_whole = self.field.is_whole() && self.field_type.is_whole() && self.camel.is_whole();
        let is_whole = is_whole && self.note.is_whole();
        if is_whole && self.arguments.is_whole() && self.entry.is_whole() {
            Ok(self)
        } else {
            Err(AllocError)
        }
    }
}

/// The class of a tag, as a table and a row write it.
fn class_of(tag: Tag) -> &'static str {
    match tag.class {
        Class::Universal => "Universal",
        Class::Application => "Application",
        Class::Context => "Context",
        Class::Private => "Private",
    }
}

/// Where what a cell is of stands.
#[derive(Clone, Copy, PartialEq, Eq)]
pub enum Place {
    Root,
    Addition,
    Alternative,
}

/// The cell's name, the word of its table, and whether the field's type is an Option: as of an addition that may be left out, since
/// an older sender leaves it out whatever its need is.
fn need_of(need: &Need, place: Place) -> (&'static str, &'static str, bool) {
    match (need, place) {
        (_, Place::Alternative) => ("Alternative", "", false),
        (Need::Required, Place::Root) => ("Required", "Required ", false),
        (Need::Optional, Place::Root) => ("Optional", "Optional ", true),
        (Need::Required | Need::Optional, Place::Addition) => (
            "OptionalAddition",
            "Optional ",
            true,
        ),
        (Need::Default(_), Place::Root) => ("Defaulted", "Default ", false),
        (Need::Default(_), Place::Addition) => ("DefaultedAddition", "Default ", false),
    }
}

/// A type's name with a component's behind it.
fn camel_of(alloc: Global, owner: &str, name: &str) -> Text {
    let mut out = Text::of(alloc, &[owner]);
    out.push_type_name(name);
    out
}

/// A type's name with a component's behind it, and the `_` that tell its Rust name from another's.
pub fn own_name(alloc: Global, owner: &str, part: &Part<'_>) -> Text {
    let mut out = camel_of(alloc, owner, part.name.as_str());
    let rust = part.rust_name.as_str();
    let marks = rust.len().saturating_sub(rust.trim_end_matches('_').len());
    out.push_times("_", marks);
    out
}

/// The name of a variant: as a type's, with `R` in front of one of those words.
pub fn variant_name(alloc: Global, name: &str, kept: &str) -> Text {
    let own = camel_of(alloc, "", name);
    if !kept.split(' ').any(|word| word == own.as_str()) {
        return own;
    }
    let mut out = Text::of(alloc, &["R"]);
    out.push_text(&own);
    out
}

/// The Rust names of what stands in a type so far, each with what the module calls it.
pub type Names<'a> = BTreeMap<String, &'a str>;

/// Puts a Rust name to those so far, with what the module calls it. Refused at a token where another has it.
pub fn see_name<'a>(
    scope: Scope<'_, '_>,
    seen: &mut Names<'a>,
    named: (String, &'a str),
    at: TokenId,
    reads: &str,
) -> Result<(), Refusal> {
    let (name, text) = named;
    if let Some(other) = seen.get(name.as_str()) {
        return Err(scope.refused_beside(at, reads, (text, *other), name.as_str()));
    }
    seen.insert(name, text)?;
    Ok(())
}

/// Appends a tag: its class and its number, with texts around the number.
fn push_tag(out: &mut Text, tag: Tag, front: &str, behind: &str) {
    out.push(class_of(tag));
    out.push(front);
    out.push_number(i128::from(tag.value));
    out.push(behind);
}

/// A component's Rust type without an Option; its limits are printed, under the name `own`.
fn push_shape<'m>(
    scope: Scope<'m, '_>,
    all: &[Definition<'m>],
    out: &mut Text,
    own: &str,
    part: &Part<'m>,
    row: Row<'m>,
) -> Result<String, Refusal> {
    let shape = shape_of(scope, all, part, row.of, own)?;
    if let Some(limits) = shape.limits {
        push_limits(scope, out, own, limits, row.of.first)?;
    }
    Ok(shape.text.end()?)
}

/// The type that stands for a component's default, which is printed under the name `own`; nothing where it has none.
fn push_own_default<'m>(
    scope: Scope<'m, '_>,
    all: &[Definition<'m>],
    out: &mut Text,
    own: &str,
    row: Row<'m>,
    rust: &str,
) -> Result<Option<Text>, Refusal> {
    match row.need {
        Need::Default(value) => {
            let wish = Wish {
                name: own,
                rust,
                levels: MAX_LEVELS,
            };
            Ok(Some(push_default(scope, all, out, row, value, wish)?.name))
        }
        Need::Required | Need::Optional => Ok(None),
    }
}

/// A cell by its names, its Rust type and its default.
fn made_cell(
    alloc: Global,
    names: (&str, &str),
    row: Row<'_>,
    rust: &str,
    default: Option<Text>,
    place: Place,
) -> Cell {
    let (name, field) = names;
    let tag = row.tag.unwrap_or(Tag::EOC);
    let (head, presence, is_option) = need_of(row.need, place);
    let mut cell = Cell::new(alloc, head);
    cell.field.push(field);
    let around = if is_option {
        ("Option<", ">")
    } else {
        ("", "")
    };
    cell.field_type.push_all(&[around.0, rust, around.1]);
    push_tag(&mut cell.arguments, tag, "<", ">\n");
    cell.arguments.push(rust);
    if let Some(default) = default {
        cell.arguments.push("\n");
        cell.arguments.push_text(&default);
    }
    cell.entry.push(presence);
    push_tag(&mut cell.entry, tag, " ", "");
    if place != Place::Alternative {
        cell.camel.push_type_name(name);
        cell.entry.push_all(&[" \"", name, "\""]);
    }
    cell
}

/// The cell of a component or an alternative. Its limits and its default are printed before.
pub fn cell_of<'m>(
    scope: Scope<'m, '_>,
    all: &[Definition<'m>],
    out: &mut Text,
    owner: &str,
    part: &Part<'m>,
    row: Row<'m>,
    place: Place,
) -> Result<Cell, Refusal> {
    let name = part.name.as_str();
    let own = own_name(scope.alloc, owner, part).end()?;
    let rust = push_shape(scope, all, out, own.as_str(), part, row)?;
    let default = push_own_default(scope, all, out, own.as_str(), row, rust.as_str())?;
    let names = (name, part.rust_name.as_str());
    let mut cell = made_cell(scope.alloc, names, row, rust.as_str(), default, place);
    push_note(&mut cell.note, scope.token(row.name).note, INDENT);
    Ok(cell.tied(part.tie).end()?)
}

/// The cell of an addition group, whose sequence is a type of its own.
pub fn group_cell(
    alloc: Global,
    group: &str,
    number: usize,
    roots: usize,
) -> Result<Cell, AllocError> {
    let mut cell = Cell::new(alloc, "AdditionGroup");
    cell.field.push("group_");
    cell.field.push_count(number);
    cell.field_type.push_all(&["Option<", group, ">"]);
    cell.camel.push("Group");
    cell.camel.push_count(number);
    cell.arguments.push_count(roots);
    cell.arguments.push_all(&["\n0\n", group]);
    cell.entry.push("Optional Universal 16 \"group ");
    cell.entry.push_count(number);
    cell.entry.push("\"");
    cell.end()
}

/// The cell of a part of a CHOICE's alternatives, by their cells, its name and its number.
pub fn part_cell(
    alloc: Global,
    cells: &[Cell],
    name: &Text,
    number: usize,
) -> Result<Cell, AllocError> {
    let mut cell = Cell::new(alloc, "Part");
    if let Some(first) = cells.first() {
        cell.field.push_text(&first.field);
        let first = first.field.as_str();
        cell.note
            .push_all(&[INDENT, "/// From `", first, "` on.\n"]);
    }
    cell.field_type.push_text(name);
    cell.camel.push("Part");
    cell.camel.push_count(number.saturating_add(1));
    cell.arguments.push_text(name);
    cell.end()
}

/// The variant of a part that is only read, by the alternative's cell and its name.
pub fn own_cell(alloc: Global, of: &Cell, name: &Text) -> Result<Cell, AllocError> {
    let mut cell = Cell::new(alloc, of.head);
    cell.field_type.push_text(&of.field_type);
    cell.camel.push_text(name);
    cell.end()
}

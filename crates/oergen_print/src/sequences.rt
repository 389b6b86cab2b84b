//! A SEQUENCE or a SET: its struct, its row, its tables and its conversions.
ghost use Rattle.std.specs.Prelude.{◌≡◌, false, true, IfOk};
ghost use Rattle.oergen_print.specs.SetOrder.{AreInTagOrder, places_from, roots_from};

use crate::cells::{Cell, Place, cell_of, group_cell};
use crate::chains::{Chain, push_row};
use crate::choices::push_table_name;
use crate::knot_templates::KNOT_ROWED;
use crate::knots::{knot_name, owner_words};
use crate::part_names::require_identifiers;
use crate::set_order::{put_set_order, text_order};
use crate::templates::{IN_TAG_ORDER, MEMBERS, TABLES, TYPE, USES_BOTH};
use crate::text::{Text, Words};
use oergen_layouts::definitions::{Definition, Part};
use oergen_layouts::rows::Position;
use oergen_layouts::scope::Scope;
use oergen_parse::ast::Body;
use oergen_parse::refusal::Refusal;
use std::alloc::{AllocError, Global};
use std::collections::BTreeMap;

/// A field of a struct, in a line of its own.
fn push_field(out: &mut Text, cell: &Cell) {
    out.push("\n");
    out.push_text(&cell.note);
    let (name, rust) = (cell.field.as_str(), cell.field_type.as_str());
    out.push_all(&["    pub ", name, ": ", rust, ","]);
}

/// Fields of a struct.
fn push_some_fields(out: &mut Text, cells: &[Cell]) {
    for cell in cells.iter() {
        push_field(out, cell);
    }
}

/// The fields of the root components of a SET, in the order of its text.
fn push_root_fields(out: &mut Text, of: Chain<'_>) {
    for at in of.in_text.iter() {
        if let Some(cell) = of.roots().get(*at) {
            push_field(out, cell);
        }
    }
}

/// The fields of a struct, in the order of its text.
fn push_fields(out: &mut Text, of: Chain<'_>) {
    let mut fields = Text::new(out.alloc());
    push_root_fields(&mut fields, of);
    let others = if of.in_text.is_empty() {
        of.cells
    } else {
        of.additions()
    };
    push_some_fields(&mut fields, others);
    out.push_replaced(fields.as_str(), "\n", "\n    ");
    out.push(if of.cells.is_empty() { "" } else { "\n    " });
    out.heed(&fields);
}

/// The structs that hold the rest of a row from a cell on, of its values and of references to them, a line by themselves.
fn push_holders(out: &mut Text, of: Chain<'_>, at: usize) {
    let mut rest = Text::new(out.alloc());
    of.push_rest(&mut rest, at);
    let rest = rest.as_str();
    out.push_all(&[";\n            ", rest, "Values ", rest, "View:\n"]);
}

/// The names of the fields, a line each, with the structs that hold those of a long row.
fn push_list(out: &mut Text, of: Chain<'_>) {
    for (index, cell) in of.cells.iter().enumerate() {
        if of.is_held_from(index) {
            push_holders(out, of, index);
        } else if index != 0 {
            out.push(",\n");
        }
        out.push_all(&["            ", cell.field.as_str()]);
    }
}

/// What ends the pairs of a value's fields but the first, the last one first.
fn push_ends(out: &mut Text, of: Chain<'_>) {
    let count = of.cells.len();
    for passed in 1..count {
        let index = count.saturating_sub(passed);
        out.push(if of.is_held_from(index) { " })" } else { ")" });
    }
}

/// A value's fields, one behind another as a row has them.
fn push_pairs(out: &mut Text, of: Chain<'_>) {
    for (index, cell) in of.cells.iter().enumerate() {
        if of.is_held_from(index) {
            out.push("(record { 0 = both v.");
        } else {
            out.push(if index == 0 { "both v." } else { "(both v." });
        }
        out.push_all(&[cell.field.as_str(), " "]);
    }
    out.push("tt");
    push_ends(out, of);
}

/// Components as a table of the library has them, a line each, and what begins its lines.
fn push_entries(out: &mut Text, cells: &[Cell], indent: &str) {
    if cells.is_empty() {
        out.push("&[]");
        return;
    }
    out.push("fields![");
    for (index, cell) in cells.iter().enumerate() {
        out.push_all(&[if index == 0 { "" } else { "," }, indent, "    "]);
        out.push_count(index);
        out.push_all(&[" ", cell.entry.as_str()]);
    }
    out.push_all(&[indent, "]"]);
}

/// A table of components: a constant of the module in a cycle, else its components.
fn push_table(out: &mut Text, of: Chain<'_>, part: &str, cells: &[Cell]) {
    if of.knot.is_none() && cells.is_empty() {
        out.push("Fields { fields: &[] }");
        return;
    }
    out.push("Fields {\n        fields: ");
    if of.knot.is_some() {
        push_table_name(out, of.owner, part);
    } else {
        push_entries(out, cells, "\n        ");
    }
    out.push(",\n    }");
}

/// The table of additions.
fn push_additions(out: &mut Text, of: Chain<'_>) {
    if !of.is_extensible {
        out.push("None");
        return;
    }
    out.push("Some(");
    push_table(out, of, "ADDITIONS", of.additions());
    out.push(")");
}

/// Says what names the tables of components: in a cycle constants of the module, which are printed, else those of the impl.
fn put_table_names(words: &mut Words, of: Chain<'_>) {
    if of.knot.is_none() {
        words.put("ROOT_FIELDS", "Self::FIELDS.fields");
        words.put("ADDITION_FIELDS", "rows_of!(Self::EXTENDED_FIELDS)");
        return;
    }
    push_table_name(words.begin("ROOT_FIELDS"), of.owner, "COMPONENTS");
    if of.is_extensible {
        push_table_name(words.begin("ADDITION_FIELDS"), of.owner, "ADDITIONS");
    } else {
        words.put("ADDITION_FIELDS", "&[]");
    }
    let constants = words.begin("CONSTANTS");
    push_constant(constants, of.owner, "COMPONENTS", of.roots());
    if of.is_extensible {
        push_constant(constants, of.owner, "ADDITIONS", of.additions());
    }
}

/// Prints a constant of components.
fn push_constant(out: &mut Text, owner: &str, part: &str, cells: &[Cell]) {
    out.push("const ");
    push_table_name(out, owner, part);
    out.push(": &'static [Field<'static>] = ");
    push_entries(out, cells, "\n");
    out.push(";\n\n");
}

/// What stands for the words of the templates of a SEQUENCE or a SET.
fn words_of(alloc: Global, doc: &str, of: Chain<'_>, is_set: bool) -> Words {
    let mut words = owner_words(alloc, doc, of.owner, of.knot);
    words.put("KIND", if is_set { "Set" } else { "Sequence" });
    words.put("USES", if of.cells.is_empty() { "" } else { USES_BOTH });
    words.put("EXT", if of.is_extensible { "true" } else { "false" });
    words.begin("RC").push_count(of.roots().len());
    words.begin("EC").push_count(of.additions().len());
    push_fields(words.begin("FIELDS"), of);
    push_pairs(words.begin("PAIRS"), of);
    push_list(words.begin("LIST"), of);
    push_table(words.begin("ROOTS"), of, "COMPONENTS", of.roots());
    push_additions(words.begin("ADDITIONS"), of);
    put_table_names(&mut words, of);
    words
}

/// Prints a type by its cells.
fn push_members(alloc: Global, out: &mut Text, doc: &str, of: Chain<'_>, is_set: bool) {
    let mut words = words_of(alloc, doc, of, is_set);
    out.fill(TYPE, &words);
    push_row(alloc, out, of);
    out.fill(if of.knot.is_some() { KNOT_ROWED } else { "" }, &words);
    out.fill(MEMBERS, &words);
    out.fill(TABLES, &words);
    if is_set {
        put_set_order(&mut words, of);
        out.fill(IN_TAG_ORDER, &words);
    }
}

/// The root components that have a tag: the class and the number of each, and its place among all.
fn tagged_roots(alloc: Global, parts: &[Part<'_>]) -> Result<Vec<(u8, u32, usize)>, AllocError>
    ensures { IfOk result (λ roots. roots.items ≡ roots_from 0 parts.now) }
{
    let mut roots = Vec::new(alloc);
    for (at, part) in parts.iter().enumerate() {
        if let Some(row) = part.row {
            if let (Position::Root, Some(tag)) = (row.position, row.tag) {
                roots.push((tag.class.number(), tag.value, at))?;
            }
        }
    }
    Ok(roots)
}

/// The root components of a SET in the order of their tags, as places among all.
fn in_tag_order(alloc: Global, parts: &[Part<'_>]) -> Result<Vec<usize>, AllocError>
    ensures { IfOk result (λ places. AreInTagOrder parts.now places.items) }
{
    let mut roots = tagged_roots(alloc, parts)?;
    roots.sort()?;
    roots.iter().map(|root| root.2).collect(alloc)
}

/// The components that stand at a position, as places among all.
pub fn in_text_order(
    alloc: Global,
    parts: &[Part<'_>],
    position: Position,
) -> Result<Vec<usize>, AllocError>
    ensures { IfOk result (λ places. places.items ≡ places_from 0 position parts.now) }
{
    let mut places = Vec::new(alloc);
    for (at, part) in parts.iter().enumerate() {
        if let Some(row) = part.row {
            if row.position == position {
                places.push(at)?;
            }
        }
    }
    Ok(places)
}

/// The cells of components by their places.
fn cells_at<'m>(
    scope: Scope<'m, '_>,
    all: &[Definition<'m>],
    out: &mut Text,
    owner: &str,
    parts: &[Part<'m>],
    places: &[usize],
) -> Result<Vec<Cell>, Refusal> {
    let mut cells = Vec::new(scope.alloc);
    for at in places.iter() {
        if let Some(part) = parts.get(*at) {
            if let Some(row) = part.row {
                cells.push(cell_of(scope, all, out, owner, part, row, Place::Root)?)?;
            }
        }
    }
    Ok(cells)
}

/// Prints the sequence of an addition group, and answers its cell.
fn push_group<'m>(
    scope: Scope<'m, '_>,
    all: &[Definition<'m>],
    out: &mut Text,
    definition: &Definition<'m>,
    number: usize,
) -> Result<Cell, Refusal> {
    let alloc = scope.alloc;
    let owner = definition.rust_name.as_str();
    let parts = definition.parts.as_slice();
    let name = format!(in alloc; "{owner}Group{number}")?;
    let doc = format!(in alloc; "/// The addition group {number} of `{owner}`.\n")?;
    let places = in_text_order(alloc, parts, Position::Group(number))?;
    let cells = cells_at(scope, all, out, name.as_str(), parts, places.as_slice())?;
    let of = Chain::of(name.as_str(), cells.as_slice());
    push_members(alloc, out, doc.as_str(), of, false);
    Ok(group_cell(alloc, name.as_str(), number, cells.len())?)
}

/// Puts the cells of the additions behind others; each group is printed before.
fn push_addition_cells<'m>(
    scope: Scope<'m, '_>,
    all: &[Definition<'m>],
    out: &mut Text,
    definition: &Definition<'m>,
    cells: &mut Vec<Cell>,
) -> Result<(), Refusal> {
    let owner = definition.rust_name.as_str();
    let mut printed = 0usize;
    for part in definition.parts.iter() {
        let Some(row) = part.row else {
            continue;
        };
        let cell = match row.position {
            Position::Addition => cell_of(scope, all, out, owner, part, row, Place::Addition)?,
            Position::Group(number) if number != printed => {
                printed = number;
                push_group(scope, all, out, definition, number)?
            }
            _ => continue,
        };
        cells.push(cell)?;
    }
    Ok(())
}

/// The root components of a SEQUENCE or a SET in the order of the row, as places among all.
pub fn root_places(
    alloc: Global,
    parts: &[Part<'_>],
    is_set: bool,
) -> Result<Vec<usize>, AllocError>
    ensures set { is_set ≡ true → IfOk result (λ places. AreInTagOrder parts.now places.items) }
    ensures sequence { is_set ≡ false → IfOk result (λ places. places.items ≡ places_from 0 Position.Root parts.now) }
{
    if is_set {
        in_tag_order(alloc, parts)
    } else {
        in_text_order(alloc, parts, Position::Root)
    }
}

/// Prints a SEQUENCE or a SET, behind what stands beside it.
pub fn push_sequence<'m>(
    scope: Scope<'m, '_>,
    all: &[Definition<'m>],
    out: &mut Text,
    definition: &Definition<'m>,
    doc: &str,
) -> Result<(), Refusal> {
    let owner = definition.rust_name.as_str();
    let parts = definition.parts.as_slice();
    require_identifiers(scope, parts)?;
    let is_set = matches!(definition.of.body, Body::Set(_));
    let places = root_places(scope.alloc, parts, is_set)?;
    let mut cells = cells_at(scope, all, out, owner, parts, places.as_slice())?;
    let root_count = cells.len();
    let in_text = text_order(scope.alloc, is_set, places.as_slice())?;
    let text_places = text_order(scope.alloc, is_set, in_text.as_slice())?;
    push_addition_cells(scope, all, out, definition, &mut cells)?;
    let of = Chain {
        root_count,
        is_extensible: definition.is_extensible,
        knot: knot_name(all, definition),
        in_text: in_text.as_slice(),
        places: text_places.as_slice(),
        ..Chain::of(owner, cells.as_slice())
    };
    push_members(scope.alloc, out, doc, of, is_set);
    Ok(())
}

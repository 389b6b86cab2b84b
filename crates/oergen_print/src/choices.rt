//! A CHOICE: its enum, its row, its tags and its conversions.

use crate::cells::{Cell, Place, cell_of};
use crate::chains::{Chain, FLAT, push_row};
use crate::kept::choice_holder;
use crate::knot_templates::KNOT_ALTERNATING;
use crate::knots::{knot_name, owner_words};
use crate::part_names::{require_identifiers, variant_names};
use crate::parts::{push_part_cases, push_part_names, push_part_uses, push_parts};
use crate::templates::{CHOICE, CHOICE_IMPLS};
use crate::text::{Text, Words};
use crate::variants::{push_cases, push_names, push_puts, push_variants};
use oergen_layouts::definitions::Definition;
use oergen_layouts::rows::Position;
use oergen_layouts::scope::Scope;
use oergen_parse::refusal::Refusal;
use std::alloc::{AllocError, Global};

/// How many alternatives a printed CHOICE has at most: more weren't tried.
const MAX_ALTERNATIVES: usize = 200;

/// What can be read where a CHOICE has too many alternatives, or none.
pub const ALTERNATIVES: &str =
    "a CHOICE of 1 to 200 alternatives, in a cycle to 24: others aren't printed yet";

/// Appends the name of the table of a CHOICE's tags.
pub fn push_table_name(out: &mut Text, owner: &str, part: &str) {
    out.push_upper(owner);
    out.push_all(&["_", part]);
}

/// Prints a constant of tags.
fn push_constant(out: &mut Text, owner: &str, part: &str, cells: &[Cell]) {
    out.push("const ");
    push_table_name(out, owner, part);
    out.push(": &'static [Tag] = ");
    out.push(if cells.is_empty() { "&[" } else { "tags![" });
    for (at, cell) in cells.iter().enumerate() {
        out.push_all(&[if at == 0 { "" } else { ", " }, cell.entry.as_str()]);
    }
    out.push("];\n\n");
}

/// What names the tags of the additions.
fn push_addition_name(out: &mut Text, of: Chain<'_>) {
    if !of.is_extensible {
        out.push("None");
        return;
    }
    out.push("Some(");
    push_table_name(out, of.owner, "ADDITIONS");
    out.push(")");
}

/// Says what names the tags of a CHOICE: in a cycle constants of the module, else those of the impl.
fn put_tag_names(words: &mut Words, of: Chain<'_>) {
    if of.knot.is_none() {
        words.put("ROOT_TAGS", "Self::VARIANTS");
        words.put("ADDITION_TAGS", "Self::EXTENDED_VARIANTS");
        return;
    }
    push_table_name(words.begin("ROOT_TAGS"), of.owner, "ROOTS");
    push_addition_name(words.begin("ADDITION_TAGS"), of);
}

/// What stands for the words of the templates of a CHOICE, by the chain of its enum's variants.
fn words_of(alloc: Global, doc: &str, of: Chain<'_>) -> Words {
    let mut words = owner_words(alloc, doc, of.owner, of.knot);
    words.put("HOLDER", choice_holder(of.keeps_unknown));
    put_cells(&mut words, of);
    push_part_uses(words.begin("PARTS"), of);
    push_table_name(words.begin("ROOTS"), of.owner, "ROOTS");
    push_addition_name(words.begin("ADDITIONS"), of);
    put_tag_names(&mut words, of);
    words
}

/// Says what each alternative is in the enum, its row and what writes it.
fn put_cells(words: &mut Words, of: Chain<'_>) {
    push_variants(words.begin("VARIANTS"), of.cells);
    push_names(words.begin("LIST"), of.cells, ", ", "");
    if of.has_parts() {
        words.put("FROM", "from_parts!");
        push_part_names(words.begin("NAMES"), of);
        push_part_cases(words.begin("CASES"), of);
    } else {
        words.put("FROM", "from_row!");
        push_names(words.begin("NAMES"), of.cells, ", ", "");
        push_cases(words.begin("CASES"), of.cells);
    }
    push_puts(words.begin("PUTS"), of.cells);
    push_names(words.begin("WEIGHED"), of.cells, " | ", " held ↦ refl");
}

/// Prints a CHOICE, by the chains of its alternatives, of its enum's variants and of its row, with the parts of that row.
fn push_type(
    out: &mut Text,
    doc: &str,
    of: Chain<'_>,
    variants: Chain<'_>,
    row: Chain<'_>,
    parts: &Text,
) {
    let alloc = out.alloc();
    let words = words_of(alloc, doc, variants);
    out.fill(CHOICE, &words);
    out.push_text(parts);
    push_row(alloc, out, row);
    push_constant(out, of.owner, "ROOTS", of.roots());
    if of.is_extensible {
        push_constant(out, of.owner, "ADDITIONS", of.additions());
    }
    if of.knot.is_some() {
        out.fill(KNOT_ALTERNATING, &words);
    }
    out.fill(CHOICE_IMPLS, &words);
}

/// Prints a CHOICE by its cells.
fn push_alternatives(
    alloc: Global,
    out: &mut Text,
    doc: &str,
    of: Chain<'_>,
) -> Result<(), AllocError> {
    let mut text = Text::new(alloc);
    if !of.has_parts() {
        push_type(out, doc, of, of, of, &text);
        return Ok(());
    }
    let mut parts = Vec::new(alloc);
    let root_count = push_parts(&mut text, of, &mut parts)?;
    let row = Chain {
        cells: parts.as_slice(),
        root_count,
        ..of
    };
    if of.holds_parts() {
        push_type(out, doc, of, row, row, &text);
    } else {
        push_type(out, doc, of, of, row, &text);
    }
    Ok(())
}

/// Puts the cells of the root alternatives, or of the others, behind others.
pub fn push_cells<'m>(
    scope: Scope<'m, '_>,
    all: &[Definition<'m>],
    out: &mut Text,
    definition: &Definition<'m>,
    are_roots: bool,
    cells: &mut Vec<Cell>,
) -> Result<(), Refusal> {
    let owner = definition.rust_name.as_str();
    let names = variant_names(scope.alloc, definition.parts.as_slice())?;
    for (part, name) in definition.parts.iter().zip(names.iter()) {
        if let Some(row) = part.row {
            if (row.position == Position::Root) == are_roots {
                let mut cell = cell_of(scope, all, out, owner, part, row, Place::Alternative)?;
                cell.camel = Text::of(scope.alloc, &[name.as_str()]);
                cells.push(cell)?;
            }
        }
    }
    Ok(())
}

/// Prints a CHOICE, behind what stands beside it. Refused where it has too many alternatives.
pub fn push_choice<'m>(
    scope: Scope<'m, '_>,
    all: &[Definition<'m>],
    out: &mut Text,
    definition: &Definition<'m>,
    doc: &str,
) -> Result<(), Refusal> {
    let alloc = scope.alloc;
    let knot = knot_name(all, definition);
    let most = if knot.is_some() {
        FLAT
    } else {
        MAX_ALTERNATIVES
    };
    if definition.parts.is_empty() || definition.parts.len() > most {
        return Err(scope.refused(definition.of.first, ALTERNATIVES));
    }
    require_identifiers(scope, definition.parts.as_slice())?;
    let mut cells = Vec::new(alloc);
    push_cells(scope, all, out, definition, true, &mut cells)?;
    let root_count = cells.len();
    push_cells(scope, all, out, definition, false, &mut cells)?;
    let of = Chain {
        root_count,
        is_extensible: definition.is_extensible,
        is_choice: true,
        knot,
        keeps_unknown: definition.keeps_unknown,
        ..Chain::of(definition.rust_name.as_str(), cells.as_slice())
    };
    Ok(push_alternatives(alloc, out, doc, of)?)
}

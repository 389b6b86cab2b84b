//! The parts of a CHOICE of many alternatives: enums of few, by whose rows they are read. Of very many the CHOICE's own enum holds them.

use crate::cells::{Cell, own_cell, part_cell};
use crate::chains::{Chain, PART, Span, push_aliases};
use crate::templates::{PART_IMPLS, PART_PUTS, PART_TYPE};
use crate::text::{Text, Words};
use crate::variants::{push_cases, push_names, push_puts, push_variants};
use std::alloc::{AllocError, Global};

/// Appends the name of a part by its number.
pub fn push_part_name(out: &mut Text, owner: &str, part: usize) {
    out.push_all(&[owner, "Part"]);
    out.push_count(part.saturating_add(1));
}

/// Appends the variant of a part that is only read, by the place of its alternative among all.
fn push_own(out: &mut Text, at: usize) {
    out.push("At_");
    out.push_count(at);
}

/// The variants of a part that is only read.
fn own_cells(alloc: Global, cells: &[Cell], from: usize) -> Result<Vec<Cell>, AllocError> {
    let mut own = Vec::new(alloc);
    for (within, cell) in cells.iter().enumerate() {
        let mut name = Text::new(alloc);
        push_own(&mut name, from.saturating_add(within));
        own.push(own_cell(alloc, cell, &name)?)?;
    }
    Ok(own)
}

/// The words of a part, by its name, the first of its alternatives and its variants.
fn words_of(of: Chain<'_>, name: &Text, first: &str, variants: &[Cell]) -> Words {
    let (derives, behind) = if of.holds_parts() {
        ("Debug, PartialEq, Eq, Drop", " on.\n")
    } else {
        ("Drop", " on, as they are read.\n")
    };
    let mut words = Words::new(name.alloc());
    words.put("NAME", name.as_str());
    words.put("HOME", "@HOME@");
    words.put("DERIVES", derives);
    let doc = words.begin("DOC");
    doc.push_all(&["/// Alternatives of `", of.owner, "` from `", first, "`"]);
    doc.push(behind);
    push_variants(words.begin("VARIANTS"), variants);
    push_names(words.begin("LIST"), variants, ", ", "");
    push_cases(words.begin("CASES"), variants);
    push_puts(words.begin("PUTS"), variants);
    words
}

/// The words of a part of some cells, the first of them at a place.
fn part_words(
    of: Chain<'_>,
    name: &Text,
    first: &str,
    cells: &[Cell],
    from: usize,
) -> Result<Words, AllocError> {
    if of.holds_parts() {
        return Ok(words_of(of, name, first, cells));
    }
    let own = own_cells(name.alloc(), cells, from)?;
    Ok(words_of(of, name, first, own.as_slice()))
}

/// Prints a part of some cells, and answers its own cell.
fn push_part(out: &mut Text, of: Chain<'_>, span: Span, part: usize) -> Result<Cell, AllocError> {
    let alloc = out.alloc();
    let cells = of.cells.get(span.from..span.to).unwrap_or(&[]);
    let mut name = Text::new(alloc);
    push_part_name(&mut name, of.owner, part);
    let cell = part_cell(alloc, cells, &name, part)?;
    let words = part_words(of, &name, cell.field.as_str(), cells, span.from)?;
    out.fill(PART_TYPE, &words);
    let row = Text::of(alloc, &[name.as_str(), "Row"]);
    push_aliases(out, of, span, &row, &Text::of(alloc, &["End"]));
    out.fill(PART_IMPLS, &words);
    out.fill(if of.holds_parts() { PART_PUTS } else { "" }, &words);
    Ok(cell)
}

/// Prints the parts of the cells of a span, and puts the cell of each behind others.
fn push_some(
    out: &mut Text,
    of: Chain<'_>,
    span: Span,
    parts: &mut Vec<Cell>,
) -> Result<(), AllocError> {
    let count = span.to.saturating_sub(span.from).div_ceil(PART);
    for part in 0..count {
        let from = span.from.saturating_add(part.saturating_mul(PART));
        let to = from.saturating_add(PART).min(span.to);
        let cell = push_part(out, of, Span { from, to }, parts.len())?;
        parts.push(cell)?;
    }
    Ok(())
}

/// Prints the parts of a CHOICE of many alternatives, puts the cell of each behind others, and answers how many are of the root.
pub fn push_parts(
    out: &mut Text,
    of: Chain<'_>,
    parts: &mut Vec<Cell>,
) -> Result<usize, AllocError> {
    let roots = of.roots().len();
    push_some(out, of, Span { from: 0, to: roots }, parts)?;
    let root_parts = parts.len();
    let additions = Span {
        from: roots,
        to: of.cells.len(),
    };
    push_some(out, of, additions, parts)?;
    Ok(root_parts)
}

/// What each alternative is in a row of parts that are only read.
pub fn push_part_cases(out: &mut Text, of: Chain<'_>) {
    for (at, cell) in of.cells.iter().enumerate() {
        let (part, _) = of.place(at);
        let front = if at == 0 { "" } else { " | " };
        out.push_all(&[front, cell.camel.as_str(), " held ↦ "]);
        out.push_times("Rest (", part);
        out.push("First (");
        push_own(out, at);
        out.push(" held)");
        out.push_times(")", part);
    }
}

/// Appends what names the variants of each part that is only read, a line each: nothing where there are none.
pub fn push_part_uses(out: &mut Text, of: Chain<'_>) {
    if !of.has_parts() {
        return;
    }
    for at in 0..of.cells.len() {
        if let (part, 0) = of.place(at) {
            out.push(if at == 0 { "" } else { "};\n" });
            out.push("    ghost use Rattle.@HOME@.");
            push_part_name(out, of.owner, part);
            out.push(".TheVariants.{");
        } else {
            out.push(", ");
        }
        push_own(out, at);
    }
    out.push("};\n");
}

/// Appends the variants of each part with those of the CHOICE that they stand for.
pub fn push_part_names(out: &mut Text, of: Chain<'_>) {
    for (at, cell) in of.cells.iter().enumerate() {
        if let (part, 0) = of.place(at) {
            out.push(if at == 0 { "" } else { "], " });
            push_part_name(out, of.owner, part);
            out.push(" [");
        } else {
            out.push(", ");
        }
        push_own(out, at);
        out.push(" ");
        out.push_text(&cell.camel);
    }
    out.push("]");
}

//! The row of a type, in pieces of few cells each.

use crate::cells::Cell;
use crate::piece_templates::{
    ADDITION_WORDS, HELD_PIECE, HELD_WORDS, KNOT_PARAMETER, KNOT_PIECE_IMPLS, PIECE, PIECE_IMPLS,
    PIECE_WORDS, ROOT_WORDS,
};
use crate::text::{Text, Words};
use std::alloc::Global;

/// How many cells stand in an alias: a longer one is indented too far to be read.
const CELLS: usize = 5;

/// How many cells of a row stand in one another at most, but for their tables: past some more the borrow checker doesn't cover what holds
/// their values. A multiple of `CELLS`.
pub const NESTED: usize = 30;

/// How many characters a line has at most.
const WIDTH: usize = 100;

/// How many alternatives a row has at most that isn't one of parts.
pub const FLAT: usize = 24;

/// How many alternatives a part has.
pub const PART: usize = 16;

/// How many alternatives the enum of a CHOICE has at most: of more it holds their parts, since past some more the language doesn't cover a
/// derived `==`.
pub const HOLDING: usize = 100;

/// The row of a type: its cells, those of the root first, and whether it is extensible.
#[derive(Clone, Copy)]
pub struct Chain<'c> {
    pub owner: &'c str,
    pub cells: &'c [Cell],
    /// How many cells the root has.
    pub root_count: usize,
    pub is_extensible: bool,
    pub is_choice: bool,
    /// The knot of its cycle, where it is of one.
    pub knot: Option<&'c str>,
    /// Of a CHOICE, whether it keeps alternatives of newer versions.
    pub keeps_unknown: bool,
    /// Of a SET, which root cell stands at each place of the text; of another type none.
    pub in_text: &'c [usize],
    /// Of a SET, the place in the text of each root cell; of another type none.
    pub places: &'c [usize],
}

/// Whether one of some cells holds knots.
fn hold_knots(cells: &[Cell]) -> bool {
    cells.iter().any(|cell| cell.holds_knot)
}

/// Appends the parameter of what holds knots.
fn push_parameter(out: &mut Text, cells: &[Cell]) {
    out.push(if hold_knots(cells) { "<K>" } else { "" });
}

impl<'c> Chain<'c> {
    /// The row of a SEQUENCE that has a root alone, and is of no cycle.
    pub fn of(owner: &'c str, cells: &'c [Cell]) -> Chain<'c> {
        Chain {
            owner,
            cells,
            root_count: cells.len(),
            is_extensible: false,
            is_choice: false,
            knot: None,
            keeps_unknown: false,
            in_text: &[],
            places: &[],
        }
    }

    /// The cells of the root.
    pub fn roots(&self) -> &'c [Cell] {
        self.cells.get(..self.root_count).unwrap_or(self.cells)
    }

    /// The cells of the additions.
    pub fn additions(&self) -> &'c [Cell] {
        self.cells.get(self.root_count..).unwrap_or(&[])
    }

    /// Whether the row is one of parts: that of a CHOICE of many alternatives.
    pub fn has_parts(&self) -> bool {
        self.is_choice && self.cells.len() > FLAT
    }

    /// Whether what stands from a cell of a long row on is held by structs of its own: past so many cells of the root, past the root, and
    /// past so many additions.
    pub fn is_held_from(&self, at: usize) -> bool {
        let is_long = !self.is_choice && self.knot.is_none() && self.cells.len() > NESTED;
        let place = at.checked_sub(self.root_count).unwrap_or(at);
        is_long && at != 0 && at < self.cells.len() && place % NESTED == 0
    }

    /// Appends the name of the row from a cell on.
    pub fn push_rest(&self, out: &mut Text, at: usize) {
        if let Some(cell) = self.cells.get(at) {
            out.push_all(&[self.owner, "From"]);
            out.push_text(&cell.camel);
        }
    }

    /// Whether the enum of the CHOICE holds the parts, in place of the alternatives.
    pub fn holds_parts(&self) -> bool {
        self.is_choice && self.cells.len() > HOLDING
    }

    /// How many parts stand in front of the one with a cell, and how many cells in front of it in its part: those of the root and those of
    /// the additions have parts of their own.
    pub fn place(&self, at: usize) -> (usize, usize) {
        let roots = self.roots().chunks(PART).len();
        match at.checked_sub(self.root_count) {
            Some(addition) => (roots.saturating_add(addition / PART), addition % PART),
            None => (at / PART, at % PART),
        }
    }
}

/// The arguments of a cell, each with a text in front and one behind.
fn push_arguments(out: &mut Text, cell: &Cell, front: &str, behind: &str) {
    for argument in cell.arguments.as_str().split('\n') {
        out.push_all(&[front, argument, behind]);
    }
}

/// Cells in one line, with what stands behind them.
fn push_flat(out: &mut Text, cells: &[Cell], end: &Text) {
    for cell in cells.iter() {
        out.push_all(&[cell.head, "<"]);
        push_arguments(out, cell, "", ", ");
    }
    out.push_text(end);
    out.push_times(">", cells.len());
}

/// A cell that is broken into lines, up to where the row behind it begins.
fn push_broken(alloc: Global, out: &mut Text, cell: &Cell, level: usize) {
    let mut indent = Text::new(alloc);
    indent.push_times("    ", level.saturating_add(1));
    out.push_all(&[cell.head, "<\n"]);
    push_arguments(out, cell, indent.as_str(), ",\n");
    out.push_text(&indent);
}

/// The end of an alias of which so many cells are broken into lines.
fn push_closing(out: &mut Text, broken: usize) {
    for level in 1..broken.saturating_add(1) {
        out.push(",\n");
        out.push_times("    ", broken.saturating_sub(level));
        out.push(">");
    }
    out.push(";\n\n");
}

/// The alias of a chain, laid out as rustfmt does.
fn push_alias(alloc: Global, out: &mut Text, name: &Text, cells: &[Cell], end: &Text) {
    out.push("type ");
    out.push_text(name);
    out.push(" = ");
    let mut column = name.len().saturating_add(8);
    let mut broken = 0usize;
    for (level, cell) in cells.iter().enumerate() {
        let mut rest = Text::new(alloc);
        push_flat(&mut rest, cells.get(level..).unwrap_or(&[]), end);
        out.heed(&rest);
        if column.saturating_add(rest.len()) < WIDTH {
            break;
        }
        push_broken(alloc, out, cell, level);
        broken = broken.saturating_add(1);
        column = broken.saturating_mul(4);
    }
    push_flat(out, cells.get(broken..).unwrap_or(&[]), end);
    push_closing(out, broken);
}

/// What an alias that isn't the first of its row is.
fn push_doc(out: &mut Text, of: Chain<'_>, cells: &[Cell]) {
    let parts = if of.is_choice {
        "alternatives"
    } else {
        "components"
    };
    if let Some(cell) = cells.first() {
        let field = cell.field.as_str();
        out.push_all(&[
            "/// The ", parts, " of `", of.owner, "` from `", field, "` on.\n",
        ]);
    }
}

/// Cells of a row: the place of the first, and the one behind the last.
#[derive(Clone, Copy)]
pub struct Span {
    pub from: usize,
    pub to: usize,
}

/// The name of the alias that begins at a place of a span; where the span begins or ends there, another.
fn name_in(alloc: Global, of: Chain<'_>, span: Span, at: usize, otherwise: &Text) -> Text {
    let behind = of.cells.get(at..).unwrap_or(&[]);
    let mut name = Text::new(alloc);
    if span.from < at && at < span.to {
        of.push_rest(&mut name, at);
        push_parameter(&mut name, behind);
    } else {
        name.push_text(otherwise);
    }
    name
}

/// What stands for the words of the templates of a piece from a cell on.
fn piece_words(alloc: Global, of: Chain<'_>, from: usize) -> Words {
    let mut words = Words::new(alloc);
    of.push_rest(words.begin("NAME"), from);
    words.put("EXT", if of.is_extensible { "true" } else { "false" });
    if hold_knots(of.cells.get(from..).unwrap_or(&[])) {
        words.fill_all(KNOT_PARAMETER);
    }
    words.put_filled("ROW", "@NAME@Row@K@");
    words.fill_all(if from > of.root_count {
        ADDITION_WORDS
    } else {
        ROOT_WORDS
    });
    words.fill_all(PIECE_WORDS);
    words
}

/// Prints a piece of a row as a type, with the alias of its own cells, from one on.
fn push_piece(out: &mut Text, of: Chain<'_>, from: usize, cells: &[Cell], end: &Text) {
    let alloc = out.alloc();
    let mut words = piece_words(alloc, of, from);
    out.fill(PIECE, &words);
    push_alias(alloc, out, &words.filled("@ROW@"), cells, end);
    if of.is_held_from(from) {
        out.fill(HELD_PIECE, &words);
        words.fill_all(HELD_WORDS);
    }
    out.fill(PIECE_IMPLS, &words);
    out.fill(
        if of.knot.is_some() {
            KNOT_PIECE_IMPLS
        } else {
            ""
        },
        &words,
    );
}

/// Prints cells in aliases of few, of which the first is named, with `end` behind the last cell.
pub fn push_aliases(out: &mut Text, of: Chain<'_>, span: Span, first: &Text, end: &Text) {
    let alloc = out.alloc();
    let cells = of.cells.get(span.from..span.to).unwrap_or(&[]);
    if cells.is_empty() {
        push_alias(alloc, out, first, cells, end);
    }
    for (number, part) in cells.chunks(CELLS).enumerate() {
        let start = span.from.saturating_add(number.saturating_mul(CELLS));
        let own = name_in(alloc, of, span, start, first);
        let end = name_in(alloc, of, span, start.saturating_add(CELLS), end);
        if number != 0 {
            push_doc(out, of, part);
        }
        if number != 0 && !of.is_choice {
            push_piece(out, of, start, part, &end);
        } else {
            push_alias(alloc, out, &own, part, &end);
        }
    }
}

/// A name with another behind it, and the parameter where cells hold knots.
fn named(alloc: Global, owner: &str, behind: &str, cells: &[Cell]) -> Text {
    let mut name = Text::of(alloc, &[owner, behind]);
    push_parameter(&mut name, cells);
    name
}

/// What stands behind the last root component, or the last root alternative.
fn end_of_roots(alloc: Global, of: Chain<'_>) -> Text {
    let mut end = Text::new(alloc);
    if !of.is_extensible {
        end.push("End");
    } else if of.additions().is_empty() {
        end.push("Extensible<End>");
    } else {
        end.push_all(&["Extensible<", of.owner, "Additions"]);
        push_parameter(&mut end, of.additions());
        end.push(">");
    }
    end
}

/// Prints the row of a type, `OWNERRow`: what stands in its root, and behind that its additions.
pub fn push_row(alloc: Global, out: &mut Text, of: Chain<'_>) {
    let row = named(alloc, of.owner, "Row", of.cells);
    let roots = Span {
        from: 0,
        to: of.roots().len(),
    };
    if of.is_held_from(roots.to) {
        let mut rest = Text::new(alloc);
        of.push_rest(&mut rest, roots.to);
        push_aliases(out, of, roots, &row, &rest);
        push_doc(out, of, of.additions());
        push_piece(out, of, roots.to, &[], &end_of_roots(alloc, of));
    } else {
        push_aliases(out, of, roots, &row, &end_of_roots(alloc, of));
    }
    if !of.additions().is_empty() {
        let name = named(alloc, of.owner, "Additions", of.additions());
        let end = named(alloc, "End", "", &[]);
        let additions = Span {
            from: roots.to,
            to: of.cells.len(),
        };
        push_aliases(out, of, additions, &name, &end);
    }
}

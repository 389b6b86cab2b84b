//! The variants of an enum of alternatives, by their cells.

use crate::cells::Cell;
use crate::text::Text;

/// The variants of an enum, each with what it holds, a line each.
pub fn push_variants(out: &mut Text, cells: &[Cell]) {
    for cell in cells.iter() {
        out.push_text(&cell.note);
        out.push_all(&[
            "    ",
            cell.camel.as_str(),
            "(",
            cell.field_type.as_str(),
            "),\n",
        ]);
    }
}

/// The names of variants, each but the first with a text in front, and each with one behind it.
pub fn push_names(out: &mut Text, cells: &[Cell], between: &str, behind: &str) {
    for (at, cell) in cells.iter().enumerate() {
        let front = if at == 0 { "" } else { between };
        out.push_all(&[front, cell.camel.as_str(), behind]);
    }
}

/// What each variant is in a row of them.
pub fn push_cases(out: &mut Text, cells: &[Cell]) {
    for (at, cell) in cells.iter().enumerate() {
        let front = if at == 0 { "" } else { " | " };
        out.push_all(&[front, cell.camel.as_str(), " held ↦ "]);
        out.push_times("Rest (", at);
        out.push("First held");
        out.push_times(")", at);
    }
}

/// What writes each variant, a line each: one that holds a part has no tag of its own.
pub fn push_puts(out: &mut Text, cells: &[Cell]) {
    for cell in cells.iter() {
        out.push_all(&["            Self::", cell.camel.as_str(), "(held) => "]);
        match cell.entry.as_str().split_once(' ') {
            Some((class, number)) => {
                out.push_all(&["put_alternative::<E, _>(encoder, ", class, "::<", number]);
                out.push(">::tag(), held),\n");
            }
            None => out.push("held.put::<E>(encoder),\n"),
        }
    }
}

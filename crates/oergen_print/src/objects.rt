//! A set of information objects: the enum of what open types hold that name it, and what reads it by the id beside them.

use crate::cells::{Cell, see_name, variant_name};
use crate::choices::push_cells;
use crate::templates::{OBJECT_CASE, OBJECT_CLAUSE, OBJECT_VARIANT, OBJECTS_TYPE};
use crate::text::{Text, Words};
use oergen_layouts::definitions::Definition;
use oergen_layouts::scope::Scope;
use oergen_parse::refusal::Refusal;
use oergen_parse::words::{OBJECTS, OBJECTS_BY_FIELD};
use std::alloc::Global;
use std::collections::BTreeMap;

/// How many objects a printed set has at most: what is proved of each is proved at each end of what reads them.
const MAX_OBJECTS: usize = 24;

/// What a set of objects stands for.
#[derive(Clone, Copy, PartialEq, Eq)]
pub enum Objects {
    /// What an open type holds.
    Held,
    /// The sets of what open types of several fields hold.
    ByField,
}

/// What a set of objects stands for; nothing of another type.
pub fn objects_of(scope: Scope<'_, '_>, definition: &Definition<'_>) -> Option<Objects> {
    match scope.text(definition.of.first) {
        OBJECTS => Some(Objects::Held),
        OBJECTS_BY_FIELD => Some(Objects::ByField),
        _ => None,
    }
}

/// The name of a variant: as a type's, with `Id` in front where it is a number.
fn object_name(alloc: Global, name: &str) -> Text {
    let own = variant_name(alloc, name, "Self Other");
    if !name.starts_with(|c: char| c.is_ascii_digit()) {
        return own;
    }
    let mut out = Text::of(alloc, &["Id"]);
    out.push_text(&own);
    out
}

/// The number of an id: of the tag that stands for it.
fn number_of(cell: &Cell) -> &str {
    match cell.entry.as_str().split_once(' ') {
        Some((_, number)) => number,
        None => "",
    }
}

/// What is printed of one object.
fn object_words(alloc: Global, owner: &str, variant: &str, cell: &Cell) -> Words {
    let mut words = Words::new(alloc);
    words.put("NAME", owner);
    words.put("VARIANT", variant);
    words.put("NUMBER", number_of(cell));
    words.begin("TYPE").push_text(&cell.field_type);
    let note = words.begin("NOTE");
    note.push_text(&cell.note);
    note.push(if cell.note.is_empty() {
        ""
    } else {
        "    ///\n"
    });
    words
}

/// The variants of the objects, their clauses, and the cases of what reads them, by templates for each.
fn put_objects(words: &mut Words, objects: &[Words]) {
    for (word, template) in [
        ("VARIANTS", OBJECT_VARIANT),
        ("CLAUSES", OBJECT_CLAUSE),
        ("CASES", OBJECT_CASE),
    ] {
        let out = words.begin(word);
        for one in objects.iter() {
            out.fill(template, one);
        }
    }
}

/// Prints a set of objects, behind what stands beside it; nothing of one that has too many. Refused where two have one Rust name.
pub fn push_objects<'m>(
    scope: Scope<'m, '_>,
    all: &[Definition<'m>],
    out: &mut Text,
    definition: &Definition<'m>,
    doc: &str,
) -> Result<(), Refusal> {
    const READS: &str = "objects whose Rust names differ";
    let alloc = scope.alloc;
    if definition.parts.len() > MAX_OBJECTS {
        return Ok(());
    }
    let owner = definition.rust_name.as_str();
    let mut cells = Vec::new(alloc);
    push_cells(scope, all, out, definition, true, &mut cells)?;
    let mut seen = BTreeMap::new(alloc);
    let mut objects = Vec::new(alloc);
    let mut others = Text::new(alloc);
    for (cell, part) in cells.iter().zip(definition.parts.iter()) {
        let name = object_name(alloc, part.name.as_str()).end()?;
        objects.push(object_words(alloc, owner, name.as_str(), cell))?;
        let named = (name, part.name.as_str());
        see_name(scope, &mut seen, named, definition.of.first, READS)?;
        others.push_all(&["id ≢ ", number_of(cell), " → "]);
    }
    let mut words = Words::new(alloc);
    words.put("NAME", owner);
    words.put("HOME", "@HOME@");
    words.put("DOC", doc);
    words.begin("ELSE").push_text(&others);
    put_objects(&mut words, objects.as_slice());
    out.fill(OBJECTS_TYPE, &words);
    Ok(())
}

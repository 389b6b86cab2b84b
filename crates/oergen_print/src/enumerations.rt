//! An ENUMERATED: its enum, and the list of its values.

use crate::cells::{see_name, variant_name};
use crate::items::push_defined;
use crate::kept::enumeration_holder;
use crate::notes::push_note;
use crate::templates::ENUMERATED;
use crate::text::{Text, Words};
use oergen_layouts::definitions::{Definition, free_name};
use oergen_layouts::numbers::enumerated_numbers;
use oergen_layouts::scope::Scope;
use oergen_parse::ast::Numbered;
use oergen_parse::lexer::TokenId;
use oergen_parse::refusal::Refusal;
use std::alloc::{AllocError, Global};
use std::collections::BTreeMap;

/// A value: the comments in front of it, the name of its variant, and its number.
#[derive(Drop)]
struct Variant {
    note: Text,
    name: String,
    number: i128,
}

/// What can be read where a value isn't printed.
const READS: &str = "a value whose name no other has, and a number of 64 bits";

/// The names of the variants of values, in their order: behind one that a value before has stands a `_`.
fn value_names(scope: Scope<'_, '_>, items: &[Numbered]) -> Result<Vec<String>, AllocError> {
    let mut taken = BTreeMap::new(scope.alloc);
    let mut names = Vec::new(scope.alloc);
    for item in items.iter() {
        let wanted = variant_name(scope.alloc, scope.text(item.name), "Self").end()?;
        names.push(free_name(scope.alloc, &mut taken, wanted.as_str())?)?;
    }
    Ok(names)
}

/// The name of the variant of the value that a module calls so.
pub fn value_name(
    scope: Scope<'_, '_>,
    items: &[Numbered],
    text: &str,
) -> Result<String, AllocError> {
    let names = value_names(scope, items)?;
    for (item, name) in items.iter().zip(names.iter()) {
        if scope.text(item.name) == text {
            return name.clone();
        }
    }
    String::from_str(scope.alloc, text)
}

/// The values. Refused where two have one name, or a number is past 64 bits.
fn variants_of(
    scope: Scope<'_, '_>,
    items: &[Numbered],
    numbers: &[(TokenId, i128)],
) -> Result<Vec<Variant>, Refusal> {
    let mut seen = BTreeMap::new(scope.alloc);
    let mut variants = Vec::new(scope.alloc);
    let names = value_names(scope, items)?;
    for ((id, number), name) in numbers.iter().zip(names.iter()) {
        if i64::try_from(*number).is_err() {
            return Err(scope.refused(*id, READS));
        }
        let text = scope.text(*id);
        let named = (String::from_str(scope.alloc, text)?, text);
        see_name(scope, &mut seen, named, *id, READS)?;
        let mut note = Text::new(scope.alloc);
        push_note(&mut note, scope.token(*id).note, "    ");
        variants.push(Variant {
            note,
            name: name.clone()?,
            number: *number,
        })?;
    }
    Ok(variants)
}

/// Appends a line for each value.
fn push_lines(out: &mut Text, variants: &[Variant]) {
    for one in variants.iter() {
        out.push_text(&one.note);
        out.push_all(&["    ", one.name.as_str(), " = "]);
        out.push_number(one.number);
        out.push(",\n");
    }
}

/// Appends the names, each with texts around it, and with one between any two.
fn push_names(out: &mut Text, variants: &[Variant], between: &str, around: (&str, &str)) {
    for (at, one) in variants.iter().enumerate() {
        let front = if at == 0 { "" } else { between };
        out.push_all(&[front, around.0, one.name.as_str(), around.1]);
    }
}

/// Appends the numbers by the names, for definitions.
fn push_numbers(out: &mut Text, variants: &[Variant]) {
    for (at, one) in variants.iter().enumerate() {
        out.push_all(&[if at == 0 { "" } else { " | " }, one.name.as_str(), " ↦ "]);
        push_defined(out, one.number, true);
    }
}

/// Appends the list of the paths of the values as rustfmt lays it out.
fn push_list(alloc: Global, out: &mut Text, owner: &str, variants: &[Variant]) {
    const ARRAY: usize = 60;
    let front = Text::of(alloc, &["            ", owner, "Values::"]);
    let path = front.as_str().trim_start();
    let mut line = Text::new(alloc);
    push_names(&mut line, variants, ", ", (path, ""));
    out.heed(&front);
    out.heed(&line);
    out.push("&[");
    if line.len() <= ARRAY {
        out.push_text(&line);
        out.push("]");
        return;
    }
    out.push("\n");
    push_names(out, variants, ",\n", (front.as_str(), ""));
    out.push(",\n        ]");
}

/// Prints an ENUMERATED by its values.
fn push_values(
    alloc: Global,
    out: &mut Text,
    definition: &Definition<'_>,
    doc: &str,
    variants: &[Variant],
) {
    let owner = definition.rust_name.as_str();
    let mut words = Words::new(alloc);
    words.put("HOLDER", enumeration_holder(definition.keeps_unknown));
    words.put("HOME", "@HOME@");
    words.put("DOC", doc);
    words.put("NAME", owner);
    push_lines(words.begin("VARIANTS"), variants);
    push_names(words.begin("LIST"), variants, ", ", ("", ""));
    push_numbers(words.begin("NUMBERS"), variants);
    push_names(words.begin("CHAIN"), variants, "", ("", " ∷ "));
    push_names(
        words.begin("LISTED"),
        variants,
        " ↦ (refl, refl) | ",
        ("", ""),
    );
    push_list(alloc, words.begin("PATHS"), owner, variants);
    out.fill(ENUMERATED, &words);
}

/// Prints an ENUMERATED.
pub fn push_enumerated<'m>(
    scope: Scope<'m, '_>,
    out: &mut Text,
    definition: &Definition<'m>,
    items: (&'m [Numbered], usize),
    doc: &str,
) -> Result<(), Refusal> {
    let numbers = enumerated_numbers(scope, items.0, items.1)?;
    let variants = variants_of(scope, items.0, numbers.as_slice())?;
    push_values(scope.alloc, out, definition, doc, variants.as_slice());
    Ok(())
}

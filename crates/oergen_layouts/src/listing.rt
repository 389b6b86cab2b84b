//! The table of types: each in order of use, with its components, their tags, needs and layouts (X.696, clauses 9 to 29).

use crate::definitions::{Definition, Part};
use crate::expansion::tokens_of;
use crate::layouts::{layout_of, lists_of, octets_text, preamble_octets};
use crate::numbers::enumerated_numbers;
use crate::order::{boxes, order_of_use};
use crate::rows::{Position, Row, tag_text};
use crate::scope::Scope;
use crate::untagged::all_definitions;
use crate::values::default_of;
use oergen_parse::ast::{Body, Need, Numbered, Type};
use oergen_parse::lexer::Token;
use oergen_parse::modules::read_tree;
use oergen_parse::refusal::Refusal;
use std::alloc::{AllocError, Global};

/// The table of the modules in the files' texts. Refused at the first place that can't be read or resolved.
pub fn list(alloc: Global, texts: &[&str]) -> Result<String, Refusal> {
    let tokens = tokens_of(alloc, texts)?;
    list_tokens(alloc, tokens.as_slice())
}

/// The table of the modules in the files' tokens.
fn list_tokens(alloc: Global, tokens: &[Token<'_>]) -> Result<String, Refusal> {
    let tree = read_tree(alloc, tokens, false)?;
    list_scope(Scope {
        alloc,
        modules: tree.modules(),
        tokens,
    })
}

/// The table of modules.
fn list_scope(scope: Scope<'_, '_>) -> Result<String, Refusal> {
    let all = all_definitions(scope, false)?;
    let order = order_of_use(scope.alloc, all.as_slice())?;
    let boxed = boxes(scope.alloc, all.as_slice())?;
    let mut out = String::new(scope.alloc);
    for at in order.iter() {
        if let Some(definition) = all.get(*at) {
            push_definition(scope, all.as_slice(), definition, &mut out)?;
            push_parts(
                scope,
                all.as_slice(),
                boxed.as_slice(),
                (*at, definition),
                &mut out,
            )?;
        }
    }
    Ok(out)
}

/// Refuses a type that the table refuses: for its layout, that of a part, or a default.
pub fn require_listed<'m>(
    scope: Scope<'m, '_>,
    all: &[Definition<'m>],
    definition: &Definition<'m>,
) -> Result<(), Refusal> {
    let mut out = String::new(scope.alloc);
    push_definition(scope, all, definition, &mut out)?;
    push_parts(scope, all, &[], (0, definition), &mut out)
}

/// A definition's own line, and the values of an ENUMERATED.
fn push_definition<'m>(
    scope: Scope<'m, '_>,
    all: &[Definition<'m>],
    definition: &Definition<'m>,
    out: &mut String,
) -> Result<(), Refusal> {
    let name = definition.rust_name.as_str();
    let module = scope.module_name(definition.module);
    let mut what = String::new(scope.alloc);
    match definition.parts.first() {
        Some(part) if part.row.is_none() => push_type(scope, all, part, definition.of, &mut what)?,
        _ => what = layout_of(scope, definition.of)?,
    }
    let mark = mark_text(definition);
    out.push_str(format!(in scope.alloc; "{name} of {module}: {what}{mark}\n")?.as_str())?;
    push_preamble(scope, definition, out)?;
    if let Body::Enumerated(items, mark) = &definition.of.body {
        let root = mark.unwrap_or(items.len());
        push_values(scope, items.as_slice(), root, out)?;
    }
    Ok(())
}

/// Whether a CHOICE or an ENUMERATED has an extension mark; of a SEQUENCE and a SET the preamble's line says it.
fn mark_text(definition: &Definition<'_>) -> &'static str {
    match &definition.of.body {
        Body::Choice(_) if definition.is_extensible => ", extensible",
        Body::Enumerated(_, Some(_)) => ", extensible",
        Body::Choice(_) | Body::Enumerated(_, None) | Body::Sequence(_) | Body::Set(_) => "",
        Body::Simple(_) | Body::Integer(_) | Body::BitString(_) | Body::Reference(_) => "",
        Body::SequenceOf(_) | Body::SetOf(_) => "",
    }
}

/// The values of an ENUMERATED, a line each.
fn push_values<'m>(
    scope: Scope<'m, '_>,
    items: &'m [Numbered],
    root: usize,
    out: &mut String,
) -> Result<(), Refusal> {
    let numbers = enumerated_numbers(scope, items, root)?;
    for (at, (name, number)) in numbers.iter().enumerate() {
        let text = scope.text(*name);
        let place = if at < root { "" } else { ", addition" };
        out.push_str(format!(in scope.alloc; "    {text} = {number}{place}\n")?.as_str())?;
    }
    Ok(())
}

/// How many octets the preamble of a SEQUENCE or a SET has (X.696, 16.2).
fn push_preamble<'m>(
    scope: Scope<'m, '_>,
    definition: &Definition<'m>,
    out: &mut String,
) -> Result<(), Refusal> {
    if !matches!(definition.of.body, Body::Sequence(_) | Body::Set(_)) {
        return Ok(());
    }
    let extension = definition.is_extensible;
    let octets = preamble_octets(definition.parts.as_slice(), extension);
    let octets = octets_text(scope.alloc, i128::try_from(octets).unwrap_or(0))?;
    let first = if extension { "with" } else { "without" };
    out.push_str(format!(in scope.alloc;
        "    preamble: {octets}, {first} an extension bit\n"
    )?.as_str())?;
    Ok(())
}

/// A definition's components or alternatives, a line each.
fn push_parts<'m>(
    scope: Scope<'m, '_>,
    all: &[Definition<'m>],
    boxed: &[(usize, usize)],
    definition: (usize, &Definition<'m>),
    out: &mut String,
) -> Result<(), Refusal> {
    let (at, definition) = definition;
    for (place, part) in definition.parts.iter().enumerate() {
        if let Some(row) = part.row {
            push_row(scope, part, row, out)?;
            if !matches!(definition.of.body, Body::Choice(_)) {
                push_need(scope, row, out)?;
            }
            out.push_str(": ")?;
            if boxed.contains(&(at, place)) {
                out.push_str("boxed ")?;
            }
            push_type(scope, all, part, row.of, out)?;
            out.push('\n')?;
        }
    }
    Ok(())
}

/// A component's Rust name, its tag, and whether it is an addition.
fn push_row<'m>(
    scope: Scope<'m, '_>,
    part: &Part<'m>,
    row: Row<'m>,
    out: &mut String,
) -> Result<(), Refusal> {
    let name = part.rust_name.as_str();
    let tag = tag_text(scope.alloc, row.tag)?;
    let place = place_text(scope.alloc, row.position)?;
    out.push_str(format!(in scope.alloc; "    {name} {tag}{place}")?.as_str())?;
    Ok(())
}

/// Whether a component may be left out, and what stands for it then.
fn push_need<'m>(scope: Scope<'m, '_>, row: Row<'m>, out: &mut String) -> Result<(), Refusal> {
    match row.need {
        Need::Required => out.push_str(" required")?,
        Need::Optional => out.push_str(" optional")?,
        Need::Default(value) => {
            out.push_str(" default ")?;
            out.push_str(default_of(scope, row, value)?.as_str())?;
        }
    }
    Ok(())
}

/// Whether a component is an addition.
fn place_text(alloc: Global, position: Position) -> Result<String, AllocError> {
    match position {
        Position::Root => Ok(String::new(alloc)),
        Position::Addition => String::from_str(alloc, " addition"),
        Position::Group(number) => format!(in alloc; " group {number}"),
    }
}

/// The lists around a type, the name of its Rust type, and its layout.
fn push_type<'m>(
    scope: Scope<'m, '_>,
    all: &[Definition<'m>],
    part: &Part<'m>,
    whole: &'m Type,
    out: &mut String,
) -> Result<(), Refusal> {
    out.push_str(lists_of(scope.alloc, whole)?.as_str())?;
    if let Some(target) = part.target.and_then(|t| all.get(t)) {
        out.push_str(target.rust_name.as_str())?;
        out.push_str(", ")?;
    }
    out.push_str(layout_of(scope, part.inner)?.as_str())?;
    Ok(())
}

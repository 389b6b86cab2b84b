//! The parts of a value of a SEQUENCE, a SET or a CHOICE, as a module writes it.

use crate::numbers::first_of;
use crate::rows::{Position, Row};
use crate::scope::Scope;
use oergen_parse::ast::{NamedValue, Need, Value};
use oergen_parse::lexer::TokenId;
use oergen_parse::refusal::Refusal;
use std::alloc::AllocError;
use std::collections::BTreeSet;

/// What can be read where components have other values.
const COMPONENTS: &str =
    "a value for each component that has to have one, and only for components of the type, once each";

/// What can be read where there is no alternative.
const ALTERNATIVE: &str = "an alternative of the CHOICE, ':' and its value";

/// The parts of the value that begins with a token.
fn parts_of<'m>(scope: Scope<'m, '_>, of: TokenId) -> Result<Vec<&'m NamedValue>, AllocError> {
    let mut found = Vec::new(scope.alloc);
    for module in scope.modules.iter() {
        for part in module.parts.iter() {
            if part.of.index == of.index {
                found.push(part)?;
            }
        }
    }
    Ok(found)
}

/// The components of a value of a SEQUENCE or a SET, as they are written. Refused where it has no such form.
pub fn components_of<'m>(
    scope: Scope<'m, '_>,
    value: &Value,
) -> Result<Vec<&'m NamedValue>, Refusal> {
    let first = first_of(value);
    let parts = parts_of(scope, first)?;
    let is_empty = matches!(value, Value::Names(_, names) if names.is_empty());
    if is_empty || !parts.is_empty() && scope.text(first) == "{" {
        return Ok(parts);
    }
    Err(scope.refused(first, COMPONENTS))
}

/// The alternative of a value of a CHOICE. Refused where it has no such form.
pub fn alternative_of<'m>(scope: Scope<'m, '_>, value: &Value) -> Result<&'m NamedValue, Refusal> {
    let first = first_of(value);
    let parts = parts_of(scope, first)?;
    match parts.first() {
        Some(part) if scope.text(first) != "{" => Ok(*part),
        _ => Err(scope.refused(first, ALTERNATIVE)),
    }
}

/// The component or the alternative of that name; nothing where there is none.
pub fn row_named<'m>(scope: Scope<'_, '_>, rows: &[Row<'m>], name: TokenId) -> Option<Row<'m>> {
    let text = scope.text(name);
    rows.iter()
        .copied()
        .find(|row| scope.text(row.name) == text)
}

/// The value of a component; nothing where it has none.
pub fn value_of<'m>(
    scope: Scope<'_, '_>,
    values: &[&'m NamedValue],
    row: Row<'_>,
) -> Option<&'m Value> {
    let text = scope.text(row.name);
    for it in values.iter() {
        if scope.text(it.name) == text {
            return Some(&it.value);
        }
    }
    None
}

/// Refuses values of which one is of no component, or two are of one.
fn require_named(
    scope: Scope<'_, '_>,
    rows: &[Row<'_>],
    values: &[&NamedValue],
) -> Result<(), Refusal> {
    let mut seen = BTreeSet::new(scope.alloc);
    for it in values.iter() {
        let is_new = seen.insert(scope.text(it.name))?;
        if !is_new || row_named(scope, rows, it.name).is_none() {
            return Err(scope.refused(it.name, COMPONENTS));
        }
    }
    Ok(())
}

/// Refuses values of which one is of no component, or two are of one; and at a token values that lack one that has to be there.
pub fn require_components(
    scope: Scope<'_, '_>,
    rows: &[Row<'_>],
    values: &[&NamedValue],
    at: TokenId,
) -> Result<(), Refusal> {
    require_named(scope, rows, values)?;
    for row in rows.iter() {
        let is_needed = row.position == Position::Root && matches!(row.need, Need::Required);
        if is_needed && value_of(scope, values, *row).is_none() {
            return Err(scope.refused(at, COMPONENTS));
        }
    }
    Ok(())
}

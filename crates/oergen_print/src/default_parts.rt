//! Defaults with parts: of a SEQUENCE or a SET by the defaults of its components, of a CHOICE by that of its alternative.

use crate::cells::own_name;
use crate::defaults::{Default, Wish, push_default, push_words, words_of};
use crate::field_defaults::{FieldDefault, Fields, Presence, put_alternative};
use crate::part_names::variant_names;
use crate::sequences::root_places;
use crate::set_order::text_order;
use crate::shapes::shape_of;
use crate::text::{Text, Words};
use oergen_layouts::definitions::{Definition, Part, rows_in};
use oergen_layouts::numbers::first_of;
use oergen_layouts::parts::{alternative_of, components_of, require_components, value_of};
use oergen_layouts::rows::{Position, Row};
use oergen_layouts::scope::Scope;
use oergen_layouts::values::default_of;
use oergen_parse::ast::{Body, NamedValue, Need, Type, Value};
use oergen_parse::lexer::TokenId;
use oergen_parse::refusal::Refusal;
use std::alloc::{AllocError, Global};

/// What can be read where a component's value isn't printed.
const COMPONENTS: &str =
    "a default without a value for a component that has a default of its own, or stands in a group: others aren't printed yet";

/// What can be read where the alternative's value isn't one that is printed.
const ALTERNATIVE: &str =
    "a default that is one of at most 24 alternatives of a CHOICE: others aren't printed yet";

/// What can be read where a type's defaults with parts aren't printed.
const PLAIN: &str =
    "a default with parts of a type of no cycle that keeps nothing unknown, without an empty SET OF: others aren't printed yet";

/// How many alternatives a CHOICE with a default has at most.
const MAX_ALTERNATIVES: usize = 24;

/// The definition of a type whose defaults with parts are printed. Refused where there is none, at a token.
fn definition_at<'d, 'm>(
    scope: Scope<'_, '_>,
    all: &'d [Definition<'m>],
    base: &Type,
    at: TokenId,
) -> Result<&'d Definition<'m>, Refusal> {
    for definition in all.iter() {
        let is_own = definition.of.first.index == base.first.index;
        if is_own && definition.cycle.is_none() && !definition.keeps_unknown {
            return Ok(definition);
        }
    }
    Err(scope.refused(at, PLAIN))
}

/// The Rust type of a component or an alternative, without an Option. Refused where it is held in a box.
fn rust_type<'m>(
    scope: Scope<'m, '_>,
    all: &[Definition<'m>],
    owner: &str,
    part: &Part<'m>,
    row: Row<'m>,
) -> Result<String, Refusal> {
    if part.is_held {
        return Err(scope.refused(row.name, PLAIN));
    }
    let own = own_name(scope.alloc, owner, part).end()?;
    let shape = shape_of(scope, all, part, row.of, own.as_str())?;
    Ok(shape.text.end()?)
}

/// The field of a component that is absent: in a group that of the group, once, at its first component.
fn absent_field<'m>(
    scope: Scope<'m, '_>,
    all: &[Definition<'m>],
    owner: &str,
    part: &Part<'m>,
    row: Row<'m>,
) -> Result<FieldDefault, Refusal> {
    if let Position::Group(number) = row.position {
        return Ok(FieldDefault::no_group(scope.alloc, owner, number));
    }
    let rust = rust_type(scope, all, owner, part, row)?;
    let field = part.rust_name.as_str();
    Ok(FieldDefault::absent(scope.alloc, field, rust.as_str()))
}

/// How a component stands in a default by its value there, and the value that is printed: its own default where it has none. Nothing where it
/// is absent. Refused where such a value isn't printed.
fn given_of<'m>(
    scope: Scope<'_, '_>,
    row: Row<'m>,
    value: Option<&'m Value>,
) -> Result<Option<(Presence, &'m Value)>, Refusal> {
    match (row.need, row.position, value) {
        (_, Position::Group(_), None) => Ok(None),
        (_, Position::Group(_), Some(value)) => Err(scope.refused(first_of(value), COMPONENTS)),
        (Need::Default(own), _, None) => Ok(Some((Presence::Default, own))),
        (Need::Default(_), _, Some(value)) => Err(scope.refused(first_of(value), COMPONENTS)),
        (Need::Required, Position::Root, Some(value)) => Ok(Some((Presence::Required, value))),
        (Need::Required | Need::Optional, _, Some(value)) => {
            Ok(Some((Presence::Optional, value)))
        }
        (Need::Required | Need::Optional, _, None) => Ok(None),
    }
}

/// The default of a component or an alternative of a Rust type, which is printed under a name with the component's behind it.
#[cycle(defaults)]
fn push_part<'m>(
    scope: Scope<'m, '_>,
    all: &[Definition<'m>],
    out: &mut Text,
    row: Row<'m>,
    value: &'m Value,
    wish: Wish<'_, '_>,
    name: &str,
) -> Result<Default, Refusal> {
    let first = first_of(value);
    if matches!(scope.base_of(row.of)?.body, Body::SetOf(_)) {
        return Err(scope.refused(first, PLAIN));
    }
    let Some(levels) = wish.levels.checked_sub(1) else {
        return Err(scope.refused(first, PLAIN));
    };
    let row = Row { name: first, ..row };
    let mut own = Text::of(scope.alloc, &[wish.name, "Default"]);
    own.push_type_name(name);
    let own = own.end()?;
    let inside = Wish {
        name: own.as_str(),
        rust: wish.rust,
        levels,
    };
    push_default(scope, all, out, row, value, inside)
}

/// Puts what a default has for the components of the root, or for the additions, to others.
#[cycle(defaults)]
fn push_fields<'m>(
    scope: Scope<'m, '_>,
    all: &[Definition<'m>],
    out: &mut Text,
    definition: &Definition<'m>,
    values: &[&'m NamedValue],
    wish: Wish<'_, '_>,
    fields: &mut Fields,
) -> Result<(), Refusal> {
    let owner = definition.rust_name.as_str();
    for part in definition.parts.iter() {
        let Some(row) = part.row.filter(|row| fields.takes(row.position)) else {
            continue;
        };
        let field = match given_of(scope, row, value_of(scope, values, row))? {
            None => absent_field(scope, all, owner, part, row)?,
            Some((presence, value)) => {
                let rust = rust_type(scope, all, owner, part, row)?;
                let rust = rust.as_str();
                let inside = Wish {
                    name: wish.name,
                    rust,
                    levels: wish.levels,
                };
                let name = part.name.as_str();
                let of = push_part(scope, all, out, row, value, inside, name)?;
                FieldDefault::given(part.rust_name.as_str(), rust, of, presence)
            }
        };
        fields.push(field, row.position)?;
    }
    Ok(())
}

/// Of which field each cell of a type's row is: those of a SET's root stand in the order of their tags.
fn row_order(
    alloc: Global,
    definition: &Definition<'_>,
    count: usize,
) -> Result<Vec<usize>, AllocError> {
    let is_set = matches!(definition.of.body, Body::Set(_));
    let places = root_places(alloc, definition.parts.as_slice(), is_set)?;
    let in_text = text_order(alloc, is_set, places.as_slice())?;
    let mut order = text_order(alloc, is_set, in_text.as_slice())?;
    for at in order.len()..count {
        order.push(at)?;
    }
    Ok(order)
}

/// Prints the default of a SEQUENCE or a SET.
#[cycle(defaults)]
fn push_components<'m>(
    scope: Scope<'m, '_>,
    all: &[Definition<'m>],
    out: &mut Text,
    definition: &Definition<'m>,
    value: &'m Value,
    wish: Wish<'_, '_>,
) -> Result<Words, Refusal> {
    let alloc = scope.alloc;
    let values = components_of(scope, value)?;
    let values = values.as_slice();
    let rows = rows_in(scope, definition.of)?;
    require_components(scope, rows.as_slice(), values, first_of(value))?;
    let mut fields = Fields::new(alloc, matches!(definition.of.body, Body::Set(_)));
    push_fields(scope, all, out, definition, values, wish, &mut fields)?;
    fields.end_root();
    push_fields(scope, all, out, definition, values, wish, &mut fields)?;
    let order = row_order(alloc, definition, fields.len())?;
    let mut words = words_of(alloc, wish.name, wish.rust, fields.take_memory());
    words.put("OWNER", definition.rust_name.as_str());
    fields.put_words(&mut words, order.as_slice());
    Ok(words)
}

/// The alternative of a CHOICE that a module calls so: its place, it and its row. Refused where there are too many.
fn alternative_at<'p, 'm>(
    scope: Scope<'_, '_>,
    parts: &'p [Part<'m>],
    name: TokenId,
) -> Result<(usize, &'p Part<'m>, Row<'m>), Refusal> {
    let text = scope.text(name);
    for (at, part) in parts.iter().enumerate() {
        match part.row {
            Some(row) if part.name.as_str() == text && parts.len() <= MAX_ALTERNATIVES => {
                return Ok((at, part, row));
            }
            _ => {}
        }
    }
    Err(scope.refused(name, ALTERNATIVE))
}

/// Prints the default of a CHOICE.
#[cycle(defaults)]
fn push_alternative<'m>(
    scope: Scope<'m, '_>,
    all: &[Definition<'m>],
    out: &mut Text,
    definition: &Definition<'m>,
    value: &'m Value,
    wish: Wish<'_, '_>,
) -> Result<Words, Refusal> {
    let chosen = alternative_of(scope, value)?;
    let parts = definition.parts.as_slice();
    let (at, part, row) = alternative_at(scope, parts, chosen.name)?;
    let owner = definition.rust_name.as_str();
    let names = variant_names(scope.alloc, parts)?;
    let rust = rust_type(scope, all, owner, part, row)?;
    let rust = rust.as_str();
    let name = part.name.as_str();
    let inside = Wish {
        name: wish.name,
        rust,
        levels: wish.levels,
    };
    let of = push_part(scope, all, out, row, &chosen.value, inside, name)?;
    let mut words = words_of(scope.alloc, wish.name, wish.rust, true);
    words.put("OWNER", owner);
    put_alternative(&mut words, &of, rust, names.as_slice(), at);
    Ok(words)
}

/// Prints the default of a SEQUENCE, a SET or a CHOICE, behind those of its parts. Refused where those of its type, or of a part, aren't
/// printed.
#[cycle(defaults)]
pub fn push_parts<'m>(
    scope: Scope<'m, '_>,
    all: &[Definition<'m>],
    out: &mut Text,
    row: Row<'m>,
    value: &'m Value,
    wish: Wish<'_, '_>,
) -> Result<Default, Refusal> {
    let text = default_of(scope, row, value)?;
    let base = scope.base_of(row.of)?;
    let definition = definition_at(scope, all, base, first_of(value))?;
    let mut words = if matches!(base.body, Body::Choice(_)) {
        push_alternative(scope, all, out, definition, value, wish)?
    } else {
        push_components(scope, all, out, definition, value, wish)?
    };
    words.begin("TEXT").push_plain(text.as_str());
    Ok(push_words(scope.alloc, out, false, &words))
}

//! Sets of information objects (X.681, 12): as types of what the open types that name them hold, by the id beside them.

use crate::classes::{Keys, keys_of};
use crate::cuts::{inside, is_at, name_length, push_word, range};
use crate::expansion::Source;
use crate::objects::{type_of, value_of};
use crate::unrestricted::behind_tags;
use oergen_parse::lexer::{Kind, Token};
use oergen_parse::words::{OBJECTS, OBJECTS_BY_FIELD, is_reserved};
use std::alloc::AllocError;

/// How many sets may be named by one, and how many names may stand for a number.
const MAX_NAMED: usize = 64;

/// An object: its name, or where it has none the brace in front of it, and what stands between its braces.
#[derive(Clone, Copy)]
struct Object<'m, 'a> {
    first: Token<'a>,
    fields: &'m [Token<'a>],
}

/// What an object has for a field of a type: the type, its id as it is written, and that as a number.
#[derive(Clone, Copy)]
struct Held<'m, 'a> {
    object: Object<'m, 'a>,
    of: &'m [Token<'a>],
    id: Token<'a>,
    number: Token<'a>,
}

/// What stands for sets that weren't looked through so far, and objects.
#[derive(Drop)]
struct Found<'m, 'a> {
    sets: Vec<&'m [Token<'a>]>,
    objects: Vec<Object<'m, 'a>>,
}

/// Puts an element of a set to what was found: an object, or another set.
fn push_element<'m, 'a>(
    source: Source<'m, 'a>,
    element: &'m [Token<'a>],
    found: &mut Found<'m, 'a>,
) -> Result<(), AllocError> {
    let (Some(first), Some(name)) = (element.first(), element.last()) else {
        return Ok(());
    };
    if first.text == "{" {
        let fields = inside(element);
        found.objects.push(Object {
            first: *first,
            fields,
        })?;
        return Ok(());
    }
    let Some(of) = source.find_value(element) else {
        return Ok(());
    };
    let body = source.body(of);
    if !is_at(body, 0, "{") {
        return Ok(());
    }
    if name.kind == Kind::Word {
        found.objects.push(Object {
            first: Token {
                note: first.note,
                ..*name
            },
            fields: inside(body),
        })?;
        return Ok(());
    }
    found.sets.push(inside(body))?;
    Ok(())
}

/// Puts the elements of a set to what was found.
fn push_elements<'m, 'a>(
    source: Source<'m, 'a>,
    set: &'m [Token<'a>],
    found: &mut Found<'m, 'a>,
) -> Result<(), AllocError> {
    let mut depth = 0usize;
    let mut start = 0usize;
    for (at, token) in set.iter().enumerate() {
        if depth == 0 && matches!(token.text, "|" | "UNION" | ",") {
            push_element(source, range(set, start, at), found)?;
            start = at.saturating_add(1);
        }
        depth = token.depth_behind(depth);
    }
    push_element(source, range(set, start, set.len()), found)
}

/// The objects of a set, then those of the sets that it names. What stands between its braces is handed in.
fn objects_of<'m, 'a>(
    source: Source<'m, 'a>,
    set: &'m [Token<'a>],
) -> Result<Vec<Object<'m, 'a>>, AllocError> {
    let alloc = source.scope.alloc;
    let mut found = Found {
        sets: vec![in alloc; set]?,
        objects: Vec::new(alloc),
    };
    for _ in 0..MAX_NAMED {
        let Some(next) = found.sets.pop() else {
            break;
        };
        push_elements(source, next, &mut found)?;
    }
    Ok(found.objects)
}

/// The number that a value is, past names of it: one that is a tag's (X.680, 31.2). Nothing where it is none.
fn number_of<'a>(source: Source<'_, 'a>, value: &[Token<'a>]) -> Option<Token<'a>> {
    let mut last = *value.first()?;
    if value.len() != 1 {
        return None;
    }
    for _ in 0..MAX_NAMED {
        if last.kind != Kind::Word {
            break;
        }
        let of = source.find_value(&[last])?;
        let [next] = source.body(of) else {
            return None;
        };
        last = *next;
    }
    if last.kind == Kind::Number && last.text.parse::<u32>().is_ok() {
        Some(last)
    } else {
        None
    }
}

/// Whether tokens begin with a type that is known: one of X.680's own, or the name of an assigned one.
fn is_known<'a>(source: Source<'_, 'a>, of: &[Token<'a>]) -> bool {
    let behind = behind_tags(of);
    match behind.first() {
        Some(first) => is_reserved(first.text) || source.find(behind).is_some(),
        None => false,
    }
}

/// What an object has for a field of a type; nothing where it has none, where it isn't known, or where its id is no number.
fn held_by<'m, 'a>(
    source: Source<'m, 'a>,
    object: Object<'m, 'a>,
    class: &'m [Token<'a>],
    id: &str,
    field: &str,
) -> Result<Option<Held<'m, 'a>>, AllocError> {
    let Some(of) = type_of(object.fields, class, field) else {
        return Ok(None);
    };
    let Some(value) = value_of(source.scope.alloc, object.fields, class, id)? else {
        return Ok(None);
    };
    let (Some(id), Some(number)) = (value.first(), number_of(source, value)) else {
        return Ok(None);
    };
    if !is_known(source, of) {
        return Ok(None);
    }
    let id = *id;
    Ok(Some(Held {
        object,
        of,
        id,
        number,
    }))
}

/// The name of what is held: the object's, or where it has none its type's; its id where that is no name, or another has it.
fn name_of<'a>(held: Held<'_, 'a>, names: &[&'a str]) -> Token<'a> {
    let own = match held.of.last() {
        Some(_) if held.object.first.kind == Kind::Word => held.object.first,
        Some(last) if name_length(held.of) == held.of.len() && !is_reserved(last.text) => *last,
        Some(_) | None => held.id,
    };
    let named = if names.contains(&own.text) {
        held.id
    } else {
        own
    };
    Token {
        kind: Kind::Word,
        note: held.object.first.note,
        ..named
    }
}

/// Puts a comma behind others, and what is held as an alternative of that name: its tag has the id's number.
fn push_alternative<'a>(
    out: &mut Vec<Token<'a>>,
    held: Held<'_, 'a>,
    name: Token<'a>,
    is_first: bool,
) -> Result<(), AllocError> {
    if !is_first {
        push_word(out, name, Kind::Sign, ",")?;
    }
    out.push(name)?;
    push_word(out, name, Kind::Sign, "[")?;
    out.push(held.number)?;
    push_word(out, name, Kind::Sign, "]")?;
    out.extend_from_slice(held.of)
}

/// Puts the alternatives of a field of a type behind others, one for each id. Answers whether there are some.
fn push_alternatives<'m, 'a>(
    source: Source<'m, 'a>,
    out: &mut Vec<Token<'a>>,
    objects: &[Object<'m, 'a>],
    class: &'m [Token<'a>],
    id: &str,
    field: &str,
) -> Result<bool, AllocError> {
    let mut names = Vec::new(source.scope.alloc);
    let mut numbers = Vec::new(source.scope.alloc);
    for object in objects.iter() {
        let Some(held) = held_by(source, *object, class, id, field)? else {
            continue;
        };
        if numbers.contains(&held.number.text) {
            continue;
        }
        let name = name_of(held, names.as_slice());
        push_alternative(out, held, name, names.is_empty())?;
        names.push(name.text)?;
        numbers.push(held.number.text)?;
    }
    Ok(!names.is_empty())
}

/// Puts the type of what a field of a type holds behind others. Answers whether there is one.
fn push_field<'m, 'a>(
    source: Source<'m, 'a>,
    out: &mut Vec<Token<'a>>,
    objects: &[Object<'m, 'a>],
    class: &'m [Token<'a>],
    keys: (&str, &'a str),
    at: Token<'a>,
) -> Result<bool, AllocError> {
    let (id, field) = keys;
    let mark = out.len();
    push_word(out, at, Kind::Name, OBJECTS)?;
    push_word(out, at, Kind::Sign, "{")?;
    if !push_alternatives(source, out, objects, class, id, field)? {
        out.truncate(mark);
        return Ok(false);
    }
    push_word(out, at, Kind::Sign, "}")?;
    Ok(true)
}

/// Puts the types of what fields hold behind others, each behind the field's name. Answers whether there are some.
fn push_fields<'m, 'a>(
    source: Source<'m, 'a>,
    out: &mut Vec<Token<'a>>,
    objects: &[Object<'m, 'a>],
    class: &'m [Token<'a>],
    keys: &Keys<'a>,
    at: Token<'a>,
) -> Result<bool, AllocError> {
    let mut is_first = true;
    for field in keys.types.iter() {
        let mark = out.len();
        if !is_first {
            push_word(out, at, Kind::Sign, ",")?;
        }
        out.push(Token {
            kind: Kind::Word,
            text: *field,
            note: "",
            ..at
        })?;
        if push_field(source, out, objects, class, (keys.id, *field), at)? {
            is_first = false;
        } else {
            out.truncate(mark);
        }
    }
    Ok(!is_first)
}

/// Puts what a set of objects stands for behind others, where it has objects with types and ids: the name, and the type of what its
/// class's field of a type holds, or those types if there are more such fields. The set begins with its brace.
pub(crate) fn push_object_set<'m, 'a>(
    source: Source<'m, 'a>,
    out: &mut Vec<Token<'a>>,
    name: Token<'a>,
    class: &'m [Token<'a>],
    set: &'m [Token<'a>],
) -> Result<(), AllocError> {
    let Some(keys) = keys_of(source.scope.alloc, inside(range(class, 1, class.len())))? else {
        return Ok(());
    };
    let objects = objects_of(source, inside(set))?;
    let objects = objects.as_slice();
    let mark = out.len();
    let at = Token { note: "", ..name };
    out.push(name)?;
    push_word(out, at, Kind::Sign, "::=")?;
    let is_some = if let [field] = keys.types.as_slice() {
        push_field(source, out, objects, class, (keys.id, *field), at)?
    } else {
        push_word(out, at, Kind::Name, OBJECTS_BY_FIELD)?;
        push_word(out, at, Kind::Sign, "{")?;
        let is_some = push_fields(source, out, objects, class, &keys, at)?;
        push_word(out, at, Kind::Sign, "}")?;
        is_some
    };
    if !is_some {
        out.truncate(mark);
    }
    Ok(())
}

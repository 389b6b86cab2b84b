//! Reads values (X.680, clause 17).

use crate::ast::{NamedValue, Numbered, Reference, Value};
use crate::lengths::choices_length;
use crate::lexer::{Kind, TokenId};
use crate::reader::Reader;
use crate::refusal::Refusal;
use crate::words::is_reserved;

const VALUE: &str =
    "a number, a string, TRUE, FALSE, NULL, a value's name, or names between braces";

/// How deep the parts of a value are read.
const MAX_LEVELS: u32 = 64;

/// A value.
pub fn read_value(reader: &mut Reader<'_>) -> Result<Value, Refusal> {
    let first = reader.peek();
    match first.kind {
        Kind::Number | Kind::Bits | Kind::Hex | Kind::Text => Ok(Value::Literal(reader.next())),
        Kind::Word => Ok(Value::Reference(Reference {
            module: None,
            name: reader.next(),
        })),
        Kind::Name => read_named(reader),
        Kind::Sign if first.text == "-" => {
            let _ = reader.next();
            Ok(Value::Negative(reader.takes(Kind::Number, "a number")?))
        }
        Kind::Sign if first.text == "{" => read_braces(reader),
        _ => Err(reader.refused(VALUE)),
    }
}

/// A value, also one of a CHOICE or an open type, as `name:value` and `Type:value`: by its first token.
pub fn read_any_value(reader: &mut Reader<'_>) -> Result<Value, Refusal> {
    let first = reader.id();
    let choices = choices_length(reader.rest());
    reader.skip(choices);
    let value = read_value(reader)?;
    Ok(if choices == 0 {
        value
    } else {
        Value::Braces(first)
    })
}

/// The parts of the values that are assigned or defaults among so many tokens, and of those within them.
pub fn read_parts(start: Reader<'_>, count: usize) -> Result<Vec<NamedValue>, Refusal> {
    let mut reader = start;
    let mut all = Vec::new(reader.alloc);
    for _ in 0..count {
        let is_before = reader.is("DEFAULT") || reader.is("::=");
        let _ = reader.next();
        if is_before {
            push_parts(reader, &mut all, MAX_LEVELS)?;
        }
    }
    Ok(all)
}

/// The components of the next value, or its alternative.
fn parts_of(reader: &mut Reader<'_>) -> Result<Vec<NamedValue>, Refusal> {
    if reader.is("{") {
        return read_components(reader);
    }
    let mut one = Vec::new(reader.alloc);
    one.push(read_alternative(reader)?)?;
    Ok(one)
}

/// Puts the parts of the next value to others, with those within them, as deep as stated: none where it has no such form.
fn push_parts(reader: Reader<'_>, all: &mut Vec<NamedValue>, levels: u32) -> Result<(), Refusal> {
    let Some(inside) = levels.checked_sub(1) else {
        return Ok(());
    };
    let mut ahead = reader;
    let parts = match parts_of(&mut ahead) {
        Ok(parts) => parts,
        Err(Refusal::OutOfMemory) => return Err(Refusal::OutOfMemory),
        Err(_) => return Ok(()),
    };
    for part in parts {
        if let Value::Braces(first) = part.value {
            push_parts(reader.at(first), all, inside)?;
        }
        all.push(part)?;
    }
    Ok(())
}

/// The value of a DEFAULT, of the component of that name.
pub fn read_default(reader: &mut Reader<'_>, name: &str) -> Result<Value, Refusal> {
    let start = *reader;
    let value = read_default_value(reader)?;
    if !reader.is(":") && !reader.is(".") && !reader.is("{") {
        return Ok(value);
    }
    let reads = format!(in reader.alloc;
        "a default of '{name}' that is a value without fields of objects or parameters"
    )?;
    Err(start.refused(reads.as_str()))
}

/// Whether the next token is the name of a number, a bit or an enumerated value: also one with a capital letter, which X.680 (12.3) doesn't
/// have, but no word that it keeps.
fn is_identifier(reader: &Reader<'_>) -> bool {
    let first = reader.peek();
    first.kind == Kind::Word || first.kind == Kind::Name && !is_reserved(first.text)
}

/// The value behind DEFAULT; what begins with a capital letter, and is no value of another module and of no type, is a name of a number.
fn read_default_value(reader: &mut Reader<'_>) -> Result<Value, Refusal> {
    let is_of_type = choices_length(reader.rest()) != 0;
    if is_of_type || !is_identifier(reader) || matches!(reader.second().text, "." | "{") {
        return read_any_value(reader);
    }
    Ok(Value::Reference(Reference {
        module: None,
        name: reader.next(),
    }))
}

/// `TRUE`, `FALSE`, `NULL`, or a value of another module.
fn read_named(reader: &mut Reader<'_>) -> Result<Value, Refusal> {
    if reader.is("TRUE") || reader.is("FALSE") || reader.is("NULL") {
        return Ok(Value::Literal(reader.next()));
    }
    if reader.second().text != "." {
        return Err(reader.refused(VALUE));
    }
    let module = reader.next();
    let _ = reader.next();
    Ok(Value::Reference(Reference {
        module: Some(module),
        name: reader.takes(Kind::Word, "a value's name")?,
    }))
}

/// Names between braces, or another value between braces, whose inside is passed over.
fn read_braces(reader: &mut Reader<'_>) -> Result<Value, Refusal> {
    let first = reader.id();
    let mut ahead = *reader;
    if let Some(names) = read_names(&mut ahead)? {
        *reader = ahead;
        return Ok(Value::Names(first, names));
    }
    reader.skip_brackets()?;
    Ok(Value::Braces(first))
}

/// Names between braces, with commas; nothing where anything else stands there.
fn read_names(reader: &mut Reader<'_>) -> Result<Option<Vec<TokenId>>, Refusal> {
    let mut names = Vec::new(reader.alloc);
    let _ = reader.next();
    if reader.eats("}") {
        return Ok(Some(names));
    }
    for _ in 0..reader.left() {
        if !is_identifier(reader) {
            return Ok(None);
        }
        names.push(reader.next())?;
        if reader.eats("}") {
            return Ok(Some(names));
        }
        if !reader.eats(",") {
            return Ok(None);
        }
    }
    Ok(None)
}

/// The components of a value of a SEQUENCE or a SET, between braces (X.680, clauses 25 and 27).
fn read_components(reader: &mut Reader<'_>) -> Result<Vec<NamedValue>, Refusal> {
    let of = reader.id();
    let mut all = Vec::new(reader.alloc);
    reader.expects("{")?;
    if reader.eats("}") {
        return Ok(all);
    }
    for _ in 0..reader.left() {
        let name = reader.takes(Kind::Word, "a component's name")?;
        let value = read_default_value(reader)?;
        all.push(NamedValue { of, name, value })?;
        if !goes_on(reader)? {
            return Ok(all);
        }
    }
    Err(reader.refused("'}'"))
}

/// The alternative of a value of a CHOICE, as `name:value` (X.680, clause 29).
fn read_alternative(reader: &mut Reader<'_>) -> Result<NamedValue, Refusal> {
    let of = reader.id();
    let name = reader.takes(Kind::Word, "an alternative's name")?;
    reader.expects(":")?;
    let value = read_default_value(reader)?;
    Ok(NamedValue { of, name, value })
}

/// Named numbers or bits between braces, where there are any (X.680, 19.3 and 22.2).
pub fn read_numbers(reader: &mut Reader<'_>) -> Result<Vec<Numbered>, Refusal> {
    let mut all = Vec::new(reader.alloc);
    if !reader.eats("{") {
        return Ok(all);
    }
    for _ in 0..reader.left() {
        all.push(read_named_number(reader)?)?;
        if !goes_on(reader)? {
            return Ok(all);
        }
    }
    Err(reader.refused("'}'"))
}

/// Passes the comma behind what stands in a list between braces; false at the closing brace, which is passed too.
pub fn goes_on(reader: &mut Reader<'_>) -> Result<bool, Refusal> {
    if reader.eats("}") {
        return Ok(false);
    }
    reader.expects(",")?;
    Ok(true)
}

/// A name with its number.
fn read_named_number(reader: &mut Reader<'_>) -> Result<Numbered, Refusal> {
    let one = read_numbered(reader)?;
    if one.number.is_none() {
        return Err(reader.refused("'(' and the name's number"));
    }
    Ok(one)
}

/// A name, and its number between parentheses where there is one.
fn read_numbered(reader: &mut Reader<'_>) -> Result<Numbered, Refusal> {
    if !is_identifier(reader) {
        return Err(reader.refused("a name that begins with a small letter"));
    }
    let name = reader.next();
    let mut number = None;
    if reader.eats("(") {
        number = Some(read_value(reader)?);
        reader.expects(")")?;
    }
    Ok(Numbered { name, number })
}

/// The values of an ENUMERATED, and how many stand before its mark, where it has one (X.680, 20.1).
pub fn read_enumerated(reader: &mut Reader<'_>) -> Result<(Vec<Numbered>, Option<usize>), Refusal> {
    let mut all = Vec::new(reader.alloc);
    let mut mark = None;
    reader.expects("{")?;
    for _ in 0..reader.left() {
        push_enumerated(reader, &mut all, &mut mark)?;
        if !goes_on(reader)? {
            return Ok((all, mark));
        }
    }
    Err(reader.refused("'}'"))
}

/// A value of an ENUMERATED, or its mark.
fn push_enumerated(
    reader: &mut Reader<'_>,
    all: &mut Vec<Numbered>,
    mark: &mut Option<usize>,
) -> Result<(), Refusal> {
    if mark.is_none() && all.len() != 0 && reader.eats("...") {
        *mark = Some(all.len());
        return read_exception(reader);
    }
    all.push(read_numbered(reader)?)?;
    Ok(())
}

/// Passes over what is said of exceptions behind an extension mark or a constraint, as `! 3` or `! INTEGER:3` (X.680, clause 53).
pub fn read_exception(reader: &mut Reader<'_>) -> Result<(), Refusal> {
    if reader.eats("!") {
        let _ = read_any_value(reader)?;
    }
    Ok(())
}

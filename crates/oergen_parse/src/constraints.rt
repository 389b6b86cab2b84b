//! Reads constraints (X.680, clauses 49 to 51).

use crate::ast::{Constraint, Element, ElementSet, End, Reference};
use crate::lengths::choices_length;
use crate::lexer::Kind;
use crate::reader::Reader;
use crate::refusal::Refusal;
use crate::values::{read_any_value, read_exception, read_value};

/// How deep constraints, and types, may be nested.
pub const MAX_NESTING: u32 = 64;

/// The constraints behind a type.
pub fn read_constraints(reader: &mut Reader<'_>) -> Result<Vec<Constraint>, Refusal> {
    let mut all = Vec::new(reader.alloc);
    for _ in 0..reader.left() {
        if !reader.is("(") {
            break;
        }
        all.push(read_constraint(reader, MAX_NESTING)?)?;
    }
    Ok(all)
}

/// A constraint between parentheses. What stands behind its extension mark is read and left out.
#[cycle(sets)]
pub fn read_constraint(reader: &mut Reader<'_>, levels: u32) -> Result<Constraint, Refusal> {
    let first = reader.id();
    let Some(levels) = levels.checked_sub(1) else {
        return Err(reader.refused("at most 64 nested constraints"));
    };
    reader.expects("(")?;
    let set = read_set(reader, levels)?;
    let is_extensible = reader.eats(",");
    if is_extensible {
        reader.expects("...")?;
        if reader.eats(",") {
            let _ = read_set(reader, levels)?;
        }
    }
    read_exception(reader)?;
    reader.expects(")")?;
    Ok(Constraint {
        first,
        set,
        is_extensible,
    })
}

/// A union of intersections.
#[cycle(sets)]
fn read_set(reader: &mut Reader<'_>, levels: u32) -> Result<ElementSet, Refusal> {
    let mut unions = Vec::new(reader.alloc);
    for _ in 0..reader.left() {
        unions.push(read_intersection(reader, levels)?)?;
        if !(reader.eats("|") || reader.eats("UNION")) {
            break;
        }
    }
    Ok(ElementSet { unions })
}

/// An intersection of elements.
#[cycle(sets)]
fn read_intersection(reader: &mut Reader<'_>, levels: u32) -> Result<Vec<Element>, Refusal> {
    let mut elements = Vec::new(reader.alloc);
    for _ in 0..reader.left() {
        elements.push(read_operand(reader, levels)?)?;
        if !(reader.eats("^") || reader.eats("INTERSECTION")) {
            break;
        }
    }
    Ok(elements)
}

/// A part of an intersection. What `EXCEPT` takes away is read and left out.
#[cycle(sets)]
fn read_operand(reader: &mut Reader<'_>, levels: u32) -> Result<Element, Refusal> {
    let element = if reader.eats("ALL") {
        Element::Unseen
    } else {
        read_element(reader, levels)?
    };
    if reader.eats("EXCEPT") {
        let _ = read_element(reader, levels)?;
    }
    Ok(element)
}

/// An element.
#[cycle(sets)]
fn read_element(reader: &mut Reader<'_>, levels: u32) -> Result<Element, Refusal> {
    let first = reader.peek();
    let Some(levels) = levels.checked_sub(1) else {
        return Err(reader.refused("at most 64 nested constraints"));
    };
    match first.text {
        "(" => {
            let _ = reader.next();
            let set = read_set(reader, levels)?;
            reader.expects(")")?;
            Ok(Element::Set(set))
        }
        "SIZE" => {
            let _ = reader.next();
            let size = read_constraint(reader, levels)?;
            Ok(Element::Size(Box::new(reader.alloc, size)?))
        }
        _ => read_plain(reader),
    }
}

/// Passes over what stands between brackets of that sort.
fn skip_inner(reader: &mut Reader<'_>, open: &str) -> Result<Element, Refusal> {
    if !reader.is(open) {
        let reads = format!(in reader.alloc; "'{open}'")?;
        return Err(reader.refused(reads.as_str()));
    }
    reader.skip_brackets()?;
    Ok(Element::Unseen)
}

/// Passes over a constraint behind `WITH`.
fn skip_with(reader: &mut Reader<'_>) -> Result<Element, Refusal> {
    let _ = reader.next();
    if reader.eats("COMPONENT") {
        return skip_inner(reader, "(");
    }
    reader.expects("COMPONENTS")?;
    skip_inner(reader, "{")
}

/// An element without elements.
fn read_plain(reader: &mut Reader<'_>) -> Result<Element, Refusal> {
    match reader.peek().text {
        "CONTAINING" | "CONSTRAINED" | "ENCODED" => {
            reader.skip_to_close()?;
            Ok(Element::Unseen)
        }
        "FROM" => {
            let _ = reader.next();
            skip_inner(reader, "(")
        }
        "WITH" => skip_with(reader),
        "PATTERN" | "SETTINGS" => {
            let _ = reader.next();
            let _ = read_value(reader)?;
            Ok(Element::Unseen)
        }
        "INCLUDES" => {
            let _ = reader.next();
            Ok(Element::Type(read_type_name(reader)?))
        }
        _ => read_range(reader),
    }
}

/// A value, a range of values, or the name of a type whose values are meant.
fn read_range(reader: &mut Reader<'_>) -> Result<Element, Refusal> {
    let from = if reader.eats("MIN") {
        End::Open
    } else if reader.peek().kind == Kind::Name && !is_value(reader) {
        return Ok(Element::Type(read_type_name(reader)?));
    } else {
        read_low(reader)?
    };
    match from {
        End::At(value) if !reader.is("..") => Ok(Element::Single(value)),
        from => {
            reader.expects("..")?;
            Ok(Element::Range(from, read_high(reader)?))
        }
    }
}

/// The low end of a range, with `<` behind it where it isn't in the range.
fn read_low(reader: &mut Reader<'_>) -> Result<End, Refusal> {
    let value = read_any_value(reader)?;
    Ok(if reader.eats("<") {
        End::Past(value)
    } else {
        End::At(value)
    })
}

/// The high end of a range, with `<` in front of it where it isn't in the range.
fn read_high(reader: &mut Reader<'_>) -> Result<End, Refusal> {
    if reader.eats("<") {
        Ok(End::Past(read_value(reader)?))
    } else if reader.eats("MAX") {
        Ok(End::Open)
    } else {
        Ok(End::At(read_value(reader)?))
    }
}

/// Whether a capital letter begins a value: `TRUE`, `FALSE`, `NULL`, the name of another module's, or the type of an open type's.
fn is_value(reader: &Reader<'_>) -> bool {
    let mut ahead = *reader;
    let _ = ahead.next();
    reader.is("TRUE")
        || reader.is("FALSE")
        || reader.is("NULL")
        || (ahead.is(".") && ahead.second().kind == Kind::Word)
        || choices_length(reader.rest()) != 0
}

/// The name of a type, in another module where one is named.
pub fn read_type_name(reader: &mut Reader<'_>) -> Result<Reference, Refusal> {
    let first = reader.takes(Kind::Name, "a type")?;
    if !reader.eats(".") {
        return Ok(Reference {
            module: None,
            name: first,
        });
    }
    Ok(Reference {
        module: Some(first),
        name: reader.takes(
            Kind::Name,
            "a type's name, or a field of a class that is assigned or imported",
        )?,
    })
}

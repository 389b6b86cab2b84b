//! Reads types (X.680, clauses 17 to 41).

use crate::ast::{Body, Component, Member, Need, Simple, Type, WrittenTag};
use crate::constraints::{MAX_NESTING, read_constraint, read_constraints, read_type_name};
use crate::instead::instead_of;
use crate::lexer::{Kind, TokenId};
use crate::reader::Reader;
use crate::refusal::Refusal;
use crate::values::{
    goes_on, read_default, read_enumerated, read_exception, read_numbers, read_value,
};
use crate::words::{OBJECTS, OBJECTS_BY_FIELD, begins_type, is_type, is_unread};
use asn1_core::Class;

/// Types without parts, by their first word.
static SIMPLE: [(&str, Simple); 20] = [
    ("BOOLEAN", Simple::Boolean),
    ("NULL", Simple::Null),
    ("UTF8String", Simple::Utf8String),
    ("NumericString", Simple::NumericString),
    ("PrintableString", Simple::PrintableString),
    ("VisibleString", Simple::VisibleString),
    ("ISO646String", Simple::VisibleString),
    ("IA5String", Simple::Ia5String),
    ("GeneralString", Simple::GeneralString),
    ("GraphicString", Simple::GraphicString),
    ("TeletexString", Simple::TeletexString),
    ("T61String", Simple::TeletexString),
    ("BMPString", Simple::BmpString),
    ("UniversalString", Simple::UniversalString),
    ("UTCTime", Simple::UtcTime),
    ("GeneralizedTime", Simple::GeneralizedTime),
    ("DATE", Simple::Date),
    ("ANY", Simple::Any),
    ("OCTET", Simple::OctetString),
    ("OBJECT", Simple::ObjectIdentifier),
];

/// The simple type that a word begins.
fn simple_of(word: &str) -> Option<Simple> {
    for (text, simple) in SIMPLE.iter() {
        if *text == word {
            return Some(*simple);
        }
    }
    None
}

/// A type, with at most 64 types inside one another.
pub fn read_whole_type(reader: &mut Reader<'_>) -> Result<Type, Refusal> {
    read_type(reader, MAX_NESTING)
}

#[cycle(types)]
fn read_type(reader: &mut Reader<'_>, levels: u32) -> Result<Type, Refusal> {
    let first = reader.id();
    let Some(levels) = levels.checked_sub(1) else {
        return Err(reader.refused("at most 64 nested types"));
    };
    let tags = read_tags(reader)?;
    let body = read_body(reader, levels)?;
    let constraints = read_constraints(reader)?;
    Ok(Type {
        first,
        tags,
        body,
        constraints,
    })
}

/// The tags in front of a type (X.680, clause 31). Whether each is implicit changes no octet (X.696, 8.7), and is passed over.
fn read_tags(reader: &mut Reader<'_>) -> Result<Vec<WrittenTag>, Refusal> {
    let mut tags = Vec::new(reader.alloc);
    for _ in 0..reader.left() {
        if !reader.eats("[") {
            break;
        }
        tags.push(read_tag(reader)?)?;
    }
    Ok(tags)
}

/// A tag behind its opening bracket.
fn read_tag(reader: &mut Reader<'_>) -> Result<WrittenTag, Refusal> {
    let class = read_class(reader);
    let number = read_value(reader)?;
    reader.expects("]")?;
    let _ = reader.eats("IMPLICIT") || reader.eats("EXPLICIT");
    Ok(WrittenTag { class, number })
}

/// The class of a tag: context-specific where no word says it.
fn read_class(reader: &mut Reader<'_>) -> Class {
    if reader.eats("UNIVERSAL") {
        Class::Universal
    } else if reader.eats("APPLICATION") {
        Class::Application
    } else if reader.eats("PRIVATE") {
        Class::Private
    } else {
        Class::Context
    }
}

/// What a type is, less tags and constraints.
#[cycle(types)]
fn read_body(reader: &mut Reader<'_>, levels: u32) -> Result<Body, Refusal> {
    let first = reader.peek();
    match first.text {
        "INTEGER" => {
            let _ = reader.next();
            Ok(Body::Integer(read_numbers(reader)?))
        }
        "BIT" => {
            let _ = reader.next();
            reader.expects("STRING")?;
            Ok(Body::BitString(read_numbers(reader)?))
        }
        "ENUMERATED" => {
            let _ = reader.next();
            let (values, mark) = read_enumerated(reader)?;
            Ok(Body::Enumerated(values, mark))
        }
        "CHOICE" | OBJECTS => {
            let _ = reader.next();
            Ok(Body::Choice(read_members(reader, levels)?))
        }
        "SEQUENCE" | "SET" | OBJECTS_BY_FIELD => read_structure(reader, levels),
        _ => read_simple(reader),
    }
}

/// A type without parts, or the name of a type.
fn read_simple(reader: &mut Reader<'_>) -> Result<Body, Refusal> {
    let first = reader.peek();
    if let Some(simple) = simple_of(first.text) {
        let _ = reader.next();
        skip_rest(reader, simple)?;
        return Ok(Body::Simple(simple));
    }
    if is_unread(first.text) {
        return Err(reader.refused(instead_of(first.text)));
    }
    let name = read_type_name(reader)?;
    if reader.is("{") {
        return Err(reader.refused(
            "no parameters but those of a type that is assigned or imported, one for each, and at most 64 inside one another",
        ));
    }
    Ok(Body::Reference(name))
}

/// Passes over the further words of a type without parts.
fn skip_rest(reader: &mut Reader<'_>, simple: Simple) -> Result<(), Refusal> {
    match simple {
        Simple::OctetString => reader.expects("STRING"),
        Simple::ObjectIdentifier => reader.expects("IDENTIFIER"),
        Simple::Any if reader.eats("DEFINED") => {
            reader.expects("BY")?;
            let _ = reader.takes(Kind::Word, "a component's name")?;
            Ok(())
        }
        Simple::Any | Simple::Boolean | Simple::Null | Simple::Utf8String => Ok(()),
        Simple::NumericString | Simple::PrintableString | Simple::VisibleString => Ok(()),
        Simple::Ia5String | Simple::GeneralString | Simple::GraphicString => Ok(()),
        Simple::TeletexString | Simple::BmpString | Simple::UniversalString => Ok(()),
        Simple::UtcTime | Simple::GeneralizedTime | Simple::Date => Ok(()),
    }
}

/// A SEQUENCE or a SET of components, or a list.
#[cycle(types)]
fn read_structure(reader: &mut Reader<'_>, levels: u32) -> Result<Body, Refusal> {
    let is_set = reader.is("SET");
    let _ = reader.next();
    if reader.is("{") {
        let members = read_members(reader, levels)?;
        return Ok(if is_set {
            Body::Set(members)
        } else {
            Body::Sequence(members)
        });
    }
    let element = read_list(reader, levels)?;
    Ok(if is_set {
        Body::SetOf(element)
    } else {
        Body::SequenceOf(element)
    })
}

/// The element of a list, behind the list's sizes, which are passed over.
#[cycle(types)]
fn read_list(reader: &mut Reader<'_>, levels: u32) -> Result<Box<Type>, Refusal> {
    if reader.eats("SIZE") {
        let _ = read_constraint(reader, MAX_NESTING)?;
    } else {
        let _ = read_constraints(reader)?;
    }
    reader.expects("OF")?;
    if reader.peek().kind == Kind::Word {
        let _ = reader.next();
    }
    Ok(Box::new(reader.alloc, read_type(reader, levels)?)?)
}

/// What stands between the braces of a SEQUENCE, a SET or a CHOICE.
#[cycle(types)]
fn read_members(reader: &mut Reader<'_>, levels: u32) -> Result<Vec<Member>, Refusal> {
    let mut members = Vec::new(reader.alloc);
    reader.expects("{")?;
    if reader.eats("}") {
        return Ok(members);
    }
    for _ in 0..reader.left() {
        let opens = reader.is("[[");
        members.push(read_member(reader, levels)?)?;
        if opens || reader.is("]]") {
            continue;
        }
        if !goes_on(reader)? {
            return Ok(members);
        }
    }
    Err(reader.refused("'}'"))
}

/// What stands between two commas.
#[cycle(types)]
fn read_member(reader: &mut Reader<'_>, levels: u32) -> Result<Member, Refusal> {
    let first = reader.id();
    match reader.peek().text {
        "..." => {
            let _ = reader.next();
            read_exception(reader)?;
            Ok(Member::Mark(first))
        }
        "[[" => {
            let _ = reader.next();
            if reader.peek().kind == Kind::Number {
                let _ = reader.next();
                reader.expects(":")?;
            }
            Ok(Member::Opens(first))
        }
        "]]" => Ok(Member::Closes(reader.next())),
        "COMPONENTS" => {
            let _ = reader.next();
            reader.expects("OF")?;
            Ok(Member::ComponentsOf(read_type(reader, levels)?))
        }
        _ => Ok(Member::Component(read_component(reader, levels)?)),
    }
}

/// Whether a component begins with its type, as X.208 allows: with a type's own word, or a type's name that no other type follows.
fn is_nameless(reader: &Reader<'_>) -> bool {
    let first = reader.peek();
    let second = reader.second();
    let is_whole = match second.kind {
        Kind::Name => second.text == "OPTIONAL" || second.text == "DEFAULT",
        _ => second.text != "[",
    };
    first.kind == Kind::Name && (begins_type(first.text) || is_whole && is_type(first.text))
}

/// The name of a component; the first word of its type behind the tags where it has none, which is left with these.
fn read_name(reader: &mut Reader<'_>) -> Result<TokenId, Refusal> {
    if reader.is("[") {
        let mut ahead = *reader;
        let _ = read_tags(&mut ahead)?;
        return Ok(ahead.id());
    }
    if is_nameless(reader) {
        return Ok(reader.id());
    }
    reader.takes(
        Kind::Word,
        "a component's name, '...', '[[' or COMPONENTS OF",
    )
}

/// A component, or an alternative.
#[cycle(types)]
fn read_component(reader: &mut Reader<'_>, levels: u32) -> Result<Component, Refusal> {
    let text = reader.peek().text;
    let name = read_name(reader)?;
    let of = read_type(reader, levels)?;
    let need = read_need(reader, text)?;
    Ok(Component { name, of, need })
}

/// `OPTIONAL`, `DEFAULT` and its value, or nothing, behind the component of that name.
fn read_need(reader: &mut Reader<'_>, name: &str) -> Result<Need, Refusal> {
    if reader.eats("OPTIONAL") {
        Ok(Need::Optional)
    } else if reader.eats("DEFAULT") {
        Ok(Need::Default(read_default(reader, name)?))
    } else {
        Ok(Need::Required)
    }
}

//! The values of defaults.

use crate::numbers::{Spot, enumerated_of, first_of, named, names_of, number_of, settled};
use crate::rows::Row;
use crate::scope::Scope;
use oergen_parse::ast::{Body, Member, Numbered, Simple, Type, Value};
use oergen_parse::lengths::{rest_of, value_length};
use oergen_parse::lexer::{Kind, Token, TokenId};
use oergen_parse::refusal::Refusal;
use std::alloc::AllocError;

const DEFAULT: &str =
    "a default of its type: TRUE or FALSE, NULL, a number, a value's name, a string, named bits, or a value with parts";

/// A default as ASN.1 writes it, past names of values. Refused where it is no value of the type, as far as its sort goes.
pub fn default_of<'m>(
    scope: Scope<'m, '_>,
    row: Row<'m>,
    value: &'m Value,
) -> Result<String, Refusal> {
    let base = scope.base_of(row.of)?;
    let names = names_of(base);
    let spot = Spot { value, names };
    match &base.body {
        Body::Integer(_) => {
            let number = number_of(scope, spot)?;
            Ok(format!(in scope.alloc; "{number}")?)
        }
        Body::Enumerated(_, _) => {
            let name = enumerated_default(scope, spot)?;
            Ok(String::from_str(scope.alloc, scope.text(name))?)
        }
        Body::Simple(_) | Body::BitString(_) | Body::SequenceOf(_) | Body::SetOf(_) => {
            literal_of(scope, base, names, settled(scope, spot)?.value)
        }
        Body::Sequence(_) | Body::Set(_) | Body::Choice(_) | Body::Reference(_) => {
            literal_of(scope, base, names, settled(scope, spot)?.value)
        }
    }
}

/// Whether a default has parts: one of a SEQUENCE, a SET, a CHOICE, an OBJECT IDENTIFIER or an open type, or of a list that isn't empty.
/// These are listed as they are written.
pub fn has_parts<'m>(
    scope: Scope<'m, '_>,
    row: Row<'m>,
    value: &'m Value,
) -> Result<bool, Refusal> {
    let base = scope.base_of(row.of)?;
    let names = names_of(base);
    Ok(match &base.body {
        Body::Integer(_) | Body::Enumerated(_, _) => false,
        Body::Simple(_) | Body::BitString(_) | Body::SequenceOf(_) | Body::SetOf(_) => {
            is_structured(scope, base, settled(scope, Spot { value, names })?.value)
        }
        Body::Sequence(_) | Body::Set(_) | Body::Choice(_) | Body::Reference(_) => true,
    })
}

/// Whether a CHOICE has an alternative of that name.
fn has_alternative(scope: Scope<'_, '_>, members: &[Member], name: &str) -> bool {
    for member in members.iter() {
        if let Member::Component(component) = member {
            if scope.text(component.name) == name {
                return true;
            }
        }
    }
    false
}

/// Whether a value with parts is one of the type's sort, as far as its first token says it.
fn is_structured(scope: Scope<'_, '_>, base: &Type, value: &Value) -> bool {
    match (&base.body, value) {
        (Body::Choice(members), Value::Braces(first)) => {
            has_alternative(scope, members.as_slice(), scope.text(*first))
        }
        (Body::Simple(Simple::Any), Value::Braces(first)) => scope.text(*first) != "{",
        (Body::Sequence(_) | Body::Set(_), Value::Names(_, names)) => names.is_empty(),
        (
            Body::SequenceOf(_) | Body::SetOf(_) | Body::Simple(Simple::ObjectIdentifier),
            Value::Names(_, names),
        ) => !names.is_empty(),
        (
            Body::Sequence(_)
            | Body::Set(_)
            | Body::SequenceOf(_)
            | Body::SetOf(_)
            | Body::Simple(Simple::ObjectIdentifier),
            Value::Braces(first),
        ) => scope.text(*first) == "{",
        _ => false,
    }
}

/// A value as it is written, in one line.
fn written(scope: Scope<'_, '_>, first: TokenId) -> Result<String, AllocError> {
    let rest = rest_of(scope.tokens, first.index);
    let mut text = String::new(scope.alloc);
    let mut is_joined = true;
    for token in rest.iter().take(value_length(rest)) {
        if !is_joined && token.text != "," {
            text.push(' ')?;
        }
        text.push_str(token.text)?;
        is_joined = token.text == "-";
    }
    Ok(text)
}

/// The name of the enumerated value that a default is. Refused where it is none of the type.
pub fn enumerated_default<'m>(scope: Scope<'m, '_>, spot: Spot<'m>) -> Result<TokenId, Refusal> {
    match enumerated_of(scope, spot)? {
        Some(name) => Ok(name),
        None => Err(scope.refused(first_of(spot.value), DEFAULT)),
    }
}

/// A literal, where it is one of the type's sort.
fn literal_of<'m>(
    scope: Scope<'m, '_>,
    base: &'m Type,
    names: &'m [Numbered],
    value: &'m Value,
) -> Result<String, Refusal> {
    match (&base.body, value) {
        (Body::Simple(simple), Value::Literal(id)) if is_of(*simple, scope.token(*id)) => {
            Ok(String::from_str(scope.alloc, scope.text(*id))?)
        }
        (Body::BitString(_), Value::Literal(id)) if is_bits(scope.token(*id)) => {
            Ok(String::from_str(scope.alloc, scope.text(*id))?)
        }
        (Body::BitString(_), Value::Names(_, bits)) => bits_of(scope, names, bits.as_slice()),
        (Body::SequenceOf(_) | Body::SetOf(_), Value::Names(_, elements)) if elements.is_empty() =>
            { Ok(String::from_str(scope.alloc, "{}")?) }
        _ if is_structured(scope, base, value) => Ok(written(scope, first_of(value))?),
        _ => Err(scope.refused(first_of(value), DEFAULT)),
    }
}

/// Whether a literal is of bits or of hexadecimal digits.
fn is_bits(token: Token<'_>) -> bool {
    token.kind == Kind::Bits || token.kind == Kind::Hex
}

/// Whether a literal is a value of a type without parts.
fn is_of(simple: Simple, token: Token<'_>) -> bool {
    match simple {
        Simple::Boolean => token.text == "TRUE" || token.text == "FALSE",
        Simple::Null => token.text == "NULL",
        Simple::OctetString => is_bits(token),
        Simple::ObjectIdentifier | Simple::Any => false,
        Simple::UtcTime | Simple::GeneralizedTime | Simple::Date => token.kind == Kind::Text,
        Simple::Utf8String | Simple::NumericString => token.kind == Kind::Text,
        Simple::PrintableString | Simple::VisibleString => token.kind == Kind::Text,
        Simple::Ia5String | Simple::GeneralString => token.kind == Kind::Text,
        Simple::GraphicString | Simple::TeletexString => token.kind == Kind::Text,
        Simple::BmpString | Simple::UniversalString => token.kind == Kind::Text,
    }
}

/// Named bits between braces.
fn bits_of(scope: Scope<'_, '_>, names: &[Numbered], bits: &[TokenId]) -> Result<String, Refusal> {
    let mut text = String::from_str(scope.alloc, "{")?;
    for (at, bit) in bits.iter().enumerate() {
        if named(scope, names, *bit).is_none() {
            return Err(scope.refused(*bit, "a bit that the type names"));
        }
        if at != 0 {
            text.push_str(", ")?;
        }
        text.push_str(scope.text(*bit))?;
    }
    text.push('}')?;
    Ok(text)
}

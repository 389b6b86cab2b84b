//! What a module writes of bits, octets and characters: the octets that a default of them has.

use crate::text::Text;
use oergen_layouts::bits::fill_up;
use oergen_layouts::layouts::unit_of;
use oergen_layouts::numbers::{Spot, named, number_of};
use oergen_layouts::scope::Scope;
use oergen_parse::ast::{Numbered, Simple, Value};
use oergen_parse::lexer::TokenId;
use oergen_parse::refusal::Refusal;
use std::alloc::{AllocError, Global};

/// The most bits that a default may have.
const MAX_BITS: usize = 65536;

/// The number of a named bit.
fn bit_number<'m>(
    scope: Scope<'m, '_>,
    names: &'m [Numbered],
    bit: TokenId,
) -> Result<usize, Refusal> {
    if let Some(value) = named(scope, names, bit).and_then(|item| item.number.as_ref()) {
        let number = number_of(scope, Spot { value, names: &[] })?;
        return Ok(usize::try_from(number).unwrap_or(MAX_BITS));
    }
    Err(scope.refused(bit, "a bit that the type names"))
}

/// The bits of named ones, up to the last that is named.
pub fn bits_of_names<'m>(
    scope: Scope<'m, '_>,
    names: &'m [Numbered],
    named: &[TokenId],
) -> Result<Vec<bool>, Refusal> {
    let mut bits = Vec::new(scope.alloc);
    for bit in named.iter() {
        let number = bit_number(scope, names, *bit)?;
        if number >= MAX_BITS {
            return Err(scope.refused(*bit, "a bit below 65536"));
        }
        fill_up(&mut bits, number.saturating_add(1))?;
        if let Some(place) = bits.get_mut(number) {
            *place = true;
        }
    }
    Ok(bits)
}

/// Whether a type's text may have the character (X.680, clause 41), and the library has octets for it: ASCII where X.680 would have
/// escape sequences. No type has the end of a line, so a text in several lines is refused.
fn is_permitted(simple: Simple, c: char) -> bool {
    match simple {
        Simple::NumericString => c.is_ascii_digit() || c == ' ',
        Simple::PrintableString => c.is_ascii_alphanumeric() || " '()+,-./:=?".contains(c),
        Simple::VisibleString => c == ' ' || c.is_ascii_graphic(),
        Simple::BmpString => u32::from(c) <= 65535 && c != '\n',
        Simple::Utf8String | Simple::UniversalString => c != '\n',
        Simple::Ia5String | Simple::GeneralString => c.is_ascii() && c != '\n',
        Simple::GraphicString | Simple::TeletexString => c.is_ascii() && c != '\n',
        Simple::Boolean | Simple::Null | Simple::OctetString => false,
        Simple::ObjectIdentifier | Simple::Any => false,
        Simple::UtcTime | Simple::GeneralizedTime | Simple::Date => false,
    }
}

/// Puts the octets of a character in UTF-8 to others.
fn push_utf8(octets: &mut Vec<u8>, c: char) -> Result<(), AllocError> {
    let mut text = String::new(*octets.allocator());
    text.push(c)?;
    octets.extend_from_slice(text.as_bytes())
}

/// Puts a character's octets to others: those of UTF-8 in a UTF8String, two in a BMPString, four in a UniversalString, else one.
fn push_character(octets: &mut Vec<u8>, simple: Simple, c: char) -> Result<(), AllocError> {
    if simple == Simple::Utf8String {
        return push_utf8(octets, c);
    }
    let [group, plane, row, cell] = u32::from(c).to_be_bytes();
    match unit_of(simple) {
        Some(4) => octets.extend_from_slice(&[group, plane, row, cell]),
        Some(2) => octets.extend_from_slice(&[row, cell]),
        _ => octets.extend_from_slice(&[cell]),
    }
}

/// The octets of a text between quotes, of which two within stand for one (X.680, 12.14). Refused where a character isn't the type's.
pub fn octets_of_text(
    scope: Scope<'_, '_>,
    simple: Simple,
    id: TokenId,
) -> Result<Vec<u8>, Refusal> {
    let mut octets = Vec::new(scope.alloc);
    let text = scope.text(id);
    let inside = text.strip_prefix('"').unwrap_or(text);
    let inside = inside.strip_suffix('"').unwrap_or(inside);
    let mut is_second = false;
    for c in inside.chars() {
        is_second = c == '"' && !is_second;
        if is_second {
            continue;
        }
        if !is_permitted(simple, c) {
            return Err(scope.refused(
                id,
                "a text of the type's characters, ASCII but in a UTF8String, a BMPString or a UniversalString",
            ));
        }
        push_character(&mut octets, simple, c)?;
    }
    Ok(octets)
}

/// Appends octets in hexadecimal digits, with a text between any two.
fn push_octets(out: &mut Text, octets: &[u8]) {
    for (at, octet) in octets.iter().enumerate() {
        out.push(if at == 0 { "0x" } else { ", 0x" });
        out.push_octet(*octet);
    }
}

/// Appends octets as an array of the code, as rustfmt lays it out: in hexadecimal digits, so many a line.
pub fn push_array(out: &mut Text, octets: &[u8]) {
    const LINE: usize = 14;
    const ONE_LINE: usize = 10;
    out.push("[");
    if octets.len() <= ONE_LINE {
        push_octets(out, octets);
        out.push("]");
        return;
    }
    for line in octets.chunks(LINE) {
        out.push("\n            ");
        push_octets(out, line);
        out.push(",");
    }
    out.push("\n        ]");
}

/// Appends octets as a list of definitions.
pub fn push_list(out: &mut Text, octets: &[u8]) {
    out.push("(");
    for octet in octets.iter() {
        out.push_number(i128::from(*octet));
        out.push(" ∷ ");
    }
    out.push("[])");
}

/// Appends names between braces.
fn push_names(scope: Scope<'_, '_>, out: &mut Text, names: &[TokenId]) {
    out.push("{");
    for (at, name) in names.iter().enumerate() {
        out.push(if at == 0 { "" } else { ", " });
        out.push(scope.text(*name));
    }
    out.push("}");
}

/// Appends a value as the module writes it, in one line: one token, or names between braces.
pub fn push_written(scope: Scope<'_, '_>, out: &mut Text, value: &Value) {
    match value {
        Value::Literal(id) => out.push_plain(scope.text(*id)),
        Value::Names(_, names) => push_names(scope, out, names.as_slice()),
        Value::Negative(_) | Value::Reference(_) | Value::Braces(_) => {}
    }
}

//! Values without parts (X.697).
ghost use Rattle.asn1_core.specs.Texts.{unit_of};
ghost use Rattle.oer_json.specs.Characters.{AreCharacters};
ghost use Rattle.oer_json.specs.Readings.{Puts, boolean_in, null_in, number_in, reading_of_kind};
ghost use Rattle.oer_walk.specs.StringKinds.{rule_of};
ghost use Rattle.std.specs.Prelude.{◌≡◌, ◌/◌, IfOk, Some};

use crate::bits::{put_bits, put_fixed_bits, put_named_bits};
use crate::hexadecimal::{hexadecimal, octets_in};
use crate::json::Json;
use crate::numbers::{put_counted, put_fixed, put_long, put_name};
use crate::refusals::{Fault, Misfit, wrong_sort};
use crate::tables::{Bounds, Tables};
use asn1_strings::{
    BmpCharacters, CharacterSet, Ia5Characters, NumericCharacters, PrintableCharacters,
    RestrictedString, UniversalCharacters, VisibleCharacters,
};
use asn1_times::{Date, GeneralizedTime, UtcTime};
use oer_leaf_write::{write_bool, write_content, write_object_identifier};
use oer_walk::{Kind, StringKind};
use std::alloc::Global;

/// Appends a BOOLEAN.
fn put_boolean(json: &Json, out: &mut Vec<u8>) -> Result<(), Fault>
    ensures { Puts (boolean_in json.now) result out.old.items out.new.items }
{
    match json {
        Json::Bool(is_true) => Ok(write_bool(*is_true, out)?),
        _ => Err(wrong_sort("true or false")),
    }
}

/// Appends a NULL, which has no octets.
fn put_null(json: &Json, out: &mut Vec<u8>) -> Result<(), Fault>
    ensures { Puts (null_in json.now) result out.old.items out.new.items }
{
    match json {
        Json::Null => Ok(()),
        _ => Err(wrong_sort("null")),
    }
}

/// Refused where so many octets or characters are none of the type's sizes.
fn check_size(tables: &Tables, type_number: u32, size: usize) -> Result<(), Fault> {
    match tables.size_of(type_number) {
        Some(bounds) => check_bounds(bounds, size),
        None => Ok(()),
    }
}

fn check_bounds(bounds: Bounds, size: usize) -> Result<(), Fault> {
    if bounds.allows(size as i128) {
        return Ok(());
    }
    Err(Fault::Misfit(Misfit::WrongSize {
        size,
        low: bounds.low,
        high: bounds.high,
    }))
}

/// Octets that are a text of a type, and how many characters they are.
#[derive(Drop)]
struct Units {
    octets: Vec<u8>,
    count: usize,
}

fn one_octet_each(octets: Vec<u8>) -> Units
    ensures { AreCharacters 1 octets.items result }
{
    let count = octets.len();
    Units { octets, count }
}

/// Octets that have to be whole characters of an alphabet.
fn characters<C: CharacterSet>(octets: Vec<u8>, name: &'static str) -> Result<Units, Fault>
    ensures { IfOk result (λ units. AreCharacters (unit_of C.rule) octets.items units) }
{
    if !RestrictedString::<C>::is_text(octets.as_slice()) {
        return Err(Fault::Misfit(Misfit::NotInAlphabet(name)));
    }
    let count = octets.len() / C::OCTETS_PER_CHARACTER;
    Ok(Units { octets, count })
}

/// A text of one octet a character, of an alphabet.
fn restricted<C: CharacterSet>(
    alloc: Global,
    text: &str,
    name: &'static str,
) -> Result<Units, Fault> {
    characters::<C>(Vec::from_slice(alloc, text.as_bytes())?, name)
}

/// A text of two octets a character, or of four (X.680, clause 41).
fn wide<C: CharacterSet>(alloc: Global, text: &str, name: &'static str) -> Result<Units, Fault> {
    let mut octets = Vec::new(alloc);
    let mut count: usize = 0;
    for character in text.chars() {
        let [group, plane, row, cell] = (character as u32).to_be_bytes();
        if C::OCTETS_PER_CHARACTER > 2 {
            octets.extend_from_slice(&[group, plane])?;
        } else if plane != 0 {
            return Err(Fault::Misfit(Misfit::NotInAlphabet(name)));
        }
        octets.extend_from_slice(&[row, cell])?;
        count = count.saturating_add(1);
    }
    Ok(Units { octets, count })
}

/// A time's or a day's text.
fn time(alloc: Global, text: &str, is_time: bool, form: &'static str) -> Result<Units, Fault> {
    if !is_time {
        return Err(Fault::Misfit(Misfit::NoTime(form)));
    }
    Ok(one_octet_each(Vec::from_slice(alloc, text.as_bytes())?))
}

/// The octets of a text, by what the table says that they are.
fn units_of(alloc: Global, text: &str, kind: StringKind) -> Result<Units, Fault> {
    let octets = text.as_bytes();
    match kind {
        StringKind::Utf8String
        | StringKind::GeneralString
        | StringKind::GraphicString
        | StringKind::TeletexString => Ok(one_octet_each(Vec::from_slice(alloc, octets)?)),
        StringKind::NumericString => {
            restricted::<NumericCharacters>(alloc, text, "NumericString")
        }
        StringKind::PrintableString => {
            restricted::<PrintableCharacters>(alloc, text, "PrintableString")
        }
        StringKind::VisibleString => {
            restricted::<VisibleCharacters>(alloc, text, "VisibleString")
        }
        StringKind::Ia5String => restricted::<Ia5Characters>(alloc, text, "IA5String"),
        StringKind::BmpString => wide::<BmpCharacters>(alloc, text, "BMPString"),
        StringKind::UniversalString => {
            wide::<UniversalCharacters>(alloc, text, "UniversalString")
        }
        StringKind::UtcTime => time(
            alloc,
            text,
            UtcTime::from_text(octets).is_ok(),
            "YYMMDDhhmmssZ",
        ),
        StringKind::GeneralizedTime => time(
            alloc,
            text,
            GeneralizedTime::from_text(octets).is_ok(),
            "YYYYMMDDhhmmssZ, or with a point and 1 to 9 digits before the Z",
        ),
        StringKind::Date => time(alloc, text, Date::from_text(octets).is_ok(), "YYYYMMDD"),
        StringKind::OctetString | StringKind::ObjectIdentifier | StringKind::Any => {
            Ok(one_octet_each(octets_in(alloc, text)?))
        }
    }
}

/// Octets that stand for characters, by what the table says that they are.
fn characters_of(octets: Vec<u8>, kind: StringKind) -> Result<Units, Fault>
    ensures { IfOk result (λ units. AreCharacters (unit_of (rule_of kind)) octets.items units) }
{
    match kind {
        StringKind::BmpString => characters::<BmpCharacters>(octets, "BMPString"),
        StringKind::UniversalString => {
            characters::<UniversalCharacters>(octets, "UniversalString")
        }
        _ => Ok(one_octet_each(octets)),
    }
}

/// Whether the characters of a type may be any octets.
fn has_any_octets(kind: StringKind) -> bool {
    matches!(
        kind,
        StringKind::GeneralString
            | StringKind::GraphicString
            | StringKind::TeletexString
            | StringKind::BmpString
            | StringKind::UniversalString
    )
}

/// The octets of a string: a text; of a type whose characters may be any octets, also an object of `octets`, if they are no text.
fn string(alloc: Global, json: &Json, kind: StringKind) -> Result<Units, Fault> {
    match json {
        Json::Text(text) => units_of(alloc, text.as_str(), kind),
        Json::Members(members) => match members.as_slice() {
            [(name, value)] if name.as_str() == "octets" && has_any_octets(kind) => {
                characters_of(hexadecimal(alloc, value)?, kind)
            }
            _ => Err(wrong_sort("a text")),
        },
        _ => Err(wrong_sort("a text")),
    }
}

/// The arcs of a dotted number.
fn arcs_of(alloc: Global, text: &str) -> Result<Vec<u32>, Fault> {
    let mut arcs = Vec::new(alloc);
    for part in text.split('.') {
        match part.parse::<u32>() {
            Ok(arc) if !part.starts_with("+") => arcs.push(arc)?,
            _ => return Err(Fault::Misfit(Misfit::NoIdentifier)),
        }
    }
    Ok(arcs)
}

/// Appends an object identifier (X.696, 21).
fn put_identifier(alloc: Global, json: &Json, out: &mut Vec<u8>) -> Result<(), Fault> {
    let Json::Text(text) = json else {
        return Err(wrong_sort("a text"));
    };
    let arcs = arcs_of(alloc, text.as_str())?;
    if !asn1_strings::is_identifier(arcs.as_slice()) {
        return Err(Fault::Misfit(Misfit::NoIdentifier));
    }
    Ok(write_object_identifier(arcs.as_slice(), out)?)
}

/// How many characters so many octets are, by what the table says that they are.
fn characters_in(octets: usize, kind: StringKind) -> usize
    ensures { result ≡ octets / unit_of (rule_of kind) }
{
    octets / kind.octets_per_character()
}

/// Appends a string of so many octets, and no length.
fn put_fixed_string(
    alloc: Global,
    tables: &Tables,
    type_number: u32,
    json: &Json,
    out: &mut Vec<u8>,
) -> Result<(), Fault> {
    let kind = tables.string_kind(type_number, 1);
    let string = string(alloc, json, kind)?;
    let wanted = tables.word_of(type_number, 0);
    if string.octets.len() != wanted as usize {
        let size = Some(characters_in(wanted as usize, kind) as i128);
        return Err(Fault::Misfit(Misfit::WrongSize {
            size: string.count,
            low: size,
            high: size,
        }));
    }
    Ok(out.extend_from_slice(string.octets.as_slice())?)
}

/// Appends a string behind a length.
fn put_string(
    alloc: Global,
    tables: &Tables,
    type_number: u32,
    json: &Json,
    out: &mut Vec<u8>,
) -> Result<(), Fault> {
    let kind = tables.string_kind(type_number, 0);
    if kind == StringKind::ObjectIdentifier {
        return put_identifier(alloc, json, out);
    }
    let string = string(alloc, json, kind)?;
    check_size(tables, type_number, string.count)?;
    Ok(write_content(string.octets.as_slice(), out)?)
}

/// Appends a number of a kind, or an enumerated value by its name.
fn put_number(
    alloc: Global,
    tables: &Tables,
    type_number: u32,
    kind: Kind,
    json: &Json,
    out: &mut Vec<u8>,
) -> Result<(), Fault>
    ensures { Puts (number_in tables.now type_number kind json.now) result out.old.items out.new.items }
{
    match (kind, json) {
        (Kind::FixedInteger, Json::Number(number)) => put_fixed(tables, type_number, *number, out),
        (Kind::Integer, Json::Number(number)) => put_counted(tables, type_number, *number, out),
        (Kind::Integer, Json::Text(text)) => {
            let octets = octets_in(alloc, text.as_str())?;
            put_long(tables, type_number, octets.as_slice(), out)
        }
        (Kind::Enumerated, Json::Text(name)) => put_name(tables, type_number, name.as_str(), out),
        (Kind::Enumerated, Json::Number(_)) => Err(Fault::Misfit(Misfit::UnknownName)),
        (_, Json::OtherNumber) => Err(Fault::Misfit(Misfit::NumberTooLarge)),
        (Kind::Enumerated, _) => Err(wrong_sort("a name")),
        _ => Err(wrong_sort("an integer")),
    }
}

/// Appends a value without parts of a kind.
pub fn put_leaf(
    alloc: Global,
    tables: &Tables,
    type_number: u32,
    kind: Kind,
    json: &Json,
    out: &mut Vec<u8>,
) -> Result<(), Fault>
    ensures { Puts (reading_of_kind tables.now type_number (Some kind) json.now) result out.old.items out.new.items }
{
    match kind {
        Kind::Boolean => put_boolean(json, out),
        Kind::Null => put_null(json, out),
        Kind::FixedInteger | Kind::Integer | Kind::Enumerated => {
            put_number(alloc, tables, type_number, kind, json, out)
        }
        Kind::FixedBitString => put_fixed_bits(alloc, tables, type_number, json, out),
        Kind::BitString => put_bits(alloc, tables, type_number, json, out),
        Kind::NamedBitString => put_named_bits(alloc, tables, type_number, json, out),
        Kind::FixedString => put_fixed_string(alloc, tables, type_number, json, out),
        Kind::String => put_string(alloc, tables, type_number, json, out),
        Kind::List | Kind::Sequence | Kind::Choice => Err(Fault::Misfit(Misfit::UnknownType)),
    }
}

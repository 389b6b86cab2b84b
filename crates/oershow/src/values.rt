//! Values of parts without parts, as text and as JSON (X.697).

use anyhow::Result;
use oer_json::Tables;
use oer_walk::{Kind, Node, StringKind};
use std::alloc::Global;

/// What a part is that has no parts.
#[derive(Drop)]
pub enum Leaf {
    Truth(bool),
    Nothing,
    Number(i128),
    /// An enumerated value by its name.
    Name(String),
    /// An integer that has a name.
    NamedNumber(i128, String),
    /// Bits of a type that has no other size, in hexadecimal, their count, and the names of those that are set.
    FixedBits(usize, String, String),
    /// The same of a type that may have other sizes.
    Bits(usize, String, String),
    Text(String),
    /// A dotted number.
    Identifier(String),
    Hex(String),
    /// Octets that are no text of a string type, in hexadecimal.
    NoText(String),
}

/// The number that octets are, big end first; nothing past 128 bits.
fn number_of(octets: &[u8], is_signed: bool) -> Option<i128> {
    let is_negative = is_signed && octets.first().copied().unwrap_or(0) >= 128;
    let mut number: i128 = if is_negative { -1 } else { 0 };
    for octet in octets.iter() {
        number = number.checked_mul(256)?.checked_add(i128::from(*octet))?;
    }
    Some(number)
}

/// Octets in hexadecimal.
pub fn hex_of(alloc: Global, octets: &[u8]) -> Result<String> {
    Ok(hex::encode_upper(alloc, octets)?)
}

/// A number, by its name where it has one.
fn number_leaf(
    alloc: Global,
    tables: &Tables,
    node: Node,
    octets: &[u8],
    is_signed: bool,
) -> Result<Leaf> {
    let Some(number) = number_of(octets, is_signed) else {
        return Ok(Leaf::Hex(hex_of(alloc, octets)?));
    };
    match tables.value_name(node.type_number, number) {
        Some(name) if Kind::of(node.kind) == Some(Kind::Enumerated) => {
            Ok(Leaf::Name(String::from_str(alloc, name)?))
        }
        Some(name) => Ok(Leaf::NamedNumber(number, String::from_str(alloc, name)?)),
        None => Ok(Leaf::Number(number)),
    }
}

/// An enumerated value: an octet below 128, or a count and signed octets (X.696, 11).
fn enumerated_leaf(alloc: Global, tables: &Tables, node: Node, octets: &[u8]) -> Result<Leaf> {
    match octets {
        [first, rest @ ..] if *first >= 128 => number_leaf(alloc, tables, node, rest, true),
        _ => number_leaf(alloc, tables, node, octets, false),
    }
}

/// The bits behind a count of unused ones (X.696, 13).
fn bits_leaf(alloc: Global, tables: &Tables, node: Node, octets: &[u8]) -> Result<Leaf> {
    let [unused, rest @ ..] = octets else {
        return Ok(Leaf::Bits(0, String::new(alloc), String::new(alloc)));
    };
    let count = rest
        .len()
        .saturating_mul(8)
        .saturating_sub(usize::from(*unused));
    let names = names_of(alloc, tables, node, rest, count)?;
    Ok(Leaf::Bits(count, bits_in_hex(alloc, rest, count)?, names))
}

/// So many bits in hexadecimal, with zeros behind them: lenient reading takes any unused bits.
fn bits_in_hex(alloc: Global, octets: &[u8], count: usize) -> Result<String> {
    let mut bits = Vec::from_slice(alloc, octets)?;
    if let Some(last) = bits.last_mut() {
        let unused = (8 - count % 8) % 8;
        *last = *last >> unused << unused;
    }
    hex_of(alloc, bits.as_slice())
}

/// Whether a bit is set, counted from the highest of the first octet.
fn is_set(octets: &[u8], bit: usize) -> bool {
    match octets.get(bit / 8) {
        Some(octet) => (*octet >> (7 - bit % 8)) % 2 == 1,
        None => false,
    }
}

/// The names of those of so many bits that are set, with commas between them.
fn names_of(
    alloc: Global,
    tables: &Tables,
    node: Node,
    octets: &[u8],
    count: usize,
) -> Result<String> {
    let mut names = String::new(alloc);
    for it in tables.values.iter() {
        let bit = usize::try_from(it.number).unwrap_or(usize::MAX);
        if it.type_number == node.type_number && bit < count && is_set(octets, bit) {
            if !names.is_empty() {
                names.push_str(", ")?;
            }
            names.push_str(it.name.as_str())?;
        }
    }
    Ok(names)
}

/// The next arc of an object identifier, and the octets behind it (X.690, 8.19).
fn next_arc(octets: &[u8]) -> Option<(u64, &[u8])> {
    let mut arc: u64 = 0;
    for (at, octet) in octets.iter().enumerate() {
        arc = arc.checked_mul(128)?.checked_add(u64::from(*octet % 128))?;
        if *octet < 128 {
            let rest = octets.get(at.saturating_add(1)..)?;
            return Some((arc, rest));
        }
    }
    None
}

/// The first two arcs of an object identifier, of the number that stands for both.
fn first_arcs(alloc: Global, both: u64) -> Result<String> {
    let first = if both >= 80 { 2 } else { both / 40 };
    let second = both.saturating_sub(first.saturating_mul(40));
    Ok(format!(in alloc; "{first}.{second}")?)
}

/// The arcs of an object identifier; nothing where an arc is past 64 bits, or lacks its end.
fn identifier_of(alloc: Global, octets: &[u8]) -> Result<Option<String>> {
    let Some((both, rest)) = next_arc(octets) else {
        return Ok(None);
    };
    let mut text = first_arcs(alloc, both)?;
    let mut rest = rest;
    for _ in 0..octets.len() {
        if rest.is_empty() {
            break;
        }
        let Some((arc, behind)) = next_arc(rest) else {
            return Ok(None);
        };
        let more = format!(in alloc; ".{arc}")?;
        text.push_str(more.as_str())?;
        rest = behind;
    }
    Ok(Some(text))
}

/// The first unit of two octets, or of four, and what is behind it.
fn first_unit(octets: &[u8], unit: usize) -> Option<(u32, &[u8])> {
    match octets {
        [row, cell, behind @ ..] if unit == 2 => {
            Some((u32::from_be_bytes([0, 0, *row, *cell]), behind))
        }
        [group, plane, row, cell, behind @ ..] if unit == 4 => {
            Some((u32::from_be_bytes([*group, *plane, *row, *cell]), behind))
        }
        _ => None,
    }
}

/// The text of characters of two octets each, or of four (X.680, clause 41); nothing where a character lacks an octet or is none.
fn wide_text(alloc: Global, octets: &[u8], unit: usize) -> Result<Option<String>> {
    let mut text = String::new(alloc);
    let mut rest = octets;
    for _ in 0..octets.len() {
        let Some((code, behind)) = first_unit(rest, unit) else {
            break;
        };
        let Some(character) = char::from_u32(code) else {
            return Ok(None);
        };
        text.push(character)?;
        rest = behind;
    }
    Ok(if rest.is_empty() { Some(text) } else { None })
}

/// Octets, as what the table says that they are.
fn octets_leaf(alloc: Global, octets: &[u8], kind: StringKind) -> Result<Leaf> {
    match kind {
        StringKind::BmpString | StringKind::UniversalString => {
            match wide_text(alloc, octets, kind.octets_per_character())? {
                Some(text) => Ok(Leaf::Text(text)),
                None => Ok(Leaf::NoText(hex_of(alloc, octets)?)),
            }
        }
        StringKind::ObjectIdentifier => match identifier_of(alloc, octets)? {
            Some(text) => Ok(Leaf::Identifier(text)),
            None => Ok(Leaf::Hex(hex_of(alloc, octets)?)),
        },
        StringKind::OctetString | StringKind::Any => Ok(Leaf::Hex(hex_of(alloc, octets)?)),
        _ => match std::str::from_utf8(octets) {
            Ok(text) => Ok(Leaf::Text(String::from_str(alloc, text)?)),
            Err(_) => Ok(Leaf::NoText(hex_of(alloc, octets)?)),
        },
    }
}

/// What a part is, by its content.
pub fn leaf_of(alloc: Global, tables: &Tables, node: Node, octets: &[u8]) -> Result<Leaf> {
    let word = |index: usize| tables.word_of(node.type_number, index);
    let string_kind = |index: usize| tables.string_kind(node.type_number, index);
    match Kind::of(node.kind) {
        Some(Kind::Boolean) => Ok(Leaf::Truth(octets.first().copied().unwrap_or(0) != 0)),
        Some(Kind::Null) => Ok(Leaf::Nothing),
        Some(Kind::FixedInteger) => number_leaf(alloc, tables, node, octets, word(1) == 1),
        Some(Kind::Integer) => number_leaf(alloc, tables, node, octets, word(0) == 1),
        Some(Kind::Enumerated) => enumerated_leaf(alloc, tables, node, octets),
        Some(Kind::FixedBitString) => {
            let count = word(0) as usize;
            let names = names_of(alloc, tables, node, octets, count)?;
            let digits = bits_in_hex(alloc, octets, count)?;
            Ok(Leaf::FixedBits(count, digits, names))
        }
        Some(Kind::BitString | Kind::NamedBitString) => { bits_leaf(alloc, tables, node, octets) }
        Some(Kind::FixedString) => octets_leaf(alloc, octets, string_kind(1)),
        Some(Kind::String) => octets_leaf(alloc, octets, string_kind(0)),
        _ => Ok(Leaf::Hex(hex_of(alloc, octets)?)),
    }
}

/// A text between quotation marks, as JSON has it.
pub fn push_quoted(alloc: Global, out: &mut String, text: &str) -> Result<()> {
    out.push('"')?;
    for character in text.chars() {
        match character {
            '"' => out.push_str("\\\"")?,
            '\\' => out.push_str("\\\\")?,
            _ if (character as u32) < 32 || character as u32 == 127 => {
                let code = character as u32;
                let escaped = format!(in alloc; "\\u{code:04x}")?;
                out.push_str(escaped.as_str())?;
            }
            _ => out.push(character)?,
        }
    }
    Ok(out.push('"')?)
}

/// Bits in hexadecimal, how many they are, and the names of those that are set.
fn push_bits(
    alloc: Global,
    out: &mut String,
    count: usize,
    digits: &str,
    names: &str,
) -> Result<()> {
    let text = format!(in alloc; "'{digits}'H, {count} bits")?;
    out.push_str(text.as_str())?;
    if !names.is_empty() {
        let text = format!(in alloc; " {{{names}}}")?;
        out.push_str(text.as_str())?;
    }
    Ok(())
}

impl Leaf {
    /// Puts it behind a line of a tree.
    pub fn push_text(&self, alloc: Global, out: &mut String) -> Result<()> {
        match self {
            Leaf::Truth(is_true) => Ok(out.push_str(if *is_true { "TRUE" } else { "FALSE" })?),
            Leaf::Nothing => Ok(out.push_str("NULL")?),
            Leaf::FixedBits(count, digits, names) | Leaf::Bits(count, digits, names) => {
                push_bits(alloc, &mut *out, *count, digits.as_str(), names.as_str())
            }
            Leaf::Text(text) => push_quoted(alloc, &mut *out, text.as_str()),
            Leaf::Number(number) => {
                let text = format!(in alloc; "{number}")?;
                Ok(out.push_str(text.as_str())?)
            }
            Leaf::NamedNumber(number, name) => {
                let name = name.as_str();
                let text = format!(in alloc; "{name} ({number})")?;
                Ok(out.push_str(text.as_str())?)
            }
            Leaf::Hex(digits) | Leaf::NoText(digits) => {
                let digits = digits.as_str();
                let text = format!(in alloc; "'{digits}'H")?;
                Ok(out.push_str(text.as_str())?)
            }
            Leaf::Name(text) | Leaf::Identifier(text) => Ok(out.push_str(text.as_str())?),
        }
    }

    /// Puts it behind JSON.
    pub fn push_json(&self, alloc: Global, out: &mut String) -> Result<()> {
        match self {
            Leaf::Truth(is_true) => Ok(out.push_str(if *is_true { "true" } else { "false" })?),
            Leaf::Nothing => Ok(out.push_str("null")?),
            Leaf::Number(number) | Leaf::NamedNumber(number, _) => {
                let text = format!(in alloc; "{number}")?;
                Ok(out.push_str(text.as_str())?)
            }
            Leaf::Bits(count, digits, _) => {
                let digits = digits.as_str();
                let text = format!(in alloc; "{{\"value\":\"{digits}\",\"length\":{count}}}")?;
                Ok(out.push_str(text.as_str())?)
            }
            Leaf::NoText(digits) => {
                let digits = digits.as_str();
                let text = format!(in alloc; "{{\"octets\":\"{digits}\"}}")?;
                Ok(out.push_str(text.as_str())?)
            }
            Leaf::FixedBits(_, text, _)
            | Leaf::Text(text)
            | Leaf::Name(text)
            | Leaf::Identifier(text)
            | Leaf::Hex(text) => push_quoted(alloc, &mut *out, text.as_str()),
        }
    }
}

//! Constructors, conversions and comparisons of the crates of ASN.1's values, of octets.
use crate::answers::{filled, made, plain};
use crate::clones::clone_of;
use crate::marks::begin;
use anyhow::{Error, Result};
use asn1_core::{Codec, SetOf};
use asn1_ints::{Integer, IntegerType};
use asn1_strings::{
    Any, BitString, BmpString, GeneralString, GraphicString, Ia5String, NumericString,
    ObjectIdentifier, OctetString, PrintableString, TeletexString, VisibleString,
    object_identifier_as_bytes, object_identifier_from_bytes,
};
use asn1_times::{Date, GeneralizedTime, UtcTime};
use oer_types::{GreatPositive, Small};
use std::alloc::{AllocError, Global};

/// Octet strings, bit strings and character strings of octets.
fn strings(alloc: Global, word: &str, octets: &[u8]) -> Result<Option<String>> {
    begin(alloc)?;
    let line = match word {
        "OctetString::from_slice" => made(alloc, &OctetString::from_slice(alloc, octets))?,
        "Any::from_slice" => made(alloc, &Any::from_slice(alloc, octets))?,
        "BitString::from_octets" => {
            made(
                alloc,
                &BitString::from_octets(alloc, octets, octets.len().saturating_mul(8)),
            )?
        }
        _ => return characters(alloc, word, octets),
    };
    Ok(Some(line))
}

/// Strings of few characters.
fn characters(alloc: Global, word: &str, octets: &[u8]) -> Result<Option<String>> {
    let line = match word {
        "NumericString::from_bytes" => plain(alloc, &NumericString::from_bytes(alloc, octets))?,
        "PrintableString::from_bytes" => plain(alloc, &PrintableString::from_bytes(alloc, octets))?,
        "VisibleString::from_bytes" => plain(alloc, &VisibleString::from_bytes(alloc, octets))?,
        "Ia5String::from_bytes" => plain(alloc, &Ia5String::from_bytes(alloc, octets))?,
        _ => return wide_characters(alloc, word, octets),
    };
    Ok(Some(line))
}

/// Strings of more.
fn wide_characters(alloc: Global, word: &str, octets: &[u8]) -> Result<Option<String>> {
    let line = match word {
        "GeneralString::from_bytes" => plain(alloc, &GeneralString::from_bytes(alloc, octets))?,
        "GraphicString::from_bytes" => plain(alloc, &GraphicString::from_bytes(alloc, octets))?,
        "TeletexString::from_bytes" => plain(alloc, &TeletexString::from_bytes(alloc, octets))?,
        "BmpString::from_bytes" => plain(alloc, &BmpString::from_bytes(alloc, octets))?,
        "BmpString::from_units" => made(alloc, &BmpString::from_units(alloc, &[0x41, 0x42]))?,
        _ => return times_of_texts(alloc, word, octets),
    };
    Ok(Some(line))
}

/// Times.
fn times_of_texts(alloc: Global, word: &str, octets: &[u8]) -> Result<Option<String>> {
    let line = match word {
        "UtcTime::from_text" => plain(alloc, &UtcTime::from_text(octets))?,
        "GeneralizedTime::from_text" => plain(alloc, &GeneralizedTime::from_text(octets))?,
        "Date::from_text" => plain(alloc, &Date::from_text(octets))?,
        _ => return Ok(None),
    };
    Ok(Some(line))
}

/// Object identifiers, and the octets of texts.
fn identifiers(alloc: Global, word: &str, octets: &[u8]) -> Result<Option<String>> {
    let line = match word {
        "object_identifier_from_bytes" => {
            begin(alloc)?;
            let it = object_identifier_from_bytes(alloc, octets, Codec::Coer);
            plain(alloc, &it)?
        }
        "object_identifier_as_bytes" => {
            let it = object_identifier_from_bytes(alloc, octets, Codec::Coer)?;
            let mut out = Vec::from_slice(alloc, &[0xaa])?;
            begin(alloc)?;
            let answer = object_identifier_as_bytes(it.arcs(), Codec::Coer, &mut out);
            crate::answers::appended(alloc, answer, &out)?
        }
        _ => return made_of_parts(alloc, word, octets),
    };
    Ok(Some(line))
}

/// Values of arcs, units and texts.
fn made_of_parts(alloc: Global, word: &str, octets: &[u8]) -> Result<Option<String>> {
    let line = match word {
        "ObjectIdentifier::new" => {
            let arcs = vec![in alloc; 2, 999]?;
            begin(alloc)?;
            plain(alloc, &ObjectIdentifier::new(arcs))?
        }
        "GeneralString::from_text" if GeneralString::is_text(octets) => {
            begin(alloc)?;
            made(alloc, &GeneralString::from_text(alloc, octets))?
        }
        "BmpString::to_bytes" => {
            let it = BmpString::from_units(alloc, &[0x41, 0x42])?;
            begin(alloc)?;
            made(alloc, &it.to_bytes(alloc))?
        }
        _ => return times(alloc, word, octets),
    };
    Ok(Some(line))
}

/// The texts of times.
fn times(alloc: Global, word: &str, octets: &[u8]) -> Result<Option<String>> {
    let line = match word {
        "UtcTime::to_text" => {
            let it = UtcTime::from_text(octets)?;
            begin(alloc)?;
            let text = it.to_text()?;
            plain(alloc, &text.as_bytes())?
        }
        "GeneralizedTime::to_text" => {
            let it = GeneralizedTime::from_text(octets)?;
            begin(alloc)?;
            let text = it.to_text()?;
            plain(alloc, &text.as_bytes())?
        }
        "Date::to_text" => {
            let it = Date::from_text(octets)?;
            begin(alloc)?;
            let text = it.to_text()?;
            plain(alloc, &text.as_bytes())?
        }
        _ => return Ok(None),
    };
    Ok(Some(line))
}

/// Numbers of Rust's types, and of a range.
fn plain_numbers(alloc: Global, word: &str, octets: &[u8]) -> Result<Option<String>> {
    let mut out = Vec::from_slice(alloc, &[0xaa])?;
    let line = match word {
        "i64::write_signed_bytes_be" => {
            begin(alloc)?;
            let answer = (-255i64).write_signed_bytes_be(&mut out);
            filled(alloc, answer, &out)?
        }
        "u128::write_unsigned_bytes_be" => {
            begin(alloc)?;
            let answer = 255u128.write_unsigned_bytes_be(&mut out);
            filled(alloc, answer, &out)?
        }
        _ => return read_numbers(alloc, word, octets),
    };
    Ok(Some(line))
}

/// Numbers of octets, and of a range.
fn read_numbers(alloc: Global, word: &str, octets: &[u8]) -> Result<Option<String>> {
    let line = match word {
        "i64::try_from_signed_bytes" => {
            begin(alloc)?;
            plain(
                alloc,
                &i64::try_from_signed_bytes(alloc, octets, Codec::Coer),
            )?
        }
        "u128::try_from_unsigned_bytes" => {
            begin(alloc)?;
            plain(
                alloc,
                &u128::try_from_unsigned_bytes(alloc, octets, Codec::Coer),
            )?
        }
        "ConstrainedInteger::new" => {
            begin(alloc)?;
            plain(alloc, &Small::new(7))?
        }
        "ConstrainedInteger::try_new" => {
            begin(alloc)?;
            plain(alloc, &Small::try_new(7))?
        }
        _ => return ranged_numbers(alloc, word, octets),
    };
    Ok(Some(line))
}

/// Numbers of a range that may be as long as memory.
fn ranged_numbers(alloc: Global, word: &str, octets: &[u8]) -> Result<Option<String>> {
    let mut out = Vec::from_slice(alloc, &[0xaa])?;
    let line = match word {
        "ConstrainedInteger::try_from_signed_bytes" => {
            begin(alloc)?;
            plain(
                alloc,
                &Small::try_from_signed_bytes(alloc, octets, Codec::Coer),
            )?
        }
        "ConstrainedInteger::try_from_unsigned_bytes" => {
            begin(alloc)?;
            plain(
                alloc,
                &Small::try_from_unsigned_bytes(alloc, octets, Codec::Coer),
            )?
        }
        "ConstrainedInteger::write_signed_bytes_be" => {
            let number = Small::new(-4);
            begin(alloc)?;
            let answer = number.write_signed_bytes_be(&mut out);
            filled(alloc, answer, &out)?
        }
        "ConstrainedInteger::write_unsigned_bytes_be" => {
            let number = GreatPositive::new(255);
            begin(alloc)?;
            let answer = if number.is_negative() {
                Err(AllocError)
            } else {
                number.write_unsigned_bytes_be(&mut out)
            };
            filled(alloc, answer, &out)?
        }
        _ => return Ok(None),
    };
    Ok(Some(line))
}

/// Integers.
fn numbers(alloc: Global, word: &str, octets: &[u8]) -> Result<Option<String>> {
    if word == "Integer::from_signed_octets" {
        begin(alloc)?;
        return Ok(Some(made(alloc, &Integer::from_signed_octets(alloc, octets))?));
    }
    if word == "try_from_signed_bytes" {
        begin(alloc)?;
        let it = Integer::try_from_signed_bytes(alloc, octets, Codec::Coer);
        return Ok(Some(plain(alloc, &it)?));
    }
    if word == "try_from_unsigned_bytes" {
        begin(alloc)?;
        let it = Integer::try_from_unsigned_bytes(alloc, octets, Codec::Coer);
        return Ok(Some(plain(alloc, &it)?));
    }
    let Some(number) = Integer::from_signed_octets(alloc, octets)? else {
        return Ok(None);
    };
    let other = Integer::from_i128(7);
    let mut out = Vec::from_slice(alloc, &[0xaa])?;
    begin(alloc)?;
    let line = match word {
        "signed_octets" => made(alloc, &number.signed_octets(alloc))?,
        "write_signed_bytes_be" => {
            let answer = number.write_signed_bytes_be(&mut out);
            filled(alloc, answer, &out)?
        }
        "write_unsigned_bytes_be" if !number.is_negative() => {
            let answer = number.write_unsigned_bytes_be(&mut out);
            filled(alloc, answer, &out)?
        }
        "cmp" => plain(alloc, &number.cmp(&other))?,
        "to_i128" => plain(alloc, &number.to_i128())?,
        _ => return Ok(None),
    };
    Ok(Some(line))
}

/// Unordered lists of the octets, which stand in a list without room.
fn sets(alloc: Global, word: &str, octets: &[u8]) -> Result<String> {
    let items = Vec::from_slice(alloc, octets)?;
    let other = SetOf::from_vec(Vec::from_slice(alloc, octets)?);
    if word == "SetOf::from_vec" {
        begin(alloc)?;
        return plain(alloc, &SetOf::from_vec(items));
    }
    let mut set = SetOf::from_vec(items);
    begin(alloc)?;
    match word {
        "SetOf::to_vec" => made(alloc, &set.to_vec()),
        "SetOf::len" => plain(alloc, &set.len()),
        "SetOf::==" => plain(alloc, &(set == other)),
        "SetOf::insert" => {
            let answer = set.insert(7);
            let list = made(alloc, &answer)?;
            Ok(format!(in alloc; "{}; {:?}", list, set)?)
        }
        _ => Err(Error::msg("no such call")),
    }
}

/// What a call answers, by its word.
pub fn value_call(alloc: Global, word: &str, octets: &[u8]) -> Result<String> {
    if let Some(line) = clone_of(alloc, word, octets)? {
        return Ok(line);
    }
    if let Some(line) = identifiers(alloc, word, octets)? {
        return Ok(line);
    }
    if word.starts_with("SetOf::") {
        return sets(alloc, word, octets);
    }
    if let Some(line) = plain_numbers(alloc, word, octets)? {
        return Ok(line);
    }
    if let Some(line) = numbers(alloc, word, octets)? {
        return Ok(line);
    }
    match strings(alloc, word, octets)? {
        Some(line) => Ok(line),
        None => Err(Error::msg("no such call")),
    }
}

//! Methods of `Decoder` that ask a component, each in a sequence of that component alone, behind a boolean.
use crate::answers::left;
use crate::entry::{Call, options_of};
use crate::marks::begin;
use crate::one_row::{Way, read_addition, read_default, read_default_addition, read_optional};
use anyhow::Result;
use rasn_oer::{Decode, Decoder};
use std::alloc::Global;

/// Which component is asked, and how.
#[derive(Clone, Copy)]
enum Asked {
    Optional(Way),
    Default(Way),
    /// Whether it has an explicit prefix.
    Addition(bool),
    DefaultAddition,
}

/// How a method asks, by the end of its word.
fn way_of(end: &str) -> Option<Way> {
    match end {
        "" => Some(Way::Plain),
        "_with_tag" => Some(Way::ByTag),
        "_with_constraints" => Some(Way::ByConstraints),
        "_with_tag_and_constraints" => Some(Way::ByBoth),
        "_with_explicit_prefix" => Some(Way::ByPrefix),
        _ => None,
    }
}

/// What a method asks, by its word; nothing where it asks no component.
fn asked_by(word: &str) -> Option<Asked> {
    if let Some(end) = word.strip_prefix("decode_optional") {
        return Some(Asked::Optional(way_of(end)?));
    }
    if let Some(end) = word.strip_prefix("decode_default") {
        return match way_of(end)? {
            Way::ByPrefix => None,
            way => Some(Asked::Default(way)),
        };
    }
    match word {
        "decode_extension_addition_with_tag_and_constraints" => Some(Asked::Addition(false)),
        "decode_extension_addition_default" => Some(Asked::DefaultAddition),
        "decode_extension_addition_with_explicit_tag_and_constraints" => Some(Asked::Addition(
            true,
        )),
        _ => None,
    }
}

fn optional(alloc: Global, decoder: &mut Decoder<'_>, way: Way) -> Result<String> {
    let answer = read_optional(alloc, decoder, way);
    left(alloc, decoder, &answer)
}

fn default(alloc: Global, decoder: &mut Decoder<'_>, way: Way) -> Result<String> {
    let answer = read_default(alloc, decoder, way);
    left(alloc, decoder, &answer)
}

fn addition(alloc: Global, decoder: &mut Decoder<'_>, has_prefix: bool) -> Result<String> {
    let answer = read_addition(alloc, decoder, has_prefix);
    left(alloc, decoder, &answer)
}

fn default_addition(alloc: Global, decoder: &mut Decoder<'_>) -> Result<String> {
    let answer = read_default_addition(alloc, decoder);
    left(alloc, decoder, &answer)
}

/// What a method answers, by its word; nothing where it asks no component.
pub fn component_method(call: Call<'_>) -> Result<Option<String>> {
    let alloc = call.alloc;
    let Some(asked) = asked_by(call.word) else {
        return Ok(None);
    };
    let mut decoder = Decoder::new(call.octets, options_of(call.codec));
    let _boolean = bool::decode(alloc, &mut decoder)?;
    begin(alloc)?;
    let line = match asked {
        Asked::Optional(way) => optional(alloc, &mut decoder, way)?,
        Asked::Default(way) => default(alloc, &mut decoder, way)?,
        Asked::Addition(has_prefix) => addition(alloc, &mut decoder, has_prefix)?,
        Asked::DefaultAddition => default_addition(alloc, &mut decoder)?,
    };
    Ok(Some(line))
}

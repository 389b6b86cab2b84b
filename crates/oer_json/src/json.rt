//! A JSON value, with its members in their order.

use crate::refusals::Refusal;
use serde::{Deserialize, Deserializer, Format, Kind};
use std::alloc::{AllocError, Global};

/// How deep values may be nested, as in `serde_json`.
const MAX_DEPTH: usize = 127;

/// A JSON value. Unlike `serde_json`'s it has integers of 128 bits, and each member that stands in the text, in its place.
#[derive(Debug, Drop)]
pub enum Json {
    Null,
    Bool(bool),
    Number(i128),
    /// A number that is no integer, or one of more than 128 bits.
    OtherNumber,
    Text(String),
    List(Vec<Json>),
    Members(Vec<(String, Json)>),
}

impl Json {
    /// Reads the one value of a text. Refused, the first that applies: octets that aren't UTF-8, as `NotUtf8`; a text that is no
    /// JSON or is nested deeper than 127, as `NotJson` with the place in the text.
    pub fn read(alloc: Global, text: &[u8]) -> Result<Json, Refusal> {
        let Ok(text) = std::str::from_utf8(text) else {
            return Err(Refusal::NotUtf8);
        };
        match serde_json::from_str::<Json>(alloc, text) {
            Ok(json) => Ok(json),
            Err(error) => Err(no_json(alloc, &error)?),
        }
    }
}

/// What a text that is no JSON is refused with.
fn no_json(alloc: Global, error: &serde_json::Error) -> Result<Refusal, AllocError> {
    Ok(Refusal::NotJson(format!(in alloc; "{error}")?))
}

impl<'de> Deserialize<'de> for Json {
    fn deserialize<F: Format>(
        alloc: Global,
        from: &mut Deserializer<'de, '_, F>,
    ) -> Result<Json, F::Error> {
        read_value(alloc, from, MAX_DEPTH)
    }
}

/// A number: an integer of 128 bits, or another one, which is passed over.
fn read_number<F: Format>(from: &mut Deserializer<'_, '_, F>) -> Result<Json, F::Error> {
    let mark = from.mark();
    let number = from.i128();
    if number.is_err() {
        from.rewind(mark);
    }
    from.release(mark);
    match number {
        Ok(number) => Ok(Json::Number(number)),
        Err(_) => {
            from.skip()?;
            Ok(Json::OtherNumber)
        }
    }
}

#[cycle(reading)]
fn read_value<F: Format>(
    alloc: Global,
    from: &mut Deserializer<'_, '_, F>,
    depth: usize,
) -> Result<Json, F::Error> {
    match from.peek()? {
        Kind::Unit => {
            from.take_unit()?;
            Ok(Json::Null)
        }
        Kind::Bool => Ok(Json::Bool(from.bool()?)),
        Kind::Unsigned | Kind::Signed | Kind::Float => read_number(from),
        Kind::Str => Ok(Json::Text(from.string(alloc)?)),
        Kind::Seq if depth > 0 => Ok(Json::List(read_list(alloc, from, depth - 1)?)),
        Kind::Map if depth > 0 => Ok(Json::Members(read_members(alloc, from, depth - 1)?)),
        _ => Err(from.invalid()),
    }
}

#[cycle(reading)]
fn read_list<F: Format>(
    alloc: Global,
    from: &mut Deserializer<'_, '_, F>,
    depth: usize,
) -> Result<Vec<Json>, F::Error> {
    from.begin_seq()?;
    let mut items = Vec::new(alloc);
    for _ in 0..u64::MAX {
        if !from.next_item()? {
            break;
        }
        if items.push(read_value(alloc, from, depth)?).is_err() {
            return Err(from.no_memory());
        }
    }
    Ok(items)
}

#[cycle(reading)]
fn read_members<F: Format>(
    alloc: Global,
    from: &mut Deserializer<'_, '_, F>,
    depth: usize,
) -> Result<Vec<(String, Json)>, F::Error> {
    from.begin_map()?;
    let mut members = Vec::new(alloc);
    for _ in 0..u64::MAX {
        if !from.next_entry()? {
            break;
        }
        let name = from.string(alloc)?;
        let value = read_value(alloc, from, depth)?;
        if members.push((name, value)).is_err() {
            return Err(from.no_memory());
        }
    }
    Ok(members)
}

//! From a text to octets that the walk takes.
ghost use Rattle.std.specs.Prelude.{◌↔◌, ◌⊎◌, IfOk, IsTrue};
ghost use Rattle.oer_json.specs.Readings.{Answers, IsWritten, reading_of};
ghost use Rattle.oer_json.specs.Whole.{IsWalkedWhole, HasTooManyParts};
ghost use Rattle.oer_spec.specs.Encoding.{IsTree, IsEncoding};
ghost use Rattle.oer_spec.specs.Mode.{Lenient};
ghost use Rattle.oer_spec.specs.Tree.{Tree};
ghost use Rattle.oer_walk.specs.Described.{Describes};

use crate::components::{Member, has_component};
use crate::json::Json;
use crate::refusals::{Refusal, refusal_of};
use crate::tables::Tables;
use crate::values::{Source, put_value};
use oer_walk::{Kind, walk};
use std::alloc::Global;

/// How many sequences, sets, lists and choices may be nested.
const LEVELS: u32 = 1024;

/// Whether the walk takes octets whole.
fn is_walked_whole(tables: &Tables, type_number: u32, octets: &[u8]) -> bool
    ensures whole { IsTrue result ↔ IsWalkedWhole tables.now.words.items type_number 1024 octets.now }
    ensures takes { (t : Tree) → IsTree t → Describes tables.now.words.items type_number t → IsEncoding Lenient 1024 octets.now t → IsTrue result ⊎ HasTooManyParts tables.now.words.items type_number 1024 octets.now }
{
    let walked = walk(
        tables.words.as_slice(),
        type_number,
        LEVELS,
        octets,
        &mut [],
    );
    walked.refusal.is_none() && walked.consumed == octets.len()
}

/// Whether members are those of a line that `oershow --json` prints, and no value of a type that has such components itself.
fn is_line(tables: &Tables, type_number: u32, members: &[Member]) -> bool {
    match members {
        [octets, value] => {
            octets.0.as_str() == "octets"
                && value.0.as_str() == "value"
                && !(tables.kind_of(type_number) == Some(Kind::Sequence)
                    && has_component(tables, type_number, "octets"))
        }
        _ => false,
    }
}

/// The value in a line that `oershow --json` prints, or the value itself.
fn value_in<'j>(tables: &Tables, type_number: u32, json: &'j Json) -> &'j Json {
    match json {
        Json::Members(members) if is_line(tables, type_number, members.as_slice()) => {
            match members.as_slice() {
                [_, value] => &value.1,
                _ => json,
            }
        }
        _ => json,
    }
}

/// The octets of a value, before they are walked.
fn written(
    alloc: Global,
    tables: &Tables,
    type_number: u32,
    json: &Json,
) -> Result<Vec<u8>, Refusal>
    ensures { IsWritten (reading_of tables.now type_number json.now) result }
{
    let mut path = Vec::new(alloc);
    let mut octets = Vec::new(alloc);
    let source = Source { alloc, tables };
    match put_value(source, type_number, LEVELS, json, &mut path, &mut octets) {
        Ok(()) => Ok(octets),
        Err(fault) => Err(refusal_of(alloc, tables, path.as_slice(), fault)?),
    }
}

/// The canonical octets (X.696) of a value of the type with that number, which stands there in JSON (X.697). They are octets
/// that the walk by the table takes whole, within 1024 levels.
///
/// Refused: what is no value of the type, as `Misfit` with the first path that doesn't fit and what is expected there; octets
/// that the walk doesn't take, as `NotWalked`.
pub fn octets_of_json(
    alloc: Global,
    tables: &Tables,
    type_number: u32,
    json: &Json,
) -> Result<Vec<u8>, Refusal>
    ensures whole { IfOk result (λ octets. IsWalkedWhole tables.now.words.items type_number 1024 octets.items) }
    ensures answers { Answers tables.now.words.items type_number 1024 (reading_of tables.now type_number json.now) result }
{
    let octets = written(alloc, tables, type_number, json)?;
    if is_walked_whole(tables, type_number, octets.as_slice()) {
        Ok(octets)
    } else {
        Err(Refusal::NotWalked)
    }
}

/// The canonical octets of a value of the type with that number, by [`octets_of_json`]: of one that a text has in JSON, or that
/// a line has which `oershow --json` prints of it.
///
/// Refused besides: octets that aren't UTF-8, as `NotUtf8`; what is no JSON, as `NotJson`.
pub fn octets_of(
    alloc: Global,
    tables: &Tables,
    type_number: u32,
    text: &[u8],
) -> Result<Vec<u8>, Refusal>
    ensures { IfOk result (λ octets. IsWalkedWhole tables.now.words.items type_number 1024 octets.items) }
{
    let json = Json::read(alloc, text)?;
    let json = value_in(tables, type_number, &json);
    octets_of_json(alloc, tables, type_number, json)
}

//! Vectors of rasn's tests.

use crate::typed::{constraints_of, with_typed, word_of};
use crate::values::{InPlace, Seen, Shown};
use anyhow::{Error, Result};
use asn1_core::{Codec, DecodeErrorKind};
use std::alloc::Global;

/// What is read, or the kind of the refusal.
fn seen(word: &str, shown: Shown<'_>) -> Result<std::result::Result<Seen, DecodeErrorKind>> {
    match with_typed(word, shown) {
        Some(answer) => answer,
        None => Err(Error::msg("no such type")),
    }
}

/// The value, the octets that both modules write of it, and what is left; or the kind of the refusal.
fn in_mode(word: &str, shown: Shown<'_>) -> Result<String> {
    let alloc = shown.alloc;
    match seen(word, shown)? {
        Ok(
            Seen {
                value,
                written,
                rest,
            },
        ) => {
            let octets = written?;
            let octets = hex::encode(alloc, octets.as_slice())?;
            Ok(format!(in alloc; "{};{};{}", value, octets, rest)?)
        }
        Err(kind) => Ok(format!(in alloc; "{:?}", kind)?),
    }
}

/// What both modes read of the octets of a type with constraints behind its word.
pub fn in_both_modes(alloc: Global, typed: &str, octets: &[u8]) -> Result<String> {
    let word = word_of(typed);
    let in_place = match constraints_of(typed)? {
        Some(constraints) => InPlace::Both(constraints),
        None => InPlace::Nothing,
    };
    let shown = Shown {
        alloc,
        codec: Codec::Oer,
        octets,
        in_place,
    };
    let lenient = in_mode(word, shown)?;
    let codec = Codec::Coer;
    let canonical = in_mode(word, Shown { codec, ..shown })?;
    if lenient == canonical {
        return Ok(canonical);
    }
    Ok(format!(in alloc; "oer {} coer {}", lenient, canonical)?)
}

/// Why what is read under the type's own constraints isn't written under those behind its word.
pub fn outside(alloc: Global, typed: &str, octets: &[u8]) -> Result<String> {
    let Some(constraints) = constraints_of(typed)? else {
        return Err(Error::msg("no constraints"));
    };
    let shown = Shown {
        alloc,
        codec: Codec::Coer,
        octets,
        in_place: InPlace::OfWriting(constraints),
    };
    match seen(word_of(typed), shown)? {
        Ok(Seen { written, .. }) => match written {
            Ok(_) => Err(Error::msg("written")),
            Err(e) => Ok(format!(in alloc; "{:?}", e.kind)?),
        },
        Err(kind) => Err(Error::msg(kind.name())),
    }
}

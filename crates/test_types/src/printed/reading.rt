//! What is answered of octets, for any type.

use anyhow::{Error, Result};
use rasn_oer::prelude::*;
use rasn_oer::{coer, oer};
use std::alloc::Global;
use std::fmt::Debug;

/// Whether the value is written as these octets, and read again by the other module.
fn is_of<T: Encode + Decode + PartialEq>(alloc: Global, value: &T, octets: &[u8]) -> Result<bool> {
    let written = coer::encode(alloc, value)?;
    let lenient: T = oer::decode(alloc, octets)?;
    Ok(written.as_slice() == octets && lenient == *value)
}

/// The value of canonical octets.
fn value_of<T: Encode + Decode + Debug + PartialEq>(
    alloc: Global,
    octets: &[u8],
) -> Result<String> {
    let value: T = coer::decode(alloc, octets)?;
    if !is_of(alloc, &value, octets)? {
        return Err(Error::msg("other octets, or another value"));
    }
    Ok(format!(in alloc; "{:?}", value)?)
}

/// The canonical octets, as digits, of the value that is read leniently of all these octets.
fn canonical_digits<T: Encode + Decode>(alloc: Global, octets: &[u8]) -> Result<String> {
    let (written, rest) = oer::canonicalise::<T>(alloc, octets)?;
    if !rest.is_empty() {
        return Err(Error::msg("octets are left"));
    }
    Ok(hex::encode(alloc, written.as_slice())?)
}

/// Why octets are refused in canonical mode, and what they are in it.
fn refusal_of<T: Encode + Decode>(alloc: Global, octets: &[u8]) -> Result<String> {
    let digits = canonical_digits::<T>(alloc, octets)?;
    match coer::decode::<T>(alloc, octets) {
        Ok(_) => Err(Error::msg("not refused")),
        Err(e) => Ok(format!(in alloc; "{};{}", e.kind.name(), digits)?),
    }
}

/// What a row asks of octets of `T`.
pub fn answer_of<T: Encode + Decode + Debug + PartialEq>(
    alloc: Global,
    verb: &str,
    octets: &[u8],
) -> Result<String> {
    match verb {
        "value" => value_of::<T>(alloc, octets),
        "refused" => refusal_of::<T>(alloc, octets),
        _ => Err(Error::msg("no such verb")),
    }
}

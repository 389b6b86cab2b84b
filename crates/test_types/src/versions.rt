//! Values of one version of a type as ones of another.

mod choices;
mod nests;
mod pairs;
mod turning;

use anyhow::{Error, Result};
use asn1_core::Codec;
use choices::with_versions;
use nests::{AROUND, Nest};
use std::alloc::Global;
use turning::{To, Turned, Turning};

/// Canonical octets of the other version's value, and those of it that are one of its own again; or why there is no other.
type ThereAndBack = std::result::Result<(Vec<u8>, Vec<u8>), String>;

/// One value of the other version.
fn other_of(versions: &str, turning: Turning<'_>) -> Result<Turned> {
    match with_versions(versions, turning) {
        Some(answer) => answer,
        None => Err(Error::msg("no such versions")),
    }
}

/// The canonical octets of a value of the other version, which there is.
fn must_turn(versions: &str, turning: Turning<'_>) -> Result<Vec<u8>> {
    match other_of(versions, turning)? {
        Ok(octets) => Ok(octets),
        Err(kind) => Err(Error::msg(kind)),
    }
}

/// There and back: a newer value's older one is read of the newer one that it becomes again, and an older value comes back as it was.
fn there_and_back(versions: &str, turning: Turning<'_>) -> Result<ThereAndBack> {
    let to = turning.to;
    let other = match other_of(versions, turning)? {
        Ok(other) => other,
        Err(kind) => return Ok(Err(kind)),
    };
    let back = Turning {
        to: to.back(),
        octets: other.as_slice(),
        ..turning
    };
    let own = must_turn(versions, back)?;
    let is_same = match to {
        To::Newer => own.as_slice() == turning.octets,
        To::Older => {
            let again = Turning {
                octets: own.as_slice(),
                ..turning
            };
            must_turn(versions, again)? == other
        }
    };
    if !is_same {
        return Err(Error::msg("the older version is another"));
    }
    Ok(Ok((other, own)))
}

/// That the same is answered where both versions lie in another type.
fn is_same_within(
    versions: &str,
    turning: Turning<'_>,
    nest: Nest,
    plain: &ThereAndBack,
) -> Result<bool> {
    let alloc = turning.alloc;
    let octets = nest.around(alloc, turning.octets)?;
    let within = Turning {
        nest,
        octets: octets.as_slice(),
        ..turning
    };
    match (there_and_back(versions, within)?, plain) {
        (Ok((other, own)), Ok((plain_other, plain_own))) => {
            let other_within = nest.around(alloc, plain_other.as_slice())?;
            let own_within = nest.around(alloc, plain_own.as_slice())?;
            Ok(other == other_within && own == own_within)
        }
        (Err(kind), Err(plain_kind)) => Ok(kind == *plain_kind),
        _ => Ok(false),
    }
}

/// What is answered to a row of two versions.
fn told(versions: &str, turning: Turning<'_>) -> Result<String> {
    let alloc = turning.alloc;
    let plain = there_and_back(versions, turning)?;
    for nest in AROUND {
        if !is_same_within(versions, turning, nest, &plain)? {
            return Err(Error::msg("answered otherwise within another type"));
        }
    }
    match plain {
        Ok((other, own)) => {
            let other = hex::encode(alloc, other.as_slice())?;
            let own = hex::encode(alloc, own.as_slice())?;
            Ok(format!(in alloc; "{};{}", other, own)?)
        }
        Err(kind) => Ok(kind),
    }
}

/// What is answered to a row: a verb, a mode, two versions, and octets in hexadecimal.
pub fn answer(alloc: Global, verb: &str, mode: &str, versions: &str, text: &str) -> Result<String> {
    let to = match verb {
        "older" => To::Older,
        _ => To::Newer,
    };
    let codec = match mode {
        "oer" => Codec::Oer,
        "coer" => Codec::Coer,
        _ => return Err(Error::msg("no such mode")),
    };
    let octets = hex::decode(alloc, text)?;
    let turning = Turning {
        alloc,
        codec,
        to,
        nest: Nest::Plain,
        octets: octets.as_slice(),
    };
    told(versions, turning)
}

//! Octets that stand in JSON as a text in hexadecimal.
ghost use Rattle.std.specs.Prelude.{◌≡◌, ◌⊎◌, MatchResult, IsErr};
ghost use Rattle.hex.specs.Hex.{decode_of};
ghost use Rattle.oer_json.specs.Readings.{Finds, octets_in};

use crate::json::Json;
use crate::refusals::{Fault, Misfit, wrong_sort};
use hex::FromHexError;
use std::alloc::Global;

/// What a text that stands for octets, bits and open types is.
pub const HEXADECIMAL: &str = "a text in hexadecimal";

/// The octets that a text has in hexadecimal.
pub fn octets_in(alloc: Global, text: &str) -> Result<Vec<u8>, Fault>
    ensures { MatchResult result (λ octets. decode_of text.now ≡ Ok octets.items) (λ e. (e ≡ Fault.OutOfMemory) ⊎ IsErr (decode_of text.now)) }
{
    match hex::decode(alloc, text) {
        Ok(octets) => Ok(octets),
        Err(FromHexError::OutOfMemory) => Err(Fault::OutOfMemory),
        Err(_) => Err(Fault::Misfit(Misfit::NoHexadecimal)),
    }
}

/// The octets of a value that is a text in hexadecimal.
pub fn hexadecimal(alloc: Global, json: &Json) -> Result<Vec<u8>, Fault>
    ensures { Finds (λ octets. octets.items) result (octets_in json.now) }
{
    match json {
        Json::Text(text) => octets_in(alloc, text.as_str()),
        _ => Err(wrong_sort(HEXADECIMAL)),
    }
}

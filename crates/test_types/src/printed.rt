//! Octets and values of the types that oergen printed.

mod made;
mod reading;
mod types;

use anyhow::Result;
use made::is_made;
use std::alloc::Global;
use types::of_type;

/// What is answered to a row: a verb, the name of a type or a value, and octets in hexadecimal.
pub fn answer(alloc: Global, verb: &str, name: &str, text: &str) -> Result<String> {
    let octets = hex::decode(alloc, text)?;
    if verb == "made" {
        let same = is_made(alloc, name, octets.as_slice())?;
        Ok(format!(in alloc; "{same}")?)
    } else {
        of_type(alloc, name, verb, octets.as_slice())
    }
}

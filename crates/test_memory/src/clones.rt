//! Clones of values, and of the octets under an id that no object has.
use crate::answers::{made, read};
use crate::marks::begin;
use anyhow::{Error, Result};
use asn1_core::{Codec, SetOf};
use asn1_ints::Integer;
use asn1_strings::{Any, BitString, NamedBits, OctetString, object_identifier_from_bytes};
use oer_rows::{ListOf, OpenOctets};
use rasn_oer::DecoderOptions;
use rasn_oer::open::other_octets;
use std::alloc::Global;
use std::fmt::Debug;

/// The clone of a value.
fn cloned<T: Clone + Debug>(alloc: Global, value: &T) -> Result<String> {
    begin(alloc)?;
    made(alloc, &value.clone())
}

/// The clone of a value that octets may not be.
fn cloned_if<T: Clone + Debug>(alloc: Global, value: Option<T>) -> Result<String> {
    match value {
        Some(value) => cloned(alloc, &value),
        None => Err(Error::msg("no such value")),
    }
}

/// The octets of an open type under another id.
fn kept(alloc: Global, octets: &[u8]) -> Result<String> {
    let open = OpenOctets(Any::from_slice(alloc, octets)?);
    begin(alloc)?;
    read(alloc, &other_octets(DecoderOptions::coer(), &open))
}

/// The bits of whole octets.
fn bits_of(alloc: Global, octets: &[u8]) -> Result<Option<BitString>> {
    let count = octets.len().saturating_mul(8);
    Ok(BitString::from_octets(alloc, octets, count)?)
}

/// Clones of lists of the octets.
fn cloned_list(alloc: Global, word: &str, octets: &[u8]) -> Result<Option<String>> {
    let items = Vec::from_slice(alloc, octets)?;
    let line = match word {
        "ListOf::clone" => cloned(alloc, &ListOf(items))?,
        "SetOf::clone" => cloned(alloc, &SetOf::from_vec(items))?,
        _ => return Ok(None),
    };
    Ok(Some(line))
}

/// What a clone answers, by its word; nothing where the word names none.
pub fn clone_of(alloc: Global, word: &str, octets: &[u8]) -> Result<Option<String>> {
    let line = match word {
        "other_octets" => kept(alloc, octets)?,
        "OctetString::clone" => cloned(alloc, &OctetString::from_slice(alloc, octets)?)?,
        "BitString::clone" => cloned_if(alloc, bits_of(alloc, octets)?)?,
        "NamedBits::clone" => {
            cloned_if(
                alloc,
                bits_of(alloc, octets)?.map(|bits| NamedBits::new(bits)),
            )?
        }
        "Integer::clone" => cloned_if(alloc, Integer::from_signed_octets(alloc, octets)?)?,
        "ObjectIdentifier::clone" => {
            let it = object_identifier_from_bytes(alloc, octets, Codec::Coer)?;
            cloned(alloc, &it)?
        }
        _ => return cloned_list(alloc, word, octets),
    };
    Ok(Some(line))
}

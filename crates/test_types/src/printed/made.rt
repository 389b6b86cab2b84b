//! Values that are made by code: each alternative of a choice, a set, and a sequence.

use anyhow::{Error, Result};
use example_printed::{
    Bag, BagComponents, Row, RowComponents, RowInnerComponents, Signal, SignalAlternatives,
};
use rasn_oer::coer;
use rasn_oer::prelude::*;
use std::alloc::Global;

/// A signal by its alternative's name.
fn signal(alloc: Global, name: &str) -> Result<Signal> {
    match name {
        "busy" => Ok(OneOf(SignalAlternatives::Busy(()))),
        "level" => Ok(OneOf(SignalAlternatives::Level(Limited::new(99)))),
        "new-key" => {
            let key = OctetString::from_slice(alloc, &[0xAA, 0xBB, 0xCC, 0xDD])?;
            Ok(OneOf(SignalAlternatives::NewKey(Limited::new(Octets(key)))))
        }
        _ => Err(Error::msg("no such value")),
    }
}

/// A bag without its addition.
fn bag(alloc: Global) -> Result<Bag> {
    let c = Ia5String::from_bytes(alloc, b"N")?;
    Ok(Set(BagComponents {
        a: Some(true),
        c: Limited::new(Ia5Text(c)),
        b: -1,
        more: None,
    }))
}

/// A row of defaults, with two of its additions.
fn short_row(alloc: Global) -> Row {
    Sequence(RowComponents {
        ok: true,
        percent: Limited::new(3),
        key: None,
        names: ListOf(Vec::new(alloc)),
        inner: Sequence(RowInnerComponents {
            x: 255,
            colour: None,
        }),
        r_type: Integer::from_i128(-2),
        next: Some(Limited::new(Integer::from_i128(-5))),
        group_1: None,
        sure: Some(false),
    })
}

/// Whether the octets are read as this value.
fn is_read<T: Decode + PartialEq>(alloc: Global, value: &T, octets: &[u8]) -> Result<bool> {
    let read: T = coer::decode(alloc, octets)?;
    Ok(read == *value)
}

/// Whether the octets are read as the value of that name.
pub fn is_made(alloc: Global, name: &str, octets: &[u8]) -> Result<bool> {
    match name {
        "bag" => is_read(alloc, &bag(alloc)?, octets),
        "row" => is_read(alloc, &short_row(alloc), octets),
        _ => is_read(alloc, &signal(alloc, name)?, octets),
    }
}

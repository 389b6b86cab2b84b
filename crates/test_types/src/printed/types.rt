//! Types by their names in the module: each is named in one call, since the check writes it out for every call.

use crate::printed::reading::answer_of;
use anyhow::{Error, Result};
use example_printed::{
    Area, Bag, Below, Bits, Both, Card, Colour, Colours, Event, Folder, Key, Labels, Leaves,
    Letter, Level, Name, Named, Names, Narrow, Percent, Permit, Person, Plain, Reply, Rights, Row,
    Signal, Spot, Taken, Then, Title,
};
use std::alloc::Global;

/// By the name of a type without parts.
pub fn of_type(alloc: Global, name: &str, verb: &str, octets: &[u8]) -> Result<String> {
    match name {
        "Percent" => answer_of::<Percent>(alloc, verb, octets),
        "Below" => answer_of::<Below>(alloc, verb, octets),
        "Narrow" => answer_of::<Narrow>(alloc, verb, octets),
        "Key" => answer_of::<Key>(alloc, verb, octets),
        "Bits" => answer_of::<Bits>(alloc, verb, octets),
        "Name" => answer_of::<Name>(alloc, verb, octets),
        "Colour" => answer_of::<Colour>(alloc, verb, octets),
        "Rights" => answer_of::<Rights>(alloc, verb, octets),
        "Named" => answer_of::<Named>(alloc, verb, octets),
        "Level" => answer_of::<Level>(alloc, verb, octets),
        _ => of_scope(alloc, name, verb, octets),
    }
}

/// By the name of a choice, of a list, or of a sequence of few components.
fn of_scope(alloc: Global, name: &str, verb: &str, octets: &[u8]) -> Result<String> {
    match name {
        "Names" => answer_of::<Names>(alloc, verb, octets),
        "Signal" => answer_of::<Signal>(alloc, verb, octets),
        "Colours" => answer_of::<Colours>(alloc, verb, octets),
        "Area" => answer_of::<Area>(alloc, verb, octets),
        "Event" => answer_of::<Event>(alloc, verb, octets),
        "Reply" => answer_of::<Reply>(alloc, verb, octets),
        "Spot" => answer_of::<Spot>(alloc, verb, octets),
        "Then" => answer_of::<Then>(alloc, verb, octets),
        "Plain" => answer_of::<Plain>(alloc, verb, octets),
        "Title" => answer_of::<Title>(alloc, verb, octets),
        _ => of_components(alloc, name, verb, octets),
    }
}

/// By the name of another sequence, or of a set.
fn of_components(alloc: Global, name: &str, verb: &str, octets: &[u8]) -> Result<String> {
    match name {
        "Row" => answer_of::<Row>(alloc, verb, octets),
        "Bag" => answer_of::<Bag>(alloc, verb, octets),
        "Both" => answer_of::<Both>(alloc, verb, octets),
        "Card" => answer_of::<Card>(alloc, verb, octets),
        "Letter" => answer_of::<Letter>(alloc, verb, octets),
        "Permit" => answer_of::<Permit>(alloc, verb, octets),
        "Folder" => answer_of::<Folder>(alloc, verb, octets),
        "Labels" => answer_of::<Labels>(alloc, verb, octets),
        "Taken" => answer_of::<Taken>(alloc, verb, octets),
        "Leaves" => answer_of::<Leaves>(alloc, verb, octets),
        "Person" => answer_of::<Person>(alloc, verb, octets),
        _ => Err(Error::msg("no such type")),
    }
}

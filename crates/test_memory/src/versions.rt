//! Values of other versions.
use crate::answers::version;
use crate::entry::Call;
use crate::marks::begin;
use anyhow::{Error, Result};
use asn1_core::{Codec, SetOf};
use oer_types::{Holder1, Holder2, Outer, Sequence1, Sequence2};
use oer_write::Encode;
use rasn_oer::{Decode, coer, oer};
use std::fmt::Debug;

/// The value of the octets as one of an older version.
fn older<New: Decode + Encode, Old: Decode + Debug>(call: Call<'_>) -> Result<String> {
    let alloc = call.alloc;
    let value: New = oer::decode(alloc, call.octets)?;
    begin(alloc)?;
    let answer = match call.codec {
        Codec::Oer => oer::as_older::<New, Old>(alloc, &value),
        Codec::Coer => coer::as_older::<New, Old>(alloc, &value),
    };
    version(alloc, &answer)
}

/// The value of the octets as one of a newer version.
fn newer<Old: Decode + Encode, New: Decode + Debug>(call: Call<'_>) -> Result<String> {
    let alloc = call.alloc;
    let value: Old = oer::decode(alloc, call.octets)?;
    begin(alloc)?;
    let answer = match call.codec {
        Codec::Oer => oer::as_newer::<Old, New>(alloc, &value),
        Codec::Coer => coer::as_newer::<Old, New>(alloc, &value),
    };
    version(alloc, &answer)
}

/// By the word of the newer type. One function for each pair: what the check looks at in a function grows with the types that
/// it names.
pub fn other_version(call: Call<'_>, newer_type: &str) -> Result<String> {
    match (call.word, newer_type) {
        ("as_older", "seq2") => older_sequence(call),
        ("as_older", "outer") => older_outer(call),
        ("as_older", "holder2") => older_holder(call),
        ("as_older", "bag2") => older_bag(call),
        ("as_newer", "seq2") => newer_sequence(call),
        ("as_newer", "holder2") => newer_holder(call),
        ("as_newer", "bag2") => newer_bag(call),
        _ => Err(Error::msg("no such versions")),
    }
}

fn older_sequence(call: Call<'_>) -> Result<String> {
    older::<Sequence2, Sequence1>(call)
}

fn older_outer(call: Call<'_>) -> Result<String> {
    older::<Outer, Sequence1>(call)
}

fn older_holder(call: Call<'_>) -> Result<String> {
    older::<Holder2, Holder1>(call)
}

fn older_bag(call: Call<'_>) -> Result<String> {
    older::<SetOf<Sequence2>, SetOf<Sequence1>>(call)
}

fn newer_sequence(call: Call<'_>) -> Result<String> {
    newer::<Sequence1, Sequence2>(call)
}

fn newer_holder(call: Call<'_>) -> Result<String> {
    newer::<Holder1, Holder2>(call)
}

fn newer_bag(call: Call<'_>) -> Result<String> {
    newer::<SetOf<Sequence1>, SetOf<Sequence2>>(call)
}

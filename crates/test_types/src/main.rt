//! Rows of standard input, one a line, and what is answered to each, behind ` => ` on standard output: octets and values of the
//! types that oergen printed, and values of one version of a type as ones of another.
//!
//! - `value TYPE HEX`: the value of canonical octets. Both modules read it, and it is written as these octets again.
//! - `refused TYPE HEX`: why canonical reading refuses the octets, and the canonical octets of the value that the other module
//!   reads.
//! - `made NAME HEX`: whether the octets' value is the one that is made by code under that name.
//! - `older MODE NEW/OLD HEX`: canonical octets of the newer type. What `as_older` of the mode's module answers of their value,
//!   and what `as_newer` answers of that, both in canonical octets; or the mode and the kind of the refusal of the first.
//! - `newer MODE NEW/OLD HEX`: canonical octets of the older type, by `as_newer` and then by `as_older`.
//!
//! A row of two versions is answered in the same way in a box, in a sequence, twice in a list and in an unordered list, and as an
//! addition. `NEW/OLD` is two versions of a type, `seq2/seq1`, or these in two versions of a choice,
//! `choice2/choice1:seq2/seq1`.
#![tactic(auto)]

mod printed;
mod versions;

use anyhow::{Error, Result};
use std::alloc::Global;
use std::io::{BufRead, BufReader};

fn answer(alloc: Global, row: &str) -> Result<String> {
    let mut words = row.split(' ');
    let verb = words.next().unwrap_or("");
    let first = words.next().unwrap_or("");
    let second = words.next().unwrap_or("");
    let third = words.next().unwrap_or("");
    match verb {
        "value" | "refused" | "made" => printed::answer(alloc, verb, first, second),
        "older" | "newer" => versions::answer(alloc, verb, first, second, third),
        _ => Err(Error::msg("no such verb")),
    }
}

fn main(rt: HostRuntime) -> Result<()> {
    let alloc = rt.alloc();
    for line in BufReader::new(alloc, rt.reader())?.lines(alloc) {
        let row = line?;
        match answer(alloc, row.as_str()) {
            Ok(answer) => println!(rt; "{} => {}", row, answer)?,
            Err(fault) => println!(rt; "{} => fault: {}", row, fault)?,
        }
    }
    Ok(())
}

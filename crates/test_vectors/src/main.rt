//! Rows of standard input, one a line, and what is answered to each, behind ` => ` on standard output.
//!
//! - `run MODE WORD HEX`: what the program prints, a `|` for each line's end, and its status. `words` has words that are parted by
//!   commas, or none.
//! - `failing N WORDS`: the same where the Nth write fails: what was written before. `stopped KIND`: where the program's words are no
//!   text, or found no memory.
//! - `read MODE WORD HEX`: the octets that are written again and what is left; or the mode, the kind and the message of the
//!   refusal. Every call that reads such octets answers so, both modules write the value so, and a decoder that refuses is left
//!   as it was.
//! - `value MODE WORD HEX`: what is left, and the value that is read.
//! - `depth N MODE WORD HEX`: the same as `read` within N levels; `none` where so many can't be chosen.
//! - `fronts WORD HEX`: how many proper fronts of the octets are refused for want of octets, in both modes: by the modules' calls and
//!   by a decoder behind a boolean, which lack as many octets, at most those that are missing, and leave the whole front.
//! - `tally MODE WORD`: of every input of at most two octets, a checksum of the answers, how many are read, and how many are refused
//!   by each kind, by its place in `DecodeErrorKind`.
//! - `vector TEST TYPE HEX`: what rasn's test of that name reads of the octets, as the value, the octets that both modules write of
//!   it, and what is left; or the kind of the refusal. Where the modes answer otherwise: `oer` and its answer, then `coer` and its
//!   own. `outside TEST TYPE HEX`: why both modules refuse to write, under the constraints of TYPE, the value whose octets without
//!   them these are. TYPE is a word, and behind it may stand constraints, as in `int(0..255)`, `int(5)` and `octets(SIZE(3..6))`.
//!   Values and octets are those of rasn's tests, compared with X.696 by hand; scripts/rasn_rows.py counts them.
//! - `type WORD`: the type's own tag, and whether it is a choice. `table WORD`: whether a sequence or set is extensible, and its tables
//!   of components, of each the index, the name, the need and the tag. `tags WORD`: the same as `type` of a choice, and its tables.
//!
//! MODE is `oer` or `coer`; WORD is one of the program's, or one of a type under constraints (not for `run` and `tally`). A type
//! without a word is asked for its constants by its name.
#![tactic(auto)]

mod depth;
mod front;
mod program;
mod reading;
mod tables;
mod tally;
mod typed;
mod types;
mod values;
mod vector;

use anyhow::{Error, Result};
use asn1_core::Codec;
use depth::WithOptions;
use front::Front;
use oertool_words::constrained::with_word;
use program::{broken, printed, stopped};
use rasn_oer::DecoderOptions;
use reading::Reading;
use std::alloc::Global;
use std::io::{BufRead, BufReader};
use tables::{kind, table, tags};
use tally::tallied;
use values::{InPlace, Shown};
use vector::{in_both_modes, outside};

fn codec_of(word: &str) -> Result<Codec> {
    match word {
        "oer" => Ok(Codec::Oer),
        "coer" => Ok(Codec::Coer),
        _ => Err(Error::msg("no such mode")),
    }
}

/// The octets, behind the octet of a boolean.
fn behind_a_boolean(alloc: Global, octets: &[u8]) -> Result<Vec<u8>> {
    let mut whole = Vec::new(alloc);
    whole.push(0xff)?;
    whole.extend_from_slice(octets)?;
    Ok(whole)
}

fn read(alloc: Global, codec: Codec, word: &str, octets: &[u8]) -> Result<String> {
    let whole = behind_a_boolean(alloc, octets)?;
    let reading = Reading {
        alloc,
        codec,
        behind: whole.as_slice(),
    };
    match with_word(word, reading) {
        Some(answer) => answer,
        None => Err(Error::msg("no such type")),
    }
}

fn shown(alloc: Global, codec: Codec, word: &str, octets: &[u8]) -> Result<String> {
    let shown = Shown {
        alloc,
        codec,
        octets,
        in_place: InPlace::Nothing,
    };
    match with_word(word, shown) {
        Some(answer) => match answer? {
            Ok(seen) => Ok(format!(in alloc; "{};{}", seen.rest, seen.value)?),
            Err(kind) => Err(Error::msg(kind.name())),
        },
        None => Err(Error::msg("no such type")),
    }
}

/// A row of rasn's tests: its test's name, a type and octets.
fn of_rasn(alloc: Global, verb: &str, typed: &str, text: &str) -> Result<String> {
    let octets = hex::decode(alloc, text)?;
    if verb == "vector" {
        in_both_modes(alloc, typed, octets.as_slice())
    } else {
        outside(alloc, typed, octets.as_slice())
    }
}

/// How many proper fronts there are, all of which lack octets.
fn fronts(alloc: Global, word: &str, text: &str) -> Result<String> {
    let octets = hex::decode(alloc, text)?;
    for length in 0..octets.len() {
        let whole = behind_a_boolean(alloc, octets.as_slice().get(..length).unwrap_or(&[]))?;
        let front = Front {
            alloc,
            behind: whole.as_slice(),
            missing: octets.len() - length,
        };
        match with_word(word, front) {
            Some(answer) => answer?,
            None => return Err(Error::msg("no such type")),
        }
    }
    Ok(format!(in alloc; "{}", octets.len())?)
}

/// The same within so many levels; `none` where these are too many to choose.
fn at_depth(alloc: Global, row: &str) -> Result<String> {
    let mut words = row.split(' ');
    let levels = words.next().unwrap_or("").parse::<usize>()?;
    let options = match codec_of(words.next().unwrap_or(""))? {
        Codec::Oer => DecoderOptions::oer(),
        Codec::Coer => DecoderOptions::coer(),
    };
    let word = words.next().unwrap_or("");
    let octets = hex::decode(alloc, words.next().unwrap_or(""))?;
    let Some(options) = options.with_depth(levels) else {
        return Ok(String::from_str(alloc, "none")?);
    };
    let work = WithOptions {
        alloc,
        options,
        octets: octets.as_slice(),
    };
    match with_word(word, work) {
        Some(answer) => answer,
        None => Err(Error::msg("no such type")),
    }
}

fn answer(alloc: Global, row: &str) -> Result<String> {
    let mut words = row.split(' ');
    let verb = words.next().unwrap_or("");
    let first = words.next().unwrap_or("");
    let second = words.next().unwrap_or("");
    let third = words.next().unwrap_or("");
    match verb {
        "run" => printed(alloc, row.strip_prefix("run "), ' '),
        "words" => printed(alloc, row.strip_prefix("words "), ','),
        "failing" => broken(alloc, row.strip_prefix("failing ").unwrap_or("")),
        "stopped" => stopped(alloc, first),
        "depth" => at_depth(alloc, row.strip_prefix("depth ").unwrap_or("")),
        "fronts" => fronts(alloc, first, second),
        "vector" | "outside" => of_rasn(alloc, verb, second, third),
        "type" => kind(alloc, first),
        "table" => table(alloc, first),
        "tags" => tags(alloc, first),
        _ => {
            let codec = codec_of(first)?;
            let octets = hex::decode(alloc, third)?;
            match verb {
                "read" => read(alloc, codec, second, octets.as_slice()),
                "value" => shown(alloc, codec, second, octets.as_slice()),
                "tally" => tallied(alloc, codec, second),
                _ => Err(Error::msg("no such verb")),
            }
        }
    }
}

fn main(rt: HostRuntime) -> Result<()> {
    let alloc = rt.alloc();
    for line in BufReader::new(alloc, rt.reader())?.lines(alloc) {
        let row = line?;
        match answer(alloc, row.as_str()) {
            Ok(answer) => println!(rt; "{} => {}", row, answer)?,
            Err(fault) => println!(rt; "{} => fault: {}", row, fault)?,
        }
    }
    Ok(())
}

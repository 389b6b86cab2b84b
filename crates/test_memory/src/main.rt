//! `test_memory MODE CALL TYPE HEX` makes one call between two marks, and prints what it answers and what it leaves as it was.
//! scripts/memory runs it again and again, and refuses one more request for memory in each run.
//!
//! Without words it does so for each row `MODE CALL TYPE HEX` of standard input, and prints the answer behind the row and ` => `.
//!
//! - MODE is `oer` or `coer`, the module and the rules of the decoder; `encoder`; or `value`, for the crates below.
//! - CALL is the name of a call; TYPE is a word of a type, or `-` where the call needs none.
//! - HEX is what is read: by a method of `Decoder` behind the octet of a boolean.
#![tactic(auto)]

mod answers;
mod asking;
mod clones;
mod decoding;
mod encoding;
mod entry;
mod marks;
mod one_row;
mod values;
mod versions;
mod writers;

use anyhow::{Error, Result};
use asking::component_method;
use asn1_core::Codec;
use decoding::{leaf_method, list_of};
use encoding::encoder_method;
use entry::{Call, Entry, ask_of};
use oertool_words::constrained::with_word;
use std::alloc::Global;
use std::env;
use std::io::{BufRead, BufReader};
use std::rt::Env;
use values::value_call;
use versions::other_version;

/// What a call of a module, or a method of a decoder, answers.
fn by_codec(call: Call<'_>, type_word: &str) -> Result<String> {
    if matches!(call.word, "as_older" | "as_newer") {
        return other_version(call, type_word);
    }
    if let Some(answer) = list_of(call, type_word)? {
        return Ok(answer);
    }
    if type_word != "-" {
        let entry = Entry {
            alloc: call.alloc,
            codec: call.codec,
            ask: ask_of(call.word)?,
            octets: call.octets,
        };
        return match with_word(type_word, entry) {
            Some(answer) => answer,
            None => Err(Error::msg("no such type")),
        };
    }
    if let Some(answer) = component_method(call)? {
        return Ok(answer);
    }
    match leaf_method(call)? {
        Some(answer) => Ok(answer),
        None => Err(Error::msg("no such method")),
    }
}

fn answer(alloc: Global, words: &[String]) -> Result<String> {
    let [mode, word, type_word, text] = words else {
        return Err(Error::msg("usage: test_memory MODE CALL TYPE HEX"));
    };
    let octets = hex::decode(alloc, text.as_str())?;
    let codec = match mode.as_str() {
        "oer" => Codec::Oer,
        "coer" => Codec::Coer,
        "encoder" => return encoder_method(alloc, word.as_str(), octets.as_slice()),
        _ => return value_call(alloc, word.as_str(), octets.as_slice()),
    };
    let call = Call {
        alloc,
        codec,
        word: word.as_str(),
        octets: octets.as_slice(),
    };
    by_codec(call, type_word.as_str())
}

/// The program's words, without its own name.
fn words<R: Env + AllocGlobal>(rt: &R) -> Result<Vec<String>> {
    let mut words = Vec::new(rt.alloc());
    let mut args = env::args(rt)?;
    let _program = args.next();
    for word in args {
        words.push(word)?;
    }
    Ok(words)
}

/// The words of a row.
fn words_of(alloc: Global, row: &str) -> Result<Vec<String>> {
    let mut words = Vec::new(alloc);
    for word in row.split(' ') {
        words.push(String::from_str(alloc, word)?)?;
    }
    Ok(words)
}

/// What is answered to a row.
fn told(alloc: Global, row: &str) -> Result<String> {
    let words = words_of(alloc, row)?;
    match answer(alloc, words.as_slice()) {
        Ok(line) => Ok(line),
        Err(fault) => Ok(format!(in alloc; "fault: {}", fault)?),
    }
}

fn main(rt: HostRuntime) -> Result<()> {
    let alloc = rt.alloc();
    let words = words(&rt)?;
    if !words.is_empty() {
        let answer = answer(alloc, words.as_slice())?;
        println!(rt; "{answer}")?;
        return Ok(());
    }
    for line in BufReader::new(alloc, rt.reader())?.lines(alloc) {
        let row = line?;
        let answer = told(alloc, row.as_str())?;
        println!(rt; "{row} => {answer}")?;
    }
    Ok(())
}

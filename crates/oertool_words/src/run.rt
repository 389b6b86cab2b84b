//! The program over any writer.

use crate::known::{OnType, with_type};
use hex::FromHexError;
use oer_write::Encode;
use rasn_oer::{Decode, DecoderOptions, coer, oer};
use std::alloc::{AllocError, Global};
use std::fmt::Debug;
use std::io::{self, Write};

const USAGE: &str = "usage: oertool oer|coer [depth N] TYPE HEX\n";

/// How a run ended.
#[derive(Debug, Clone, Copy, PartialEq, Eq)]
pub enum Status {
    /// A value was read, and both lines were written.
    Done,
    /// The octets were refused, or a write failed.
    Refused,
    /// The words are none that the program knows.
    Usage,
}

impl Status {
    /// The exit status: 0, 1 or 2.
    pub fn code(self) -> u8 {
        match self {
            Status::Done => 0,
            Status::Refused => 1,
            Status::Usage => 2,
        }
    }
}

/// Why there are no two lines to print.
#[derive(Drop)]
enum Failure {
    Usage,
    Refused(&'static str),
}

impl From<AllocError> for Failure {
    fn from(_e: AllocError) -> Failure {
        Failure::Refused("OutOfMemory")
    }
}

/// The canonical octets of what was read, and the octets that are left, each in hexadecimal and a line of its own.
#[derive(Drop)]
struct Lines {
    canonical: String,
    remainder: String,
}

fn hex_line(alloc: Global, octets: &[u8]) -> Result<String, Failure> {
    let mut line = hex::encode(alloc, octets)?;
    line.push_str("\n")?;
    Ok(line)
}

/// Octets that are read by the options and written again.
#[derive(Drop)]
struct Recoding<'a> {
    alloc: Global,
    options: DecoderOptions,
    input: &'a [u8],
}

impl<'a> OnType for Recoding<'a> {
    type Output = Result<Lines, Failure>;

    fn on<T: Decode + Encode + Debug + PartialEq>(self) -> Result<Lines, Failure> {
        let read = oer::decode_with_options::<T>(self.alloc, self.options, self.input);
        let (value, rest) = match read {
            Ok(read) => read,
            Err(e) => return Err(Failure::Refused(e.kind.name())),
        };
        let octets = match coer::encode(self.alloc, &value) {
            Ok(octets) => octets,
            Err(e) => return Err(Failure::Refused(e.kind.name())),
        };
        Ok(Lines {
            canonical: hex_line(self.alloc, octets.as_slice())?,
            remainder: hex_line(self.alloc, rest)?,
        })
    }
}

/// The octets of a text in hexadecimal.
fn octets_of(alloc: Global, text: &str) -> Result<Vec<u8>, Failure> {
    match hex::decode(alloc, text) {
        Ok(octets) => Ok(octets),
        Err(FromHexError::OutOfMemory) => Err(Failure::Refused("OutOfMemory")),
        Err(_) => Err(Failure::Usage),
    }
}

/// The number of a word of decimal digits alone.
fn number_of(word: &str) -> Option<usize> {
    if word.is_empty() || !word.bytes().all(|octet| octet.is_ascii_digit()) {
        return None;
    }
    match word.parse::<usize>() {
        Ok(number) => Some(number),
        Err(_) => None,
    }
}

/// The options of a mode's word.
fn options_of(word: &str) -> Option<DecoderOptions> {
    match word {
        "oer" => Some(DecoderOptions::oer()),
        "coer" => Some(DecoderOptions::coer()),
        _ => None,
    }
}

/// What the words ask for: how to read, the type's word, and the octets in hexadecimal.
fn asked(words: &[String]) -> Option<(DecoderOptions, &str, &str)> {
    match words {
        [mode, word, text] => Some((options_of(mode.as_str())?, word.as_str(), text.as_str())),
        [mode, depth, levels, word, text] if depth.as_str() == "depth" => {
            let options = options_of(mode.as_str())?.with_depth(number_of(levels.as_str())?)?;
            Some((options, word.as_str(), text.as_str()))
        }
        _ => None,
    }
}

fn answer(alloc: Global, words: &[String]) -> Result<Lines, Failure> {
    let Some((options, word, text)) = asked(words) else {
        return Err(Failure::Usage);
    };
    let octets = octets_of(alloc, text)?;
    let recoding = Recoding {
        alloc,
        options,
        input: octets.as_slice(),
    };
    match with_type(word, recoding) {
        Some(lines) => lines,
        None => Err(Failure::Usage),
    }
}

fn written<W: Write>(text: &str, status: Status, out: &mut W) -> Status {
    match out.write_all(text.as_bytes()) {
        Ok(()) => status,
        Err(_) => Status::Refused,
    }
}

fn refused<W: Write>(name: &str, out: &mut W) -> Status {
    match write!(out, "refused: {name}\n") {
        Ok(()) => Status::Refused,
        Err(_) => Status::Refused,
    }
}

/// Runs the program on its words, without its own name.
///
/// Both lines are made before the first is written, and each is written at once.
pub fn run<W: Write>(alloc: Global, words: &[String], out: &mut W) -> Status {
    match answer(alloc, words) {
        Ok(lines) => match written(lines.canonical.as_str(), Status::Done, out) {
            Status::Done => written(lines.remainder.as_str(), Status::Done, out),
            other => other,
        },
        Err(Failure::Usage) => written(USAGE, Status::Usage, out),
        Err(Failure::Refused(name)) => refused(name, out),
    }
}

/// Runs the program where its words are no text, or found no memory.
pub fn run_without_text<W: Write>(kind: io::ErrorKind, out: &mut W) -> Status {
    match kind {
        io::ErrorKind::OutOfMemory => refused("OutOfMemory", out),
        _ => written(USAGE, Status::Usage, out),
    }
}

//! Answers as they are printed.
use crate::marks::end;
use anyhow::Result;
use asn1_core::{DecodeError, EncodeError};
use rasn_oer::oer::CodecError;
use rasn_oer::{Decoder, Encoder};
use std::alloc::{AllocError, Global};
use std::fmt::Debug;

/// A refusal's name, behind the word that says so.
fn refused(alloc: Global, name: &str) -> Result<String> {
    Ok(format!(in alloc; "refused: {}", name)?)
}

/// Octets that were written.
pub fn written(alloc: Global, answer: &Result<Vec<u8>, EncodeError>) -> Result<String> {
    end(alloc)?;
    match answer {
        Ok(octets) => Ok(hex::encode(alloc, octets.as_slice())?),
        Err(e) => refused(alloc, e.kind.name()),
    }
}

/// What a buffer has behind a call that appends.
pub fn appended(
    alloc: Global,
    answer: Result<(), EncodeError>,
    buffer: &Vec<u8>,
) -> Result<String> {
    end(alloc)?;
    let buffer = hex::encode(alloc, buffer.as_slice())?;
    match answer {
        Ok(()) => Ok(format!(in alloc; "written; {}", buffer)?),
        Err(e) => Ok(format!(in alloc; "refused: {}; {}", e.kind.name(), buffer)?),
    }
}

/// What a buffer has behind a call that appends, and that memory alone refuses.
pub fn filled(alloc: Global, answer: Result<(), AllocError>, buffer: &Vec<u8>) -> Result<String> {
    end(alloc)?;
    let buffer = hex::encode(alloc, buffer.as_slice())?;
    match answer {
        Ok(()) => Ok(format!(in alloc; "written; {}", buffer)?),
        Err(_) => Ok(format!(in alloc; "refused: OutOfMemory; {}", buffer)?),
    }
}

/// A value that was read.
pub fn read<T: Debug>(alloc: Global, answer: &Result<T, DecodeError>) -> Result<String> {
    match answer {
        Ok(value) => plain(alloc, value),
        Err(e) => not_read(alloc, e),
    }
}

/// A refusal to read.
fn not_read(alloc: Global, e: &DecodeError) -> Result<String> {
    end(alloc)?;
    refused(alloc, e.kind.name())
}

/// A value that was read, and what is left.
pub fn read_first<T: Debug>(
    alloc: Global,
    answer: &Result<(T, &[u8]), DecodeError>,
) -> Result<String> {
    match answer {
        Ok((value, rest)) => with_rest(alloc, plain(alloc, value)?, rest),
        Err(e) => not_read(alloc, e),
    }
}

/// A value as it is shown, and what is left.
fn with_rest(alloc: Global, value: String, rest: &[u8]) -> Result<String> {
    let rest = hex::encode(alloc, rest)?;
    Ok(format!(in alloc; "{}; {}", value, rest)?)
}

/// A value that was read by a decoder, and what this has to read then.
pub fn left<T: Debug>(
    alloc: Global,
    decoder: &Decoder<'_>,
    answer: &Result<T, DecodeError>,
) -> Result<String> {
    match answer {
        Ok(value) => with_rest(alloc, plain(alloc, value)?, decoder.remaining()),
        Err(e) => left_by(alloc, decoder, e),
    }
}

/// A refusal by a decoder, and what this has to read then.
fn left_by(alloc: Global, decoder: &Decoder<'_>, e: &DecodeError) -> Result<String> {
    end(alloc)?;
    let rest = hex::encode(alloc, decoder.remaining())?;
    if e.codec == decoder.codec() {
        Ok(format!(in alloc; "refused: {}; {}", e.kind.name(), rest)?)
    } else {
        Ok(format!(in alloc; "refused in another mode: {}", e.kind.name())?)
    }
}

/// Canonical octets, and what is left.
pub fn canonical(alloc: Global, answer: &Result<(Vec<u8>, &[u8]), CodecError>) -> Result<String> {
    match answer {
        Ok((octets, rest)) => {
            end(alloc)?;
            with_rest(alloc, hex::encode(alloc, octets.as_slice())?, rest)
        }
        Err(e) => not_made(alloc, e),
    }
}

/// A value of another version.
pub fn version<T: Debug>(alloc: Global, answer: &Result<T, CodecError>) -> Result<String> {
    match answer {
        Ok(value) => plain(alloc, value),
        Err(e) => not_made(alloc, e),
    }
}

/// A refusal to read or to write.
fn not_made(alloc: Global, e: &CodecError) -> Result<String> {
    end(alloc)?;
    match e {
        CodecError::Decode(e) => refused(alloc, e.kind.name()),
        CodecError::Encode(e) => refused(alloc, e.kind.name()),
    }
}

/// What a call answers that memory alone refuses.
pub fn made<T: Debug>(alloc: Global, answer: &Result<T, AllocError>) -> Result<String> {
    match answer {
        Ok(value) => plain(alloc, value),
        Err(_) => {
            end(alloc)?;
            refused(alloc, "OutOfMemory")
        }
    }
}

/// What a call answers that can't be refused.
pub fn plain<T: Debug>(alloc: Global, answer: &T) -> Result<String> {
    end(alloc)?;
    Ok(format!(in alloc; "{:?}", answer)?)
}

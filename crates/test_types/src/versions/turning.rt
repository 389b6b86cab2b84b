//! Values of one version as ones of another.

use crate::versions::nests::Nest;
use crate::versions::pairs::OnPair;
use anyhow::{Error, Result};
use asn1_core::{Codec, DecodeError, SetOf};
use oer_types::{Adding, Holding};
use oer_write::Encode;
use rasn_oer::oer::CodecError;
use rasn_oer::{Decode, coer, oer};
use std::alloc::Global;

/// Which version a value becomes one of.
#[derive(Clone, Copy, PartialEq, Eq)]
pub enum To {
    Older,
    Newer,
}

impl To {
    /// The other.
    pub fn back(self) -> To {
        match self {
            To::Older => To::Newer,
            To::Newer => To::Older,
        }
    }
}

/// Canonical octets of a value of one version, which becomes one of the other in a mode.
#[derive(Clone, Copy)]
pub struct Turning<'a> {
    pub alloc: Global,
    pub codec: Codec,
    pub to: To,
    /// What both versions lie in.
    pub nest: Nest,
    pub octets: &'a [u8],
}

/// The canonical octets of the other version's value, or the mode and the kind of the refusal.
pub type Turned = std::result::Result<Vec<u8>, String>;

/// What is answered of the other version.
fn other_of<T: Encode>(
    alloc: Global,
    answer: std::result::Result<T, CodecError>,
) -> Result<Turned> {
    match answer {
        Ok(value) => Ok(Ok(coer::encode(alloc, &value)?)),
        Err(e) => refused(alloc, e),
    }
}

/// The mode and the kind of a refusal to read.
fn refused(alloc: Global, e: CodecError) -> Result<Turned> {
    match e {
        CodecError::Decode(e) => {
            let kind = format!(in alloc; "{:?} {}", e.codec, e.kind.name())?;
            Ok(Err(kind))
        }
        CodecError::Encode(_) => Err(Error::msg("what was read is not written")),
    }
}

/// Octets that are none of the version: a fault of the row.
fn unread(e: DecodeError) -> Result<Turned> {
    Err(Error::msg(e.kind.name()))
}

impl<'a> Turning<'a> {
    fn older<New: Decode + Encode, Old: Decode + Encode>(self) -> Result<Turned> {
        let alloc = self.alloc;
        let newer = match coer::decode::<New>(alloc, self.octets) {
            Ok(newer) => newer,
            Err(e) => return unread(e),
        };
        let answer = match self.codec {
            Codec::Oer => oer::as_older::<New, Old>(alloc, &newer),
            Codec::Coer => coer::as_older::<New, Old>(alloc, &newer),
        };
        other_of(alloc, answer)
    }

    fn newer<New: Decode + Encode, Old: Decode + Encode>(self) -> Result<Turned> {
        let alloc = self.alloc;
        let older = match coer::decode::<Old>(alloc, self.octets) {
            Ok(older) => older,
            Err(e) => return unread(e),
        };
        let answer = match self.codec {
            Codec::Oer => oer::as_newer::<Old, New>(alloc, &older),
            Codec::Coer => coer::as_newer::<Old, New>(alloc, &older),
        };
        other_of(alloc, answer)
    }

    fn other<New: Decode + Encode, Old: Decode + Encode>(self) -> Result<Turned> {
        match self.to {
            To::Older => self.older::<New, Old>(),
            To::Newer => self.newer::<New, Old>(),
        }
    }

    /// By a box, whose size is known.
    fn in_sequence<New: Decode + Encode, Old: Decode + Encode>(self) -> Result<Turned> {
        self.other::<Holding<Box<New>>, Holding<Box<Old>>>()
    }

    fn in_addition<New: Decode + Encode, Old: Decode + Encode>(self) -> Result<Turned> {
        self.other::<Adding<Box<New>>, Adding<Box<Old>>>()
    }
}

impl<'a> OnPair for Turning<'a> {
    type Output = Result<Turned>;

    fn on<New: Decode + Encode, Old: Decode + Encode>(self) -> Result<Turned> {
        match self.nest {
            Nest::Plain => self.other::<New, Old>(),
            Nest::Boxed => self.other::<Box<New>, Box<Old>>(),
            Nest::Held => self.in_sequence::<New, Old>(),
            Nest::Listed => self.other::<Vec<New>, Vec<Old>>(),
            Nest::Unordered => self.other::<SetOf<New>, SetOf<Old>>(),
            Nest::Added => self.in_addition::<New, Old>(),
        }
    }
}

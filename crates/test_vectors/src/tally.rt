//! Every input of at most two octets: a checksum of the answers, and how many inputs are read and refused. No extension bitmap fits
//! into inputs so short behind a root component: the tallies of a version are those of the others.
use anyhow::{Error, Result};
use asn1_core::{Codec, DecodeErrorKind};
use oer_write::Encode;
use oertool_words::known::{OnType, with_type};
use rasn_oer::{Decode, coer, oer};
use std::alloc::Global;
use std::fmt::Debug;

/// The place of a kind in the order of `DecodeErrorKind`, from 1.
fn place_of(kind: &DecodeErrorKind) -> u8 {
    match kind {
        DecodeErrorKind::Incomplete { .. } => 1,
        DecodeErrorKind::ZeroLengthOfLength => 2,
        DecodeErrorKind::LengthExceedsPlatformWidth => 3,
        DecodeErrorKind::InvalidBool { .. } => 4,
        DecodeErrorKind::IntegerOverflow => 5,
        DecodeErrorKind::EmptyInteger => 6,
        DecodeErrorKind::ValueConstraintNotSatisfied => 7,
        DecodeErrorKind::SizeConstraintNotSatisfied { .. } => 8,
        DecodeErrorKind::DiscriminantValueNotFound { .. } => 9,
        DecodeErrorKind::InvalidTagNumberOnChoice => 10,
        DecodeErrorKind::InvalidTagVariantOnChoice { .. } => 11,
        DecodeErrorKind::InvalidBitString => 12,
        DecodeErrorKind::PermittedAlphabetError => 13,
        DecodeErrorKind::StringConversionFailed => 14,
        DecodeErrorKind::InvalidObjectIdentifier => 15,
        DecodeErrorKind::InvalidTime => 16,
        DecodeErrorKind::InvalidPreamble => 17,
        DecodeErrorKind::InvalidExtensionHeader => 18,
        DecodeErrorKind::RequiredExtensionNotPresent { .. } => 19,
        DecodeErrorKind::TypeNotExtensible => 20,
        DecodeErrorKind::MissingTagClassOrValueInSequenceOrSet { .. } => 21,
        DecodeErrorKind::ExceedsMaxParseDepth => 22,
        DecodeErrorKind::NotValidCanonicalEncoding => 23,
        DecodeErrorKind::TooManyEmptyElements => 24,
        DecodeErrorKind::OutOfMemory => 25,
    }
}

/// A checksum of answers (FNV-1a of 32 bits), how many inputs were read, and how many were refused, by the kind's place.
#[derive(Drop)]
struct Tally {
    hash: u32,
    read: u32,
    refused: [u32; 26],
}

impl Tally {
    fn mix(&mut self, octets: &[u8]) {
        for octet in octets {
            self.hash = (self.hash ^ u32::from(*octet)).wrapping_mul(16777619);
        }
    }

    /// Takes in the answer to one input: what is written of the value and how many octets were read, or the refusal.
    fn take<T: Decode + Encode>(&mut self, inputs: &ShortInputs, input: &[u8]) -> Result<()> {
        let answer = match inputs.codec {
            Codec::Oer => oer::decode_with_remainder::<T>(inputs.alloc, input),
            Codec::Coer => coer::decode_with_remainder::<T>(inputs.alloc, input),
        };
        match answer {
            Ok((value, rest)) => {
                self.read = self.read.wrapping_add(1);
                let octets = coer::encode(inputs.alloc, &value)?;
                let taken = input.len().saturating_sub(rest.len());
                self.mix(&[0, u8::try_from(octets.len()).unwrap_or(255)]);
                self.mix(octets.as_slice());
                self.mix(&[u8::try_from(taken).unwrap_or(255)]);
            }
            Err(e) => {
                let place = place_of(&e.kind);
                self.mix(&[1, place]);
                if let Some(count) = self.refused.get_mut(usize::from(place)) {
                    *count = count.wrapping_add(1);
                }
            }
        }
        Ok(())
    }
}

/// All inputs of at most two octets, which are read in a mode.
#[derive(Clone, Copy)]
struct ShortInputs {
    alloc: Global,
    codec: Codec,
}

impl OnType for ShortInputs {
    type Output = Result<String>;

    fn on<T: Decode + Encode + Debug + PartialEq>(self) -> Result<String> {
        let mut tally = Tally {
            hash: 2166136261,
            read: 0,
            refused: [0; 26],
        };
        tally.take::<T>(&self, &[])?;
        for a in 0..=255u8 {
            tally.take::<T>(&self, &[a])?;
        }
        for n in 0..=65535u16 {
            tally.take::<T>(&self, &n.to_be_bytes())?;
        }
        let mut text = format!(in self.alloc; "{:08x} read={}", tally.hash, tally.read)?;
        for place in 0..tally.refused.len() {
            let count = tally.refused.get(place).copied().unwrap_or(0);
            if count != 0 {
                text.push_str(format!(in self.alloc; " {}={}", place, count)?.as_str())?;
            }
        }
        Ok(text)
    }
}

/// The tally of the type that a word of the program names: the checksum, how many were read, and how many were refused by each kind.
pub fn tallied(alloc: Global, codec: Codec, word: &str) -> Result<String> {
    match with_type(word, ShortInputs { alloc, codec }) {
        Some(answer) => answer,
        None => Err(Error::msg("no such type")),
    }
}

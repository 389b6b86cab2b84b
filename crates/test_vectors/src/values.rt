//! Values as they are shown, and as they are written.
ghost use Rattle.oer_spec.specs.Spelled.{IsConsistent};

use anyhow::{Error, Result};
use asn1_core::{Codec, Constraints, DecodeErrorKind, EncodeError};
use oer_write::Encode;
use oertool_words::constrained::UnderConstraints;
use rasn_oer::{Decode, Decoder, DecoderOptions, coer, oer};
use std::alloc::Global;
use std::fmt::Debug;

/// What stands in place of the constraints of a word.
#[derive(Clone, Copy)]
pub enum InPlace {
    Nothing,
    /// What the value is read and written under.
    Both(Constraints),
    /// What it is written under.
    OfWriting(Constraints),
}

/// Octets whose value is shown.
#[derive(Clone, Copy)]
pub struct Shown<'a> {
    pub alloc: Global,
    pub codec: Codec,
    pub octets: &'a [u8],
    pub in_place: InPlace,
}

/// A value as it is shown.
#[derive(Drop)]
pub struct Seen {
    pub value: String,
    /// The octets that both modules write of it, or the refusal of both.
    pub written: std::result::Result<Vec<u8>, EncodeError>,
    /// What is left, in hexadecimal.
    pub rest: String,
}

/// The octets that both modules write of the value, or the refusal of both.
fn written<T: Encode>(
    alloc: Global,
    constraints: Constraints,
    value: &T,
) -> Result<std::result::Result<Vec<u8>, EncodeError>>
    requires { IsConsistent constraints }
{
    let one = oer::encode_with_constraints(alloc, constraints, value);
    let other = coer::encode_with_constraints(alloc, constraints, value);
    if one == other {
        Ok(other)
    } else {
        Err(Error::msg("the modules write different octets"))
    }
}

impl<'a> UnderConstraints for Shown<'a> {
    type Output = Result<std::result::Result<Seen, DecodeErrorKind>>;

    /// The value that is read, or the kind of the refusal.
    fn under<T: Decode + Encode + Debug + PartialEq>(
        self,
        own: Constraints,
    ) -> Result<std::result::Result<Seen, DecodeErrorKind>> {
        let alloc = self.alloc;
        let (reading, writing) = match self.in_place {
            InPlace::Nothing => (own, own),
            InPlace::Both(constraints) => (constraints, constraints),
            InPlace::OfWriting(constraints) => (own, constraints),
        };
        if !reading.is_consistent() {
            return Err(Error::msg("constraints without a value"));
        }
        if !writing.is_consistent() {
            return Err(Error::msg("constraints without a value"));
        }
        let options = match self.codec {
            Codec::Oer => DecoderOptions::oer(),
            Codec::Coer => DecoderOptions::coer(),
        };
        let mut decoder = Decoder::new(self.octets, options);
        match T::decode_with_constraints(alloc, &mut decoder, reading) {
            Ok(value) => {
                let written = written(alloc, writing, &value)?;
                let value = format!(in alloc; "{:?}", value)?;
                let rest = hex::encode(alloc, decoder.remaining())?;
                Ok(Ok(Seen {
                    value,
                    written,
                    rest,
                }))
            }
            Err(e) => Ok(Err(e.kind)),
        }
    }
}

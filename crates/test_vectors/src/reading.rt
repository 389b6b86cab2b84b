//! What each call answers to the same octets.
ghost use Rattle.oer_spec.specs.Spelled.{IsConsistent};

use anyhow::{Error, Result};
use asn1_core::{Codec, Constraints, DecodeError};
use oer_write::Encode;
use oertool_words::constrained::UnderConstraints;
use rasn_oer::oer::CodecError;
use rasn_oer::{Decode, Decoder, DecoderOptions, coer, oer};
use std::alloc::Global;
use std::fmt::Debug;

/// Octets that are read in a mode, behind the octet of a boolean.
#[derive(Clone, Copy)]
pub struct Reading<'a> {
    pub alloc: Global,
    pub codec: Codec,
    pub behind: &'a [u8],
}

/// A value and what is left, or why it was refused.
type Read<'a, T> = std::result::Result<(T, &'a [u8]), DecodeError>;

/// The mode, the kind with its fields, and the message.
pub fn refusal(alloc: Global, e: &DecodeError) -> Result<String> {
    Ok(format!(in alloc; "{:?} {:?}: {}", e.codec, e.kind, e)?)
}

/// Octets that were written, and octets that are left.
pub fn octets_and_rest(alloc: Global, octets: &[u8], rest: &[u8]) -> Result<String> {
    let octets = hex::encode(alloc, octets)?;
    let rest = hex::encode(alloc, rest)?;
    Ok(format!(in alloc; "{};{}", octets, rest)?)
}

/// The octets that both modules write of the value.
fn written<T: Encode>(alloc: Global, constraints: Constraints, value: &T) -> Result<Vec<u8>>
    requires { IsConsistent constraints }
{
    let octets = coer::encode_with_constraints(alloc, constraints, value)?;
    let same = oer::encode_with_constraints(alloc, constraints, value)?;
    if constraints == T::CONSTRAINTS {
        let mut buffer = oer::encode(alloc, value)?;
        coer::encode_buf(alloc, value, &mut buffer)?;
        oer::encode_buf(alloc, value, &mut buffer)?;
        let whole = coer::encode(alloc, value)?;
        let (first, behind) = buffer.as_slice().split_at(whole.len().min(buffer.len()));
        let (second, third) = behind.split_at(whole.len().min(behind.len()));
        if [first, second, third] != [octets.as_slice(); 3] || whole != octets {
            return Err(Error::msg("encode writes other octets"));
        }
    }
    if same == octets {
        Ok(octets)
    } else {
        Err(Error::msg("the modules write different octets"))
    }
}

/// Whether both are the same answer.
fn agree<T: PartialEq>(one: &Read<'_, T>, other: &Read<'_, T>) -> bool {
    match (one, other) {
        (Ok((value, rest)), Ok((other, left))) => value == other && rest == left,
        (Err(e), Err(other)) => e == other,
        _ => false,
    }
}

/// Whether a call that doesn't answer what is left has the same answer.
fn agree_but_for_rest<T: PartialEq>(
    one: &Read<'_, T>,
    other: &std::result::Result<T, DecodeError>,
) -> bool {
    match (one, other) {
        (Ok((value, _rest)), Ok(other)) => value == other,
        (Err(e), Err(other)) => e == other,
        _ => false,
    }
}

impl<'a> Reading<'a> {
    fn options(self) -> DecoderOptions {
        match self.codec {
            Codec::Oer => DecoderOptions::oer(),
            Codec::Coer => DecoderOptions::coer(),
        }
    }

    /// By a decoder, which a refusal leaves as it was.
    fn by_decoder<T: Decode>(
        self,
        constraints: Constraints,
        decoder: &mut Decoder<'a>,
    ) -> Result<Read<'a, T>>
        requires { IsConsistent constraints }
    {
        let left = decoder.remaining();
        match T::decode_with_constraints(self.alloc, decoder, constraints) {
            Ok(value) => Ok(Ok((value, decoder.remaining()))),
            Err(e) => {
                if decoder.remaining() == left {
                    Ok(Err(e))
                } else {
                    Err(Error::msg("a refusal moved the decoder on"))
                }
            }
        }
    }

    /// Whether the module's calls answer the same.
    fn module_agrees<T: Decode + PartialEq>(
        self,
        constraints: Constraints,
        octets: &'a [u8],
        read: &Read<'a, T>,
    ) -> bool
        requires { IsConsistent constraints }
    {
        let under = match self.codec {
            Codec::Oer => oer::decode_with_constraints(self.alloc, constraints, octets),
            Codec::Coer => coer::decode_with_constraints(self.alloc, constraints, octets),
        };
        if !agree_but_for_rest(read, &under) {
            return false;
        }
        if constraints != T::CONSTRAINTS {
            return true;
        }
        let alone = match self.codec {
            Codec::Oer => oer::decode(self.alloc, octets),
            Codec::Coer => coer::decode(self.alloc, octets),
        };
        let with_rest = match self.codec {
            Codec::Oer => oer::decode_with_remainder(self.alloc, octets),
            Codec::Coer => coer::decode_with_remainder(self.alloc, octets),
        };
        agree_but_for_rest(read, &alone)
            && agree(read, &with_rest)
            && self.options_agree(octets, read)
    }

    /// Whether both modules answer the same with the mode's options.
    fn options_agree<T: Decode + PartialEq>(self, octets: &'a [u8], read: &Read<'a, T>) -> bool {
        let options = self.options();
        agree(read, &oer::decode_with_options(self.alloc, options, octets))
            && agree(
                read,
                &coer::decode_with_options(self.alloc, options, octets),
            )
    }

    /// What `canonicalise` answers.
    fn canonicalised<T: Decode + Encode>(self, octets: &[u8]) -> Result<String> {
        match oer::canonicalise::<T>(self.alloc, octets) {
            Ok((octets, rest)) => octets_and_rest(self.alloc, octets.as_slice(), rest),
            Err(CodecError::Decode(e)) => refusal(self.alloc, &e),
            Err(CodecError::Encode(_e)) => Err(Error::msg("what was read is not written")),
        }
    }
}

impl<'a> UnderConstraints for Reading<'a> {
    type Output = Result<String>;

    fn under<T: Decode + Encode + Debug + PartialEq>(
        self,
        constraints: Constraints,
    ) -> Result<String> {
        if !constraints.is_consistent() {
            return Err(Error::msg("constraints without a value"));
        }
        let mut behind = Decoder::new(self.behind, self.options());
        let _boolean = bool::decode(self.alloc, &mut behind)?;
        let octets = behind.remaining();
        let mut alone = Decoder::new(octets, self.options());
        let read = self.by_decoder::<T>(constraints, &mut alone)?;
        if !agree(&read, &self.by_decoder::<T>(constraints, &mut behind)?) {
            return Err(Error::msg("read in another way behind a boolean"));
        }
        if !self.module_agrees(constraints, octets, &read) {
            return Err(Error::msg("the module's calls answer otherwise"));
        }
        let answer = match &read {
            Ok((value, rest)) => {
                let octets = written(self.alloc, constraints, value)?;
                octets_and_rest(self.alloc, octets.as_slice(), rest)?
            }
            Err(e) => refusal(self.alloc, e)?,
        };
        if self.codec == Codec::Oer && constraints == T::CONSTRAINTS {
            if self.canonicalised::<T>(octets)? != answer {
                return Err(Error::msg("canonicalise answers otherwise"));
            }
        }
        Ok(answer)
    }
}

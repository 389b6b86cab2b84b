//! Proper fronts of octets, which lack octets: at least one, and at most those that are missing of the whole.
use anyhow::{Error, Result};
use asn1_core::{Codec, Constraints, DecodeError, DecodeErrorKind};
use oer_write::Encode;
use oertool_words::constrained::UnderConstraints;
use rasn_oer::oer::CodecError;
use rasn_oer::{Decode, Decoder, DecoderOptions, coer, oer};
use std::alloc::Global;
use std::fmt::Debug;

/// A front, behind the octet of a boolean, that is read in both modes.
#[derive(Clone, Copy)]
pub struct Front<'a> {
    pub alloc: Global,
    pub behind: &'a [u8],
    /// How many octets of the whole are missing.
    pub missing: usize,
}

/// The options of a mode.
fn options_of(codec: Codec) -> DecoderOptions {
    match codec {
        Codec::Oer => DecoderOptions::oer(),
        Codec::Coer => DecoderOptions::coer(),
    }
}

/// How many octets are lacking, where that is why it is refused in this mode.
fn needed<T>(answer: &std::result::Result<T, DecodeError>, codec: Codec) -> Option<usize> {
    match answer {
        Err(e) if e.codec == codec => match e.kind {
            DecodeErrorKind::Incomplete { needed } => Some(needed),
            _ => None,
        },
        _ => None,
    }
}

impl<'a> Front<'a> {
    /// How many octets a decoder behind the boolean lacks, which still has the whole front to read.
    fn by_decoder<T: Decode>(
        self,
        constraints: Constraints,
        codec: Codec,
    ) -> Result<Option<usize>> {
        if !constraints.is_consistent() {
            return Err(Error::msg("constraints without a value"));
        }
        let mut decoder = Decoder::new(self.behind, options_of(codec));
        let _boolean = bool::decode(self.alloc, &mut decoder)?;
        let left = decoder.remaining();
        let answer = T::decode_with_constraints(self.alloc, &mut decoder, constraints);
        if decoder.remaining() != left {
            return Err(Error::msg("a refusal moved the decoder on"));
        }
        Ok(needed(&answer, codec))
    }

    /// How many octets a module's call lacks.
    fn by_call<T: Decode + Encode>(
        self,
        constraints: Constraints,
        codec: Codec,
        front: &[u8],
    ) -> Result<Option<usize>> {
        if !constraints.is_consistent() {
            return Err(Error::msg("constraints without a value"));
        }
        let answer = match codec {
            Codec::Oer => oer::decode_with_constraints::<T>(self.alloc, constraints, front),
            Codec::Coer => coer::decode_with_constraints::<T>(self.alloc, constraints, front),
        };
        let lacking = needed(&answer, codec);
        if constraints == T::CONSTRAINTS && !self.all_lack::<T>(codec, front, lacking) {
            return Err(Error::msg("the module's calls answer otherwise"));
        }
        Ok(lacking)
    }

    /// Whether the module's other calls lack as many.
    fn all_lack<T: Decode + Encode>(
        self,
        codec: Codec,
        front: &[u8],
        lacking: Option<usize>,
    ) -> bool {
        let options = options_of(codec);
        let (alone, with_rest, with_options) = match codec {
            Codec::Oer => (
                needed(&oer::decode::<T>(self.alloc, front), codec),
                needed(&oer::decode_with_remainder::<T>(self.alloc, front), codec),
                needed(
                    &oer::decode_with_options::<T>(self.alloc, options, front),
                    codec,
                ),
            ),
            Codec::Coer => (
                needed(&coer::decode::<T>(self.alloc, front), codec),
                needed(&coer::decode_with_remainder::<T>(self.alloc, front), codec),
                needed(
                    &coer::decode_with_options::<T>(self.alloc, options, front),
                    codec,
                ),
            ),
        };
        let others = [alone, with_rest, with_options];
        others == [lacking; 3]
            && (codec == Codec::Coer || self.canonicalise_lacks::<T>(front) == lacking)
    }

    /// How many octets `canonicalise` lacks.
    fn canonicalise_lacks<T: Decode + Encode>(self, front: &[u8]) -> Option<usize> {
        match oer::canonicalise::<T>(self.alloc, front) {
            Err(CodecError::Decode(e)) => needed::<()>(&Err(e), Codec::Oer),
            _ => None,
        }
    }
}

impl<'a> UnderConstraints for Front<'a> {
    type Output = Result<()>;

    fn under<T: Decode + Encode + Debug + PartialEq>(self, constraints: Constraints) -> Result<()> {
        let front = self.behind.get(1..).unwrap_or(&[]);
        for codec in [Codec::Oer, Codec::Coer] {
            let Some(lacking) = self.by_call::<T>(constraints, codec, front)? else {
                return Err(Error::msg("a front is read, or refused otherwise"));
            };
            if self.by_decoder::<T>(constraints, codec)? != Some(lacking) {
                return Err(Error::msg("a decoder refuses a front otherwise"));
            }
            if lacking == 0 || lacking > self.missing {
                return Err(Error::msg("a front lacks none, or more than is missing"));
            }
        }
        Ok(())
    }
}

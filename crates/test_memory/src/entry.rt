//! The entry calls of both modules, with the type of a word.
ghost use Rattle.oer_spec.specs.Spelled.{IsConsistent};

use crate::answers::{appended, canonical, left, plain, read, read_first, written};
use crate::marks::begin;
use crate::one_row::Way;
use anyhow::{Error, Result};
use asn1_core::{Class, Codec, Constraints, Tag};
use asn1_strings::Any;
use oer_rows::OpenOctets;
use oer_write::Encode;
use oertool_words::constrained::UnderConstraints;
use rasn_oer::open::decode_open_type;
use rasn_oer::{Decode, Decoder, DecoderOptions, coer, oer};
use std::alloc::Global;
use std::fmt::Debug;

/// A call by its word, in a mode, of octets.
#[derive(Clone, Copy)]
pub struct Call<'a> {
    pub alloc: Global,
    pub codec: Codec,
    pub word: &'a str,
    pub octets: &'a [u8],
}

/// A call of a type's values.
#[derive(Clone, Copy, PartialEq, Eq)]
pub enum Ask {
    Encode,
    EncodeUnder,
    Append,
    Compare,
    Canonicalise,
    Decode,
    DecodeUnder,
    DecodeOpen,
    DecodeFirst,
    DecodeByOptions,
    OnDecoder(Way),
}

/// The call that a word names.
pub fn ask_of(word: &str) -> Result<Ask> {
    match word {
        "encode" => Ok(Ask::Encode),
        "encode_with_constraints" => Ok(Ask::EncodeUnder),
        "encode_buf" => Ok(Ask::Append),
        "==" => Ok(Ask::Compare),
        "canonicalise" => Ok(Ask::Canonicalise),
        "decode" => Ok(Ask::Decode),
        "decode_with_constraints" => Ok(Ask::DecodeUnder),
        "decode_open_type" => Ok(Ask::DecodeOpen),
        "decode_with_remainder" => Ok(Ask::DecodeFirst),
        "decode_with_options" => Ok(Ask::DecodeByOptions),
        "Decode::decode" => Ok(Ask::OnDecoder(Way::Plain)),
        "Decode::decode_with_tag" => Ok(Ask::OnDecoder(Way::ByTag)),
        "Decode::decode_with_constraints" => Ok(Ask::OnDecoder(Way::ByConstraints)),
        "Decode::decode_with_tag_and_constraints" => Ok(Ask::OnDecoder(Way::ByBoth)),
        "decode_explicit_prefix" => Ok(Ask::OnDecoder(Way::ByPrefix)),
        _ => Err(Error::msg("no such call")),
    }
}

/// The options of a mode.
pub fn options_of(codec: Codec) -> DecoderOptions {
    match codec {
        Codec::Oer => DecoderOptions::oer(),
        Codec::Coer => DecoderOptions::coer(),
    }
}

/// The tag of context 1.
pub fn one() -> Tag {
    Tag::new(Class::Context, 1)
}

/// A call of a type's values, of octets in a mode.
#[derive(Clone, Copy)]
pub struct Entry<'a> {
    pub alloc: Global,
    pub codec: Codec,
    pub ask: Ask,
    pub octets: &'a [u8],
}

impl<'a> Entry<'a> {
    /// The calls that write.
    fn writing<T: Encode>(self, constraints: Constraints, value: &T) -> Result<String>
        requires { IsConsistent constraints }
    {
        let alloc = self.alloc;
        begin(alloc)?;
        let answer = match (self.codec, self.ask) {
            (Codec::Oer, Ask::Encode) => oer::encode(alloc, value),
            (Codec::Coer, Ask::Encode) => coer::encode(alloc, value),
            (Codec::Oer, _) => oer::encode_with_constraints(alloc, constraints, value),
            (Codec::Coer, _) => coer::encode_with_constraints(alloc, constraints, value),
        };
        written(alloc, &answer)
    }

    /// The calls that append to a buffer, which begins as AA BB.
    fn appending<T: Encode>(self, value: &T) -> Result<String> {
        let alloc = self.alloc;
        let mut buffer = vec![in alloc; 0xaa, 0xbb]?;
        begin(alloc)?;
        let answer = match self.codec {
            Codec::Oer => oer::encode_buf(alloc, value, &mut buffer),
            Codec::Coer => coer::encode_buf(alloc, value, &mut buffer),
        };
        appended(alloc, answer, &buffer)
    }

    /// A comparison with the value of the same octets.
    fn comparing<T: Decode + PartialEq>(self, constraints: Constraints, value: T) -> Result<String>
        requires { IsConsistent constraints }
    {
        let other: T = oer::decode_with_constraints(self.alloc, constraints, self.octets)?;
        begin(self.alloc)?;
        plain(self.alloc, &(value == other))
    }

    /// The calls that answer a value alone.
    fn reading<T: Decode + Debug>(self, constraints: Constraints) -> Result<String>
        requires { IsConsistent constraints }
    {
        let (alloc, octets) = (self.alloc, self.octets);
        begin(alloc)?;
        let answer = match (self.codec, self.ask) {
            (Codec::Oer, Ask::Decode) => oer::decode::<T>(alloc, octets),
            (Codec::Coer, Ask::Decode) => coer::decode::<T>(alloc, octets),
            (Codec::Oer, _) => oer::decode_with_constraints::<T>(alloc, constraints, octets),
            (Codec::Coer, _) => coer::decode_with_constraints::<T>(alloc, constraints, octets),
        };
        read(alloc, &answer)
    }

    /// The call that takes an open type.
    fn reading_open<T: Decode + Debug>(self) -> Result<String> {
        let open = OpenOctets(Any::from_slice(self.alloc, self.octets)?);
        begin(self.alloc)?;
        let answer = decode_open_type::<T>(self.alloc, options_of(self.codec), &open);
        read(self.alloc, &answer)
    }

    /// The calls that answer what is left too.
    fn reading_first<T: Decode + Debug>(self) -> Result<String> {
        let (alloc, octets, options) = (self.alloc, self.octets, options_of(self.codec));
        begin(alloc)?;
        let answer = match (self.codec, self.ask) {
            (Codec::Oer, Ask::DecodeFirst) => oer::decode_with_remainder::<T>(alloc, octets),
            (Codec::Coer, Ask::DecodeFirst) => coer::decode_with_remainder::<T>(alloc, octets),
            (Codec::Oer, _) => oer::decode_with_options::<T>(alloc, options, octets),
            (Codec::Coer, _) => coer::decode_with_options::<T>(alloc, options, octets),
        };
        read_first(alloc, &answer)
    }

    /// The calls of `Decode`, on a decoder behind a boolean.
    fn on_decoder<T: Decode + Debug>(self, constraints: Constraints, way: Way) -> Result<String>
        requires { IsConsistent constraints }
    {
        let alloc = self.alloc;
        let mut decoder = Decoder::new(self.octets, options_of(self.codec));
        let _boolean = bool::decode(alloc, &mut decoder)?;
        begin(alloc)?;
        let answer = match way {
            Way::Plain => T::decode(alloc, &mut decoder),
            Way::ByTag => T::decode_with_tag(alloc, &mut decoder, one()),
            Way::ByConstraints => T::decode_with_constraints(alloc, &mut decoder, constraints),
            Way::ByBoth => {
                T::decode_with_tag_and_constraints(alloc, &mut decoder, one(), constraints)
            }
            Way::ByPrefix => decoder.decode_explicit_prefix::<T>(alloc, one()),
        };
        left(alloc, &decoder, &answer)
    }
}

impl<'a> UnderConstraints for Entry<'a> {
    type Output = Result<String>;

    fn under<T: Decode + Encode + Debug + PartialEq>(
        self,
        constraints: Constraints,
    ) -> Result<String> {
        if !constraints.is_consistent() {
            return Err(Error::msg("constraints without a value"));
        }
        let alloc = self.alloc;
        match self.ask {
            Ask::OnDecoder(way) => self.on_decoder::<T>(constraints, way),
            Ask::Decode | Ask::DecodeUnder => self.reading::<T>(constraints),
            Ask::DecodeOpen => self.reading_open::<T>(),
            Ask::DecodeFirst | Ask::DecodeByOptions => self.reading_first::<T>(),
            Ask::Canonicalise => {
                begin(alloc)?;
                canonical(alloc, &oer::canonicalise::<T>(alloc, self.octets))
            }
            Ask::Encode | Ask::EncodeUnder | Ask::Append | Ask::Compare => {
                let value: T = oer::decode_with_constraints(alloc, constraints, self.octets)?;
                match self.ask {
                    Ask::Append => self.appending(&value),
                    Ask::Compare => self.comparing(constraints, value),
                    _ => self.writing(constraints, &value),
                }
            }
        }
    }
}

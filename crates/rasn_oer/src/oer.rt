//! Basic octet encoding rules (X.696): lenient reading, and canonical writing.
ghost use Rattle.asn1_core.specs.declared.codec.Codec.TheVariants.{Oer};
ghost use Rattle.oer_spec.specs.Spelled.{IsConsistent};
ghost use Rattle.rasn_oer.specs.Conversions.{IsAsNewer, IsAsOlder, IsCanonicalised, SaysCanonicalised, SaysConverted};
ghost use Rattle.rasn_oer.specs.Headline.{IsAppended, IsRead, IsReadAlone, IsWritten, Says, SaysAlone};

pub use crate::codec_error::CodecError;
use crate::entry::{append_value, decode_value, encode_value};
use crate::recode::{canonical_value, other_version};
use asn1_core::{Constraints, DecodeError, EncodeError};
use oer_read::Decode;
use oer_read::de::DecoderOptions;
pub use oer_read::{Decoder, de};
use oer_write::Encode;
pub use oer_write::{Encoder, EncodingRules, enc};
use std::alloc::Global;

/// The canonical octets of a value's tree (docs/ENCODING.md).
///
/// Refused exactly where the tree can't be written, by a kind whose condition it breaks (docs/REFUSALS.md), or for want
/// of memory.
#[inline(always)]
pub fn encode<T: Encode>(alloc: Global, value: &T) -> Result<Vec<u8>, EncodeError>
    ensures { IsWritten (T.tree T.CONSTRAINTS) T.IsValue value.now result }
{
    encode_value(alloc, T::CONSTRAINTS, value)
}

/// The same under these constraints, which are consistent and stand in place of the type's own.
#[inline(always)]
pub fn encode_with_constraints<T: Encode>(
    alloc: Global,
    constraints: Constraints,
    value: &T,
) -> Result<Vec<u8>, EncodeError>
    requires { IsConsistent constraints }
    ensures { IsWritten (T.tree constraints) T.IsValue value.now result }
{
    encode_value(alloc, constraints, value)
}

/// The canonical octets of a value's tree, behind what the buffer holds.
///
/// Refused as `encode` is; the buffer is then as before.
#[inline(always)]
pub fn encode_buf<T: Encode>(
    alloc: Global,
    value: &T,
    buffer: &mut Vec<u8>,
) -> Result<(), EncodeError>
    ensures { IsAppended (T.tree T.CONSTRAINTS) T.IsValue value.now buffer.old.items result buffer.new.items }
{
    append_value(alloc, T::CONSTRAINTS, value, buffer)
}

/// The value whose lenient encoding begins the input, within 128 levels; what follows it is ignored. Of what a newer version
/// wrote, the value without the additions that the type doesn't know (X.696, 16.5).
///
/// Refused exactly where no such encoding begins the input (docs/REFUSALS.md has the kinds and their order), or for want
/// of memory.
#[inline(always)]
pub fn decode<T: Decode>(alloc: Global, input: &[u8]) -> Result<T, DecodeError>
    ensures read { IsReadAlone (T.tree T.CONSTRAINTS) T.IsValue Oer 128 input.now result }
    ensures says { SaysAlone (T.tree T.CONSTRAINTS) T.IsValue (T.Answered T.CONSTRAINTS) Oer 128 input.now result }
{
    let (value, _rest) = decode_value(alloc, DecoderOptions::oer(), T::CONSTRAINTS, input)?;
    Ok(value)
}

/// The value whose encoding begins the input, by the rules and within the levels of the options, and the octets behind it.
///
/// Refused exactly where no such encoding begins the input (docs/REFUSALS.md has the kinds and their order), or for want
/// of memory.
#[inline(always)]
pub fn decode_with_options<'a, T: Decode>(
    alloc: Global,
    options: DecoderOptions,
    input: &'a [u8],
) -> Result<(T, &'a [u8]), DecodeError>
    ensures read { IsRead (T.tree T.CONSTRAINTS) T.IsValue options.codec options.levels input.entry.now result }
    ensures says { Says (T.tree T.CONSTRAINTS) T.IsValue (T.Answered T.CONSTRAINTS) options.codec options.levels input.entry.now result }
{
    decode_value(alloc, options, T::CONSTRAINTS, input)
}

/// The value whose lenient encoding begins the input, within 128 levels, and the octets behind it.
///
/// Refused as `decode` is.
#[inline(always)]
pub fn decode_with_remainder<'a, T: Decode>(
    alloc: Global,
    input: &'a [u8],
) -> Result<(T, &'a [u8]), DecodeError>
    ensures read { IsRead (T.tree T.CONSTRAINTS) T.IsValue Oer 128 input.entry.now result }
    ensures says { Says (T.tree T.CONSTRAINTS) T.IsValue (T.Answered T.CONSTRAINTS) Oer 128 input.entry.now result }
{
    decode_with_options(alloc, DecoderOptions::oer(), input)
}

/// The same as `decode` under these constraints, which are consistent and stand in place of the type's own.
pub fn decode_with_constraints<T: Decode>(
    alloc: Global,
    constraints: Constraints,
    input: &[u8],
) -> Result<T, DecodeError>
    requires { IsConsistent constraints }
    ensures read { IsReadAlone (T.tree constraints) T.IsValue Oer 128 input.now result }
    ensures says { SaysAlone (T.tree constraints) T.IsValue (T.Answered constraints) Oer 128 input.now result }
{
    let (value, _rest) = decode_value(alloc, DecoderOptions::oer(), constraints, input)?;
    Ok(value)
}

/// The canonical octets of the value whose lenient encoding begins the input, within 128 levels, and the octets behind it.
///
/// Canonical reading takes these octets as an encoding of the same tree, and to do it again changes nothing. Refused as
/// `decode` refuses the input, or as `encode` refuses what was read.
pub fn canonicalise<'a, T: Decode + Encode>(
    alloc: Global,
    input: &'a [u8],
) -> Result<(Vec<u8>, &'a [u8]), CodecError>
    ensures octets { IsCanonicalised (T.tree T.CONSTRAINTS) T.IsValue 128 input.entry.now result }
    ensures says { SaysCanonicalised (T.tree T.CONSTRAINTS) T.IsValue (T.Answered T.CONSTRAINTS) 128 input.entry.now result }
{
    canonical_value::<T>(alloc, input)
}

/// A newer version's value as one of an older version: what lenient reading of its canonical octets answers.
///
/// Refused as `encode` refuses the newer value, or as `decode` refuses its octets as the older type.
pub fn as_older<New: Encode, Old: Decode>(alloc: Global, newer: &New) -> Result<Old, CodecError>
    ensures read { IsAsOlder (New.tree New.CONSTRAINTS) New.IsValue (Old.tree Old.CONSTRAINTS) Old.IsValue Oer 128 newer.now result }
    ensures says { SaysConverted (Old.tree Old.CONSTRAINTS) Old.IsValue (Old.Answered Old.CONSTRAINTS) (New.tree New.CONSTRAINTS newer.now) Oer 128 result }
{
    other_version(alloc, DecoderOptions::oer(), newer)
}

/// An older version's value as one of a newer version, without the newer version's further components: what lenient reading
/// of its canonical octets answers.
///
/// Refused as `encode` refuses the older value, or as `decode` refuses its octets as the newer type.
pub fn as_newer<Old: Encode, New: Decode>(alloc: Global, older: &Old) -> Result<New, CodecError>
    ensures read { IsAsNewer (Old.tree Old.CONSTRAINTS) Old.IsValue (New.tree New.CONSTRAINTS) New.IsValue Oer 128 older.now result }
    ensures says { SaysConverted (New.tree New.CONSTRAINTS) New.IsValue (New.Answered New.CONSTRAINTS) (Old.tree Old.CONSTRAINTS older.now) Oer 128 result }
{
    other_version(alloc, DecoderOptions::oer(), older)
}

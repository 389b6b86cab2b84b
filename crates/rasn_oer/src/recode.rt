//! Calls that read and write.
ghost use Rattle.rasn_oer.specs.Conversions.{IsAsNewer, IsAsOlder, IsCanonicalised, SaysCanonicalised, SaysConverted};

use crate::codec_error::CodecError;
use crate::entry::{decode_value, encode_value};
use oer_read::Decode;
use oer_read::de::DecoderOptions;
use oer_write::Encode;
use std::alloc::Global;

/// The canonical octets of the value that is read leniently, and the octets behind it.
pub(crate) fn canonical_value<'a, T: Decode + Encode>(
    alloc: Global,
    input: &'a [u8],
) -> Result<(Vec<u8>, &'a [u8]), CodecError>
    ensures octets { IsCanonicalised (T.tree T.CONSTRAINTS) T.IsValue 128 input.entry.now result }
    ensures says { SaysCanonicalised (T.tree T.CONSTRAINTS) T.IsValue (T.Answered T.CONSTRAINTS) 128 input.entry.now result }
{
    match decode_value::<T>(alloc, DecoderOptions::oer(), T::CONSTRAINTS, input) {
        Err(e) => Err(CodecError::Decode(e)),
        Ok((value, rest)) => match encode_value(alloc, T::CONSTRAINTS, &value) {
            Err(e) => Err(CodecError::Encode(e)),
            Ok(octets) => Ok((octets, rest)),
        },
    }
}

/// The value of another version of a type that is read of a value's canonical octets.
pub(crate) fn other_version<Sent: Encode, Wanted: Decode>(
    alloc: Global,
    options: DecoderOptions,
    value: &Sent,
) -> Result<Wanted, CodecError>
    ensures older { IsAsOlder (Sent.tree Sent.CONSTRAINTS) Sent.IsValue (Wanted.tree Wanted.CONSTRAINTS) Wanted.IsValue options.codec options.levels value.now result }
    ensures newer { IsAsNewer (Sent.tree Sent.CONSTRAINTS) Sent.IsValue (Wanted.tree Wanted.CONSTRAINTS) Wanted.IsValue options.codec options.levels value.now result }
    ensures says { SaysConverted (Wanted.tree Wanted.CONSTRAINTS) Wanted.IsValue (Wanted.Answered Wanted.CONSTRAINTS) (Sent.tree Sent.CONSTRAINTS value.now) options.codec options.levels result }
{
    match encode_value(alloc, Sent::CONSTRAINTS, value) {
        Err(e) => Err(CodecError::Encode(e)),
        Ok(octets) => match decode_value::<Wanted>(
            alloc,
            options,
            Wanted::CONSTRAINTS,
            octets.as_slice(),
        ) {
            Err(e) => Err(CodecError::Decode(e)),
            Ok((value, _rest)) => Ok(value),
        },
    }
}

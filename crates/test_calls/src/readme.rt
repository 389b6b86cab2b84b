//! One function for each call of `coer` and `oer`.

use oer_types::{DefaultInteger, Nest, Pair, Sequence1, Sequence2};
use rasn_oer::oer::CodecError;
use rasn_oer::prelude::*;
use rasn_oer::{coer, oer};
use std::alloc::Global;

/// A value's octets, to be signed: 01 01 01 02.
pub fn written(alloc: Global) -> Result<Vec<u8>, EncodeError> {
    let pair = Pair {
        a: Integer::from_i128(1),
        b: Integer::from_i128(2),
    };
    coer::encode(alloc, &pair)
}

/// The same octets behind those that a message holds already.
pub fn appended(alloc: Global, pair: &Pair, message: &mut Vec<u8>) -> Result<(), EncodeError> {
    coer::encode_buf(alloc, pair, message)
}

/// The pair at the front of what came, and the octets behind it.
pub fn first_pair(alloc: Global, came: &[u8]) -> Result<(Pair, &[u8]), DecodeError> {
    coer::decode_with_remainder(alloc, came)
}

/// What a lenient sender wrote in canonical octets, and the octets behind it: of 80 01 00 it makes 00.
pub fn canonical(alloc: Global, came: &[u8]) -> Result<(Vec<u8>, &[u8]), CodecError> {
    oer::canonicalise::<DefaultInteger>(alloc, came)
}

/// A list of lists from a stranger, no deeper than the options say, and the octets behind it.
pub fn few_levels(
    alloc: Global,
    options: DecoderOptions,
    came: &[u8],
) -> Result<(Nest, &[u8]), DecodeError> {
    oer::decode_with_options(alloc, options, came)
}

/// What the first version reads of the second one's octets: `a`; `b` and `c` are skipped.
pub fn as_first_version(alloc: Global, newer: &Sequence2) -> Result<Sequence1, CodecError> {
    coer::as_older(alloc, newer)
}

/// What the second version reads of the first one's octets: `a`, without `b` and `c`.
pub fn as_second_version(alloc: Global, older: &Sequence1) -> Result<Sequence2, CodecError> {
    coer::as_newer(alloc, older)
}

/// The first by a receiver that has the octets alone.
pub fn received(alloc: Global, came: &[u8]) -> Result<Sequence1, DecodeError> {
    coer::decode(alloc, came)
}

/// The pair that came, or how many more octets to wait for; another refusal is final.
pub fn pair_or_more(alloc: Global, came: &[u8]) -> Result<Result<Pair, usize>, DecodeError> {
    match coer::decode(alloc, came) {
        Ok(pair) => Ok(Ok(pair)),
        Err(e) => match e.kind {
            DecodeErrorKind::Incomplete { needed } => Ok(Err(needed)),
            kind => Err(kind.with_codec(e.codec)),
        },
    }
}

/// The name of a refusal: `name` is its kind without fields.
pub fn name_of(refusal: &DecodeError) -> &'static str {
    match &refusal.kind {
        DecodeErrorKind::InvalidBool { value: 1 } => "a true of another sender",
        kind => kind.name(),
    }
}

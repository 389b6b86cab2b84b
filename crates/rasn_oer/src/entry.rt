//! What both modules' calls come down to: one function for each direction.
ghost use Rattle.asn1_core.specs.declared.codec.Codec.{Codec};
ghost use Rattle.oer_spec.specs.Spelled.{IsConsistent};
ghost use Rattle.std.specs.Prelude.{◌≡◌, ◌++◌, OnOk, IfErr};
ghost use Rattle.oer_spec.specs.Encoding.{IsEncodable, canonical_octets};
ghost use Rattle.oer_spec.specs.Writing.{BeginsWith};
ghost use Rattle.rasn_oer.specs.Headline.{IsAppended, IsWritten, IsRead, NotWritten, Says};

use asn1_core::{Constraints, DecodeError, EncodeError};
use oer_read::de::DecoderOptions;
use oer_read::{Decode, Decoder};
use oer_write::enc::EncoderOptions;
use oer_write::{Encode, Encoder};
use std::alloc::Global;

/// The canonical octets of a value, under constraints in place of its type's own.
#[inline(always)]
pub(crate) fn encode_value<T: Encode>(
    alloc: Global,
    constraints: Constraints,
    value: &T,
) -> Result<Vec<u8>, EncodeError>
    requires { IsConsistent constraints }
    ensures { IsWritten (T.tree constraints) T.IsValue value.now result }
{
    let mut output = Vec::new(alloc);
    let mut worker = Vec::new(alloc);
    let mut encoder = Encoder::from_buffer(alloc, EncoderOptions::coer(), &mut output, &mut worker);
    value.encode_with_tag_and_constraints(&mut encoder, T::TAG, constraints)?;
    Ok(encoder.output())
}

/// The value whose encoding begins the input, under constraints in place of its type's own, and the octets behind it.
#[inline(always)]
pub(crate) fn decode_value<'a, T: Decode>(
    alloc: Global,
    options: DecoderOptions,
    constraints: Constraints,
    input: &'a [u8],
) -> Result<(T, &'a [u8]), DecodeError>
    requires { IsConsistent constraints }
    ensures read { IsRead (T.tree constraints) T.IsValue options.codec options.levels input.entry.now result }
    ensures says { Says (T.tree constraints) T.IsValue (T.Answered constraints) options.codec options.levels input.entry.now result }
{
    let mut decoder = Decoder::new(input, options);
    match T::decode_with_tag_and_constraints(alloc, &mut decoder, T::TAG, constraints) {
        Ok(value) => Ok((value, decoder.remaining())),
        Err(e) => Err(e),
    }
}

/// Writes the canonical octets of a value behind what the buffer holds.
#[inline(always)]
fn write_behind<T: Encode>(
    alloc: Global,
    constraints: Constraints,
    value: &T,
    buffer: &mut Vec<u8>,
) -> Result<(), EncodeError>
    requires { IsConsistent constraints }
    ensures done { OnOk result (IsEncodable (T.tree constraints value.now) × (buffer.new.items ≡ buffer.old.items ++ canonical_octets (T.tree constraints value.now))) }
    ensures value { OnOk result (T.IsValue value.now) }
    ensures refused { IfErr result (λ x. NotWritten (T.tree constraints) T.IsValue value.now x) }
    ensures begins { BeginsWith buffer.old.items buffer.new.items }
{
    let mut worker = Vec::new(alloc);
    let mut encoder = Encoder::from_buffer(
        alloc,
        EncoderOptions::coer(),
        &mut *buffer,
        &mut worker,
    );
    let answer = value.encode_with_tag_and_constraints(&mut encoder, T::TAG, constraints);
    let octets = encoder.output();
    drop(encoder);
    *buffer = octets;
    answer
}

/// The canonical octets of a value behind what the buffer holds; after a refusal the buffer is as before.
#[inline(always)]
pub(crate) fn append_value<T: Encode>(
    alloc: Global,
    constraints: Constraints,
    value: &T,
    buffer: &mut Vec<u8>,
) -> Result<(), EncodeError>
    requires { IsConsistent constraints }
    ensures { IsAppended (T.tree constraints) T.IsValue value.now buffer.old.items result buffer.new.items }
{
    let mark = buffer.len();
    match write_behind(alloc, constraints, value, &mut *buffer) {
        Ok(()) => Ok(()),
        Err(e) => {
            buffer.truncate(mark);
            Err(e)
        }
    }
}

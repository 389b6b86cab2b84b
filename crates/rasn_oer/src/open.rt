//! Open types (X.696, 30): their octets as a value of the type that an id stands for.
ghost use Rattle.std.specs.Prelude.{◌≡◌, IfErr, IfOk};
ghost use Rattle.asn1_core.specs.declared.error.DecodeErrorKind.TheVariants as DecodeErrorKind;
ghost use Rattle.rasn_oer.specs.Open.{IsReadOpen, SaysOpen};

use crate::entry::decode_value;
use asn1_core::{Codec, DecodeError, DecodeErrorKind};
use oer_read::Decode;
use oer_read::de::DecoderOptions;
use oer_rows::OpenOctets;
use std::alloc::Global;

/// The value whose encoding the octets of an open type are, by the rules and within the levels of the options. Lenient reading
/// ignores what follows the encoding; in canonical reading nothing may follow.
///
/// Refused exactly where no encoding of the type begins the octets (docs/REFUSALS.md has the kinds and their order); in canonical
/// reading with `NotValidCanonicalEncoding` where octets follow it; or for want of memory.
#[inline(always)]
pub fn decode_open_type<T: Decode>(
    alloc: Global,
    options: DecoderOptions,
    octets: &OpenOctets,
) -> Result<T, DecodeError>
    ensures read { IsReadOpen (T.tree T.CONSTRAINTS) T.IsValue options.codec options.levels octets.now.0 result }
    ensures says { SaysOpen (T.tree T.CONSTRAINTS) T.IsValue (T.Answered T.CONSTRAINTS) options.codec options.levels octets.now.0 result }
{
    let codec = options.codec();
    match decode_value(alloc, options, T::CONSTRAINTS, octets.0.as_bytes()) {
        Err(e) => Err(e),
        Ok((value, rest)) => match (codec, rest) {
            (Codec::Coer, [_, ..]) => Err(DecodeError {
                kind: DecodeErrorKind::NotValidCanonicalEncoding,
                codec,
            }),
            (Codec::Coer, []) | (Codec::Oer, _) => Ok(value),
        },
    }
}

/// The octets of an open type once more, under an id that stands for no known type.
///
/// Refused for want of memory.
pub fn other_octets(options: DecoderOptions, octets: &OpenOctets) -> Result<OpenOctets, DecodeError>
    ensures same { IfOk result (λ it. it ≡ octets.now) }
    ensures refused { IfErr result (λ e. e ≡ record { kind = DecodeErrorKind.OutOfMemory; codec = options.codec }) }
{
    match octets.0.clone() {
        Ok(content) => Ok(OpenOctets(content)),
        Err(_) => Err(DecodeError {
            kind: DecodeErrorKind::OutOfMemory,
            codec: options.codec(),
        }),
    }
}

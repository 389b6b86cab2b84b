//! Reads the number of an enumerated value (X.696, 11).
ghost use Rattle.std.specs.Prelude.{◌≡◌, IfErr};
ghost use Rattle.asn1_core.specs.Octets.{signed};
ghost use Rattle.oer_spec.specs.Mode.{mode_of};
ghost use Rattle.oer_spec.specs.Reading.{Gives, seen, ReadsFront, IsNotForMemory};
ghost use Rattle.oer_leaf_read.specs.ReadingEnumerated.{if_isize, long_enumerated_at, enumerated_at, IsEnumeratedNumber};

use crate::integers::number_content_in;
use crate::parts::{read_octet, read_octets, require_canonical};
use asn1_core::{Codec, DecodeErrorKind};
use asn1_ints::i128_of;

/// The number of the octets in two's complement, where it is one of isize.
fn isize_of(octets: &[u8]) -> Option<isize>
    ensures { result ≡ if_isize (signed octets.now) }
{
    let n = i128_of(octets)?;
    isize::try_from(n).ok()
}

/// The number of an enumerated value, in so many octets (X.696, 11.4).
#[tactic(auto, unfolding(crate::specs::ReadingEnumerated::long_enumerated_at))]
fn read_long_enumerated(
    codec: Codec,
    count: usize,
    input: &[u8],
) -> Result<(isize, &[u8]), DecodeErrorKind>
    ensures function { Gives (λ x. (x.0, x.1.now)) result (long_enumerated_at codec count input.now) }
    ensures memory { IfErr result IsNotForMemory }
{
    let (octets, rest) = read_octets(count, input)?;
    let content = number_content_in(true, codec, octets)?;
    let number = isize_of(content).ok_or(DecodeErrorKind::LengthExceedsPlatformWidth)?;
    require_canonical(codec, number >= 0 && number < 128)?;
    Ok((number, rest))
}

/// The number of the enumerated value at the front, and what is left (X.696, 11); whether the type has a value of that
/// number isn't asked here.
///
/// Refused, the first that applies: `Incomplete` by 1 where there is no octet; from 80 on, `Incomplete` by as many octets
/// of the number as are missing; no octets, as `EmptyInteger`; in canonical reading a first octet that could be left out,
/// as `NotValidCanonicalEncoding`; a number outside isize, as `LengthExceedsPlatformWidth`; in canonical reading a number
/// from 0 to 127, as `NotValidCanonicalEncoding`.
#[tactic(auto, unfolding(crate::specs::ReadingEnumerated::enumerated_at))]
pub fn read_enumerated(codec: Codec, input: &[u8]) -> Result<(isize, &[u8]), DecodeErrorKind>
    ensures function { Gives (λ x. (x.0, x.1.now)) result (enumerated_at codec input.now) }
    ensures relation { ReadsFront (IsEnumeratedNumber (mode_of codec)) input.now (seen (λ x. (x.0, x.1.now)) result) }
    ensures memory { IfErr result IsNotForMemory }
{
    let (first, rest) = read_octet(input)?;
    if first < 128 {
        return Ok((first as isize, rest));
    }
    read_long_enumerated(codec, (first - 128) as usize, rest)
}

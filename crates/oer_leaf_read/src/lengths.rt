//! Reads a length, and the octets behind one (X.696, 8.6).
ghost use Rattle.std.specs.Prelude.{IfErr};
ghost use Rattle.oer_spec.specs.Lengths.{IsLength, IsBehindLength};
ghost use Rattle.oer_spec.specs.Mode.{mode_of};
ghost use Rattle.oer_spec.specs.Reading.{Gives, seen, ReadsFront, IsNotForMemory, length_at, long_length_at, content_at};

use crate::parts::{begins_with_zero, read_octet, read_octets, require_canonical, unsigned_of};
use asn1_core::{Codec, DecodeErrorKind};

/// The long form's number, in `count` octets (X.696, 8.6.5).
#[inline(never)]
#[tactic(auto, unfolding(oer_spec::specs::Reading::long_length_at))]
fn read_any_length(
    codec: Codec,
    count: usize,
    input: &[u8],
) -> Result<(usize, &[u8]), DecodeErrorKind>
    ensures function { Gives (λ x. (x.0, x.1.now)) result (long_length_at codec count input.now) }
    ensures memory { IfErr result IsNotForMemory }
{
    let (octets, rest) = read_octets(count, input)?;
    require_canonical(codec, begins_with_zero(octets))?;
    let n = unsigned_of(octets).ok_or(DecodeErrorKind::LengthExceedsPlatformWidth)?;
    require_canonical(codec, n < 128)?;
    Ok((n, rest))
}

/// The same: a length of two octets, the commonest of the long form, in a few instructions.
#[inline(never)]
fn read_long_length(
    codec: Codec,
    count: usize,
    input: &[u8],
) -> Result<(usize, &[u8]), DecodeErrorKind>
    ensures function { Gives (λ x. (x.0, x.1.now)) result (long_length_at codec count input.now) }
    ensures memory { IfErr result IsNotForMemory }
{
    match input {
        [high, low, rest @ ..] if count == 2 && *high != 0 => {
            Ok((*high as usize * 256 + *low as usize, rest))
        }
        _ => read_any_length(codec, count, input),
    }
}

/// The long form's number, by a call whose answer lies in a place of this function's: so that of the short form is none in
/// memory.
#[inline(always)]
fn behind_long_length(
    codec: Codec,
    count: usize,
    input: &[u8],
) -> Result<(usize, &[u8]), DecodeErrorKind>
    ensures function { Gives (λ x. (x.0, x.1.now)) result (long_length_at codec count input.now) }
    ensures memory { IfErr result IsNotForMemory }
{
    match read_long_length(codec, count, input) {
        Ok((n, rest)) => Ok((n, rest)),
        Err(kind) => Err(kind),
    }
}

/// The length at the front, and what is left (X.696, 8.6).
///
/// Refused, the first that applies: `Incomplete` by 1 where there is no octet; `ZeroLengthOfLength` where it is 80;
/// `Incomplete` by as many octets of the number as are missing; a leading octet 00 in canonical reading, as
/// `NotValidCanonicalEncoding`; above `usize::MAX`, as `LengthExceedsPlatformWidth`; a number below 128 in the long form
/// in canonical reading, as `NotValidCanonicalEncoding`.
#[inline(always)]
#[tactic(auto, unfolding(oer_spec::specs::Reading::length_at))]
pub fn read_length(codec: Codec, input: &[u8]) -> Result<(usize, &[u8]), DecodeErrorKind>
    ensures function { Gives (λ x. (x.0, x.1.now)) result (length_at codec input.now) }
    ensures relation { ReadsFront (IsLength (mode_of codec)) input.now (seen (λ x. (x.0, x.1.now)) result) }
    ensures memory { IfErr result IsNotForMemory }
{
    let (first, rest) = read_octet(input)?;
    if first < 128 {
        return Ok((first as usize, rest));
    }
    if first == 128 {
        return Err(DecodeErrorKind::ZeroLengthOfLength);
    }
    behind_long_length(codec, (first - 128) as usize, rest)
}

/// The octets behind a length at the front, and what is left: what stands in an open type, and a skipped addition
/// (X.696, 8.6 and 30).
///
/// Refused as the length is (`read_length`); then `Incomplete` by as many octets as are missing.
#[inline(always)]
#[tactic(auto, unfolding(oer_spec::specs::Reading::content_at))]
pub fn read_content(codec: Codec, input: &[u8]) -> Result<(&[u8], &[u8]), DecodeErrorKind>
    ensures function { Gives (λ x. (x.0.now, x.1.now)) result (content_at codec input.now) }
    ensures relation { ReadsFront (λ o content. IsBehindLength (mode_of codec) o content) input.now (seen (λ x. (x.0.now, x.1.now)) result) }
    ensures memory { IfErr result IsNotForMemory }
{
    let (count, rest) = read_length(codec, input)?;
    read_octets(count, rest)
}

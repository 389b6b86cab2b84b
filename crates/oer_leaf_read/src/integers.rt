//! Reads an INTEGER, laid out by its value constraint (X.696, 10).
ghost use Rattle.std.specs.Prelude.{◌≡◌, pos, false, true, IfErr};
ghost use Rattle.asn1_core.specs.Bounds.{value_bounds, in_range};
ghost use Rattle.asn1_core.specs.Octets.{signed, unsigned};
ghost use Rattle.asn1_ints.specs.Reading.{number_in};
ghost use Rattle.oer_spec.specs.Leaves.{value_of};
ghost use Rattle.oer_spec.specs.Mode.{mode_of};
ghost use Rattle.oer_spec.specs.Reading.{Gives, seen, ReadsFront, IsNotForMemory};
ghost use Rattle.oer_spec.specs.ReadingIntegers.{GivesBy, IsForMemoryOf, is_superfluous, number_content_in, number_content_at, number_octets_at, IsNumberContent, in_range_only, integer_at, IsIntegerOf};
ghost use Rattle.oer_spec.specs.Widths.{width_view};

use crate::lengths::read_content;
use crate::parts::{read_octets, require_canonical};
use asn1_core::{Codec, Constraints, DecodeErrorKind};
use asn1_ints::{IntegerType, has_superfluous_sign, has_superfluous_zero};
use oer_spec::leaf::{IntegerWidth, is_in_range, width_of};
use std::alloc::Global;

/// Whether the first octet of a number could be left out.
#[inline(always)]
fn is_superfluous(signed: bool, content: &[u8]) -> bool
    ensures { result ≡ is_superfluous signed content.now }
{
    if signed {
        has_superfluous_sign(content)
    } else {
        has_superfluous_zero(content)
    }
}

/// The octets of a number, of which there is at least one, and in canonical reading none that could be left out.
#[inline(always)]
pub(crate) fn number_content_in(
    signed: bool,
    codec: Codec,
    content: &[u8],
) -> Result<&[u8], DecodeErrorKind>
    ensures function { Gives (λ x. x.now) result (number_content_in signed codec content.now) }
    ensures memory { IfErr result IsNotForMemory }
{
    if content.is_empty() {
        return Err(DecodeErrorKind::EmptyInteger);
    }
    require_canonical(codec, is_superfluous(signed, content))?;
    Ok(content)
}

/// The octets of a number behind a length at the front, in two's complement or unsigned, and what is left (X.696, 10.3
/// and 10.4).
///
/// Refused as the octets behind a length are (`read_content`); then, the first that applies: no octets, as `EmptyInteger`;
/// in canonical reading a first octet that could be left out, as `NotValidCanonicalEncoding`.
#[inline(always)]
#[tactic(auto, unfolding(oer_spec::specs::ReadingIntegers::number_content_at))]
pub fn read_number_content(
    signed: bool,
    codec: Codec,
    input: &[u8],
) -> Result<(&[u8], &[u8]), DecodeErrorKind>
    ensures function { Gives (λ x. (x.0.now, x.1.now)) result (number_content_at signed codec input.now) }
    ensures relation { ReadsFront (IsNumberContent signed (mode_of codec)) input.now (seen (λ x. (x.0.now, x.1.now)) result) }
    ensures memory { IfErr result IsNotForMemory }
{
    let (content, rest) = read_content(codec, input)?;
    let octets = number_content_in(signed, codec, content)?;
    Ok((octets, rest))
}

/// The octets of a number of that layout.
#[inline(always)]
#[tactic(auto, unfolding(oer_spec::specs::ReadingIntegers::number_octets_at))]
fn read_number_octets(
    width: IntegerWidth,
    codec: Codec,
    input: &[u8],
) -> Result<(&[u8], &[u8]), DecodeErrorKind>
    ensures function { Gives (λ x. (x.0.now, x.1.now)) result (number_octets_at (width_view width) codec input.now) }
    ensures memory { IfErr result IsNotForMemory }
{
    match width {
        IntegerWidth::Fixed { octets, .. } => read_octets(octets, input),
        IntegerWidth::Counted { signed } => read_number_content(signed, codec, input),
    }
}

/// The number of octets in two's complement, or unsigned, where it is one of the type.
#[inline(always)]
fn number_of<I: IntegerType>(
    alloc: Global,
    signed: bool,
    codec: Codec,
    octets: &[u8],
) -> Result<I, DecodeErrorKind>
    ensures function { GivesBy I.TAKES_MEMORY I.number result (number_in I.admits octets.now (value_of signed octets.now)) }
    ensures memory { IfErr result (IsForMemoryOf I.TAKES_MEMORY) }
{
    let read = if signed {
        I::try_from_signed_bytes(alloc, octets, codec)
    } else {
        I::try_from_unsigned_bytes(alloc, octets, codec)
    };
    match read {
        Ok(value) => Ok(value),
        Err(error) => Err(error.kind),
    }
}

/// Only a number that the constraints allow.
#[inline(always)]
fn require_in_range<I: IntegerType>(
    constraints: &Constraints,
    value: &I,
) -> Result<(), DecodeErrorKind>
    ensures function { Gives (λ x. x) result (in_range_only (value_bounds constraints.now) (I.number value.now)) }
    ensures memory { IfErr result IsNotForMemory }
{
    if is_in_range(constraints, value) {
        Ok(())
    } else {
        Err(DecodeErrorKind::ValueConstraintNotSatisfied)
    }
}

/// The integer at the front, and what is left (X.696, 10).
///
/// A value constraint that isn't extensible decides the layout: without a lower bound, and without a constraint, a number
/// in two's complement behind a length; with a lower bound below 0, two's complement in 1, 2, 4 or 8 octets where both
/// bounds are in that range, else behind a length; with one from 0 on, unsigned in 1, 2, 4 or 8 octets by the upper bound,
/// else behind a length.
///
/// Refused, the first that applies: in a fixed count of octets, `Incomplete` by those that are missing; behind a length,
/// what `read_number_content` refuses; then a number that the type doesn't hold, as `IntegerOverflow`; under a constraint
/// that isn't extensible, a number outside it or outside i128, as `ValueConstraintNotSatisfied`. A type that takes memory
/// may be refused it, as `OutOfMemory`.
#[inline(always)]
#[tactic(auto, unfolding(oer_spec::specs::ReadingIntegers::integer_at))]
pub fn read_integer<I: IntegerType>(
    alloc: Global,
    codec: Codec,
    constraints: Constraints,
    input: &[u8],
) -> Result<(I, &[u8]), DecodeErrorKind>
    ensures function { GivesBy I.TAKES_MEMORY (λ x. (I.number x.0, x.1.now)) result (integer_at I.admits (value_bounds constraints) codec input.now) }
    ensures relation { ReadsFront (IsIntegerOf I.admits (value_bounds constraints) (mode_of codec)) input.now (seen (λ x. (I.number x.0, x.1.now)) result) }
    ensures memory { IfErr result (IsForMemoryOf I.TAKES_MEMORY) }
{
    let width = width_of(&constraints);
    let (octets, rest) = read_number_octets(width, codec, input)?;
    let value: I = number_of(alloc, width.is_signed(), codec, octets)?;
    require_in_range(&constraints, &value)?;
    Ok((value, rest))
}

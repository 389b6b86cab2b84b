//! Reads a BIT STRING (X.696, 13).
ghost use Rattle.std.specs.Prelude.{◌≡◌, ◌<◌, ◌≤◌, ◌^◌, length, IfOk, IfErr};
ghost use Rattle.asn1_core.specs.Octets.{octets_for};
ghost use Rattle.asn1_core.specs.Bounds.{size_bounds};
ghost use Rattle.oer_spec.specs.Leaves.{IsLeafEncoding};
ghost use Rattle.oer_spec.specs.Mode.{mode_of};
ghost use Rattle.oer_spec.specs.Reading.{Gives, seen, ReadsFront, IsNotForMemory};
ghost use Rattle.oer_spec.specs.ReadingBits.{fixed_bits_at, counted_from, counted_bits_at, bit_string_at, named_bits_at};
ghost use Rattle.oer_leaf_read.specs.ReadingMemory.{GivesOrMemory};
ghost use Rattle.oer_spec.specs.Tree.{Bits, Named};
ghost use Rattle.asn1_strings.specs.NamedBits.{IsNamed};
ghost use Rattle.oer_leaf_read.specs.Views.{bits_in};

use crate::bits::{has_set_fill, is_overfull};
use crate::lengths::read_length;
use crate::parts::{read_octet, read_octets, require_canonical};
use crate::places::refuse_if;
use asn1_core::{Codec, Constraints, DecodeErrorKind};
use asn1_strings::{BitString, NamedBits, significant_bits};
use oer_spec::leaf::{least_size, octets_for, unused_for};
use std::alloc::Global;

/// So many bits in as few octets of the input.
#[derive(Debug, Clone, Copy)]
struct BitStr<'a> {
    octets: &'a [u8],
    bits: usize,
}

#[tactic(auto, using(crate::proofs::ReadBitStrings::fixed_front), unfolding(oer_spec::specs::ReadingBits::fixed_bits_at))]
fn read_fixed_bits(
    size: usize,
    codec: Codec,
    input: &[u8],
) -> Result<(BitStr<'_>, &[u8]), DecodeErrorKind>
    ensures function { Gives (λ x. (bits_in x.0, x.1.now)) result (fixed_bits_at size codec input.now) }
    ensures whole { IfOk result (λ x. length x.0.octets.now ≡ octets_for x.0.bits) }
    ensures memory { IfErr result IsNotForMemory }
{
    let (octets, rest) = read_octets(octets_for(size), input)?;
    require_canonical(codec, has_set_fill(unused_for(size), octets))?;
    Ok((BitStr { octets, bits: size }, rest))
}

#[tactic(auto, unfolding(oer_spec::specs::ReadingBits::counted_from))]
fn read_counted_from(
    codec: Codec,
    count: usize,
    input: &[u8],
) -> Result<(BitStr<'_>, &[u8]), DecodeErrorKind>
    ensures function { Gives (λ x. (bits_in x.0, x.1.now)) result (counted_from codec count input.now) }
    ensures whole { IfOk result (λ x. length x.0.octets.now ≡ octets_for x.0.bits) }
    ensures memory { IfErr result IsNotForMemory }
{
    let (unused, rest) = read_octet(input)?;
    refuse_if(
        is_overfull(unused, count),
        DecodeErrorKind::InvalidBitString,
    )?;
    refuse_if(
        count > usize::MAX / 8,
        DecodeErrorKind::LengthExceedsPlatformWidth,
    )?;
    let (octets, rest) = read_octets(count, rest)?;
    require_canonical(codec, has_set_fill(unused, octets))?;
    let bits = count * 8 - unused as usize;
    Ok((BitStr { octets, bits }, rest))
}

#[tactic(auto, unfolding(oer_spec::specs::ReadingBits::counted_bits_at))]
fn read_counted_bits(codec: Codec, input: &[u8]) -> Result<(BitStr<'_>, &[u8]), DecodeErrorKind>
    ensures function { Gives (λ x. (bits_in x.0, x.1.now)) result (counted_bits_at codec input.now) }
    ensures whole { IfOk result (λ x. length x.0.octets.now ≡ octets_for x.0.bits) }
    ensures memory { IfErr result IsNotForMemory }
{
    let (count, rest) = read_length(codec, input)?;
    if count > 0 {
        return read_counted_from(codec, count - 1, rest);
    }
    require_canonical(codec, true)?;
    let octets: &[u8] = &[];
    Ok((BitStr { octets, bits: 0 }, rest))
}

#[tactic(auto, using(crate::proofs::ReadBitStrings::whole_count), unfolding(oer_spec::specs::ReadingBits::bit_string_at))]
fn read_bits(
    codec: Codec,
    constraints: Constraints,
    input: &[u8],
) -> Result<(BitStr<'_>, &[u8]), DecodeErrorKind>
    ensures function { Gives (λ x. (bits_in x.0, x.1.now)) result (bit_string_at (size_bounds constraints) codec input.now) }
    ensures whole { IfOk result (λ x. length x.0.octets.now ≡ octets_for x.0.bits) }
    ensures memory { IfErr result IsNotForMemory }
{
    if let Some(size) = constraints.fixed_size() {
        return read_fixed_bits(size, codec, input);
    }
    let (string, rest) = read_counted_bits(codec, input)?;
    let size = string.bits;
    refuse_if(
        !constraints.allows_size(size),
        DecodeErrorKind::SizeConstraintNotSatisfied { size },
    )?;
    Ok((string, rest))
}

fn read_owned_bits(
    alloc: Global,
    codec: Codec,
    constraints: Constraints,
    input: &[u8],
) -> Result<(BitString, &[u8]), DecodeErrorKind>
    ensures { GivesOrMemory (λ x. (x.0, x.1.now)) result (bit_string_at (size_bounds constraints) codec input.now) }
{
    let (bits, rest) = read_bits(codec, constraints, input)?;
    let Some(string) = BitString::from_octets(alloc, bits.octets, bits.bits)? else {
        unreachable!()
    };
    Ok((string, rest))
}

/// The BIT STRING at the front, and what is left (X.696, 13).
///
/// Under a fixed size its bits, filled up to whole octets; else a length, the count of unused bits, and the octets.
/// Refused, the first that applies. Of a fixed size: `Incomplete` by as many octets as are missing; in canonical reading
/// a nonzero unused bit, as `NotValidCanonicalEncoding`. Else: as the length is (`read_length`); a length of zero, which
/// leniently stands for no bits, in canonical reading as `NotValidCanonicalEncoding`; `Incomplete` by 1 where the count
/// of unused bits isn't there; a count above 7 or above the bits that there are, as `InvalidBitString`; above
/// `usize::MAX / 8` octets, as `LengthExceedsPlatformWidth`; `Incomplete` by as many octets as are missing; in canonical
/// reading a nonzero unused bit, as `NotValidCanonicalEncoding`; a size that the constraint doesn't allow, as
/// `SizeConstraintNotSatisfied` with the size in bits. Want of memory is tested last, as `OutOfMemory`.
pub fn read_bit_string(
    alloc: Global,
    codec: Codec,
    constraints: Constraints,
    input: &[u8],
) -> Result<(BitString, &[u8]), DecodeErrorKind>
    ensures function { GivesOrMemory (λ x. (x.0, x.1.now)) result (bit_string_at (size_bounds constraints) codec input.now) }
    ensures relation { ReadsFront
        (λ o b. IsLeafEncoding (mode_of codec) o (Bits (size_bounds constraints) b))
        input.now (seen (λ x. (x.0, x.1.now)) result) }
{
    read_owned_bits(alloc, codec, constraints, input)
}

#[tactic(auto, using(crate::proofs::ReadBitStrings::whole_count), unfolding(oer_spec::specs::ReadingBits::named_bits_at))]
fn read_owned_named(
    alloc: Global,
    codec: Codec,
    constraints: Constraints,
    input: &[u8],
) -> Result<(NamedBits, &[u8]), DecodeErrorKind>
    ensures { GivesOrMemory (λ x. (x.0, x.1.now)) result (named_bits_at (size_bounds constraints) codec input.now) }
{
    let (bits, rest) = read_bits(codec, constraints, input)?;
    let size = significant_bits(bits.octets, bits.bits).max(least_size(constraints));
    require_canonical(codec, size < bits.bits)?;
    let Some(string) = BitString::from_octets(alloc, bits.octets, bits.bits)? else {
        unreachable!()
    };
    Ok((NamedBits::new(string), rest))
}

/// The BIT STRING with named bits at the front, and what is left (X.680, 22.7, and X.696, 13.3): the bits of a BIT STRING
/// without the 0 bits at their end.
///
/// Refused, the first that applies: as `read_bit_string` without want of memory; in canonical reading a 0 bit at the end
/// past the least size that the constraint allows, as `NotValidCanonicalEncoding`. Want of memory is tested last, as
/// `OutOfMemory`.
pub fn read_named_bits(
    alloc: Global,
    codec: Codec,
    constraints: Constraints,
    input: &[u8],
) -> Result<(NamedBits, &[u8]), DecodeErrorKind>
    ensures function { GivesOrMemory (λ x. (x.0, x.1.now)) result (named_bits_at (size_bounds constraints) codec input.now) }
    ensures relation { ReadsFront
        (λ o b. IsLeafEncoding (mode_of codec) o (Named (size_bounds constraints) b) × IsNamed b)
        input.now (seen (λ x. (x.0, x.1.now)) result) }
{
    read_owned_named(alloc, codec, constraints, input)
}

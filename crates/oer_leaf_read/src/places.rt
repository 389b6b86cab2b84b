//! Reads preambles and extension bitmaps, and skips unknown additions (X.696, 16).
ghost use Rattle.std.specs.Prelude.{◌≡◌, length, IfErr};
ghost use Rattle.oer_spec.specs.Lengths.{IsBitmap};
ghost use Rattle.oer_spec.specs.Mode.{mode_of};
ghost use Rattle.oer_spec.specs.Places.{IsPreamble, AreSkipped};
ghost use Rattle.oer_spec.specs.Reading.{Gives, seen, ReadsFront, IsNotForMemory};
ghost use Rattle.oer_spec.specs.ReadingBits.{refuse_if, preamble_at, bitmap_of, bitmap_at, skipped_at};
ghost use Rattle.oer_leaf_read.specs.Views.{bits_left};

use crate::bit_slice::BitSlice;
use crate::bits::{has_set_fill, is_overfull};
use crate::lengths::read_content;
use crate::parts::{read_octets, require_canonical};
use asn1_core::{Codec, DecodeErrorKind};
use oer_spec::leaf::{octets_for, unused_for};

/// A test that refuses by that kind.
#[inline(always)]
pub(crate) fn refuse_if(test: bool, kind: DecodeErrorKind) -> Result<(), DecodeErrorKind>
    ensures { Gives (λ x. x) result (refuse_if test kind) }
{
    if test { Err(kind) } else { Ok(()) }
}

#[inline(always)]
#[tactic(auto, unfolding(oer_spec::specs::ReadingBits::preamble_at))]
fn preamble(bits: usize, input: &[u8]) -> Result<(BitSlice<'_>, &[u8]), DecodeErrorKind>
    ensures function { Gives (λ x. (bits_left x.0, x.1.now)) result (preamble_at bits input.now) }
    ensures memory { IfErr result IsNotForMemory }
{
    let (octets, rest) = read_octets(octets_for(bits), input)?;
    let unused = unused_for(bits);
    refuse_if(
        has_set_fill(unused, octets),
        DecodeErrorKind::InvalidPreamble,
    )?;
    Ok((BitSlice::new(octets, unused), rest))
}

/// The preamble of so many bits at the front, and what is left (X.696, 16.2).
///
/// Refused, the first that applies: `Incomplete` by as many octets as are missing; nonzero bits after the last one, as
/// `InvalidPreamble`.
#[inline(always)]
pub fn read_preamble(bits: usize, input: &[u8]) -> Result<(BitSlice<'_>, &[u8]), DecodeErrorKind>
    ensures function { Gives (λ x. (bits_left x.0, x.1.now)) result (preamble_at bits input.now) }
    ensures relation { ReadsFront (λ o b. IsPreamble o b × (length b ≡ bits)) input.now (seen (λ x. (bits_left x.0, x.1.now)) result) }
    ensures memory { IfErr result IsNotForMemory }
{
    preamble(bits, input)
}

#[inline]
#[tactic(auto, unfolding(oer_spec::specs::ReadingBits::bitmap_of))]
fn bitmap_of(codec: Codec, content: &[u8]) -> Result<BitSlice<'_>, DecodeErrorKind>
    ensures function { Gives bits_left result (bitmap_of codec content.now) }
    ensures memory { IfErr result IsNotForMemory }
{
    let [unused, octets @ ..] = content else {
        return Err(DecodeErrorKind::InvalidExtensionHeader);
    };
    refuse_if(
        is_overfull(*unused, octets.len()),
        DecodeErrorKind::InvalidExtensionHeader,
    )?;
    require_canonical(codec, has_set_fill(*unused, octets))?;
    let bits = BitSlice::new(octets, *unused);
    require_canonical(codec, !bits.any_set())?;
    Ok(bits)
}

#[inline]
#[tactic(auto, unfolding(oer_spec::specs::ReadingBits::bitmap_at))]
fn bitmap(codec: Codec, input: &[u8]) -> Result<(BitSlice<'_>, &[u8]), DecodeErrorKind>
    ensures function { Gives (λ x. (bits_left x.0, x.1.now)) result (bitmap_at codec input.now) }
    ensures memory { IfErr result IsNotForMemory }
{
    let (content, rest) = read_content(codec, input)?;
    let bits = bitmap_of(codec, content)?;
    Ok((bits, rest))
}

/// The extension bitmap at the front, and what is left (X.696, 16.4.2 and 16.4.3).
///
/// Refused, the first that applies: as an open type's octets are (`read_content`); no octet, or a count of unused bits
/// above 7 or above the bits that there are, as `InvalidExtensionHeader`; in canonical reading a nonzero unused bit, and
/// no bit set, as `NotValidCanonicalEncoding`.
#[inline(never)]
pub fn read_bitmap(codec: Codec, input: &[u8]) -> Result<(BitSlice<'_>, &[u8]), DecodeErrorKind>
    ensures function { Gives (λ x. (bits_left x.0, x.1.now)) result (bitmap_at codec input.now) }
    ensures relation { ReadsFront (IsBitmap (mode_of codec)) input.now (seen (λ x. (bits_left x.0, x.1.now)) result) }
    ensures memory { IfErr result IsNotForMemory }
{
    bitmap(codec, input)
}

#[tactic(auto, unfolding(oer_spec::specs::ReadingBits::skipped_at))]
fn skipped<'a>(
    codec: Codec,
    bits: BitSlice<'_>,
    input: &'a [u8],
) -> Result<&'a [u8], DecodeErrorKind>
    ensures function { Gives (λ x. x.now) result (skipped_at codec (bits_left bits.entry) input.now) }
    ensures memory { IfErr result IsNotForMemory }
{
    let mut bits = bits;
    let mut rest = input;
    while let Some((bit, later)) = bits.split_first() {
        if bit {
            let (_, behind) = read_content(codec, rest)?;
            rest = behind;
        }
        bits = later;
    }
    Ok(rest)
}

/// What is left behind the additions that a type doesn't know: for each set bit a length and that many octets, which
/// are skipped (X.696, 16.5).
///
/// Refused at the first of them as an open type's octets are (`read_content`).
#[inline(never)]
pub fn skip_additions<'a>(
    codec: Codec,
    bits: BitSlice<'_>,
    input: &'a [u8],
) -> Result<&'a [u8], DecodeErrorKind>
    ensures function { Gives (λ x. x.now) result (skipped_at codec (bits_left bits.entry) input.now) }
    ensures relation { ReadsFront {V = Unit {0}} (λ o _. AreSkipped (mode_of codec) (bits_left bits.entry) o) input.now (seen (λ x. (tt, x.now)) result) }
    ensures memory { IfErr result IsNotForMemory }
{
    skipped(codec, bits, input)
}

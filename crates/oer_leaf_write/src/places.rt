//! Writes preambles and extension bitmaps (X.696, 16).
ghost use Rattle.std.specs.Prelude.{◌≡◌, ◌*◌, ◌+◌, ◌<◌, ◌^◌, length, drop};
ghost use Rattle.asn1_core.specs.Octets.{bit_at, octet_of, pack};
ghost use Rattle.oer_spec.specs.Lengths.{counted_bits};
ghost use Rattle.oer_spec.specs.Writing.{AppendsOrMemory};

use crate::lengths::write_length;
use asn1_core::EncodeErrorKind;
use oer_spec::leaf::{octets_for, unused_for};

/// The bit at that place by its weight in an octet; 0 past the end.
fn weight_at(bits: &[bool], place: usize, weight: u8) -> u8
    ensures { result ≡ bit_at bits.now place * weight }
{
    match bits.get(place) {
        Some(true) => weight,
        _ => 0,
    }
}

/// The octet of the first eight bits, with zero bits where there are fewer.
fn octet_of(bits: &[bool]) -> u8
    ensures { result ≡ octet_of bits.now }
{
    weight_at(bits, 0, 128)
        + weight_at(bits, 1, 64)
        + weight_at(bits, 2, 32)
        + weight_at(bits, 3, 16)
        + weight_at(bits, 4, 8)
        + weight_at(bits, 5, 4)
        + weight_at(bits, 6, 2)
        + weight_at(bits, 7, 1)
}

/// The bits after the first eight.
fn after_octet(bits: &[bool]) -> &[bool]
    ensures { result.now ≡ drop 8 bits.now }
{
    bits.split_at(bits.len().min(8)).1
}

/// Appends the bits of a preamble in whole octets, the first bit highest, filled up with zero bits (X.696, 16.2).
///
/// Refused only for want of memory.
#[tactic(auto, using(crate::proofs::Packing::pack_more, crate::proofs::Packing::pack_none))]
pub fn write_preamble(bits: &[bool], out: &mut Vec<u8>) -> Result<(), EncodeErrorKind>
    ensures { AppendsOrMemory result (pack bits.now) out.old.items out.new.items }
{
    let mut rest = bits;
    while !rest.is_empty() {
        out.push(octet_of(rest))?;
        rest = after_octet(rest);
    }
    Ok(())
}

/// Appends an extension bitmap: a length, the count of unused bits, and the bits in whole octets (X.696, 16.4).
///
/// Refused only for want of memory.
pub fn write_bitmap(bits: &[bool], out: &mut Vec<u8>) -> Result<(), EncodeErrorKind>
    ensures { AppendsOrMemory result (counted_bits bits.now) out.old.items out.new.items }
{
    write_length(octets_for(bits.len()) + 1, out)?;
    out.push(unused_for(bits.len()))?;
    write_preamble(bits, out)
}

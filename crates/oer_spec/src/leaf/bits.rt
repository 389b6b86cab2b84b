//! How many octets bits take, how many bits of the last octet are unused, and how many bits there are at least (X.696, 13).
ghost use Rattle.std.specs.Prelude.{◌≡◌, ◌<◌};
ghost use Rattle.asn1_core.specs.Bounds.{size_bounds};
ghost use Rattle.asn1_core.specs.Octets.{octets_for};
ghost use Rattle.oer_spec.specs.Leaves.{least_size};
ghost use Rattle.oer_spec.specs.ReadingBits.{unused_for};

use asn1_core::Constraints;

/// How many octets so many bits take (X.696, 13.1).
pub fn octets_for(bits: usize) -> usize
    ensures { result ≡ octets_for bits }
{
    bits.div_ceil(8)
}

/// How many low bits are unused in the last octet of so many bits (X.696, 13.3.1).
pub fn unused_for(bits: usize) -> u8
    ensures value { result ≡ unused_for bits }
    ensures few { result < 8 }
{
    ((8 - bits % 8) % 8) as u8
}

/// The least size that a size constraint allows; 0 where there is none, or an extensible one.
pub fn least_size(constraints: Constraints) -> usize
    ensures { result ≡ least_size (size_bounds constraints) }
{
    match constraints.size() {
        Some((bounds, false)) => match bounds.as_start() {
            Some(start) => *start,
            None => 0,
        },
        _ => 0,
    }
}

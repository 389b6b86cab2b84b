//! The numbers of at most eight octets.
ghost use Rattle.std.specs.Prelude.{◌≡◌, ◌≤◌, length};
ghost use Rattle.asn1_core.specs.Octets.{signed, unsigned};

use crate::octets::has_sign;

/// The unsigned number of at most eight octets.
#[inline(always)]
pub(crate) fn short_unsigned(octets: &[u8]) -> u64
    requires { length octets.now ≤ 8 }
    ensures { result ≡ unsigned octets.now }
{
    let mut n: u64 = 0;
    for octet in octets {
        n = n * 256 + *octet as u64;
    }
    n
}

/// The number of at most eight octets in two's complement.
#[inline(always)]
#[tactic(auto, using(crate::proofs::ShortNumbers::short_negative, crate::proofs::ShortNumbers::short_positive, crate::proofs::ShortNumbers::short_shift, crate::proofs::ShortNumbers::short_most))]
pub(crate) fn short_signed(octets: &[u8]) -> i128
    requires { length octets.now ≤ 8 }
    ensures { result ≡ signed octets.now }
{
    let n = short_unsigned(octets) as i128;
    if has_sign(octets) {
        n - ((1u128 << (8 * octets.len())) as i128)
    } else {
        n
    }
}

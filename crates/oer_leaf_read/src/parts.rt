//! What readers are made of: octets at the front, the test of canonical reading, and unsigned numbers.
ghost use Rattle.std.specs.Prelude.{◌≡◌, ◌^◌, IfErr};
ghost use Rattle.asn1_core.specs.Octets.{unsigned};
ghost use Rattle.oer_spec.specs.Reading.{Gives, IsNotForMemory, octet_at, octets_at, canonical, begins_with_zero, if_below};

use asn1_core::{Codec, DecodeErrorKind};

/// The octet at the front, and what is left; refused as `Incomplete` by 1 where there is none.
#[inline(always)]
pub fn read_octet(input: &[u8]) -> Result<(u8, &[u8]), DecodeErrorKind>
    ensures function { Gives (λ x. (x.0, x.1.now)) result (octet_at input.now) }
    ensures memory { IfErr result IsNotForMemory }
{
    match input {
        [] => Err(DecodeErrorKind::Incomplete { needed: 1 }),
        [first, rest @ ..] => Ok((*first, rest)),
    }
}

/// That many octets at the front, and what is left; refused as `Incomplete` by as many as are missing.
#[inline(always)]
pub fn read_octets(count: usize, input: &[u8]) -> Result<(&[u8], &[u8]), DecodeErrorKind>
    ensures function { Gives (λ x. (x.0.now, x.1.now)) result (octets_at count input.now) }
    ensures memory { IfErr result IsNotForMemory }
{
    if input.len() < count {
        let needed = count - input.len();
        return Err(DecodeErrorKind::Incomplete { needed });
    }
    Ok(input.split_at(count))
}

/// Canonical reading refuses what is superfluous, as `NotValidCanonicalEncoding`.
#[inline(always)]
pub fn require_canonical(codec: Codec, superfluous: bool) -> Result<(), DecodeErrorKind>
    ensures function { Gives (λ x. x) result (canonical codec superfluous) }
    ensures memory { IfErr result IsNotForMemory }
{
    match codec {
        Codec::Oer => Ok(()),
        Codec::Coer if superfluous => Err(DecodeErrorKind::NotValidCanonicalEncoding),
        Codec::Coer => Ok(()),
    }
}

/// Whether the first octet is zero, as where there is none.
#[inline(always)]
pub(crate) fn begins_with_zero(octets: &[u8]) -> bool
    ensures { result ≡ begins_with_zero octets.now }
{
    match octets {
        [] => true,
        [first, ..] => *first == 0,
    }
}

/// The number of the octets, highest first, where it is no more than `usize::MAX`.
#[tactic(auto, using(oer_spec::proofs::Digits::unsigned_none, oer_spec::proofs::Digits::unsigned_more, oer_spec::proofs::Digits::unsigned_too_large))]
pub(crate) fn unsigned_of(octets: &[u8]) -> Option<usize>
    ensures { result ≡ if_below (2 ^ 64) (unsigned octets.now) }
{
    let mut n: usize = 0;
    for octet in octets {
        if n >= 1 << 56 {
            return None;
        }
        n = n * 256 + *octet as usize;
    }
    Some(n)
}

//! The octets of numbers, in two's complement and unsigned: their number, the shortest ones, and how they are appended.
ghost use Rattle.std.specs.Prelude.{◌≡◌, ◌<◌, ◌+◌, ◌*◌, ◌*ℤ◌, ◌+ℤ◌, pos, [], ◌^◌, option_map, length, slice_index, nat_le};
ghost use Rattle.asn1_core.specs.Octets.{unsigned, signed};
ghost use Rattle.asn1_core.specs.Numbers.{number_octets, signed_octets, has_superfluous_zero, has_superfluous_sign};
ghost use Rattle.asn1_ints.specs.Numbers.{if_in_i128, if_below};
ghost use Rattle.asn1_ints.specs.Octets.{in_complement, if_in_u128, Appends};
ghost use Rattle.asn1_ints.specs.Reading.{value_or_refusal};

use crate::short::{short_signed, short_unsigned};
use asn1_core::{Codec, DecodeError, DecodeErrorKind};
use std::alloc::AllocError;

/// Whether the first bit of the octets is set.
pub fn has_sign(octets: &[u8]) -> bool
    ensures { result ≡ nat_le 128 (slice_index octets.now 0) }
{
    match octets {
        [] => false,
        [first, ..] => *first >= 128,
    }
}

/// The number that no octets behind a first bit have.
#[tactic(auto, using(crate::proofs::Limits::complement_none))]
fn start_of(negative: bool) -> i128
    ensures { result ≡ in_complement negative [] }
{
    if negative { -1 } else { 0 }
}

/// The number with one octet more, where it is one of i128.
fn signed_with_octet(n: i128, octet: u8) -> Option<i128>
    ensures { result ≡ if_in_i128 (n *ℤ pos 256 +ℤ pos octet) }
{
    if n < -(1 << 119) {
        return None;
    }
    if n >= 1 << 119 {
        return None;
    }
    Some(n * 256 + octet as i128)
}

/// The number of the octets in two's complement, where it is one of i128.
pub fn i128_of(octets: &[u8]) -> Option<i128>
    ensures { result ≡ if_in_i128 (signed octets.now) }
{
    if octets.len() <= 8 {
        return Some(short_signed(octets));
    }
    let negative = has_sign(octets);
    let mut n = start_of(negative);
    for octet in octets {
        n = signed_with_octet(n, *octet)?;
    }
    Some(n)
}

/// The number with one octet more, where it is one of u128.
fn unsigned_with_octet(n: u128, octet: u8) -> Option<u128>
    ensures { result ≡ if_in_u128 (n * 256 + octet) }
{
    if n >= 1 << 120 {
        return None;
    }
    Some(n * 256 + octet as u128)
}

/// The unsigned number of the octets, where it is one of u128.
pub fn u128_of(octets: &[u8]) -> Option<u128>
    ensures { result ≡ if_in_u128 (unsigned octets.now) }
{
    if octets.len() <= 8 {
        return Some(short_unsigned(octets) as u128);
    }
    let mut n = 0;
    for octet in octets {
        n = unsigned_with_octet(n, *octet)?;
    }
    Some(n)
}

/// Whether the first octet of an unsigned number could be left out.
pub fn has_superfluous_zero(octets: &[u8]) -> bool
    ensures { result ≡ has_superfluous_zero octets.now }
{
    match octets {
        [first, _, ..] => *first == 0,
        _ => false,
    }
}

/// Whether the first octet of a number in two's complement could be left out.
pub fn has_superfluous_sign(octets: &[u8]) -> bool
    ensures { result ≡ has_superfluous_sign octets.now }
{
    match octets {
        [first, second, ..] if *second < 128 => *first == 0,
        [first, _, ..] => *first == 255,
        _ => false,
    }
}

/// The shortest octets of the same unsigned number.
#[tactic(auto, using(crate::proofs::Shortening::keeps_unsigned, crate::proofs::Shortening::keeps_unsigned_at_first, crate::proofs::Shortening::unsigned_shortest))]
pub fn shortest_unsigned(octets: &[u8]) -> &[u8]
    requires { 0 < length octets.now }
    ensures { result.now ≡ number_octets (unsigned octets.now) }
{
    let mut rest = octets;
    while has_superfluous_zero(rest) {
        let (_, tail) = rest.split_at(1);
        rest = tail;
    }
    rest
}

/// The shortest octets of the same number in two's complement.
#[tactic(auto, using(crate::proofs::Shortening::keeps_signed, crate::proofs::Shortening::keeps_signed_at_first, crate::proofs::Shortening::signed_shortest))]
pub fn shortest_signed(octets: &[u8]) -> &[u8]
    requires { 0 < length octets.now }
    ensures { result.now ≡ signed_octets (signed octets.now) }
{
    let mut rest = octets;
    while has_superfluous_sign(rest) {
        let (_, tail) = rest.split_at(1);
        rest = tail;
    }
    rest
}

/// Appends the shortest octets of the number in two's complement.
pub fn write_i128(n: i128, out: &mut Vec<u8>) -> Result<(), AllocError>
    ensures { Appends result (signed_octets n) out.old.items out.new.items }
{
    let octets = n.to_be_bytes();
    out.extend_from_slice(shortest_signed(&octets))
}

/// Appends the shortest octets of the unsigned number.
pub fn write_u128(n: u128, out: &mut Vec<u8>) -> Result<(), AllocError>
    ensures { Appends result (number_octets n) out.old.items out.new.items }
{
    let octets = n.to_be_bytes();
    out.extend_from_slice(shortest_unsigned(&octets))
}

/// The unsigned number of the octets, where it is one of i128.
pub fn unsigned_i128_of(octets: &[u8]) -> Option<i128>
    ensures { result ≡ if_in_i128 (pos (unsigned octets.now)) }
{
    let n = u128_of(octets)?;
    i128::try_from(n).ok()
}

/// Appends the shortest octets in two's complement of the unsigned number of the octets.
#[tactic(auto, using(crate::proofs::Appending::sign_added, crate::proofs::Appending::sign_not_added))]
pub fn write_with_sign(octets: &[u8], out: &mut Vec<u8>) -> Result<(), AllocError>
    requires { 0 < length octets.now }
    ensures { Appends result (signed_octets (pos (unsigned octets.now))) out.old.items out.new.items }
{
    let shortest = shortest_unsigned(octets);
    if has_sign(shortest) {
        out.push(0)?;
    }
    out.extend_from_slice(shortest)
}

/// The number of the octets in two's complement, where it is one of u128.
#[tactic(auto, using(crate::proofs::Limits::signed_below, crate::proofs::Limits::signed_not_below))]
pub fn signed_u128_of(octets: &[u8]) -> Option<u128>
    ensures { option_map pos result ≡ if_below (2 ^ 128) (signed octets.now) }
{
    if has_sign(octets) {
        return None;
    }
    u128_of(octets)
}

/// Appends the shortest octets in two's complement of the unsigned number.
pub fn write_signed_u128(n: u128, out: &mut Vec<u8>) -> Result<(), AllocError>
    ensures { Appends result (signed_octets (pos n)) out.old.items out.new.items }
{
    let octets = n.to_be_bytes();
    write_with_sign(&octets, out)
}

/// The value, or the refusal of octets that have none.
pub fn value_or_refusal<T: Drop>(
    octets: &[u8],
    value: Option<T>,
    codec: Codec,
) -> Result<T, DecodeError>
    ensures { result ≡ value_or_refusal octets.now codec value }
{
    if octets.is_empty() {
        return Err(DecodeError {
            kind: DecodeErrorKind::EmptyInteger,
            codec,
        });
    }
    match value {
        Some(value) => Ok(value),
        None => Err(DecodeError {
            kind: DecodeErrorKind::IntegerOverflow,
            codec,
        }),
    }
}

//! Bits and characters that a module writes: a value of them, and whether a value is of them.
ghost use Rattle.std.specs.Prelude.{◌≡◌, ◌%◌, true, length, take, IfOk};
ghost use Rattle.std.specs.Bool.{beq};
ghost use Rattle.std.specs.Cmp.Lexicographic.{pointwise};
ghost use Rattle.asn1_core.specs.Octets.{bits_of, octets_for};
ghost use Rattle.oer_rows.specs.Literals.{IsLiteral, is_spelled};

use crate::held_texts::Utf8Text;
use crate::more_texts::{BmpText, UniversalText};
use asn1_strings::{BitString, BmpString, UniversalString};
use std::alloc::{AllocError, Global};

/// The BIT STRING of the first `count` bits of the octets, the first bit highest; these are as many as so many bits need.
///
/// Refused for want of memory alone.
pub fn bits_from(alloc: Global, octets: &[u8], count: usize) -> Result<BitString, AllocError>
    requires { length octets.now ≡ octets_for count }
    ensures { IfOk result (λ s. s ≡ take count (bits_of octets.now)) }
{
    match BitString::from_octets(alloc, octets, count)? {
        Some(bits) => Ok(bits),
        None => unreachable!(),
    }
}

/// Whether a BIT STRING is the first `count` bits of the octets, whose further bits are 0. Takes no memory.
pub fn are_bits(value: &BitString, octets: &[u8], count: usize) -> bool
    requires { IsLiteral octets.now count }
    ensures { result ≡ pointwise beq value.now (take count (bits_of octets.now)) }
{
    value.len() == count && value.as_octets() == octets
}

/// The BMPString of these octets, two of each character.
///
/// Refused for want of memory alone.
pub fn bmp_from(alloc: Global, octets: &[u8]) -> Result<BmpText, AllocError>
    requires { length octets.now % 2 ≡ 0 }
    ensures { IfOk result (λ s. s.0 ≡ octets.now) }
{
    Ok(BmpText(BmpString::from_text(alloc, octets)?))
}

/// The UniversalString of these octets, four of each character.
///
/// Refused for want of memory alone.
pub fn universal_from(alloc: Global, octets: &[u8]) -> Result<UniversalText, AllocError>
    requires { length octets.now % 4 ≡ 0 }
    ensures { IfOk result (λ s. s.0 ≡ octets.now) }
{
    Ok(UniversalText(UniversalString::from_text(alloc, octets)?))
}

/// The UTF8String of these octets, which are UTF-8.
///
/// Refused for want of memory alone.
#[tactic(auto, using(crate::specs::Literals::spelled))]
pub fn utf8_from(alloc: Global, octets: &[u8]) -> Result<Utf8Text, AllocError>
    requires { is_spelled octets.now ≡ true }
    ensures { IfOk result (λ s. s ≡ octets.now) }
{
    match str::from_utf8(octets) {
        Ok(text) => Ok(Utf8Text(String::from_str(alloc, text)?)),
        Err(_) => unreachable!(),
    }
}

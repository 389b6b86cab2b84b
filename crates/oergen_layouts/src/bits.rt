//! Bits: of literals between quotes, in octets, and of a BIT STRING with named bits (X.680, 22.7), where zero bits behind the last that
//! is set mean nothing.
ghost use Rattle.std.specs.Prelude.{◌≡◌, ◌≤◌, ◌*◌, ◌++◌, IfOk, OnOk, drop, length};
ghost use Rattle.std.specs.List.{IsAfterLastMatch, flat_map};
ghost use Rattle.asn1_core.specs.Octets.{bit_at, octet_of, pack};
ghost use Rattle.oergen_layouts.specs.Bits.{AreUpToTheLast, digit_bits, filled, literal_bits};

use oergen_parse::lexer::{Kind, Token};
use std::alloc::{AllocError, Global};

/// How many bits there are up to the last that is set.
fn count_to_last(bits: &[bool]) -> usize
    ensures last { IsAfterLastMatch (λ bit. bit) bits.now result }
    ensures few { result ≤ length bits.now }
{
    let mut count = 0usize;
    for (at, bit) in bits.iter().enumerate() {
        if *bit {
            count = at.saturating_add(1);
        }
    }
    count
}

/// Drops the zero bits behind the last that is set (X.680, 22.7).
pub fn drop_zeros(bits: &mut Vec<bool>)
    ensures { AreUpToTheLast bits.old.items bits.new.items }
{
    let count = count_to_last(bits.as_slice());
    bits.truncate(count);
}

/// Puts zero bits behind others, up to so many, the least size of named bits (X.680, 22.7): none where there are as many.
pub fn fill_up(bits: &mut Vec<bool>, count: usize) -> Result<(), AllocError>
    ensures { OnOk result (bits.new.items ≡ filled count bits.old.items) }
{
    for _ in 0..count.saturating_sub(bits.len()) {
        bits.push(false)?;
    }
    Ok(())
}

/// A bit by its weight in an octet; nothing past the last bit.
fn weight_at(bits: &[bool], place: usize, weight: u8) -> u8
    ensures { result ≡ bit_at bits.now place * weight }
{
    match bits.get(place) {
        Some(true) => weight,
        _ => 0,
    }
}

/// The octet of the first eight bits, the first of them the highest; of fewer with zero bits behind them.
fn octet_of(bits: &[bool]) -> u8
    ensures { result ≡ octet_of bits.now }
{
    weight_at(bits, 0, 128)
        + weight_at(bits, 1, 64)
        + weight_at(bits, 2, 32)
        + weight_at(bits, 3, 16)
        + weight_at(bits, 4, 8)
        + weight_at(bits, 5, 4)
        + weight_at(bits, 6, 2)
        + weight_at(bits, 7, 1)
}

/// The bits after the first eight.
fn after_octet(bits: &[bool]) -> &[bool]
    ensures { result.now ≡ drop 8 bits.now }
{
    bits.split_at(bits.len().min(8)).1
}

/// Bits in whole octets, the first bit the highest, filled up with zero bits (X.696, 13). Refused only for want of memory.
#[tactic(auto, using(crate::proofs::Packing::pack_none))]
pub fn packed(alloc: Global, bits: &[bool]) -> Result<Vec<u8>, AllocError>
    ensures { IfOk result (λ octets. octets.items ≡ pack bits.now) }
{
    let mut octets = Vec::new(alloc);
    let mut rest = bits;
    while !rest.is_empty() {
        octets.push(octet_of(rest))?;
        rest = after_octet(rest);
    }
    Ok(octets)
}

/// Puts the bits that a digit stands for: four of a hexadecimal one, one of a binary one, and none of what is no digit.
fn push_digit(bits: &mut Vec<bool>, digit: u8, is_hex: bool) -> Result<(), AllocError>
    ensures { OnOk result (bits.new.items ≡ bits.old.items ++ digit_bits is_hex digit) }
{
    let radix = if is_hex { 16 } else { 2 };
    let Some(number) = char::from(digit).to_digit(radix) else {
        return Ok(());
    };
    if is_hex {
        bits.push(number / 8 % 2 == 1)?;
        bits.push(number / 4 % 2 == 1)?;
        bits.push(number / 2 % 2 == 1)?;
    }
    bits.push(number % 2 == 1)?;
    Ok(())
}

/// The bits of digits; whatever else stands among them has none. Refused only for want of memory.
fn bits_of_digits(alloc: Global, digits: &str, is_hex: bool) -> Result<Vec<bool>, AllocError>
    ensures { IfOk result (λ bits. bits.items ≡ flat_map (digit_bits is_hex) digits.now) }
{
    let mut bits = Vec::new(alloc);
    for digit in digits.as_bytes() {
        push_digit(&mut bits, *digit, is_hex)?;
    }
    Ok(bits)
}

/// The bits of a literal between quotes, `'0101'B` or `'0AF'H` (X.680, 12.10 and 12.12); of another token none. Refused only for want
/// of memory.
pub fn literal_bits(alloc: Global, token: Token<'_>) -> Result<Vec<bool>, AllocError>
    ensures { IfOk result (λ bits. bits.items ≡ literal_bits token.entry.kind token.entry.text.now) }
{
    match token.kind {
        Kind::Bits => bits_of_digits(alloc, token.text, false),
        Kind::Hex => bits_of_digits(alloc, token.text, true),
        _ => Ok(Vec::new(alloc)),
    }
}

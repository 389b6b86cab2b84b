//! Types without parts. This file is written by scripts/exports.py.
ghost use Rattle.std.specs.Prelude.{◌≡◌};
ghost use Rattle.oer_calls.specs.Answers.{IsCanonicalisedBy, IsCheckedBy, options_for};

use oer_calls::answer::Answer;
use oer_calls::numbers::{canonicalise_by_numbers, check_by_numbers};
use oer_types::{Enum4, GreatPositive, Small};
use rasn_oer::prelude::*;
use std::alloc::Global;

/// The canonical octets of a `bool`.
#[unsafe(no_mangle)]
pub extern "C" fn jilgomt_bool_canonicalise(
    alloc: Global,
    mode: u32,
    levels: usize,
    input: &[u8],
    out: &mut [u8],
    answer: &mut Answer,
) -> u32
    ensures status { result ≡ answer.new.status }
    ensures answered { IsCanonicalisedBy (⟦<bool as Spelled>⟧.tree ⟦<bool as AsnType>⟧.CONSTRAINTS) ⟦<bool as Spelled>⟧.IsValue (⟦<bool as Decode>⟧.Answered ⟦<bool as AsnType>⟧.CONSTRAINTS) (options_for mode levels) input.now out.old answer.new out.new }
{
    *answer = canonicalise_by_numbers::<bool>(alloc, mode, levels, input, out);
    answer.status
}

/// Whether octets begin with a `bool`, and a canonical one.
#[unsafe(no_mangle)]
pub extern "C" fn jilgomt_bool_check(
    alloc: Global,
    mode: u32,
    levels: usize,
    input: &[u8],
    answer: &mut Answer,
) -> u32
    ensures status { result ≡ answer.new.status }
    ensures answered { IsCheckedBy (⟦<bool as Spelled>⟧.tree ⟦<bool as AsnType>⟧.CONSTRAINTS) ⟦<bool as Spelled>⟧.IsValue (⟦<bool as Decode>⟧.Answered ⟦<bool as AsnType>⟧.CONSTRAINTS) (options_for mode levels) input.now answer.new }
{
    *answer = check_by_numbers::<bool>(alloc, mode, levels, input);
    answer.status
}

/// The canonical octets of an `int`.
#[unsafe(no_mangle)]
pub extern "C" fn jilgomt_int_canonicalise(
    alloc: Global,
    mode: u32,
    levels: usize,
    input: &[u8],
    out: &mut [u8],
    answer: &mut Answer,
) -> u32
    ensures status { result ≡ answer.new.status }
    ensures answered { IsCanonicalisedBy (⟦<Integer as Spelled>⟧.tree ⟦<Integer as AsnType>⟧.CONSTRAINTS) ⟦<Integer as Spelled>⟧.IsValue (⟦<Integer as Decode>⟧.Answered ⟦<Integer as AsnType>⟧.CONSTRAINTS) (options_for mode levels) input.now out.old answer.new out.new }
{
    *answer = canonicalise_by_numbers::<Integer>(alloc, mode, levels, input, out);
    answer.status
}

/// Whether octets begin with an `int`, and a canonical one.
#[unsafe(no_mangle)]
pub extern "C" fn jilgomt_int_check(
    alloc: Global,
    mode: u32,
    levels: usize,
    input: &[u8],
    answer: &mut Answer,
) -> u32
    ensures status { result ≡ answer.new.status }
    ensures answered { IsCheckedBy (⟦<Integer as Spelled>⟧.tree ⟦<Integer as AsnType>⟧.CONSTRAINTS) ⟦<Integer as Spelled>⟧.IsValue (⟦<Integer as Decode>⟧.Answered ⟦<Integer as AsnType>⟧.CONSTRAINTS) (options_for mode levels) input.now answer.new }
{
    *answer = check_by_numbers::<Integer>(alloc, mode, levels, input);
    answer.status
}

/// The canonical octets of an `octets`.
#[unsafe(no_mangle)]
pub extern "C" fn jilgomt_octets_canonicalise(
    alloc: Global,
    mode: u32,
    levels: usize,
    input: &[u8],
    out: &mut [u8],
    answer: &mut Answer,
) -> u32
    ensures status { result ≡ answer.new.status }
    ensures answered { IsCanonicalisedBy (⟦<OctetString as Spelled>⟧.tree ⟦<OctetString as AsnType>⟧.CONSTRAINTS) ⟦<OctetString as Spelled>⟧.IsValue (⟦<OctetString as Decode>⟧.Answered ⟦<OctetString as AsnType>⟧.CONSTRAINTS) (options_for mode levels) input.now out.old answer.new out.new }
{
    *answer = canonicalise_by_numbers::<OctetString>(alloc, mode, levels, input, out);
    answer.status
}

/// Whether octets begin with an `octets`, and a canonical one.
#[unsafe(no_mangle)]
pub extern "C" fn jilgomt_octets_check(
    alloc: Global,
    mode: u32,
    levels: usize,
    input: &[u8],
    answer: &mut Answer,
) -> u32
    ensures status { result ≡ answer.new.status }
    ensures answered { IsCheckedBy (⟦<OctetString as Spelled>⟧.tree ⟦<OctetString as AsnType>⟧.CONSTRAINTS) ⟦<OctetString as Spelled>⟧.IsValue (⟦<OctetString as Decode>⟧.Answered ⟦<OctetString as AsnType>⟧.CONSTRAINTS) (options_for mode levels) input.now answer.new }
{
    *answer = check_by_numbers::<OctetString>(alloc, mode, levels, input);
    answer.status
}

/// The canonical octets of a `bits`.
#[unsafe(no_mangle)]
pub extern "C" fn jilgomt_bits_canonicalise(
    alloc: Global,
    mode: u32,
    levels: usize,
    input: &[u8],
    out: &mut [u8],
    answer: &mut Answer,
) -> u32
    ensures status { result ≡ answer.new.status }
    ensures answered { IsCanonicalisedBy (⟦<BitString as Spelled>⟧.tree ⟦<BitString as AsnType>⟧.CONSTRAINTS) ⟦<BitString as Spelled>⟧.IsValue (⟦<BitString as Decode>⟧.Answered ⟦<BitString as AsnType>⟧.CONSTRAINTS) (options_for mode levels) input.now out.old answer.new out.new }
{
    *answer = canonicalise_by_numbers::<BitString>(alloc, mode, levels, input, out);
    answer.status
}

/// Whether octets begin with a `bits`, and a canonical one.
#[unsafe(no_mangle)]
pub extern "C" fn jilgomt_bits_check(
    alloc: Global,
    mode: u32,
    levels: usize,
    input: &[u8],
    answer: &mut Answer,
) -> u32
    ensures status { result ≡ answer.new.status }
    ensures answered { IsCheckedBy (⟦<BitString as Spelled>⟧.tree ⟦<BitString as AsnType>⟧.CONSTRAINTS) ⟦<BitString as Spelled>⟧.IsValue (⟦<BitString as Decode>⟧.Answered ⟦<BitString as AsnType>⟧.CONSTRAINTS) (options_for mode levels) input.now answer.new }
{
    *answer = check_by_numbers::<BitString>(alloc, mode, levels, input);
    answer.status
}

/// The canonical octets of an `utf8`.
#[unsafe(no_mangle)]
pub extern "C" fn jilgomt_utf8_canonicalise(
    alloc: Global,
    mode: u32,
    levels: usize,
    input: &[u8],
    out: &mut [u8],
    answer: &mut Answer,
) -> u32
    ensures status { result ≡ answer.new.status }
    ensures answered { IsCanonicalisedBy (⟦<Utf8String as Spelled>⟧.tree ⟦<Utf8String as AsnType>⟧.CONSTRAINTS) ⟦<Utf8String as Spelled>⟧.IsValue (⟦<Utf8String as Decode>⟧.Answered ⟦<Utf8String as AsnType>⟧.CONSTRAINTS) (options_for mode levels) input.now out.old answer.new out.new }
{
    *answer = canonicalise_by_numbers::<Utf8String>(alloc, mode, levels, input, out);
    answer.status
}

/// Whether octets begin with an `utf8`, and a canonical one.
#[unsafe(no_mangle)]
pub extern "C" fn jilgomt_utf8_check(
    alloc: Global,
    mode: u32,
    levels: usize,
    input: &[u8],
    answer: &mut Answer,
) -> u32
    ensures status { result ≡ answer.new.status }
    ensures answered { IsCheckedBy (⟦<Utf8String as Spelled>⟧.tree ⟦<Utf8String as AsnType>⟧.CONSTRAINTS) ⟦<Utf8String as Spelled>⟧.IsValue (⟦<Utf8String as Decode>⟧.Answered ⟦<Utf8String as AsnType>⟧.CONSTRAINTS) (options_for mode levels) input.now answer.new }
{
    *answer = check_by_numbers::<Utf8String>(alloc, mode, levels, input);
    answer.status
}

/// The canonical octets of an `oid`.
#[unsafe(no_mangle)]
pub extern "C" fn jilgomt_oid_canonicalise(
    alloc: Global,
    mode: u32,
    levels: usize,
    input: &[u8],
    out: &mut [u8],
    answer: &mut Answer,
) -> u32
    ensures status { result ≡ answer.new.status }
    ensures answered { IsCanonicalisedBy (⟦<ObjectIdentifier as Spelled>⟧.tree ⟦<ObjectIdentifier as AsnType>⟧.CONSTRAINTS) ⟦<ObjectIdentifier as Spelled>⟧.IsValue (⟦<ObjectIdentifier as Decode>⟧.Answered ⟦<ObjectIdentifier as AsnType>⟧.CONSTRAINTS) (options_for mode levels) input.now out.old answer.new out.new }
{
    *answer = canonicalise_by_numbers::<ObjectIdentifier>(alloc, mode, levels, input, out);
    answer.status
}

/// Whether octets begin with an `oid`, and a canonical one.
#[unsafe(no_mangle)]
pub extern "C" fn jilgomt_oid_check(
    alloc: Global,
    mode: u32,
    levels: usize,
    input: &[u8],
    answer: &mut Answer,
) -> u32
    ensures status { result ≡ answer.new.status }
    ensures answered { IsCheckedBy (⟦<ObjectIdentifier as Spelled>⟧.tree ⟦<ObjectIdentifier as AsnType>⟧.CONSTRAINTS) ⟦<ObjectIdentifier as Spelled>⟧.IsValue (⟦<ObjectIdentifier as Decode>⟧.Answered ⟦<ObjectIdentifier as AsnType>⟧.CONSTRAINTS) (options_for mode levels) input.now answer.new }
{
    *answer = check_by_numbers::<ObjectIdentifier>(alloc, mode, levels, input);
    answer.status
}

/// The canonical octets of an `utctime`.
#[unsafe(no_mangle)]
pub extern "C" fn jilgomt_utctime_canonicalise(
    alloc: Global,
    mode: u32,
    levels: usize,
    input: &[u8],
    out: &mut [u8],
    answer: &mut Answer,
) -> u32
    ensures status { result ≡ answer.new.status }
    ensures answered { IsCanonicalisedBy (⟦<UtcTime as Spelled>⟧.tree ⟦<UtcTime as AsnType>⟧.CONSTRAINTS) ⟦<UtcTime as Spelled>⟧.IsValue (⟦<UtcTime as Decode>⟧.Answered ⟦<UtcTime as AsnType>⟧.CONSTRAINTS) (options_for mode levels) input.now out.old answer.new out.new }
{
    *answer = canonicalise_by_numbers::<UtcTime>(alloc, mode, levels, input, out);
    answer.status
}

/// Whether octets begin with an `utctime`, and a canonical one.
#[unsafe(no_mangle)]
pub extern "C" fn jilgomt_utctime_check(
    alloc: Global,
    mode: u32,
    levels: usize,
    input: &[u8],
    answer: &mut Answer,
) -> u32
    ensures status { result ≡ answer.new.status }
    ensures answered { IsCheckedBy (⟦<UtcTime as Spelled>⟧.tree ⟦<UtcTime as AsnType>⟧.CONSTRAINTS) ⟦<UtcTime as Spelled>⟧.IsValue (⟦<UtcTime as Decode>⟧.Answered ⟦<UtcTime as AsnType>⟧.CONSTRAINTS) (options_for mode levels) input.now answer.new }
{
    *answer = check_by_numbers::<UtcTime>(alloc, mode, levels, input);
    answer.status
}

/// The canonical octets of a `gentime`.
#[unsafe(no_mangle)]
pub extern "C" fn jilgomt_gentime_canonicalise(
    alloc: Global,
    mode: u32,
    levels: usize,
    input: &[u8],
    out: &mut [u8],
    answer: &mut Answer,
) -> u32
    ensures status { result ≡ answer.new.status }
    ensures answered { IsCanonicalisedBy (⟦<GeneralizedTime as Spelled>⟧.tree ⟦<GeneralizedTime as AsnType>⟧.CONSTRAINTS) ⟦<GeneralizedTime as Spelled>⟧.IsValue (⟦<GeneralizedTime as Decode>⟧.Answered ⟦<GeneralizedTime as AsnType>⟧.CONSTRAINTS) (options_for mode levels) input.now out.old answer.new out.new }
{
    *answer = canonicalise_by_numbers::<GeneralizedTime>(alloc, mode, levels, input, out);
    answer.status
}

/// Whether octets begin with a `gentime`, and a canonical one.
#[unsafe(no_mangle)]
pub extern "C" fn jilgomt_gentime_check(
    alloc: Global,
    mode: u32,
    levels: usize,
    input: &[u8],
    answer: &mut Answer,
) -> u32
    ensures status { result ≡ answer.new.status }
    ensures answered { IsCheckedBy (⟦<GeneralizedTime as Spelled>⟧.tree ⟦<GeneralizedTime as AsnType>⟧.CONSTRAINTS) ⟦<GeneralizedTime as Spelled>⟧.IsValue (⟦<GeneralizedTime as Decode>⟧.Answered ⟦<GeneralizedTime as AsnType>⟧.CONSTRAINTS) (options_for mode levels) input.now answer.new }
{
    *answer = check_by_numbers::<GeneralizedTime>(alloc, mode, levels, input);
    answer.status
}

/// The canonical octets of a `date`.
#[unsafe(no_mangle)]
pub extern "C" fn jilgomt_date_canonicalise(
    alloc: Global,
    mode: u32,
    levels: usize,
    input: &[u8],
    out: &mut [u8],
    answer: &mut Answer,
) -> u32
    ensures status { result ≡ answer.new.status }
    ensures answered { IsCanonicalisedBy (⟦<Date as Spelled>⟧.tree ⟦<Date as AsnType>⟧.CONSTRAINTS) ⟦<Date as Spelled>⟧.IsValue (⟦<Date as Decode>⟧.Answered ⟦<Date as AsnType>⟧.CONSTRAINTS) (options_for mode levels) input.now out.old answer.new out.new }
{
    *answer = canonicalise_by_numbers::<Date>(alloc, mode, levels, input, out);
    answer.status
}

/// Whether octets begin with a `date`, and a canonical one.
#[unsafe(no_mangle)]
pub extern "C" fn jilgomt_date_check(
    alloc: Global,
    mode: u32,
    levels: usize,
    input: &[u8],
    answer: &mut Answer,
) -> u32
    ensures status { result ≡ answer.new.status }
    ensures answered { IsCheckedBy (⟦<Date as Spelled>⟧.tree ⟦<Date as AsnType>⟧.CONSTRAINTS) ⟦<Date as Spelled>⟧.IsValue (⟦<Date as Decode>⟧.Answered ⟦<Date as AsnType>⟧.CONSTRAINTS) (options_for mode levels) input.now answer.new }
{
    *answer = check_by_numbers::<Date>(alloc, mode, levels, input);
    answer.status
}

/// The canonical octets of a `posbig`.
#[unsafe(no_mangle)]
pub extern "C" fn jilgomt_posbig_canonicalise(
    alloc: Global,
    mode: u32,
    levels: usize,
    input: &[u8],
    out: &mut [u8],
    answer: &mut Answer,
) -> u32
    ensures status { result ≡ answer.new.status }
    ensures answered { IsCanonicalisedBy (⟦<GreatPositive as Spelled>⟧.tree ⟦<GreatPositive as AsnType>⟧.CONSTRAINTS) ⟦<GreatPositive as Spelled>⟧.IsValue (⟦<GreatPositive as Decode>⟧.Answered ⟦<GreatPositive as AsnType>⟧.CONSTRAINTS) (options_for mode levels) input.now out.old answer.new out.new }
{
    *answer = canonicalise_by_numbers::<GreatPositive>(alloc, mode, levels, input, out);
    answer.status
}

/// Whether octets begin with a `posbig`, and a canonical one.
#[unsafe(no_mangle)]
pub extern "C" fn jilgomt_posbig_check(
    alloc: Global,
    mode: u32,
    levels: usize,
    input: &[u8],
    answer: &mut Answer,
) -> u32
    ensures status { result ≡ answer.new.status }
    ensures answered { IsCheckedBy (⟦<GreatPositive as Spelled>⟧.tree ⟦<GreatPositive as AsnType>⟧.CONSTRAINTS) ⟦<GreatPositive as Spelled>⟧.IsValue (⟦<GreatPositive as Decode>⟧.Answered ⟦<GreatPositive as AsnType>⟧.CONSTRAINTS) (options_for mode levels) input.now answer.new }
{
    *answer = check_by_numbers::<GreatPositive>(alloc, mode, levels, input);
    answer.status
}

/// The canonical octets of a `small`.
#[unsafe(no_mangle)]
pub extern "C" fn jilgomt_small_canonicalise(
    alloc: Global,
    mode: u32,
    levels: usize,
    input: &[u8],
    out: &mut [u8],
    answer: &mut Answer,
) -> u32
    ensures status { result ≡ answer.new.status }
    ensures answered { IsCanonicalisedBy (⟦<Small as Spelled>⟧.tree ⟦<Small as AsnType>⟧.CONSTRAINTS) ⟦<Small as Spelled>⟧.IsValue (⟦<Small as Decode>⟧.Answered ⟦<Small as AsnType>⟧.CONSTRAINTS) (options_for mode levels) input.now out.old answer.new out.new }
{
    *answer = canonicalise_by_numbers::<Small>(alloc, mode, levels, input, out);
    answer.status
}

/// Whether octets begin with a `small`, and a canonical one.
#[unsafe(no_mangle)]
pub extern "C" fn jilgomt_small_check(
    alloc: Global,
    mode: u32,
    levels: usize,
    input: &[u8],
    answer: &mut Answer,
) -> u32
    ensures status { result ≡ answer.new.status }
    ensures answered { IsCheckedBy (⟦<Small as Spelled>⟧.tree ⟦<Small as AsnType>⟧.CONSTRAINTS) ⟦<Small as Spelled>⟧.IsValue (⟦<Small as Decode>⟧.Answered ⟦<Small as AsnType>⟧.CONSTRAINTS) (options_for mode levels) input.now answer.new }
{
    *answer = check_by_numbers::<Small>(alloc, mode, levels, input);
    answer.status
}

/// The canonical octets of an `enum4`.
#[unsafe(no_mangle)]
pub extern "C" fn jilgomt_enum4_canonicalise(
    alloc: Global,
    mode: u32,
    levels: usize,
    input: &[u8],
    out: &mut [u8],
    answer: &mut Answer,
) -> u32
    ensures status { result ≡ answer.new.status }
    ensures answered { IsCanonicalisedBy (⟦<Enum4 as Spelled>⟧.tree ⟦<Enum4 as AsnType>⟧.CONSTRAINTS) ⟦<Enum4 as Spelled>⟧.IsValue (⟦<Enum4 as Decode>⟧.Answered ⟦<Enum4 as AsnType>⟧.CONSTRAINTS) (options_for mode levels) input.now out.old answer.new out.new }
{
    *answer = canonicalise_by_numbers::<Enum4>(alloc, mode, levels, input, out);
    answer.status
}

/// Whether octets begin with an `enum4`, and a canonical one.
#[unsafe(no_mangle)]
pub extern "C" fn jilgomt_enum4_check(
    alloc: Global,
    mode: u32,
    levels: usize,
    input: &[u8],
    answer: &mut Answer,
) -> u32
    ensures status { result ≡ answer.new.status }
    ensures answered { IsCheckedBy (⟦<Enum4 as Spelled>⟧.tree ⟦<Enum4 as AsnType>⟧.CONSTRAINTS) ⟦<Enum4 as Spelled>⟧.IsValue (⟦<Enum4 as Decode>⟧.Answered ⟦<Enum4 as AsnType>⟧.CONSTRAINTS) (options_for mode levels) input.now answer.new }
{
    *answer = check_by_numbers::<Enum4>(alloc, mode, levels, input);
    answer.status
}

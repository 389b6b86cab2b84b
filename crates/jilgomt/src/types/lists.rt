//! Choices and lists. This file is written by scripts/exports.py.
ghost use Rattle.std.specs.Prelude.{◌≡◌};
ghost use Rattle.oer_calls.specs.Answers.{IsCanonicalisedBy, IsCheckedBy, options_for};

use oer_calls::answer::Answer;
use oer_calls::numbers::{canonicalise_by_numbers, check_by_numbers};
use oer_types::{Nest, OnlyChoice, PriorityChoice, Sequence1, Sequence2, Sequence7, WideChoice};
use rasn_oer::prelude::*;
use std::alloc::Global;

/// The canonical octets of a `choice`.
#[unsafe(no_mangle)]
pub extern "C" fn jilgomt_choice_canonicalise(
    alloc: Global,
    mode: u32,
    levels: usize,
    input: &[u8],
    out: &mut [u8],
    answer: &mut Answer,
) -> u32
    ensures status { result ≡ answer.new.status }
    ensures answered { IsCanonicalisedBy (⟦<PriorityChoice as Spelled>⟧.tree ⟦<PriorityChoice as AsnType>⟧.CONSTRAINTS) ⟦<PriorityChoice as Spelled>⟧.IsValue (⟦<PriorityChoice as Decode>⟧.Answered ⟦<PriorityChoice as AsnType>⟧.CONSTRAINTS) (options_for mode levels) input.now out.old answer.new out.new }
{
    *answer = canonicalise_by_numbers::<PriorityChoice>(alloc, mode, levels, input, out);
    answer.status
}

/// Whether octets begin with a `choice`, and a canonical one.
#[unsafe(no_mangle)]
pub extern "C" fn jilgomt_choice_check(
    alloc: Global,
    mode: u32,
    levels: usize,
    input: &[u8],
    answer: &mut Answer,
) -> u32
    ensures status { result ≡ answer.new.status }
    ensures answered { IsCheckedBy (⟦<PriorityChoice as Spelled>⟧.tree ⟦<PriorityChoice as AsnType>⟧.CONSTRAINTS) ⟦<PriorityChoice as Spelled>⟧.IsValue (⟦<PriorityChoice as Decode>⟧.Answered ⟦<PriorityChoice as AsnType>⟧.CONSTRAINTS) (options_for mode levels) input.now answer.new }
{
    *answer = check_by_numbers::<PriorityChoice>(alloc, mode, levels, input);
    answer.status
}

/// The canonical octets of a `tagmax`.
#[unsafe(no_mangle)]
pub extern "C" fn jilgomt_tagmax_canonicalise(
    alloc: Global,
    mode: u32,
    levels: usize,
    input: &[u8],
    out: &mut [u8],
    answer: &mut Answer,
) -> u32
    ensures status { result ≡ answer.new.status }
    ensures answered { IsCanonicalisedBy (⟦<WideChoice as Spelled>⟧.tree ⟦<WideChoice as AsnType>⟧.CONSTRAINTS) ⟦<WideChoice as Spelled>⟧.IsValue (⟦<WideChoice as Decode>⟧.Answered ⟦<WideChoice as AsnType>⟧.CONSTRAINTS) (options_for mode levels) input.now out.old answer.new out.new }
{
    *answer = canonicalise_by_numbers::<WideChoice>(alloc, mode, levels, input, out);
    answer.status
}

/// Whether octets begin with a `tagmax`, and a canonical one.
#[unsafe(no_mangle)]
pub extern "C" fn jilgomt_tagmax_check(
    alloc: Global,
    mode: u32,
    levels: usize,
    input: &[u8],
    answer: &mut Answer,
) -> u32
    ensures status { result ≡ answer.new.status }
    ensures answered { IsCheckedBy (⟦<WideChoice as Spelled>⟧.tree ⟦<WideChoice as AsnType>⟧.CONSTRAINTS) ⟦<WideChoice as Spelled>⟧.IsValue (⟦<WideChoice as Decode>⟧.Answered ⟦<WideChoice as AsnType>⟧.CONSTRAINTS) (options_for mode levels) input.now answer.new }
{
    *answer = check_by_numbers::<WideChoice>(alloc, mode, levels, input);
    answer.status
}

/// The canonical octets of a `tag130`.
#[unsafe(no_mangle)]
pub extern "C" fn jilgomt_tag130_canonicalise(
    alloc: Global,
    mode: u32,
    levels: usize,
    input: &[u8],
    out: &mut [u8],
    answer: &mut Answer,
) -> u32
    ensures status { result ≡ answer.new.status }
    ensures answered { IsCanonicalisedBy (⟦<OnlyChoice as Spelled>⟧.tree ⟦<OnlyChoice as AsnType>⟧.CONSTRAINTS) ⟦<OnlyChoice as Spelled>⟧.IsValue (⟦<OnlyChoice as Decode>⟧.Answered ⟦<OnlyChoice as AsnType>⟧.CONSTRAINTS) (options_for mode levels) input.now out.old answer.new out.new }
{
    *answer = canonicalise_by_numbers::<OnlyChoice>(alloc, mode, levels, input, out);
    answer.status
}

/// Whether octets begin with a `tag130`, and a canonical one.
#[unsafe(no_mangle)]
pub extern "C" fn jilgomt_tag130_check(
    alloc: Global,
    mode: u32,
    levels: usize,
    input: &[u8],
    answer: &mut Answer,
) -> u32
    ensures status { result ≡ answer.new.status }
    ensures answered { IsCheckedBy (⟦<OnlyChoice as Spelled>⟧.tree ⟦<OnlyChoice as AsnType>⟧.CONSTRAINTS) ⟦<OnlyChoice as Spelled>⟧.IsValue (⟦<OnlyChoice as Decode>⟧.Answered ⟦<OnlyChoice as AsnType>⟧.CONSTRAINTS) (options_for mode levels) input.now answer.new }
{
    *answer = check_by_numbers::<OnlyChoice>(alloc, mode, levels, input);
    answer.status
}

/// The canonical octets of an `ints`.
#[unsafe(no_mangle)]
pub extern "C" fn jilgomt_ints_canonicalise(
    alloc: Global,
    mode: u32,
    levels: usize,
    input: &[u8],
    out: &mut [u8],
    answer: &mut Answer,
) -> u32
    ensures status { result ≡ answer.new.status }
    ensures answered { IsCanonicalisedBy (⟦<Vec<Integer> as Spelled>⟧.tree ⟦<Vec<Integer> as AsnType>⟧.CONSTRAINTS) ⟦<Vec<Integer> as Spelled>⟧.IsValue (⟦<Vec<Integer> as Decode>⟧.Answered ⟦<Vec<Integer> as AsnType>⟧.CONSTRAINTS) (options_for mode levels) input.now out.old answer.new out.new }
{
    *answer = canonicalise_by_numbers::<Vec<Integer>>(alloc, mode, levels, input, out);
    answer.status
}

/// Whether octets begin with an `ints`, and a canonical one.
#[unsafe(no_mangle)]
pub extern "C" fn jilgomt_ints_check(
    alloc: Global,
    mode: u32,
    levels: usize,
    input: &[u8],
    answer: &mut Answer,
) -> u32
    ensures status { result ≡ answer.new.status }
    ensures answered { IsCheckedBy (⟦<Vec<Integer> as Spelled>⟧.tree ⟦<Vec<Integer> as AsnType>⟧.CONSTRAINTS) ⟦<Vec<Integer> as Spelled>⟧.IsValue (⟦<Vec<Integer> as Decode>⟧.Answered ⟦<Vec<Integer> as AsnType>⟧.CONSTRAINTS) (options_for mode levels) input.now answer.new }
{
    *answer = check_by_numbers::<Vec<Integer>>(alloc, mode, levels, input);
    answer.status
}

/// The canonical octets of a `nulls`.
#[unsafe(no_mangle)]
pub extern "C" fn jilgomt_nulls_canonicalise(
    alloc: Global,
    mode: u32,
    levels: usize,
    input: &[u8],
    out: &mut [u8],
    answer: &mut Answer,
) -> u32
    ensures status { result ≡ answer.new.status }
    ensures answered { IsCanonicalisedBy (⟦<Vec<()> as Spelled>⟧.tree ⟦<Vec<()> as AsnType>⟧.CONSTRAINTS) ⟦<Vec<()> as Spelled>⟧.IsValue (⟦<Vec<()> as Decode>⟧.Answered ⟦<Vec<()> as AsnType>⟧.CONSTRAINTS) (options_for mode levels) input.now out.old answer.new out.new }
{
    *answer = canonicalise_by_numbers::<Vec<()>>(alloc, mode, levels, input, out);
    answer.status
}

/// Whether octets begin with a `nulls`, and a canonical one.
#[unsafe(no_mangle)]
pub extern "C" fn jilgomt_nulls_check(
    alloc: Global,
    mode: u32,
    levels: usize,
    input: &[u8],
    answer: &mut Answer,
) -> u32
    ensures status { result ≡ answer.new.status }
    ensures answered { IsCheckedBy (⟦<Vec<()> as Spelled>⟧.tree ⟦<Vec<()> as AsnType>⟧.CONSTRAINTS) ⟦<Vec<()> as Spelled>⟧.IsValue (⟦<Vec<()> as Decode>⟧.Answered ⟦<Vec<()> as AsnType>⟧.CONSTRAINTS) (options_for mode levels) input.now answer.new }
{
    *answer = check_by_numbers::<Vec<()>>(alloc, mode, levels, input);
    answer.status
}

/// The canonical octets of a `nest`.
#[unsafe(no_mangle)]
pub extern "C" fn jilgomt_nest_canonicalise(
    alloc: Global,
    mode: u32,
    levels: usize,
    input: &[u8],
    out: &mut [u8],
    answer: &mut Answer,
) -> u32
    ensures status { result ≡ answer.new.status }
    ensures answered { IsCanonicalisedBy (⟦<Nest as Spelled>⟧.tree ⟦<Nest as AsnType>⟧.CONSTRAINTS) ⟦<Nest as Spelled>⟧.IsValue (⟦<Nest as Decode>⟧.Answered ⟦<Nest as AsnType>⟧.CONSTRAINTS) (options_for mode levels) input.now out.old answer.new out.new }
{
    *answer = canonicalise_by_numbers::<Nest>(alloc, mode, levels, input, out);
    answer.status
}

/// Whether octets begin with a `nest`, and a canonical one.
#[unsafe(no_mangle)]
pub extern "C" fn jilgomt_nest_check(
    alloc: Global,
    mode: u32,
    levels: usize,
    input: &[u8],
    answer: &mut Answer,
) -> u32
    ensures status { result ≡ answer.new.status }
    ensures answered { IsCheckedBy (⟦<Nest as Spelled>⟧.tree ⟦<Nest as AsnType>⟧.CONSTRAINTS) ⟦<Nest as Spelled>⟧.IsValue (⟦<Nest as Decode>⟧.Answered ⟦<Nest as AsnType>⟧.CONSTRAINTS) (options_for mode levels) input.now answer.new }
{
    *answer = check_by_numbers::<Nest>(alloc, mode, levels, input);
    answer.status
}

/// The canonical octets of an `intset`.
#[unsafe(no_mangle)]
pub extern "C" fn jilgomt_intset_canonicalise(
    alloc: Global,
    mode: u32,
    levels: usize,
    input: &[u8],
    out: &mut [u8],
    answer: &mut Answer,
) -> u32
    ensures status { result ≡ answer.new.status }
    ensures answered { IsCanonicalisedBy (⟦<SetOf<Integer> as Spelled>⟧.tree ⟦<SetOf<Integer> as AsnType>⟧.CONSTRAINTS) ⟦<SetOf<Integer> as Spelled>⟧.IsValue (⟦<SetOf<Integer> as Decode>⟧.Answered ⟦<SetOf<Integer> as AsnType>⟧.CONSTRAINTS) (options_for mode levels) input.now out.old answer.new out.new }
{
    *answer = canonicalise_by_numbers::<SetOf<Integer>>(alloc, mode, levels, input, out);
    answer.status
}

/// Whether octets begin with an `intset`, and a canonical one.
#[unsafe(no_mangle)]
pub extern "C" fn jilgomt_intset_check(
    alloc: Global,
    mode: u32,
    levels: usize,
    input: &[u8],
    answer: &mut Answer,
) -> u32
    ensures status { result ≡ answer.new.status }
    ensures answered { IsCheckedBy (⟦<SetOf<Integer> as Spelled>⟧.tree ⟦<SetOf<Integer> as AsnType>⟧.CONSTRAINTS) ⟦<SetOf<Integer> as Spelled>⟧.IsValue (⟦<SetOf<Integer> as Decode>⟧.Answered ⟦<SetOf<Integer> as AsnType>⟧.CONSTRAINTS) (options_for mode levels) input.now answer.new }
{
    *answer = check_by_numbers::<SetOf<Integer>>(alloc, mode, levels, input);
    answer.status
}

/// The canonical octets of a `bag1`.
#[unsafe(no_mangle)]
pub extern "C" fn jilgomt_bag1_canonicalise(
    alloc: Global,
    mode: u32,
    levels: usize,
    input: &[u8],
    out: &mut [u8],
    answer: &mut Answer,
) -> u32
    ensures status { result ≡ answer.new.status }
    ensures answered { IsCanonicalisedBy (⟦<SetOf<Sequence1> as Spelled>⟧.tree ⟦<SetOf<Sequence1> as AsnType>⟧.CONSTRAINTS) ⟦<SetOf<Sequence1> as Spelled>⟧.IsValue (⟦<SetOf<Sequence1> as Decode>⟧.Answered ⟦<SetOf<Sequence1> as AsnType>⟧.CONSTRAINTS) (options_for mode levels) input.now out.old answer.new out.new }
{
    *answer = canonicalise_by_numbers::<SetOf<Sequence1>>(alloc, mode, levels, input, out);
    answer.status
}

/// Whether octets begin with a `bag1`, and a canonical one.
#[unsafe(no_mangle)]
pub extern "C" fn jilgomt_bag1_check(
    alloc: Global,
    mode: u32,
    levels: usize,
    input: &[u8],
    answer: &mut Answer,
) -> u32
    ensures status { result ≡ answer.new.status }
    ensures answered { IsCheckedBy (⟦<SetOf<Sequence1> as Spelled>⟧.tree ⟦<SetOf<Sequence1> as AsnType>⟧.CONSTRAINTS) ⟦<SetOf<Sequence1> as Spelled>⟧.IsValue (⟦<SetOf<Sequence1> as Decode>⟧.Answered ⟦<SetOf<Sequence1> as AsnType>⟧.CONSTRAINTS) (options_for mode levels) input.now answer.new }
{
    *answer = check_by_numbers::<SetOf<Sequence1>>(alloc, mode, levels, input);
    answer.status
}

/// The canonical octets of a `bag2`.
#[unsafe(no_mangle)]
pub extern "C" fn jilgomt_bag2_canonicalise(
    alloc: Global,
    mode: u32,
    levels: usize,
    input: &[u8],
    out: &mut [u8],
    answer: &mut Answer,
) -> u32
    ensures status { result ≡ answer.new.status }
    ensures answered { IsCanonicalisedBy (⟦<SetOf<Sequence2> as Spelled>⟧.tree ⟦<SetOf<Sequence2> as AsnType>⟧.CONSTRAINTS) ⟦<SetOf<Sequence2> as Spelled>⟧.IsValue (⟦<SetOf<Sequence2> as Decode>⟧.Answered ⟦<SetOf<Sequence2> as AsnType>⟧.CONSTRAINTS) (options_for mode levels) input.now out.old answer.new out.new }
{
    *answer = canonicalise_by_numbers::<SetOf<Sequence2>>(alloc, mode, levels, input, out);
    answer.status
}

/// Whether octets begin with a `bag2`, and a canonical one.
#[unsafe(no_mangle)]
pub extern "C" fn jilgomt_bag2_check(
    alloc: Global,
    mode: u32,
    levels: usize,
    input: &[u8],
    answer: &mut Answer,
) -> u32
    ensures status { result ≡ answer.new.status }
    ensures answered { IsCheckedBy (⟦<SetOf<Sequence2> as Spelled>⟧.tree ⟦<SetOf<Sequence2> as AsnType>⟧.CONSTRAINTS) ⟦<SetOf<Sequence2> as Spelled>⟧.IsValue (⟦<SetOf<Sequence2> as Decode>⟧.Answered ⟦<SetOf<Sequence2> as AsnType>⟧.CONSTRAINTS) (options_for mode levels) input.now answer.new }
{
    *answer = check_by_numbers::<SetOf<Sequence2>>(alloc, mode, levels, input);
    answer.status
}

/// The canonical octets of a `bag3`.
#[unsafe(no_mangle)]
pub extern "C" fn jilgomt_bag3_canonicalise(
    alloc: Global,
    mode: u32,
    levels: usize,
    input: &[u8],
    out: &mut [u8],
    answer: &mut Answer,
) -> u32
    ensures status { result ≡ answer.new.status }
    ensures answered { IsCanonicalisedBy (⟦<SetOf<Sequence7> as Spelled>⟧.tree ⟦<SetOf<Sequence7> as AsnType>⟧.CONSTRAINTS) ⟦<SetOf<Sequence7> as Spelled>⟧.IsValue (⟦<SetOf<Sequence7> as Decode>⟧.Answered ⟦<SetOf<Sequence7> as AsnType>⟧.CONSTRAINTS) (options_for mode levels) input.now out.old answer.new out.new }
{
    *answer = canonicalise_by_numbers::<SetOf<Sequence7>>(alloc, mode, levels, input, out);
    answer.status
}

/// Whether octets begin with a `bag3`, and a canonical one.
#[unsafe(no_mangle)]
pub extern "C" fn jilgomt_bag3_check(
    alloc: Global,
    mode: u32,
    levels: usize,
    input: &[u8],
    answer: &mut Answer,
) -> u32
    ensures status { result ≡ answer.new.status }
    ensures answered { IsCheckedBy (⟦<SetOf<Sequence7> as Spelled>⟧.tree ⟦<SetOf<Sequence7> as AsnType>⟧.CONSTRAINTS) ⟦<SetOf<Sequence7> as Spelled>⟧.IsValue (⟦<SetOf<Sequence7> as Decode>⟧.Answered ⟦<SetOf<Sequence7> as AsnType>⟧.CONSTRAINTS) (options_for mode levels) input.now answer.new }
{
    *answer = check_by_numbers::<SetOf<Sequence7>>(alloc, mode, levels, input);
    answer.status
}

//! Sequences with defaults, and sets. This file is written by scripts/exports.py.
ghost use Rattle.std.specs.Prelude.{◌≡◌};
ghost use Rattle.oer_calls.specs.Answers.{IsCanonicalisedBy, IsCheckedBy, options_for};

use oer_calls::answer::Answer;
use oer_calls::numbers::{canonicalise_by_numbers, check_by_numbers};
use oer_types::{
    DeepDefault, DefaultAndOptional, DefaultInteger, Foo, Holder1, Holder2, MixedSet, MixedSet2,
    TopLevel,
};
use rasn_oer::prelude::*;
use std::alloc::Global;

/// The canonical octets of a `defint`.
#[unsafe(no_mangle)]
pub extern "C" fn jilgomt_defint_canonicalise(
    alloc: Global,
    mode: u32,
    levels: usize,
    input: &[u8],
    out: &mut [u8],
    answer: &mut Answer,
) -> u32
    ensures status { result ≡ answer.new.status }
    ensures answered { IsCanonicalisedBy (⟦<DefaultInteger as Spelled>⟧.tree ⟦<DefaultInteger as AsnType>⟧.CONSTRAINTS) ⟦<DefaultInteger as Spelled>⟧.IsValue (⟦<DefaultInteger as Decode>⟧.Answered ⟦<DefaultInteger as AsnType>⟧.CONSTRAINTS) (options_for mode levels) input.now out.old answer.new out.new }
{
    *answer = canonicalise_by_numbers::<DefaultInteger>(alloc, mode, levels, input, out);
    answer.status
}

/// Whether octets begin with a `defint`, and a canonical one.
#[unsafe(no_mangle)]
pub extern "C" fn jilgomt_defint_check(
    alloc: Global,
    mode: u32,
    levels: usize,
    input: &[u8],
    answer: &mut Answer,
) -> u32
    ensures status { result ≡ answer.new.status }
    ensures answered { IsCheckedBy (⟦<DefaultInteger as Spelled>⟧.tree ⟦<DefaultInteger as AsnType>⟧.CONSTRAINTS) ⟦<DefaultInteger as Spelled>⟧.IsValue (⟦<DefaultInteger as Decode>⟧.Answered ⟦<DefaultInteger as AsnType>⟧.CONSTRAINTS) (options_for mode levels) input.now answer.new }
{
    *answer = check_by_numbers::<DefaultInteger>(alloc, mode, levels, input);
    answer.status
}

/// The canonical octets of a `defopt`.
#[unsafe(no_mangle)]
pub extern "C" fn jilgomt_defopt_canonicalise(
    alloc: Global,
    mode: u32,
    levels: usize,
    input: &[u8],
    out: &mut [u8],
    answer: &mut Answer,
) -> u32
    ensures status { result ≡ answer.new.status }
    ensures answered { IsCanonicalisedBy (⟦<DefaultAndOptional as Spelled>⟧.tree ⟦<DefaultAndOptional as AsnType>⟧.CONSTRAINTS) ⟦<DefaultAndOptional as Spelled>⟧.IsValue (⟦<DefaultAndOptional as Decode>⟧.Answered ⟦<DefaultAndOptional as AsnType>⟧.CONSTRAINTS) (options_for mode levels) input.now out.old answer.new out.new }
{
    *answer = canonicalise_by_numbers::<DefaultAndOptional>(alloc, mode, levels, input, out);
    answer.status
}

/// Whether octets begin with a `defopt`, and a canonical one.
#[unsafe(no_mangle)]
pub extern "C" fn jilgomt_defopt_check(
    alloc: Global,
    mode: u32,
    levels: usize,
    input: &[u8],
    answer: &mut Answer,
) -> u32
    ensures status { result ≡ answer.new.status }
    ensures answered { IsCheckedBy (⟦<DefaultAndOptional as Spelled>⟧.tree ⟦<DefaultAndOptional as AsnType>⟧.CONSTRAINTS) ⟦<DefaultAndOptional as Spelled>⟧.IsValue (⟦<DefaultAndOptional as Decode>⟧.Answered ⟦<DefaultAndOptional as AsnType>⟧.CONSTRAINTS) (options_for mode levels) input.now answer.new }
{
    *answer = check_by_numbers::<DefaultAndOptional>(alloc, mode, levels, input);
    answer.status
}

/// The canonical octets of a `deepdef`.
#[unsafe(no_mangle)]
pub extern "C" fn jilgomt_deepdef_canonicalise(
    alloc: Global,
    mode: u32,
    levels: usize,
    input: &[u8],
    out: &mut [u8],
    answer: &mut Answer,
) -> u32
    ensures status { result ≡ answer.new.status }
    ensures answered { IsCanonicalisedBy (⟦<DeepDefault as Spelled>⟧.tree ⟦<DeepDefault as AsnType>⟧.CONSTRAINTS) ⟦<DeepDefault as Spelled>⟧.IsValue (⟦<DeepDefault as Decode>⟧.Answered ⟦<DeepDefault as AsnType>⟧.CONSTRAINTS) (options_for mode levels) input.now out.old answer.new out.new }
{
    *answer = canonicalise_by_numbers::<DeepDefault>(alloc, mode, levels, input, out);
    answer.status
}

/// Whether octets begin with a `deepdef`, and a canonical one.
#[unsafe(no_mangle)]
pub extern "C" fn jilgomt_deepdef_check(
    alloc: Global,
    mode: u32,
    levels: usize,
    input: &[u8],
    answer: &mut Answer,
) -> u32
    ensures status { result ≡ answer.new.status }
    ensures answered { IsCheckedBy (⟦<DeepDefault as Spelled>⟧.tree ⟦<DeepDefault as AsnType>⟧.CONSTRAINTS) ⟦<DeepDefault as Spelled>⟧.IsValue (⟦<DeepDefault as Decode>⟧.Answered ⟦<DeepDefault as AsnType>⟧.CONSTRAINTS) (options_for mode levels) input.now answer.new }
{
    *answer = check_by_numbers::<DeepDefault>(alloc, mode, levels, input);
    answer.status
}

/// The canonical octets of a `holder1`.
#[unsafe(no_mangle)]
pub extern "C" fn jilgomt_holder1_canonicalise(
    alloc: Global,
    mode: u32,
    levels: usize,
    input: &[u8],
    out: &mut [u8],
    answer: &mut Answer,
) -> u32
    ensures status { result ≡ answer.new.status }
    ensures answered { IsCanonicalisedBy (⟦<Holder1 as Spelled>⟧.tree ⟦<Holder1 as AsnType>⟧.CONSTRAINTS) ⟦<Holder1 as Spelled>⟧.IsValue (⟦<Holder1 as Decode>⟧.Answered ⟦<Holder1 as AsnType>⟧.CONSTRAINTS) (options_for mode levels) input.now out.old answer.new out.new }
{
    *answer = canonicalise_by_numbers::<Holder1>(alloc, mode, levels, input, out);
    answer.status
}

/// Whether octets begin with a `holder1`, and a canonical one.
#[unsafe(no_mangle)]
pub extern "C" fn jilgomt_holder1_check(
    alloc: Global,
    mode: u32,
    levels: usize,
    input: &[u8],
    answer: &mut Answer,
) -> u32
    ensures status { result ≡ answer.new.status }
    ensures answered { IsCheckedBy (⟦<Holder1 as Spelled>⟧.tree ⟦<Holder1 as AsnType>⟧.CONSTRAINTS) ⟦<Holder1 as Spelled>⟧.IsValue (⟦<Holder1 as Decode>⟧.Answered ⟦<Holder1 as AsnType>⟧.CONSTRAINTS) (options_for mode levels) input.now answer.new }
{
    *answer = check_by_numbers::<Holder1>(alloc, mode, levels, input);
    answer.status
}

/// The canonical octets of a `holder2`.
#[unsafe(no_mangle)]
pub extern "C" fn jilgomt_holder2_canonicalise(
    alloc: Global,
    mode: u32,
    levels: usize,
    input: &[u8],
    out: &mut [u8],
    answer: &mut Answer,
) -> u32
    ensures status { result ≡ answer.new.status }
    ensures answered { IsCanonicalisedBy (⟦<Holder2 as Spelled>⟧.tree ⟦<Holder2 as AsnType>⟧.CONSTRAINTS) ⟦<Holder2 as Spelled>⟧.IsValue (⟦<Holder2 as Decode>⟧.Answered ⟦<Holder2 as AsnType>⟧.CONSTRAINTS) (options_for mode levels) input.now out.old answer.new out.new }
{
    *answer = canonicalise_by_numbers::<Holder2>(alloc, mode, levels, input, out);
    answer.status
}

/// Whether octets begin with a `holder2`, and a canonical one.
#[unsafe(no_mangle)]
pub extern "C" fn jilgomt_holder2_check(
    alloc: Global,
    mode: u32,
    levels: usize,
    input: &[u8],
    answer: &mut Answer,
) -> u32
    ensures status { result ≡ answer.new.status }
    ensures answered { IsCheckedBy (⟦<Holder2 as Spelled>⟧.tree ⟦<Holder2 as AsnType>⟧.CONSTRAINTS) ⟦<Holder2 as Spelled>⟧.IsValue (⟦<Holder2 as Decode>⟧.Answered ⟦<Holder2 as AsnType>⟧.CONSTRAINTS) (options_for mode levels) input.now answer.new }
{
    *answer = check_by_numbers::<Holder2>(alloc, mode, levels, input);
    answer.status
}

/// The canonical octets of a `toplevel`.
#[unsafe(no_mangle)]
pub extern "C" fn jilgomt_toplevel_canonicalise(
    alloc: Global,
    mode: u32,
    levels: usize,
    input: &[u8],
    out: &mut [u8],
    answer: &mut Answer,
) -> u32
    ensures status { result ≡ answer.new.status }
    ensures answered { IsCanonicalisedBy (⟦<TopLevel as Spelled>⟧.tree ⟦<TopLevel as AsnType>⟧.CONSTRAINTS) ⟦<TopLevel as Spelled>⟧.IsValue (⟦<TopLevel as Decode>⟧.Answered ⟦<TopLevel as AsnType>⟧.CONSTRAINTS) (options_for mode levels) input.now out.old answer.new out.new }
{
    *answer = canonicalise_by_numbers::<TopLevel>(alloc, mode, levels, input, out);
    answer.status
}

/// Whether octets begin with a `toplevel`, and a canonical one.
#[unsafe(no_mangle)]
pub extern "C" fn jilgomt_toplevel_check(
    alloc: Global,
    mode: u32,
    levels: usize,
    input: &[u8],
    answer: &mut Answer,
) -> u32
    ensures status { result ≡ answer.new.status }
    ensures answered { IsCheckedBy (⟦<TopLevel as Spelled>⟧.tree ⟦<TopLevel as AsnType>⟧.CONSTRAINTS) ⟦<TopLevel as Spelled>⟧.IsValue (⟦<TopLevel as Decode>⟧.Answered ⟦<TopLevel as AsnType>⟧.CONSTRAINTS) (options_for mode levels) input.now answer.new }
{
    *answer = check_by_numbers::<TopLevel>(alloc, mode, levels, input);
    answer.status
}

/// The canonical octets of a `foo`.
#[unsafe(no_mangle)]
pub extern "C" fn jilgomt_foo_canonicalise(
    alloc: Global,
    mode: u32,
    levels: usize,
    input: &[u8],
    out: &mut [u8],
    answer: &mut Answer,
) -> u32
    ensures status { result ≡ answer.new.status }
    ensures answered { IsCanonicalisedBy (⟦<Foo as Spelled>⟧.tree ⟦<Foo as AsnType>⟧.CONSTRAINTS) ⟦<Foo as Spelled>⟧.IsValue (⟦<Foo as Decode>⟧.Answered ⟦<Foo as AsnType>⟧.CONSTRAINTS) (options_for mode levels) input.now out.old answer.new out.new }
{
    *answer = canonicalise_by_numbers::<Foo>(alloc, mode, levels, input, out);
    answer.status
}

/// Whether octets begin with a `foo`, and a canonical one.
#[unsafe(no_mangle)]
pub extern "C" fn jilgomt_foo_check(
    alloc: Global,
    mode: u32,
    levels: usize,
    input: &[u8],
    answer: &mut Answer,
) -> u32
    ensures status { result ≡ answer.new.status }
    ensures answered { IsCheckedBy (⟦<Foo as Spelled>⟧.tree ⟦<Foo as AsnType>⟧.CONSTRAINTS) ⟦<Foo as Spelled>⟧.IsValue (⟦<Foo as Decode>⟧.Answered ⟦<Foo as AsnType>⟧.CONSTRAINTS) (options_for mode levels) input.now answer.new }
{
    *answer = check_by_numbers::<Foo>(alloc, mode, levels, input);
    answer.status
}

/// The canonical octets of a `mixset`.
#[unsafe(no_mangle)]
pub extern "C" fn jilgomt_mixset_canonicalise(
    alloc: Global,
    mode: u32,
    levels: usize,
    input: &[u8],
    out: &mut [u8],
    answer: &mut Answer,
) -> u32
    ensures status { result ≡ answer.new.status }
    ensures answered { IsCanonicalisedBy (⟦<MixedSet as Spelled>⟧.tree ⟦<MixedSet as AsnType>⟧.CONSTRAINTS) ⟦<MixedSet as Spelled>⟧.IsValue (⟦<MixedSet as Decode>⟧.Answered ⟦<MixedSet as AsnType>⟧.CONSTRAINTS) (options_for mode levels) input.now out.old answer.new out.new }
{
    *answer = canonicalise_by_numbers::<MixedSet>(alloc, mode, levels, input, out);
    answer.status
}

/// Whether octets begin with a `mixset`, and a canonical one.
#[unsafe(no_mangle)]
pub extern "C" fn jilgomt_mixset_check(
    alloc: Global,
    mode: u32,
    levels: usize,
    input: &[u8],
    answer: &mut Answer,
) -> u32
    ensures status { result ≡ answer.new.status }
    ensures answered { IsCheckedBy (⟦<MixedSet as Spelled>⟧.tree ⟦<MixedSet as AsnType>⟧.CONSTRAINTS) ⟦<MixedSet as Spelled>⟧.IsValue (⟦<MixedSet as Decode>⟧.Answered ⟦<MixedSet as AsnType>⟧.CONSTRAINTS) (options_for mode levels) input.now answer.new }
{
    *answer = check_by_numbers::<MixedSet>(alloc, mode, levels, input);
    answer.status
}

/// The canonical octets of a `mixset2`.
#[unsafe(no_mangle)]
pub extern "C" fn jilgomt_mixset2_canonicalise(
    alloc: Global,
    mode: u32,
    levels: usize,
    input: &[u8],
    out: &mut [u8],
    answer: &mut Answer,
) -> u32
    ensures status { result ≡ answer.new.status }
    ensures answered { IsCanonicalisedBy (⟦<MixedSet2 as Spelled>⟧.tree ⟦<MixedSet2 as AsnType>⟧.CONSTRAINTS) ⟦<MixedSet2 as Spelled>⟧.IsValue (⟦<MixedSet2 as Decode>⟧.Answered ⟦<MixedSet2 as AsnType>⟧.CONSTRAINTS) (options_for mode levels) input.now out.old answer.new out.new }
{
    *answer = canonicalise_by_numbers::<MixedSet2>(alloc, mode, levels, input, out);
    answer.status
}

/// Whether octets begin with a `mixset2`, and a canonical one.
#[unsafe(no_mangle)]
pub extern "C" fn jilgomt_mixset2_check(
    alloc: Global,
    mode: u32,
    levels: usize,
    input: &[u8],
    answer: &mut Answer,
) -> u32
    ensures status { result ≡ answer.new.status }
    ensures answered { IsCheckedBy (⟦<MixedSet2 as Spelled>⟧.tree ⟦<MixedSet2 as AsnType>⟧.CONSTRAINTS) ⟦<MixedSet2 as Spelled>⟧.IsValue (⟦<MixedSet2 as Decode>⟧.Answered ⟦<MixedSet2 as AsnType>⟧.CONSTRAINTS) (options_for mode levels) input.now answer.new }
{
    *answer = check_by_numbers::<MixedSet2>(alloc, mode, levels, input);
    answer.status
}

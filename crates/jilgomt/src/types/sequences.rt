//! Sequences. This file is written by scripts/exports.py.
ghost use Rattle.std.specs.Prelude.{◌≡◌};
ghost use Rattle.oer_calls.specs.Answers.{IsCanonicalisedBy, IsCheckedBy, options_for};

use oer_calls::answer::Answer;
use oer_calls::numbers::{canonicalise_by_numbers, check_by_numbers};
use oer_types::{
    Empty, EmptyExtensible, ExtendedOptional, ManyOptional, Omitted, Outer, Sequence1, Sequence2,
    Sequence3, Sequence5, Sequence6, Sequence7, SequenceDuplicatesExtended,
};
use rasn_oer::prelude::*;
use std::alloc::Global;

/// The canonical octets of an `empty`.
#[unsafe(no_mangle)]
pub extern "C" fn jilgomt_empty_canonicalise(
    alloc: Global,
    mode: u32,
    levels: usize,
    input: &[u8],
    out: &mut [u8],
    answer: &mut Answer,
) -> u32
    ensures status { result ≡ answer.new.status }
    ensures answered { IsCanonicalisedBy (⟦<Empty as Spelled>⟧.tree ⟦<Empty as AsnType>⟧.CONSTRAINTS) ⟦<Empty as Spelled>⟧.IsValue (⟦<Empty as Decode>⟧.Answered ⟦<Empty as AsnType>⟧.CONSTRAINTS) (options_for mode levels) input.now out.old answer.new out.new }
{
    *answer = canonicalise_by_numbers::<Empty>(alloc, mode, levels, input, out);
    answer.status
}

/// Whether octets begin with an `empty`, and a canonical one.
#[unsafe(no_mangle)]
pub extern "C" fn jilgomt_empty_check(
    alloc: Global,
    mode: u32,
    levels: usize,
    input: &[u8],
    answer: &mut Answer,
) -> u32
    ensures status { result ≡ answer.new.status }
    ensures answered { IsCheckedBy (⟦<Empty as Spelled>⟧.tree ⟦<Empty as AsnType>⟧.CONSTRAINTS) ⟦<Empty as Spelled>⟧.IsValue (⟦<Empty as Decode>⟧.Answered ⟦<Empty as AsnType>⟧.CONSTRAINTS) (options_for mode levels) input.now answer.new }
{
    *answer = check_by_numbers::<Empty>(alloc, mode, levels, input);
    answer.status
}

/// The canonical octets of an `emptyext`.
#[unsafe(no_mangle)]
pub extern "C" fn jilgomt_emptyext_canonicalise(
    alloc: Global,
    mode: u32,
    levels: usize,
    input: &[u8],
    out: &mut [u8],
    answer: &mut Answer,
) -> u32
    ensures status { result ≡ answer.new.status }
    ensures answered { IsCanonicalisedBy (⟦<EmptyExtensible as Spelled>⟧.tree ⟦<EmptyExtensible as AsnType>⟧.CONSTRAINTS) ⟦<EmptyExtensible as Spelled>⟧.IsValue (⟦<EmptyExtensible as Decode>⟧.Answered ⟦<EmptyExtensible as AsnType>⟧.CONSTRAINTS) (options_for mode levels) input.now out.old answer.new out.new }
{
    *answer = canonicalise_by_numbers::<EmptyExtensible>(alloc, mode, levels, input, out);
    answer.status
}

/// Whether octets begin with an `emptyext`, and a canonical one.
#[unsafe(no_mangle)]
pub extern "C" fn jilgomt_emptyext_check(
    alloc: Global,
    mode: u32,
    levels: usize,
    input: &[u8],
    answer: &mut Answer,
) -> u32
    ensures status { result ≡ answer.new.status }
    ensures answered { IsCheckedBy (⟦<EmptyExtensible as Spelled>⟧.tree ⟦<EmptyExtensible as AsnType>⟧.CONSTRAINTS) ⟦<EmptyExtensible as Spelled>⟧.IsValue (⟦<EmptyExtensible as Decode>⟧.Answered ⟦<EmptyExtensible as AsnType>⟧.CONSTRAINTS) (options_for mode levels) input.now answer.new }
{
    *answer = check_by_numbers::<EmptyExtensible>(alloc, mode, levels, input);
    answer.status
}

/// The canonical octets of a `seq1`.
#[unsafe(no_mangle)]
pub extern "C" fn jilgomt_seq1_canonicalise(
    alloc: Global,
    mode: u32,
    levels: usize,
    input: &[u8],
    out: &mut [u8],
    answer: &mut Answer,
) -> u32
    ensures status { result ≡ answer.new.status }
    ensures answered { IsCanonicalisedBy (⟦<Sequence1 as Spelled>⟧.tree ⟦<Sequence1 as AsnType>⟧.CONSTRAINTS) ⟦<Sequence1 as Spelled>⟧.IsValue (⟦<Sequence1 as Decode>⟧.Answered ⟦<Sequence1 as AsnType>⟧.CONSTRAINTS) (options_for mode levels) input.now out.old answer.new out.new }
{
    *answer = canonicalise_by_numbers::<Sequence1>(alloc, mode, levels, input, out);
    answer.status
}

/// Whether octets begin with a `seq1`, and a canonical one.
#[unsafe(no_mangle)]
pub extern "C" fn jilgomt_seq1_check(
    alloc: Global,
    mode: u32,
    levels: usize,
    input: &[u8],
    answer: &mut Answer,
) -> u32
    ensures status { result ≡ answer.new.status }
    ensures answered { IsCheckedBy (⟦<Sequence1 as Spelled>⟧.tree ⟦<Sequence1 as AsnType>⟧.CONSTRAINTS) ⟦<Sequence1 as Spelled>⟧.IsValue (⟦<Sequence1 as Decode>⟧.Answered ⟦<Sequence1 as AsnType>⟧.CONSTRAINTS) (options_for mode levels) input.now answer.new }
{
    *answer = check_by_numbers::<Sequence1>(alloc, mode, levels, input);
    answer.status
}

/// The canonical octets of an `omitted`.
#[unsafe(no_mangle)]
pub extern "C" fn jilgomt_omitted_canonicalise(
    alloc: Global,
    mode: u32,
    levels: usize,
    input: &[u8],
    out: &mut [u8],
    answer: &mut Answer,
) -> u32
    ensures status { result ≡ answer.new.status }
    ensures answered { IsCanonicalisedBy (⟦<Omitted as Spelled>⟧.tree ⟦<Omitted as AsnType>⟧.CONSTRAINTS) ⟦<Omitted as Spelled>⟧.IsValue (⟦<Omitted as Decode>⟧.Answered ⟦<Omitted as AsnType>⟧.CONSTRAINTS) (options_for mode levels) input.now out.old answer.new out.new }
{
    *answer = canonicalise_by_numbers::<Omitted>(alloc, mode, levels, input, out);
    answer.status
}

/// Whether octets begin with an `omitted`, and a canonical one.
#[unsafe(no_mangle)]
pub extern "C" fn jilgomt_omitted_check(
    alloc: Global,
    mode: u32,
    levels: usize,
    input: &[u8],
    answer: &mut Answer,
) -> u32
    ensures status { result ≡ answer.new.status }
    ensures answered { IsCheckedBy (⟦<Omitted as Spelled>⟧.tree ⟦<Omitted as AsnType>⟧.CONSTRAINTS) ⟦<Omitted as Spelled>⟧.IsValue (⟦<Omitted as Decode>⟧.Answered ⟦<Omitted as AsnType>⟧.CONSTRAINTS) (options_for mode levels) input.now answer.new }
{
    *answer = check_by_numbers::<Omitted>(alloc, mode, levels, input);
    answer.status
}

/// The canonical octets of a `seq2`.
#[unsafe(no_mangle)]
pub extern "C" fn jilgomt_seq2_canonicalise(
    alloc: Global,
    mode: u32,
    levels: usize,
    input: &[u8],
    out: &mut [u8],
    answer: &mut Answer,
) -> u32
    ensures status { result ≡ answer.new.status }
    ensures answered { IsCanonicalisedBy (⟦<Sequence2 as Spelled>⟧.tree ⟦<Sequence2 as AsnType>⟧.CONSTRAINTS) ⟦<Sequence2 as Spelled>⟧.IsValue (⟦<Sequence2 as Decode>⟧.Answered ⟦<Sequence2 as AsnType>⟧.CONSTRAINTS) (options_for mode levels) input.now out.old answer.new out.new }
{
    *answer = canonicalise_by_numbers::<Sequence2>(alloc, mode, levels, input, out);
    answer.status
}

/// Whether octets begin with a `seq2`, and a canonical one.
#[unsafe(no_mangle)]
pub extern "C" fn jilgomt_seq2_check(
    alloc: Global,
    mode: u32,
    levels: usize,
    input: &[u8],
    answer: &mut Answer,
) -> u32
    ensures status { result ≡ answer.new.status }
    ensures answered { IsCheckedBy (⟦<Sequence2 as Spelled>⟧.tree ⟦<Sequence2 as AsnType>⟧.CONSTRAINTS) ⟦<Sequence2 as Spelled>⟧.IsValue (⟦<Sequence2 as Decode>⟧.Answered ⟦<Sequence2 as AsnType>⟧.CONSTRAINTS) (options_for mode levels) input.now answer.new }
{
    *answer = check_by_numbers::<Sequence2>(alloc, mode, levels, input);
    answer.status
}

/// The canonical octets of a `seq5`.
#[unsafe(no_mangle)]
pub extern "C" fn jilgomt_seq5_canonicalise(
    alloc: Global,
    mode: u32,
    levels: usize,
    input: &[u8],
    out: &mut [u8],
    answer: &mut Answer,
) -> u32
    ensures status { result ≡ answer.new.status }
    ensures answered { IsCanonicalisedBy (⟦<Sequence5 as Spelled>⟧.tree ⟦<Sequence5 as AsnType>⟧.CONSTRAINTS) ⟦<Sequence5 as Spelled>⟧.IsValue (⟦<Sequence5 as Decode>⟧.Answered ⟦<Sequence5 as AsnType>⟧.CONSTRAINTS) (options_for mode levels) input.now out.old answer.new out.new }
{
    *answer = canonicalise_by_numbers::<Sequence5>(alloc, mode, levels, input, out);
    answer.status
}

/// Whether octets begin with a `seq5`, and a canonical one.
#[unsafe(no_mangle)]
pub extern "C" fn jilgomt_seq5_check(
    alloc: Global,
    mode: u32,
    levels: usize,
    input: &[u8],
    answer: &mut Answer,
) -> u32
    ensures status { result ≡ answer.new.status }
    ensures answered { IsCheckedBy (⟦<Sequence5 as Spelled>⟧.tree ⟦<Sequence5 as AsnType>⟧.CONSTRAINTS) ⟦<Sequence5 as Spelled>⟧.IsValue (⟦<Sequence5 as Decode>⟧.Answered ⟦<Sequence5 as AsnType>⟧.CONSTRAINTS) (options_for mode levels) input.now answer.new }
{
    *answer = check_by_numbers::<Sequence5>(alloc, mode, levels, input);
    answer.status
}

/// The canonical octets of a `seq7`.
#[unsafe(no_mangle)]
pub extern "C" fn jilgomt_seq7_canonicalise(
    alloc: Global,
    mode: u32,
    levels: usize,
    input: &[u8],
    out: &mut [u8],
    answer: &mut Answer,
) -> u32
    ensures status { result ≡ answer.new.status }
    ensures answered { IsCanonicalisedBy (⟦<Sequence7 as Spelled>⟧.tree ⟦<Sequence7 as AsnType>⟧.CONSTRAINTS) ⟦<Sequence7 as Spelled>⟧.IsValue (⟦<Sequence7 as Decode>⟧.Answered ⟦<Sequence7 as AsnType>⟧.CONSTRAINTS) (options_for mode levels) input.now out.old answer.new out.new }
{
    *answer = canonicalise_by_numbers::<Sequence7>(alloc, mode, levels, input, out);
    answer.status
}

/// Whether octets begin with a `seq7`, and a canonical one.
#[unsafe(no_mangle)]
pub extern "C" fn jilgomt_seq7_check(
    alloc: Global,
    mode: u32,
    levels: usize,
    input: &[u8],
    answer: &mut Answer,
) -> u32
    ensures status { result ≡ answer.new.status }
    ensures answered { IsCheckedBy (⟦<Sequence7 as Spelled>⟧.tree ⟦<Sequence7 as AsnType>⟧.CONSTRAINTS) ⟦<Sequence7 as Spelled>⟧.IsValue (⟦<Sequence7 as Decode>⟧.Answered ⟦<Sequence7 as AsnType>⟧.CONSTRAINTS) (options_for mode levels) input.now answer.new }
{
    *answer = check_by_numbers::<Sequence7>(alloc, mode, levels, input);
    answer.status
}

/// The canonical octets of a `seq3`.
#[unsafe(no_mangle)]
pub extern "C" fn jilgomt_seq3_canonicalise(
    alloc: Global,
    mode: u32,
    levels: usize,
    input: &[u8],
    out: &mut [u8],
    answer: &mut Answer,
) -> u32
    ensures status { result ≡ answer.new.status }
    ensures answered { IsCanonicalisedBy (⟦<Sequence3 as Spelled>⟧.tree ⟦<Sequence3 as AsnType>⟧.CONSTRAINTS) ⟦<Sequence3 as Spelled>⟧.IsValue (⟦<Sequence3 as Decode>⟧.Answered ⟦<Sequence3 as AsnType>⟧.CONSTRAINTS) (options_for mode levels) input.now out.old answer.new out.new }
{
    *answer = canonicalise_by_numbers::<Sequence3>(alloc, mode, levels, input, out);
    answer.status
}

/// Whether octets begin with a `seq3`, and a canonical one.
#[unsafe(no_mangle)]
pub extern "C" fn jilgomt_seq3_check(
    alloc: Global,
    mode: u32,
    levels: usize,
    input: &[u8],
    answer: &mut Answer,
) -> u32
    ensures status { result ≡ answer.new.status }
    ensures answered { IsCheckedBy (⟦<Sequence3 as Spelled>⟧.tree ⟦<Sequence3 as AsnType>⟧.CONSTRAINTS) ⟦<Sequence3 as Spelled>⟧.IsValue (⟦<Sequence3 as Decode>⟧.Answered ⟦<Sequence3 as AsnType>⟧.CONSTRAINTS) (options_for mode levels) input.now answer.new }
{
    *answer = check_by_numbers::<Sequence3>(alloc, mode, levels, input);
    answer.status
}

/// The canonical octets of a `seq6`.
#[unsafe(no_mangle)]
pub extern "C" fn jilgomt_seq6_canonicalise(
    alloc: Global,
    mode: u32,
    levels: usize,
    input: &[u8],
    out: &mut [u8],
    answer: &mut Answer,
) -> u32
    ensures status { result ≡ answer.new.status }
    ensures answered { IsCanonicalisedBy (⟦<Sequence6 as Spelled>⟧.tree ⟦<Sequence6 as AsnType>⟧.CONSTRAINTS) ⟦<Sequence6 as Spelled>⟧.IsValue (⟦<Sequence6 as Decode>⟧.Answered ⟦<Sequence6 as AsnType>⟧.CONSTRAINTS) (options_for mode levels) input.now out.old answer.new out.new }
{
    *answer = canonicalise_by_numbers::<Sequence6>(alloc, mode, levels, input, out);
    answer.status
}

/// Whether octets begin with a `seq6`, and a canonical one.
#[unsafe(no_mangle)]
pub extern "C" fn jilgomt_seq6_check(
    alloc: Global,
    mode: u32,
    levels: usize,
    input: &[u8],
    answer: &mut Answer,
) -> u32
    ensures status { result ≡ answer.new.status }
    ensures answered { IsCheckedBy (⟦<Sequence6 as Spelled>⟧.tree ⟦<Sequence6 as AsnType>⟧.CONSTRAINTS) ⟦<Sequence6 as Spelled>⟧.IsValue (⟦<Sequence6 as Decode>⟧.Answered ⟦<Sequence6 as AsnType>⟧.CONSTRAINTS) (options_for mode levels) input.now answer.new }
{
    *answer = check_by_numbers::<Sequence6>(alloc, mode, levels, input);
    answer.status
}

/// The canonical octets of an `outer`.
#[unsafe(no_mangle)]
pub extern "C" fn jilgomt_outer_canonicalise(
    alloc: Global,
    mode: u32,
    levels: usize,
    input: &[u8],
    out: &mut [u8],
    answer: &mut Answer,
) -> u32
    ensures status { result ≡ answer.new.status }
    ensures answered { IsCanonicalisedBy (⟦<Outer as Spelled>⟧.tree ⟦<Outer as AsnType>⟧.CONSTRAINTS) ⟦<Outer as Spelled>⟧.IsValue (⟦<Outer as Decode>⟧.Answered ⟦<Outer as AsnType>⟧.CONSTRAINTS) (options_for mode levels) input.now out.old answer.new out.new }
{
    *answer = canonicalise_by_numbers::<Outer>(alloc, mode, levels, input, out);
    answer.status
}

/// Whether octets begin with an `outer`, and a canonical one.
#[unsafe(no_mangle)]
pub extern "C" fn jilgomt_outer_check(
    alloc: Global,
    mode: u32,
    levels: usize,
    input: &[u8],
    answer: &mut Answer,
) -> u32
    ensures status { result ≡ answer.new.status }
    ensures answered { IsCheckedBy (⟦<Outer as Spelled>⟧.tree ⟦<Outer as AsnType>⟧.CONSTRAINTS) ⟦<Outer as Spelled>⟧.IsValue (⟦<Outer as Decode>⟧.Answered ⟦<Outer as AsnType>⟧.CONSTRAINTS) (options_for mode levels) input.now answer.new }
{
    *answer = check_by_numbers::<Outer>(alloc, mode, levels, input);
    answer.status
}

/// The canonical octets of a `dup`.
#[unsafe(no_mangle)]
pub extern "C" fn jilgomt_dup_canonicalise(
    alloc: Global,
    mode: u32,
    levels: usize,
    input: &[u8],
    out: &mut [u8],
    answer: &mut Answer,
) -> u32
    ensures status { result ≡ answer.new.status }
    ensures answered { IsCanonicalisedBy (⟦<SequenceDuplicatesExtended as Spelled>⟧.tree ⟦<SequenceDuplicatesExtended as AsnType>⟧.CONSTRAINTS) ⟦<SequenceDuplicatesExtended as Spelled>⟧.IsValue (⟦<SequenceDuplicatesExtended as Decode>⟧.Answered ⟦<SequenceDuplicatesExtended as AsnType>⟧.CONSTRAINTS) (options_for mode levels) input.now out.old answer.new out.new }
{
    *answer = canonicalise_by_numbers::<SequenceDuplicatesExtended>(
        alloc, mode, levels, input, out,
    );
    answer.status
}

/// Whether octets begin with a `dup`, and a canonical one.
#[unsafe(no_mangle)]
pub extern "C" fn jilgomt_dup_check(
    alloc: Global,
    mode: u32,
    levels: usize,
    input: &[u8],
    answer: &mut Answer,
) -> u32
    ensures status { result ≡ answer.new.status }
    ensures answered { IsCheckedBy (⟦<SequenceDuplicatesExtended as Spelled>⟧.tree ⟦<SequenceDuplicatesExtended as AsnType>⟧.CONSTRAINTS) ⟦<SequenceDuplicatesExtended as Spelled>⟧.IsValue (⟦<SequenceDuplicatesExtended as Decode>⟧.Answered ⟦<SequenceDuplicatesExtended as AsnType>⟧.CONSTRAINTS) (options_for mode levels) input.now answer.new }
{
    *answer = check_by_numbers::<SequenceDuplicatesExtended>(alloc, mode, levels, input);
    answer.status
}

/// The canonical octets of an `extopt`.
#[unsafe(no_mangle)]
pub extern "C" fn jilgomt_extopt_canonicalise(
    alloc: Global,
    mode: u32,
    levels: usize,
    input: &[u8],
    out: &mut [u8],
    answer: &mut Answer,
) -> u32
    ensures status { result ≡ answer.new.status }
    ensures answered { IsCanonicalisedBy (⟦<ExtendedOptional as Spelled>⟧.tree ⟦<ExtendedOptional as AsnType>⟧.CONSTRAINTS) ⟦<ExtendedOptional as Spelled>⟧.IsValue (⟦<ExtendedOptional as Decode>⟧.Answered ⟦<ExtendedOptional as AsnType>⟧.CONSTRAINTS) (options_for mode levels) input.now out.old answer.new out.new }
{
    *answer = canonicalise_by_numbers::<ExtendedOptional>(alloc, mode, levels, input, out);
    answer.status
}

/// Whether octets begin with an `extopt`, and a canonical one.
#[unsafe(no_mangle)]
pub extern "C" fn jilgomt_extopt_check(
    alloc: Global,
    mode: u32,
    levels: usize,
    input: &[u8],
    answer: &mut Answer,
) -> u32
    ensures status { result ≡ answer.new.status }
    ensures answered { IsCheckedBy (⟦<ExtendedOptional as Spelled>⟧.tree ⟦<ExtendedOptional as AsnType>⟧.CONSTRAINTS) ⟦<ExtendedOptional as Spelled>⟧.IsValue (⟦<ExtendedOptional as Decode>⟧.Answered ⟦<ExtendedOptional as AsnType>⟧.CONSTRAINTS) (options_for mode levels) input.now answer.new }
{
    *answer = check_by_numbers::<ExtendedOptional>(alloc, mode, levels, input);
    answer.status
}

/// The canonical octets of a `manyopt`.
#[unsafe(no_mangle)]
pub extern "C" fn jilgomt_manyopt_canonicalise(
    alloc: Global,
    mode: u32,
    levels: usize,
    input: &[u8],
    out: &mut [u8],
    answer: &mut Answer,
) -> u32
    ensures status { result ≡ answer.new.status }
    ensures answered { IsCanonicalisedBy (⟦<ManyOptional as Spelled>⟧.tree ⟦<ManyOptional as AsnType>⟧.CONSTRAINTS) ⟦<ManyOptional as Spelled>⟧.IsValue (⟦<ManyOptional as Decode>⟧.Answered ⟦<ManyOptional as AsnType>⟧.CONSTRAINTS) (options_for mode levels) input.now out.old answer.new out.new }
{
    *answer = canonicalise_by_numbers::<ManyOptional>(alloc, mode, levels, input, out);
    answer.status
}

/// Whether octets begin with a `manyopt`, and a canonical one.
#[unsafe(no_mangle)]
pub extern "C" fn jilgomt_manyopt_check(
    alloc: Global,
    mode: u32,
    levels: usize,
    input: &[u8],
    answer: &mut Answer,
) -> u32
    ensures status { result ≡ answer.new.status }
    ensures answered { IsCheckedBy (⟦<ManyOptional as Spelled>⟧.tree ⟦<ManyOptional as AsnType>⟧.CONSTRAINTS) ⟦<ManyOptional as Spelled>⟧.IsValue (⟦<ManyOptional as Decode>⟧.Answered ⟦<ManyOptional as AsnType>⟧.CONSTRAINTS) (options_for mode levels) input.now answer.new }
{
    *answer = check_by_numbers::<ManyOptional>(alloc, mode, levels, input);
    answer.status
}

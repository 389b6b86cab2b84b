//! The functions of single types, each with the whole contract: what stands in the answer and in the caller's octets.
ghost use Rattle.std.specs.Prelude.{◌≡◌};
ghost use Rattle.oer_calls.specs.Answers.{IsConvertedBy, options_for};

mod leaves;
mod lists;
mod sequences;
mod sets;

use oer_calls::answer::Answer;
use oer_calls::numbers::convert_by_numbers;
use oer_types::{Sequence1, Sequence2};
use rasn_oer::prelude::*;
use std::alloc::Global;

/// The canonical octets, as a `seq1`, of a `seq2`.
#[unsafe(no_mangle)]
pub extern "C" fn jilgomt_seq2_to_seq1(
    alloc: Global,
    mode: u32,
    levels: usize,
    input: &[u8],
    out: &mut [u8],
    answer: &mut Answer,
) -> u32
    ensures status { result ≡ answer.new.status }
    ensures answered { IsConvertedBy (⟦<Sequence2 as Spelled>⟧.tree ⟦<Sequence2 as AsnType>⟧.CONSTRAINTS) ⟦<Sequence2 as Spelled>⟧.IsValue (⟦<Sequence2 as Decode>⟧.Answered ⟦<Sequence2 as AsnType>⟧.CONSTRAINTS) (⟦<Sequence1 as Spelled>⟧.tree ⟦<Sequence1 as AsnType>⟧.CONSTRAINTS) ⟦<Sequence1 as Spelled>⟧.IsValue (⟦<Sequence1 as Decode>⟧.Answered ⟦<Sequence1 as AsnType>⟧.CONSTRAINTS) (options_for mode levels) input.now out.old answer.new out.new }
{
    *answer = convert_by_numbers::<Sequence2, Sequence1>(alloc, mode, levels, input, out);
    answer.status
}

//! The library for C. include/jilgomt.h declares these functions, and docs/CALLING.md says what a caller owes.
#![tactic(auto)]

ghost use Rattle.std.specs.Prelude.{◌≡◌, codes};
ghost use Rattle.oer_calls.specs.Answers.{IsAnsweredByWord, IsCanonicalisedBy, IsCheckedBy, IsCheckedByWord, IsConvertedBy, options_for};
ghost use Rattle.oer_calls.specs.Names.{IsTold, name_for};

mod types;
mod walks;
mod words;

use oer_calls::answer::Answer;
use oer_calls::names::{kind_name, told};
use oer_types::{Sequence1, Sequence2};
use rasn_oer::prelude::*;
use std::alloc::Global;
use words::{canonicalise_by_word, check_by_word, convert_by_words};

const VERSION: &str = "0.1.0";

/// The canonical octets of the word's type, of the value whose encoding begins the input.
#[unsafe(no_mangle)]
pub extern "C" fn jilgomt_canonicalise(
    alloc: Global,
    word: &[u8],
    mode: u32,
    levels: usize,
    input: &[u8],
    out: &mut [u8],
    answer: &mut Answer,
) -> u32
    ensures status { result ≡ answer.new.status }
    ensures answered { IsAnsweredByWord (options_for mode levels) out.old answer.new out.new }
    ensures seq1 { word.now ≡ codes "seq1" → IsCanonicalisedBy (⟦<Sequence1 as Spelled>⟧.tree ⟦<Sequence1 as AsnType>⟧.CONSTRAINTS) ⟦<Sequence1 as Spelled>⟧.IsValue (⟦<Sequence1 as Decode>⟧.Answered ⟦<Sequence1 as AsnType>⟧.CONSTRAINTS) (options_for mode levels) input.now out.old answer.new out.new }
    ensures seq2 { word.now ≡ codes "seq2" → IsCanonicalisedBy (⟦<Sequence2 as Spelled>⟧.tree ⟦<Sequence2 as AsnType>⟧.CONSTRAINTS) ⟦<Sequence2 as Spelled>⟧.IsValue (⟦<Sequence2 as Decode>⟧.Answered ⟦<Sequence2 as AsnType>⟧.CONSTRAINTS) (options_for mode levels) input.now out.old answer.new out.new }
{
    *answer = canonicalise_by_word(alloc, word, mode, levels, input, out);
    answer.status
}

/// Whether an encoding of the word's type begins the input, and a canonical one.
#[unsafe(no_mangle)]
pub extern "C" fn jilgomt_check(
    alloc: Global,
    word: &[u8],
    mode: u32,
    levels: usize,
    input: &[u8],
    answer: &mut Answer,
) -> u32
    ensures status { result ≡ answer.new.status }
    ensures answered { IsCheckedByWord (options_for mode levels) answer.new }
    ensures seq1 { word.now ≡ codes "seq1" → IsCheckedBy (⟦<Sequence1 as Spelled>⟧.tree ⟦<Sequence1 as AsnType>⟧.CONSTRAINTS) ⟦<Sequence1 as Spelled>⟧.IsValue (⟦<Sequence1 as Decode>⟧.Answered ⟦<Sequence1 as AsnType>⟧.CONSTRAINTS) (options_for mode levels) input.now answer.new }
    ensures seq2 { word.now ≡ codes "seq2" → IsCheckedBy (⟦<Sequence2 as Spelled>⟧.tree ⟦<Sequence2 as AsnType>⟧.CONSTRAINTS) ⟦<Sequence2 as Spelled>⟧.IsValue (⟦<Sequence2 as Decode>⟧.Answered ⟦<Sequence2 as AsnType>⟧.CONSTRAINTS) (options_for mode levels) input.now answer.new }
{
    *answer = check_by_word(alloc, word, mode, levels, input);
    answer.status
}

/// The canonical octets of the second word's type, of a value of the first word's type whose encoding begins the input.
#[unsafe(no_mangle)]
pub extern "C" fn jilgomt_convert(
    alloc: Global,
    from: &[u8],
    to: &[u8],
    mode: u32,
    levels: usize,
    input: &[u8],
    out: &mut [u8],
    answer: &mut Answer,
) -> u32
    ensures status { result ≡ answer.new.status }
    ensures answered { IsAnsweredByWord (options_for mode levels) out.old answer.new out.new }
    ensures seq2_to_seq1 { from.now ≡ codes "seq2" → to.now ≡ codes "seq1" → IsConvertedBy (⟦<Sequence2 as Spelled>⟧.tree ⟦<Sequence2 as AsnType>⟧.CONSTRAINTS) ⟦<Sequence2 as Spelled>⟧.IsValue (⟦<Sequence2 as Decode>⟧.Answered ⟦<Sequence2 as AsnType>⟧.CONSTRAINTS) (⟦<Sequence1 as Spelled>⟧.tree ⟦<Sequence1 as AsnType>⟧.CONSTRAINTS) ⟦<Sequence1 as Spelled>⟧.IsValue (⟦<Sequence1 as Decode>⟧.Answered ⟦<Sequence1 as AsnType>⟧.CONSTRAINTS) (options_for mode levels) input.now out.old answer.new out.new }
{
    *answer = convert_by_words(alloc, from, to, mode, levels, input, out);
    answer.status
}

/// The name of a kind of refusal, cut off where there is no room; answers how long it is: 0 if there is no such kind.
#[unsafe(no_mangle)]
pub extern "C" fn jilgomt_kind_name(status: u32, kind: u32, out: &mut [u8]) -> usize
    ensures { IsTold (name_for status kind) out.old result out.new }
{
    told(kind_name(status, kind), out)
}

/// The library's version, cut off where there is no room; answers how long it is.
#[unsafe(no_mangle)]
pub extern "C" fn jilgomt_version(out: &mut [u8]) -> usize
    ensures { IsTold (codes "0.1.0") out.old result out.new }
{
    told(VERSION, out)
}

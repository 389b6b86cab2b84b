//! The calls for C: a mode and levels as numbers, and an answer in numbers.
ghost use Rattle.std.specs.Prelude.{◌≡◌};
ghost use Rattle.oer_calls.specs.Answers.{IsCanonicalisedBy, IsCheckedBy, IsConvertedBy, options_for};

use crate::answer::Answer;
use crate::calls::{canonicalise, check, convert};
use rasn_oer::{Decode, DecoderOptions, Encode};
use std::alloc::Global;

/// The options of a mode and of levels: 0 is lenient reading, 1 canonical; `None` for another mode, and above 1,024 levels.
pub fn options_of(mode: u32, levels: usize) -> Option<DecoderOptions>
    ensures { result ≡ options_for mode levels }
{
    match mode {
        0 => DecoderOptions::oer().with_depth(levels),
        1 => DecoderOptions::coer().with_depth(levels),
        _ => None,
    }
}

/// `canonicalise` by numbers; without such options the answer says so, and nothing is done.
pub fn canonicalise_by_numbers<T: Decode + Encode>(
    alloc: Global,
    mode: u32,
    levels: usize,
    input: &[u8],
    out: &mut [u8],
) -> Answer
    ensures { IsCanonicalisedBy (T.tree T.CONSTRAINTS) T.IsValue (T.Answered T.CONSTRAINTS) (options_for mode levels) input.now out.old result out.new }
{
    match options_of(mode, levels) {
        None => Answer::no_options(),
        Some(options) => Answer::of_outcome(canonicalise::<T>(alloc, options, input, out)),
    }
}

/// `check` by numbers; without such options the answer says so.
pub fn check_by_numbers<T: Decode + Encode>(
    alloc: Global,
    mode: u32,
    levels: usize,
    input: &[u8],
) -> Answer
    ensures { IsCheckedBy (T.tree T.CONSTRAINTS) T.IsValue (T.Answered T.CONSTRAINTS) (options_for mode levels) input.now result }
{
    match options_of(mode, levels) {
        None => Answer::no_options(),
        Some(options) => Answer::of_checked(check::<T>(alloc, options, input)),
    }
}

/// `convert` by numbers; without such options the answer says so, and nothing is done.
pub fn convert_by_numbers<Sent: Decode + Encode, Wanted: Decode + Encode>(
    alloc: Global,
    mode: u32,
    levels: usize,
    input: &[u8],
    out: &mut [u8],
) -> Answer
    ensures { IsConvertedBy (Sent.tree Sent.CONSTRAINTS) Sent.IsValue (Sent.Answered Sent.CONSTRAINTS) (Wanted.tree Wanted.CONSTRAINTS) Wanted.IsValue (Wanted.Answered Wanted.CONSTRAINTS) (options_for mode levels) input.now out.old result out.new }
{
    match options_of(mode, levels) {
        None => Answer::no_options(),
        Some(options) => { Answer::of_outcome(convert::<Sent, Wanted>(alloc, options, input, out)) }
    }
}

//! The calls for the type that a word of the program names. That the octets are those of the word's type is promised of `seq1` and
//! `seq2`, and tested of the others, whose own functions promise it.
ghost use Rattle.std.specs.Prelude.{◌≡◌, codes};
ghost use Rattle.oer_calls.specs.Answers.{IsAnsweredByWord, IsCanonicalisedBy, IsCheckedBy, IsCheckedByWord, IsConvertedBy, IsFramedIfAny, options_for};

use oer_calls::answer::Answer;
use oer_calls::calls::{Checked, Outcome, Recoded, compared, placed, recode};
use oer_calls::numbers::{
    canonicalise_by_numbers, check_by_numbers, convert_by_numbers, options_of,
};
use oer_types::{Sequence1, Sequence2};
use oertool_words::known::{OnType, with_type};
use rasn_oer::oer::CodecError;
use rasn_oer::prelude::*;
use std::alloc::Global;
use std::fmt::Debug;

/// Octets that are read by the options and written again.
#[derive(Drop)]
struct Recoding<'a> {
    alloc: Global,
    options: DecoderOptions,
    input: &'a [u8],
}

impl<'a> OnType for Recoding<'a> {
    type Output = Result<Recoded, CodecError>;

    fn on<T: Decode + Encode + Debug + PartialEq>(self) -> Result<Recoded, CodecError> {
        recode::<T>(self.alloc, self.options, self.input)
    }
}

fn recoded(
    alloc: Global,
    word: &[u8],
    options: DecoderOptions,
    input: &[u8],
) -> Option<Result<Recoded, CodecError>> {
    let recoding = Recoding {
        alloc,
        options,
        input,
    };
    match std::str::from_utf8(word) {
        Ok(word) => with_type(word, recoding),
        Err(_) => None,
    }
}

/// `canonicalise` of the word's type; `None` if no type has the word.
fn canonicalised(
    alloc: Global,
    word: &[u8],
    options: DecoderOptions,
    input: &[u8],
    out: &mut [u8],
) -> Option<Outcome>
    ensures { IsFramedIfAny out.old result out.new }
{
    match recoded(alloc, word, options, input)? {
        Err(e) => Some(Outcome::Refused(e)),
        Ok(it) => Some(placed(it.octets.as_slice(), it.consumed, out)),
    }
}

/// `check` of the word's type; `None` if no type has the word.
fn checked(
    alloc: Global,
    word: &[u8],
    options: DecoderOptions,
    input: &[u8],
) -> Option<Result<Checked, CodecError>> {
    match recoded(alloc, word, options, input)? {
        Err(e) => Some(Err(e)),
        Ok(it) => Some(Ok(compared(it.octets.as_slice(), it.consumed, input))),
    }
}

/// `convert` from one word's type to another's; `None` if no type has one of the words.
fn converted(
    alloc: Global,
    words: (&[u8], &[u8]),
    options: DecoderOptions,
    input: &[u8],
    out: &mut [u8],
) -> Option<Outcome>
    ensures { IsFramedIfAny out.old result out.new }
{
    let (from, to) = words;
    let sent = match recoded(alloc, from, options, input)? {
        Err(e) => return Some(Outcome::Refused(e)),
        Ok(sent) => sent,
    };
    match recoded(alloc, to, options, sent.octets.as_slice())? {
        Err(e) => Some(Outcome::NotConverted(e)),
        Ok(wanted) => Some(placed(wanted.octets.as_slice(), sent.consumed, out)),
    }
}

/// `canonicalise` of the word's type, by numbers. Of `seq1` and `seq2` it promises what the type's function does.
#[tactic(auto, using(crate::proofs::Promises::is_answered))]
pub fn canonicalise_by_word(
    alloc: Global,
    word: &[u8],
    mode: u32,
    levels: usize,
    input: &[u8],
    out: &mut [u8],
) -> Answer
    ensures answered { IsAnsweredByWord (options_for mode levels) out.old result out.new }
    ensures seq1 { word.now ≡ codes "seq1" → IsCanonicalisedBy (⟦<Sequence1 as Spelled>⟧.tree ⟦<Sequence1 as AsnType>⟧.CONSTRAINTS) ⟦<Sequence1 as Spelled>⟧.IsValue (⟦<Sequence1 as Decode>⟧.Answered ⟦<Sequence1 as AsnType>⟧.CONSTRAINTS) (options_for mode levels) input.now out.old result out.new }
    ensures seq2 { word.now ≡ codes "seq2" → IsCanonicalisedBy (⟦<Sequence2 as Spelled>⟧.tree ⟦<Sequence2 as AsnType>⟧.CONSTRAINTS) ⟦<Sequence2 as Spelled>⟧.IsValue (⟦<Sequence2 as Decode>⟧.Answered ⟦<Sequence2 as AsnType>⟧.CONSTRAINTS) (options_for mode levels) input.now out.old result out.new }
{
    if word == b"seq1".as_slice() {
        return canonicalise_by_numbers::<Sequence1>(alloc, mode, levels, input, out);
    }
    if word == b"seq2".as_slice() {
        return canonicalise_by_numbers::<Sequence2>(alloc, mode, levels, input, out);
    }
    match options_of(mode, levels) {
        None => Answer::no_options(),
        Some(options) => Answer::of_word(canonicalised(alloc, word, options, input, out)),
    }
}

/// `check` of the word's type, by numbers. Of `seq1` and `seq2` it promises what the type's function does.
#[tactic(auto, using(crate::proofs::Promises::is_checked))]
pub fn check_by_word(alloc: Global, word: &[u8], mode: u32, levels: usize, input: &[u8]) -> Answer
    ensures answered { IsCheckedByWord (options_for mode levels) result }
    ensures seq1 { word.now ≡ codes "seq1" → IsCheckedBy (⟦<Sequence1 as Spelled>⟧.tree ⟦<Sequence1 as AsnType>⟧.CONSTRAINTS) ⟦<Sequence1 as Spelled>⟧.IsValue (⟦<Sequence1 as Decode>⟧.Answered ⟦<Sequence1 as AsnType>⟧.CONSTRAINTS) (options_for mode levels) input.now result }
    ensures seq2 { word.now ≡ codes "seq2" → IsCheckedBy (⟦<Sequence2 as Spelled>⟧.tree ⟦<Sequence2 as AsnType>⟧.CONSTRAINTS) ⟦<Sequence2 as Spelled>⟧.IsValue (⟦<Sequence2 as Decode>⟧.Answered ⟦<Sequence2 as AsnType>⟧.CONSTRAINTS) (options_for mode levels) input.now result }
{
    if word == b"seq1".as_slice() {
        return check_by_numbers::<Sequence1>(alloc, mode, levels, input);
    }
    if word == b"seq2".as_slice() {
        return check_by_numbers::<Sequence2>(alloc, mode, levels, input);
    }
    match options_of(mode, levels) {
        None => Answer::no_options(),
        Some(options) => Answer::of_checked_word(checked(alloc, word, options, input)),
    }
}

/// `convert` from one word's type to another's, by numbers. Of `seq2` as `seq1` it promises what that function does.
#[tactic(auto, using(crate::proofs::Promises::is_converted))]
pub fn convert_by_words(
    alloc: Global,
    from: &[u8],
    to: &[u8],
    mode: u32,
    levels: usize,
    input: &[u8],
    out: &mut [u8],
) -> Answer
    ensures answered { IsAnsweredByWord (options_for mode levels) out.old result out.new }
    ensures seq2_to_seq1 { from.now ≡ codes "seq2" → to.now ≡ codes "seq1" → IsConvertedBy (⟦<Sequence2 as Spelled>⟧.tree ⟦<Sequence2 as AsnType>⟧.CONSTRAINTS) ⟦<Sequence2 as Spelled>⟧.IsValue (⟦<Sequence2 as Decode>⟧.Answered ⟦<Sequence2 as AsnType>⟧.CONSTRAINTS) (⟦<Sequence1 as Spelled>⟧.tree ⟦<Sequence1 as AsnType>⟧.CONSTRAINTS) ⟦<Sequence1 as Spelled>⟧.IsValue (⟦<Sequence1 as Decode>⟧.Answered ⟦<Sequence1 as AsnType>⟧.CONSTRAINTS) (options_for mode levels) input.now out.old result out.new }
{
    if from == b"seq2".as_slice() && to == b"seq1".as_slice() {
        return convert_by_numbers::<Sequence2, Sequence1>(alloc, mode, levels, input, out);
    }
    match options_of(mode, levels) {
        None => Answer::no_options(),
        Some(options) => Answer::of_word(converted(alloc, (from, to), options, input, out)),
    }
}

//! The calls over slices.
ghost use Rattle.std.specs.Prelude.{◌≡◌, ◌<◌, ◌≤◌, length};
ghost use Rattle.oer_calls.specs.Calls.{IsRecoded, IsFramed, IsPlaced, IsCanonicalised, IsCompared, IsChecked, IsConverted, other_than};

use rasn_oer::oer::CodecError;
use rasn_oer::{Decode, DecoderOptions, Encode, coer, oer};
use std::alloc::Global;

/// The canonical octets of a value, and how many octets of the input its encoding takes.
#[derive(Debug, PartialEq, Eq, Drop)]
pub struct Recoded {
    pub octets: Vec<u8>,
    pub consumed: usize,
}

/// What became of octets that were handed in, and of those that were to be written.
#[derive(Debug, PartialEq, Eq, Drop)]
pub enum Outcome {
    /// So many octets of the input were taken, and so many stand at the front of the caller's octets.
    Done { consumed: usize, written: usize },
    /// So many octets of the input were taken. Nothing was written: there is no room for that many octets.
    NoRoom { consumed: usize, needed: usize },
    /// The input was refused, or the value that was read of it. Nothing was written.
    Refused(CodecError),
    /// The value isn't one of the other version, or can't be written as one. Nothing was written.
    NotConverted(CodecError),
}

/// What the octets at the front of an input are.
#[derive(Debug, PartialEq, Eq, Drop)]
pub struct Checked {
    /// How many octets of the input the encoding takes.
    pub consumed: usize,
    /// How many canonical octets the value has.
    pub canonical: usize,
    /// Whether the octets that were taken are these.
    pub is_canonical: bool,
}

/// The canonical octets of the value whose encoding begins the input.
///
/// Refused as `decode_with_options` refuses the input, or as `encode` refuses what was read.
#[tactic(auto, using(crate::proofs::Recoding::canonical_of))]
pub fn recode<T: Decode + Encode>(
    alloc: Global,
    options: DecoderOptions,
    input: &[u8],
) -> Result<Recoded, CodecError>
    ensures { IsRecoded (T.tree T.CONSTRAINTS) T.IsValue (T.Answered T.CONSTRAINTS) options.codec options.levels input.now result }
{
    let (value, rest) = match oer::decode_with_options::<T>(alloc, options, input) {
        Ok(read) => read,
        Err(e) => return Err(CodecError::Decode(e)),
    };
    let octets = match coer::encode(alloc, &value) {
        Ok(octets) => octets,
        Err(e) => return Err(CodecError::Encode(e)),
    };
    let consumed = input.len().saturating_sub(rest.len());
    Ok(Recoded { octets, consumed })
}

/// Puts octets at the front of the caller's, where they fit; else writes nothing.
pub fn placed(octets: &[u8], consumed: usize, out: &mut [u8]) -> Outcome
    ensures placed { IsPlaced octets.now consumed out.old result out.new }
    ensures framed { IsFramed out.old result out.new }
{
    let written = octets.len();
    if out.len() < written {
        return Outcome::NoRoom {
            consumed,
            needed: written,
        };
    }
    out[..written].copy_from_slice(octets);
    Outcome::Done { consumed, written }
}

/// Puts the canonical octets of the value whose encoding begins the input at the front of the caller's.
///
/// Refused as `recode` is. The other outcomes say how many octets were taken, and how many are canonical.
#[tactic(auto, using(crate::proofs::Recoding::canonicalised))]
pub fn canonicalise<T: Decode + Encode>(
    alloc: Global,
    options: DecoderOptions,
    input: &[u8],
    out: &mut [u8],
) -> Outcome
    ensures { IsCanonicalised (T.tree T.CONSTRAINTS) T.IsValue (T.Answered T.CONSTRAINTS) options.codec options.levels input.now out.old result out.new }
{
    match recode::<T>(alloc, options, input) {
        Ok(recoded) => placed(recoded.octets.as_slice(), recoded.consumed, out),
        Err(e) => Outcome::Refused(e),
    }
}

/// Whether the encoding that begins the input is canonical, and how many octets it takes.
///
/// Refused as `recode` is.
#[tactic(auto, using(crate::proofs::Recoding::fits, crate::proofs::Recoding::checked))]
pub fn check<T: Decode + Encode>(
    alloc: Global,
    options: DecoderOptions,
    input: &[u8],
) -> Result<Checked, CodecError>
    ensures { IsChecked (T.tree T.CONSTRAINTS) T.IsValue (T.Answered T.CONSTRAINTS) options.codec options.levels input.now result }
{
    let recoded = recode::<T>(alloc, options, input)?;
    Ok(compared(recoded.octets.as_slice(), recoded.consumed, input))
}

/// Puts the canonical octets, as another version of the type, of the value whose encoding begins the input at the front of
/// the caller's: the value's own canonical octets are read as the other version by the same options (X.696, 16.5).
///
/// `Refused` as `recode` is of the input; `NotConverted` as it is, for the other version, of the value's octets.
pub fn convert<Sent: Decode + Encode, Wanted: Decode + Encode>(
    alloc: Global,
    options: DecoderOptions,
    input: &[u8],
    out: &mut [u8],
) -> Outcome
    ensures { IsConverted (Sent.tree Sent.CONSTRAINTS) Sent.IsValue (Sent.Answered Sent.CONSTRAINTS) (Wanted.tree Wanted.CONSTRAINTS) Wanted.IsValue (Wanted.Answered Wanted.CONSTRAINTS) options.codec options.levels input.now out.old result out.new }
{
    let sent = match recode::<Sent>(alloc, options, input) {
        Ok(sent) => sent,
        Err(e) => return Outcome::Refused(e),
    };
    match recode::<Wanted>(alloc, options, sent.octets.as_slice()) {
        Ok(wanted) => placed(wanted.octets.as_slice(), sent.consumed, out),
        Err(e) => Outcome::NotConverted(e),
    }
}

/// What is said of so many octets at the front of an input, beside the canonical ones; where it has fewer, that they aren't these.
pub fn compared(canonical: &[u8], consumed: usize, input: &[u8]) -> Checked
    ensures compared { consumed ≤ length input.now → IsCompared canonical.now consumed input.now result }
    ensures beyond { length input.now < consumed → result ≡ other_than canonical.now consumed }
{
    let is_canonical = match input.get(..consumed) {
        Some(taken) => taken == canonical,
        None => false,
    };
    Checked {
        consumed,
        canonical: canonical.len(),
        is_canonical,
    }
}

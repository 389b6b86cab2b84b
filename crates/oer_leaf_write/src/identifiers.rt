//! Writes an OBJECT IDENTIFIER: its contents octets, and then the length in front of them (X.696, 21).
ghost use Rattle.std.specs.Prelude.{◌≡◌, ◌≤◌, ◌+◌, ◌++◌, take, drop, length, vec_len, true, if◌then◌else◌, MatchResult};
ghost use Rattle.asn1_core.specs.declared.error.EncodeErrorKind.TheVariants.{InvalidObjectIdentifier, OutOfMemory};
ghost use Rattle.asn1_strings.specs.Identifiers.{is_identifier, arcs_octets};
ghost use Rattle.oer_spec.specs.Lengths.{behind_length};
ghost use Rattle.oer_spec.specs.Writing.{BeginsWith};
ghost use Rattle.oer_spec.specs.WritingTexts.{AppendsIdentifier};

use crate::lengths::write_length;
use asn1_core::{Codec, EncodeError, EncodeErrorKind};
use asn1_strings::object_identifier_as_bytes;

/// Exchanges the first `count` octets from `start` on, and those behind them.
fn exchange(start: usize, count: usize, octets: &mut [u8])
    requires { start + count ≤ length octets.old }
    ensures { octets.new ≡ take start octets.old ++ (drop count (drop start octets.old) ++ take count (drop start octets.old)) }
{
    let (_, tail) = octets.split_at_mut(start);
    tail.rotate_left(count);
}

/// Puts a length in front of the octets from `start` on.
#[tactic(auto, using(crate::proofs::Packing::length_in_front))]
fn insert_length(start: usize, out: &mut Vec<u8>) -> Result<(), EncodeErrorKind>
    requires { start ≤ vec_len out.old }
    ensures { MatchResult result
        (λ _. out.new.items ≡ take start out.old.items ++ behind_length (drop start out.old.items))
        (λ e. (e ≡ OutOfMemory) × BeginsWith out.old.items out.new.items) }
{
    let count = out.len() - start;
    write_length(count, out)?;
    exchange(start, count, out.as_mut_slice());
    Ok(())
}

/// Appends the contents octets of the identifier with these arcs.
fn write_contents(arcs: &[u32], out: &mut Vec<u8>) -> Result<(), EncodeErrorKind>
    ensures { MatchResult result
        (λ _. (is_identifier arcs.now ≡ true) × (out.new.items ≡ out.old.items ++ arcs_octets arcs.now))
        (λ e. (e ≡ (if is_identifier arcs.now then OutOfMemory else InvalidObjectIdentifier)) × BeginsWith out.old.items out.new.items) }
{
    match object_identifier_as_bytes(arcs, Codec::Coer, out) {
        Ok(()) => Ok(()),
        Err(EncodeError { kind, .. }) => Err(kind),
    }
}

/// Appends an OBJECT IDENTIFIER: a length and the contents octets (X.696, 21; X.690, 8.19).
///
/// Refused, the first that applies: arcs that are no identifier, as `InvalidObjectIdentifier`; above `usize::MAX / 8`
/// octets, as `LengthExceedsPlatformSize`.
pub fn write_object_identifier(arcs: &[u32], out: &mut Vec<u8>) -> Result<(), EncodeErrorKind>
    ensures { AppendsIdentifier result arcs.now out.old.items out.new.items }
{
    let start = out.len();
    write_contents(arcs, out)?;
    if out.len() - start > usize::MAX / 8 {
        return Err(EncodeErrorKind::LengthExceedsPlatformSize);
    }
    insert_length(start, out)
}

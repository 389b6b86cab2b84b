//! Reads a BOOLEAN (X.696, 9).
ghost use Rattle.std.specs.Prelude.{IfErr};
ghost use Rattle.oer_spec.specs.Leaves.{IsLeafEncoding};
ghost use Rattle.oer_spec.specs.Mode.{mode_of};
ghost use Rattle.oer_spec.specs.Reading.{Gives, seen, ReadsFront, IsNotForMemory, bool_at};
ghost use Rattle.oer_spec.specs.Tree.{Boolean};

use crate::parts::read_octet;
use asn1_core::{Codec, DecodeErrorKind};

/// The boolean at the front, and what is left (X.696, 9).
///
/// Refused, the first that applies: `Incomplete` by 1 where there is no octet; in canonical reading an octet that is
/// neither 00 nor FF, as `InvalidBool` with that octet.
#[inline(always)]
#[tactic(auto, unfolding(oer_spec::specs::Reading::bool_at))]
pub fn read_bool(codec: Codec, input: &[u8]) -> Result<(bool, &[u8]), DecodeErrorKind>
    ensures function { Gives (λ x. (x.0, x.1.now)) result (bool_at codec input.now) }
    ensures relation { ReadsFront (λ o b. IsLeafEncoding (mode_of codec) o (Boolean b)) input.now (seen (λ x. (x.0, x.1.now)) result) }
    ensures memory { IfErr result IsNotForMemory }
{
    let (value, rest) = read_octet(input)?;
    if value == 0 {
        return Ok((false, rest));
    }
    if codec == Codec::Coer && value != 255 {
        return Err(DecodeErrorKind::InvalidBool { value });
    }
    Ok((true, rest))
}

//! Reads a quantity: how many elements a list has (X.696, 17.2).
ghost use Rattle.std.specs.Prelude.{IfErr};
ghost use Rattle.oer_spec.specs.Lengths.{IsQuantity};
ghost use Rattle.oer_spec.specs.Mode.{mode_of};
ghost use Rattle.oer_spec.specs.Reading.{Gives, seen, ReadsFront, IsNotForMemory, quantity_in, quantity_at};

use crate::lengths::read_content;
use crate::parts::{require_canonical, unsigned_of};
use asn1_core::{Codec, DecodeErrorKind};
use asn1_ints::has_superfluous_zero;

/// The number of a quantity's octets.
#[inline(always)]
#[tactic(auto, unfolding(oer_spec::specs::Reading::quantity_in))]
fn quantity_in(codec: Codec, content: &[u8]) -> Result<usize, DecodeErrorKind>
    ensures function { Gives (λ x. x) result (quantity_in codec content.now) }
    ensures memory { IfErr result IsNotForMemory }
{
    match content {
        [] => Err(DecodeErrorKind::EmptyInteger),
        [one] => Ok(*one as usize),
        [_, _, ..] => {
            require_canonical(codec, has_superfluous_zero(content))?;
            unsigned_of(content).ok_or(DecodeErrorKind::LengthExceedsPlatformWidth)
        }
    }
}

/// How many elements a list has, at the front, and what is left (X.696, 17.2).
///
/// Refused as the octets behind a length are (`read_content`); then, the first that applies: no octets, as
/// `EmptyInteger`; in canonical reading a leading octet 00 of more than one, as `NotValidCanonicalEncoding`; above
/// `usize::MAX`, as `LengthExceedsPlatformWidth`.
#[inline(always)]
#[tactic(auto, unfolding(oer_spec::specs::Reading::quantity_at))]
pub fn read_quantity(codec: Codec, input: &[u8]) -> Result<(usize, &[u8]), DecodeErrorKind>
    ensures function { Gives (λ x. (x.0, x.1.now)) result (quantity_at codec input.now) }
    ensures relation { ReadsFront (IsQuantity (mode_of codec)) input.now (seen (λ x. (x.0, x.1.now)) result) }
    ensures memory { IfErr result IsNotForMemory }
{
    let (content, rest) = read_content(codec, input)?;
    let quantity = quantity_in(codec, content)?;
    Ok((quantity, rest))
}

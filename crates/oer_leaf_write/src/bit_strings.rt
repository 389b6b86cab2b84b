//! Writes a BIT STRING (X.696, 13).
ghost use Rattle.std.specs.Prelude.{◌≡◌, ◌+◌, ◌-◌, ◌≤◌, ◌^◌, ◌<◌, [], ◌∷◌, ◌++◌, length, replicate, MatchResult, Some, None};
ghost use Rattle.asn1_core.specs.Bounds.{size_bounds};
ghost use Rattle.oer_spec.specs.Failures.{first_failure};
ghost use Rattle.oer_spec.specs.Leaves.{named_bits};
ghost use Rattle.asn1_core.specs.Octets.{octets_for};
ghost use Rattle.asn1_strings.specs.NamedBits.{IsNamed};
ghost use Rattle.oer_spec.specs.Lengths.{behind_length, length_octets};
ghost use Rattle.oer_spec.specs.ReadingBits.{unused_for};
ghost use Rattle.oer_spec.specs.Tree.{Bits, Named};
ghost use Rattle.oer_spec.specs.Writing.{AppendsOrMemory, AppendsLeaf};

use crate::lengths::write_length;
use crate::texts::check_string;
use asn1_core::{Constraints, EncodeErrorKind};
use asn1_strings::{BitString, NamedBits};
use oer_spec::leaf::{least_size, octets_for, unused_for};

/// Appends a length, an octet, and the octets.
#[tactic(auto, using(crate::proofs::Packing::behind_first))]
fn write_behind(first: u8, octets: &[u8], out: &mut Vec<u8>) -> Result<(), EncodeErrorKind>
    requires { length octets.now + 1 < 2 ^ 64 }
    ensures { AppendsOrMemory result (behind_length (first ∷ octets.now)) out.old.items out.new.items }
{
    write_length(octets.len() + 1, out)?;
    out.push(first)?;
    out.extend_from_slice(octets)?;
    Ok(())
}

/// Whether the value can be written.
#[tactic(auto, using(crate::proofs::Packing::bits_failure))]
fn check_bits(value: &BitString, constraints: Constraints) -> Result<(), EncodeErrorKind>
    ensures { MatchResult result
        (λ _. first_failure (Bits (size_bounds constraints) value.now) ≡ None)
        (λ e. first_failure (Bits (size_bounds constraints) value.now) ≡ Some e) }
{
    check_string(constraints, value.len(), value.as_octets().len())
}

/// Appends a BIT STRING (X.696, 13).
///
/// Refused, the first that applies: a size that the constraint doesn't allow, as `SizeConstraintNotSatisfied` with the
/// size in bits; above `usize::MAX / 8` octets behind a length, as `LengthExceedsPlatformSize`.
#[tactic(auto, using(crate::proofs::Packing::length_pack))]
pub fn write_bit_string(
    constraints: Constraints,
    value: &BitString,
    out: &mut Vec<u8>,
) -> Result<(), EncodeErrorKind>
    ensures { AppendsLeaf result (Bits (size_bounds constraints) value.now) out.old.items out.new.items }
{
    check_bits(value, constraints)?;
    let octets = value.as_octets();
    if constraints.fixed_size().is_none() {
        return write_behind(unused_for(value.len()), octets, out);
    }
    out.extend_from_slice(octets)?;
    Ok(())
}

/// How many bits are written of the value, if it can be written.
fn named_size(value: &NamedBits, constraints: Constraints) -> Result<usize, EncodeErrorKind>
    ensures { MatchResult result
        (λ size. (size ≡ length (named_bits (size_bounds constraints) value.now)) × (first_failure (Named (size_bounds constraints) value.now) ≡ None))
        (λ e. first_failure (Named (size_bounds constraints) value.now) ≡ Some e) }
{
    let size = value.len().max(least_size(constraints));
    check_string(constraints, size, octets_for(size))?;
    Ok(size)
}

/// Appends the length of so many bits behind it, and the count of unused bits.
fn write_bits_front(size: usize, out: &mut Vec<u8>) -> Result<(), EncodeErrorKind>
    ensures { AppendsOrMemory result (length_octets (octets_for size + 1) ++ unused_for size ∷ []) out.old.items out.new.items }
{
    write_length(octets_for(size) + 1, out)?;
    out.push(unused_for(size))?;
    Ok(())
}

/// Appends the octets, and zeros up to that count.
fn write_filled_up(octets: &[u8], count: usize, out: &mut Vec<u8>) -> Result<(), EncodeErrorKind>
    requires enough { length octets.now ≤ count }
    requires few { count < 2 ^ 62 }
    ensures { AppendsOrMemory result (octets.now ++ replicate (count - length octets.now) 0) out.old.items out.new.items }
{
    let zeros = count - octets.len();
    out.extend_from_slice(octets)?;
    out.resize(out.len() + zeros, 0)?;
    Ok(())
}

/// Appends a BIT STRING with named bits (X.680, 22.7, and X.696, 13.3): its bits, and 0 bits up to the least size that
/// the constraint allows.
///
/// Refused as `write_bit_string` refuses these bits.
pub fn write_named_bits(
    constraints: Constraints,
    value: &NamedBits,
    out: &mut Vec<u8>,
) -> Result<(), EncodeErrorKind>
    ensures done { AppendsLeaf result (Named (size_bounds constraints) value.now) out.old.items out.new.items }
    ensures named { IsNamed value.now }
{
    let octets = value.as_bits().as_octets();
    let size = named_size(value, constraints)?;
    if constraints.fixed_size().is_some() {
        return write_filled_up(octets, octets_for(size), out);
    }
    write_bits_front(size, out)?;
    write_filled_up(octets, octets_for(size), out)
}

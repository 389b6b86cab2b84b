//! Writes a length, and octets behind one (X.696, 8.6).
ghost use Rattle.std.specs.Prelude.{◌≡◌, ◌≤◌, length};
ghost use Rattle.std.specs.Int.Digits.{digits_of};
ghost use Rattle.asn1_core.specs.Octets.{unsigned};
ghost use Rattle.oer_spec.specs.Lengths.{length_octets, behind_length};
ghost use Rattle.oer_spec.specs.Writing.{AppendsOrMemory};

use asn1_core::EncodeErrorKind;

/// The octets from the first on that isn't 00.
#[tactic(auto, using(oer_spec::proofs::Digits::unsigned_zero, oer_spec::proofs::Digits::digits_no_zero, oer_spec::proofs::Digits::tail_octets, oer_spec::proofs::Steps::are_octets))]
pub(crate) fn without_leading_zeros(octets: &[u8]) -> &[u8]
    ensures digits { result.now ≡ digits_of 256 (unsigned octets.now) }
    ensures count { length result.now ≤ length octets.now }
{
    let mut rest = octets;
    while let [first, tail @ ..] = rest {
        if *first != 0 {
            return rest;
        }
        rest = tail;
    }
    rest
}

/// Appends a length: one octet below 128; else an octet 128 + k and the number's k octets (X.696, 8.6).
///
/// Refused only for want of memory.
#[inline(always)]
pub fn write_length(length: usize, out: &mut Vec<u8>) -> Result<(), EncodeErrorKind>
    ensures { AppendsOrMemory result (length_octets length) out.old.items out.new.items }
{
    if length < 128 {
        out.push(length as u8)?;
        return Ok(());
    }
    match write_long_length(length, out) {
        Ok(()) => Ok(()),
        Err(kind) => Err(kind),
    }
}

/// Appends a length that one octet doesn't hold.
#[inline(never)]
fn write_long_length(length: usize, out: &mut Vec<u8>) -> Result<(), EncodeErrorKind>
    requires { 128 ≤ length }
    ensures { AppendsOrMemory result (length_octets length) out.old.items out.new.items }
{
    let octets = (length as u64).to_be_bytes();
    let digits = without_leading_zeros(&octets);
    out.push(128 + digits.len() as u8)?;
    out.extend_from_slice(digits)?;
    Ok(())
}

/// Appends a length and that many octets (X.696, 8.6 and 30).
///
/// Refused only for want of memory.
#[inline(always)]
pub fn write_content(content: &[u8], out: &mut Vec<u8>) -> Result<(), EncodeErrorKind>
    ensures { AppendsOrMemory result (behind_length content.now) out.old.items out.new.items }
{
    if content.len() < 128 {
        out.reserve(content.len() + 1)?;
        out.push(content.len() as u8)?;
        out.extend_from_slice(content)?;
        return Ok(());
    }
    match write_long_content(content, out) {
        Ok(()) => Ok(()),
        Err(kind) => Err(kind),
    }
}

/// Appends a length that one octet doesn't hold, and that many octets. Memory is asked for once.
#[inline(never)]
fn write_long_content(content: &[u8], out: &mut Vec<u8>) -> Result<(), EncodeErrorKind>
    ensures { AppendsOrMemory result (behind_length content.now) out.old.items out.new.items }
{
    out.reserve(content.len().saturating_add(9))?;
    write_length(content.len(), out)?;
    out.extend_from_slice(content)?;
    Ok(())
}

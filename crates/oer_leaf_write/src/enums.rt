//! Writes the number of an enumerated value (X.696, 11).
ghost use Rattle.std.specs.Prelude.{◌≡◌, ◌+◌, ◌++◌, ◌∷◌, true, length};
ghost use Rattle.asn1_core.specs.Numbers.{in_isize, signed_octets};
ghost use Rattle.oer_spec.specs.Tree.{Enum};
ghost use Rattle.oer_spec.specs.Writing.{AppendsOrMemory, AppendsLeaf};

use asn1_core::EncodeErrorKind;
use asn1_ints::shortest_signed;

/// Appends an octet 128 + k and the k shortest octets of the number in two's complement (X.696, 11.4).
#[inline(never)]
fn write_long_enumerated(number: i128, out: &mut Vec<u8>) -> Result<(), EncodeErrorKind>
    requires { in_isize number ≡ true }
    ensures { AppendsOrMemory result ((128 + length (signed_octets number)) ∷ signed_octets number) out.old.items out.new.items }
{
    let all = number.to_be_bytes();
    let octets = shortest_signed(&all);
    out.push(128 + octets.len() as u8)?;
    out.extend_from_slice(octets)?;
    Ok(())
}

/// Appends the number of an enumerated value: one octet from 0 to 127; else an octet 128 + k and the k shortest octets in
/// two's complement (X.696, 11).
///
/// Refused only for want of memory.
#[inline(always)]
pub fn write_enumerated(number: isize, out: &mut Vec<u8>) -> Result<(), EncodeErrorKind>
    ensures { AppendsLeaf result (Enum number) out.old.items out.new.items }
{
    if number >= 0 && number < 128 {
        out.push(number as u8)?;
        return Ok(());
    }
    match write_long_enumerated(number as i128, out) {
        Ok(()) => Ok(()),
        Err(kind) => Err(kind),
    }
}

//! Writes a quantity: how many elements a list has (X.696, 17.2).
ghost use Rattle.std.specs.Prelude.{◌≤◌};
ghost use Rattle.oer_spec.specs.Lengths.{quantity_octets};
ghost use Rattle.oer_spec.specs.Writing.{AppendsOrMemory};

use crate::lengths::{without_leading_zeros, write_content};
use asn1_core::EncodeErrorKind;

/// Appends how many elements a list has: a length, and the shortest octets of the number, at least one (X.696, 17.2).
///
/// Refused only for want of memory.
#[inline(always)]
pub fn write_quantity(quantity: usize, out: &mut Vec<u8>) -> Result<(), EncodeErrorKind>
    ensures { AppendsOrMemory result (quantity_octets quantity) out.old.items out.new.items }
{
    if quantity < 256 {
        out.extend_from_slice(&[1, quantity as u8])?;
        return Ok(());
    }
    match write_long_quantity(quantity, out) {
        Ok(()) => Ok(()),
        Err(kind) => Err(kind),
    }
}

/// Appends a quantity of more than one octet behind its length.
#[inline(never)]
fn write_long_quantity(quantity: usize, out: &mut Vec<u8>) -> Result<(), EncodeErrorKind>
    requires { 256 ≤ quantity }
    ensures { AppendsOrMemory result (quantity_octets quantity) out.old.items out.new.items }
{
    let octets = (quantity as u64).to_be_bytes();
    write_content(without_leading_zeros(&octets), out)
}

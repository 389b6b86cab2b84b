//! Writes a BOOLEAN (X.696, 9).
ghost use Rattle.oer_spec.specs.Tree.{Boolean};
ghost use Rattle.oer_spec.specs.Writing.{AppendsLeaf};

use asn1_core::EncodeErrorKind;

/// Appends a boolean: FF for true and 00 for false (X.696, 9).
///
/// Refused only for want of memory.
#[inline(always)]
pub fn write_bool(value: bool, out: &mut Vec<u8>) -> Result<(), EncodeErrorKind>
    ensures { AppendsLeaf result (Boolean value) out.old.items out.new.items }
{
    out.push(if value { 255 } else { 0 })?;
    Ok(())
}

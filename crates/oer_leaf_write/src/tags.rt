//! Writes a tag (X.696, 8.7).
ghost use Rattle.std.specs.Prelude.{◌≡◌, ◌≤◌, ◌+◌, ◌/◌, ◌%◌, ◌++◌, ◌∷◌, [], map};
ghost use Rattle.std.specs.Int.Digits.{digits_of};
ghost use Rattle.oer_spec.specs.Lengths.{tag_octets};
ghost use Rattle.oer_spec.specs.Writing.{AppendsOrMemory, group_octets};

use asn1_core::{EncodeErrorKind, Tag};

/// Appends the number's groups of seven bits, highest first, each with its top bit set; none for 0.
#[tactic(auto, using(crate::proofs::WriteTags::front_groups))]
fn write_front_groups(number: u64, out: &mut Vec<u8>) -> Result<(), EncodeErrorKind>
    ensures { AppendsOrMemory result (map (λ d. d + 128) (digits_of 128 number)) out.old.items out.new.items }
{
    if number == 0 {
        return Ok(());
    }
    write_front_groups(number / 128, out)?;
    out.push(128 + (number % 128) as u8)?;
    Ok(())
}

/// Appends a number in groups of seven bits, highest first, with the top bit set on all but the last: at least one group.
fn write_groups(number: u64, out: &mut Vec<u8>) -> Result<(), EncodeErrorKind>
    ensures { AppendsOrMemory result (group_octets number) out.old.items out.new.items }
{
    write_front_groups(number / 128, out)?;
    out.push((number % 128) as u8)?;
    Ok(())
}

/// Appends a tag: one octet of the class and the number where that is below 63; else the class and 63, and the number in
/// groups of seven bits, highest first (X.696, 8.7).
///
/// Refused only for want of memory.
#[inline(always)]
pub fn write_tag(tag: Tag, out: &mut Vec<u8>) -> Result<(), EncodeErrorKind>
    ensures { AppendsOrMemory result (tag_octets tag) out.old.items out.new.items }
{
    let class = tag.class.number() * 64;
    if tag.value < 63 {
        out.push(class + tag.value as u8)?;
        return Ok(());
    }
    match write_long_tag(tag, out) {
        Ok(()) => Ok(()),
        Err(kind) => Err(kind),
    }
}

/// Appends a tag whose number one octet doesn't hold.
#[inline(never)]
fn write_long_tag(tag: Tag, out: &mut Vec<u8>) -> Result<(), EncodeErrorKind>
    requires { 63 ≤ tag.value }
    ensures { AppendsOrMemory result (tag_octets tag) out.old.items out.new.items }
{
    out.push(tag.class.number() * 64 + 63)?;
    write_groups(tag.value as u64, out)
}

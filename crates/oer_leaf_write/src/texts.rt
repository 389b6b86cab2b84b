//! Writes octet strings, open types' octets and character strings (X.696, 14, 30 and 27).
ghost use Rattle.std.specs.Prelude.{◌≡◌, ◌/◌, length, MatchResult, Some, None};
ghost use Rattle.asn1_core.specs.Bounds.{size_bounds};
ghost use Rattle.asn1_core.specs.Texts.{Rule, AnyOctets, Utf8};
ghost use Rattle.oer_spec.specs.Leaves.{unit_of};
ghost use Rattle.oer_spec.specs.Tree.{Text, InOctets};
ghost use Rattle.oer_spec.specs.Writing.{AppendsLeaf};
ghost use Rattle.oer_spec.specs.WritingTexts.{string_failure};

use crate::lengths::write_content;
use asn1_core::{Constraints, EncodeErrorKind};
use asn1_strings::{CharacterSet, RestrictedString};

/// Whether a string of that size can be written in `count` octets.
#[inline(always)]
pub(crate) fn check_string(
    constraints: Constraints,
    size: usize,
    count: usize,
) -> Result<(), EncodeErrorKind>
    ensures { MatchResult result
        (λ _. string_failure (size_bounds constraints) size count ≡ None)
        (λ e. string_failure (size_bounds constraints) size count ≡ Some e) }
{
    if !constraints.allows_size(size) {
        return Err(EncodeErrorKind::SizeConstraintNotSatisfied { size });
    }
    if constraints.fixed_size().is_none() && count > usize::MAX / 8 {
        return Err(EncodeErrorKind::LengthExceedsPlatformSize);
    }
    Ok(())
}

/// Appends the octets of a string of that size: under a fixed size themselves, else behind their length.
#[inline(always)]
pub(crate) fn write_string(
    octets: &[u8],
    size: usize,
    constraints: Constraints,
    out: &mut Vec<u8>,
) -> Result<(), EncodeErrorKind>
    ensures { (r : Rule) → size ≡ length octets.now / unit_of r
        → AppendsLeaf result (Text r (size_bounds constraints) (InOctets octets.now)) out.old.items out.new.items }
{
    check_string(constraints, size, octets.len())?;
    if constraints.fixed_size().is_none() {
        return write_content(octets, out);
    }
    out.extend_from_slice(octets)?;
    Ok(())
}

/// Appends an OCTET STRING (X.696, 14).
///
/// Refused, the first that applies: a size that the constraint doesn't allow, as `SizeConstraintNotSatisfied` with the
/// size in octets; above `usize::MAX / 8` octets behind a length, as `LengthExceedsPlatformSize`.
#[inline(always)]
pub fn write_octet_string(
    constraints: Constraints,
    octets: &[u8],
    out: &mut Vec<u8>,
) -> Result<(), EncodeErrorKind>
    ensures { AppendsLeaf result (Text AnyOctets (size_bounds constraints) (InOctets octets.now)) out.old.items out.new.items }
{
    write_string(octets, octets.len(), constraints, out)
}

/// Appends the octets of an open type's content, behind their length (X.696, 30).
///
/// Refused above `usize::MAX / 8` octets, as `LengthExceedsPlatformSize`.
#[inline(always)]
pub fn write_any(octets: &[u8], out: &mut Vec<u8>) -> Result<(), EncodeErrorKind>
    ensures { AppendsLeaf result (Text AnyOctets None (InOctets octets.now)) out.old.items out.new.items }
{
    write_octet_string(Constraints::NONE, octets, out)
}

/// Appends a UTF8String, whose size counts octets (X.696, 27).
///
/// Refused as an octet string is (`write_octet_string`).
#[inline(always)]
pub fn write_utf8(
    constraints: Constraints,
    text: &str,
    out: &mut Vec<u8>,
) -> Result<(), EncodeErrorKind>
    ensures { AppendsLeaf result (Text Utf8 (size_bounds constraints) (InOctets text.now)) out.old.items out.new.items }
{
    write_string(text.as_bytes(), text.len(), constraints, out)
}

/// Appends a restricted character string, whose size counts characters (X.696, 27).
///
/// Refused as an octet string is (`write_octet_string`), with the size in characters.
#[inline(always)]
pub fn write_text<C: CharacterSet>(
    constraints: Constraints,
    text: &RestrictedString<C>,
    out: &mut Vec<u8>,
) -> Result<(), EncodeErrorKind>
    ensures { AppendsLeaf result (Text C.rule (size_bounds constraints) (InOctets text.now)) out.old.items out.new.items }
{
    let octets = text.as_bytes();
    write_string(octets, text.len(), constraints, out)
}

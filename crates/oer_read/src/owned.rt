//! Readers whose value is a copy of octets of the input.

ghost use Rattle.std.specs.Prelude.{string_bytes};
ghost use Rattle.std.specs.Str.{is_utf8};
ghost use Rattle.asn1_core.specs.Bounds.{size_bounds};
ghost use Rattle.asn1_core.specs.Texts.{AnyOctets, Utf8, Obeys, unit_of};
ghost use Rattle.asn1_core.specs.declared.error.DecodeErrorKind.TheVariants.{StringConversionFailed, PermittedAlphabetError};
ghost use Rattle.asn1_strings.specs.Characters.{are_characters};
ghost use Rattle.oer_spec.specs.Leaves.{IsLeafEncoding};
ghost use Rattle.oer_spec.specs.Mode.{mode_of};
ghost use Rattle.oer_spec.specs.Reading.{ReadsFront, seen};
ghost use Rattle.oer_leaf_read.specs.ReadingMemory.{GivesOrMemory};
ghost use Rattle.oer_spec.specs.ReadingTexts.{octet_string_at, text_at, characters_at};
ghost use Rattle.oer_spec.specs.Tree.{Text, InOctets};

use asn1_core::{Codec, Constraints, DecodeErrorKind, Utf8String};
use asn1_strings::{CharacterSet, OctetContent, OctetType, RestrictedString};
use oer_leaf_read::{read_octet_string, read_text, read_utf8};
use std::alloc::Global;

/// Octets at the front, copied, and what is left; refused as `read_octet_string` does, then for want of memory.
#[inline(always)]
pub(crate) fn read_own_octets<K: OctetType>(
    alloc: Global,
    codec: Codec,
    constraints: Constraints,
    input: &[u8],
) -> Result<(OctetContent<K>, &[u8]), DecodeErrorKind>
    ensures function { GivesOrMemory (λ x. (x.0, x.1.now)) result (octet_string_at (size_bounds constraints) codec input.now) }
    ensures relation { ReadsFront
        (λ o c. IsLeafEncoding (mode_of codec) o (Text AnyOctets (size_bounds constraints) (InOctets c)))
        input.now (seen (λ x. (x.0, x.1.now)) result) }
{
    let (octets, rest) = read_octet_string(codec, constraints, input)?;
    let content = OctetContent::from_slice(alloc, octets)?;
    Ok((content, rest))
}

/// A UTF8String at the front, copied, and what is left; refused as `read_utf8` does, then for want of memory.
pub(crate) fn read_own_utf8(
    alloc: Global,
    codec: Codec,
    constraints: Constraints,
    input: &[u8],
) -> Result<(Utf8String, &[u8]), DecodeErrorKind>
    ensures function { GivesOrMemory (λ x. (string_bytes x.0, x.1.now)) result (text_at is_utf8 StringConversionFailed (size_bounds constraints) codec input.now) }
    ensures relation { ReadsFront
        (λ o c. IsLeafEncoding (mode_of codec) o (Text Utf8 (size_bounds constraints) (InOctets c)) × Obeys Utf8 c)
        input.now (seen (λ x. (string_bytes x.0, x.1.now)) result) }
{
    let (text, rest) = read_utf8(codec, constraints, input)?;
    let string = String::from_str(alloc, text)?;
    Ok((string, rest))
}

/// A restricted character string at the front, copied, and what is left; refused as `read_text` does, then for want of
/// memory.
pub(crate) fn read_own_text<C: CharacterSet>(
    alloc: Global,
    codec: Codec,
    constraints: Constraints,
    input: &[u8],
) -> Result<(RestrictedString<C>, &[u8]), DecodeErrorKind>
    ensures function { GivesOrMemory (λ x. (x.0, x.1.now)) result
        (characters_at (unit_of C.rule) (are_characters (unit_of C.rule) C.permitted) (size_bounds constraints) codec input.now) }
    ensures relation { ReadsFront
        (λ o c. IsLeafEncoding (mode_of codec) o (Text C.rule (size_bounds constraints) (InOctets c)) × Obeys C.rule c)
        input.now (seen (λ x. (x.0, x.1.now)) result) }
{
    let (octets, rest) = read_text::<C>(codec, constraints, input)?;
    let string = RestrictedString::from_text(alloc, octets)?;
    Ok((string, rest))
}

//! Reads octet strings, open types' octets and character strings (X.696, 14, 30 and 27).
ghost use Rattle.std.specs.Prelude.{IfErr, None};
ghost use Rattle.asn1_core.specs.Bounds.{size_bounds};
ghost use Rattle.asn1_core.specs.Texts.{AnyOctets, Utf8, Obeys, unit_of};
ghost use Rattle.asn1_strings.specs.Characters.{are_characters};
ghost use Rattle.asn1_core.specs.declared.error.DecodeErrorKind.TheVariants.{StringConversionFailed, PermittedAlphabetError};
ghost use Rattle.oer_spec.specs.Leaves.{IsLeafEncoding};
ghost use Rattle.oer_spec.specs.Mode.{mode_of};
ghost use Rattle.oer_spec.specs.Reading.{Gives, seen, ReadsFront, IsNotForMemory};
ghost use Rattle.oer_spec.specs.ReadingTexts.{string_at, octet_string_at, text_at, many_units_at, units_at, characters_at, tested};
ghost use Rattle.std.specs.Str.{is_utf8};
ghost use Rattle.oer_spec.specs.Tree.{Text, InOctets};

use crate::lengths::read_length;
use crate::parts::read_octets;
use crate::places::refuse_if;
use asn1_core::{Codec, Constraints, DecodeErrorKind};
use asn1_strings::{CharacterSet, RestrictedString};
use std::str;

/// A length, and that many octets of a string.
#[inline(always)]
#[tactic(auto, unfolding(oer_spec::specs::ReadingTexts::string_at))]
pub(crate) fn read_string(codec: Codec, input: &[u8]) -> Result<(&[u8], &[u8]), DecodeErrorKind>
    ensures function { Gives (λ x. (x.0.now, x.1.now)) result (string_at codec input.now) }
    ensures memory { IfErr result IsNotForMemory }
{
    let (count, rest) = read_length(codec, input)?;
    refuse_if(
        count > usize::MAX / 8,
        DecodeErrorKind::LengthExceedsPlatformWidth,
    )?;
    read_octets(count, rest)
}

#[inline(always)]
#[tactic(auto, unfolding(oer_spec::specs::ReadingTexts::octet_string_at))]
fn octet_string(
    codec: Codec,
    constraints: Constraints,
    input: &[u8],
) -> Result<(&[u8], &[u8]), DecodeErrorKind>
    ensures function { Gives (λ x. (x.0.now, x.1.now)) result (octet_string_at (size_bounds constraints) codec input.now) }
    ensures memory { IfErr result IsNotForMemory }
{
    if let Some(size) = constraints.fixed_size() {
        return read_octets(size, input);
    }
    let (octets, rest) = read_string(codec, input)?;
    let size = octets.len();
    refuse_if(
        !constraints.allows_size(size),
        DecodeErrorKind::SizeConstraintNotSatisfied { size },
    )?;
    Ok((octets, rest))
}

/// The octets of an OCTET STRING at the front, borrowed from the input, and what is left (X.696, 14).
///
/// Under a fixed size as many octets, else a length and that many. Refused, the first that applies: as the length is
/// (`read_length`); a length above `usize::MAX / 8`, as `LengthExceedsPlatformWidth`; `Incomplete` by as many octets as
/// are missing; a size that the constraint doesn't allow, as `SizeConstraintNotSatisfied` with the size in octets.
#[inline(always)]
pub fn read_octet_string(
    codec: Codec,
    constraints: Constraints,
    input: &[u8],
) -> Result<(&[u8], &[u8]), DecodeErrorKind>
    ensures function { Gives (λ x. (x.0.now, x.1.now)) result (octet_string_at (size_bounds constraints) codec input.now) }
    ensures relation { ReadsFront
        (λ o c. IsLeafEncoding (mode_of codec) o (Text AnyOctets (size_bounds constraints) (InOctets c)))
        input.now (seen (λ x. (x.0.now, x.1.now)) result) }
    ensures memory { IfErr result IsNotForMemory }
{
    octet_string(codec, constraints, input)
}

/// The octets of an open type's content at the front, borrowed from the input, and what is left (X.696, 30).
///
/// A length and that many octets. Refused as an octet string without constraints is (`read_octet_string`).
pub fn read_any(codec: Codec, input: &[u8]) -> Result<(&[u8], &[u8]), DecodeErrorKind>
    ensures function { Gives (λ x. (x.0.now, x.1.now)) result (octet_string_at None codec input.now) }
    ensures relation { ReadsFront
        (λ o c. IsLeafEncoding (mode_of codec) o (Text AnyOctets None (InOctets c)))
        input.now (seen (λ x. (x.0.now, x.1.now)) result) }
    ensures memory { IfErr result IsNotForMemory }
{
    read_octet_string(codec, Constraints::NONE, input)
}

/// The octets as a text, where they are UTF-8.
fn text_of(octets: &[u8]) -> Result<&str, DecodeErrorKind>
    ensures { Gives (λ s. s.now) result (tested is_utf8 StringConversionFailed octets.now) }
{
    match str::from_utf8(octets) {
        Ok(text) => Ok(text),
        Err(_) => Err(DecodeErrorKind::StringConversionFailed),
    }
}

#[tactic(auto, unfolding(oer_spec::specs::ReadingTexts::text_at))]
fn utf8_text(
    codec: Codec,
    constraints: Constraints,
    input: &[u8],
) -> Result<(&str, &[u8]), DecodeErrorKind>
    ensures function { Gives (λ x. (x.0.now, x.1.now)) result (text_at is_utf8 StringConversionFailed (size_bounds constraints) codec input.now) }
    ensures memory { IfErr result IsNotForMemory }
{
    let (octets, rest) = octet_string(codec, constraints, input)?;
    let text = text_of(octets)?;
    Ok((text, rest))
}

/// The UTF8String at the front, borrowed from the input, and what is left (X.696, 27).
///
/// Sizes count octets. Refused as an octet string is (`read_octet_string`); then octets that are no UTF-8, as
/// `StringConversionFailed`.
pub fn read_utf8(
    codec: Codec,
    constraints: Constraints,
    input: &[u8],
) -> Result<(&str, &[u8]), DecodeErrorKind>
    ensures function { Gives (λ x. (x.0.now, x.1.now)) result (text_at is_utf8 StringConversionFailed (size_bounds constraints) codec input.now) }
    ensures relation { ReadsFront
        (λ o c. IsLeafEncoding (mode_of codec) o (Text Utf8 (size_bounds constraints) (InOctets c)) × Obeys Utf8 c)
        input.now (seen (λ x. (x.0.now, x.1.now)) result) }
    ensures memory { IfErr result IsNotForMemory }
{
    utf8_text(codec, constraints, input)
}

#[tactic(auto, unfolding(oer_spec::specs::ReadingTexts::text_at))]
fn text<C: CharacterSet>(
    codec: Codec,
    constraints: Constraints,
    input: &[u8],
) -> Result<(&[u8], &[u8]), DecodeErrorKind>
    ensures function { Gives (λ x. (x.0.now, x.1.now)) result
        (text_at (are_characters (unit_of C.rule) C.permitted) PermittedAlphabetError (size_bounds constraints) codec input.now) }
    ensures memory { IfErr result IsNotForMemory }
{
    let (octets, rest) = octet_string(codec, constraints, input)?;
    refuse_if(
        !RestrictedString::<C>::is_text(octets),
        DecodeErrorKind::PermittedAlphabetError,
    )?;
    Ok((octets, rest))
}

/// The octets of so many characters.
fn read_units<C: CharacterSet>(size: usize, input: &[u8]) -> Result<(&[u8], &[u8]), DecodeErrorKind>
    ensures function { Gives (λ x. (x.0.now, x.1.now)) result (many_units_at (unit_of C.rule) size input.now) }
    ensures memory { IfErr result IsNotForMemory }
{
    match size.checked_mul(C::OCTETS_PER_CHARACTER) {
        Some(count) => read_octets(count, input),
        None => Err(DecodeErrorKind::LengthExceedsPlatformWidth),
    }
}

#[tactic(auto, unfolding(oer_spec::specs::ReadingTexts::units_at))]
fn units<C: CharacterSet>(
    codec: Codec,
    constraints: Constraints,
    input: &[u8],
) -> Result<(&[u8], &[u8]), DecodeErrorKind>
    ensures function { Gives (λ x. (x.0.now, x.1.now)) result
        (units_at (unit_of C.rule) (are_characters (unit_of C.rule) C.permitted) (size_bounds constraints) codec input.now) }
    ensures memory { IfErr result IsNotForMemory }
{
    if let Some(size) = constraints.fixed_size() {
        return read_units::<C>(size, input);
    }
    let (octets, rest) = read_string(codec, input)?;
    refuse_if(
        !RestrictedString::<C>::is_text(octets),
        DecodeErrorKind::PermittedAlphabetError,
    )?;
    let size = octets.len() / C::OCTETS_PER_CHARACTER;
    refuse_if(
        !constraints.allows_size(size),
        DecodeErrorKind::SizeConstraintNotSatisfied { size },
    )?;
    Ok((octets, rest))
}

#[tactic(auto, unfolding(oer_spec::specs::ReadingTexts::characters_at))]
fn characters<C: CharacterSet>(
    codec: Codec,
    constraints: Constraints,
    input: &[u8],
) -> Result<(&[u8], &[u8]), DecodeErrorKind>
    ensures function { Gives (λ x. (x.0.now, x.1.now)) result
        (characters_at (unit_of C.rule) (are_characters (unit_of C.rule) C.permitted) (size_bounds constraints) codec input.now) }
    ensures memory { IfErr result IsNotForMemory }
{
    if C::OCTETS_PER_CHARACTER == 1 {
        text::<C>(codec, constraints, input)
    } else {
        units::<C>(codec, constraints, input)
    }
}

/// The octets of a restricted character string at the front, borrowed from the input, and what is left (X.696, 27).
///
/// Sizes count characters: octets, or in a BMPString two octets each and in a UniversalString four. Refused, of one octet
/// a character: as an octet string is (`read_octet_string`); then a character outside the alphabet, as
/// `PermittedAlphabetError`. Refused, of the two others: under a fixed size more octets than `usize::MAX`, as
/// `LengthExceedsPlatformWidth`, then `Incomplete` by as many octets as are missing; else as the length is, a length above
/// `usize::MAX / 8` as `LengthExceedsPlatformWidth`, `Incomplete`, a part of a character as `PermittedAlphabetError`, and
/// a size that the constraint doesn't allow as `SizeConstraintNotSatisfied` with the size in characters.
pub fn read_text<C: CharacterSet>(
    codec: Codec,
    constraints: Constraints,
    input: &[u8],
) -> Result<(&[u8], &[u8]), DecodeErrorKind>
    ensures function { Gives (λ x. (x.0.now, x.1.now)) result
        (characters_at (unit_of C.rule) (are_characters (unit_of C.rule) C.permitted) (size_bounds constraints) codec input.now) }
    ensures relation { ReadsFront
        (λ o c. IsLeafEncoding (mode_of codec) o (Text C.rule (size_bounds constraints) (InOctets c)) × Obeys C.rule c)
        input.now (seen (λ x. (x.0.now, x.1.now)) result) }
    ensures memory { IfErr result IsNotForMemory }
{
    characters::<C>(codec, constraints, input)
}

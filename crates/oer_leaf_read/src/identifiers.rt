//! Reads an OBJECT IDENTIFIER (X.696, 21).
ghost use Rattle.std.specs.Prelude.{◌≡◌, true, None, IfOk};
ghost use Rattle.asn1_core.specs.Texts.{Identifier};
ghost use Rattle.asn1_core.specs.declared.error.DecodeErrorKind.TheVariants.{InvalidObjectIdentifier};
ghost use Rattle.asn1_strings.specs.Identifiers.{is_identifier, arcs_octets};
ghost use Rattle.oer_spec.specs.Leaves.{IsLeafEncoding};
ghost use Rattle.oer_spec.specs.Mode.{mode_of};
ghost use Rattle.oer_spec.specs.Reading.{seen, ReadsFront};
ghost use Rattle.oer_leaf_read.specs.ReadingMemory.{GivesOrMemory};
ghost use Rattle.oer_spec.specs.ReadingTexts.{text_at, tested, are_contents};
ghost use Rattle.oer_spec.specs.Tree.{Text, InOctets};

use crate::texts::read_any;
use asn1_core::{Codec, DecodeError, DecodeErrorKind};
use asn1_strings::{ObjectIdentifier, object_identifier_from_bytes};
use std::alloc::Global;

/// The identifier of contents octets.
fn identifier_of(
    alloc: Global,
    codec: Codec,
    octets: &[u8],
) -> Result<ObjectIdentifier, DecodeErrorKind>
    ensures function { GivesOrMemory arcs_octets result (tested are_contents InvalidObjectIdentifier octets.now) }
    ensures identifier { IfOk result (λ i. is_identifier i ≡ true) }
{
    match object_identifier_from_bytes(alloc, octets, codec) {
        Ok(value) => Ok(value),
        Err(DecodeError { kind, .. }) => Err(kind),
    }
}

#[tactic(auto, unfolding(oer_spec::specs::ReadingTexts::text_at))]
fn identifier(
    alloc: Global,
    codec: Codec,
    input: &[u8],
) -> Result<(ObjectIdentifier, &[u8]), DecodeErrorKind>
    ensures function { GivesOrMemory (λ x. (arcs_octets x.0, x.1.now)) result (text_at are_contents InvalidObjectIdentifier None codec input.now) }
    ensures identifier { IfOk result (λ x. is_identifier x.0 ≡ true) }
{
    let (octets, rest) = read_any(codec, input)?;
    let value = identifier_of(alloc, codec, octets)?;
    Ok((value, rest))
}

/// The OBJECT IDENTIFIER at the front, and what is left (X.696, 21; X.690, 8.19).
///
/// Refused as an octet string without constraints is (`read_octet_string`); then octets that are those of no
/// identifier, as `InvalidObjectIdentifier`: none, a part that begins with the octet 80, a last octet with its top bit
/// set, or an arc past `u32::MAX`. Want of memory may come before that, as `OutOfMemory`.
pub fn read_object_identifier(
    alloc: Global,
    codec: Codec,
    input: &[u8],
) -> Result<(ObjectIdentifier, &[u8]), DecodeErrorKind>
    ensures function { GivesOrMemory (λ x. (arcs_octets x.0, x.1.now)) result (text_at are_contents InvalidObjectIdentifier None codec input.now) }
    ensures relation { ReadsFront
        (λ o arcs. IsLeafEncoding (mode_of codec) o (Text Identifier None (InOctets (arcs_octets arcs))) × (is_identifier arcs ≡ true))
        input.now (seen (λ x. (x.0, x.1.now)) result) }
{
    identifier(alloc, codec, input)
}

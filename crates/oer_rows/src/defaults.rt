//! Components with a DEFAULT that are read: the default is made only where nothing is spelled.
ghost use Rattle.oer_rows.specs.DefaultValues.{Settles, AsksDefaultValue, AddsDefaultValue};

use crate::additions::read_addition;
use crate::places::DefaultValue;
use asn1_core::{Codec, DecodeError, DecodeErrorKind, Tag};
use oer_read::{Decode, Decoder};
use oer_spec::Spelled;
use std::alloc::Global;

/// What a component's value is, of what is spelled: the default `D` where that is nothing.
///
/// Refused: the default, for want of memory where it takes any; a value that is equal to it in canonical mode, as `NotValidCanonicalEncoding` (X.696, 16.2
/// and 18).
#[inline(always)]
fn settled<D: DefaultValue<B>, B: Spelled + PartialEq>(
    alloc: Global,
    codec: Codec,
    spelled: Option<B>,
) -> Result<B, DecodeError>
    ensures { Settles D.wants_memory B.eq D.value codec spelled result }
{
    match spelled {
        None => match D::value(alloc) {
            Ok(default) => Ok(default),
            Err(_) => Err(DecodeErrorKind::OutOfMemory.with_codec(codec)),
        },
        Some(value) => match codec {
            Codec::Oer => Ok(value),
            Codec::Coer => {
                if D::is_value(&value) {
                    Err(DecodeErrorKind::NotValidCanonicalEncoding.with_codec(codec))
                } else {
                    Ok(value)
                }
            }
        },
    }
}

/// Reads a root component with the DEFAULT `D` under its type's constraints.
///
/// Refused as an optional component is; then as `settled` refuses.
#[inline(always)]
pub fn read_default<D: DefaultValue<B>, B: Decode + PartialEq>(
    alloc: Global,
    decoder: &mut Decoder<'_>,
    tag: Tag,
) -> Result<B, DecodeError>
    ensures { AsksDefaultValue (B.tree B.CONSTRAINTS) B.IsValue (B.Answered B.CONSTRAINTS) B.eq D.wants_memory decoder.old tag D.value result decoder.new }
{
    let codec = decoder.codec();
    let spelled = decoder.decode_optional_with_tag::<B>(alloc, tag)?;
    settled::<D, B>(alloc, codec, spelled)
}

/// Reads an addition with the DEFAULT `D` under its type's constraints.
///
/// Refused as an optional addition is; then as `settled` refuses.
#[inline(always)]
pub(crate) fn read_default_addition<D: DefaultValue<B>, B: Decode + PartialEq>(
    alloc: Global,
    decoder: &mut Decoder<'_>,
    tag: Tag,
) -> Result<B, DecodeError>
    ensures { AddsDefaultValue (B.tree B.CONSTRAINTS) B.IsValue (B.Answered B.CONSTRAINTS) B.eq D.wants_memory decoder.old tag D.value result decoder.new }
{
    let codec = decoder.codec();
    let spelled = read_addition::<B>(alloc, decoder, tag)?;
    settled::<D, B>(alloc, codec, spelled)
}

//! The components of a sequence, written one by one.
ghost use Rattle.std.specs.Prelude.{◌≡◌, true, false, OnOk, IfErr, IfSome};
ghost use Rattle.oer_spec.specs.Tree.{NoRows, Struct, slot_of, present_unless};
ghost use Rattle.oer_write.specs.Written.{Encodes, Refused};
ghost use Rattle.oer_read.specs.Defaults.{IsDefault};
ghost use Rattle.oer_write.specs.Rows.{WritesRows, InSequence, InSet, required, optional, defaulted};

use crate::places::DefaultValue;
use asn1_core::{Constructed, EncodeError, Tag};
use oer_spec::Spelled;
use oer_write::{Encode, Encoder};

/// Writes a required component (X.696, 16).
///
/// Refused by what the value is refused by.
#[inline(always)]
pub fn put_required<E: Encode>(
    encoder: &mut Encoder<'_>,
    tag: Tag,
    value: &E,
) -> Result<(), EncodeError>
    ensures in_sequence { InSequence (required tag (E.tree E.CONSTRAINTS value.now)) NoRows encoder.old result encoder.new }
    ensures in_set { InSet (required tag (E.tree E.CONSTRAINTS value.now)) NoRows encoder.old result encoder.new }
    ensures value { OnOk result (E.IsValue value.now) }
{
    encoder.encode_component(tag, E::CONSTRAINTS, value)
}

/// Writes an OPTIONAL component: its presence bit, and the value that is there.
///
/// Refused by what the value is refused by.
#[inline(always)]
pub fn put_optional<E: Encode>(
    encoder: &mut Encoder<'_>,
    tag: Tag,
    value: &Option<E>,
) -> Result<(), EncodeError>
    ensures in_sequence { InSequence (optional tag (slot_of (E.tree E.CONSTRAINTS) value.now)) NoRows encoder.old result encoder.new }
    ensures in_set { InSet (optional tag (slot_of (E.tree E.CONSTRAINTS) value.now)) NoRows encoder.old result encoder.new }
    ensures value { OnOk result (IfSome value.now E.IsValue) }
{
    match value {
        Some(value) => encoder.encode_some_with_tag_and_constraints(tag, E::CONSTRAINTS, value),
        None => encoder.encode_none_with_tag(tag),
    }
}

/// Writes a component of a sequence with the DEFAULT `D` (X.696, 16): nothing but its presence bit where the value equals
/// it.
///
/// It doesn't ask what scope is open: as a set closes, what it wrote is dropped. Refused by what the value is refused by,
/// or for want of memory; the octets of before and the open scopes stay.
#[inline(always)]
pub fn put_default<D: DefaultValue<E>, E: Encode + PartialEq>(
    encoder: &mut Encoder<'_>,
    tag: Tag,
    value: &E,
) -> Result<(), EncodeError>
    ensures written { WritesRows (defaulted tag (E.tree E.CONSTRAINTS D.value) (present_unless (E.eq value.now D.value) (E.tree E.CONSTRAINTS value.now))) NoRows encoder.old result encoder.new }
    ensures value { E.eq value.now D.value ≡ false → OnOk result (E.IsValue value.now) }
    ensures known { IsDefault (E.tree E.CONSTRAINTS) E.IsValue E.eq D.value }
{
    let is_spelled = !D::is_value(value);
    encoder.encode_optional_in_sequence(tag, is_spelled.then_some(value))
}

/// Writes an OPTIONAL extension addition, one that is there as an open type (X.696, 16.4 and 30).
///
/// Refused by what the value is refused by.
#[inline(always)]
pub fn put_optional_addition<E: Encode>(
    encoder: &mut Encoder<'_>,
    tag: Tag,
    value: &Option<E>,
) -> Result<(), EncodeError>
    ensures written { WritesRows NoRows (optional tag (slot_of (E.tree E.CONSTRAINTS) value.now)) encoder.old result encoder.new }
    ensures in_set { InSet NoRows (optional tag (slot_of (E.tree E.CONSTRAINTS) value.now)) encoder.old result encoder.new }
    ensures value { OnOk result (IfSome value.now E.IsValue) }
{
    encoder.encode_optional_addition(tag, value.as_ref())
}

/// Writes a required extension addition as an open type (X.696, 16.4 and 30).
///
/// Refused by what the value is refused by.
#[inline(always)]
pub fn put_required_addition<E: Encode>(
    encoder: &mut Encoder<'_>,
    tag: Tag,
    value: &E,
) -> Result<(), EncodeError>
    ensures written { WritesRows NoRows (required tag (E.tree E.CONSTRAINTS value.now)) encoder.old result encoder.new }
    ensures value { OnOk result (E.IsValue value.now) }
{
    encoder.encode_optional_addition(tag, Some(value))
}

/// Writes an extension addition with the DEFAULT `D`: nothing but its bit of the bitmap where the value equals it.
///
/// Refused by what the value is refused by.
#[inline(always)]
pub fn put_default_addition<D: DefaultValue<E>, E: Encode + PartialEq>(
    encoder: &mut Encoder<'_>,
    tag: Tag,
    value: &E,
) -> Result<(), EncodeError>
    ensures written { WritesRows NoRows (defaulted tag (E.tree E.CONSTRAINTS D.value) (present_unless (E.eq value.now D.value) (E.tree E.CONSTRAINTS value.now))) encoder.old result encoder.new }
    ensures value { E.eq value.now D.value ≡ false → OnOk result (E.IsValue value.now) }
    ensures known { IsDefault (E.tree E.CONSTRAINTS) E.IsValue E.eq D.value }
{
    let spelled = if D::is_value(value) {
        None
    } else {
        Some(value)
    };
    encoder.encode_optional_addition(tag, spelled)
}

/// Writes an addition group that is there as an open type (X.696, 16.4 and 30).
///
/// Refused by what a component of the group is refused by.
#[inline(always)]
pub fn put_group<E: Encode>(encoder: &mut Encoder<'_>, value: &Option<E>) -> Result<(), EncodeError>
    ensures written { WritesRows NoRows (optional E.TAG (slot_of (E.tree E.CONSTRAINTS) value.now)) encoder.old result encoder.new }
    ensures value { OnOk result (IfSome value.now E.IsValue) }
{
    encoder.encode_extension_addition_group(value.as_ref())
}

/// A type whose components are written one by one.
pub trait Writes: Spelled {
    ghost use Rattle.oer_spec.specs.Tree.{Rows};

    ghost roots: { Self → Rows };

    ghost additions: { Self → Rows };

    /// Writes the components, root ones first, inside the scope of a sequence (X.696, 16): `Ok` only for an admitted
    /// value.
    ///
    /// Refused by what a component is refused by.
    fn put(&self, encoder: &mut Encoder<'_>) -> Result<(), EncodeError>
        ensures written { InSequence (roots self.now) (additions self.now) encoder.old result encoder.new }
        ensures value { OnOk result (Self.IsValue self.now) };
}

/// Writes a SEQUENCE (X.696, 16) by the rows of its value, with the tables of `C`: by the law of writing.
///
/// Refused by what a component is refused by, or for want of memory.
#[inline(always)]
pub fn encode_rows<const RC: usize, const EC: usize, C: Constructed<RC, EC>, T: Writes>(
    value: &T,
    encoder: &mut Encoder<'_>,
    tag: Tag,
) -> Result<(), EncodeError>
    ensures done { OnOk result (Encodes (Struct false C.IS_EXTENSIBLE (T.roots value.now) (T.additions value.now)) encoder.old encoder.new) }
    ensures value { OnOk result (T.IsValue value.now) }
    ensures refused { IfErr result (λ x. Refused (Struct false C.IS_EXTENSIBLE (T.roots value.now) (T.additions value.now)) x encoder.old encoder.new) }
{
    encoder.encode_sequence::<RC, EC, C, _>(
        tag,
        |encoder: &mut Encoder<'_>| -> Result<(), EncodeError>
            ensures written { InSequence (T.roots value.entry.now) (T.additions value.entry.now) encoder.old result encoder.new }
            ensures value { OnOk result (T.IsValue value.entry.now) }
        { value.put(encoder) },
    )
}

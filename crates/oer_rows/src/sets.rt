//! Sets of the components of a type, which stand in its row in the order of their tags.

use crate::rowed::Takes;
use crate::sequences::{Sequence, Tabled};
use crate::writing::{Writes, encode_rows};
use asn1_core::{AsnType, Constraints, Constructed, DecodeError, EncodeError, Field, Fields, Tag};
use oer_read::{Decode, Decoder};
use oer_spec::Spelled;
use oer_write::{Encode, Encoder};
use std::alloc::Global;
use std::fmt::{self, Debug};

/// Where the root components of a type's row stand in its ASN.1.
pub trait TextOrder {
    ghost use Rattle.std.specs.Prelude.{ℕ, List};

    ghost places: { List ℕ };
}

/// A type whose root components stand in its row in the order of their tags (X.680, 8.6), no tag twice, and in the table of
/// its SET in the order of its ASN.1.
///
/// The order of a SET's components in its ASN.1 says nothing, so any set has such a row. Octets have a set's components in
/// this order (X.696, 18): as those of the SEQUENCE of the row.
pub trait InTagOrder<const RC: usize, const EC: usize>: Tabled<RC, EC> + TextOrder {
    ghost use Rattle.std.specs.Prelude.{◌≡◌, map};
    ghost use Rattle.asn1_core.specs.Rows.{row};
    ghost use Rattle.oer_rows.specs.Sets.{IsInTagOrder, set_fields};

    /// The root components, in the order of the type's ASN.1.
    const SET_FIELDS: Fields<RC>;

    /// The rows of `SET_FIELDS`: the row's own, by their places.
    fn text_fields() -> &'static [Field<'static>]
        ensures { map row result.now ≡ set_fields Self.places Self.row_schema };

    ghost in_order: { IsInTagOrder Self.row_schema };
}

/// The SET (X.680, clause 27) of the components of `T`, with `RC` root components and `EC` extension additions.
#[derive(Clone, PartialEq, Eq, Drop)]
pub struct Set<T, const RC: usize, const EC: usize>(pub T);

/// Shows its components as they are.
impl<T: Debug, const RC: usize, const EC: usize> Debug for Set<T, RC, EC> {
    fn fmt<W: fmt::Write>(&self, f: &mut fmt::Formatter<W>) -> fmt::Result {
        self.0.fmt(f)
    }
}

impl<const RC: usize, const EC: usize, T: InTagOrder<RC, EC>> AsnType for Set<T, RC, EC> {
    ghost use Rattle.std.specs.Prelude.{refl};
    ghost use Rattle.asn1_core.specs.declared.tag.TheConstants.Tag.{SET};
    ghost use Rattle.asn1_core.specs.declared.constraints.TheConstants.Constraints.{NONE};

    ghost TAG = { SET };

    const TAG: Tag = Tag::SET;

    ghost CONSTRAINTS = { NONE };

    const CONSTRAINTS: Constraints = Constraints::NONE;

    ghost consistent = { refl };

    // said again, since the trait's own would ask that a `T` is not too large
    const IS_CHOICE: bool = false;
}

impl<const RC: usize, const EC: usize, T: InTagOrder<RC, EC>> Constructed<RC, EC>
    for Set<T, RC, EC> {
    ghost use Rattle.std.specs.Prelude.{true};
    ghost use Rattle.oer_rows.specs.Sets.{set_fields, set_tables};

    ghost is_set = { true };

    ghost root_rows = { set_fields T.places T.row_schema };

    ghost addition_rows = { T.row_schema.additions.fields 0 };

    ghost IS_EXTENSIBLE = { T.EXTENSIBLE };

    const IS_EXTENSIBLE: bool = T::EXTENSIBLE;

    const FIELDS: Fields<RC> = T::SET_FIELDS;

    const EXTENDED_FIELDS: Option<Fields<EC>> = T::EXTENDED_FIELDS;

    fn root_fields() -> &'static [Field<'static>] {
        T::text_fields()
    }

    fn addition_fields() -> &'static [Field<'static>] {
        T::addition_fields()
    }

    ghost tables = { set_tables T.places T.row_schema T.EXTENSIBLE T.row_is_schema T.in_order RC EC T.counts.0 T.counts.1 };
}

impl<const RC: usize, const EC: usize, T: InTagOrder<RC, EC>> Spelled for Set<T, RC, EC> {
    ghost use Rattle.oer_rows.specs.Sets.{IsInSet, set_of, set_is, set_like};

    ghost tree = { λ c v. set_of T.places T.row_schema T.EXTENSIBLE (T.components v.0) };

    ghost IsValue = { λ v. IsInSet T.row_schema (T.components v.0) };

    ghost is_tree = { λ c k v i. set_is T.places T.row_schema T.EXTENSIBLE T.row_is_schema (T.components v.0) i };

    ghost alike = { λ c k v w i j. set_like T.places T.row_schema T.EXTENSIBLE T.row_is_schema (T.components v.0) (T.components w.0) i j };
}

impl<const RC: usize, const EC: usize, T: InTagOrder<RC, EC>> Writes for Set<T, RC, EC> {
    ghost roots = { λ v. T.row_schema.roots.rows (T.components v.0) };

    ghost additions = { λ v. T.row_schema.additions.rows (T.components v.0) };

    #[inline(always)]
    fn put(&self, encoder: &mut Encoder<'_>) -> Result<(), EncodeError> {
        self.0.put(encoder)
    }
}

impl<const RC: usize, const EC: usize, T: InTagOrder<RC, EC>> Encode for Set<T, RC, EC> {
    fn encode_with_tag_and_constraints(
        &self,
        encoder: &mut Encoder<'_>,
        tag: Tag,
        _constraints: Constraints,
    ) -> Result<(), EncodeError> {
        encode_rows::<RC, EC, Set<T, RC, EC>, Set<T, RC, EC>>(self, encoder, tag)
    }
}

impl<const RC: usize, const EC: usize, T: InTagOrder<RC, EC> + Takes> Decode for Set<T, RC, EC> {
    ghost use Rattle.oer_rows.specs.Refusals.{RowAnswers};

    ghost Answered = { λ c s r t. RowAnswers T.row_schema T.EXTENSIBLE T.Refuses s r };

    fn decode_with_tag_and_constraints(
        alloc: Global,
        decoder: &mut Decoder<'_>,
        tag: Tag,
        constraints: Constraints,
    ) -> Result<Set<T, RC, EC>, DecodeError> {
        match Sequence::<T, RC, EC>::decode_with_tag_and_constraints(
            alloc,
            decoder,
            tag,
            constraints,
        ) {
            Ok(sequence) => Ok(Set(sequence.0)),
            Err(e) => Err(e),
        }
    }
}

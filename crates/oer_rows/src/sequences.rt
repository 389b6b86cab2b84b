//! Sequences of the components of a type: every impl of a codec's traits is the library's.

use crate::reading::decode_row;
use crate::rowed::{Rowed, Takes};
use crate::writing::{Writes, encode_rows};
use asn1_core::{AsnType, Constraints, Constructed, DecodeError, EncodeError, Field, Fields, Tag};
use oer_read::{Decode, Decoder};
use oer_spec::Spelled;
use oer_write::{Encode, Encoder};
use std::alloc::Global;
use std::fmt::{self, Debug};

/// What a type says beside its row to be the content of a `Sequence`: its tables, and its components as its row writes
/// them.
pub trait Tabled<const RC: usize, const EC: usize>: Rowed + Drop {
    ghost use Rattle.std.specs.Prelude.{◌≡◌, length, map, OnOk};
    ghost use Rattle.asn1_core.specs.Rows.{row};
    ghost use Rattle.oer_write.specs.Rows.{InSequence};
    ghost use Rattle.oer_rows.specs.Schema.{IsOf};

    /// The root components, in the order of the row.
    const FIELDS: Fields<RC>;

    /// The extension additions, where the row is extensible.
    const EXTENDED_FIELDS: Option<Fields<EC>>;

    /// The rows of `FIELDS`: the row's own.
    fn root_fields() -> &'static [Field<'static>]
        ensures { map row result.now ≡ Self.row_schema.roots.fields 0 };

    /// The rows of `EXTENDED_FIELDS`, none where it is absent: the row's own.
    fn addition_fields() -> &'static [Field<'static>]
        ensures { map row result.now ≡ Self.row_schema.additions.fields 0 };

    /// Writes the components, by `Views::write` of the row: `Ok` only for admitted values.
    ///
    /// Refused by what a component is refused by.
    fn put(&self, encoder: &mut Encoder<'_>) -> Result<(), EncodeError>
        ensures written { InSequence (Self.row_schema.roots.rows (Self.components self.now)) (Self.row_schema.additions.rows (Self.components self.now)) encoder.old result encoder.new }
        ensures value { OnOk result (IsOf Self.row_schema (Self.components self.now)) };

    ghost counts: { (length (Self.row_schema.roots.fields 0) ≡ RC) × (length (Self.row_schema.additions.fields 0) ≡ EC) };
}

/// The SEQUENCE (X.680, clause 25) of the components of `T`, with `RC` root components and `EC` extension additions.
#[derive(Clone, PartialEq, Eq, Drop)]
pub struct Sequence<T, const RC: usize, const EC: usize>(pub T);

/// Shows its components as they are.
impl<T: Debug, const RC: usize, const EC: usize> Debug for Sequence<T, RC, EC> {
    fn fmt<W: fmt::Write>(&self, f: &mut fmt::Formatter<W>) -> fmt::Result {
        self.0.fmt(f)
    }
}

impl<const RC: usize, const EC: usize, T: Tabled<RC, EC>> Rowed for Sequence<T, RC, EC> {
    type Values = T::Values;

    ghost EXTENSIBLE = { T.EXTENSIBLE };

    const EXTENSIBLE: bool = T::EXTENSIBLE;

    ghost row_schema = { T.row_schema };

    ghost row_is_schema = { T.row_is_schema };

    ghost components = { λ v. T.components v.0 };

    fn from_row(row: T::Values) -> Sequence<T, RC, EC> {
        Sequence(T::from_row(row))
    }
}

impl<const RC: usize, const EC: usize, T: Tabled<RC, EC> + Takes> Takes for Sequence<T, RC, EC> {
    ghost Refuses = { T.Refuses };

    #[inline(always)]
    fn take(alloc: Global, decoder: &mut Decoder<'_>) -> Result<Sequence<T, RC, EC>, DecodeError> {
        Ok(Sequence(T::take(alloc, decoder)?))
    }
}

impl<const RC: usize, const EC: usize, T: Tabled<RC, EC>> AsnType for Sequence<T, RC, EC> {
    ghost use Rattle.std.specs.Prelude.{refl};
    ghost use Rattle.asn1_core.specs.declared.tag.TheConstants.Tag.{SEQUENCE};
    ghost use Rattle.asn1_core.specs.declared.constraints.TheConstants.Constraints.{NONE};

    ghost TAG = { SEQUENCE };

    const TAG: Tag = Tag::SEQUENCE;

    ghost CONSTRAINTS = { NONE };

    const CONSTRAINTS: Constraints = Constraints::NONE;

    ghost consistent = { refl };

    // said again, since the trait's own would ask that a `T` is not too large
    const IS_CHOICE: bool = false;
}

impl<const RC: usize, const EC: usize, T: Tabled<RC, EC>> Constructed<RC, EC>
    for Sequence<T, RC, EC> {
    ghost use Rattle.std.specs.Prelude.{false};
    ghost use Rattle.oer_rows.specs.Schema.{schema_tables};

    ghost is_set = { false };

    ghost root_rows = { T.row_schema.roots.fields 0 };

    ghost addition_rows = { T.row_schema.additions.fields 0 };

    ghost IS_EXTENSIBLE = { T.EXTENSIBLE };

    const IS_EXTENSIBLE: bool = T::EXTENSIBLE;

    const FIELDS: Fields<RC> = T::FIELDS;

    const EXTENDED_FIELDS: Option<Fields<EC>> = T::EXTENDED_FIELDS;

    fn root_fields() -> &'static [Field<'static>] {
        T::root_fields()
    }

    fn addition_fields() -> &'static [Field<'static>] {
        T::addition_fields()
    }

    ghost tables = { schema_tables T.row_schema T.EXTENSIBLE T.row_is_schema RC EC T.counts.0 T.counts.1 };
}

impl<const RC: usize, const EC: usize, T: Tabled<RC, EC>> Spelled for Sequence<T, RC, EC> {
    ghost use Rattle.oer_rows.specs.Schema.{tree_of, IsOf, schema_is, schema_like};

    ghost tree = { λ c v. tree_of T.row_schema T.EXTENSIBLE (T.components v.0) };

    ghost IsValue = { λ v. IsOf T.row_schema (T.components v.0) };

    ghost is_tree = { λ c k v i. schema_is T.row_schema T.EXTENSIBLE T.row_is_schema (T.components v.0) i };

    ghost alike = { λ c k v w i j. schema_like T.row_schema T.EXTENSIBLE T.row_is_schema (T.components v.0) (T.components w.0) i j };
}

impl<const RC: usize, const EC: usize, T: Tabled<RC, EC>> Writes for Sequence<T, RC, EC> {
    ghost roots = { λ v. T.row_schema.roots.rows (T.components v.0) };

    ghost additions = { λ v. T.row_schema.additions.rows (T.components v.0) };

    #[inline(always)]
    fn put(&self, encoder: &mut Encoder<'_>) -> Result<(), EncodeError> {
        self.0.put(encoder)
    }
}

impl<const RC: usize, const EC: usize, T: Tabled<RC, EC>> Encode for Sequence<T, RC, EC> {
    #[inline(always)]
    fn encode_with_tag_and_constraints(
        &self,
        encoder: &mut Encoder<'_>,
        tag: Tag,
        _constraints: Constraints,
    ) -> Result<(), EncodeError> {
        encode_rows::<RC, EC, Sequence<T, RC, EC>, Sequence<T, RC, EC>>(self, encoder, tag)
    }
}

impl<const RC: usize, const EC: usize, T: Tabled<RC, EC> + Takes> Decode for Sequence<T, RC, EC> {
    ghost use Rattle.oer_rows.specs.Refusals.{RowAnswers};

    ghost Answered = { λ c s r t. RowAnswers T.row_schema T.EXTENSIBLE T.Refuses s r };

    #[inline(always)]
    fn decode_with_tag_and_constraints(
        alloc: Global,
        decoder: &mut Decoder<'_>,
        tag: Tag,
        constraints: Constraints,
    ) -> Result<Sequence<T, RC, EC>, DecodeError> {
        decode_row::<RC, EC, Sequence<T, RC, EC>>(alloc, decoder, tag, constraints)
    }
}

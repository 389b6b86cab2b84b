//! Sequences with components that hold knots.
ghost use Rattle.std.specs.Prelude.{◌≡◌, IfOk, IfErr};
ghost use Rattle.oer_read.specs.Law.{Decodes};
ghost use Rattle.oer_read.specs.Lists.{FnReturnsAtMut};
ghost use Rattle.oer_read.specs.Parts.{ReadsParts};
ghost use Rattle.oer_read.specs.Scopes.{SequenceRefused};
ghost use Rattle.oer_rows.specs.Refusals.{RowRan};
ghost use Rattle.oer_rows.specs.Schema.{IsOf, HasTables, tree_of};
ghost use Rattle.oer_knots.specs.Reading.{ReadsInside, ReadsKnots};

use crate::reading::ReadsKnot;
use crate::ties::{DecodeInside, DecodeKnot, HoldsKnot};
use asn1_core::{Constructed, DecodeError, Tag};
use oer_read::Decoder;
use oer_rows::{Rowed, Sequence, Tabled};
use oer_spec::Spelled;
use std::alloc::Global;

/// The components of a type that holds knots: how their trees and values follow from those of the knot.
pub trait KnotRowed<K> {
    ghost use Rattle.std.specs.Prelude.{Bool, ℕ};
    ghost use Rattle.oer_rows.specs.Schema.{Typed, Schema};
    ghost use Rattle.oer_knots.specs.Rows.{TiesRow};

    /// The values of the row.
    type KnotValues;

    ghost extended: { Bool };

    ghost knot_schema: { Typed K → Schema Self.KnotValues };

    ghost knot_weight: { (K → ℕ) → Self.KnotValues → ℕ };

    ghost knot_ties: { TiesRow knot_schema extended knot_weight };

    ghost knot_components: { Self → Self.KnotValues };
}

/// A type that is read by its row, where what reads a knot is handed in.
pub trait TakesKnot<K: Spelled>: Rowed + Drop {
    ghost use Rattle.oer_knots.specs.Answering.{Refusing};

    /// Why reading the components is refused (`ReadsKnot::refusing` of the row).
    ghost refusing: { Refusing K };

    /// Reads the components in the order of the row, inside the scope of a sequence (X.696, 16): `read_knot_row`.
    ///
    /// Refused, the first that applies, as the calls of `Decoder` refuse that read each component.
    fn take_knot<F: Fn(&mut Decoder<'_>) -> Result<K, DecodeError>>(
        alloc: Global,
        decoder: &mut Decoder<'_>,
        knot: &F,
    ) -> Result<Self, DecodeError>
        requires { ReadsKnots F.Fn knot.now (K.tree K.CONSTRAINTS) K.IsValue decoder.old.levels }
        ensures read { ReadsParts Self.row_schema.roots.parts Self.row_schema.additions.parts (λ v. Self.row_schema.roots.rows (Self.components v)) (λ v. Self.row_schema.additions.rows (Self.components v)) decoder.old result decoder.new }
        ensures value { IfOk result (λ v. IsOf Self.row_schema (Self.components v)) }
        ensures refused { IfErr result (λ e. Self.refusing.Refuses (FnReturnsAtMut F.Fn knot.now) decoder.old e) };
}

/// Reads the components of `T` in the order of its row `R`, inside the scope of a sequence (X.696, 16): what
/// `TakesKnot::take_knot` calls.
///
/// Refused, the first that applies, as the calls of `Decoder` refuse that read each component.
pub fn read_knot_row<
    K: Spelled,
    T: Rowed,
    R: ReadsKnot<K, Values = T::Values>,
    F: Fn(&mut Decoder<'_>) -> Result<K, DecodeError>,
>(alloc: Global, decoder: &mut Decoder<'_>, knot: &F) -> Result<T, DecodeError>
where
    R::Slots: Drop,
    requires { ReadsKnots F.Fn knot.now (K.tree K.CONSTRAINTS) K.IsValue decoder.old.levels }
    ensures read { ReadsParts R.schema.roots.parts R.schema.additions.parts (λ v. R.schema.roots.rows (T.components v)) (λ v. R.schema.additions.rows (T.components v)) decoder.old result decoder.new }
    ensures value { IfOk result (λ v. IsOf R.schema (T.components v)) }
    ensures refused { IfErr result (λ e. R.refusing.Refuses (FnReturnsAtMut F.Fn knot.now) decoder.old e) }
{
    let mut slots = R::empty();
    R::read(alloc, decoder, &mut slots, knot)?;
    Ok(T::from_row(R::taken(slots)))
}

/// Reads a SEQUENCE (X.696, 16) whose tree, admitted values and tables are its row's, each knot in it by `knot`, which is
/// called within fewer levels than are left.
///
/// Refused, the first that applies, as `Decoder::decode_sequence` refuses, with what the components refuse.
pub fn decode_knot_row<
    const RC: usize,
    const EC: usize,
    K: Spelled,
    T: Constructed<RC, EC> + Spelled + TakesKnot<K>,
    F: Fn(&mut Decoder<'_>) -> Result<K, DecodeError>,
>(alloc: Global, decoder: &mut Decoder<'_>, tag: Tag, knot: &F) -> Result<T, DecodeError>
    requires tree { (v : _) → T.tree T.CONSTRAINTS v ≡ tree_of T.row_schema T.IS_EXTENSIBLE (T.components v) }
    requires within { (v : _) → T.IsValue v → IsOf T.row_schema (T.components v) }
    requires back { (v : _) → IsOf T.row_schema (T.components v) → T.IsValue v }
    requires tables { HasTables T.row_schema T.EXTENSIBLE T.IS_EXTENSIBLE T.root_rows T.addition_rows }
    requires knots { ReadsInside F.Fn knot.now (K.tree K.CONSTRAINTS) K.IsValue decoder.old.levels }
    ensures law { Decodes (T.tree T.CONSTRAINTS) T.IsValue decoder.old result decoder.new }
    ensures refused { IfErr result (λ e. SequenceRefused (RowRan T.row_schema (T.refusing.Refuses (FnReturnsAtMut F.Fn knot.now))) T.IS_EXTENSIBLE T.root_rows T.addition_rows decoder.old e) }
{
    decoder.decode_sequence::<RC, EC, T, _>(
        tag,
        |inner: &mut Decoder<'_>| -> Result<T, DecodeError>
            requires { ReadsKnots F.Fn knot.now (K.tree K.CONSTRAINTS) K.IsValue inner.old.levels }
            ensures read { ReadsParts T.row_schema.roots.parts T.row_schema.additions.parts (λ v. T.row_schema.roots.rows (T.components v)) (λ v. T.row_schema.additions.rows (T.components v)) inner.old result inner.new }
            ensures value { IfOk result (λ v. IsOf T.row_schema (T.components v)) }
            ensures refused { IfErr result (λ e. T.refusing.Refuses (FnReturnsAtMut F.Fn knot.entry.now) inner.old e) }
        { T::take_knot(alloc, inner, knot) },
    )
}

impl<K, const RC: usize, const EC: usize, T: KnotRowed<K>> HoldsKnot<K> for Sequence<T, RC, EC> {
    ghost use Rattle.oer_knots.specs.Rows.{sequence_tied, sequence_weight, sequence_ties};

    ghost tied = { sequence_tied T.knot_schema T.extended T.knot_weight (λ v. T.knot_components v.0) };

    ghost weight = { sequence_weight T.knot_schema T.extended T.knot_weight (λ v. T.knot_components v.0) };

    ghost ties = { sequence_ties T.knot_schema T.extended T.knot_weight (λ v. T.knot_components v.0) T.knot_ties };
}

impl<K: Spelled, const RC: usize, const EC: usize, T: Tabled<RC, EC> + TakesKnot<K>> TakesKnot<K>
    for Sequence<T, RC, EC> {
    ghost refusing = { T.refusing };

    fn take_knot<F: Fn(&mut Decoder<'_>) -> Result<K, DecodeError>>(
        alloc: Global,
        decoder: &mut Decoder<'_>,
        knot: &F,
    ) -> Result<Sequence<T, RC, EC>, DecodeError> {
        Ok(Sequence(T::take_knot(alloc, decoder, knot)?))
    }
}

impl<K: Spelled, const RC: usize, const EC: usize, T: Tabled<RC, EC> + TakesKnot<K>> DecodeInside<K>
    for Sequence<T, RC, EC> {
    fn decode_inside<F: Fn(&mut Decoder<'_>) -> Result<K, DecodeError>>(
        alloc: Global,
        decoder: &mut Decoder<'_>,
        tag: Tag,
        knot: &F,
    ) -> Result<Sequence<T, RC, EC>, DecodeError> {
        decode_knot_row::<RC, EC, K, Sequence<T, RC, EC>, F>(alloc, decoder, tag, knot)
    }
}

impl<K: Spelled, const RC: usize, const EC: usize, T: Tabled<RC, EC> + TakesKnot<K>> DecodeKnot<K>
    for Sequence<T, RC, EC> {
    ghost use Rattle.oer_knots.specs.Answering.{of_row};

    ghost answering = { of_row T.row_schema T.EXTENSIBLE T.refusing };

    fn decode_knot<F: Fn(&mut Decoder<'_>) -> Result<K, DecodeError>>(
        alloc: Global,
        decoder: &mut Decoder<'_>,
        tag: Tag,
        knot: &F,
    ) -> Result<Sequence<T, RC, EC>, DecodeError> {
        Self::decode_inside::<F>(alloc, decoder, tag, knot)
    }
}

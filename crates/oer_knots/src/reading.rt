//! Rows that are read, where what reads a knot is handed in.
ghost use Rattle.std.specs.Prelude.{◌≡◌, OnOk, IfErr};
ghost use Rattle.oer_read.specs.Components.{Asks};
ghost use Rattle.oer_read.specs.Law.{Decodes, Promised};
ghost use Rattle.oer_read.specs.Lists.{FnReturnsAtMut};
ghost use Rattle.oer_read.specs.Parts.{Takes, Stops};
ghost use Rattle.oer_knots.specs.Reading.{ReadsKnots};

use crate::additions::ReadsKnotAdditions;
use crate::cells::{OptionalKnot, RequiredKnot};
use crate::ties::DecodeKnot;
use asn1_core::{DecodeError, Tag};
use oer_read::{Decode, Decoder};
use oer_rows::{
    DefaultValue, Defaulted, End, Extensible, Optional, Place, Required, Slotted, read_default,
};
use oer_spec::Spelled;
use std::alloc::Global;

/// A row whose components are read, each knot in them by what is handed in.
pub trait ReadsKnot<K: Spelled>: Slotted {
    ghost use Rattle.oer_knots.specs.Answering.{Refusing};

    /// Why reading the row is refused, as `Refuses` of `Reads`, by what is said of the knots' answers.
    ghost refusing: { Refusing K };

    /// Reads them into their places, in the order of the row, inside the scope of a sequence (X.696, 16); each value of `K` in
    /// them by `knot`.
    ///
    /// Refused, the first that applies, as the calls of `Decoder` refuse that read each component.
    fn read<F: Fn(&mut Decoder<'_>) -> Result<K, DecodeError>>(
        alloc: Global,
        decoder: &mut Decoder<'_>,
        slots: &mut Self::Slots,
        knot: &F,
    ) -> Result<(), DecodeError>
        requires { ReadsKnots F.Fn knot.now (K.tree K.CONSTRAINTS) K.IsValue decoder.old.levels }
        ensures read { OnOk result ((v : Self.Values) × (slots.new ≡ Self.filled v) × Takes decoder.old Self.schema.roots.parts Self.schema.additions.parts (Self.schema.roots.rows v) (Self.schema.additions.rows v) decoder.new × Self.schema.roots.IsValue v × Self.schema.additions.IsValue v) }
        ensures stops { Stops decoder.old Self.schema.roots.parts Self.schema.additions.parts result }
        ensures refused { IfErr result (λ e. Self.refusing.Refuses (FnReturnsAtMut F.Fn knot.now) decoder.old e) };
}

/// Reads an OPTIONAL component by its presence bit, each knot in it by `knot`.
///
/// Refused as `Decoder::decode_optional_with` refuses, with what the component's type does.
#[inline(always)]
fn read_optional<K: Spelled, B: DecodeKnot<K>, F: Fn(&mut Decoder<'_>) -> Result<K, DecodeError>>(
    alloc: Global,
    decoder: &mut Decoder<'_>,
    tag: Tag,
    knot: &F,
) -> Result<Option<B>, DecodeError>
    requires { ReadsKnots F.Fn knot.now (K.tree K.CONSTRAINTS) K.IsValue decoder.old.levels }
    ensures { Asks (B.tree B.CONSTRAINTS) B.IsValue (B.answering.Answered (FnReturnsAtMut F.Fn knot.now)) decoder.old tag result decoder.new }
{
    decoder.decode_optional_with::<B, _>(
        tag,
        |inner: &mut Decoder<'_>| -> Result<B, DecodeError>
            requires { ReadsKnots F.Fn knot.now (K.tree K.CONSTRAINTS) K.IsValue inner.old.levels }
            ensures law { Decodes (B.tree B.CONSTRAINTS) B.IsValue inner.old result inner.new }
            ensures answered { B.answering.Answered (FnReturnsAtMut F.Fn knot.entry.now) inner.old result inner.new }
        { B::decode_knot(alloc, inner, tag, knot) },
    )
}

impl<K: Spelled> ReadsKnot<K> for End {
    ghost use Rattle.oer_knots.specs.Answering.{unknotted};

    ghost refusing = { unknotted (λ s e. ⊥) };

    fn read<F: Fn(&mut Decoder<'_>) -> Result<K, DecodeError>>(
        _alloc: Global,
        _decoder: &mut Decoder<'_>,
        _slots: &mut (),
        _knot: &F,
    ) -> Result<(), DecodeError> {
        Ok(())
    }
}

impl<K: Spelled, R: ReadsKnotAdditions<K>> ReadsKnot<K> for Extensible<R> {
    ghost refusing = { R.refusing };

    fn read<F: Fn(&mut Decoder<'_>) -> Result<K, DecodeError>>(
        alloc: Global,
        decoder: &mut Decoder<'_>,
        slots: &mut R::Slots,
        knot: &F,
    ) -> Result<(), DecodeError> {
        R::read_knot_additions(alloc, decoder, slots, knot)
    }
}

impl<K: Spelled, G: Place, B: Decode, R: ReadsKnot<K>> ReadsKnot<K> for Required<G, B, R> {
    ghost use Rattle.oer_knots.specs.Answering.{plain, before};

    ghost refusing = { before (plain (Promised (B.tree B.CONSTRAINTS) B.IsValue (B.Answered B.CONSTRAINTS))) R.refusing };

    fn read<F: Fn(&mut Decoder<'_>) -> Result<K, DecodeError>>(
        alloc: Global,
        decoder: &mut Decoder<'_>,
        slots: &mut Self::Slots,
        knot: &F,
    ) -> Result<(), DecodeError> {
        let value = B::decode_with_tag(alloc, decoder, G::tag())?;
        slots.0 = Some(value);
        R::read(alloc, decoder, &mut slots.1, knot)?;
        Ok(())
    }
}

impl<K: Spelled, G: Place, B: Decode, R: ReadsKnot<K>> ReadsKnot<K> for Optional<G, B, R> {
    ghost use Rattle.oer_knots.specs.Answering.{plain, before};

    ghost refusing = { before (plain (λ s r t. Asks (B.tree B.CONSTRAINTS) B.IsValue (B.Answered B.CONSTRAINTS) s G.tag r t)) R.refusing };

    fn read<F: Fn(&mut Decoder<'_>) -> Result<K, DecodeError>>(
        alloc: Global,
        decoder: &mut Decoder<'_>,
        slots: &mut Self::Slots,
        knot: &F,
    ) -> Result<(), DecodeError> {
        let value = decoder.decode_optional_with_tag::<B>(alloc, G::tag())?;
        slots.0 = value;
        R::read(alloc, decoder, &mut slots.1, knot)?;
        Ok(())
    }
}

impl<K: Spelled, G: Place, B: Decode + PartialEq, D: DefaultValue<B>, R: ReadsKnot<K>> ReadsKnot<K>
    for Defaulted<G, B, D, R> {
    ghost use Rattle.oer_knots.specs.Answering.{plain, before};
    ghost use Rattle.oer_rows.specs.DefaultValues.{AsksDefaultValue};

    ghost refusing = { before (plain (λ s r t. AsksDefaultValue (B.tree B.CONSTRAINTS) B.IsValue (B.Answered B.CONSTRAINTS) B.eq D.wants_memory s G.tag D.value r t)) R.refusing };

    fn read<F: Fn(&mut Decoder<'_>) -> Result<K, DecodeError>>(
        alloc: Global,
        decoder: &mut Decoder<'_>,
        slots: &mut Self::Slots,
        knot: &F,
    ) -> Result<(), DecodeError> {
        let value = read_default::<D, B>(alloc, decoder, G::tag())?;
        slots.0 = Some(value);
        R::read(alloc, decoder, &mut slots.1, knot)?;
        Ok(())
    }
}

impl<K: Spelled, G: Place, B: DecodeKnot<K>, R: ReadsKnot<K>> ReadsKnot<K>
    for RequiredKnot<G, B, R> {
    ghost use Rattle.oer_knots.specs.Answering.{promised, before};

    ghost refusing = { before (promised (B.tree B.CONSTRAINTS) B.IsValue B.answering) R.refusing };

    fn read<F: Fn(&mut Decoder<'_>) -> Result<K, DecodeError>>(
        alloc: Global,
        decoder: &mut Decoder<'_>,
        slots: &mut Self::Slots,
        knot: &F,
    ) -> Result<(), DecodeError> {
        let value = B::decode_knot(alloc, decoder, G::tag(), knot)?;
        slots.0 = Some(value);
        R::read(alloc, decoder, &mut slots.1, knot)?;
        Ok(())
    }
}

impl<K: Spelled, G: Place, B: DecodeKnot<K>, R: ReadsKnot<K>> ReadsKnot<K>
    for OptionalKnot<G, B, R> {
    ghost use Rattle.oer_knots.specs.Answering.{asked, before};

    ghost refusing = { before (asked (B.tree B.CONSTRAINTS) B.IsValue G.tag B.answering) R.refusing };

    fn read<F: Fn(&mut Decoder<'_>) -> Result<K, DecodeError>>(
        alloc: Global,
        decoder: &mut Decoder<'_>,
        slots: &mut Self::Slots,
        knot: &F,
    ) -> Result<(), DecodeError> {
        let value = read_optional::<K, B, F>(alloc, decoder, G::tag(), knot)?;
        slots.0 = value;
        R::read(alloc, decoder, &mut slots.1, knot)?;
        Ok(())
    }
}

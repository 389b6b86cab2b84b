//! The cells of components that hold knots: beside a plain cell, such a component is read by what is handed in.
ghost use Rattle.std.specs.Prelude.{◌≡◌, OnOk};
ghost use Rattle.oer_read.specs.Parts.{Takes, Stops};
ghost use Rattle.oer_write.specs.Rows.{InSequence};
ghost use Rattle.oer_rows.specs.Values.{both};

use asn1_core::{DecodeError, EncodeError};
use oer_read::{Decode, Decoder};
use oer_rows::{Both, Components, Place, Reads, Slotted, Views};
use oer_spec::Spelled;
use oer_write::{Encode, Encoder};
use std::alloc::Global;
use std::marker::PhantomData;

/// A component of type `B`, which holds knots, with the tag `G`, neither OPTIONAL nor DEFAULT, and the row `R` after it.
pub struct RequiredKnot<G, B, R>(PhantomData<(G, B, R)>);

/// An OPTIONAL component of type `B`, which holds knots, with the tag `G`, and the row `R` after it.
pub struct OptionalKnot<G, B, R>(PhantomData<(G, B, R)>);

impl<G: Place, B: Spelled, R: Components> Components for RequiredKnot<G, B, R> {
    ghost use Rattle.oer_rows.specs.Schema.{typed, typed_is, required_then, required_then_is};

    type Values = Both<B, R::Values>;

    ghost EXTENSIBLE = { R.EXTENSIBLE };

    const EXTENSIBLE: bool = R::EXTENSIBLE;

    ghost schema = { required_then G.tag (typed B.tree B.CONSTRAINTS B.IsValue) R.schema };

    ghost is_schema = { required_then_is G.tag (typed B.tree B.CONSTRAINTS B.IsValue) R.schema R.EXTENSIBLE (typed_is B.tree B.IsValue B.is_tree B.alike B.CONSTRAINTS B.consistent) R.is_schema };
}

impl<G: Place, B: Spelled, R: Slotted> Slotted for RequiredKnot<G, B, R> {
    ghost use Rattle.oer_rows.specs.Slots.{with_required, required_once};

    type Slots = Both<Option<B>, R::Slots>;

    ghost filled = { with_required R.filled };

    ghost filled_once = { required_once R.filled R.filled_once };

    fn empty() -> Self::Slots {
        Both(None, R::empty())
    }

    fn taken(slots: Self::Slots) -> Self::Values {
        let Both(value, rest) = slots;
        Both(value.unwrap(), R::taken(rest))
    }
}

impl<G: Place, B: Decode, R: Reads> Reads for RequiredKnot<G, B, R> {
    ghost use Rattle.oer_read.specs.Law.{Promised};
    ghost use Rattle.oer_rows.specs.Refusals.{RowRefused};

    ghost Refuses = { λ s e. RowRefused (λ r t. Promised (B.tree B.CONSTRAINTS) B.IsValue (B.Answered B.CONSTRAINTS) s r t) R.Refuses e };

    fn read(
        alloc: Global,
        decoder: &mut Decoder<'_>,
        slots: &mut Self::Slots,
    ) -> Result<(), DecodeError> {
        let value = B::decode_with_tag(alloc, decoder, G::tag())?;
        slots.0 = Some(value);
        R::read(alloc, decoder, &mut slots.1)?;
        Ok(())
    }
}

impl<G: Place, B: Spelled, R: Components> Components for OptionalKnot<G, B, R> {
    ghost use Rattle.oer_rows.specs.Schema.{typed, typed_is, optional_then, optional_then_is};

    type Values = Both<Option<B>, R::Values>;

    ghost EXTENSIBLE = { R.EXTENSIBLE };

    const EXTENSIBLE: bool = R::EXTENSIBLE;

    ghost schema = { optional_then G.tag (typed B.tree B.CONSTRAINTS B.IsValue) R.schema };

    ghost is_schema = { optional_then_is G.tag (typed B.tree B.CONSTRAINTS B.IsValue) R.schema R.EXTENSIBLE (typed_is B.tree B.IsValue B.is_tree B.alike B.CONSTRAINTS B.consistent) R.is_schema };
}

impl<G: Place, B: Spelled, R: Slotted> Slotted for OptionalKnot<G, B, R> {
    ghost use Rattle.oer_rows.specs.Slots.{with_optional, optional_once};

    type Slots = Both<Option<B>, R::Slots>;

    ghost filled = { with_optional R.filled };

    ghost filled_once = { optional_once R.filled R.filled_once };

    fn empty() -> Self::Slots {
        Both(None, R::empty())
    }

    fn taken(slots: Self::Slots) -> Self::Values {
        let Both(value, rest) = slots;
        Both(value, R::taken(rest))
    }
}

impl<G: Place, B: Decode, R: Reads> Reads for OptionalKnot<G, B, R> {
    ghost use Rattle.oer_read.specs.Components.{Asks};
    ghost use Rattle.oer_rows.specs.Refusals.{RowRefused};

    ghost Refuses = { λ s e. RowRefused (λ r t. Asks (B.tree B.CONSTRAINTS) B.IsValue (B.Answered B.CONSTRAINTS) s G.tag r t) R.Refuses e };

    fn read(
        alloc: Global,
        decoder: &mut Decoder<'_>,
        slots: &mut Self::Slots,
    ) -> Result<(), DecodeError> {
        let value = decoder.decode_optional_with_tag::<B>(alloc, G::tag())?;
        slots.0 = value;
        R::read(alloc, decoder, &mut slots.1)?;
        Ok(())
    }
}

impl<'v, G: Place, B: Encode + 'v, R: Views<'v>> Views<'v> for RequiredKnot<G, B, R> {
    type View = Both<&'v B, R::View>;

    ghost seen = { λ v. both v.0.now (R.seen v.1) };

    #[inline(always)]
    fn write(view: &Both<&'v B, R::View>, encoder: &mut Encoder<'_>) -> Result<(), EncodeError> {
        view.0.encode_with_tag(encoder, G::tag())?;
        R::write(&view.1, encoder)
    }
}

impl<'v, G: Place, B: Encode + 'v, R: Views<'v>> Views<'v> for OptionalKnot<G, B, R> {
    type View = Both<&'v Option<B>, R::View>;

    ghost seen = { λ v. both v.0.now (R.seen v.1) };

    #[inline(always)]
    fn write(
        view: &Both<&'v Option<B>, R::View>,
        encoder: &mut Encoder<'_>,
    ) -> Result<(), EncodeError> {
        encoder.encode_optional_in_sequence(G::tag(), view.0.as_ref())?;
        R::write(&view.1, encoder)
    }
}

//! Root components: the trait of rows, and a cell for each need of a component.
ghost use Rattle.std.specs.Prelude.{◌≡◌, OnOk, IfErr};
ghost use Rattle.oer_read.specs.Parts.{Takes, Stops};

use crate::both::Both;
use crate::defaults::read_default;
use crate::places::{DefaultValue, Place};
use crate::slots::Slotted;
use asn1_core::DecodeError;
use oer_read::{Decode, Decoder};
use oer_spec::Spelled;
use std::alloc::Global;
use std::marker::PhantomData;

/// The components of a sequence, from one on, as a type: a row.
///
/// A row is built of cells, each of which names a component and the row behind it. No value of a row is ever made. From the
/// impls of the cells the parts, the tables, the trees and the admitted values of a sequence are derived, and what reads
/// and writes it.
pub trait Components {
    ghost use Rattle.std.specs.Prelude.{Bool};
    ghost use Rattle.oer_rows.specs.Schema.{Schema, IsSchema};

    /// Their values: that of the first one and those of the others, at the end `()`.
    type Values;

    ghost EXTENSIBLE: { Bool };

    /// Whether additions may follow them.
    const EXTENSIBLE: bool;

    ghost schema: { Schema Self.Values };

    ghost is_schema: { IsSchema schema EXTENSIBLE };
}

/// A row whose components are read.
pub trait Reads: Slotted {
    ghost use Rattle.asn1_core.specs.declared.error.DecodeError.{DecodeError};
    ghost use Rattle.oer_read.specs.State.{State};

    /// Why reading them is refused: which component is, and by what.
    ghost Refuses: { State → DecodeError → Type 0 };

    /// Reads them into their places, in the order of the row, inside the scope of a sequence (X.696, 16): what is read encodes rows
    /// of the schema's parts, and the values are admitted ones.
    ///
    /// Refused, the first that applies, as the calls of `Decoder` refuse that read each component.
    fn read(
        alloc: Global,
        decoder: &mut Decoder<'_>,
        slots: &mut Self::Slots,
    ) -> Result<(), DecodeError>
        ensures read { OnOk result ((v : Self.Values) × (slots.new ≡ Self.filled v) × Takes decoder.old Self.schema.roots.parts Self.schema.additions.parts (Self.schema.roots.rows v) (Self.schema.additions.rows v) decoder.new × Self.schema.roots.IsValue v × Self.schema.additions.IsValue v) }
        ensures stops { Stops decoder.old Self.schema.roots.parts Self.schema.additions.parts result }
        ensures refused { IfErr result (λ e. Self.Refuses decoder.old e) };
}

/// The end of a row: no further component.
pub struct End;

/// A component of type `B` with the tag `G` that is neither OPTIONAL nor DEFAULT, and the row `R` after it.
pub struct Required<G, B, R>(PhantomData<(G, B, R)>);

/// An OPTIONAL component of type `B` with the tag `G`, and the row `R` after it.
pub struct Optional<G, B, R>(PhantomData<(G, B, R)>);

/// A component of type `B` with the tag `G` and the DEFAULT `D`, and the row `R` after it.
pub struct Defaulted<G, B, D, R>(PhantomData<(G, B, D, R)>);

impl Components for End {
    ghost use Rattle.std.specs.Prelude.{false};
    ghost use Rattle.oer_rows.specs.Schema.{empty, empty_is};

    type Values = ();

    ghost EXTENSIBLE = { false };

    const EXTENSIBLE: bool = false;

    ghost schema = { empty };

    ghost is_schema = { empty_is };
}

impl Slotted for End {
    ghost use Rattle.std.specs.Prelude.{refl};

    type Slots = ();

    ghost filled = { λ v. tt };

    ghost filled_once = { λ v w e. refl };

    #[inline(always)]
    fn empty() -> () {
        ()
    }

    #[inline(always)]
    fn taken(_slots: ()) -> () {
        ()
    }
}

impl Reads for End {
    ghost use Rattle.oer_rows.specs.Schema.{empty};

    ghost Refuses = { λ s e. ⊥ };

    #[inline(always)]
    fn read(
        _alloc: Global,
        _decoder: &mut Decoder<'_>,
        _slots: &mut (),
    ) -> Result<(), DecodeError> {
        Ok(())
    }
}

impl<G: Place, B: Spelled, R: Components> Components for Required<G, B, R> {
    ghost use Rattle.oer_rows.specs.Schema.{typed, typed_is, required_then, required_then_is};

    type Values = Both<B, R::Values>;

    ghost EXTENSIBLE = { R.EXTENSIBLE };

    const EXTENSIBLE: bool = R::EXTENSIBLE;

    ghost schema = { required_then G.tag (typed B.tree B.CONSTRAINTS B.IsValue) R.schema };

    ghost is_schema = { required_then_is G.tag (typed B.tree B.CONSTRAINTS B.IsValue) R.schema R.EXTENSIBLE (typed_is B.tree B.IsValue B.is_tree B.alike B.CONSTRAINTS B.consistent) R.is_schema };
}

impl<G: Place, B: Spelled, R: Slotted> Slotted for Required<G, B, R> {
    ghost use Rattle.oer_rows.specs.Slots.{with_required, required_once};

    type Slots = Both<Option<B>, R::Slots>;

    ghost filled = { with_required R.filled };

    ghost filled_once = { required_once R.filled R.filled_once };

    #[inline(always)]
    fn empty() -> Self::Slots {
        Both(None, R::empty())
    }

    #[inline(always)]
    fn taken(slots: Self::Slots) -> Self::Values {
        let Both(value, rest) = slots;
        Both(value.unwrap(), R::taken(rest))
    }
}

impl<G: Place, B: Decode, R: Reads> Reads for Required<G, B, R> {
    ghost use Rattle.oer_read.specs.Law.{Promised};
    ghost use Rattle.oer_rows.specs.Refusals.{RowRefused};

    ghost Refuses = { λ s e. RowRefused (λ r t. Promised (B.tree B.CONSTRAINTS) B.IsValue (B.Answered B.CONSTRAINTS) s r t) R.Refuses e };

    #[inline(always)]
    fn read(
        alloc: Global,
        decoder: &mut Decoder<'_>,
        slots: &mut Self::Slots,
    ) -> Result<(), DecodeError> {
        let value = B::decode_with_tag(alloc, decoder, G::tag())?;
        slots.0 = Some(value);
        R::read(alloc, decoder, &mut slots.1)?;
        Ok(())
    }
}

impl<G: Place, B: Spelled, R: Components> Components for Optional<G, B, R> {
    ghost use Rattle.oer_rows.specs.Schema.{typed, typed_is, optional_then, optional_then_is};

    type Values = Both<Option<B>, R::Values>;

    ghost EXTENSIBLE = { R.EXTENSIBLE };

    const EXTENSIBLE: bool = R::EXTENSIBLE;

    ghost schema = { optional_then G.tag (typed B.tree B.CONSTRAINTS B.IsValue) R.schema };

    ghost is_schema = { optional_then_is G.tag (typed B.tree B.CONSTRAINTS B.IsValue) R.schema R.EXTENSIBLE (typed_is B.tree B.IsValue B.is_tree B.alike B.CONSTRAINTS B.consistent) R.is_schema };
}

impl<G: Place, B: Spelled, R: Slotted> Slotted for Optional<G, B, R> {
    ghost use Rattle.oer_rows.specs.Slots.{with_optional, optional_once};

    type Slots = Both<Option<B>, R::Slots>;

    ghost filled = { with_optional R.filled };

    ghost filled_once = { optional_once R.filled R.filled_once };

    #[inline(always)]
    fn empty() -> Self::Slots {
        Both(None, R::empty())
    }

    #[inline(always)]
    fn taken(slots: Self::Slots) -> Self::Values {
        let Both(value, rest) = slots;
        Both(value, R::taken(rest))
    }
}

impl<G: Place, B: Decode, R: Reads> Reads for Optional<G, B, R> {
    ghost use Rattle.oer_read.specs.Components.{Asks};
    ghost use Rattle.oer_rows.specs.Refusals.{RowRefused};

    ghost Refuses = { λ s e. RowRefused (λ r t. Asks (B.tree B.CONSTRAINTS) B.IsValue (B.Answered B.CONSTRAINTS) s G.tag r t) R.Refuses e };

    #[inline(always)]
    fn read(
        alloc: Global,
        decoder: &mut Decoder<'_>,
        slots: &mut Self::Slots,
    ) -> Result<(), DecodeError> {
        let value = decoder.decode_optional_with_tag::<B>(alloc, G::tag())?;
        slots.0 = value;
        R::read(alloc, decoder, &mut slots.1)?;
        Ok(())
    }
}

impl<G: Place, B: Spelled + PartialEq, D: DefaultValue<B>, R: Components> Components
    for Defaulted<G, B, D, R> {
    ghost use Rattle.oer_rows.specs.Schema.{typed, default_then, default_then_is};

    type Values = Both<B, R::Values>;

    ghost EXTENSIBLE = { R.EXTENSIBLE };

    const EXTENSIBLE: bool = R::EXTENSIBLE;

    ghost schema = { default_then G.tag (typed B.tree B.CONSTRAINTS B.IsValue) B.eq D.value R.schema };

    ghost is_schema = { default_then_is G.tag (typed B.tree B.CONSTRAINTS B.IsValue) B.eq D.value R.schema R.EXTENSIBLE R.is_schema };
}

impl<G: Place, B: Spelled + PartialEq, D: DefaultValue<B>, R: Slotted> Slotted
    for Defaulted<G, B, D, R> {
    ghost use Rattle.oer_rows.specs.Slots.{with_required, required_once};

    type Slots = Both<Option<B>, R::Slots>;

    ghost filled = { with_required R.filled };

    ghost filled_once = { required_once R.filled R.filled_once };

    #[inline(always)]
    fn empty() -> Self::Slots {
        Both(None, R::empty())
    }

    #[inline(always)]
    fn taken(slots: Self::Slots) -> Self::Values {
        let Both(value, rest) = slots;
        Both(value.unwrap(), R::taken(rest))
    }
}

impl<G: Place, B: Decode + PartialEq, D: DefaultValue<B>, R: Reads> Reads
    for Defaulted<G, B, D, R> {
    ghost use Rattle.oer_rows.specs.DefaultValues.{AsksDefaultValue};
    ghost use Rattle.oer_rows.specs.Refusals.{RowRefused};

    ghost Refuses = { λ s e. RowRefused (λ r t. AsksDefaultValue (B.tree B.CONSTRAINTS) B.IsValue (B.Answered B.CONSTRAINTS) B.eq D.wants_memory s G.tag D.value r t) R.Refuses e };

    #[inline(always)]
    fn read(
        alloc: Global,
        decoder: &mut Decoder<'_>,
        slots: &mut Self::Slots,
    ) -> Result<(), DecodeError> {
        let value = read_default::<D, B>(alloc, decoder, G::tag())?;
        slots.0 = Some(value);
        R::read(alloc, decoder, &mut slots.1)?;
        Ok(())
    }
}

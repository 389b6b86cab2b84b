//! Extension additions: the rows behind the mark `...`.
ghost use Rattle.std.specs.Prelude.{◌≡◌, Some, OnOk, IfErr};
ghost use Rattle.oer_spec.specs.Tree.{NoRows};
ghost use Rattle.oer_read.specs.Additions.{Adds};
ghost use Rattle.oer_read.specs.Parts.{NoParts, Takes, Stops};

use crate::both::Both;
use crate::components::{Components, End, Reads};
use crate::places::Place;
use crate::slots::{Slotted, SlottedAdditions};
use asn1_core::{DecodeError, Tag};
use oer_read::{Decode, Decoder};
use oer_spec::Spelled;
use std::alloc::Global;
use std::marker::PhantomData;

/// The extension additions of a sequence, from one on, as a type.
pub trait Additions {
    ghost use Rattle.oer_rows.specs.Schema.{Table, IsTable};

    /// Their values: that of the first one and those of the others, at the end `()`.
    type More;

    ghost table: { Table Self.More };

    ghost is_table: { IsTable table };
}

/// Additions that are read.
pub trait ReadsAdditions: SlottedAdditions {
    ghost use Rattle.asn1_core.specs.declared.error.DecodeError.{DecodeError};
    ghost use Rattle.oer_read.specs.State.{State};

    /// Why reading them is refused: which addition is, and by what.
    ghost Refuses: { State → DecodeError → Type 0 };

    /// Reads them into their places, in the order of the row, inside the scope of a sequence behind its root components (X.696,
    /// 16.4).
    ///
    /// Refused, the first that applies, as the calls of `Decoder` refuse that read each addition.
    fn read_additions(
        alloc: Global,
        decoder: &mut Decoder<'_>,
        slots: &mut Self::Slots,
    ) -> Result<(), DecodeError>
        ensures read { OnOk result ((v : Self.More) × (slots.new ≡ Self.filled v) × Takes decoder.old NoParts Self.table.parts NoRows (Self.table.rows v) decoder.new × Self.table.IsValue v) }
        ensures stops { Stops decoder.old NoParts Self.table.parts result }
        ensures refused { IfErr result (λ e. Self.Refuses decoder.old e) };
}

/// The end of the root components of an extensible type, and its additions `R`.
pub struct Extensible<R>(PhantomData<R>);

/// An OPTIONAL addition of type `B` with the tag `G`, and those after it.
pub struct OptionalAddition<G, B, R>(PhantomData<(G, B, R)>);

/// Reads an OPTIONAL addition under its type's constraints (X.696, 16.4 and 30).
///
/// Refused as `Decoder::decode_extension_addition_with_tag_and_constraints` refuses.
#[inline(always)]
pub fn read_addition<B: Decode>(
    alloc: Global,
    decoder: &mut Decoder<'_>,
    tag: Tag,
) -> Result<Option<B>, DecodeError>
    ensures { Adds (B.tree B.CONSTRAINTS) B.IsValue (B.Answered B.CONSTRAINTS) decoder.old (Some tag) result decoder.new }
{
    decoder.decode_extension_addition_with_tag_and_constraints(alloc, tag, B::CONSTRAINTS)
}

impl Additions for End {
    ghost use Rattle.oer_rows.specs.Schema.{none, none_is};

    type More = ();

    ghost table = { none };

    ghost is_table = { none_is };
}

impl SlottedAdditions for End {
    ghost use Rattle.std.specs.Prelude.{refl};

    type Slots = ();

    ghost filled = { λ v. tt };

    ghost filled_once = { λ v w e. refl };

    #[inline(always)]
    fn empty() -> () {
        ()
    }

    #[inline(always)]
    fn taken(_slots: ()) -> () {
        ()
    }
}

impl ReadsAdditions for End {
    ghost Refuses = { λ s e. ⊥ };

    #[inline(always)]
    fn read_additions(
        _alloc: Global,
        _decoder: &mut Decoder<'_>,
        _slots: &mut (),
    ) -> Result<(), DecodeError> {
        Ok(())
    }
}

impl<G: Place, B: Spelled, R: Additions> Additions for OptionalAddition<G, B, R> {
    ghost use Rattle.oer_rows.specs.Schema.{typed, typed_is, optional, optional_is};

    type More = Both<Option<B>, R::More>;

    ghost table = { optional G.tag (typed B.tree B.CONSTRAINTS B.IsValue) (λ v. v.0) (λ v. v.1) R.table };

    ghost is_table = { optional_is G.tag (typed B.tree B.CONSTRAINTS B.IsValue) (λ v. v.0) (λ v. v.1) R.table (typed_is B.tree B.IsValue B.is_tree B.alike B.CONSTRAINTS B.consistent) R.is_table };
}

impl<G: Place, B: Spelled, R: SlottedAdditions> SlottedAdditions for OptionalAddition<G, B, R> {
    ghost use Rattle.oer_rows.specs.Slots.{with_optional, optional_once};

    type Slots = Both<Option<B>, R::Slots>;

    ghost filled = { with_optional R.filled };

    ghost filled_once = { optional_once R.filled R.filled_once };

    #[inline(always)]
    fn empty() -> Self::Slots {
        Both(None, R::empty())
    }

    #[inline(always)]
    fn taken(slots: Self::Slots) -> Self::More {
        let Both(value, rest) = slots;
        Both(value, R::taken(rest))
    }
}

impl<G: Place, B: Decode, R: ReadsAdditions> ReadsAdditions for OptionalAddition<G, B, R> {
    ghost use Rattle.std.specs.Prelude.{Some};
    ghost use Rattle.oer_read.specs.Additions.{Adds};
    ghost use Rattle.oer_rows.specs.Refusals.{RowRefused};

    ghost Refuses = { λ s e. RowRefused (λ r t. Adds (B.tree B.CONSTRAINTS) B.IsValue (B.Answered B.CONSTRAINTS) s (Some G.tag) r t) R.Refuses e };

    #[inline(always)]
    fn read_additions(
        alloc: Global,
        decoder: &mut Decoder<'_>,
        slots: &mut Self::Slots,
    ) -> Result<(), DecodeError> {
        let value = read_addition::<B>(alloc, decoder, G::tag())?;
        slots.0 = value;
        R::read_additions(alloc, decoder, &mut slots.1)?;
        Ok(())
    }
}

impl<R: Additions> Components for Extensible<R> {
    ghost use Rattle.std.specs.Prelude.{true};
    ghost use Rattle.oer_rows.specs.Schema.{added, added_is};

    type Values = R::More;

    ghost EXTENSIBLE = { true };

    const EXTENSIBLE: bool = true;

    ghost schema = { added R.table };

    ghost is_schema = { added_is R.table R.is_table };
}

impl<R: SlottedAdditions> Slotted for Extensible<R> {
    type Slots = R::Slots;

    ghost filled = { R.filled };

    ghost filled_once = { R.filled_once };

    #[inline(always)]
    fn empty() -> R::Slots {
        R::empty()
    }

    #[inline(always)]
    fn taken(slots: R::Slots) -> R::More {
        R::taken(slots)
    }
}

impl<R: ReadsAdditions> Reads for Extensible<R> {
    ghost Refuses = { R.Refuses };

    #[inline(always)]
    fn read(
        alloc: Global,
        decoder: &mut Decoder<'_>,
        slots: &mut R::Slots,
    ) -> Result<(), DecodeError> {
        R::read_additions(alloc, decoder, &mut *slots)?;
        Ok(())
    }
}

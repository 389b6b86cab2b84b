//! Extension additions that hold knots.
ghost use Rattle.std.specs.Prelude.{◌≡◌, Some, OnOk, IfErr};
ghost use Rattle.oer_spec.specs.Tree.{NoRows};
ghost use Rattle.oer_read.specs.Additions.{Adds};
ghost use Rattle.oer_read.specs.Law.{Decodes};
ghost use Rattle.oer_read.specs.Lists.{FnReturnsAtMut};
ghost use Rattle.oer_read.specs.Parts.{NoParts, Takes, Stops};
ghost use Rattle.oer_write.specs.Rows.{InSequence};
ghost use Rattle.oer_rows.specs.Values.{both};
ghost use Rattle.oer_knots.specs.Reading.{ReadsKnots};

use crate::ties::{DecodeKnot, HoldsKnot};
use asn1_core::{DecodeError, EncodeError, Tag};
use oer_read::{Decode, Decoder};
use oer_rows::{
    AdditionViews, Additions, Both, End, OptionalAddition, Place, ReadsAdditions, SlottedAdditions,
    put_optional_addition, read_addition,
};
use oer_spec::Spelled;
use oer_write::{Encode, Encoder};
use std::alloc::Global;
use std::marker::PhantomData;

/// An OPTIONAL addition of type `B`, which holds knots, with the tag `G`, and those after it.
pub struct OptionalAdditionKnot<G, B, R>(PhantomData<(G, B, R)>);

/// Additions by the values of `K` that they hold.
pub trait KnotAdditions<K> {
    ghost use Rattle.std.specs.Prelude.{ℕ};
    ghost use Rattle.oer_rows.specs.Schema.{Typed, Table};
    ghost use Rattle.oer_knots.specs.Additions.{TiesTable};

    /// Their values.
    type More;

    ghost table: { Typed K → Table Self.More };

    /// The most that a value of `K` weighs in the values.
    ghost weight: { (K → ℕ) → Self.More → ℕ };

    ghost ties: { TiesTable table weight };
}

impl<K> KnotAdditions<K> for End {
    ghost use Rattle.oer_rows.specs.Schema.{none, none_is};
    ghost use Rattle.oer_knots.specs.Additions.{plain_table_ties};
    ghost use Rattle.oer_knots.specs.Rows.{no_weight};

    type More = ();

    ghost table = { λ of. none };

    ghost weight = { no_weight };

    ghost ties = { plain_table_ties none none_is };
}

impl<K, G: Place, B: Spelled, R: KnotAdditions<K>> KnotAdditions<K> for OptionalAddition<G, B, R> {
    ghost use Rattle.oer_rows.specs.Schema.{typed, typed_is, optional};
    ghost use Rattle.oer_knots.specs.Additions.{optional_addition_ties};

    type More = Both<Option<B>, R::More>;

    ghost table = { λ of. optional G.tag (typed B.tree B.CONSTRAINTS B.IsValue) (λ v. v.0) (λ v. v.1) (R.table of) };

    ghost weight = { λ size v. R.weight size v.1 };

    ghost ties = { optional_addition_ties G.tag (typed B.tree B.CONSTRAINTS B.IsValue) R.table R.weight R.ties (typed_is B.tree B.IsValue B.is_tree B.alike B.CONSTRAINTS B.consistent) };
}

impl<K, G: Place, B: HoldsKnot<K>, R: KnotAdditions<K>> KnotAdditions<K>
    for OptionalAdditionKnot<G, B, R> {
    ghost use Rattle.oer_rows.specs.Schema.{optional};
    ghost use Rattle.oer_knots.specs.Additions.{optional_addition_weight, optional_addition_knot_ties};

    type More = Both<Option<B>, R::More>;

    ghost table = { λ of. optional G.tag (B.tied of) (λ v. v.0) (λ v. v.1) (R.table of) };

    ghost weight = { optional_addition_weight G.tag B.tied B.weight R.table R.weight B.ties R.ties };

    ghost ties = { optional_addition_knot_ties G.tag B.tied B.weight R.table R.weight B.ties R.ties };
}

impl<G: Place, B: Spelled, R: Additions> Additions for OptionalAdditionKnot<G, B, R> {
    ghost use Rattle.oer_rows.specs.Schema.{typed, typed_is, optional, optional_is};

    type More = Both<Option<B>, R::More>;

    ghost table = { optional G.tag (typed B.tree B.CONSTRAINTS B.IsValue) (λ v. v.0) (λ v. v.1) R.table };

    ghost is_table = { optional_is G.tag (typed B.tree B.CONSTRAINTS B.IsValue) (λ v. v.0) (λ v. v.1) R.table (typed_is B.tree B.IsValue B.is_tree B.alike B.CONSTRAINTS B.consistent) R.is_table };
}

impl<G: Place, B: Spelled, R: SlottedAdditions> SlottedAdditions for OptionalAdditionKnot<G, B, R> {
    ghost use Rattle.oer_rows.specs.Slots.{with_optional, optional_once};

    type Slots = Both<Option<B>, R::Slots>;

    ghost filled = { with_optional R.filled };

    ghost filled_once = { optional_once R.filled R.filled_once };

    fn empty() -> Self::Slots {
        Both(None, R::empty())
    }

    fn taken(slots: Self::Slots) -> Self::More {
        let Both(value, rest) = slots;
        Both(value, R::taken(rest))
    }
}

impl<G: Place, B: Decode, R: ReadsAdditions> ReadsAdditions for OptionalAdditionKnot<G, B, R> {
    ghost use Rattle.oer_rows.specs.Refusals.{RowRefused};

    ghost Refuses = { λ s e. RowRefused (λ r t. Adds (B.tree B.CONSTRAINTS) B.IsValue (B.Answered B.CONSTRAINTS) s (Some G.tag) r t) R.Refuses e };

    fn read_additions(
        alloc: Global,
        decoder: &mut Decoder<'_>,
        slots: &mut Self::Slots,
    ) -> Result<(), DecodeError> {
        let value = read_addition::<B>(alloc, decoder, G::tag())?;
        slots.0 = value;
        R::read_additions(alloc, decoder, &mut slots.1)?;
        Ok(())
    }
}

impl<'v, G: Place, B: Encode + 'v, R: AdditionViews<'v>> AdditionViews<'v>
    for OptionalAdditionKnot<G, B, R> {
    type MoreView = Both<&'v Option<B>, R::MoreView>;

    ghost seen = { λ v. both v.0.now (R.seen v.1) };

    #[inline(always)]
    fn write_additions(
        view: &Both<&'v Option<B>, R::MoreView>,
        encoder: &mut Encoder<'_>,
    ) -> Result<(), EncodeError> {
        put_optional_addition(encoder, G::tag(), view.0)?;
        R::write_additions(&view.1, encoder)
    }
}

/// Additions that are read, each knot in them by what is handed in.
pub trait ReadsKnotAdditions<K: Spelled>: SlottedAdditions {
    ghost use Rattle.oer_knots.specs.Answering.{Refusing};

    /// Why reading them is refused, as `Refuses` of `ReadsAdditions`, by what is said of the knots' answers.
    ghost refusing: { Refusing K };

    /// Reads them into their places, in the order of the row, inside the scope of a sequence behind its root components (X.696,
    /// 16.4); each value of `K` in them by `knot`.
    ///
    /// Refused, the first that applies, as the calls of `Decoder` refuse that read each addition.
    fn read_knot_additions<F: Fn(&mut Decoder<'_>) -> Result<K, DecodeError>>(
        alloc: Global,
        decoder: &mut Decoder<'_>,
        slots: &mut Self::Slots,
        knot: &F,
    ) -> Result<(), DecodeError>
        requires { ReadsKnots F.Fn knot.now (K.tree K.CONSTRAINTS) K.IsValue decoder.old.levels }
        ensures read { OnOk result ((v : Self.More) × (slots.new ≡ Self.filled v) × Takes decoder.old NoParts Self.table.parts NoRows (Self.table.rows v) decoder.new × Self.table.IsValue v) }
        ensures stops { Stops decoder.old NoParts Self.table.parts result }
        ensures refused { IfErr result (λ e. Self.refusing.Refuses (FnReturnsAtMut F.Fn knot.now) decoder.old e) };
}

/// Reads an OPTIONAL addition by its bit, each knot in it by `knot`.
///
/// Refused as `Decoder::decode_extension_addition_with` refuses, with what the addition's type does.
#[inline(always)]
fn read_added<K: Spelled, B: DecodeKnot<K>, F: Fn(&mut Decoder<'_>) -> Result<K, DecodeError>>(
    alloc: Global,
    decoder: &mut Decoder<'_>,
    tag: Tag,
    knot: &F,
) -> Result<Option<B>, DecodeError>
    requires { ReadsKnots F.Fn knot.now (K.tree K.CONSTRAINTS) K.IsValue decoder.old.levels }
    ensures { Adds (B.tree B.CONSTRAINTS) B.IsValue (B.answering.Answered (FnReturnsAtMut F.Fn knot.now)) decoder.old (Some tag) result decoder.new }
{
    decoder.decode_extension_addition_with::<B, _>(
        tag,
        |inner: &mut Decoder<'_>| -> Result<B, DecodeError>
            requires { ReadsKnots F.Fn knot.now (K.tree K.CONSTRAINTS) K.IsValue inner.old.levels }
            ensures law { Decodes (B.tree B.CONSTRAINTS) B.IsValue inner.old result inner.new }
            ensures answered { B.answering.Answered (FnReturnsAtMut F.Fn knot.entry.now) inner.old result inner.new }
        { B::decode_knot(alloc, inner, tag, knot) },
    )
}

impl<K: Spelled> ReadsKnotAdditions<K> for End {
    ghost use Rattle.oer_knots.specs.Answering.{unknotted};

    ghost refusing = { unknotted (λ s e. ⊥) };

    fn read_knot_additions<F: Fn(&mut Decoder<'_>) -> Result<K, DecodeError>>(
        _alloc: Global,
        _decoder: &mut Decoder<'_>,
        _slots: &mut (),
        _knot: &F,
    ) -> Result<(), DecodeError> {
        Ok(())
    }
}

impl<K: Spelled, G: Place, B: Decode, R: ReadsKnotAdditions<K>> ReadsKnotAdditions<K>
    for OptionalAddition<G, B, R> {
    ghost use Rattle.oer_knots.specs.Answering.{plain, before};

    ghost refusing = { before (plain (λ s r t. Adds (B.tree B.CONSTRAINTS) B.IsValue (B.Answered B.CONSTRAINTS) s (Some G.tag) r t)) R.refusing };

    fn read_knot_additions<F: Fn(&mut Decoder<'_>) -> Result<K, DecodeError>>(
        alloc: Global,
        decoder: &mut Decoder<'_>,
        slots: &mut Self::Slots,
        knot: &F,
    ) -> Result<(), DecodeError> {
        let value = read_addition::<B>(alloc, decoder, G::tag())?;
        slots.0 = value;
        R::read_knot_additions(alloc, decoder, &mut slots.1, knot)?;
        Ok(())
    }
}

impl<K: Spelled, G: Place, B: DecodeKnot<K>, R: ReadsKnotAdditions<K>> ReadsKnotAdditions<K>
    for OptionalAdditionKnot<G, B, R> {
    ghost use Rattle.oer_knots.specs.Answering.{added, before};

    ghost refusing = { before (added (B.tree B.CONSTRAINTS) B.IsValue G.tag B.answering) R.refusing };

    fn read_knot_additions<F: Fn(&mut Decoder<'_>) -> Result<K, DecodeError>>(
        alloc: Global,
        decoder: &mut Decoder<'_>,
        slots: &mut Self::Slots,
        knot: &F,
    ) -> Result<(), DecodeError> {
        let value = read_added::<K, B, F>(alloc, decoder, G::tag(), knot)?;
        slots.0 = value;
        R::read_knot_additions(alloc, decoder, &mut slots.1, knot)?;
        Ok(())
    }
}

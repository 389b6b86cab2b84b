//! Further extension additions: required ones, ones with a default, and addition groups.
use crate::additions::{Additions, ReadsAdditions, read_addition};
use crate::both::Both;
use crate::defaults::read_default_addition;
use crate::places::{DefaultValue, Place};
use crate::slots::SlottedAdditions;
use asn1_core::{Constructed, DecodeError, DecodeErrorKind};
use oer_read::{Decode, Decoder};
use oer_spec::Spelled;
use std::alloc::Global;
use std::marker::PhantomData;

/// An addition of type `B` with the tag `G` that is neither OPTIONAL nor DEFAULT, and those after it.
///
/// It is there in each value; octets of an earlier version of the type, which lack it, are refused.
pub struct RequiredAddition<G, B, R>(PhantomData<(G, B, R)>);

/// An addition of type `B` with the tag `G` and the DEFAULT `D`, and those after it.
pub struct DefaultedAddition<G, B, D, R>(PhantomData<(G, B, D, R)>);

/// An addition group `[[ .. ]]`, and the additions after it: `B` is the sequence of its components, with `RC` root
/// components and `EC` additions; the group is there as a whole or not at all.
pub struct AdditionGroup<const RC: usize, const EC: usize, B, R>(PhantomData<(B, R)>);

impl<G: Place, B: Spelled, R: Additions> Additions for RequiredAddition<G, B, R> {
    ghost use Rattle.oer_rows.specs.Schema.{typed, typed_is, needed, required_is};

    type More = Both<B, R::More>;

    ghost table = { needed G.tag (typed B.tree B.CONSTRAINTS B.IsValue) (λ v. v.0) (λ v. v.1) R.table };

    ghost is_table = { required_is G.tag (typed B.tree B.CONSTRAINTS B.IsValue) (λ v. v.0) (λ v. v.1) R.table (typed_is B.tree B.IsValue B.is_tree B.alike B.CONSTRAINTS B.consistent) R.is_table };
}

impl<G: Place, B: Spelled, R: SlottedAdditions> SlottedAdditions for RequiredAddition<G, B, R> {
    ghost use Rattle.oer_rows.specs.Slots.{with_required, required_once};

    type Slots = Both<Option<B>, R::Slots>;

    ghost filled = { with_required R.filled };

    ghost filled_once = { required_once R.filled R.filled_once };

    #[inline(always)]
    fn empty() -> Self::Slots {
        Both(None, R::empty())
    }

    #[inline(always)]
    fn taken(slots: Self::Slots) -> Self::More {
        let Both(value, rest) = slots;
        Both(value.unwrap(), R::taken(rest))
    }
}

impl<G: Place, B: Decode, R: ReadsAdditions> ReadsAdditions for RequiredAddition<G, B, R> {
    ghost use Rattle.oer_rows.specs.Refusals.{AddsRequired, RowRefused};

    ghost Refuses = { λ s e. RowRefused (λ r t. AddsRequired (B.tree B.CONSTRAINTS) B.IsValue (B.Answered B.CONSTRAINTS) s G.tag r t) R.Refuses e };

    #[inline(always)]
    fn read_additions(
        alloc: Global,
        decoder: &mut Decoder<'_>,
        slots: &mut Self::Slots,
    ) -> Result<(), DecodeError> {
        let value = read_addition::<B>(alloc, decoder, G::tag())?;
        match value {
            Some(value) => {
                slots.0 = Some(value);
                R::read_additions(alloc, decoder, &mut slots.1)?;
                Ok(())
            }
            None => Err(DecodeError {
                kind: DecodeErrorKind::RequiredExtensionNotPresent { tag: G::tag() },
                codec: decoder.codec(),
            }),
        }
    }
}

impl<G: Place, B: Spelled + PartialEq, D: DefaultValue<B>, R: Additions> Additions
    for DefaultedAddition<G, B, D, R> {
    ghost use Rattle.oer_rows.specs.Schema.{typed, defaulted, defaulted_is};

    type More = Both<B, R::More>;

    ghost table = { defaulted G.tag (typed B.tree B.CONSTRAINTS B.IsValue) B.eq D.value (λ v. v.0) (λ v. v.1) R.table };

    ghost is_table = { defaulted_is G.tag (typed B.tree B.CONSTRAINTS B.IsValue) B.eq D.value (λ v. v.0) (λ v. v.1) R.table R.is_table };
}

impl<G: Place, B: Spelled + PartialEq, D: DefaultValue<B>, R: SlottedAdditions> SlottedAdditions
    for DefaultedAddition<G, B, D, R> {
    ghost use Rattle.oer_rows.specs.Slots.{with_required, required_once};

    type Slots = Both<Option<B>, R::Slots>;

    ghost filled = { with_required R.filled };

    ghost filled_once = { required_once R.filled R.filled_once };

    #[inline(always)]
    fn empty() -> Self::Slots {
        Both(None, R::empty())
    }

    #[inline(always)]
    fn taken(slots: Self::Slots) -> Self::More {
        let Both(value, rest) = slots;
        Both(value.unwrap(), R::taken(rest))
    }
}

impl<G: Place, B: Decode + PartialEq, D: DefaultValue<B>, R: ReadsAdditions> ReadsAdditions
    for DefaultedAddition<G, B, D, R> {
    ghost use Rattle.oer_rows.specs.DefaultValues.{AddsDefaultValue};
    ghost use Rattle.oer_rows.specs.Refusals.{RowRefused};

    ghost Refuses = { λ s e. RowRefused (λ r t. AddsDefaultValue (B.tree B.CONSTRAINTS) B.IsValue (B.Answered B.CONSTRAINTS) B.eq D.wants_memory s G.tag D.value r t) R.Refuses e };

    #[inline(always)]
    fn read_additions(
        alloc: Global,
        decoder: &mut Decoder<'_>,
        slots: &mut Self::Slots,
    ) -> Result<(), DecodeError> {
        let value = read_default_addition::<D, B>(alloc, decoder, G::tag())?;
        slots.0 = Some(value);
        R::read_additions(alloc, decoder, &mut slots.1)?;
        Ok(())
    }
}

impl<const RC: usize, const EC: usize, B: Spelled + Constructed<RC, EC>, R: Additions> Additions
    for AdditionGroup<RC, EC, B, R> {
    ghost use Rattle.oer_rows.specs.Schema.{typed, typed_is, optional, optional_is};

    type More = Both<Option<B>, R::More>;

    ghost table = { optional B.TAG (typed B.tree B.CONSTRAINTS B.IsValue) (λ v. v.0) (λ v. v.1) R.table };

    ghost is_table = { optional_is B.TAG (typed B.tree B.CONSTRAINTS B.IsValue) (λ v. v.0) (λ v. v.1) R.table (typed_is B.tree B.IsValue B.is_tree B.alike B.CONSTRAINTS B.consistent) R.is_table };
}

impl<
    const RC: usize,
    const EC: usize,
    B: Spelled + Constructed<RC, EC>,
    R: SlottedAdditions,
> SlottedAdditions for AdditionGroup<RC, EC, B, R> {
    ghost use Rattle.oer_rows.specs.Slots.{with_optional, optional_once};

    type Slots = Both<Option<B>, R::Slots>;

    ghost filled = { with_optional R.filled };

    ghost filled_once = { optional_once R.filled R.filled_once };

    #[inline(always)]
    fn empty() -> Self::Slots {
        Both(None, R::empty())
    }

    #[inline(always)]
    fn taken(slots: Self::Slots) -> Self::More {
        let Both(value, rest) = slots;
        Both(value, R::taken(rest))
    }
}

impl<
    const RC: usize,
    const EC: usize,
    B: Decode + Constructed<RC, EC>,
    R: ReadsAdditions,
> ReadsAdditions for AdditionGroup<RC, EC, B, R> {
    ghost use Rattle.std.specs.Prelude.{None};
    ghost use Rattle.oer_read.specs.Additions.{Adds};
    ghost use Rattle.oer_rows.specs.Refusals.{RowRefused};

    ghost Refuses = { λ s e. RowRefused (λ r t. Adds (B.tree B.CONSTRAINTS) B.IsValue (B.Answered B.CONSTRAINTS) s None r t) R.Refuses e };

    #[inline(always)]
    fn read_additions(
        alloc: Global,
        decoder: &mut Decoder<'_>,
        slots: &mut Self::Slots,
    ) -> Result<(), DecodeError> {
        let value = decoder.decode_extension_addition_group::<RC, EC, B>(alloc)?;
        slots.0 = value;
        R::read_additions(alloc, decoder, &mut slots.1)?;
        Ok(())
    }
}

//! Extension additions that no addition with knots stands behind: required ones, ones with a default, and groups.

use crate::additions::{KnotAdditions, ReadsKnotAdditions};
use asn1_core::{Constructed, DecodeError};
use oer_read::{Decode, Decoder};
use oer_rows::{
    AdditionGroup, Additions, Both, DefaultValue, DefaultedAddition, Place, ReadsAdditions,
    RequiredAddition,
};
use oer_spec::Spelled;
use std::alloc::Global;

impl<K, G: Place, B: Spelled, R: Additions> KnotAdditions<K> for RequiredAddition<G, B, R> {
    ghost use Rattle.oer_rows.specs.Schema.{typed, typed_is, needed, required_is};
    ghost use Rattle.oer_knots.specs.Rows.{no_weight};
    ghost use Rattle.oer_knots.specs.Additions.{plain_table_ties};

    type More = Both<B, R::More>;

    ghost table = { λ of. needed G.tag (typed B.tree B.CONSTRAINTS B.IsValue) (λ v. v.0) (λ v. v.1) R.table };

    ghost weight = { no_weight };

    ghost ties = { plain_table_ties (needed G.tag (typed B.tree B.CONSTRAINTS B.IsValue) (λ v. v.0) (λ v. v.1) R.table) (required_is G.tag (typed B.tree B.CONSTRAINTS B.IsValue) (λ v. v.0) (λ v. v.1) R.table (typed_is B.tree B.IsValue B.is_tree B.alike B.CONSTRAINTS B.consistent) R.is_table) };
}

impl<K: Spelled, G: Place, B: Decode, R: ReadsAdditions> ReadsKnotAdditions<K>
    for RequiredAddition<G, B, R> {
    ghost use Rattle.oer_knots.specs.Answering.{unknotted};

    ghost refusing = { unknotted ⟦<RequiredAddition<G, B, R> as ReadsAdditions>⟧.Refuses };

    fn read_knot_additions<F: Fn(&mut Decoder<'_>) -> Result<K, DecodeError>>(
        alloc: Global,
        decoder: &mut Decoder<'_>,
        slots: &mut Self::Slots,
        _knot: &F,
    ) -> Result<(), DecodeError> {
        Self::read_additions(alloc, decoder, slots)
    }
}

impl<K, G: Place, B: Spelled + PartialEq, D: DefaultValue<B>, R: Additions> KnotAdditions<K>
    for DefaultedAddition<G, B, D, R> {
    ghost use Rattle.oer_rows.specs.Schema.{typed, defaulted, defaulted_is};
    ghost use Rattle.oer_knots.specs.Rows.{no_weight};
    ghost use Rattle.oer_knots.specs.Additions.{plain_table_ties};

    type More = Both<B, R::More>;

    ghost table = { λ of. defaulted G.tag (typed B.tree B.CONSTRAINTS B.IsValue) B.eq D.value (λ v. v.0) (λ v. v.1) R.table };

    ghost weight = { no_weight };

    ghost ties = { plain_table_ties (defaulted G.tag (typed B.tree B.CONSTRAINTS B.IsValue) B.eq D.value (λ v. v.0) (λ v. v.1) R.table) (defaulted_is G.tag (typed B.tree B.CONSTRAINTS B.IsValue) B.eq D.value (λ v. v.0) (λ v. v.1) R.table R.is_table) };
}

impl<
    K: Spelled,
    G: Place,
    B: Decode + PartialEq,
    D: DefaultValue<B>,
    R: ReadsAdditions,
> ReadsKnotAdditions<K> for DefaultedAddition<G, B, D, R> {
    ghost use Rattle.oer_knots.specs.Answering.{unknotted};

    ghost refusing = { unknotted ⟦<DefaultedAddition<G, B, D, R> as ReadsAdditions>⟧.Refuses };

    fn read_knot_additions<F: Fn(&mut Decoder<'_>) -> Result<K, DecodeError>>(
        alloc: Global,
        decoder: &mut Decoder<'_>,
        slots: &mut Self::Slots,
        _knot: &F,
    ) -> Result<(), DecodeError> {
        Self::read_additions(alloc, decoder, slots)
    }
}

impl<
    K,
    const RC: usize,
    const EC: usize,
    B: Spelled + Constructed<RC, EC>,
    R: Additions,
> KnotAdditions<K> for AdditionGroup<RC, EC, B, R> {
    ghost use Rattle.oer_rows.specs.Schema.{typed, typed_is, optional, optional_is};
    ghost use Rattle.oer_knots.specs.Rows.{no_weight};
    ghost use Rattle.oer_knots.specs.Additions.{plain_table_ties};

    type More = Both<Option<B>, R::More>;

    ghost table = { λ of. optional B.TAG (typed B.tree B.CONSTRAINTS B.IsValue) (λ v. v.0) (λ v. v.1) R.table };

    ghost weight = { no_weight };

    ghost ties = { plain_table_ties (optional B.TAG (typed B.tree B.CONSTRAINTS B.IsValue) (λ v. v.0) (λ v. v.1) R.table) (optional_is B.TAG (typed B.tree B.CONSTRAINTS B.IsValue) (λ v. v.0) (λ v. v.1) R.table (typed_is B.tree B.IsValue B.is_tree B.alike B.CONSTRAINTS B.consistent) R.is_table) };
}

impl<
    K: Spelled,
    const RC: usize,
    const EC: usize,
    B: Decode + Constructed<RC, EC>,
    R: ReadsAdditions,
> ReadsKnotAdditions<K> for AdditionGroup<RC, EC, B, R> {
    ghost use Rattle.oer_knots.specs.Answering.{unknotted};

    ghost refusing = { unknotted ⟦<AdditionGroup<RC, EC, B, R> as ReadsAdditions>⟧.Refuses };

    fn read_knot_additions<F: Fn(&mut Decoder<'_>) -> Result<K, DecodeError>>(
        alloc: Global,
        decoder: &mut Decoder<'_>,
        slots: &mut Self::Slots,
        _knot: &F,
    ) -> Result<(), DecodeError> {
        Self::read_additions(alloc, decoder, slots)
    }
}

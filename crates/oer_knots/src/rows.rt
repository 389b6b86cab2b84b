//! Rows with components that hold knots: how their trees and values follow from those of the knot.

use crate::additions::KnotAdditions;
use crate::cells::{OptionalKnot, RequiredKnot};
use crate::ties::HoldsKnot;
use oer_rows::{
    Both, Components, DefaultValue, Defaulted, End, Extensible, Optional, Place, Required,
};
use oer_spec::Spelled;

/// A row by the values of `K` that its components hold.
pub trait KnotRow<K> {
    ghost use Rattle.std.specs.Prelude.{Bool, ℕ};
    ghost use Rattle.oer_rows.specs.Schema.{Typed, Schema};
    ghost use Rattle.oer_knots.specs.Rows.{TiesRow};

    /// The values of the row.
    type Values;

    ghost EXTENSIBLE: { Bool };

    /// Whether additions may follow the components.
    const EXTENSIBLE: bool;

    ghost schema: { Typed K → Schema Self.Values };

    /// The most that a value of `K` weighs in the row's values.
    ghost weight: { (K → ℕ) → Self.Values → ℕ };

    ghost ties: { TiesRow schema EXTENSIBLE weight };
}

impl<K> KnotRow<K> for End {
    ghost use Rattle.std.specs.Prelude.{false};
    ghost use Rattle.oer_rows.specs.Schema.{empty, empty_is};
    ghost use Rattle.oer_knots.specs.Rows.{no_weight, plain_ties};

    type Values = ();

    ghost EXTENSIBLE = { false };

    const EXTENSIBLE: bool = false;

    ghost schema = { λ of. empty };

    ghost weight = { no_weight };

    ghost ties = { plain_ties empty false empty_is };
}

impl<K, R: KnotAdditions<K>> KnotRow<K> for Extensible<R> {
    ghost use Rattle.std.specs.Prelude.{true};
    ghost use Rattle.oer_rows.specs.Schema.{added};
    ghost use Rattle.oer_knots.specs.Additions.{extended_ties};

    type Values = R::More;

    ghost EXTENSIBLE = { true };

    const EXTENSIBLE: bool = true;

    ghost schema = { λ of. added (R.table of) };

    ghost weight = { R.weight };

    ghost ties = { extended_ties R.table R.weight R.ties };
}

impl<K, G: Place, B: Spelled, R: KnotRow<K>> KnotRow<K> for Required<G, B, R> {
    ghost use Rattle.oer_rows.specs.Schema.{typed, typed_is, required_then};
    ghost use Rattle.oer_knots.specs.Rows.{required_ties};

    type Values = Both<B, R::Values>;

    ghost EXTENSIBLE = { R.EXTENSIBLE };

    const EXTENSIBLE: bool = R::EXTENSIBLE;

    ghost schema = { λ of. required_then G.tag (typed B.tree B.CONSTRAINTS B.IsValue) (R.schema of) };

    ghost weight = { λ size v. R.weight size v.1 };

    ghost ties = { required_ties G.tag (typed B.tree B.CONSTRAINTS B.IsValue) R.schema R.EXTENSIBLE R.weight R.ties (typed_is B.tree B.IsValue B.is_tree B.alike B.CONSTRAINTS B.consistent) };
}

impl<K, G: Place, B: Spelled, R: KnotRow<K>> KnotRow<K> for Optional<G, B, R> {
    ghost use Rattle.oer_rows.specs.Schema.{typed, typed_is, optional_then};
    ghost use Rattle.oer_knots.specs.Rows.{optional_ties};

    type Values = Both<Option<B>, R::Values>;

    ghost EXTENSIBLE = { R.EXTENSIBLE };

    const EXTENSIBLE: bool = R::EXTENSIBLE;

    ghost schema = { λ of. optional_then G.tag (typed B.tree B.CONSTRAINTS B.IsValue) (R.schema of) };

    ghost weight = { λ size v. R.weight size v.1 };

    ghost ties = { optional_ties G.tag (typed B.tree B.CONSTRAINTS B.IsValue) R.schema R.EXTENSIBLE R.weight R.ties (typed_is B.tree B.IsValue B.is_tree B.alike B.CONSTRAINTS B.consistent) };
}

impl<K, G: Place, B: Spelled + PartialEq, D: DefaultValue<B>, R: KnotRow<K>> KnotRow<K>
    for Defaulted<G, B, D, R> {
    ghost use Rattle.oer_rows.specs.Schema.{typed, default_then};
    ghost use Rattle.oer_knots.specs.Rows.{default_ties};

    type Values = Both<B, R::Values>;

    ghost EXTENSIBLE = { R.EXTENSIBLE };

    const EXTENSIBLE: bool = R::EXTENSIBLE;

    ghost schema = { λ of. default_then G.tag (typed B.tree B.CONSTRAINTS B.IsValue) B.eq D.value (R.schema of) };

    ghost weight = { λ size v. R.weight size v.1 };

    ghost ties = { default_ties G.tag (typed B.tree B.CONSTRAINTS B.IsValue) R.schema R.EXTENSIBLE R.weight R.ties B.eq D.value };
}

impl<K, G: Place, B: HoldsKnot<K>, R: KnotRow<K>> KnotRow<K> for RequiredKnot<G, B, R> {
    ghost use Rattle.oer_rows.specs.Schema.{required_then};
    ghost use Rattle.oer_knots.specs.Rows.{required_weight, required_knot_ties};

    type Values = Both<B, R::Values>;

    ghost EXTENSIBLE = { R.EXTENSIBLE };

    const EXTENSIBLE: bool = R::EXTENSIBLE;

    ghost schema = { λ of. required_then G.tag (B.tied of) (R.schema of) };

    ghost weight = { required_weight G.tag B.tied B.weight R.schema R.EXTENSIBLE R.weight B.ties R.ties };

    ghost ties = { required_knot_ties G.tag B.tied B.weight R.schema R.EXTENSIBLE R.weight B.ties R.ties };
}

impl<K, G: Place, B: HoldsKnot<K>, R: KnotRow<K>> KnotRow<K> for OptionalKnot<G, B, R> {
    ghost use Rattle.oer_rows.specs.Schema.{optional_then};
    ghost use Rattle.oer_knots.specs.Rows.{optional_weight, optional_knot_ties};

    type Values = Both<Option<B>, R::Values>;

    ghost EXTENSIBLE = { R.EXTENSIBLE };

    const EXTENSIBLE: bool = R::EXTENSIBLE;

    ghost schema = { λ of. optional_then G.tag (B.tied of) (R.schema of) };

    ghost weight = { optional_weight G.tag B.tied B.weight R.schema R.EXTENSIBLE R.weight B.ties R.ties };

    ghost ties = { optional_knot_ties G.tag B.tied B.weight R.schema R.EXTENSIBLE R.weight B.ties R.ties };
}

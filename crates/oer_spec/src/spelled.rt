//! The tree of each value, by which every other contract speaks of types.

mod identifiers;
mod integers;
mod strings;
mod times;

use asn1_core::{AsnType, SetOf};

/// A type each of whose values has a tree.
///
/// It has no call: it says which tree a value has under constraints that are handed in, which values the type admits,
/// that each such tree is one, and that the trees of any two admitted values are alike. A type that is written or read
/// (`Encode`, `Decode`) is `Spelled`, and their contracts speak of this tree. docs/ENCODING.md has the tree of each kind
/// of value.
pub trait Spelled: AsnType + Drop {
    ghost use Rattle.std.specs.Prelude.{◌≡◌};
    ghost use Rattle.asn1_core.specs.declared.constraints.Constraints.{Constraints};
    ghost use Rattle.oer_spec.specs.Tree.{Tree};
    ghost use Rattle.oer_spec.specs.Encoding.{IsTree};
    ghost use Rattle.oer_spec.specs.Same.{Alike};
    ghost use Rattle.oer_spec.specs.Spelled.{IsConsistent};

    /// The tree of a value under constraints.
    ghost tree: { Constraints → Self → Tree };

    /// The values that the type admits.
    ghost IsValue: { Self → Type 0 };

    /// The tree of an admitted value keeps what every tree keeps.
    ghost is_tree: { (c : Constraints) → IsConsistent c → (v : Self) → IsValue v → IsTree (tree c v) };

    /// The trees of two admitted values could be of one type.
    ghost alike: { (c : Constraints) → IsConsistent c → (v w : Self) → IsValue v → IsValue w → Alike (tree c v) (tree c w) };
}

/// A type whose `==` is equality of trees.
pub trait EqualAsSpelled: Spelled + PartialEq {
    ghost use Rattle.asn1_core.specs.declared.constraints.Constraints.{Constraints};
    ghost use Rattle.oer_spec.specs.Same.{Same};
    ghost use Rattle.oer_spec.specs.Spelled.{IsConsistent};
    ghost use Rattle.std.specs.Bool.{Decides};

    /// Two admitted values are equal exactly where their trees are same.
    ghost eq_is_same: { (c : Constraints) → IsConsistent c → (v w : Self) → Self.IsValue v → Self.IsValue w → Decides (Self.eq v w) (Same (Self.tree c v) (Self.tree c w)) };
}

impl Spelled for bool {
    ghost use Rattle.oer_spec.specs.Spelled.{IsAny, boolean, boolean_is, booleans_alike};

    ghost tree = { λ c b. boolean b };

    ghost IsValue = { IsAny };

    ghost is_tree = { λ c k b i. boolean_is b };

    ghost alike = { λ c k a b i j. booleans_alike a b };
}

impl Spelled for () {
    ghost use Rattle.oer_spec.specs.Spelled.{IsAny, null, null_is, nulls_alike};

    ghost tree = { λ c v. null v };

    ghost IsValue = { IsAny };

    ghost is_tree = { λ c k v i. null_is v };

    ghost alike = { λ c k v w i j. nulls_alike v w };
}

/// A box is its content.
impl<T: Spelled> Spelled for Box<T> {
    ghost tree = { λ c b. T.tree c b.value };

    ghost IsValue = { λ b. T.IsValue b.value };

    ghost is_tree = { λ c k b i. T.is_tree c k b.value i };

    ghost alike = { λ c k a b i j. T.alike c k a.value b.value i j };
}

impl<T: Spelled> Spelled for Vec<T> {
    ghost use Rattle.std.specs.Prelude.{true};
    ghost use Rattle.oer_spec.specs.Spelled.{EachValue, list_of, list_is, lists_alike};

    ghost tree = { λ c vs. list_of true (T.tree T.CONSTRAINTS) vs.items };

    ghost IsValue = { λ vs. EachValue T.IsValue vs.items };

    ghost is_tree = { λ c k vs i. list_is (T.tree T.CONSTRAINTS) T.IsValue true (T.is_tree T.CONSTRAINTS T.consistent) vs.items i };

    ghost alike = { λ c k vs ws i j. lists_alike (T.tree T.CONSTRAINTS) T.IsValue true (T.alike T.CONSTRAINTS T.consistent) vs.items ws.items i j };
}

/// A list whose order doesn't count.
impl<T: Spelled> Spelled for SetOf<T> {
    ghost use Rattle.std.specs.Prelude.{false};
    ghost use Rattle.oer_spec.specs.Spelled.{EachValue, list_of, list_is, lists_alike};

    ghost tree = { λ c vs. list_of false (T.tree T.CONSTRAINTS) vs };

    ghost IsValue = { λ vs. EachValue T.IsValue vs };

    ghost is_tree = { λ c k vs i. list_is (T.tree T.CONSTRAINTS) T.IsValue false (T.is_tree T.CONSTRAINTS T.consistent) vs i };

    ghost alike = { λ c k vs ws i j. lists_alike (T.tree T.CONSTRAINTS) T.IsValue false (T.alike T.CONSTRAINTS T.consistent) vs ws i j };
}

impl EqualAsSpelled for bool {
    ghost use Rattle.oer_spec.specs.Spelled.{booleans_same};

    ghost eq_is_same = { λ c k a b i j. booleans_same a b };
}

impl EqualAsSpelled for () {
    ghost use Rattle.oer_spec.specs.Spelled.{nulls_same};
    ghost use Rattle.std.specs.Prelude.{refl};

    ghost eq_is_same = { λ c k v w i j. (λ e. nulls_same v w, λ s. refl) };
}

impl<T: EqualAsSpelled> EqualAsSpelled for Vec<T> {
    ghost use Rattle.oer_spec.specs.Spelled.{lists_same};

    ghost eq_is_same = { λ c k vs ws i j. lists_same (T.tree T.CONSTRAINTS) T.IsValue T.eq (T.eq_is_same T.CONSTRAINTS T.consistent) vs.items ws.items i j };
}

impl<T: EqualAsSpelled + Eq> EqualAsSpelled for SetOf<T> {
    ghost use Rattle.oer_spec.specs.SpelledSets.{unordered_same};

    ghost eq_is_same = { λ c k vs ws i j. unordered_same (T.tree T.CONSTRAINTS) T.IsValue T.eq T.Eq.laws (T.eq_is_same T.CONSTRAINTS T.consistent) vs ws i j };
}

/// A box is equal where its content is.
impl<T: EqualAsSpelled> EqualAsSpelled for Box<T> {
    ghost eq_is_same = { λ c k a b i j. T.eq_is_same c k a.value b.value i j };
}

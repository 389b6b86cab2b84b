//! The trees of integers: the bounds of the value constraint, and the number.

use crate::spelled::{EqualAsSpelled, Spelled};
use asn1_ints::{ConstrainedInteger, Integer, IntegerRange, IntegerType};

impl Spelled for i8 {
    ghost use Rattle.std.specs.Prelude.{◌≡◌, true};
    ghost use Rattle.oer_spec.specs.Spelled.{integer, integer_is, integers_alike};

    ghost tree = { λ c v. integer c (⟦<i8 as IntegerType>⟧.number v) };

    ghost IsValue = { λ v. ⟦<i8 as IntegerType>⟧.admits (⟦<i8 as IntegerType>⟧.number v) ≡ true };

    ghost is_tree = { λ c k v i. integer_is c (⟦<i8 as IntegerType>⟧.number v) };

    ghost alike = { λ c k v w i j. integers_alike c (⟦<i8 as IntegerType>⟧.number v) (⟦<i8 as IntegerType>⟧.number w) };
}

impl EqualAsSpelled for i8 {
    ghost use Rattle.oer_spec.specs.Spelled.{integers_same};

    ghost eq_is_same = { λ c k m n i j. integers_same c m n };
}

impl Spelled for i16 {
    ghost use Rattle.std.specs.Prelude.{◌≡◌, true};
    ghost use Rattle.oer_spec.specs.Spelled.{integer, integer_is, integers_alike};

    ghost tree = { λ c v. integer c (⟦<i16 as IntegerType>⟧.number v) };

    ghost IsValue = { λ v. ⟦<i16 as IntegerType>⟧.admits (⟦<i16 as IntegerType>⟧.number v) ≡ true };

    ghost is_tree = { λ c k v i. integer_is c (⟦<i16 as IntegerType>⟧.number v) };

    ghost alike = { λ c k v w i j. integers_alike c (⟦<i16 as IntegerType>⟧.number v) (⟦<i16 as IntegerType>⟧.number w) };
}

impl EqualAsSpelled for i16 {
    ghost use Rattle.oer_spec.specs.Spelled.{integers_same};

    ghost eq_is_same = { λ c k m n i j. integers_same c m n };
}

impl Spelled for i32 {
    ghost use Rattle.std.specs.Prelude.{◌≡◌, true};
    ghost use Rattle.oer_spec.specs.Spelled.{integer, integer_is, integers_alike};

    ghost tree = { λ c v. integer c (⟦<i32 as IntegerType>⟧.number v) };

    ghost IsValue = { λ v. ⟦<i32 as IntegerType>⟧.admits (⟦<i32 as IntegerType>⟧.number v) ≡ true };

    ghost is_tree = { λ c k v i. integer_is c (⟦<i32 as IntegerType>⟧.number v) };

    ghost alike = { λ c k v w i j. integers_alike c (⟦<i32 as IntegerType>⟧.number v) (⟦<i32 as IntegerType>⟧.number w) };
}

impl EqualAsSpelled for i32 {
    ghost use Rattle.oer_spec.specs.Spelled.{integers_same};

    ghost eq_is_same = { λ c k m n i j. integers_same c m n };
}

impl Spelled for i64 {
    ghost use Rattle.std.specs.Prelude.{◌≡◌, true};
    ghost use Rattle.oer_spec.specs.Spelled.{integer, integer_is, integers_alike};

    ghost tree = { λ c v. integer c (⟦<i64 as IntegerType>⟧.number v) };

    ghost IsValue = { λ v. ⟦<i64 as IntegerType>⟧.admits (⟦<i64 as IntegerType>⟧.number v) ≡ true };

    ghost is_tree = { λ c k v i. integer_is c (⟦<i64 as IntegerType>⟧.number v) };

    ghost alike = { λ c k v w i j. integers_alike c (⟦<i64 as IntegerType>⟧.number v) (⟦<i64 as IntegerType>⟧.number w) };
}

impl EqualAsSpelled for i64 {
    ghost use Rattle.oer_spec.specs.Spelled.{integers_same};

    ghost eq_is_same = { λ c k m n i j. integers_same c m n };
}

impl Spelled for i128 {
    ghost use Rattle.std.specs.Prelude.{◌≡◌, true};
    ghost use Rattle.oer_spec.specs.Spelled.{integer, integer_is, integers_alike};

    ghost tree = { λ c v. integer c (⟦<i128 as IntegerType>⟧.number v) };

    ghost IsValue = { λ v. ⟦<i128 as IntegerType>⟧.admits (⟦<i128 as IntegerType>⟧.number v) ≡ true };

    ghost is_tree = { λ c k v i. integer_is c (⟦<i128 as IntegerType>⟧.number v) };

    ghost alike = { λ c k v w i j. integers_alike c (⟦<i128 as IntegerType>⟧.number v) (⟦<i128 as IntegerType>⟧.number w) };
}

impl EqualAsSpelled for i128 {
    ghost use Rattle.oer_spec.specs.Spelled.{integers_same};

    ghost eq_is_same = { λ c k m n i j. integers_same c m n };
}

impl Spelled for isize {
    ghost use Rattle.std.specs.Prelude.{◌≡◌, true};
    ghost use Rattle.oer_spec.specs.Spelled.{integer, integer_is, integers_alike};

    ghost tree = { λ c v. integer c (⟦<isize as IntegerType>⟧.number v) };

    ghost IsValue = { λ v. ⟦<isize as IntegerType>⟧.admits (⟦<isize as IntegerType>⟧.number v) ≡ true };

    ghost is_tree = { λ c k v i. integer_is c (⟦<isize as IntegerType>⟧.number v) };

    ghost alike = { λ c k v w i j. integers_alike c (⟦<isize as IntegerType>⟧.number v) (⟦<isize as IntegerType>⟧.number w) };
}

impl EqualAsSpelled for isize {
    ghost use Rattle.oer_spec.specs.Spelled.{integers_same};

    ghost eq_is_same = { λ c k m n i j. integers_same c m n };
}

impl Spelled for u8 {
    ghost use Rattle.std.specs.Prelude.{◌≡◌, true};
    ghost use Rattle.oer_spec.specs.Spelled.{integer, integer_is, integers_alike};

    ghost tree = { λ c v. integer c (⟦<u8 as IntegerType>⟧.number v) };

    ghost IsValue = { λ v. ⟦<u8 as IntegerType>⟧.admits (⟦<u8 as IntegerType>⟧.number v) ≡ true };

    ghost is_tree = { λ c k v i. integer_is c (⟦<u8 as IntegerType>⟧.number v) };

    ghost alike = { λ c k v w i j. integers_alike c (⟦<u8 as IntegerType>⟧.number v) (⟦<u8 as IntegerType>⟧.number w) };
}

impl EqualAsSpelled for u8 {
    ghost use Rattle.oer_spec.specs.Spelled.{naturals_same};

    ghost eq_is_same = { λ c k m n i j. naturals_same c m n };
}

impl Spelled for u16 {
    ghost use Rattle.std.specs.Prelude.{◌≡◌, true};
    ghost use Rattle.oer_spec.specs.Spelled.{integer, integer_is, integers_alike};

    ghost tree = { λ c v. integer c (⟦<u16 as IntegerType>⟧.number v) };

    ghost IsValue = { λ v. ⟦<u16 as IntegerType>⟧.admits (⟦<u16 as IntegerType>⟧.number v) ≡ true };

    ghost is_tree = { λ c k v i. integer_is c (⟦<u16 as IntegerType>⟧.number v) };

    ghost alike = { λ c k v w i j. integers_alike c (⟦<u16 as IntegerType>⟧.number v) (⟦<u16 as IntegerType>⟧.number w) };
}

impl EqualAsSpelled for u16 {
    ghost use Rattle.oer_spec.specs.Spelled.{naturals_same};

    ghost eq_is_same = { λ c k m n i j. naturals_same c m n };
}

impl Spelled for u32 {
    ghost use Rattle.std.specs.Prelude.{◌≡◌, true};
    ghost use Rattle.oer_spec.specs.Spelled.{integer, integer_is, integers_alike};

    ghost tree = { λ c v. integer c (⟦<u32 as IntegerType>⟧.number v) };

    ghost IsValue = { λ v. ⟦<u32 as IntegerType>⟧.admits (⟦<u32 as IntegerType>⟧.number v) ≡ true };

    ghost is_tree = { λ c k v i. integer_is c (⟦<u32 as IntegerType>⟧.number v) };

    ghost alike = { λ c k v w i j. integers_alike c (⟦<u32 as IntegerType>⟧.number v) (⟦<u32 as IntegerType>⟧.number w) };
}

impl EqualAsSpelled for u32 {
    ghost use Rattle.oer_spec.specs.Spelled.{naturals_same};

    ghost eq_is_same = { λ c k m n i j. naturals_same c m n };
}

impl Spelled for u64 {
    ghost use Rattle.std.specs.Prelude.{◌≡◌, true};
    ghost use Rattle.oer_spec.specs.Spelled.{integer, integer_is, integers_alike};

    ghost tree = { λ c v. integer c (⟦<u64 as IntegerType>⟧.number v) };

    ghost IsValue = { λ v. ⟦<u64 as IntegerType>⟧.admits (⟦<u64 as IntegerType>⟧.number v) ≡ true };

    ghost is_tree = { λ c k v i. integer_is c (⟦<u64 as IntegerType>⟧.number v) };

    ghost alike = { λ c k v w i j. integers_alike c (⟦<u64 as IntegerType>⟧.number v) (⟦<u64 as IntegerType>⟧.number w) };
}

impl EqualAsSpelled for u64 {
    ghost use Rattle.oer_spec.specs.Spelled.{naturals_same};

    ghost eq_is_same = { λ c k m n i j. naturals_same c m n };
}

impl Spelled for u128 {
    ghost use Rattle.std.specs.Prelude.{◌≡◌, true};
    ghost use Rattle.oer_spec.specs.Spelled.{integer, integer_is, integers_alike};

    ghost tree = { λ c v. integer c (⟦<u128 as IntegerType>⟧.number v) };

    ghost IsValue = { λ v. ⟦<u128 as IntegerType>⟧.admits (⟦<u128 as IntegerType>⟧.number v) ≡ true };

    ghost is_tree = { λ c k v i. integer_is c (⟦<u128 as IntegerType>⟧.number v) };

    ghost alike = { λ c k v w i j. integers_alike c (⟦<u128 as IntegerType>⟧.number v) (⟦<u128 as IntegerType>⟧.number w) };
}

impl EqualAsSpelled for u128 {
    ghost use Rattle.oer_spec.specs.Spelled.{naturals_same};

    ghost eq_is_same = { λ c k m n i j. naturals_same c m n };
}

impl Spelled for usize {
    ghost use Rattle.std.specs.Prelude.{◌≡◌, true};
    ghost use Rattle.oer_spec.specs.Spelled.{integer, integer_is, integers_alike};

    ghost tree = { λ c v. integer c (⟦<usize as IntegerType>⟧.number v) };

    ghost IsValue = { λ v. ⟦<usize as IntegerType>⟧.admits (⟦<usize as IntegerType>⟧.number v) ≡ true };

    ghost is_tree = { λ c k v i. integer_is c (⟦<usize as IntegerType>⟧.number v) };

    ghost alike = { λ c k v w i j. integers_alike c (⟦<usize as IntegerType>⟧.number v) (⟦<usize as IntegerType>⟧.number w) };
}

impl EqualAsSpelled for usize {
    ghost use Rattle.oer_spec.specs.Spelled.{naturals_same};

    ghost eq_is_same = { λ c k m n i j. naturals_same c m n };
}

impl Spelled for Integer {
    ghost use Rattle.std.specs.Prelude.{◌≡◌, true};
    ghost use Rattle.oer_spec.specs.Spelled.{integer, integer_is, integers_alike};

    ghost tree = { λ c v. integer c (⟦<Integer as IntegerType>⟧.number v) };

    ghost IsValue = { λ v. ⟦<Integer as IntegerType>⟧.admits (⟦<Integer as IntegerType>⟧.number v) ≡ true };

    ghost is_tree = { λ c k v i. integer_is c (⟦<Integer as IntegerType>⟧.number v) };

    ghost alike = { λ c k v w i j. integers_alike c (⟦<Integer as IntegerType>⟧.number v) (⟦<Integer as IntegerType>⟧.number w) };
}

impl EqualAsSpelled for Integer {
    ghost use Rattle.oer_spec.specs.Spelled.{integers_same};

    ghost eq_is_same = { λ c k m n i j. integers_same c m n };
}

impl<R: IntegerRange> Spelled for ConstrainedInteger<R> {
    ghost use Rattle.std.specs.Prelude.{◌≡◌, true};
    ghost use Rattle.oer_spec.specs.Spelled.{integer, integer_is, integers_alike};

    ghost tree = { λ c v. integer c (⟦<ConstrainedInteger<R> as IntegerType>⟧.number v) };

    ghost IsValue = { λ v. ⟦<ConstrainedInteger<R> as IntegerType>⟧.admits (⟦<ConstrainedInteger<R> as IntegerType>⟧.number v) ≡ true };

    ghost is_tree = { λ c k v i. integer_is c (⟦<ConstrainedInteger<R> as IntegerType>⟧.number v) };

    ghost alike = { λ c k v w i j. integers_alike c (⟦<ConstrainedInteger<R> as IntegerType>⟧.number v) (⟦<ConstrainedInteger<R> as IntegerType>⟧.number w) };
}

impl<R: IntegerRange> EqualAsSpelled for ConstrainedInteger<R> {
    ghost use Rattle.oer_spec.specs.Spelled.{integers_same};

    ghost eq_is_same = { λ c k m n i j. integers_same c m n };
}

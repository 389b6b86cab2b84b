//! Integers of a range.
ghost use Rattle.std.specs.Prelude.{pos, refl, ◌^◌, negsuc};

use asn1_ints::{ConstrainedInteger, IntegerRange};

/// From 0 to 2^64, which takes more than 8 octets.
#[derive(Drop)]
pub enum FromZeroTo64Bits {}

impl IntegerRange for FromZeroTo64Bits {
    ghost MIN = { pos 0 };

    const MIN: i128 = 0;

    ghost MAX = { pos (2 ^ 64) };

    const MAX: i128 = 18446744073709551616;

    ghost holds_number = { refl };
}

/// From -5 to 5.
#[derive(Drop)]
pub enum FiveAroundZero {}

impl IntegerRange for FiveAroundZero {
    ghost MIN = { negsuc 4 };

    const MIN: i128 = -5;

    ghost MAX = { pos 5 };

    const MAX: i128 = 5;

    ghost holds_number = { refl };
}

/// `INTEGER (0..18446744073709551616)`
pub type GreatPositive = ConstrainedInteger<FromZeroTo64Bits>;

/// `INTEGER (-5..5)`
pub type Small = ConstrainedInteger<FiveAroundZero>;

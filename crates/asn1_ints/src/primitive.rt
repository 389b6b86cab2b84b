//! Rust's integer types as types that an INTEGER is held in: those within i128 by one trait, and u128.
ghost use Rattle.std.specs.Prelude.{◌≡◌, ℤ, Bool, true, false, cond, Some, None, option_map};
ghost use Rattle.asn1_core.specs.Numbers.{in_i128};

use crate::integer_type::IntegerType;
use crate::octets::{
    i128_of, signed_u128_of, u128_of, unsigned_i128_of, value_or_refusal, write_i128,
    write_signed_u128, write_u128,
};
use asn1_core::{AsnType, Codec, DecodeError};
use std::alloc::{AllocError, Global};

/// One of Rust's integer types whose numbers are all in i128.
pub trait PrimitiveInteger: AsnType + Copy {
    /// The number of a value, and the numbers of the type.
    ghost value: { Self → ℤ };

    ghost is_value: { ℤ → Bool };

    /// The value of a number, where the type has it.
    fn from_i128(n: i128) -> Option<Self>
        ensures { option_map value result ≡ cond (is_value n) (Some n) None };

    /// The value's number.
    fn as_i128(self) -> i128
        ensures value { result ≡ value self }
        ensures admitted { is_value (value self) ≡ true };

    /// The type's numbers are within i128.
    ghost within: { (n : ℤ) → in_i128 n ≡ false → is_value n ≡ false };
}

impl<T: PrimitiveInteger> IntegerType for T {
    ghost number = { T.value };

    ghost admits = { T.is_value };

    ghost TAKES_MEMORY = { false };

    const TAKES_MEMORY: bool = false;

    fn try_from_signed_bytes(
        _alloc: Global,
        octets: &[u8],
        codec: Codec,
    ) -> Result<T, DecodeError> {
        let value = match i128_of(octets) {
            Some(n) => T::from_i128(n),
            None => None,
        };
        value_or_refusal(octets, value, codec)
    }

    fn try_from_unsigned_bytes(
        _alloc: Global,
        octets: &[u8],
        codec: Codec,
    ) -> Result<T, DecodeError> {
        let value = match unsigned_i128_of(octets) {
            Some(n) => T::from_i128(n),
            None => None,
        };
        value_or_refusal(octets, value, codec)
    }

    fn to_i128(&self) -> Option<i128> {
        Some(self.as_i128())
    }

    fn is_negative(&self) -> bool {
        self.as_i128() < 0
    }

    fn write_signed_bytes_be(&self, out: &mut Vec<u8>) -> Result<(), AllocError> {
        write_i128(self.as_i128(), out)
    }

    fn write_unsigned_bytes_be(&self, out: &mut Vec<u8>) -> Result<(), AllocError> {
        write_u128(self.as_i128() as u128, out)
    }
}

impl PrimitiveInteger for u8 {
    ghost use Rattle.std.specs.Prelude.{pos, refl, ◌^◌};
    ghost use Rattle.asn1_ints.specs.Numbers.{is_below};
    ghost use Rattle.asn1_ints.specs.Widths.{is_below-within};

    ghost value = { pos };

    ghost is_value = { is_below (2 ^ 8) };

    ghost within = { is_below-within (2 ^ 8) refl };

    fn from_i128(n: i128) -> Option<u8> {
        u8::try_from(n).ok()
    }

    fn as_i128(self) -> i128 {
        self as i128
    }
}

impl PrimitiveInteger for u16 {
    ghost use Rattle.std.specs.Prelude.{pos, refl, ◌^◌};
    ghost use Rattle.asn1_ints.specs.Numbers.{is_below};
    ghost use Rattle.asn1_ints.specs.Widths.{is_below-within};

    ghost value = { pos };

    ghost is_value = { is_below (2 ^ 16) };

    ghost within = { is_below-within (2 ^ 16) refl };

    fn from_i128(n: i128) -> Option<u16> {
        u16::try_from(n).ok()
    }

    fn as_i128(self) -> i128 {
        self as i128
    }
}

impl PrimitiveInteger for u32 {
    ghost use Rattle.std.specs.Prelude.{pos, refl, ◌^◌};
    ghost use Rattle.asn1_ints.specs.Numbers.{is_below};
    ghost use Rattle.asn1_ints.specs.Widths.{is_below-within};

    ghost value = { pos };

    ghost is_value = { is_below (2 ^ 32) };

    ghost within = { is_below-within (2 ^ 32) refl };

    fn from_i128(n: i128) -> Option<u32> {
        u32::try_from(n).ok()
    }

    fn as_i128(self) -> i128 {
        self as i128
    }
}

impl PrimitiveInteger for u64 {
    ghost use Rattle.std.specs.Prelude.{pos, refl, ◌^◌};
    ghost use Rattle.asn1_ints.specs.Numbers.{is_below};
    ghost use Rattle.asn1_ints.specs.Widths.{is_below-within};

    ghost value = { pos };

    ghost is_value = { is_below (2 ^ 64) };

    ghost within = { is_below-within (2 ^ 64) refl };

    fn from_i128(n: i128) -> Option<u64> {
        u64::try_from(n).ok()
    }

    fn as_i128(self) -> i128 {
        self as i128
    }
}

impl PrimitiveInteger for usize {
    ghost use Rattle.std.specs.Prelude.{pos, refl, ◌^◌};
    ghost use Rattle.asn1_ints.specs.Numbers.{is_below};
    ghost use Rattle.asn1_ints.specs.Widths.{is_below-within};

    ghost value = { pos };

    ghost is_value = { is_below (2 ^ 64) };

    ghost within = { is_below-within (2 ^ 64) refl };

    fn from_i128(n: i128) -> Option<usize> {
        usize::try_from(n).ok()
    }

    fn as_i128(self) -> i128 {
        self as i128
    }
}

impl PrimitiveInteger for i8 {
    ghost use Rattle.std.specs.Prelude.{refl, ◌^◌};
    ghost use Rattle.asn1_ints.specs.Numbers.{is_within};
    ghost use Rattle.asn1_ints.specs.Widths.{is_within-within};

    ghost value = { λ n. n };

    ghost is_value = { is_within (2 ^ 7) };

    ghost within = { is_within-within (2 ^ 7) refl };

    fn from_i128(n: i128) -> Option<i8> {
        i8::try_from(n).ok()
    }

    fn as_i128(self) -> i128 {
        self as i128
    }
}

impl PrimitiveInteger for i16 {
    ghost use Rattle.std.specs.Prelude.{refl, ◌^◌};
    ghost use Rattle.asn1_ints.specs.Numbers.{is_within};
    ghost use Rattle.asn1_ints.specs.Widths.{is_within-within};

    ghost value = { λ n. n };

    ghost is_value = { is_within (2 ^ 15) };

    ghost within = { is_within-within (2 ^ 15) refl };

    fn from_i128(n: i128) -> Option<i16> {
        i16::try_from(n).ok()
    }

    fn as_i128(self) -> i128 {
        self as i128
    }
}

impl PrimitiveInteger for i32 {
    ghost use Rattle.std.specs.Prelude.{refl, ◌^◌};
    ghost use Rattle.asn1_ints.specs.Numbers.{is_within};
    ghost use Rattle.asn1_ints.specs.Widths.{is_within-within};

    ghost value = { λ n. n };

    ghost is_value = { is_within (2 ^ 31) };

    ghost within = { is_within-within (2 ^ 31) refl };

    fn from_i128(n: i128) -> Option<i32> {
        i32::try_from(n).ok()
    }

    fn as_i128(self) -> i128 {
        self as i128
    }
}

impl PrimitiveInteger for i64 {
    ghost use Rattle.std.specs.Prelude.{refl, ◌^◌};
    ghost use Rattle.asn1_ints.specs.Numbers.{is_within};
    ghost use Rattle.asn1_ints.specs.Widths.{is_within-within};

    ghost value = { λ n. n };

    ghost is_value = { is_within (2 ^ 63) };

    ghost within = { is_within-within (2 ^ 63) refl };

    fn from_i128(n: i128) -> Option<i64> {
        i64::try_from(n).ok()
    }

    fn as_i128(self) -> i128 {
        self as i128
    }
}

impl PrimitiveInteger for isize {
    ghost use Rattle.std.specs.Prelude.{refl, ◌^◌};
    ghost use Rattle.asn1_ints.specs.Numbers.{is_within};
    ghost use Rattle.asn1_ints.specs.Widths.{is_within-within};

    ghost value = { λ n. n };

    ghost is_value = { is_within (2 ^ 63) };

    ghost within = { is_within-within (2 ^ 63) refl };

    fn from_i128(n: i128) -> Option<isize> {
        isize::try_from(n).ok()
    }

    fn as_i128(self) -> i128 {
        self as i128
    }
}

impl PrimitiveInteger for i128 {
    ghost use Rattle.asn1_core.specs.Numbers.{in_i128};

    ghost value = { λ n. n };

    ghost is_value = { in_i128 };

    ghost within = { λ n outside. outside };

    fn from_i128(n: i128) -> Option<i128> {
        Some(n)
    }

    fn as_i128(self) -> i128 {
        self
    }
}

impl IntegerType for u128 {
    ghost use Rattle.std.specs.Prelude.{pos, false, ◌^◌};
    ghost use Rattle.asn1_ints.specs.Numbers.{is_below};

    ghost number = { pos };

    ghost admits = { is_below (2 ^ 128) };

    ghost TAKES_MEMORY = { false };

    const TAKES_MEMORY: bool = false;

    fn try_from_signed_bytes(
        _alloc: Global,
        octets: &[u8],
        codec: Codec,
    ) -> Result<u128, DecodeError> {
        value_or_refusal(octets, signed_u128_of(octets), codec)
    }

    fn try_from_unsigned_bytes(
        _alloc: Global,
        octets: &[u8],
        codec: Codec,
    ) -> Result<u128, DecodeError> {
        value_or_refusal(octets, u128_of(octets), codec)
    }

    fn to_i128(&self) -> Option<i128> {
        i128::try_from(*self).ok()
    }

    fn is_negative(&self) -> bool {
        let _number = *self;
        false
    }

    fn write_signed_bytes_be(&self, out: &mut Vec<u8>) -> Result<(), AllocError> {
        write_signed_u128(*self, out)
    }

    fn write_unsigned_bytes_be(&self, out: &mut Vec<u8>) -> Result<(), AllocError> {
        write_u128(*self, out)
    }
}

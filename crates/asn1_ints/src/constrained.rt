//! Whole numbers of any size whose type has a range as its constraint.
ghost use Rattle.std.specs.Prelude.{◌≡◌, ◌&&◌, int_le, cond, Some, None};

use crate::integer::Integer;
use crate::integer_type::IntegerType;
use asn1_core::{AsnType, Bounded, Codec, Constraints, DecodeError, Tag};
use std::alloc::{AllocError, Global};
use std::marker::{Model, PhantomData};

/// The range of a constrained integer, both bounds included.
pub trait IntegerRange {
    ghost use Rattle.std.specs.Prelude.{◌≡◌, ℤ, int_le, true};

    ghost MIN: { ℤ };

    /// The least number of the range.
    const MIN: i128;

    ghost MAX: { ℤ };

    /// The greatest number of the range.
    const MAX: i128;

    /// The range holds a number.
    ghost holds_number: { int_le MIN MAX ≡ true };
}

/// A whole number of any size, whose type has the range `R` as its constraint.
///
/// The range is a constraint of the type: a number outside it can be made, and is refused when it is written.
#[derive(Drop)]
#[derive_where(Debug)]
pub struct ConstrainedInteger<R> {
    number: Integer,
    range: PhantomData<R>,
}

impl<R> Model for ConstrainedInteger<R> {
    ghost use Rattle.std.specs.Prelude.{ℤ};
    ghost use Rattle.std.specs.Coded.{coded_ℤ};

    ghost Value = { ℤ };

    ghost coded = { coded_ℤ };

    ghost view = { λ c. c.number };
}

impl<R> Clone for ConstrainedInteger<R> {
    ghost use Rattle.std.specs.Prelude.{true};
    ghost use Rattle.asn1_core.specs.Numbers.{in_i128};

    ghost is_clone = { λ x y. y ≡ x };

    ghost is_infallible = { λ x. in_i128 x ≡ true };

    /// The same number; refused where there is no memory for one outside i128.
    fn clone(&self) -> Result<ConstrainedInteger<R>, AllocError> {
        Ok(ConstrainedInteger {
            number: self.number.clone()?,
            range: PhantomData,
        })
    }
}

impl<R: IntegerRange> ConstrainedInteger<R> {
    /// The number `n`, be it in the range or not.
    pub fn new(n: i128) -> ConstrainedInteger<R>
        ensures { result ≡ n }
    {
        ConstrainedInteger {
            number: Integer::from_i128(n),
            range: PhantomData,
        }
    }

    /// The number `n`, where it is in the range.
    pub fn try_new(n: i128) -> Option<ConstrainedInteger<R>>
        ensures { result ≡ cond (int_le R.MIN n && int_le n R.MAX) (Some n) None }
    {
        if R::MIN <= n && n <= R::MAX {
            Some(ConstrainedInteger::new(n))
        } else {
            None
        }
    }

    /// The number.
    pub fn get(&self) -> &Integer
        ensures { result.now ≡ self.now }
    {
        &self.number
    }
}

impl<R> PartialEq for ConstrainedInteger<R> {
    ghost use Rattle.std.specs.Ordering.{int_eq};
    ghost use Rattle.std.proofs.Common.{rules};
    ghost use Rattle.std.specs.Cmp.Rules.{comparing};

    ghost eq = { int_eq };

    ghost laws = { Prim.search (comparing, rules) };

    fn eq(&self, other: &ConstrainedInteger<R>) -> bool {
        self.number == other.number
    }
}

impl<R> Eq for ConstrainedInteger<R> {
    ghost use Rattle.std.proofs.Common.{rules};
    ghost use Rattle.std.specs.Cmp.Rules.{comparing};

    ghost laws = { Prim.search (comparing, rules) };
}

impl<R: IntegerRange> AsnType for ConstrainedInteger<R> {
    ghost use Rattle.std.specs.Prelude.{false};
    ghost use Rattle.asn1_core.specs.declared.tag.TheConstants.Tag.{INTEGER};
    ghost use Rattle.asn1_core.specs.Bounds.{values_between};
    ghost use Rattle.asn1_ints.specs.Ranges.{range_is_consistent};

    ghost TAG = { INTEGER };

    const TAG: Tag = Tag::INTEGER;

    ghost CONSTRAINTS = { values_between R.MIN R.MAX };

    const CONSTRAINTS: Constraints = Constraints {
        value: Some((
            Bounded::Range {
                start: Some(R::MIN),
                end: Some(R::MAX),
            },
            false,
        )),
        size: None,
    };

    ghost consistent = { range_is_consistent R.MIN R.MAX R.holds_number };
}

impl<R: IntegerRange> IntegerType for ConstrainedInteger<R> {
    ghost use Rattle.std.specs.Prelude.{true};

    ghost number = { λ n. n };

    ghost admits = { λ _. true };

    ghost TAKES_MEMORY = { true };

    const TAKES_MEMORY: bool = true;

    fn try_from_signed_bytes(
        alloc: Global,
        octets: &[u8],
        codec: Codec,
    ) -> Result<ConstrainedInteger<R>, DecodeError> {
        let number = Integer::try_from_signed_bytes(alloc, octets, codec)?;
        Ok(ConstrainedInteger {
            number,
            range: PhantomData,
        })
    }

    fn try_from_unsigned_bytes(
        alloc: Global,
        octets: &[u8],
        codec: Codec,
    ) -> Result<ConstrainedInteger<R>, DecodeError> {
        let number = Integer::try_from_unsigned_bytes(alloc, octets, codec)?;
        Ok(ConstrainedInteger {
            number,
            range: PhantomData,
        })
    }

    fn to_i128(&self) -> Option<i128> {
        self.number.to_i128()
    }

    fn is_negative(&self) -> bool {
        self.number.is_negative()
    }

    fn write_signed_bytes_be(&self, out: &mut Vec<u8>) -> Result<(), AllocError> {
        self.number.write_signed_bytes_be(out)
    }

    fn write_unsigned_bytes_be(&self, out: &mut Vec<u8>) -> Result<(), AllocError> {
        self.number.write_unsigned_bytes_be(out)
    }
}

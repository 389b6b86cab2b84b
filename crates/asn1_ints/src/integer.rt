//! Whole numbers of any size: one of i128 takes no memory, another is kept in its shortest octets.
ghost use Rattle.std.specs.Prelude.{◌≡◌, ◌==◌, pos, Some, None, IfOk, IsOk, cond, length, int_lt, true};
ghost use Rattle.asn1_core.specs.Octets.{signed, unsigned};
ghost use Rattle.asn1_core.specs.Numbers.{in_i128, signed_octets};
ghost use Rattle.asn1_ints.specs.Numbers.{if_in_i128};

use crate::integer_type::IntegerType;
use crate::number::{Number, compare_numbers, same_number};
use crate::octets::{
    has_sign, i128_of, shortest_signed, shortest_unsigned, unsigned_i128_of, write_i128,
    write_u128, write_with_sign,
};
use crate::short::short_signed;
use asn1_core::{AsnType, Codec, Constraints, DecodeError, DecodeErrorKind, Tag};
use std::alloc::{AllocError, Global};
use std::cmp::Ordering;
use std::marker::Model;

/// A whole number of any size.
#[derive(Debug, Drop)]
pub struct Integer {
    number: Number,
}

impl Model for Integer {
    ghost use Rattle.std.specs.Prelude.{ℤ};
    ghost use Rattle.std.specs.Coded.{coded_ℤ};

    ghost Value = { ℤ };

    ghost coded = { coded_ℤ };

    ghost use Rattle.asn1_ints.specs.Numbers.{number_value, IsNumber};

    ghost view = { λ a. number_value a.number };

    ghost invariant = { λ a. IsNumber a.number };
}

impl Clone for Integer {
    ghost is_clone = { λ x y. y ≡ x };

    ghost is_infallible = { λ x. in_i128 x ≡ true };

    /// The same number; refused where there is no memory for one outside i128.
    fn clone(&self) -> Result<Integer, AllocError> {
        match &self.number {
            Number::Small(n) => Ok(Integer::from_i128(*n)),
            Number::Large(octets) => Ok(Integer {
                number: Number::Large(Vec::from_slice(*octets.allocator(), octets.as_slice())?),
            }),
        }
    }
}

impl Integer {
    /// The number `n`.
    #[inline(always)]
    pub fn from_i128(n: i128) -> Integer
        ensures { result ≡ n }
    {
        Integer {
            number: Number::Small(n),
        }
    }

    /// The number, where it is one of i128.
    #[inline(always)]
    pub fn to_i128(&self) -> Option<i128>
        ensures { result ≡ if_in_i128 self.now }
    {
        match &self.number {
            Number::Small(n) => Some(*n),
            Number::Large(_) => None,
        }
    }

    /// The number of octets in two's complement, highest octet first; `None` for no octets.
    ///
    /// Memory is taken for a number outside i128 alone.
    #[inline(always)]
    pub fn from_signed_octets(alloc: Global, octets: &[u8]) -> Result<Option<Integer>, AllocError>
        ensures value { IfOk result (λ n. n ≡ cond (length octets.now == 0) None (Some (signed octets.now))) }
        ensures small { in_i128 (signed octets.now) ≡ true → IsOk result }
    {
        if octets.is_empty() {
            return Ok(None);
        }
        if octets.len() <= 8 {
            return Ok(Some(Integer::from_i128(short_signed(octets))));
        }
        Integer::of_long_octets(alloc, octets)
    }

    /// The number of octets in two's complement, as `from_signed_octets` answers it, by a call of its own.
    ///
    /// What that call answers lies in a place of this function's: so the place of a short number's answer isn't handed to
    /// a call, and is none in memory.
    #[inline(always)]
    fn of_long_octets(alloc: Global, octets: &[u8]) -> Result<Option<Integer>, AllocError>
        ensures value { IfOk result (λ n. n ≡ cond (length octets.now == 0) None (Some (signed octets.now))) }
        ensures small { in_i128 (signed octets.now) ≡ true → IsOk result }
    {
        match Integer::from_long_octets(alloc, octets) {
            Ok(n) => Ok(n),
            Err(e) => Err(e),
        }
    }

    #[inline(never)]
    fn from_long_octets(alloc: Global, octets: &[u8]) -> Result<Option<Integer>, AllocError>
        ensures value { IfOk result (λ n. n ≡ cond (length octets.now == 0) None (Some (signed octets.now))) }
        ensures small { in_i128 (signed octets.now) ≡ true → IsOk result }
    {
        if octets.is_empty() {
            return Ok(None);
        }
        if let Some(n) = i128_of(octets) {
            return Ok(Some(Integer::from_i128(n)));
        }
        let kept = Vec::from_slice(alloc, shortest_signed(octets))?;
        Ok(Some(Integer {
            number: Number::Large(kept),
        }))
    }

    /// The number of unsigned octets, highest octet first; `None` for no octets.
    fn from_unsigned_octets(alloc: Global, octets: &[u8]) -> Result<Option<Integer>, AllocError>
        ensures { IfOk result (λ n. n ≡ cond (length octets.now == 0) None (Some (pos (unsigned octets.now)))) }
    {
        if octets.is_empty() {
            return Ok(None);
        }
        if let Some(n) = unsigned_i128_of(octets) {
            return Ok(Some(Integer::from_i128(n)));
        }
        let mut kept = Vec::new(alloc);
        write_with_sign(octets, &mut kept)?;
        Ok(Some(Integer {
            number: Number::Large(kept),
        }))
    }

    /// The shortest octets in two's complement, highest octet first: at least one.
    pub fn signed_octets(&self, alloc: Global) -> Result<Vec<u8>, AllocError>
        ensures { IfOk result (λ octets. octets.items ≡ signed_octets self.now) }
    {
        let mut octets = Vec::new(alloc);
        self.write_signed_bytes_be(&mut octets)?;
        Ok(octets)
    }
}

impl PartialEq for Integer {
    ghost use Rattle.std.specs.Ordering.{int_eq};
    ghost use Rattle.std.proofs.Common.{rules};
    ghost use Rattle.std.specs.Cmp.Rules.{comparing};

    ghost eq = { int_eq };

    ghost laws = { Prim.search (comparing, rules) };

    fn eq(&self, other: &Integer) -> bool {
        same_number(&self.number, &other.number)
    }
}

impl Eq for Integer {
    ghost use Rattle.std.proofs.Common.{rules};
    ghost use Rattle.std.specs.Cmp.Rules.{comparing};

    ghost laws = { Prim.search (comparing, rules) };
}

impl Ord for Integer {
    ghost use Rattle.std.specs.Ordering.{int_cmp};
    ghost use Rattle.std.proofs.Common.{rules};
    ghost use Rattle.std.specs.Cmp.Rules.{comparing};

    ghost cmp = { int_cmp };

    ghost total = { Prim.search (comparing, rules) };

    ghost matches_partial_cmp = { Prim.search (comparing, rules) };

    ghost matches_eq = { Prim.search (comparing, rules) };

    fn cmp(&self, other: &Integer) -> Ordering {
        compare_numbers(&self.number, &other.number)
    }
}

impl PartialOrd for Integer {
    ghost use Rattle.std.specs.Ordering.{int_cmp, as_partial_cmp};
    ghost use Rattle.std.specs.Cmp.{partial_order_from_own_ties};
    ghost use Rattle.std.proofs.Common.{rules};
    ghost use Rattle.std.specs.Cmp.Rules.{comparing};

    ghost partial_cmp = { as_partial_cmp int_cmp };

    ghost laws = { partial_order_from_own_ties (Prim.search (comparing, rules)) (Prim.search (comparing, rules)) };

    fn partial_cmp(&self, other: &Integer) -> Option<Ordering> {
        Some(self.cmp(other))
    }
}

impl AsnType for Integer {
    ghost use Rattle.std.specs.Prelude.{false, refl};
    ghost use Rattle.asn1_core.specs.declared.tag.TheConstants.Tag.{INTEGER};
    ghost use Rattle.asn1_core.specs.declared.constraints.TheConstants.Constraints.{NONE};

    ghost TAG = { INTEGER };

    const TAG: Tag = Tag::INTEGER;

    ghost CONSTRAINTS = { NONE };

    const CONSTRAINTS: Constraints = Constraints::NONE;

    ghost consistent = { refl };
}

impl IntegerType for Integer {
    ghost use Rattle.std.specs.Prelude.{ℤ, Bool, true};

    ghost number = { λ n. n };

    ghost admits = { λ _. true };

    ghost TAKES_MEMORY = { true };

    const TAKES_MEMORY: bool = true;

    #[inline(always)]
    fn try_from_signed_bytes(
        alloc: Global,
        octets: &[u8],
        codec: Codec,
    ) -> Result<Integer, DecodeError> {
        match Integer::from_signed_octets(alloc, octets) {
            Ok(Some(n)) => Ok(n),
            Ok(None) => Err(DecodeError {
                kind: DecodeErrorKind::EmptyInteger,
                codec,
            }),
            Err(_) => Err(DecodeError {
                kind: DecodeErrorKind::OutOfMemory,
                codec,
            }),
        }
    }

    #[inline(never)]
    fn try_from_unsigned_bytes(
        alloc: Global,
        octets: &[u8],
        codec: Codec,
    ) -> Result<Integer, DecodeError> {
        match Integer::from_unsigned_octets(alloc, octets) {
            Ok(Some(n)) => Ok(n),
            Ok(None) => Err(DecodeError {
                kind: DecodeErrorKind::EmptyInteger,
                codec,
            }),
            Err(_) => Err(DecodeError {
                kind: DecodeErrorKind::OutOfMemory,
                codec,
            }),
        }
    }

    #[inline(always)]
    fn to_i128(&self) -> Option<i128> {
        Integer::to_i128(self)
    }

    fn is_negative(&self) -> bool {
        match &self.number {
            Number::Small(n) => *n < 0,
            Number::Large(octets) => has_sign(octets),
        }
    }

    fn write_signed_bytes_be(&self, out: &mut Vec<u8>) -> Result<(), AllocError> {
        match &self.number {
            Number::Small(n) => write_i128(*n, out),
            Number::Large(octets) => out.extend_from_slice(octets),
        }
    }

    fn write_unsigned_bytes_be(&self, out: &mut Vec<u8>) -> Result<(), AllocError> {
        match &self.number {
            Number::Small(n) => write_u128(*n as u128, out),
            Number::Large(octets) => out.extend_from_slice(shortest_unsigned(octets)),
        }
    }
}

//! How a whole number of any size is kept, and the equality and the order of such numbers.
ghost use Rattle.std.specs.Prelude.{◌≡◌, nat_le, slice_index};
ghost use Rattle.std.specs.Ordering.{int_eq, int_cmp};
ghost use Rattle.asn1_core.specs.Octets.{signed};
ghost use Rattle.asn1_ints.specs.Numbers.{number_value, IsNumber, AreLarge};

use crate::octets::has_sign;
use std::cmp::Ordering;

/// How a number is kept: a number of i128 is always small.
#[derive(Debug, Drop)]
pub enum Number {
    Small(i128),
    /// The shortest octets in two's complement.
    Large(Vec<u8>),
}

/// Whether two numbers are one.
pub fn same_number(a: &Number, b: &Number) -> bool
    requires a_is { IsNumber a.now }
    requires b_is { IsNumber b.now }
    ensures { result ≡ int_eq (number_value a.now) (number_value b.now) }
{
    match (a, b) {
        (Number::Small(m), Number::Small(n)) => *m == *n,
        (Number::Large(x), Number::Large(y)) => x.as_slice() == y.as_slice(),
        (Number::Small(_), Number::Large(_)) => false,
        (Number::Large(_), Number::Small(_)) => false,
    }
}

/// The order of two large numbers of one sign.
#[tactic(auto, using(crate::proofs::Compare::short_negative, crate::proofs::Compare::short_positive, crate::proofs::Compare::long_negative, crate::proofs::Compare::long_positive, crate::proofs::Compare::one_length))]
fn compare_of_one_sign(negative: bool, x: &[u8], y: &[u8]) -> Ordering
    requires x_is { AreLarge x.now }
    requires y_is { AreLarge y.now }
    requires x_sign { negative ≡ nat_le 128 (slice_index x.now 0) }
    requires y_sign { negative ≡ nat_le 128 (slice_index y.now 0) }
    ensures { result ≡ int_cmp (signed x.now) (signed y.now) }
{
    if x.len() == y.len() {
        return x.cmp(y);
    }
    if negative {
        return if x.len() < y.len() {
            Ordering::Greater
        } else {
            Ordering::Less
        };
    }
    if x.len() < y.len() {
        Ordering::Less
    } else {
        Ordering::Greater
    }
}

/// The order of two large numbers.
#[tactic(auto, using(crate::proofs::Compare::signs_less, crate::proofs::Compare::signs_greater))]
fn compare_large(x: &[u8], y: &[u8]) -> Ordering
    requires x_is { AreLarge x.now }
    requires y_is { AreLarge y.now }
    ensures { result ≡ int_cmp (signed x.now) (signed y.now) }
{
    let negative = has_sign(x);
    if negative == has_sign(y) {
        return compare_of_one_sign(negative, x, y);
    }
    if negative {
        Ordering::Less
    } else {
        Ordering::Greater
    }
}

/// The order of a small number and a large one.
#[tactic(auto, using(crate::proofs::Compare::small_before, crate::proofs::Compare::small_after))]
fn compare_small_large(n: i128, y: &[u8]) -> Ordering
    requires { AreLarge y.now }
    ensures { result ≡ int_cmp n (signed y.now) }
{
    if has_sign(y) {
        Ordering::Greater
    } else {
        Ordering::Less
    }
}

/// The order of a large number and a small one.
#[tactic(auto, using(crate::proofs::Compare::large_before, crate::proofs::Compare::large_after))]
fn compare_large_small(y: &[u8], n: i128) -> Ordering
    requires { AreLarge y.now }
    ensures { result ≡ int_cmp (signed y.now) n }
{
    if has_sign(y) {
        Ordering::Less
    } else {
        Ordering::Greater
    }
}

/// The order of two numbers.
pub fn compare_numbers(a: &Number, b: &Number) -> Ordering
    requires a_is { IsNumber a.now }
    requires b_is { IsNumber b.now }
    ensures { result ≡ int_cmp (number_value a.now) (number_value b.now) }
{
    match (a, b) {
        (Number::Small(m), Number::Small(n)) => m.cmp(n),
        (Number::Large(x), Number::Large(y)) => compare_large(x.as_slice(), y.as_slice()),
        (Number::Small(m), Number::Large(y)) => compare_small_large(*m, y.as_slice()),
        (Number::Large(x), Number::Small(n)) => compare_large_small(x.as_slice(), *n),
    }
}

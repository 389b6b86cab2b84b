//! How an INTEGER is laid out under a value constraint, and whether that allows a number (X.696, 10).
ghost use Rattle.std.specs.Prelude.{◌≡◌};
ghost use Rattle.asn1_core.specs.Bounds.{in_range, value_bounds};
ghost use Rattle.oer_spec.specs.Leaves.{width_of, signed_width, unsigned_width};
ghost use Rattle.oer_spec.specs.Widths.{width_view};

use asn1_core::Constraints;
use asn1_ints::IntegerType;

/// How an INTEGER is laid out (X.696, 10.2 to 10.4): in a fixed count of octets, or behind a length, in two's complement or
/// unsigned.
#[derive(Debug, Clone, Copy, PartialEq, Eq)]
pub enum IntegerWidth {
    /// In that many octets.
    Fixed { signed: bool, octets: usize },
    /// Behind a length.
    Counted { signed: bool },
}

impl IntegerWidth {
    ghost use Rattle.oer_spec.specs.ReadingIntegers.{is_signed};

    /// Whether the number is in two's complement.
    #[inline(always)]
    pub fn is_signed(self) -> bool
        ensures { result ≡ is_signed (width_view self) }
    {
        match self {
            IntegerWidth::Fixed { signed, .. } => signed,
            IntegerWidth::Counted { signed } => signed,
        }
    }
}

/// The layout of a range from 0 or more, by its upper bound.
fn unsigned_width(high: i128) -> IntegerWidth
    ensures { width_view result ≡ unsigned_width high }
{
    let signed = false;
    if high < 1 << 8 {
        return IntegerWidth::Fixed { signed, octets: 1 };
    }
    if high < 1 << 16 {
        return IntegerWidth::Fixed { signed, octets: 2 };
    }
    if high < 1 << 32 {
        return IntegerWidth::Fixed { signed, octets: 4 };
    }
    if high < 1 << 64 {
        return IntegerWidth::Fixed { signed, octets: 8 };
    }
    IntegerWidth::Counted { signed }
}

/// The layout of a range whose lower bound is below 0.
fn signed_width(low: i128, high: i128) -> IntegerWidth
    ensures { width_view result ≡ signed_width low high }
{
    let signed = true;
    if low >= -(1 << 7) && high < 1 << 7 {
        return IntegerWidth::Fixed { signed, octets: 1 };
    }
    if low >= -(1 << 15) && high < 1 << 15 {
        return IntegerWidth::Fixed { signed, octets: 2 };
    }
    if low >= -(1 << 31) && high < 1 << 31 {
        return IntegerWidth::Fixed { signed, octets: 4 };
    }
    if low >= -(1 << 63) && high < 1 << 63 {
        return IntegerWidth::Fixed { signed, octets: 8 };
    }
    IntegerWidth::Counted { signed }
}

/// The layout under these constraints: an extensible constraint counts as none (X.696, 10.1).
#[inline(always)]
pub fn width_of(constraints: &Constraints) -> IntegerWidth
    ensures { width_view result ≡ width_of (value_bounds constraints.now) }
{
    let Some((bounds, false)) = &constraints.value else {
        return IntegerWidth::Counted { signed: true };
    };
    match (bounds.as_start(), bounds.as_end()) {
        (None, _) => IntegerWidth::Counted { signed: true },
        (Some(low), None) => IntegerWidth::Counted { signed: *low < 0 },
        (Some(low), Some(high)) if *low < 0 => signed_width(*low, *high),
        (Some(_), Some(high)) => unsigned_width(*high),
    }
}

/// Whether the number is allowed; under a constraint that isn't extensible only one of i128 is.
#[inline(always)]
pub fn is_in_range<I: IntegerType>(constraints: &Constraints, value: &I) -> bool
    ensures { result ≡ in_range (value_bounds constraints.now) (I.number value.now) }
{
    match value.to_i128() {
        Some(n) => constraints.allows_value(n),
        None => !matches!(constraints.value, Some((_, false))),
    }
}

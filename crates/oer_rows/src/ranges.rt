//! Limits by their numbers (X.680, 51.4 and 51.5), for a `Limited`.

use crate::limited::Limits;
use asn1_core::{Bounded, Constraints};

/// The limits `(START..END)` of an INTEGER; `(END..START)` if `END` is less.
#[derive(Drop)]
pub enum Between<const START: i64, const END: i64> {}

impl<const START: i64, const END: i64> Limits for Between<START, END> {
    ghost use Rattle.oer_rows.specs.Ranges.{values_hold, values_of};

    ghost LIMITS = { values_of START END };

    const LIMITS: Constraints = Constraints {
        value: Some((
            Bounded::Range {
                start: Some((if START <= END { START } else { END }) as i128),
                end: Some((if START <= END { END } else { START }) as i128),
            },
            false,
        )),
        size: None,
    };

    ghost consistent = { values_hold START END };
}

/// The limits `(START..MAX)` of an INTEGER.
#[derive(Drop)]
pub enum AtLeast<const START: i64> {}

impl<const START: i64> Limits for AtLeast<START> {
    ghost use Rattle.std.specs.Prelude.{None, Some, false, refl};
    ghost use Rattle.asn1_core.specs.declared.constraints.Bounded.TheVariants.{Range};

    ghost LIMITS = { record { value = Some (Range (Some START) None, false); size = None } };

    const LIMITS: Constraints = Constraints {
        value: Some((
            Bounded::Range {
                start: Some(START as i128),
                end: None,
            },
            false,
        )),
        size: None,
    };

    ghost consistent = { refl };
}

/// The limits `(MIN..END)` of an INTEGER.
#[derive(Drop)]
pub enum AtMost<const END: i64> {}

impl<const END: i64> Limits for AtMost<END> {
    ghost use Rattle.std.specs.Prelude.{None, Some, false, refl};
    ghost use Rattle.asn1_core.specs.declared.constraints.Bounded.TheVariants.{Range};

    ghost LIMITS = { record { value = Some (Range None (Some END), false); size = None } };

    const LIMITS: Constraints = Constraints {
        value: Some((
            Bounded::Range {
                start: None,
                end: Some(END as i128),
            },
            false,
        )),
        size: None,
    };

    ghost consistent = { refl };
}

/// The limits `(SIZE(START..END))`, in octets, bits or characters; `(SIZE(END..START))` if `END` is less.
#[derive(Drop)]
pub enum SizeBetween<const START: usize, const END: usize> {}

impl<const START: usize, const END: usize> Limits for SizeBetween<START, END> {
    ghost use Rattle.oer_rows.specs.Ranges.{sizes_hold, sizes_of};

    ghost LIMITS = { sizes_of START END };

    const LIMITS: Constraints = Constraints {
        value: None,
        size: Some((
            Bounded::Range {
                start: Some(if START <= END { START } else { END }),
                end: Some(if START <= END { END } else { START }),
            },
            false,
        )),
    };

    ghost consistent = { sizes_hold START END };
}

/// The limits `(SIZE(START..MAX))`, in octets, bits or characters.
#[derive(Drop)]
pub enum SizeAtLeast<const START: usize> {}

impl<const START: usize> Limits for SizeAtLeast<START> {
    ghost use Rattle.std.specs.Prelude.{None, Some, false, refl};
    ghost use Rattle.asn1_core.specs.declared.constraints.Bounded.TheVariants.{Range};

    ghost LIMITS = { record { value = None; size = Some (Range (Some START) None, false) } };

    const LIMITS: Constraints = Constraints {
        value: None,
        size: Some((
            Bounded::Range {
                start: Some(START),
                end: None,
            },
            false,
        )),
    };

    ghost consistent = { refl };
}

/// The limits `(SIZE(SIZE))`: one size, in octets, bits or characters.
#[derive(Drop)]
pub enum FixedSize<const SIZE: usize> {}

impl<const SIZE: usize> Limits for FixedSize<SIZE> {
    ghost use Rattle.oer_rows.specs.Ranges.{size_holds, size_of};

    ghost LIMITS = { size_of SIZE };

    const LIMITS: Constraints = Constraints {
        value: None,
        size: Some((Bounded::Single(SIZE), false)),
    };

    ghost consistent = { size_holds SIZE };
}

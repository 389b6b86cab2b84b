//! The tags and constraints of Rust's own types, such as bool, String, Vec, Box and the integers, and of `SetOf`.
ghost use Rattle.std.specs.Prelude.{false, refl, pos, negsuc, ◌^◌, ◌-◌};
ghost use Rattle.asn1_core.specs.Bounds.{values_between};
ghost use Rattle.asn1_core.specs.declared.constraints.TheConstants.Constraints.{NONE};
ghost use Rattle.asn1_core.specs.declared.tag.TheConstants.Tag.{BOOL, INTEGER, NULL, SEQUENCE, SET, UTF8_STRING};

use crate::constraints::{Bounded, Constraints};
use crate::sets::SetOf;
use crate::tag::Tag;
use crate::traits::AsnType;

/// UTF8String: a text.
pub type Utf8String = String;

/// SEQUENCE OF: a list in its order.
pub type SequenceOf<T> = Vec<T>;

impl AsnType for bool {
    ghost TAG = { BOOL };

    const TAG: Tag = Tag::BOOL;

    ghost CONSTRAINTS = { NONE };

    const CONSTRAINTS: Constraints = Constraints::NONE;

    ghost consistent = { refl };
}

impl AsnType for () {
    ghost TAG = { NULL };

    const TAG: Tag = Tag::NULL;

    ghost CONSTRAINTS = { NONE };

    const CONSTRAINTS: Constraints = Constraints::NONE;

    ghost consistent = { refl };
}

impl AsnType for Utf8String {
    ghost TAG = { UTF8_STRING };

    const TAG: Tag = Tag::UTF8_STRING;

    ghost CONSTRAINTS = { NONE };

    const CONSTRAINTS: Constraints = Constraints::NONE;

    ghost consistent = { refl };
}

impl<T> AsnType for SequenceOf<T> {
    ghost TAG = { SEQUENCE };

    const TAG: Tag = Tag::SEQUENCE;

    ghost CONSTRAINTS = { NONE };

    const CONSTRAINTS: Constraints = Constraints::NONE;

    ghost consistent = { refl };
}

impl<T> AsnType for SetOf<T> {
    ghost TAG = { SET };

    const TAG: Tag = Tag::SET;

    ghost CONSTRAINTS = { NONE };

    const CONSTRAINTS: Constraints = Constraints::NONE;

    ghost consistent = { refl };
}

/// A box is its content.
impl<T: AsnType> AsnType for Box<T> {
    ghost TAG = { T.TAG };

    const TAG: Tag = T::TAG;

    ghost CONSTRAINTS = { T.CONSTRAINTS };

    const CONSTRAINTS: Constraints = T::CONSTRAINTS;

    ghost consistent = { T.consistent };

    const IS_CHOICE: bool = T::IS_CHOICE;
}

impl AsnType for i128 {
    ghost TAG = { INTEGER };

    const TAG: Tag = Tag::INTEGER;

    ghost CONSTRAINTS = { NONE };

    const CONSTRAINTS: Constraints = Constraints::NONE;

    ghost consistent = { refl };
}

impl AsnType for u128 {
    ghost TAG = { INTEGER };

    const TAG: Tag = Tag::INTEGER;

    ghost CONSTRAINTS = { NONE };

    const CONSTRAINTS: Constraints = Constraints::NONE;

    ghost consistent = { refl };
}

impl AsnType for isize {
    ghost TAG = { INTEGER };

    const TAG: Tag = Tag::INTEGER;

    ghost CONSTRAINTS = { NONE };

    const CONSTRAINTS: Constraints = Constraints::NONE;

    ghost consistent = { refl };
}

impl AsnType for usize {
    ghost TAG = { INTEGER };

    const TAG: Tag = Tag::INTEGER;

    ghost CONSTRAINTS = { NONE };

    const CONSTRAINTS: Constraints = Constraints::NONE;

    ghost consistent = { refl };
}

impl AsnType for i8 {
    ghost TAG = { INTEGER };

    const TAG: Tag = Tag::INTEGER;

    ghost CONSTRAINTS = { values_between (negsuc (2 ^ 7 - 1)) (pos (2 ^ 7 - 1)) };

    const CONSTRAINTS: Constraints = Constraints {
        value: Some((
            Bounded::Range {
                start: Some(i8::MIN as i128),
                end: Some(i8::MAX as i128),
            },
            false,
        )),
        size: None,
    };

    ghost consistent = { refl };
}

impl AsnType for i16 {
    ghost TAG = { INTEGER };

    const TAG: Tag = Tag::INTEGER;

    ghost CONSTRAINTS = { values_between (negsuc (2 ^ 15 - 1)) (pos (2 ^ 15 - 1)) };

    const CONSTRAINTS: Constraints = Constraints {
        value: Some((
            Bounded::Range {
                start: Some(i16::MIN as i128),
                end: Some(i16::MAX as i128),
            },
            false,
        )),
        size: None,
    };

    ghost consistent = { refl };
}

impl AsnType for i32 {
    ghost TAG = { INTEGER };

    const TAG: Tag = Tag::INTEGER;

    ghost CONSTRAINTS = { values_between (negsuc (2 ^ 31 - 1)) (pos (2 ^ 31 - 1)) };

    const CONSTRAINTS: Constraints = Constraints {
        value: Some((
            Bounded::Range {
                start: Some(i32::MIN as i128),
                end: Some(i32::MAX as i128),
            },
            false,
        )),
        size: None,
    };

    ghost consistent = { refl };
}

impl AsnType for i64 {
    ghost TAG = { INTEGER };

    const TAG: Tag = Tag::INTEGER;

    ghost CONSTRAINTS = { values_between (negsuc (2 ^ 63 - 1)) (pos (2 ^ 63 - 1)) };

    const CONSTRAINTS: Constraints = Constraints {
        value: Some((
            Bounded::Range {
                start: Some(i64::MIN as i128),
                end: Some(i64::MAX as i128),
            },
            false,
        )),
        size: None,
    };

    ghost consistent = { refl };
}

impl AsnType for u8 {
    ghost TAG = { INTEGER };

    const TAG: Tag = Tag::INTEGER;

    ghost CONSTRAINTS = { values_between (pos 0) (pos (2 ^ 8 - 1)) };

    const CONSTRAINTS: Constraints = Constraints {
        value: Some((
            Bounded::Range {
                start: Some(u8::MIN as i128),
                end: Some(u8::MAX as i128),
            },
            false,
        )),
        size: None,
    };

    ghost consistent = { refl };
}

impl AsnType for u16 {
    ghost TAG = { INTEGER };

    const TAG: Tag = Tag::INTEGER;

    ghost CONSTRAINTS = { values_between (pos 0) (pos (2 ^ 16 - 1)) };

    const CONSTRAINTS: Constraints = Constraints {
        value: Some((
            Bounded::Range {
                start: Some(u16::MIN as i128),
                end: Some(u16::MAX as i128),
            },
            false,
        )),
        size: None,
    };

    ghost consistent = { refl };
}

impl AsnType for u32 {
    ghost TAG = { INTEGER };

    const TAG: Tag = Tag::INTEGER;

    ghost CONSTRAINTS = { values_between (pos 0) (pos (2 ^ 32 - 1)) };

    const CONSTRAINTS: Constraints = Constraints {
        value: Some((
            Bounded::Range {
                start: Some(u32::MIN as i128),
                end: Some(u32::MAX as i128),
            },
            false,
        )),
        size: None,
    };

    ghost consistent = { refl };
}

impl AsnType for u64 {
    ghost TAG = { INTEGER };

    const TAG: Tag = Tag::INTEGER;

    ghost CONSTRAINTS = { values_between (pos 0) (pos (2 ^ 64 - 1)) };

    const CONSTRAINTS: Constraints = Constraints {
        value: Some((
            Bounded::Range {
                start: Some(u64::MIN as i128),
                end: Some(u64::MAX as i128),
            },
            false,
        )),
        size: None,
    };

    ghost consistent = { refl };
}

//! Octets by hand from X.696, of a sequence whose components have defaults with parts.

use crate::kept::{agree, only_lenient};
use asn1_core::DecodeErrorKind;
use example_recursive::{
    Mark, MarkAlternatives, Range, RangeComponents, Setting, SettingComponents, StateValues,
};
use oer_kept::KeptEnumeration;
use rasn_oer::prelude::*;
use std::alloc::{AllocError, Global};
use std::test::Fail;

/// A range that is of no kind.
fn range(low: i8, high: Option<u8>, state: StateValues) -> Range {
    Set(RangeComponents {
        high,
        low: Limited::new(low),
        state: KeptEnumeration::Known(state),
        kind: OneOf(MarkAlternatives::None(())),
    })
}

/// The default of `range`.
fn usual_range() -> Range {
    range(-1, None, StateValues::Read)
}

/// The default of `last`.
fn usual_last() -> Range {
    range(7, Some(9), StateValues::Sent)
}

/// The default of `mark`.
fn usual_mark(alloc: Global) -> Result<Mark, AllocError> {
    let text = Utf8Text(Utf8String::from_str(alloc, "e")?);
    Ok(OneOf(MarkAlternatives::Text(text)))
}

/// A setting of three components.
fn setting(range: Range, mark: Mark, last: Range) -> Setting {
    Sequence(SettingComponents { range, mark, last })
}

#[test]
fn defaults_with_parts_are_left_out(rt: HostRuntime) -> Result<(), Fail> {
    let alloc = rt.alloc();
    let usual = setting(usual_range(), usual_mark(alloc)?, usual_last());
    assert!(rt; agree(alloc, &usual, b"\x00")?);
    let other = range(2, None, StateValues::Read);
    let other = setting(other, usual_mark(alloc)?, usual_last());
    assert!(rt; agree(alloc, &other, b"\x40\x00\x02\x01")?);
    let number = OneOf(MarkAlternatives::Number(5));
    let marked = setting(usual_range(), number, usual_last());
    assert!(rt; agree(alloc, &marked, b"\x20\x82\x05")?);
    let last = range(7, None, StateValues::Sent);
    let last = setting(usual_range(), usual_mark(alloc)?, last);
    assert!(rt; agree(alloc, &last, b"\x80\x02\x07\x80\x03\x00\x07\x00")?);
    Ok(())
}

/// Whether these octets of a default alone are read as the defaults, leniently, and refused canonically.
fn is_spelled_out(alloc: Global, octets: &[u8]) -> Result<bool, Fail> {
    let usual = setting(usual_range(), usual_mark(alloc)?, usual_last());
    let kind = DecodeErrorKind::NotValidCanonicalEncoding;
    only_lenient(alloc, &usual, octets, b"\x00", kind)
}

#[test]
fn defaults_with_parts_are_not_spelled_out(rt: HostRuntime) -> Result<(), Fail> {
    let alloc = rt.alloc();
    assert!(rt; is_spelled_out(alloc, b"\x40\x00\xff\x01")?);
    assert!(rt; is_spelled_out(alloc, b"\x40\x40\xff\x01\x80")?);
    assert!(rt; is_spelled_out(alloc, b"\x20\x81\x01e")?);
    assert!(rt; is_spelled_out(alloc, b"\x80\x02\x07\x80\x04\x80\x07\x09\x00")?);
    Ok(())
}

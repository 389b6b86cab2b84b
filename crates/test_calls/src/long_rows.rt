//! Octets by hand from X.696, of sequences whose rows are in pieces.

use crate::kept::{agree, only_lenient};
use asn1_core::DecodeErrorKind;
use example_recursive::{Branch, BranchComponents, Newest, NewestComponents, Wide, WideComponents};
use rasn_oer::prelude::*;
use std::alloc::Global;
use std::test::Fail;

/// A preamble, and 31 components, of which each other is TRUE.
const ROOT: &[u8] = b"\x00\xff\x00\xff\x00\xff\x00\xff\x00\xff\x00\xff\x00\xff\x00\xff\
    \x00\xff\x00\xff\x00\xff\x00\xff\x00\xff\x00\xff\x00\xff\x00\xff";

/// The same with another TRUE at the end.
const LENIENT: &[u8] = b"\x00\xff\x00\xff\x00\xff\x00\xff\x00\xff\x00\xff\x00\xff\x00\xff\
    \x00\xff\x00\xff\x00\xff\x00\xff\x00\xff\x00\xff\x00\xff\x00\x01";

/// The same, with an addition behind a bitmap.
const EXTENDED: &[u8] = b"\x80\xff\x00\xff\x00\xff\x00\xff\x00\xff\x00\xff\x00\xff\x00\xff\
    \x00\xff\x00\xff\x00\xff\x00\xff\x00\xff\x00\xff\x00\xff\x00\xff\
    \x02\x07\x80\x01\xff";

/// An extension bit, a bitmap of 31 bits, and the first and the last addition: TRUE and FALSE.
const ADDITIONS: &[u8] = b"\x80\x05\x01\x80\x00\x00\x02\x01\xff\x01\x00";

/// The same with another TRUE.
const LENIENT_ADDITIONS: &[u8] = b"\x80\x05\x01\x80\x00\x00\x02\x01\x01\x01\x00";

/// A sequence, of which each other component is TRUE.
fn each_other(b32: Option<bool>) -> Wide {
    Sequence(WideComponents {
        b1: true,
        b2: false,
        b3: true,
        b4: false,
        b5: true,
        b6: false,
        b7: true,
        b8: false,
        b9: true,
        b10: false,
        b11: true,
        b12: false,
        b13: true,
        b14: false,
        b15: true,
        b16: false,
        b17: true,
        b18: false,
        b19: true,
        b20: false,
        b21: true,
        b22: false,
        b23: true,
        b24: false,
        b25: true,
        b26: false,
        b27: true,
        b28: false,
        b29: true,
        b30: false,
        b31: true,
        b32,
    })
}

/// A sequence of two additions at most.
fn newest(b1: Option<bool>, b31: Option<bool>) -> Newest {
    Sequence(NewestComponents {
        b1,
        b2: None,
        b3: None,
        b4: None,
        b5: None,
        b6: None,
        b7: None,
        b8: None,
        b9: None,
        b10: None,
        b11: None,
        b12: None,
        b13: None,
        b14: None,
        b15: None,
        b16: None,
        b17: None,
        b18: None,
        b19: None,
        b20: None,
        b21: None,
        b22: None,
        b23: None,
        b24: None,
        b25: None,
        b26: None,
        b27: None,
        b28: None,
        b29: None,
        b30: None,
        b31,
    })
}

/// A preamble with the bits of the extension and of `left`, five components, and a branch without any; an addition behind a bitmap.
const BRANCH: &[u8] = b"\xc0\xff\x00\x00\x00\x00\x00\x00\x00\x00\x00\x00\
    \x02\x02\x04\x06\x00\xff\x00\x00\x00\x00";

/// A sequence that may hold itself.
fn branch(a: bool, left: Option<Held<Branch>>, right: Option<Held<Branch>>) -> Branch {
    Branch(Sequence(BranchComponents {
        a,
        b: false,
        c: false,
        d: false,
        e: false,
        left,
        f: None,
        g: None,
        h: None,
        i: None,
        j: None,
        right,
    }))
}

/// One without branches.
fn leaf(alloc: Global, a: bool) -> Result<Option<Held<Branch>>, Fail> {
    Ok(Some(Held(Box::new(alloc, branch(a, None, None))?)))
}

#[test]
fn long_rows_are_read_and_written(rt: HostRuntime) -> Result<(), Fail> {
    let alloc = rt.alloc();
    assert!(rt; agree(alloc, &each_other(None), ROOT)?);
    assert!(rt; agree(alloc, &each_other(Some(true)), EXTENDED)?);
    let kind = DecodeErrorKind::InvalidBool { value: 1 };
    assert!(rt; only_lenient(alloc, &each_other(None), LENIENT, ROOT, kind)?);
    Ok(())
}

#[test]
fn many_additions_are_read_and_written(rt: HostRuntime) -> Result<(), Fail> {
    let alloc = rt.alloc();
    let both = newest(Some(true), Some(false));
    assert!(rt; agree(alloc, &both, ADDITIONS)?);
    assert!(rt; agree(alloc, &newest(None, None), b"\x00")?);
    let kind = DecodeErrorKind::InvalidBool { value: 1 };
    assert!(rt; only_lenient(alloc, &both, LENIENT_ADDITIONS, ADDITIONS, kind)?);
    Ok(())
}

#[test]
fn branches_are_read_and_written(rt: HostRuntime) -> Result<(), Fail> {
    let alloc = rt.alloc();
    let whole = branch(true, leaf(alloc, false)?, leaf(alloc, true)?);
    assert!(rt; agree(alloc, &whole, BRANCH)?);
    Ok(())
}

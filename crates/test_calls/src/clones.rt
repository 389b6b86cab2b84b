//! Clones are equal to the values that they are of: octets by hand from X.696.

use asn1_ints::Integer;
use asn1_strings::{BitString, NamedBits, ObjectIdentifier, OctetString, VisibleString};
use asn1_times::{Date, GeneralizedTime, UtcTime};
use example_recursive::{Envelope, Node};
use rasn_oer::coer;
use rasn_oer::prelude::{Between, Decode, Limited, ListOf, Octets, SetOf, Utf8String, Utf8Text};
use std::alloc::Global;
use std::test::Fail;

/// Whether the value that the octets are read as is equal to a clone of it.
fn has_equal_clone<T: Decode + Clone + PartialEq>(
    alloc: Global,
    octets: &[u8],
) -> Result<bool, Fail> {
    let value: T = coer::decode(alloc, octets)?;
    Ok(value.clone()? == value)
}

/// 2^128, which takes memory.
const LARGE: &[u8] = b"\x11\x01\x00\x00\x00\x00\x00\x00\x00\x00\x00\x00\x00\x00\x00\x00\x00\x00";

#[test]
fn leaves_have_equal_clones(rt: HostRuntime) -> Result<(), Fail> {
    let alloc = rt.alloc();
    assert!(rt; has_equal_clone::<Integer>(alloc, b"\x01\x05")?);
    assert!(rt; has_equal_clone::<Integer>(alloc, LARGE)?);
    assert!(rt; has_equal_clone::<OctetString>(alloc, b"\x02\xAA\xBB")?);
    assert!(rt; has_equal_clone::<BitString>(alloc, b"\x02\x06\xC0")?);
    assert!(rt; has_equal_clone::<NamedBits>(alloc, b"\x02\x06\xC0")?);
    assert!(rt; has_equal_clone::<ObjectIdentifier>(alloc, b"\x03\x2A\x86\x48")?);
    assert!(rt; has_equal_clone::<VisibleString>(alloc, b"\x02hi")?);
    assert!(rt; has_equal_clone::<Utf8String>(alloc, b"\x02hi")?);
    assert!(rt; has_equal_clone::<UtcTime>(alloc, b"\x0d191009130005Z")?);
    assert!(rt; has_equal_clone::<GeneralizedTime>(alloc, b"\x0f20191009130005Z")?);
    assert!(rt; has_equal_clone::<Date>(alloc, b"\x0820240229")?);
    Ok(())
}

#[test]
fn types_of_rows_have_equal_clones(rt: HostRuntime) -> Result<(), Fail> {
    let alloc = rt.alloc();
    assert!(rt; has_equal_clone::<Octets>(alloc, b"\x02\xAA\xBB")?);
    assert!(rt; has_equal_clone::<Utf8Text>(alloc, b"\x02hi")?);
    assert!(rt; has_equal_clone::<Limited<u8, Between<1, 8>>>(alloc, b"\x05")?);
    assert!(rt; has_equal_clone::<SetOf<Integer>>(alloc, b"\x01\x02\x01\x01\x01\x02")?);
    assert!(rt; has_equal_clone::<ListOf<Integer>>(alloc, b"\x01\x02\x01\x02\x01\x01")?);
    Ok(())
}

#[test]
fn recursive_types_have_equal_clones(rt: HostRuntime) -> Result<(), Fail> {
    let alloc = rt.alloc();
    assert!(rt; has_equal_clone::<Node>(alloc, b"\x80\x07\x00\x08")?);
    assert!(rt; has_equal_clone::<Envelope>(alloc, b"\x00\xAA\xBB\x85\x02\x09\x08")?);
    Ok(())
}

//! Octets by hand from X.696, within limits by their numbers and past them.

use asn1_core::DecodeErrorKind;
use asn1_ints::Integer;
use asn1_strings::OctetString;
use rasn_oer::coer;
use rasn_oer::prelude::{
    AtLeast, AtMost, Between, Decode, FixedSize, Limited, SizeAtLeast, SizeBetween,
};
use std::alloc::Global;
use std::test::Fail;

/// `INTEGER (MIN..-3)`; by a name, since a macro reads `<-` as one token.
type UpToMinusThree = Limited<Integer, AtMost<-3>>;

/// Whether the first octets are read, and the others are refused for that reason.
fn reads_first<T: Decode>(alloc: Global, within: &[u8], past: &[u8], why: DecodeErrorKind) -> bool {
    let is_refused = match coer::decode::<T>(alloc, past) {
        Ok(_) => false,
        Err(e) => e.kind == why,
    };
    is_refused && coer::decode::<T>(alloc, within).is_ok()
}

/// Whether the first octets are of a number within the limits, and the others of one past them.
fn bounds_values<T: Decode>(alloc: Global, within: &[u8], past: &[u8]) -> bool {
    let why = DecodeErrorKind::ValueConstraintNotSatisfied;
    reads_first::<T>(alloc, within, past, why)
}

/// Whether the first octets are of a string within the limits, and the others of one of that size, past them.
fn bounds_sizes<T: Decode>(alloc: Global, within: &[u8], past: &[u8], size: usize) -> bool {
    let why = DecodeErrorKind::SizeConstraintNotSatisfied { size };
    reads_first::<T>(alloc, within, past, why)
}

#[test]
fn numbers_are_within_limits(rt: HostRuntime) -> Result<(), Fail> {
    let alloc = rt.alloc();
    assert!(rt; bounds_values::<Limited<u8, Between<1, 8>>>(alloc, b"\x08", b"\x09"));
    assert!(rt; bounds_values::<Limited<u8, Between<8, 1>>>(alloc, b"\x01", b"\x00"));
    assert!(rt; bounds_values::<Limited<Integer, AtLeast<5>>>(alloc, b"\x01\x05", b"\x01\x04"));
    assert!(rt; bounds_values::<UpToMinusThree>(alloc, b"\x01\xFD", b"\x01\xFE"));
    Ok(())
}

#[test]
fn sizes_are_within_limits(rt: HostRuntime) -> Result<(), Fail> {
    let alloc = rt.alloc();
    let three = b"\x03\xAA\xAA\xAA";
    assert!(rt;
        bounds_sizes::<Limited<OctetString, SizeBetween<1, 2>>>(alloc, b"\x01\xAA", b"\x00", 0)
    );
    assert!(rt;
        bounds_sizes::<Limited<OctetString, SizeBetween<2, 1>>>(alloc, b"\x01\xAA", three, 3)
    );
    assert!(rt;
        bounds_sizes::<Limited<OctetString, SizeAtLeast<2>>>(alloc, b"\x02\xAA\xBB", b"\x01\xAA", 1)
    );
    let short = DecodeErrorKind::Incomplete { needed: 1 };
    assert!(rt;
        reads_first::<Limited<OctetString, FixedSize<2>>>(alloc, b"\xAA\xBB", b"\xAA", short)
    );
    Ok(())
}

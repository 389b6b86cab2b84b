//! Octets by hand from X.696, of an open type and the id beside it, which says what it holds.

use asn1_core::DecodeErrorKind;
use example_recursive::{Extra, Extras, Node, NodeComponents};
use rasn_oer::coer;
use rasn_oer::prelude::*;
use std::alloc::Global;
use std::test::Fail;

/// Whether the open type of an extra in these octets is read as that, by its id.
fn holds(
    alloc: Global,
    options: DecoderOptions,
    octets: &[u8],
    wanted: Result<Extras, DecodeErrorKind>,
) -> Result<bool, Fail> {
    let Sequence(extra) = coer::decode::<Extra>(alloc, octets)?;
    let read = Extras::read(alloc, options, u32::from(extra.id), &extra.content);
    Ok(match (read, wanted) {
        (Ok(own), Ok(wanted)) => own == wanted,
        (Err(e), Err(kind)) => e.kind == kind && e.codec == options.codec(),
        (Ok(_), Err(_)) | (Err(_), Ok(_)) => false,
    })
}

/// A node of that value, by itself.
fn node(value: u8) -> Extras {
    Extras::Node(Node(Sequence(NodeComponents {
        value,
        next: None,
        last: false,
    })))
}

#[test]
fn ids_say_what_is_held(rt: HostRuntime) -> Result<(), Fail> {
    let alloc = rt.alloc();
    let stamp = OctetString::from_slice(alloc, b"\xAB\xCD")?;
    let stamp = Extras::Stamp(Limited::new(Octets(stamp)));
    let coer = DecoderOptions::coer();
    assert!(rt; holds(alloc, coer, b"\x01\x02\x00\x07", Ok(node(7)))?);
    assert!(rt; holds(alloc, coer, b"\x07\x02\xAB\xCD", Ok(stamp))?);
    assert!(rt; holds(alloc, coer, b"\x09\x01\x05", Ok(Extras::Id9(5)))?);
    Ok(())
}

#[test]
fn other_ids_keep_the_octets(rt: HostRuntime) -> Result<(), Fail> {
    let alloc = rt.alloc();
    let other = Extras::Other(OpenOctets(Any::from_slice(alloc, b"\xFF\x00")?));
    assert!(rt; holds(alloc, DecoderOptions::oer(), b"\x08\x02\xFF\x00", Ok(other))?);
    Ok(())
}

#[test]
fn octets_that_follow_are_ignored_leniently_alone(rt: HostRuntime) -> Result<(), Fail> {
    let alloc = rt.alloc();
    let octets = b"\x01\x03\x00\x07\x00";
    let over = DecodeErrorKind::NotValidCanonicalEncoding;
    assert!(rt; holds(alloc, DecoderOptions::oer(), octets, Ok(node(7)))?);
    assert!(rt; holds(alloc, DecoderOptions::coer(), octets, Err(over))?);
    Ok(())
}

#[test]
fn what_is_held_may_be_refused(rt: HostRuntime) -> Result<(), Fail> {
    let alloc = rt.alloc();
    let short = DecodeErrorKind::Incomplete { needed: 1 };
    let preamble = DecodeErrorKind::InvalidPreamble;
    assert!(rt; holds(alloc, DecoderOptions::oer(), b"\x07\x01\xAB", Err(short))?);
    assert!(rt;
        holds(
            alloc,
            DecoderOptions::coer(),
            b"\x01\x02\x01\x07",
            Err(preamble)
        )?
    );
    Ok(())
}

//! What README.md says of its functions.

use crate::readme::{
    appended, as_first_version, as_second_version, canonical, few_levels, first_pair, name_of,
    pair_or_more, received, written,
};
use oer_types::{Sequence1, Sequence1Components, Sequence2, Sequence2Components};
use rasn_oer::prelude::*;
use std::test::Fail;

#[test]
fn a_pair_is_written_and_read(rt: HostRuntime) -> Result<(), Fail> {
    let alloc = rt.alloc();
    let octets = written(alloc)?;
    assert!(rt; octets.as_slice() == [1, 1, 1, 2].as_slice());
    let mut message = Vec::from_array(alloc, [0xAA])?;
    let (pair, rest) = first_pair(alloc, &[1, 1, 1, 2, 9])?;
    assert!(rt; rest == [9].as_slice());
    appended(alloc, &pair, &mut message)?;
    assert!(rt; message.as_slice() == [0xAA, 1, 1, 1, 2].as_slice());
    assert!(rt; pair_or_more(alloc, &[1, 1, 1, 2])? == Ok(pair));
    assert!(rt; pair_or_more(alloc, &[1, 1, 1])? == Err(1));
    Ok(())
}

#[test]
fn lenient_octets_become_canonical(rt: HostRuntime) -> Result<(), Fail> {
    let alloc = rt.alloc();
    let (octets, rest) = canonical(alloc, &[0x80, 0x01, 0x00])?;
    assert!(rt; octets.as_slice() == [0x00].as_slice() && rest.is_empty());
    Ok(())
}

#[test]
fn versions_read_each_other(rt: HostRuntime) -> Result<(), Fail> {
    let alloc = rt.alloc();
    let newer: Sequence2 = Sequence(Sequence2Components {
        a: true,
        b: Some(false),
        c: None,
    });
    let older: Sequence1 = Sequence(Sequence1Components { a: true });
    assert!(rt; as_first_version(alloc, &newer)? == older);
    let as_newer: Sequence2 = Sequence(Sequence2Components {
        a: true,
        b: None,
        c: None,
    });
    assert!(rt; as_second_version(alloc, &older)? == as_newer);
    let came = [0x80, 0xFF, 0x02, 0x06, 0x80, 0x01, 0x00];
    assert!(rt; received(alloc, &came)? == older);
    Ok(())
}

#[test]
fn refusals_have_names(rt: HostRuntime) -> Result<(), Fail> {
    let alloc = rt.alloc();
    match received(alloc, &[0x00, 0x01]) {
        Ok(_) => assert!(rt; false, "a true of 01 was read"),
        Err(refusal) => assert!(rt; name_of(&refusal) == "a true of another sender"),
    }
    let nine = [1, 1, 1, 1, 1, 1, 1, 1, 1, 1, 1, 1, 1, 1, 1, 1, 1, 0];
    let options = DecoderOptions::coer().with_depth(8).ok_or("eight levels")?;
    match few_levels(alloc, options, &nine) {
        Ok(_) => assert!(rt; false, "nine levels were read"),
        Err(refusal) => assert!(rt; name_of(&refusal) == "ExceedsMaxParseDepth"),
    }
    let (_, rest) = few_levels(alloc, options, &[1, 1, 1, 0])?;
    assert!(rt; rest.is_empty());
    Ok(())
}

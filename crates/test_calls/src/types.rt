//! Octets by hand from X.696, of types by their rows that have no word of the program. One type a function: what the check looks at
//! in one grows with the types that it names.
use crate::own_types::agrees;
use asn1_ints::Integer;
use asn1_strings::OctetString;
use oer_types::{
    ListOf, Mixed, MixedComponents, OneOf, PriorityChoiceAlternatives, Sequence, Sure,
    SureComponents,
};
use rasn_oer::prelude::Octets;
use std::alloc::Global;
use std::test::Fail;

fn sure_agrees(alloc: Global, octets: &[u8]) -> Result<bool, Fail> {
    let sure: Sure = Sequence(SureComponents {
        ok: true,
        sure: false,
    });
    agrees(alloc, &sure, octets)
}

#[test]
fn a_required_addition_is_written_and_read(rt: HostRuntime) -> Result<(), Fail> {
    let added = [0x80, 0xFF, 0x02, 0x07, 0x80, 0x01, 0x00];
    assert!(rt; sure_agrees(rt.alloc(), &added)?);
    Ok(())
}

/// A list of one value of two octets.
fn names(alloc: Global) -> Result<Vec<Octets>, Fail> {
    let name = Octets(OctetString::from_slice(alloc, b"\xAA\xBB")?);
    Ok(Vec::from_array(alloc, [name])?)
}

fn mixed_agrees(alloc: Global, octets: &[u8]) -> Result<bool, Fail> {
    let mixed: Mixed = Sequence(MixedComponents {
        priority: OneOf(PriorityChoiceAlternatives::Normal(Integer::from_i128(7))),
        names: ListOf(names(alloc)?),
    });
    agrees(alloc, &mixed, octets)
}

#[test]
fn a_choice_and_a_list_are_written_and_read(rt: HostRuntime) -> Result<(), Fail> {
    let listed = [0x80, 0x01, 0x07, 0x01, 0x01, 0x02, 0xAA, 0xBB];
    assert!(rt; mixed_agrees(rt.alloc(), &listed)?);
    Ok(())
}

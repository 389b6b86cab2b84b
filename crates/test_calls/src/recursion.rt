//! Octets by hand from X.696, of types that contain themselves.

use crate::own_types::agrees;
use asn1_core::DecodeErrorKind;
use example_recursive::{
    Bag, BodyAlternatives, Envelope, EnvelopeComponents, Filter, FilterAlternatives, Group,
    GroupComponents, Tree, TreeComponents,
};
use oer_kept::KeptChoice;
use oer_types::{Chain, ChainComponents, Node, NodeComponents};
use rasn_oer::oer::de::DecoderOptions;
use rasn_oer::prelude::*;
use rasn_oer::{coer, oer};
use std::alloc::Global;
use std::test::Fail;

fn node(value: i128, next: Option<Held<Node>>, last: bool) -> Node {
    Node(Sequence(NodeComponents {
        value: Integer::from_i128(value),
        next,
        last,
    }))
}

#[test]
fn nodes_are_written_and_read(rt: HostRuntime) -> Result<(), Fail> {
    let alloc = rt.alloc();
    let end = node(5, None, true);
    assert!(rt; agrees(alloc, &end, b"\x00\x01\x05\xFF")?);
    let whole = node(1, Some(Held(Box::new(alloc, end)?)), false);
    assert!(rt; agrees(alloc, &whole, b"\x80\x01\x01\x00\x01\x05\xFF\x00")?);
    Ok(())
}

fn envelope(
    alloc: Global,
    id: [u8; 2],
    body: BodyAlternatives<Envelope>,
    urgent: Option<bool>,
) -> Result<Envelope, Fail> {
    let id = OctetString::from_slice(alloc, &id)?;
    Ok(Envelope(Sequence(EnvelopeComponents {
        id: Limited::new(Octets(id)),
        body: KeptChoice::Known(body),
        urgent,
    })))
}

#[test]
fn envelopes_are_written_and_read(rt: HostRuntime) -> Result<(), Fail> {
    let alloc = rt.alloc();
    let text = Utf8Text(String::from_str(alloc, "a")?);
    let inner = envelope(alloc, [0xAA, 0xBB], BodyAlternatives::Text(text), None)?;
    assert!(rt; agrees(alloc, &inner, b"\x00\xAA\xBB\x80\x01\x61")?);
    let held = BodyAlternatives::Inner(Held(Box::new(alloc, inner)?));
    let whole = envelope(alloc, [0x00, 0x01], held, Some(true))?;
    let octets = [
        0x80, 0x00, 0x01, 0x81, 0x00, 0xAA, 0xBB, 0x80, 0x01, 0x61, 0x02, 0x07, 0x80, 0x01, 0xFF,
    ];
    assert!(rt; agrees(alloc, &whole, &octets)?);
    let number = BodyAlternatives::Count(Integer::from_i128(5));
    let count = envelope(alloc, [0x00, 0x02], number, None)?;
    assert!(rt; agrees(alloc, &count, b"\x00\x00\x02\x82\x02\x01\x05")?);
    Ok(())
}

fn tree(
    alloc: Global,
    label: &[u8],
    leaves: Vec<Bare<Tree>>,
    shade: Option<Bare<Tree>>,
) -> Result<Tree, Fail> {
    let shade = match shade {
        Some(one) => Some(ListOf(vec![in alloc; one]?)),
        None => None,
    };
    Ok(Tree(Sequence(TreeComponents {
        label: Ia5Text(Ia5String::from_bytes(alloc, label)?),
        leaves: ListOf(leaves),
        shade,
    })))
}

#[test]
fn trees_are_written_and_read(rt: HostRuntime) -> Result<(), Fail> {
    let alloc = rt.alloc();
    let leaf = tree(alloc, b"a", Vec::new(alloc), None)?;
    assert!(rt; agrees(alloc, &leaf, b"\x00\x01\x61\x01\x00")?);
    let mut leaves = Vec::new(alloc);
    leaves.push(Bare(leaf))?;
    leaves.push(Bare(tree(alloc, b"b", Vec::new(alloc), None)?))?;
    let shade = tree(alloc, b"c", Vec::new(alloc), None)?;
    let whole = tree(alloc, b"de", leaves, Some(Bare(shade)))?;
    let octets = [
        0x80, 0x02, 0x64, 0x65, 0x01, 0x02, 0x00, 0x01, 0x61, 0x01, 0x00, 0x00, 0x01, 0x62, 0x01,
        0x00, 0x01, 0x01, 0x00, 0x01, 0x63, 0x01, 0x00,
    ];
    assert!(rt; agrees(alloc, &whole, &octets)?);
    Ok(())
}

fn chain(ok: bool, next: Option<Held<Chain>>) -> Chain {
    Chain(Sequence(ChainComponents { ok, next }))
}

#[test]
fn chains_are_written_and_read(rt: HostRuntime) -> Result<(), Fail> {
    let alloc = rt.alloc();
    let end = chain(true, None);
    assert!(rt; agrees(alloc, &end, b"\x00\xFF")?);
    let two = chain(false, Some(Held(Box::new(alloc, end)?)));
    let octets = [0x80, 0x00, 0x02, 0x07, 0x80, 0x02, 0x00, 0xFF];
    assert!(rt; agrees(alloc, &two, &octets)?);
    let three = chain(true, Some(Held(Box::new(alloc, two)?)));
    let octets = [
        0x80, 0xFF, 0x02, 0x07, 0x80, 0x08, 0x80, 0x00, 0x02, 0x07, 0x80, 0x02, 0x00, 0xFF,
    ];
    assert!(rt; agrees(alloc, &three, &octets)?);
    Ok(())
}

fn group(number: u8, members: Vec<Bare<Group>>, guests: Option<SetOf<Bare<Group>>>) -> Group {
    Group(Sequence(GroupComponents {
        number,
        members: SetOf::from_vec(members),
        guests,
    }))
}

/// A group of two groups, of which the first or the second stands first.
fn pair(alloc: Global, is_turned: bool) -> Result<Group, Fail> {
    let inner = group(4, Vec::new(alloc), None);
    let outer = group(2, vec![in alloc; Bare(inner)]?, None);
    let alone = group(2, Vec::new(alloc), None);
    let mut members = Vec::new(alloc);
    if is_turned {
        members.push(Bare(outer))?;
        members.push(Bare(alone))?;
    } else {
        members.push(Bare(alone))?;
        members.push(Bare(outer))?;
    }
    Ok(group(1, members, None))
}

/// Why the octets aren't read within so many levels, if they aren't.
fn why_unread<T: Decode>(
    alloc: Global,
    options: DecoderOptions,
    octets: &[u8],
) -> Option<DecodeErrorKind> {
    match oer::decode_with_options::<T>(alloc, options, octets) {
        Ok(_) => None,
        Err(e) => Some(e.kind),
    }
}

/// `pair`: no guests, 1, and two members: 2 without members, 2 with a member 4.
const PAIR: &[u8] = &[
    0x00, 0x01, 0x01, 0x02, 0x00, 0x02, 0x01, 0x00, 0x00, 0x02, 0x01, 0x01, 0x00, 0x04, 0x01, 0x00,
];

/// The same members the other way round.
const TURNED_PAIR: &[u8] = &[
    0x00, 0x01, 0x01, 0x02, 0x00, 0x02, 0x01, 0x01, 0x00, 0x04, 0x01, 0x00, 0x00, 0x02, 0x01, 0x00,
];

#[test]
fn groups_are_written_and_read(rt: HostRuntime) -> Result<(), Fail> {
    let alloc = rt.alloc();
    let alone = group(5, Vec::new(alloc), None);
    assert!(rt; agrees(alloc, &alone, b"\x00\x05\x01\x00")?);
    let guest = vec![in alloc; Bare(alone)]?;
    let hosts = group(6, Vec::new(alloc), Some(SetOf::from_vec(guest)));
    let octets = [0x80, 0x06, 0x01, 0x00, 0x01, 0x01, 0x00, 0x05, 0x01, 0x00];
    assert!(rt; agrees(alloc, &hosts, &octets)?);
    assert!(rt; agrees(alloc, &pair(alloc, false)?, PAIR)?);
    assert!(rt; agrees(alloc, &pair(alloc, true)?, PAIR)?);
    Ok(())
}

#[test]
fn groups_are_read_in_any_order_leniently(rt: HostRuntime) -> Result<(), Fail> {
    let alloc = rt.alloc();
    let lenient: Group = oer::decode(alloc, TURNED_PAIR)?;
    assert!(rt; lenient == pair(alloc, false)?);
    assert_eq!(rt; coer::encode(alloc, &lenient)?.as_slice(), PAIR);
    assert!(rt;
        why_unread::<Group>(alloc, DecoderOptions::coer(), TURNED_PAIR)
            == Some(DecodeErrorKind::NotValidCanonicalEncoding)
    );
    Ok(())
}

#[test]
fn groups_are_read_within_their_levels(rt: HostRuntime) -> Result<(), Fail> {
    let alloc = rt.alloc();
    let six = DecoderOptions::coer().with_depth(6).ok_or("six levels")?;
    assert!(rt; why_unread::<Group>(alloc, six, PAIR).is_none());
    let five = DecoderOptions::coer().with_depth(5).ok_or("five levels")?;
    assert!(rt;
        why_unread::<Group>(alloc, five, PAIR) == Some(DecodeErrorKind::ExceedsMaxParseDepth)
    );
    Ok(())
}

/// A bag of a bag of an empty one, and of an empty one.
fn bags(alloc: Global) -> Result<Bag, Fail> {
    let inner = Bag(SetOf::from_vec(vec![in alloc; Bare(Bag(SetOf::from_vec(Vec::new(alloc))))]?));
    let mut both = Vec::new(alloc);
    both.push(Bare(inner))?;
    both.push(Bare(Bag(SetOf::from_vec(Vec::new(alloc)))))?;
    Ok(Bag(SetOf::from_vec(both)))
}

#[test]
fn bags_are_written_and_read(rt: HostRuntime) -> Result<(), Fail> {
    let alloc = rt.alloc();
    let whole = bags(alloc)?;
    assert!(rt; agrees(alloc, &whole, b"\x01\x02\x01\x00\x01\x01\x01\x00")?);
    let turned = [0x01, 0x02, 0x01, 0x01, 0x01, 0x00, 0x01, 0x00];
    let lenient: Bag = oer::decode(alloc, &turned)?;
    assert!(rt; lenient == whole);
    assert!(rt;
        why_unread::<Bag>(alloc, DecoderOptions::coer(), &turned)
            == Some(DecodeErrorKind::NotValidCanonicalEncoding)
    );
    Ok(())
}

fn filter(of: FilterAlternatives<Filter>) -> Filter {
    Filter(OneOf(of))
}

/// What has something of that name.
fn present(alloc: Global, name: &[u8]) -> Result<Filter, Fail> {
    let name = Octets(OctetString::from_slice(alloc, name)?);
    Ok(filter(FilterAlternatives::Present(name)))
}

/// What has an `a`, hasn't what is without a name, and meets one of no filters.
fn all_of_three(alloc: Global) -> Result<Filter, Fail> {
    let mut parts = Vec::new(alloc);
    parts.push(Bare(present(alloc, b"a")?))?;
    let nameless = Held(Box::new(alloc, present(alloc, b"")?)?);
    parts.push(Bare(filter(FilterAlternatives::Not(nameless))))?;
    parts.push(Bare(filter(FilterAlternatives::Or(ListOf(Vec::new(alloc))))))?;
    Ok(filter(FilterAlternatives::And(SetOf::from_vec(parts))))
}

#[test]
fn filters_are_written_and_read(rt: HostRuntime) -> Result<(), Fail> {
    let alloc = rt.alloc();
    let octets = [
        0x80, 0x01, 0x03, 0x81, 0x01, 0x00, 0x82, 0x83, 0x00, 0x83, 0x01, 0x61,
    ];
    assert!(rt; agrees(alloc, &all_of_three(alloc)?, &octets)?);
    let turned = [
        0x80, 0x01, 0x03, 0x83, 0x01, 0x61, 0x82, 0x83, 0x00, 0x81, 0x01, 0x00,
    ];
    let lenient: Filter = oer::decode(alloc, &turned)?;
    assert!(rt; lenient == all_of_three(alloc)?);
    assert!(rt;
        why_unread::<Filter>(alloc, DecoderOptions::coer(), &turned)
            == Some(DecodeErrorKind::NotValidCanonicalEncoding)
    );
    Ok(())
}

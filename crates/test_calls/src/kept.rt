//! Octets by hand from X.696, of types that keep what newer versions have.

use asn1_core::{DecodeErrorKind, EncodeErrorKind};
use example_recursive::{Envelope, Post, PostComponents, StateValues, WayAlternatives};
use oer_kept::{KeptChoice, KeptEnumeration};
use oer_types::{Enum3Values, OnlyChoiceAlternatives, PriorityChoiceAlternatives};
use rasn_oer::prelude::*;
use rasn_oer::{coer, oer};
use std::alloc::Global;
use std::test::Fail;

/// `ENUMERATED { red(5), blue(6), green(7), ... }`
type KeptColor = KeptEnumeration<Enum3Values>;

/// `CHOICE { normal [0] INTEGER, high [1] INTEGER, ..., medium [2] INTEGER }`
type KeptPriority = KeptChoice<PriorityChoiceAlternatives>;

/// `CHOICE { only [130] BOOLEAN }`, which isn't extensible
type KeptOnly = KeptChoice<OnlyChoiceAlternatives>;

/// Whether both modules read the octets as the value, and write it as these octets again.
pub fn agree<T: Encode + Decode + PartialEq>(
    alloc: Global,
    value: &T,
    octets: &[u8],
) -> Result<bool, Fail> {
    let strict: T = coer::decode(alloc, octets)?;
    let lenient: T = oer::decode(alloc, octets)?;
    let written = coer::encode(alloc, &strict)?;
    let again = oer::encode(alloc, &lenient)?;
    Ok(
        strict == *value
            && lenient == *value
            && written.as_slice() == octets
            && again.as_slice() == octets,
    )
}

/// Whether lenient reading gives the value, which is written as the other octets, and canonical reading refuses as that kind.
pub fn only_lenient<T: Encode + Decode + PartialEq>(
    alloc: Global,
    value: &T,
    octets: &[u8],
    canonical: &[u8],
    kind: DecodeErrorKind,
) -> Result<bool, Fail> {
    let lenient: T = oer::decode(alloc, octets)?;
    let written = oer::encode(alloc, &lenient)?;
    let is_refused = why_unread::<T>(alloc, octets) == Some(kind);
    Ok(lenient == *value && written.as_slice() == canonical && is_refused)
}

/// Why canonical reading refuses the octets, if it does.
fn why_unread<T: Decode>(alloc: Global, octets: &[u8]) -> Option<DecodeErrorKind> {
    match coer::decode::<T>(alloc, octets) {
        Ok(_) => None,
        Err(e) => Some(e.kind),
    }
}

/// Why the value isn't written, if it isn't.
pub fn why_unwritten<T: Encode>(alloc: Global, value: &T) -> Option<EncodeErrorKind> {
    match coer::encode(alloc, value) {
        Ok(_) => None,
        Err(e) => Some(e.kind),
    }
}

/// The alternative with that tag, by its octets.
pub fn other<T>(
    alloc: Global,
    class: Class,
    number: u32,
    octets: &[u8],
) -> Result<KeptChoice<T>, Fail> {
    let content = OpenOctets(Any::from_slice(alloc, octets)?);
    Ok(KeptChoice::Other(Tag::new(class, number), content))
}

#[test]
fn numbers_are_kept(rt: HostRuntime) -> Result<(), Fail> {
    let alloc = rt.alloc();
    let blue: KeptColor = KeptEnumeration::Known(Enum3Values::Blue);
    assert!(rt; agree(alloc, &blue, b"\x06")?);
    let nine: KeptColor = KeptEnumeration::Other(9);
    assert!(rt; agree(alloc, &nine, b"\x09")?);
    let thousand: KeptColor = KeptEnumeration::Other(1000);
    assert!(rt; agree(alloc, &thousand, b"\x82\x03\xE8")?);
    let below: KeptColor = KeptEnumeration::Other(-1000);
    assert!(rt; agree(alloc, &below, b"\x82\xFC\x18")?);
    Ok(())
}

#[test]
fn numbers_are_read_leniently(rt: HostRuntime) -> Result<(), Fail> {
    let alloc = rt.alloc();
    let thousand: KeptColor = KeptEnumeration::Other(1000);
    let long = [0x83, 0x00, 0x03, 0xE8];
    let canonical = [0x82, 0x03, 0xE8];
    assert!(rt;
        only_lenient(
            alloc,
            &thousand,
            &long,
            &canonical,
            DecodeErrorKind::NotValidCanonicalEncoding
        )?
    );
    let blue: KeptColor = KeptEnumeration::Known(Enum3Values::Blue);
    assert!(rt;
        only_lenient(
            alloc,
            &blue,
            b"\x81\x06",
            b"\x06",
            DecodeErrorKind::NotValidCanonicalEncoding
        )?
    );
    assert!(rt;
        why_unread::<KeptColor>(alloc, b"\x82\x03")
            == Some(DecodeErrorKind::Incomplete { needed: 1 })
    );
    Ok(())
}

#[test]
fn a_known_number_is_no_other_value(rt: HostRuntime) -> Result<(), Fail> {
    let alloc = rt.alloc();
    let blue: KeptColor = KeptEnumeration::Other(6);
    assert!(rt; !blue.is_value());
    assert!(rt; why_unwritten(alloc, &blue) == Some(EncodeErrorKind::ValueConstraintNotSatisfied));
    let six: KeptColor = KeptEnumeration::from_number(6);
    assert!(rt; matches!(six, KeptEnumeration::Known(Enum3Values::Blue)));
    let nine: KeptColor = KeptEnumeration::from_number(9);
    assert!(rt; matches!(nine, KeptEnumeration::Other(9)));
    assert!(rt; nine.number() == 9 && nine.is_value());
    Ok(())
}

/// Whether octets under that tag agree with these octets of the choice.
fn keeps(
    alloc: Global,
    class: Class,
    number: u32,
    content: &[u8],
    octets: &[u8],
) -> Result<bool, Fail> {
    let value: KeptPriority = other(alloc, class, number, content)?;
    agree(alloc, &value, octets)
}

#[test]
fn known_alternatives_are_read(rt: HostRuntime) -> Result<(), Fail> {
    let alloc = rt.alloc();
    let normal = KeptChoice::Known(PriorityChoiceAlternatives::Normal(Integer::from_i128(5)));
    assert!(rt; agree(alloc, &normal, b"\x80\x01\x05")?);
    let medium = KeptChoice::Known(PriorityChoiceAlternatives::Medium(Integer::from_i128(5)));
    assert!(rt; agree(alloc, &medium, b"\x82\x02\x01\x05")?);
    Ok(())
}

#[test]
fn alternatives_are_kept(rt: HostRuntime) -> Result<(), Fail> {
    let alloc = rt.alloc();
    assert!(rt; keeps(alloc, Class::Context, 3, b"\xFF\x00", b"\x83\x02\xFF\x00")?);
    assert!(rt; keeps(alloc, Class::Context, 3, &[], b"\x83\x00")?);
    assert!(rt; keeps(alloc, Class::Application, 0, b"\xAA", b"\x40\x01\xAA")?);
    assert!(rt; keeps(alloc, Class::Context, 100, b"\xAA", b"\xBF\x64\x01\xAA")?);
    Ok(())
}

#[test]
fn alternatives_are_kept_in_lists(rt: HostRuntime) -> Result<(), Fail> {
    let alloc = rt.alloc();
    let normal = KeptChoice::Known(PriorityChoiceAlternatives::Normal(Integer::from_i128(5)));
    let third: KeptPriority = other(alloc, Class::Context, 3, b"\xAA")?;
    let list = ListOf(Vec::from_array(alloc, [third, normal])?);
    assert!(rt; agree(alloc, &list, b"\x01\x02\x83\x01\xAA\x80\x01\x05")?);
    Ok(())
}

#[test]
fn alternatives_are_read_leniently(rt: HostRuntime) -> Result<(), Fail> {
    let alloc = rt.alloc();
    let third: KeptPriority = other(alloc, Class::Context, 3, b"\xFF")?;
    let long = [0x83, 0x81, 0x01, 0xFF];
    assert!(rt;
        only_lenient(
            alloc,
            &third,
            &long,
            b"\x83\x01\xFF",
            DecodeErrorKind::NotValidCanonicalEncoding
        )?
    );
    assert!(rt;
        why_unread::<KeptPriority>(alloc, b"\x83\x02\xFF")
            == Some(DecodeErrorKind::Incomplete { needed: 1 })
    );
    assert!(rt;
        why_unread::<KeptPriority>(alloc, b"\x83")
            == Some(DecodeErrorKind::Incomplete { needed: 1 })
    );
    Ok(())
}

#[test]
fn a_known_tag_is_no_other_alternative(rt: HostRuntime) -> Result<(), Fail> {
    let alloc = rt.alloc();
    let root: KeptPriority = other(alloc, Class::Context, 0, b"\x01\x05")?;
    assert!(rt; why_unwritten(alloc, &root) == Some(EncodeErrorKind::ValueConstraintNotSatisfied));
    let addition: KeptPriority = other(alloc, Class::Context, 2, b"\x01\x05")?;
    assert!(rt;
        why_unwritten(alloc, &addition) == Some(EncodeErrorKind::ValueConstraintNotSatisfied)
    );
    Ok(())
}

#[test]
fn a_choice_that_is_not_extensible_keeps_none(rt: HostRuntime) -> Result<(), Fail> {
    let alloc = rt.alloc();
    let third: KeptOnly = other(alloc, Class::Context, 3, b"\xAA")?;
    assert!(rt; why_unwritten(alloc, &third) == Some(EncodeErrorKind::ValueConstraintNotSatisfied));
    let kind = DecodeErrorKind::InvalidTagVariantOnChoice {
        value: Tag::new(Class::Context, 3),
        is_extensible: false,
    };
    assert!(rt; why_unread::<KeptOnly>(alloc, b"\x83\x01\xAA") == Some(kind));
    Ok(())
}

#[test]
fn printed_types_keep_what_is_newer(rt: HostRuntime) -> Result<(), Fail> {
    let alloc = rt.alloc();
    let letter: Envelope = coer::decode(alloc, b"\x00\xAA\xBB\x80\x01\x61")?;
    let post: Post = Sequence(PostComponents {
        letter,
        answer: None,
        state: KeptEnumeration::Other(9),
        way: Some(other(alloc, Class::Context, 7, b"\xAB\xCD")?),
    });
    assert!(rt;
        agree(
            alloc,
            &post,
            b"\x60\x00\xAA\xBB\x80\x01\x61\x09\x87\x02\xAB\xCD"
        )?
    );
    Ok(())
}

#[test]
fn printed_types_keep_within_what_they_know(rt: HostRuntime) -> Result<(), Fail> {
    let alloc = rt.alloc();
    let letter: Envelope = coer::decode(alloc, b"\x00\xAA\xBB\x80\x01\x61")?;
    let post: Post = Sequence(PostComponents {
        letter,
        answer: None,
        state: KeptEnumeration::Known(StateValues::Sent),
        way: Some(KeptChoice::Known(WayAlternatives::Sea(KeptEnumeration::Other(5)))),
    });
    assert!(rt; agree(alloc, &post, b"\x20\x00\xAA\xBB\x80\x01\x61\x82\x01\x05")?);
    Ok(())
}

//! Values that aren't written, and values that can't be read again.
ghost use Rattle.oer_spec.specs.Spelled.{IsConsistent};

use asn1_core::{Bounded, Constraints, EncodeError, Tag};
use asn1_ints::{ConstrainedInteger, Integer, IntegerRange};
use asn1_strings::{BitString, BmpString, OctetString};
use asn1_times::{Date, GeneralizedTime, UtcTime};
use jiff::civil;
use oer_types::{
    Bare, DeepDefault, FooComponents, HashedId3, ListOf, Negative, Nest, Positive, Sequence, Set,
    components,
};
use oer_write::enc::EncoderOptions;
use oer_write::{Encode, Encoder};
use rasn_oer::{Decode, coer, oer};
use std::alloc::Global;
use std::fmt::Debug;
use std::process::Abort;
use std::test::Fail;

/// Why it was refused: the mode, the kind with its fields, and the message; `written` where it wasn't.
fn tell<T: Drop>(
    alloc: Global,
    told: &mut String,
    answer: Result<T, EncodeError>,
) -> Result<(), Fail> {
    match answer {
        Ok(_) => told.push_str("written\n")?,
        Err(e) => {
            let line = format!(in alloc; "{:?} {:?}: {}\n", e.codec, e.kind, e)?;
            told.push_str(line.as_str())?;
        }
    }
    Ok(())
}

/// Why both modules refuse to write the value, in a call each.
fn tell_both<T: Encode>(alloc: Global, told: &mut String, value: &T) -> Result<(), Fail> {
    tell(alloc, told, oer::encode(alloc, value))?;
    tell(alloc, told, coer::encode(alloc, value))
}

/// The same under these constraints.
fn tell_under<T: Encode>(
    alloc: Global,
    told: &mut String,
    constraints: Constraints,
    value: &T,
) -> Result<(), Fail> {
    if !constraints.is_consistent() {
        return Err(Fail::from("constraints without a value"));
    }
    tell(
        alloc,
        told,
        oer::encode_with_constraints(alloc, constraints, value),
    )?;
    tell(
        alloc,
        told,
        coer::encode_with_constraints(alloc, constraints, value),
    )
}

const OUTSIDE: &str = "\
Coer ValueConstraintNotSatisfied: the value constraint isn't satisfied\n\
Coer ValueConstraintNotSatisfied: the value constraint isn't satisfied\n\
Coer ValueConstraintNotSatisfied: the value constraint isn't satisfied\n\
Coer ValueConstraintNotSatisfied: the value constraint isn't satisfied\n\
Coer SizeConstraintNotSatisfied { size: 1 }: the size 1 doesn't satisfy the size constraint\n\
Coer SizeConstraintNotSatisfied { size: 1 }: the size 1 doesn't satisfy the size constraint\n\
Coer TimeNotRepresentable: the time is not representable\n\
Coer TimeNotRepresentable: the time is not representable\n\
Coer TimeNotRepresentable: the time is not representable\n\
Coer TimeNotRepresentable: the time is not representable\n\
Coer ValueConstraintNotSatisfied: the value constraint isn't satisfied\n\
Coer ValueConstraintNotSatisfied: the value constraint isn't satisfied\n";

fn tell_signs(alloc: Global, told: &mut String) -> Result<(), Fail> {
    tell_both(alloc, told, &Positive(Integer::from_i128(-1)))
}

fn tell_negative(alloc: Global, told: &mut String) -> Result<(), Fail> {
    tell_both(alloc, told, &Negative(Positive(Integer::from_i128(1))))
}

fn tell_short(alloc: Global, told: &mut String) -> Result<(), Fail> {
    let short = HashedId3(OctetString::from_slice(alloc, &[1])?);
    tell_both(alloc, told, &short)
}

/// The year 2050, which has no UTC time.
fn tell_late(alloc: Global, told: &mut String) -> Result<(), Fail> {
    let year_2050 = civil::DateTime::new(2050, 1, 1, 0, 0, 0, 0)?;
    tell_both(alloc, told, &UtcTime::new(year_2050))
}

/// The year before 0.
fn tell_early(alloc: Global, told: &mut String) -> Result<(), Fail> {
    let before = civil::DateTime::new(-1, 12, 31, 23, 59, 59, 0)?;
    tell_both(alloc, told, &GeneralizedTime::new(before))
}

fn tell_great(alloc: Global, told: &mut String) -> Result<(), Fail> {
    tell_both(alloc, told, &ConstrainedInteger::<OneOctet>::new(256))
}

/// One type a function: what the check looks at in one grows with the types that it names.
#[test]
fn values_outside_their_types_are_not_written(rt: HostRuntime) -> Result<(), Fail> {
    let alloc = rt.alloc();
    let mut told = String::new(alloc);
    tell_signs(alloc, &mut told)?;
    tell_negative(alloc, &mut told)?;
    tell_short(alloc, &mut told)?;
    tell_late(alloc, &mut told)?;
    tell_early(alloc, &mut told)?;
    tell_great(alloc, &mut told)?;
    assert_eq!(rt; told.as_str(), OUTSIDE);
    Ok(())
}

const SIZES: &str = "\
Coer SizeConstraintNotSatisfied { size: 7 }: the size 7 doesn't satisfy the size constraint\n\
Coer SizeConstraintNotSatisfied { size: 7 }: the size 7 doesn't satisfy the size constraint\n\
Coer SizeConstraintNotSatisfied { size: 7 }: the size 7 doesn't satisfy the size constraint\n\
Coer SizeConstraintNotSatisfied { size: 7 }: the size 7 doesn't satisfy the size constraint\n\
written\n\
written\n\
Coer ValueConstraintNotSatisfied: the value constraint isn't satisfied\n\
Coer ValueConstraintNotSatisfied: the value constraint isn't satisfied\n";

/// Sizes from 3 to 6.
fn sizes() -> Constraints {
    Constraints::NONE.with_size(Bounded::Range {
        start: Some(3),
        end: Some(6),
    })
}

fn tell_octets(alloc: Global, told: &mut String) -> Result<(), Fail> {
    let octets = OctetString::from_slice(alloc, &[1, 2, 3, 4, 5, 6, 7])?;
    tell_under(alloc, told, sizes(), &octets)
}

fn tell_bits(alloc: Global, told: &mut String) -> Result<(), Fail> {
    let bits = BitString::from_octets(alloc, b"\xFE", 7)?.ok_or("bits")?;
    tell_under(alloc, told, sizes(), &bits)
}

fn tell_characters(alloc: Global, told: &mut String) -> Result<(), Fail> {
    let three = BmpString::from_units(alloc, &[1, 2, 3])?;
    tell_under(alloc, told, sizes(), &three)
}

fn tell_number(alloc: Global, told: &mut String) -> Result<(), Fail> {
    let octet = Constraints::NONE.with_value(Bounded::Range {
        start: Some(0),
        end: Some(255),
    });
    tell_under(alloc, told, octet, &Integer::from_i128(256))
}

#[test]
fn values_outside_constraints_are_not_written(rt: HostRuntime) -> Result<(), Fail> {
    let alloc = rt.alloc();
    let mut told = String::new(alloc);
    tell_octets(alloc, &mut told)?;
    tell_bits(alloc, &mut told)?;
    tell_characters(alloc, &mut told)?;
    tell_number(alloc, &mut told)?;
    assert_eq!(rt; told.as_str(), SIZES);
    Ok(())
}

/// A list of so many values that take no octets.
fn nulls(alloc: Global, count: u32) -> Result<Vec<()>, Fail> {
    let mut list = Vec::new(alloc);
    for _ in 0..count {
        list.push(())?;
    }
    Ok(list)
}

const MANY: &str = "\
written\n\
written\n\
Coer TooManyEmptyElements: too many elements without octets\n\
Coer TooManyEmptyElements: too many elements without octets\n";

#[test]
fn lists_of_nothing_are_not_written(rt: HostRuntime) -> Result<(), Fail> {
    let alloc = rt.alloc();
    let mut told = String::new(alloc);
    tell_both(alloc, &mut told, &nulls(alloc, 65536)?)?;
    tell_both(alloc, &mut told, &nulls(alloc, 65537)?)?;
    assert_eq!(rt; told.as_str(), MANY);
    Ok(())
}

#[test]
fn arcs_of_no_identifier_are_not_written(rt: HostRuntime) -> Result<(), Fail> {
    let alloc = rt.alloc();
    let mut output = Vec::new(alloc);
    let mut worker = Vec::new(alloc);
    let mut encoder = Encoder::from_buffer(alloc, EncoderOptions::coer(), &mut output, &mut worker);
    let answer = encoder.encode_object_identifier(Tag::OBJECT_IDENTIFIER, &[1, 40]);
    let mut told = String::new(alloc);
    tell(alloc, &mut told, answer)?;
    let expected = "Coer InvalidObjectIdentifier: invalid object identifier\n";
    assert_eq!(rt; told.as_str(), expected);
    Ok(())
}

/// From 0 to 255.
#[derive(Drop)]
enum OneOctet {}

impl IntegerRange for OneOctet {
    ghost use Rattle.std.specs.Prelude.{pos, refl};

    ghost MIN = { pos 0 };

    const MIN: i128 = 0;

    ghost MAX = { pos 255 };

    const MAX: i128 = 255;

    ghost holds_number = { refl };
}

/// Appends, with each module, a value that is refused to a buffer of two octets.
fn append_outside(
    alloc: Global,
    lenient: &mut Vec<u8>,
    canonical: &mut Vec<u8>,
) -> Result<String, Fail> {
    let outside = ConstrainedInteger::<OneOctet>::new(256);
    let mut told = String::new(alloc);
    let answer = oer::encode_buf(alloc, &outside, lenient);
    tell(alloc, &mut told, answer)?;
    let answer = coer::encode_buf(alloc, &outside, canonical);
    tell(alloc, &mut told, answer)?;
    Ok(told)
}

/// Appends a set with each module.
fn append_set(
    alloc: Global,
    lenient: &mut Vec<u8>,
    canonical: &mut Vec<u8>,
) -> Result<(), EncodeError> {
    let set = Set(FooComponents {
        a: Some(Integer::from_i128(5)),
        b: Some(Integer::from_i128(6)),
        c: Some(Integer::from_i128(7)),
    });
    oer::encode_buf(alloc, &set, lenient)?;
    coer::encode_buf(alloc, &set, canonical)
}

#[test]
fn a_refused_value_leaves_the_buffer_as_it_was(rt: HostRuntime) -> Result<(), Fail> {
    let alloc = rt.alloc();
    let mut lenient = vec![in alloc; 0xaa, 0xbb]?;
    let mut canonical = vec![in alloc; 0xaa, 0xbb]?;
    let told = append_outside(alloc, &mut lenient, &mut canonical)?;
    append_set(alloc, &mut lenient, &mut canonical)?;
    assert!(rt; lenient == canonical);
    assert_eq!(rt;
        canonical.as_slice(),
        b"\xaa\xbb\xe0\x01\x07\x01\x06\x01\x05".as_slice()
    );
    assert_eq!(rt; told.as_str(), TWICE);
    Ok(())
}

const TWICE: &str = "\
Coer ValueConstraintNotSatisfied: the value constraint isn't satisfied\n\
Coer ValueConstraintNotSatisfied: the value constraint isn't satisfied\n";

/// So many nested lists, of which each but the last holds one.
fn nested(alloc: Global, count: u8) -> Result<Nest, Fail> {
    let mut nest = Nest(ListOf(Vec::new(alloc)));
    for _ in 1..count {
        let mut items = Vec::new(alloc);
        items.push(Bare(nest))?;
        nest = Nest(ListOf(items));
    }
    Ok(nest)
}

/// The octets of so many nested lists.
fn nested_octets(alloc: Global, count: u8) -> Result<Vec<u8>, Fail> {
    let mut octets = Vec::new(alloc);
    for _ in 1..count {
        octets.extend_from_slice(&[1, 1])?;
    }
    octets.extend_from_slice(&[1, 0])?;
    Ok(octets)
}

/// Whether both modules write the lists as these octets.
fn are_written(alloc: Global, value: &Nest, octets: &Vec<u8>) -> Result<bool, EncodeError> {
    let canonical = coer::encode(alloc, value)?;
    let lenient = oer::encode(alloc, value)?;
    Ok(canonical == *octets && lenient == *octets)
}

/// Whether both modules write the sequence, whose default is 128 lists, as these octets.
fn is_written(alloc: Global, n: Nest, octets: &[u8]) -> Result<bool, EncodeError> {
    let value: DeepDefault = Sequence(components::DeepDefault { n });
    let canonical = coer::encode(alloc, &value)?;
    let lenient = oer::encode(alloc, &value)?;
    Ok(canonical.as_slice() == octets && lenient.as_slice() == octets)
}

#[test]
fn lists_are_written_at_any_depth(rt: HostRuntime) -> Result<(), Fail> {
    let alloc = rt.alloc();
    let nest = nested(alloc, 129)?;
    let octets = nested_octets(alloc, 129)?;
    assert!(rt; are_written(alloc, &nest, &octets)?);
    let mut whole = vec![in alloc; 0x80]?;
    whole.extend_from_slice(octets.as_slice())?;
    assert!(rt; is_written(alloc, nest, whole.as_slice())?);
    Ok(())
}

#[test]
fn a_default_of_lists_is_left_out(rt: HostRuntime) -> Result<(), Fail> {
    let alloc = rt.alloc();
    assert!(rt; is_written(alloc, nested(alloc, 128)?, &[0])?);
    let n = components::DeepDefault::default_n(alloc)?;
    assert!(rt; is_written(alloc, n, &[0])?);
    Ok(())
}

/// The octets of a value, which `oer` and `coer` write alike, and the value of these octets, which both read alike.
fn passed<T: Encode + Decode + Debug + PartialEq>(
    alloc: Global,
    value: &T,
) -> Result<String, Fail> {
    let octets = coer::encode(alloc, value)?;
    let same = oer::encode(alloc, value)?;
    let lenient: T = oer::decode(alloc, octets.as_slice())?;
    let canonical: T = coer::decode(alloc, octets.as_slice())?;
    if same != octets || lenient != canonical {
        return Err(Fail::from("the modules differ"));
    }
    let octets = String::from_utf8(octets)?;
    Ok(format!(in alloc; "{} {:?}", octets, lenient)?)
}

#[test]
fn a_utc_time_is_written_from_its_fields(rt: HostRuntime) -> Result<(), Fail> {
    let time = UtcTime::new(civil::DateTime::new(2019, 10, 9, 13, 0, 5, 0)?);
    let told = passed(rt.alloc(), &time)?;
    let expected = "\x0d191009130005Z UtcTime { value: 2019-10-09T13:00:05 }";
    assert_eq!(rt; told.as_str(), expected);
    Ok(())
}

#[test]
fn a_generalized_time_is_written_from_its_fields(rt: HostRuntime) -> Result<(), Fail> {
    let time = GeneralizedTime::new(civil::DateTime::new(2080, 10, 9, 13, 0, 5, 342_000_000)?);
    let told = passed(rt.alloc(), &time)?;
    let expected = "\x1320801009130005.342Z GeneralizedTime { value: 2080-10-09T13:00:05.342 }";
    assert_eq!(rt; told.as_str(), expected);
    Ok(())
}

#[test]
fn a_date_is_written_from_its_fields(rt: HostRuntime) -> Result<(), Fail> {
    let day = Date::new(civil::Date::new(2024, 2, 29)?);
    let told = passed(rt.alloc(), &day)?;
    assert_eq!(rt; told.as_str(), "\x0820240229 Date { value: 2024-02-29 }");
    Ok(())
}

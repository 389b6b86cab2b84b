//! Closures that ask what they are not to ask, or not all of it.
ghost use Rattle.std.specs.Prelude.{OnOk};
ghost use Rattle.oer_read.specs.Law.{IsRear};

use asn1_core::{
    AsnType, Class, Constructed, DecodeError, DecodeErrorKind, Field, FieldPresence, Fields, Tag,
};
use asn1_ints::Integer;
use oer_types::{
    AllOptional, AllOptionalComponents, MixedSet, MixedSetComponents, Pair, Sequence, Sequence1,
    Set,
};
use rasn_oer::{Decode, Decoder, DecoderOptions, fields};
use std::alloc::Global;
use std::process::Abort;
use std::test::Fail;

fn ask(
    alloc: Global,
    decoder: &mut Decoder<'_>,
    number: u32,
) -> Result<Option<Integer>, DecodeError>
    ensures { OnOk result (IsRear decoder.old.input decoder.new.input) }
{
    decoder.decode_optional_with_tag(alloc, Tag::new(Class::Context, number))
}

/// What reading answers where the closure asks for that component first.
fn asking_first(
    alloc: Global,
    decoder: &mut Decoder<'_>,
    number: u32,
) -> Result<AllOptional, DecodeError> {
    decoder.decode_sequence::<2, 0, AllOptional, _>(
        Tag::SEQUENCE,
        |inner: &mut Decoder<'_>| -> Result<AllOptional, DecodeError>
            ensures { OnOk result (IsRear inner.old.input inner.new.input) }
        {
            let a = ask(alloc, inner, number)?;
            Ok(Sequence(AllOptionalComponents { a, b: None }))
        },
    )
}

#[test]
fn each_component_is_asked_in_the_order_of_the_table(rt: HostRuntime) -> Result<(), Fail> {
    let octets = [0x00];
    for options in [DecoderOptions::oer(), DecoderOptions::coer()] {
        // a component that isn't next, and one behind which another is left
        for number in [1, 0] {
            let mut decoder = Decoder::new(&octets, options);
            let answer = asking_first(rt.alloc(), &mut decoder, number);
            let missing = DecodeErrorKind::MissingTagClassOrValueInSequenceOrSet {
                class: Class::Context,
                value: 1,
            };
            assert!(rt; answer == Err(missing.with_codec(decoder.codec())));
            assert_eq!(rt; decoder.remaining(), octets.as_slice());
        }
    }
    Ok(())
}

fn pass_boolean(alloc: Global, decoder: &mut Decoder<'_>) -> Result<(), DecodeError>
    ensures { OnOk result (IsRear decoder.old.input decoder.new.input) }
{
    let _component = bool::decode(alloc, decoder)?;
    Ok(())
}

fn pass_integer(alloc: Global, decoder: &mut Decoder<'_>) -> Result<(), DecodeError>
    ensures { OnOk result (IsRear decoder.old.input decoder.new.input) }
{
    let _component = Integer::decode(alloc, decoder)?;
    Ok(())
}

fn addition(alloc: Global, decoder: &mut Decoder<'_>, tag: Tag) -> Result<Option<bool>, DecodeError>
    ensures { OnOk result (IsRear decoder.old.input decoder.new.input) }
{
    decoder.decode_extension_addition_with_tag_and_constraints(alloc, tag, bool::CONSTRAINTS)
}

/// What reading answers where the closure asks for an addition that the table doesn't have.
fn asking_beyond(alloc: Global, decoder: &mut Decoder<'_>) -> Result<Sequence1, DecodeError> {
    decoder.decode_sequence::<1, 0, Sequence1, _>(
        Tag::SEQUENCE,
        |inner: &mut Decoder<'_>| -> Result<Sequence1, DecodeError>
            ensures { OnOk result (IsRear inner.old.input inner.new.input) }
        {
            pass_boolean(alloc, inner)?;
            match addition(alloc, inner, Tag::new(Class::Context, 1)) {
                Err(e) => Err(e),
                Ok(_addition) => Err(DecodeErrorKind::OutOfMemory.with_codec(inner.codec())),
            }
        },
    )
}

#[test]
fn no_addition_is_asked_past_the_table(rt: HostRuntime) -> Result<(), Fail> {
    let octets = [0x00, 0xff];
    for options in [DecoderOptions::oer(), DecoderOptions::coer()] {
        let mut decoder = Decoder::new(&octets, options);
        let answer = asking_beyond(rt.alloc(), &mut decoder);
        let refused = DecodeErrorKind::TypeNotExtensible.with_codec(decoder.codec());
        assert!(rt; answer == Err(refused));
        assert_eq!(rt; decoder.remaining(), octets.as_slice());
    }
    Ok(())
}

/// Reads a component of a set, and answers by which index and tag it was asked.
fn asked_by(
    alloc: Global,
    decoder: &mut Decoder<'_>,
    index: usize,
    tag: Tag,
) -> Result<(usize, Tag), DecodeError>
    ensures { OnOk result (IsRear decoder.old.input decoder.new.input) }
{
    match (tag.class, tag.value) {
        (Class::Context, 2) => pass_boolean(alloc, decoder)?,
        (Class::Context, 0) => {
            let _addition = addition(alloc, decoder, tag)?;
        }
        _ => pass_integer(alloc, decoder)?,
    }
    Ok((index, tag))
}

/// By which indexes and tags the closure of a mixed set is asked.
fn calls_of(alloc: Global, decoder: &mut Decoder<'_>) -> Result<Vec<(usize, Tag)>, DecodeError> {
    let mut calls = Vec::new(alloc);
    let _set = decoder.decode_set::<3, 1, (usize, Tag), MixedSet, _, _>(
        alloc,
        Tag::SET,
        |inner: &mut Decoder<'_>, index: usize, tag: Tag| -> Result<(usize, Tag), DecodeError>
            ensures { OnOk result (IsRear inner.old.input inner.new.input) }
        { asked_by(alloc, inner, index, tag) },
        |fields: Vec<(usize, Tag)>| -> Result<MixedSet, DecodeError> {
            calls = fields;
            Ok(Set(MixedSetComponents {
                x: true,
                y: None,
                z: Integer::from_i128(0),
                n: None,
            }))
        },
    )?;
    Ok(calls)
}

/// `SET { a [444] INTEGER OPTIONAL, b [5] INTEGER OPTIONAL, c [APPLICATION 9] INTEGER OPTIONAL }`
#[derive(Drop)]
struct Unsorted {}

const UNSORTED: &'static [Field<'static>] = fields![
    0 Optional Context 444 "a", 1 Optional Context 5 "b", 2 Optional Application 9 "c"
];

impl Constructed<3, 0> for Unsorted {
    ghost use Rattle.std.specs.Prelude.{false, true, refl, []};
    ghost use Rattle.test_calls.specs.Unsorted.{unsorted};

    ghost is_set = { true };

    ghost root_rows = { unsorted };

    ghost addition_rows = { [] };

    ghost IS_EXTENSIBLE = { false };

    const IS_EXTENSIBLE: bool = false;

    const FIELDS: Fields<3> = Fields { fields: UNSORTED };

    const EXTENDED_FIELDS: Option<Fields<0>> = None;

    fn root_fields() -> &'static [Field<'static>] {
        Self::FIELDS.fields
    }

    fn addition_fields() -> &'static [Field<'static>] {
        &[]
    }

    ghost tables = { record { root_count = refl; addition_count = refl; root_indexes = (refl, (refl, (refl, tt))); addition_indexes = tt; only = λ e. refl; distinct = λ e. (refl, (refl, (refl, tt))) } };
}

/// By which indexes and tags the closure of a set whose table isn't in the order of its tags is asked.
fn calls_of_unsorted(
    alloc: Global,
    decoder: &mut Decoder<'_>,
) -> Result<Vec<(usize, Tag)>, DecodeError> {
    let mut calls = Vec::new(alloc);
    let _set = decoder.decode_set::<3, 0, (usize, Tag), Unsorted, _, _>(
        alloc,
        Tag::SET,
        |inner: &mut Decoder<'_>, index: usize, tag: Tag| -> Result<(usize, Tag), DecodeError>
            ensures { OnOk result (IsRear inner.old.input inner.new.input) }
        { asked_by(alloc, inner, index, tag) },
        |fields: Vec<(usize, Tag)>| -> Result<Unsorted, DecodeError> {
            calls = fields;
            Ok(Unsorted {})
        },
    )?;
    Ok(calls)
}

#[test]
fn components_of_a_set_are_read_in_the_order_of_their_tags(rt: HostRuntime) -> Result<(), Fail> {
    let octets = [0xe0, 1, 7, 1, 6, 1, 5];
    let expected = [
        (2, Tag::new(Class::Application, 9)),
        (1, Tag::new(Class::Context, 5)),
        (0, Tag::new(Class::Context, 444)),
    ];
    for options in [DecoderOptions::oer(), DecoderOptions::coer()] {
        let mut decoder = Decoder::new(&octets, options);
        let calls = calls_of_unsorted(rt.alloc(), &mut decoder)?;
        assert_eq!(rt; calls.as_slice(), expected.as_slice());
        assert!(rt; decoder.remaining().is_empty());
    }
    Ok(())
}

#[test]
fn additions_of_a_set_are_asked_behind_its_roots(rt: HostRuntime) -> Result<(), Fail> {
    let octets = [0xe0, 1, 3, 1, 5, 0xff, 2, 7, 0x80, 1, 0];
    let expected = [
        (2, Tag::new(Class::Application, 1)),
        (1, Tag::new(Class::Context, 1)),
        (0, Tag::new(Class::Context, 2)),
        (3, Tag::new(Class::Context, 0)),
    ];
    for options in [DecoderOptions::oer(), DecoderOptions::coer()] {
        let mut decoder = Decoder::new(&octets, options);
        let calls = calls_of(rt.alloc(), &mut decoder)?;
        assert_eq!(rt; calls.as_slice(), expected.as_slice());
        assert!(rt; decoder.remaining().is_empty());
    }
    Ok(())
}

/// What is read of a pair whose second number is cut off, and what is left then.
#[test]
fn refusals_leave_what_is_to_be_read(rt: HostRuntime) -> Result<(), Fail> {
    let octets = [1, 1, 2, 1];
    for options in [DecoderOptions::oer(), DecoderOptions::coer()] {
        let mut decoder = Decoder::new(&octets, options);
        let lacking = DecodeErrorKind::Incomplete { needed: 1 };
        let refused = lacking.with_codec(decoder.codec());
        assert!(rt; Pair::decode(rt.alloc(), &mut decoder) == Err(refused));
        assert_eq!(rt; decoder.remaining(), octets.as_slice());
    }
    Ok(())
}

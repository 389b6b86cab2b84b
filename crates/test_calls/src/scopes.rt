//! Lists and choices by closures of their own, and components outside a scope. test_memory has rows of the other scopes, and of each
//! method that writes a component.
ghost use Rattle.std.specs.Prelude.{OnOk};
ghost use Rattle.oer_spec.specs.Spelled.{boolean};
ghost use Rattle.oer_spec.specs.Tree.{NoRows, Optional, Absent, Present};
ghost use Rattle.oer_write.specs.Rows.{InSet};
ghost use Rattle.oer_write.specs.Written.{WritesTree};
ghost use Rattle.oer_rows.specs.Integers.{plain_integer};
ghost use Rattle.oer_rows.specs.Schema.{application, context};
ghost use Rattle.oer_read.specs.Law.{IsRear};

use asn1_core::{AsnType, Class, Codec, Constraints, DecodeError, EncodeError, SetOf, Tag};
use asn1_ints::Integer;
use oer_types::{Foo, OneOf, PriorityChoice, PriorityChoiceAlternatives, Sequence4};
use rasn_oer::oer::de::DecoderOptions;
use rasn_oer::oer::enc::EncoderOptions;
use rasn_oer::oer::{Decoder, Encoder};
use rasn_oer::{Decode, DecodeChoice, Encode};
use std::alloc::Global;
use std::process::Abort;
use std::test::Fail;

const NONE: Constraints = Constraints::NONE;

/// The tag of context 1.
fn one() -> Tag {
    Tag::new(Class::Context, 1)
}

/// Writes a list by a closure of its own.
fn write_list(encoder: &mut Encoder<'_>) -> Result<(), EncodeError> {
    encoder.encode_sequence_of_with(
        Tag::SEQUENCE,
        NONE,
        &[true, false],
        |encoder: &mut Encoder<'_>, x: &bool| -> Result<(), EncodeError>
            ensures { WritesTree (boolean x.now) encoder.old result encoder.new }
        { x.encode(encoder) },
    )
}

/// Writes lists of both kinds by their methods.
fn write_lists(alloc: Global, encoder: &mut Encoder<'_>) -> Result<(), Fail> {
    encoder.encode_sequence_of(Tag::SEQUENCE, NONE, &[true])?;
    let items = vec![in alloc; true, false]?;
    encoder.encode_set_of(Tag::SET, NONE, &SetOf::from_vec(items))?;
    Ok(())
}

#[test]
fn lists_are_written_by_their_methods(rt: HostRuntime) -> Result<(), Fail> {
    let alloc = rt.alloc();
    let mut octets = Vec::new(alloc);
    let mut worker = Vec::new(alloc);
    let options = EncoderOptions::coer();
    let mut encoder = Encoder::from_buffer(alloc, options, &mut octets, &mut worker);
    write_list(&mut encoder)?;
    write_lists(alloc, &mut encoder)?;
    drop(encoder);
    assert_eq!(rt;
        octets.as_slice(),
        b"\x01\x02\xff\x00\x01\x01\xff\x01\x02\x00\xff".as_slice()
    );
    assert!(rt; true.is_present());
    Ok(())
}

/// Writes c alone of a set, whose components are handed in in the order of its table.
fn write_foo(encoder: &mut Encoder<'_>, c: &Integer) -> Result<(), EncodeError> {
    encoder.encode_set::<3, 0, Foo, _>(
        Tag::SET,
        |encoder: &mut Encoder<'_>| -> Result<(), EncodeError>
            ensures { InSet (Optional (context 444) Absent (Optional (context 5) Absent (Optional (application 9) (Present (plain_integer c.entry.now)) NoRows))) NoRows encoder.old result encoder.new }
        {
            encoder.encode_none_with_tag(Tag::new(Class::Context, 444))?;
            encoder.encode_none_with_tag(Tag::new(Class::Context, 5))?;
            encoder.encode_some_with_tag_and_constraints(
                Tag::new(Class::Application, 9),
                Integer::CONSTRAINTS,
                c,
            )?;
            Ok(())
        },
    )
}

#[test]
fn presence_bits_of_a_set_stand_in_the_order_of_its_tags(rt: HostRuntime) -> Result<(), Fail> {
    let alloc = rt.alloc();
    let mut octets = Vec::new(alloc);
    let mut worker = Vec::new(alloc);
    let options = EncoderOptions::coer();
    let mut encoder = Encoder::from_buffer(alloc, options, &mut octets, &mut worker);
    write_foo(&mut encoder, &Integer::from_i128(1))?;
    drop(encoder);
    assert_eq!(rt; octets.as_slice(), b"\x80\x01\x01".as_slice());
    Ok(())
}

/// Takes a refusal's message into the text.
fn tell<T: Drop>(
    alloc: Global,
    told: &mut String,
    answer: Result<T, DecodeError>,
) -> Result<(), Fail> {
    match answer {
        Ok(_) => told.push_str("read\n")?,
        Err(e) => told.push_str(format!(in alloc; "{}\n", e)?.as_str())?,
    }
    Ok(())
}

/// Asks optional components, where no scope is open.
fn ask_optional(alloc: Global, d: &mut Decoder<'_>, told: &mut String) -> Result<(), Fail> {
    tell(alloc, told, d.decode_optional::<bool>(alloc))?;
    let answer = d.decode_optional_with_tag::<bool>(alloc, one());
    tell(alloc, told, answer)?;
    let answer = d.decode_optional_with_constraints::<bool>(alloc, NONE);
    tell(alloc, told, answer)
}

fn ask_further_optional(alloc: Global, d: &mut Decoder<'_>, told: &mut String) -> Result<(), Fail> {
    let answer = d.decode_optional_with_tag_and_constraints::<bool>(alloc, one(), NONE);
    tell(alloc, told, answer)?;
    let answer = d.decode_optional_with_explicit_prefix::<bool>(alloc, one());
    tell(alloc, told, answer)
}

/// Asks components with defaults, where no scope is open.
fn ask_default(alloc: Global, d: &mut Decoder<'_>, told: &mut String) -> Result<(), Fail> {
    tell(alloc, told, d.decode_default(alloc, true))?;
    let answer = d.decode_default_with_tag(alloc, one(), true);
    tell(alloc, told, answer)
}

fn ask_further_default(alloc: Global, d: &mut Decoder<'_>, told: &mut String) -> Result<(), Fail> {
    let answer = d.decode_default_with_constraints(alloc, NONE, true);
    tell(alloc, told, answer)?;
    let answer = d.decode_default_with_tag_and_constraints(alloc, one(), NONE, true);
    tell(alloc, told, answer)
}

/// Asks additions, where no scope is open.
fn ask_addition(alloc: Global, d: &mut Decoder<'_>, told: &mut String) -> Result<(), Fail> {
    let tag = one();
    let answer = d.decode_extension_addition_with_tag_and_constraints::<bool>(alloc, tag, NONE);
    tell(alloc, told, answer)?;
    let answer = d.decode_extension_addition_with_explicit_tag_and_constraints::<bool>(
        alloc, tag, NONE,
    );
    tell(alloc, told, answer)
}

fn ask_further_addition(alloc: Global, d: &mut Decoder<'_>, told: &mut String) -> Result<(), Fail> {
    let answer = d.decode_extension_addition_group::<1, 0, Sequence4>(alloc);
    tell(alloc, told, answer)?;
    let answer = d.decode_extension_addition_default(alloc, one(), NONE, true);
    tell(alloc, told, answer)
}

/// What each method answers where no scope is open.
fn ask(alloc: Global, d: &mut Decoder<'_>) -> Result<String, Fail> {
    let mut told = String::new(alloc);
    ask_optional(alloc, d, &mut told)?;
    ask_further_optional(alloc, d, &mut told)?;
    ask_default(alloc, d, &mut told)?;
    ask_further_default(alloc, d, &mut told)?;
    ask_addition(alloc, d, &mut told)?;
    ask_further_addition(alloc, d, &mut told)?;
    Ok(told)
}

const ASKED: &str = "\
the component of class Universal and number 1 was asked out of order or not at all\n\
the component of class Context and number 1 was asked out of order or not at all\n\
the component of class Universal and number 1 was asked out of order or not at all\n\
the component of class Context and number 1 was asked out of order or not at all\n\
the component of class Context and number 1 was asked out of order or not at all\n\
the component of class Universal and number 1 was asked out of order or not at all\n\
the component of class Context and number 1 was asked out of order or not at all\n\
the component of class Universal and number 1 was asked out of order or not at all\n\
the component of class Context and number 1 was asked out of order or not at all\n\
the type has no such extension addition\n\
the type has no such extension addition\n\
the type has no such extension addition\n\
the type has no such extension addition\n";

/// Outside a scope no component is there.
#[test]
fn components_are_asked_by_their_methods(rt: HostRuntime) -> Result<(), Fail> {
    for options in [DecoderOptions::oer(), DecoderOptions::coer()] {
        let mut decoder = Decoder::new(b"\xFF", options);
        let told = ask(rt.alloc(), &mut decoder)?;
        assert_eq!(rt; told.as_str(), ASKED);
        assert_eq!(rt; decoder.remaining(), [0xff].as_slice());
    }
    Ok(())
}

#[test]
fn an_equal_default_is_refused_canonically(rt: HostRuntime) {
    for options in [DecoderOptions::oer(), DecoderOptions::coer()] {
        let decoder = Decoder::new(b"\xFF", options);
        let is_lenient = decoder.codec() == Codec::Oer;
        assert!(rt; decoder.refuse_default(&7, &7).is_ok() == is_lenient);
        assert!(rt; decoder.refuse_default(&7, &8).is_ok());
    }
}

/// Reads a list by a closure of its own.
fn read_list(alloc: Global, decoder: &mut Decoder<'_>) -> Result<Vec<bool>, DecodeError> {
    decoder.decode_sequence_of_with(
        alloc,
        Tag::SEQUENCE,
        NONE,
        |inner: &mut Decoder<'_>| -> Result<bool, DecodeError>
            ensures { OnOk result (IsRear inner.old.input inner.new.input) }
        { read_boolean(alloc, inner) },
    )
}

fn read_boolean(alloc: Global, decoder: &mut Decoder<'_>) -> Result<bool, DecodeError>
    ensures { OnOk result (IsRear decoder.old.input decoder.new.input) }
{
    bool::decode(alloc, decoder)
}

/// Reads a choice by a closure of its own.
fn read_choice(alloc: Global, decoder: &mut Decoder<'_>) -> Result<PriorityChoice, DecodeError> {
    decoder.decode_choice_with(
        NONE,
        |inner: &mut Decoder<'_>, tag: Tag| -> Result<PriorityChoice, DecodeError>
            ensures { OnOk result (IsRear inner.old.input inner.new.input) }
        { read_alternative(alloc, inner, tag) },
    )
}

fn read_alternative(
    alloc: Global,
    decoder: &mut Decoder<'_>,
    tag: Tag,
) -> Result<PriorityChoice, DecodeError>
    ensures { OnOk result (IsRear decoder.old.input decoder.new.input) }
{
    if tag == one() {
        PriorityChoice::from_tag(alloc, decoder, tag)
    } else {
        Err(decoder.unknown_tag::<PriorityChoice>(tag))
    }
}

#[test]
fn a_list_is_read_by_a_closure(rt: HostRuntime) -> Result<(), Fail> {
    let mut decoder = Decoder::new(b"\x01\x02\xff\x00", DecoderOptions::coer());
    let list = read_list(rt.alloc(), &mut decoder)?;
    assert_eq!(rt; list.as_slice(), [true, false].as_slice());
    assert!(rt; decoder.remaining().is_empty());
    Ok(())
}

#[test]
fn a_choice_is_read_by_a_closure(rt: HostRuntime) -> Result<(), Fail> {
    let mut decoder = Decoder::new(b"\x81\x02\x01\x4d", DecoderOptions::coer());
    let choice = read_choice(rt.alloc(), &mut decoder)?;
    let high: PriorityChoice = OneOf(PriorityChoiceAlternatives::High(Integer::from_i128(333)));
    assert!(rt; choice == high);
    assert!(rt; decoder.remaining().is_empty());
    Ok(())
}

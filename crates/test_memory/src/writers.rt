//! Methods of `Encoder` that take a closure.
ghost use Rattle.std.specs.Prelude.{pos, true, false};
ghost use Rattle.oer_spec.specs.Spelled.{boolean};
ghost use Rattle.oer_spec.specs.Tree.{NoRows, Required, Optional, Default, Present};
ghost use Rattle.oer_write.specs.Choices.{WritesAlternative};
ghost use Rattle.oer_write.specs.Rows.{InSequence, InSet};
ghost use Rattle.oer_write.specs.Written.{WritesTree};
ghost use Rattle.oer_rows.specs.Integers.{integer_unless};
ghost use Rattle.oer_rows.specs.Integers.{plain_integer};
ghost use Rattle.oer_types.specs.Pairs.{pair_rows};
ghost use Rattle.oer_rows.specs.Schema.{application, context};

use crate::encoding::Done;
use crate::entry::one;
use crate::marks::begin;
use anyhow::Result;
use asn1_core::{AsnType, Class, Constraints, EncodeError, Tag};
use asn1_ints::Integer;
use oer_types::{MixedSet, Pair, PriorityChoice};
use rasn_oer::{Decoder, Encode, Encoder};
use std::alloc::Global;

const NONE: Constraints = Constraints::NONE;

/// Writes a pair.
fn sequence(encoder: &mut Encoder<'_>, pair: &Pair) -> Result<(), EncodeError> {
    encoder.encode_sequence::<2, 0, Pair, _>(
        Tag::SEQUENCE,
        |encoder: &mut Encoder<'_>| -> Result<(), EncodeError>
            ensures { InSequence (pair_rows pair.entry.now) NoRows encoder.old result encoder.new }
        {
            pair.a
                .encode_with_tag(encoder, Tag::new(Class::Context, 0))?;
            pair.b
                .encode_with_tag(encoder, Tag::new(Class::Context, 1))?;
            Ok(())
        },
    )
}

/// Writes one alternative of a choice.
fn choice(encoder: &mut Encoder<'_>, number: &Integer) -> Result<(), EncodeError> {
    let tag = one();
    encoder.encode_choice::<PriorityChoice, _>(
        NONE,
        tag,
        |encoder: &mut Encoder<'_>| -> Result<Tag, EncodeError>
            ensures { WritesAlternative (plain_integer number.entry.now) tag encoder.old result encoder.new }
        {
            number.encode(encoder)?;
            Ok(tag)
        },
    )
}

/// Writes a list.
fn list(encoder: &mut Encoder<'_>, numbers: &[Integer]) -> Result<(), EncodeError> {
    encoder.encode_sequence_of_with(
        Tag::SEQUENCE,
        NONE,
        numbers,
        |encoder: &mut Encoder<'_>, x: &Integer| -> Result<(), EncodeError>
            ensures { WritesTree (plain_integer x.now) encoder.old result encoder.new }
        { x.encode(encoder) },
    )
}

/// Writes a component where no scope is open.
fn component(encoder: &mut Encoder<'_>, number: &Integer) -> Result<(), EncodeError> {
    encoder.encode_component_with(
        one(),
        |encoder: &mut Encoder<'_>| -> Result<(), EncodeError>
            ensures { WritesTree (plain_integer number.entry.now) encoder.old result encoder.new }
        { number.encode(encoder) },
    )
}

/// Writes x, z and y of a mixed set in this order, and its addition.
fn set(encoder: &mut Encoder<'_>, y: &Integer, z: &Integer) -> Result<(), EncodeError> {
    encoder.encode_set::<3, 1, MixedSet, _>(
        Tag::SET,
        |encoder: &mut Encoder<'_>| -> Result<(), EncodeError>
            ensures { InSet (Required (context 2) (boolean true) (Default (application 1) (plain_integer (pos 0)) (integer_unless (pos 0) z.entry.now) (Optional (context 1) (Present (plain_integer y.entry.now)) NoRows))) (Optional (context 0) (Present (boolean false)) NoRows) encoder.old result encoder.new }
        {
            encoder.encode_component(Tag::new(Class::Context, 2), bool::CONSTRAINTS, &true)?;
            encoder.encode_default_with_tag_and_constraints(
                Tag::new(Class::Application, 1),
                Integer::CONSTRAINTS,
                z,
                &Integer::from_i128(0),
            )?;
            encoder.encode_some_with_tag_and_constraints(
                Tag::new(Class::Context, 1),
                Integer::CONSTRAINTS,
                y,
            )?;
            encoder.encode_extension_addition(
                Tag::new(Class::Context, 0),
                bool::CONSTRAINTS,
                Some(&false),
            )?;
            Ok(())
        },
    )
}

/// By the word of the method, with numbers that the octets are read as.
pub fn closures(
    alloc: Global,
    word: &str,
    d: &mut Decoder<'_>,
    e: &mut Encoder<'_>,
) -> Result<Done> {
    let is_scope = matches!(word, "encode_sequence" | "encode_choice" | "encode_set");
    if !is_scope && !word.ends_with("_with") {
        return Ok(None);
    }
    let a: Integer = d.decode_integer(alloc, Tag::INTEGER, NONE)?;
    let b: Integer = d.decode_integer(alloc, Tag::INTEGER, NONE)?;
    let done = match word {
        "encode_sequence" => {
            let pair = Pair { a, b };
            begin(alloc)?;
            sequence(e, &pair)
        }
        "encode_choice" => {
            begin(alloc)?;
            choice(e, &a)
        }
        "encode_sequence_of_with" => {
            let numbers = [a, b];
            begin(alloc)?;
            list(e, &numbers)
        }
        "encode_component_with" => {
            begin(alloc)?;
            component(e, &a)
        }
        "encode_set" => {
            begin(alloc)?;
            set(e, &a, &b)
        }
        _ => return Ok(None),
    };
    Ok(Some(done))
}

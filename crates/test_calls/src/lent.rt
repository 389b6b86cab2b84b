//! Closures that may be called only at an encoder as it is lent to them.
ghost use Rattle.std.specs.Prelude.{◌≡◌, true, false, OnOk};
ghost use Rattle.oer_spec.specs.Spelled.{boolean, list_of};
ghost use Rattle.oer_spec.specs.Tree.{NoRows, Struct};
ghost use Rattle.oer_types.specs.Pairs.{pair_rows};
ghost use Rattle.oer_write.specs.Rows.{InSequence};
ghost use Rattle.oer_write.specs.Written.{Encodes, WritesTree};

use asn1_core::{Class, Constraints, EncodeError, Tag};
use asn1_ints::Integer;
use oer_types::Pair;
use rasn_oer::Encode;
use rasn_oer::oer::Encoder;
use rasn_oer::oer::enc::EncoderOptions;
use std::process::Abort;
use std::test::Fail;

/// Writes a pair by a closure that wants a sequence's scope.
fn write_pair(encoder: &mut Encoder<'_>, pair: &Pair) -> Result<(), EncodeError>
    ensures { OnOk result (Encodes (Struct false false (pair_rows pair.now) NoRows) encoder.old encoder.new) }
{
    encoder.encode_sequence::<2, 0, Pair, _>(
        Tag::SEQUENCE,
        |encoder: &mut Encoder<'_>| -> Result<(), EncodeError>
            requires { encoder.old.frame.is_set ≡ false }
            ensures { InSequence (pair_rows pair.entry.now) NoRows encoder.old result encoder.new }
        {
            pair.a
                .encode_with_tag(encoder, Tag::new(Class::Context, 0))?;
            pair.b
                .encode_with_tag(encoder, Tag::new(Class::Context, 1))?;
            Ok(())
        },
    )
}

/// Writes a list by a closure that wants no scope open.
fn write_list(encoder: &mut Encoder<'_>, xs: &[bool]) -> Result<(), EncodeError>
    ensures { OnOk result (Encodes (list_of true boolean xs.now) encoder.old encoder.new) }
{
    encoder.encode_sequence_of_with(
        Tag::SEQUENCE,
        Constraints::NONE,
        xs,
        |encoder: &mut Encoder<'_>, x: &bool| -> Result<(), EncodeError>
            requires { encoder.old.frame.is_open ≡ false }
            ensures { WritesTree (boolean x.now) encoder.old result encoder.new }
        { x.encode(encoder) },
    )
}

#[test]
fn closures_are_asked_about_what_they_are_lent(rt: HostRuntime) -> Result<(), Fail> {
    let alloc = rt.alloc();
    let mut output = Vec::new(alloc);
    let mut worker = Vec::new(alloc);
    let mut encoder = Encoder::from_buffer(alloc, EncoderOptions::coer(), &mut output, &mut worker);
    let pair = Pair {
        a: Integer::from_i128(1),
        b: Integer::from_i128(-1),
    };
    write_pair(&mut encoder, &pair)?;
    write_list(&mut encoder, &[true, false])?;
    assert_eq!(rt;
        encoder.output().as_slice(),
        b"\x01\x01\x01\xff\x01\x02\xff\x00".as_slice()
    );
    Ok(())
}

//! Closures that promise something only of a decoder as it is lent to them.
ghost use Rattle.std.specs.Prelude.{◌≡◌, ◌<◌, Ok, OnErr, OnOk};
ghost use Rattle.std.specs.Fn.{FnOnceReturnsAtMut, FnOnceTakesAtMut};
ghost use Rattle.oer_read.specs.Components.{Asks};
ghost use Rattle.oer_read.specs.Law.{Decodes, IsRear};
ghost use Rattle.oer_read.specs.Lists.{FnReturnsAtMut, FnTakesAtMut};
ghost use Rattle.oer_read.specs.State.{State};
ghost use Rattle.oer_spec.specs.Spelled.{IsAny, boolean};

use asn1_core::{Class, Constraints, DecodeError, Tag};
use oer_read::Spelled;
use rasn_oer::Decode;
use rasn_oer::oer::Decoder;
use rasn_oer::oer::de::DecoderOptions;
use std::alloc::Global;
use std::process::Abort;
use std::test::Fail;

/// Reads an optional component by a closure that promises something only of a decoder with as many levels left.
fn optional_within<D, F>(
    decoder: &mut Decoder<'_>,
    tag: Tag,
    f: F,
) -> Result<Option<D>, DecodeError>
where
    D: Spelled,
    F: FnOnce(&mut Decoder<'_>) -> Result<D, DecodeError>,
    requires callable { (s : State) → s.levels ≡ decoder.old.levels → FnOnceTakesAtMut F.FnOnce f s }
    requires law { (s t : State) (r : _) → s.levels ≡ decoder.old.levels → FnOnceReturnsAtMut F.FnOnce f s r t → Decodes (D.tree D.CONSTRAINTS) D.IsValue s r t }
    ensures { Asks (D.tree D.CONSTRAINTS) D.IsValue (λ s r t. FnOnceReturnsAtMut F.FnOnce f s r t) decoder.old tag result decoder.new }
{
    decoder.decode_optional_with::<D, F>(tag, f)
}

/// Reads a list by a closure that promises something only of a decoder with fewer levels left.
fn list_within<D, F>(alloc: Global, decoder: &mut Decoder<'_>, f: F) -> Result<Vec<D>, DecodeError>
where
    D: Drop,
    F: Fn(&mut Decoder<'_>) -> Result<D, DecodeError>,
    requires callable { (s : State) → s.levels < decoder.old.levels → FnTakesAtMut F.Fn f s }
    requires keeps { (s after : State) (v : _) → s.levels < decoder.old.levels → FnReturnsAtMut F.Fn f s (Ok v) after → IsRear s.input after.input }
    ensures { OnErr result (decoder.new ≡ decoder.old) }
{
    decoder.decode_sequence_of_with::<D, F>(alloc, Tag::SEQUENCE, Constraints::NONE, f)
}

/// Reads a boolean.
fn read_boolean(alloc: Global, decoder: &mut Decoder<'_>) -> Result<bool, DecodeError>
    ensures rear { OnOk result (IsRear decoder.old.input decoder.new.input) }
    ensures law { Decodes boolean IsAny decoder.old result decoder.new }
{
    bool::decode(alloc, decoder)
}

#[test]
fn closures_that_read_are_asked_about_what_they_are_lent(rt: HostRuntime) -> Result<(), Fail> {
    let alloc = rt.alloc();
    let mut decoder = Decoder::new(&[1, 2, 0xff, 0, 0xff], DecoderOptions::coer());
    let items = list_within(
        alloc,
        &mut decoder,
        |inner: &mut Decoder<'_>| -> Result<bool, DecodeError>
            ensures { OnOk result (IsRear inner.old.input inner.new.input) }
        { read_boolean(alloc, inner) },
    )?;
    assert_eq!(rt; items.as_slice(), [true, false].as_slice());
    let asked = optional_within(
        &mut decoder,
        Tag::new(Class::Context, 1),
        |inner: &mut Decoder<'_>| -> Result<bool, DecodeError>
            ensures { Decodes boolean IsAny inner.old result inner.new }
        { read_boolean(alloc, inner) },
    );
    assert!(rt; asked.is_err());
    assert_eq!(rt; decoder.remaining(), [0xff].as_slice());
    Ok(())
}

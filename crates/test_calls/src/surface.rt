//! Paths, constants and derives of the codec's crate.
use asn1_core::{Codec, Tag};
use rasn_oer::oer::de::DecoderOptions;
use rasn_oer::oer::enc::{EncoderOptions, ITU_T_X696_OER_EDITION};
use rasn_oer::oer::{Decoder, Encoder, EncodingRules};
use rasn_oer::{Spelled, coer, laws, oer};
use std::process::Abort;
use std::test::Fail;

/// The tag of a type whose values have trees.
fn tag_of<T: Spelled>() -> Tag {
    T::TAG
}

const SHOWN: &str = "\
Coer Coer; DecoderOptions { codec: Oer, levels: 128 }; EncoderOptions { encoding_rules: Coer }; \
Some(Decode(DecodeError { kind: Incomplete { needed: 1 }, codec: Oer }))";

#[test]
fn options_rules_and_refusals_have_their_derives(rt: HostRuntime) -> Result<(), Fail> {
    let alloc = rt.alloc();
    laws::unambiguous();
    laws::within();
    laws::canonical();
    laws::skips();
    laws::lifts();
    let rules = EncodingRules::Coer;
    let copy = rules;
    assert!(rt; copy == rules && rules.is_coer() && !rules.is_oer());
    assert!(rt; EncodingRules::Oer < rules && EncodingRules::Oer.cmp(&rules).is_lt());
    assert!(rt; Codec::Oer < Codec::Coer && Codec::Oer.cmp(&Codec::Coer).is_lt());
    assert!(rt; EncodingRules::Oer.is_oer() && ITU_T_X696_OER_EDITION == 3);
    assert!(rt; tag_of::<bool>() == Tag::BOOL);
    let shown = format!(in alloc;
        "{:?} {:?}; {:?}; {:?}; {:?}",
        rules,
        rules.clone()?,
        DecoderOptions::oer().clone()?,
        EncoderOptions::default().clone()?,
        oer::canonicalise::<bool>(alloc, &[]).err()
    )?;
    assert_eq!(rt; shown.as_str(), SHOWN);
    Ok(())
}

#[test]
fn the_lenient_module_has_its_paths(rt: HostRuntime) -> Result<(), Fail> {
    let alloc = rt.alloc();
    let mut decoder = Decoder::new(b"\xFF", DecoderOptions::oer());
    assert!(rt; decoder.decode_bool(Tag::BOOL)?);
    let mut output = Vec::new(alloc);
    let mut worker = Vec::new(alloc);
    let mut encoder = Encoder::from_buffer(alloc, EncoderOptions::coer(), &mut output, &mut worker);
    encoder.encode_bool(Tag::BOOL, true)?;
    assert_eq!(rt; encoder.output().as_slice(), [0xff].as_slice());
    Ok(())
}

#[test]
fn the_canonical_module_has_its_paths(rt: HostRuntime) -> Result<(), Fail> {
    let alloc = rt.alloc();
    let options = coer::de::DecoderOptions::coer();
    let mut decoder = coer::Decoder::new(b"\xFF", options);
    assert!(rt; decoder.decode_bool(Tag::BOOL)?);
    let mut output = Vec::new(alloc);
    let mut worker = Vec::new(alloc);
    let options = coer::enc::EncoderOptions::coer();
    let rules: coer::EncodingRules = options.encoding_rules;
    let mut encoder = coer::Encoder::from_buffer(alloc, options, &mut output, &mut worker);
    encoder.encode_bool(Tag::BOOL, true)?;
    assert_eq!(rt; encoder.output().as_slice(), [0xff].as_slice());
    assert!(rt; rules.is_coer());
    Ok(())
}

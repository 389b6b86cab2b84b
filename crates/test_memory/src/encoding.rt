//! Methods of `Encoder` by their words, behind an octet that fills the buffer: the value is what the octets are read as.
use crate::answers::{appended, plain as shown};
use crate::entry::one;
use crate::marks::begin;
use anyhow::{Error, Result};
use asn1_core::{Class, Constraints, EncodeError, SetOf, Tag};
use asn1_ints::Integer;
use oer_types::{Enum4, PriorityChoice, Sequence, components};
use oer_write::enc::EncoderOptions;
use rasn_oer::{Decoder, DecoderOptions, Encode, Encoder};
use std::alloc::Global;

const NONE: Constraints = Constraints::NONE;

/// What a method answered; none where the word is no method's.
pub type Done = Option<Result<(), EncodeError>>;

/// A boolean, null, an enumerated value, numbers, octets and bits.
fn plain(alloc: Global, word: &str, d: &mut Decoder<'_>, e: &mut Encoder<'_>) -> Result<Done> {
    let done = match word {
        "encode_bool" => {
            begin(alloc)?;
            e.encode_bool(Tag::BOOL, true)
        }
        "encode_null" => {
            begin(alloc)?;
            e.encode_null(Tag::NULL)
        }
        "encode_enumerated" => {
            let value: Enum4 = d.decode_enumerated(Tag::ENUMERATED)?;
            begin(alloc)?;
            e.encode_enumerated(Tag::ENUMERATED, &value)
        }
        "encode_enumerated_number" => {
            begin(alloc)?;
            e.encode_enumerated_number(Tag::ENUMERATED, 1000)
        }
        _ => return numbers_and_strings(alloc, word, d, e),
    };
    Ok(Some(done))
}

/// Numbers, octets and bits.
fn numbers_and_strings(
    alloc: Global,
    word: &str,
    d: &mut Decoder<'_>,
    e: &mut Encoder<'_>,
) -> Result<Done> {
    let done = match word {
        "encode_integer" => {
            let value: Integer = d.decode_integer(alloc, Tag::INTEGER, NONE)?;
            begin(alloc)?;
            e.encode_integer(Tag::INTEGER, NONE, &value)
        }
        "encode_bit_string" => {
            let value = d.decode_bit_string(alloc, Tag::BIT_STRING, NONE)?;
            begin(alloc)?;
            e.encode_bit_string(Tag::BIT_STRING, NONE, &value)
        }
        "encode_named_bits" => {
            let value = d.decode_named_bits(alloc, Tag::BIT_STRING, NONE)?;
            begin(alloc)?;
            e.encode_named_bits(Tag::BIT_STRING, NONE, &value)
        }
        "encode_octet_string" => {
            let value = d.decode_octet_string(Tag::OCTET_STRING, NONE)?;
            begin(alloc)?;
            e.encode_octet_string(Tag::OCTET_STRING, NONE, value)
        }
        _ => return octets_and_times(alloc, word, d, e),
    };
    Ok(Some(done))
}

/// Octets of an open type, an identifier, and times.
fn octets_and_times(
    alloc: Global,
    word: &str,
    d: &mut Decoder<'_>,
    e: &mut Encoder<'_>,
) -> Result<Done> {
    let done = match word {
        "encode_any" => {
            let value = d.decode_any(alloc, Tag::EOC)?;
            begin(alloc)?;
            e.encode_any(Tag::EOC, &value)
        }
        "encode_object_identifier" => {
            let value = d.decode_object_identifier(alloc, Tag::OBJECT_IDENTIFIER)?;
            begin(alloc)?;
            e.encode_object_identifier(Tag::OBJECT_IDENTIFIER, value.arcs())
        }
        _ => return times(alloc, word, d, e),
    };
    Ok(Some(done))
}

/// Times.
fn times(alloc: Global, word: &str, d: &mut Decoder<'_>, e: &mut Encoder<'_>) -> Result<Done> {
    let done = match word {
        "encode_utc_time" => {
            let value = d.decode_utc_time(Tag::UTC_TIME)?;
            begin(alloc)?;
            e.encode_utc_time(Tag::UTC_TIME, &value)
        }
        "encode_generalized_time" => {
            let value = d.decode_generalized_time(Tag::GENERALIZED_TIME)?;
            begin(alloc)?;
            e.encode_generalized_time(Tag::GENERALIZED_TIME, &value)
        }
        "encode_date" => {
            let value = d.decode_date(Tag::DATE)?;
            begin(alloc)?;
            e.encode_date(Tag::DATE, &value)
        }
        _ => return Ok(None),
    };
    Ok(Some(done))
}

/// Five types of character strings.
fn texts(alloc: Global, word: &str, d: &mut Decoder<'_>, e: &mut Encoder<'_>) -> Result<Done> {
    let done = match word {
        "encode_utf8_string" => {
            let text = d.decode_utf8_string(alloc, Tag::UTF8_STRING, NONE)?;
            begin(alloc)?;
            e.encode_utf8_string(Tag::UTF8_STRING, NONE, text.as_str())
        }
        "encode_visible_string" => {
            let text = d.decode_visible_string(alloc, Tag::VISIBLE_STRING, NONE)?;
            begin(alloc)?;
            e.encode_visible_string(Tag::VISIBLE_STRING, NONE, &text)
        }
        "encode_general_string" => {
            let text = d.decode_general_string(alloc, Tag::GENERAL_STRING, NONE)?;
            begin(alloc)?;
            e.encode_general_string(Tag::GENERAL_STRING, NONE, &text)
        }
        _ => return other_texts(alloc, word, d, e),
    };
    Ok(Some(done))
}

/// Two others.
fn other_texts(
    alloc: Global,
    word: &str,
    d: &mut Decoder<'_>,
    e: &mut Encoder<'_>,
) -> Result<Done> {
    let done = match word {
        "encode_graphic_string" => {
            let text = d.decode_graphic_string(alloc, Tag::GRAPHIC_STRING, NONE)?;
            begin(alloc)?;
            e.encode_graphic_string(Tag::GRAPHIC_STRING, NONE, &text)
        }
        "encode_ia5_string" => {
            let text = d.decode_ia5_string(alloc, Tag::IA5_STRING, NONE)?;
            begin(alloc)?;
            e.encode_ia5_string(Tag::IA5_STRING, NONE, &text)
        }
        _ => return further_texts(alloc, word, d, e),
    };
    Ok(Some(done))
}

/// The other four.
fn further_texts(
    alloc: Global,
    word: &str,
    d: &mut Decoder<'_>,
    e: &mut Encoder<'_>,
) -> Result<Done> {
    let done = match word {
        "encode_printable_string" => {
            let text = d.decode_printable_string(alloc, Tag::PRINTABLE_STRING, NONE)?;
            begin(alloc)?;
            e.encode_printable_string(Tag::PRINTABLE_STRING, NONE, &text)
        }
        "encode_numeric_string" => {
            let text = d.decode_numeric_string(alloc, Tag::NUMERIC_STRING, NONE)?;
            begin(alloc)?;
            e.encode_numeric_string(Tag::NUMERIC_STRING, NONE, &text)
        }
        _ => return last_texts(alloc, word, d, e),
    };
    Ok(Some(done))
}

/// The last two.
fn last_texts(alloc: Global, word: &str, d: &mut Decoder<'_>, e: &mut Encoder<'_>) -> Result<Done> {
    let done = match word {
        "encode_teletex_string" => {
            let text = d.decode_teletex_string(alloc, Tag::TELETEX_STRING, NONE)?;
            begin(alloc)?;
            e.encode_teletex_string(Tag::TELETEX_STRING, NONE, &text)
        }
        "encode_bmp_string" => {
            let text = d.decode_bmp_string(alloc, Tag::BMP_STRING, NONE)?;
            begin(alloc)?;
            e.encode_bmp_string(Tag::BMP_STRING, NONE, &text)
        }
        _ => return Ok(None),
    };
    Ok(Some(done))
}

/// Components of a boolean, where no scope is open, and the calls of `Encode`.
fn components(alloc: Global, word: &str, e: &mut Encoder<'_>) -> Result<Done> {
    begin(alloc)?;
    let done = match word {
        "encode_component" => e.encode_component(one(), NONE, &true),
        "encode_optional_in_sequence" => e.encode_optional_in_sequence(one(), Some(&true)),
        "encode_some" => e.encode_some(&true),
        "encode_some_with_tag_and_constraints" => {
            e.encode_some_with_tag_and_constraints(one(), NONE, &true)
        }
        "encode_none" => e.encode_none::<bool>(),
        "encode_none_with_tag" => e.encode_none_with_tag(one()),
        _ => return defaults(word, e),
    };
    Ok(Some(done))
}

/// Components with defaults.
fn defaults(word: &str, e: &mut Encoder<'_>) -> Result<Done> {
    let done = match word {
        "encode_default" => e.encode_default(&true, &false),
        "encode_default_left_out" => e.encode_default(&true, &true),
        "encode_default_with_tag_and_constraints" => {
            e.encode_default_with_tag_and_constraints(one(), NONE, &true, &false)
        }
        _ => return additions(word, e),
    };
    Ok(Some(done))
}

/// Additions and alternatives.
fn additions(word: &str, e: &mut Encoder<'_>) -> Result<Done> {
    let done = match word {
        "encode_extension_addition" => e.encode_extension_addition(one(), NONE, Some(&true)),
        "encode_optional_addition" => e.encode_optional_addition(one(), Some(&true)),
        "encode_alternative" => e.encode_alternative::<PriorityChoice, bool>(one(), &true),
        "encode_alternative_beyond_the_root" => e.encode_alternative::<PriorityChoice, bool>(
            Tag::new(Class::Context, 50),
            &true,
        ),
        "encode_extension_addition_group" => {
            e.encode_extension_addition_group(Some(&Sequence(components::Sequence4 { a: true })))
        }
        "encode_extension_addition_default" => {
            e.encode_extension_addition_default(one(), NONE, &true, &false)
        }
        _ => return by_trait(word, e),
    };
    Ok(Some(done))
}

/// The calls of `Encode`, and a prefix.
fn by_trait(word: &str, e: &mut Encoder<'_>) -> Result<Done> {
    let done = match word {
        "encode_explicit_prefix" => e.encode_explicit_prefix(one(), &true),
        "Encode::encode" => true.encode(e),
        "Encode::encode_with_tag" => true.encode_with_tag(e, one()),
        "Encode::encode_with_constraints" => true.encode_with_constraints(e, NONE),
        "Encode::encode_with_tag_and_constraints" => {
            true.encode_with_tag_and_constraints(e, one(), NONE)
        }
        _ => return Ok(None),
    };
    Ok(Some(done))
}

/// Lists of both kinds.
fn lists(alloc: Global, word: &str, d: &mut Decoder<'_>, e: &mut Encoder<'_>) -> Result<Done> {
    let done = match word {
        "encode_sequence_of" => {
            let list: Vec<Integer> = d.decode_sequence_of(alloc, Tag::SEQUENCE, NONE)?;
            begin(alloc)?;
            e.encode_sequence_of(Tag::SEQUENCE, NONE, list.as_slice())
        }
        "encode_set_of" => {
            let list: Vec<Integer> = d.decode_sequence_of(alloc, Tag::SEQUENCE, NONE)?;
            let list = SetOf::from_vec(list);
            begin(alloc)?;
            e.encode_set_of(Tag::SET, NONE, &list)
        }
        _ => return Ok(None),
    };
    Ok(Some(done))
}

/// Does what the word asks for.
fn run(alloc: Global, word: &str, d: &mut Decoder<'_>, e: &mut Encoder<'_>) -> Result<Done> {
    if let Some(done) = plain(alloc, word, d, e)? {
        return Ok(Some(done));
    }
    if let Some(done) = texts(alloc, word, d, e)? {
        return Ok(Some(done));
    }
    if let Some(done) = lists(alloc, word, d, e)? {
        return Ok(Some(done));
    }
    if let Some(done) = crate::writers::closures(alloc, word, d, e)? {
        return Ok(Some(done));
    }
    components(alloc, word, e)
}

/// A worker that an encoder is handed in.
fn worker_of(alloc: Global) -> Result<Vec<u8>> {
    Ok(Vec::from_slice(alloc, &[7, 8, 9])?)
}

/// A fault where the worker came back as another.
fn kept(worker: &Vec<u8>, line: String) -> Result<String> {
    match worker.as_slice() {
        [7, 8, 9] => Ok(line),
        _ => Err(Error::msg("the worker is another")),
    }
}

/// What the calls of the encoder itself answer; nothing where the word is none of them.
fn own_calls(alloc: Global, word: &str) -> Result<Option<String>> {
    if !matches!(word, "from_buffer" | "codec" | "output") {
        return Ok(None);
    }
    let mut output = Vec::from_slice(alloc, &[0xff])?;
    let mut worker = worker_of(alloc)?;
    begin(alloc)?;
    let options = EncoderOptions::coer();
    let mut encoder = Encoder::from_buffer(alloc, options, &mut output, &mut worker);
    let line = match word {
        "output" => shown(alloc, &encoder.output().as_slice())?,
        _ => {
            let line = shown(alloc, &encoder.codec())?;
            drop(encoder);
            line
        }
    };
    Ok(Some(kept(&worker, line)?))
}

/// What a method appends behind an octet that fills the buffer, by its word.
pub fn encoder_method(alloc: Global, word: &str, octets: &[u8]) -> Result<String> {
    if let Some(line) = own_calls(alloc, word)? {
        return Ok(line);
    }
    let mut decoder = Decoder::new(octets, DecoderOptions::oer());
    let mut output = Vec::from_slice(alloc, &[0xff])?;
    let mut worker = worker_of(alloc)?;
    let options = EncoderOptions::coer();
    let mut encoder = Encoder::from_buffer(alloc, options, &mut output, &mut worker);
    let Some(answer) = run(alloc, word, &mut decoder, &mut encoder)? else {
        return Err(Error::msg("no such method"));
    };
    drop(encoder);
    let line = appended(alloc, answer, &output)?;
    kept(&worker, line)
}

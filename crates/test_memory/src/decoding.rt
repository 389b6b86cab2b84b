//! Methods of `Decoder` by their words, on a decoder in the middle of an input: behind a boolean.
use crate::answers::left;
use crate::entry::{Call, one, options_of};
use crate::marks::begin;
use crate::one_row::read_set;
use anyhow::{Error, Result};
use asn1_core::{Class, Constraints, DecodeError, Tag};
use asn1_ints::{Integer, IntegerType};
use oer_types::{Enum4, GreatPositive, PriorityChoice};
use rasn_oer::{Decode, DecodeChoice, Decoder};
use std::fmt::Debug;

const NONE: Constraints = Constraints::NONE;

/// Those of the leaves that take memory, of choices and of a set.
fn with_memory(call: Call<'_>, d: &mut Decoder<'_>) -> Result<Option<String>> {
    let alloc = call.alloc;
    let line = match call.word {
        "decode_any" => {
            let it = d.decode_any(alloc, Tag::EOC);
            left(alloc, d, &it)?
        }
        "decode_bit_string" => {
            let it = d.decode_bit_string(alloc, Tag::BIT_STRING, NONE);
            left(alloc, d, &it)?
        }
        "decode_named_bits" => {
            let it = d.decode_named_bits(alloc, Tag::BIT_STRING, NONE);
            left(alloc, d, &it)?
        }
        "decode_integer::<Integer>" => return number::<Integer>(call, d),
        _ => return further_with_memory(call, d),
    };
    Ok(Some(line))
}

/// The others.
fn further_with_memory(call: Call<'_>, d: &mut Decoder<'_>) -> Result<Option<String>> {
    let alloc = call.alloc;
    let line = match call.word {
        "decode_integer::<GreatPositive>" => return number::<GreatPositive>(call, d),
        "decode_object_identifier" => {
            let it = d.decode_object_identifier(alloc, Tag::OBJECT_IDENTIFIER);
            left(alloc, d, &it)?
        }
        "decode_set" => {
            let it = read_set(alloc, d);
            left(alloc, d, &it)?
        }
        "decode_choice" => {
            let it = d.decode_choice::<PriorityChoice>(alloc, NONE);
            left(alloc, d, &it)?
        }
        _ => return Ok(None),
    };
    Ok(Some(line))
}

/// Those of character strings.
fn texts(call: Call<'_>, d: &mut Decoder<'_>) -> Result<Option<String>> {
    let alloc = call.alloc;
    let line = match call.word {
        "decode_utf8_string" => {
            let it = d.decode_utf8_string(alloc, Tag::UTF8_STRING, NONE);
            left(alloc, d, &it)?
        }
        "decode_visible_string" => {
            let it = d.decode_visible_string(alloc, Tag::VISIBLE_STRING, NONE);
            left(alloc, d, &it)?
        }
        "decode_general_string" => {
            let it = d.decode_general_string(alloc, Tag::GENERAL_STRING, NONE);
            left(alloc, d, &it)?
        }
        _ => return other_texts(call, d),
    };
    Ok(Some(line))
}

/// Two others.
fn other_texts(call: Call<'_>, d: &mut Decoder<'_>) -> Result<Option<String>> {
    let alloc = call.alloc;
    let line = match call.word {
        "decode_graphic_string" => {
            let it = d.decode_graphic_string(alloc, Tag::GRAPHIC_STRING, NONE);
            left(alloc, d, &it)?
        }
        "decode_ia5_string" => {
            let it = d.decode_ia5_string(alloc, Tag::IA5_STRING, NONE);
            left(alloc, d, &it)?
        }
        _ => return further_texts(call, d),
    };
    Ok(Some(line))
}

/// The other four.
fn further_texts(call: Call<'_>, d: &mut Decoder<'_>) -> Result<Option<String>> {
    let alloc = call.alloc;
    let line = match call.word {
        "decode_printable_string" => {
            let it = d.decode_printable_string(alloc, Tag::PRINTABLE_STRING, NONE);
            left(alloc, d, &it)?
        }
        "decode_numeric_string" => {
            let it = d.decode_numeric_string(alloc, Tag::NUMERIC_STRING, NONE);
            left(alloc, d, &it)?
        }
        _ => return last_texts(call, d),
    };
    Ok(Some(line))
}

/// The last two.
fn last_texts(call: Call<'_>, d: &mut Decoder<'_>) -> Result<Option<String>> {
    let alloc = call.alloc;
    let line = match call.word {
        "decode_teletex_string" => {
            let it = d.decode_teletex_string(alloc, Tag::TELETEX_STRING, NONE);
            left(alloc, d, &it)?
        }
        "decode_bmp_string" => {
            let it = d.decode_bmp_string(alloc, Tag::BMP_STRING, NONE);
            left(alloc, d, &it)?
        }
        _ => return Ok(None),
    };
    Ok(Some(line))
}

/// Those that make no request.
fn without_memory(call: Call<'_>, d: &mut Decoder<'_>) -> Result<Option<String>> {
    let alloc = call.alloc;
    let line = match call.word {
        "remaining" => {
            let it = Ok(d.remaining());
            left(alloc, d, &it)?
        }
        "decode_bool" => {
            let it = d.decode_bool(Tag::BOOL);
            left(alloc, d, &it)?
        }
        "decode_null" => {
            let it = d.decode_null(Tag::NULL);
            left(alloc, d, &it)?
        }
        _ => return further_without_memory(call, d),
    };
    Ok(Some(line))
}

/// The others.
fn further_without_memory(call: Call<'_>, d: &mut Decoder<'_>) -> Result<Option<String>> {
    let alloc = call.alloc;
    let line = match call.word {
        "decode_enumerated" => {
            let it = d.decode_enumerated::<Enum4>(Tag::ENUMERATED);
            left(alloc, d, &it)?
        }
        "decode_octet_string" => {
            let it = d.decode_octet_string(Tag::OCTET_STRING, NONE);
            left(alloc, d, &it)?
        }
        "refuse_default" => {
            let it = d.refuse_default(&7, &7);
            left(alloc, d, &it)?
        }
        _ => return own_calls(call, d),
    };
    Ok(Some(line))
}

/// Those of the decoder itself, and of a choice by a tag of context, whose number is read first.
fn own_calls(call: Call<'_>, d: &mut Decoder<'_>) -> Result<Option<String>> {
    let alloc = call.alloc;
    let line = match call.word {
        "new" => {
            let it = Ok(Decoder::new(call.octets, options_of(call.codec)).remaining());
            left(alloc, d, &it)?
        }
        "codec" => {
            let it = Ok(d.codec());
            left(alloc, d, &it)?
        }
        "levels" => {
            let it = Ok(d.levels());
            left(alloc, d, &it)?
        }
        "unknown_tag" => {
            let it: std::result::Result<(), DecodeError> = Err(d.unknown_tag::<PriorityChoice>(
                one(),
            ));
            left(alloc, d, &it)?
        }
        "from_tag" => {
            let number: u32 = d.decode_integer(alloc, Tag::INTEGER, NONE)?;
            let it = PriorityChoice::from_tag(alloc, d, Tag::new(Class::Context, number));
            left(alloc, d, &it)?
        }
        _ => return times(call, d),
    };
    Ok(Some(line))
}

/// Those of times.
fn times(call: Call<'_>, d: &mut Decoder<'_>) -> Result<Option<String>> {
    let alloc = call.alloc;
    let line = match call.word {
        "decode_utc_time" => {
            let it = d.decode_utc_time(Tag::UTC_TIME);
            left(alloc, d, &it)?
        }
        "decode_generalized_time" => {
            let it = d.decode_generalized_time(Tag::GENERALIZED_TIME);
            left(alloc, d, &it)?
        }
        "decode_date" => {
            let it = d.decode_date(Tag::DATE);
            left(alloc, d, &it)?
        }
        _ => return Ok(None),
    };
    Ok(Some(line))
}

/// `decode_integer` into a type.
fn number<I: IntegerType + Debug>(call: Call<'_>, d: &mut Decoder<'_>) -> Result<Option<String>> {
    let it = d.decode_integer::<I>(call.alloc, Tag::INTEGER, NONE);
    Ok(Some(left(call.alloc, d, &it)?))
}

/// `decode_integer` into Rust's types with a sign.
fn signed(call: Call<'_>, d: &mut Decoder<'_>) -> Result<Option<String>> {
    match call.word {
        "decode_integer::<i8>" => number::<i8>(call, d),
        "decode_integer::<i16>" => number::<i16>(call, d),
        "decode_integer::<i32>" => number::<i32>(call, d),
        "decode_integer::<i64>" => number::<i64>(call, d),
        "decode_integer::<i128>" => number::<i128>(call, d),
        "decode_integer::<isize>" => number::<isize>(call, d),
        _ => unsigned(call, d),
    }
}

/// `decode_integer` into those without one.
fn unsigned(call: Call<'_>, d: &mut Decoder<'_>) -> Result<Option<String>> {
    match call.word {
        "decode_integer::<u8>" => number::<u8>(call, d),
        "decode_integer::<u16>" => number::<u16>(call, d),
        "decode_integer::<u32>" => number::<u32>(call, d),
        "decode_integer::<u64>" => number::<u64>(call, d),
        "decode_integer::<u128>" => number::<u128>(call, d),
        "decode_integer::<usize>" => number::<usize>(call, d),
        _ => Ok(None),
    }
}

/// A list of values of a type.
fn list<T: Decode + Debug>(call: Call<'_>, d: &mut Decoder<'_>) -> Result<Option<String>> {
    let alloc = call.alloc;
    match call.word {
        "decode_sequence_of" => {
            let it = d.decode_sequence_of::<T>(alloc, Tag::SEQUENCE, NONE);
            Ok(Some(left(alloc, d, &it)?))
        }
        "decode_set_of" => {
            let it = d.decode_set_of::<T>(alloc, Tag::SET, NONE);
            Ok(Some(left(alloc, d, &it)?))
        }
        _ => Ok(None),
    }
}

/// What a method of lists answers, by its word and that of the elements' type; nothing where it is no list's.
pub fn list_of(call: Call<'_>, type_word: &str) -> Result<Option<String>> {
    if !matches!(call.word, "decode_sequence_of" | "decode_set_of") {
        return Ok(None);
    }
    let mut decoder = Decoder::new(call.octets, options_of(call.codec));
    let _boolean = bool::decode(call.alloc, &mut decoder)?;
    begin(call.alloc)?;
    match type_word {
        "bool" => list::<bool>(call, &mut decoder),
        "int" => list::<Integer>(call, &mut decoder),
        _ => Ok(None),
    }
}

/// What a method answers, by its word; nothing where it is no leaf's.
pub fn leaf_method(call: Call<'_>) -> Result<Option<String>> {
    let mut decoder = Decoder::new(call.octets, options_of(call.codec));
    let _boolean = bool::decode(call.alloc, &mut decoder)?;
    begin(call.alloc)?;
    if let Some(line) = with_memory(call, &mut decoder)? {
        return Ok(Some(line));
    }
    if let Some(line) = texts(call, &mut decoder)? {
        return Ok(Some(line));
    }
    if let Some(line) = without_memory(call, &mut decoder)? {
        return Ok(Some(line));
    }
    signed(call, &mut decoder)
}

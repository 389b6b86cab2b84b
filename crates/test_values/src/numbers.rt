//! Tests of readers and writers of lengths, quantities, tags, booleans, enumerated values and integers; helpers for leaves.rt.
use asn1_base::{Bounded, Codec, Constraints, DecodeErrorKind, EncodeErrorKind};
use asn1_ints::{Integer, IntegerType};
use oer_forms::leaf::{
    read_bool, read_content, read_enumerated, read_integer, read_length, read_number_content,
    read_octet, read_octets, read_quantity, read_tag, write_bool, write_content, write_enumerated,
    write_integer, write_length, write_quantity, write_tag,
};
use std::alloc::Global;
use std::fmt::Debug;
use std::process::Abort;
use std::test::Fail;

/// A range, as `5..8`, or `5..8,...` where it is extensible, of values and of sizes; none where it is `-`.
pub(super) fn constraints_of(text: &str) -> Constraints {
    let (range, is_extensible) = match text.strip_suffix(",...") {
        Some(range) => (range, true),
        None => (text, false),
    };
    let Some((start, end)) = range.split_once("..") else {
        return Constraints::NONE;
    };
    let values = Bounded::Range {
        start: start.parse::<i128>().ok(),
        end: end.parse::<i128>().ok(),
    };
    let sizes = Bounded::Range {
        start: start.parse::<usize>().ok(),
        end: end.parse::<usize>().ok(),
    };
    if is_extensible {
        Constraints::NONE.with_extensible_value(values)
    } else {
        Constraints::NONE.with_value(values).with_size(sizes)
    }
}

/// A value that was read, what is left, and what is written of the value; or why it was refused.
pub(super) fn told<T: Debug>(
    alloc: Global,
    value: &T,
    rest: &[u8],
    written: Result<(), EncodeErrorKind>,
    out: &[u8],
) -> Result<String, Fail> {
    written?;
    let rest = hex::encode(alloc, rest)?;
    let out = hex::encode(alloc, out)?;
    Ok(format!(in alloc; "{:?};{};{}", value, rest, out)?)
}

pub(super) fn refused(alloc: Global, kind: &DecodeErrorKind) -> Result<String, Fail> {
    Ok(format!(in alloc; "{:?}", kind)?)
}

/// What is read in a mode, under constraints.
#[derive(Clone, Copy)]
pub(super) struct Input<'a> {
    pub alloc: Global,
    pub codec: Codec,
    pub constraints: Constraints,
    pub octets: &'a [u8],
}

fn integer<I: IntegerType>(input: Input<'_>) -> Result<String, Fail> {
    let mut out = Vec::new(input.alloc);
    match read_integer::<I>(input.alloc, input.codec, input.constraints, input.octets) {
        Ok((value, rest)) => {
            let written = write_integer(input.constraints, &value, &mut out);
            told(input.alloc, &value.to_i128(), rest, written, out.as_slice())
        }
        Err(kind) => refused(input.alloc, &kind),
    }
}

/// Lengths, quantities and contents.
fn counted(word: &str, input: Input<'_>) -> Result<String, Fail> {
    let mut out = Vec::new(input.alloc);
    match word {
        "length" => match read_length(input.codec, input.octets) {
            Ok((value, rest)) => {
                let written = write_length(value, &mut out);
                told(input.alloc, &value, rest, written, out.as_slice())
            }
            Err(kind) => refused(input.alloc, &kind),
        },
        "quantity" => match read_quantity(input.codec, input.octets) {
            Ok((value, rest)) => {
                let written = write_quantity(value, &mut out);
                told(input.alloc, &value, rest, written, out.as_slice())
            }
            Err(kind) => refused(input.alloc, &kind),
        },
        _ => match read_content(input.codec, input.octets) {
            Ok((value, rest)) => {
                let written = write_content(value, &mut out);
                told(input.alloc, &value, rest, written, out.as_slice())
            }
            Err(kind) => refused(input.alloc, &kind),
        },
    }
}

/// Tags, booleans and enumerated values.
fn plain(word: &str, input: Input<'_>) -> Result<String, Fail> {
    let mut out = Vec::new(input.alloc);
    match word {
        "tag" => match read_tag(input.codec, input.octets) {
            Ok((value, rest)) => {
                let written = write_tag(value, &mut out);
                told(input.alloc, &value, rest, written, out.as_slice())
            }
            Err(kind) => refused(input.alloc, &kind),
        },
        "bool" => match read_bool(input.codec, input.octets) {
            Ok((value, rest)) => {
                let written = write_bool(value, &mut out);
                told(input.alloc, &value, rest, written, out.as_slice())
            }
            Err(kind) => refused(input.alloc, &kind),
        },
        _ => match read_enumerated(input.codec, input.octets) {
            Ok((value, rest)) => {
                let written = write_enumerated(value, &mut out);
                told(input.alloc, &value, rest, written, out.as_slice())
            }
            Err(kind) => refused(input.alloc, &kind),
        },
    }
}

/// Octets without a length, and the octets of a number behind one, as they stand.
fn parts(word: &str, input: Input<'_>) -> Result<String, Fail> {
    let read = match word {
        "octet" => match read_octet(input.octets) {
            Ok((_octet, rest)) => Ok((input.octets, rest)),
            Err(kind) => Err(kind),
        },
        "octets" => read_octets(5, input.octets),
        _ => read_number_content(true, input.codec, input.octets),
    };
    match read {
        Ok((value, rest)) => told(input.alloc, &value, rest, Ok(()), &[]),
        Err(kind) => refused(input.alloc, &kind),
    }
}

fn answer(word: &str, input: Input<'_>) -> Result<String, Fail> {
    match word {
        "octet" | "octets" | "number" => parts(word, input),
        "length" | "quantity" | "content" => counted(word, input),
        "tag" | "bool" | "enumerated" => plain(word, input),
        "int" => integer::<Integer>(input),
        "i128" => integer::<i128>(input),
        "i64" => integer::<i64>(input),
        "u64" => integer::<u64>(input),
        "u8" => integer::<u8>(input),
        "i8" => integer::<i8>(input),
        _ => Err(Fail::from("no such reader")),
    }
}

/// A row's input, and what it asks to be read; a row is the mode, the word, a range and octets.
pub(super) fn codec_of(mode: &str) -> Codec {
    if mode == "oer" {
        Codec::Oer
    } else {
        Codec::Coer
    }
}

/// The modes, what is read, a range, and octets; then the value, what is left, and what is written of the value; or the kind.
const ROWS: &str = "\
oer+coer octet -  => Incomplete { needed: 1 }\n\
oer+coer octets - 0102 => Incomplete { needed: 3 }\n\
oer+coer octets - 010203040506 => [1, 2, 3, 4, 5];06;\n\
oer+coer length - 80 => ZeroLengthOfLength\n\
oer+coer length - 89010000000000000000 => LengthExceedsPlatformWidth\n\
oer+coer length - 820100 => 256;;820100\n\
oer+coer content - 050102 => Incomplete { needed: 3 }\n\
oer+coer content - 040102030405 => [1, 2, 3, 4];05;0401020304\n\
oer+coer content - 02aabb => [170, 187];;02aabb\n\
oer content - 8a00000000000000000001aa => [170];;01aa\n\
coer content - 8a00000000000000000001aa => NotValidCanonicalEncoding\n\
oer+coer quantity - 010300 => 3;00;0103\n\
oer+coer quantity - 0100 => 0;;0100\n\
oer+coer quantity - 00 => EmptyInteger\n\
oer+coer tag - 83 => Tag { class: Context, value: 3 };;83\n\
oer+coer tag - bf8102ff => Tag { class: Context, value: 130 };ff;bf8102\n\
oer+coer tag - bf8fffffff7f => Tag { class: Context, value: 4294967295 };;bf8fffffff7f\n\
oer+coer tag - bf9080808000 => InvalidTagNumberOnChoice\n\
oer+coer tag - bf00 => InvalidTagNumberOnChoice\n\
oer tag - bf01 => Tag { class: Context, value: 1 };;81\n\
coer tag - bf01 => NotValidCanonicalEncoding\n\
oer+coer bool - ff => true;;ff\n\
oer bool - 3300 => true;00;ff\n\
coer bool - 3300 => InvalidBool { value: 51 }\n\
oer+coer enumerated - 82fc18 => -1000;;82fc18\n\
oer+coer enumerated - 07 => 7;;07\n\
oer+coer enumerated - 80 => EmptyInteger\n\
oer enumerated - 830003e8 => 1000;;8203e8\n\
coer enumerated - 830003e8 => NotValidCanonicalEncoding\n\
oer+coer number - 00 => EmptyInteger";

/// Numbers, each of which `int` and `i128` read alike.
const NUMBERS: &str = "\
- 0100 => Some(0);;0100\n\
- 0200ff => Some(255);;0200ff\n\
- 02ff01 => Some(-255);;02ff01\n\
- 03ff7fff => Some(-32769);;03ff7fff\n\
- 0200f4 => Some(244);;0200f4\n\
- 03ed2979 => Some(-1234567);;03ed2979\n\
0..65535 00ff => Some(255);;00ff\n\
-5..5 fc => Some(-4);;fc\n\
0..170141183460469231731687303715884105727 09010000000000000000 => Some(18446744073709551616);;09010000000000000000\n\
0..255 ff => Some(255);;ff\n\
2..65535 0002 => Some(2);;0002\n\
-32768..32767 ffff => Some(-1);;ffff\n\
5..5 05 => Some(5);;05\n\
0..18446744073709551616 01ff => Some(255);;01ff";

/// Numbers of Rust's types, and one past i128.
const TYPES: &str = "\
oer i64 - 020000 => Some(0);;0100\n\
coer i64 - 020000 => NotValidCanonicalEncoding\n\
oer u64 0..18446744073709551616 030000ff => Some(255);;01ff\n\
coer u64 0..18446744073709551616 030000ff => NotValidCanonicalEncoding\n\
oer+coer u8 1..8 0980 => ValueConstraintNotSatisfied\n\
oer+coer i8 - 020080 => IntegerOverflow\n\
oer+coer i64 1..8,... 02012c => Some(300);;02012c\n\
oer+coer int - 818000ffffffffffffffffffffffffffffffffffffffffffffffffffffffffffffffffffffffffffffffffffffffffffffffffffffffffffffffffffffffffffffffffffffffffffffffffffffffffffffffffffffffffffffffffffffffffffffffffffffffffffffffffffffffffffffffffffffffffffffffffffffffffffffff => None;;818000ffffffffffffffffffffffffffffffffffffffffffffffffffffffffffffffffffffffffffffffffffffffffffffffffffffffffffffffffffffffffffffffffffffffffffffffffffffffffffffffffffffffffffffffffffffffffffffffffffffffffffffffffffffffffffffffffffffffffffffffffffffffffffffff";

/// One row in each of its modes.
fn agrees(rt: &impl Abort, alloc: Global, line: &str) -> Result<(), Fail> {
    let (row, expected) = line.split_once(" => ").unwrap_or((line, ""));
    let mut words = row.split(' ');
    let modes = words.next().unwrap_or("");
    let word = words.next().unwrap_or("");
    let constraints = constraints_of(words.next().unwrap_or(""));
    let octets = hex::decode(alloc, words.next().unwrap_or(""))?;
    for mode in modes.split('+') {
        let input = Input {
            alloc,
            codec: codec_of(mode),
            constraints,
            octets: octets.as_slice(),
        };
        assert_eq!(rt; answer(word, input)?.as_str(), expected, "at {row}");
    }
    Ok(())
}

#[test]
fn parts_and_plain_values(rt: HostRuntime) -> Result<(), Fail> {
    for line in ROWS.split('\n') {
        agrees(&rt, rt.alloc(), line)?;
    }
    Ok(())
}

#[test]
fn integers_under_constraints(rt: HostRuntime) -> Result<(), Fail> {
    for line in NUMBERS.split('\n') {
        for word in ["int", "i128"] {
            let row = format!(in rt.alloc(); "oer+coer {} {}", word, line)?;
            agrees(&rt, rt.alloc(), row.as_str())?;
        }
    }
    for line in TYPES.split('\n') {
        agrees(&rt, rt.alloc(), line)?;
    }
    Ok(())
}

#[test]
fn a_number_outside_its_range_is_not_written(rt: HostRuntime) {
    let mut out = Vec::new(rt.alloc());
    let range = constraints_of("0..255");
    let answer = write_integer(range, &Integer::from_i128(256), &mut out);
    assert!(rt; answer == Err(EncodeErrorKind::ValueConstraintNotSatisfied));
    assert!(rt; out.is_empty());
}

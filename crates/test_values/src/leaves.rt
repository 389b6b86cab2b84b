//! Tests of the readers and writers of strings, identifiers, times, preambles and extension bitmaps.
use crate::numbers::{Input, codec_of, constraints_of, refused, told};
use asn1_base::{
    BmpCharacters, BmpString, Constraints, Date, EncodeErrorKind, GeneralizedTime, Ia5Characters,
    Ia5String, UniversalCharacters, UniversalString, UtcTime,
};
use oer_forms::leaf::{
    TimeType, read_any, read_bit_string, read_bitmap, read_named_bits, read_object_identifier,
    read_octet_string, read_preamble, read_text, read_time, read_utf8, skip_additions, write_any,
    write_bit_string, write_bitmap, write_named_bits, write_object_identifier, write_octet_string,
    write_preamble, write_text, write_time, write_utf8,
};
use std::alloc::Global;
use std::fmt::Debug;
use std::process::Abort;
use std::test::Fail;

/// Octets and open types' octets, texts of octets and UTF-8.
fn octets(word: &str, input: Input<'_>) -> Result<String, Fail> {
    let mut out = Vec::new(input.alloc);
    match word {
        "octets" => match read_octet_string(input.codec, input.constraints, input.octets) {
            Ok((value, rest)) => {
                let written = write_octet_string(input.constraints, value, &mut out);
                told(input.alloc, &value, rest, written, out.as_slice())
            }
            Err(kind) => refused(input.alloc, &kind),
        },
        "any" => match read_any(input.codec, input.octets) {
            Ok((value, rest)) => {
                let written = write_any(value, &mut out);
                told(input.alloc, &value, rest, written, out.as_slice())
            }
            Err(kind) => refused(input.alloc, &kind),
        },
        _ => match read_utf8(input.codec, input.constraints, input.octets) {
            Ok((value, rest)) => {
                let written = write_utf8(input.constraints, value, &mut out);
                told(input.alloc, &value, rest, written, out.as_slice())
            }
            Err(kind) => refused(input.alloc, &kind),
        },
    }
}

/// Texts of characters.
fn characters(word: &str, input: Input<'_>) -> Result<String, Fail> {
    let mut out = Vec::new(input.alloc);
    let (codec, constraints) = (input.codec, input.constraints);
    match word {
        "bmp" => match read_text::<BmpCharacters>(codec, constraints, input.octets) {
            Ok((value, rest)) => {
                let text = BmpString::from_bytes(input.alloc, value)?;
                let written = write_text(constraints, &text, &mut out);
                told(input.alloc, &value, rest, written, out.as_slice())
            }
            Err(kind) => refused(input.alloc, &kind),
        },
        "universal" => match read_text::<UniversalCharacters>(codec, constraints, input.octets) {
            Ok((value, rest)) => {
                let text = UniversalString::from_bytes(input.alloc, value)?;
                let written = write_text(constraints, &text, &mut out);
                told(input.alloc, &value, rest, written, out.as_slice())
            }
            Err(kind) => refused(input.alloc, &kind),
        },
        _ => match read_text::<Ia5Characters>(codec, constraints, input.octets) {
            Ok((value, rest)) => {
                let text = Ia5String::from_bytes(input.alloc, value)?;
                let written = write_text(constraints, &text, &mut out);
                told(input.alloc, &value, rest, written, out.as_slice())
            }
            Err(kind) => refused(input.alloc, &kind),
        },
    }
}

/// Bits and identifiers.
fn owned(word: &str, input: Input<'_>) -> Result<String, Fail> {
    let mut out = Vec::new(input.alloc);
    let (alloc, codec, constraints) = (input.alloc, input.codec, input.constraints);
    match word {
        "bits" => match read_bit_string(alloc, codec, constraints, input.octets) {
            Ok((value, rest)) => {
                let written = write_bit_string(constraints, &value, &mut out);
                told(alloc, &value.len(), rest, written, out.as_slice())
            }
            Err(kind) => refused(alloc, &kind),
        },
        "named" => match read_named_bits(alloc, codec, constraints, input.octets) {
            Ok((value, rest)) => {
                let written = write_named_bits(constraints, &value, &mut out);
                told(alloc, &value.len(), rest, written, out.as_slice())
            }
            Err(kind) => refused(alloc, &kind),
        },
        _ => match read_object_identifier(alloc, codec, input.octets) {
            Ok((value, rest)) => {
                let written = write_object_identifier(value.arcs(), &mut out);
                told(alloc, &value.arcs(), rest, written, out.as_slice())
            }
            Err(kind) => refused(alloc, &kind),
        },
    }
}

fn time<T: TimeType + Debug>(input: Input<'_>) -> Result<String, Fail> {
    let mut out = Vec::new(input.alloc);
    match read_time::<T>(input.codec, input.octets) {
        Ok((value, rest)) => {
            let written = write_time(&value, &mut out);
            told(input.alloc, &value, rest, written, out.as_slice())
        }
        Err(kind) => refused(input.alloc, &kind),
    }
}

/// A preamble of two bits.
fn preamble(input: Input<'_>) -> Result<String, Fail> {
    let mut out = Vec::new(input.alloc);
    match read_preamble(2, input.octets) {
        Ok((places, rest)) => {
            let mut bits = Vec::new(input.alloc);
            for bit in places {
                bits.push(bit)?;
            }
            let written = write_preamble(bits.as_slice(), &mut out);
            told(input.alloc, &bits, rest, written, out.as_slice())
        }
        Err(kind) => refused(input.alloc, &kind),
    }
}

/// An extension bitmap, and behind it additions, which are skipped.
fn bitmap(input: Input<'_>) -> Result<String, Fail> {
    let mut out = Vec::new(input.alloc);
    let (places, rest) = match read_bitmap(input.codec, input.octets) {
        Ok(read) => read,
        Err(kind) => return refused(input.alloc, &kind),
    };
    let rest = match skip_additions(input.codec, places, rest) {
        Ok(rest) => rest,
        Err(kind) => return refused(input.alloc, &kind),
    };
    let mut bits = Vec::new(input.alloc);
    for bit in places {
        bits.push(bit)?;
    }
    let written = write_bitmap(bits.as_slice(), &mut out);
    told(input.alloc, &bits, rest, written, out.as_slice())
}

fn answer(word: &str, input: Input<'_>) -> Result<String, Fail> {
    match word {
        "octets" | "any" | "utf8" => octets(word, input),
        "bmp" | "universal" | "ia5" => characters(word, input),
        "bits" | "named" | "oid" => owned(word, input),
        "utctime" => time::<UtcTime>(input),
        "gentime" => time::<GeneralizedTime>(input),
        "date" => time::<Date>(input),
        "preamble" => preamble(input),
        "bitmap" => bitmap(input),
        _ => Err(Fail::from("no such reader")),
    }
}

/// The modes, what is read, a range of sizes, and octets; then the value (of bits their count), what is left, and what is
/// written of the value; or the kind.
const ROWS: &str = "\
oer+coer octets - 040102030405 => [1, 2, 3, 4];05;0401020304\n\
oer octets - 820002aabb => [170, 187];;02aabb\n\
coer octets - 820002aabb => NotValidCanonicalEncoding\n\
oer+coer octets 3..6 050102030405 => [1, 2, 3, 4, 5];;050102030405\n\
oer+coer octets 3..6 0701020304050607 => SizeConstraintNotSatisfied { size: 7 }\n\
oer+coer any - 050102 => Incomplete { needed: 3 }\n\
oer+coer any - 89010000000000000000 => LengthExceedsPlatformWidth\n\
oer+coer any - 00 => [];;00\n\
oer+coer utf8 3..3 666f6f21 => \"foo\";21;666f6f\n\
oer+coer bmp 2..2 00410042 => [0, 65, 0, 66];;00410042\n\
oer+coer universal 1..1 0001f60000 => [0, 1, 246, 0];00;0001f600\n\
oer+coer universal - 0400000041 => [0, 0, 0, 65];;0400000041\n\
oer+coer universal - 0200410a => PermittedAlphabetError\n\
oer+coer universal 2..2 00000041 => Incomplete { needed: 4 }\n\
oer+coer universal 4611686018427387903..4611686018427387903 00 => Incomplete { needed: 18446744073709551611 }\n\
oer+coer universal 4611686018427387904..4611686018427387904 00 => LengthExceedsPlatformWidth\n\
oer+coer universal 1..2 0c000000410000004200000043 => SizeConstraintNotSatisfied { size: 3 }\n\
oer+coer ia5 - 04040481e90001 => PermittedAlphabetError\n\
oer+coer ia5 - 02410a00 => [65, 10];00;02410a\n\
oer+coer bits - 0302ff40ff40 => 14;ff40;0302ff40\n\
oer+coer bits 14..14 ff40 => 14;;ff40\n\
oer bits - 02041f => 4;;020410\n\
coer bits - 02041f => NotValidCanonicalEncoding\n\
oer+coer named - 020780ff => 1;ff;020780\n\
oer+coer named - 0100 => 0;;0100\n\
oer named - 0302ff40 => 10;;0306ff40\n\
coer named - 0302ff40 => NotValidCanonicalEncoding\n\
oer named - 020080 => 1;;020780\n\
coer named - 020080 => NotValidCanonicalEncoding\n\
oer named - 03008000 => 1;;020780\n\
coer named - 03008000 => NotValidCanonicalEncoding\n\
oer named - 020700 => 0;;0100\n\
coer named - 020700 => NotValidCanonicalEncoding\n\
oer named - 00 => 0;;0100\n\
coer named - 00 => NotValidCanonicalEncoding\n\
oer named - 02041f => 4;;020410\n\
coer named - 02041f => NotValidCanonicalEncoding\n\
oer+coer named - 020880 => InvalidBitString\n\
oer+coer named 4..8 020480 => 1;;020480\n\
oer+coer named 4..8 020400 => 0;;020400\n\
oer+coer named 4..8 0203f8 => 5;;0203f8\n\
oer named 4..8 020080 => 1;;020480\n\
coer named 4..8 020080 => NotValidCanonicalEncoding\n\
oer+coer named 4..8 020780 => SizeConstraintNotSatisfied { size: 1 }\n\
oer+coer named 4..8 0307ff80 => SizeConstraintNotSatisfied { size: 9 }\n\
oer+coer named 12..20 03048000 => 1;;03048000\n\
oer+coer named 14..14 8000 => 1;;8000\n\
oer+coer named 14..14 ff40 => 10;;ff40\n\
oer+coer oid - 032a9979 => [1, 2, 3321];;032a9979\n\
oer+coer oid - 05908080804f => [2, 4294967295];;05908080804f\n\
oer+coer oid - 059080808050 => InvalidObjectIdentifier\n\
oer+coer oid - 028001000000 => InvalidObjectIdentifier\n\
oer+coer utctime - 0d3139313030393133303030355a => UtcTime { value: 2019-10-09T13:00:05 };;0d3139313030393133303030355a\n\
oer+coer gentime - 1332303830313030393133303030352e3334325a => GeneralizedTime { value: 2080-10-09T13:00:05.342 };;1332303830313030393133303030352e3334325a\n\
oer+coer date - 083230323430323239 => Date { value: 2024-02-29 };;083230323430323239\n\
oer+coer date - 083230323330323239 => InvalidTime\n\
oer+coer preamble - 80ff => [true, false];ff;80\n\
oer+coer preamble - 81 => InvalidPreamble\n\
oer+coer bitmap - 0206c001ff01ff07 => [true, true];07;0206c0";

/// One row in each of its modes.
fn agrees(rt: &impl Abort, alloc: Global, line: &str) -> Result<(), Fail> {
    let (row, expected) = line.split_once(" => ").unwrap_or((line, ""));
    let mut words = row.split(' ');
    let modes = words.next().unwrap_or("");
    let word = words.next().unwrap_or("");
    let constraints = constraints_of(words.next().unwrap_or(""));
    let octets = hex::decode(alloc, words.next().unwrap_or(""))?;
    for mode in modes.split('+') {
        let input = Input {
            alloc,
            codec: codec_of(mode),
            constraints,
            octets: octets.as_slice(),
        };
        assert_eq!(rt; answer(word, input)?.as_str(), expected, "at {row}");
    }
    Ok(())
}

#[test]
fn strings_identifiers_times_and_places(rt: HostRuntime) -> Result<(), Fail> {
    for line in ROWS.split('\n') {
        agrees(&rt, rt.alloc(), line)?;
    }
    Ok(())
}

#[test]
fn octets_outside_their_size_are_not_written(rt: HostRuntime) {
    let mut out = Vec::new(rt.alloc());
    let sizes: Constraints = constraints_of("3..6");
    let answer = write_octet_string(sizes, b"seven..", &mut out);
    assert!(rt; answer == Err(EncodeErrorKind::SizeConstraintNotSatisfied { size: 7 }));
    assert!(rt; out.is_empty());
}

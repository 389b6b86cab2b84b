//! Tests of the values of object identifiers, bit strings, octets, character strings and times.
use asn1_base::{
    Any, BitString, BmpString, Codec, Date, GeneralString, GeneralizedTime, GraphicString,
    Ia5String, NamedBits, NumericString, ObjectIdentifier, OctetString, PrintableString,
    StringError, TeletexString, TimeError, TimeText, UniversalString, UtcTime, VisibleString,
    object_identifier_as_bytes, object_identifier_from_bytes,
};
use std::alloc::Global;
use std::fmt::Debug;
use std::process::Abort;
use std::test::Fail;

/// Arcs and their octets, or the mode and the kind of the refusal.
const ARCS: &str = "\
1.2.3321 => 2a9979\n\
2.999 => 8837\n\
2.4294967295 => 908080804f\n\
1.40 => Coer InvalidObjectIdentifier\n\
1 => Coer InvalidObjectIdentifier";

/// Octets and their arcs, or the mode and the kind of the refusal.
const IDENTIFIERS: &str = "\
2a9979 => [1, 2, 3321]\n\
8837 => [2, 999]\n\
908080804f => [2, 4294967295]\n\
\x20=> Oer InvalidObjectIdentifier\n\
8001 => Oer InvalidObjectIdentifier\n\
88 => Oer InvalidObjectIdentifier\n\
9080808050 => Oer InvalidObjectIdentifier";

/// The octets of arcs, which are an identifier's just where they have any.
fn octets_of(alloc: Global, text: &str) -> Result<String, Fail> {
    let mut arcs: Vec<u32> = Vec::new(alloc);
    for arc in text.split('.') {
        arcs.push(arc.parse::<u32>()?)?;
    }
    let mut out = Vec::new(alloc);
    let answer = object_identifier_as_bytes(arcs.as_slice(), Codec::Coer, &mut out);
    if ObjectIdentifier::new(arcs).is_some() != answer.is_ok() {
        return Err(Fail::from("other arcs are written than are an identifier's"));
    }
    match answer {
        Ok(()) => Ok(hex::encode(alloc, out.as_slice())?),
        Err(e) => Ok(format!(in alloc; "{:?} {:?}", e.codec, e.kind)?),
    }
}

fn arcs_of(alloc: Global, text: &str) -> Result<String, Fail> {
    let octets = hex::decode(alloc, text)?;
    match object_identifier_from_bytes(alloc, octets.as_slice(), Codec::Oer) {
        Ok(identifier) => Ok(format!(in alloc; "{:?}", identifier.arcs())?),
        Err(e) => Ok(format!(in alloc; "{:?} {:?}", e.codec, e.kind)?),
    }
}

#[test]
fn arcs_have_their_octets(rt: HostRuntime) -> Result<(), Fail> {
    for line in ARCS.split('\n') {
        let (arcs, octets) = line.split_once(" => ").unwrap_or((line, ""));
        assert_eq!(rt; octets_of(rt.alloc(), arcs)?.as_str(), octets, "at {arcs}");
    }
    Ok(())
}

#[test]
fn octets_have_their_arcs(rt: HostRuntime) -> Result<(), Fail> {
    for line in IDENTIFIERS.split('\n') {
        let (octets, arcs) = line.split_once(" => ").unwrap_or((line, ""));
        assert_eq!(rt; arcs_of(rt.alloc(), octets)?.as_str(), arcs, "at {octets}");
    }
    Ok(())
}

/// A count of bits and octets; the octets that are kept, and the bits one by one.
const BITS: &str = "\
14 ff43 => ff40 11111111010000\n\
14 ff40 => ff40 11111111010000\n\
4 1f => 10 0001\n\
0  =>  \n\
14 ff => none\n\
7 ff00 => none";

fn bits_of(alloc: Global, row: &str) -> Result<String, Fail> {
    let (count, text) = row.split_once(' ').unwrap_or((row, ""));
    let octets = hex::decode(alloc, text)?;
    let Some(bits) = BitString::from_octets(alloc, octets.as_slice(), count.parse::<usize>()?)?
    else {
        return Ok(String::from_str(alloc, "none")?);
    };
    let mut shown = hex::encode(alloc, bits.as_octets())?;
    shown.push_str(" ")?;
    for place in 0..bits.len() {
        match bits.get(place) {
            Some(true) => shown.push_str("1")?,
            Some(false) => shown.push_str("0")?,
            None => shown.push_str("?")?,
        }
    }
    if bits.get(bits.len()).is_some() {
        shown.push_str("?")?;
    }
    Ok(shown)
}

#[test]
fn bits_are_kept(rt: HostRuntime) -> Result<(), Fail> {
    for line in BITS.split('\n') {
        let (row, kept) = line.split_once(" => ").unwrap_or((line, ""));
        assert_eq!(rt; bits_of(rt.alloc(), row)?.as_str(), kept, "at {row}");
    }
    Ok(())
}

/// A count of bits and octets; the octets of the bits up to the last that is set, how many these are, and the bits 0 and 9.
const NAMED: &str = "\
14 8000 => 80 1 true false\n\
10 ff40 => ff40 10 true true\n\
9 0100 => 01 8 false false\n\
16 0000 =>  0 false false\n\
0  =>  0 false false";

fn named_of(alloc: Global, row: &str) -> Result<String, Fail> {
    let (count, text) = row.split_once(' ').unwrap_or((row, ""));
    let octets = hex::decode(alloc, text)?;
    let Some(bits) = BitString::from_octets(alloc, octets.as_slice(), count.parse::<usize>()?)?
    else {
        return Ok(String::from_str(alloc, "none")?);
    };
    let named = NamedBits::new(bits);
    let shown = hex::encode(alloc, named.as_bits().as_octets())?;
    Ok(format!(in alloc;
        "{} {} {} {}",
        shown,
        named.len(),
        named.get(0),
        named.get(9)
    )?)
}

#[test]
fn named_bits_lose_the_zeros_at_their_end(rt: HostRuntime) -> Result<(), Fail> {
    for line in NAMED.split('\n') {
        let (row, kept) = line.split_once(" => ").unwrap_or((line, ""));
        assert_eq!(rt; named_of(rt.alloc(), row)?.as_str(), kept, "at {row}");
    }
    Ok(())
}

/// A type of strings and octets; the count of characters and the octets that are kept, or why they are no text of the type.
const TEXTS: &str = "\
numeric 313261 => a character is outside the permitted alphabet\n\
numeric 312032 => 3 312032\n\
printable 612a62 => a character is outside the permitted alphabet\n\
printable 497427732028312b32293d333f => 13 497427732028312b32293d333f\n\
visible 610a62 => a character is outside the permitted alphabet\n\
visible 207e => 2 207e\n\
ia5 81 => a character is outside the permitted alphabet\n\
ia5 610a62 => 3 610a62\n\
general 81 => 1 81\n\
graphic 81 => 1 81\n\
teletex 81 => 1 81\n\
bmp 004100 => a character is outside the permitted alphabet\n\
bmp 00410042 => 2 00410042\n\
universal 000041 => a character is outside the permitted alphabet\n\
universal 0001f600ffffffff => 2 0001f600ffffffff\n\
octets 010203 => 3 010203\n\
any 020105 => 3 020105";

/// A count of characters, and the octets.
fn kept(alloc: Global, length: usize, octets: &[u8]) -> Result<String, StringError> {
    match hex::encode(alloc, octets) {
        Ok(octets) => Ok(format!(in alloc; "{} {}", length, octets)?),
        Err(_) => Err(StringError::OutOfMemory),
    }
}

fn text_of(alloc: Global, word: &str, octets: &[u8]) -> Result<String, StringError> {
    match word {
        "numeric" => {
            let text = NumericString::from_bytes(alloc, octets)?;
            kept(alloc, text.len(), text.as_bytes())
        }
        "printable" => {
            let text = PrintableString::from_bytes(alloc, octets)?;
            kept(alloc, text.len(), text.as_bytes())
        }
        "visible" => {
            let text = VisibleString::from_bytes(alloc, octets)?;
            kept(alloc, text.len(), text.as_bytes())
        }
        "ia5" => {
            let text = Ia5String::from_bytes(alloc, octets)?;
            kept(alloc, text.len(), text.as_bytes())
        }
        _ => wide_text_of(alloc, word, octets),
    }
}

/// The same of types that take any octets.
fn wide_text_of(alloc: Global, word: &str, octets: &[u8]) -> Result<String, StringError> {
    match word {
        "general" => {
            let text = GeneralString::from_bytes(alloc, octets)?;
            kept(alloc, text.len(), text.as_bytes())
        }
        "graphic" => {
            let text = GraphicString::from_bytes(alloc, octets)?;
            kept(alloc, text.len(), text.as_bytes())
        }
        "teletex" => {
            let text = TeletexString::from_bytes(alloc, octets)?;
            kept(alloc, text.len(), text.as_bytes())
        }
        _ => octets_of_value(alloc, word, octets),
    }
}

/// The same of types that keep octets.
fn octets_of_value(alloc: Global, word: &str, octets: &[u8]) -> Result<String, StringError> {
    match word {
        "bmp" => {
            let text = BmpString::from_bytes(alloc, octets)?;
            kept(alloc, text.len(), text.to_bytes(alloc)?.as_slice())
        }
        "universal" => {
            let text = UniversalString::from_bytes(alloc, octets)?;
            kept(alloc, text.len(), text.to_bytes(alloc)?.as_slice())
        }
        "octets" => {
            let value = OctetString::from_slice(alloc, octets)?;
            kept(alloc, value.len(), value.as_bytes())
        }
        _ => {
            let value = Any::from_slice(alloc, octets)?;
            kept(alloc, value.len(), value.as_bytes())
        }
    }
}

#[test]
fn texts_obey_their_alphabets(rt: HostRuntime) -> Result<(), Fail> {
    for line in TEXTS.split('\n') {
        let (row, expected) = line.split_once(" => ").unwrap_or((line, ""));
        let (word, text) = row.split_once(' ').unwrap_or((row, ""));
        let octets = hex::decode(rt.alloc(), text)?;
        let told = match text_of(rt.alloc(), word, octets.as_slice()) {
            Ok(told) => told,
            Err(e) => format!(in rt.alloc(); "{}", e)?,
        };
        assert_eq!(rt; told.as_str(), expected, "at {row}");
    }
    let ab = BmpString::from_units(rt.alloc(), &[0x41, 0x42])?;
    assert!(rt; ab == BmpString::from_bytes(rt.alloc(), b"\0A\0B")?);
    let face = UniversalString::from_units(rt.alloc(), &[0x1F600])?;
    assert!(rt; face == UniversalString::from_bytes(rt.alloc(), b"\0\x01\xf6\0")?);
    assert!(rt; Any::from_slice(rt.alloc(), &[])?.is_empty());
    Ok(())
}

/// A text of each type of times, its value by fields, and the text that it is written as; or why it is none.
const TIMES: &str = "\
utc 191009130005Z => 2019-10-09T13:00:05\n\
utc 491231235959Z => 2049-12-31T23:59:59\n\
utc 500101000000Z => 1950-01-01T00:00:00\n\
utc 190229130005Z => invalid time\n\
generalized 20801009130005.342Z => 2080-10-09T13:00:05.342\n\
generalized 20000101000000.000000001Z => 2000-01-01T00:00:00.000000001\n\
generalized 20240229120000.50Z => invalid time\n\
date 20240229 => 2024-02-29\n\
date 20230229 => invalid time";

/// The fields of a value whose text is that again.
fn fields<T: Debug>(
    alloc: Global,
    value: &T,
    text: &[u8],
    written: TimeText,
) -> Result<String, Fail> {
    if written.as_bytes() == text {
        Ok(format!(in alloc; "{:?}", value)?)
    } else {
        Err(Fail::from("written as another text"))
    }
}

/// The fields of the value that has this text, or why there is none.
fn value_of(alloc: Global, word: &str, text: &[u8]) -> Result<String, Fail> {
    let refused = match word {
        "utc" => match UtcTime::from_text(text) {
            Ok(time) => return fields(alloc, &time.value(), text, time.to_text()?),
            Err(e) => e,
        },
        "generalized" => match GeneralizedTime::from_text(text) {
            Ok(time) => return fields(alloc, &time.value(), text, time.to_text()?),
            Err(e) => e,
        },
        _ => match Date::from_text(text) {
            Ok(day) => return fields(alloc, &day.value(), text, day.to_text()?),
            Err(e) => e,
        },
    };
    Ok(format!(in alloc; "{}", refused)?)
}

#[test]
fn times_have_their_texts(rt: HostRuntime) -> Result<(), Fail> {
    for line in TIMES.split('\n') {
        let (row, expected) = line.split_once(" => ").unwrap_or((line, ""));
        let (word, text) = row.split_once(' ').unwrap_or((row, ""));
        let told = value_of(rt.alloc(), word, text.as_bytes())?;
        assert_eq!(rt; told.as_str(), expected, "at {row}");
    }
    assert!(rt; UtcTime::from_text(b"").err() == Some(TimeError::InvalidTime));
    Ok(())
}

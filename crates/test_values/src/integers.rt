//! Tests of the types that an INTEGER is held in: their octets, their order, and the range of a constrained one.
use asn1_base::{AsnType, Codec};
use asn1_ints::{ConstrainedInteger, Integer, IntegerRange, IntegerType};
use std::alloc::Global;
use std::process::Abort;
use std::test::Fail;

/// -5 to 5.
#[derive(Drop)]
struct Small;

impl IntegerRange for Small {
    ghost use Rattle.std.specs.Prelude.{pos, negsuc, refl};

    ghost MIN = { negsuc 4 };

    const MIN: i128 = -5;

    ghost MAX = { pos 5 };

    const MAX: i128 = 5;

    ghost holds_number = { refl };
}

/// A type, and a number in two's complement; the number, where it is one of i128, its shortest octets in two's complement, and
/// its shortest unsigned ones, where it isn't negative; or the mode and the kind of the refusal.
const ROWS: &str = "\
int 00 => Some(0);00;00\n\
int ff => Some(-1);ff;\n\
int 7f => Some(127);7f;7f\n\
int 0080 => Some(128);0080;80\n\
int 80 => Some(-128);80;\n\
int ff7f => Some(-129);ff7f;\n\
int 00ff => Some(255);00ff;ff\n\
int ff01 => Some(-255);ff01;\n\
int ff7fff => Some(-32769);ff7fff;\n\
int ed2979 => Some(-1234567);ed2979;\n\
int 00ffffffffffffffffffffffffffffffffffffff => None;00ffffffffffffffffffffffffffffffffffffff;ffffffffffffffffffffffffffffffffffffff\n\
int ff00000000000000000000000000000000000000 => None;ff00000000000000000000000000000000000000;\n\
small 0100 => Some(256);0100;0100\n\
i8 80 => Some(-128);80;\n\
i16 8000 => Some(-32768);8000;\n\
i32 ff7fff => Some(-32769);ff7fff;\n\
i64 ed2979 => Some(-1234567);ed2979;\n\
i128 00ff => Some(255);00ff;ff\n\
isize 014d => Some(333);014d;014d\n\
u8 00ff => Some(255);00ff;ff\n\
u8 000005 => Some(5);05;05\n\
u16 00 => Some(0);00;00\n\
u32 010000 => Some(65536);010000;010000\n\
u64 00ffffffffffffffff => Some(18446744073709551615);00ffffffffffffffff;ffffffffffffffff\n\
u128 0080000000000000000000000000000000 => None;0080000000000000000000000000000000;80000000000000000000000000000000\n\
usize 0080 => Some(128);0080;80\n\
u8  => Coer EmptyInteger\n\
int  => Coer EmptyInteger\n\
u8 0100 => Coer IntegerOverflow\n\
u8 ff => Coer IntegerOverflow\n\
i8 0080 => Coer IntegerOverflow\n\
u128 ff => Coer IntegerOverflow";

/// The shortest unsigned octets of a number that isn't negative, which are read as the number; none of another.
fn unsigned<T: IntegerType>(alloc: Global, value: &T) -> Result<String, Fail> {
    let mut octets = Vec::new(alloc);
    if !value.is_negative() {
        value.write_unsigned_bytes_be(&mut octets)?;
        let again = T::try_from_unsigned_bytes(alloc, octets.as_slice(), Codec::Oer)?;
        if again.to_i128() != value.to_i128() {
            return Err(Fail::from("unsigned octets are read as another number"));
        }
    }
    Ok(hex::encode(alloc, octets.as_slice())?)
}

/// The shortest octets in two's complement.
fn signed<T: IntegerType>(alloc: Global, value: &T) -> Result<String, Fail> {
    let mut octets = Vec::new(alloc);
    value.write_signed_bytes_be(&mut octets)?;
    Ok(hex::encode(alloc, octets.as_slice())?)
}

/// Reads a number of octets in two's complement, writes it both ways, and reads what was written.
fn both_ways<T: IntegerType>(alloc: Global, octets: &[u8]) -> Result<String, Fail> {
    let value = match T::try_from_signed_bytes(alloc, octets, Codec::Coer) {
        Ok(value) => value,
        Err(e) => return Ok(format!(in alloc; "{:?} {:?}", e.codec, e.kind)?),
    };
    let signed = signed(alloc, &value)?;
    let unsigned = unsigned(alloc, &value)?;
    Ok(format!(in alloc; "{:?};{};{}", value.to_i128(), signed, unsigned)?)
}

fn answer(alloc: Global, row: &str) -> Result<String, Fail> {
    let (word, text) = row.split_once(' ').unwrap_or((row, ""));
    let octets = hex::decode(alloc, text)?;
    let octets = octets.as_slice();
    match word {
        "int" => both_ways::<Integer>(alloc, octets),
        "small" => both_ways::<ConstrainedInteger<Small>>(alloc, octets),
        "i8" => both_ways::<i8>(alloc, octets),
        "i16" => both_ways::<i16>(alloc, octets),
        "i32" => both_ways::<i32>(alloc, octets),
        "i64" => both_ways::<i64>(alloc, octets),
        "i128" => both_ways::<i128>(alloc, octets),
        "isize" => both_ways::<isize>(alloc, octets),
        "u8" => both_ways::<u8>(alloc, octets),
        "u16" => both_ways::<u16>(alloc, octets),
        "u32" => both_ways::<u32>(alloc, octets),
        "u64" => both_ways::<u64>(alloc, octets),
        "u128" => both_ways::<u128>(alloc, octets),
        "usize" => both_ways::<usize>(alloc, octets),
        _ => Err(Fail::from("no such type")),
    }
}

#[test]
fn integers_have_their_octets(rt: HostRuntime) -> Result<(), Fail> {
    for line in ROWS.split('\n') {
        let (row, expected) = line.split_once(" => ").unwrap_or((line, ""));
        assert_eq!(rt; answer(rt.alloc(), row)?.as_str(), expected, "at {row}");
    }
    Ok(())
}

/// Numbers in ascending order, in two's complement: -256^127, -2^127, -1, 0, 2^127 - 1 and 256^127 - 1.
const ASCENDING: &str = "\
ff00000000000000000000000000000000000000000000000000000000000000000000000000000000000000000000000000000000000000000000000000000000000000000000000000000000000000000000000000000000000000000000000000000000000000000000000000000000000000000000000000000000000000 \
80000000000000000000000000000000 ff 00 7fffffffffffffffffffffffffffffff \
00ffffffffffffffffffffffffffffffffffffffffffffffffffffffffffffffffffffffffffffffffffffffffffffffffffffffffffffffffffffffffffffffffffffffffffffffffffffffffffffffffffffffffffffffffffffffffffffffffffffffffffffffffffffffffffffffffffffffffffffffffffffffffffffff";

#[test]
fn integers_have_the_order_of_their_numbers(rt: HostRuntime) -> Result<(), Fail> {
    let mut before: Option<Integer> = None;
    for text in ASCENDING.split(' ') {
        let octets = hex::decode(rt.alloc(), text)?;
        let number = Integer::from_signed_octets(rt.alloc(), octets.as_slice())?.ok_or("none")?;
        let written = number.signed_octets(rt.alloc())?;
        assert!(rt; written == octets);
        assert!(rt; before.is_none_or(|before| before < number));
        before = Some(number);
    }
    assert!(rt; Integer::from_signed_octets(rt.alloc(), &[])?.is_none());
    Ok(())
}

#[test]
fn constrained_integers_know_their_range(rt: HostRuntime) -> Result<(), Fail> {
    let own = ConstrainedInteger::<Small>::CONSTRAINTS;
    let mut told = format!(in rt.alloc(); "{:?}", own.value)?;
    for number in [-6, -5, 5, 6] {
        let inside = ConstrainedInteger::<Small>::try_new(number).is_some();
        let any = ConstrainedInteger::<Small>::new(number);
        let line = format!(in rt.alloc(); " {} {:?}", inside, any.get().to_i128())?;
        told.push_str(line.as_str())?;
    }
    assert_eq!(rt;
        told.as_str(),
        "Some((Range { start: Some(-5), end: Some(5) }, false)) false Some(-6) true Some(-5) true Some(5) false Some(6)"
    );
    Ok(())
}

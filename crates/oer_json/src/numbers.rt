//! Numbers: INTEGER and ENUMERATED (X.696, 10 and 11).
ghost use Rattle.std.specs.Prelude.{◌≡◌, true, false, MatchResult};
ghost use Rattle.asn1_core.specs.Bounds.{value_bounds};
ghost use Rattle.oer_json.specs.Readings.{Puts, Stands, allowed, bounds_of, free_range, is_free, counted_in};
ghost use Rattle.oer_spec.specs.Tree.{Primitive, Int};
ghost use Rattle.oer_json.specs.declared.json.Json.{Number};

use crate::refusals::{Fault, Misfit};
use crate::tables::{Bounds, Tables};
use asn1_core::{Bounded, Constraints};
use asn1_ints::{has_superfluous_sign, has_superfluous_zero, i128_of};
use oer_leaf_write::{write_content, write_enumerated, write_integer};

/// Refused where a number is outside a type's range.
fn check_range(tables: &Tables, type_number: u32, number: i128) -> Result<(), Fault>
    ensures { MatchResult result (λ _. allowed (bounds_of tables.now.ranges.items type_number) number ≡ true) (λ _. allowed (bounds_of tables.now.ranges.items type_number) number ≡ false) }
{
    match tables.range_of(type_number) {
        Some(bounds) if !bounds.allows(number) => Err(out_of_range(bounds)),
        _ => Ok(()),
    }
}

fn out_of_range(bounds: Bounds) -> Fault {
    Fault::Misfit(Misfit::OutOfRange {
        low: bounds.low,
        high: bounds.high,
    })
}

/// The numbers of so many octets: 1, 2, 4 or 8.
fn ends_of(octets: u32, is_signed: bool) -> Option<(i128, i128)> {
    match (octets, is_signed) {
        (1, false) => Some((0, 0xFF)),
        (2, false) => Some((0, 0xFFFF)),
        (4, false) => Some((0, 0xFFFF_FFFF)),
        (8, false) => Some((0, 0xFFFF_FFFF_FFFF_FFFF)),
        (1, true) => Some((-0x80, 0x7F)),
        (2, true) => Some((-0x8000, 0x7FFF)),
        (4, true) => Some((-0x8000_0000, 0x7FFF_FFFF)),
        (8, true) => Some((-0x8000_0000_0000_0000, 0x7FFF_FFFF_FFFF_FFFF)),
        _ => None,
    }
}

/// Appends a number in so many octets.
pub fn put_fixed(
    tables: &Tables,
    type_number: u32,
    number: i128,
    out: &mut Vec<u8>,
) -> Result<(), Fault> {
    check_range(tables, type_number, number)?;
    let octets = tables.word_of(type_number, 0);
    let is_signed = tables.word_of(type_number, 1) == 1;
    let Some((low, high)) = ends_of(octets, is_signed) else {
        return Err(Fault::Misfit(Misfit::UnknownType));
    };
    let bounds = Bounds {
        type_number,
        low: Some(low),
        high: Some(high),
    };
    if !bounds.allows(number) {
        return Err(out_of_range(bounds));
    }
    let constraints = Constraints {
        value: Some((
            Bounded::Range {
                start: Some(low),
                end: Some(high),
            },
            false,
        )),
        size: None,
    };
    Ok(write_integer(constraints, &number, out)?)
}

/// The constraints of a number that lies behind a length.
fn free_constraints(is_signed: bool) -> Constraints
    ensures { value_bounds result ≡ free_range is_signed }
{
    if is_signed {
        return Constraints::NONE;
    }
    Constraints {
        value: Some((
            Bounded::Range {
                start: Some(0),
                end: None,
            },
            false,
        )),
        size: None,
    }
}

/// Whether a number is one with a sign, or one without.
fn is_free(is_signed: bool, number: i128) -> bool
    ensures { result ≡ is_free is_signed number }
{
    is_signed || number >= 0
}

/// Appends a number behind a length, whatever its range.
fn write_free(is_signed: bool, number: i128, out: &mut Vec<u8>) -> Result<(), Fault>
    ensures { Puts (Stands (Primitive (Int (free_range is_signed) number))) result out.old.items out.new.items }
{
    match write_integer(free_constraints(is_signed), &number, out) {
        Ok(()) => Ok(()),
        Err(kind) => Err(Fault::from(kind)),
    }
}

/// Appends a number behind a length.
pub fn put_counted(
    tables: &Tables,
    type_number: u32,
    number: i128,
    out: &mut Vec<u8>,
) -> Result<(), Fault>
    ensures { Puts (counted_in tables.now type_number (Number number)) result out.old.items out.new.items }
{
    check_range(tables, type_number, number)?;
    let is_signed = tables.word_of(type_number, 0) == 1;
    if !is_free(is_signed, number) {
        return Err(Fault::Misfit(Misfit::OutOfRange {
            low: Some(0),
            high: None,
        }));
    }
    write_free(is_signed, number, out)
}

/// Whether the unsigned number of octets, the first of which isn't zero, is past the greatest of 128 bits with a sign.
fn is_long_unsigned(octets: &[u8]) -> bool {
    match octets {
        [first, ..] => octets.len() > 16 || octets.len() == 16 && *first >= 128,
        [] => false,
    }
}

/// Whether octets are the shortest of a number that isn't one of 128 bits.
fn is_long(octets: &[u8], is_signed: bool) -> bool {
    if is_signed {
        i128_of(octets).is_none() && !has_superfluous_sign(octets)
    } else {
        is_long_unsigned(octets) && !has_superfluous_zero(octets)
    }
}

/// Appends a number past 128 bits, by its octets.
pub fn put_long(
    tables: &Tables,
    type_number: u32,
    octets: &[u8],
    out: &mut Vec<u8>,
) -> Result<(), Fault> {
    let is_signed = tables.word_of(type_number, 0) == 1;
    if !is_long(octets, is_signed) {
        return Err(Fault::Misfit(Misfit::WrongSort("an integer")));
    }
    let is_negative = is_signed && octets.first().copied().unwrap_or(0) >= 128;
    if let Some(bounds) = tables.range_of(type_number) {
        let end = if is_negative { bounds.low } else { bounds.high };
        if end.is_some() {
            return Err(out_of_range(bounds));
        }
    }
    Ok(write_content(octets, out)?)
}

/// Appends the enumerated value of that name.
pub fn put_name(
    tables: &Tables,
    type_number: u32,
    name: &str,
    out: &mut Vec<u8>,
) -> Result<(), Fault> {
    let Some(number) = tables.value_of(type_number, name) else {
        return Err(Fault::Misfit(Misfit::UnknownName));
    };
    match isize::try_from(number) {
        Ok(number) => Ok(write_enumerated(number, out)?),
        Err(_) => Err(Fault::Misfit(Misfit::NotWritten)),
    }
}

//! BIT STRING (X.680, 22, and X.696, 13), with named bits or without.
ghost use Rattle.std.specs.Prelude.{◌≡◌, Some, None, IsSome, MatchOption, MatchResult};
ghost use Rattle.asn1_core.specs.Bounds.{size_bounds, fixed_size};
ghost use Rattle.oer_json.specs.Readings.{Finds, Puts, is_named, parts_of, parts_in, count_in, first_bits, bits_in, size_at, size_in, bit_string_in, named_bits_in};

use crate::components::Member;
use crate::hexadecimal::hexadecimal;
use crate::json::Json;
use crate::refusals::{Fault, Misfit, wrong_sort};
use crate::tables::{Bounds, Tables};
use asn1_core::{Bounded, Constraints, EncodeErrorKind};
use asn1_strings::{BitString, NamedBits};
use oer_leaf_write::{write_bit_string, write_named_bits};
use std::alloc::Global;

/// What bits are that a type may have more or fewer of.
const BITS: &str = "an object of value and length";

/// The first bits of octets. Refused where there are more or fewer octets than these need, or another bit is set.
fn first_bits(alloc: Global, octets: &[u8], count: usize) -> Result<BitString, Fault>
    ensures { Finds (λ bits. bits) result (first_bits octets.now count) }
{
    let Some(bits) = BitString::from_octets(alloc, octets, count)? else {
        return Err(Fault::Misfit(Misfit::WrongLength));
    };
    if bits.as_octets() == octets {
        Ok(bits)
    } else {
        Err(Fault::Misfit(Misfit::UnusedBits))
    }
}

/// Appends the bits of a type that has no other size.
pub fn put_fixed_bits(
    alloc: Global,
    tables: &Tables,
    type_number: u32,
    json: &Json,
    out: &mut Vec<u8>,
) -> Result<(), Fault> {
    let octets = hexadecimal(alloc, json)?;
    let count = tables.word_of(type_number, 0) as usize;
    let bits = first_bits(alloc, octets.as_slice(), count)?;
    Ok(out.extend_from_slice(bits.as_octets())?)
}

fn is_named(member: &Member, name: &str) -> bool
    ensures { result ≡ is_named name.now member.now }
{
    member.0.as_str() == name
}

/// What stands in members `value` and `length`, in either order.
fn parts_of(members: &[Member]) -> Option<(&Json, &Json)>
    ensures { MatchOption result (parts_of members.now ≡ None) (λ parts. parts_of members.now ≡ Some (parts.0.now, parts.1.now)) }
{
    let [first, second] = members else {
        return None;
    };
    if is_named(first, "value") && is_named(second, "length") {
        return Some((&first.1, &second.1));
    }
    if is_named(second, "value") && is_named(first, "length") {
        return Some((&second.1, &first.1));
    }
    None
}

/// What stands in an object of `value` and `length`.
fn parts_in(json: &Json) -> Result<(&Json, &Json), Fault>
    ensures { Finds (λ parts. (parts.0.now, parts.1.now)) result (parts_in json.now) }
{
    let Json::Members(members) = json else {
        return Err(wrong_sort(BITS));
    };
    match parts_of(members.as_slice()) {
        Some(parts) => Ok(parts),
        None => Err(wrong_sort(BITS)),
    }
}

/// A count of bits.
fn count_in(json: &Json) -> Result<usize, Fault>
    ensures { Finds (λ count. count) result (count_in json.now) }
{
    match json {
        Json::Number(count) => match usize::try_from(*count) {
            Ok(count) => Ok(count),
            Err(_) => Err(Fault::Misfit(Misfit::WrongLength)),
        },
        _ => Err(wrong_sort(BITS)),
    }
}

/// The bits of an object of `value` and `length`.
fn bits_in(alloc: Global, json: &Json) -> Result<BitString, Fault>
    ensures { Finds (λ bits. bits) result (bits_in json.now) }
{
    let (value, length) = parts_in(json)?;
    let count = count_in(length)?;
    let octets = hexadecimal(alloc, value)?;
    first_bits(alloc, octets.as_slice(), count)
}

/// A number as a size, or the nearest one that is a size.
fn size_at(number: i128) -> usize
    ensures { result ≡ size_at number }
{
    match usize::try_from(number) {
        Ok(size) => size,
        Err(_) if number < 0 => 0,
        Err(_) => usize::MAX,
    }
}

/// The constraint of sizes, where a type has some.
fn size_constraint(sizes: Option<Bounds>) -> Constraints
    ensures { size_bounds result ≡ size_in sizes }
{
    let Some(sizes) = sizes else {
        return Constraints::NONE;
    };
    let bounds = Bounded::Range {
        start: sizes.low.map(size_at),
        end: sizes.high.map(size_at),
    };
    Constraints {
        value: None,
        size: Some((bounds, false)),
    }
}

/// The constraint of bits that lie behind a length. Refused where there is one size alone, since bits of that have no length.
fn counted_constraint(sizes: Option<Bounds>) -> Result<Constraints, Fault>
    ensures { MatchResult result (λ c. (size_bounds c ≡ size_in sizes) × (fixed_size (size_in sizes) ≡ None)) (λ _. IsSome (fixed_size (size_in sizes))) }
{
    let constraint = size_constraint(sizes);
    if constraint.fixed_size().is_some() {
        return Err(Fault::Misfit(Misfit::UnknownType));
    }
    Ok(constraint)
}

/// Where bits are refused for their count, the sizes that the table has.
fn fault_of(kind: EncodeErrorKind, sizes: Option<Bounds>) -> Fault
    ensures { kind ≡ EncodeErrorKind.OutOfMemory → result ≡ Fault.OutOfMemory }
{
    match kind {
        EncodeErrorKind::SizeConstraintNotSatisfied { size } => Fault::Misfit(Misfit::WrongSize {
            size,
            low: sizes.and_then(|sizes| sizes.low),
            high: sizes.and_then(|sizes| sizes.high),
        }),
        other => Fault::from(other),
    }
}

/// Appends the bits of a type that may have other sizes (X.696, 13).
pub fn put_bits(
    alloc: Global,
    tables: &Tables,
    type_number: u32,
    json: &Json,
    out: &mut Vec<u8>,
) -> Result<(), Fault>
    ensures { Puts (bit_string_in tables.now type_number json.now) result out.old.items out.new.items }
{
    let bits = bits_in(alloc, json)?;
    let sizes = tables.size_of(type_number);
    match write_bit_string(counted_constraint(sizes)?, &bits, out) {
        Ok(()) => Ok(()),
        Err(kind) => Err(fault_of(kind, sizes)),
    }
}

/// Appends named bits up to the last that is set, and 0 bits up to the least size (X.680, 22.7, and X.696, 13.3).
pub fn put_named_bits(
    alloc: Global,
    tables: &Tables,
    type_number: u32,
    json: &Json,
    out: &mut Vec<u8>,
) -> Result<(), Fault>
    ensures { Puts (named_bits_in tables.now type_number json.now) result out.old.items out.new.items }
{
    let bits = NamedBits::new(bits_in(alloc, json)?);
    let sizes = tables.size_of(type_number);
    match write_named_bits(counted_constraint(sizes)?, &bits, out) {
        Ok(()) => Ok(()),
        Err(kind) => Err(fault_of(kind, sizes)),
    }
}

//! Writes an INTEGER, laid out by its value constraint (X.696, 10).
ghost use Rattle.std.specs.Prelude.{◌≡◌, ◌<◌, ◌≤◌, pos, true, false, [], ◌∷◌, ◌++◌, length, int_lt, OnOk, IfErr};
ghost use Rattle.asn1_core.specs.declared.error.EncodeErrorKind.TheVariants.{OutOfMemory};
ghost use Rattle.asn1_core.specs.Bounds.{value_bounds};
ghost use Rattle.asn1_core.specs.Numbers.{signed_octets};
ghost use Rattle.oer_spec.specs.Leaves.{counted_octets, fixed_octets};
ghost use Rattle.oer_spec.specs.Lengths.{behind_length};
ghost use Rattle.oer_spec.specs.Tree.{Int};
ghost use Rattle.oer_spec.specs.Writing.{AppendsOrMemory, AppendsLeaf};

use crate::lengths::write_length;
use asn1_core::{Constraints, EncodeErrorKind};
use asn1_ints::{IntegerType, shortest_signed};
use oer_spec::leaf::{IntegerWidth, is_in_range, width_of};

/// Appends the lowest octets of a number in two's complement.
#[inline(always)]
fn write_fixed(n: i128, octets: usize, out: &mut Vec<u8>) -> Result<(), EncodeErrorKind>
    requires { octets ≤ 16 }
    ensures { AppendsOrMemory result (fixed_octets octets n) out.old.items out.new.items }
{
    let all = n.to_be_bytes();
    let (_, lowest) = all.split_at(16 - octets);
    out.extend_from_slice(lowest)?;
    Ok(())
}

/// Appends the shortest octets of a number, in two's complement or unsigned.
fn write_shortest<I: IntegerType>(
    signed: bool,
    value: &I,
    out: &mut Vec<u8>,
) -> Result<(), EncodeErrorKind>
    requires { signed ≡ false → int_lt (I.number value.now) (pos 0) ≡ false }
    ensures { AppendsOrMemory result (counted_octets signed (I.number value.now)) out.old.items out.new.items }
{
    if signed {
        value.write_signed_bytes_be(out)?;
    } else {
        value.write_unsigned_bytes_be(out)?;
    }
    Ok(())
}

/// Appends a length and the shortest octets of a number.
///
/// The number is written behind one octet, which becomes its length where that is below 128; else it is written anew.
#[inline(never)]
fn write_counted<I: IntegerType>(
    signed: bool,
    value: &I,
    out: &mut Vec<u8>,
) -> Result<(), EncodeErrorKind>
    requires { signed ≡ false → int_lt (I.number value.now) (pos 0) ≡ false }
    ensures { AppendsOrMemory result (behind_length (counted_octets signed (I.number value.now))) out.old.items out.new.items }
{
    let start = out.len();
    out.push(0)?;
    write_shortest(signed, value, out)?;
    let count = out.len() - start - 1;
    if count < 128 {
        out[start] = count as u8;
        return Ok(());
    }
    out.truncate(start);
    write_length(count, out)?;
    write_shortest(signed, value, out)
}

/// Appends a length below 128 and that many octets. An array is appended with one look at the room that is left.
#[inline(always)]
fn write_few(octets: &[u8], out: &mut Vec<u8>) -> Result<(), EncodeErrorKind>
    requires { length octets.now < 128 }
    ensures { AppendsOrMemory result (behind_length octets.now) out.old.items out.new.items }
{
    match octets {
        [a, b, c] => out.extend_from_slice(&[3, *a, *b, *c])?,
        [a, b, c, d] => out.extend_from_slice(&[4, *a, *b, *c, *d])?,
        [a, b, c, d, e, f, g, h] => { out.extend_from_slice(&[8, *a, *b, *c, *d, *e, *f, *g, *h])? }
        _ => {
            out.push(octets.len() as u8)?;
            out.extend_from_slice(octets)?;
        }
    }
    Ok(())
}

/// Appends two octets, with one look at the room that is left and no call.
#[inline(always)]
fn push_two(a: u8, b: u8, out: &mut Vec<u8>) -> Result<(), EncodeErrorKind>
    ensures done { OnOk result (out.new.items ≡ out.old.items ++ (a ∷ b ∷ [])) }
    ensures refused { IfErr result (λ k. (k ≡ OutOfMemory) × (out.new.items ≡ out.old.items)) }
{
    out.reserve(2)?;
    out.push_reserved(a);
    out.push_reserved(b);
    Ok(())
}

/// Likewise three.
#[inline(always)]
fn push_three(a: u8, b: u8, c: u8, out: &mut Vec<u8>) -> Result<(), EncodeErrorKind>
    ensures done { OnOk result (out.new.items ≡ out.old.items ++ (a ∷ b ∷ c ∷ [])) }
    ensures refused { IfErr result (λ k. (k ≡ OutOfMemory) × (out.new.items ≡ out.old.items)) }
{
    out.reserve(3)?;
    out.push_reserved(a);
    out.push_reserved(b);
    out.push_reserved(c);
    Ok(())
}

/// Appends a length and the shortest octets of a number in two's complement: one or two.
#[inline(always)]
fn write_short(n: i16, out: &mut Vec<u8>) -> Result<(), EncodeErrorKind>
    ensures { AppendsOrMemory result (behind_length (signed_octets n)) out.old.items out.new.items }
{
    let [high, low] = n.to_be_bytes();
    if n >= -(1 << 7) && n < 1 << 7 {
        push_two(1, low, out)?;
        return Ok(());
    }
    push_three(2, high, low, out)?;
    Ok(())
}

/// Appends a length and the shortest octets of a number in two's complement, which are sought among 4 or 8.
#[inline(always)]
fn write_signed(n: i64, out: &mut Vec<u8>) -> Result<(), EncodeErrorKind>
    ensures { AppendsOrMemory result (behind_length (signed_octets n)) out.old.items out.new.items }
{
    if n >= -(1 << 31) && n < 1 << 31 {
        let octets = (n as i32).to_be_bytes();
        return write_few(shortest_signed(&octets), out);
    }
    let octets = n.to_be_bytes();
    write_few(shortest_signed(&octets), out)
}

/// Appends an integer without a constraint that isn't one of i16.
#[inline(never)]
fn write_long<I: IntegerType>(value: &I, out: &mut Vec<u8>) -> Result<(), EncodeErrorKind>
    ensures { AppendsOrMemory result (behind_length (signed_octets (I.number value.now))) out.old.items out.new.items }
{
    match value.to_i128() {
        Some(n) if n >= -(1 << 63) && n < 1 << 63 => write_signed(n as i64, out),
        _ => write_counted(true, value, out),
    }
}

/// Appends an integer without a constraint: a length, and the shortest octets in two's complement.
#[inline(always)]
fn write_free<I: IntegerType>(value: &I, out: &mut Vec<u8>) -> Result<(), EncodeErrorKind>
    ensures { AppendsOrMemory result (behind_length (signed_octets (I.number value.now))) out.old.items out.new.items }
{
    match value.to_i128() {
        Some(n) if n >= -(1 << 15) && n < 1 << 15 => write_short(n as i16, out),
        _ => match write_long(value, out) {
            Ok(()) => Ok(()),
            Err(kind) => Err(kind),
        },
    }
}

/// Appends an integer by its constraint.
#[inline(always)]
fn write_bounded<I: IntegerType>(
    constraints: &Constraints,
    value: &I,
    out: &mut Vec<u8>,
) -> Result<(), EncodeErrorKind>
    ensures { AppendsLeaf result (Int (value_bounds constraints.now) (I.number value.now)) out.old.items out.new.items }
{
    if !is_in_range(constraints, value) {
        return Err(EncodeErrorKind::ValueConstraintNotSatisfied);
    }
    match width_of(constraints) {
        IntegerWidth::Fixed { octets, .. } => match value.to_i128() {
            Some(n) => write_fixed(n, octets, out),
            None => Err(EncodeErrorKind::ValueConstraintNotSatisfied),
        },
        IntegerWidth::Counted { signed } => write_counted(signed, value, out),
    }
}

/// Appends an integer (X.696, 10), laid out by the constraints as `read_integer` says: the number in a fixed count of
/// octets, or a length and its shortest octets.
///
/// Refused, beside want of memory: under a constraint that isn't extensible, a number outside it or outside i128, as
/// `ValueConstraintNotSatisfied`.
#[inline(always)]
pub fn write_integer<I: IntegerType>(
    constraints: Constraints,
    value: &I,
    out: &mut Vec<u8>,
) -> Result<(), EncodeErrorKind>
    ensures { AppendsLeaf result (Int (value_bounds constraints) (I.number value.now)) out.old.items out.new.items }
{
    if constraints.value.is_none() {
        return write_free(value, out);
    }
    write_bounded(&constraints, value, out)
}

/// Appends an integer by its constraint, in a call of its own.
#[inline(never)]
fn write_bounded_apart<I: IntegerType>(
    constraints: &Constraints,
    value: &I,
    out: &mut Vec<u8>,
) -> Result<(), EncodeErrorKind>
    ensures { AppendsLeaf result (Int (value_bounds constraints.now) (I.number value.now)) out.old.items out.new.items }
{
    write_bounded(constraints, value, out)
}

/// Appends an integer as `write_integer` does, of a type that is seldom constrained: a range's layout is a call of its own. In
/// line it would make functions of several such components larger than what the compiler inlines.
#[inline(always)]
pub fn write_wide_integer<I: IntegerType>(
    constraints: Constraints,
    value: &I,
    out: &mut Vec<u8>,
) -> Result<(), EncodeErrorKind>
    ensures { AppendsLeaf result (Int (value_bounds constraints) (I.number value.now)) out.old.items out.new.items }
{
    if constraints.value.is_none() {
        return write_free(value, out);
    }
    match write_bounded_apart(&constraints, value, out) {
        Ok(()) => Ok(()),
        Err(kind) => Err(kind),
    }
}

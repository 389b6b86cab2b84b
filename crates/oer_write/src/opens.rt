//! Open types: octets behind their length, which is put in front of them once it is known.
ghost use Rattle.std.specs.Prelude.{◌≡◌, ◌+◌, ◌-◌, ◌^◌, ◌<◌, ◌≤◌, ◌++◌, [], false, take, drop, length, vec_len, OnOk, IfOk, IfErr};
ghost use Rattle.std.specs.Int.Digits.{digits_of};
ghost use Rattle.asn1_core.specs.Numbers.{low_octets};
ghost use Rattle.asn1_core.specs.Octets.{Octets};
ghost use Rattle.asn1_core.specs.declared.error.EncodeErrorKind.TheVariants.{OutOfMemory};
ghost use Rattle.oer_spec.specs.Lengths.{behind_length, length_octets};
ghost use Rattle.oer_spec.specs.Writing.{BeginsWith};
ghost use Rattle.oer_write.specs.Held.{Kept};
ghost use Rattle.oer_write.specs.Layout.{Adds, slots, total};

use crate::bits::Packed;
use crate::insertions::Insertions;
use crate::scopes::close_scope;
use asn1_core::EncodeErrorKind;

/// How many octets a number has.
fn octets_of(number: u64) -> usize
    requires { 0 < number }
    ensures { result ≡ length (digits_of 256 number) }
{
    if number < 256 {
        return 1;
    }
    octets_of(number / 256) + 1
}

/// A length below 128 (X.696, 8.6).
#[inline(always)]
fn short_length(size: usize) -> Packed
    requires { size < 128 }
    ensures few { result.octets ≤ 8 }
    ensures number { low_octets result.octets result.number ≡ length_octets size }
{
    Packed {
        number: size as u64,
        octets: 1,
    }
}

/// A length of 128 octets or more (X.696, 8.6); no memory has room for one of 2^56.
#[inline(never)]
pub(crate) fn long_length(size: usize) -> Result<Packed, EncodeErrorKind>
    requires { 128 ≤ size }
    ensures few { IfOk result (λ p. p.octets ≤ 8) }
    ensures some { IfOk result (λ p. 0 < p.octets) }
    ensures number { IfOk result (λ p. low_octets p.octets p.number ≡ length_octets size) }
    ensures refused { IfErr result (λ k. k ≡ OutOfMemory) }
{
    let digits = octets_of(size as u64);
    if digits > 7 {
        return Err(EncodeErrorKind::OutOfMemory);
    }
    Ok(behind_digits(digits, size as u64))
}

/// The count of a length's octets, and these.
fn behind_digits(digits: usize, size: u64) -> Packed
    requires some { 128 ≤ size }
    requires digits { digits ≡ length (digits_of 256 size) }
    requires few { digits ≤ 7 }
    ensures octets { result.octets ≡ digits + 1 }
    ensures number { low_octets result.octets result.number ≡ length_octets size }
{
    let front = (128 + digits as u64) << (digits * 8);
    Packed {
        number: front + size,
        octets: digits + 1,
    }
}

/// A length (X.696, 8.6).
#[inline(always)]
fn length(size: usize) -> Result<Packed, EncodeErrorKind>
    ensures few { IfOk result (λ p. p.octets ≤ 8) }
    ensures number { IfOk result (λ p. low_octets p.octets p.number ≡ length_octets size) }
    ensures refused { IfErr result (λ k. k ≡ OutOfMemory) }
{
    if size < 128 {
        return Ok(short_length(size));
    }
    match long_length(size) {
        Ok(packed) => Ok(packed),
        Err(kind) => Err(kind),
    }
}

/// Closes an open type that begins at `start`: its length is the count of the octets since and of the insertions since.
#[inline(always)]
pub(crate) fn close_open(
    is_inside: bool,
    start: usize,
    slot: usize,
    before: usize,
    out: &mut Vec<u8>,
    insertions: &mut Insertions,
) -> Result<(), EncodeErrorKind>
    requires slot { slot ≤ length insertions.old }
    requires start { start ≤ length out.old.items }
    requires before { before ≡ total (take slot insertions.old) }
    requires alone { is_inside ≡ false → slot ≡ 0 }
    requires adds { (content : Octets) × Adds content (take start out.old.items) (take slot insertions.old ++ slots is_inside start) out.old.items insertions.old }
    ensures done { (content : Octets) → Adds content (take start out.old.items) (take slot insertions.old ++ slots is_inside start) out.old.items insertions.old → OnOk result (Adds (behind_length content) (take start out.old.items) (take slot insertions.old) out.new.items insertions.new × (length content < 2 ^ 64)) }
    ensures refused { IfErr result (λ k. (k ≡ OutOfMemory) × BeginsWith out.old.items out.new.items × (insertions.new ≡ insertions.old)) }
    ensures alone { is_inside ≡ false → OnOk result (insertions.new ≡ []) }
{
    let Some(size) = (out.len() - start).checked_add(insertions.inserted() - before) else {
        return Err(EncodeErrorKind::OutOfMemory);
    };
    let octets = length(size)?;
    close_scope(is_inside, start, slot, octets, out, insertions)
}

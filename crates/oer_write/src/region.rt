//! Where the additions of an open sequence lie: in the output itself, behind its root components.
ghost use Rattle.std.specs.Prelude.{◌≡◌, ◌≤◌, ◌<◌, ◌+◌, ◌++◌, length, take, drop, vec_len, OnOk, IfErr};
ghost use Rattle.asn1_core.specs.declared.error.EncodeErrorKind.TheVariants.{OutOfMemory};
ghost use Rattle.oer_write.specs.Seen.{around, within, IsLaid, region_at};

use crate::insertions::Insertions;
use asn1_core::EncodeErrorKind;
use std::alloc::Global;

/// Where a scope's octets lie in the output, and its insertions in the list.
///
/// Root components that are written behind an addition lie behind `end`, until the next addition or the end of the scope.
#[derive(Clone, Copy)]
pub(crate) struct Region {
    /// Where the scope begins: in the output, and in the list.
    pub(crate) base: usize,
    pub(crate) first: usize,
    /// Where its additions begin; the insertion for their bitmap is the first of theirs.
    pub(crate) start: usize,
    pub(crate) opens: usize,
    /// Where they end.
    pub(crate) end: usize,
    pub(crate) last: usize,
}

impl Region {
    /// A scope without additions.
    #[inline(always)]
    pub(crate) fn at(base: usize, first: usize) -> Region
        ensures { result ≡ region_at base first }
    {
        Region {
            base,
            first,
            start: base,
            opens: first,
            end: base,
            last: first,
        }
    }
}

/// Puts what was written behind the additions in front of them, so that an addition can follow.
#[inline(always)]
fn settle(
    alloc: Global,
    region: &mut Region,
    insertions: &mut Insertions,
    out: &mut Vec<u8>,
) -> Result<(), EncodeErrorKind>
    requires laid { IsLaid region.old (length out.old.items) insertions.old }
    requires begun { region.old.first < region.old.last }
    ensures octets { around region.new out.new.items insertions.new ≡ around region.old out.old.items insertions.old }
    ensures opens { within region.new out.new.items insertions.new ≡ within region.old out.old.items insertions.old }
    ensures laid { IsLaid region.new (length out.new.items) insertions.new }
    ensures last { OnOk result ((region.new.end ≡ length out.new.items) × (region.new.last ≡ length insertions.new)) }
    ensures base { region.new.base ≡ region.old.base }
    ensures first { region.new.first ≡ region.old.first }
    ensures front { take region.old.first insertions.new ≡ take region.old.first insertions.old }
    ensures begun { region.new.first < region.new.last }
    ensures refused { IfErr result (λ k. k ≡ OutOfMemory) }
{
    if region.end == out.len() && region.last == insertions.len() {
        return Ok(());
    }
    let mut moved = *region;
    let mut list = std::mem::replace(&mut *insertions, Insertions::new(alloc));
    let answer = move_later(&mut moved, &mut list, out);
    *region = moved;
    *insertions = list;
    match answer {
        Ok(()) => Ok(()),
        Err(kind) => Err(kind),
    }
}

/// Exchanges the first `count` octets from `start` on, and those behind them.
fn exchange_within(start: usize, count: usize, octets: &mut [u8])
    requires { start + count ≤ length octets.old }
    ensures { octets.new ≡ take start octets.old ++ (drop count (drop start octets.old) ++ take count (drop start octets.old)) }
{
    let (_, tail) = octets.split_at_mut(start);
    tail.rotate_left(count);
}

fn exchange(start: usize, count: usize, out: &mut Vec<u8>)
    requires { start + count ≤ vec_len out.old }
    ensures { out.new.items ≡ take start out.old.items ++ (drop count (drop start out.old.items) ++ take count (drop start out.old.items)) }
{
    exchange_within(start, count, out.as_mut_slice());
}

/// The same where something was written behind the additions: both are joined, and change places.
#[inline(never)]
fn move_later(
    region: &mut Region,
    insertions: &mut Insertions,
    out: &mut Vec<u8>,
) -> Result<(), EncodeErrorKind>
    requires laid { IsLaid region.old (length out.old.items) insertions.old }
    requires begun { region.old.first < region.old.last }
    ensures octets { around region.new out.new.items insertions.new ≡ around region.old out.old.items insertions.old }
    ensures opens { within region.new out.new.items insertions.new ≡ within region.old out.old.items insertions.old }
    ensures laid { IsLaid region.new (length out.new.items) insertions.new }
    ensures last { OnOk result ((region.new.end ≡ length out.new.items) × (region.new.last ≡ length insertions.new)) }
    ensures base { region.new.base ≡ region.old.base }
    ensures first { region.new.first ≡ region.old.first }
    ensures front { take region.old.first insertions.new ≡ take region.old.first insertions.old }
    ensures begun { region.new.first < region.new.last }
    ensures refused { IfErr result (λ k. k ≡ OutOfMemory) }
{
    let behind = insertions.size_behind(region.opens + 1) - insertions.size_behind(region.last);
    let Some(count) = (region.end - region.start).checked_add(behind) else {
        return Err(EncodeErrorKind::OutOfMemory);
    };
    insertions.join_behind(region.opens + 1, out)?;
    exchange(region.start, count, out);
    let start = region.start + (out.len() - region.start - count);
    insertions.put_at(region.opens, start);
    *region = Region {
        base: region.base,
        first: region.first,
        start,
        opens: region.opens,
        end: out.len(),
        last: region.opens + 1,
    };
    Ok(())
}

/// Makes the region ready for an addition behind all that was written: for a first one it takes the bitmap's slot.
#[inline(always)]
pub(crate) fn begin(
    alloc: Global,
    region: &mut Region,
    insertions: &mut Insertions,
    out: &mut Vec<u8>,
) -> Result<(), EncodeErrorKind>
    requires { IsLaid region.old (length out.old.items) insertions.old }
    ensures octets { around region.new out.new.items insertions.new ≡ around region.old out.old.items insertions.old }
    ensures opens { within region.new out.new.items insertions.new ≡ within region.old out.old.items insertions.old }
    ensures laid { IsLaid region.new (length out.new.items) insertions.new }
    ensures last { OnOk result ((region.new.end ≡ length out.new.items) × (region.new.last ≡ length insertions.new)) }
    ensures base { region.new.base ≡ region.old.base }
    ensures first { region.new.first ≡ region.old.first }
    ensures front { take region.old.first insertions.new ≡ take region.old.first insertions.old }
    ensures begun { OnOk result (region.new.first < region.new.last) }
    ensures refused { IfErr result (λ k. k ≡ OutOfMemory) }
{
    if region.last != region.first {
        return settle(alloc, region, insertions, out);
    }
    let start = out.len();
    let opens = insertions.len();
    insertions.open(alloc, start)?;
    *region = Region {
        base: region.base,
        first: region.first,
        start,
        opens,
        end: start,
        last: insertions.len(),
    };
    Ok(())
}

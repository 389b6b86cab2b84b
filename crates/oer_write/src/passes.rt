//! The pass from the rear: octets and insertions are moved to their places in an output that has grown to its full length.
ghost use Rattle.std.specs.Prelude.{◌≡◌, ℕ, ◌+◌, ◌-◌, ◌^◌, ◌<◌, ◌≤◌, List, [], ◌∷◌, ◌++◌, length, take, drop, map, vec_len, OnOk, IfOk, IfErr};
ghost use Rattle.asn1_core.specs.Numbers.{low_octets};
ghost use Rattle.asn1_core.specs.declared.error.EncodeErrorKind.TheVariants.{OutOfMemory};
ghost use Rattle.oer_write.specs.Layout.{Piece, spread, total, Ascends};
ghost use Rattle.oer_write.specs.Inserted.{AreThere, IsThere, Passed, counts, octets_in, piece};

use crate::bits::Packed;
use crate::slots::Insertion;
use asn1_core::EncodeErrorKind;

/// Segments of up to so many octets are moved one by one.
const SHORT: usize = 8;

/// How many octets the insertions behind the first have.
pub(crate) fn size_behind(insertions: &[Insertion], count: usize) -> usize
    requires { counts insertions.now < 2 ^ 64 }
    ensures { result ≡ counts (drop count insertions.now) }
{
    let mut left = insertions.len();
    let mut size: usize = 0;
    while left > count {
        left -= 1;
        size += insertions[left].count;
    }
    size
}

/// Puts at most one octet at a place where no others are to be put.
#[inline(always)]
pub(crate) fn put_alone(
    start: usize,
    octets: Packed,
    output: &mut Vec<u8>,
) -> Result<(), EncodeErrorKind>
    requires few { octets.octets < 2 }
    requires start { start ≤ vec_len output.old }
    ensures done { OnOk result (output.new.items ≡ take start output.old.items ++ (low_octets octets.octets octets.number ++ drop start output.old.items)) }
    ensures refused { IfErr result (λ k. (k ≡ OutOfMemory) × (output.new.items ≡ output.old.items)) }
{
    if octets.octets == 0 {
        return Ok(());
    }
    match output.insert(start, (octets.number % 256) as u8) {
        Ok(()) => Ok(()),
        Err(_) => Err(EncodeErrorKind::OutOfMemory),
    }
}

/// Lets the output grow to its full length, and puts the insertions and the octets at `start` where they belong.
#[inline(never)]
pub(crate) fn join_all(
    insertions: &[Insertion],
    inserted: usize,
    long: &[u8],
    start: usize,
    octets: Packed,
    output: &mut Vec<u8>,
) -> Result<(), EncodeErrorKind>
    requires counted { inserted ≡ counts insertions.now }
    requires there { AreThere (length long.now) insertions.now }
    requires ascends { Ascends start (map (piece long.now) insertions.now) (length output.old.items) }
    ensures done { OnOk result (output.new.items ≡ take start output.old.items ++ (low_octets octets.octets octets.number ++ spread start output.old.items (map (piece long.now) insertions.now))) }
    ensures refused { IfErr result (λ k. (k ≡ OutOfMemory) × (output.new.items ≡ output.old.items)) }
{
    let (read, write) = spread_all(insertions, inserted, long, octets.octets, &mut *output)?;
    put_own(start, octets, read, write, output.as_mut_slice());
    Ok(())
}

/// The same with octets of any number.
pub(crate) fn join_all_long(
    insertions: &[Insertion],
    inserted: usize,
    long: &[u8],
    start: usize,
    octets: &[u8],
    output: &mut Vec<u8>,
) -> Result<(), EncodeErrorKind>
    requires counted { inserted ≡ counts insertions.now }
    requires there { AreThere (length long.now) insertions.now }
    requires ascends { Ascends start (map (piece long.now) insertions.now) (length output.old.items) }
    ensures done { OnOk result (output.new.items ≡ take start output.old.items ++ (octets.now ++ spread start output.old.items (map (piece long.now) insertions.now))) }
    ensures refused { IfErr result (λ k. (k ≡ OutOfMemory) × (output.new.items ≡ output.old.items)) }
{
    let (read, write) = spread_all(insertions, inserted, long, octets.len(), &mut *output)?;
    put_own_long(start, octets, read, write, output.as_mut_slice());
    Ok(())
}

/// Lets the output grow by the insertions and as many octets more, and puts the insertions where they belong; answers up to
/// where octets are left to be moved, and whereto.
#[inline(always)]
pub(crate) fn spread_all(
    insertions: &[Insertion],
    inserted: usize,
    long: &[u8],
    more: usize,
    output: &mut Vec<u8>,
) -> Result<(usize, usize), EncodeErrorKind>
    requires counted { inserted ≡ counts insertions.now }
    requires there { AreThere (length long.now) insertions.now }
    requires ascends { (start : ℕ) × Ascends start (map (piece long.now) insertions.now) (length output.old.items) }
    ensures done { IfOk result (λ at. (start : ℕ) → Ascends start (map (piece long.now) insertions.now) (length output.old.items) → Passed start output.old.items output.new.items (map (piece long.now) insertions.now) more 0 at.0 at.1 (length output.new.items)) }
    ensures refused { IfErr result (λ k. (k ≡ OutOfMemory) × (output.new.items ≡ output.old.items)) }
{
    let written = output.len();
    let Some(all) = inserted.checked_add(more) else {
        return Err(EncodeErrorKind::OutOfMemory);
    };
    let Some(full) = written.checked_add(all) else {
        return Err(EncodeErrorKind::OutOfMemory);
    };
    output.resize(full, 0)?;
    Ok(spread_out(insertions, long, written, more, output.as_mut_slice()))
}

/// One pass from the rear over an output that has grown to its full length; answers what is left to be moved, and whereto.
#[inline(always)]
fn spread_out(
    insertions: &[Insertion],
    long: &[u8],
    written: usize,
    more: usize,
    output: &mut [u8],
) -> (usize, usize)
    requires there { AreThere (length long.now) insertions.now }
    requires full { length output.old ≡ written + (total (map (piece long.now) insertions.now) + more) }
    requires ascends { (start : ℕ) × Ascends start (map (piece long.now) insertions.now) written }
    ensures passed { (start : ℕ) → Ascends start (map (piece long.now) insertions.now) written → Passed start (take written output.old) output.new (map (piece long.now) insertions.now) more 0 result.0 result.1 (length output.old) }
{
    let mut left = insertions.len();
    let mut read = written;
    let mut write = output.len();
    while left > 0 {
        left -= 1;
        let insertion = insertions[left];
        write = put_one(insertion, long, read, write, output);
        read = insertion.place;
    }
    (read, write)
}

/// Moves the octets from an insertion's place to `read` so that they end at `write`, and puts its octets in front; answers
/// where these begin.
#[inline(always)]
fn put_one(insertion: Insertion, long: &[u8], read: usize, write: usize, output: &mut [u8]) -> usize
    requires there { IsThere (length long.now) insertion }
    requires ascends { insertion.place ≤ read }
    requires room { read + insertion.count ≤ write }
    requires within { write ≤ length output.old }
    ensures begins { result + (insertion.count + (read - insertion.place)) ≡ write }
    ensures len { length output.new ≡ length output.old }
    ensures front { take insertion.place output.new ≡ take insertion.place output.old }
    ensures rear { drop result output.new ≡ octets_in long.now insertion ++ (take (read - insertion.place) (drop insertion.place output.old) ++ drop write output.old) }
{
    let end = move_up(insertion.place, read, write, &mut *output);
    put_insertion(insertion, long, end, output)
}

/// The same with octets as a number.
#[inline(always)]
fn put_own(place: usize, octets: Packed, read: usize, write: usize, output: &mut [u8]) -> usize
    requires ascends { place ≤ read }
    requires room { read + octets.octets ≤ write }
    requires within { write ≤ length output.old }
    ensures begins { result + (octets.octets + (read - place)) ≡ write }
    ensures len { length output.new ≡ length output.old }
    ensures front { take place output.new ≡ take place output.old }
    ensures rear { drop result output.new ≡ low_octets octets.octets octets.number ++ (take (read - place) (drop place output.old) ++ drop write output.old) }
{
    let end = move_up(place, read, write, &mut *output);
    put_number(octets.number, octets.octets, end, output)
}

/// The same with any octets.
fn put_own_long(place: usize, octets: &[u8], read: usize, write: usize, output: &mut [u8]) -> usize
    requires ascends { place ≤ read }
    requires room { read + length octets.now ≤ write }
    requires within { write ≤ length output.old }
    ensures begins { result + (length octets.now + (read - place)) ≡ write }
    ensures len { length output.new ≡ length output.old }
    ensures front { take place output.new ≡ take place output.old }
    ensures rear { drop result output.new ≡ octets.now ++ (take (read - place) (drop place output.old) ++ drop write output.old) }
{
    let end = move_up(place, read, write, &mut *output);
    put_octets(octets, end, output)
}

/// Moves the octets from `place` to `read` so that they end at `write`; answers where they begin.
#[inline(always)]
fn move_up(place: usize, read: usize, write: usize, output: &mut [u8]) -> usize
    requires ascends { place ≤ read }
    requires room { read ≤ write }
    requires within { write ≤ length output.old }
    ensures begins { result + (read - place) ≡ write }
    ensures len { length output.new ≡ length output.old }
    ensures front { take result output.new ≡ take result output.old }
    ensures rear { drop result output.new ≡ take (read - place) (drop place output.old) ++ drop write output.old }
{
    if read - place > SHORT {
        return move_many(place, read, write, output);
    }
    move_few(place, read, write, output)
}

#[inline(always)]
fn move_many(place: usize, read: usize, write: usize, output: &mut [u8]) -> usize
    requires ascends { place ≤ read }
    requires room { read ≤ write }
    requires within { write ≤ length output.old }
    ensures begins { result + (read - place) ≡ write }
    ensures len { length output.new ≡ length output.old }
    ensures front { take result output.new ≡ take result output.old }
    ensures rear { drop result output.new ≡ take (read - place) (drop place output.old) ++ drop write output.old }
{
    let moved = write - (read - place);
    output.copy_within(place..read, moved);
    moved
}

#[inline(always)]
fn move_few(place: usize, read: usize, write: usize, output: &mut [u8]) -> usize
    requires ascends { place ≤ read }
    requires room { read ≤ write }
    requires within { write ≤ length output.old }
    ensures begins { result + (read - place) ≡ write }
    ensures len { length output.new ≡ length output.old }
    ensures front { take result output.new ≡ take result output.old }
    ensures rear { drop result output.new ≡ take (read - place) (drop place output.old) ++ drop write output.old }
{
    let mut from = read;
    let mut to = write;
    while from > place {
        from -= 1;
        to -= 1;
        output[to] = output[from];
    }
    to
}

/// Puts an insertion's octets so that they end at `write`; answers where they begin.
#[inline(always)]
fn put_insertion(insertion: Insertion, long: &[u8], write: usize, output: &mut [u8]) -> usize
    requires there { IsThere (length long.now) insertion }
    requires room { insertion.count ≤ write }
    requires within { write ≤ length output.old }
    ensures begins { result + insertion.count ≡ write }
    ensures len { length output.new ≡ length output.old }
    ensures front { take result output.new ≡ take result output.old }
    ensures rear { drop result output.new ≡ octets_in long.now insertion ++ drop write output.old }
{
    if insertion.count > 8 {
        return put_long(insertion, long, write, output);
    }
    put_number(insertion.number, insertion.count, write, output)
}

#[inline(never)]
fn put_long(insertion: Insertion, long: &[u8], write: usize, output: &mut [u8]) -> usize
    requires there { insertion.number + insertion.count ≤ length long.now }
    requires room { insertion.count ≤ write }
    requires within { write ≤ length output.old }
    ensures begins { result + insertion.count ≡ write }
    ensures len { length output.new ≡ length output.old }
    ensures front { take result output.new ≡ take result output.old }
    ensures rear { drop result output.new ≡ take insertion.count (drop insertion.number long.now) ++ drop write output.old }
{
    let begins = insertion.number as usize;
    put_octets(&long[begins..begins + insertion.count], write, output)
}

/// Puts octets so that they end at `write`; answers where they begin.
fn put_octets(octets: &[u8], write: usize, output: &mut [u8]) -> usize
    requires room { length octets.now ≤ write }
    requires within { write ≤ length output.old }
    ensures begins { result + length octets.now ≡ write }
    ensures len { length output.new ≡ length output.old }
    ensures front { take result output.new ≡ take result output.old }
    ensures rear { drop result output.new ≡ octets.now ++ drop write output.old }
{
    let begins = write - octets.len();
    output[begins..write].copy_from_slice(octets);
    begins
}

/// Puts the lowest octets of a number so that they end at `write`; answers where they begin.
#[inline(always)]
fn put_number(number: u64, count: usize, write: usize, output: &mut [u8]) -> usize
    requires room { count ≤ write }
    requires within { write ≤ length output.old }
    ensures begins { result + count ≡ write }
    ensures len { length output.new ≡ length output.old }
    ensures front { take result output.new ≡ take result output.old }
    ensures rear { drop result output.new ≡ low_octets count number ++ drop write output.old }
{
    let mut rest = number;
    let mut left = count;
    let mut to = write;
    while left > 0 {
        left -= 1;
        to -= 1;
        output[to] = (rest % 256) as u8;
        rest /= 256;
    }
    to
}

//! Octets that belong at places of the output: they are put there as the outermost scope closes.
ghost use Rattle.std.specs.Prelude.{◌≡◌, ℕ, ◌+◌, ◌-◌, ◌^◌, ◌<◌, ◌≤◌, List, [], ◌∷◌, ◌++◌, length, take, drop, map, vec_len, OnOk, IfOk, IfErr};
ghost use Rattle.asn1_core.specs.Numbers.{low_octets};
ghost use Rattle.asn1_core.specs.declared.error.EncodeErrorKind.TheVariants.{OutOfMemory};
ghost use Rattle.oer_write.specs.Layout.{Piece, spread, total, Ascends, filled, free_at};
ghost use Rattle.oer_write.specs.Inserted.{piece};

use crate::bits::Packed;
use crate::long::LongOctets;
use crate::passes::{join_all, join_all_long, put_alone, size_behind, spread_all};
use crate::slots::{Insertion, Slots, more_room};
use asn1_core::EncodeErrorKind;
use std::alloc::Global;
use std::marker::Model;

/// Insertions, in order of place.
#[derive(Drop)]
pub(crate) struct Insertions {
    slots: Slots,
    /// How many octets they have.
    inserted: usize,
    /// The octets of insertions that have more than eight.
    long: LongOctets,
}

impl Model for Insertions {
    ghost use Rattle.std.specs.Prelude.{List};
    ghost use Rattle.oer_write.specs.Layout.{Piece};

    ghost Value = { List Piece };

    ghost use Rattle.oer_write.specs.Inserted.{pieces, AreCounted};

    ghost view = { pieces };

    ghost invariant = { AreCounted };
}

/// Room for octets where so many slots grow into more.
#[inline(never)]
fn make_room(slots: usize, output: &mut Vec<u8>) -> Result<(), EncodeErrorKind>
    ensures unchanged { output.new.items ≡ output.old.items }
    ensures refused { IfErr result (λ k. k ≡ OutOfMemory) }
{
    output.reserve(more_room(slots))?;
    Ok(())
}

impl Insertions {
    /// No insertions. Takes no memory.
    #[inline(always)]
    pub(crate) fn new(alloc: Global) -> Insertions
        ensures { result ≡ [] }
    {
        Insertions {
            slots: Slots::new(),
            inserted: 0,
            long: LongOctets::new(),
        }
    }

    /// How many insertions there are.
    #[inline(always)]
    pub(crate) fn len(&self) -> usize
        ensures { result ≡ length self.now }
    {
        self.slots.len()
    }

    /// How many octets they have.
    #[inline(always)]
    pub(crate) fn inserted(&self) -> usize
        ensures { result ≡ total self.now }
    {
        self.inserted
    }

    /// Takes a slot for octets that belong at the place.
    #[inline(always)]
    pub(crate) fn open(&mut self, alloc: Global, place: usize) -> Result<(), EncodeErrorKind>
        ensures done { OnOk result (self.new ≡ self.old ++ (free_at place ∷ [])) }
        ensures refused { IfErr result (λ k. (k ≡ OutOfMemory) × (self.new ≡ self.old)) }
    {
        let insertion = Insertion {
            place,
            count: 0,
            number: 0,
        };
        self.slots.push(alloc, insertion)
    }

    /// Takes a slot behind the octets. Where the list grows, so does the room for octets: each slot stands for some.
    #[inline(always)]
    pub(crate) fn open_behind(
        &mut self,
        alloc: Global,
        output: &mut Vec<u8>,
    ) -> Result<(), EncodeErrorKind>
        ensures done { OnOk result (self.new ≡ self.old ++ (free_at (length output.old.items) ∷ [])) }
        ensures refused { IfErr result (λ k. (k ≡ OutOfMemory) × (self.new ≡ self.old)) }
        ensures unchanged { output.new.items ≡ output.old.items }
    {
        if self.slots.is_full() {
            make_room(self.slots.len(), output)?;
        }
        self.open(alloc, output.len())
    }

    /// Fills a free slot.
    #[inline(always)]
    pub(crate) fn fill(&mut self, slot: usize, octets: Packed) -> Result<(), EncodeErrorKind>
        requires few { octets.octets ≤ 8 }
        requires free { (front rear : List Piece) × (n : ℕ) × (self.old ≡ front ++ free_at n ∷ rear) × (slot ≡ length front) }
        ensures done { OnOk result (self.new ≡ filled self.old slot (low_octets octets.octets octets.number)) }
        ensures refused { IfErr result (λ k. (k ≡ OutOfMemory) × (self.new ≡ self.old)) }
    {
        let Some(inserted) = self.inserted.checked_add(octets.octets) else {
            return Err(EncodeErrorKind::OutOfMemory);
        };
        let place = self.slots.get(slot).place;
        let insertion = Insertion {
            place,
            count: octets.octets,
            number: octets.number,
        };
        self.slots.set(slot, insertion);
        self.inserted = inserted;
        Ok(())
    }

    /// Fills a free slot with more than eight octets.
    #[inline(never)]
    pub(crate) fn fill_long(
        &mut self,
        alloc: Global,
        slot: usize,
        octets: &[u8],
    ) -> Result<(), EncodeErrorKind>
        requires many { 8 < length octets.now }
        requires free { (front rear : List Piece) × (n : ℕ) × (self.old ≡ front ++ free_at n ∷ rear) × (slot ≡ length front) }
        ensures done { OnOk result (self.new ≡ filled self.old slot octets.now) }
        ensures refused { IfErr result (λ k. (k ≡ OutOfMemory) × (self.new ≡ self.old)) }
    {
        let Some(inserted) = self.inserted.checked_add(octets.len()) else {
            return Err(EncodeErrorKind::OutOfMemory);
        };
        let begins = self.long.len();
        self.long.append(alloc, octets)?;
        let place = self.slots.get(slot).place;
        let insertion = Insertion {
            place,
            count: octets.len(),
            number: begins as u64,
        };
        self.slots.set(slot, insertion);
        self.inserted = inserted;
        Ok(())
    }

    /// Keeps the first insertions alone.
    #[inline(never)]
    pub(crate) fn cut(&mut self, count: usize)
        ensures { self.new ≡ take count self.old }
    {
        let dropped = self.size_behind(count);
        self.slots.truncate(count);
        self.inserted -= dropped;
    }

    /// The list is lent to a call out of line, and what holds it isn't.
    #[inline(always)]
    pub(crate) fn cut_apart(&mut self, alloc: Global, count: usize)
        ensures { self.new ≡ take count self.old }
    {
        let mut list = std::mem::replace(&mut *self, Insertions::new(alloc));
        list.cut(count);
        *self = list;
    }

    /// Fills a free slot with more than eight octets; the list is lent.
    #[inline(always)]
    pub(crate) fn fill_apart(
        &mut self,
        alloc: Global,
        slot: usize,
        octets: &[u8],
    ) -> Result<(), EncodeErrorKind>
        requires many { 8 < length octets.now }
        requires free { (front rear : List Piece) × (n : ℕ) × (self.old ≡ front ++ free_at n ∷ rear) × (slot ≡ length front) }
        ensures done { OnOk result (self.new ≡ filled self.old slot octets.now) }
        ensures refused { IfErr result (λ k. (k ≡ OutOfMemory) × (self.new ≡ self.old)) }
    {
        let mut list = std::mem::replace(&mut *self, Insertions::new(alloc));
        let answer = list.fill_long(alloc, slot, octets);
        *self = list;
        match answer {
            Ok(()) => Ok(()),
            Err(kind) => Err(kind),
        }
    }

    /// Puts octets of any number where they belong, and all insertions behind them; the list is lent.
    #[inline(always)]
    pub(crate) fn join_apart(
        &mut self,
        alloc: Global,
        start: usize,
        octets: &[u8],
        output: &mut Vec<u8>,
    ) -> Result<(), EncodeErrorKind>
        requires ascends { Ascends start self.old (length output.old.items) }
        ensures done { OnOk result (output.new.items ≡ take start output.old.items ++ (octets.now ++ spread start output.old.items self.old)) }
        ensures none { OnOk result (self.new ≡ []) }
        ensures refused { IfErr result (λ k. (k ≡ OutOfMemory) × (output.new.items ≡ output.old.items) × (self.new ≡ self.old)) }
    {
        let mut list = std::mem::replace(&mut *self, Insertions::new(alloc));
        let answer = list.join_long(start, octets, output);
        *self = list;
        match answer {
            Ok(()) => Ok(()),
            Err(kind) => Err(kind),
        }
    }

    /// How many octets the insertions behind the first have.
    pub(crate) fn size_behind(&self, count: usize) -> usize
        ensures { result ≡ total (drop count self.now) }
    {
        let _inserted = self.inserted;
        size_behind(self.slots.as_slice(), count)
    }

    /// Moves a slot to another place.
    pub(crate) fn put_at(&mut self, slot: usize, place: usize)
        requires slot { slot < length self.old }
        requires free { (front rear : List Piece) × (n : ℕ) × (self.old ≡ front ++ free_at n ∷ rear) × (slot ≡ length front) }
        ensures { (front rear : List Piece) (n : ℕ) → self.old ≡ front ++ free_at n ∷ rear → slot ≡ length front → self.new ≡ front ++ free_at place ∷ rear }
    {
        let old = self.slots.get(slot);
        let insertion = Insertion {
            place,
            count: old.count,
            number: old.number,
        };
        self.slots.set(slot, insertion);
    }

    /// Puts octets where they belong from `start` on, and all insertions behind them; none is left.
    ///
    /// The output grows once to its full length, and one pass from the rear moves octets and insertions. Refused for want of
    /// memory alone, with everything as before.
    #[inline(always)]
    pub(crate) fn join(
        &mut self,
        start: usize,
        octets: Packed,
        output: &mut Vec<u8>,
    ) -> Result<(), EncodeErrorKind>
        requires ascends { Ascends start self.old (length output.old.items) }
        ensures done { OnOk result (output.new.items ≡ take start output.old.items ++ (low_octets octets.octets octets.number ++ spread start output.old.items self.old)) }
        ensures none { OnOk result (self.new ≡ []) }
        ensures refused { IfErr result (λ k. (k ≡ OutOfMemory) × (output.new.items ≡ output.old.items) × (self.new ≡ self.old)) }
    {
        if self.slots.len() == 0 && octets.octets < 2 {
            return put_alone(start, octets, output);
        }
        self.join_some(start, octets, output)
    }

    #[inline(never)]
    fn join_some(
        &mut self,
        start: usize,
        octets: Packed,
        output: &mut Vec<u8>,
    ) -> Result<(), EncodeErrorKind>
        requires ascends { Ascends start self.old (length output.old.items) }
        ensures done { OnOk result (output.new.items ≡ take start output.old.items ++ (low_octets octets.octets octets.number ++ spread start output.old.items self.old)) }
        ensures none { OnOk result (self.new ≡ []) }
        ensures refused { IfErr result (λ k. (k ≡ OutOfMemory) × (output.new.items ≡ output.old.items) × (self.new ≡ self.old)) }
    {
        join_all(
            self.slots.as_slice(),
            self.inserted,
            self.long.as_slice(),
            start,
            octets,
            output,
        )?;
        self.clear();
        Ok(())
    }

    /// Leaves none.
    #[inline(always)]
    fn clear(&mut self)
        ensures { self.new ≡ [] }
    {
        self.slots.truncate(0);
        self.long.clear();
        self.inserted = 0;
    }

    /// The same with octets of any number.
    #[inline(never)]
    pub(crate) fn join_long(
        &mut self,
        start: usize,
        octets: &[u8],
        output: &mut Vec<u8>,
    ) -> Result<(), EncodeErrorKind>
        requires ascends { Ascends start self.old (length output.old.items) }
        ensures done { OnOk result (output.new.items ≡ take start output.old.items ++ (octets.now ++ spread start output.old.items self.old)) }
        ensures none { OnOk result (self.new ≡ []) }
        ensures refused { IfErr result (λ k. (k ≡ OutOfMemory) × (output.new.items ≡ output.old.items) × (self.new ≡ self.old)) }
    {
        join_all_long(
            self.slots.as_slice(),
            self.inserted,
            self.long.as_slice(),
            start,
            octets,
            output,
        )?;
        self.clear();
        Ok(())
    }

    /// Puts the insertions behind the first where they belong; the first stay in the list.
    pub(crate) fn join_behind(
        &mut self,
        count: usize,
        output: &mut Vec<u8>,
    ) -> Result<(), EncodeErrorKind>
        requires { (start : ℕ) × Ascends start (drop count self.old) (length output.old.items) }
        ensures done { (start : ℕ) → Ascends start (drop count self.old) (length output.old.items) → OnOk result (output.new.items ≡ take start output.old.items ++ spread start output.old.items (drop count self.old)) }
        ensures left { OnOk result (self.new ≡ take count self.old) }
        ensures refused { IfErr result (λ k. (k ≡ OutOfMemory) × (output.new.items ≡ output.old.items) × (self.new ≡ self.old)) }
    {
        let size = self.size_behind(count);
        let (_, rest) = self.slots.as_slice().split_at(count.min(self.slots.len()));
        spread_all(rest, size, self.long.as_slice(), 0, output)?;
        self.cut(count);
        Ok(())
    }
}

//! The insertions of a list, of which one alone takes no memory of its own.
ghost use Rattle.std.specs.Prelude.{◌≡◌, ℕ, ◌<◌, List, [], ◌∷◌, ◌++◌, length, take, set, get_or, OnOk, IfErr};
ghost use Rattle.asn1_core.specs.declared.error.EncodeErrorKind.TheVariants.{OutOfMemory};

use asn1_core::EncodeErrorKind;
use std::alloc::Global;
use std::marker::Model;

/// Octets that belong at a place of the output.
#[derive(Clone, Copy)]
pub(crate) struct Insertion {
    pub(crate) place: usize,
    /// How many octets there are.
    pub(crate) count: usize,
    /// Up to eight octets as a number; where there are more, where they begin among the long ones.
    pub(crate) number: u64,
}

/// No insertion, one, or those for which memory was asked.
#[derive(Drop)]
pub(crate) enum Held {
    Nothing,
    One(Insertion),
    Many(Vec<Insertion>),
}

/// Insertions one behind another.
#[derive(Drop)]
pub(crate) struct Slots {
    held: Held,
}

/// Room for so many insertions is asked for at once.
const ROOM: usize = 40;

/// Room for sixteen times as many is asked for where more come: few values have so many at once.
pub(crate) fn more_room(count: usize) -> usize {
    count.saturating_mul(15)
}

impl Model for Slots {
    ghost use Rattle.std.specs.Prelude.{List};
    ghost use Rattle.oer_write.specs.declared.slots.Insertion.{Insertion};

    ghost Value = { List Insertion };

    ghost use Rattle.oer_write.specs.Slotted.{slots_seen};

    ghost view = { slots_seen };
}

impl Slots {
    /// No insertions. Takes no memory.
    #[inline(always)]
    pub(crate) fn new() -> Slots
        ensures { result ≡ [] }
    {
        Slots {
            held: Held::Nothing,
        }
    }

    /// How many there are.
    #[inline(always)]
    pub(crate) fn len(&self) -> usize
        ensures { result ≡ length self.now }
    {
        match &self.held {
            Held::Nothing => 0,
            Held::One(_) => 1,
            Held::Many(items) => items.len(),
        }
    }

    /// Whether memory was asked for and none is left of it.
    #[inline(always)]
    pub(crate) fn is_full(&self) -> bool {
        match &self.held {
            Held::Nothing | Held::One(_) => false,
            Held::Many(items) => items.len() == items.capacity(),
        }
    }

    /// All of them.
    #[inline(always)]
    pub(crate) fn as_slice(&self) -> &[Insertion]
        ensures { result.now ≡ self.now }
    {
        match &self.held {
            Held::Nothing => &[],
            Held::One(only) => std::slice::from_ref(only),
            Held::Many(items) => items.as_slice(),
        }
    }

    /// Appends one.
    #[inline(always)]
    pub(crate) fn push(
        &mut self,
        alloc: Global,
        insertion: Insertion,
    ) -> Result<(), EncodeErrorKind>
        ensures done { OnOk result (self.new ≡ self.old ++ (insertion ∷ [])) }
        ensures refused { IfErr result (λ k. (k ≡ OutOfMemory) × (self.new ≡ self.old)) }
    {
        if let Held::Nothing = &self.held {
            self.held = Held::One(insertion);
            return Ok(());
        }
        if let Held::Many(items) = &mut self.held {
            if items.len() < items.capacity() {
                items.push_reserved(insertion);
                return Ok(());
            }
        }
        self.push_apart(alloc, insertion)
    }

    /// The list is lent to a call out of line, and what holds it isn't.
    #[inline(always)]
    fn push_apart(&mut self, alloc: Global, insertion: Insertion) -> Result<(), EncodeErrorKind>
        ensures done { OnOk result (self.new ≡ self.old ++ (insertion ∷ [])) }
        ensures refused { IfErr result (λ k. (k ≡ OutOfMemory) × (self.new ≡ self.old)) }
    {
        let mut list = std::mem::replace(&mut *self, Slots::new());
        let answer = list.push_behind(alloc, insertion);
        *self = list;
        match answer {
            Ok(()) => Ok(()),
            Err(kind) => Err(kind),
        }
    }

    /// Appends one where there is no room for it.
    #[inline(never)]
    fn push_behind(&mut self, alloc: Global, insertion: Insertion) -> Result<(), EncodeErrorKind>
        ensures done { OnOk result (self.new ≡ self.old ++ (insertion ∷ [])) }
        ensures refused { IfErr result (λ k. (k ≡ OutOfMemory) × (self.new ≡ self.old)) }
    {
        match &mut self.held {
            Held::Nothing => self.held = Held::One(insertion),
            Held::One(first) => {
                let mut items = Vec::new(alloc);
                items.reserve(ROOM)?;
                items.push_reserved(*first);
                items.push_reserved(insertion);
                self.held = Held::Many(items);
            }
            Held::Many(items) => {
                items.reserve(more_room(items.len()).max(ROOM))?;
                items.push_reserved(insertion);
            }
        }
        Ok(())
    }

    /// The one of that number.
    #[inline(always)]
    pub(crate) fn get(&self, slot: usize) -> Insertion
        requires { slot < length self.now }
        ensures { result ≡ get_or self.now slot result }
    {
        match &self.held {
            Held::One(only) => *only,
            _ => self.as_slice()[slot],
        }
    }

    /// Puts another in its place.
    #[inline(always)]
    pub(crate) fn set(&mut self, slot: usize, insertion: Insertion)
        requires { slot < length self.old }
        ensures { self.new ≡ set self.old slot insertion }
    {
        match &mut self.held {
            Held::Nothing => {}
            Held::One(only) => *only = insertion,
            Held::Many(items) => items[slot] = insertion,
        }
    }

    /// Keeps the first `count` alone.
    #[inline(always)]
    pub(crate) fn truncate(&mut self, count: usize)
        ensures { self.new ≡ take count self.old }
    {
        match &mut self.held {
            Held::Nothing => {}
            Held::One(_) => {
                if count == 0 {
                    self.held = Held::Nothing;
                }
            }
            Held::Many(items) => items.truncate(count),
        }
    }
}

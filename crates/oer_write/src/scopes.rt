//! The open scope: what is recorded in it, and how it is opened and closed.
ghost use Rattle.std.specs.Prelude.{◌≡◌, ◌<◌, ◌≤◌, ◌++◌, take, [], true, false, length, OnOk, IfOk, IfErr, ℕ, ◌∷◌, ◌+◌, ◌&&◌, not, List};
ghost use Rattle.std.specs.Fn.{FnOnceTakesAtMut};
ghost use Rattle.asn1_core.specs.Octets.{Octets, pack};
ghost use Rattle.asn1_core.specs.declared.error.EncodeErrorKind.TheVariants.{OutOfMemory};
ghost use Rattle.oer_spec.specs.Writing.{AppendsOrMemory};
ghost use Rattle.oer_write.specs.Scopes.{Promise, any_true, extension_of};
ghost use Rattle.oer_write.specs.Layout.{Adds, slots, Piece, filled, free_at};
ghost use Rattle.asn1_core.specs.Numbers.{low_octets};
ghost use Rattle.oer_write.specs.Preambles.{IsSized, preamble_octets};
ghost use Rattle.oer_write.specs.Seen.{IsLaid, region_at};
ghost use Rattle.oer_write.specs.Written.{Written, Keeps};
ghost use Rattle.oer_spec.specs.Lengths.{counted_bits};
ghost use Rattle.oer_spec.specs.Places.{extension_bit};
ghost use Rattle.oer_write.specs.Bits.{low_bits};
ghost use Rattle.oer_write.specs.Closed.{ClosedOff, FrontLeft};

use crate::bits::{Bits, LentBits, Packed, Spelled, append_packed, spell_lent};
use crate::component::Components;
use crate::encoder::Encoder;
use crate::insertions::Insertions;
use crate::region::{Region, begin};
use asn1_core::{EncodeError, EncodeErrorKind};
use oer_leaf_write::{write_bitmap, write_preamble};
use std::alloc::Global;

/// The extension bit and the presence bits of a sequence, in whole octets.
#[derive(Drop)]
pub(crate) enum Preamble {
    /// At most eight octets.
    Few(Packed),
    Many(Vec<u8>),
}

/// What was recorded in a scope so far.
#[derive(Drop)]
pub(crate) struct Scope {
    pub(crate) is_open: bool,
    pub(crate) is_set: bool,
    pub(crate) extensible: bool,
    /// A sequence's presence bits.
    pub(crate) presence: Bits,
    /// A set's root components, in the order handed in.
    pub(crate) components: Components,
    /// For each addition whether it is present.
    pub(crate) bitmap: Bits,
    /// Where it begins, and where a sequence's additions lie in the output.
    pub(crate) region: Region,
    /// The open types of the additions that are present, where no sequence is open.
    pub(crate) opens: Vec<u8>,
}

impl Scope {
    /// An open scope in which nothing was recorded.
    #[inline(always)]
    pub(crate) fn open(
        alloc: Global,
        is_set: bool,
        extensible: bool,
        start: usize,
        first: usize,
    ) -> Scope
        ensures is_open { result.is_open ≡ true }
        ensures is_set { result.is_set ≡ is_set }
        ensures extensible { result.extensible ≡ extensible }
        ensures presence { result.presence ≡ [] }
        ensures components { result.components ≡ [] }
        ensures bitmap { result.bitmap ≡ [] }
        ensures region { result.region ≡ region_at start first }
        ensures opens { result.opens.items ≡ [] }
    {
        Scope {
            is_open: true,
            is_set,
            extensible,
            presence: Bits::new(alloc),
            components: Components::new(alloc),
            bitmap: Bits::new(alloc),
            region: Region::at(start, first),
            opens: Vec::new(alloc),
        }
    }

    /// Where no scope is open.
    #[inline(always)]
    pub(crate) fn none(alloc: Global, start: usize, first: usize) -> Scope
        ensures is_open { result.is_open ≡ false }
        ensures is_set { result.is_set ≡ false }
        ensures extensible { result.extensible ≡ false }
        ensures presence { result.presence ≡ [] }
        ensures components { result.components ≡ [] }
        ensures bitmap { result.bitmap ≡ [] }
        ensures region { result.region ≡ region_at start first }
        ensures opens { result.opens.items ≡ [] }
    {
        Scope {
            is_open: false,
            is_set: false,
            extensible: false,
            presence: Bits::new(alloc),
            components: Components::new(alloc),
            bitmap: Bits::new(alloc),
            region: Region::at(start, first),
            opens: Vec::new(alloc),
        }
    }

    /// Whether it is an open sequence: its additions lie in the output.
    #[inline(always)]
    pub(crate) fn is_sequence(&self) -> bool
        ensures { result ≡ (self.now.is_open && not self.now.is_set) }
    {
        self.is_open && !self.is_set
    }

    /// Closes the additions of a sequence, and answers its preamble.
    #[inline(always)]
    pub(crate) fn close_sequence(
        &self,
        alloc: Global,
        out: &mut Vec<u8>,
        insertions: &mut Insertions,
    ) -> Result<Preamble, EncodeErrorKind>
        requires { IsLaid self.now.region (length out.old.items) insertions.old }
        ensures preamble { IfOk result (λ p. IsSized p × (preamble_octets p ≡ pack (extension_bit self.now.extensible (any_true self.now.bitmap) ++ self.now.presence))) }
        ensures done { OnOk result (ClosedOff self.now.region self.now.bitmap out.old.items insertions.old out.new.items insertions.new) }
        ensures refused { IfErr result (λ k. (k ≡ OutOfMemory) × FrontLeft self.now.region out.old.items insertions.old out.new.items insertions.new) }
    {
        self.close_additions(alloc, &mut *out, &mut *insertions)?;
        self.preamble(alloc)
    }

    /// Fills the bitmap's slot, or where no addition is present cuts all of them off.
    #[inline(always)]
    fn close_additions(
        &self,
        alloc: Global,
        out: &mut Vec<u8>,
        insertions: &mut Insertions,
    ) -> Result<(), EncodeErrorKind>
        requires { IsLaid self.now.region (length out.old.items) insertions.old }
        ensures done { OnOk result (ClosedOff self.now.region self.now.bitmap out.old.items insertions.old out.new.items insertions.new) }
        ensures refused { IfErr result (λ k. (k ≡ OutOfMemory) × FrontLeft self.now.region out.old.items insertions.old out.new.items insertions.new) }
    {
        let mut region = self.region;
        if self.bitmap.any() {
            begin(alloc, &mut region, &mut *insertions, &mut *out)?;
            return self.fill_bitmap(alloc, region.opens, insertions);
        }
        if region.last != region.first {
            begin(alloc, &mut region, &mut *insertions, &mut *out)?;
            out.truncate(region.start);
            insertions.cut_apart(alloc, region.opens);
        }
        Ok(())
    }

    /// Fills the bitmap's slot.
    #[inline(always)]
    fn fill_bitmap(
        &self,
        alloc: Global,
        slot: usize,
        insertions: &mut Insertions,
    ) -> Result<(), EncodeErrorKind>
        requires free { (front rear : List Piece) × (n : ℕ) × (insertions.old ≡ front ++ free_at n ∷ rear) × (slot ≡ length front) }
        ensures done { OnOk result (insertions.new ≡ filled insertions.old slot (counted_bits self.now.bitmap)) }
        ensures refused { IfErr result (λ k. (k ≡ OutOfMemory) × (insertions.new ≡ insertions.old)) }
    {
        match self.bitmap.mapped() {
            Some(packed) => insertions.fill(slot, packed),
            None => self.fill_long_bitmap(alloc, slot, insertions),
        }
    }

    /// Fills the slot of a bitmap of more than eight octets.
    #[inline(always)]
    fn fill_long_bitmap(
        &self,
        alloc: Global,
        slot: usize,
        insertions: &mut Insertions,
    ) -> Result<(), EncodeErrorKind>
        requires many { 48 < length self.now.bitmap }
        requires free { (front rear : List Piece) × (n : ℕ) × (insertions.old ≡ front ++ free_at n ∷ rear) × (slot ≡ length front) }
        ensures done { OnOk result (insertions.new ≡ filled insertions.old slot (counted_bits self.now.bitmap)) }
        ensures refused { IfErr result (λ k. (k ≡ OutOfMemory) × (insertions.new ≡ insertions.old)) }
    {
        let octets = mapped_octets(alloc, self.bitmap.lent())?;
        insertions.fill_apart(alloc, slot, octets.as_slice())
    }

    /// The extension bit and the presence bits, in whole octets (X.696, 16.2).
    #[inline(always)]
    fn preamble(&self, alloc: Global) -> Result<Preamble, EncodeErrorKind>
        ensures preamble { IfOk result (λ p. IsSized p × (preamble_octets p ≡ pack (extension_bit self.now.extensible (any_true self.now.bitmap) ++ self.now.presence))) }
        ensures refused { IfErr result (λ k. k ≡ OutOfMemory) }
    {
        let extended = self.bitmap.any();
        match self.presence.packed(self.extensible, extended) {
            Some(packed) => Ok(Preamble::Few(packed)),
            None => long_preamble(alloc, self.extensible, extended, self.presence.lent()),
        }
    }

    /// Writes the extension bit and the presence bits, in whole octets (X.696, 16.2).
    pub(crate) fn write_preamble(
        &self,
        alloc: Global,
        presence: &Bits,
        out: &mut Vec<u8>,
    ) -> Result<(), EncodeErrorKind>
        ensures { AppendsOrMemory result (pack (extension_bit self.now.extensible (any_true self.now.bitmap) ++ presence.now)) out.old.items out.new.items }
    {
        let extended = self.bitmap.any();
        match presence.packed(self.extensible, extended) {
            Some(packed) => append_packed(packed, out),
            None => spell_preamble(alloc, self.extensible, extended, presence.lent(), out),
        }
    }

    /// Writes the bitmap and the open types that lie apart, where some addition is present (X.696, 16.4 and 16.5).
    pub(crate) fn write_extension(
        &self,
        alloc: Global,
        out: &mut Vec<u8>,
    ) -> Result<(), EncodeErrorKind>
        ensures { AppendsOrMemory result (extension_of self.now.bitmap self.now.opens.items) out.old.items out.new.items }
    {
        if !self.bitmap.any() {
            return Ok(());
        }
        write_mapped(alloc, self.bitmap.lent(), out)?;
        out.extend_from_slice(&self.opens)?;
        Ok(())
    }
}

/// The octets of a preamble that has more than eight.
#[inline(always)]
fn long_preamble(
    alloc: Global,
    extensible: bool,
    extended: bool,
    presence: LentBits<'_>,
) -> Result<Preamble, EncodeErrorKind>
    requires many { 64 < length (extension_bit extensible extended ++ (low_bits presence.count presence.word ++ presence.more.now)) }
    ensures preamble { IfOk result (λ p. IsSized p × (preamble_octets p ≡ pack (extension_bit extensible extended ++ (low_bits presence.entry.count presence.entry.word ++ presence.entry.more.now)))) }
    ensures refused { IfErr result (λ k. k ≡ OutOfMemory) }
{
    let mut octets = Vec::new(alloc);
    match spell_preamble(alloc, extensible, extended, presence, &mut octets) {
        Ok(()) => Ok(Preamble::Many(octets)),
        Err(kind) => Err(kind),
    }
}

/// The extension bit and the presence bits bit by bit, for any number of bits.
#[inline(never)]
fn spell_preamble(
    alloc: Global,
    extensible: bool,
    extended: bool,
    presence: LentBits<'_>,
    out: &mut Vec<u8>,
) -> Result<(), EncodeErrorKind>
    ensures { AppendsOrMemory result (pack (extension_bit extensible extended ++ (low_bits presence.entry.count presence.entry.word ++ presence.entry.more.now))) out.old.items out.new.items }
{
    let mut bits = Spelled::new(alloc);
    if extensible {
        bits.push(extended)?;
    }
    spell_lent(presence, &mut bits)?;
    write_preamble(bits.as_slice(), out)
}

/// The octets of a bitmap.
#[inline(always)]
fn mapped_octets(alloc: Global, bitmap: LentBits<'_>) -> Result<Vec<u8>, EncodeErrorKind>
    ensures octets { IfOk result (λ o. o.items ≡ counted_bits (low_bits bitmap.entry.count bitmap.entry.word ++ bitmap.entry.more.now)) }
    ensures refused { IfErr result (λ k. k ≡ OutOfMemory) }
{
    let mut octets = Vec::new(alloc);
    match write_mapped(alloc, bitmap, &mut octets) {
        Ok(()) => Ok(octets),
        Err(kind) => Err(kind),
    }
}

/// Writes a bitmap.
#[inline(never)]
fn write_mapped(
    alloc: Global,
    bitmap: LentBits<'_>,
    out: &mut Vec<u8>,
) -> Result<(), EncodeErrorKind>
    ensures { AppendsOrMemory result (counted_bits (low_bits bitmap.entry.count bitmap.entry.word ++ bitmap.entry.more.now)) out.old.items out.new.items }
{
    let mut bits = Spelled::new(alloc);
    spell_lent(bitmap, &mut bits)?;
    write_bitmap(bits.as_slice(), out)
}

/// Room that an outermost scope asks for at once, so that the octets of a small value take one request for memory.
pub(crate) const ROOM: usize = 96;

/// Lends an encoder to a closure.
#[inline(always)]
pub(crate) fn lend<F: FnOnce(&mut Encoder<'_>) -> Result<(), EncodeError>>(
    encoder: &mut Encoder<'_>,
    f: F,
) -> Result<(), EncodeError>
    requires callable { FnOnceTakesAtMut F.FnOnce f encoder.old }
    requires orderly { (answer : _) (left : Written) → Promise F.FnOnce f encoder.old answer left → Keeps encoder.old left }
    ensures ran { Promise F.FnOnce f encoder.old result encoder.new }
    ensures keeps { Keeps encoder.old encoder.new }
{
    f(encoder)
}

/// Opens a scope: inside of another it takes a slot; else room for a small value is asked for.
#[inline(always)]
pub(crate) fn open_scope(
    alloc: Global,
    is_inside: bool,
    output: &mut Vec<u8>,
    insertions: &mut Insertions,
) -> Result<(), EncodeErrorKind>
    ensures done { OnOk result (insertions.new ≡ insertions.old ++ slots is_inside (length output.old.items)) }
    ensures refused { IfErr result (λ k. (k ≡ OutOfMemory) × (insertions.new ≡ insertions.old)) }
    ensures unchanged { output.new.items ≡ output.old.items }
{
    if is_inside {
        return insertions.open_behind(alloc, output);
    }
    output.reserve(ROOM)?;
    Ok(())
}

/// Closes a scope: what belongs in front of it fills its slot, or where it is the outermost is put there with all insertions.
#[inline(always)]
pub(crate) fn close_scope(
    is_inside: bool,
    start: usize,
    slot: usize,
    octets: Packed,
    output: &mut Vec<u8>,
    insertions: &mut Insertions,
) -> Result<(), EncodeErrorKind>
    requires few { octets.octets ≤ 8 }
    requires slot { slot ≤ length insertions.old }
    requires start { start ≤ length output.old.items }
    requires alone { is_inside ≡ false → slot ≡ 0 }
    requires adds { (content : Octets) × Adds content (take start output.old.items) (take slot insertions.old ++ slots is_inside start) output.old.items insertions.old }
    ensures done { (content : Octets) → Adds content (take start output.old.items) (take slot insertions.old ++ slots is_inside start) output.old.items insertions.old → OnOk result (Adds (low_octets octets.octets octets.number ++ content) (take start output.old.items) (take slot insertions.old) output.new.items insertions.new) }
    ensures refused { IfErr result (λ k. (k ≡ OutOfMemory) × (output.new.items ≡ output.old.items) × (insertions.new ≡ insertions.old)) }
    ensures alone { is_inside ≡ false → OnOk result (insertions.new ≡ []) }
{
    if is_inside {
        return insertions.fill(slot, octets);
    }
    insertions.join(start, octets, output)
}

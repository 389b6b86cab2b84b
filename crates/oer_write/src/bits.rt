//! Presence bits and bitmaps, of which the first 64 lie in one word.
ghost use Rattle.std.specs.Prelude.{◌≡◌, ◌+◌, ◌-◌, ◌*◌, ◌^◌, ◌<◌, ◌≤◌, [], ◌∷◌, ◌++◌, take, drop, length, vec_len, None, OnOk, IfErr, IfSome};
ghost use Rattle.asn1_core.specs.Numbers.{low_octets};
ghost use Rattle.asn1_core.specs.Octets.{octets_for, pack};
ghost use Rattle.oer_spec.specs.Lengths.{counted_bits};
ghost use Rattle.asn1_core.specs.declared.error.EncodeErrorKind.TheVariants.{OutOfMemory};
ghost use Rattle.oer_spec.specs.Places.{extension_bit};
ghost use Rattle.oer_spec.specs.Writing.{AppendsOrMemory};
ghost use Rattle.oer_write.specs.Bits.{low_bits, ArePacked};
ghost use Rattle.oer_write.specs.Scopes.{any_true};

use asn1_core::EncodeErrorKind;
use oer_spec::leaf::{octets_for, unused_for};
use smallvec::SmallVec;
use std::alloc::Global;
use std::marker::Model;

/// How many bits the word has room for.
const WORD: usize = 64;

/// The bitmap of so many additions has at most eight octets.
const MAPPED: usize = 48;

/// Bits one by one.
pub(crate) type Spelled = SmallVec<bool, 64>;

/// Presence bits or a bitmap: the first 64 take no memory of their own.
#[derive(Drop)]
pub(crate) struct Bits {
    /// The first bits, the last of them lowest.
    word: u64,
    /// How many bits the word has.
    count: usize,
    /// The bits behind the first 64.
    more: Vec<bool>,
}

impl Model for Bits {
    ghost use Rattle.std.specs.Prelude.{List, Bool};

    ghost Value = { List Bool };

    ghost use Rattle.oer_write.specs.Bits.{bits_seen, AreCounted};

    ghost view = { bits_seen };

    ghost invariant = { AreCounted };
}

/// Bits in whole octets, as the lowest octets of a number.
#[derive(Clone, Copy)]
pub(crate) struct Packed {
    pub(crate) number: u64,
    pub(crate) octets: usize,
}

/// A bit in front of the bits of a word.
#[inline(always)]
#[tactic(auto, using(crate::proofs::Words::first_set, crate::proofs::Words::first_unset))]
fn with_first(bit: bool, word: u64, count: usize) -> u64
    requires room { count < 64 }
    requires small { word < 2 ^ count }
    ensures bits { low_bits (count + 1) result ≡ bit ∷ low_bits count word }
    ensures small { result < 2 ^ (count + 1) }
{
    if bit { word + (1 << count) } else { word }
}

/// The bits of a word in whole octets, filled up with zero bits.
#[inline(always)]
#[tactic(auto, using(crate::proofs::Words::aligned_is, crate::proofs::Words::aligned_small))]
fn aligned(word: u64, count: usize) -> Packed
    requires room { count ≤ 64 }
    requires small { word < 2 ^ count }
    ensures packed { ArePacked result.octets result.number (low_bits count word) }
    ensures octets { result.octets ≡ octets_for count }
    ensures small { result.number < 256 ^ result.octets }
{
    let octets = octets_for(count);
    Packed {
        number: word << (octets * 8 - count),
        octets,
    }
}

/// Appends the bits of a word.
#[tactic(auto, using(crate::proofs::Words::spelled_more))]
fn spell(word: u64, count: usize, bits: &mut Spelled) -> Result<(), EncodeErrorKind>
    ensures done { OnOk result (bits.new.items ≡ bits.old.items ++ low_bits count word) }
    ensures refused { IfErr result (λ k. k ≡ OutOfMemory) }
{
    if count == 0 {
        return Ok(());
    }
    spell(word / 2, count - 1, bits)?;
    bits.push(word % 2 == 1)?;
    Ok(())
}

/// Whether some bit is set.
fn any(bits: &[bool]) -> bool
    ensures { result ≡ any_true bits.now }
{
    for bit in bits {
        if *bit {
            return true;
        }
    }
    false
}

impl Bits {
    /// No bits. Takes no memory.
    #[inline(always)]
    pub(crate) fn new(alloc: Global) -> Bits
        ensures { result ≡ [] }
    {
        Bits {
            word: 0,
            count: 0,
            more: Vec::new(alloc),
        }
    }

    /// How many bits there are.
    #[inline(always)]
    #[tactic(auto, using(crate::proofs::Words::length_all))]
    pub(crate) fn len(&self) -> usize
        ensures { result ≡ length self.now }
    {
        self.count + self.more.len()
    }

    /// Appends a bit; the bits behind the first 64 are lent to the call out of line, and the rest isn't.
    #[inline(always)]
    #[tactic(auto, using(crate::proofs::Words::pushed_set, crate::proofs::Words::pushed_unset))]
    pub(crate) fn push(&mut self, alloc: Global, bit: bool) -> Result<(), EncodeErrorKind>
        ensures done { OnOk result (self.new ≡ self.old ++ (bit ∷ [])) }
        ensures refused { IfErr result (λ k. k ≡ OutOfMemory) }
    {
        if self.count == WORD {
            let mut more = std::mem::replace(&mut self.more, Vec::new(alloc));
            let answer = more.push(bit);
            self.more = more;
            return match answer {
                Ok(()) => Ok(()),
                Err(_) => Err(EncodeErrorKind::OutOfMemory),
            };
        }
        self.word = if bit {
            self.word * 2 + 1
        } else {
            self.word * 2
        };
        self.count += 1;
        Ok(())
    }

    /// The bits as they are lent to a call out of line.
    #[inline(always)]
    pub(crate) fn lent(&self) -> LentBits<'_>
        ensures { low_bits result.count result.word ++ result.more.now ≡ self.now }
    {
        LentBits {
            word: self.word,
            count: self.count,
            more: self.more.as_slice(),
        }
    }

    /// Whether some bit is set.
    #[inline(always)]
    #[tactic(auto, using(crate::proofs::Words::any_some, crate::proofs::Words::any_none))]
    pub(crate) fn any(&self) -> bool
        ensures { result ≡ any_true self.now }
    {
        if self.word != 0 {
            return true;
        }
        any(self.more.as_slice())
    }

    /// The octets of a preamble with these presence bits, where these are at most 64 with the extension bit (X.696, 16.2).
    #[inline(always)]
    pub(crate) fn packed(&self, extensible: bool, extended: bool) -> Option<Packed>
        ensures packed { IfSome result (λ p. ArePacked p.octets p.number (extension_bit extensible extended ++ self.now)) }
        ensures many { result ≡ None → 64 < length (extension_bit extensible extended ++ self.now) }
    {
        if self.count == WORD {
            if extensible {
                return None;
            }
            if self.more.len() != 0 {
                return None;
            }
            return Some(aligned(self.word, WORD));
        }
        if extensible {
            return Some(aligned(with_first(extended, self.word, self.count), self.count + 1));
        }
        Some(aligned(self.word, self.count))
    }

    /// The octets of a bitmap with these bits, its length and the count of unused bits among them, where they are at most
    /// eight (X.696, 16.4).
    #[inline(always)]
    pub(crate) fn mapped(&self) -> Option<Packed>
        ensures mapped { IfSome result (λ p. (p.octets ≤ 8) × (low_octets p.octets p.number ≡ counted_bits self.now)) }
        ensures many { result ≡ None → 48 < length self.now }
    {
        if self.count > MAPPED {
            return None;
        }
        Some(behind_count(aligned(self.word, self.count), self.count))
    }
}

/// The bits of a bitmap behind their length and the count of unused bits.
#[inline(always)]
fn behind_count(bits: Packed, count: usize) -> Packed
    requires few { count ≤ 48 }
    requires octets { bits.octets ≡ octets_for count }
    requires small { bits.number < 256 ^ bits.octets }
    ensures octets { result.octets ≡ 2 + bits.octets }
    ensures number { low_octets result.octets result.number ≡ (bits.octets + 1) ∷ (8 * octets_for count - count) ∷ low_octets bits.octets bits.number }
{
    let front = (bits.octets as u64 + 1) * 256 + unused_for(count) as u64;
    Packed {
        number: (front << (bits.octets * 8)) + bits.number,
        octets: 2 + bits.octets,
    }
}

/// Bits as they are lent to a call out of line.
#[derive(Clone, Copy)]
pub(crate) struct LentBits<'bits> {
    word: u64,
    count: usize,
    more: &'bits [bool],
}

/// Appends the bits one by one.
pub(crate) fn spell_lent(lent: LentBits<'_>, bits: &mut Spelled) -> Result<(), EncodeErrorKind>
    ensures done { OnOk result (bits.new.items ≡ bits.old.items ++ (low_bits lent.entry.count lent.entry.word ++ lent.entry.more.now)) }
    ensures refused { IfErr result (λ k. k ≡ OutOfMemory) }
{
    spell(lent.word, lent.count, bits)?;
    bits.extend_from_slice(lent.more)?;
    Ok(())
}

/// Appends octets.
#[tactic(auto, using(crate::proofs::Words::lowest_is))]
pub(crate) fn append_packed(packed: Packed, out: &mut Vec<u8>) -> Result<(), EncodeErrorKind>
    requires { packed.octets ≤ 8 }
    ensures { AppendsOrMemory result (low_octets packed.octets packed.number) out.old.items out.new.items }
{
    let all = packed.number.to_be_bytes();
    let (_, lowest) = all.split_at(8 - packed.octets);
    out.extend_from_slice(lowest)?;
    Ok(())
}

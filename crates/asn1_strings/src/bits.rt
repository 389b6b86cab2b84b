//! BIT STRING: bits in whole octets, the first bit highest (X.680, clause 22).
ghost use Rattle.std.specs.Prelude.{◌≡◌, ◌≢◌, ◌==◌, ◌<◌, ◌≤◌, ◌*◌, length, take, if◌then◌else◌, Option, Ok, IfOk, slice_get};
ghost use Rattle.asn1_core.specs.Octets.{bits_of, octets_for, octet_of, bits8, pack};
ghost use Rattle.asn1_strings.specs.NamedBits.{significant, without_zeros};

use asn1_core::{AsnType, Constraints, Tag};
use std::alloc::{AllocError, Global};
use std::marker::Model;

/// BIT STRING (X.680, clause 22).
#[derive(Debug, Drop)]
pub struct BitString {
    octets: Vec<u8>,
    bits: usize,
}

impl Model for BitString {
    ghost use Rattle.std.specs.Prelude.{List, Bool, take};
    ghost use Rattle.asn1_core.specs.Octets.{bits_of};

    ghost Value = { List Bool };

    ghost use Rattle.asn1_strings.specs.BitStrings.{AreBits};

    ghost view = { λ s. take s.bits (bits_of s.octets.items) };

    ghost invariant = { AreBits };
}

impl PartialEq for BitString {
    ghost use Rattle.std.proofs.Math.Bool.{beq};
    ghost use Rattle.std.specs.Cmp.Lexicographic.{pointwise, lists_equiv};
    ghost use Rattle.std.specs.Cmp.{partial_equiv_from_equiv, bool_eq_equiv};

    ghost eq = { pointwise beq };

    ghost laws = { partial_equiv_from_equiv (lists_equiv bool_eq_equiv) };

    fn eq(&self, other: &BitString) -> bool {
        self.bits == other.bits && self.octets == other.octets
    }
}

impl Eq for BitString {
    ghost use Rattle.std.specs.Cmp.Lexicographic.{lists_equiv};
    ghost use Rattle.std.specs.Cmp.{bool_eq_equiv};

    ghost laws = { lists_equiv bool_eq_equiv };
}

impl AsnType for BitString {
    ghost use Rattle.asn1_core.specs.declared.tag.TheConstants.Tag.{BIT_STRING};
    ghost use Rattle.asn1_core.specs.declared.constraints.TheConstants.Constraints.{NONE};
    ghost use Rattle.std.specs.Prelude.{false, refl};

    ghost TAG = { BIT_STRING };

    const TAG: Tag = Tag::BIT_STRING;

    ghost CONSTRAINTS = { NONE };

    const CONSTRAINTS: Constraints = Constraints::NONE;

    ghost consistent = { refl };
}

impl Clone for BitString {
    ghost is_clone = { λ x y. y ≡ x };

    /// The same bits.
    fn clone(&self) -> Result<BitString, AllocError> {
        Ok(BitString {
            octets: Vec::from_slice(*self.octets.allocator(), self.octets.as_slice())?,
            bits: self.bits,
        })
    }
}

impl BitString {
    /// The first `bits` bits of the octets, the first bit highest; none where the octets aren't as many as so many
    /// bits need.
    pub fn from_octets(
        alloc: Global,
        octets: &[u8],
        bits: usize,
    ) -> Result<Option<BitString>, AllocError>
        ensures value { IfOk result (λ s.
            s ≡ (if length octets.now == octets_for bits then Some (take bits (bits_of octets.now)) else None)) }
        ensures none { length octets.now ≢ octets_for bits → result ≡ Ok None }
    {
        if octets.len() != bits.div_ceil(8) {
            return Ok(None);
        }
        let mut packed = Vec::from_slice(alloc, octets)?;
        if bits % 8 != 0 {
            let last = packed.len() - 1;
            packed[last] = front_bits(packed[last], bits % 8);
        }
        Ok(Some(BitString {
            octets: packed,
            bits,
        }))
    }

    /// How many bits there are.
    pub fn len(&self) -> usize
        ensures { result ≡ length self.now }
    {
        self.bits
    }

    /// Whether there is no bit.
    pub fn is_empty(&self) -> bool
        ensures { result ≡ (length self.now == 0) }
    {
        self.bits == 0
    }

    /// The bit at that place, from 0; none past the end.
    pub fn get(&self, index: usize) -> Option<bool>
        ensures { result ≡ slice_get self.now index }
    {
        if index < self.bits {
            Some((self.octets[index / 8] >> (7 - index % 8)) % 2 == 1)
        } else {
            None
        }
    }

    /// The bits in whole octets, the first bit highest, filled up with zero bits.
    pub fn as_octets(&self) -> &[u8]
        ensures { result.now ≡ pack self.now }
    {
        self.octets.as_slice()
    }

    /// The bits without the 0 bits at their end.
    pub(crate) fn without_zeros(self) -> BitString
        ensures { result ≡ without_zeros self }
    {
        let bits = significant_bits(self.octets.as_slice(), self.bits);
        let mut octets = self.octets;
        octets.truncate(bits.div_ceil(8));
        BitString { octets, bits }
    }
}

/// How many of the first `bits` bits of the octets there are up to the last that is set.
pub fn significant_bits(octets: &[u8], bits: usize) -> usize
    requires enough { bits ≤ 8 * length octets.now }
    ensures { result ≡ significant (take bits (bits_of octets.now)) }
{
    let mut count = bits;
    while count > 0 {
        let last = count - 1;
        if (octets[last / 8] >> (7 - last % 8)) % 2 == 1 {
            return count;
        }
        count = last;
    }
    0
}

/// The octet with zero bits after the first `bits`.
fn front_bits(octet: u8, bits: usize) -> u8
    requires some { 0 < bits }
    requires few { bits < 8 }
    ensures { result ≡ octet_of (take bits (bits8 octet)) }
{
    let unused = 8 - bits;
    octet >> unused << unused
}

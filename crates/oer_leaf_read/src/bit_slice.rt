//! Bits in octets of the input, read one by one: those of a preamble or of an extension bitmap.
ghost use Rattle.std.specs.Prelude.{◌≡◌, ◌<◌, ◌+◌, ◌/◌, length, false, slice_index_or, option_map};
ghost use Rattle.asn1_core.specs.Octets.{bits_of};
ghost use Rattle.oer_spec.specs.Bits.{front_bits, first_bit, has_no_bit, any_set};
ghost use Rattle.oer_leaf_read.specs.Views.{bits_left};
ghost use Rattle.std.specs.Iterator.{YieldsFirst, item_count};

/// Bits in octets of the input, read one by one.
#[derive(Debug, Clone, Copy)]
pub struct BitSlice<'a> {
    octets: &'a [u8],
    /// The next bit's place, counted from the highest bit of the first octet.
    place: u8,
    /// How many low bits of the last octets are unused.
    unused: u8,
}

/// The bit at that place, counted from the highest bit of the first octet.
#[inline(always)]
#[tactic(auto, using(crate::proofs::BitSlices::bit_is))]
fn bit_at(octets: &[u8], place: u8) -> bool
    requires { place / 8 < length octets.now }
    ensures { result ≡ slice_index_or (bits_of octets.now) place false }
{
    let octet = octets[place as usize / 8];
    (octet >> (7 - place % 8)) % 2 == 1
}

impl<'a> BitSlice<'a> {
    /// The bits of the octets, but for `unused` low ones at their end.
    #[inline(always)]
    #[tactic(auto, unfolding(crate::specs::Views::bits_left))]
    pub fn new(octets: &'a [u8], unused: u8) -> BitSlice<'a>
        ensures { bits_left result ≡ front_bits unused octets.now }
    {
        BitSlice {
            octets,
            place: 0,
            unused,
        }
    }

    /// Whether no bit is left.
    #[inline(always)]
    #[tactic(auto, using(crate::proofs::BitSlices::empty_is), unfolding(crate::specs::Views::bits_left))]
    pub fn is_empty(&self) -> bool
        ensures { result ≡ has_no_bit (bits_left self.now) }
    {
        self.octets.len() <= (self.place as usize + self.unused as usize) / 8
    }

    /// The next bit and the bits after it, where one is left.
    #[inline(always)]
    #[tactic(auto, using(crate::proofs::BitSlices::left_none, crate::proofs::BitSlices::left_next, crate::proofs::BitSlices::left_advanced), unfolding(crate::specs::Views::bits_left))]
    pub fn split_first(self) -> Option<(bool, BitSlice<'a>)>
        ensures { option_map (λ x. (x.0, bits_left x.1)) result ≡ first_bit (bits_left self.entry) }
    {
        let BitSlice {
            octets,
            place,
            unused,
        } = self;
        if octets.len() <= (place as usize + unused as usize) / 8 {
            return None;
        }
        let bit = bit_at(octets, place);
        let (octets, place) = if place < 7 {
            (octets, place + 1)
        } else {
            (octets.split_at(1).1, place - 7)
        };
        Some((
            bit,
            BitSlice {
                octets,
                place,
                unused,
            },
        ))
    }

    /// Whether a bit that is left is set.
    pub fn any_set(self) -> bool
        ensures { result ≡ any_set (bits_left self.entry) }
    {
        let mut bits = self;
        while let Some((bit, rest)) = bits.split_first() {
            if bit {
                return true;
            }
            bits = rest;
        }
        false
    }
}

impl Iterator for BitSlice<'_> {
    type Item = bool;

    ghost next_gives = { YieldsFirst bits_left };

    ghost remaining = { item_count bits_left };

    /// The next bit, where one is left.
    fn next(&mut self) -> Option<bool> {
        let (bit, rest) = self.split_first()?;
        *self = rest;
        Some(bit)
    }
}

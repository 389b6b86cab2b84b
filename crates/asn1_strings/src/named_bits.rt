//! BIT STRING with named bits: 0 bits at its end carry no meaning (X.680, 22.7).
ghost use Rattle.std.specs.Prelude.{◌≡◌, ◌==◌, false, length, get_or};
ghost use Rattle.asn1_strings.specs.NamedBits.{without_zeros, IsNamed};

use crate::bits::BitString;
use asn1_core::{AsnType, Constraints, Tag};
use std::alloc::AllocError;
use std::marker::Model;

/// BIT STRING with a list of named bits (X.680, 22.7): the bits up to the last that is set.
#[derive(Debug, Drop)]
pub struct NamedBits {
    bits: BitString,
}

impl Model for NamedBits {
    ghost use Rattle.std.specs.Prelude.{List, Bool};
    ghost use Rattle.asn1_strings.specs.NamedBits.{IsNamed};

    ghost Value = { List Bool };

    ghost view = { λ n. n.bits };

    ghost invariant = { λ n. IsNamed n.bits };
}

impl PartialEq for NamedBits {
    ghost use Rattle.std.proofs.Math.Bool.{beq};
    ghost use Rattle.std.specs.Cmp.Lexicographic.{pointwise, lists_equiv};
    ghost use Rattle.std.specs.Cmp.{partial_equiv_from_equiv, bool_eq_equiv};

    ghost eq = { pointwise beq };

    ghost laws = { partial_equiv_from_equiv (lists_equiv bool_eq_equiv) };

    fn eq(&self, other: &NamedBits) -> bool {
        self.bits == other.bits
    }
}

impl Eq for NamedBits {
    ghost use Rattle.std.specs.Cmp.Lexicographic.{lists_equiv};
    ghost use Rattle.std.specs.Cmp.{bool_eq_equiv};

    ghost laws = { lists_equiv bool_eq_equiv };
}

impl AsnType for NamedBits {
    ghost use Rattle.asn1_core.specs.declared.tag.TheConstants.Tag.{BIT_STRING};
    ghost use Rattle.asn1_core.specs.declared.constraints.TheConstants.Constraints.{NONE};
    ghost use Rattle.std.specs.Prelude.{false, refl};

    ghost TAG = { BIT_STRING };

    const TAG: Tag = Tag::BIT_STRING;

    ghost CONSTRAINTS = { NONE };

    const CONSTRAINTS: Constraints = Constraints::NONE;

    ghost consistent = { refl };
}

impl Clone for NamedBits {
    ghost is_clone = { λ x y. y ≡ x };

    /// The same bits.
    fn clone(&self) -> Result<NamedBits, AllocError> {
        let bits = self.bits.clone()?;
        Ok(NamedBits { bits })
    }
}

impl NamedBits {
    /// These bits without the 0 bits at their end. No memory is asked for.
    pub fn new(bits: BitString) -> NamedBits
        ensures { result ≡ without_zeros bits }
    {
        NamedBits {
            bits: bits.without_zeros(),
        }
    }

    /// The bits, of which the last, if there is one, is set.
    pub fn as_bits(&self) -> &BitString
        ensures value { result.now ≡ self.now }
        ensures named { IsNamed self.now }
    {
        &self.bits
    }

    /// The same, owned.
    pub fn into_bits(self) -> BitString
        ensures value { result ≡ self }
        ensures named { IsNamed self }
    {
        self.bits
    }

    /// Whether the bit at that place, from 0, is set; past the end none is.
    pub fn get(&self, index: usize) -> bool
        ensures { result ≡ get_or self.now index false }
    {
        self.bits.get(index).unwrap_or(false)
    }

    /// How many bits there are up to the last that is set.
    pub fn len(&self) -> usize
        ensures { result ≡ length self.now }
    {
        self.bits.len()
    }

    /// Whether no bit is set.
    pub fn is_empty(&self) -> bool
        ensures { result ≡ (length self.now == 0) }
    {
        self.bits.is_empty()
    }
}

//! Restricted character strings: texts of whole characters of a type's alphabet (X.680, clause 41).
ghost use Rattle.std.specs.Prelude.{◌≡◌, ◌==◌, ◌/◌, ◌↔◌, length, IfOk, IfErr, IsErrOf, IsTrue};
ghost use Rattle.std.specs.List.{list_all};
ghost use Rattle.asn1_core.specs.Octets.{AreOctets};
ghost use Rattle.asn1_core.specs.Texts.{Obeys, unit_of};

use crate::octets::each_below_256;
use asn1_core::{AsnType, Constraints, Tag};
use std::alloc::{AllocError, Global};
use std::marker::{Model, PhantomData};
use thiserror::Error;

/// Why octets are no value of a string type.
#[derive(Debug, PartialEq, Eq, Drop, Error)]
pub enum StringError {
    /// A character outside the type's alphabet, or a part of one.
    #[error("a character is outside the permitted alphabet")]
    PermittedAlphabet,
    /// A request for memory was refused.
    #[error("out of memory")]
    OutOfMemory,
}

impl From<AllocError> for StringError {
    ghost use Rattle.asn1_strings.specs.declared.strings.StringError.TheVariants.{OutOfMemory};

    ghost from_gives = { λ _ e. e ≡ OutOfMemory };

    fn from(_e: AllocError) -> StringError {
        StringError::OutOfMemory
    }
}

/// The characters of a restricted character string type (X.680, clause 41).
pub trait CharacterSet: Drop {
    ghost use Rattle.std.specs.Prelude.{◌≡◌, ◌↔◌, ℕ, Bool, true, List};
    ghost use Rattle.asn1_core.specs.declared.tag.Tag.{Tag};
    ghost use Rattle.asn1_core.specs.Texts.{Rule, Obeys, unit_of};
    ghost use Rattle.asn1_strings.specs.Characters.{are_characters};

    /// The rule that the type's texts obey, and the octets that they may have.
    ghost rule: { Rule };

    ghost permitted: { ℕ → Bool };

    ghost TAG: { Tag };

    /// The type's tag.
    const TAG: Tag;

    ghost OCTETS_PER_CHARACTER: { ℕ };

    /// How many octets a character has.
    const OCTETS_PER_CHARACTER: usize;

    /// Whether a text may have the octet.
    fn permits(octet: u8) -> bool
        ensures { result ≡ permitted octet };

    ghost unit: { OCTETS_PER_CHARACTER ≡ unit_of rule };

    /// Octets obey the rule exactly where they are whole characters of permitted octets.
    ghost obeys: { (o : List ℕ) → (are_characters (unit_of rule) permitted o ≡ true) ↔ Obeys rule o };
}

/// A text of the type that `C` says.
#[derive_where(Debug)]
#[derive(Drop)]
pub struct RestrictedString<C: CharacterSet> {
    octets: Vec<u8>,
    set: PhantomData<C>,
}

impl<C: CharacterSet> Model for RestrictedString<C> {
    ghost use Rattle.std.specs.Prelude.{List, ℕ};
    ghost use Rattle.asn1_core.specs.Texts.{Obeys};

    ghost Value = { List ℕ };

    ghost view = { λ s. s.octets.items };

    ghost invariant = { λ s. Obeys C.rule s.octets.items };
}

impl<C: CharacterSet> PartialEq for RestrictedString<C> {
    ghost use Rattle.std.specs.Prelude.{nat_eq};
    ghost use Rattle.std.specs.Cmp.Lexicographic.{pointwise, nat_list_eq_equiv};
    ghost use Rattle.std.specs.Cmp.{partial_equiv_from_equiv};

    ghost eq = { pointwise nat_eq };

    ghost laws = { partial_equiv_from_equiv nat_list_eq_equiv };

    fn eq(&self, other: &RestrictedString<C>) -> bool {
        self.octets == other.octets
    }
}

impl<C: CharacterSet> Eq for RestrictedString<C> {
    ghost use Rattle.std.specs.Cmp.Lexicographic.{nat_list_eq_equiv};

    ghost laws = { nat_list_eq_equiv };
}

impl<C: CharacterSet> AsnType for RestrictedString<C> {
    ghost use Rattle.asn1_core.specs.declared.constraints.TheConstants.Constraints.{NONE};
    ghost use Rattle.std.specs.Prelude.{false, refl};

    ghost TAG = { C.TAG };

    const TAG: Tag = C::TAG;

    ghost CONSTRAINTS = { NONE };

    const CONSTRAINTS: Constraints = Constraints::NONE;

    ghost consistent = { refl };
}

impl<C: CharacterSet> Clone for RestrictedString<C> {
    ghost is_clone = { λ x y. y ≡ x };

    /// The same text.
    fn clone(&self) -> Result<RestrictedString<C>, AllocError> {
        Ok(RestrictedString {
            octets: Vec::from_slice(*self.octets.allocator(), self.octets.as_slice())?,
            set: PhantomData,
        })
    }
}

impl<C: CharacterSet> RestrictedString<C> {
    /// Whether the octets are a text of the type.
    pub fn is_text(octets: &[u8]) -> bool
        ensures { IsTrue result ↔ Obeys C.rule octets.now }
    {
        octets.len() % C::OCTETS_PER_CHARACTER == 0 && are_permitted::<C>(octets)
    }

    /// The text of these octets. `PermittedAlphabet` where they are no text of the type.
    pub fn from_bytes(alloc: Global, octets: &[u8]) -> Result<RestrictedString<C>, StringError>
        ensures ok { IfOk result (λ s. (s ≡ octets.now) × Obeys C.rule octets.now) }
        ensures memory { IfErr result (λ e. e ≡ StringError.OutOfMemory → Obeys C.rule octets.now) }
        ensures alphabet { IsErrOf result StringError.PermittedAlphabet
            ↔ (Obeys C.rule octets.now → ⊥) }
    {
        if !RestrictedString::<C>::is_text(octets) {
            return Err(StringError::PermittedAlphabet);
        }
        Ok(RestrictedString::from_text(alloc, octets)?)
    }

    /// The text of these octets, which are one.
    pub fn from_text(alloc: Global, octets: &[u8]) -> Result<RestrictedString<C>, AllocError>
        requires { Obeys C.rule octets.now }
        ensures { IfOk result (λ s. s ≡ octets.now) }
    {
        Ok(RestrictedString::from_vec(Vec::from_slice(alloc, octets)?))
    }

    /// The text of these octets, which are one.
    pub(crate) fn from_vec(octets: Vec<u8>) -> RestrictedString<C>
        requires { Obeys C.rule octets.items }
        ensures { result ≡ octets.items }
    {
        RestrictedString {
            octets,
            set: PhantomData,
        }
    }

    /// The text's octets.
    pub fn as_bytes(&self) -> &[u8]
        ensures value { result.now ≡ self.now }
        ensures octets { AreOctets self.now }
        ensures obeys { Obeys C.rule self.now }
    {
        each_below_256(self.octets.as_slice())
    }

    /// A copy of the text's octets.
    pub fn to_bytes(&self, alloc: Global) -> Result<Vec<u8>, AllocError>
        ensures { IfOk result (λ v. v.items ≡ self.now) }
    {
        Vec::from_slice(alloc, self.as_bytes())
    }

    /// How many characters the text has.
    pub fn len(&self) -> usize
        ensures { result ≡ length self.now / unit_of C.rule }
    {
        self.octets.len() / C::OCTETS_PER_CHARACTER
    }

    /// Whether the text has no character.
    pub fn is_empty(&self) -> bool
        ensures { result ≡ (length self.now == 0) }
    {
        self.octets.is_empty()
    }
}

/// Whether a text may have each of the octets.
fn are_permitted<C: CharacterSet>(octets: &[u8]) -> bool
    ensures { result ≡ list_all C.permitted octets.now }
{
    octets.iter().all(|octet| C::permits(*octet))
}

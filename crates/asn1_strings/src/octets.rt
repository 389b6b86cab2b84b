//! OCTET STRING, and the octets of an open type.
ghost use Rattle.std.specs.Prelude.{◌≡◌, ◌==◌, length, IfOk};
ghost use Rattle.asn1_core.specs.Octets.{AreOctets};

use asn1_core::{AsnType, Constraints, Tag};
use bytes::BytesMut;
use std::alloc::{AllocError, Global};
use std::marker::{Model, PhantomData};

/// An ASN.1 type whose values are octets.
pub trait OctetType: Drop {
    ghost use Rattle.asn1_core.specs.declared.tag.Tag.{Tag};

    ghost TAG: { Tag };

    /// The type's tag.
    const TAG: Tag;
}

/// The type OCTET STRING.
#[derive(Drop)]
pub enum OctetStringType {}

/// An open type.
#[derive(Drop)]
pub enum AnyType {}

impl OctetType for OctetStringType {
    ghost use Rattle.asn1_core.specs.declared.tag.TheConstants.Tag.{OCTET_STRING};

    ghost TAG = { OCTET_STRING };

    const TAG: Tag = Tag::OCTET_STRING;
}

impl OctetType for AnyType {
    ghost use Rattle.asn1_core.specs.declared.tag.TheConstants.Tag.{EOC};

    ghost TAG = { EOC };

    const TAG: Tag = Tag::EOC;
}

/// Octets: a value of OCTET STRING, or the content of an open type.
///
/// The octets have one owner, and stand in a box: `BytesMut` is eight words, all of which would be moved wherever a value
/// is. So they take two requests for memory.
#[derive_where(Debug)]
#[derive(Drop)]
pub struct OctetContent<K: OctetType> {
    octets: Box<BytesMut>,
    kind: PhantomData<K>,
}

/// OCTET STRING (X.680, clause 23).
pub type OctetString = OctetContent<OctetStringType>;

/// The octets of an open type (X.681, 14.2), uninterpreted.
pub type Any = OctetContent<AnyType>;

impl<K: OctetType> Model for OctetContent<K> {
    ghost use Rattle.std.specs.Prelude.{List, ℕ};

    ghost Value = { List ℕ };

    ghost view = { λ s. s.octets.value.items };
}

impl<K: OctetType> PartialEq for OctetContent<K> {
    ghost use Rattle.std.specs.Prelude.{nat_eq};
    ghost use Rattle.std.specs.Cmp.Lexicographic.{pointwise, nat_list_eq_equiv};
    ghost use Rattle.std.specs.Cmp.{partial_equiv_from_equiv};

    ghost eq = { pointwise nat_eq };

    ghost laws = { partial_equiv_from_equiv nat_list_eq_equiv };

    fn eq(&self, other: &OctetContent<K>) -> bool {
        self.octets == other.octets
    }
}

impl<K: OctetType> Eq for OctetContent<K> {
    ghost use Rattle.std.specs.Cmp.Lexicographic.{nat_list_eq_equiv};

    ghost laws = { nat_list_eq_equiv };
}

impl<K: OctetType> AsnType for OctetContent<K> {
    ghost use Rattle.asn1_core.specs.declared.constraints.TheConstants.Constraints.{NONE};
    ghost use Rattle.std.specs.Prelude.{false, refl};

    ghost TAG = { K.TAG };

    const TAG: Tag = K::TAG;

    ghost CONSTRAINTS = { NONE };

    const CONSTRAINTS: Constraints = Constraints::NONE;

    ghost consistent = { refl };
}

impl<K: OctetType> Clone for OctetContent<K> {
    ghost is_clone = { λ x y. y ≡ x };

    /// The same octets.
    fn clone(&self) -> Result<OctetContent<K>, AllocError> {
        OctetContent::from_slice(*Box::allocator(&self.octets), self.octets.as_slice())
    }
}

impl<K: OctetType> OctetContent<K> {
    /// A copy of the octets.
    #[inline(always)]
    pub fn from_slice(alloc: Global, octets: &[u8]) -> Result<OctetContent<K>, AllocError>
        ensures { IfOk result (λ s. s ≡ octets.now) }
    {
        Ok(OctetContent {
            octets: Box::new(alloc, BytesMut::copy_from_slice(alloc, octets)?)?,
            kind: PhantomData,
        })
    }

    /// The octets.
    pub fn as_bytes(&self) -> &[u8]
        ensures value { result.now ≡ self.now }
        ensures octets { AreOctets self.now }
    {
        each_below_256(self.octets.as_slice())
    }

    /// How many octets there are.
    pub fn len(&self) -> usize
        ensures { result ≡ length self.now }
    {
        self.octets.len()
    }

    /// Whether there is no octet.
    pub fn is_empty(&self) -> bool
        ensures { result ≡ (length self.now == 0) }
    {
        self.octets.is_empty()
    }
}

/// The same octets: a clause then knows that each is a whole number below 256.
pub(crate) fn each_below_256(octets: &[u8]) -> &[u8]
    ensures value { result.now ≡ octets.now }
    ensures octets { AreOctets octets.now }
{
    octets
}

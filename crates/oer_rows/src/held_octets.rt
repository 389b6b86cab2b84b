//! Octets as components.
//!
//! No bound is stated yet that leads to a type whose struct has a bound itself, as `OctetString` has; a struct of it without
//! parameters can stand there. So a row that stands in another has these, and not the types within.

use asn1_core::{AsnType, Constraints, DecodeError, EncodeError, Tag};
use asn1_strings::{Any, OctetString};
use oer_read::{Decode, Decoder};
use oer_spec::{EqualAsSpelled, Spelled};
use oer_write::{Encode, Encoder};
use std::alloc::Global;
use std::fmt::{self, Debug};

/// `OCTET STRING`
#[derive(Clone, PartialEq, Eq, Drop)]
pub struct Octets(pub OctetString);

/// As what it holds.
impl Debug for Octets {
    fn fmt<W: fmt::Write>(&self, f: &mut fmt::Formatter<W>) -> fmt::Result {
        self.0.fmt(f)
    }
}

impl AsnType for Octets {
    ghost use Rattle.std.specs.Prelude.{refl};
    ghost use Rattle.asn1_core.specs.declared.tag.TheConstants.Tag.{OCTET_STRING};
    ghost use Rattle.asn1_core.specs.declared.constraints.TheConstants.Constraints.{NONE};

    ghost TAG = { OCTET_STRING };

    const TAG: Tag = Tag::OCTET_STRING;

    ghost CONSTRAINTS = { NONE };

    const CONSTRAINTS: Constraints = Constraints::NONE;

    ghost consistent = { refl };
}

impl Spelled for Octets {
    ghost tree = { λ c v. ⟦<OctetString as Spelled>⟧.tree c v.0 };

    ghost IsValue = { λ v. ⟦<OctetString as Spelled>⟧.IsValue v.0 };

    ghost is_tree = { λ c k v i. ⟦<OctetString as Spelled>⟧.is_tree c k v.0 i };

    ghost alike = { λ c k v w i j. ⟦<OctetString as Spelled>⟧.alike c k v.0 w.0 i j };
}

impl EqualAsSpelled for Octets {
    ghost use Rattle.asn1_core.specs.Texts.{AnyOctets};
    ghost use Rattle.oer_spec.specs.Spelled.{texts_same};

    ghost eq_is_same = { λ c k v w i j. texts_same AnyOctets c v.0 w.0 };
}

impl Encode for Octets {
    #[inline(always)]
    fn encode_with_tag_and_constraints(
        &self,
        encoder: &mut Encoder<'_>,
        tag: Tag,
        constraints: Constraints,
    ) -> Result<(), EncodeError> {
        self.0
            .encode_with_tag_and_constraints(encoder, tag, constraints)
    }
}

impl Decode for Octets {
    ghost use Rattle.std.specs.Result.{result_map_both};

    ghost Answered = { λ c s r t. ⟦<OctetString as Decode>⟧.Answered c s (result_map_both (λ v. v.0) (λ e. e) r) t };

    #[inline(always)]
    fn decode_with_tag_and_constraints(
        alloc: Global,
        decoder: &mut Decoder<'_>,
        tag: Tag,
        constraints: Constraints,
    ) -> Result<Octets, DecodeError> {
        match OctetString::decode_with_tag_and_constraints(alloc, decoder, tag, constraints) {
            Ok(content) => Ok(Octets(content)),
            Err(e) => Err(e),
        }
    }
}

/// The octets of an open type, uninterpreted.
#[derive(Clone, PartialEq, Eq, Drop)]
pub struct OpenOctets(pub Any);

/// As what it holds.
impl Debug for OpenOctets {
    fn fmt<W: fmt::Write>(&self, f: &mut fmt::Formatter<W>) -> fmt::Result {
        self.0.fmt(f)
    }
}

impl AsnType for OpenOctets {
    ghost use Rattle.std.specs.Prelude.{refl};
    ghost use Rattle.asn1_core.specs.declared.tag.TheConstants.Tag.{EOC};
    ghost use Rattle.asn1_core.specs.declared.constraints.TheConstants.Constraints.{NONE};

    ghost TAG = { EOC };

    const TAG: Tag = Tag::EOC;

    ghost CONSTRAINTS = { NONE };

    const CONSTRAINTS: Constraints = Constraints::NONE;

    ghost consistent = { refl };
}

impl Spelled for OpenOctets {
    ghost tree = { λ c v. ⟦<Any as Spelled>⟧.tree c v.0 };

    ghost IsValue = { λ v. ⟦<Any as Spelled>⟧.IsValue v.0 };

    ghost is_tree = { λ c k v i. ⟦<Any as Spelled>⟧.is_tree c k v.0 i };

    ghost alike = { λ c k v w i j. ⟦<Any as Spelled>⟧.alike c k v.0 w.0 i j };
}

impl EqualAsSpelled for OpenOctets {
    ghost use Rattle.asn1_core.specs.Texts.{AnyOctets};
    ghost use Rattle.oer_spec.specs.Spelled.{unsized_texts_same};

    ghost eq_is_same = { λ c k v w i j. unsized_texts_same AnyOctets v.0 w.0 };
}

impl Encode for OpenOctets {
    #[inline(always)]
    fn encode_with_tag_and_constraints(
        &self,
        encoder: &mut Encoder<'_>,
        tag: Tag,
        constraints: Constraints,
    ) -> Result<(), EncodeError> {
        self.0
            .encode_with_tag_and_constraints(encoder, tag, constraints)
    }
}

impl Decode for OpenOctets {
    ghost use Rattle.std.specs.Result.{result_map_both};

    ghost Answered = { λ c s r t. ⟦<Any as Decode>⟧.Answered c s (result_map_both (λ v. v.0) (λ e. e) r) t };

    #[inline(always)]
    fn decode_with_tag_and_constraints(
        alloc: Global,
        decoder: &mut Decoder<'_>,
        tag: Tag,
        constraints: Constraints,
    ) -> Result<OpenOctets, DecodeError> {
        match Any::decode_with_tag_and_constraints(alloc, decoder, tag, constraints) {
            Ok(content) => Ok(OpenOctets(content)),
            Err(e) => Err(e),
        }
    }
}

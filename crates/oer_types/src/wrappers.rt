//! Wrappers: each narrows the constraints that its content is written and read under.
ghost use Rattle.std.specs.Prelude.{false, refl};
ghost use Rattle.asn1_core.specs.declared.tag.TheConstants.Tag.{INTEGER, OCTET_STRING};
ghost use Rattle.asn1_core.specs.Bounds.{narrowed};
ghost use Rattle.oer_spec.specs.Spelled.{integers_same, texts_same};
ghost use Rattle.std.specs.Result.{result_map_both};
ghost use Rattle.asn1_core.specs.Texts.{AnyOctets};

use asn1_core::{AsnType, Bounded, Constraints, DecodeError, EncodeError, Tag};
use asn1_ints::Integer;
use asn1_strings::OctetString;
use oer_read::{Decode, Decoder};
use oer_spec::{EqualAsSpelled, Spelled};
use oer_write::{Encode, Encoder};
use std::alloc::Global;

/// `INTEGER (0..MAX)`
#[derive(Debug, PartialEq, Eq, Drop)]
pub struct Positive(pub Integer);

/// A type of numbers, those up to 0: `T (MIN..0)`
#[derive(Debug, PartialEq, Eq, Drop)]
pub struct Negative<T>(pub T);

/// `OCTET STRING (SIZE(3))`
#[derive(Debug, PartialEq, Eq, Drop)]
pub struct HashedId3(pub OctetString);

impl AsnType for Positive {
    ghost use Rattle.oer_types.specs.Wrappers.{from_zero};

    ghost TAG = { INTEGER };

    const TAG: Tag = Tag::INTEGER;

    ghost CONSTRAINTS = { from_zero };

    const CONSTRAINTS: Constraints = Constraints {
        value: Some((
            Bounded::Range {
                start: Some(0),
                end: None,
            },
            false,
        )),
        size: None,
    };

    ghost consistent = { refl };
}

impl Spelled for Positive {
    ghost use Rattle.oer_types.specs.Wrappers.{from_zero, narrowed_consistent};

    ghost tree = { λ c v. ⟦<Integer as Spelled>⟧.tree (narrowed from_zero c) v.0 };

    ghost IsValue = { λ v. ⟦<Integer as Spelled>⟧.IsValue v.0 };

    ghost is_tree = { λ c k v i. ⟦<Integer as Spelled>⟧.is_tree (narrowed from_zero c) (narrowed_consistent from_zero c refl k) v.0 i };

    ghost alike = { λ c k v w i j. ⟦<Integer as Spelled>⟧.alike (narrowed from_zero c) (narrowed_consistent from_zero c refl k) v.0 w.0 i j };
}

impl EqualAsSpelled for Positive {
    ghost use Rattle.oer_types.specs.Wrappers.{from_zero};

    ghost eq_is_same = { λ c k v w i j. integers_same (narrowed from_zero c) v.0 w.0 };
}

impl Encode for Positive {
    #[tactic(auto, using(crate::specs::Wrappers::narrowed_consistent))]
    fn encode_with_tag_and_constraints(
        &self,
        encoder: &mut Encoder<'_>,
        tag: Tag,
        constraints: Constraints,
    ) -> Result<(), EncodeError> {
        let narrowed = Self::CONSTRAINTS.narrowed(constraints);
        self.0
            .encode_with_tag_and_constraints(encoder, tag, narrowed)
    }
}

impl Decode for Positive {
    ghost use Rattle.oer_types.specs.Wrappers.{from_zero};

    ghost Answered = { λ c s r t. ⟦<Integer as Decode>⟧.Answered (narrowed from_zero c) s (result_map_both (λ v. v.0) (λ e. e) r) t };

    #[tactic(auto, using(crate::specs::Wrappers::narrowed_consistent))]
    fn decode_with_tag_and_constraints(
        alloc: Global,
        decoder: &mut Decoder<'_>,
        tag: Tag,
        constraints: Constraints,
    ) -> Result<Positive, DecodeError> {
        let narrowed = Self::CONSTRAINTS.narrowed(constraints);
        match Integer::decode_with_tag_and_constraints(alloc, decoder, tag, narrowed) {
            Ok(content) => Ok(Positive(content)),
            Err(e) => Err(e),
        }
    }
}

impl<T: AsnType> AsnType for Negative<T> {
    ghost use Rattle.oer_types.specs.Wrappers.{to_zero};

    ghost TAG = { T.TAG };

    const TAG: Tag = T::TAG;

    ghost CONSTRAINTS = { to_zero };

    const CONSTRAINTS: Constraints = Constraints {
        value: Some((
            Bounded::Range {
                start: None,
                end: Some(0),
            },
            false,
        )),
        size: None,
    };

    ghost consistent = { refl };
}

impl<T: Spelled> Spelled for Negative<T> {
    ghost use Rattle.oer_types.specs.Wrappers.{to_zero, narrowed_consistent};

    ghost tree = { λ c v. T.tree (narrowed to_zero c) v.0 };

    ghost IsValue = { λ v. T.IsValue v.0 };

    ghost is_tree = { λ c k v i. T.is_tree (narrowed to_zero c) (narrowed_consistent to_zero c refl k) v.0 i };

    ghost alike = { λ c k v w i j. T.alike (narrowed to_zero c) (narrowed_consistent to_zero c refl k) v.0 w.0 i j };
}

impl<T: EqualAsSpelled> EqualAsSpelled for Negative<T> {
    ghost use Rattle.oer_types.specs.Wrappers.{to_zero, narrowed_consistent};

    ghost eq_is_same = { λ c k v w i j. T.eq_is_same (narrowed to_zero c) (narrowed_consistent to_zero c refl k) v.0 w.0 i j };
}

impl<T: Encode> Encode for Negative<T> {
    #[tactic(auto, using(crate::specs::Wrappers::narrowed_consistent))]
    fn encode_with_tag_and_constraints(
        &self,
        encoder: &mut Encoder<'_>,
        tag: Tag,
        constraints: Constraints,
    ) -> Result<(), EncodeError> {
        let narrowed = Self::CONSTRAINTS.narrowed(constraints);
        self.0
            .encode_with_tag_and_constraints(encoder, tag, narrowed)
    }
}

impl<T: Decode> Decode for Negative<T> {
    ghost use Rattle.oer_types.specs.Wrappers.{to_zero};

    ghost Answered = { λ c s r t. T.Answered (narrowed to_zero c) s (result_map_both (λ v. v.0) (λ e. e) r) t };

    #[tactic(auto, using(crate::specs::Wrappers::narrowed_consistent))]
    fn decode_with_tag_and_constraints(
        alloc: Global,
        decoder: &mut Decoder<'_>,
        tag: Tag,
        constraints: Constraints,
    ) -> Result<Negative<T>, DecodeError> {
        let narrowed = Self::CONSTRAINTS.narrowed(constraints);
        match T::decode_with_tag_and_constraints(alloc, decoder, tag, narrowed) {
            Ok(content) => Ok(Negative(content)),
            Err(e) => Err(e),
        }
    }
}

impl AsnType for HashedId3 {
    ghost use Rattle.oer_types.specs.Wrappers.{of_three};

    ghost TAG = { OCTET_STRING };

    const TAG: Tag = Tag::OCTET_STRING;

    ghost CONSTRAINTS = { of_three };

    const CONSTRAINTS: Constraints = Constraints {
        value: None,
        size: Some((Bounded::Single(3), false)),
    };

    ghost consistent = { refl };
}

impl Spelled for HashedId3 {
    ghost use Rattle.oer_types.specs.Wrappers.{of_three, narrowed_consistent};

    ghost tree = { λ c v. ⟦<OctetString as Spelled>⟧.tree (narrowed of_three c) v.0 };

    ghost IsValue = { λ v. ⟦<OctetString as Spelled>⟧.IsValue v.0 };

    ghost is_tree = { λ c k v i. ⟦<OctetString as Spelled>⟧.is_tree (narrowed of_three c) (narrowed_consistent of_three c refl k) v.0 i };

    ghost alike = { λ c k v w i j. ⟦<OctetString as Spelled>⟧.alike (narrowed of_three c) (narrowed_consistent of_three c refl k) v.0 w.0 i j };
}

impl EqualAsSpelled for HashedId3 {
    ghost use Rattle.oer_types.specs.Wrappers.{of_three};

    ghost eq_is_same = { λ c k v w i j. texts_same AnyOctets (narrowed of_three c) v.0 w.0 };
}

impl Encode for HashedId3 {
    #[tactic(auto, using(crate::specs::Wrappers::narrowed_consistent))]
    fn encode_with_tag_and_constraints(
        &self,
        encoder: &mut Encoder<'_>,
        tag: Tag,
        constraints: Constraints,
    ) -> Result<(), EncodeError> {
        let narrowed = Self::CONSTRAINTS.narrowed(constraints);
        self.0
            .encode_with_tag_and_constraints(encoder, tag, narrowed)
    }
}

impl Decode for HashedId3 {
    ghost use Rattle.oer_types.specs.Wrappers.{of_three};

    ghost Answered = { λ c s r t. ⟦<OctetString as Decode>⟧.Answered (narrowed of_three c) s (result_map_both (λ v. v.0) (λ e. e) r) t };

    #[tactic(auto, using(crate::specs::Wrappers::narrowed_consistent))]
    fn decode_with_tag_and_constraints(
        alloc: Global,
        decoder: &mut Decoder<'_>,
        tag: Tag,
        constraints: Constraints,
    ) -> Result<HashedId3, DecodeError> {
        let narrowed = Self::CONSTRAINTS.narrowed(constraints);
        match OctetString::decode_with_tag_and_constraints(alloc, decoder, tag, narrowed) {
            Ok(content) => Ok(HashedId3(content)),
            Err(e) => Err(e),
        }
    }
}

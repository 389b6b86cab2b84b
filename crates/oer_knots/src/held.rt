//! The place of a knot in a type that it contains.
ghost use Rattle.oer_read.specs.Law.{Decodes};
ghost use Rattle.oer_read.specs.Lists.{FnReturnsAtMut};
ghost use Rattle.oer_knots.specs.Reading.{ReadsKnots};

use crate::ties::{DecodeKnot, HoldsKnot};
use asn1_core::{AsnType, Constraints, DecodeError, EncodeError, Tag};
use oer_read::{Decode, Decoder};
use oer_spec::Spelled;
use oer_write::{Encode, Encoder};
use std::alloc::Global;

/// A value of a type that may contain this one: in a box.
#[derive(Clone, Debug, PartialEq, Eq, Drop)]
pub struct Held<K>(pub Box<K>);

impl<K: AsnType> AsnType for Held<K> {
    ghost TAG = { K.TAG };

    const TAG: Tag = K::TAG;

    ghost CONSTRAINTS = { K.CONSTRAINTS };

    const CONSTRAINTS: Constraints = K::CONSTRAINTS;

    ghost consistent = { K.consistent };

    const IS_CHOICE: bool = K::IS_CHOICE;
}

impl<K: Spelled> Spelled for Held<K> {
    ghost tree = { λ c h. K.tree c h.0.value };

    ghost IsValue = { λ h. K.IsValue h.0.value };

    ghost is_tree = { λ c k h i. K.is_tree c k h.0.value i };

    ghost alike = { λ c k g h i j. K.alike c k g.0.value h.0.value i j };
}

impl<K: Encode> Encode for Held<K> {
    #[inline(always)]
    fn encode_with_tag_and_constraints(
        &self,
        encoder: &mut Encoder<'_>,
        tag: Tag,
        constraints: Constraints,
    ) -> Result<(), EncodeError> {
        (*self.0).encode_with_tag_and_constraints(encoder, tag, constraints)
    }
}

impl<K: Decode> Decode for Held<K> {
    ghost use Rattle.oer_read.specs.Answers.{BoxAnswers};

    ghost Answered = { λ c s r t. BoxAnswers (K.Answered c) (λ h. h.0.value) s r t };

    fn decode_with_tag_and_constraints(
        alloc: Global,
        decoder: &mut Decoder<'_>,
        tag: Tag,
        constraints: Constraints,
    ) -> Result<Held<K>, DecodeError> {
        match Box::<K>::decode_with_tag_and_constraints(alloc, decoder, tag, constraints) {
            Ok(content) => Ok(Held(content)),
            Err(e) => Err(e),
        }
    }
}

impl<K> HoldsKnot<K> for Held<K> {
    ghost use Rattle.oer_knots.specs.Ties.{held_tied, held_weight, held_ties};

    ghost tied = { held_tied (λ h. h.0.value) };

    ghost weight = { held_weight (λ h. h.0.value) };

    ghost ties = { held_ties (λ h. h.0.value) };
}

impl<K: Spelled> DecodeKnot<K> for Held<K> {
    ghost use Rattle.oer_knots.specs.Answering.{boxed};

    ghost answering = { boxed (λ h. h.0.value) };

    fn decode_knot<F: Fn(&mut Decoder<'_>) -> Result<K, DecodeError>>(
        alloc: Global,
        decoder: &mut Decoder<'_>,
        _tag: Tag,
        knot: &F,
    ) -> Result<Held<K>, DecodeError> {
        match decoder.decode_boxed_with::<K, _>(
            alloc,
            |inner: &mut Decoder<'_>| -> Result<K, DecodeError>
                requires { ReadsKnots F.Fn knot.now (K.tree K.CONSTRAINTS) K.IsValue inner.old.levels }
                ensures law { Decodes (K.tree K.CONSTRAINTS) K.IsValue inner.old result inner.new }
                ensures answered { FnReturnsAtMut F.Fn knot.entry.now inner.old result inner.new }
            { knot(inner) },
        ) {
            Ok(content) => Ok(Held(content)),
            Err(e) => Err(e),
        }
    }
}

/// A value of a type that may contain this one, as it is: for a list, whose elements lie apart.
#[derive(Clone, Debug, PartialEq, Eq, Drop)]
pub struct Bare<K>(pub K);

impl<K: AsnType> AsnType for Bare<K> {
    ghost TAG = { K.TAG };

    const TAG: Tag = K::TAG;

    ghost CONSTRAINTS = { K.CONSTRAINTS };

    const CONSTRAINTS: Constraints = K::CONSTRAINTS;

    ghost consistent = { K.consistent };

    const IS_CHOICE: bool = K::IS_CHOICE;
}

impl<K: Spelled> Spelled for Bare<K> {
    ghost tree = { λ c h. K.tree c h.0 };

    ghost IsValue = { λ h. K.IsValue h.0 };

    ghost is_tree = { λ c k h i. K.is_tree c k h.0 i };

    ghost alike = { λ c k g h i j. K.alike c k g.0 h.0 i j };
}

impl<K: Encode> Encode for Bare<K> {
    #[inline(always)]
    fn encode_with_tag_and_constraints(
        &self,
        encoder: &mut Encoder<'_>,
        tag: Tag,
        constraints: Constraints,
    ) -> Result<(), EncodeError> {
        self.0
            .encode_with_tag_and_constraints(encoder, tag, constraints)
    }
}

impl<K: Decode> Decode for Bare<K> {
    ghost use Rattle.std.specs.Result.{result_map_both};

    ghost Answered = { λ c s r t. K.Answered c s (result_map_both (λ h. h.0) (λ e. e) r) t };

    fn decode_with_tag_and_constraints(
        alloc: Global,
        decoder: &mut Decoder<'_>,
        tag: Tag,
        constraints: Constraints,
    ) -> Result<Bare<K>, DecodeError> {
        match K::decode_with_tag_and_constraints(alloc, decoder, tag, constraints) {
            Ok(content) => Ok(Bare(content)),
            Err(e) => Err(e),
        }
    }
}

impl<K> HoldsKnot<K> for Bare<K> {
    ghost use Rattle.oer_knots.specs.Ties.{held_tied, held_weight, held_ties};

    ghost tied = { held_tied (λ h. h.0) };

    ghost weight = { held_weight (λ h. h.0) };

    ghost ties = { held_ties (λ h. h.0) };
}

/// Reads a knot by what is handed in.
///
/// Refused as that refuses.
#[inline(always)]
fn read_knot<K: Spelled, F: Fn(&mut Decoder<'_>) -> Result<K, DecodeError>>(
    decoder: &mut Decoder<'_>,
    knot: &F,
) -> Result<K, DecodeError>
    requires { ReadsKnots F.Fn knot.now (K.tree K.CONSTRAINTS) K.IsValue decoder.old.levels }
    ensures law { Decodes (K.tree K.CONSTRAINTS) K.IsValue decoder.old result decoder.new }
    ensures answered { FnReturnsAtMut F.Fn knot.now decoder.old result decoder.new }
{
    knot(decoder)
}

impl<K: Spelled> DecodeKnot<K> for Bare<K> {
    ghost use Rattle.oer_knots.specs.Answering.{bare};

    ghost answering = { bare (λ h. h.0) };

    fn decode_knot<F: Fn(&mut Decoder<'_>) -> Result<K, DecodeError>>(
        _alloc: Global,
        decoder: &mut Decoder<'_>,
        _tag: Tag,
        knot: &F,
    ) -> Result<Bare<K>, DecodeError> {
        let content = read_knot(decoder, knot)?;
        Ok(Bare(content))
    }
}

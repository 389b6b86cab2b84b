//! A CHOICE of a cycle of types that keeps alternatives that it doesn't know.
ghost use Rattle.std.specs.Prelude.{◌≡◌, None, OnErr};
ghost use Rattle.oer_choices.specs.Choosing.{through};
ghost use Rattle.oer_kept.specs.KeptTags.{newer_at, KeptAnswers};
ghost use Rattle.oer_knots.specs.Reading.{ReadsInside};
ghost use Rattle.oer_read.specs.Lists.{FnReturnsAtMut};

use crate::choices::{KeptChoice, newer_tag, read_other};
use asn1_core::{AsnType, DecodeError, Tag};
use oer_choices::OneOf;
use oer_knots::{DecodeInside, DecodeKnot, HoldsKnot, KnotAlternating, TakesKnotAlternative};
use oer_read::Decoder;
use oer_spec::Spelled;
use std::alloc::Global;

impl<K, T: KnotAlternating<K>> HoldsKnot<K> for KeptChoice<T> {
    ghost use Rattle.oer_kept.specs.KeptKnots.{kept_tied, kept_ties, kept_weight};

    ghost tied = { kept_tied T.knot_choices T.knot_weight T.knot_alternative };

    ghost weight = { λ size w. kept_weight (T.variant_weight size) w };

    ghost ties = { kept_ties T.knot_choices T.knot_weight T.knot_alternative T.knot_ties T.variant_weight T.weighs };
}

/// Reads a choice at whose front no newer tag stands, each value of `K` in it by `knot`.
///
/// Refused as `DecodeInside` of `OneOf` refuses.
fn read_known_knots<
    K: Spelled,
    T: TakesKnotAlternative<K>,
    F: Fn(&mut Decoder<'_>) -> Result<K, DecodeError>,
>(alloc: Global, decoder: &mut Decoder<'_>, knot: &F) -> Result<KeptChoice<T>, DecodeError>
    requires none { newer_at T.row_choices.roots T.row_choices.additions T.row_choices.is_extensible decoder.old ≡ None }
    requires knots { ReadsInside F.Fn knot.now (K.tree K.CONSTRAINTS) K.IsValue decoder.old.levels }
    ensures answers { KeptAnswers (through T.alternative T.row_choices) (λ g s e. (T.refusing g).Refuses (FnReturnsAtMut F.Fn knot.now) s e) decoder.old result decoder.new }
    ensures unchanged { OnErr result (decoder.new ≡ decoder.old) }
{
    match OneOf::<T>::decode_inside::<F>(alloc, decoder, OneOf::<T>::TAG, knot) {
        Ok(choice) => Ok(KeptChoice::Known(choice.0)),
        Err(e) => Err(e),
    }
}

/// Reads an alternative of this version or a newer one, each value of `K` in it by `knot`.
fn read_kept_knots<
    K: Spelled,
    T: TakesKnotAlternative<K>,
    F: Fn(&mut Decoder<'_>) -> Result<K, DecodeError>,
>(alloc: Global, decoder: &mut Decoder<'_>, knot: &F) -> Result<KeptChoice<T>, DecodeError>
    requires knots { ReadsInside F.Fn knot.now (K.tree K.CONSTRAINTS) K.IsValue decoder.old.levels }
    ensures answers { KeptAnswers (through T.alternative T.row_choices) (λ g s e. (T.refusing g).Refuses (FnReturnsAtMut F.Fn knot.now) s e) decoder.old result decoder.new }
    ensures unchanged { OnErr result (decoder.new ≡ decoder.old) }
{
    match newer_tag::<T>(decoder) {
        Some((tag, rest)) => read_other(alloc, decoder, tag, rest),
        None => read_known_knots::<K, T, F>(alloc, decoder, knot),
    }
}

impl<K: Spelled, T: TakesKnotAlternative<K>> DecodeKnot<K> for KeptChoice<T> {
    ghost use Rattle.oer_choices.specs.Choosing.{through};
    ghost use Rattle.oer_kept.specs.KeptKnots.{of_kept};

    ghost answering = { of_kept (through T.alternative T.row_choices) T.refusing };

    fn decode_knot<F: Fn(&mut Decoder<'_>) -> Result<K, DecodeError>>(
        alloc: Global,
        decoder: &mut Decoder<'_>,
        tag: Tag,
        knot: &F,
    ) -> Result<KeptChoice<T>, DecodeError> {
        Self::decode_inside::<F>(alloc, decoder, tag, knot)
    }
}

impl<K: Spelled, T: TakesKnotAlternative<K>> DecodeInside<K> for KeptChoice<T> {
    fn decode_inside<F: Fn(&mut Decoder<'_>) -> Result<K, DecodeError>>(
        alloc: Global,
        decoder: &mut Decoder<'_>,
        _tag: Tag,
        knot: &F,
    ) -> Result<KeptChoice<T>, DecodeError> {
        read_kept_knots::<K, T, F>(alloc, decoder, knot)
    }
}

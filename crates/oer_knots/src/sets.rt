//! Sets with components that hold knots, in a row in the order of their tags: each is read as the sequence of that row.

use crate::sequences::{KnotRowed, TakesKnot};
use crate::ties::{DecodeInside, DecodeKnot, HoldsKnot};
use asn1_core::{DecodeError, Tag};
use oer_read::Decoder;
use oer_rows::{InTagOrder, Sequence, Set, TextOrder};
use oer_spec::Spelled;
use std::alloc::Global;

impl<K, const RC: usize, const EC: usize, T: KnotRowed<K> + TextOrder> HoldsKnot<K>
    for Set<T, RC, EC> {
    ghost use Rattle.oer_knots.specs.Rows.{set_tied, sequence_weight, set_ties};

    ghost tied = { set_tied T.places T.knot_schema T.extended T.knot_weight (λ v. T.knot_components v.0) };

    ghost weight = { sequence_weight T.knot_schema T.extended T.knot_weight (λ v. T.knot_components v.0) };

    ghost ties = { set_ties T.places T.knot_schema T.extended T.knot_weight (λ v. T.knot_components v.0) T.knot_ties };
}

impl<
    K: Spelled,
    const RC: usize,
    const EC: usize,
    T: InTagOrder<RC, EC> + TakesKnot<K>,
> DecodeInside<K> for Set<T, RC, EC> {
    fn decode_inside<F: Fn(&mut Decoder<'_>) -> Result<K, DecodeError>>(
        alloc: Global,
        decoder: &mut Decoder<'_>,
        tag: Tag,
        knot: &F,
    ) -> Result<Set<T, RC, EC>, DecodeError> {
        match Sequence::<T, RC, EC>::decode_inside::<F>(alloc, decoder, tag, knot) {
            Ok(sequence) => Ok(Set(sequence.0)),
            Err(e) => Err(e),
        }
    }
}

impl<K: Spelled, const RC: usize, const EC: usize, T: InTagOrder<RC, EC> + TakesKnot<K>> DecodeKnot<
    K,
> for Set<T, RC, EC> {
    ghost use Rattle.oer_knots.specs.Answering.{of_row};

    ghost answering = { of_row T.row_schema T.EXTENSIBLE T.refusing };

    fn decode_knot<F: Fn(&mut Decoder<'_>) -> Result<K, DecodeError>>(
        alloc: Global,
        decoder: &mut Decoder<'_>,
        tag: Tag,
        knot: &F,
    ) -> Result<Set<T, RC, EC>, DecodeError> {
        Self::decode_inside::<F>(alloc, decoder, tag, knot)
    }
}

//! Lists of values that hold knots.
ghost use Rattle.std.specs.Prelude.{◌<◌};
ghost use Rattle.oer_read.specs.Law.{Promised};
ghost use Rattle.oer_read.specs.Lists.{FnReturnsAtMut};
ghost use Rattle.oer_knots.specs.Reading.{ReadsKnots};

use crate::ties::{DecodeInside, DecodeKnot, HoldsKnot};
use asn1_core::{AsnType, DecodeError, Tag};
use oer_read::Decoder;
use oer_rows::ListOf;
use oer_spec::Spelled;
use std::alloc::Global;

impl<K, B: HoldsKnot<K>> HoldsKnot<K> for ListOf<B> {
    ghost use denote.Param.Weighed.{most};
    ghost use Rattle.oer_knots.specs.Lists.{list_tied, list_ties};

    ghost tied = { list_tied (λ vs. vs) B.tied B.weight };

    ghost weight = { λ size v. most (B.weight size) v };

    ghost ties = { list_ties (λ vs. vs) B.tied B.weight B.ties };
}

impl<K: Spelled, B: DecodeKnot<K>> DecodeKnot<K> for ListOf<B> {
    ghost use Rattle.oer_knots.specs.Answering.{promised, of_list};

    ghost answering = { of_list (λ vs. vs) (promised (B.tree B.CONSTRAINTS) B.IsValue B.answering) };

    fn decode_knot<F: Fn(&mut Decoder<'_>) -> Result<K, DecodeError>>(
        alloc: Global,
        decoder: &mut Decoder<'_>,
        tag: Tag,
        knot: &F,
    ) -> Result<ListOf<B>, DecodeError> {
        Self::decode_inside::<F>(alloc, decoder, tag, knot)
    }
}

impl<K: Spelled, B: DecodeKnot<K>> DecodeInside<K> for ListOf<B> {
    fn decode_inside<F: Fn(&mut Decoder<'_>) -> Result<K, DecodeError>>(
        alloc: Global,
        decoder: &mut Decoder<'_>,
        tag: Tag,
        knot: &F,
    ) -> Result<ListOf<B>, DecodeError> {
        let items = decoder.decode_sequence_of_with::<B, _>(
            alloc,
            tag,
            ListOf::<B>::CONSTRAINTS,
            |inner: &mut Decoder<'_>| -> Result<B, DecodeError>
                requires { ReadsKnots F.Fn knot.now (K.tree K.CONSTRAINTS) K.IsValue inner.old.levels }
                ensures { Promised (B.tree B.CONSTRAINTS) B.IsValue (B.answering.Answered (FnReturnsAtMut F.Fn knot.entry.now)) inner.old result inner.new }
            { B::decode_knot(alloc, inner, B::TAG, knot) },
        )?;
        Ok(ListOf(items))
    }
}

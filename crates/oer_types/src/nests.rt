//! A list of itself.
ghost use Rattle.std.specs.Prelude.{OnOk, IfErr, refl};
ghost use Rattle.oer_write.specs.Written.{Encodes, Refused};
ghost use Rattle.asn1_core.specs.declared.constraints.TheConstants.Constraints.{NONE};
ghost use Rattle.asn1_core.specs.declared.tag.TheConstants.Tag.{SEQUENCE};
ghost use Rattle.rasn_oer.specs.Answering.{KnotAnswers};
ghost use Rattle.rasn_oer.specs.Knots.{knot, knot_layers, layer, knot_layered};

use rasn_oer::prelude::*;
use std::alloc::Global;

/// `Nest ::= SEQUENCE OF Nest`
#[derive(Debug, PartialEq, Eq, Drop)]
pub struct Nest(pub NestContent<Nest>);

/// What a `Nest` holds.
pub type NestContent<K> = ListOf<Bare<K>>;

impl AsnType for Nest {
    ghost TAG = { SEQUENCE };

    const TAG: Tag = Tag::SEQUENCE;

    ghost CONSTRAINTS = { NONE };

    const CONSTRAINTS: Constraints = Constraints::NONE;

    ghost consistent = { refl };
}

impl Spelled for Nest {
    ghost use Rattle.oer_types.specs.Nests.{nest_tree, IsNest, nest_is, nests_alike};

    ghost tree = { λ c v. nest_tree v };

    ghost IsValue = { IsNest };

    ghost is_tree = { λ c k v i. nest_is v };

    ghost alike = { λ c k v w i j. nests_alike v w };
}

impl EqualAsSpelled for Nest {
    ghost use Rattle.oer_types.specs.SameNests.{nests_same};

    ghost eq_is_same = { λ c k v w i j. nests_same v w };
}

impl Layered for Nest {
    ghost use Rattle.oer_types.specs.Nests.{nest_content, nest_tied, nest_weight, nest_knotted};
    ghost use Rattle.oer_types.specs.declared.nests.Nest.{size-Nest};

    ghost inner = { layer size-Nest nest_content nest_tied (knot size-Nest nest_content nest_tied) };

    ghost layers = { knot_layers size-Nest nest_content nest_tied nest_weight nest_knotted };
}

/// Writes what a `Nest` holds.
#[inline(always)]
fn encode_content<K: Encode>(
    inner: &NestContent<K>,
    encoder: &mut Encoder<'_>,
    tag: Tag,
) -> Result<(), EncodeError>
    ensures done { OnOk result (Encodes (⟦<NestContent<K> as Spelled>⟧.tree NONE inner.now) encoder.old encoder.new) }
    ensures value { OnOk result (⟦<NestContent<K> as Spelled>⟧.IsValue inner.now) }
    ensures refused { IfErr result (λ x. Refused (⟦<NestContent<K> as Spelled>⟧.tree NONE inner.now) x encoder.old encoder.new) }
{
    inner.encode_with_tag(encoder, tag)
}

impl Encode for Nest {
    #[inline(always)]
    fn encode_with_tag_and_constraints(
        &self,
        encoder: &mut Encoder<'_>,
        tag: Tag,
        _constraints: Constraints,
    ) -> Result<(), EncodeError> {
        layer_of::<Nest>(self);
        encode_content::<Nest>(&self.0, encoder, tag)
    }
}

impl Knot<NestContent<Nest>> for Nest {
    ghost use Rattle.oer_types.specs.Nests.{nest_content, nest_tied, nest_weight, nest_knotted};
    ghost use Rattle.oer_types.specs.declared.nests.Nest.{size-Nest};

    ghost content = { nest_content };

    fn from_content(inner: NestContent<Nest>) -> Nest {
        Nest(inner)
    }

    ghost layered = { knot_layered size-Nest nest_content nest_tied nest_weight nest_knotted };
}

impl Decode for Nest {
    ghost Answered = { λ c s r t. KnotAnswers ⟦<Nest as Knot<NestContent<Nest>>>⟧.content ⟦<NestContent<Nest> as DecodeKnot<Nest>>⟧.answering s r t };

    fn decode_with_tag_and_constraints(
        alloc: Global,
        decoder: &mut Decoder<'_>,
        tag: Tag,
        _constraints: Constraints,
    ) -> Result<Nest, DecodeError> {
        decode_list_of_itself::<Bare<Nest>, Nest>(alloc, decoder, tag)
    }
}

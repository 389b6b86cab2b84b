//! Types of ASN.1 modules, as oergen printed them.
ghost use Rattle.std.specs.Prelude.{OnOk, IfErr};
ghost use Rattle.oer_write.specs.Written.{Encodes, Refused};
ghost use Rattle.asn1_core.specs.declared.constraints.TheConstants.Constraints.{NONE};

use rasn_oer::prelude::*;
use std::alloc::Global;

/// `Chain ::= SEQUENCE { ok BOOLEAN, ..., next Chain OPTIONAL }`
#[derive(Debug, PartialEq, Eq, Drop)]
pub struct Chain(pub ChainContent<Chain>);

/// What a `Chain` holds.
pub type ChainContent<K> = Sequence<ChainComponents<K>, 1, 1>;

pub use chain_components::Chain as ChainComponents;

mod chain_components {
    use super::*;

    /// The components of `Chain`.
    #[derive(Debug, PartialEq, Eq, Drop)]
    pub struct Chain<K> {
        pub ok: bool,
        pub next: Option<Held<K>>,
    }
}

type ChainRow<K> = Required<Context<0>, bool, Extensible<ChainAdditions<K>>>;

type ChainAdditions<K> = OptionalAdditionKnot<Context<1>, Held<K>, End>;

impl<K> KnotRowed<K> for ChainComponents<K> {
    ghost use Rattle.rasn_oer.specs.Values.{both};

    type KnotValues = <ChainRow<K> as KnotRow<K>>::Values;

    ghost extended = { ⟦<ChainRow<K> as KnotRow<K>>⟧.EXTENSIBLE };

    ghost knot_schema = { ⟦<ChainRow<K> as KnotRow<K>>⟧.schema };

    ghost knot_weight = { ⟦<ChainRow<K> as KnotRow<K>>⟧.weight };

    ghost knot_ties = { ⟦<ChainRow<K> as KnotRow<K>>⟧.ties };

    ghost knot_components = { λ v. both v.ok (both v.next tt) };
}

impl<K: Encode> TakesKnot<K> for ChainComponents<K> {
    ghost refusing = { ⟦<ChainRow<K> as ReadsKnot<K>>⟧.refusing };

    fn take_knot<F: Fn(&mut Decoder<'_>) -> Result<K, DecodeError>>(
        alloc: Global,
        decoder: &mut Decoder<'_>,
        knot: &F,
    ) -> Result<Self, DecodeError> {
        read_knot_row::<K, Self, ChainRow<K>, F>(alloc, decoder, knot)
    }
}

impl<K: Encode> Rowed for ChainComponents<K> {
    ghost use Rattle.rasn_oer.specs.Values.{both};

    type Values = <ChainRow<K> as Components>::Values;

    ghost EXTENSIBLE = { ⟦<ChainRow<K> as Components>⟧.EXTENSIBLE };

    const EXTENSIBLE: bool = true;

    ghost row_schema = { ⟦<ChainRow<K> as Components>⟧.schema };

    ghost row_is_schema = { ⟦<ChainRow<K> as Components>⟧.is_schema };

    ghost components = { λ v. both v.ok (both v.next tt) };

    fn from_row(row: Self::Values) -> Self {
        built![ChainComponents from row:
            ok,
            next
        ]
    }
}

impl<K: Encode + Decode> Takes for ChainComponents<K> {
    ghost Refuses = { ⟦<ChainRow<K> as Reads>⟧.Refuses };

    #[inline(always)]
    fn take(alloc: Global, decoder: &mut Decoder<'_>) -> Result<Self, DecodeError> {
        read_row::<Self, ChainRow<K>>(alloc, decoder)
    }
}

const CHAIN_COMPONENTS: &'static [Field<'static>] = fields![
    0 Required Context 0 "ok"
];

const CHAIN_ADDITIONS: &'static [Field<'static>] = fields![
    0 Optional Context 1 "next"
];

impl<K: Encode> Tabled<1, 1> for ChainComponents<K> {
    ghost use Rattle.std.specs.Prelude.{refl};

    const FIELDS: Fields<1> = Fields {
        fields: CHAIN_COMPONENTS,
    };

    const EXTENDED_FIELDS: Option<Fields<1>> = Some(Fields {
        fields: CHAIN_ADDITIONS,
    });

    fn root_fields() -> &'static [Field<'static>] {
        CHAIN_COMPONENTS
    }

    fn addition_fields() -> &'static [Field<'static>] {
        CHAIN_ADDITIONS
    }

    #[inline(always)]
    fn put(&self, encoder: &mut Encoder<'_>) -> Result<(), EncodeError> {
        let view = views![self:
            ok,
            next
        ];
        ChainRow::<K>::write(&view, encoder)
    }

    ghost counts = { (refl, refl) };
}

impl AsnType for Chain {
    ghost use Rattle.std.specs.Prelude.{refl};
    ghost use Rattle.asn1_core.specs.declared.tag.TheConstants.Tag.{SEQUENCE};
    ghost use Rattle.asn1_core.specs.declared.constraints.TheConstants.Constraints.{NONE};

    ghost TAG = { SEQUENCE };

    const TAG: Tag = Tag::SEQUENCE;

    ghost CONSTRAINTS = { NONE };

    const CONSTRAINTS: Constraints = Constraints::NONE;

    ghost consistent = { refl };
}

impl Spelled for Chain {
    ghost use Rattle.rasn_oer.specs.Knots.{knot_tree, IsKnot, knot_typed};
    ghost use Rattle.example_words.specs.ChainWeights.{chain_smaller};
    ghost use Rattle.example_words.specs.declared.types_02.Chain.{out-Chain, size-Chain};

    ghost tree = { λ c v. knot_tree size-Chain (λ v. (out-Chain v).0) ⟦<ChainContent<Chain> as HoldsKnot<Chain>>⟧.tied v };

    ghost IsValue = { IsKnot size-Chain (λ v. (out-Chain v).0) ⟦<ChainContent<Chain> as HoldsKnot<Chain>>⟧.tied };

    ghost is_tree = { λ c k v i. (knot_typed size-Chain (λ v. (out-Chain v).0) ⟦<ChainContent<Chain> as HoldsKnot<Chain>>⟧.tied ⟦<ChainContent<Chain> as HoldsKnot<Chain>>⟧.weight (record { ties = ⟦<ChainContent<Chain> as HoldsKnot<Chain>>⟧.ties; smaller = chain_smaller })).is v i };

    ghost alike = { λ c k v w i j. (knot_typed size-Chain (λ v. (out-Chain v).0) ⟦<ChainContent<Chain> as HoldsKnot<Chain>>⟧.tied ⟦<ChainContent<Chain> as HoldsKnot<Chain>>⟧.weight (record { ties = ⟦<ChainContent<Chain> as HoldsKnot<Chain>>⟧.ties; smaller = chain_smaller })).like v w i j };
}

impl Layered for Chain {
    ghost use Rattle.rasn_oer.specs.Knots.{knot, knot_layers, layer};
    ghost use Rattle.example_words.specs.ChainWeights.{chain_smaller};
    ghost use Rattle.example_words.specs.declared.types_02.Chain.{out-Chain, size-Chain};

    ghost inner = { layer size-Chain (λ v. (out-Chain v).0) ⟦<ChainContent<Chain> as HoldsKnot<Chain>>⟧.tied (knot size-Chain (λ v. (out-Chain v).0) ⟦<ChainContent<Chain> as HoldsKnot<Chain>>⟧.tied) };

    ghost layers = { knot_layers size-Chain (λ v. (out-Chain v).0) ⟦<ChainContent<Chain> as HoldsKnot<Chain>>⟧.tied ⟦<ChainContent<Chain> as HoldsKnot<Chain>>⟧.weight (record { ties = ⟦<ChainContent<Chain> as HoldsKnot<Chain>>⟧.ties; smaller = chain_smaller }) };
}

/// Writes what a `Chain` holds.
#[inline(always)]
fn encode_chain<K: Encode>(
    inner: &ChainContent<K>,
    encoder: &mut Encoder<'_>,
    tag: Tag,
) -> Result<(), EncodeError>
    ensures done { OnOk result (Encodes (⟦<ChainContent<K> as Spelled>⟧.tree NONE inner.now) encoder.old encoder.new) }
    ensures value { OnOk result (⟦<ChainContent<K> as Spelled>⟧.IsValue inner.now) }
    ensures refused { IfErr result (λ x. Refused (⟦<ChainContent<K> as Spelled>⟧.tree NONE inner.now) x encoder.old encoder.new) }
{
    inner.encode_with_tag(encoder, tag)
}

impl Encode for Chain {
    #[inline(always)]
    fn encode_with_tag_and_constraints(
        &self,
        encoder: &mut Encoder<'_>,
        tag: Tag,
        _constraints: Constraints,
    ) -> Result<(), EncodeError> {
        layer_of::<Chain>(self);
        encode_chain::<Chain>(&self.0, encoder, tag)
    }
}

impl Knot<ChainContent<Chain>> for Chain {
    ghost use Rattle.rasn_oer.specs.Knots.{knot_layered};
    ghost use Rattle.example_words.specs.ChainWeights.{chain_smaller};
    ghost use Rattle.example_words.specs.declared.types_02.Chain.{out-Chain, size-Chain};

    ghost content = { λ v. (out-Chain v).0 };

    fn from_content(inner: ChainContent<Chain>) -> Chain {
        Chain(inner)
    }

    ghost layered = { knot_layered size-Chain (λ v. (out-Chain v).0) ⟦<ChainContent<Chain> as HoldsKnot<Chain>>⟧.tied ⟦<ChainContent<Chain> as HoldsKnot<Chain>>⟧.weight (record { ties = ⟦<ChainContent<Chain> as HoldsKnot<Chain>>⟧.ties; smaller = chain_smaller }) };
}

impl Decode for Chain {
    ghost use Rattle.rasn_oer.specs.Answering.{KnotAnswers};

    ghost Answered = { λ c s r t. KnotAnswers ⟦<Chain as Knot<ChainContent<Chain>>>⟧.content ⟦<ChainContent<Chain> as DecodeKnot<Chain>>⟧.answering s r t };

    fn decode_with_tag_and_constraints(
        alloc: Global,
        decoder: &mut Decoder<'_>,
        tag: Tag,
        _constraints: Constraints,
    ) -> Result<Chain, DecodeError> {
        decode_knotted::<ChainContent<Self>, Self>(alloc, decoder, tag)
    }
}

/// `LinkChoice ::= CHOICE { a BOOLEAN, b Link }`
pub type LinkChoice = LinkChoiceContent<Link>;

/// A `LinkChoice` with `K` in the place of `Link`.
pub type LinkChoiceContent<K> = OneOf<LinkChoiceAlternatives<K>>;

/// The alternatives of `LinkChoice`.
#[derive(Debug, PartialEq, Eq, Drop)]
pub enum LinkChoiceAlternatives<K> {
    A(bool),
    B(Held<K>),
}

type LinkChoiceRow<K> = Alternative<Context<0>, bool, AlternativeKnot<Context<1>, Held<K>, End>>;

const LINKCHOICE_ROOTS: &'static [Tag] = tags![Context 0, Context 1];

impl<K> KnotAlternating<K> for LinkChoiceAlternatives<K> {
    ghost use Rattle.std.specs.Prelude.{refl};
    ghost use Rattle.rasn_oer.specs.Alternative.{First, Rest};
    ghost use Rattle.example_words.specs.LinkWeights.{link_choice_weight};
    ghost use Rattle.example_words.specs.declared.types_02.LinkChoiceAlternatives.TheVariants.{A, B};

    type KnotValues = <LinkChoiceRow<K> as KnotAlternatives<K>>::Values;

    ghost knot_choices = { ⟦<LinkChoiceRow<K> as KnotAlternatives<K>>⟧.choices };

    ghost knot_weight = { ⟦<LinkChoiceRow<K> as KnotAlternatives<K>>⟧.weight };

    ghost knot_ties = { ⟦<LinkChoiceRow<K> as KnotAlternatives<K>>⟧.ties };

    ghost knot_alternative = { elim [ A held ↦ First held | B held ↦ Rest (First held) ] };

    ghost variant_weight = { link_choice_weight };

    ghost weighs = { λ size. elim [ A held ↦ refl | B held ↦ refl ] };
}

impl<K: Encode> TakesKnotAlternative<K> for LinkChoiceAlternatives<K> {
    ghost refusing = { ⟦<LinkChoiceRow<K> as ReadsKnotAlternatives<K>>⟧.refusing };

    fn take_knot<D: Choice, F: Fn(&mut Decoder<'_>) -> Result<K, DecodeError>>(
        alloc: Global,
        decoder: &mut Decoder<'_>,
        tag: Tag,
        knot: &F,
    ) -> Result<Self, DecodeError> {
        read_knot_alternative::<K, Self, LinkChoiceRow<K>, D, F>(alloc, decoder, tag, knot)
    }
}

impl<K: Encode> Alternating for LinkChoiceAlternatives<K> {
    ghost use Rattle.std.specs.Prelude.{refl};
    ghost use Rattle.rasn_oer.specs.Alternative.{First, Rest};
    ghost use Rattle.example_words.specs.declared.types_02.LinkChoiceAlternatives.TheVariants.{A, B};

    type Values = <LinkChoiceRow<K> as Alternatives>::Values;

    ghost row_choices = { ⟦<LinkChoiceRow<K> as Alternatives>⟧.choices };

    ghost row_are_choices = { ⟦<LinkChoiceRow<K> as Alternatives>⟧.are_choices };

    ghost alternative = { elim [ A held ↦ First held | B held ↦ Rest (First held) ] };

    const VARIANTS: &'static [Tag] = LINKCHOICE_ROOTS;

    const EXTENDED_VARIANTS: Option<&'static [Tag]> = None;

    fn root_tags() -> &'static [Tag] {
        LINKCHOICE_ROOTS
    }

    fn addition_tags() -> Option<&'static [Tag]> {
        None
    }

    fn from_alternative(value: Self::Values) -> Self {
        from_row!(value => LinkChoiceAlternatives: A, B)
    }

    #[inline(always)]
    fn put<E: Choice>(&self, encoder: &mut Encoder<'_>) -> Result<(), EncodeError> {
        match self {
            Self::A(held) => put_alternative::<E, _>(encoder, Context::<0>::tag(), held),
            Self::B(held) => put_alternative::<E, _>(encoder, Context::<1>::tag(), held),
        }
    }

    ghost apart = { refl };
}

impl<K: Encode + Decode> TakesAlternative for LinkChoiceAlternatives<K> {
    ghost Refuses = { ⟦<LinkChoiceRow<K> as ReadsAlternatives>⟧.Refuses };

    fn take<D: Choice>(
        alloc: Global,
        decoder: &mut Decoder<'_>,
        tag: Tag,
    ) -> Result<Self, DecodeError> {
        read_alternative::<Self, LinkChoiceRow<K>, D>(alloc, decoder, tag)
    }
}

/// `Link ::= SEQUENCE { a INTEGER OPTIONAL, b LinkChoice }`
#[derive(Debug, PartialEq, Eq, Drop)]
pub struct Link(pub LinkContent<Link>);

/// What a `Link` holds.
pub type LinkContent<K> = Sequence<LinkComponents<K>, 2, 0>;

pub use link_components::Link as LinkComponents;

mod link_components {
    use super::*;

    /// The components of `Link`.
    #[derive(Debug, PartialEq, Eq, Drop)]
    pub struct Link<K> {
        pub a: Option<Integer>,
        pub b: LinkChoiceContent<K>,
    }
}

type LinkRow<K> = Optional<
    Context<0>,
    Integer,
    RequiredKnot<Context<1>, LinkChoiceContent<K>, End>,
>;

impl<K> KnotRowed<K> for LinkComponents<K> {
    ghost use Rattle.rasn_oer.specs.Values.{both};

    type KnotValues = <LinkRow<K> as KnotRow<K>>::Values;

    ghost extended = { ⟦<LinkRow<K> as KnotRow<K>>⟧.EXTENSIBLE };

    ghost knot_schema = { ⟦<LinkRow<K> as KnotRow<K>>⟧.schema };

    ghost knot_weight = { ⟦<LinkRow<K> as KnotRow<K>>⟧.weight };

    ghost knot_ties = { ⟦<LinkRow<K> as KnotRow<K>>⟧.ties };

    ghost knot_components = { λ v. both v.a (both v.b tt) };
}

impl<K: Encode> TakesKnot<K> for LinkComponents<K> {
    ghost refusing = { ⟦<LinkRow<K> as ReadsKnot<K>>⟧.refusing };

    fn take_knot<F: Fn(&mut Decoder<'_>) -> Result<K, DecodeError>>(
        alloc: Global,
        decoder: &mut Decoder<'_>,
        knot: &F,
    ) -> Result<Self, DecodeError> {
        read_knot_row::<K, Self, LinkRow<K>, F>(alloc, decoder, knot)
    }
}

impl<K: Encode> Rowed for LinkComponents<K> {
    ghost use Rattle.rasn_oer.specs.Values.{both};

    type Values = <LinkRow<K> as Components>::Values;

    ghost EXTENSIBLE = { ⟦<LinkRow<K> as Components>⟧.EXTENSIBLE };

    const EXTENSIBLE: bool = false;

    ghost row_schema = { ⟦<LinkRow<K> as Components>⟧.schema };

    ghost row_is_schema = { ⟦<LinkRow<K> as Components>⟧.is_schema };

    ghost components = { λ v. both v.a (both v.b tt) };

    fn from_row(row: Self::Values) -> Self {
        built![LinkComponents from row:
            a,
            b
        ]
    }
}

impl<K: Encode + Decode> Takes for LinkComponents<K> {
    ghost Refuses = { ⟦<LinkRow<K> as Reads>⟧.Refuses };

    #[inline(always)]
    fn take(alloc: Global, decoder: &mut Decoder<'_>) -> Result<Self, DecodeError> {
        read_row::<Self, LinkRow<K>>(alloc, decoder)
    }
}

const LINK_COMPONENTS: &'static [Field<'static>] = fields![
    0 Optional Context 0 "a",
    1 Required Context 1 "b"
];

impl<K: Encode> Tabled<2, 0> for LinkComponents<K> {
    ghost use Rattle.std.specs.Prelude.{refl};

    const FIELDS: Fields<2> = Fields {
        fields: LINK_COMPONENTS,
    };

    const EXTENDED_FIELDS: Option<Fields<0>> = None;

    fn root_fields() -> &'static [Field<'static>] {
        LINK_COMPONENTS
    }

    fn addition_fields() -> &'static [Field<'static>] {
        &[]
    }

    #[inline(always)]
    fn put(&self, encoder: &mut Encoder<'_>) -> Result<(), EncodeError> {
        let view = views![self:
            a,
            b
        ];
        LinkRow::<K>::write(&view, encoder)
    }

    ghost counts = { (refl, refl) };
}

impl AsnType for Link {
    ghost use Rattle.std.specs.Prelude.{refl};
    ghost use Rattle.asn1_core.specs.declared.tag.TheConstants.Tag.{SEQUENCE};
    ghost use Rattle.asn1_core.specs.declared.constraints.TheConstants.Constraints.{NONE};

    ghost TAG = { SEQUENCE };

    const TAG: Tag = Tag::SEQUENCE;

    ghost CONSTRAINTS = { NONE };

    const CONSTRAINTS: Constraints = Constraints::NONE;

    ghost consistent = { refl };
}

impl Spelled for Link {
    ghost use Rattle.rasn_oer.specs.Knots.{knot_tree, IsKnot, knot_typed};
    ghost use Rattle.example_words.specs.LinkWeights.{link_smaller};
    ghost use Rattle.example_words.specs.declared.types_02.Link.{out-Link, size-Link};

    ghost tree = { λ c v. knot_tree size-Link (λ v. (out-Link v).0) ⟦<LinkContent<Link> as HoldsKnot<Link>>⟧.tied v };

    ghost IsValue = { IsKnot size-Link (λ v. (out-Link v).0) ⟦<LinkContent<Link> as HoldsKnot<Link>>⟧.tied };

    ghost is_tree = { λ c k v i. (knot_typed size-Link (λ v. (out-Link v).0) ⟦<LinkContent<Link> as HoldsKnot<Link>>⟧.tied ⟦<LinkContent<Link> as HoldsKnot<Link>>⟧.weight (record { ties = ⟦<LinkContent<Link> as HoldsKnot<Link>>⟧.ties; smaller = link_smaller })).is v i };

    ghost alike = { λ c k v w i j. (knot_typed size-Link (λ v. (out-Link v).0) ⟦<LinkContent<Link> as HoldsKnot<Link>>⟧.tied ⟦<LinkContent<Link> as HoldsKnot<Link>>⟧.weight (record { ties = ⟦<LinkContent<Link> as HoldsKnot<Link>>⟧.ties; smaller = link_smaller })).like v w i j };
}

impl Layered for Link {
    ghost use Rattle.rasn_oer.specs.Knots.{knot, knot_layers, layer};
    ghost use Rattle.example_words.specs.LinkWeights.{link_smaller};
    ghost use Rattle.example_words.specs.declared.types_02.Link.{out-Link, size-Link};

    ghost inner = { layer size-Link (λ v. (out-Link v).0) ⟦<LinkContent<Link> as HoldsKnot<Link>>⟧.tied (knot size-Link (λ v. (out-Link v).0) ⟦<LinkContent<Link> as HoldsKnot<Link>>⟧.tied) };

    ghost layers = { knot_layers size-Link (λ v. (out-Link v).0) ⟦<LinkContent<Link> as HoldsKnot<Link>>⟧.tied ⟦<LinkContent<Link> as HoldsKnot<Link>>⟧.weight (record { ties = ⟦<LinkContent<Link> as HoldsKnot<Link>>⟧.ties; smaller = link_smaller }) };
}

/// Writes what a `Link` holds.
#[inline(always)]
fn encode_link<K: Encode>(
    inner: &LinkContent<K>,
    encoder: &mut Encoder<'_>,
    tag: Tag,
) -> Result<(), EncodeError>
    ensures done { OnOk result (Encodes (⟦<LinkContent<K> as Spelled>⟧.tree NONE inner.now) encoder.old encoder.new) }
    ensures value { OnOk result (⟦<LinkContent<K> as Spelled>⟧.IsValue inner.now) }
    ensures refused { IfErr result (λ x. Refused (⟦<LinkContent<K> as Spelled>⟧.tree NONE inner.now) x encoder.old encoder.new) }
{
    inner.encode_with_tag(encoder, tag)
}

impl Encode for Link {
    #[inline(always)]
    fn encode_with_tag_and_constraints(
        &self,
        encoder: &mut Encoder<'_>,
        tag: Tag,
        _constraints: Constraints,
    ) -> Result<(), EncodeError> {
        layer_of::<Link>(self);
        encode_link::<Link>(&self.0, encoder, tag)
    }
}

impl Knot<LinkContent<Link>> for Link {
    ghost use Rattle.rasn_oer.specs.Knots.{knot_layered};
    ghost use Rattle.example_words.specs.LinkWeights.{link_smaller};
    ghost use Rattle.example_words.specs.declared.types_02.Link.{out-Link, size-Link};

    ghost content = { λ v. (out-Link v).0 };

    fn from_content(inner: LinkContent<Link>) -> Link {
        Link(inner)
    }

    ghost layered = { knot_layered size-Link (λ v. (out-Link v).0) ⟦<LinkContent<Link> as HoldsKnot<Link>>⟧.tied ⟦<LinkContent<Link> as HoldsKnot<Link>>⟧.weight (record { ties = ⟦<LinkContent<Link> as HoldsKnot<Link>>⟧.ties; smaller = link_smaller }) };
}

impl Decode for Link {
    ghost use Rattle.rasn_oer.specs.Answering.{KnotAnswers};

    ghost Answered = { λ c s r t. KnotAnswers ⟦<Link as Knot<LinkContent<Link>>>⟧.content ⟦<LinkContent<Link> as DecodeKnot<Link>>⟧.answering s r t };

    fn decode_with_tag_and_constraints(
        alloc: Global,
        decoder: &mut Decoder<'_>,
        tag: Tag,
        _constraints: Constraints,
    ) -> Result<Link, DecodeError> {
        decode_knotted::<LinkContent<Self>, Self>(alloc, decoder, tag)
    }
}

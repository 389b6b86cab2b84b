//! Types of ASN.1 modules, as oergen printed them.
ghost use Rattle.std.specs.Prelude.{OnOk, IfErr};
ghost use Rattle.oer_write.specs.Written.{Encodes, Refused};
ghost use Rattle.asn1_core.specs.declared.constraints.TheConstants.Constraints.{NONE};

use oer_kept::KeptChoice;
use rasn_oer::prelude::*;
use std::alloc::Global;

/// By an optional component, behind and in front of others.
///
/// `Node ::= SEQUENCE { value INTEGER (0..255), next Node OPTIONAL, last BOOLEAN DEFAULT FALSE }`
#[derive(Clone, Debug, PartialEq, Eq, Drop)]
pub struct Node(pub NodeContent<Node>);

/// What a `Node` holds.
pub type NodeContent<K> = Sequence<NodeComponents<K>, 3, 0>;

pub use node_components::Node as NodeComponents;

mod node_components {
    use super::*;

    /// The components of `Node`.
    #[derive(Clone, Debug, PartialEq, Eq, Drop)]
    pub struct Node<K> {
        pub value: u8,
        pub next: Option<Held<K>>,
        pub last: bool,
    }
}

type NodeRow<K> = Required<
    Context<0>,
    u8,
    OptionalKnot<Context<1>, Held<K>, Defaulted<Context<2>, bool, IsFalse, End>>,
>;

impl<K> KnotRowed<K> for NodeComponents<K> {
    ghost use Rattle.rasn_oer.specs.Values.{both};

    type KnotValues = <NodeRow<K> as KnotRow<K>>::Values;

    ghost extended = { ⟦<NodeRow<K> as KnotRow<K>>⟧.EXTENSIBLE };

    ghost knot_schema = { ⟦<NodeRow<K> as KnotRow<K>>⟧.schema };

    ghost knot_weight = { ⟦<NodeRow<K> as KnotRow<K>>⟧.weight };

    ghost knot_ties = { ⟦<NodeRow<K> as KnotRow<K>>⟧.ties };

    ghost knot_components = { λ v. both v.value (both v.next (both v.last tt)) };
}

impl<K: Encode> TakesKnot<K> for NodeComponents<K> {
    ghost refusing = { ⟦<NodeRow<K> as ReadsKnot<K>>⟧.refusing };

    fn take_knot<F: Fn(&mut Decoder<'_>) -> Result<K, DecodeError>>(
        alloc: Global,
        decoder: &mut Decoder<'_>,
        knot: &F,
    ) -> Result<Self, DecodeError> {
        read_knot_row::<K, Self, NodeRow<K>, F>(alloc, decoder, knot)
    }
}

impl<K: Encode> Rowed for NodeComponents<K> {
    ghost use Rattle.rasn_oer.specs.Values.{both};

    type Values = <NodeRow<K> as Components>::Values;

    ghost EXTENSIBLE = { ⟦<NodeRow<K> as Components>⟧.EXTENSIBLE };

    const EXTENSIBLE: bool = false;

    ghost row_schema = { ⟦<NodeRow<K> as Components>⟧.schema };

    ghost row_is_schema = { ⟦<NodeRow<K> as Components>⟧.is_schema };

    ghost components = { λ v. both v.value (both v.next (both v.last tt)) };

    fn from_row(row: Self::Values) -> Self {
        built![NodeComponents from row:
            value,
            next,
            last
        ]
    }
}

impl<K: Encode + Decode> Takes for NodeComponents<K> {
    ghost Refuses = { ⟦<NodeRow<K> as Reads>⟧.Refuses };

    #[inline(always)]
    fn take(alloc: Global, decoder: &mut Decoder<'_>) -> Result<Self, DecodeError> {
        read_row::<Self, NodeRow<K>>(alloc, decoder)
    }
}

const NODE_COMPONENTS: &'static [Field<'static>] = fields![
    0 Required Context 0 "value",
    1 Optional Context 1 "next",
    2 Default Context 2 "last"
];

impl<K: Encode> Tabled<3, 0> for NodeComponents<K> {
    ghost use Rattle.std.specs.Prelude.{refl};

    const FIELDS: Fields<3> = Fields {
        fields: NODE_COMPONENTS,
    };

    const EXTENDED_FIELDS: Option<Fields<0>> = None;

    fn root_fields() -> &'static [Field<'static>] {
        NODE_COMPONENTS
    }

    fn addition_fields() -> &'static [Field<'static>] {
        &[]
    }

    #[inline(always)]
    fn put(&self, encoder: &mut Encoder<'_>) -> Result<(), EncodeError> {
        let view = views![self:
            value,
            next,
            last
        ];
        NodeRow::<K>::write(&view, encoder)
    }

    ghost counts = { (refl, refl) };
}

impl AsnType for Node {
    ghost use Rattle.std.specs.Prelude.{refl};
    ghost use Rattle.asn1_core.specs.declared.tag.TheConstants.Tag.{SEQUENCE};
    ghost use Rattle.asn1_core.specs.declared.constraints.TheConstants.Constraints.{NONE};

    ghost TAG = { SEQUENCE };

    const TAG: Tag = Tag::SEQUENCE;

    ghost CONSTRAINTS = { NONE };

    const CONSTRAINTS: Constraints = Constraints::NONE;

    ghost consistent = { refl };
}

impl Spelled for Node {
    ghost use Rattle.rasn_oer.specs.Knots.{knot_tree, IsKnot, knot_typed};
    ghost use Rattle.example_recursive.specs.NodeWeights.{node_smaller};
    ghost use Rattle.example_recursive.specs.declared.types_01.Node.{out-Node, size-Node};

    ghost tree = { λ c v. knot_tree size-Node (λ v. (out-Node v).0) ⟦<NodeContent<Node> as HoldsKnot<Node>>⟧.tied v };

    ghost IsValue = { IsKnot size-Node (λ v. (out-Node v).0) ⟦<NodeContent<Node> as HoldsKnot<Node>>⟧.tied };

    ghost is_tree = { λ c k v i. (knot_typed size-Node (λ v. (out-Node v).0) ⟦<NodeContent<Node> as HoldsKnot<Node>>⟧.tied ⟦<NodeContent<Node> as HoldsKnot<Node>>⟧.weight (record { ties = ⟦<NodeContent<Node> as HoldsKnot<Node>>⟧.ties; smaller = node_smaller })).is v i };

    ghost alike = { λ c k v w i j. (knot_typed size-Node (λ v. (out-Node v).0) ⟦<NodeContent<Node> as HoldsKnot<Node>>⟧.tied ⟦<NodeContent<Node> as HoldsKnot<Node>>⟧.weight (record { ties = ⟦<NodeContent<Node> as HoldsKnot<Node>>⟧.ties; smaller = node_smaller })).like v w i j };
}

impl Layered for Node {
    ghost use Rattle.rasn_oer.specs.Knots.{knot, knot_layers, layer};
    ghost use Rattle.example_recursive.specs.NodeWeights.{node_smaller};
    ghost use Rattle.example_recursive.specs.declared.types_01.Node.{out-Node, size-Node};

    ghost inner = { layer size-Node (λ v. (out-Node v).0) ⟦<NodeContent<Node> as HoldsKnot<Node>>⟧.tied (knot size-Node (λ v. (out-Node v).0) ⟦<NodeContent<Node> as HoldsKnot<Node>>⟧.tied) };

    ghost layers = { knot_layers size-Node (λ v. (out-Node v).0) ⟦<NodeContent<Node> as HoldsKnot<Node>>⟧.tied ⟦<NodeContent<Node> as HoldsKnot<Node>>⟧.weight (record { ties = ⟦<NodeContent<Node> as HoldsKnot<Node>>⟧.ties; smaller = node_smaller }) };
}

/// Writes what a `Node` holds.
#[inline(always)]
fn encode_node<K: Encode>(
    inner: &NodeContent<K>,
    encoder: &mut Encoder<'_>,
    tag: Tag,
) -> Result<(), EncodeError>
    ensures done { OnOk result (Encodes (⟦<NodeContent<K> as Spelled>⟧.tree NONE inner.now) encoder.old encoder.new) }
    ensures value { OnOk result (⟦<NodeContent<K> as Spelled>⟧.IsValue inner.now) }
    ensures refused { IfErr result (λ x. Refused (⟦<NodeContent<K> as Spelled>⟧.tree NONE inner.now) x encoder.old encoder.new) }
{
    inner.encode_with_tag(encoder, tag)
}

impl Encode for Node {
    #[inline(always)]
    fn encode_with_tag_and_constraints(
        &self,
        encoder: &mut Encoder<'_>,
        tag: Tag,
        _constraints: Constraints,
    ) -> Result<(), EncodeError> {
        layer_of::<Node>(self);
        encode_node::<Node>(&self.0, encoder, tag)
    }
}

impl Knot<NodeContent<Node>> for Node {
    ghost use Rattle.rasn_oer.specs.Knots.{knot_layered};
    ghost use Rattle.example_recursive.specs.NodeWeights.{node_smaller};
    ghost use Rattle.example_recursive.specs.declared.types_01.Node.{out-Node, size-Node};

    ghost content = { λ v. (out-Node v).0 };

    fn from_content(inner: NodeContent<Node>) -> Node {
        Node(inner)
    }

    ghost layered = { knot_layered size-Node (λ v. (out-Node v).0) ⟦<NodeContent<Node> as HoldsKnot<Node>>⟧.tied ⟦<NodeContent<Node> as HoldsKnot<Node>>⟧.weight (record { ties = ⟦<NodeContent<Node> as HoldsKnot<Node>>⟧.ties; smaller = node_smaller }) };
}

impl Decode for Node {
    ghost use Rattle.rasn_oer.specs.Answering.{KnotAnswers};

    ghost Answered = { λ c s r t. KnotAnswers ⟦<Node as Knot<NodeContent<Node>>>⟧.content ⟦<NodeContent<Node> as DecodeKnot<Node>>⟧.answering s r t };

    fn decode_with_tag_and_constraints(
        alloc: Global,
        decoder: &mut Decoder<'_>,
        tag: Tag,
        _constraints: Constraints,
    ) -> Result<Node, DecodeError> {
        decode_knotted::<NodeContent<Self>, Self>(alloc, decoder, tag)
    }
}

/// `Serial ::= OCTET STRING (SIZE(2))`
pub type Serial = Limited<Octets, FixedSize<2>>;

/// `Body ::= CHOICE { text UTF8String, inner Envelope, ..., count INTEGER }`
pub type Body = BodyContent<Envelope>;

/// A `Body` with `K` in the place of `Envelope`.
pub type BodyContent<K> = KeptChoice<BodyAlternatives<K>>;

/// The alternatives of `Body`.
#[derive(Clone, Debug, PartialEq, Eq, Drop)]
pub enum BodyAlternatives<K> {
    Text(Utf8Text),
    Inner(Held<K>),
    Count(Integer),
}

type BodyRow<K> = Alternative<
    Context<0>,
    Utf8Text,
    AlternativeKnot<Context<1>, Held<K>, Extensible<BodyAdditions>>,
>;

type BodyAdditions = Alternative<Context<2>, Integer, End>;

const BODY_ROOTS: &'static [Tag] = tags![Context 0, Context 1];

const BODY_ADDITIONS: &'static [Tag] = tags![Context 2];

impl<K> KnotAlternating<K> for BodyAlternatives<K> {
    ghost use Rattle.std.specs.Prelude.{refl};
    ghost use Rattle.rasn_oer.specs.Alternative.{First, Rest};
    ghost use Rattle.example_recursive.specs.EnvelopeWeights.{body_weight};
    ghost use Rattle.example_recursive.specs.declared.types_01.BodyAlternatives.TheVariants.{Text, Inner, Count};

    type KnotValues = <BodyRow<K> as KnotAlternatives<K>>::Values;

    ghost knot_choices = { ⟦<BodyRow<K> as KnotAlternatives<K>>⟧.choices };

    ghost knot_weight = { ⟦<BodyRow<K> as KnotAlternatives<K>>⟧.weight };

    ghost knot_ties = { ⟦<BodyRow<K> as KnotAlternatives<K>>⟧.ties };

    ghost knot_alternative = { elim [ Text held ↦ First held | Inner held ↦ Rest (First held) | Count held ↦ Rest (Rest (First held)) ] };

    ghost variant_weight = { body_weight };

    ghost weighs = { λ size. elim [ Text held ↦ refl | Inner held ↦ refl | Count held ↦ refl ] };
}

impl<K: Encode> TakesKnotAlternative<K> for BodyAlternatives<K> {
    ghost refusing = { ⟦<BodyRow<K> as ReadsKnotAlternatives<K>>⟧.refusing };

    fn take_knot<D: Choice, F: Fn(&mut Decoder<'_>) -> Result<K, DecodeError>>(
        alloc: Global,
        decoder: &mut Decoder<'_>,
        tag: Tag,
        knot: &F,
    ) -> Result<Self, DecodeError> {
        read_knot_alternative::<K, Self, BodyRow<K>, D, F>(alloc, decoder, tag, knot)
    }
}

impl<K: Encode> Alternating for BodyAlternatives<K> {
    ghost use Rattle.std.specs.Prelude.{refl};
    ghost use Rattle.rasn_oer.specs.Alternative.{First, Rest};
    ghost use Rattle.example_recursive.specs.declared.types_01.BodyAlternatives.TheVariants.{Text, Inner, Count};

    type Values = <BodyRow<K> as Alternatives>::Values;

    ghost row_choices = { ⟦<BodyRow<K> as Alternatives>⟧.choices };

    ghost row_are_choices = { ⟦<BodyRow<K> as Alternatives>⟧.are_choices };

    ghost alternative = { elim [ Text held ↦ First held | Inner held ↦ Rest (First held) | Count held ↦ Rest (Rest (First held)) ] };

    const VARIANTS: &'static [Tag] = BODY_ROOTS;

    const EXTENDED_VARIANTS: Option<&'static [Tag]> = Some(BODY_ADDITIONS);

    fn root_tags() -> &'static [Tag] {
        BODY_ROOTS
    }

    fn addition_tags() -> Option<&'static [Tag]> {
        Some(BODY_ADDITIONS)
    }

    fn from_alternative(value: Self::Values) -> Self {
        from_row!(value => BodyAlternatives: Text, Inner, Count)
    }

    #[inline(always)]
    fn put<E: Choice>(&self, encoder: &mut Encoder<'_>) -> Result<(), EncodeError> {
        match self {
            Self::Text(held) => put_alternative::<E, _>(encoder, Context::<0>::tag(), held),
            Self::Inner(held) => put_alternative::<E, _>(encoder, Context::<1>::tag(), held),
            Self::Count(held) => put_alternative::<E, _>(encoder, Context::<2>::tag(), held),
        }
    }

    ghost apart = { refl };
}

impl<K: Encode + Decode> TakesAlternative for BodyAlternatives<K> {
    ghost Refuses = { ⟦<BodyRow<K> as ReadsAlternatives>⟧.Refuses };

    fn take<D: Choice>(
        alloc: Global,
        decoder: &mut Decoder<'_>,
        tag: Tag,
    ) -> Result<Self, DecodeError> {
        read_alternative::<Self, BodyRow<K>, D>(alloc, decoder, tag)
    }
}

/// A sequence, and a choice that may hold it; both may be extended.
///
/// `Envelope ::= SEQUENCE { id Serial, body Body, ..., urgent BOOLEAN OPTIONAL }`
#[derive(Clone, Debug, PartialEq, Eq, Drop)]
pub struct Envelope(pub EnvelopeContent<Envelope>);

/// What a `Envelope` holds.
pub type EnvelopeContent<K> = Sequence<EnvelopeComponents<K>, 2, 1>;

pub use envelope_components::Envelope as EnvelopeComponents;

mod envelope_components {
    use super::*;

    /// The components of `Envelope`.
    #[derive(Clone, Debug, PartialEq, Eq, Drop)]
    pub struct Envelope<K> {
        pub id: Serial,
        pub body: BodyContent<K>,
        pub urgent: Option<bool>,
    }
}

type EnvelopeRow<K> = Required<
    Context<0>,
    Serial,
    RequiredKnot<Context<1>, BodyContent<K>, Extensible<EnvelopeAdditions>>,
>;

type EnvelopeAdditions = OptionalAddition<Context<2>, bool, End>;

impl<K> KnotRowed<K> for EnvelopeComponents<K> {
    ghost use Rattle.rasn_oer.specs.Values.{both};

    type KnotValues = <EnvelopeRow<K> as KnotRow<K>>::Values;

    ghost extended = { ⟦<EnvelopeRow<K> as KnotRow<K>>⟧.EXTENSIBLE };

    ghost knot_schema = { ⟦<EnvelopeRow<K> as KnotRow<K>>⟧.schema };

    ghost knot_weight = { ⟦<EnvelopeRow<K> as KnotRow<K>>⟧.weight };

    ghost knot_ties = { ⟦<EnvelopeRow<K> as KnotRow<K>>⟧.ties };

    ghost knot_components = { λ v. both v.id (both v.body (both v.urgent tt)) };
}

impl<K: Encode> TakesKnot<K> for EnvelopeComponents<K> {
    ghost refusing = { ⟦<EnvelopeRow<K> as ReadsKnot<K>>⟧.refusing };

    fn take_knot<F: Fn(&mut Decoder<'_>) -> Result<K, DecodeError>>(
        alloc: Global,
        decoder: &mut Decoder<'_>,
        knot: &F,
    ) -> Result<Self, DecodeError> {
        read_knot_row::<K, Self, EnvelopeRow<K>, F>(alloc, decoder, knot)
    }
}

impl<K: Encode> Rowed for EnvelopeComponents<K> {
    ghost use Rattle.rasn_oer.specs.Values.{both};

    type Values = <EnvelopeRow<K> as Components>::Values;

    ghost EXTENSIBLE = { ⟦<EnvelopeRow<K> as Components>⟧.EXTENSIBLE };

    const EXTENSIBLE: bool = true;

    ghost row_schema = { ⟦<EnvelopeRow<K> as Components>⟧.schema };

    ghost row_is_schema = { ⟦<EnvelopeRow<K> as Components>⟧.is_schema };

    ghost components = { λ v. both v.id (both v.body (both v.urgent tt)) };

    fn from_row(row: Self::Values) -> Self {
        built![EnvelopeComponents from row:
            id,
            body,
            urgent
        ]
    }
}

impl<K: Encode + Decode> Takes for EnvelopeComponents<K> {
    ghost Refuses = { ⟦<EnvelopeRow<K> as Reads>⟧.Refuses };

    #[inline(always)]
    fn take(alloc: Global, decoder: &mut Decoder<'_>) -> Result<Self, DecodeError> {
        read_row::<Self, EnvelopeRow<K>>(alloc, decoder)
    }
}

const ENVELOPE_COMPONENTS: &'static [Field<'static>] = fields![
    0 Required Context 0 "id",
    1 Required Context 1 "body"
];

const ENVELOPE_ADDITIONS: &'static [Field<'static>] = fields![
    0 Optional Context 2 "urgent"
];

impl<K: Encode> Tabled<2, 1> for EnvelopeComponents<K> {
    ghost use Rattle.std.specs.Prelude.{refl};

    const FIELDS: Fields<2> = Fields {
        fields: ENVELOPE_COMPONENTS,
    };

    const EXTENDED_FIELDS: Option<Fields<1>> = Some(Fields {
        fields: ENVELOPE_ADDITIONS,
    });

    fn root_fields() -> &'static [Field<'static>] {
        ENVELOPE_COMPONENTS
    }

    fn addition_fields() -> &'static [Field<'static>] {
        ENVELOPE_ADDITIONS
    }

    #[inline(always)]
    fn put(&self, encoder: &mut Encoder<'_>) -> Result<(), EncodeError> {
        let view = views![self:
            id,
            body,
            urgent
        ];
        EnvelopeRow::<K>::write(&view, encoder)
    }

    ghost counts = { (refl, refl) };
}

impl AsnType for Envelope {
    ghost use Rattle.std.specs.Prelude.{refl};
    ghost use Rattle.asn1_core.specs.declared.tag.TheConstants.Tag.{SEQUENCE};
    ghost use Rattle.asn1_core.specs.declared.constraints.TheConstants.Constraints.{NONE};

    ghost TAG = { SEQUENCE };

    const TAG: Tag = Tag::SEQUENCE;

    ghost CONSTRAINTS = { NONE };

    const CONSTRAINTS: Constraints = Constraints::NONE;

    ghost consistent = { refl };
}

impl Spelled for Envelope {
    ghost use Rattle.rasn_oer.specs.Knots.{knot_tree, IsKnot, knot_typed};
    ghost use Rattle.example_recursive.specs.EnvelopeWeights.{envelope_smaller};
    ghost use Rattle.example_recursive.specs.declared.types_01.Envelope.{out-Envelope, size-Envelope};

    ghost tree = { λ c v. knot_tree size-Envelope (λ v. (out-Envelope v).0) ⟦<EnvelopeContent<Envelope> as HoldsKnot<Envelope>>⟧.tied v };

    ghost IsValue = { IsKnot size-Envelope (λ v. (out-Envelope v).0) ⟦<EnvelopeContent<Envelope> as HoldsKnot<Envelope>>⟧.tied };

    ghost is_tree = { λ c k v i. (knot_typed size-Envelope (λ v. (out-Envelope v).0) ⟦<EnvelopeContent<Envelope> as HoldsKnot<Envelope>>⟧.tied ⟦<EnvelopeContent<Envelope> as HoldsKnot<Envelope>>⟧.weight (record { ties = ⟦<EnvelopeContent<Envelope> as HoldsKnot<Envelope>>⟧.ties; smaller = envelope_smaller })).is v i };

    ghost alike = { λ c k v w i j. (knot_typed size-Envelope (λ v. (out-Envelope v).0) ⟦<EnvelopeContent<Envelope> as HoldsKnot<Envelope>>⟧.tied ⟦<EnvelopeContent<Envelope> as HoldsKnot<Envelope>>⟧.weight (record { ties = ⟦<EnvelopeContent<Envelope> as HoldsKnot<Envelope>>⟧.ties; smaller = envelope_smaller })).like v w i j };
}

impl Layered for Envelope {
    ghost use Rattle.rasn_oer.specs.Knots.{knot, knot_layers, layer};
    ghost use Rattle.example_recursive.specs.EnvelopeWeights.{envelope_smaller};
    ghost use Rattle.example_recursive.specs.declared.types_01.Envelope.{out-Envelope, size-Envelope};

    ghost inner = { layer size-Envelope (λ v. (out-Envelope v).0) ⟦<EnvelopeContent<Envelope> as HoldsKnot<Envelope>>⟧.tied (knot size-Envelope (λ v. (out-Envelope v).0) ⟦<EnvelopeContent<Envelope> as HoldsKnot<Envelope>>⟧.tied) };

    ghost layers = { knot_layers size-Envelope (λ v. (out-Envelope v).0) ⟦<EnvelopeContent<Envelope> as HoldsKnot<Envelope>>⟧.tied ⟦<EnvelopeContent<Envelope> as HoldsKnot<Envelope>>⟧.weight (record { ties = ⟦<EnvelopeContent<Envelope> as HoldsKnot<Envelope>>⟧.ties; smaller = envelope_smaller }) };
}

/// Writes what a `Envelope` holds.
#[inline(always)]
fn encode_envelope<K: Encode>(
    inner: &EnvelopeContent<K>,
    encoder: &mut Encoder<'_>,
    tag: Tag,
) -> Result<(), EncodeError>
    ensures done { OnOk result (Encodes (⟦<EnvelopeContent<K> as Spelled>⟧.tree NONE inner.now) encoder.old encoder.new) }
    ensures value { OnOk result (⟦<EnvelopeContent<K> as Spelled>⟧.IsValue inner.now) }
    ensures refused { IfErr result (λ x. Refused (⟦<EnvelopeContent<K> as Spelled>⟧.tree NONE inner.now) x encoder.old encoder.new) }
{
    inner.encode_with_tag(encoder, tag)
}

impl Encode for Envelope {
    #[inline(always)]
    fn encode_with_tag_and_constraints(
        &self,
        encoder: &mut Encoder<'_>,
        tag: Tag,
        _constraints: Constraints,
    ) -> Result<(), EncodeError> {
        layer_of::<Envelope>(self);
        encode_envelope::<Envelope>(&self.0, encoder, tag)
    }
}

impl Knot<EnvelopeContent<Envelope>> for Envelope {
    ghost use Rattle.rasn_oer.specs.Knots.{knot_layered};
    ghost use Rattle.example_recursive.specs.EnvelopeWeights.{envelope_smaller};
    ghost use Rattle.example_recursive.specs.declared.types_01.Envelope.{out-Envelope, size-Envelope};

    ghost content = { λ v. (out-Envelope v).0 };

    fn from_content(inner: EnvelopeContent<Envelope>) -> Envelope {
        Envelope(inner)
    }

    ghost layered = { knot_layered size-Envelope (λ v. (out-Envelope v).0) ⟦<EnvelopeContent<Envelope> as HoldsKnot<Envelope>>⟧.tied ⟦<EnvelopeContent<Envelope> as HoldsKnot<Envelope>>⟧.weight (record { ties = ⟦<EnvelopeContent<Envelope> as HoldsKnot<Envelope>>⟧.ties; smaller = envelope_smaller }) };
}

impl Decode for Envelope {
    ghost use Rattle.rasn_oer.specs.Answering.{KnotAnswers};

    ghost Answered = { λ c s r t. KnotAnswers ⟦<Envelope as Knot<EnvelopeContent<Envelope>>>⟧.content ⟦<EnvelopeContent<Envelope> as DecodeKnot<Envelope>>⟧.answering s r t };

    fn decode_with_tag_and_constraints(
        alloc: Global,
        decoder: &mut Decoder<'_>,
        tag: Tag,
        _constraints: Constraints,
    ) -> Result<Envelope, DecodeError> {
        decode_knotted::<EnvelopeContent<Self>, Self>(alloc, decoder, tag)
    }
}

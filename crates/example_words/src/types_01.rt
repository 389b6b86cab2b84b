//! Types of ASN.1 modules, as oergen printed them.
ghost use Rattle.std.specs.Prelude.{OnOk, IfErr};
ghost use Rattle.oer_write.specs.Written.{Encodes, Refused};
ghost use Rattle.asn1_core.specs.declared.constraints.TheConstants.Constraints.{NONE};

use rasn_oer::prelude::*;
use std::alloc::Global;

/// `Bush ::= SET { a INTEGER, b SEQUENCE OF Bush }`
#[derive(Debug, PartialEq, Eq, Drop)]
pub struct Bush(pub BushContent<Bush>);

/// What a `Bush` holds.
pub type BushContent<K> = Set<BushComponents<K>, 2, 0>;

pub use bush_components::Bush as BushComponents;

mod bush_components {
    use super::*;

    /// The components of `Bush`.
    #[derive(Debug, PartialEq, Eq, Drop)]
    pub struct Bush<K> {
        pub a: Integer,
        pub b: ListOf<Bare<K>>,
    }
}

type BushRow<K> = Required<
    Universal<2>,
    Integer,
    RequiredKnot<Universal<16>, ListOf<Bare<K>>, End>,
>;

impl<K> KnotRowed<K> for BushComponents<K> {
    ghost use Rattle.rasn_oer.specs.Values.{both};

    type KnotValues = <BushRow<K> as KnotRow<K>>::Values;

    ghost extended = { ⟦<BushRow<K> as KnotRow<K>>⟧.EXTENSIBLE };

    ghost knot_schema = { ⟦<BushRow<K> as KnotRow<K>>⟧.schema };

    ghost knot_weight = { ⟦<BushRow<K> as KnotRow<K>>⟧.weight };

    ghost knot_ties = { ⟦<BushRow<K> as KnotRow<K>>⟧.ties };

    ghost knot_components = { λ v. both v.a (both v.b tt) };
}

impl<K: Encode> TakesKnot<K> for BushComponents<K> {
    ghost refusing = { ⟦<BushRow<K> as ReadsKnot<K>>⟧.refusing };

    fn take_knot<F: Fn(&mut Decoder<'_>) -> Result<K, DecodeError>>(
        alloc: Global,
        decoder: &mut Decoder<'_>,
        knot: &F,
    ) -> Result<Self, DecodeError> {
        read_knot_row::<K, Self, BushRow<K>, F>(alloc, decoder, knot)
    }
}

impl<K: Encode> Rowed for BushComponents<K> {
    ghost use Rattle.rasn_oer.specs.Values.{both};

    type Values = <BushRow<K> as Components>::Values;

    ghost EXTENSIBLE = { ⟦<BushRow<K> as Components>⟧.EXTENSIBLE };

    const EXTENSIBLE: bool = false;

    ghost row_schema = { ⟦<BushRow<K> as Components>⟧.schema };

    ghost row_is_schema = { ⟦<BushRow<K> as Components>⟧.is_schema };

    ghost components = { λ v. both v.a (both v.b tt) };

    fn from_row(row: Self::Values) -> Self {
        built![BushComponents from row:
            a,
            b
        ]
    }
}

impl<K: Encode + Decode> Takes for BushComponents<K> {
    ghost Refuses = { ⟦<BushRow<K> as Reads>⟧.Refuses };

    #[inline(always)]
    fn take(alloc: Global, decoder: &mut Decoder<'_>) -> Result<Self, DecodeError> {
        read_row::<Self, BushRow<K>>(alloc, decoder)
    }
}

const BUSH_COMPONENTS: &'static [Field<'static>] = fields![
    0 Required Universal 2 "a",
    1 Required Universal 16 "b"
];

impl<K: Encode> Tabled<2, 0> for BushComponents<K> {
    ghost use Rattle.std.specs.Prelude.{refl};

    const FIELDS: Fields<2> = Fields {
        fields: BUSH_COMPONENTS,
    };

    const EXTENDED_FIELDS: Option<Fields<0>> = None;

    fn root_fields() -> &'static [Field<'static>] {
        BUSH_COMPONENTS
    }

    fn addition_fields() -> &'static [Field<'static>] {
        &[]
    }

    #[inline(always)]
    fn put(&self, encoder: &mut Encoder<'_>) -> Result<(), EncodeError> {
        let view = views![self:
            a,
            b
        ];
        BushRow::<K>::write(&view, encoder)
    }

    ghost counts = { (refl, refl) };
}

const BUSH_IN_TEXT_ORDER: &'static [Field<'static>] = fields![
    0 Required Universal 2 "a",
    1 Required Universal 16 "b"
];

impl<K> TextOrder for BushComponents<K> {
    ghost use Rattle.std.specs.Prelude.{[], ◌∷◌};

    ghost places = { 0 ∷ 1 ∷ [] };
}

impl<K: Encode> InTagOrder<2, 0> for BushComponents<K> {
    ghost use Rattle.std.specs.Prelude.{refl};

    ghost in_order = { refl };

    const SET_FIELDS: Fields<2> = Fields {
        fields: BUSH_IN_TEXT_ORDER,
    };

    fn text_fields() -> &'static [Field<'static>] {
        BUSH_IN_TEXT_ORDER
    }
}

impl AsnType for Bush {
    ghost use Rattle.std.specs.Prelude.{refl};
    ghost use Rattle.asn1_core.specs.declared.tag.TheConstants.Tag.{SET};
    ghost use Rattle.asn1_core.specs.declared.constraints.TheConstants.Constraints.{NONE};

    ghost TAG = { SET };

    const TAG: Tag = Tag::SET;

    ghost CONSTRAINTS = { NONE };

    const CONSTRAINTS: Constraints = Constraints::NONE;

    ghost consistent = { refl };
}

impl Spelled for Bush {
    ghost use Rattle.rasn_oer.specs.Knots.{knot_tree, IsKnot, knot_typed};
    ghost use Rattle.example_words.specs.BushWeights.{bush_smaller};
    ghost use Rattle.example_words.specs.declared.types_01.Bush.{out-Bush, size-Bush};

    ghost tree = { λ c v. knot_tree size-Bush (λ v. (out-Bush v).0) ⟦<BushContent<Bush> as HoldsKnot<Bush>>⟧.tied v };

    ghost IsValue = { IsKnot size-Bush (λ v. (out-Bush v).0) ⟦<BushContent<Bush> as HoldsKnot<Bush>>⟧.tied };

    ghost is_tree = { λ c k v i. (knot_typed size-Bush (λ v. (out-Bush v).0) ⟦<BushContent<Bush> as HoldsKnot<Bush>>⟧.tied ⟦<BushContent<Bush> as HoldsKnot<Bush>>⟧.weight (record { ties = ⟦<BushContent<Bush> as HoldsKnot<Bush>>⟧.ties; smaller = bush_smaller })).is v i };

    ghost alike = { λ c k v w i j. (knot_typed size-Bush (λ v. (out-Bush v).0) ⟦<BushContent<Bush> as HoldsKnot<Bush>>⟧.tied ⟦<BushContent<Bush> as HoldsKnot<Bush>>⟧.weight (record { ties = ⟦<BushContent<Bush> as HoldsKnot<Bush>>⟧.ties; smaller = bush_smaller })).like v w i j };
}

impl Layered for Bush {
    ghost use Rattle.rasn_oer.specs.Knots.{knot, knot_layers, layer};
    ghost use Rattle.example_words.specs.BushWeights.{bush_smaller};
    ghost use Rattle.example_words.specs.declared.types_01.Bush.{out-Bush, size-Bush};

    ghost inner = { layer size-Bush (λ v. (out-Bush v).0) ⟦<BushContent<Bush> as HoldsKnot<Bush>>⟧.tied (knot size-Bush (λ v. (out-Bush v).0) ⟦<BushContent<Bush> as HoldsKnot<Bush>>⟧.tied) };

    ghost layers = { knot_layers size-Bush (λ v. (out-Bush v).0) ⟦<BushContent<Bush> as HoldsKnot<Bush>>⟧.tied ⟦<BushContent<Bush> as HoldsKnot<Bush>>⟧.weight (record { ties = ⟦<BushContent<Bush> as HoldsKnot<Bush>>⟧.ties; smaller = bush_smaller }) };
}

/// Writes what a `Bush` holds.
#[inline(always)]
fn encode_bush<K: Encode>(
    inner: &BushContent<K>,
    encoder: &mut Encoder<'_>,
    tag: Tag,
) -> Result<(), EncodeError>
    ensures done { OnOk result (Encodes (⟦<BushContent<K> as Spelled>⟧.tree NONE inner.now) encoder.old encoder.new) }
    ensures value { OnOk result (⟦<BushContent<K> as Spelled>⟧.IsValue inner.now) }
    ensures refused { IfErr result (λ x. Refused (⟦<BushContent<K> as Spelled>⟧.tree NONE inner.now) x encoder.old encoder.new) }
{
    inner.encode_with_tag(encoder, tag)
}

impl Encode for Bush {
    #[inline(always)]
    fn encode_with_tag_and_constraints(
        &self,
        encoder: &mut Encoder<'_>,
        tag: Tag,
        _constraints: Constraints,
    ) -> Result<(), EncodeError> {
        layer_of::<Bush>(self);
        encode_bush::<Bush>(&self.0, encoder, tag)
    }
}

impl Knot<BushContent<Bush>> for Bush {
    ghost use Rattle.rasn_oer.specs.Knots.{knot_layered};
    ghost use Rattle.example_words.specs.BushWeights.{bush_smaller};
    ghost use Rattle.example_words.specs.declared.types_01.Bush.{out-Bush, size-Bush};

    ghost content = { λ v. (out-Bush v).0 };

    fn from_content(inner: BushContent<Bush>) -> Bush {
        Bush(inner)
    }

    ghost layered = { knot_layered size-Bush (λ v. (out-Bush v).0) ⟦<BushContent<Bush> as HoldsKnot<Bush>>⟧.tied ⟦<BushContent<Bush> as HoldsKnot<Bush>>⟧.weight (record { ties = ⟦<BushContent<Bush> as HoldsKnot<Bush>>⟧.ties; smaller = bush_smaller }) };
}

impl Decode for Bush {
    ghost use Rattle.rasn_oer.specs.Answering.{KnotAnswers};

    ghost Answered = { λ c s r t. KnotAnswers ⟦<Bush as Knot<BushContent<Bush>>>⟧.content ⟦<BushContent<Bush> as DecodeKnot<Bush>>⟧.answering s r t };

    fn decode_with_tag_and_constraints(
        alloc: Global,
        decoder: &mut Decoder<'_>,
        tag: Tag,
        _constraints: Constraints,
    ) -> Result<Bush, DecodeError> {
        decode_knotted::<BushContent<Self>, Self>(alloc, decoder, tag)
    }
}

/// `Node ::= SEQUENCE { value INTEGER, next Node OPTIONAL, last BOOLEAN }`
#[derive(Debug, PartialEq, Eq, Drop)]
pub struct Node(pub NodeContent<Node>);

/// What a `Node` holds.
pub type NodeContent<K> = Sequence<NodeComponents<K>, 3, 0>;

pub use node_components::Node as NodeComponents;

mod node_components {
    use super::*;

    /// The components of `Node`.
    #[derive(Debug, PartialEq, Eq, Drop)]
    pub struct Node<K> {
        pub value: Integer,
        pub next: Option<Held<K>>,
        pub last: bool,
    }
}

type NodeRow<K> = Required<
    Context<0>,
    Integer,
    OptionalKnot<Context<1>, Held<K>, Required<Context<2>, bool, End>>,
>;

impl<K> KnotRowed<K> for NodeComponents<K> {
    ghost use Rattle.rasn_oer.specs.Values.{both};

    type KnotValues = <NodeRow<K> as KnotRow<K>>::Values;

    ghost extended = { ⟦<NodeRow<K> as KnotRow<K>>⟧.EXTENSIBLE };

    ghost knot_schema = { ⟦<NodeRow<K> as KnotRow<K>>⟧.schema };

    ghost knot_weight = { ⟦<NodeRow<K> as KnotRow<K>>⟧.weight };

    ghost knot_ties = { ⟦<NodeRow<K> as KnotRow<K>>⟧.ties };

    ghost knot_components = { λ v. both v.value (both v.next (both v.last tt)) };
}

impl<K: Encode> TakesKnot<K> for NodeComponents<K> {
    ghost refusing = { ⟦<NodeRow<K> as ReadsKnot<K>>⟧.refusing };

    fn take_knot<F: Fn(&mut Decoder<'_>) -> Result<K, DecodeError>>(
        alloc: Global,
        decoder: &mut Decoder<'_>,
        knot: &F,
    ) -> Result<Self, DecodeError> {
        read_knot_row::<K, Self, NodeRow<K>, F>(alloc, decoder, knot)
    }
}

impl<K: Encode> Rowed for NodeComponents<K> {
    ghost use Rattle.rasn_oer.specs.Values.{both};

    type Values = <NodeRow<K> as Components>::Values;

    ghost EXTENSIBLE = { ⟦<NodeRow<K> as Components>⟧.EXTENSIBLE };

    const EXTENSIBLE: bool = false;

    ghost row_schema = { ⟦<NodeRow<K> as Components>⟧.schema };

    ghost row_is_schema = { ⟦<NodeRow<K> as Components>⟧.is_schema };

    ghost components = { λ v. both v.value (both v.next (both v.last tt)) };

    fn from_row(row: Self::Values) -> Self {
        built![NodeComponents from row:
            value,
            next,
            last
        ]
    }
}

impl<K: Encode + Decode> Takes for NodeComponents<K> {
    ghost Refuses = { ⟦<NodeRow<K> as Reads>⟧.Refuses };

    #[inline(always)]
    fn take(alloc: Global, decoder: &mut Decoder<'_>) -> Result<Self, DecodeError> {
        read_row::<Self, NodeRow<K>>(alloc, decoder)
    }
}

const NODE_COMPONENTS: &'static [Field<'static>] = fields![
    0 Required Context 0 "value",
    1 Optional Context 1 "next",
    2 Required Context 2 "last"
];

impl<K: Encode> Tabled<3, 0> for NodeComponents<K> {
    ghost use Rattle.std.specs.Prelude.{refl};

    const FIELDS: Fields<3> = Fields {
        fields: NODE_COMPONENTS,
    };

    const EXTENDED_FIELDS: Option<Fields<0>> = None;

    fn root_fields() -> &'static [Field<'static>] {
        NODE_COMPONENTS
    }

    fn addition_fields() -> &'static [Field<'static>] {
        &[]
    }

    #[inline(always)]
    fn put(&self, encoder: &mut Encoder<'_>) -> Result<(), EncodeError> {
        let view = views![self:
            value,
            next,
            last
        ];
        NodeRow::<K>::write(&view, encoder)
    }

    ghost counts = { (refl, refl) };
}

impl AsnType for Node {
    ghost use Rattle.std.specs.Prelude.{refl};
    ghost use Rattle.asn1_core.specs.declared.tag.TheConstants.Tag.{SEQUENCE};
    ghost use Rattle.asn1_core.specs.declared.constraints.TheConstants.Constraints.{NONE};

    ghost TAG = { SEQUENCE };

    const TAG: Tag = Tag::SEQUENCE;

    ghost CONSTRAINTS = { NONE };

    const CONSTRAINTS: Constraints = Constraints::NONE;

    ghost consistent = { refl };
}

impl Spelled for Node {
    ghost use Rattle.rasn_oer.specs.Knots.{knot_tree, IsKnot, knot_typed};
    ghost use Rattle.example_words.specs.NodeWeights.{node_smaller};
    ghost use Rattle.example_words.specs.declared.types_01.Node.{out-Node, size-Node};

    ghost tree = { λ c v. knot_tree size-Node (λ v. (out-Node v).0) ⟦<NodeContent<Node> as HoldsKnot<Node>>⟧.tied v };

    ghost IsValue = { IsKnot size-Node (λ v. (out-Node v).0) ⟦<NodeContent<Node> as HoldsKnot<Node>>⟧.tied };

    ghost is_tree = { λ c k v i. (knot_typed size-Node (λ v. (out-Node v).0) ⟦<NodeContent<Node> as HoldsKnot<Node>>⟧.tied ⟦<NodeContent<Node> as HoldsKnot<Node>>⟧.weight (record { ties = ⟦<NodeContent<Node> as HoldsKnot<Node>>⟧.ties; smaller = node_smaller })).is v i };

    ghost alike = { λ c k v w i j. (knot_typed size-Node (λ v. (out-Node v).0) ⟦<NodeContent<Node> as HoldsKnot<Node>>⟧.tied ⟦<NodeContent<Node> as HoldsKnot<Node>>⟧.weight (record { ties = ⟦<NodeContent<Node> as HoldsKnot<Node>>⟧.ties; smaller = node_smaller })).like v w i j };
}

impl Layered for Node {
    ghost use Rattle.rasn_oer.specs.Knots.{knot, knot_layers, layer};
    ghost use Rattle.example_words.specs.NodeWeights.{node_smaller};
    ghost use Rattle.example_words.specs.declared.types_01.Node.{out-Node, size-Node};

    ghost inner = { layer size-Node (λ v. (out-Node v).0) ⟦<NodeContent<Node> as HoldsKnot<Node>>⟧.tied (knot size-Node (λ v. (out-Node v).0) ⟦<NodeContent<Node> as HoldsKnot<Node>>⟧.tied) };

    ghost layers = { knot_layers size-Node (λ v. (out-Node v).0) ⟦<NodeContent<Node> as HoldsKnot<Node>>⟧.tied ⟦<NodeContent<Node> as HoldsKnot<Node>>⟧.weight (record { ties = ⟦<NodeContent<Node> as HoldsKnot<Node>>⟧.ties; smaller = node_smaller }) };
}

/// Writes what a `Node` holds.
#[inline(always)]
fn encode_node<K: Encode>(
    inner: &NodeContent<K>,
    encoder: &mut Encoder<'_>,
    tag: Tag,
) -> Result<(), EncodeError>
    ensures done { OnOk result (Encodes (⟦<NodeContent<K> as Spelled>⟧.tree NONE inner.now) encoder.old encoder.new) }
    ensures value { OnOk result (⟦<NodeContent<K> as Spelled>⟧.IsValue inner.now) }
    ensures refused { IfErr result (λ x. Refused (⟦<NodeContent<K> as Spelled>⟧.tree NONE inner.now) x encoder.old encoder.new) }
{
    inner.encode_with_tag(encoder, tag)
}

impl Encode for Node {
    #[inline(always)]
    fn encode_with_tag_and_constraints(
        &self,
        encoder: &mut Encoder<'_>,
        tag: Tag,
        _constraints: Constraints,
    ) -> Result<(), EncodeError> {
        layer_of::<Node>(self);
        encode_node::<Node>(&self.0, encoder, tag)
    }
}

impl Knot<NodeContent<Node>> for Node {
    ghost use Rattle.rasn_oer.specs.Knots.{knot_layered};
    ghost use Rattle.example_words.specs.NodeWeights.{node_smaller};
    ghost use Rattle.example_words.specs.declared.types_01.Node.{out-Node, size-Node};

    ghost content = { λ v. (out-Node v).0 };

    fn from_content(inner: NodeContent<Node>) -> Node {
        Node(inner)
    }

    ghost layered = { knot_layered size-Node (λ v. (out-Node v).0) ⟦<NodeContent<Node> as HoldsKnot<Node>>⟧.tied ⟦<NodeContent<Node> as HoldsKnot<Node>>⟧.weight (record { ties = ⟦<NodeContent<Node> as HoldsKnot<Node>>⟧.ties; smaller = node_smaller }) };
}

impl Decode for Node {
    ghost use Rattle.rasn_oer.specs.Answering.{KnotAnswers};

    ghost Answered = { λ c s r t. KnotAnswers ⟦<Node as Knot<NodeContent<Node>>>⟧.content ⟦<NodeContent<Node> as DecodeKnot<Node>>⟧.answering s r t };

    fn decode_with_tag_and_constraints(
        alloc: Global,
        decoder: &mut Decoder<'_>,
        tag: Tag,
        _constraints: Constraints,
    ) -> Result<Node, DecodeError> {
        decode_knotted::<NodeContent<Self>, Self>(alloc, decoder, tag)
    }
}

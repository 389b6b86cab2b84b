//! Types of ASN.1 modules, as oergen printed them.
ghost use Rattle.std.specs.Prelude.{OnOk, IfErr};
ghost use Rattle.oer_write.specs.Written.{Encodes, Refused};
ghost use Rattle.asn1_core.specs.declared.constraints.TheConstants.Constraints.{NONE};

use rasn_oer::prelude::*;
use std::alloc::Global;

/// `Forest ::= SEQUENCE OF Tree`
pub type Forest = ForestContent<Tree>;

/// A `Forest` with `K` in the place of `Tree`.
pub type ForestContent<K> = ListOf<Bare<K>>;

/// A list of itself, by names.
///
/// `Tree ::= SEQUENCE { label IA5String, leaves Forest, shade Forest OPTIONAL }`
#[derive(Clone, Debug, PartialEq, Eq, Drop)]
pub struct Tree(pub TreeContent<Tree>);

/// What a `Tree` holds.
pub type TreeContent<K> = Sequence<TreeComponents<K>, 3, 0>;

pub use tree_components::Tree as TreeComponents;

mod tree_components {
    use super::*;

    /// The components of `Tree`.
    #[derive(Clone, Debug, PartialEq, Eq, Drop)]
    pub struct Tree<K> {
        pub label: Ia5Text,
        pub leaves: ForestContent<K>,
        pub shade: Option<ForestContent<K>>,
    }
}

type TreeRow<K> = Required<
    Context<0>,
    Ia5Text,
    RequiredKnot<Context<1>, ForestContent<K>, OptionalKnot<Context<2>, ForestContent<K>, End>>,
>;

impl<K> KnotRowed<K> for TreeComponents<K> {
    ghost use Rattle.rasn_oer.specs.Values.{both};

    type KnotValues = <TreeRow<K> as KnotRow<K>>::Values;

    ghost extended = { ⟦<TreeRow<K> as KnotRow<K>>⟧.EXTENSIBLE };

    ghost knot_schema = { ⟦<TreeRow<K> as KnotRow<K>>⟧.schema };

    ghost knot_weight = { ⟦<TreeRow<K> as KnotRow<K>>⟧.weight };

    ghost knot_ties = { ⟦<TreeRow<K> as KnotRow<K>>⟧.ties };

    ghost knot_components = { λ v. both v.label (both v.leaves (both v.shade tt)) };
}

impl<K: Encode> TakesKnot<K> for TreeComponents<K> {
    ghost refusing = { ⟦<TreeRow<K> as ReadsKnot<K>>⟧.refusing };

    fn take_knot<F: Fn(&mut Decoder<'_>) -> Result<K, DecodeError>>(
        alloc: Global,
        decoder: &mut Decoder<'_>,
        knot: &F,
    ) -> Result<Self, DecodeError> {
        read_knot_row::<K, Self, TreeRow<K>, F>(alloc, decoder, knot)
    }
}

impl<K: Encode> Rowed for TreeComponents<K> {
    ghost use Rattle.rasn_oer.specs.Values.{both};

    type Values = <TreeRow<K> as Components>::Values;

    ghost EXTENSIBLE = { ⟦<TreeRow<K> as Components>⟧.EXTENSIBLE };

    const EXTENSIBLE: bool = false;

    ghost row_schema = { ⟦<TreeRow<K> as Components>⟧.schema };

    ghost row_is_schema = { ⟦<TreeRow<K> as Components>⟧.is_schema };

    ghost components = { λ v. both v.label (both v.leaves (both v.shade tt)) };

    fn from_row(row: Self::Values) -> Self {
        built![TreeComponents from row:
            label,
            leaves,
            shade
        ]
    }
}

impl<K: Encode + Decode> Takes for TreeComponents<K> {
    ghost Refuses = { ⟦<TreeRow<K> as Reads>⟧.Refuses };

    #[inline(always)]
    fn take(alloc: Global, decoder: &mut Decoder<'_>) -> Result<Self, DecodeError> {
        read_row::<Self, TreeRow<K>>(alloc, decoder)
    }
}

const TREE_COMPONENTS: &'static [Field<'static>] = fields![
    0 Required Context 0 "label",
    1 Required Context 1 "leaves",
    2 Optional Context 2 "shade"
];

impl<K: Encode> Tabled<3, 0> for TreeComponents<K> {
    ghost use Rattle.std.specs.Prelude.{refl};

    const FIELDS: Fields<3> = Fields {
        fields: TREE_COMPONENTS,
    };

    const EXTENDED_FIELDS: Option<Fields<0>> = None;

    fn root_fields() -> &'static [Field<'static>] {
        TREE_COMPONENTS
    }

    fn addition_fields() -> &'static [Field<'static>] {
        &[]
    }

    #[inline(always)]
    fn put(&self, encoder: &mut Encoder<'_>) -> Result<(), EncodeError> {
        let view = views![self:
            label,
            leaves,
            shade
        ];
        TreeRow::<K>::write(&view, encoder)
    }

    ghost counts = { (refl, refl) };
}

impl AsnType for Tree {
    ghost use Rattle.std.specs.Prelude.{refl};
    ghost use Rattle.asn1_core.specs.declared.tag.TheConstants.Tag.{SEQUENCE};
    ghost use Rattle.asn1_core.specs.declared.constraints.TheConstants.Constraints.{NONE};

    ghost TAG = { SEQUENCE };

    const TAG: Tag = Tag::SEQUENCE;

    ghost CONSTRAINTS = { NONE };

    const CONSTRAINTS: Constraints = Constraints::NONE;

    ghost consistent = { refl };
}

impl Spelled for Tree {
    ghost use Rattle.rasn_oer.specs.Knots.{knot_tree, IsKnot, knot_typed};
    ghost use Rattle.example_recursive.specs.TreeWeights.{tree_smaller};
    ghost use Rattle.example_recursive.specs.declared.types_02.Tree.{out-Tree, size-Tree};

    ghost tree = { λ c v. knot_tree size-Tree (λ v. (out-Tree v).0) ⟦<TreeContent<Tree> as HoldsKnot<Tree>>⟧.tied v };

    ghost IsValue = { IsKnot size-Tree (λ v. (out-Tree v).0) ⟦<TreeContent<Tree> as HoldsKnot<Tree>>⟧.tied };

    ghost is_tree = { λ c k v i. (knot_typed size-Tree (λ v. (out-Tree v).0) ⟦<TreeContent<Tree> as HoldsKnot<Tree>>⟧.tied ⟦<TreeContent<Tree> as HoldsKnot<Tree>>⟧.weight (record { ties = ⟦<TreeContent<Tree> as HoldsKnot<Tree>>⟧.ties; smaller = tree_smaller })).is v i };

    ghost alike = { λ c k v w i j. (knot_typed size-Tree (λ v. (out-Tree v).0) ⟦<TreeContent<Tree> as HoldsKnot<Tree>>⟧.tied ⟦<TreeContent<Tree> as HoldsKnot<Tree>>⟧.weight (record { ties = ⟦<TreeContent<Tree> as HoldsKnot<Tree>>⟧.ties; smaller = tree_smaller })).like v w i j };
}

impl Layered for Tree {
    ghost use Rattle.rasn_oer.specs.Knots.{knot, knot_layers, layer};
    ghost use Rattle.example_recursive.specs.TreeWeights.{tree_smaller};
    ghost use Rattle.example_recursive.specs.declared.types_02.Tree.{out-Tree, size-Tree};

    ghost inner = { layer size-Tree (λ v. (out-Tree v).0) ⟦<TreeContent<Tree> as HoldsKnot<Tree>>⟧.tied (knot size-Tree (λ v. (out-Tree v).0) ⟦<TreeContent<Tree> as HoldsKnot<Tree>>⟧.tied) };

    ghost layers = { knot_layers size-Tree (λ v. (out-Tree v).0) ⟦<TreeContent<Tree> as HoldsKnot<Tree>>⟧.tied ⟦<TreeContent<Tree> as HoldsKnot<Tree>>⟧.weight (record { ties = ⟦<TreeContent<Tree> as HoldsKnot<Tree>>⟧.ties; smaller = tree_smaller }) };
}

/// Writes what a `Tree` holds.
#[inline(always)]
fn encode_tree<K: Encode>(
    inner: &TreeContent<K>,
    encoder: &mut Encoder<'_>,
    tag: Tag,
) -> Result<(), EncodeError>
    ensures done { OnOk result (Encodes (⟦<TreeContent<K> as Spelled>⟧.tree NONE inner.now) encoder.old encoder.new) }
    ensures value { OnOk result (⟦<TreeContent<K> as Spelled>⟧.IsValue inner.now) }
    ensures refused { IfErr result (λ x. Refused (⟦<TreeContent<K> as Spelled>⟧.tree NONE inner.now) x encoder.old encoder.new) }
{
    inner.encode_with_tag(encoder, tag)
}

impl Encode for Tree {
    #[inline(always)]
    fn encode_with_tag_and_constraints(
        &self,
        encoder: &mut Encoder<'_>,
        tag: Tag,
        _constraints: Constraints,
    ) -> Result<(), EncodeError> {
        layer_of::<Tree>(self);
        encode_tree::<Tree>(&self.0, encoder, tag)
    }
}

impl Knot<TreeContent<Tree>> for Tree {
    ghost use Rattle.rasn_oer.specs.Knots.{knot_layered};
    ghost use Rattle.example_recursive.specs.TreeWeights.{tree_smaller};
    ghost use Rattle.example_recursive.specs.declared.types_02.Tree.{out-Tree, size-Tree};

    ghost content = { λ v. (out-Tree v).0 };

    fn from_content(inner: TreeContent<Tree>) -> Tree {
        Tree(inner)
    }

    ghost layered = { knot_layered size-Tree (λ v. (out-Tree v).0) ⟦<TreeContent<Tree> as HoldsKnot<Tree>>⟧.tied ⟦<TreeContent<Tree> as HoldsKnot<Tree>>⟧.weight (record { ties = ⟦<TreeContent<Tree> as HoldsKnot<Tree>>⟧.ties; smaller = tree_smaller }) };
}

impl Decode for Tree {
    ghost use Rattle.rasn_oer.specs.Answering.{KnotAnswers};

    ghost Answered = { λ c s r t. KnotAnswers ⟦<Tree as Knot<TreeContent<Tree>>>⟧.content ⟦<TreeContent<Tree> as DecodeKnot<Tree>>⟧.answering s r t };

    fn decode_with_tag_and_constraints(
        alloc: Global,
        decoder: &mut Decoder<'_>,
        tag: Tag,
        _constraints: Constraints,
    ) -> Result<Tree, DecodeError> {
        decode_knotted::<TreeContent<Self>, Self>(alloc, decoder, tag)
    }
}

/// A list of itself, and no more.
///
/// `Nest ::= SEQUENCE OF Nest`
#[derive(Clone, Debug, PartialEq, Eq, Drop)]
pub struct Nest(pub NestContent<Nest>);

/// What a `Nest` holds.
pub type NestContent<K> = ListOf<Bare<K>>;

impl AsnType for Nest {
    ghost use Rattle.std.specs.Prelude.{refl};
    ghost use Rattle.asn1_core.specs.declared.tag.TheConstants.Tag.{SEQUENCE};
    ghost use Rattle.asn1_core.specs.declared.constraints.TheConstants.Constraints.{NONE};

    ghost TAG = { SEQUENCE };

    const TAG: Tag = Tag::SEQUENCE;

    ghost CONSTRAINTS = { NONE };

    const CONSTRAINTS: Constraints = Constraints::NONE;

    ghost consistent = { refl };
}

impl Spelled for Nest {
    ghost use Rattle.rasn_oer.specs.Knots.{knot_tree, IsKnot, knot_typed};
    ghost use Rattle.example_recursive.specs.NestWeights.{nest_smaller};
    ghost use Rattle.example_recursive.specs.declared.types_02.Nest.{out-Nest, size-Nest};

    ghost tree = { λ c v. knot_tree size-Nest (λ v. (out-Nest v).0) ⟦<NestContent<Nest> as HoldsKnot<Nest>>⟧.tied v };

    ghost IsValue = { IsKnot size-Nest (λ v. (out-Nest v).0) ⟦<NestContent<Nest> as HoldsKnot<Nest>>⟧.tied };

    ghost is_tree = { λ c k v i. (knot_typed size-Nest (λ v. (out-Nest v).0) ⟦<NestContent<Nest> as HoldsKnot<Nest>>⟧.tied ⟦<NestContent<Nest> as HoldsKnot<Nest>>⟧.weight (record { ties = ⟦<NestContent<Nest> as HoldsKnot<Nest>>⟧.ties; smaller = nest_smaller })).is v i };

    ghost alike = { λ c k v w i j. (knot_typed size-Nest (λ v. (out-Nest v).0) ⟦<NestContent<Nest> as HoldsKnot<Nest>>⟧.tied ⟦<NestContent<Nest> as HoldsKnot<Nest>>⟧.weight (record { ties = ⟦<NestContent<Nest> as HoldsKnot<Nest>>⟧.ties; smaller = nest_smaller })).like v w i j };
}

impl Layered for Nest {
    ghost use Rattle.rasn_oer.specs.Knots.{knot, knot_layers, layer};
    ghost use Rattle.example_recursive.specs.NestWeights.{nest_smaller};
    ghost use Rattle.example_recursive.specs.declared.types_02.Nest.{out-Nest, size-Nest};

    ghost inner = { layer size-Nest (λ v. (out-Nest v).0) ⟦<NestContent<Nest> as HoldsKnot<Nest>>⟧.tied (knot size-Nest (λ v. (out-Nest v).0) ⟦<NestContent<Nest> as HoldsKnot<Nest>>⟧.tied) };

    ghost layers = { knot_layers size-Nest (λ v. (out-Nest v).0) ⟦<NestContent<Nest> as HoldsKnot<Nest>>⟧.tied ⟦<NestContent<Nest> as HoldsKnot<Nest>>⟧.weight (record { ties = ⟦<NestContent<Nest> as HoldsKnot<Nest>>⟧.ties; smaller = nest_smaller }) };
}

/// Writes what a `Nest` holds.
#[inline(always)]
fn encode_nest<K: Encode>(
    inner: &NestContent<K>,
    encoder: &mut Encoder<'_>,
    tag: Tag,
) -> Result<(), EncodeError>
    ensures done { OnOk result (Encodes (⟦<NestContent<K> as Spelled>⟧.tree NONE inner.now) encoder.old encoder.new) }
    ensures value { OnOk result (⟦<NestContent<K> as Spelled>⟧.IsValue inner.now) }
    ensures refused { IfErr result (λ x. Refused (⟦<NestContent<K> as Spelled>⟧.tree NONE inner.now) x encoder.old encoder.new) }
{
    inner.encode_with_tag(encoder, tag)
}

impl Encode for Nest {
    #[inline(always)]
    fn encode_with_tag_and_constraints(
        &self,
        encoder: &mut Encoder<'_>,
        tag: Tag,
        _constraints: Constraints,
    ) -> Result<(), EncodeError> {
        layer_of::<Nest>(self);
        encode_nest::<Nest>(&self.0, encoder, tag)
    }
}

impl Knot<NestContent<Nest>> for Nest {
    ghost use Rattle.rasn_oer.specs.Knots.{knot_layered};
    ghost use Rattle.example_recursive.specs.NestWeights.{nest_smaller};
    ghost use Rattle.example_recursive.specs.declared.types_02.Nest.{out-Nest, size-Nest};

    ghost content = { λ v. (out-Nest v).0 };

    fn from_content(inner: NestContent<Nest>) -> Nest {
        Nest(inner)
    }

    ghost layered = { knot_layered size-Nest (λ v. (out-Nest v).0) ⟦<NestContent<Nest> as HoldsKnot<Nest>>⟧.tied ⟦<NestContent<Nest> as HoldsKnot<Nest>>⟧.weight (record { ties = ⟦<NestContent<Nest> as HoldsKnot<Nest>>⟧.ties; smaller = nest_smaller }) };
}

impl Decode for Nest {
    ghost use Rattle.rasn_oer.specs.Answering.{KnotAnswers};

    ghost Answered = { λ c s r t. KnotAnswers ⟦<Nest as Knot<NestContent<Nest>>>⟧.content ⟦<NestContent<Nest> as DecodeKnot<Nest>>⟧.answering s r t };

    fn decode_with_tag_and_constraints(
        alloc: Global,
        decoder: &mut Decoder<'_>,
        tag: Tag,
        _constraints: Constraints,
    ) -> Result<Nest, DecodeError> {
        decode_list_of_itself::<Bare<Self>, Self>(alloc, decoder, tag)
    }
}

/// A set of itself, in whatever order.
///
/// `Group ::= SEQUENCE { number INTEGER (0..255), members SET OF Group, guests SET OF Group OPTIONAL }`
#[derive(Clone, Debug, PartialEq, Eq, Drop)]
pub struct Group(pub GroupContent<Group>);

/// What a `Group` holds.
pub type GroupContent<K> = Sequence<GroupComponents<K>, 3, 0>;

pub use group_components::Group as GroupComponents;

mod group_components {
    use super::*;

    /// The components of `Group`.
    #[derive(Clone, Debug, PartialEq, Eq, Drop)]
    pub struct Group<K> {
        pub number: u8,
        pub members: SetOf<Bare<K>>,
        pub guests: Option<SetOf<Bare<K>>>,
    }
}

type GroupRow<K> = Required<
    Context<0>,
    u8,
    RequiredKnot<Context<1>, SetOf<Bare<K>>, OptionalKnot<Context<2>, SetOf<Bare<K>>, End>>,
>;

impl<K> KnotRowed<K> for GroupComponents<K> {
    ghost use Rattle.rasn_oer.specs.Values.{both};

    type KnotValues = <GroupRow<K> as KnotRow<K>>::Values;

    ghost extended = { ⟦<GroupRow<K> as KnotRow<K>>⟧.EXTENSIBLE };

    ghost knot_schema = { ⟦<GroupRow<K> as KnotRow<K>>⟧.schema };

    ghost knot_weight = { ⟦<GroupRow<K> as KnotRow<K>>⟧.weight };

    ghost knot_ties = { ⟦<GroupRow<K> as KnotRow<K>>⟧.ties };

    ghost knot_components = { λ v. both v.number (both v.members (both v.guests tt)) };
}

impl<K: Encode> TakesKnot<K> for GroupComponents<K> {
    ghost refusing = { ⟦<GroupRow<K> as ReadsKnot<K>>⟧.refusing };

    fn take_knot<F: Fn(&mut Decoder<'_>) -> Result<K, DecodeError>>(
        alloc: Global,
        decoder: &mut Decoder<'_>,
        knot: &F,
    ) -> Result<Self, DecodeError> {
        read_knot_row::<K, Self, GroupRow<K>, F>(alloc, decoder, knot)
    }
}

impl<K: Encode> Rowed for GroupComponents<K> {
    ghost use Rattle.rasn_oer.specs.Values.{both};

    type Values = <GroupRow<K> as Components>::Values;

    ghost EXTENSIBLE = { ⟦<GroupRow<K> as Components>⟧.EXTENSIBLE };

    const EXTENSIBLE: bool = false;

    ghost row_schema = { ⟦<GroupRow<K> as Components>⟧.schema };

    ghost row_is_schema = { ⟦<GroupRow<K> as Components>⟧.is_schema };

    ghost components = { λ v. both v.number (both v.members (both v.guests tt)) };

    fn from_row(row: Self::Values) -> Self {
        built![GroupComponents from row:
            number,
            members,
            guests
        ]
    }
}

impl<K: Encode + Decode> Takes for GroupComponents<K> {
    ghost Refuses = { ⟦<GroupRow<K> as Reads>⟧.Refuses };

    #[inline(always)]
    fn take(alloc: Global, decoder: &mut Decoder<'_>) -> Result<Self, DecodeError> {
        read_row::<Self, GroupRow<K>>(alloc, decoder)
    }
}

const GROUP_COMPONENTS: &'static [Field<'static>] = fields![
    0 Required Context 0 "number",
    1 Required Context 1 "members",
    2 Optional Context 2 "guests"
];

impl<K: Encode> Tabled<3, 0> for GroupComponents<K> {
    ghost use Rattle.std.specs.Prelude.{refl};

    const FIELDS: Fields<3> = Fields {
        fields: GROUP_COMPONENTS,
    };

    const EXTENDED_FIELDS: Option<Fields<0>> = None;

    fn root_fields() -> &'static [Field<'static>] {
        GROUP_COMPONENTS
    }

    fn addition_fields() -> &'static [Field<'static>] {
        &[]
    }

    #[inline(always)]
    fn put(&self, encoder: &mut Encoder<'_>) -> Result<(), EncodeError> {
        let view = views![self:
            number,
            members,
            guests
        ];
        GroupRow::<K>::write(&view, encoder)
    }

    ghost counts = { (refl, refl) };
}

impl AsnType for Group {
    ghost use Rattle.std.specs.Prelude.{refl};
    ghost use Rattle.asn1_core.specs.declared.tag.TheConstants.Tag.{SEQUENCE};
    ghost use Rattle.asn1_core.specs.declared.constraints.TheConstants.Constraints.{NONE};

    ghost TAG = { SEQUENCE };

    const TAG: Tag = Tag::SEQUENCE;

    ghost CONSTRAINTS = { NONE };

    const CONSTRAINTS: Constraints = Constraints::NONE;

    ghost consistent = { refl };
}

impl Spelled for Group {
    ghost use Rattle.rasn_oer.specs.Knots.{knot_tree, IsKnot, knot_typed};
    ghost use Rattle.example_recursive.specs.GroupWeights.{group_smaller};
    ghost use Rattle.example_recursive.specs.declared.types_02.Group.{out-Group, size-Group};

    ghost tree = { λ c v. knot_tree size-Group (λ v. (out-Group v).0) ⟦<GroupContent<Group> as HoldsKnot<Group>>⟧.tied v };

    ghost IsValue = { IsKnot size-Group (λ v. (out-Group v).0) ⟦<GroupContent<Group> as HoldsKnot<Group>>⟧.tied };

    ghost is_tree = { λ c k v i. (knot_typed size-Group (λ v. (out-Group v).0) ⟦<GroupContent<Group> as HoldsKnot<Group>>⟧.tied ⟦<GroupContent<Group> as HoldsKnot<Group>>⟧.weight (record { ties = ⟦<GroupContent<Group> as HoldsKnot<Group>>⟧.ties; smaller = group_smaller })).is v i };

    ghost alike = { λ c k v w i j. (knot_typed size-Group (λ v. (out-Group v).0) ⟦<GroupContent<Group> as HoldsKnot<Group>>⟧.tied ⟦<GroupContent<Group> as HoldsKnot<Group>>⟧.weight (record { ties = ⟦<GroupContent<Group> as HoldsKnot<Group>>⟧.ties; smaller = group_smaller })).like v w i j };
}

impl Layered for Group {
    ghost use Rattle.rasn_oer.specs.Knots.{knot, knot_layers, layer};
    ghost use Rattle.example_recursive.specs.GroupWeights.{group_smaller};
    ghost use Rattle.example_recursive.specs.declared.types_02.Group.{out-Group, size-Group};

    ghost inner = { layer size-Group (λ v. (out-Group v).0) ⟦<GroupContent<Group> as HoldsKnot<Group>>⟧.tied (knot size-Group (λ v. (out-Group v).0) ⟦<GroupContent<Group> as HoldsKnot<Group>>⟧.tied) };

    ghost layers = { knot_layers size-Group (λ v. (out-Group v).0) ⟦<GroupContent<Group> as HoldsKnot<Group>>⟧.tied ⟦<GroupContent<Group> as HoldsKnot<Group>>⟧.weight (record { ties = ⟦<GroupContent<Group> as HoldsKnot<Group>>⟧.ties; smaller = group_smaller }) };
}

/// Writes what a `Group` holds.
#[inline(always)]
fn encode_group<K: Encode>(
    inner: &GroupContent<K>,
    encoder: &mut Encoder<'_>,
    tag: Tag,
) -> Result<(), EncodeError>
    ensures done { OnOk result (Encodes (⟦<GroupContent<K> as Spelled>⟧.tree NONE inner.now) encoder.old encoder.new) }
    ensures value { OnOk result (⟦<GroupContent<K> as Spelled>⟧.IsValue inner.now) }
    ensures refused { IfErr result (λ x. Refused (⟦<GroupContent<K> as Spelled>⟧.tree NONE inner.now) x encoder.old encoder.new) }
{
    inner.encode_with_tag(encoder, tag)
}

impl Encode for Group {
    #[inline(always)]
    fn encode_with_tag_and_constraints(
        &self,
        encoder: &mut Encoder<'_>,
        tag: Tag,
        _constraints: Constraints,
    ) -> Result<(), EncodeError> {
        layer_of::<Group>(self);
        encode_group::<Group>(&self.0, encoder, tag)
    }
}

impl Knot<GroupContent<Group>> for Group {
    ghost use Rattle.rasn_oer.specs.Knots.{knot_layered};
    ghost use Rattle.example_recursive.specs.GroupWeights.{group_smaller};
    ghost use Rattle.example_recursive.specs.declared.types_02.Group.{out-Group, size-Group};

    ghost content = { λ v. (out-Group v).0 };

    fn from_content(inner: GroupContent<Group>) -> Group {
        Group(inner)
    }

    ghost layered = { knot_layered size-Group (λ v. (out-Group v).0) ⟦<GroupContent<Group> as HoldsKnot<Group>>⟧.tied ⟦<GroupContent<Group> as HoldsKnot<Group>>⟧.weight (record { ties = ⟦<GroupContent<Group> as HoldsKnot<Group>>⟧.ties; smaller = group_smaller }) };
}

impl Decode for Group {
    ghost use Rattle.rasn_oer.specs.Answering.{KnotAnswers};

    ghost Answered = { λ c s r t. KnotAnswers ⟦<Group as Knot<GroupContent<Group>>>⟧.content ⟦<GroupContent<Group> as DecodeKnot<Group>>⟧.answering s r t };

    fn decode_with_tag_and_constraints(
        alloc: Global,
        decoder: &mut Decoder<'_>,
        tag: Tag,
        _constraints: Constraints,
    ) -> Result<Group, DecodeError> {
        decode_knotted::<GroupContent<Self>, Self>(alloc, decoder, tag)
    }
}

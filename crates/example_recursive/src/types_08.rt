//! Types of ASN.1 modules, as oergen printed them.
ghost use Rattle.std.specs.Prelude.{OnOk, IfErr};
ghost use Rattle.oer_write.specs.Written.{Encodes, Refused};
ghost use Rattle.asn1_core.specs.declared.constraints.TheConstants.Constraints.{NONE};

use rasn_oer::prelude::*;
use std::alloc::Global;
use std::marker::PhantomData;

/// A sequence that may hold itself behind more components, and behind more additions, than stand in an alias.
///
/// `Branch ::= SEQUENCE { a BOOLEAN, b BOOLEAN, c BOOLEAN, d BOOLEAN, e BOOLEAN, left Branch OPTIONAL,
/// ..., f BOOLEAN OPTIONAL, g BOOLEAN OPTIONAL, h BOOLEAN OPTIONAL, i BOOLEAN OPTIONAL, j BOOLEAN
/// OPTIONAL, right Branch OPTIONAL }`
#[derive(Clone, Debug, PartialEq, Eq, Drop)]
pub struct Branch(pub BranchContent<Branch>);

/// What a `Branch` holds.
pub type BranchContent<K> = Sequence<BranchComponents<K>, 6, 6>;

pub use branch_components::Branch as BranchComponents;

mod branch_components {
    use super::*;

    /// The components of `Branch`.
    #[derive(Clone, Debug, PartialEq, Eq, Drop)]
    pub struct Branch<K> {
        pub a: bool,
        pub b: bool,
        pub c: bool,
        pub d: bool,
        pub e: bool,
        pub left: Option<Held<K>>,
        pub f: Option<bool>,
        pub g: Option<bool>,
        pub h: Option<bool>,
        pub i: Option<bool>,
        pub j: Option<bool>,
        pub right: Option<Held<K>>,
    }
}

type BranchRow<K> = Required<
    Context<0>,
    bool,
    Required<
        Context<1>,
        bool,
        Required<
            Context<2>,
            bool,
            Required<Context<3>, bool, Required<Context<4>, bool, BranchFromLeft<K>>>,
        >,
    >,
>;

/// The components of `Branch` from `left` on.
pub struct BranchFromLeft<K>(PhantomData<K>);

type BranchFromLeftRow<K> = OptionalKnot<Context<5>, Held<K>, Extensible<BranchAdditions<K>>>;

impl<K: Encode> Components for BranchFromLeft<K> {
    type Values = <BranchFromLeftRow<K> as Components>::Values;

    ghost EXTENSIBLE = { ⟦<BranchFromLeftRow<K> as Components>⟧.EXTENSIBLE };

    const EXTENSIBLE: bool = true;

    ghost schema = { ⟦<BranchFromLeftRow<K> as Components>⟧.schema };

    ghost is_schema = { ⟦<BranchFromLeftRow<K> as Components>⟧.is_schema };
}

impl<K: Encode> Slotted for BranchFromLeft<K> {
    type Slots = <BranchFromLeftRow<K> as Slotted>::Slots;

    ghost filled = { ⟦<BranchFromLeftRow<K> as Slotted>⟧.filled };

    ghost filled_once = { ⟦<BranchFromLeftRow<K> as Slotted>⟧.filled_once };

    #[inline(always)]
    fn empty() -> Self::Slots {
        BranchFromLeftRow::<K>::empty()
    }

    #[inline(always)]
    fn taken(slots: Self::Slots) -> Self::Values {
        BranchFromLeftRow::<K>::taken(slots)
    }
}

impl<K: Encode + Decode> Reads for BranchFromLeft<K> {
    ghost Refuses = { ⟦<BranchFromLeftRow<K> as Reads>⟧.Refuses };

    #[inline(always)]
    fn read(
        alloc: Global,
        decoder: &mut Decoder<'_>,
        slots: &mut Self::Slots,
    ) -> Result<(), DecodeError> {
        <BranchFromLeftRow<K> as Reads>::read(alloc, decoder, slots)
    }
}

impl<'v, K: Encode + 'v> Views<'v> for BranchFromLeft<K> {
    type View = <BranchFromLeftRow<K> as Views<'v>>::View;

    ghost seen = { ⟦<BranchFromLeftRow<K> as Views<'v>>⟧.seen };

    #[inline(always)]
    fn write(view: &Self::View, encoder: &mut Encoder<'_>) -> Result<(), EncodeError> {
        BranchFromLeftRow::<K>::write(view, encoder)
    }
}

impl<K> KnotRow<K> for BranchFromLeft<K> {
    type Values = <BranchFromLeftRow<K> as KnotRow<K>>::Values;

    ghost EXTENSIBLE = { ⟦<BranchFromLeftRow<K> as KnotRow<K>>⟧.EXTENSIBLE };

    const EXTENSIBLE: bool = true;

    ghost schema = { ⟦<BranchFromLeftRow<K> as KnotRow<K>>⟧.schema };

    ghost weight = { ⟦<BranchFromLeftRow<K> as KnotRow<K>>⟧.weight };

    ghost ties = { ⟦<BranchFromLeftRow<K> as KnotRow<K>>⟧.ties };
}

impl<K: Encode> ReadsKnot<K> for BranchFromLeft<K> {
    ghost refusing = { ⟦<BranchFromLeftRow<K> as ReadsKnot<K>>⟧.refusing };

    fn read<F: Fn(&mut Decoder<'_>) -> Result<K, DecodeError>>(
        alloc: Global,
        decoder: &mut Decoder<'_>,
        slots: &mut Self::Slots,
        knot: &F,
    ) -> Result<(), DecodeError> {
        <BranchFromLeftRow<K> as ReadsKnot<K>>::read(alloc, decoder, slots, knot)
    }
}

type BranchAdditions<K> = OptionalAddition<
    Context<6>,
    bool,
    OptionalAddition<
        Context<7>,
        bool,
        OptionalAddition<
            Context<8>,
            bool,
            OptionalAddition<
                Context<9>,
                bool,
                OptionalAddition<Context<10>, bool, BranchFromRight<K>>,
            >,
        >,
    >,
>;

/// The components of `Branch` from `right` on.
pub struct BranchFromRight<K>(PhantomData<K>);

type BranchFromRightRow<K> = OptionalAdditionKnot<Context<11>, Held<K>, End>;

impl<K: Encode> Additions for BranchFromRight<K> {
    type More = <BranchFromRightRow<K> as Additions>::More;

    ghost table = { ⟦<BranchFromRightRow<K> as Additions>⟧.table };

    ghost is_table = { ⟦<BranchFromRightRow<K> as Additions>⟧.is_table };
}

impl<K: Encode> SlottedAdditions for BranchFromRight<K> {
    type Slots = <BranchFromRightRow<K> as SlottedAdditions>::Slots;

    ghost filled = { ⟦<BranchFromRightRow<K> as SlottedAdditions>⟧.filled };

    ghost filled_once = { ⟦<BranchFromRightRow<K> as SlottedAdditions>⟧.filled_once };

    #[inline(always)]
    fn empty() -> Self::Slots {
        BranchFromRightRow::<K>::empty()
    }

    #[inline(always)]
    fn taken(slots: Self::Slots) -> Self::More {
        BranchFromRightRow::<K>::taken(slots)
    }
}

impl<K: Encode + Decode> ReadsAdditions for BranchFromRight<K> {
    ghost Refuses = { ⟦<BranchFromRightRow<K> as ReadsAdditions>⟧.Refuses };

    #[inline(always)]
    fn read_additions(
        alloc: Global,
        decoder: &mut Decoder<'_>,
        slots: &mut Self::Slots,
    ) -> Result<(), DecodeError> {
        <BranchFromRightRow<K> as ReadsAdditions>::read_additions(alloc, decoder, slots)
    }
}

impl<'v, K: Encode + 'v> AdditionViews<'v> for BranchFromRight<K> {
    type MoreView = <BranchFromRightRow<K> as AdditionViews<'v>>::MoreView;

    ghost seen = { ⟦<BranchFromRightRow<K> as AdditionViews<'v>>⟧.seen };

    #[inline(always)]
    fn write_additions(
        view: &Self::MoreView,
        encoder: &mut Encoder<'_>,
    ) -> Result<(), EncodeError> {
        BranchFromRightRow::<K>::write_additions(view, encoder)
    }
}

impl<K> KnotAdditions<K> for BranchFromRight<K> {
    type More = <BranchFromRightRow<K> as KnotAdditions<K>>::More;

    ghost table = { ⟦<BranchFromRightRow<K> as KnotAdditions<K>>⟧.table };

    ghost weight = { ⟦<BranchFromRightRow<K> as KnotAdditions<K>>⟧.weight };

    ghost ties = { ⟦<BranchFromRightRow<K> as KnotAdditions<K>>⟧.ties };
}

#[rattlefmt::skip]
impl<K: Encode> ReadsKnotAdditions<K> for BranchFromRight<K> {
    ghost refusing = { ⟦<BranchFromRightRow<K> as ReadsKnotAdditions<K>>⟧.refusing };

    fn read_knot_additions<F: Fn(&mut Decoder<'_>) -> Result<K, DecodeError>>(
        alloc: Global,
        decoder: &mut Decoder<'_>,
        slots: &mut Self::Slots,
        knot: &F,
    ) -> Result<(), DecodeError> {
        <BranchFromRightRow<K> as ReadsKnotAdditions<K>>::read_knot_additions(alloc, decoder, slots, knot)
    }
}

impl<K> KnotRowed<K> for BranchComponents<K> {
    ghost use Rattle.rasn_oer.specs.Values.{both};

    type KnotValues = <BranchRow<K> as KnotRow<K>>::Values;

    ghost extended = { ⟦<BranchRow<K> as KnotRow<K>>⟧.EXTENSIBLE };

    ghost knot_schema = { ⟦<BranchRow<K> as KnotRow<K>>⟧.schema };

    ghost knot_weight = { ⟦<BranchRow<K> as KnotRow<K>>⟧.weight };

    ghost knot_ties = { ⟦<BranchRow<K> as KnotRow<K>>⟧.ties };

    ghost knot_components = { λ v. both v.a (both v.b (both v.c (both v.d (both v.e (both v.left (both v.f (both v.g (both v.h (both v.i (both v.j (both v.right tt))))))))))) };
}

impl<K: Encode> TakesKnot<K> for BranchComponents<K> {
    ghost refusing = { ⟦<BranchRow<K> as ReadsKnot<K>>⟧.refusing };

    fn take_knot<F: Fn(&mut Decoder<'_>) -> Result<K, DecodeError>>(
        alloc: Global,
        decoder: &mut Decoder<'_>,
        knot: &F,
    ) -> Result<Self, DecodeError> {
        read_knot_row::<K, Self, BranchRow<K>, F>(alloc, decoder, knot)
    }
}

impl<K: Encode> Rowed for BranchComponents<K> {
    ghost use Rattle.rasn_oer.specs.Values.{both};

    type Values = <BranchRow<K> as Components>::Values;

    ghost EXTENSIBLE = { ⟦<BranchRow<K> as Components>⟧.EXTENSIBLE };

    const EXTENSIBLE: bool = true;

    ghost row_schema = { ⟦<BranchRow<K> as Components>⟧.schema };

    ghost row_is_schema = { ⟦<BranchRow<K> as Components>⟧.is_schema };

    ghost components = { λ v. both v.a (both v.b (both v.c (both v.d (both v.e (both v.left (both v.f (both v.g (both v.h (both v.i (both v.j (both v.right tt))))))))))) };

    fn from_row(row: Self::Values) -> Self {
        built![BranchComponents from row:
            a,
            b,
            c,
            d,
            e,
            left,
            f,
            g,
            h,
            i,
            j,
            right
        ]
    }
}

impl<K: Encode + Decode> Takes for BranchComponents<K> {
    ghost Refuses = { ⟦<BranchRow<K> as Reads>⟧.Refuses };

    #[inline(always)]
    fn take(alloc: Global, decoder: &mut Decoder<'_>) -> Result<Self, DecodeError> {
        read_row::<Self, BranchRow<K>>(alloc, decoder)
    }
}

const BRANCH_COMPONENTS: &'static [Field<'static>] = fields![
    0 Required Context 0 "a",
    1 Required Context 1 "b",
    2 Required Context 2 "c",
    3 Required Context 3 "d",
    4 Required Context 4 "e",
    5 Optional Context 5 "left"
];

const BRANCH_ADDITIONS: &'static [Field<'static>] = fields![
    0 Optional Context 6 "f",
    1 Optional Context 7 "g",
    2 Optional Context 8 "h",
    3 Optional Context 9 "i",
    4 Optional Context 10 "j",
    5 Optional Context 11 "right"
];

impl<K: Encode> Tabled<6, 6> for BranchComponents<K> {
    ghost use Rattle.std.specs.Prelude.{refl};

    const FIELDS: Fields<6> = Fields {
        fields: BRANCH_COMPONENTS,
    };

    const EXTENDED_FIELDS: Option<Fields<6>> = Some(Fields {
        fields: BRANCH_ADDITIONS,
    });

    fn root_fields() -> &'static [Field<'static>] {
        BRANCH_COMPONENTS
    }

    fn addition_fields() -> &'static [Field<'static>] {
        BRANCH_ADDITIONS
    }

    #[inline(always)]
    fn put(&self, encoder: &mut Encoder<'_>) -> Result<(), EncodeError> {
        let view = views![self:
            a,
            b,
            c,
            d,
            e,
            left,
            f,
            g,
            h,
            i,
            j,
            right
        ];
        BranchRow::<K>::write(&view, encoder)
    }

    ghost counts = { (refl, refl) };
}

impl AsnType for Branch {
    ghost use Rattle.std.specs.Prelude.{refl};
    ghost use Rattle.asn1_core.specs.declared.tag.TheConstants.Tag.{SEQUENCE};
    ghost use Rattle.asn1_core.specs.declared.constraints.TheConstants.Constraints.{NONE};

    ghost TAG = { SEQUENCE };

    const TAG: Tag = Tag::SEQUENCE;

    ghost CONSTRAINTS = { NONE };

    const CONSTRAINTS: Constraints = Constraints::NONE;

    ghost consistent = { refl };
}

impl Spelled for Branch {
    ghost use Rattle.rasn_oer.specs.Knots.{knot_tree, IsKnot, knot_typed};
    ghost use Rattle.example_recursive.specs.BranchWeights.{branch_smaller};
    ghost use Rattle.example_recursive.specs.declared.types_08.Branch.{out-Branch, size-Branch};

    ghost tree = { λ c v. knot_tree size-Branch (λ v. (out-Branch v).0) ⟦<BranchContent<Branch> as HoldsKnot<Branch>>⟧.tied v };

    ghost IsValue = { IsKnot size-Branch (λ v. (out-Branch v).0) ⟦<BranchContent<Branch> as HoldsKnot<Branch>>⟧.tied };

    ghost is_tree = { λ c k v i. (knot_typed size-Branch (λ v. (out-Branch v).0) ⟦<BranchContent<Branch> as HoldsKnot<Branch>>⟧.tied ⟦<BranchContent<Branch> as HoldsKnot<Branch>>⟧.weight (record { ties = ⟦<BranchContent<Branch> as HoldsKnot<Branch>>⟧.ties; smaller = branch_smaller })).is v i };

    ghost alike = { λ c k v w i j. (knot_typed size-Branch (λ v. (out-Branch v).0) ⟦<BranchContent<Branch> as HoldsKnot<Branch>>⟧.tied ⟦<BranchContent<Branch> as HoldsKnot<Branch>>⟧.weight (record { ties = ⟦<BranchContent<Branch> as HoldsKnot<Branch>>⟧.ties; smaller = branch_smaller })).like v w i j };
}

impl Layered for Branch {
    ghost use Rattle.rasn_oer.specs.Knots.{knot, knot_layers, layer};
    ghost use Rattle.example_recursive.specs.BranchWeights.{branch_smaller};
    ghost use Rattle.example_recursive.specs.declared.types_08.Branch.{out-Branch, size-Branch};

    ghost inner = { layer size-Branch (λ v. (out-Branch v).0) ⟦<BranchContent<Branch> as HoldsKnot<Branch>>⟧.tied (knot size-Branch (λ v. (out-Branch v).0) ⟦<BranchContent<Branch> as HoldsKnot<Branch>>⟧.tied) };

    ghost layers = { knot_layers size-Branch (λ v. (out-Branch v).0) ⟦<BranchContent<Branch> as HoldsKnot<Branch>>⟧.tied ⟦<BranchContent<Branch> as HoldsKnot<Branch>>⟧.weight (record { ties = ⟦<BranchContent<Branch> as HoldsKnot<Branch>>⟧.ties; smaller = branch_smaller }) };
}

/// Writes what a `Branch` holds.
#[inline(always)]
fn encode_branch<K: Encode>(
    inner: &BranchContent<K>,
    encoder: &mut Encoder<'_>,
    tag: Tag,
) -> Result<(), EncodeError>
    ensures done { OnOk result (Encodes (⟦<BranchContent<K> as Spelled>⟧.tree NONE inner.now) encoder.old encoder.new) }
    ensures value { OnOk result (⟦<BranchContent<K> as Spelled>⟧.IsValue inner.now) }
    ensures refused { IfErr result (λ x. Refused (⟦<BranchContent<K> as Spelled>⟧.tree NONE inner.now) x encoder.old encoder.new) }
{
    inner.encode_with_tag(encoder, tag)
}

impl Encode for Branch {
    #[inline(always)]
    fn encode_with_tag_and_constraints(
        &self,
        encoder: &mut Encoder<'_>,
        tag: Tag,
        _constraints: Constraints,
    ) -> Result<(), EncodeError> {
        layer_of::<Branch>(self);
        encode_branch::<Branch>(&self.0, encoder, tag)
    }
}

impl Knot<BranchContent<Branch>> for Branch {
    ghost use Rattle.rasn_oer.specs.Knots.{knot_layered};
    ghost use Rattle.example_recursive.specs.BranchWeights.{branch_smaller};
    ghost use Rattle.example_recursive.specs.declared.types_08.Branch.{out-Branch, size-Branch};

    ghost content = { λ v. (out-Branch v).0 };

    fn from_content(inner: BranchContent<Branch>) -> Branch {
        Branch(inner)
    }

    ghost layered = { knot_layered size-Branch (λ v. (out-Branch v).0) ⟦<BranchContent<Branch> as HoldsKnot<Branch>>⟧.tied ⟦<BranchContent<Branch> as HoldsKnot<Branch>>⟧.weight (record { ties = ⟦<BranchContent<Branch> as HoldsKnot<Branch>>⟧.ties; smaller = branch_smaller }) };
}

impl Decode for Branch {
    ghost use Rattle.rasn_oer.specs.Answering.{KnotAnswers};

    ghost Answered = { λ c s r t. KnotAnswers ⟦<Branch as Knot<BranchContent<Branch>>>⟧.content ⟦<BranchContent<Branch> as DecodeKnot<Branch>>⟧.answering s r t };

    fn decode_with_tag_and_constraints(
        alloc: Global,
        decoder: &mut Decoder<'_>,
        tag: Tag,
        _constraints: Constraints,
    ) -> Result<Branch, DecodeError> {
        decode_knotted::<BranchContent<Self>, Self>(alloc, decoder, tag)
    }
}

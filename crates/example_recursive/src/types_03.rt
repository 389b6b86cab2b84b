//! Types of ASN.1 modules, as oergen printed them.
ghost use Rattle.std.specs.Prelude.{OnOk, IfErr};
ghost use Rattle.oer_write.specs.Written.{Encodes, Refused};
ghost use Rattle.asn1_core.specs.declared.constraints.TheConstants.Constraints.{NONE};

use oer_kept::{KeptChoice, KeptEnumeration};
use rasn_oer::prelude::*;
use std::alloc::Global;

/// A set of itself, and no more.
///
/// `Bag ::= SET OF Bag`
#[derive(Clone, Debug, PartialEq, Eq, Drop)]
pub struct Bag(pub BagContent<Bag>);

/// What a `Bag` holds.
pub type BagContent<K> = SetOf<Bare<K>>;

impl AsnType for Bag {
    ghost use Rattle.std.specs.Prelude.{refl};
    ghost use Rattle.asn1_core.specs.declared.tag.TheConstants.Tag.{SET};
    ghost use Rattle.asn1_core.specs.declared.constraints.TheConstants.Constraints.{NONE};

    ghost TAG = { SET };

    const TAG: Tag = Tag::SET;

    ghost CONSTRAINTS = { NONE };

    const CONSTRAINTS: Constraints = Constraints::NONE;

    ghost consistent = { refl };
}

impl Spelled for Bag {
    ghost use Rattle.rasn_oer.specs.Knots.{knot_tree, IsKnot, knot_typed};
    ghost use Rattle.example_recursive.specs.BagWeights.{bag_smaller};
    ghost use Rattle.example_recursive.specs.declared.types_03.Bag.{out-Bag, size-Bag};

    ghost tree = { λ c v. knot_tree size-Bag (λ v. (out-Bag v).0) ⟦<BagContent<Bag> as HoldsKnot<Bag>>⟧.tied v };

    ghost IsValue = { IsKnot size-Bag (λ v. (out-Bag v).0) ⟦<BagContent<Bag> as HoldsKnot<Bag>>⟧.tied };

    ghost is_tree = { λ c k v i. (knot_typed size-Bag (λ v. (out-Bag v).0) ⟦<BagContent<Bag> as HoldsKnot<Bag>>⟧.tied ⟦<BagContent<Bag> as HoldsKnot<Bag>>⟧.weight (record { ties = ⟦<BagContent<Bag> as HoldsKnot<Bag>>⟧.ties; smaller = bag_smaller })).is v i };

    ghost alike = { λ c k v w i j. (knot_typed size-Bag (λ v. (out-Bag v).0) ⟦<BagContent<Bag> as HoldsKnot<Bag>>⟧.tied ⟦<BagContent<Bag> as HoldsKnot<Bag>>⟧.weight (record { ties = ⟦<BagContent<Bag> as HoldsKnot<Bag>>⟧.ties; smaller = bag_smaller })).like v w i j };
}

impl Layered for Bag {
    ghost use Rattle.rasn_oer.specs.Knots.{knot, knot_layers, layer};
    ghost use Rattle.example_recursive.specs.BagWeights.{bag_smaller};
    ghost use Rattle.example_recursive.specs.declared.types_03.Bag.{out-Bag, size-Bag};

    ghost inner = { layer size-Bag (λ v. (out-Bag v).0) ⟦<BagContent<Bag> as HoldsKnot<Bag>>⟧.tied (knot size-Bag (λ v. (out-Bag v).0) ⟦<BagContent<Bag> as HoldsKnot<Bag>>⟧.tied) };

    ghost layers = { knot_layers size-Bag (λ v. (out-Bag v).0) ⟦<BagContent<Bag> as HoldsKnot<Bag>>⟧.tied ⟦<BagContent<Bag> as HoldsKnot<Bag>>⟧.weight (record { ties = ⟦<BagContent<Bag> as HoldsKnot<Bag>>⟧.ties; smaller = bag_smaller }) };
}

/// Writes what a `Bag` holds.
#[inline(always)]
fn encode_bag<K: Encode>(
    inner: &BagContent<K>,
    encoder: &mut Encoder<'_>,
    tag: Tag,
) -> Result<(), EncodeError>
    ensures done { OnOk result (Encodes (⟦<BagContent<K> as Spelled>⟧.tree NONE inner.now) encoder.old encoder.new) }
    ensures value { OnOk result (⟦<BagContent<K> as Spelled>⟧.IsValue inner.now) }
    ensures refused { IfErr result (λ x. Refused (⟦<BagContent<K> as Spelled>⟧.tree NONE inner.now) x encoder.old encoder.new) }
{
    inner.encode_with_tag(encoder, tag)
}

impl Encode for Bag {
    #[inline(always)]
    fn encode_with_tag_and_constraints(
        &self,
        encoder: &mut Encoder<'_>,
        tag: Tag,
        _constraints: Constraints,
    ) -> Result<(), EncodeError> {
        layer_of::<Bag>(self);
        encode_bag::<Bag>(&self.0, encoder, tag)
    }
}

impl Knot<BagContent<Bag>> for Bag {
    ghost use Rattle.rasn_oer.specs.Knots.{knot_layered};
    ghost use Rattle.example_recursive.specs.BagWeights.{bag_smaller};
    ghost use Rattle.example_recursive.specs.declared.types_03.Bag.{out-Bag, size-Bag};

    ghost content = { λ v. (out-Bag v).0 };

    fn from_content(inner: BagContent<Bag>) -> Bag {
        Bag(inner)
    }

    ghost layered = { knot_layered size-Bag (λ v. (out-Bag v).0) ⟦<BagContent<Bag> as HoldsKnot<Bag>>⟧.tied ⟦<BagContent<Bag> as HoldsKnot<Bag>>⟧.weight (record { ties = ⟦<BagContent<Bag> as HoldsKnot<Bag>>⟧.ties; smaller = bag_smaller }) };
}

impl Decode for Bag {
    ghost use Rattle.rasn_oer.specs.Answering.{KnotAnswers};

    ghost Answered = { λ c s r t. KnotAnswers ⟦<Bag as Knot<BagContent<Bag>>>⟧.content ⟦<BagContent<Bag> as DecodeKnot<Bag>>⟧.answering s r t };

    fn decode_with_tag_and_constraints(
        alloc: Global,
        decoder: &mut Decoder<'_>,
        tag: Tag,
        _constraints: Constraints,
    ) -> Result<Bag, DecodeError> {
        decode_knotted::<BagContent<Self>, Self>(alloc, decoder, tag)
    }
}

/// Which entries are meant. Only a CHOICE cuts the cycle.
///
/// `Filter ::= CHOICE { and SET OF Filter, or SEQUENCE OF Filter, not Filter, present OCTET STRING }`
#[derive(Clone, Debug, PartialEq, Eq, Drop)]
pub struct Filter(pub FilterContent<Filter>);

/// What a `Filter` holds.
pub type FilterContent<K> = OneOf<FilterAlternatives<K>>;

/// The alternatives of `Filter`.
#[derive(Clone, Debug, PartialEq, Eq, Drop)]
pub enum FilterAlternatives<K> {
    And(SetOf<Bare<K>>),
    Or(ListOf<Bare<K>>),
    Not(Held<K>),
    Present(Octets),
}

type FilterRow<K> = AlternativeKnot<
    Context<0>,
    SetOf<Bare<K>>,
    AlternativeKnot<
        Context<1>,
        ListOf<Bare<K>>,
        AlternativeKnot<Context<2>, Held<K>, Alternative<Context<3>, Octets, End>>,
    >,
>;

const FILTER_ROOTS: &'static [Tag] = tags![Context 0, Context 1, Context 2, Context 3];

impl<K> KnotAlternating<K> for FilterAlternatives<K> {
    ghost use Rattle.std.specs.Prelude.{refl};
    ghost use Rattle.rasn_oer.specs.Alternative.{First, Rest};
    ghost use Rattle.example_recursive.specs.FilterWeights.{filter_weight};
    ghost use Rattle.example_recursive.specs.declared.types_03.FilterAlternatives.TheVariants.{And, Or, Not, Present};

    type KnotValues = <FilterRow<K> as KnotAlternatives<K>>::Values;

    ghost knot_choices = { ⟦<FilterRow<K> as KnotAlternatives<K>>⟧.choices };

    ghost knot_weight = { ⟦<FilterRow<K> as KnotAlternatives<K>>⟧.weight };

    ghost knot_ties = { ⟦<FilterRow<K> as KnotAlternatives<K>>⟧.ties };

    ghost knot_alternative = { elim [ And held ↦ First held | Or held ↦ Rest (First held) | Not held ↦ Rest (Rest (First held)) | Present held ↦ Rest (Rest (Rest (First held))) ] };

    ghost variant_weight = { filter_weight };

    ghost weighs = { λ size. elim [ And held ↦ refl | Or held ↦ refl | Not held ↦ refl | Present held ↦ refl ] };
}

impl<K: Encode> TakesKnotAlternative<K> for FilterAlternatives<K> {
    ghost refusing = { ⟦<FilterRow<K> as ReadsKnotAlternatives<K>>⟧.refusing };

    fn take_knot<D: Choice, F: Fn(&mut Decoder<'_>) -> Result<K, DecodeError>>(
        alloc: Global,
        decoder: &mut Decoder<'_>,
        tag: Tag,
        knot: &F,
    ) -> Result<Self, DecodeError> {
        read_knot_alternative::<K, Self, FilterRow<K>, D, F>(alloc, decoder, tag, knot)
    }
}

impl<K: Encode> Alternating for FilterAlternatives<K> {
    ghost use Rattle.std.specs.Prelude.{refl};
    ghost use Rattle.rasn_oer.specs.Alternative.{First, Rest};
    ghost use Rattle.example_recursive.specs.declared.types_03.FilterAlternatives.TheVariants.{And, Or, Not, Present};

    type Values = <FilterRow<K> as Alternatives>::Values;

    ghost row_choices = { ⟦<FilterRow<K> as Alternatives>⟧.choices };

    ghost row_are_choices = { ⟦<FilterRow<K> as Alternatives>⟧.are_choices };

    ghost alternative = { elim [ And held ↦ First held | Or held ↦ Rest (First held) | Not held ↦ Rest (Rest (First held)) | Present held ↦ Rest (Rest (Rest (First held))) ] };

    const VARIANTS: &'static [Tag] = FILTER_ROOTS;

    const EXTENDED_VARIANTS: Option<&'static [Tag]> = None;

    fn root_tags() -> &'static [Tag] {
        FILTER_ROOTS
    }

    fn addition_tags() -> Option<&'static [Tag]> {
        None
    }

    fn from_alternative(value: Self::Values) -> Self {
        from_row!(value => FilterAlternatives: And, Or, Not, Present)
    }

    #[inline(always)]
    fn put<E: Choice>(&self, encoder: &mut Encoder<'_>) -> Result<(), EncodeError> {
        match self {
            Self::And(held) => put_alternative::<E, _>(encoder, Context::<0>::tag(), held),
            Self::Or(held) => put_alternative::<E, _>(encoder, Context::<1>::tag(), held),
            Self::Not(held) => put_alternative::<E, _>(encoder, Context::<2>::tag(), held),
            Self::Present(held) => put_alternative::<E, _>(encoder, Context::<3>::tag(), held),
        }
    }

    ghost apart = { refl };
}

impl<K: Encode + Decode> TakesAlternative for FilterAlternatives<K> {
    ghost Refuses = { ⟦<FilterRow<K> as ReadsAlternatives>⟧.Refuses };

    fn take<D: Choice>(
        alloc: Global,
        decoder: &mut Decoder<'_>,
        tag: Tag,
    ) -> Result<Self, DecodeError> {
        read_alternative::<Self, FilterRow<K>, D>(alloc, decoder, tag)
    }
}

impl AsnType for Filter {
    ghost use Rattle.std.specs.Prelude.{refl};
    ghost use Rattle.asn1_core.specs.declared.tag.TheConstants.Tag.{EOC};
    ghost use Rattle.asn1_core.specs.declared.constraints.TheConstants.Constraints.{NONE};

    ghost TAG = { EOC };

    const TAG: Tag = Tag::EOC;

    ghost CONSTRAINTS = { NONE };

    const CONSTRAINTS: Constraints = Constraints::NONE;

    ghost consistent = { refl };

    const IS_CHOICE: bool = true;
}

impl Spelled for Filter {
    ghost use Rattle.rasn_oer.specs.Knots.{knot_tree, IsKnot, knot_typed};
    ghost use Rattle.example_recursive.specs.FilterWeights.{filter_smaller};
    ghost use Rattle.example_recursive.specs.declared.types_03.Filter.{out-Filter, size-Filter};

    ghost tree = { λ c v. knot_tree size-Filter (λ v. (out-Filter v).0) ⟦<FilterContent<Filter> as HoldsKnot<Filter>>⟧.tied v };

    ghost IsValue = { IsKnot size-Filter (λ v. (out-Filter v).0) ⟦<FilterContent<Filter> as HoldsKnot<Filter>>⟧.tied };

    ghost is_tree = { λ c k v i. (knot_typed size-Filter (λ v. (out-Filter v).0) ⟦<FilterContent<Filter> as HoldsKnot<Filter>>⟧.tied ⟦<FilterContent<Filter> as HoldsKnot<Filter>>⟧.weight (record { ties = ⟦<FilterContent<Filter> as HoldsKnot<Filter>>⟧.ties; smaller = filter_smaller })).is v i };

    ghost alike = { λ c k v w i j. (knot_typed size-Filter (λ v. (out-Filter v).0) ⟦<FilterContent<Filter> as HoldsKnot<Filter>>⟧.tied ⟦<FilterContent<Filter> as HoldsKnot<Filter>>⟧.weight (record { ties = ⟦<FilterContent<Filter> as HoldsKnot<Filter>>⟧.ties; smaller = filter_smaller })).like v w i j };
}

impl Layered for Filter {
    ghost use Rattle.rasn_oer.specs.Knots.{knot, knot_layers, layer};
    ghost use Rattle.example_recursive.specs.FilterWeights.{filter_smaller};
    ghost use Rattle.example_recursive.specs.declared.types_03.Filter.{out-Filter, size-Filter};

    ghost inner = { layer size-Filter (λ v. (out-Filter v).0) ⟦<FilterContent<Filter> as HoldsKnot<Filter>>⟧.tied (knot size-Filter (λ v. (out-Filter v).0) ⟦<FilterContent<Filter> as HoldsKnot<Filter>>⟧.tied) };

    ghost layers = { knot_layers size-Filter (λ v. (out-Filter v).0) ⟦<FilterContent<Filter> as HoldsKnot<Filter>>⟧.tied ⟦<FilterContent<Filter> as HoldsKnot<Filter>>⟧.weight (record { ties = ⟦<FilterContent<Filter> as HoldsKnot<Filter>>⟧.ties; smaller = filter_smaller }) };
}

/// Writes what a `Filter` holds.
#[inline(always)]
fn encode_filter<K: Encode>(
    inner: &FilterContent<K>,
    encoder: &mut Encoder<'_>,
    tag: Tag,
) -> Result<(), EncodeError>
    ensures done { OnOk result (Encodes (⟦<FilterContent<K> as Spelled>⟧.tree NONE inner.now) encoder.old encoder.new) }
    ensures value { OnOk result (⟦<FilterContent<K> as Spelled>⟧.IsValue inner.now) }
    ensures refused { IfErr result (λ x. Refused (⟦<FilterContent<K> as Spelled>⟧.tree NONE inner.now) x encoder.old encoder.new) }
{
    inner.encode_with_tag(encoder, tag)
}

impl Encode for Filter {
    #[inline(always)]
    fn encode_with_tag_and_constraints(
        &self,
        encoder: &mut Encoder<'_>,
        tag: Tag,
        _constraints: Constraints,
    ) -> Result<(), EncodeError> {
        layer_of::<Filter>(self);
        encode_filter::<Filter>(&self.0, encoder, tag)
    }
}

impl Knot<FilterContent<Filter>> for Filter {
    ghost use Rattle.rasn_oer.specs.Knots.{knot_layered};
    ghost use Rattle.example_recursive.specs.FilterWeights.{filter_smaller};
    ghost use Rattle.example_recursive.specs.declared.types_03.Filter.{out-Filter, size-Filter};

    ghost content = { λ v. (out-Filter v).0 };

    fn from_content(inner: FilterContent<Filter>) -> Filter {
        Filter(inner)
    }

    ghost layered = { knot_layered size-Filter (λ v. (out-Filter v).0) ⟦<FilterContent<Filter> as HoldsKnot<Filter>>⟧.tied ⟦<FilterContent<Filter> as HoldsKnot<Filter>>⟧.weight (record { ties = ⟦<FilterContent<Filter> as HoldsKnot<Filter>>⟧.ties; smaller = filter_smaller }) };
}

impl Decode for Filter {
    ghost use Rattle.rasn_oer.specs.Answering.{KnotAnswers};

    ghost Answered = { λ c s r t. KnotAnswers ⟦<Filter as Knot<FilterContent<Filter>>>⟧.content ⟦<FilterContent<Filter> as DecodeKnot<Filter>>⟧.answering s r t };

    fn decode_with_tag_and_constraints(
        alloc: Global,
        decoder: &mut Decoder<'_>,
        tag: Tag,
        _constraints: Constraints,
    ) -> Result<Filter, DecodeError> {
        decode_knotted::<FilterContent<Self>, Self>(alloc, decoder, tag)
    }
}

/// The same, where newer versions may ask otherwise.
///
/// `Query ::= CHOICE { all SEQUENCE OF Query, except Query, name UTF8String, ... }`
#[derive(Clone, Debug, PartialEq, Eq, Drop)]
pub struct Query(pub QueryContent<Query>);

/// What a `Query` holds.
pub type QueryContent<K> = KeptChoice<QueryAlternatives<K>>;

/// The alternatives of `Query`.
#[derive(Clone, Debug, PartialEq, Eq, Drop)]
pub enum QueryAlternatives<K> {
    All(ListOf<Bare<K>>),
    Except(Held<K>),
    Name(Utf8Text),
}

type QueryRow<K> = AlternativeKnot<
    Context<0>,
    ListOf<Bare<K>>,
    AlternativeKnot<Context<1>, Held<K>, Alternative<Context<2>, Utf8Text, Extensible<End>>>,
>;

const QUERY_ROOTS: &'static [Tag] = tags![Context 0, Context 1, Context 2];

const QUERY_ADDITIONS: &'static [Tag] = &[];

impl<K> KnotAlternating<K> for QueryAlternatives<K> {
    ghost use Rattle.std.specs.Prelude.{refl};
    ghost use Rattle.rasn_oer.specs.Alternative.{First, Rest};
    ghost use Rattle.example_recursive.specs.QueryWeights.{query_weight};
    ghost use Rattle.example_recursive.specs.declared.types_03.QueryAlternatives.TheVariants.{All, Except, Name};

    type KnotValues = <QueryRow<K> as KnotAlternatives<K>>::Values;

    ghost knot_choices = { ⟦<QueryRow<K> as KnotAlternatives<K>>⟧.choices };

    ghost knot_weight = { ⟦<QueryRow<K> as KnotAlternatives<K>>⟧.weight };

    ghost knot_ties = { ⟦<QueryRow<K> as KnotAlternatives<K>>⟧.ties };

    ghost knot_alternative = { elim [ All held ↦ First held | Except held ↦ Rest (First held) | Name held ↦ Rest (Rest (First held)) ] };

    ghost variant_weight = { query_weight };

    ghost weighs = { λ size. elim [ All held ↦ refl | Except held ↦ refl | Name held ↦ refl ] };
}

impl<K: Encode> TakesKnotAlternative<K> for QueryAlternatives<K> {
    ghost refusing = { ⟦<QueryRow<K> as ReadsKnotAlternatives<K>>⟧.refusing };

    fn take_knot<D: Choice, F: Fn(&mut Decoder<'_>) -> Result<K, DecodeError>>(
        alloc: Global,
        decoder: &mut Decoder<'_>,
        tag: Tag,
        knot: &F,
    ) -> Result<Self, DecodeError> {
        read_knot_alternative::<K, Self, QueryRow<K>, D, F>(alloc, decoder, tag, knot)
    }
}

impl<K: Encode> Alternating for QueryAlternatives<K> {
    ghost use Rattle.std.specs.Prelude.{refl};
    ghost use Rattle.rasn_oer.specs.Alternative.{First, Rest};
    ghost use Rattle.example_recursive.specs.declared.types_03.QueryAlternatives.TheVariants.{All, Except, Name};

    type Values = <QueryRow<K> as Alternatives>::Values;

    ghost row_choices = { ⟦<QueryRow<K> as Alternatives>⟧.choices };

    ghost row_are_choices = { ⟦<QueryRow<K> as Alternatives>⟧.are_choices };

    ghost alternative = { elim [ All held ↦ First held | Except held ↦ Rest (First held) | Name held ↦ Rest (Rest (First held)) ] };

    const VARIANTS: &'static [Tag] = QUERY_ROOTS;

    const EXTENDED_VARIANTS: Option<&'static [Tag]> = Some(QUERY_ADDITIONS);

    fn root_tags() -> &'static [Tag] {
        QUERY_ROOTS
    }

    fn addition_tags() -> Option<&'static [Tag]> {
        Some(QUERY_ADDITIONS)
    }

    fn from_alternative(value: Self::Values) -> Self {
        from_row!(value => QueryAlternatives: All, Except, Name)
    }

    #[inline(always)]
    fn put<E: Choice>(&self, encoder: &mut Encoder<'_>) -> Result<(), EncodeError> {
        match self {
            Self::All(held) => put_alternative::<E, _>(encoder, Context::<0>::tag(), held),
            Self::Except(held) => put_alternative::<E, _>(encoder, Context::<1>::tag(), held),
            Self::Name(held) => put_alternative::<E, _>(encoder, Context::<2>::tag(), held),
        }
    }

    ghost apart = { refl };
}

impl<K: Encode + Decode> TakesAlternative for QueryAlternatives<K> {
    ghost Refuses = { ⟦<QueryRow<K> as ReadsAlternatives>⟧.Refuses };

    fn take<D: Choice>(
        alloc: Global,
        decoder: &mut Decoder<'_>,
        tag: Tag,
    ) -> Result<Self, DecodeError> {
        read_alternative::<Self, QueryRow<K>, D>(alloc, decoder, tag)
    }
}

impl AsnType for Query {
    ghost use Rattle.std.specs.Prelude.{refl};
    ghost use Rattle.asn1_core.specs.declared.tag.TheConstants.Tag.{EOC};
    ghost use Rattle.asn1_core.specs.declared.constraints.TheConstants.Constraints.{NONE};

    ghost TAG = { EOC };

    const TAG: Tag = Tag::EOC;

    ghost CONSTRAINTS = { NONE };

    const CONSTRAINTS: Constraints = Constraints::NONE;

    ghost consistent = { refl };

    const IS_CHOICE: bool = true;
}

impl Spelled for Query {
    ghost use Rattle.rasn_oer.specs.Knots.{knot_tree, IsKnot, knot_typed};
    ghost use Rattle.example_recursive.specs.QueryWeights.{query_smaller};
    ghost use Rattle.example_recursive.specs.declared.types_03.Query.{out-Query, size-Query};

    ghost tree = { λ c v. knot_tree size-Query (λ v. (out-Query v).0) ⟦<QueryContent<Query> as HoldsKnot<Query>>⟧.tied v };

    ghost IsValue = { IsKnot size-Query (λ v. (out-Query v).0) ⟦<QueryContent<Query> as HoldsKnot<Query>>⟧.tied };

    ghost is_tree = { λ c k v i. (knot_typed size-Query (λ v. (out-Query v).0) ⟦<QueryContent<Query> as HoldsKnot<Query>>⟧.tied ⟦<QueryContent<Query> as HoldsKnot<Query>>⟧.weight (record { ties = ⟦<QueryContent<Query> as HoldsKnot<Query>>⟧.ties; smaller = query_smaller })).is v i };

    ghost alike = { λ c k v w i j. (knot_typed size-Query (λ v. (out-Query v).0) ⟦<QueryContent<Query> as HoldsKnot<Query>>⟧.tied ⟦<QueryContent<Query> as HoldsKnot<Query>>⟧.weight (record { ties = ⟦<QueryContent<Query> as HoldsKnot<Query>>⟧.ties; smaller = query_smaller })).like v w i j };
}

impl Layered for Query {
    ghost use Rattle.rasn_oer.specs.Knots.{knot, knot_layers, layer};
    ghost use Rattle.example_recursive.specs.QueryWeights.{query_smaller};
    ghost use Rattle.example_recursive.specs.declared.types_03.Query.{out-Query, size-Query};

    ghost inner = { layer size-Query (λ v. (out-Query v).0) ⟦<QueryContent<Query> as HoldsKnot<Query>>⟧.tied (knot size-Query (λ v. (out-Query v).0) ⟦<QueryContent<Query> as HoldsKnot<Query>>⟧.tied) };

    ghost layers = { knot_layers size-Query (λ v. (out-Query v).0) ⟦<QueryContent<Query> as HoldsKnot<Query>>⟧.tied ⟦<QueryContent<Query> as HoldsKnot<Query>>⟧.weight (record { ties = ⟦<QueryContent<Query> as HoldsKnot<Query>>⟧.ties; smaller = query_smaller }) };
}

/// Writes what a `Query` holds.
#[inline(always)]
fn encode_query<K: Encode>(
    inner: &QueryContent<K>,
    encoder: &mut Encoder<'_>,
    tag: Tag,
) -> Result<(), EncodeError>
    ensures done { OnOk result (Encodes (⟦<QueryContent<K> as Spelled>⟧.tree NONE inner.now) encoder.old encoder.new) }
    ensures value { OnOk result (⟦<QueryContent<K> as Spelled>⟧.IsValue inner.now) }
    ensures refused { IfErr result (λ x. Refused (⟦<QueryContent<K> as Spelled>⟧.tree NONE inner.now) x encoder.old encoder.new) }
{
    inner.encode_with_tag(encoder, tag)
}

impl Encode for Query {
    #[inline(always)]
    fn encode_with_tag_and_constraints(
        &self,
        encoder: &mut Encoder<'_>,
        tag: Tag,
        _constraints: Constraints,
    ) -> Result<(), EncodeError> {
        layer_of::<Query>(self);
        encode_query::<Query>(&self.0, encoder, tag)
    }
}

impl Knot<QueryContent<Query>> for Query {
    ghost use Rattle.rasn_oer.specs.Knots.{knot_layered};
    ghost use Rattle.example_recursive.specs.QueryWeights.{query_smaller};
    ghost use Rattle.example_recursive.specs.declared.types_03.Query.{out-Query, size-Query};

    ghost content = { λ v. (out-Query v).0 };

    fn from_content(inner: QueryContent<Query>) -> Query {
        Query(inner)
    }

    ghost layered = { knot_layered size-Query (λ v. (out-Query v).0) ⟦<QueryContent<Query> as HoldsKnot<Query>>⟧.tied ⟦<QueryContent<Query> as HoldsKnot<Query>>⟧.weight (record { ties = ⟦<QueryContent<Query> as HoldsKnot<Query>>⟧.ties; smaller = query_smaller }) };
}

impl Decode for Query {
    ghost use Rattle.rasn_oer.specs.Answering.{KnotAnswers};

    ghost Answered = { λ c s r t. KnotAnswers ⟦<Query as Knot<QueryContent<Query>>>⟧.content ⟦<QueryContent<Query> as DecodeKnot<Query>>⟧.answering s r t };

    fn decode_with_tag_and_constraints(
        alloc: Global,
        decoder: &mut Decoder<'_>,
        tag: Tag,
        _constraints: Constraints,
    ) -> Result<Query, DecodeError> {
        decode_knotted::<QueryContent<Self>, Self>(alloc, decoder, tag)
    }
}

/// `State ::= ENUMERATED { sent, read, ..., lost }`
pub type State = KeptEnumeration<StateValues>;

/// The values of `State`.
#[derive(Debug, Clone, Copy, PartialEq, Eq)]
pub enum StateValues {
    Sent = 0,
    Read = 1,
    Lost = 2,
}

impl Numbered for StateValues {
    ghost use Rattle.std.specs.Prelude.{pos, negsuc, [], ◌∷◌, refl};
    ghost use Rattle.example_recursive.specs.declared.types_03.StateValues.TheVariants.{Sent, Read, Lost};

    ghost number = { elim [ Sent ↦ (pos 0) | Read ↦ (pos 1) | Lost ↦ (pos 2) ] };

    ghost values = { Sent ∷ Read ∷ Lost ∷ [] };

    ghost listed = { elim [ Sent ↦ (refl, refl) | Read ↦ (refl, refl) | Lost ↦ (refl, refl) ] };

    fn number(self) -> isize {
        self as isize
    }

    fn values() -> &'static [StateValues] {
        &[StateValues::Sent, StateValues::Read, StateValues::Lost]
    }
}

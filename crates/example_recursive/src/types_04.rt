//! Types of ASN.1 modules, as oergen printed them.

use crate::{Body, Envelope, State, StateValues};
use oer_kept::{KeptChoice, KeptEnumeration};
use rasn_oer::prelude::*;
use std::alloc::{AllocError, Global};

/// `Way ::= CHOICE { road NULL, air INTEGER (0..255), ..., sea State }`
pub type Way = KeptChoice<WayAlternatives>;

/// The alternatives of `Way`.
#[derive(Clone, Debug, PartialEq, Eq, Drop)]
pub enum WayAlternatives {
    Road(()),
    Air(u8),
    Sea(State),
}

type WayRow = Alternative<Context<0>, (), Alternative<Context<1>, u8, Extensible<WayAdditions>>>;

type WayAdditions = Alternative<Context<2>, State, End>;

const WAY_ROOTS: &'static [Tag] = tags![Context 0, Context 1];

const WAY_ADDITIONS: &'static [Tag] = tags![Context 2];

impl Alternating for WayAlternatives {
    ghost use Rattle.std.specs.Prelude.{refl};
    ghost use Rattle.rasn_oer.specs.Alternative.{First, Rest};
    ghost use Rattle.example_recursive.specs.declared.types_04.WayAlternatives.TheVariants.{Road, Air, Sea};

    type Values = <WayRow as Alternatives>::Values;

    ghost row_choices = { ⟦<WayRow as Alternatives>⟧.choices };

    ghost row_are_choices = { ⟦<WayRow as Alternatives>⟧.are_choices };

    ghost alternative = { elim [ Road held ↦ First held | Air held ↦ Rest (First held) | Sea held ↦ Rest (Rest (First held)) ] };

    const VARIANTS: &'static [Tag] = WAY_ROOTS;

    const EXTENDED_VARIANTS: Option<&'static [Tag]> = Some(WAY_ADDITIONS);

    fn root_tags() -> &'static [Tag] {
        Self::VARIANTS
    }

    fn addition_tags() -> Option<&'static [Tag]> {
        Self::EXTENDED_VARIANTS
    }

    fn from_alternative(value: Self::Values) -> Self {
        from_row!(value => WayAlternatives: Road, Air, Sea)
    }

    #[inline(always)]
    fn put<E: Choice>(&self, encoder: &mut Encoder<'_>) -> Result<(), EncodeError> {
        match self {
            Self::Road(held) => put_alternative::<E, _>(encoder, Context::<0>::tag(), held),
            Self::Air(held) => put_alternative::<E, _>(encoder, Context::<1>::tag(), held),
            Self::Sea(held) => put_alternative::<E, _>(encoder, Context::<2>::tag(), held),
        }
    }

    ghost apart = { refl };
}

impl TakesAlternative for WayAlternatives {
    ghost Refuses = { ⟦<WayRow as ReadsAlternatives>⟧.Refuses };

    fn take<D: Choice>(
        alloc: Global,
        decoder: &mut Decoder<'_>,
        tag: Tag,
    ) -> Result<Self, DecodeError> {
        read_alternative::<Self, WayRow, D>(alloc, decoder, tag)
    }
}

/// The default sent of `PostState`.
pub struct PostStateDefault;

impl DefaultValue<State> for PostStateDefault {
    ghost use Rattle.example_recursive.specs.declared.types_03.StateValues.TheVariants.{Sent};
    ghost use Rattle.std.specs.Prelude.{refl};
    ghost use Rattle.oer_kept.specs.KeptNumbers.{kept_same};
    ghost use Rattle.oer_kept.specs.declared.enumerations.KeptEnumeration.TheVariants.{Known};

    ghost value = { Known Sent };

    fn value(_alloc: Global) -> Result<State, AllocError> {
        Ok(KeptEnumeration::Known(StateValues::Sent))
    }

    fn is_value(other: &State) -> bool {
        *other == KeptEnumeration::Known(StateValues::Sent)
    }

    ghost admitted = { (refl, refl) };

    ghost decides = { λ c k v i. kept_same ⟦<StateValues as Numbered>⟧.number ⟦<StateValues as Numbered>⟧.values v (Known Sent) i (refl, refl) };
}

/// Beside a cycle. Newer versions may have other states and ways.
///
/// `Post ::= SEQUENCE { letter Envelope, answer Body OPTIONAL, state State DEFAULT sent, way Way OPTIONAL
/// }`
pub type Post = Sequence<PostComponents, 4, 0>;

pub use post_components::Post as PostComponents;

mod post_components {
    use super::*;

    /// The components of `Post`.
    #[derive(Clone, Debug, PartialEq, Eq, Drop)]
    pub struct Post {
        pub letter: Envelope,
        pub answer: Option<Body>,
        pub state: State,
        pub way: Option<Way>,
    }
}

type PostRow = Required<
    Context<0>,
    Envelope,
    Optional<
        Context<1>,
        Body,
        Defaulted<Context<2>, State, PostStateDefault, Optional<Context<3>, Way, End>>,
    >,
>;

impl Rowed for PostComponents {
    ghost use Rattle.rasn_oer.specs.Values.{both};

    type Values = <PostRow as Components>::Values;

    ghost EXTENSIBLE = { ⟦<PostRow as Components>⟧.EXTENSIBLE };

    const EXTENSIBLE: bool = false;

    ghost row_schema = { ⟦<PostRow as Components>⟧.schema };

    ghost row_is_schema = { ⟦<PostRow as Components>⟧.is_schema };

    ghost components = { λ v. both v.letter (both v.answer (both v.state (both v.way tt))) };

    fn from_row(row: Self::Values) -> Self {
        built![PostComponents from row:
            letter,
            answer,
            state,
            way
        ]
    }
}

impl Takes for PostComponents {
    ghost Refuses = { ⟦<PostRow as Reads>⟧.Refuses };

    #[inline(always)]
    fn take(alloc: Global, decoder: &mut Decoder<'_>) -> Result<Self, DecodeError> {
        read_row::<Self, PostRow>(alloc, decoder)
    }
}

impl Tabled<4, 0> for PostComponents {
    ghost use Rattle.std.specs.Prelude.{refl};

    const FIELDS: Fields<4> = Fields {
        fields: fields![
            0 Required Context 0 "letter",
            1 Optional Context 1 "answer",
            2 Default Context 2 "state",
            3 Optional Context 3 "way"
        ],
    };

    const EXTENDED_FIELDS: Option<Fields<0>> = None;

    fn root_fields() -> &'static [Field<'static>] {
        Self::FIELDS.fields
    }

    fn addition_fields() -> &'static [Field<'static>] {
        rows_of!(Self::EXTENDED_FIELDS)
    }

    #[inline(always)]
    fn put(&self, encoder: &mut Encoder<'_>) -> Result<(), EncodeError> {
        let view = views![self:
            letter,
            answer,
            state,
            way
        ];
        PostRow::write(&view, encoder)
    }

    ghost counts = { (refl, refl) };
}

/// `Mark ::= CHOICE { none NULL, text UTF8String, number INTEGER (0..255) }`
pub type Mark = OneOf<MarkAlternatives>;

/// The alternatives of `Mark`.
#[derive(Clone, Debug, PartialEq, Eq, Drop)]
pub enum MarkAlternatives {
    None(()),
    Text(Utf8Text),
    Number(u8),
}

type MarkRow = Alternative<
    Context<0>,
    (),
    Alternative<Context<1>, Utf8Text, Alternative<Context<2>, u8, End>>,
>;

const MARK_ROOTS: &'static [Tag] = tags![Context 0, Context 1, Context 2];

impl Alternating for MarkAlternatives {
    ghost use Rattle.std.specs.Prelude.{refl};
    ghost use Rattle.rasn_oer.specs.Alternative.{First, Rest};
    ghost use Rattle.example_recursive.specs.declared.types_04.MarkAlternatives.TheVariants.{None, Text, Number};

    type Values = <MarkRow as Alternatives>::Values;

    ghost row_choices = { ⟦<MarkRow as Alternatives>⟧.choices };

    ghost row_are_choices = { ⟦<MarkRow as Alternatives>⟧.are_choices };

    ghost alternative = { elim [ None held ↦ First held | Text held ↦ Rest (First held) | Number held ↦ Rest (Rest (First held)) ] };

    const VARIANTS: &'static [Tag] = MARK_ROOTS;

    const EXTENDED_VARIANTS: Option<&'static [Tag]> = None;

    fn root_tags() -> &'static [Tag] {
        Self::VARIANTS
    }

    fn addition_tags() -> Option<&'static [Tag]> {
        Self::EXTENDED_VARIANTS
    }

    fn from_alternative(value: Self::Values) -> Self {
        from_row!(value => MarkAlternatives: None, Text, Number)
    }

    #[inline(always)]
    fn put<E: Choice>(&self, encoder: &mut Encoder<'_>) -> Result<(), EncodeError> {
        match self {
            Self::None(held) => put_alternative::<E, _>(encoder, Context::<0>::tag(), held),
            Self::Text(held) => put_alternative::<E, _>(encoder, Context::<1>::tag(), held),
            Self::Number(held) => put_alternative::<E, _>(encoder, Context::<2>::tag(), held),
        }
    }

    ghost apart = { refl };
}

impl TakesAlternative for MarkAlternatives {
    ghost Refuses = { ⟦<MarkRow as ReadsAlternatives>⟧.Refuses };

    fn take<D: Choice>(
        alloc: Global,
        decoder: &mut Decoder<'_>,
        tag: Tag,
    ) -> Result<Self, DecodeError> {
        read_alternative::<Self, MarkRow, D>(alloc, decoder, tag)
    }
}

/// The default none : NULL of `RangeKind`.
pub struct RangeKindDefault<const ALTERNATIVE: usize>;

impl DefaultValue<Mark> for RangeKindDefault<0> {
    ghost use Rattle.std.specs.Prelude.{◌∷◌, [], None, Some, false, true, refl};
    ghost use Rattle.rasn_oer.specs.Chosen.{alternative_same, chosen_same, other_alternative};
    ghost use Rattle.rasn_oer.specs.Compared.{absent_same, also_same, default_by, given_same, no_rows_by, nothing_same, omitted_same, optional_by, parts_same, present_same, required_by, struct_by};
    ghost use Rattle.rasn_oer.specs.EmptyLists.{empty_listed};
    ghost use Rattle.rasn_oer.specs.Literals.{spelled, written};
    ghost use Rattle.rasn_oer.specs.Numbered.{numbers_same};
    ghost use Rattle.rasn_oer.specs.Spelled.{beside_nothing, bit_strings_same, booleans_same, integers_same, named_bit_strings_same, naturals_same, nulls_same, texts_same};
    ghost use Rattle.rasn_oer.specs.Texts as texts;
    ghost use Rattle.example_recursive.specs.declared.types_04.MarkAlternatives.TheVariants as MarkAlternatives;

    ghost value = { record { 0 = MarkAlternatives.None (tt) } };

    fn value(alloc: Global) -> Result<Mark, AllocError> {
        alternative_value![OneOf MarkAlternatives::None in alloc: IsNull as ()]
    }

    fn is_value(other: &Mark) -> bool {
        is_alternative![other: MarkAlternatives::None IsNull as ()]
    }

    ghost admitted = { (refl, tt) };

    ghost decides = { λ c k. chosen_same (⟦<Mark as Spelled>⟧.tree c) ⟦<Mark as Spelled>⟧.IsValue ⟦<Mark as PartialEq>⟧.eq (record { 0 = MarkAlternatives.None (tt) }) (elim [ MarkAlternatives.None held ↦ λ (e, i). alternative_same _ _ _ _ _ _ (given_same (⟦<() as Spelled>⟧.tree ⟦<() as AsnType>⟧.CONSTRAINTS) ⟦<() as Spelled>⟧.IsValue ⟦<() as PartialEq>⟧.eq (tt) (λ v i. (λ e. nulls_same v tt, λ s. refl)) held i) | MarkAlternatives.Text held ↦ λ i. other_alternative _ _ _ _ _ _ refl | MarkAlternatives.Number held ↦ λ i. other_alternative _ _ _ _ _ _ refl ]) };
}

/// `Range ::= SET { high [1] INTEGER (0..255) OPTIONAL, low [0] INTEGER (-8..7), state [2]
/// State, kind [3] Mark DEFAULT none : NULL }`
pub type Range = Set<RangeComponents, 4, 0>;

pub use range_components::Range as RangeComponents;

mod range_components {
    use super::*;

    /// The components of `Range`.
    #[derive(Clone, Debug, PartialEq, Eq, Drop)]
    pub struct Range {
        pub high: Option<u8>,
        pub low: Limited<i8, Between<-8, 7>>,
        pub state: State,
        pub kind: Mark,
    }
}

type RangeRow = Required<
    Context<0>,
    Limited<i8, Between<-8, 7>>,
    Optional<
        Context<1>,
        u8,
        Required<Context<2>, State, Defaulted<Context<3>, Mark, RangeKindDefault<0>, End>>,
    >,
>;

impl Rowed for RangeComponents {
    ghost use Rattle.rasn_oer.specs.Values.{both};

    type Values = <RangeRow as Components>::Values;

    ghost EXTENSIBLE = { ⟦<RangeRow as Components>⟧.EXTENSIBLE };

    const EXTENSIBLE: bool = false;

    ghost row_schema = { ⟦<RangeRow as Components>⟧.schema };

    ghost row_is_schema = { ⟦<RangeRow as Components>⟧.is_schema };

    ghost components = { λ v. both v.low (both v.high (both v.state (both v.kind tt))) };

    fn from_row(row: Self::Values) -> Self {
        built![RangeComponents from row:
            low,
            high,
            state,
            kind
        ]
    }
}

impl Takes for RangeComponents {
    ghost Refuses = { ⟦<RangeRow as Reads>⟧.Refuses };

    #[inline(always)]
    fn take(alloc: Global, decoder: &mut Decoder<'_>) -> Result<Self, DecodeError> {
        read_row::<Self, RangeRow>(alloc, decoder)
    }
}

impl Tabled<4, 0> for RangeComponents {
    ghost use Rattle.std.specs.Prelude.{refl};

    const FIELDS: Fields<4> = Fields {
        fields: fields![
            0 Required Context 0 "low",
            1 Optional Context 1 "high",
            2 Required Context 2 "state",
            3 Default Context 3 "kind"
        ],
    };

    const EXTENDED_FIELDS: Option<Fields<0>> = None;

    fn root_fields() -> &'static [Field<'static>] {
        Self::FIELDS.fields
    }

    fn addition_fields() -> &'static [Field<'static>] {
        rows_of!(Self::EXTENDED_FIELDS)
    }

    #[inline(always)]
    fn put(&self, encoder: &mut Encoder<'_>) -> Result<(), EncodeError> {
        let view = views![self:
            low,
            high,
            state,
            kind
        ];
        RangeRow::write(&view, encoder)
    }

    ghost counts = { (refl, refl) };
}

const RANGE_IN_TEXT_ORDER: &'static [Field<'static>] = fields![
    0 Optional Context 1 "high",
    1 Required Context 0 "low",
    2 Required Context 2 "state",
    3 Default Context 3 "kind"
];

impl TextOrder for RangeComponents {
    ghost use Rattle.std.specs.Prelude.{[], ◌∷◌};

    ghost places = { 1 ∷ 0 ∷ 2 ∷ 3 ∷ [] };
}

impl InTagOrder<4, 0> for RangeComponents {
    ghost use Rattle.std.specs.Prelude.{refl};

    ghost in_order = { refl };

    const SET_FIELDS: Fields<4> = Fields {
        fields: RANGE_IN_TEXT_ORDER,
    };

    fn text_fields() -> &'static [Field<'static>] {
        Self::SET_FIELDS.fields
    }
}

//! Types of ASN.1 modules, as oergen printed them.

use rasn_oer::prelude::*;
use std::alloc::{AllocError, Global};

/// The default 0 of `MixedSet2Z`.
pub struct MixedSet2ZDefault;

impl DefaultValue<Integer> for MixedSet2ZDefault {
    ghost use Rattle.std.specs.Prelude.{negsuc, pos, refl};
    ghost use Rattle.rasn_oer.specs.Spelled.{integers_same};

    ghost value = { (pos 0) };

    fn value(_alloc: Global) -> Result<Integer, AllocError> {
        Ok(Integer::from_i128(0))
    }

    fn is_value(other: &Integer) -> bool {
        *other == Integer::from_i128(0)
    }

    ghost admitted = { refl };

    ghost decides = { λ c k v i. integers_same c v _ };
}

/// `MixedSet2 ::= SET { x [2] BOOLEAN, y [1] INTEGER OPTIONAL, z [APPLICATION 1] INTEGER DEFAULT 0,
/// ..., n [0] BOOLEAN OPTIONAL, m [3] OCTET STRING OPTIONAL }`
pub type MixedSet2 = Set<MixedSet2Components, 3, 2>;

pub use mixed_set2_components::MixedSet2 as MixedSet2Components;

mod mixed_set2_components {
    use super::*;

    /// The components of `MixedSet2`.
    #[derive(Debug, PartialEq, Eq, Drop)]
    pub struct MixedSet2 {
        pub x: bool,
        pub y: Option<Integer>,
        pub z: Integer,
        pub n: Option<bool>,
        pub m: Option<Octets>,
    }
}

type MixedSet2Row = Defaulted<
    Application<1>,
    Integer,
    MixedSet2ZDefault,
    Optional<Context<1>, Integer, Required<Context<2>, bool, Extensible<MixedSet2Additions>>>,
>;

type MixedSet2Additions = OptionalAddition<
    Context<0>,
    bool,
    OptionalAddition<Context<3>, Octets, End>,
>;

impl Rowed for MixedSet2Components {
    ghost use Rattle.rasn_oer.specs.Values.{both};

    type Values = <MixedSet2Row as Components>::Values;

    ghost EXTENSIBLE = { ⟦<MixedSet2Row as Components>⟧.EXTENSIBLE };

    const EXTENSIBLE: bool = true;

    ghost row_schema = { ⟦<MixedSet2Row as Components>⟧.schema };

    ghost row_is_schema = { ⟦<MixedSet2Row as Components>⟧.is_schema };

    ghost components = { λ v. both v.z (both v.y (both v.x (both v.n (both v.m tt)))) };

    fn from_row(row: Self::Values) -> Self {
        built![MixedSet2Components from row:
            z,
            y,
            x,
            n,
            m
        ]
    }
}

impl Takes for MixedSet2Components {
    ghost Refuses = { ⟦<MixedSet2Row as Reads>⟧.Refuses };

    #[inline(always)]
    fn take(alloc: Global, decoder: &mut Decoder<'_>) -> Result<Self, DecodeError> {
        read_row::<Self, MixedSet2Row>(alloc, decoder)
    }
}

impl Tabled<3, 2> for MixedSet2Components {
    ghost use Rattle.std.specs.Prelude.{refl};

    const FIELDS: Fields<3> = Fields {
        fields: fields![
            0 Default Application 1 "z",
            1 Optional Context 1 "y",
            2 Required Context 2 "x"
        ],
    };

    const EXTENDED_FIELDS: Option<Fields<2>> = Some(Fields {
        fields: fields![
            0 Optional Context 0 "n",
            1 Optional Context 3 "m"
        ],
    });

    fn root_fields() -> &'static [Field<'static>] {
        Self::FIELDS.fields
    }

    fn addition_fields() -> &'static [Field<'static>] {
        rows_of!(Self::EXTENDED_FIELDS)
    }

    #[inline(always)]
    fn put(&self, encoder: &mut Encoder<'_>) -> Result<(), EncodeError> {
        let view = views![self:
            z,
            y,
            x,
            n,
            m
        ];
        MixedSet2Row::write(&view, encoder)
    }

    ghost counts = { (refl, refl) };
}

const MIXEDSET2_IN_TEXT_ORDER: &'static [Field<'static>] = fields![
    0 Required Context 2 "x",
    1 Optional Context 1 "y",
    2 Default Application 1 "z"
];

impl TextOrder for MixedSet2Components {
    ghost use Rattle.std.specs.Prelude.{[], ◌∷◌};

    ghost places = { 2 ∷ 1 ∷ 0 ∷ [] };
}

impl InTagOrder<3, 2> for MixedSet2Components {
    ghost use Rattle.std.specs.Prelude.{refl};

    ghost in_order = { refl };

    const SET_FIELDS: Fields<3> = Fields {
        fields: MIXEDSET2_IN_TEXT_ORDER,
    };

    fn text_fields() -> &'static [Field<'static>] {
        Self::SET_FIELDS.fields
    }
}

/// `PriorityChoice ::= CHOICE { normal INTEGER, high INTEGER, ..., medium INTEGER }`
pub type PriorityChoice = OneOf<PriorityChoiceAlternatives>;

/// The alternatives of `PriorityChoice`.
#[derive(Debug, PartialEq, Eq, Drop)]
pub enum PriorityChoiceAlternatives {
    Normal(Integer),
    High(Integer),
    Medium(Integer),
}

type PriorityChoiceRow = Alternative<
    Context<0>,
    Integer,
    Alternative<Context<1>, Integer, Extensible<PriorityChoiceAdditions>>,
>;

type PriorityChoiceAdditions = Alternative<Context<2>, Integer, End>;

const PRIORITYCHOICE_ROOTS: &'static [Tag] = tags![Context 0, Context 1];

const PRIORITYCHOICE_ADDITIONS: &'static [Tag] = tags![Context 2];

impl Alternating for PriorityChoiceAlternatives {
    ghost use Rattle.std.specs.Prelude.{refl};
    ghost use Rattle.rasn_oer.specs.Alternative.{First, Rest};
    ghost use Rattle.example_words.specs.declared.types_07.PriorityChoiceAlternatives.TheVariants.{Normal, High, Medium};

    type Values = <PriorityChoiceRow as Alternatives>::Values;

    ghost row_choices = { ⟦<PriorityChoiceRow as Alternatives>⟧.choices };

    ghost row_are_choices = { ⟦<PriorityChoiceRow as Alternatives>⟧.are_choices };

    ghost alternative = { elim [ Normal held ↦ First held | High held ↦ Rest (First held) | Medium held ↦ Rest (Rest (First held)) ] };

    const VARIANTS: &'static [Tag] = PRIORITYCHOICE_ROOTS;

    const EXTENDED_VARIANTS: Option<&'static [Tag]> = Some(PRIORITYCHOICE_ADDITIONS);

    fn root_tags() -> &'static [Tag] {
        Self::VARIANTS
    }

    fn addition_tags() -> Option<&'static [Tag]> {
        Self::EXTENDED_VARIANTS
    }

    fn from_alternative(value: Self::Values) -> Self {
        from_row!(value => PriorityChoiceAlternatives: Normal, High, Medium)
    }

    #[inline(always)]
    fn put<E: Choice>(&self, encoder: &mut Encoder<'_>) -> Result<(), EncodeError> {
        match self {
            Self::Normal(held) => put_alternative::<E, _>(encoder, Context::<0>::tag(), held),
            Self::High(held) => put_alternative::<E, _>(encoder, Context::<1>::tag(), held),
            Self::Medium(held) => put_alternative::<E, _>(encoder, Context::<2>::tag(), held),
        }
    }

    ghost apart = { refl };
}

impl TakesAlternative for PriorityChoiceAlternatives {
    ghost Refuses = { ⟦<PriorityChoiceRow as ReadsAlternatives>⟧.Refuses };

    fn take<D: Choice>(
        alloc: Global,
        decoder: &mut Decoder<'_>,
        tag: Tag,
    ) -> Result<Self, DecodeError> {
        read_alternative::<Self, PriorityChoiceRow, D>(alloc, decoder, tag)
    }
}

/// `WideChoice ::= CHOICE { normal [0] INTEGER, high [1] INTEGER, medium [4294967295] INTEGER }`
pub type WideChoice = OneOf<WideChoiceAlternatives>;

/// The alternatives of `WideChoice`.
#[derive(Debug, PartialEq, Eq, Drop)]
pub enum WideChoiceAlternatives {
    Normal(Integer),
    High(Integer),
    Medium(Integer),
}

type WideChoiceRow = Alternative<
    Context<0>,
    Integer,
    Alternative<Context<1>, Integer, Alternative<Context<4294967295>, Integer, End>>,
>;

const WIDECHOICE_ROOTS: &'static [Tag] = tags![Context 0, Context 1, Context 4294967295];

impl Alternating for WideChoiceAlternatives {
    ghost use Rattle.std.specs.Prelude.{refl};
    ghost use Rattle.rasn_oer.specs.Alternative.{First, Rest};
    ghost use Rattle.example_words.specs.declared.types_07.WideChoiceAlternatives.TheVariants.{Normal, High, Medium};

    type Values = <WideChoiceRow as Alternatives>::Values;

    ghost row_choices = { ⟦<WideChoiceRow as Alternatives>⟧.choices };

    ghost row_are_choices = { ⟦<WideChoiceRow as Alternatives>⟧.are_choices };

    ghost alternative = { elim [ Normal held ↦ First held | High held ↦ Rest (First held) | Medium held ↦ Rest (Rest (First held)) ] };

    const VARIANTS: &'static [Tag] = WIDECHOICE_ROOTS;

    const EXTENDED_VARIANTS: Option<&'static [Tag]> = None;

    fn root_tags() -> &'static [Tag] {
        Self::VARIANTS
    }

    fn addition_tags() -> Option<&'static [Tag]> {
        Self::EXTENDED_VARIANTS
    }

    fn from_alternative(value: Self::Values) -> Self {
        from_row!(value => WideChoiceAlternatives: Normal, High, Medium)
    }

    #[inline(always)]
    fn put<E: Choice>(&self, encoder: &mut Encoder<'_>) -> Result<(), EncodeError> {
        match self {
            Self::Normal(held) => put_alternative::<E, _>(encoder, Context::<0>::tag(), held),
            Self::High(held) => put_alternative::<E, _>(encoder, Context::<1>::tag(), held),
            Self::Medium(held) => put_alternative::<E, _>(
                encoder,
                Context::<4294967295>::tag(),
                held,
            ),
        }
    }

    ghost apart = { refl };
}

impl TakesAlternative for WideChoiceAlternatives {
    ghost Refuses = { ⟦<WideChoiceRow as ReadsAlternatives>⟧.Refuses };

    fn take<D: Choice>(
        alloc: Global,
        decoder: &mut Decoder<'_>,
        tag: Tag,
    ) -> Result<Self, DecodeError> {
        read_alternative::<Self, WideChoiceRow, D>(alloc, decoder, tag)
    }
}

/// `OnlyChoice ::= CHOICE { only [130] BOOLEAN }`
pub type OnlyChoice = OneOf<OnlyChoiceAlternatives>;

/// The alternatives of `OnlyChoice`.
#[derive(Debug, PartialEq, Eq, Drop)]
pub enum OnlyChoiceAlternatives {
    Only(bool),
}

type OnlyChoiceRow = Alternative<Context<130>, bool, End>;

const ONLYCHOICE_ROOTS: &'static [Tag] = tags![Context 130];

impl Alternating for OnlyChoiceAlternatives {
    ghost use Rattle.std.specs.Prelude.{refl};
    ghost use Rattle.rasn_oer.specs.Alternative.{First, Rest};
    ghost use Rattle.example_words.specs.declared.types_07.OnlyChoiceAlternatives.TheVariants.{Only};

    type Values = <OnlyChoiceRow as Alternatives>::Values;

    ghost row_choices = { ⟦<OnlyChoiceRow as Alternatives>⟧.choices };

    ghost row_are_choices = { ⟦<OnlyChoiceRow as Alternatives>⟧.are_choices };

    ghost alternative = { elim [ Only held ↦ First held ] };

    const VARIANTS: &'static [Tag] = ONLYCHOICE_ROOTS;

    const EXTENDED_VARIANTS: Option<&'static [Tag]> = None;

    fn root_tags() -> &'static [Tag] {
        Self::VARIANTS
    }

    fn addition_tags() -> Option<&'static [Tag]> {
        Self::EXTENDED_VARIANTS
    }

    fn from_alternative(value: Self::Values) -> Self {
        from_row!(value => OnlyChoiceAlternatives: Only)
    }

    #[inline(always)]
    fn put<E: Choice>(&self, encoder: &mut Encoder<'_>) -> Result<(), EncodeError> {
        match self {
            Self::Only(held) => put_alternative::<E, _>(encoder, Context::<130>::tag(), held),
        }
    }

    ghost apart = { refl };
}

impl TakesAlternative for OnlyChoiceAlternatives {
    ghost Refuses = { ⟦<OnlyChoiceRow as ReadsAlternatives>⟧.Refuses };

    fn take<D: Choice>(
        alloc: Global,
        decoder: &mut Decoder<'_>,
        tag: Tag,
    ) -> Result<Self, DecodeError> {
        read_alternative::<Self, OnlyChoiceRow, D>(alloc, decoder, tag)
    }
}

/// `BoolChoice ::= CHOICE { a [0] BOOLEAN, c [2] PriorityChoice, ..., b [1] BOOLEAN }`
pub type BoolChoice = OneOf<BoolChoiceAlternatives>;

/// The alternatives of `BoolChoice`.
#[derive(Debug, PartialEq, Eq, Drop)]
pub enum BoolChoiceAlternatives {
    A(bool),
    C(PriorityChoice),
    B(bool),
}

type BoolChoiceRow = Alternative<
    Context<0>,
    bool,
    Alternative<Context<2>, PriorityChoice, Extensible<BoolChoiceAdditions>>,
>;

type BoolChoiceAdditions = Alternative<Context<1>, bool, End>;

const BOOLCHOICE_ROOTS: &'static [Tag] = tags![Context 0, Context 2];

const BOOLCHOICE_ADDITIONS: &'static [Tag] = tags![Context 1];

impl Alternating for BoolChoiceAlternatives {
    ghost use Rattle.std.specs.Prelude.{refl};
    ghost use Rattle.rasn_oer.specs.Alternative.{First, Rest};
    ghost use Rattle.example_words.specs.declared.types_07.BoolChoiceAlternatives.TheVariants.{A, C, B};

    type Values = <BoolChoiceRow as Alternatives>::Values;

    ghost row_choices = { ⟦<BoolChoiceRow as Alternatives>⟧.choices };

    ghost row_are_choices = { ⟦<BoolChoiceRow as Alternatives>⟧.are_choices };

    ghost alternative = { elim [ A held ↦ First held | C held ↦ Rest (First held) | B held ↦ Rest (Rest (First held)) ] };

    const VARIANTS: &'static [Tag] = BOOLCHOICE_ROOTS;

    const EXTENDED_VARIANTS: Option<&'static [Tag]> = Some(BOOLCHOICE_ADDITIONS);

    fn root_tags() -> &'static [Tag] {
        Self::VARIANTS
    }

    fn addition_tags() -> Option<&'static [Tag]> {
        Self::EXTENDED_VARIANTS
    }

    fn from_alternative(value: Self::Values) -> Self {
        from_row!(value => BoolChoiceAlternatives: A, C, B)
    }

    #[inline(always)]
    fn put<E: Choice>(&self, encoder: &mut Encoder<'_>) -> Result<(), EncodeError> {
        match self {
            Self::A(held) => put_alternative::<E, _>(encoder, Context::<0>::tag(), held),
            Self::C(held) => put_alternative::<E, _>(encoder, Context::<2>::tag(), held),
            Self::B(held) => put_alternative::<E, _>(encoder, Context::<1>::tag(), held),
        }
    }

    ghost apart = { refl };
}

impl TakesAlternative for BoolChoiceAlternatives {
    ghost Refuses = { ⟦<BoolChoiceRow as ReadsAlternatives>⟧.Refuses };

    fn take<D: Choice>(
        alloc: Global,
        decoder: &mut Decoder<'_>,
        tag: Tag,
    ) -> Result<Self, DecodeError> {
        read_alternative::<Self, BoolChoiceRow, D>(alloc, decoder, tag)
    }
}

/// `Mixed ::= SEQUENCE { priority PriorityChoice, names SEQUENCE OF OCTET STRING }`
pub type Mixed = Sequence<MixedComponents, 2, 0>;

pub use mixed_components::Mixed as MixedComponents;

mod mixed_components {
    use super::*;

    /// The components of `Mixed`.
    #[derive(Debug, PartialEq, Eq, Drop)]
    pub struct Mixed {
        pub priority: PriorityChoice,
        pub names: ListOf<Octets>,
    }
}

type MixedRow = Required<Context<0>, PriorityChoice, Required<Context<1>, ListOf<Octets>, End>>;

impl Rowed for MixedComponents {
    ghost use Rattle.rasn_oer.specs.Values.{both};

    type Values = <MixedRow as Components>::Values;

    ghost EXTENSIBLE = { ⟦<MixedRow as Components>⟧.EXTENSIBLE };

    const EXTENSIBLE: bool = false;

    ghost row_schema = { ⟦<MixedRow as Components>⟧.schema };

    ghost row_is_schema = { ⟦<MixedRow as Components>⟧.is_schema };

    ghost components = { λ v. both v.priority (both v.names tt) };

    fn from_row(row: Self::Values) -> Self {
        built![MixedComponents from row:
            priority,
            names
        ]
    }
}

impl Takes for MixedComponents {
    ghost Refuses = { ⟦<MixedRow as Reads>⟧.Refuses };

    #[inline(always)]
    fn take(alloc: Global, decoder: &mut Decoder<'_>) -> Result<Self, DecodeError> {
        read_row::<Self, MixedRow>(alloc, decoder)
    }
}

impl Tabled<2, 0> for MixedComponents {
    ghost use Rattle.std.specs.Prelude.{refl};

    const FIELDS: Fields<2> = Fields {
        fields: fields![
            0 Required Context 0 "priority",
            1 Required Context 1 "names"
        ],
    };

    const EXTENDED_FIELDS: Option<Fields<0>> = None;

    fn root_fields() -> &'static [Field<'static>] {
        Self::FIELDS.fields
    }

    fn addition_fields() -> &'static [Field<'static>] {
        rows_of!(Self::EXTENDED_FIELDS)
    }

    #[inline(always)]
    fn put(&self, encoder: &mut Encoder<'_>) -> Result<(), EncodeError> {
        let view = views![self:
            priority,
            names
        ];
        MixedRow::write(&view, encoder)
    }

    ghost counts = { (refl, refl) };
}

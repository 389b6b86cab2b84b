//! Types of ASN.1 modules, as oergen printed them.
ghost use Rattle.std.specs.Prelude.{OnOk, IfErr};
ghost use Rattle.oer_write.specs.Written.{Encodes, Refused};
ghost use Rattle.asn1_core.specs.declared.constraints.TheConstants.Constraints.{NONE};

use rasn_oer::prelude::*;
use std::alloc::{AllocError, Global};

/// `TestChoice ::= CHOICE { number1 NULL, number2 BOOLEAN, number3 TopLevel }`
pub type TestChoice = TestChoiceContent<TopLevel>;

/// A `TestChoice` with `K` in the place of `TopLevel`.
pub type TestChoiceContent<K> = OneOf<TestChoiceAlternatives<K>>;

/// The alternatives of `TestChoice`.
#[derive(Debug, PartialEq, Eq, Drop)]
pub enum TestChoiceAlternatives<K> {
    Number1(()),
    Number2(bool),
    Number3(Held<K>),
}

type TestChoiceRow<K> = Alternative<
    Context<0>,
    (),
    Alternative<Context<1>, bool, AlternativeKnot<Context<2>, Held<K>, End>>,
>;

const TESTCHOICE_ROOTS: &'static [Tag] = tags![Context 0, Context 1, Context 2];

impl<K> KnotAlternating<K> for TestChoiceAlternatives<K> {
    ghost use Rattle.std.specs.Prelude.{refl};
    ghost use Rattle.rasn_oer.specs.Alternative.{First, Rest};
    ghost use Rattle.example_words.specs.TopLevelWeights.{test_choice_weight};
    ghost use Rattle.example_words.specs.declared.types_03.TestChoiceAlternatives.TheVariants.{Number1, Number2, Number3};

    type KnotValues = <TestChoiceRow<K> as KnotAlternatives<K>>::Values;

    ghost knot_choices = { ⟦<TestChoiceRow<K> as KnotAlternatives<K>>⟧.choices };

    ghost knot_weight = { ⟦<TestChoiceRow<K> as KnotAlternatives<K>>⟧.weight };

    ghost knot_ties = { ⟦<TestChoiceRow<K> as KnotAlternatives<K>>⟧.ties };

    ghost knot_alternative = { elim [ Number1 held ↦ First held | Number2 held ↦ Rest (First held) | Number3 held ↦ Rest (Rest (First held)) ] };

    ghost variant_weight = { test_choice_weight };

    ghost weighs = { λ size. elim [ Number1 held ↦ refl | Number2 held ↦ refl | Number3 held ↦ refl ] };
}

impl<K: Encode> TakesKnotAlternative<K> for TestChoiceAlternatives<K> {
    ghost refusing = { ⟦<TestChoiceRow<K> as ReadsKnotAlternatives<K>>⟧.refusing };

    fn take_knot<D: Choice, F: Fn(&mut Decoder<'_>) -> Result<K, DecodeError>>(
        alloc: Global,
        decoder: &mut Decoder<'_>,
        tag: Tag,
        knot: &F,
    ) -> Result<Self, DecodeError> {
        read_knot_alternative::<K, Self, TestChoiceRow<K>, D, F>(alloc, decoder, tag, knot)
    }
}

impl<K: Encode> Alternating for TestChoiceAlternatives<K> {
    ghost use Rattle.std.specs.Prelude.{refl};
    ghost use Rattle.rasn_oer.specs.Alternative.{First, Rest};
    ghost use Rattle.example_words.specs.declared.types_03.TestChoiceAlternatives.TheVariants.{Number1, Number2, Number3};

    type Values = <TestChoiceRow<K> as Alternatives>::Values;

    ghost row_choices = { ⟦<TestChoiceRow<K> as Alternatives>⟧.choices };

    ghost row_are_choices = { ⟦<TestChoiceRow<K> as Alternatives>⟧.are_choices };

    ghost alternative = { elim [ Number1 held ↦ First held | Number2 held ↦ Rest (First held) | Number3 held ↦ Rest (Rest (First held)) ] };

    const VARIANTS: &'static [Tag] = TESTCHOICE_ROOTS;

    const EXTENDED_VARIANTS: Option<&'static [Tag]> = None;

    fn root_tags() -> &'static [Tag] {
        TESTCHOICE_ROOTS
    }

    fn addition_tags() -> Option<&'static [Tag]> {
        None
    }

    fn from_alternative(value: Self::Values) -> Self {
        from_row!(value => TestChoiceAlternatives: Number1, Number2, Number3)
    }

    #[inline(always)]
    fn put<E: Choice>(&self, encoder: &mut Encoder<'_>) -> Result<(), EncodeError> {
        match self {
            Self::Number1(held) => put_alternative::<E, _>(encoder, Context::<0>::tag(), held),
            Self::Number2(held) => put_alternative::<E, _>(encoder, Context::<1>::tag(), held),
            Self::Number3(held) => put_alternative::<E, _>(encoder, Context::<2>::tag(), held),
        }
    }

    ghost apart = { refl };
}

impl<K: Encode + Decode> TakesAlternative for TestChoiceAlternatives<K> {
    ghost Refuses = { ⟦<TestChoiceRow<K> as ReadsAlternatives>⟧.Refuses };

    fn take<D: Choice>(
        alloc: Global,
        decoder: &mut Decoder<'_>,
        tag: Tag,
    ) -> Result<Self, DecodeError> {
        read_alternative::<Self, TestChoiceRow<K>, D>(alloc, decoder, tag)
    }
}

/// `TopLevel ::= SEQUENCE { test INTEGER (1..8), choice TestChoice }`
#[derive(Debug, PartialEq, Eq, Drop)]
pub struct TopLevel(pub TopLevelContent<TopLevel>);

/// What a `TopLevel` holds.
pub type TopLevelContent<K> = Sequence<TopLevelComponents<K>, 2, 0>;

pub use top_level_components::TopLevel as TopLevelComponents;

mod top_level_components {
    use super::*;

    /// The components of `TopLevel`.
    #[derive(Debug, PartialEq, Eq, Drop)]
    pub struct TopLevel<K> {
        pub test: Limited<u8, Between<1, 8>>,
        pub choice: TestChoiceContent<K>,
    }
}

type TopLevelRow<K> = Required<
    Context<0>,
    Limited<u8, Between<1, 8>>,
    RequiredKnot<Context<1>, TestChoiceContent<K>, End>,
>;

impl<K> KnotRowed<K> for TopLevelComponents<K> {
    ghost use Rattle.rasn_oer.specs.Values.{both};

    type KnotValues = <TopLevelRow<K> as KnotRow<K>>::Values;

    ghost extended = { ⟦<TopLevelRow<K> as KnotRow<K>>⟧.EXTENSIBLE };

    ghost knot_schema = { ⟦<TopLevelRow<K> as KnotRow<K>>⟧.schema };

    ghost knot_weight = { ⟦<TopLevelRow<K> as KnotRow<K>>⟧.weight };

    ghost knot_ties = { ⟦<TopLevelRow<K> as KnotRow<K>>⟧.ties };

    ghost knot_components = { λ v. both v.test (both v.choice tt) };
}

impl<K: Encode> TakesKnot<K> for TopLevelComponents<K> {
    ghost refusing = { ⟦<TopLevelRow<K> as ReadsKnot<K>>⟧.refusing };

    fn take_knot<F: Fn(&mut Decoder<'_>) -> Result<K, DecodeError>>(
        alloc: Global,
        decoder: &mut Decoder<'_>,
        knot: &F,
    ) -> Result<Self, DecodeError> {
        read_knot_row::<K, Self, TopLevelRow<K>, F>(alloc, decoder, knot)
    }
}

impl<K: Encode> Rowed for TopLevelComponents<K> {
    ghost use Rattle.rasn_oer.specs.Values.{both};

    type Values = <TopLevelRow<K> as Components>::Values;

    ghost EXTENSIBLE = { ⟦<TopLevelRow<K> as Components>⟧.EXTENSIBLE };

    const EXTENSIBLE: bool = false;

    ghost row_schema = { ⟦<TopLevelRow<K> as Components>⟧.schema };

    ghost row_is_schema = { ⟦<TopLevelRow<K> as Components>⟧.is_schema };

    ghost components = { λ v. both v.test (both v.choice tt) };

    fn from_row(row: Self::Values) -> Self {
        built![TopLevelComponents from row:
            test,
            choice
        ]
    }
}

impl<K: Encode + Decode> Takes for TopLevelComponents<K> {
    ghost Refuses = { ⟦<TopLevelRow<K> as Reads>⟧.Refuses };

    #[inline(always)]
    fn take(alloc: Global, decoder: &mut Decoder<'_>) -> Result<Self, DecodeError> {
        read_row::<Self, TopLevelRow<K>>(alloc, decoder)
    }
}

const TOPLEVEL_COMPONENTS: &'static [Field<'static>] = fields![
    0 Required Context 0 "test",
    1 Required Context 1 "choice"
];

impl<K: Encode> Tabled<2, 0> for TopLevelComponents<K> {
    ghost use Rattle.std.specs.Prelude.{refl};

    const FIELDS: Fields<2> = Fields {
        fields: TOPLEVEL_COMPONENTS,
    };

    const EXTENDED_FIELDS: Option<Fields<0>> = None;

    fn root_fields() -> &'static [Field<'static>] {
        TOPLEVEL_COMPONENTS
    }

    fn addition_fields() -> &'static [Field<'static>] {
        &[]
    }

    #[inline(always)]
    fn put(&self, encoder: &mut Encoder<'_>) -> Result<(), EncodeError> {
        let view = views![self:
            test,
            choice
        ];
        TopLevelRow::<K>::write(&view, encoder)
    }

    ghost counts = { (refl, refl) };
}

impl AsnType for TopLevel {
    ghost use Rattle.std.specs.Prelude.{refl};
    ghost use Rattle.asn1_core.specs.declared.tag.TheConstants.Tag.{SEQUENCE};
    ghost use Rattle.asn1_core.specs.declared.constraints.TheConstants.Constraints.{NONE};

    ghost TAG = { SEQUENCE };

    const TAG: Tag = Tag::SEQUENCE;

    ghost CONSTRAINTS = { NONE };

    const CONSTRAINTS: Constraints = Constraints::NONE;

    ghost consistent = { refl };
}

impl Spelled for TopLevel {
    ghost use Rattle.rasn_oer.specs.Knots.{knot_tree, IsKnot, knot_typed};
    ghost use Rattle.example_words.specs.TopLevelWeights.{top_level_smaller};
    ghost use Rattle.example_words.specs.declared.types_03.TopLevel.{out-TopLevel, size-TopLevel};

    ghost tree = { λ c v. knot_tree size-TopLevel (λ v. (out-TopLevel v).0) ⟦<TopLevelContent<TopLevel> as HoldsKnot<TopLevel>>⟧.tied v };

    ghost IsValue = { IsKnot size-TopLevel (λ v. (out-TopLevel v).0) ⟦<TopLevelContent<TopLevel> as HoldsKnot<TopLevel>>⟧.tied };

    ghost is_tree = { λ c k v i. (knot_typed size-TopLevel (λ v. (out-TopLevel v).0) ⟦<TopLevelContent<TopLevel> as HoldsKnot<TopLevel>>⟧.tied ⟦<TopLevelContent<TopLevel> as HoldsKnot<TopLevel>>⟧.weight (record { ties = ⟦<TopLevelContent<TopLevel> as HoldsKnot<TopLevel>>⟧.ties; smaller = top_level_smaller })).is v i };

    ghost alike = { λ c k v w i j. (knot_typed size-TopLevel (λ v. (out-TopLevel v).0) ⟦<TopLevelContent<TopLevel> as HoldsKnot<TopLevel>>⟧.tied ⟦<TopLevelContent<TopLevel> as HoldsKnot<TopLevel>>⟧.weight (record { ties = ⟦<TopLevelContent<TopLevel> as HoldsKnot<TopLevel>>⟧.ties; smaller = top_level_smaller })).like v w i j };
}

impl Layered for TopLevel {
    ghost use Rattle.rasn_oer.specs.Knots.{knot, knot_layers, layer};
    ghost use Rattle.example_words.specs.TopLevelWeights.{top_level_smaller};
    ghost use Rattle.example_words.specs.declared.types_03.TopLevel.{out-TopLevel, size-TopLevel};

    ghost inner = { layer size-TopLevel (λ v. (out-TopLevel v).0) ⟦<TopLevelContent<TopLevel> as HoldsKnot<TopLevel>>⟧.tied (knot size-TopLevel (λ v. (out-TopLevel v).0) ⟦<TopLevelContent<TopLevel> as HoldsKnot<TopLevel>>⟧.tied) };

    ghost layers = { knot_layers size-TopLevel (λ v. (out-TopLevel v).0) ⟦<TopLevelContent<TopLevel> as HoldsKnot<TopLevel>>⟧.tied ⟦<TopLevelContent<TopLevel> as HoldsKnot<TopLevel>>⟧.weight (record { ties = ⟦<TopLevelContent<TopLevel> as HoldsKnot<TopLevel>>⟧.ties; smaller = top_level_smaller }) };
}

/// Writes what a `TopLevel` holds.
#[inline(always)]
fn encode_top_level<K: Encode>(
    inner: &TopLevelContent<K>,
    encoder: &mut Encoder<'_>,
    tag: Tag,
) -> Result<(), EncodeError>
    ensures done { OnOk result (Encodes (⟦<TopLevelContent<K> as Spelled>⟧.tree NONE inner.now) encoder.old encoder.new) }
    ensures value { OnOk result (⟦<TopLevelContent<K> as Spelled>⟧.IsValue inner.now) }
    ensures refused { IfErr result (λ x. Refused (⟦<TopLevelContent<K> as Spelled>⟧.tree NONE inner.now) x encoder.old encoder.new) }
{
    inner.encode_with_tag(encoder, tag)
}

impl Encode for TopLevel {
    #[inline(always)]
    fn encode_with_tag_and_constraints(
        &self,
        encoder: &mut Encoder<'_>,
        tag: Tag,
        _constraints: Constraints,
    ) -> Result<(), EncodeError> {
        layer_of::<TopLevel>(self);
        encode_top_level::<TopLevel>(&self.0, encoder, tag)
    }
}

impl Knot<TopLevelContent<TopLevel>> for TopLevel {
    ghost use Rattle.rasn_oer.specs.Knots.{knot_layered};
    ghost use Rattle.example_words.specs.TopLevelWeights.{top_level_smaller};
    ghost use Rattle.example_words.specs.declared.types_03.TopLevel.{out-TopLevel, size-TopLevel};

    ghost content = { λ v. (out-TopLevel v).0 };

    fn from_content(inner: TopLevelContent<TopLevel>) -> TopLevel {
        TopLevel(inner)
    }

    ghost layered = { knot_layered size-TopLevel (λ v. (out-TopLevel v).0) ⟦<TopLevelContent<TopLevel> as HoldsKnot<TopLevel>>⟧.tied ⟦<TopLevelContent<TopLevel> as HoldsKnot<TopLevel>>⟧.weight (record { ties = ⟦<TopLevelContent<TopLevel> as HoldsKnot<TopLevel>>⟧.ties; smaller = top_level_smaller }) };
}

impl Decode for TopLevel {
    ghost use Rattle.rasn_oer.specs.Answering.{KnotAnswers};

    ghost Answered = { λ c s r t. KnotAnswers ⟦<TopLevel as Knot<TopLevelContent<TopLevel>>>⟧.content ⟦<TopLevelContent<TopLevel> as DecodeKnot<TopLevel>>⟧.answering s r t };

    fn decode_with_tag_and_constraints(
        alloc: Global,
        decoder: &mut Decoder<'_>,
        tag: Tag,
        _constraints: Constraints,
    ) -> Result<TopLevel, DecodeError> {
        decode_knotted::<TopLevelContent<Self>, Self>(alloc, decoder, tag)
    }
}

/// `OneToEight ::= INTEGER (1..8)`
pub type OneToEight = Limited<u8, Between<1, 8>>;

/// `Enum3 ::= ENUMERATED { red(5), blue(6), green(7) }`
pub type Enum3 = Enumeration<Enum3Values>;

/// The values of `Enum3`.
#[derive(Debug, Clone, Copy, PartialEq, Eq)]
pub enum Enum3Values {
    Red = 5,
    Blue = 6,
    Green = 7,
}

impl Numbered for Enum3Values {
    ghost use Rattle.std.specs.Prelude.{pos, negsuc, [], ◌∷◌, refl};
    ghost use Rattle.example_words.specs.declared.types_03.Enum3Values.TheVariants.{Red, Blue, Green};

    ghost number = { elim [ Red ↦ (pos 5) | Blue ↦ (pos 6) | Green ↦ (pos 7) ] };

    ghost values = { Red ∷ Blue ∷ Green ∷ [] };

    ghost listed = { elim [ Red ↦ (refl, refl) | Blue ↦ (refl, refl) | Green ↦ (refl, refl) ] };

    fn number(self) -> isize {
        self as isize
    }

    fn values() -> &'static [Enum3Values] {
        &[Enum3Values::Red, Enum3Values::Blue, Enum3Values::Green]
    }
}

/// `Enum4 ::= ENUMERATED { yes(1000), no(-1000) }`
pub type Enum4 = Enumeration<Enum4Values>;

/// The values of `Enum4`.
#[derive(Debug, Clone, Copy, PartialEq, Eq)]
pub enum Enum4Values {
    Yes = 1000,
    No = -1000,
}

impl Numbered for Enum4Values {
    ghost use Rattle.std.specs.Prelude.{pos, negsuc, [], ◌∷◌, refl};
    ghost use Rattle.example_words.specs.declared.types_03.Enum4Values.TheVariants.{Yes, No};

    ghost number = { elim [ Yes ↦ (pos 1000) | No ↦ (negsuc 999) ] };

    ghost values = { Yes ∷ No ∷ [] };

    ghost listed = { elim [ Yes ↦ (refl, refl) | No ↦ (refl, refl) ] };

    fn number(self) -> isize {
        self as isize
    }

    fn values() -> &'static [Enum4Values] {
        &[Enum4Values::Yes, Enum4Values::No]
    }
}

/// `Empty ::= SEQUENCE { }`
pub type Empty = Sequence<EmptyComponents, 0, 0>;

pub use empty_components::Empty as EmptyComponents;

mod empty_components {
    use super::*;

    /// The components of `Empty`.
    #[derive(Debug, PartialEq, Eq, Drop)]
    pub struct Empty {}
}

type EmptyRow = End;

impl Rowed for EmptyComponents {
    type Values = <EmptyRow as Components>::Values;

    ghost EXTENSIBLE = { ⟦<EmptyRow as Components>⟧.EXTENSIBLE };

    const EXTENSIBLE: bool = false;

    ghost row_schema = { ⟦<EmptyRow as Components>⟧.schema };

    ghost row_is_schema = { ⟦<EmptyRow as Components>⟧.is_schema };

    ghost components = { λ v. tt };

    fn from_row(row: Self::Values) -> Self {
        built![EmptyComponents from row:

        ]
    }
}

impl Takes for EmptyComponents {
    ghost Refuses = { ⟦<EmptyRow as Reads>⟧.Refuses };

    #[inline(always)]
    fn take(alloc: Global, decoder: &mut Decoder<'_>) -> Result<Self, DecodeError> {
        read_row::<Self, EmptyRow>(alloc, decoder)
    }
}

impl Tabled<0, 0> for EmptyComponents {
    ghost use Rattle.std.specs.Prelude.{refl};

    const FIELDS: Fields<0> = Fields { fields: &[] };

    const EXTENDED_FIELDS: Option<Fields<0>> = None;

    fn root_fields() -> &'static [Field<'static>] {
        Self::FIELDS.fields
    }

    fn addition_fields() -> &'static [Field<'static>] {
        rows_of!(Self::EXTENDED_FIELDS)
    }

    #[inline(always)]
    fn put(&self, encoder: &mut Encoder<'_>) -> Result<(), EncodeError> {
        let view = views![self:

        ];
        EmptyRow::write(&view, encoder)
    }

    ghost counts = { (refl, refl) };
}

/// The default 0 of `DefaultIntegerA`.
pub struct DefaultIntegerADefault;

impl DefaultValue<Integer> for DefaultIntegerADefault {
    ghost use Rattle.std.specs.Prelude.{negsuc, pos, refl};
    ghost use Rattle.rasn_oer.specs.Spelled.{integers_same};

    ghost value = { (pos 0) };

    fn value(_alloc: Global) -> Result<Integer, AllocError> {
        Ok(Integer::from_i128(0))
    }

    fn is_value(other: &Integer) -> bool {
        *other == Integer::from_i128(0)
    }

    ghost admitted = { refl };

    ghost decides = { λ c k v i. integers_same c v _ };
}

/// `DefaultInteger ::= SEQUENCE { a INTEGER DEFAULT 0 }`
pub type DefaultInteger = Sequence<DefaultIntegerComponents, 1, 0>;

pub use default_integer_components::DefaultInteger as DefaultIntegerComponents;

mod default_integer_components {
    use super::*;

    /// The components of `DefaultInteger`.
    #[derive(Debug, PartialEq, Eq, Drop)]
    pub struct DefaultInteger {
        pub a: Integer,
    }
}

type DefaultIntegerRow = Defaulted<Context<0>, Integer, DefaultIntegerADefault, End>;

impl Rowed for DefaultIntegerComponents {
    ghost use Rattle.rasn_oer.specs.Values.{both};

    type Values = <DefaultIntegerRow as Components>::Values;

    ghost EXTENSIBLE = { ⟦<DefaultIntegerRow as Components>⟧.EXTENSIBLE };

    const EXTENSIBLE: bool = false;

    ghost row_schema = { ⟦<DefaultIntegerRow as Components>⟧.schema };

    ghost row_is_schema = { ⟦<DefaultIntegerRow as Components>⟧.is_schema };

    ghost components = { λ v. both v.a tt };

    fn from_row(row: Self::Values) -> Self {
        built![DefaultIntegerComponents from row:
            a
        ]
    }
}

impl Takes for DefaultIntegerComponents {
    ghost Refuses = { ⟦<DefaultIntegerRow as Reads>⟧.Refuses };

    #[inline(always)]
    fn take(alloc: Global, decoder: &mut Decoder<'_>) -> Result<Self, DecodeError> {
        read_row::<Self, DefaultIntegerRow>(alloc, decoder)
    }
}

impl Tabled<1, 0> for DefaultIntegerComponents {
    ghost use Rattle.std.specs.Prelude.{refl};

    const FIELDS: Fields<1> = Fields {
        fields: fields![
            0 Default Context 0 "a"
        ],
    };

    const EXTENDED_FIELDS: Option<Fields<0>> = None;

    fn root_fields() -> &'static [Field<'static>] {
        Self::FIELDS.fields
    }

    fn addition_fields() -> &'static [Field<'static>] {
        rows_of!(Self::EXTENDED_FIELDS)
    }

    #[inline(always)]
    fn put(&self, encoder: &mut Encoder<'_>) -> Result<(), EncodeError> {
        let view = views![self:
            a
        ];
        DefaultIntegerRow::write(&view, encoder)
    }

    ghost counts = { (refl, refl) };
}

//! Types of ASN.1 modules, as oergen printed them.

use rasn_oer::prelude::*;
use std::alloc::{AllocError, Global};

/// `Reply ::= CHOICE { plain [0] BOOLEAN, other CHOICE { one [1] INTEGER (0..255), two [2] NULL,
/// ..., more [4] BOOLEAN }, last [3] NULL }`
pub type Reply = OneOf<ReplyAlternatives>;

/// The alternatives of `Reply`.
#[derive(Debug, PartialEq, Eq, Drop)]
pub enum ReplyAlternatives {
    Plain(bool),
    OtherOne(u8),
    OtherTwo(()),
    Last(()),
    OtherMore(bool),
}

type ReplyRow = Alternative<
    Context<0>,
    bool,
    Alternative<
        Context<1>,
        u8,
        Alternative<Context<2>, (), Alternative<Context<3>, (), Extensible<ReplyAdditions>>>,
    >,
>;

type ReplyAdditions = Alternative<Context<4>, bool, End>;

const REPLY_ROOTS: &'static [Tag] = tags![Context 0, Context 1, Context 2, Context 3];

const REPLY_ADDITIONS: &'static [Tag] = tags![Context 4];

impl Alternating for ReplyAlternatives {
    ghost use Rattle.std.specs.Prelude.{refl};
    ghost use Rattle.rasn_oer.specs.Alternative.{First, Rest};
    ghost use Rattle.example_printed.specs.declared.types_08.ReplyAlternatives.TheVariants.{Plain, OtherOne, OtherTwo, Last, OtherMore};

    type Values = <ReplyRow as Alternatives>::Values;

    ghost row_choices = { ⟦<ReplyRow as Alternatives>⟧.choices };

    ghost row_are_choices = { ⟦<ReplyRow as Alternatives>⟧.are_choices };

    ghost alternative = { elim [ Plain held ↦ First held | OtherOne held ↦ Rest (First held) | OtherTwo held ↦ Rest (Rest (First held)) | Last held ↦ Rest (Rest (Rest (First held))) | OtherMore held ↦ Rest (Rest (Rest (Rest (First held)))) ] };

    const VARIANTS: &'static [Tag] = REPLY_ROOTS;

    const EXTENDED_VARIANTS: Option<&'static [Tag]> = Some(REPLY_ADDITIONS);

    fn root_tags() -> &'static [Tag] {
        Self::VARIANTS
    }

    fn addition_tags() -> Option<&'static [Tag]> {
        Self::EXTENDED_VARIANTS
    }

    fn from_alternative(value: Self::Values) -> Self {
        from_row!(value => ReplyAlternatives: Plain, OtherOne, OtherTwo, Last, OtherMore)
    }

    #[inline(always)]
    fn put<E: Choice>(&self, encoder: &mut Encoder<'_>) -> Result<(), EncodeError> {
        match self {
            Self::Plain(held) => put_alternative::<E, _>(encoder, Context::<0>::tag(), held),
            Self::OtherOne(held) => put_alternative::<E, _>(encoder, Context::<1>::tag(), held),
            Self::OtherTwo(held) => put_alternative::<E, _>(encoder, Context::<2>::tag(), held),
            Self::Last(held) => put_alternative::<E, _>(encoder, Context::<3>::tag(), held),
            Self::OtherMore(held) => put_alternative::<E, _>(encoder, Context::<4>::tag(), held),
        }
    }

    ghost apart = { refl };
}

impl TakesAlternative for ReplyAlternatives {
    ghost Refuses = { ⟦<ReplyRow as ReadsAlternatives>⟧.Refuses };

    fn take<D: Choice>(
        alloc: Global,
        decoder: &mut Decoder<'_>,
        tag: Tag,
    ) -> Result<Self, DecodeError> {
        read_alternative::<Self, ReplyRow, D>(alloc, decoder, tag)
    }
}

/// `CHOICE { c [1] BOOLEAN, d [7] NULL }`
pub type BothB = OneOf<BothBAlternatives>;

/// The alternatives of `BothB`.
#[derive(Debug, PartialEq, Eq, Drop)]
pub enum BothBAlternatives {
    C(bool),
    D(()),
}

type BothBRow = Alternative<Context<1>, bool, Alternative<Context<7>, (), End>>;

const BOTHB_ROOTS: &'static [Tag] = tags![Context 1, Context 7];

impl Alternating for BothBAlternatives {
    ghost use Rattle.std.specs.Prelude.{refl};
    ghost use Rattle.rasn_oer.specs.Alternative.{First, Rest};
    ghost use Rattle.example_printed.specs.declared.types_08.BothBAlternatives.TheVariants.{C, D};

    type Values = <BothBRow as Alternatives>::Values;

    ghost row_choices = { ⟦<BothBRow as Alternatives>⟧.choices };

    ghost row_are_choices = { ⟦<BothBRow as Alternatives>⟧.are_choices };

    ghost alternative = { elim [ C held ↦ First held | D held ↦ Rest (First held) ] };

    const VARIANTS: &'static [Tag] = BOTHB_ROOTS;

    const EXTENDED_VARIANTS: Option<&'static [Tag]> = None;

    fn root_tags() -> &'static [Tag] {
        Self::VARIANTS
    }

    fn addition_tags() -> Option<&'static [Tag]> {
        Self::EXTENDED_VARIANTS
    }

    fn from_alternative(value: Self::Values) -> Self {
        from_row!(value => BothBAlternatives: C, D)
    }

    #[inline(always)]
    fn put<E: Choice>(&self, encoder: &mut Encoder<'_>) -> Result<(), EncodeError> {
        match self {
            Self::C(held) => put_alternative::<E, _>(encoder, Context::<1>::tag(), held),
            Self::D(held) => put_alternative::<E, _>(encoder, Context::<7>::tag(), held),
        }
    }

    ghost apart = { refl };
}

impl TakesAlternative for BothBAlternatives {
    ghost Refuses = { ⟦<BothBRow as ReadsAlternatives>⟧.Refuses };

    fn take<D: Choice>(
        alloc: Global,
        decoder: &mut Decoder<'_>,
        tag: Tag,
    ) -> Result<Self, DecodeError> {
        read_alternative::<Self, BothBRow, D>(alloc, decoder, tag)
    }
}

/// `Both ::= SET { a [5] INTEGER (0..255), b CHOICE { c [1] BOOLEAN, d [7] NULL }, e [0] NULL
/// OPTIONAL }`
pub type Both = Set<BothComponents, 3, 0>;

pub use both_components::Both as BothComponents;

mod both_components {
    use super::*;

    /// The components of `Both`.
    #[derive(Debug, PartialEq, Eq, Drop)]
    pub struct Both {
        pub a: u8,
        pub b: BothB,
        pub e: Option<()>,
    }
}

type BothRow = Optional<Context<0>, (), Required<Context<1>, BothB, Required<Context<5>, u8, End>>>;

impl Rowed for BothComponents {
    ghost use Rattle.rasn_oer.specs.Values.{both};

    type Values = <BothRow as Components>::Values;

    ghost EXTENSIBLE = { ⟦<BothRow as Components>⟧.EXTENSIBLE };

    const EXTENSIBLE: bool = false;

    ghost row_schema = { ⟦<BothRow as Components>⟧.schema };

    ghost row_is_schema = { ⟦<BothRow as Components>⟧.is_schema };

    ghost components = { λ v. both v.e (both v.b (both v.a tt)) };

    fn from_row(row: Self::Values) -> Self {
        built![BothComponents from row:
            e,
            b,
            a
        ]
    }
}

impl Takes for BothComponents {
    ghost Refuses = { ⟦<BothRow as Reads>⟧.Refuses };

    #[inline(always)]
    fn take(alloc: Global, decoder: &mut Decoder<'_>) -> Result<Self, DecodeError> {
        read_row::<Self, BothRow>(alloc, decoder)
    }
}

impl Tabled<3, 0> for BothComponents {
    ghost use Rattle.std.specs.Prelude.{refl};

    const FIELDS: Fields<3> = Fields {
        fields: fields![
            0 Optional Context 0 "e",
            1 Required Context 1 "b",
            2 Required Context 5 "a"
        ],
    };

    const EXTENDED_FIELDS: Option<Fields<0>> = None;

    fn root_fields() -> &'static [Field<'static>] {
        Self::FIELDS.fields
    }

    fn addition_fields() -> &'static [Field<'static>] {
        rows_of!(Self::EXTENDED_FIELDS)
    }

    #[inline(always)]
    fn put(&self, encoder: &mut Encoder<'_>) -> Result<(), EncodeError> {
        let view = views![self:
            e,
            b,
            a
        ];
        BothRow::write(&view, encoder)
    }

    ghost counts = { (refl, refl) };
}

const BOTH_IN_TEXT_ORDER: &'static [Field<'static>] = fields![
    0 Required Context 5 "a",
    1 Required Context 1 "b",
    2 Optional Context 0 "e"
];

impl TextOrder for BothComponents {
    ghost use Rattle.std.specs.Prelude.{[], ◌∷◌};

    ghost places = { 2 ∷ 1 ∷ 0 ∷ [] };
}

impl InTagOrder<3, 0> for BothComponents {
    ghost use Rattle.std.specs.Prelude.{refl};

    ghost in_order = { refl };

    const SET_FIELDS: Fields<3> = Fields {
        fields: BOTH_IN_TEXT_ORDER,
    };

    fn text_fields() -> &'static [Field<'static>] {
        Self::SET_FIELDS.fields
    }
}

/// `Marks ::= BIT STRING { urgent(0), sealed(1), read(9) }`
pub type Marks = NamedBits;

/// The default '1000'B of `CardUsual`.
pub struct CardUsualDefault;

impl DefaultValue<NamedBits> for CardUsualDefault {
    ghost use Rattle.std.specs.Prelude.{◌∷◌, [], take, refl};
    ghost use Rattle.rasn_oer.specs.Octets.{bits_of};
    ghost use Rattle.rasn_oer.specs.Spelled.{named_bit_strings_same};

    ghost value = { take 1 (bits_of (128 ∷ [])) };

    fn value(alloc: Global) -> Result<NamedBits, AllocError> {
        let octets: [u8; 1] = [0x80];
        let bits = bits_from(alloc, &octets, 1)?;
        Ok(NamedBits::new(bits))
    }

    fn is_value(other: &NamedBits) -> bool {
        let octets: [u8; 1] = [0x80];
        are_bits(other.as_bits(), &octets, 1)
    }

    ghost admitted = { refl };

    ghost decides = { λ c k v i. named_bit_strings_same c v _ };
}

/// `Card ::= SEQUENCE { marks Marks, least Marks (SIZE(4..12)), more Marks OPTIONAL, usual Marks
/// DEFAULT '1000'B }`
pub type Card = Sequence<CardComponents, 4, 0>;

pub use card_components::Card as CardComponents;

mod card_components {
    use super::*;

    /// The components of `Card`.
    #[derive(Debug, PartialEq, Eq, Drop)]
    pub struct Card {
        pub marks: Marks,
        pub least: Limited<NamedBits, SizeBetween<4, 12>>,
        pub more: Option<Marks>,
        pub usual: Marks,
    }
}

type CardRow = Required<
    Context<0>,
    Marks,
    Required<
        Context<1>,
        Limited<NamedBits, SizeBetween<4, 12>>,
        Optional<Context<2>, Marks, Defaulted<Context<3>, Marks, CardUsualDefault, End>>,
    >,
>;

impl Rowed for CardComponents {
    ghost use Rattle.rasn_oer.specs.Values.{both};

    type Values = <CardRow as Components>::Values;

    ghost EXTENSIBLE = { ⟦<CardRow as Components>⟧.EXTENSIBLE };

    const EXTENSIBLE: bool = false;

    ghost row_schema = { ⟦<CardRow as Components>⟧.schema };

    ghost row_is_schema = { ⟦<CardRow as Components>⟧.is_schema };

    ghost components = { λ v. both v.marks (both v.least (both v.more (both v.usual tt))) };

    fn from_row(row: Self::Values) -> Self {
        built![CardComponents from row:
            marks,
            least,
            more,
            usual
        ]
    }
}

impl Takes for CardComponents {
    ghost Refuses = { ⟦<CardRow as Reads>⟧.Refuses };

    #[inline(always)]
    fn take(alloc: Global, decoder: &mut Decoder<'_>) -> Result<Self, DecodeError> {
        read_row::<Self, CardRow>(alloc, decoder)
    }
}

impl Tabled<4, 0> for CardComponents {
    ghost use Rattle.std.specs.Prelude.{refl};

    const FIELDS: Fields<4> = Fields {
        fields: fields![
            0 Required Context 0 "marks",
            1 Required Context 1 "least",
            2 Optional Context 2 "more",
            3 Default Context 3 "usual"
        ],
    };

    const EXTENDED_FIELDS: Option<Fields<0>> = None;

    fn root_fields() -> &'static [Field<'static>] {
        Self::FIELDS.fields
    }

    fn addition_fields() -> &'static [Field<'static>] {
        rows_of!(Self::EXTENDED_FIELDS)
    }

    #[inline(always)]
    fn put(&self, encoder: &mut Encoder<'_>) -> Result<(), EncodeError> {
        let view = views![self:
            marks,
            least,
            more,
            usual
        ];
        CardRow::write(&view, encoder)
    }

    ghost counts = { (refl, refl) };
}

/// `Title ::= CHOICE { teletexString TeletexString (SIZE(1..3)), printableString PrintableString (SIZE(1..3)),
/// universalString UniversalString (SIZE(1..3)), utf8String UTF8String (SIZE(1..3)),
/// bmpString BMPString (SIZE(1..3)) }`
pub type Title = OneOf<TitleAlternatives>;

/// The alternatives of `Title`.
#[derive(Debug, PartialEq, Eq, Drop)]
pub enum TitleAlternatives {
    TeletexString(TeletexText),
    PrintableString(Limited<PrintableText, SizeBetween<1, 3>>),
    UniversalString(Limited<UniversalText, SizeBetween<1, 3>>),
    Utf8String(Utf8Text),
    BmpString(Limited<BmpText, SizeBetween<1, 3>>),
}

type TitleRow = Alternative<
    Context<0>,
    TeletexText,
    Alternative<
        Context<1>,
        Limited<PrintableText, SizeBetween<1, 3>>,
        Alternative<
            Context<2>,
            Limited<UniversalText, SizeBetween<1, 3>>,
            Alternative<
                Context<3>,
                Utf8Text,
                Alternative<Context<4>, Limited<BmpText, SizeBetween<1, 3>>, End>,
            >,
        >,
    >,
>;

const TITLE_ROOTS: &'static [Tag] = tags![Context 0, Context 1, Context 2, Context 3, Context 4];

impl Alternating for TitleAlternatives {
    ghost use Rattle.std.specs.Prelude.{refl};
    ghost use Rattle.rasn_oer.specs.Alternative.{First, Rest};
    ghost use Rattle.example_printed.specs.declared.types_08.TitleAlternatives.TheVariants.{TeletexString, PrintableString, UniversalString, Utf8String, BmpString};

    type Values = <TitleRow as Alternatives>::Values;

    ghost row_choices = { ⟦<TitleRow as Alternatives>⟧.choices };

    ghost row_are_choices = { ⟦<TitleRow as Alternatives>⟧.are_choices };

    ghost alternative = { elim [ TeletexString held ↦ First held | PrintableString held ↦ Rest (First held) | UniversalString held ↦ Rest (Rest (First held)) | Utf8String held ↦ Rest (Rest (Rest (First held))) | BmpString held ↦ Rest (Rest (Rest (Rest (First held)))) ] };

    const VARIANTS: &'static [Tag] = TITLE_ROOTS;

    const EXTENDED_VARIANTS: Option<&'static [Tag]> = None;

    fn root_tags() -> &'static [Tag] {
        Self::VARIANTS
    }

    fn addition_tags() -> Option<&'static [Tag]> {
        Self::EXTENDED_VARIANTS
    }

    fn from_alternative(value: Self::Values) -> Self {
        from_row!(value => TitleAlternatives: TeletexString, PrintableString, UniversalString, Utf8String, BmpString)
    }

    #[inline(always)]
    fn put<E: Choice>(&self, encoder: &mut Encoder<'_>) -> Result<(), EncodeError> {
        match self {
            Self::TeletexString(held) => put_alternative::<E, _>(
                encoder,
                Context::<0>::tag(),
                held,
            ),
            Self::PrintableString(held) => put_alternative::<E, _>(
                encoder,
                Context::<1>::tag(),
                held,
            ),
            Self::UniversalString(held) => put_alternative::<E, _>(
                encoder,
                Context::<2>::tag(),
                held,
            ),
            Self::Utf8String(held) => put_alternative::<E, _>(encoder, Context::<3>::tag(), held),
            Self::BmpString(held) => put_alternative::<E, _>(encoder, Context::<4>::tag(), held),
        }
    }

    ghost apart = { refl };
}

impl TakesAlternative for TitleAlternatives {
    ghost Refuses = { ⟦<TitleRow as ReadsAlternatives>⟧.Refuses };

    fn take<D: Choice>(
        alloc: Global,
        decoder: &mut Decoder<'_>,
        tag: Tag,
    ) -> Result<Self, DecodeError> {
        read_alternative::<Self, TitleRow, D>(alloc, decoder, tag)
    }
}

//! Types of ASN.1 modules, as oergen printed them.

use crate::{Key, Name, Percent};
use rasn_oer::prelude::*;
use std::alloc::Global;

/// `Signal ::= CHOICE { busy NULL, level Percent, ..., new-key Key }`
pub type Signal = OneOf<SignalAlternatives>;

/// The alternatives of `Signal`.
#[derive(Debug, PartialEq, Eq, Drop)]
pub enum SignalAlternatives {
    Busy(()),
    Level(Percent),
    NewKey(Key),
}

type SignalRow = Alternative<
    Context<0>,
    (),
    Alternative<Context<1>, Percent, Extensible<SignalAdditions>>,
>;

type SignalAdditions = Alternative<Context<2>, Key, End>;

const SIGNAL_ROOTS: &'static [Tag] = tags![Context 0, Context 1];

const SIGNAL_ADDITIONS: &'static [Tag] = tags![Context 2];

impl Alternating for SignalAlternatives {
    ghost use Rattle.std.specs.Prelude.{refl};
    ghost use Rattle.rasn_oer.specs.Alternative.{First, Rest};
    ghost use Rattle.example_printed.specs.declared.types_02.SignalAlternatives.TheVariants.{Busy, Level, NewKey};

    type Values = <SignalRow as Alternatives>::Values;

    ghost row_choices = { ⟦<SignalRow as Alternatives>⟧.choices };

    ghost row_are_choices = { ⟦<SignalRow as Alternatives>⟧.are_choices };

    ghost alternative = { elim [ Busy held ↦ First held | Level held ↦ Rest (First held) | NewKey held ↦ Rest (Rest (First held)) ] };

    const VARIANTS: &'static [Tag] = SIGNAL_ROOTS;

    const EXTENDED_VARIANTS: Option<&'static [Tag]> = Some(SIGNAL_ADDITIONS);

    fn root_tags() -> &'static [Tag] {
        Self::VARIANTS
    }

    fn addition_tags() -> Option<&'static [Tag]> {
        Self::EXTENDED_VARIANTS
    }

    fn from_alternative(value: Self::Values) -> Self {
        from_row!(value => SignalAlternatives: Busy, Level, NewKey)
    }

    #[inline(always)]
    fn put<E: Choice>(&self, encoder: &mut Encoder<'_>) -> Result<(), EncodeError> {
        match self {
            Self::Busy(held) => put_alternative::<E, _>(encoder, Context::<0>::tag(), held),
            Self::Level(held) => put_alternative::<E, _>(encoder, Context::<1>::tag(), held),
            Self::NewKey(held) => put_alternative::<E, _>(encoder, Context::<2>::tag(), held),
        }
    }

    ghost apart = { refl };
}

impl TakesAlternative for SignalAlternatives {
    ghost Refuses = { ⟦<SignalRow as ReadsAlternatives>⟧.Refuses };

    fn take<D: Choice>(
        alloc: Global,
        decoder: &mut Decoder<'_>,
        tag: Tag,
    ) -> Result<Self, DecodeError> {
        read_alternative::<Self, SignalRow, D>(alloc, decoder, tag)
    }
}

/// `SEQUENCE { from Name, key Key OPTIONAL, signal Signal, open ANY, digits NumericString, plain
/// PrintableString, seen VisibleString, general GeneralString, graphic GraphicString, teletex
/// TeletexString, wide BMPString (SIZE(2)) }`
pub type LetterHead = Sequence<LetterHeadComponents, 11, 0>;

pub use letter_head_components::LetterHead as LetterHeadComponents;

mod letter_head_components {
    use super::*;

    /// The components of `LetterHead`.
    #[derive(Debug, PartialEq, Eq, Drop)]
    pub struct LetterHead {
        pub from: Name,
        pub key: Option<Key>,
        pub signal: Signal,
        pub open: OpenOctets,
        pub digits: NumericText,
        pub plain: PrintableText,
        pub seen: VisibleText,
        pub general: GeneralText,
        pub graphic: GraphicText,
        pub teletex: TeletexText,
        pub wide: Limited<BmpText, FixedSize<2>>,
    }
}

type LetterHeadRow = Required<
    Context<0>,
    Name,
    Optional<
        Context<1>,
        Key,
        Required<
            Context<2>,
            Signal,
            Required<
                Context<3>,
                OpenOctets,
                Required<Context<4>, NumericText, LetterHeadFromPlain>,
            >,
        >,
    >,
>;

/// The components of `LetterHead` from `plain` on.
pub struct LetterHeadFromPlain;

type LetterHeadFromPlainRow = Required<
    Context<5>,
    PrintableText,
    Required<
        Context<6>,
        VisibleText,
        Required<
            Context<7>,
            GeneralText,
            Required<
                Context<8>,
                GraphicText,
                Required<Context<9>, TeletexText, LetterHeadFromWide>,
            >,
        >,
    >,
>;

impl Components for LetterHeadFromPlain {
    type Values = <LetterHeadFromPlainRow as Components>::Values;

    ghost EXTENSIBLE = { ⟦<LetterHeadFromPlainRow as Components>⟧.EXTENSIBLE };

    const EXTENSIBLE: bool = false;

    ghost schema = { ⟦<LetterHeadFromPlainRow as Components>⟧.schema };

    ghost is_schema = { ⟦<LetterHeadFromPlainRow as Components>⟧.is_schema };
}

impl Slotted for LetterHeadFromPlain {
    type Slots = <LetterHeadFromPlainRow as Slotted>::Slots;

    ghost filled = { ⟦<LetterHeadFromPlainRow as Slotted>⟧.filled };

    ghost filled_once = { ⟦<LetterHeadFromPlainRow as Slotted>⟧.filled_once };

    #[inline(always)]
    fn empty() -> Self::Slots {
        LetterHeadFromPlainRow::empty()
    }

    #[inline(always)]
    fn taken(slots: Self::Slots) -> Self::Values {
        LetterHeadFromPlainRow::taken(slots)
    }
}

impl Reads for LetterHeadFromPlain {
    ghost Refuses = { ⟦<LetterHeadFromPlainRow as Reads>⟧.Refuses };

    #[inline(always)]
    fn read(
        alloc: Global,
        decoder: &mut Decoder<'_>,
        slots: &mut Self::Slots,
    ) -> Result<(), DecodeError> {
        <LetterHeadFromPlainRow as Reads>::read(alloc, decoder, slots)
    }
}

impl<'v> Views<'v> for LetterHeadFromPlain {
    type View = <LetterHeadFromPlainRow as Views<'v>>::View;

    ghost seen = { ⟦<LetterHeadFromPlainRow as Views<'v>>⟧.seen };

    #[inline(always)]
    fn write(view: &Self::View, encoder: &mut Encoder<'_>) -> Result<(), EncodeError> {
        LetterHeadFromPlainRow::write(view, encoder)
    }
}

/// The components of `LetterHead` from `wide` on.
pub struct LetterHeadFromWide;

type LetterHeadFromWideRow = Required<Context<10>, Limited<BmpText, FixedSize<2>>, End>;

impl Components for LetterHeadFromWide {
    type Values = <LetterHeadFromWideRow as Components>::Values;

    ghost EXTENSIBLE = { ⟦<LetterHeadFromWideRow as Components>⟧.EXTENSIBLE };

    const EXTENSIBLE: bool = false;

    ghost schema = { ⟦<LetterHeadFromWideRow as Components>⟧.schema };

    ghost is_schema = { ⟦<LetterHeadFromWideRow as Components>⟧.is_schema };
}

impl Slotted for LetterHeadFromWide {
    type Slots = <LetterHeadFromWideRow as Slotted>::Slots;

    ghost filled = { ⟦<LetterHeadFromWideRow as Slotted>⟧.filled };

    ghost filled_once = { ⟦<LetterHeadFromWideRow as Slotted>⟧.filled_once };

    #[inline(always)]
    fn empty() -> Self::Slots {
        LetterHeadFromWideRow::empty()
    }

    #[inline(always)]
    fn taken(slots: Self::Slots) -> Self::Values {
        LetterHeadFromWideRow::taken(slots)
    }
}

impl Reads for LetterHeadFromWide {
    ghost Refuses = { ⟦<LetterHeadFromWideRow as Reads>⟧.Refuses };

    #[inline(always)]
    fn read(
        alloc: Global,
        decoder: &mut Decoder<'_>,
        slots: &mut Self::Slots,
    ) -> Result<(), DecodeError> {
        <LetterHeadFromWideRow as Reads>::read(alloc, decoder, slots)
    }
}

impl<'v> Views<'v> for LetterHeadFromWide {
    type View = <LetterHeadFromWideRow as Views<'v>>::View;

    ghost seen = { ⟦<LetterHeadFromWideRow as Views<'v>>⟧.seen };

    #[inline(always)]
    fn write(view: &Self::View, encoder: &mut Encoder<'_>) -> Result<(), EncodeError> {
        LetterHeadFromWideRow::write(view, encoder)
    }
}

impl Rowed for LetterHeadComponents {
    ghost use Rattle.rasn_oer.specs.Values.{both};

    type Values = <LetterHeadRow as Components>::Values;

    ghost EXTENSIBLE = { ⟦<LetterHeadRow as Components>⟧.EXTENSIBLE };

    const EXTENSIBLE: bool = false;

    ghost row_schema = { ⟦<LetterHeadRow as Components>⟧.schema };

    ghost row_is_schema = { ⟦<LetterHeadRow as Components>⟧.is_schema };

    ghost components = { λ v. both v.from (both v.key (both v.signal (both v.open (both v.digits (both v.plain (both v.seen (both v.general (both v.graphic (both v.teletex (both v.wide tt)))))))))) };

    fn from_row(row: Self::Values) -> Self {
        built![LetterHeadComponents from row:
            from,
            key,
            signal,
            open,
            digits,
            plain,
            seen,
            general,
            graphic,
            teletex,
            wide
        ]
    }
}

impl Takes for LetterHeadComponents {
    ghost Refuses = { ⟦<LetterHeadRow as Reads>⟧.Refuses };

    #[inline(always)]
    fn take(alloc: Global, decoder: &mut Decoder<'_>) -> Result<Self, DecodeError> {
        read_row::<Self, LetterHeadRow>(alloc, decoder)
    }
}

impl Tabled<11, 0> for LetterHeadComponents {
    ghost use Rattle.std.specs.Prelude.{refl};

    const FIELDS: Fields<11> = Fields {
        fields: fields![
            0 Required Context 0 "from",
            1 Optional Context 1 "key",
            2 Required Context 2 "signal",
            3 Required Context 3 "open",
            4 Required Context 4 "digits",
            5 Required Context 5 "plain",
            6 Required Context 6 "seen",
            7 Required Context 7 "general",
            8 Required Context 8 "graphic",
            9 Required Context 9 "teletex",
            10 Required Context 10 "wide"
        ],
    };

    const EXTENDED_FIELDS: Option<Fields<0>> = None;

    fn root_fields() -> &'static [Field<'static>] {
        Self::FIELDS.fields
    }

    fn addition_fields() -> &'static [Field<'static>] {
        rows_of!(Self::EXTENDED_FIELDS)
    }

    #[inline(always)]
    fn put(&self, encoder: &mut Encoder<'_>) -> Result<(), EncodeError> {
        let view = views![self:
            from,
            key,
            signal,
            open,
            digits,
            plain,
            seen,
            general,
            graphic,
            teletex,
            wide
        ];
        LetterHeadRow::write(&view, encoder)
    }

    ghost counts = { (refl, refl) };
}

/// The addition group 1 of `Letter`.
pub type LetterGroup1 = Sequence<LetterGroup1Components, 2, 0>;

pub use letter_group1_components::LetterGroup1 as LetterGroup1Components;

mod letter_group1_components {
    use super::*;

    /// The components of `LetterGroup1`.
    #[derive(Debug, PartialEq, Eq, Drop)]
    pub struct LetterGroup1 {
        pub stamp: Limited<Octets, FixedSize<2>>,
        pub note: Option<Utf8Text>,
    }
}

type LetterGroup1Row = Required<
    Context<2>,
    Limited<Octets, FixedSize<2>>,
    Optional<Context<3>, Utf8Text, End>,
>;

impl Rowed for LetterGroup1Components {
    ghost use Rattle.rasn_oer.specs.Values.{both};

    type Values = <LetterGroup1Row as Components>::Values;

    ghost EXTENSIBLE = { ⟦<LetterGroup1Row as Components>⟧.EXTENSIBLE };

    const EXTENSIBLE: bool = false;

    ghost row_schema = { ⟦<LetterGroup1Row as Components>⟧.schema };

    ghost row_is_schema = { ⟦<LetterGroup1Row as Components>⟧.is_schema };

    ghost components = { λ v. both v.stamp (both v.note tt) };

    fn from_row(row: Self::Values) -> Self {
        built![LetterGroup1Components from row:
            stamp,
            note
        ]
    }
}

impl Takes for LetterGroup1Components {
    ghost Refuses = { ⟦<LetterGroup1Row as Reads>⟧.Refuses };

    #[inline(always)]
    fn take(alloc: Global, decoder: &mut Decoder<'_>) -> Result<Self, DecodeError> {
        read_row::<Self, LetterGroup1Row>(alloc, decoder)
    }
}

impl Tabled<2, 0> for LetterGroup1Components {
    ghost use Rattle.std.specs.Prelude.{refl};

    const FIELDS: Fields<2> = Fields {
        fields: fields![
            0 Required Context 2 "stamp",
            1 Optional Context 3 "note"
        ],
    };

    const EXTENDED_FIELDS: Option<Fields<0>> = None;

    fn root_fields() -> &'static [Field<'static>] {
        Self::FIELDS.fields
    }

    fn addition_fields() -> &'static [Field<'static>] {
        rows_of!(Self::EXTENDED_FIELDS)
    }

    #[inline(always)]
    fn put(&self, encoder: &mut Encoder<'_>) -> Result<(), EncodeError> {
        let view = views![self:
            stamp,
            note
        ];
        LetterGroup1Row::write(&view, encoder)
    }

    ghost counts = { (refl, refl) };
}

/// `Letter ::= SEQUENCE { head SEQUENCE { from Name, key Key OPTIONAL, signal Signal, open ANY, digits
/// NumericString, plain PrintableString, seen VisibleString, general GeneralString, graphic
/// GraphicString, teletex TeletexString, wide BMPString (SIZE(2)) }, body OCTET STRING, ..., [[
/// stamp OCTET STRING (SIZE(2)), note UTF8String OPTIONAL ]] }`
pub type Letter = Sequence<LetterComponents, 2, 1>;

pub use letter_components::Letter as LetterComponents;

mod letter_components {
    use super::*;

    /// The components of `Letter`.
    #[derive(Debug, PartialEq, Eq, Drop)]
    pub struct Letter {
        pub head: LetterHead,
        pub body: Octets,
        pub group_1: Option<LetterGroup1>,
    }
}

type LetterRow = Required<
    Context<0>,
    LetterHead,
    Required<Context<1>, Octets, Extensible<LetterAdditions>>,
>;

type LetterAdditions = AdditionGroup<2, 0, LetterGroup1, End>;

impl Rowed for LetterComponents {
    ghost use Rattle.rasn_oer.specs.Values.{both};

    type Values = <LetterRow as Components>::Values;

    ghost EXTENSIBLE = { ⟦<LetterRow as Components>⟧.EXTENSIBLE };

    const EXTENSIBLE: bool = true;

    ghost row_schema = { ⟦<LetterRow as Components>⟧.schema };

    ghost row_is_schema = { ⟦<LetterRow as Components>⟧.is_schema };

    ghost components = { λ v. both v.head (both v.body (both v.group_1 tt)) };

    fn from_row(row: Self::Values) -> Self {
        built![LetterComponents from row:
            head,
            body,
            group_1
        ]
    }
}

impl Takes for LetterComponents {
    ghost Refuses = { ⟦<LetterRow as Reads>⟧.Refuses };

    #[inline(always)]
    fn take(alloc: Global, decoder: &mut Decoder<'_>) -> Result<Self, DecodeError> {
        read_row::<Self, LetterRow>(alloc, decoder)
    }
}

impl Tabled<2, 1> for LetterComponents {
    ghost use Rattle.std.specs.Prelude.{refl};

    const FIELDS: Fields<2> = Fields {
        fields: fields![
            0 Required Context 0 "head",
            1 Required Context 1 "body"
        ],
    };

    const EXTENDED_FIELDS: Option<Fields<1>> = Some(Fields {
        fields: fields![
            0 Optional Universal 16 "group 1"
        ],
    });

    fn root_fields() -> &'static [Field<'static>] {
        Self::FIELDS.fields
    }

    fn addition_fields() -> &'static [Field<'static>] {
        rows_of!(Self::EXTENDED_FIELDS)
    }

    #[inline(always)]
    fn put(&self, encoder: &mut Encoder<'_>) -> Result<(), EncodeError> {
        let view = views![self:
            head,
            body,
            group_1
        ];
        LetterRow::write(&view, encoder)
    }

    ghost counts = { (refl, refl) };
}

/// `Rights ::= BIT STRING { read(0), write(1) } (SIZE(8))`
pub type Rights = Limited<BitString, FixedSize<8>>;

//! Types of ASN.1 modules, as oergen printed them.

use crate::{AreaRound, Colour, Key, Name, Names, Percent, Signal, Spot};
use rasn_oer::prelude::*;
use std::alloc::Global;

/// `SEQUENCE { from Spot, to Spot }`
pub type AreaBoxes = Sequence<AreaBoxesComponents, 2, 0>;

pub use area_boxes_components::AreaBoxes as AreaBoxesComponents;

mod area_boxes_components {
    use super::*;

    /// The components of `AreaBoxes`.
    #[derive(Debug, PartialEq, Eq, Drop)]
    pub struct AreaBoxes {
        pub from: Spot,
        pub to: Spot,
    }
}

type AreaBoxesRow = Required<Context<0>, Spot, Required<Context<1>, Spot, End>>;

impl Rowed for AreaBoxesComponents {
    ghost use Rattle.rasn_oer.specs.Values.{both};

    type Values = <AreaBoxesRow as Components>::Values;

    ghost EXTENSIBLE = { ⟦<AreaBoxesRow as Components>⟧.EXTENSIBLE };

    const EXTENSIBLE: bool = false;

    ghost row_schema = { ⟦<AreaBoxesRow as Components>⟧.schema };

    ghost row_is_schema = { ⟦<AreaBoxesRow as Components>⟧.is_schema };

    ghost components = { λ v. both v.from (both v.to tt) };

    fn from_row(row: Self::Values) -> Self {
        built![AreaBoxesComponents from row:
            from,
            to
        ]
    }
}

impl Takes for AreaBoxesComponents {
    ghost Refuses = { ⟦<AreaBoxesRow as Reads>⟧.Refuses };

    #[inline(always)]
    fn take(alloc: Global, decoder: &mut Decoder<'_>) -> Result<Self, DecodeError> {
        read_row::<Self, AreaBoxesRow>(alloc, decoder)
    }
}

impl Tabled<2, 0> for AreaBoxesComponents {
    ghost use Rattle.std.specs.Prelude.{refl};

    const FIELDS: Fields<2> = Fields {
        fields: fields![
            0 Required Context 0 "from",
            1 Required Context 1 "to"
        ],
    };

    const EXTENDED_FIELDS: Option<Fields<0>> = None;

    fn root_fields() -> &'static [Field<'static>] {
        Self::FIELDS.fields
    }

    fn addition_fields() -> &'static [Field<'static>] {
        rows_of!(Self::EXTENDED_FIELDS)
    }

    #[inline(always)]
    fn put(&self, encoder: &mut Encoder<'_>) -> Result<(), EncodeError> {
        let view = views![self:
            from,
            to
        ];
        AreaBoxesRow::write(&view, encoder)
    }

    ghost counts = { (refl, refl) };
}

/// `Area ::= CHOICE { round SEQUENCE { middle Spot, radius INTEGER (0..65535) }, boxes SEQUENCE OF
/// SEQUENCE { from Spot, to Spot }, corners SEQUENCE (SIZE(3..MAX)) OF Spot, names Names, ... }`
pub type Area = OneOf<AreaAlternatives>;

/// The alternatives of `Area`.
#[derive(Debug, PartialEq, Eq, Drop)]
pub enum AreaAlternatives {
    Round(AreaRound),
    Boxes(ListOf<AreaBoxes>),
    Corners(ListOf<Spot>),
    Names(Names),
}

type AreaRow = Alternative<
    Context<0>,
    AreaRound,
    Alternative<
        Context<1>,
        ListOf<AreaBoxes>,
        Alternative<Context<2>, ListOf<Spot>, Alternative<Context<3>, Names, Extensible<End>>>,
    >,
>;

const AREA_ROOTS: &'static [Tag] = tags![Context 0, Context 1, Context 2, Context 3];

const AREA_ADDITIONS: &'static [Tag] = &[];

impl Alternating for AreaAlternatives {
    ghost use Rattle.std.specs.Prelude.{refl};
    ghost use Rattle.rasn_oer.specs.Alternative.{First, Rest};
    ghost use Rattle.example_printed.specs.declared.types_05.AreaAlternatives.TheVariants.{Round, Boxes, Corners, Names};

    type Values = <AreaRow as Alternatives>::Values;

    ghost row_choices = { ⟦<AreaRow as Alternatives>⟧.choices };

    ghost row_are_choices = { ⟦<AreaRow as Alternatives>⟧.are_choices };

    ghost alternative = { elim [ Round held ↦ First held | Boxes held ↦ Rest (First held) | Corners held ↦ Rest (Rest (First held)) | Names held ↦ Rest (Rest (Rest (First held))) ] };

    const VARIANTS: &'static [Tag] = AREA_ROOTS;

    const EXTENDED_VARIANTS: Option<&'static [Tag]> = Some(AREA_ADDITIONS);

    fn root_tags() -> &'static [Tag] {
        Self::VARIANTS
    }

    fn addition_tags() -> Option<&'static [Tag]> {
        Self::EXTENDED_VARIANTS
    }

    fn from_alternative(value: Self::Values) -> Self {
        from_row!(value => AreaAlternatives: Round, Boxes, Corners, Names)
    }

    #[inline(always)]
    fn put<E: Choice>(&self, encoder: &mut Encoder<'_>) -> Result<(), EncodeError> {
        match self {
            Self::Round(held) => put_alternative::<E, _>(encoder, Context::<0>::tag(), held),
            Self::Boxes(held) => put_alternative::<E, _>(encoder, Context::<1>::tag(), held),
            Self::Corners(held) => put_alternative::<E, _>(encoder, Context::<2>::tag(), held),
            Self::Names(held) => put_alternative::<E, _>(encoder, Context::<3>::tag(), held),
        }
    }

    ghost apart = { refl };
}

impl TakesAlternative for AreaAlternatives {
    ghost Refuses = { ⟦<AreaRow as ReadsAlternatives>⟧.Refuses };

    fn take<D: Choice>(
        alloc: Global,
        decoder: &mut Decoder<'_>,
        tag: Tag,
    ) -> Result<Self, DecodeError> {
        read_alternative::<Self, AreaRow, D>(alloc, decoder, tag)
    }
}

/// more alternatives than one row has
///
/// `Event ::= CHOICE { e0 NULL, e1 BOOLEAN, e2 Percent, e3 Key, e4 Name, e5 Names, e6 Colour, e7 Spot,
/// e8 NULL, e9 BOOLEAN, e10 Percent, e11 Key, e12 Name, e13 Names, e14 Colour, e15 Spot, e16 NULL,
/// e17 BOOLEAN, e18 Percent, e19 Key, e20 Name, e21 Names, e22 Colour, e23 Spot, e24 NULL, e25
/// BOOLEAN, ..., e26 INTEGER, e27 Signal }`
pub type Event = OneOf<EventAlternatives>;

/// The alternatives of `Event`.
#[derive(Debug, PartialEq, Eq, Drop)]
pub enum EventAlternatives {
    E0(()),
    E1(bool),
    E2(Percent),
    E3(Key),
    E4(Name),
    E5(Names),
    E6(Colour),
    E7(Spot),
    E8(()),
    E9(bool),
    E10(Percent),
    E11(Key),
    E12(Name),
    E13(Names),
    E14(Colour),
    E15(Spot),
    E16(()),
    E17(bool),
    E18(Percent),
    E19(Key),
    E20(Name),
    E21(Names),
    E22(Colour),
    E23(Spot),
    E24(()),
    E25(bool),
    E26(Integer),
    E27(Signal),
}

/// Alternatives of `Event` from `e0` on, as they are read.
#[derive(Drop)]
pub enum EventPart1 {
    At_0(()),
    At_1(bool),
    At_2(Percent),
    At_3(Key),
    At_4(Name),
    At_5(Names),
    At_6(Colour),
    At_7(Spot),
    At_8(()),
    At_9(bool),
    At_10(Percent),
    At_11(Key),
    At_12(Name),
    At_13(Names),
    At_14(Colour),
    At_15(Spot),
}

type EventPart1Row = Alternative<
    Context<0>,
    (),
    Alternative<
        Context<1>,
        bool,
        Alternative<
            Context<2>,
            Percent,
            Alternative<Context<3>, Key, Alternative<Context<4>, Name, EventFromE5>>,
        >,
    >,
>;

/// The alternatives of `Event` from `e5` on.
type EventFromE5 = Alternative<
    Context<5>,
    Names,
    Alternative<
        Context<6>,
        Colour,
        Alternative<
            Context<7>,
            Spot,
            Alternative<Context<8>, (), Alternative<Context<9>, bool, EventFromE10>>,
        >,
    >,
>;

/// The alternatives of `Event` from `e10` on.
type EventFromE10 = Alternative<
    Context<10>,
    Percent,
    Alternative<
        Context<11>,
        Key,
        Alternative<
            Context<12>,
            Name,
            Alternative<Context<13>, Names, Alternative<Context<14>, Colour, EventFromE15>>,
        >,
    >,
>;

/// The alternatives of `Event` from `e15` on.
type EventFromE15 = Alternative<Context<15>, Spot, End>;

impl ChoicePart for EventPart1 {
    ghost use Rattle.rasn_oer.specs.Alternative.{First, Rest};
    ghost use Rattle.example_printed.specs.declared.types_05.EventPart1.TheVariants.{At_0, At_1, At_2, At_3, At_4, At_5, At_6, At_7, At_8, At_9, At_10, At_11, At_12, At_13, At_14, At_15};

    type Values = <EventPart1Row as Alternatives>::Values;

    ghost row_choices = { ⟦<EventPart1Row as Alternatives>⟧.choices };

    ghost row_are_choices = { ⟦<EventPart1Row as Alternatives>⟧.are_choices };

    ghost alternative = { elim [ At_0 held ↦ First held | At_1 held ↦ Rest (First held) | At_2 held ↦ Rest (Rest (First held)) | At_3 held ↦ Rest (Rest (Rest (First held))) | At_4 held ↦ Rest (Rest (Rest (Rest (First held)))) | At_5 held ↦ Rest (Rest (Rest (Rest (Rest (First held))))) | At_6 held ↦ Rest (Rest (Rest (Rest (Rest (Rest (First held)))))) | At_7 held ↦ Rest (Rest (Rest (Rest (Rest (Rest (Rest (First held))))))) | At_8 held ↦ Rest (Rest (Rest (Rest (Rest (Rest (Rest (Rest (First held)))))))) | At_9 held ↦ Rest (Rest (Rest (Rest (Rest (Rest (Rest (Rest (Rest (First held))))))))) | At_10 held ↦ Rest (Rest (Rest (Rest (Rest (Rest (Rest (Rest (Rest (Rest (First held)))))))))) | At_11 held ↦ Rest (Rest (Rest (Rest (Rest (Rest (Rest (Rest (Rest (Rest (Rest (First held))))))))))) | At_12 held ↦ Rest (Rest (Rest (Rest (Rest (Rest (Rest (Rest (Rest (Rest (Rest (Rest (First held)))))))))))) | At_13 held ↦ Rest (Rest (Rest (Rest (Rest (Rest (Rest (Rest (Rest (Rest (Rest (Rest (Rest (First held))))))))))))) | At_14 held ↦ Rest (Rest (Rest (Rest (Rest (Rest (Rest (Rest (Rest (Rest (Rest (Rest (Rest (Rest (First held)))))))))))))) | At_15 held ↦ Rest (Rest (Rest (Rest (Rest (Rest (Rest (Rest (Rest (Rest (Rest (Rest (Rest (Rest (Rest (First held))))))))))))))) ] };

    fn from_alternative(value: Self::Values) -> Self {
        from_row!(value => EventPart1: At_0, At_1, At_2, At_3, At_4, At_5, At_6, At_7, At_8, At_9, At_10, At_11, At_12, At_13, At_14, At_15)
    }
}

impl ReadsPart for EventPart1 {
    ghost Refuses = { ⟦<EventPart1Row as ReadsAlternatives>⟧.Refuses };

    fn has(tag: Tag) -> bool {
        EventPart1Row::holds(tag)
    }

    fn take<D: Choice>(
        alloc: Global,
        decoder: &mut Decoder<'_>,
        tag: Tag,
    ) -> Result<Self, DecodeError> {
        read_part::<Self, EventPart1Row, D>(alloc, decoder, tag)
    }
}

/// Alternatives of `Event` from `e16` on, as they are read.
#[derive(Drop)]
pub enum EventPart2 {
    At_16(()),
    At_17(bool),
    At_18(Percent),
    At_19(Key),
    At_20(Name),
    At_21(Names),
    At_22(Colour),
    At_23(Spot),
    At_24(()),
    At_25(bool),
}

type EventPart2Row = Alternative<
    Context<16>,
    (),
    Alternative<
        Context<17>,
        bool,
        Alternative<
            Context<18>,
            Percent,
            Alternative<Context<19>, Key, Alternative<Context<20>, Name, EventFromE21>>,
        >,
    >,
>;

/// The alternatives of `Event` from `e21` on.
type EventFromE21 = Alternative<
    Context<21>,
    Names,
    Alternative<
        Context<22>,
        Colour,
        Alternative<
            Context<23>,
            Spot,
            Alternative<Context<24>, (), Alternative<Context<25>, bool, End>>,
        >,
    >,
>;

impl ChoicePart for EventPart2 {
    ghost use Rattle.rasn_oer.specs.Alternative.{First, Rest};
    ghost use Rattle.example_printed.specs.declared.types_05.EventPart2.TheVariants.{At_16, At_17, At_18, At_19, At_20, At_21, At_22, At_23, At_24, At_25};

    type Values = <EventPart2Row as Alternatives>::Values;

    ghost row_choices = { ⟦<EventPart2Row as Alternatives>⟧.choices };

    ghost row_are_choices = { ⟦<EventPart2Row as Alternatives>⟧.are_choices };

    ghost alternative = { elim [ At_16 held ↦ First held | At_17 held ↦ Rest (First held) | At_18 held ↦ Rest (Rest (First held)) | At_19 held ↦ Rest (Rest (Rest (First held))) | At_20 held ↦ Rest (Rest (Rest (Rest (First held)))) | At_21 held ↦ Rest (Rest (Rest (Rest (Rest (First held))))) | At_22 held ↦ Rest (Rest (Rest (Rest (Rest (Rest (First held)))))) | At_23 held ↦ Rest (Rest (Rest (Rest (Rest (Rest (Rest (First held))))))) | At_24 held ↦ Rest (Rest (Rest (Rest (Rest (Rest (Rest (Rest (First held)))))))) | At_25 held ↦ Rest (Rest (Rest (Rest (Rest (Rest (Rest (Rest (Rest (First held))))))))) ] };

    fn from_alternative(value: Self::Values) -> Self {
        from_row!(value => EventPart2: At_16, At_17, At_18, At_19, At_20, At_21, At_22, At_23, At_24, At_25)
    }
}

impl ReadsPart for EventPart2 {
    ghost Refuses = { ⟦<EventPart2Row as ReadsAlternatives>⟧.Refuses };

    fn has(tag: Tag) -> bool {
        EventPart2Row::holds(tag)
    }

    fn take<D: Choice>(
        alloc: Global,
        decoder: &mut Decoder<'_>,
        tag: Tag,
    ) -> Result<Self, DecodeError> {
        read_part::<Self, EventPart2Row, D>(alloc, decoder, tag)
    }
}

/// Alternatives of `Event` from `e26` on, as they are read.
#[derive(Drop)]
pub enum EventPart3 {
    At_26(Integer),
    At_27(Signal),
}

type EventPart3Row = Alternative<Context<26>, Integer, Alternative<Context<27>, Signal, End>>;

impl ChoicePart for EventPart3 {
    ghost use Rattle.rasn_oer.specs.Alternative.{First, Rest};
    ghost use Rattle.example_printed.specs.declared.types_05.EventPart3.TheVariants.{At_26, At_27};

    type Values = <EventPart3Row as Alternatives>::Values;

    ghost row_choices = { ⟦<EventPart3Row as Alternatives>⟧.choices };

    ghost row_are_choices = { ⟦<EventPart3Row as Alternatives>⟧.are_choices };

    ghost alternative = { elim [ At_26 held ↦ First held | At_27 held ↦ Rest (First held) ] };

    fn from_alternative(value: Self::Values) -> Self {
        from_row!(value => EventPart3: At_26, At_27)
    }
}

impl ReadsPart for EventPart3 {
    ghost Refuses = { ⟦<EventPart3Row as ReadsAlternatives>⟧.Refuses };

    fn has(tag: Tag) -> bool {
        EventPart3Row::holds(tag)
    }

    fn take<D: Choice>(
        alloc: Global,
        decoder: &mut Decoder<'_>,
        tag: Tag,
    ) -> Result<Self, DecodeError> {
        read_part::<Self, EventPart3Row, D>(alloc, decoder, tag)
    }
}

type EventRow = Part<EventPart1, Part<EventPart2, Extensible<EventAdditions>>>;

type EventAdditions = Part<EventPart3, End>;

const EVENT_ROOTS: &'static [Tag] =
    tags![Context 0, Context 1, Context 2, Context 3, Context 4, Context 5, Context 6, Context 7, Context 8, Context 9, Context 10, Context 11, Context 12, Context 13, Context 14, Context 15, Context 16, Context 17, Context 18, Context 19, Context 20, Context 21, Context 22, Context 23, Context 24, Context 25];

const EVENT_ADDITIONS: &'static [Tag] = tags![Context 26, Context 27];

impl Alternating for EventAlternatives {
    ghost use Rattle.std.specs.Prelude.{refl};
    ghost use Rattle.rasn_oer.specs.Alternative.{First, Rest};
    ghost use Rattle.example_printed.specs.declared.types_05.EventAlternatives.TheVariants.{E0, E1, E2, E3, E4, E5, E6, E7, E8, E9, E10, E11, E12, E13, E14, E15, E16, E17, E18, E19, E20, E21, E22, E23, E24, E25, E26, E27};
    ghost use Rattle.example_printed.specs.declared.types_05.EventPart1.TheVariants.{At_0, At_1, At_2, At_3, At_4, At_5, At_6, At_7, At_8, At_9, At_10, At_11, At_12, At_13, At_14, At_15};
    ghost use Rattle.example_printed.specs.declared.types_05.EventPart2.TheVariants.{At_16, At_17, At_18, At_19, At_20, At_21, At_22, At_23, At_24, At_25};
    ghost use Rattle.example_printed.specs.declared.types_05.EventPart3.TheVariants.{At_26, At_27};

    type Values = <EventRow as Alternatives>::Values;

    ghost row_choices = { ⟦<EventRow as Alternatives>⟧.choices };

    ghost row_are_choices = { ⟦<EventRow as Alternatives>⟧.are_choices };

    ghost alternative = { elim [ E0 held ↦ First (At_0 held) | E1 held ↦ First (At_1 held) | E2 held ↦ First (At_2 held) | E3 held ↦ First (At_3 held) | E4 held ↦ First (At_4 held) | E5 held ↦ First (At_5 held) | E6 held ↦ First (At_6 held) | E7 held ↦ First (At_7 held) | E8 held ↦ First (At_8 held) | E9 held ↦ First (At_9 held) | E10 held ↦ First (At_10 held) | E11 held ↦ First (At_11 held) | E12 held ↦ First (At_12 held) | E13 held ↦ First (At_13 held) | E14 held ↦ First (At_14 held) | E15 held ↦ First (At_15 held) | E16 held ↦ Rest (First (At_16 held)) | E17 held ↦ Rest (First (At_17 held)) | E18 held ↦ Rest (First (At_18 held)) | E19 held ↦ Rest (First (At_19 held)) | E20 held ↦ Rest (First (At_20 held)) | E21 held ↦ Rest (First (At_21 held)) | E22 held ↦ Rest (First (At_22 held)) | E23 held ↦ Rest (First (At_23 held)) | E24 held ↦ Rest (First (At_24 held)) | E25 held ↦ Rest (First (At_25 held)) | E26 held ↦ Rest (Rest (First (At_26 held))) | E27 held ↦ Rest (Rest (First (At_27 held))) ] };

    const VARIANTS: &'static [Tag] = EVENT_ROOTS;

    const EXTENDED_VARIANTS: Option<&'static [Tag]> = Some(EVENT_ADDITIONS);

    fn root_tags() -> &'static [Tag] {
        Self::VARIANTS
    }

    fn addition_tags() -> Option<&'static [Tag]> {
        Self::EXTENDED_VARIANTS
    }

    fn from_alternative(value: Self::Values) -> Self {
        from_parts!(value => EventAlternatives: EventPart1 [At_0 E0, At_1 E1, At_2 E2, At_3 E3, At_4 E4, At_5 E5, At_6 E6, At_7 E7, At_8 E8, At_9 E9, At_10 E10, At_11 E11, At_12 E12, At_13 E13, At_14 E14, At_15 E15], EventPart2 [At_16 E16, At_17 E17, At_18 E18, At_19 E19, At_20 E20, At_21 E21, At_22 E22, At_23 E23, At_24 E24, At_25 E25], EventPart3 [At_26 E26, At_27 E27])
    }

    #[inline(always)]
    fn put<E: Choice>(&self, encoder: &mut Encoder<'_>) -> Result<(), EncodeError> {
        match self {
            Self::E0(held) => put_alternative::<E, _>(encoder, Context::<0>::tag(), held),
            Self::E1(held) => put_alternative::<E, _>(encoder, Context::<1>::tag(), held),
            Self::E2(held) => put_alternative::<E, _>(encoder, Context::<2>::tag(), held),
            Self::E3(held) => put_alternative::<E, _>(encoder, Context::<3>::tag(), held),
            Self::E4(held) => put_alternative::<E, _>(encoder, Context::<4>::tag(), held),
            Self::E5(held) => put_alternative::<E, _>(encoder, Context::<5>::tag(), held),
            Self::E6(held) => put_alternative::<E, _>(encoder, Context::<6>::tag(), held),
            Self::E7(held) => put_alternative::<E, _>(encoder, Context::<7>::tag(), held),
            Self::E8(held) => put_alternative::<E, _>(encoder, Context::<8>::tag(), held),
            Self::E9(held) => put_alternative::<E, _>(encoder, Context::<9>::tag(), held),
            Self::E10(held) => put_alternative::<E, _>(encoder, Context::<10>::tag(), held),
            Self::E11(held) => put_alternative::<E, _>(encoder, Context::<11>::tag(), held),
            Self::E12(held) => put_alternative::<E, _>(encoder, Context::<12>::tag(), held),
            Self::E13(held) => put_alternative::<E, _>(encoder, Context::<13>::tag(), held),
            Self::E14(held) => put_alternative::<E, _>(encoder, Context::<14>::tag(), held),
            Self::E15(held) => put_alternative::<E, _>(encoder, Context::<15>::tag(), held),
            Self::E16(held) => put_alternative::<E, _>(encoder, Context::<16>::tag(), held),
            Self::E17(held) => put_alternative::<E, _>(encoder, Context::<17>::tag(), held),
            Self::E18(held) => put_alternative::<E, _>(encoder, Context::<18>::tag(), held),
            Self::E19(held) => put_alternative::<E, _>(encoder, Context::<19>::tag(), held),
            Self::E20(held) => put_alternative::<E, _>(encoder, Context::<20>::tag(), held),
            Self::E21(held) => put_alternative::<E, _>(encoder, Context::<21>::tag(), held),
            Self::E22(held) => put_alternative::<E, _>(encoder, Context::<22>::tag(), held),
            Self::E23(held) => put_alternative::<E, _>(encoder, Context::<23>::tag(), held),
            Self::E24(held) => put_alternative::<E, _>(encoder, Context::<24>::tag(), held),
            Self::E25(held) => put_alternative::<E, _>(encoder, Context::<25>::tag(), held),
            Self::E26(held) => put_alternative::<E, _>(encoder, Context::<26>::tag(), held),
            Self::E27(held) => put_alternative::<E, _>(encoder, Context::<27>::tag(), held),
        }
    }

    ghost apart = { refl };
}

impl TakesAlternative for EventAlternatives {
    ghost Refuses = { ⟦<EventRow as ReadsAlternatives>⟧.Refuses };

    fn take<D: Choice>(
        alloc: Global,
        decoder: &mut Decoder<'_>,
        tag: Tag,
    ) -> Result<Self, DecodeError> {
        read_alternative::<Self, EventRow, D>(alloc, decoder, tag)
    }
}

/// `Named ::= INTEGER { low(-3), high(3) } (low..high)`
pub type Named = Limited<i8, Between<-3, 3>>;

//! Types of ASN.1 modules, as oergen printed them.

use rasn_oer::prelude::*;
use std::alloc::{AllocError, Global};

/// `Then ::= SEQUENCE { at UTCTime, on GeneralizedTime, day DATE }`
pub type Then = Sequence<ThenComponents, 3, 0>;

pub use then_components::Then as ThenComponents;

mod then_components {
    use super::*;

    /// The components of `Then`.
    #[derive(Debug, PartialEq, Eq, Drop)]
    pub struct Then {
        pub at: UtcTime,
        pub on: GeneralizedTime,
        pub day: Date,
    }
}

type ThenRow = Required<
    Context<0>,
    UtcTime,
    Required<Context<1>, GeneralizedTime, Required<Context<2>, Date, End>>,
>;

impl Rowed for ThenComponents {
    ghost use Rattle.rasn_oer.specs.Values.{both};

    type Values = <ThenRow as Components>::Values;

    ghost EXTENSIBLE = { ⟦<ThenRow as Components>⟧.EXTENSIBLE };

    const EXTENSIBLE: bool = false;

    ghost row_schema = { ⟦<ThenRow as Components>⟧.schema };

    ghost row_is_schema = { ⟦<ThenRow as Components>⟧.is_schema };

    ghost components = { λ v. both v.at (both v.on (both v.day tt)) };

    fn from_row(row: Self::Values) -> Self {
        built![ThenComponents from row:
            at,
            on,
            day
        ]
    }
}

impl Takes for ThenComponents {
    ghost Refuses = { ⟦<ThenRow as Reads>⟧.Refuses };

    #[inline(always)]
    fn take(alloc: Global, decoder: &mut Decoder<'_>) -> Result<Self, DecodeError> {
        read_row::<Self, ThenRow>(alloc, decoder)
    }
}

impl Tabled<3, 0> for ThenComponents {
    ghost use Rattle.std.specs.Prelude.{refl};

    const FIELDS: Fields<3> = Fields {
        fields: fields![
            0 Required Context 0 "at",
            1 Required Context 1 "on",
            2 Required Context 2 "day"
        ],
    };

    const EXTENDED_FIELDS: Option<Fields<0>> = None;

    fn root_fields() -> &'static [Field<'static>] {
        Self::FIELDS.fields
    }

    fn addition_fields() -> &'static [Field<'static>] {
        rows_of!(Self::EXTENDED_FIELDS)
    }

    #[inline(always)]
    fn put(&self, encoder: &mut Encoder<'_>) -> Result<(), EncodeError> {
        let view = views![self:
            at,
            on,
            day
        ];
        ThenRow::write(&view, encoder)
    }

    ghost counts = { (refl, refl) };
}

/// `Level ::= [PRIVATE 2] EXPLICIT INTEGER (0..top)`
pub type Level = u16;

/// `Colours ::= CHOICE { one [1] NULL, two [UNIVERSAL 7] NULL, three INTEGER }`
pub type Colours = OneOf<ColoursAlternatives>;

/// The alternatives of `Colours`.
#[derive(Debug, PartialEq, Eq, Drop)]
pub enum ColoursAlternatives {
    One(()),
    Two(()),
    Three(Integer),
}

type ColoursRow = Alternative<
    Context<1>,
    (),
    Alternative<Universal<7>, (), Alternative<Universal<2>, Integer, End>>,
>;

const COLOURS_ROOTS: &'static [Tag] = tags![Context 1, Universal 7, Universal 2];

impl Alternating for ColoursAlternatives {
    ghost use Rattle.std.specs.Prelude.{refl};
    ghost use Rattle.rasn_oer.specs.Alternative.{First, Rest};
    ghost use Rattle.example_printed.specs.declared.types_06.ColoursAlternatives.TheVariants.{One, Two, Three};

    type Values = <ColoursRow as Alternatives>::Values;

    ghost row_choices = { ⟦<ColoursRow as Alternatives>⟧.choices };

    ghost row_are_choices = { ⟦<ColoursRow as Alternatives>⟧.are_choices };

    ghost alternative = { elim [ One held ↦ First held | Two held ↦ Rest (First held) | Three held ↦ Rest (Rest (First held)) ] };

    const VARIANTS: &'static [Tag] = COLOURS_ROOTS;

    const EXTENDED_VARIANTS: Option<&'static [Tag]> = None;

    fn root_tags() -> &'static [Tag] {
        Self::VARIANTS
    }

    fn addition_tags() -> Option<&'static [Tag]> {
        Self::EXTENDED_VARIANTS
    }

    fn from_alternative(value: Self::Values) -> Self {
        from_row!(value => ColoursAlternatives: One, Two, Three)
    }

    #[inline(always)]
    fn put<E: Choice>(&self, encoder: &mut Encoder<'_>) -> Result<(), EncodeError> {
        match self {
            Self::One(held) => put_alternative::<E, _>(encoder, Context::<1>::tag(), held),
            Self::Two(held) => put_alternative::<E, _>(encoder, Universal::<7>::tag(), held),
            Self::Three(held) => put_alternative::<E, _>(encoder, Universal::<2>::tag(), held),
        }
    }

    ghost apart = { refl };
}

impl TakesAlternative for ColoursAlternatives {
    ghost Refuses = { ⟦<ColoursRow as ReadsAlternatives>⟧.Refuses };

    fn take<D: Choice>(
        alloc: Global,
        decoder: &mut Decoder<'_>,
        tag: Tag,
    ) -> Result<Self, DecodeError> {
        read_alternative::<Self, ColoursRow, D>(alloc, decoder, tag)
    }
}

/// `Plain ::= SEQUENCE { a BOOLEAN, l Levels.Level, c Colours OPTIONAL }`
pub type Plain = Sequence<PlainComponents, 3, 0>;

pub use plain_components::Plain as PlainComponents;

mod plain_components {
    use super::*;

    /// The components of `Plain`.
    #[derive(Debug, PartialEq, Eq, Drop)]
    pub struct Plain {
        pub a: bool,
        pub l: Level,
        pub c: Option<Colours>,
    }
}

type PlainRow = Required<
    Universal<1>,
    bool,
    Required<Private<2>, Level, Optional<Universal<0>, Colours, End>>,
>;

impl Rowed for PlainComponents {
    ghost use Rattle.rasn_oer.specs.Values.{both};

    type Values = <PlainRow as Components>::Values;

    ghost EXTENSIBLE = { ⟦<PlainRow as Components>⟧.EXTENSIBLE };

    const EXTENSIBLE: bool = false;

    ghost row_schema = { ⟦<PlainRow as Components>⟧.schema };

    ghost row_is_schema = { ⟦<PlainRow as Components>⟧.is_schema };

    ghost components = { λ v. both v.a (both v.l (both v.c tt)) };

    fn from_row(row: Self::Values) -> Self {
        built![PlainComponents from row:
            a,
            l,
            c
        ]
    }
}

impl Takes for PlainComponents {
    ghost Refuses = { ⟦<PlainRow as Reads>⟧.Refuses };

    #[inline(always)]
    fn take(alloc: Global, decoder: &mut Decoder<'_>) -> Result<Self, DecodeError> {
        read_row::<Self, PlainRow>(alloc, decoder)
    }
}

impl Tabled<3, 0> for PlainComponents {
    ghost use Rattle.std.specs.Prelude.{refl};

    const FIELDS: Fields<3> = Fields {
        fields: fields![
            0 Required Universal 1 "a",
            1 Required Private 2 "l",
            2 Optional Universal 0 "c"
        ],
    };

    const EXTENDED_FIELDS: Option<Fields<0>> = None;

    fn root_fields() -> &'static [Field<'static>] {
        Self::FIELDS.fields
    }

    fn addition_fields() -> &'static [Field<'static>] {
        rows_of!(Self::EXTENDED_FIELDS)
    }

    #[inline(always)]
    fn put(&self, encoder: &mut Encoder<'_>) -> Result<(), EncodeError> {
        let view = views![self:
            a,
            l,
            c
        ];
        PlainRow::write(&view, encoder)
    }

    ghost counts = { (refl, refl) };
}

/// The default 3 of `TakenPart`.
pub struct TakenPartDefault;

impl DefaultValue<u16> for TakenPartDefault {
    ghost use Rattle.std.specs.Prelude.{negsuc, pos, refl};
    ghost use Rattle.rasn_oer.specs.Spelled.{naturals_same};

    ghost value = { 3 };

    fn value(_alloc: Global) -> Result<u16, AllocError> {
        Ok(3)
    }

    fn is_value(other: &u16) -> bool {
        *other == 3
    }

    ghost admitted = { refl };

    ghost decides = { λ c k v i. naturals_same c v _ };
}

/// `Taken ::= SEQUENCE { COMPONENTS OF Then, part INTEGER (0..top) DEFAULT three, plain Plain OPTIONAL,
/// ..., level Level OPTIONAL, ..., own NULL } (WITH COMPONENTS { ..., plain PRESENT })`
pub type Taken = Sequence<TakenComponents, 6, 1>;

pub use taken_components::Taken as TakenComponents;

mod taken_components {
    use super::*;

    /// The components of `Taken`.
    #[derive(Debug, PartialEq, Eq, Drop)]
    pub struct Taken {
        pub at: UtcTime,
        pub on: GeneralizedTime,
        pub day: Date,
        pub part: u16,
        pub plain: Option<Plain>,
        pub own: (),
        pub level: Option<Level>,
    }
}

type TakenRow = Required<
    Context<0>,
    UtcTime,
    Required<
        Context<1>,
        GeneralizedTime,
        Required<
            Context<2>,
            Date,
            Defaulted<Context<3>, u16, TakenPartDefault, Optional<Context<4>, Plain, TakenFromOwn>>,
        >,
    >,
>;

/// The components of `Taken` from `own` on.
pub struct TakenFromOwn;

type TakenFromOwnRow = Required<Context<5>, (), Extensible<TakenAdditions>>;

impl Components for TakenFromOwn {
    type Values = <TakenFromOwnRow as Components>::Values;

    ghost EXTENSIBLE = { ⟦<TakenFromOwnRow as Components>⟧.EXTENSIBLE };

    const EXTENSIBLE: bool = true;

    ghost schema = { ⟦<TakenFromOwnRow as Components>⟧.schema };

    ghost is_schema = { ⟦<TakenFromOwnRow as Components>⟧.is_schema };
}

impl Slotted for TakenFromOwn {
    type Slots = <TakenFromOwnRow as Slotted>::Slots;

    ghost filled = { ⟦<TakenFromOwnRow as Slotted>⟧.filled };

    ghost filled_once = { ⟦<TakenFromOwnRow as Slotted>⟧.filled_once };

    #[inline(always)]
    fn empty() -> Self::Slots {
        TakenFromOwnRow::empty()
    }

    #[inline(always)]
    fn taken(slots: Self::Slots) -> Self::Values {
        TakenFromOwnRow::taken(slots)
    }
}

impl Reads for TakenFromOwn {
    ghost Refuses = { ⟦<TakenFromOwnRow as Reads>⟧.Refuses };

    #[inline(always)]
    fn read(
        alloc: Global,
        decoder: &mut Decoder<'_>,
        slots: &mut Self::Slots,
    ) -> Result<(), DecodeError> {
        <TakenFromOwnRow as Reads>::read(alloc, decoder, slots)
    }
}

impl<'v> Views<'v> for TakenFromOwn {
    type View = <TakenFromOwnRow as Views<'v>>::View;

    ghost seen = { ⟦<TakenFromOwnRow as Views<'v>>⟧.seen };

    #[inline(always)]
    fn write(view: &Self::View, encoder: &mut Encoder<'_>) -> Result<(), EncodeError> {
        TakenFromOwnRow::write(view, encoder)
    }
}

type TakenAdditions = OptionalAddition<Context<6>, Level, End>;

impl Rowed for TakenComponents {
    ghost use Rattle.rasn_oer.specs.Values.{both};

    type Values = <TakenRow as Components>::Values;

    ghost EXTENSIBLE = { ⟦<TakenRow as Components>⟧.EXTENSIBLE };

    const EXTENSIBLE: bool = true;

    ghost row_schema = { ⟦<TakenRow as Components>⟧.schema };

    ghost row_is_schema = { ⟦<TakenRow as Components>⟧.is_schema };

    ghost components = { λ v. both v.at (both v.on (both v.day (both v.part (both v.plain (both v.own (both v.level tt)))))) };

    fn from_row(row: Self::Values) -> Self {
        built![TakenComponents from row:
            at,
            on,
            day,
            part,
            plain,
            own,
            level
        ]
    }
}

impl Takes for TakenComponents {
    ghost Refuses = { ⟦<TakenRow as Reads>⟧.Refuses };

    #[inline(always)]
    fn take(alloc: Global, decoder: &mut Decoder<'_>) -> Result<Self, DecodeError> {
        read_row::<Self, TakenRow>(alloc, decoder)
    }
}

impl Tabled<6, 1> for TakenComponents {
    ghost use Rattle.std.specs.Prelude.{refl};

    const FIELDS: Fields<6> = Fields {
        fields: fields![
            0 Required Context 0 "at",
            1 Required Context 1 "on",
            2 Required Context 2 "day",
            3 Default Context 3 "part",
            4 Optional Context 4 "plain",
            5 Required Context 5 "own"
        ],
    };

    const EXTENDED_FIELDS: Option<Fields<1>> = Some(Fields {
        fields: fields![
            0 Optional Context 6 "level"
        ],
    });

    fn root_fields() -> &'static [Field<'static>] {
        Self::FIELDS.fields
    }

    fn addition_fields() -> &'static [Field<'static>] {
        rows_of!(Self::EXTENDED_FIELDS)
    }

    #[inline(always)]
    fn put(&self, encoder: &mut Encoder<'_>) -> Result<(), EncodeError> {
        let view = views![self:
            at,
            on,
            day,
            part,
            plain,
            own,
            level
        ];
        TakenRow::write(&view, encoder)
    }

    ghost counts = { (refl, refl) };
}

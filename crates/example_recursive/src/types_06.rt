//! Types of ASN.1 modules, as oergen printed them.

use rasn_oer::prelude::*;
use std::alloc::Global;

/// More components than stand in one another.
///
/// `Wide ::= SEQUENCE { b1 BOOLEAN, b2 BOOLEAN, b3 BOOLEAN, b4 BOOLEAN, b5 BOOLEAN, b6 BOOLEAN, b7
/// BOOLEAN, b8 BOOLEAN, b9 BOOLEAN, b10 BOOLEAN, b11 BOOLEAN, b12 BOOLEAN, b13 BOOLEAN, b14 BOOLEAN,
/// b15 BOOLEAN, b16 BOOLEAN, b17 BOOLEAN, b18 BOOLEAN, b19 BOOLEAN, b20 BOOLEAN, b21 BOOLEAN, b22
/// BOOLEAN, b23 BOOLEAN, b24 BOOLEAN, b25 BOOLEAN, b26 BOOLEAN, b27 BOOLEAN, b28 BOOLEAN, b29 BOOLEAN,
/// b30 BOOLEAN, b31 BOOLEAN, ..., b32 BOOLEAN }`
pub type Wide = Sequence<WideComponents, 31, 1>;

pub use wide_components::Wide as WideComponents;

mod wide_components {
    use super::*;

    /// The components of `Wide`.
    #[derive(Clone, Debug, PartialEq, Eq, Drop)]
    pub struct Wide {
        pub b1: bool,
        pub b2: bool,
        pub b3: bool,
        pub b4: bool,
        pub b5: bool,
        pub b6: bool,
        pub b7: bool,
        pub b8: bool,
        pub b9: bool,
        pub b10: bool,
        pub b11: bool,
        pub b12: bool,
        pub b13: bool,
        pub b14: bool,
        pub b15: bool,
        pub b16: bool,
        pub b17: bool,
        pub b18: bool,
        pub b19: bool,
        pub b20: bool,
        pub b21: bool,
        pub b22: bool,
        pub b23: bool,
        pub b24: bool,
        pub b25: bool,
        pub b26: bool,
        pub b27: bool,
        pub b28: bool,
        pub b29: bool,
        pub b30: bool,
        pub b31: bool,
        pub b32: Option<bool>,
    }
}

type WideRow = Required<
    Context<0>,
    bool,
    Required<
        Context<1>,
        bool,
        Required<
            Context<2>,
            bool,
            Required<Context<3>, bool, Required<Context<4>, bool, WideFromB6>>,
        >,
    >,
>;

/// The components of `Wide` from `b6` on.
pub struct WideFromB6;

type WideFromB6Row = Required<
    Context<5>,
    bool,
    Required<
        Context<6>,
        bool,
        Required<
            Context<7>,
            bool,
            Required<Context<8>, bool, Required<Context<9>, bool, WideFromB11>>,
        >,
    >,
>;

impl Components for WideFromB6 {
    type Values = <WideFromB6Row as Components>::Values;

    ghost EXTENSIBLE = { ⟦<WideFromB6Row as Components>⟧.EXTENSIBLE };

    const EXTENSIBLE: bool = true;

    ghost schema = { ⟦<WideFromB6Row as Components>⟧.schema };

    ghost is_schema = { ⟦<WideFromB6Row as Components>⟧.is_schema };
}

impl Slotted for WideFromB6 {
    type Slots = <WideFromB6Row as Slotted>::Slots;

    ghost filled = { ⟦<WideFromB6Row as Slotted>⟧.filled };

    ghost filled_once = { ⟦<WideFromB6Row as Slotted>⟧.filled_once };

    #[inline(always)]
    fn empty() -> Self::Slots {
        WideFromB6Row::empty()
    }

    #[inline(always)]
    fn taken(slots: Self::Slots) -> Self::Values {
        WideFromB6Row::taken(slots)
    }
}

impl Reads for WideFromB6 {
    ghost Refuses = { ⟦<WideFromB6Row as Reads>⟧.Refuses };

    #[inline(always)]
    fn read(
        alloc: Global,
        decoder: &mut Decoder<'_>,
        slots: &mut Self::Slots,
    ) -> Result<(), DecodeError> {
        <WideFromB6Row as Reads>::read(alloc, decoder, slots)
    }
}

impl<'v> Views<'v> for WideFromB6 {
    type View = <WideFromB6Row as Views<'v>>::View;

    ghost seen = { ⟦<WideFromB6Row as Views<'v>>⟧.seen };

    #[inline(always)]
    fn write(view: &Self::View, encoder: &mut Encoder<'_>) -> Result<(), EncodeError> {
        WideFromB6Row::write(view, encoder)
    }
}

/// The components of `Wide` from `b11` on.
pub struct WideFromB11;

type WideFromB11Row = Required<
    Context<10>,
    bool,
    Required<
        Context<11>,
        bool,
        Required<
            Context<12>,
            bool,
            Required<Context<13>, bool, Required<Context<14>, bool, WideFromB16>>,
        >,
    >,
>;

impl Components for WideFromB11 {
    type Values = <WideFromB11Row as Components>::Values;

    ghost EXTENSIBLE = { ⟦<WideFromB11Row as Components>⟧.EXTENSIBLE };

    const EXTENSIBLE: bool = true;

    ghost schema = { ⟦<WideFromB11Row as Components>⟧.schema };

    ghost is_schema = { ⟦<WideFromB11Row as Components>⟧.is_schema };
}

impl Slotted for WideFromB11 {
    type Slots = <WideFromB11Row as Slotted>::Slots;

    ghost filled = { ⟦<WideFromB11Row as Slotted>⟧.filled };

    ghost filled_once = { ⟦<WideFromB11Row as Slotted>⟧.filled_once };

    #[inline(always)]
    fn empty() -> Self::Slots {
        WideFromB11Row::empty()
    }

    #[inline(always)]
    fn taken(slots: Self::Slots) -> Self::Values {
        WideFromB11Row::taken(slots)
    }
}

impl Reads for WideFromB11 {
    ghost Refuses = { ⟦<WideFromB11Row as Reads>⟧.Refuses };

    #[inline(always)]
    fn read(
        alloc: Global,
        decoder: &mut Decoder<'_>,
        slots: &mut Self::Slots,
    ) -> Result<(), DecodeError> {
        <WideFromB11Row as Reads>::read(alloc, decoder, slots)
    }
}

impl<'v> Views<'v> for WideFromB11 {
    type View = <WideFromB11Row as Views<'v>>::View;

    ghost seen = { ⟦<WideFromB11Row as Views<'v>>⟧.seen };

    #[inline(always)]
    fn write(view: &Self::View, encoder: &mut Encoder<'_>) -> Result<(), EncodeError> {
        WideFromB11Row::write(view, encoder)
    }
}

/// The components of `Wide` from `b16` on.
pub struct WideFromB16;

type WideFromB16Row = Required<
    Context<15>,
    bool,
    Required<
        Context<16>,
        bool,
        Required<
            Context<17>,
            bool,
            Required<Context<18>, bool, Required<Context<19>, bool, WideFromB21>>,
        >,
    >,
>;

impl Components for WideFromB16 {
    type Values = <WideFromB16Row as Components>::Values;

    ghost EXTENSIBLE = { ⟦<WideFromB16Row as Components>⟧.EXTENSIBLE };

    const EXTENSIBLE: bool = true;

    ghost schema = { ⟦<WideFromB16Row as Components>⟧.schema };

    ghost is_schema = { ⟦<WideFromB16Row as Components>⟧.is_schema };
}

impl Slotted for WideFromB16 {
    type Slots = <WideFromB16Row as Slotted>::Slots;

    ghost filled = { ⟦<WideFromB16Row as Slotted>⟧.filled };

    ghost filled_once = { ⟦<WideFromB16Row as Slotted>⟧.filled_once };

    #[inline(always)]
    fn empty() -> Self::Slots {
        WideFromB16Row::empty()
    }

    #[inline(always)]
    fn taken(slots: Self::Slots) -> Self::Values {
        WideFromB16Row::taken(slots)
    }
}

impl Reads for WideFromB16 {
    ghost Refuses = { ⟦<WideFromB16Row as Reads>⟧.Refuses };

    #[inline(always)]
    fn read(
        alloc: Global,
        decoder: &mut Decoder<'_>,
        slots: &mut Self::Slots,
    ) -> Result<(), DecodeError> {
        <WideFromB16Row as Reads>::read(alloc, decoder, slots)
    }
}

impl<'v> Views<'v> for WideFromB16 {
    type View = <WideFromB16Row as Views<'v>>::View;

    ghost seen = { ⟦<WideFromB16Row as Views<'v>>⟧.seen };

    #[inline(always)]
    fn write(view: &Self::View, encoder: &mut Encoder<'_>) -> Result<(), EncodeError> {
        WideFromB16Row::write(view, encoder)
    }
}

/// The components of `Wide` from `b21` on.
pub struct WideFromB21;

type WideFromB21Row = Required<
    Context<20>,
    bool,
    Required<
        Context<21>,
        bool,
        Required<
            Context<22>,
            bool,
            Required<Context<23>, bool, Required<Context<24>, bool, WideFromB26>>,
        >,
    >,
>;

impl Components for WideFromB21 {
    type Values = <WideFromB21Row as Components>::Values;

    ghost EXTENSIBLE = { ⟦<WideFromB21Row as Components>⟧.EXTENSIBLE };

    const EXTENSIBLE: bool = true;

    ghost schema = { ⟦<WideFromB21Row as Components>⟧.schema };

    ghost is_schema = { ⟦<WideFromB21Row as Components>⟧.is_schema };
}

impl Slotted for WideFromB21 {
    type Slots = <WideFromB21Row as Slotted>::Slots;

    ghost filled = { ⟦<WideFromB21Row as Slotted>⟧.filled };

    ghost filled_once = { ⟦<WideFromB21Row as Slotted>⟧.filled_once };

    #[inline(always)]
    fn empty() -> Self::Slots {
        WideFromB21Row::empty()
    }

    #[inline(always)]
    fn taken(slots: Self::Slots) -> Self::Values {
        WideFromB21Row::taken(slots)
    }
}

impl Reads for WideFromB21 {
    ghost Refuses = { ⟦<WideFromB21Row as Reads>⟧.Refuses };

    #[inline(always)]
    fn read(
        alloc: Global,
        decoder: &mut Decoder<'_>,
        slots: &mut Self::Slots,
    ) -> Result<(), DecodeError> {
        <WideFromB21Row as Reads>::read(alloc, decoder, slots)
    }
}

impl<'v> Views<'v> for WideFromB21 {
    type View = <WideFromB21Row as Views<'v>>::View;

    ghost seen = { ⟦<WideFromB21Row as Views<'v>>⟧.seen };

    #[inline(always)]
    fn write(view: &Self::View, encoder: &mut Encoder<'_>) -> Result<(), EncodeError> {
        WideFromB21Row::write(view, encoder)
    }
}

/// The components of `Wide` from `b26` on.
pub struct WideFromB26;

type WideFromB26Row = Required<
    Context<25>,
    bool,
    Required<
        Context<26>,
        bool,
        Required<
            Context<27>,
            bool,
            Required<Context<28>, bool, Required<Context<29>, bool, WideFromB31>>,
        >,
    >,
>;

impl Components for WideFromB26 {
    type Values = <WideFromB26Row as Components>::Values;

    ghost EXTENSIBLE = { ⟦<WideFromB26Row as Components>⟧.EXTENSIBLE };

    const EXTENSIBLE: bool = true;

    ghost schema = { ⟦<WideFromB26Row as Components>⟧.schema };

    ghost is_schema = { ⟦<WideFromB26Row as Components>⟧.is_schema };
}

impl Slotted for WideFromB26 {
    type Slots = <WideFromB26Row as Slotted>::Slots;

    ghost filled = { ⟦<WideFromB26Row as Slotted>⟧.filled };

    ghost filled_once = { ⟦<WideFromB26Row as Slotted>⟧.filled_once };

    #[inline(always)]
    fn empty() -> Self::Slots {
        WideFromB26Row::empty()
    }

    #[inline(always)]
    fn taken(slots: Self::Slots) -> Self::Values {
        WideFromB26Row::taken(slots)
    }
}

impl Reads for WideFromB26 {
    ghost Refuses = { ⟦<WideFromB26Row as Reads>⟧.Refuses };

    #[inline(always)]
    fn read(
        alloc: Global,
        decoder: &mut Decoder<'_>,
        slots: &mut Self::Slots,
    ) -> Result<(), DecodeError> {
        <WideFromB26Row as Reads>::read(alloc, decoder, slots)
    }
}

impl<'v> Views<'v> for WideFromB26 {
    type View = <WideFromB26Row as Views<'v>>::View;

    ghost seen = { ⟦<WideFromB26Row as Views<'v>>⟧.seen };

    #[inline(always)]
    fn write(view: &Self::View, encoder: &mut Encoder<'_>) -> Result<(), EncodeError> {
        WideFromB26Row::write(view, encoder)
    }
}

/// The components of `Wide` from `b31` on.
pub struct WideFromB31;

type WideFromB31Row = Required<Context<30>, bool, WideFromB32>;

/// The values of `WideFromB31`.
#[derive(Drop)]
pub struct WideFromB31Values(pub <WideFromB31Row as Components>::Values);

/// The places of `WideFromB31`.
#[derive(Drop)]
pub struct WideFromB31Slots(pub <WideFromB31Row as Slotted>::Slots);

/// References to the values of `WideFromB31`.
#[derive(Drop)]
pub struct WideFromB31View<'v>(pub <WideFromB31Row as Views<'v>>::View);

impl Components for WideFromB31 {
    ghost use Rattle.rasn_oer.specs.Schema.{through, through_is};

    type Values = WideFromB31Values;

    ghost EXTENSIBLE = { ⟦<WideFromB31Row as Components>⟧.EXTENSIBLE };

    const EXTENSIBLE: bool = true;

    ghost schema = { through (λ v. v.0) ⟦<WideFromB31Row as Components>⟧.schema };

    ghost is_schema = { through_is (λ v. v.0) ⟦<WideFromB31Row as Components>⟧.schema ⟦<WideFromB31Row as Components>⟧.EXTENSIBLE ⟦<WideFromB31Row as Components>⟧.is_schema };
}

impl Slotted for WideFromB31 {
    ghost use Rattle.std.proofs.Common.{ap};

    type Slots = WideFromB31Slots;

    ghost filled = { λ v. record { 0 = ⟦<WideFromB31Row as Slotted>⟧.filled v.0 } };

    ghost filled_once = { λ v w e. ap (λ z. record { 0 = z }) (⟦<WideFromB31Row as Slotted>⟧.filled_once v.0 w.0 (ap (λ z. z.0) e)) };

    #[inline(always)]
    fn empty() -> Self::Slots {
        WideFromB31Slots(WideFromB31Row::empty())
    }

    #[inline(always)]
    fn taken(slots: Self::Slots) -> Self::Values {
        let WideFromB31Slots(slots) = slots;
        WideFromB31Values(WideFromB31Row::taken(slots))
    }
}

impl Reads for WideFromB31 {
    ghost Refuses = { ⟦<WideFromB31Row as Reads>⟧.Refuses };

    #[inline(always)]
    fn read(
        alloc: Global,
        decoder: &mut Decoder<'_>,
        slots: &mut Self::Slots,
    ) -> Result<(), DecodeError> {
        <WideFromB31Row as Reads>::read(alloc, decoder, &mut slots.0)
    }
}

impl<'v> Views<'v> for WideFromB31 {
    type View = WideFromB31View<'v>;

    ghost seen = { λ v. record { 0 = ⟦<WideFromB31Row as Views<'v>>⟧.seen v.0 } };

    #[inline(always)]
    fn write(view: &Self::View, encoder: &mut Encoder<'_>) -> Result<(), EncodeError> {
        WideFromB31Row::write(&view.0, encoder)
    }
}

/// The components of `Wide` from `b32` on.
pub struct WideFromB32;

type WideFromB32Row = Extensible<WideAdditions>;

/// The values of `WideFromB32`.
#[derive(Drop)]
pub struct WideFromB32Values(pub <WideFromB32Row as Components>::Values);

/// The places of `WideFromB32`.
#[derive(Drop)]
pub struct WideFromB32Slots(pub <WideFromB32Row as Slotted>::Slots);

/// References to the values of `WideFromB32`.
#[derive(Drop)]
pub struct WideFromB32View<'v>(pub <WideFromB32Row as Views<'v>>::View);

impl Components for WideFromB32 {
    ghost use Rattle.rasn_oer.specs.Schema.{through, through_is};

    type Values = WideFromB32Values;

    ghost EXTENSIBLE = { ⟦<WideFromB32Row as Components>⟧.EXTENSIBLE };

    const EXTENSIBLE: bool = true;

    ghost schema = { through (λ v. v.0) ⟦<WideFromB32Row as Components>⟧.schema };

    ghost is_schema = { through_is (λ v. v.0) ⟦<WideFromB32Row as Components>⟧.schema ⟦<WideFromB32Row as Components>⟧.EXTENSIBLE ⟦<WideFromB32Row as Components>⟧.is_schema };
}

impl Slotted for WideFromB32 {
    ghost use Rattle.std.proofs.Common.{ap};

    type Slots = WideFromB32Slots;

    ghost filled = { λ v. record { 0 = ⟦<WideFromB32Row as Slotted>⟧.filled v.0 } };

    ghost filled_once = { λ v w e. ap (λ z. record { 0 = z }) (⟦<WideFromB32Row as Slotted>⟧.filled_once v.0 w.0 (ap (λ z. z.0) e)) };

    #[inline(always)]
    fn empty() -> Self::Slots {
        WideFromB32Slots(WideFromB32Row::empty())
    }

    #[inline(always)]
    fn taken(slots: Self::Slots) -> Self::Values {
        let WideFromB32Slots(slots) = slots;
        WideFromB32Values(WideFromB32Row::taken(slots))
    }
}

impl Reads for WideFromB32 {
    ghost Refuses = { ⟦<WideFromB32Row as Reads>⟧.Refuses };

    #[inline(always)]
    fn read(
        alloc: Global,
        decoder: &mut Decoder<'_>,
        slots: &mut Self::Slots,
    ) -> Result<(), DecodeError> {
        <WideFromB32Row as Reads>::read(alloc, decoder, &mut slots.0)
    }
}

impl<'v> Views<'v> for WideFromB32 {
    type View = WideFromB32View<'v>;

    ghost seen = { λ v. record { 0 = ⟦<WideFromB32Row as Views<'v>>⟧.seen v.0 } };

    #[inline(always)]
    fn write(view: &Self::View, encoder: &mut Encoder<'_>) -> Result<(), EncodeError> {
        WideFromB32Row::write(&view.0, encoder)
    }
}

type WideAdditions = OptionalAddition<Context<31>, bool, End>;

impl Rowed for WideComponents {
    ghost use Rattle.rasn_oer.specs.Values.{both};

    type Values = <WideRow as Components>::Values;

    ghost EXTENSIBLE = { ⟦<WideRow as Components>⟧.EXTENSIBLE };

    const EXTENSIBLE: bool = true;

    ghost row_schema = { ⟦<WideRow as Components>⟧.schema };

    ghost row_is_schema = { ⟦<WideRow as Components>⟧.is_schema };

    ghost components = { λ v. both v.b1 (both v.b2 (both v.b3 (both v.b4 (both v.b5 (both v.b6 (both v.b7 (both v.b8 (both v.b9 (both v.b10 (both v.b11 (both v.b12 (both v.b13 (both v.b14 (both v.b15 (both v.b16 (both v.b17 (both v.b18 (both v.b19 (both v.b20 (both v.b21 (both v.b22 (both v.b23 (both v.b24 (both v.b25 (both v.b26 (both v.b27 (both v.b28 (both v.b29 (both v.b30 (record { 0 = both v.b31 (record { 0 = both v.b32 tt }) })))))))))))))))))))))))))))))) };

    fn from_row(row: Self::Values) -> Self {
        built![WideComponents from row:
            b1,
            b2,
            b3,
            b4,
            b5,
            b6,
            b7,
            b8,
            b9,
            b10,
            b11,
            b12,
            b13,
            b14,
            b15,
            b16,
            b17,
            b18,
            b19,
            b20,
            b21,
            b22,
            b23,
            b24,
            b25,
            b26,
            b27,
            b28,
            b29,
            b30;
            WideFromB31Values WideFromB31View:
            b31;
            WideFromB32Values WideFromB32View:
            b32
        ]
    }
}

impl Takes for WideComponents {
    ghost Refuses = { ⟦<WideRow as Reads>⟧.Refuses };

    #[inline(always)]
    fn take(alloc: Global, decoder: &mut Decoder<'_>) -> Result<Self, DecodeError> {
        read_row::<Self, WideRow>(alloc, decoder)
    }
}

impl Tabled<31, 1> for WideComponents {
    ghost use Rattle.std.specs.Prelude.{refl};

    const FIELDS: Fields<31> = Fields {
        fields: fields![
            0 Required Context 0 "b1",
            1 Required Context 1 "b2",
            2 Required Context 2 "b3",
            3 Required Context 3 "b4",
            4 Required Context 4 "b5",
            5 Required Context 5 "b6",
            6 Required Context 6 "b7",
            7 Required Context 7 "b8",
            8 Required Context 8 "b9",
            9 Required Context 9 "b10",
            10 Required Context 10 "b11",
            11 Required Context 11 "b12",
            12 Required Context 12 "b13",
            13 Required Context 13 "b14",
            14 Required Context 14 "b15",
            15 Required Context 15 "b16",
            16 Required Context 16 "b17",
            17 Required Context 17 "b18",
            18 Required Context 18 "b19",
            19 Required Context 19 "b20",
            20 Required Context 20 "b21",
            21 Required Context 21 "b22",
            22 Required Context 22 "b23",
            23 Required Context 23 "b24",
            24 Required Context 24 "b25",
            25 Required Context 25 "b26",
            26 Required Context 26 "b27",
            27 Required Context 27 "b28",
            28 Required Context 28 "b29",
            29 Required Context 29 "b30",
            30 Required Context 30 "b31"
        ],
    };

    const EXTENDED_FIELDS: Option<Fields<1>> = Some(Fields {
        fields: fields![
            0 Optional Context 31 "b32"
        ],
    });

    fn root_fields() -> &'static [Field<'static>] {
        Self::FIELDS.fields
    }

    fn addition_fields() -> &'static [Field<'static>] {
        rows_of!(Self::EXTENDED_FIELDS)
    }

    #[inline(always)]
    fn put(&self, encoder: &mut Encoder<'_>) -> Result<(), EncodeError> {
        let view = views![self:
            b1,
            b2,
            b3,
            b4,
            b5,
            b6,
            b7,
            b8,
            b9,
            b10,
            b11,
            b12,
            b13,
            b14,
            b15,
            b16,
            b17,
            b18,
            b19,
            b20,
            b21,
            b22,
            b23,
            b24,
            b25,
            b26,
            b27,
            b28,
            b29,
            b30;
            WideFromB31Values WideFromB31View:
            b31;
            WideFromB32Values WideFromB32View:
            b32
        ];
        WideRow::write(&view, encoder)
    }

    ghost counts = { (refl, refl) };
}

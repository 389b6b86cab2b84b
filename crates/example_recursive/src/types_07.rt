//! Types of ASN.1 modules, as oergen printed them.

use rasn_oer::prelude::*;
use std::alloc::Global;

/// More additions than stand in one another.
///
/// `Newest ::= SEQUENCE { ..., b1 BOOLEAN, b2 BOOLEAN, b3 BOOLEAN, b4 BOOLEAN, b5 BOOLEAN, b6 BOOLEAN,
/// b7 BOOLEAN, b8 BOOLEAN, b9 BOOLEAN, b10 BOOLEAN, b11 BOOLEAN, b12 BOOLEAN, b13 BOOLEAN, b14
/// BOOLEAN, b15 BOOLEAN, b16 BOOLEAN, b17 BOOLEAN, b18 BOOLEAN, b19 BOOLEAN, b20 BOOLEAN, b21 BOOLEAN,
/// b22 BOOLEAN, b23 BOOLEAN, b24 BOOLEAN, b25 BOOLEAN, b26 BOOLEAN, b27 BOOLEAN, b28 BOOLEAN, b29
/// BOOLEAN, b30 BOOLEAN, b31 BOOLEAN }`
pub type Newest = Sequence<NewestComponents, 0, 31>;

pub use newest_components::Newest as NewestComponents;

mod newest_components {
    use super::*;

    /// The components of `Newest`.
    #[derive(Clone, Debug, PartialEq, Eq, Drop)]
    pub struct Newest {
        pub b1: Option<bool>,
        pub b2: Option<bool>,
        pub b3: Option<bool>,
        pub b4: Option<bool>,
        pub b5: Option<bool>,
        pub b6: Option<bool>,
        pub b7: Option<bool>,
        pub b8: Option<bool>,
        pub b9: Option<bool>,
        pub b10: Option<bool>,
        pub b11: Option<bool>,
        pub b12: Option<bool>,
        pub b13: Option<bool>,
        pub b14: Option<bool>,
        pub b15: Option<bool>,
        pub b16: Option<bool>,
        pub b17: Option<bool>,
        pub b18: Option<bool>,
        pub b19: Option<bool>,
        pub b20: Option<bool>,
        pub b21: Option<bool>,
        pub b22: Option<bool>,
        pub b23: Option<bool>,
        pub b24: Option<bool>,
        pub b25: Option<bool>,
        pub b26: Option<bool>,
        pub b27: Option<bool>,
        pub b28: Option<bool>,
        pub b29: Option<bool>,
        pub b30: Option<bool>,
        pub b31: Option<bool>,
    }
}

type NewestRow = Extensible<NewestAdditions>;

type NewestAdditions = OptionalAddition<
    Context<0>,
    bool,
    OptionalAddition<
        Context<1>,
        bool,
        OptionalAddition<
            Context<2>,
            bool,
            OptionalAddition<Context<3>, bool, OptionalAddition<Context<4>, bool, NewestFromB6>>,
        >,
    >,
>;

/// The components of `Newest` from `b6` on.
pub struct NewestFromB6;

type NewestFromB6Row = OptionalAddition<
    Context<5>,
    bool,
    OptionalAddition<
        Context<6>,
        bool,
        OptionalAddition<
            Context<7>,
            bool,
            OptionalAddition<Context<8>, bool, OptionalAddition<Context<9>, bool, NewestFromB11>>,
        >,
    >,
>;

impl Additions for NewestFromB6 {
    type More = <NewestFromB6Row as Additions>::More;

    ghost table = { ⟦<NewestFromB6Row as Additions>⟧.table };

    ghost is_table = { ⟦<NewestFromB6Row as Additions>⟧.is_table };
}

impl SlottedAdditions for NewestFromB6 {
    type Slots = <NewestFromB6Row as SlottedAdditions>::Slots;

    ghost filled = { ⟦<NewestFromB6Row as SlottedAdditions>⟧.filled };

    ghost filled_once = { ⟦<NewestFromB6Row as SlottedAdditions>⟧.filled_once };

    #[inline(always)]
    fn empty() -> Self::Slots {
        NewestFromB6Row::empty()
    }

    #[inline(always)]
    fn taken(slots: Self::Slots) -> Self::More {
        NewestFromB6Row::taken(slots)
    }
}

impl ReadsAdditions for NewestFromB6 {
    ghost Refuses = { ⟦<NewestFromB6Row as ReadsAdditions>⟧.Refuses };

    #[inline(always)]
    fn read_additions(
        alloc: Global,
        decoder: &mut Decoder<'_>,
        slots: &mut Self::Slots,
    ) -> Result<(), DecodeError> {
        <NewestFromB6Row as ReadsAdditions>::read_additions(alloc, decoder, slots)
    }
}

impl<'v> AdditionViews<'v> for NewestFromB6 {
    type MoreView = <NewestFromB6Row as AdditionViews<'v>>::MoreView;

    ghost seen = { ⟦<NewestFromB6Row as AdditionViews<'v>>⟧.seen };

    #[inline(always)]
    fn write_additions(
        view: &Self::MoreView,
        encoder: &mut Encoder<'_>,
    ) -> Result<(), EncodeError> {
        NewestFromB6Row::write_additions(view, encoder)
    }
}

/// The components of `Newest` from `b11` on.
pub struct NewestFromB11;

type NewestFromB11Row = OptionalAddition<
    Context<10>,
    bool,
    OptionalAddition<
        Context<11>,
        bool,
        OptionalAddition<
            Context<12>,
            bool,
            OptionalAddition<Context<13>, bool, OptionalAddition<Context<14>, bool, NewestFromB16>>,
        >,
    >,
>;

impl Additions for NewestFromB11 {
    type More = <NewestFromB11Row as Additions>::More;

    ghost table = { ⟦<NewestFromB11Row as Additions>⟧.table };

    ghost is_table = { ⟦<NewestFromB11Row as Additions>⟧.is_table };
}

impl SlottedAdditions for NewestFromB11 {
    type Slots = <NewestFromB11Row as SlottedAdditions>::Slots;

    ghost filled = { ⟦<NewestFromB11Row as SlottedAdditions>⟧.filled };

    ghost filled_once = { ⟦<NewestFromB11Row as SlottedAdditions>⟧.filled_once };

    #[inline(always)]
    fn empty() -> Self::Slots {
        NewestFromB11Row::empty()
    }

    #[inline(always)]
    fn taken(slots: Self::Slots) -> Self::More {
        NewestFromB11Row::taken(slots)
    }
}

impl ReadsAdditions for NewestFromB11 {
    ghost Refuses = { ⟦<NewestFromB11Row as ReadsAdditions>⟧.Refuses };

    #[inline(always)]
    fn read_additions(
        alloc: Global,
        decoder: &mut Decoder<'_>,
        slots: &mut Self::Slots,
    ) -> Result<(), DecodeError> {
        <NewestFromB11Row as ReadsAdditions>::read_additions(alloc, decoder, slots)
    }
}

impl<'v> AdditionViews<'v> for NewestFromB11 {
    type MoreView = <NewestFromB11Row as AdditionViews<'v>>::MoreView;

    ghost seen = { ⟦<NewestFromB11Row as AdditionViews<'v>>⟧.seen };

    #[inline(always)]
    fn write_additions(
        view: &Self::MoreView,
        encoder: &mut Encoder<'_>,
    ) -> Result<(), EncodeError> {
        NewestFromB11Row::write_additions(view, encoder)
    }
}

/// The components of `Newest` from `b16` on.
pub struct NewestFromB16;

type NewestFromB16Row = OptionalAddition<
    Context<15>,
    bool,
    OptionalAddition<
        Context<16>,
        bool,
        OptionalAddition<
            Context<17>,
            bool,
            OptionalAddition<Context<18>, bool, OptionalAddition<Context<19>, bool, NewestFromB21>>,
        >,
    >,
>;

impl Additions for NewestFromB16 {
    type More = <NewestFromB16Row as Additions>::More;

    ghost table = { ⟦<NewestFromB16Row as Additions>⟧.table };

    ghost is_table = { ⟦<NewestFromB16Row as Additions>⟧.is_table };
}

impl SlottedAdditions for NewestFromB16 {
    type Slots = <NewestFromB16Row as SlottedAdditions>::Slots;

    ghost filled = { ⟦<NewestFromB16Row as SlottedAdditions>⟧.filled };

    ghost filled_once = { ⟦<NewestFromB16Row as SlottedAdditions>⟧.filled_once };

    #[inline(always)]
    fn empty() -> Self::Slots {
        NewestFromB16Row::empty()
    }

    #[inline(always)]
    fn taken(slots: Self::Slots) -> Self::More {
        NewestFromB16Row::taken(slots)
    }
}

impl ReadsAdditions for NewestFromB16 {
    ghost Refuses = { ⟦<NewestFromB16Row as ReadsAdditions>⟧.Refuses };

    #[inline(always)]
    fn read_additions(
        alloc: Global,
        decoder: &mut Decoder<'_>,
        slots: &mut Self::Slots,
    ) -> Result<(), DecodeError> {
        <NewestFromB16Row as ReadsAdditions>::read_additions(alloc, decoder, slots)
    }
}

impl<'v> AdditionViews<'v> for NewestFromB16 {
    type MoreView = <NewestFromB16Row as AdditionViews<'v>>::MoreView;

    ghost seen = { ⟦<NewestFromB16Row as AdditionViews<'v>>⟧.seen };

    #[inline(always)]
    fn write_additions(
        view: &Self::MoreView,
        encoder: &mut Encoder<'_>,
    ) -> Result<(), EncodeError> {
        NewestFromB16Row::write_additions(view, encoder)
    }
}

/// The components of `Newest` from `b21` on.
pub struct NewestFromB21;

type NewestFromB21Row = OptionalAddition<
    Context<20>,
    bool,
    OptionalAddition<
        Context<21>,
        bool,
        OptionalAddition<
            Context<22>,
            bool,
            OptionalAddition<Context<23>, bool, OptionalAddition<Context<24>, bool, NewestFromB26>>,
        >,
    >,
>;

impl Additions for NewestFromB21 {
    type More = <NewestFromB21Row as Additions>::More;

    ghost table = { ⟦<NewestFromB21Row as Additions>⟧.table };

    ghost is_table = { ⟦<NewestFromB21Row as Additions>⟧.is_table };
}

impl SlottedAdditions for NewestFromB21 {
    type Slots = <NewestFromB21Row as SlottedAdditions>::Slots;

    ghost filled = { ⟦<NewestFromB21Row as SlottedAdditions>⟧.filled };

    ghost filled_once = { ⟦<NewestFromB21Row as SlottedAdditions>⟧.filled_once };

    #[inline(always)]
    fn empty() -> Self::Slots {
        NewestFromB21Row::empty()
    }

    #[inline(always)]
    fn taken(slots: Self::Slots) -> Self::More {
        NewestFromB21Row::taken(slots)
    }
}

impl ReadsAdditions for NewestFromB21 {
    ghost Refuses = { ⟦<NewestFromB21Row as ReadsAdditions>⟧.Refuses };

    #[inline(always)]
    fn read_additions(
        alloc: Global,
        decoder: &mut Decoder<'_>,
        slots: &mut Self::Slots,
    ) -> Result<(), DecodeError> {
        <NewestFromB21Row as ReadsAdditions>::read_additions(alloc, decoder, slots)
    }
}

impl<'v> AdditionViews<'v> for NewestFromB21 {
    type MoreView = <NewestFromB21Row as AdditionViews<'v>>::MoreView;

    ghost seen = { ⟦<NewestFromB21Row as AdditionViews<'v>>⟧.seen };

    #[inline(always)]
    fn write_additions(
        view: &Self::MoreView,
        encoder: &mut Encoder<'_>,
    ) -> Result<(), EncodeError> {
        NewestFromB21Row::write_additions(view, encoder)
    }
}

/// The components of `Newest` from `b26` on.
pub struct NewestFromB26;

type NewestFromB26Row = OptionalAddition<
    Context<25>,
    bool,
    OptionalAddition<
        Context<26>,
        bool,
        OptionalAddition<
            Context<27>,
            bool,
            OptionalAddition<Context<28>, bool, OptionalAddition<Context<29>, bool, NewestFromB31>>,
        >,
    >,
>;

impl Additions for NewestFromB26 {
    type More = <NewestFromB26Row as Additions>::More;

    ghost table = { ⟦<NewestFromB26Row as Additions>⟧.table };

    ghost is_table = { ⟦<NewestFromB26Row as Additions>⟧.is_table };
}

impl SlottedAdditions for NewestFromB26 {
    type Slots = <NewestFromB26Row as SlottedAdditions>::Slots;

    ghost filled = { ⟦<NewestFromB26Row as SlottedAdditions>⟧.filled };

    ghost filled_once = { ⟦<NewestFromB26Row as SlottedAdditions>⟧.filled_once };

    #[inline(always)]
    fn empty() -> Self::Slots {
        NewestFromB26Row::empty()
    }

    #[inline(always)]
    fn taken(slots: Self::Slots) -> Self::More {
        NewestFromB26Row::taken(slots)
    }
}

impl ReadsAdditions for NewestFromB26 {
    ghost Refuses = { ⟦<NewestFromB26Row as ReadsAdditions>⟧.Refuses };

    #[inline(always)]
    fn read_additions(
        alloc: Global,
        decoder: &mut Decoder<'_>,
        slots: &mut Self::Slots,
    ) -> Result<(), DecodeError> {
        <NewestFromB26Row as ReadsAdditions>::read_additions(alloc, decoder, slots)
    }
}

impl<'v> AdditionViews<'v> for NewestFromB26 {
    type MoreView = <NewestFromB26Row as AdditionViews<'v>>::MoreView;

    ghost seen = { ⟦<NewestFromB26Row as AdditionViews<'v>>⟧.seen };

    #[inline(always)]
    fn write_additions(
        view: &Self::MoreView,
        encoder: &mut Encoder<'_>,
    ) -> Result<(), EncodeError> {
        NewestFromB26Row::write_additions(view, encoder)
    }
}

/// The components of `Newest` from `b31` on.
pub struct NewestFromB31;

type NewestFromB31Row = OptionalAddition<Context<30>, bool, End>;

/// The values of `NewestFromB31`.
#[derive(Drop)]
pub struct NewestFromB31Values(pub <NewestFromB31Row as Additions>::More);

/// The places of `NewestFromB31`.
#[derive(Drop)]
pub struct NewestFromB31Slots(pub <NewestFromB31Row as SlottedAdditions>::Slots);

/// References to the values of `NewestFromB31`.
#[derive(Drop)]
pub struct NewestFromB31View<'v>(pub <NewestFromB31Row as AdditionViews<'v>>::MoreView);

impl Additions for NewestFromB31 {
    ghost use Rattle.rasn_oer.specs.Schema.{under, under_is};

    type More = NewestFromB31Values;

    ghost table = { under (λ v. v.0) ⟦<NewestFromB31Row as Additions>⟧.table };

    ghost is_table = { under_is (λ v. v.0) ⟦<NewestFromB31Row as Additions>⟧.table ⟦<NewestFromB31Row as Additions>⟧.is_table };
}

impl SlottedAdditions for NewestFromB31 {
    ghost use Rattle.std.proofs.Common.{ap};

    type Slots = NewestFromB31Slots;

    ghost filled = { λ v. record { 0 = ⟦<NewestFromB31Row as SlottedAdditions>⟧.filled v.0 } };

    ghost filled_once = { λ v w e. ap (λ z. record { 0 = z }) (⟦<NewestFromB31Row as SlottedAdditions>⟧.filled_once v.0 w.0 (ap (λ z. z.0) e)) };

    #[inline(always)]
    fn empty() -> Self::Slots {
        NewestFromB31Slots(NewestFromB31Row::empty())
    }

    #[inline(always)]
    fn taken(slots: Self::Slots) -> Self::More {
        let NewestFromB31Slots(slots) = slots;
        NewestFromB31Values(NewestFromB31Row::taken(slots))
    }
}

impl ReadsAdditions for NewestFromB31 {
    ghost Refuses = { ⟦<NewestFromB31Row as ReadsAdditions>⟧.Refuses };

    #[inline(always)]
    fn read_additions(
        alloc: Global,
        decoder: &mut Decoder<'_>,
        slots: &mut Self::Slots,
    ) -> Result<(), DecodeError> {
        <NewestFromB31Row as ReadsAdditions>::read_additions(alloc, decoder, &mut slots.0)
    }
}

impl<'v> AdditionViews<'v> for NewestFromB31 {
    type MoreView = NewestFromB31View<'v>;

    ghost seen = { λ v. record { 0 = ⟦<NewestFromB31Row as AdditionViews<'v>>⟧.seen v.0 } };

    #[inline(always)]
    fn write_additions(
        view: &Self::MoreView,
        encoder: &mut Encoder<'_>,
    ) -> Result<(), EncodeError> {
        NewestFromB31Row::write_additions(&view.0, encoder)
    }
}

impl Rowed for NewestComponents {
    ghost use Rattle.rasn_oer.specs.Values.{both};

    type Values = <NewestRow as Components>::Values;

    ghost EXTENSIBLE = { ⟦<NewestRow as Components>⟧.EXTENSIBLE };

    const EXTENSIBLE: bool = true;

    ghost row_schema = { ⟦<NewestRow as Components>⟧.schema };

    ghost row_is_schema = { ⟦<NewestRow as Components>⟧.is_schema };

    ghost components = { λ v. both v.b1 (both v.b2 (both v.b3 (both v.b4 (both v.b5 (both v.b6 (both v.b7 (both v.b8 (both v.b9 (both v.b10 (both v.b11 (both v.b12 (both v.b13 (both v.b14 (both v.b15 (both v.b16 (both v.b17 (both v.b18 (both v.b19 (both v.b20 (both v.b21 (both v.b22 (both v.b23 (both v.b24 (both v.b25 (both v.b26 (both v.b27 (both v.b28 (both v.b29 (both v.b30 (record { 0 = both v.b31 tt })))))))))))))))))))))))))))))) };

    fn from_row(row: Self::Values) -> Self {
        built![NewestComponents from row:
            b1,
            b2,
            b3,
            b4,
            b5,
            b6,
            b7,
            b8,
            b9,
            b10,
            b11,
            b12,
            b13,
            b14,
            b15,
            b16,
            b17,
            b18,
            b19,
            b20,
            b21,
            b22,
            b23,
            b24,
            b25,
            b26,
            b27,
            b28,
            b29,
            b30;
            NewestFromB31Values NewestFromB31View:
            b31
        ]
    }
}

impl Takes for NewestComponents {
    ghost Refuses = { ⟦<NewestRow as Reads>⟧.Refuses };

    #[inline(always)]
    fn take(alloc: Global, decoder: &mut Decoder<'_>) -> Result<Self, DecodeError> {
        read_row::<Self, NewestRow>(alloc, decoder)
    }
}

impl Tabled<0, 31> for NewestComponents {
    ghost use Rattle.std.specs.Prelude.{refl};

    const FIELDS: Fields<0> = Fields { fields: &[] };

    const EXTENDED_FIELDS: Option<Fields<31>> = Some(Fields {
        fields: fields![
            0 Optional Context 0 "b1",
            1 Optional Context 1 "b2",
            2 Optional Context 2 "b3",
            3 Optional Context 3 "b4",
            4 Optional Context 4 "b5",
            5 Optional Context 5 "b6",
            6 Optional Context 6 "b7",
            7 Optional Context 7 "b8",
            8 Optional Context 8 "b9",
            9 Optional Context 9 "b10",
            10 Optional Context 10 "b11",
            11 Optional Context 11 "b12",
            12 Optional Context 12 "b13",
            13 Optional Context 13 "b14",
            14 Optional Context 14 "b15",
            15 Optional Context 15 "b16",
            16 Optional Context 16 "b17",
            17 Optional Context 17 "b18",
            18 Optional Context 18 "b19",
            19 Optional Context 19 "b20",
            20 Optional Context 20 "b21",
            21 Optional Context 21 "b22",
            22 Optional Context 22 "b23",
            23 Optional Context 23 "b24",
            24 Optional Context 24 "b25",
            25 Optional Context 25 "b26",
            26 Optional Context 26 "b27",
            27 Optional Context 27 "b28",
            28 Optional Context 28 "b29",
            29 Optional Context 29 "b30",
            30 Optional Context 30 "b31"
        ],
    });

    fn root_fields() -> &'static [Field<'static>] {
        Self::FIELDS.fields
    }

    fn addition_fields() -> &'static [Field<'static>] {
        rows_of!(Self::EXTENDED_FIELDS)
    }

    #[inline(always)]
    fn put(&self, encoder: &mut Encoder<'_>) -> Result<(), EncodeError> {
        let view = views![self:
            b1,
            b2,
            b3,
            b4,
            b5,
            b6,
            b7,
            b8,
            b9,
            b10,
            b11,
            b12,
            b13,
            b14,
            b15,
            b16,
            b17,
            b18,
            b19,
            b20,
            b21,
            b22,
            b23,
            b24,
            b25,
            b26,
            b27,
            b28,
            b29,
            b30;
            NewestFromB31Values NewestFromB31View:
            b31
        ];
        NewestRow::write(&view, encoder)
    }

    ghost counts = { (refl, refl) };
}

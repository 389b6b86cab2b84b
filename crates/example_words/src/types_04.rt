//! Types of ASN.1 modules, as oergen printed them.

use rasn_oer::prelude::*;
use std::alloc::{AllocError, Global};

/// The default 0 of `DefaultAndOptionalA`.
pub struct DefaultAndOptionalADefault;

impl DefaultValue<Integer> for DefaultAndOptionalADefault {
    ghost use Rattle.std.specs.Prelude.{negsuc, pos, refl};
    ghost use Rattle.rasn_oer.specs.Spelled.{integers_same};

    ghost value = { (pos 0) };

    fn value(_alloc: Global) -> Result<Integer, AllocError> {
        Ok(Integer::from_i128(0))
    }

    fn is_value(other: &Integer) -> bool {
        *other == Integer::from_i128(0)
    }

    ghost admitted = { refl };

    ghost decides = { λ c k v i. integers_same c v _ };
}

/// `DefaultAndOptional ::= SEQUENCE { a INTEGER DEFAULT 0, b INTEGER OPTIONAL }`
pub type DefaultAndOptional = Sequence<DefaultAndOptionalComponents, 2, 0>;

pub use default_and_optional_components::DefaultAndOptional as DefaultAndOptionalComponents;

mod default_and_optional_components {
    use super::*;

    /// The components of `DefaultAndOptional`.
    #[derive(Debug, PartialEq, Eq, Drop)]
    pub struct DefaultAndOptional {
        pub a: Integer,
        pub b: Option<Integer>,
    }
}

type DefaultAndOptionalRow = Defaulted<
    Context<0>,
    Integer,
    DefaultAndOptionalADefault,
    Optional<Context<1>, Integer, End>,
>;

impl Rowed for DefaultAndOptionalComponents {
    ghost use Rattle.rasn_oer.specs.Values.{both};

    type Values = <DefaultAndOptionalRow as Components>::Values;

    ghost EXTENSIBLE = { ⟦<DefaultAndOptionalRow as Components>⟧.EXTENSIBLE };

    const EXTENSIBLE: bool = false;

    ghost row_schema = { ⟦<DefaultAndOptionalRow as Components>⟧.schema };

    ghost row_is_schema = { ⟦<DefaultAndOptionalRow as Components>⟧.is_schema };

    ghost components = { λ v. both v.a (both v.b tt) };

    fn from_row(row: Self::Values) -> Self {
        built![DefaultAndOptionalComponents from row:
            a,
            b
        ]
    }
}

impl Takes for DefaultAndOptionalComponents {
    ghost Refuses = { ⟦<DefaultAndOptionalRow as Reads>⟧.Refuses };

    #[inline(always)]
    fn take(alloc: Global, decoder: &mut Decoder<'_>) -> Result<Self, DecodeError> {
        read_row::<Self, DefaultAndOptionalRow>(alloc, decoder)
    }
}

impl Tabled<2, 0> for DefaultAndOptionalComponents {
    ghost use Rattle.std.specs.Prelude.{refl};

    const FIELDS: Fields<2> = Fields {
        fields: fields![
            0 Default Context 0 "a",
            1 Optional Context 1 "b"
        ],
    };

    const EXTENDED_FIELDS: Option<Fields<0>> = None;

    fn root_fields() -> &'static [Field<'static>] {
        Self::FIELDS.fields
    }

    fn addition_fields() -> &'static [Field<'static>] {
        rows_of!(Self::EXTENDED_FIELDS)
    }

    #[inline(always)]
    fn put(&self, encoder: &mut Encoder<'_>) -> Result<(), EncodeError> {
        let view = views![self:
            a,
            b
        ];
        DefaultAndOptionalRow::write(&view, encoder)
    }

    ghost counts = { (refl, refl) };
}

/// The default 0 of `AllDefaultA`.
pub struct AllDefaultADefault;

impl DefaultValue<Integer> for AllDefaultADefault {
    ghost use Rattle.std.specs.Prelude.{negsuc, pos, refl};
    ghost use Rattle.rasn_oer.specs.Spelled.{integers_same};

    ghost value = { (pos 0) };

    fn value(_alloc: Global) -> Result<Integer, AllocError> {
        Ok(Integer::from_i128(0))
    }

    fn is_value(other: &Integer) -> bool {
        *other == Integer::from_i128(0)
    }

    ghost admitted = { refl };

    ghost decides = { λ c k v i. integers_same c v _ };
}

/// The default 1 of `AllDefaultB`.
pub struct AllDefaultBDefault;

impl DefaultValue<Integer> for AllDefaultBDefault {
    ghost use Rattle.std.specs.Prelude.{negsuc, pos, refl};
    ghost use Rattle.rasn_oer.specs.Spelled.{integers_same};

    ghost value = { (pos 1) };

    fn value(_alloc: Global) -> Result<Integer, AllocError> {
        Ok(Integer::from_i128(1))
    }

    fn is_value(other: &Integer) -> bool {
        *other == Integer::from_i128(1)
    }

    ghost admitted = { refl };

    ghost decides = { λ c k v i. integers_same c v _ };
}

/// `AllDefault ::= SEQUENCE { a INTEGER DEFAULT 0, b INTEGER DEFAULT 1 }`
pub type AllDefault = Sequence<AllDefaultComponents, 2, 0>;

pub use all_default_components::AllDefault as AllDefaultComponents;

mod all_default_components {
    use super::*;

    /// The components of `AllDefault`.
    #[derive(Debug, PartialEq, Eq, Drop)]
    pub struct AllDefault {
        pub a: Integer,
        pub b: Integer,
    }
}

type AllDefaultRow = Defaulted<
    Context<0>,
    Integer,
    AllDefaultADefault,
    Defaulted<Context<1>, Integer, AllDefaultBDefault, End>,
>;

impl Rowed for AllDefaultComponents {
    ghost use Rattle.rasn_oer.specs.Values.{both};

    type Values = <AllDefaultRow as Components>::Values;

    ghost EXTENSIBLE = { ⟦<AllDefaultRow as Components>⟧.EXTENSIBLE };

    const EXTENSIBLE: bool = false;

    ghost row_schema = { ⟦<AllDefaultRow as Components>⟧.schema };

    ghost row_is_schema = { ⟦<AllDefaultRow as Components>⟧.is_schema };

    ghost components = { λ v. both v.a (both v.b tt) };

    fn from_row(row: Self::Values) -> Self {
        built![AllDefaultComponents from row:
            a,
            b
        ]
    }
}

impl Takes for AllDefaultComponents {
    ghost Refuses = { ⟦<AllDefaultRow as Reads>⟧.Refuses };

    #[inline(always)]
    fn take(alloc: Global, decoder: &mut Decoder<'_>) -> Result<Self, DecodeError> {
        read_row::<Self, AllDefaultRow>(alloc, decoder)
    }
}

impl Tabled<2, 0> for AllDefaultComponents {
    ghost use Rattle.std.specs.Prelude.{refl};

    const FIELDS: Fields<2> = Fields {
        fields: fields![
            0 Default Context 0 "a",
            1 Default Context 1 "b"
        ],
    };

    const EXTENDED_FIELDS: Option<Fields<0>> = None;

    fn root_fields() -> &'static [Field<'static>] {
        Self::FIELDS.fields
    }

    fn addition_fields() -> &'static [Field<'static>] {
        rows_of!(Self::EXTENDED_FIELDS)
    }

    #[inline(always)]
    fn put(&self, encoder: &mut Encoder<'_>) -> Result<(), EncodeError> {
        let view = views![self:
            a,
            b
        ];
        AllDefaultRow::write(&view, encoder)
    }

    ghost counts = { (refl, refl) };
}

/// `AllOptional ::= SEQUENCE { a INTEGER OPTIONAL, b INTEGER OPTIONAL }`
pub type AllOptional = Sequence<AllOptionalComponents, 2, 0>;

pub use all_optional_components::AllOptional as AllOptionalComponents;

mod all_optional_components {
    use super::*;

    /// The components of `AllOptional`.
    #[derive(Debug, PartialEq, Eq, Drop)]
    pub struct AllOptional {
        pub a: Option<Integer>,
        pub b: Option<Integer>,
    }
}

type AllOptionalRow = Optional<Context<0>, Integer, Optional<Context<1>, Integer, End>>;

impl Rowed for AllOptionalComponents {
    ghost use Rattle.rasn_oer.specs.Values.{both};

    type Values = <AllOptionalRow as Components>::Values;

    ghost EXTENSIBLE = { ⟦<AllOptionalRow as Components>⟧.EXTENSIBLE };

    const EXTENSIBLE: bool = false;

    ghost row_schema = { ⟦<AllOptionalRow as Components>⟧.schema };

    ghost row_is_schema = { ⟦<AllOptionalRow as Components>⟧.is_schema };

    ghost components = { λ v. both v.a (both v.b tt) };

    fn from_row(row: Self::Values) -> Self {
        built![AllOptionalComponents from row:
            a,
            b
        ]
    }
}

impl Takes for AllOptionalComponents {
    ghost Refuses = { ⟦<AllOptionalRow as Reads>⟧.Refuses };

    #[inline(always)]
    fn take(alloc: Global, decoder: &mut Decoder<'_>) -> Result<Self, DecodeError> {
        read_row::<Self, AllOptionalRow>(alloc, decoder)
    }
}

impl Tabled<2, 0> for AllOptionalComponents {
    ghost use Rattle.std.specs.Prelude.{refl};

    const FIELDS: Fields<2> = Fields {
        fields: fields![
            0 Optional Context 0 "a",
            1 Optional Context 1 "b"
        ],
    };

    const EXTENDED_FIELDS: Option<Fields<0>> = None;

    fn root_fields() -> &'static [Field<'static>] {
        Self::FIELDS.fields
    }

    fn addition_fields() -> &'static [Field<'static>] {
        rows_of!(Self::EXTENDED_FIELDS)
    }

    #[inline(always)]
    fn put(&self, encoder: &mut Encoder<'_>) -> Result<(), EncodeError> {
        let view = views![self:
            a,
            b
        ];
        AllOptionalRow::write(&view, encoder)
    }

    ghost counts = { (refl, refl) };
}

/// `ManyOptional ::= SEQUENCE { value INTEGER, integer1 INTEGER OPTIONAL, octet1 OCTET STRING OPTIONAL,
/// integer2 INTEGER OPTIONAL, octet2 OCTET STRING OPTIONAL, integer3 INTEGER OPTIONAL, octet3 OCTET
/// STRING OPTIONAL, integer4 INTEGER OPTIONAL, integer5 INTEGER OPTIONAL, integer6 INTEGER OPTIONAL,
/// integer7 INTEGER OPTIONAL, integer8 INTEGER OPTIONAL, integer9 INTEGER OPTIONAL }`
pub type ManyOptional = Sequence<ManyOptionalComponents, 13, 0>;

pub use many_optional_components::ManyOptional as ManyOptionalComponents;

mod many_optional_components {
    use super::*;

    /// The components of `ManyOptional`.
    #[derive(Debug, PartialEq, Eq, Drop)]
    pub struct ManyOptional {
        pub value: Integer,
        pub integer1: Option<Integer>,
        pub octet1: Option<Octets>,
        pub integer2: Option<Integer>,
        pub octet2: Option<Octets>,
        pub integer3: Option<Integer>,
        pub octet3: Option<Octets>,
        pub integer4: Option<Integer>,
        pub integer5: Option<Integer>,
        pub integer6: Option<Integer>,
        pub integer7: Option<Integer>,
        pub integer8: Option<Integer>,
        pub integer9: Option<Integer>,
    }
}

type ManyOptionalRow = Required<
    Context<0>,
    Integer,
    Optional<
        Context<1>,
        Integer,
        Optional<
            Context<2>,
            Octets,
            Optional<Context<3>, Integer, Optional<Context<4>, Octets, ManyOptionalFromInteger3>>,
        >,
    >,
>;

/// The components of `ManyOptional` from `integer3` on.
pub struct ManyOptionalFromInteger3;

type ManyOptionalFromInteger3Row = Optional<
    Context<5>,
    Integer,
    Optional<
        Context<6>,
        Octets,
        Optional<
            Context<7>,
            Integer,
            Optional<Context<8>, Integer, Optional<Context<9>, Integer, ManyOptionalFromInteger7>>,
        >,
    >,
>;

impl Components for ManyOptionalFromInteger3 {
    type Values = <ManyOptionalFromInteger3Row as Components>::Values;

    ghost EXTENSIBLE = { ⟦<ManyOptionalFromInteger3Row as Components>⟧.EXTENSIBLE };

    const EXTENSIBLE: bool = false;

    ghost schema = { ⟦<ManyOptionalFromInteger3Row as Components>⟧.schema };

    ghost is_schema = { ⟦<ManyOptionalFromInteger3Row as Components>⟧.is_schema };
}

impl Slotted for ManyOptionalFromInteger3 {
    type Slots = <ManyOptionalFromInteger3Row as Slotted>::Slots;

    ghost filled = { ⟦<ManyOptionalFromInteger3Row as Slotted>⟧.filled };

    ghost filled_once = { ⟦<ManyOptionalFromInteger3Row as Slotted>⟧.filled_once };

    #[inline(always)]
    fn empty() -> Self::Slots {
        ManyOptionalFromInteger3Row::empty()
    }

    #[inline(always)]
    fn taken(slots: Self::Slots) -> Self::Values {
        ManyOptionalFromInteger3Row::taken(slots)
    }
}

impl Reads for ManyOptionalFromInteger3 {
    ghost Refuses = { ⟦<ManyOptionalFromInteger3Row as Reads>⟧.Refuses };

    #[inline(always)]
    fn read(
        alloc: Global,
        decoder: &mut Decoder<'_>,
        slots: &mut Self::Slots,
    ) -> Result<(), DecodeError> {
        <ManyOptionalFromInteger3Row as Reads>::read(alloc, decoder, slots)
    }
}

impl<'v> Views<'v> for ManyOptionalFromInteger3 {
    type View = <ManyOptionalFromInteger3Row as Views<'v>>::View;

    ghost seen = { ⟦<ManyOptionalFromInteger3Row as Views<'v>>⟧.seen };

    #[inline(always)]
    fn write(view: &Self::View, encoder: &mut Encoder<'_>) -> Result<(), EncodeError> {
        ManyOptionalFromInteger3Row::write(view, encoder)
    }
}

/// The components of `ManyOptional` from `integer7` on.
pub struct ManyOptionalFromInteger7;

type ManyOptionalFromInteger7Row = Optional<
    Context<10>,
    Integer,
    Optional<Context<11>, Integer, Optional<Context<12>, Integer, End>>,
>;

impl Components for ManyOptionalFromInteger7 {
    type Values = <ManyOptionalFromInteger7Row as Components>::Values;

    ghost EXTENSIBLE = { ⟦<ManyOptionalFromInteger7Row as Components>⟧.EXTENSIBLE };

    const EXTENSIBLE: bool = false;

    ghost schema = { ⟦<ManyOptionalFromInteger7Row as Components>⟧.schema };

    ghost is_schema = { ⟦<ManyOptionalFromInteger7Row as Components>⟧.is_schema };
}

impl Slotted for ManyOptionalFromInteger7 {
    type Slots = <ManyOptionalFromInteger7Row as Slotted>::Slots;

    ghost filled = { ⟦<ManyOptionalFromInteger7Row as Slotted>⟧.filled };

    ghost filled_once = { ⟦<ManyOptionalFromInteger7Row as Slotted>⟧.filled_once };

    #[inline(always)]
    fn empty() -> Self::Slots {
        ManyOptionalFromInteger7Row::empty()
    }

    #[inline(always)]
    fn taken(slots: Self::Slots) -> Self::Values {
        ManyOptionalFromInteger7Row::taken(slots)
    }
}

impl Reads for ManyOptionalFromInteger7 {
    ghost Refuses = { ⟦<ManyOptionalFromInteger7Row as Reads>⟧.Refuses };

    #[inline(always)]
    fn read(
        alloc: Global,
        decoder: &mut Decoder<'_>,
        slots: &mut Self::Slots,
    ) -> Result<(), DecodeError> {
        <ManyOptionalFromInteger7Row as Reads>::read(alloc, decoder, slots)
    }
}

impl<'v> Views<'v> for ManyOptionalFromInteger7 {
    type View = <ManyOptionalFromInteger7Row as Views<'v>>::View;

    ghost seen = { ⟦<ManyOptionalFromInteger7Row as Views<'v>>⟧.seen };

    #[inline(always)]
    fn write(view: &Self::View, encoder: &mut Encoder<'_>) -> Result<(), EncodeError> {
        ManyOptionalFromInteger7Row::write(view, encoder)
    }
}

impl Rowed for ManyOptionalComponents {
    ghost use Rattle.rasn_oer.specs.Values.{both};

    type Values = <ManyOptionalRow as Components>::Values;

    ghost EXTENSIBLE = { ⟦<ManyOptionalRow as Components>⟧.EXTENSIBLE };

    const EXTENSIBLE: bool = false;

    ghost row_schema = { ⟦<ManyOptionalRow as Components>⟧.schema };

    ghost row_is_schema = { ⟦<ManyOptionalRow as Components>⟧.is_schema };

    ghost components = { λ v. both v.value (both v.integer1 (both v.octet1 (both v.integer2 (both v.octet2 (both v.integer3 (both v.octet3 (both v.integer4 (both v.integer5 (both v.integer6 (both v.integer7 (both v.integer8 (both v.integer9 tt)))))))))))) };

    fn from_row(row: Self::Values) -> Self {
        built![ManyOptionalComponents from row:
            value,
            integer1,
            octet1,
            integer2,
            octet2,
            integer3,
            octet3,
            integer4,
            integer5,
            integer6,
            integer7,
            integer8,
            integer9
        ]
    }
}

impl Takes for ManyOptionalComponents {
    ghost Refuses = { ⟦<ManyOptionalRow as Reads>⟧.Refuses };

    #[inline(always)]
    fn take(alloc: Global, decoder: &mut Decoder<'_>) -> Result<Self, DecodeError> {
        read_row::<Self, ManyOptionalRow>(alloc, decoder)
    }
}

impl Tabled<13, 0> for ManyOptionalComponents {
    ghost use Rattle.std.specs.Prelude.{refl};

    const FIELDS: Fields<13> = Fields {
        fields: fields![
            0 Required Context 0 "value",
            1 Optional Context 1 "integer1",
            2 Optional Context 2 "octet1",
            3 Optional Context 3 "integer2",
            4 Optional Context 4 "octet2",
            5 Optional Context 5 "integer3",
            6 Optional Context 6 "octet3",
            7 Optional Context 7 "integer4",
            8 Optional Context 8 "integer5",
            9 Optional Context 9 "integer6",
            10 Optional Context 10 "integer7",
            11 Optional Context 11 "integer8",
            12 Optional Context 12 "integer9"
        ],
    };

    const EXTENDED_FIELDS: Option<Fields<0>> = None;

    fn root_fields() -> &'static [Field<'static>] {
        Self::FIELDS.fields
    }

    fn addition_fields() -> &'static [Field<'static>] {
        rows_of!(Self::EXTENDED_FIELDS)
    }

    #[inline(always)]
    fn put(&self, encoder: &mut Encoder<'_>) -> Result<(), EncodeError> {
        let view = views![self:
            value,
            integer1,
            octet1,
            integer2,
            octet2,
            integer3,
            octet3,
            integer4,
            integer5,
            integer6,
            integer7,
            integer8,
            integer9
        ];
        ManyOptionalRow::write(&view, encoder)
    }

    ghost counts = { (refl, refl) };
}

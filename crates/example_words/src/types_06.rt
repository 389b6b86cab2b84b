//! Types of ASN.1 modules, as oergen printed them.

use rasn_oer::prelude::*;
use std::alloc::{AllocError, Global};

/// `ExtendedOptional ::= SEQUENCE { value INTEGER, integer1 INTEGER OPTIONAL, octet1 OCTET STRING OPTIONAL,
/// integer2 INTEGER OPTIONAL, octet2 OCTET STRING OPTIONAL, integer3 INTEGER OPTIONAL, octet3 OCTET
/// STRING OPTIONAL, ..., integer4 INTEGER OPTIONAL, octet4 OCTET STRING OPTIONAL, integer5 INTEGER
/// OPTIONAL, octet5 OCTET STRING OPTIONAL }`
pub type ExtendedOptional = Sequence<ExtendedOptionalComponents, 7, 4>;

pub use extended_optional_components::ExtendedOptional as ExtendedOptionalComponents;

mod extended_optional_components {
    use super::*;

    /// The components of `ExtendedOptional`.
    #[derive(Debug, PartialEq, Eq, Drop)]
    pub struct ExtendedOptional {
        pub value: Integer,
        pub integer1: Option<Integer>,
        pub octet1: Option<Octets>,
        pub integer2: Option<Integer>,
        pub octet2: Option<Octets>,
        pub integer3: Option<Integer>,
        pub octet3: Option<Octets>,
        pub integer4: Option<Integer>,
        pub octet4: Option<Octets>,
        pub integer5: Option<Integer>,
        pub octet5: Option<Octets>,
    }
}

type ExtendedOptionalRow = Required<
    Context<0>,
    Integer,
    Optional<
        Context<1>,
        Integer,
        Optional<
            Context<2>,
            Octets,
            Optional<
                Context<3>,
                Integer,
                Optional<Context<4>, Octets, ExtendedOptionalFromInteger3>,
            >,
        >,
    >,
>;

/// The components of `ExtendedOptional` from `integer3` on.
pub struct ExtendedOptionalFromInteger3;

type ExtendedOptionalFromInteger3Row = Optional<
    Context<5>,
    Integer,
    Optional<Context<6>, Octets, Extensible<ExtendedOptionalAdditions>>,
>;

impl Components for ExtendedOptionalFromInteger3 {
    type Values = <ExtendedOptionalFromInteger3Row as Components>::Values;

    ghost EXTENSIBLE = { ⟦<ExtendedOptionalFromInteger3Row as Components>⟧.EXTENSIBLE };

    const EXTENSIBLE: bool = true;

    ghost schema = { ⟦<ExtendedOptionalFromInteger3Row as Components>⟧.schema };

    ghost is_schema = { ⟦<ExtendedOptionalFromInteger3Row as Components>⟧.is_schema };
}

impl Slotted for ExtendedOptionalFromInteger3 {
    type Slots = <ExtendedOptionalFromInteger3Row as Slotted>::Slots;

    ghost filled = { ⟦<ExtendedOptionalFromInteger3Row as Slotted>⟧.filled };

    ghost filled_once = { ⟦<ExtendedOptionalFromInteger3Row as Slotted>⟧.filled_once };

    #[inline(always)]
    fn empty() -> Self::Slots {
        ExtendedOptionalFromInteger3Row::empty()
    }

    #[inline(always)]
    fn taken(slots: Self::Slots) -> Self::Values {
        ExtendedOptionalFromInteger3Row::taken(slots)
    }
}

impl Reads for ExtendedOptionalFromInteger3 {
    ghost Refuses = { ⟦<ExtendedOptionalFromInteger3Row as Reads>⟧.Refuses };

    #[inline(always)]
    fn read(
        alloc: Global,
        decoder: &mut Decoder<'_>,
        slots: &mut Self::Slots,
    ) -> Result<(), DecodeError> {
        <ExtendedOptionalFromInteger3Row as Reads>::read(alloc, decoder, slots)
    }
}

impl<'v> Views<'v> for ExtendedOptionalFromInteger3 {
    type View = <ExtendedOptionalFromInteger3Row as Views<'v>>::View;

    ghost seen = { ⟦<ExtendedOptionalFromInteger3Row as Views<'v>>⟧.seen };

    #[inline(always)]
    fn write(view: &Self::View, encoder: &mut Encoder<'_>) -> Result<(), EncodeError> {
        ExtendedOptionalFromInteger3Row::write(view, encoder)
    }
}

type ExtendedOptionalAdditions = OptionalAddition<
    Context<7>,
    Integer,
    OptionalAddition<
        Context<8>,
        Octets,
        OptionalAddition<Context<9>, Integer, OptionalAddition<Context<10>, Octets, End>>,
    >,
>;

impl Rowed for ExtendedOptionalComponents {
    ghost use Rattle.rasn_oer.specs.Values.{both};

    type Values = <ExtendedOptionalRow as Components>::Values;

    ghost EXTENSIBLE = { ⟦<ExtendedOptionalRow as Components>⟧.EXTENSIBLE };

    const EXTENSIBLE: bool = true;

    ghost row_schema = { ⟦<ExtendedOptionalRow as Components>⟧.schema };

    ghost row_is_schema = { ⟦<ExtendedOptionalRow as Components>⟧.is_schema };

    ghost components = { λ v. both v.value (both v.integer1 (both v.octet1 (both v.integer2 (both v.octet2 (both v.integer3 (both v.octet3 (both v.integer4 (both v.octet4 (both v.integer5 (both v.octet5 tt)))))))))) };

    fn from_row(row: Self::Values) -> Self {
        built![ExtendedOptionalComponents from row:
            value,
            integer1,
            octet1,
            integer2,
            octet2,
            integer3,
            octet3,
            integer4,
            octet4,
            integer5,
            octet5
        ]
    }
}

impl Takes for ExtendedOptionalComponents {
    ghost Refuses = { ⟦<ExtendedOptionalRow as Reads>⟧.Refuses };

    #[inline(always)]
    fn take(alloc: Global, decoder: &mut Decoder<'_>) -> Result<Self, DecodeError> {
        read_row::<Self, ExtendedOptionalRow>(alloc, decoder)
    }
}

impl Tabled<7, 4> for ExtendedOptionalComponents {
    ghost use Rattle.std.specs.Prelude.{refl};

    const FIELDS: Fields<7> = Fields {
        fields: fields![
            0 Required Context 0 "value",
            1 Optional Context 1 "integer1",
            2 Optional Context 2 "octet1",
            3 Optional Context 3 "integer2",
            4 Optional Context 4 "octet2",
            5 Optional Context 5 "integer3",
            6 Optional Context 6 "octet3"
        ],
    };

    const EXTENDED_FIELDS: Option<Fields<4>> = Some(Fields {
        fields: fields![
            0 Optional Context 7 "integer4",
            1 Optional Context 8 "octet4",
            2 Optional Context 9 "integer5",
            3 Optional Context 10 "octet5"
        ],
    });

    fn root_fields() -> &'static [Field<'static>] {
        Self::FIELDS.fields
    }

    fn addition_fields() -> &'static [Field<'static>] {
        rows_of!(Self::EXTENDED_FIELDS)
    }

    #[inline(always)]
    fn put(&self, encoder: &mut Encoder<'_>) -> Result<(), EncodeError> {
        let view = views![self:
            value,
            integer1,
            octet1,
            integer2,
            octet2,
            integer3,
            octet3,
            integer4,
            octet4,
            integer5,
            octet5
        ];
        ExtendedOptionalRow::write(&view, encoder)
    }

    ghost counts = { (refl, refl) };
}

/// `Foo ::= SET { a [444] INTEGER OPTIONAL, b [5] INTEGER OPTIONAL, c [APPLICATION 9] INTEGER
/// OPTIONAL }`
pub type Foo = Set<FooComponents, 3, 0>;

pub use foo_components::Foo as FooComponents;

mod foo_components {
    use super::*;

    /// The components of `Foo`.
    #[derive(Debug, PartialEq, Eq, Drop)]
    pub struct Foo {
        pub a: Option<Integer>,
        pub b: Option<Integer>,
        pub c: Option<Integer>,
    }
}

type FooRow = Optional<
    Application<9>,
    Integer,
    Optional<Context<5>, Integer, Optional<Context<444>, Integer, End>>,
>;

impl Rowed for FooComponents {
    ghost use Rattle.rasn_oer.specs.Values.{both};

    type Values = <FooRow as Components>::Values;

    ghost EXTENSIBLE = { ⟦<FooRow as Components>⟧.EXTENSIBLE };

    const EXTENSIBLE: bool = false;

    ghost row_schema = { ⟦<FooRow as Components>⟧.schema };

    ghost row_is_schema = { ⟦<FooRow as Components>⟧.is_schema };

    ghost components = { λ v. both v.c (both v.b (both v.a tt)) };

    fn from_row(row: Self::Values) -> Self {
        built![FooComponents from row:
            c,
            b,
            a
        ]
    }
}

impl Takes for FooComponents {
    ghost Refuses = { ⟦<FooRow as Reads>⟧.Refuses };

    #[inline(always)]
    fn take(alloc: Global, decoder: &mut Decoder<'_>) -> Result<Self, DecodeError> {
        read_row::<Self, FooRow>(alloc, decoder)
    }
}

impl Tabled<3, 0> for FooComponents {
    ghost use Rattle.std.specs.Prelude.{refl};

    const FIELDS: Fields<3> = Fields {
        fields: fields![
            0 Optional Application 9 "c",
            1 Optional Context 5 "b",
            2 Optional Context 444 "a"
        ],
    };

    const EXTENDED_FIELDS: Option<Fields<0>> = None;

    fn root_fields() -> &'static [Field<'static>] {
        Self::FIELDS.fields
    }

    fn addition_fields() -> &'static [Field<'static>] {
        rows_of!(Self::EXTENDED_FIELDS)
    }

    #[inline(always)]
    fn put(&self, encoder: &mut Encoder<'_>) -> Result<(), EncodeError> {
        let view = views![self:
            c,
            b,
            a
        ];
        FooRow::write(&view, encoder)
    }

    ghost counts = { (refl, refl) };
}

const FOO_IN_TEXT_ORDER: &'static [Field<'static>] = fields![
    0 Optional Context 444 "a",
    1 Optional Context 5 "b",
    2 Optional Application 9 "c"
];

impl TextOrder for FooComponents {
    ghost use Rattle.std.specs.Prelude.{[], ◌∷◌};

    ghost places = { 2 ∷ 1 ∷ 0 ∷ [] };
}

impl InTagOrder<3, 0> for FooComponents {
    ghost use Rattle.std.specs.Prelude.{refl};

    ghost in_order = { refl };

    const SET_FIELDS: Fields<3> = Fields {
        fields: FOO_IN_TEXT_ORDER,
    };

    fn text_fields() -> &'static [Field<'static>] {
        Self::SET_FIELDS.fields
    }
}

/// The default 0 of `MixedSetZ`.
pub struct MixedSetZDefault;

impl DefaultValue<Integer> for MixedSetZDefault {
    ghost use Rattle.std.specs.Prelude.{negsuc, pos, refl};
    ghost use Rattle.rasn_oer.specs.Spelled.{integers_same};

    ghost value = { (pos 0) };

    fn value(_alloc: Global) -> Result<Integer, AllocError> {
        Ok(Integer::from_i128(0))
    }

    fn is_value(other: &Integer) -> bool {
        *other == Integer::from_i128(0)
    }

    ghost admitted = { refl };

    ghost decides = { λ c k v i. integers_same c v _ };
}

/// `MixedSet ::= SET { x [2] BOOLEAN, y [1] INTEGER OPTIONAL, z [APPLICATION 1] INTEGER DEFAULT 0,
/// ..., n [0] BOOLEAN OPTIONAL }`
pub type MixedSet = Set<MixedSetComponents, 3, 1>;

pub use mixed_set_components::MixedSet as MixedSetComponents;

mod mixed_set_components {
    use super::*;

    /// The components of `MixedSet`.
    #[derive(Debug, PartialEq, Eq, Drop)]
    pub struct MixedSet {
        pub x: bool,
        pub y: Option<Integer>,
        pub z: Integer,
        pub n: Option<bool>,
    }
}

type MixedSetRow = Defaulted<
    Application<1>,
    Integer,
    MixedSetZDefault,
    Optional<Context<1>, Integer, Required<Context<2>, bool, Extensible<MixedSetAdditions>>>,
>;

type MixedSetAdditions = OptionalAddition<Context<0>, bool, End>;

impl Rowed for MixedSetComponents {
    ghost use Rattle.rasn_oer.specs.Values.{both};

    type Values = <MixedSetRow as Components>::Values;

    ghost EXTENSIBLE = { ⟦<MixedSetRow as Components>⟧.EXTENSIBLE };

    const EXTENSIBLE: bool = true;

    ghost row_schema = { ⟦<MixedSetRow as Components>⟧.schema };

    ghost row_is_schema = { ⟦<MixedSetRow as Components>⟧.is_schema };

    ghost components = { λ v. both v.z (both v.y (both v.x (both v.n tt))) };

    fn from_row(row: Self::Values) -> Self {
        built![MixedSetComponents from row:
            z,
            y,
            x,
            n
        ]
    }
}

impl Takes for MixedSetComponents {
    ghost Refuses = { ⟦<MixedSetRow as Reads>⟧.Refuses };

    #[inline(always)]
    fn take(alloc: Global, decoder: &mut Decoder<'_>) -> Result<Self, DecodeError> {
        read_row::<Self, MixedSetRow>(alloc, decoder)
    }
}

impl Tabled<3, 1> for MixedSetComponents {
    ghost use Rattle.std.specs.Prelude.{refl};

    const FIELDS: Fields<3> = Fields {
        fields: fields![
            0 Default Application 1 "z",
            1 Optional Context 1 "y",
            2 Required Context 2 "x"
        ],
    };

    const EXTENDED_FIELDS: Option<Fields<1>> = Some(Fields {
        fields: fields![
            0 Optional Context 0 "n"
        ],
    });

    fn root_fields() -> &'static [Field<'static>] {
        Self::FIELDS.fields
    }

    fn addition_fields() -> &'static [Field<'static>] {
        rows_of!(Self::EXTENDED_FIELDS)
    }

    #[inline(always)]
    fn put(&self, encoder: &mut Encoder<'_>) -> Result<(), EncodeError> {
        let view = views![self:
            z,
            y,
            x,
            n
        ];
        MixedSetRow::write(&view, encoder)
    }

    ghost counts = { (refl, refl) };
}

const MIXEDSET_IN_TEXT_ORDER: &'static [Field<'static>] = fields![
    0 Required Context 2 "x",
    1 Optional Context 1 "y",
    2 Default Application 1 "z"
];

impl TextOrder for MixedSetComponents {
    ghost use Rattle.std.specs.Prelude.{[], ◌∷◌};

    ghost places = { 2 ∷ 1 ∷ 0 ∷ [] };
}

impl InTagOrder<3, 1> for MixedSetComponents {
    ghost use Rattle.std.specs.Prelude.{refl};

    ghost in_order = { refl };

    const SET_FIELDS: Fields<3> = Fields {
        fields: MIXEDSET_IN_TEXT_ORDER,
    };

    fn text_fields() -> &'static [Field<'static>] {
        Self::SET_FIELDS.fields
    }
}

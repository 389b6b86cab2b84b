//! Types of ASN.1 modules, as oergen printed them.

use rasn_oer::prelude::*;
use std::alloc::{AllocError, Global};

/// `EmptyExtensible ::= SEQUENCE { ... }`
pub type EmptyExtensible = Sequence<EmptyExtensibleComponents, 0, 0>;

pub use empty_extensible_components::EmptyExtensible as EmptyExtensibleComponents;

mod empty_extensible_components {
    use super::*;

    /// The components of `EmptyExtensible`.
    #[derive(Debug, PartialEq, Eq, Drop)]
    pub struct EmptyExtensible {}
}

type EmptyExtensibleRow = Extensible<End>;

impl Rowed for EmptyExtensibleComponents {
    type Values = <EmptyExtensibleRow as Components>::Values;

    ghost EXTENSIBLE = { ⟦<EmptyExtensibleRow as Components>⟧.EXTENSIBLE };

    const EXTENSIBLE: bool = true;

    ghost row_schema = { ⟦<EmptyExtensibleRow as Components>⟧.schema };

    ghost row_is_schema = { ⟦<EmptyExtensibleRow as Components>⟧.is_schema };

    ghost components = { λ v. tt };

    fn from_row(row: Self::Values) -> Self {
        built![EmptyExtensibleComponents from row:

        ]
    }
}

impl Takes for EmptyExtensibleComponents {
    ghost Refuses = { ⟦<EmptyExtensibleRow as Reads>⟧.Refuses };

    #[inline(always)]
    fn take(alloc: Global, decoder: &mut Decoder<'_>) -> Result<Self, DecodeError> {
        read_row::<Self, EmptyExtensibleRow>(alloc, decoder)
    }
}

impl Tabled<0, 0> for EmptyExtensibleComponents {
    ghost use Rattle.std.specs.Prelude.{refl};

    const FIELDS: Fields<0> = Fields { fields: &[] };

    const EXTENDED_FIELDS: Option<Fields<0>> = Some(Fields { fields: &[] });

    fn root_fields() -> &'static [Field<'static>] {
        Self::FIELDS.fields
    }

    fn addition_fields() -> &'static [Field<'static>] {
        rows_of!(Self::EXTENDED_FIELDS)
    }

    #[inline(always)]
    fn put(&self, encoder: &mut Encoder<'_>) -> Result<(), EncodeError> {
        let view = views![self:

        ];
        EmptyExtensibleRow::write(&view, encoder)
    }

    ghost counts = { (refl, refl) };
}

/// `Sequence2 ::= SEQUENCE { a BOOLEAN, ..., b BOOLEAN OPTIONAL, c BOOLEAN OPTIONAL }`
pub type Sequence2 = Sequence<Sequence2Components, 1, 2>;

pub use sequence2_components::Sequence2 as Sequence2Components;

mod sequence2_components {
    use super::*;

    /// The components of `Sequence2`.
    #[derive(Debug, PartialEq, Eq, Drop)]
    pub struct Sequence2 {
        pub a: bool,
        pub b: Option<bool>,
        pub c: Option<bool>,
    }
}

type Sequence2Row = Required<Context<0>, bool, Extensible<Sequence2Additions>>;

type Sequence2Additions = OptionalAddition<
    Context<1>,
    bool,
    OptionalAddition<Context<2>, bool, End>,
>;

impl Rowed for Sequence2Components {
    ghost use Rattle.rasn_oer.specs.Values.{both};

    type Values = <Sequence2Row as Components>::Values;

    ghost EXTENSIBLE = { ⟦<Sequence2Row as Components>⟧.EXTENSIBLE };

    const EXTENSIBLE: bool = true;

    ghost row_schema = { ⟦<Sequence2Row as Components>⟧.schema };

    ghost row_is_schema = { ⟦<Sequence2Row as Components>⟧.is_schema };

    ghost components = { λ v. both v.a (both v.b (both v.c tt)) };

    fn from_row(row: Self::Values) -> Self {
        built![Sequence2Components from row:
            a,
            b,
            c
        ]
    }
}

impl Takes for Sequence2Components {
    ghost Refuses = { ⟦<Sequence2Row as Reads>⟧.Refuses };

    #[inline(always)]
    fn take(alloc: Global, decoder: &mut Decoder<'_>) -> Result<Self, DecodeError> {
        read_row::<Self, Sequence2Row>(alloc, decoder)
    }
}

impl Tabled<1, 2> for Sequence2Components {
    ghost use Rattle.std.specs.Prelude.{refl};

    const FIELDS: Fields<1> = Fields {
        fields: fields![
            0 Required Context 0 "a"
        ],
    };

    const EXTENDED_FIELDS: Option<Fields<2>> = Some(Fields {
        fields: fields![
            0 Optional Context 1 "b",
            1 Optional Context 2 "c"
        ],
    });

    fn root_fields() -> &'static [Field<'static>] {
        Self::FIELDS.fields
    }

    fn addition_fields() -> &'static [Field<'static>] {
        rows_of!(Self::EXTENDED_FIELDS)
    }

    #[inline(always)]
    fn put(&self, encoder: &mut Encoder<'_>) -> Result<(), EncodeError> {
        let view = views![self:
            a,
            b,
            c
        ];
        Sequence2Row::write(&view, encoder)
    }

    ghost counts = { (refl, refl) };
}

/// `Outer ::= SEQUENCE { a BOOLEAN, ..., b Sequence2 OPTIONAL }`
pub type Outer = Sequence<OuterComponents, 1, 1>;

pub use outer_components::Outer as OuterComponents;

mod outer_components {
    use super::*;

    /// The components of `Outer`.
    #[derive(Debug, PartialEq, Eq, Drop)]
    pub struct Outer {
        pub a: bool,
        pub b: Option<Sequence2>,
    }
}

type OuterRow = Required<Context<0>, bool, Extensible<OuterAdditions>>;

type OuterAdditions = OptionalAddition<Context<1>, Sequence2, End>;

impl Rowed for OuterComponents {
    ghost use Rattle.rasn_oer.specs.Values.{both};

    type Values = <OuterRow as Components>::Values;

    ghost EXTENSIBLE = { ⟦<OuterRow as Components>⟧.EXTENSIBLE };

    const EXTENSIBLE: bool = true;

    ghost row_schema = { ⟦<OuterRow as Components>⟧.schema };

    ghost row_is_schema = { ⟦<OuterRow as Components>⟧.is_schema };

    ghost components = { λ v. both v.a (both v.b tt) };

    fn from_row(row: Self::Values) -> Self {
        built![OuterComponents from row:
            a,
            b
        ]
    }
}

impl Takes for OuterComponents {
    ghost Refuses = { ⟦<OuterRow as Reads>⟧.Refuses };

    #[inline(always)]
    fn take(alloc: Global, decoder: &mut Decoder<'_>) -> Result<Self, DecodeError> {
        read_row::<Self, OuterRow>(alloc, decoder)
    }
}

impl Tabled<1, 1> for OuterComponents {
    ghost use Rattle.std.specs.Prelude.{refl};

    const FIELDS: Fields<1> = Fields {
        fields: fields![
            0 Required Context 0 "a"
        ],
    };

    const EXTENDED_FIELDS: Option<Fields<1>> = Some(Fields {
        fields: fields![
            0 Optional Context 1 "b"
        ],
    });

    fn root_fields() -> &'static [Field<'static>] {
        Self::FIELDS.fields
    }

    fn addition_fields() -> &'static [Field<'static>] {
        rows_of!(Self::EXTENDED_FIELDS)
    }

    #[inline(always)]
    fn put(&self, encoder: &mut Encoder<'_>) -> Result<(), EncodeError> {
        let view = views![self:
            a,
            b
        ];
        OuterRow::write(&view, encoder)
    }

    ghost counts = { (refl, refl) };
}

/// `Omitted ::= SEQUENCE { a OCTET STRING OPTIONAL, ..., omitted NULL OPTIONAL }`
pub type Omitted = Sequence<OmittedComponents, 1, 1>;

pub use omitted_components::Omitted as OmittedComponents;

mod omitted_components {
    use super::*;

    /// The components of `Omitted`.
    #[derive(Debug, PartialEq, Eq, Drop)]
    pub struct Omitted {
        pub a: Option<Octets>,
        pub omitted: Option<()>,
    }
}

type OmittedRow = Optional<Context<0>, Octets, Extensible<OmittedAdditions>>;

type OmittedAdditions = OptionalAddition<Context<1>, (), End>;

impl Rowed for OmittedComponents {
    ghost use Rattle.rasn_oer.specs.Values.{both};

    type Values = <OmittedRow as Components>::Values;

    ghost EXTENSIBLE = { ⟦<OmittedRow as Components>⟧.EXTENSIBLE };

    const EXTENSIBLE: bool = true;

    ghost row_schema = { ⟦<OmittedRow as Components>⟧.schema };

    ghost row_is_schema = { ⟦<OmittedRow as Components>⟧.is_schema };

    ghost components = { λ v. both v.a (both v.omitted tt) };

    fn from_row(row: Self::Values) -> Self {
        built![OmittedComponents from row:
            a,
            omitted
        ]
    }
}

impl Takes for OmittedComponents {
    ghost Refuses = { ⟦<OmittedRow as Reads>⟧.Refuses };

    #[inline(always)]
    fn take(alloc: Global, decoder: &mut Decoder<'_>) -> Result<Self, DecodeError> {
        read_row::<Self, OmittedRow>(alloc, decoder)
    }
}

impl Tabled<1, 1> for OmittedComponents {
    ghost use Rattle.std.specs.Prelude.{refl};

    const FIELDS: Fields<1> = Fields {
        fields: fields![
            0 Optional Context 0 "a"
        ],
    };

    const EXTENDED_FIELDS: Option<Fields<1>> = Some(Fields {
        fields: fields![
            0 Optional Context 1 "omitted"
        ],
    });

    fn root_fields() -> &'static [Field<'static>] {
        Self::FIELDS.fields
    }

    fn addition_fields() -> &'static [Field<'static>] {
        rows_of!(Self::EXTENDED_FIELDS)
    }

    #[inline(always)]
    fn put(&self, encoder: &mut Encoder<'_>) -> Result<(), EncodeError> {
        let view = views![self:
            a,
            omitted
        ];
        OmittedRow::write(&view, encoder)
    }

    ghost counts = { (refl, refl) };
}

/// The default 7 of `AddDefB`.
pub struct AddDefBDefault;

impl DefaultValue<Integer> for AddDefBDefault {
    ghost use Rattle.std.specs.Prelude.{negsuc, pos, refl};
    ghost use Rattle.rasn_oer.specs.Spelled.{integers_same};

    ghost value = { (pos 7) };

    fn value(_alloc: Global) -> Result<Integer, AllocError> {
        Ok(Integer::from_i128(7))
    }

    fn is_value(other: &Integer) -> bool {
        *other == Integer::from_i128(7)
    }

    ghost admitted = { refl };

    ghost decides = { λ c k v i. integers_same c v _ };
}

/// `AddDef ::= SEQUENCE { a BOOLEAN, ..., b INTEGER DEFAULT 7 }`
pub type AddDef = Sequence<AddDefComponents, 1, 1>;

pub use add_def_components::AddDef as AddDefComponents;

mod add_def_components {
    use super::*;

    /// The components of `AddDef`.
    #[derive(Debug, PartialEq, Eq, Drop)]
    pub struct AddDef {
        pub a: bool,
        pub b: Integer,
    }
}

type AddDefRow = Required<Context<0>, bool, Extensible<AddDefAdditions>>;

type AddDefAdditions = DefaultedAddition<Context<1>, Integer, AddDefBDefault, End>;

impl Rowed for AddDefComponents {
    ghost use Rattle.rasn_oer.specs.Values.{both};

    type Values = <AddDefRow as Components>::Values;

    ghost EXTENSIBLE = { ⟦<AddDefRow as Components>⟧.EXTENSIBLE };

    const EXTENSIBLE: bool = true;

    ghost row_schema = { ⟦<AddDefRow as Components>⟧.schema };

    ghost row_is_schema = { ⟦<AddDefRow as Components>⟧.is_schema };

    ghost components = { λ v. both v.a (both v.b tt) };

    fn from_row(row: Self::Values) -> Self {
        built![AddDefComponents from row:
            a,
            b
        ]
    }
}

impl Takes for AddDefComponents {
    ghost Refuses = { ⟦<AddDefRow as Reads>⟧.Refuses };

    #[inline(always)]
    fn take(alloc: Global, decoder: &mut Decoder<'_>) -> Result<Self, DecodeError> {
        read_row::<Self, AddDefRow>(alloc, decoder)
    }
}

impl Tabled<1, 1> for AddDefComponents {
    ghost use Rattle.std.specs.Prelude.{refl};

    const FIELDS: Fields<1> = Fields {
        fields: fields![
            0 Required Context 0 "a"
        ],
    };

    const EXTENDED_FIELDS: Option<Fields<1>> = Some(Fields {
        fields: fields![
            0 Default Context 1 "b"
        ],
    });

    fn root_fields() -> &'static [Field<'static>] {
        Self::FIELDS.fields
    }

    fn addition_fields() -> &'static [Field<'static>] {
        rows_of!(Self::EXTENDED_FIELDS)
    }

    #[inline(always)]
    fn put(&self, encoder: &mut Encoder<'_>) -> Result<(), EncodeError> {
        let view = views![self:
            a,
            b
        ];
        AddDefRow::write(&view, encoder)
    }

    ghost counts = { (refl, refl) };
}

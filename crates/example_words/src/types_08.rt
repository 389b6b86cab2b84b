//! Types of ASN.1 modules, as oergen printed them.

use rasn_oer::prelude::*;
use std::alloc::{AllocError, Global};

/// `Sequence1 ::= SEQUENCE { a BOOLEAN, ... }`
pub type Sequence1 = Sequence<Sequence1Components, 1, 0>;

pub use sequence1_components::Sequence1 as Sequence1Components;

mod sequence1_components {
    use super::*;

    /// The components of `Sequence1`.
    #[derive(Debug, PartialEq, Eq, Drop)]
    pub struct Sequence1 {
        pub a: bool,
    }
}

type Sequence1Row = Required<Context<0>, bool, Extensible<End>>;

impl Rowed for Sequence1Components {
    ghost use Rattle.rasn_oer.specs.Values.{both};

    type Values = <Sequence1Row as Components>::Values;

    ghost EXTENSIBLE = { ⟦<Sequence1Row as Components>⟧.EXTENSIBLE };

    const EXTENSIBLE: bool = true;

    ghost row_schema = { ⟦<Sequence1Row as Components>⟧.schema };

    ghost row_is_schema = { ⟦<Sequence1Row as Components>⟧.is_schema };

    ghost components = { λ v. both v.a tt };

    fn from_row(row: Self::Values) -> Self {
        built![Sequence1Components from row:
            a
        ]
    }
}

impl Takes for Sequence1Components {
    ghost Refuses = { ⟦<Sequence1Row as Reads>⟧.Refuses };

    #[inline(always)]
    fn take(alloc: Global, decoder: &mut Decoder<'_>) -> Result<Self, DecodeError> {
        read_row::<Self, Sequence1Row>(alloc, decoder)
    }
}

impl Tabled<1, 0> for Sequence1Components {
    ghost use Rattle.std.specs.Prelude.{refl};

    const FIELDS: Fields<1> = Fields {
        fields: fields![
            0 Required Context 0 "a"
        ],
    };

    const EXTENDED_FIELDS: Option<Fields<0>> = Some(Fields { fields: &[] });

    fn root_fields() -> &'static [Field<'static>] {
        Self::FIELDS.fields
    }

    fn addition_fields() -> &'static [Field<'static>] {
        rows_of!(Self::EXTENDED_FIELDS)
    }

    #[inline(always)]
    fn put(&self, encoder: &mut Encoder<'_>) -> Result<(), EncodeError> {
        let view = views![self:
            a
        ];
        Sequence1Row::write(&view, encoder)
    }

    ghost counts = { (refl, refl) };
}

/// The default { a TRUE } of `Holder1A`.
pub struct Holder1ADefault;

impl DefaultValue<Sequence1> for Holder1ADefault {
    ghost use Rattle.std.specs.Prelude.{◌∷◌, [], None, Some, false, true, refl};
    ghost use Rattle.rasn_oer.specs.Chosen.{alternative_same, chosen_same, other_alternative};
    ghost use Rattle.rasn_oer.specs.Compared.{absent_same, also_same, default_by, given_same, no_rows_by, nothing_same, omitted_same, optional_by, parts_same, present_same, required_by, struct_by};
    ghost use Rattle.rasn_oer.specs.EmptyLists.{empty_listed};
    ghost use Rattle.rasn_oer.specs.Literals.{spelled, written};
    ghost use Rattle.rasn_oer.specs.Numbered.{numbers_same};
    ghost use Rattle.rasn_oer.specs.Spelled.{beside_nothing, bit_strings_same, booleans_same, integers_same, named_bit_strings_same, naturals_same, nulls_same, texts_same};
    ghost use Rattle.rasn_oer.specs.Texts as texts;

    ghost value = { record { 0 = record { a = true } } };

    fn value(alloc: Global) -> Result<Sequence1, AllocError> {
        parts_value![Sequence Sequence1Components in alloc:
            a [IsTrue as bool]
        ]
    }

    fn is_value(other: &Sequence1) -> bool {
        parts_are![other:
            a [IsTrue as bool]
        ]
    }

    ghost admitted = { ((tt, tt), tt) };

    ghost decides = { λ c k v i. let ((i0, _), _) = i in parts_same (given_same (⟦<bool as Spelled>⟧.tree ⟦<bool as AsnType>⟧.CONSTRAINTS) ⟦<bool as Spelled>⟧.IsValue ⟦<bool as PartialEq>⟧.eq (true) (λ v i. booleans_same v true) v.0.a i0) (struct_by (required_by no_rows_by) no_rows_by) (λ x0. ((x0, tt), tt)) (λ ((x0, _), _). x0) };
}

/// `Holder1 ::= SEQUENCE { a Sequence1 DEFAULT { a TRUE } }`
pub type Holder1 = Sequence<Holder1Components, 1, 0>;

pub use holder1_components::Holder1 as Holder1Components;

mod holder1_components {
    use super::*;

    /// The components of `Holder1`.
    #[derive(Debug, PartialEq, Eq, Drop)]
    pub struct Holder1 {
        pub a: Sequence1,
    }
}

type Holder1Row = Defaulted<Context<0>, Sequence1, Holder1ADefault, End>;

impl Rowed for Holder1Components {
    ghost use Rattle.rasn_oer.specs.Values.{both};

    type Values = <Holder1Row as Components>::Values;

    ghost EXTENSIBLE = { ⟦<Holder1Row as Components>⟧.EXTENSIBLE };

    const EXTENSIBLE: bool = false;

    ghost row_schema = { ⟦<Holder1Row as Components>⟧.schema };

    ghost row_is_schema = { ⟦<Holder1Row as Components>⟧.is_schema };

    ghost components = { λ v. both v.a tt };

    fn from_row(row: Self::Values) -> Self {
        built![Holder1Components from row:
            a
        ]
    }
}

impl Takes for Holder1Components {
    ghost Refuses = { ⟦<Holder1Row as Reads>⟧.Refuses };

    #[inline(always)]
    fn take(alloc: Global, decoder: &mut Decoder<'_>) -> Result<Self, DecodeError> {
        read_row::<Self, Holder1Row>(alloc, decoder)
    }
}

impl Tabled<1, 0> for Holder1Components {
    ghost use Rattle.std.specs.Prelude.{refl};

    const FIELDS: Fields<1> = Fields {
        fields: fields![
            0 Default Context 0 "a"
        ],
    };

    const EXTENDED_FIELDS: Option<Fields<0>> = None;

    fn root_fields() -> &'static [Field<'static>] {
        Self::FIELDS.fields
    }

    fn addition_fields() -> &'static [Field<'static>] {
        rows_of!(Self::EXTENDED_FIELDS)
    }

    #[inline(always)]
    fn put(&self, encoder: &mut Encoder<'_>) -> Result<(), EncodeError> {
        let view = views![self:
            a
        ];
        Holder1Row::write(&view, encoder)
    }

    ghost counts = { (refl, refl) };
}

/// `Sequence5 ::= SEQUENCE { a BOOLEAN, ..., b BOOLEAN OPTIONAL }`
pub type Sequence5 = Sequence<Sequence5Components, 1, 1>;

pub use sequence5_components::Sequence5 as Sequence5Components;

mod sequence5_components {
    use super::*;

    /// The components of `Sequence5`.
    #[derive(Debug, PartialEq, Eq, Drop)]
    pub struct Sequence5 {
        pub a: bool,
        pub b: Option<bool>,
    }
}

type Sequence5Row = Required<Context<0>, bool, Extensible<Sequence5Additions>>;

type Sequence5Additions = OptionalAddition<Context<1>, bool, End>;

impl Rowed for Sequence5Components {
    ghost use Rattle.rasn_oer.specs.Values.{both};

    type Values = <Sequence5Row as Components>::Values;

    ghost EXTENSIBLE = { ⟦<Sequence5Row as Components>⟧.EXTENSIBLE };

    const EXTENSIBLE: bool = true;

    ghost row_schema = { ⟦<Sequence5Row as Components>⟧.schema };

    ghost row_is_schema = { ⟦<Sequence5Row as Components>⟧.is_schema };

    ghost components = { λ v. both v.a (both v.b tt) };

    fn from_row(row: Self::Values) -> Self {
        built![Sequence5Components from row:
            a,
            b
        ]
    }
}

impl Takes for Sequence5Components {
    ghost Refuses = { ⟦<Sequence5Row as Reads>⟧.Refuses };

    #[inline(always)]
    fn take(alloc: Global, decoder: &mut Decoder<'_>) -> Result<Self, DecodeError> {
        read_row::<Self, Sequence5Row>(alloc, decoder)
    }
}

impl Tabled<1, 1> for Sequence5Components {
    ghost use Rattle.std.specs.Prelude.{refl};

    const FIELDS: Fields<1> = Fields {
        fields: fields![
            0 Required Context 0 "a"
        ],
    };

    const EXTENDED_FIELDS: Option<Fields<1>> = Some(Fields {
        fields: fields![
            0 Optional Context 1 "b"
        ],
    });

    fn root_fields() -> &'static [Field<'static>] {
        Self::FIELDS.fields
    }

    fn addition_fields() -> &'static [Field<'static>] {
        rows_of!(Self::EXTENDED_FIELDS)
    }

    #[inline(always)]
    fn put(&self, encoder: &mut Encoder<'_>) -> Result<(), EncodeError> {
        let view = views![self:
            a,
            b
        ];
        Sequence5Row::write(&view, encoder)
    }

    ghost counts = { (refl, refl) };
}

/// The default { a TRUE } of `Holder2A`.
pub struct Holder2ADefault;

impl DefaultValue<Sequence5> for Holder2ADefault {
    ghost use Rattle.std.specs.Prelude.{◌∷◌, [], None, Some, false, true, refl};
    ghost use Rattle.rasn_oer.specs.Chosen.{alternative_same, chosen_same, other_alternative};
    ghost use Rattle.rasn_oer.specs.Compared.{absent_same, also_same, default_by, given_same, no_rows_by, nothing_same, omitted_same, optional_by, parts_same, present_same, required_by, struct_by};
    ghost use Rattle.rasn_oer.specs.EmptyLists.{empty_listed};
    ghost use Rattle.rasn_oer.specs.Literals.{spelled, written};
    ghost use Rattle.rasn_oer.specs.Numbered.{numbers_same};
    ghost use Rattle.rasn_oer.specs.Spelled.{beside_nothing, bit_strings_same, booleans_same, integers_same, named_bit_strings_same, naturals_same, nulls_same, texts_same};
    ghost use Rattle.rasn_oer.specs.Texts as texts;

    ghost value = { record { 0 = record { a = true; b = None } } };

    fn value(alloc: Global) -> Result<Sequence5, AllocError> {
        parts_value![Sequence Sequence5Components in alloc:
            a [IsTrue as bool],
            b [none bool]
        ]
    }

    fn is_value(other: &Sequence5) -> bool {
        parts_are![other:
            a [IsTrue as bool],
            b [none bool]
        ]
    }

    ghost admitted = { ((tt, tt), (tt, tt)) };

    ghost decides = { λ c k v i. let ((i0, _), (i1, _)) = i in parts_same (also_same (given_same (⟦<bool as Spelled>⟧.tree ⟦<bool as AsnType>⟧.CONSTRAINTS) ⟦<bool as Spelled>⟧.IsValue ⟦<bool as PartialEq>⟧.eq (true) (λ v i. booleans_same v true) v.0.a i0) (absent_same (⟦<bool as Spelled>⟧.tree ⟦<bool as AsnType>⟧.CONSTRAINTS) ⟦<bool as PartialEq>⟧.eq v.0.b)) (struct_by (required_by no_rows_by) (optional_by no_rows_by)) (λ (x0, x1). ((x0, tt), (x1, tt))) (λ ((x0, _), (x1, _)). (x0, x1)) };
}

/// `Holder2 ::= SEQUENCE { a Sequence5 DEFAULT { a TRUE } }`
pub type Holder2 = Sequence<Holder2Components, 1, 0>;

pub use holder2_components::Holder2 as Holder2Components;

mod holder2_components {
    use super::*;

    /// The components of `Holder2`.
    #[derive(Debug, PartialEq, Eq, Drop)]
    pub struct Holder2 {
        pub a: Sequence5,
    }
}

type Holder2Row = Defaulted<Context<0>, Sequence5, Holder2ADefault, End>;

impl Rowed for Holder2Components {
    ghost use Rattle.rasn_oer.specs.Values.{both};

    type Values = <Holder2Row as Components>::Values;

    ghost EXTENSIBLE = { ⟦<Holder2Row as Components>⟧.EXTENSIBLE };

    const EXTENSIBLE: bool = false;

    ghost row_schema = { ⟦<Holder2Row as Components>⟧.schema };

    ghost row_is_schema = { ⟦<Holder2Row as Components>⟧.is_schema };

    ghost components = { λ v. both v.a tt };

    fn from_row(row: Self::Values) -> Self {
        built![Holder2Components from row:
            a
        ]
    }
}

impl Takes for Holder2Components {
    ghost Refuses = { ⟦<Holder2Row as Reads>⟧.Refuses };

    #[inline(always)]
    fn take(alloc: Global, decoder: &mut Decoder<'_>) -> Result<Self, DecodeError> {
        read_row::<Self, Holder2Row>(alloc, decoder)
    }
}

impl Tabled<1, 0> for Holder2Components {
    ghost use Rattle.std.specs.Prelude.{refl};

    const FIELDS: Fields<1> = Fields {
        fields: fields![
            0 Default Context 0 "a"
        ],
    };

    const EXTENDED_FIELDS: Option<Fields<0>> = None;

    fn root_fields() -> &'static [Field<'static>] {
        Self::FIELDS.fields
    }

    fn addition_fields() -> &'static [Field<'static>] {
        rows_of!(Self::EXTENDED_FIELDS)
    }

    #[inline(always)]
    fn put(&self, encoder: &mut Encoder<'_>) -> Result<(), EncodeError> {
        let view = views![self:
            a
        ];
        Holder2Row::write(&view, encoder)
    }

    ghost counts = { (refl, refl) };
}

//! Sequences of two components, some within others.
ghost use Rattle.rasn_oer.specs.Values.{both};
ghost use Rattle.std.specs.Prelude.{refl};

use crate::types::choices::PairChoice;
use rasn_oer::prelude::*;
use std::alloc::Global;

/// `SEQUENCE { a INTEGER, b INTEGER OPTIONAL }`
pub type Optional1 = Sequence<Optional1Components, 2, 0>;

/// The components of an `Optional1`.
#[derive(Debug, PartialEq, Eq, Drop)]
pub struct Optional1Components {
    pub a: Integer,
    pub b: Option<Integer>,
}

type Optional1Row = Required<Context<0>, Integer, Optional<Context<1>, Integer, End>>;

impl Rowed for Optional1Components {
    type Values = <Optional1Row as Components>::Values;

    ghost EXTENSIBLE = { ⟦<Optional1Row as Components>⟧.EXTENSIBLE };

    const EXTENSIBLE: bool = false;

    ghost row_schema = { ⟦<Optional1Row as Components>⟧.schema };

    ghost row_is_schema = { ⟦<Optional1Row as Components>⟧.is_schema };

    ghost components = { λ v. both v.a (both v.b tt) };

    fn from_row(Both(a, Both(b, ())): Self::Values) -> Self {
        Optional1Components { a, b }
    }
}

impl Takes for Optional1Components {
    ghost Refuses = { ⟦<Optional1Row as Reads>⟧.Refuses };

    #[inline(always)]
    fn take(alloc: Global, decoder: &mut Decoder<'_>) -> Result<Self, DecodeError> {
        read_row::<Self, Optional1Row>(alloc, decoder)
    }
}

impl Tabled<2, 0> for Optional1Components {
    const FIELDS: Fields<2> = table![
        0 Required Context 0 "a",
        1 Optional Context 1 "b"
    ];

    const EXTENDED_FIELDS: Option<Fields<0>> = None;

    fn root_fields() -> &'static [Field<'static>] {
        Self::FIELDS.fields
    }

    fn addition_fields() -> &'static [Field<'static>] {
        rows_of!(Self::EXTENDED_FIELDS)
    }

    #[inline(always)]
    fn put(&self, encoder: &mut Encoder<'_>) -> Result<(), EncodeError> {
        Optional1Row::write(&Both(&self.a, Both(&self.b, ())), encoder)
    }

    ghost counts = { (refl, refl) };
}

/// `SEQUENCE { a INTEGER, b Optional1 OPTIONAL }`
pub type Optional2 = Sequence<Optional2Components, 2, 0>;

/// The components of an `Optional2`.
#[derive(Debug, PartialEq, Eq, Drop)]
pub struct Optional2Components {
    pub a: Integer,
    pub b: Option<Optional1>,
}

type Optional2Row = Required<Context<0>, Integer, Optional<Context<1>, Optional1, End>>;

impl Rowed for Optional2Components {
    type Values = <Optional2Row as Components>::Values;

    ghost EXTENSIBLE = { ⟦<Optional2Row as Components>⟧.EXTENSIBLE };

    const EXTENSIBLE: bool = false;

    ghost row_schema = { ⟦<Optional2Row as Components>⟧.schema };

    ghost row_is_schema = { ⟦<Optional2Row as Components>⟧.is_schema };

    ghost components = { λ v. both v.a (both v.b tt) };

    fn from_row(Both(a, Both(b, ())): Self::Values) -> Self {
        Optional2Components { a, b }
    }
}

impl Takes for Optional2Components {
    ghost Refuses = { ⟦<Optional2Row as Reads>⟧.Refuses };

    #[inline(always)]
    fn take(alloc: Global, decoder: &mut Decoder<'_>) -> Result<Self, DecodeError> {
        read_row::<Self, Optional2Row>(alloc, decoder)
    }
}

impl Tabled<2, 0> for Optional2Components {
    const FIELDS: Fields<2> = table![
        0 Required Context 0 "a",
        1 Optional Context 1 "b"
    ];

    const EXTENDED_FIELDS: Option<Fields<0>> = None;

    fn root_fields() -> &'static [Field<'static>] {
        Self::FIELDS.fields
    }

    fn addition_fields() -> &'static [Field<'static>] {
        rows_of!(Self::EXTENDED_FIELDS)
    }

    #[inline(always)]
    fn put(&self, encoder: &mut Encoder<'_>) -> Result<(), EncodeError> {
        Optional2Row::write(&Both(&self.a, Both(&self.b, ())), encoder)
    }

    ghost counts = { (refl, refl) };
}

/// `SEQUENCE { a INTEGER, b Optional2 }`
pub type Optional3 = Sequence<Optional3Components, 2, 0>;

/// The components of an `Optional3`.
#[derive(Debug, PartialEq, Eq, Drop)]
pub struct Optional3Components {
    pub a: Integer,
    pub b: Optional2,
}

type Optional3Row = Required<Context<0>, Integer, Required<Context<1>, Optional2, End>>;

impl Rowed for Optional3Components {
    type Values = <Optional3Row as Components>::Values;

    ghost EXTENSIBLE = { ⟦<Optional3Row as Components>⟧.EXTENSIBLE };

    const EXTENSIBLE: bool = false;

    ghost row_schema = { ⟦<Optional3Row as Components>⟧.schema };

    ghost row_is_schema = { ⟦<Optional3Row as Components>⟧.is_schema };

    ghost components = { λ v. both v.a (both v.b tt) };

    fn from_row(Both(a, Both(b, ())): Self::Values) -> Self {
        Optional3Components { a, b }
    }
}

impl Takes for Optional3Components {
    ghost Refuses = { ⟦<Optional3Row as Reads>⟧.Refuses };

    #[inline(always)]
    fn take(alloc: Global, decoder: &mut Decoder<'_>) -> Result<Self, DecodeError> {
        read_row::<Self, Optional3Row>(alloc, decoder)
    }
}

impl Tabled<2, 0> for Optional3Components {
    const FIELDS: Fields<2> = table![
        0 Required Context 0 "a",
        1 Required Context 1 "b"
    ];

    const EXTENDED_FIELDS: Option<Fields<0>> = None;

    fn root_fields() -> &'static [Field<'static>] {
        Self::FIELDS.fields
    }

    fn addition_fields() -> &'static [Field<'static>] {
        rows_of!(Self::EXTENDED_FIELDS)
    }

    #[inline(always)]
    fn put(&self, encoder: &mut Encoder<'_>) -> Result<(), EncodeError> {
        Optional3Row::write(&Both(&self.a, Both(&self.b, ())), encoder)
    }

    ghost counts = { (refl, refl) };
}

/// `SEQUENCE { a INTEGER, b Optional1 }`, with `b` in a box
pub type BoxedPair = Sequence<BoxedPairComponents<Box<Optional1>>, 2, 0>;

/// The components of a `BoxedPair`, of which the second has any type: a row can't name a box of another row's type.
#[derive(Debug, PartialEq, Eq, Drop)]
pub struct BoxedPairComponents<T> {
    pub a: Integer,
    pub b: T,
}

type BoxedPairRow<T> = Required<Context<0>, Integer, Required<Context<1>, T, End>>;

const BOXED_PAIR_FIELDS: &'static [Field<'static>] = fields![
    0 Required Context 0 "a", 1 Required Context 1 "b"
];

impl<T: Decode + Encode> Rowed for BoxedPairComponents<T> {
    type Values = <BoxedPairRow<T> as Components>::Values;

    ghost EXTENSIBLE = { ⟦<BoxedPairRow<T> as Components>⟧.EXTENSIBLE };

    const EXTENSIBLE: bool = false;

    ghost row_schema = { ⟦<BoxedPairRow<T> as Components>⟧.schema };

    ghost row_is_schema = { ⟦<BoxedPairRow<T> as Components>⟧.is_schema };

    ghost components = { λ v. both v.a (both v.b tt) };

    fn from_row(Both(a, Both(b, ())): Self::Values) -> Self {
        BoxedPairComponents { a, b }
    }
}

impl<T: Decode + Encode> Takes for BoxedPairComponents<T> {
    ghost Refuses = { ⟦<BoxedPairRow<T> as Reads>⟧.Refuses };

    #[inline(always)]
    fn take(alloc: Global, decoder: &mut Decoder<'_>) -> Result<Self, DecodeError> {
        read_row::<Self, BoxedPairRow<T>>(alloc, decoder)
    }
}

impl<T: Decode + Encode> Tabled<2, 0> for BoxedPairComponents<T> {
    const FIELDS: Fields<2> = Fields {
        fields: BOXED_PAIR_FIELDS,
    };

    const EXTENDED_FIELDS: Option<Fields<0>> = None;

    fn root_fields() -> &'static [Field<'static>] {
        BOXED_PAIR_FIELDS
    }

    fn addition_fields() -> &'static [Field<'static>] {
        &[]
    }

    #[inline(always)]
    fn put(&self, encoder: &mut Encoder<'_>) -> Result<(), EncodeError> {
        <BoxedPairRow<T>>::write(&Both(&self.a, Both(&self.b, ())), encoder)
    }

    ghost counts = { (refl, refl) };
}

/// `SEQUENCE { a INTEGER, b PairChoice }`
pub type Choosing = Sequence<ChoosingComponents, 2, 0>;

/// The components of a `Choosing`.
#[derive(Debug, PartialEq, Eq, Drop)]
pub struct ChoosingComponents {
    pub a: Integer,
    pub b: PairChoice,
}

type ChoosingRow = Required<Context<0>, Integer, Required<Context<1>, PairChoice, End>>;

impl Rowed for ChoosingComponents {
    type Values = <ChoosingRow as Components>::Values;

    ghost EXTENSIBLE = { ⟦<ChoosingRow as Components>⟧.EXTENSIBLE };

    const EXTENSIBLE: bool = false;

    ghost row_schema = { ⟦<ChoosingRow as Components>⟧.schema };

    ghost row_is_schema = { ⟦<ChoosingRow as Components>⟧.is_schema };

    ghost components = { λ v. both v.a (both v.b tt) };

    fn from_row(Both(a, Both(b, ())): Self::Values) -> Self {
        ChoosingComponents { a, b }
    }
}

impl Takes for ChoosingComponents {
    ghost Refuses = { ⟦<ChoosingRow as Reads>⟧.Refuses };

    #[inline(always)]
    fn take(alloc: Global, decoder: &mut Decoder<'_>) -> Result<Self, DecodeError> {
        read_row::<Self, ChoosingRow>(alloc, decoder)
    }
}

impl Tabled<2, 0> for ChoosingComponents {
    const FIELDS: Fields<2> = table![
        0 Required Context 0 "a",
        1 Required Context 1 "b"
    ];

    const EXTENDED_FIELDS: Option<Fields<0>> = None;

    fn root_fields() -> &'static [Field<'static>] {
        Self::FIELDS.fields
    }

    fn addition_fields() -> &'static [Field<'static>] {
        rows_of!(Self::EXTENDED_FIELDS)
    }

    #[inline(always)]
    fn put(&self, encoder: &mut Encoder<'_>) -> Result<(), EncodeError> {
        ChoosingRow::write(&Both(&self.a, Both(&self.b, ())), encoder)
    }

    ghost counts = { (refl, refl) };
}

/// `SEQUENCE { a BOOLEAN, b Choosing }`
pub type Chosen = Sequence<ChosenComponents, 2, 0>;

/// The components of a `Chosen`.
#[derive(Debug, PartialEq, Eq, Drop)]
pub struct ChosenComponents {
    pub a: bool,
    pub b: Choosing,
}

type ChosenRow = Required<Context<0>, bool, Required<Context<1>, Choosing, End>>;

impl Rowed for ChosenComponents {
    type Values = <ChosenRow as Components>::Values;

    ghost EXTENSIBLE = { ⟦<ChosenRow as Components>⟧.EXTENSIBLE };

    const EXTENSIBLE: bool = false;

    ghost row_schema = { ⟦<ChosenRow as Components>⟧.schema };

    ghost row_is_schema = { ⟦<ChosenRow as Components>⟧.is_schema };

    ghost components = { λ v. both v.a (both v.b tt) };

    fn from_row(Both(a, Both(b, ())): Self::Values) -> Self {
        ChosenComponents { a, b }
    }
}

impl Takes for ChosenComponents {
    ghost Refuses = { ⟦<ChosenRow as Reads>⟧.Refuses };

    #[inline(always)]
    fn take(alloc: Global, decoder: &mut Decoder<'_>) -> Result<Self, DecodeError> {
        read_row::<Self, ChosenRow>(alloc, decoder)
    }
}

impl Tabled<2, 0> for ChosenComponents {
    const FIELDS: Fields<2> = table![
        0 Required Context 0 "a",
        1 Required Context 1 "b"
    ];

    const EXTENDED_FIELDS: Option<Fields<0>> = None;

    fn root_fields() -> &'static [Field<'static>] {
        Self::FIELDS.fields
    }

    fn addition_fields() -> &'static [Field<'static>] {
        rows_of!(Self::EXTENDED_FIELDS)
    }

    #[inline(always)]
    fn put(&self, encoder: &mut Encoder<'_>) -> Result<(), EncodeError> {
        ChosenRow::write(&Both(&self.a, Both(&self.b, ())), encoder)
    }

    ghost counts = { (refl, refl) };
}

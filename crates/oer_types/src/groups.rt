//! Sequences with addition groups.
ghost use Rattle.rasn_oer.specs.Values.{both};
ghost use Rattle.std.specs.Prelude.{refl};

use crate::components;
use rasn_oer::prelude::*;
use std::alloc::Global;

/// `SEQUENCE { a BOOLEAN }`, which stands as a group in `Sequence3`
pub type Sequence4 = Sequence<components::Sequence4, 1, 0>;

type Sequence4Row = Required<Context<0>, bool, End>;

impl Rowed for components::Sequence4 {
    type Values = <Sequence4Row as Components>::Values;

    ghost EXTENSIBLE = { ⟦<Sequence4Row as Components>⟧.EXTENSIBLE };

    const EXTENSIBLE: bool = false;

    ghost row_schema = { ⟦<Sequence4Row as Components>⟧.schema };

    ghost row_is_schema = { ⟦<Sequence4Row as Components>⟧.is_schema };

    ghost components = { λ v. both v.a tt };

    fn from_row(Both(a, ()): Self::Values) -> Self {
        components::Sequence4 { a }
    }
}

impl Takes for components::Sequence4 {
    ghost Refuses = { ⟦<Sequence4Row as Reads>⟧.Refuses };

    #[inline(always)]
    fn take(alloc: Global, decoder: &mut Decoder<'_>) -> Result<Self, DecodeError> {
        read_row::<Self, Sequence4Row>(alloc, decoder)
    }
}

impl Tabled<1, 0> for components::Sequence4 {
    const FIELDS: Fields<1> = table![0 Required Context 0 "a"];

    const EXTENDED_FIELDS: Option<Fields<0>> = None;

    fn root_fields() -> &'static [Field<'static>] {
        Self::FIELDS.fields
    }

    fn addition_fields() -> &'static [Field<'static>] {
        rows_of!(Self::EXTENDED_FIELDS)
    }

    #[inline(always)]
    fn put(&self, encoder: &mut Encoder<'_>) -> Result<(), EncodeError> {
        Sequence4Row::write(&Both(&self.a, ()), encoder)
    }

    ghost counts = { (refl, refl) };
}

/// `SEQUENCE { a BOOLEAN, ..., [[ b BOOLEAN ]] }`: the group is there as a whole or not at all
pub type Sequence3 = Sequence<components::Sequence3, 1, 1>;

type Sequence3Row = Required<Context<0>, bool, Extensible<AdditionGroup<1, 0, Sequence4, End>>>;

impl Rowed for components::Sequence3 {
    type Values = <Sequence3Row as Components>::Values;

    ghost EXTENSIBLE = { ⟦<Sequence3Row as Components>⟧.EXTENSIBLE };

    const EXTENSIBLE: bool = true;

    ghost row_schema = { ⟦<Sequence3Row as Components>⟧.schema };

    ghost row_is_schema = { ⟦<Sequence3Row as Components>⟧.is_schema };

    ghost components = { λ v. both v.a (both v.b tt) };

    fn from_row(Both(a, Both(b, ())): Self::Values) -> Self {
        components::Sequence3 { a, b }
    }
}

impl Takes for components::Sequence3 {
    ghost Refuses = { ⟦<Sequence3Row as Reads>⟧.Refuses };

    #[inline(always)]
    fn take(alloc: Global, decoder: &mut Decoder<'_>) -> Result<Self, DecodeError> {
        read_row::<Self, Sequence3Row>(alloc, decoder)
    }
}

impl Tabled<1, 1> for components::Sequence3 {
    const FIELDS: Fields<1> = table![0 Required Context 0 "a"];

    const EXTENDED_FIELDS: Option<Fields<1>> = Some(table![0 Optional Universal 16 "b"]);

    fn root_fields() -> &'static [Field<'static>] {
        Self::FIELDS.fields
    }

    fn addition_fields() -> &'static [Field<'static>] {
        rows_of!(Self::EXTENDED_FIELDS)
    }

    #[inline(always)]
    fn put(&self, encoder: &mut Encoder<'_>) -> Result<(), EncodeError> {
        Sequence3Row::write(&Both(&self.a, Both(&self.b, ())), encoder)
    }

    ghost counts = { (refl, refl) };
}

/// `[[ a BOOLEAN OPTIONAL ]]`, the group of `Sequence6`
pub type Group6 = Sequence<components::Group6, 1, 0>;

type Group6Row = Optional<Context<0>, bool, End>;

impl Rowed for components::Group6 {
    type Values = <Group6Row as Components>::Values;

    ghost EXTENSIBLE = { ⟦<Group6Row as Components>⟧.EXTENSIBLE };

    const EXTENSIBLE: bool = false;

    ghost row_schema = { ⟦<Group6Row as Components>⟧.schema };

    ghost row_is_schema = { ⟦<Group6Row as Components>⟧.is_schema };

    ghost components = { λ v. both v.a tt };

    fn from_row(Both(a, ()): Self::Values) -> Self {
        components::Group6 { a }
    }
}

impl Takes for components::Group6 {
    ghost Refuses = { ⟦<Group6Row as Reads>⟧.Refuses };

    #[inline(always)]
    fn take(alloc: Global, decoder: &mut Decoder<'_>) -> Result<Self, DecodeError> {
        read_row::<Self, Group6Row>(alloc, decoder)
    }
}

impl Tabled<1, 0> for components::Group6 {
    const FIELDS: Fields<1> = table![0 Optional Context 0 "a"];

    const EXTENDED_FIELDS: Option<Fields<0>> = None;

    fn root_fields() -> &'static [Field<'static>] {
        Self::FIELDS.fields
    }

    fn addition_fields() -> &'static [Field<'static>] {
        rows_of!(Self::EXTENDED_FIELDS)
    }

    #[inline(always)]
    fn put(&self, encoder: &mut Encoder<'_>) -> Result<(), EncodeError> {
        Group6Row::write(&Both(&self.a, ()), encoder)
    }

    ghost counts = { (refl, refl) };
}

/// `SEQUENCE { a BOOLEAN, ..., [[ a BOOLEAN OPTIONAL ]] }`
pub type Sequence6 = Sequence<components::Sequence6, 1, 1>;

type Sequence6Row = Required<Context<0>, bool, Extensible<AdditionGroup<1, 0, Group6, End>>>;

impl Rowed for components::Sequence6 {
    type Values = <Sequence6Row as Components>::Values;

    ghost EXTENSIBLE = { ⟦<Sequence6Row as Components>⟧.EXTENSIBLE };

    const EXTENSIBLE: bool = true;

    ghost row_schema = { ⟦<Sequence6Row as Components>⟧.schema };

    ghost row_is_schema = { ⟦<Sequence6Row as Components>⟧.is_schema };

    ghost components = { λ v. both v.a (both v.b tt) };

    fn from_row(Both(a, Both(b, ())): Self::Values) -> Self {
        components::Sequence6 { a, b }
    }
}

impl Takes for components::Sequence6 {
    ghost Refuses = { ⟦<Sequence6Row as Reads>⟧.Refuses };

    #[inline(always)]
    fn take(alloc: Global, decoder: &mut Decoder<'_>) -> Result<Self, DecodeError> {
        read_row::<Self, Sequence6Row>(alloc, decoder)
    }
}

impl Tabled<1, 1> for components::Sequence6 {
    const FIELDS: Fields<1> = table![0 Required Context 0 "a"];

    const EXTENDED_FIELDS: Option<Fields<1>> = Some(table![0 Optional Universal 16 "b"]);

    fn root_fields() -> &'static [Field<'static>] {
        Self::FIELDS.fields
    }

    fn addition_fields() -> &'static [Field<'static>] {
        rows_of!(Self::EXTENDED_FIELDS)
    }

    #[inline(always)]
    fn put(&self, encoder: &mut Encoder<'_>) -> Result<(), EncodeError> {
        Sequence6Row::write(&Both(&self.a, Both(&self.b, ())), encoder)
    }

    ghost counts = { (refl, refl) };
}

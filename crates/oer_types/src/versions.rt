//! A later version of `SEQUENCE { a BOOLEAN, ..., b BOOLEAN OPTIONAL, c BOOLEAN OPTIONAL }`.
ghost use Rattle.rasn_oer.specs.Values.{both};
ghost use Rattle.std.specs.Prelude.{refl};

use rasn_oer::prelude::*;
use std::alloc::Global;

/// `[[ e BOOLEAN OPTIONAL, f INTEGER DEFAULT 0 ]]`, the group of `Sequence7`
pub type Addition7 = Sequence<Addition7Components, 2, 0>;

/// The components of an `Addition7`.
#[derive(Debug, PartialEq, Eq, Drop)]
pub struct Addition7Components {
    pub e: Option<bool>,
    pub f: Integer,
}

type Addition7Row = Optional<Context<0>, bool, Defaulted<Context<1>, Integer, IsNumber<0>, End>>;

const ADDITION7_FIELDS: &'static [Field<'static>] =
    fields![0 Optional Context 0 "e", 1 Default Context 1 "f"];

impl Rowed for Addition7Components {
    type Values = <Addition7Row as Components>::Values;

    ghost EXTENSIBLE = { ⟦<Addition7Row as Components>⟧.EXTENSIBLE };

    const EXTENSIBLE: bool = false;

    ghost row_schema = { ⟦<Addition7Row as Components>⟧.schema };

    ghost row_is_schema = { ⟦<Addition7Row as Components>⟧.is_schema };

    ghost components = { λ v. both v.e (both v.f tt) };

    fn from_row(Both(e, Both(f, ())): Self::Values) -> Self {
        Addition7Components { e, f }
    }
}

impl Takes for Addition7Components {
    ghost Refuses = { ⟦<Addition7Row as Reads>⟧.Refuses };

    #[inline(always)]
    fn take(alloc: Global, decoder: &mut Decoder<'_>) -> Result<Self, DecodeError> {
        read_row::<Self, Addition7Row>(alloc, decoder)
    }
}

impl Tabled<2, 0> for Addition7Components {
    const FIELDS: Fields<2> = Fields {
        fields: ADDITION7_FIELDS,
    };

    const EXTENDED_FIELDS: Option<Fields<0>> = None;

    fn root_fields() -> &'static [Field<'static>] {
        Self::FIELDS.fields
    }

    fn addition_fields() -> &'static [Field<'static>] {
        rows_of!(Self::EXTENDED_FIELDS)
    }

    #[inline(always)]
    fn put(&self, encoder: &mut Encoder<'_>) -> Result<(), EncodeError> {
        Addition7Row::write(&Both(&self.e, Both(&self.f, ())), encoder)
    }

    ghost counts = { (refl, refl) };
}

/// `SEQUENCE { a BOOLEAN, ..., b BOOLEAN OPTIONAL, c BOOLEAN OPTIONAL, d INTEGER OPTIONAL, [[ e BOOLEAN OPTIONAL,
/// f INTEGER DEFAULT 0 ]] }`: the group is there as a whole or not at all
pub type Sequence7 = Sequence<Sequence7Components, 1, 4>;

/// The components of a `Sequence7`.
#[derive(Debug, PartialEq, Eq, Drop)]
pub struct Sequence7Components {
    pub a: bool,
    pub b: Option<bool>,
    pub c: Option<bool>,
    pub d: Option<Integer>,
    pub group: Option<Addition7>,
}

type Sequence7Row = Required<
    Context<0>,
    bool,
    Extensible<OptionalAddition<Context<1>, bool, OptionalAddition<Context<2>, bool, FromD>>>,
>;

/// The additions from `d` on.
type FromD = OptionalAddition<Context<3>, Integer, AdditionGroup<2, 0, Addition7, End>>;

const SEQUENCE7_FIELDS: &'static [Field<'static>] = fields![0 Required Context 0 "a"];

const SEQUENCE7_ADDITIONS: &'static [Field<'static>] = fields![
    0 Optional Context 1 "b", 1 Optional Context 2 "c", 2 Optional Context 3 "d", 3 Optional Universal 16 "group"
];

impl Rowed for Sequence7Components {
    type Values = <Sequence7Row as Components>::Values;

    ghost EXTENSIBLE = { ⟦<Sequence7Row as Components>⟧.EXTENSIBLE };

    const EXTENSIBLE: bool = true;

    ghost row_schema = { ⟦<Sequence7Row as Components>⟧.schema };

    ghost row_is_schema = { ⟦<Sequence7Row as Components>⟧.is_schema };

    ghost components = { λ v. both v.a (both v.b (both v.c (both v.d (both v.group tt)))) };

    fn from_row(Both(a, Both(b, Both(c, Both(d, Both(group, ()))))): Self::Values) -> Self {
        Sequence7Components { a, b, c, d, group }
    }
}

impl Takes for Sequence7Components {
    ghost Refuses = { ⟦<Sequence7Row as Reads>⟧.Refuses };

    #[inline(always)]
    fn take(alloc: Global, decoder: &mut Decoder<'_>) -> Result<Self, DecodeError> {
        read_row::<Self, Sequence7Row>(alloc, decoder)
    }
}

impl Tabled<1, 4> for Sequence7Components {
    const FIELDS: Fields<1> = Fields {
        fields: SEQUENCE7_FIELDS,
    };

    const EXTENDED_FIELDS: Option<Fields<4>> = Some(Fields {
        fields: SEQUENCE7_ADDITIONS,
    });

    fn root_fields() -> &'static [Field<'static>] {
        Self::FIELDS.fields
    }

    fn addition_fields() -> &'static [Field<'static>] {
        rows_of!(Self::EXTENDED_FIELDS)
    }

    #[inline(always)]
    fn put(&self, encoder: &mut Encoder<'_>) -> Result<(), EncodeError> {
        Sequence7Row::write(
            &Both(
                &self.a,
                Both(&self.b, Both(&self.c, Both(&self.d, Both(&self.group, ())))),
            ),
            encoder,
        )
    }

    ghost counts = { (refl, refl) };
}

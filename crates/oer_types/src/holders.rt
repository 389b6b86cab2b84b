//! Types that hold a value of any other: a sequence, and a sequence that holds it as an addition.
ghost use Rattle.rasn_oer.specs.Values.{both};
ghost use Rattle.std.specs.Prelude.{refl};

use rasn_oer::prelude::*;
use std::alloc::Global;

/// `SEQUENCE { inner T }`
pub type Holding<T> = Sequence<HoldingComponents<T>, 1, 0>;

/// The components of a `Holding`.
#[derive(Debug, PartialEq, Eq, Drop)]
pub struct HoldingComponents<T> {
    pub inner: T,
}

type HoldingRow<T> = Required<Context<0>, T, End>;

const INNER_FIELDS: &'static [Field<'static>] = fields![0 Required Context 0 "inner"];

impl<T: Decode + Encode> Rowed for HoldingComponents<T> {
    type Values = <HoldingRow<T> as Components>::Values;

    ghost EXTENSIBLE = { ⟦<HoldingRow<T> as Components>⟧.EXTENSIBLE };

    const EXTENSIBLE: bool = false;

    ghost row_schema = { ⟦<HoldingRow<T> as Components>⟧.schema };

    ghost row_is_schema = { ⟦<HoldingRow<T> as Components>⟧.is_schema };

    ghost components = { λ v. both v.inner tt };

    fn from_row(Both(inner, ()): Self::Values) -> Self {
        HoldingComponents { inner }
    }
}

impl<T: Decode + Encode> Takes for HoldingComponents<T> {
    ghost Refuses = { ⟦<HoldingRow<T> as Reads>⟧.Refuses };

    #[inline(always)]
    fn take(alloc: Global, decoder: &mut Decoder<'_>) -> Result<Self, DecodeError> {
        read_row::<Self, HoldingRow<T>>(alloc, decoder)
    }
}

impl<T: Decode + Encode> Tabled<1, 0> for HoldingComponents<T> {
    const FIELDS: Fields<1> = Fields {
        fields: INNER_FIELDS,
    };

    const EXTENDED_FIELDS: Option<Fields<0>> = None;

    fn root_fields() -> &'static [Field<'static>] {
        INNER_FIELDS
    }

    fn addition_fields() -> &'static [Field<'static>] {
        &[]
    }

    #[inline(always)]
    fn put(&self, encoder: &mut Encoder<'_>) -> Result<(), EncodeError> {
        <HoldingRow<T>>::write(&Both(&self.inner, ()), encoder)
    }

    ghost counts = { (refl, refl) };
}

/// `SEQUENCE { ok BOOLEAN, ..., inner T OPTIONAL }`
pub type Adding<T> = Sequence<AddingComponents<T>, 1, 1>;

/// The components of an `Adding`.
#[derive(Debug, PartialEq, Eq, Drop)]
pub struct AddingComponents<T> {
    pub ok: bool,
    pub inner: Option<T>,
}

type AddingRow<T> = Required<Context<0>, bool, Extensible<OptionalAddition<Context<1>, T, End>>>;

const OK_FIELDS: &'static [Field<'static>] = fields![0 Required Context 0 "ok"];

const INNER_ADDITIONS: &'static [Field<'static>] = fields![0 Optional Context 1 "inner"];

impl<T: Decode + Encode> Rowed for AddingComponents<T> {
    type Values = <AddingRow<T> as Components>::Values;

    ghost EXTENSIBLE = { ⟦<AddingRow<T> as Components>⟧.EXTENSIBLE };

    const EXTENSIBLE: bool = true;

    ghost row_schema = { ⟦<AddingRow<T> as Components>⟧.schema };

    ghost row_is_schema = { ⟦<AddingRow<T> as Components>⟧.is_schema };

    ghost components = { λ v. both v.ok (both v.inner tt) };

    fn from_row(Both(ok, Both(inner, ())): Self::Values) -> Self {
        AddingComponents { ok, inner }
    }
}

impl<T: Decode + Encode> Takes for AddingComponents<T> {
    ghost Refuses = { ⟦<AddingRow<T> as Reads>⟧.Refuses };

    #[inline(always)]
    fn take(alloc: Global, decoder: &mut Decoder<'_>) -> Result<Self, DecodeError> {
        read_row::<Self, AddingRow<T>>(alloc, decoder)
    }
}

impl<T: Decode + Encode> Tabled<1, 1> for AddingComponents<T> {
    const FIELDS: Fields<1> = Fields { fields: OK_FIELDS };

    const EXTENDED_FIELDS: Option<Fields<1>> = Some(Fields {
        fields: INNER_ADDITIONS,
    });

    fn root_fields() -> &'static [Field<'static>] {
        OK_FIELDS
    }

    fn addition_fields() -> &'static [Field<'static>] {
        INNER_ADDITIONS
    }

    #[inline(always)]
    fn put(&self, encoder: &mut Encoder<'_>) -> Result<(), EncodeError> {
        <AddingRow<T>>::write(&Both(&self.ok, Both(&self.inner, ())), encoder)
    }

    ghost counts = { (refl, refl) };
}

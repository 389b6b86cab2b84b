//! A sequence with an optional component that has constraints.
ghost use Rattle.rasn_oer.specs.Values.{both};
ghost use Rattle.std.specs.Prelude.{refl};

use crate::components;
use crate::wrappers::HashedId3;
use rasn_oer::prelude::*;
use std::alloc::Global;

/// `SEQUENCE { a HashedId3 OPTIONAL }`
pub type ConstrainedOptions = Sequence<components::ConstrainedOptions, 1, 0>;

type ConstrainedOptionsRow = Optional<Context<0>, HashedId3, End>;

impl Rowed for components::ConstrainedOptions {
    type Values = <ConstrainedOptionsRow as Components>::Values;

    ghost EXTENSIBLE = { ⟦<ConstrainedOptionsRow as Components>⟧.EXTENSIBLE };

    const EXTENSIBLE: bool = false;

    ghost row_schema = { ⟦<ConstrainedOptionsRow as Components>⟧.schema };

    ghost row_is_schema = { ⟦<ConstrainedOptionsRow as Components>⟧.is_schema };

    ghost components = { λ v. both v.a tt };

    fn from_row(Both(a, ()): Self::Values) -> Self {
        components::ConstrainedOptions { a }
    }
}

impl Takes for components::ConstrainedOptions {
    ghost Refuses = { ⟦<ConstrainedOptionsRow as Reads>⟧.Refuses };

    #[inline(always)]
    fn take(alloc: Global, decoder: &mut Decoder<'_>) -> Result<Self, DecodeError> {
        read_row::<Self, ConstrainedOptionsRow>(alloc, decoder)
    }
}

impl Tabled<1, 0> for components::ConstrainedOptions {
    const FIELDS: Fields<1> = table![0 Optional Context 0 "a"];

    const EXTENDED_FIELDS: Option<Fields<0>> = None;

    fn root_fields() -> &'static [Field<'static>] {
        Self::FIELDS.fields
    }

    fn addition_fields() -> &'static [Field<'static>] {
        rows_of!(Self::EXTENDED_FIELDS)
    }

    #[inline(always)]
    fn put(&self, encoder: &mut Encoder<'_>) -> Result<(), EncodeError> {
        ConstrainedOptionsRow::write(&Both(&self.a, ()), encoder)
    }

    ghost counts = { (refl, refl) };
}

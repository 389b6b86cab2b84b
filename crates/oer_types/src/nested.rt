//! A sequence of a boolean and of a pair.
ghost use Rattle.rasn_oer.specs.Values.{both};
ghost use Rattle.std.specs.Prelude.{refl};

use crate::components;
use crate::pairs::Pair;
use rasn_oer::prelude::*;
use std::alloc::Global;

/// `SEQUENCE { a BOOLEAN, b Pair }`
pub type Nested = Sequence<components::Nested, 2, 0>;

type NestedRow = Required<Context<0>, bool, Required<Context<1>, Pair, End>>;

impl Rowed for components::Nested {
    type Values = <NestedRow as Components>::Values;

    ghost EXTENSIBLE = { ⟦<NestedRow as Components>⟧.EXTENSIBLE };

    const EXTENSIBLE: bool = false;

    ghost row_schema = { ⟦<NestedRow as Components>⟧.schema };

    ghost row_is_schema = { ⟦<NestedRow as Components>⟧.is_schema };

    ghost components = { λ v. both v.a (both v.b tt) };

    fn from_row(Both(a, Both(b, ())): Self::Values) -> Self {
        components::Nested { a, b }
    }
}

impl Takes for components::Nested {
    ghost Refuses = { ⟦<NestedRow as Reads>⟧.Refuses };

    #[inline(always)]
    fn take(alloc: Global, decoder: &mut Decoder<'_>) -> Result<Self, DecodeError> {
        read_row::<Self, NestedRow>(alloc, decoder)
    }
}

impl Tabled<2, 0> for components::Nested {
    const FIELDS: Fields<2> = table![0 Required Context 0 "a", 1 Required Context 1 "b"];

    const EXTENDED_FIELDS: Option<Fields<0>> = None;

    fn root_fields() -> &'static [Field<'static>] {
        Self::FIELDS.fields
    }

    fn addition_fields() -> &'static [Field<'static>] {
        rows_of!(Self::EXTENDED_FIELDS)
    }

    #[inline(always)]
    fn put(&self, encoder: &mut Encoder<'_>) -> Result<(), EncodeError> {
        NestedRow::write(&Both(&self.a, Both(&self.b, ())), encoder)
    }

    ghost counts = { (refl, refl) };
}

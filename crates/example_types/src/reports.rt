//! A sequence of a component with a default, and an optional one.
ghost use Rattle.rasn_oer.specs.Values.{both};
ghost use Rattle.std.specs.Prelude.{refl};

use rasn_oer::prelude::*;
use std::alloc::Global;

/// `SEQUENCE { urgent BOOLEAN DEFAULT FALSE, number INTEGER OPTIONAL }`
pub type Report = Sequence<ReportComponents, 2, 0>;

/// The components of a `Report`.
#[derive(Debug, PartialEq, Eq, Drop)]
pub struct ReportComponents {
    pub urgent: bool,
    pub number: Option<Integer>,
}

type ReportRow = Defaulted<Context<0>, bool, IsFalse, Optional<Context<1>, Integer, End>>;

impl Rowed for ReportComponents {
    type Values = <ReportRow as Components>::Values;

    ghost EXTENSIBLE = { ⟦<ReportRow as Components>⟧.EXTENSIBLE };

    const EXTENSIBLE: bool = false;

    ghost row_schema = { ⟦<ReportRow as Components>⟧.schema };

    ghost row_is_schema = { ⟦<ReportRow as Components>⟧.is_schema };

    ghost components = { λ v. both v.urgent (both v.number tt) };

    fn from_row(row: <ReportRow as Components>::Values) -> ReportComponents {
        built![ReportComponents from row: urgent, number]
    }
}

impl Takes for ReportComponents {
    ghost Refuses = { ⟦<ReportRow as Reads>⟧.Refuses };

    #[inline(always)]
    fn take(alloc: Global, decoder: &mut Decoder<'_>) -> Result<Self, DecodeError> {
        read_row::<Self, ReportRow>(alloc, decoder)
    }
}

impl Tabled<2, 0> for ReportComponents {
    const FIELDS: Fields<2> = table![0 Default Context 0 "urgent", 1 Optional Context 1 "number"];

    const EXTENDED_FIELDS: Option<Fields<0>> = None;

    fn root_fields() -> &'static [Field<'static>] {
        Self::FIELDS.fields
    }

    fn addition_fields() -> &'static [Field<'static>] {
        rows_of!(Self::EXTENDED_FIELDS)
    }

    #[inline(always)]
    fn put(&self, encoder: &mut Encoder<'_>) -> Result<(), EncodeError> {
        ReportRow::write(&views![self: urgent, number], encoder)
    }

    ghost counts = { (refl, refl) };
}

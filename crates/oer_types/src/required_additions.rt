//! Extensible sequences with an addition that newer versions always have.
ghost use Rattle.rasn_oer.specs.Values.{both};
ghost use Rattle.std.specs.Prelude.{refl};

use crate::components;
use rasn_oer::prelude::*;
use std::alloc::Global;

/// `SEQUENCE { ok BOOLEAN, ..., sure BOOLEAN }`
pub type Sure = Sequence<SureComponents, 1, 1>;

/// The components of a `Sure`.
#[derive(Debug, PartialEq, Eq, Drop)]
pub struct SureComponents {
    pub ok: bool,
    pub sure: bool,
}

type SureRow = Required<Context<0>, bool, Extensible<RequiredAddition<Context<1>, bool, End>>>;

impl Rowed for SureComponents {
    type Values = <SureRow as Components>::Values;

    ghost EXTENSIBLE = { ⟦<SureRow as Components>⟧.EXTENSIBLE };

    const EXTENSIBLE: bool = true;

    ghost row_schema = { ⟦<SureRow as Components>⟧.schema };

    ghost row_is_schema = { ⟦<SureRow as Components>⟧.is_schema };

    ghost components = { λ v. both v.ok (both v.sure tt) };

    fn from_row(Both(ok, Both(sure, ())): Self::Values) -> Self {
        SureComponents { ok, sure }
    }
}

impl Takes for SureComponents {
    ghost Refuses = { ⟦<SureRow as Reads>⟧.Refuses };

    #[inline(always)]
    fn take(alloc: Global, decoder: &mut Decoder<'_>) -> Result<Self, DecodeError> {
        read_row::<Self, SureRow>(alloc, decoder)
    }
}

impl Tabled<1, 1> for SureComponents {
    const FIELDS: Fields<1> = table![0 Required Context 0 "ok"];

    const EXTENDED_FIELDS: Option<Fields<1>> = Some(table![0 Required Context 1 "sure"]);

    fn root_fields() -> &'static [Field<'static>] {
        Self::FIELDS.fields
    }

    fn addition_fields() -> &'static [Field<'static>] {
        rows_of!(Self::EXTENDED_FIELDS)
    }

    #[inline(always)]
    fn put(&self, encoder: &mut Encoder<'_>) -> Result<(), EncodeError> {
        SureRow::write(&Both(&self.ok, Both(&self.sure, ())), encoder)
    }

    ghost counts = { (refl, refl) };
}

/// `SEQUENCE { it INTEGER, is OCTET STRING OPTIONAL, late INTEGER OPTIONAL, ..., today OCTET STRING }`, where each
/// component has its type's own tag: several have the same
pub type SequenceDuplicatesExtended = Sequence<components::SequenceDuplicatesExtended, 3, 1>;

type SequenceDuplicatesExtendedRow = Required<
    Universal<2>,
    Integer,
    Optional<
        Universal<4>,
        Octets,
        Optional<Universal<2>, Integer, Extensible<RequiredAddition<Universal<4>, Octets, End>>>,
    >,
>;

impl Rowed for components::SequenceDuplicatesExtended {
    type Values = <SequenceDuplicatesExtendedRow as Components>::Values;

    ghost EXTENSIBLE = { ⟦<SequenceDuplicatesExtendedRow as Components>⟧.EXTENSIBLE };

    const EXTENSIBLE: bool = true;

    ghost row_schema = { ⟦<SequenceDuplicatesExtendedRow as Components>⟧.schema };

    ghost row_is_schema = { ⟦<SequenceDuplicatesExtendedRow as Components>⟧.is_schema };

    ghost components = { λ v. both v.it (both v.is (both v.late (both v.today tt))) };

    fn from_row(Both(it, Both(is, Both(late, Both(today, ())))): Self::Values) -> Self {
        components::SequenceDuplicatesExtended {
            it,
            is,
            late,
            today,
        }
    }
}

impl Takes for components::SequenceDuplicatesExtended {
    ghost Refuses = { ⟦<SequenceDuplicatesExtendedRow as Reads>⟧.Refuses };

    #[inline(always)]
    fn take(alloc: Global, decoder: &mut Decoder<'_>) -> Result<Self, DecodeError> {
        read_row::<Self, SequenceDuplicatesExtendedRow>(alloc, decoder)
    }
}

impl Tabled<3, 1> for components::SequenceDuplicatesExtended {
    const FIELDS: Fields<3> = table![
        0 Required Universal 2 "it",
        1 Optional Universal 4 "is",
        2 Optional Universal 2 "late"
    ];

    const EXTENDED_FIELDS: Option<Fields<1>> = Some(table![0 Required Universal 4 "today"]);

    fn root_fields() -> &'static [Field<'static>] {
        Self::FIELDS.fields
    }

    fn addition_fields() -> &'static [Field<'static>] {
        rows_of!(Self::EXTENDED_FIELDS)
    }

    #[inline(always)]
    fn put(&self, encoder: &mut Encoder<'_>) -> Result<(), EncodeError> {
        SequenceDuplicatesExtendedRow::write(
            &Both(
                &self.it,
                Both(&self.is, Both(&self.late, Both(&self.today, ()))),
            ),
            encoder,
        )
    }

    ghost counts = { (refl, refl) };
}

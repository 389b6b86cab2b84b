//! One sequence of optional components under two sets of tags.
ghost use Rattle.rasn_oer.specs.Values.{both};
ghost use Rattle.std.specs.Prelude.{refl};

use rasn_oer::prelude::*;
use std::alloc::Global;

/// `SEQUENCE { it INTEGER, is OCTET STRING OPTIONAL, late INTEGER OPTIONAL }`, where each component has its type's own tag: two
/// have the same
pub type Untagged = Sequence<UntaggedComponents, 3, 0>;

/// The components of an `Untagged`.
#[derive(Debug, PartialEq, Eq, Drop)]
pub struct UntaggedComponents {
    pub it: Integer,
    pub is: Option<OctetString>,
    pub late: Option<Integer>,
}

type UntaggedRow = Required<
    Universal<2>,
    Integer,
    Optional<Universal<4>, OctetString, UntaggedLate>,
>;

type UntaggedLate = Optional<Universal<2>, Integer, End>;

impl Rowed for UntaggedComponents {
    type Values = <UntaggedRow as Components>::Values;

    ghost EXTENSIBLE = { ⟦<UntaggedRow as Components>⟧.EXTENSIBLE };

    const EXTENSIBLE: bool = false;

    ghost row_schema = { ⟦<UntaggedRow as Components>⟧.schema };

    ghost row_is_schema = { ⟦<UntaggedRow as Components>⟧.is_schema };

    ghost components = { λ v. both v.it (both v.is (both v.late tt)) };

    fn from_row(Both(it, Both(is, Both(late, ()))): Self::Values) -> Self {
        UntaggedComponents { it, is, late }
    }
}

impl Takes for UntaggedComponents {
    ghost Refuses = { ⟦<UntaggedRow as Reads>⟧.Refuses };

    #[inline(always)]
    fn take(alloc: Global, decoder: &mut Decoder<'_>) -> Result<Self, DecodeError> {
        read_row::<Self, UntaggedRow>(alloc, decoder)
    }
}

impl Tabled<3, 0> for UntaggedComponents {
    const FIELDS: Fields<3> = table![
        0 Required Universal 2 "it",
        1 Optional Universal 4 "is",
        2 Optional Universal 2 "late"
    ];

    const EXTENDED_FIELDS: Option<Fields<0>> = None;

    fn root_fields() -> &'static [Field<'static>] {
        Self::FIELDS.fields
    }

    fn addition_fields() -> &'static [Field<'static>] {
        rows_of!(Self::EXTENDED_FIELDS)
    }

    #[inline(always)]
    fn put(&self, encoder: &mut Encoder<'_>) -> Result<(), EncodeError> {
        UntaggedRow::write(
            &Both(&self.it, Both(&self.is, Both(&self.late, ()))),
            encoder,
        )
    }

    ghost counts = { (refl, refl) };
}

/// `SEQUENCE { it [0] EXPLICIT INTEGER, is [1] EXPLICIT OCTET STRING OPTIONAL, late [2] EXPLICIT INTEGER OPTIONAL }`: explicit tags
/// have no octets
pub type Explicit = Sequence<ExplicitComponents, 3, 0>;

/// The components of an `Explicit`.
#[derive(Debug, PartialEq, Eq, Drop)]
pub struct ExplicitComponents {
    pub it: Integer,
    pub is: Option<OctetString>,
    pub late: Option<Integer>,
}

type ExplicitRow = Required<Context<0>, Integer, Optional<Context<1>, OctetString, ExplicitLate>>;

type ExplicitLate = Optional<Context<2>, Integer, End>;

impl Rowed for ExplicitComponents {
    type Values = <ExplicitRow as Components>::Values;

    ghost EXTENSIBLE = { ⟦<ExplicitRow as Components>⟧.EXTENSIBLE };

    const EXTENSIBLE: bool = false;

    ghost row_schema = { ⟦<ExplicitRow as Components>⟧.schema };

    ghost row_is_schema = { ⟦<ExplicitRow as Components>⟧.is_schema };

    ghost components = { λ v. both v.it (both v.is (both v.late tt)) };

    fn from_row(Both(it, Both(is, Both(late, ()))): Self::Values) -> Self {
        ExplicitComponents { it, is, late }
    }
}

impl Takes for ExplicitComponents {
    ghost Refuses = { ⟦<ExplicitRow as Reads>⟧.Refuses };

    #[inline(always)]
    fn take(alloc: Global, decoder: &mut Decoder<'_>) -> Result<Self, DecodeError> {
        read_row::<Self, ExplicitRow>(alloc, decoder)
    }
}

impl Tabled<3, 0> for ExplicitComponents {
    const FIELDS: Fields<3> = table![
        0 Required Context 0 "it",
        1 Optional Context 1 "is",
        2 Optional Context 2 "late"
    ];

    const EXTENDED_FIELDS: Option<Fields<0>> = None;

    fn root_fields() -> &'static [Field<'static>] {
        Self::FIELDS.fields
    }

    fn addition_fields() -> &'static [Field<'static>] {
        rows_of!(Self::EXTENDED_FIELDS)
    }

    #[inline(always)]
    fn put(&self, encoder: &mut Encoder<'_>) -> Result<(), EncodeError> {
        ExplicitRow::write(
            &Both(&self.it, Both(&self.is, Both(&self.late, ()))),
            encoder,
        )
    }

    ghost counts = { (refl, refl) };
}

//! An extensible sequence: an addition, and a group.
ghost use Rattle.rasn_oer.specs.Values.{both};
ghost use Rattle.std.specs.Prelude.{refl};

use rasn_oer::prelude::*;
use std::alloc::Global;

/// `SEQUENCE { last BOOLEAN, count INTEGER (0..65535) OPTIONAL }`, which stands as a group in `Notice`
pub type Closing = Sequence<ClosingComponents, 2, 0>;

/// The components of a `Closing`.
#[derive(Debug, PartialEq, Eq, Drop)]
pub struct ClosingComponents {
    pub last: bool,
    pub count: Option<u16>,
}

type ClosingRow = Required<Context<2>, bool, Optional<Context<3>, u16, End>>;

impl Rowed for ClosingComponents {
    type Values = <ClosingRow as Components>::Values;

    ghost EXTENSIBLE = { ⟦<ClosingRow as Components>⟧.EXTENSIBLE };

    const EXTENSIBLE: bool = false;

    ghost row_schema = { ⟦<ClosingRow as Components>⟧.schema };

    ghost row_is_schema = { ⟦<ClosingRow as Components>⟧.is_schema };

    ghost components = { λ v. both v.last (both v.count tt) };

    fn from_row(
        Both(last, Both(count, ())): <ClosingRow as Components>::Values,
    ) -> ClosingComponents {
        ClosingComponents { last, count }
    }
}

impl Takes for ClosingComponents {
    ghost Refuses = { ⟦<ClosingRow as Reads>⟧.Refuses };

    #[inline(always)]
    fn take(alloc: Global, decoder: &mut Decoder<'_>) -> Result<Self, DecodeError> {
        read_row::<Self, ClosingRow>(alloc, decoder)
    }
}

impl Tabled<2, 0> for ClosingComponents {
    const FIELDS: Fields<2> = table![0 Required Context 2 "last", 1 Optional Context 3 "count"];

    const EXTENDED_FIELDS: Option<Fields<0>> = None;

    fn root_fields() -> &'static [Field<'static>] {
        Self::FIELDS.fields
    }

    fn addition_fields() -> &'static [Field<'static>] {
        rows_of!(Self::EXTENDED_FIELDS)
    }

    #[inline(always)]
    fn put(&self, encoder: &mut Encoder<'_>) -> Result<(), EncodeError> {
        ClosingRow::write(&Both(&self.last, Both(&self.count, ())), encoder)
    }

    ghost counts = { (refl, refl) };
}

/// `SEQUENCE { ok BOOLEAN, ..., level INTEGER OPTIONAL, [[ last BOOLEAN, count INTEGER (0..65535) OPTIONAL ]] }`
pub type Notice = Sequence<NoticeComponents, 1, 2>;

/// The components of a `Notice`.
#[derive(Debug, PartialEq, Eq, Drop)]
pub struct NoticeComponents {
    pub ok: bool,
    pub level: Option<Integer>,
    pub closing: Option<Closing>,
}

type NoticeRow = Required<Context<0>, bool, Extensible<NoticeAdditions>>;

type NoticeAdditions = OptionalAddition<Context<1>, Integer, AdditionGroup<2, 0, Closing, End>>;

impl Rowed for NoticeComponents {
    type Values = <NoticeRow as Components>::Values;

    ghost EXTENSIBLE = { ⟦<NoticeRow as Components>⟧.EXTENSIBLE };

    const EXTENSIBLE: bool = true;

    ghost row_schema = { ⟦<NoticeRow as Components>⟧.schema };

    ghost row_is_schema = { ⟦<NoticeRow as Components>⟧.is_schema };

    ghost components = { λ v. both v.ok (both v.level (both v.closing tt)) };

    fn from_row(row: <NoticeRow as Components>::Values) -> NoticeComponents {
        built![NoticeComponents from row: ok, level, closing]
    }
}

impl Takes for NoticeComponents {
    ghost Refuses = { ⟦<NoticeRow as Reads>⟧.Refuses };

    #[inline(always)]
    fn take(alloc: Global, decoder: &mut Decoder<'_>) -> Result<Self, DecodeError> {
        read_row::<Self, NoticeRow>(alloc, decoder)
    }
}

impl Tabled<1, 2> for NoticeComponents {
    const FIELDS: Fields<1> = table![0 Required Context 0 "ok"];

    const EXTENDED_FIELDS: Option<Fields<2>> = Some(table![
        0 Optional Context 1 "level",
        1 Optional Universal 16 "closing"
    ]);

    fn root_fields() -> &'static [Field<'static>] {
        Self::FIELDS.fields
    }

    fn addition_fields() -> &'static [Field<'static>] {
        rows_of!(Self::EXTENDED_FIELDS)
    }

    #[inline(always)]
    fn put(&self, encoder: &mut Encoder<'_>) -> Result<(), EncodeError> {
        NoticeRow::write(&views![self: ok, level, closing], encoder)
    }

    ghost counts = { (refl, refl) };
}

//! A sequence with a component of each sort.
ghost use Rattle.std.specs.Prelude.{refl, false, None, Some};
ghost use Rattle.rasn_oer.specs.Bounded.{Single};
ghost use Rattle.rasn_oer.specs.Values.{both};

use rasn_oer::prelude::*;
use std::alloc::Global;

/// The size of three octets: `(SIZE(3))`
pub struct OfThree;

impl Limits for OfThree {
    ghost LIMITS = { record { value = None; size = Some (Single 3, false) } };

    const LIMITS: Constraints = Constraints {
        value: None,
        size: Some((Bounded::Single(3), false)),
    };

    ghost consistent = { refl };
}

/// `OCTET STRING (SIZE(3))`
pub type Key = Limited<OctetString, OfThree>;

/// `SEQUENCE { version INTEGER (0..255), sent INTEGER (0..18446744073709551615) OPTIONAL, level INTEGER DEFAULT 5,
/// key Key, path SEQUENCE OF OCTET STRING }`
pub type Message = Sequence<MessageComponents, 5, 0>;

/// The components of a `Message`.
#[derive(Debug, PartialEq, Eq, Drop)]
pub struct MessageComponents {
    pub version: u8,
    pub sent: Option<u64>,
    pub level: Integer,
    pub key: Key,
    pub path: ListOf<Octets>,
}

type MessageRow = Required<Context<0>, u8, Optional<Context<1>, u64, FromLevel>>;

type FromLevel = Defaulted<Context<2>, Integer, IsNumber<5>, FromKey>;

type FromKey = Required<Context<3>, Key, Required<Context<4>, ListOf<Octets>, End>>;

impl Rowed for MessageComponents {
    type Values = <MessageRow as Components>::Values;

    ghost EXTENSIBLE = { ⟦<MessageRow as Components>⟧.EXTENSIBLE };

    const EXTENSIBLE: bool = false;

    ghost row_schema = { ⟦<MessageRow as Components>⟧.schema };

    ghost row_is_schema = { ⟦<MessageRow as Components>⟧.is_schema };

    ghost components = { λ v. both v.version (both v.sent (both v.level (both v.key (both v.path tt)))) };

    fn from_row(row: <MessageRow as Components>::Values) -> MessageComponents {
        built![MessageComponents from row: version, sent, level, key, path]
    }
}

impl Takes for MessageComponents {
    ghost Refuses = { ⟦<MessageRow as Reads>⟧.Refuses };

    #[inline(always)]
    fn take(alloc: Global, decoder: &mut Decoder<'_>) -> Result<Self, DecodeError> {
        read_row::<Self, MessageRow>(alloc, decoder)
    }
}

impl Tabled<5, 0> for MessageComponents {
    const FIELDS: Fields<5> = table![
        0 Required Context 0 "version",
        1 Optional Context 1 "sent",
        2 Default Context 2 "level",
        3 Required Context 3 "key",
        4 Required Context 4 "path"
    ];

    const EXTENDED_FIELDS: Option<Fields<0>> = None;

    fn root_fields() -> &'static [Field<'static>] {
        Self::FIELDS.fields
    }

    fn addition_fields() -> &'static [Field<'static>] {
        rows_of!(Self::EXTENDED_FIELDS)
    }

    #[inline(always)]
    fn put(&self, encoder: &mut Encoder<'_>) -> Result<(), EncodeError> {
        MessageRow::write(&views![self: version, sent, level, key, path], encoder)
    }

    ghost counts = { (refl, refl) };
}

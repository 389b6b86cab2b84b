//! Types of ASN.1 modules, as oergen printed them.

use crate::Title;
use rasn_oer::prelude::*;
use std::alloc::{AllocError, Global};

/// The default "é😀" of `PersonMark`.
pub struct PersonMarkDefault;

impl DefaultValue<UniversalText> for PersonMarkDefault {
    ghost use Rattle.std.specs.Prelude.{◌∷◌, [], refl};
    ghost use Rattle.rasn_oer.specs.Literals.{written};
    ghost use Rattle.rasn_oer.specs.Spelled.{texts_same};
    ghost use Rattle.rasn_oer.specs.Texts as texts;

    ghost value = { record { 0 = (0 ∷ 0 ∷ 0 ∷ 233 ∷ 0 ∷ 1 ∷ 246 ∷ 0 ∷ []) } };

    fn value(alloc: Global) -> Result<UniversalText, AllocError> {
        let octets: [u8; 8] = [0x00, 0x00, 0x00, 0xE9, 0x00, 0x01, 0xF6, 0x00];
        universal_from(alloc, &octets)
    }

    fn is_value(other: &UniversalText) -> bool {
        let octets: [u8; 8] = [0x00, 0x00, 0x00, 0xE9, 0x00, 0x01, 0xF6, 0x00];
        other.0.as_bytes() == octets.as_slice()
    }

    ghost admitted = { written texts.Universal (0 ∷ 0 ∷ 0 ∷ 233 ∷ 0 ∷ 1 ∷ 246 ∷ 0 ∷ []) refl (2, refl) };

    ghost decides = { λ c k v i. texts_same texts.Universal c v.0 _ };
}

/// `Person ::= SEQUENCE { title Title, country UniversalString (SIZE(2)), mark UniversalString (SIZE(1..2))
/// DEFAULT "é😀" }`
pub type Person = Sequence<PersonComponents, 3, 0>;

pub use person_components::Person as PersonComponents;

mod person_components {
    use super::*;

    /// The components of `Person`.
    #[derive(Debug, PartialEq, Eq, Drop)]
    pub struct Person {
        pub title: Title,
        pub country: Limited<UniversalText, FixedSize<2>>,
        pub mark: Limited<UniversalText, SizeBetween<1, 2>>,
    }
}

type PersonRow = Required<
    Context<0>,
    Title,
    Required<
        Context<1>,
        Limited<UniversalText, FixedSize<2>>,
        Defaulted<
            Context<2>,
            Limited<UniversalText, SizeBetween<1, 2>>,
            Within<PersonMarkDefault>,
            End,
        >,
    >,
>;

impl Rowed for PersonComponents {
    ghost use Rattle.rasn_oer.specs.Values.{both};

    type Values = <PersonRow as Components>::Values;

    ghost EXTENSIBLE = { ⟦<PersonRow as Components>⟧.EXTENSIBLE };

    const EXTENSIBLE: bool = false;

    ghost row_schema = { ⟦<PersonRow as Components>⟧.schema };

    ghost row_is_schema = { ⟦<PersonRow as Components>⟧.is_schema };

    ghost components = { λ v. both v.title (both v.country (both v.mark tt)) };

    fn from_row(row: Self::Values) -> Self {
        built![PersonComponents from row:
            title,
            country,
            mark
        ]
    }
}

impl Takes for PersonComponents {
    ghost Refuses = { ⟦<PersonRow as Reads>⟧.Refuses };

    #[inline(always)]
    fn take(alloc: Global, decoder: &mut Decoder<'_>) -> Result<Self, DecodeError> {
        read_row::<Self, PersonRow>(alloc, decoder)
    }
}

impl Tabled<3, 0> for PersonComponents {
    ghost use Rattle.std.specs.Prelude.{refl};

    const FIELDS: Fields<3> = Fields {
        fields: fields![
            0 Required Context 0 "title",
            1 Required Context 1 "country",
            2 Default Context 2 "mark"
        ],
    };

    const EXTENDED_FIELDS: Option<Fields<0>> = None;

    fn root_fields() -> &'static [Field<'static>] {
        Self::FIELDS.fields
    }

    fn addition_fields() -> &'static [Field<'static>] {
        rows_of!(Self::EXTENDED_FIELDS)
    }

    #[inline(always)]
    fn put(&self, encoder: &mut Encoder<'_>) -> Result<(), EncodeError> {
        let view = views![self:
            title,
            country,
            mark
        ];
        PersonRow::write(&view, encoder)
    }

    ghost counts = { (refl, refl) };
}

//! Types of ASN.1 modules, as oergen printed them.

use crate::{Colour, ColourValues, Name, Names, Rights};
use rasn_oer::prelude::*;
use std::alloc::{AllocError, Global};

/// The default {read} of `PermitRights`.
pub struct PermitRightsDefault;

impl DefaultValue<BitString> for PermitRightsDefault {
    ghost use Rattle.std.specs.Prelude.{◌∷◌, [], take};
    ghost use Rattle.rasn_oer.specs.Octets.{bits_of};
    ghost use Rattle.rasn_oer.specs.Spelled.{bit_strings_same};

    ghost value = { take 8 (bits_of (128 ∷ [])) };

    fn value(alloc: Global) -> Result<BitString, AllocError> {
        let octets: [u8; 1] = [0x80];
        bits_from(alloc, &octets, 8)
    }

    fn is_value(other: &BitString) -> bool {
        let octets: [u8; 1] = [0x80];
        are_bits(other, &octets, 8)
    }

    ghost admitted = { tt };

    ghost decides = { λ c k v i. bit_strings_same c v _ };
}

/// The default 'AB01'H of `PermitMark`.
pub struct PermitMarkDefault;

impl DefaultValue<Octets> for PermitMarkDefault {
    ghost use Rattle.std.specs.Prelude.{◌∷◌, [], refl};
    ghost use Rattle.rasn_oer.specs.Literals.{written};
    ghost use Rattle.rasn_oer.specs.Spelled.{texts_same};
    ghost use Rattle.rasn_oer.specs.Texts as texts;

    ghost value = { record { 0 = (171 ∷ 1 ∷ []) } };

    fn value(alloc: Global) -> Result<Octets, AllocError> {
        let octets: [u8; 2] = [0xAB, 0x01];
        let content = OctetString::from_slice(alloc, &octets)?;
        Ok(Octets(content))
    }

    fn is_value(other: &Octets) -> bool {
        let octets: [u8; 2] = [0xAB, 0x01];
        other.0.as_bytes() == octets.as_slice()
    }

    ghost admitted = { written texts.AnyOctets (171 ∷ 1 ∷ []) refl tt };

    ghost decides = { λ c k v i. texts_same texts.AnyOctets c v.0 _ };
}

/// The default "home" of `PermitPlace`.
pub struct PermitPlaceDefault;

impl DefaultValue<Ia5Text> for PermitPlaceDefault {
    ghost use Rattle.std.specs.Prelude.{◌∷◌, [], refl};
    ghost use Rattle.rasn_oer.specs.Literals.{written};
    ghost use Rattle.rasn_oer.specs.Spelled.{texts_same};
    ghost use Rattle.rasn_oer.specs.Texts as texts;

    ghost value = { record { 0 = (104 ∷ 111 ∷ 109 ∷ 101 ∷ []) } };

    fn value(alloc: Global) -> Result<Ia5Text, AllocError> {
        let octets: [u8; 4] = [0x68, 0x6F, 0x6D, 0x65];
        let content = Ia5String::from_text(alloc, &octets)?;
        Ok(Ia5Text(content))
    }

    fn is_value(other: &Ia5Text) -> bool {
        let octets: [u8; 4] = [0x68, 0x6F, 0x6D, 0x65];
        other.0.as_bytes() == octets.as_slice()
    }

    ghost admitted = { written texts.Ia5 (104 ∷ 111 ∷ 109 ∷ 101 ∷ []) refl refl };

    ghost decides = { λ c k v i. texts_same texts.Ia5 c v.0 _ };
}

/// The default green of `PermitColour`.
pub struct PermitColourDefault;

impl DefaultValue<Colour> for PermitColourDefault {
    ghost use Rattle.example_printed.specs.declared.types_01.ColourValues.TheVariants.{Green};
    ghost use Rattle.rasn_oer.specs.Numbered.{numbers_same};

    ghost value = { record { 0 = Green } };

    fn value(_alloc: Global) -> Result<Colour, AllocError> {
        Ok(Enumeration(ColourValues::Green))
    }

    fn is_value(other: &Colour) -> bool {
        *other == Enumeration(ColourValues::Green)
    }

    ghost admitted = { tt };

    ghost decides = { λ c k v i. numbers_same _ _ };
}

/// The default '101'B of `PermitBits`.
pub struct PermitBitsDefault;

impl DefaultValue<BitString> for PermitBitsDefault {
    ghost use Rattle.std.specs.Prelude.{◌∷◌, [], take};
    ghost use Rattle.rasn_oer.specs.Octets.{bits_of};
    ghost use Rattle.rasn_oer.specs.Spelled.{bit_strings_same};

    ghost value = { take 3 (bits_of (160 ∷ [])) };

    fn value(alloc: Global) -> Result<BitString, AllocError> {
        let octets: [u8; 1] = [0xA0];
        bits_from(alloc, &octets, 3)
    }

    fn is_value(other: &BitString) -> bool {
        let octets: [u8; 1] = [0xA0];
        are_bits(other, &octets, 3)
    }

    ghost admitted = { tt };

    ghost decides = { λ c k v i. bit_strings_same c v _ };
}

/// The default "Hi" of `PermitSeal`.
pub struct PermitSealDefault;

impl DefaultValue<BmpText> for PermitSealDefault {
    ghost use Rattle.std.specs.Prelude.{◌∷◌, [], refl};
    ghost use Rattle.rasn_oer.specs.Literals.{written};
    ghost use Rattle.rasn_oer.specs.Spelled.{texts_same};
    ghost use Rattle.rasn_oer.specs.Texts as texts;

    ghost value = { record { 0 = (0 ∷ 72 ∷ 0 ∷ 105 ∷ []) } };

    fn value(alloc: Global) -> Result<BmpText, AllocError> {
        let octets: [u8; 4] = [0x00, 0x48, 0x00, 0x69];
        bmp_from(alloc, &octets)
    }

    fn is_value(other: &BmpText) -> bool {
        let octets: [u8; 4] = [0x00, 0x48, 0x00, 0x69];
        other.0.as_bytes() == octets.as_slice()
    }

    ghost admitted = { written texts.Bmp (0 ∷ 72 ∷ 0 ∷ 105 ∷ []) refl (2, refl) };

    ghost decides = { λ c k v i. texts_same texts.Bmp c v.0 _ };
}

/// The default {write} of `PermitMore`.
pub struct PermitMoreDefault;

impl DefaultValue<BitString> for PermitMoreDefault {
    ghost use Rattle.std.specs.Prelude.{◌∷◌, [], take};
    ghost use Rattle.rasn_oer.specs.Octets.{bits_of};
    ghost use Rattle.rasn_oer.specs.Spelled.{bit_strings_same};

    ghost value = { take 8 (bits_of (64 ∷ [])) };

    fn value(alloc: Global) -> Result<BitString, AllocError> {
        let octets: [u8; 1] = [0x40];
        bits_from(alloc, &octets, 8)
    }

    fn is_value(other: &BitString) -> bool {
        let octets: [u8; 1] = [0x40];
        are_bits(other, &octets, 8)
    }

    ghost admitted = { tt };

    ghost decides = { λ c k v i. bit_strings_same c v _ };
}

/// `Permit ::= SEQUENCE { rights Rights DEFAULT usual, mark OCTET STRING (SIZE(2)) DEFAULT 'AB01'H,
/// place Name DEFAULT "home", colour Colour DEFAULT green, bits BIT STRING DEFAULT '101'B, nothing NULL
/// DEFAULT NULL, ..., seal BMPString DEFAULT "Hi", more Rights DEFAULT { write } }`
pub type Permit = Sequence<PermitComponents, 6, 2>;

pub use permit_components::Permit as PermitComponents;

mod permit_components {
    use super::*;

    /// The components of `Permit`.
    #[derive(Debug, PartialEq, Eq, Drop)]
    pub struct Permit {
        pub rights: Rights,
        pub mark: Limited<Octets, FixedSize<2>>,
        pub place: Name,
        pub colour: Colour,
        pub bits: BitString,
        pub nothing: (),
        pub seal: BmpText,
        pub more: Rights,
    }
}

type PermitRow = Defaulted<
    Context<0>,
    Rights,
    Within<PermitRightsDefault>,
    Defaulted<
        Context<1>,
        Limited<Octets, FixedSize<2>>,
        Within<PermitMarkDefault>,
        Defaulted<
            Context<2>,
            Name,
            Within<PermitPlaceDefault>,
            Defaulted<
                Context<3>,
                Colour,
                PermitColourDefault,
                Defaulted<Context<4>, BitString, PermitBitsDefault, PermitFromNothing>,
            >,
        >,
    >,
>;

/// The components of `Permit` from `nothing` on.
pub struct PermitFromNothing;

type PermitFromNothingRow = Defaulted<Context<5>, (), IsNull, Extensible<PermitAdditions>>;

impl Components for PermitFromNothing {
    type Values = <PermitFromNothingRow as Components>::Values;

    ghost EXTENSIBLE = { ⟦<PermitFromNothingRow as Components>⟧.EXTENSIBLE };

    const EXTENSIBLE: bool = true;

    ghost schema = { ⟦<PermitFromNothingRow as Components>⟧.schema };

    ghost is_schema = { ⟦<PermitFromNothingRow as Components>⟧.is_schema };
}

impl Slotted for PermitFromNothing {
    type Slots = <PermitFromNothingRow as Slotted>::Slots;

    ghost filled = { ⟦<PermitFromNothingRow as Slotted>⟧.filled };

    ghost filled_once = { ⟦<PermitFromNothingRow as Slotted>⟧.filled_once };

    #[inline(always)]
    fn empty() -> Self::Slots {
        PermitFromNothingRow::empty()
    }

    #[inline(always)]
    fn taken(slots: Self::Slots) -> Self::Values {
        PermitFromNothingRow::taken(slots)
    }
}

impl Reads for PermitFromNothing {
    ghost Refuses = { ⟦<PermitFromNothingRow as Reads>⟧.Refuses };

    #[inline(always)]
    fn read(
        alloc: Global,
        decoder: &mut Decoder<'_>,
        slots: &mut Self::Slots,
    ) -> Result<(), DecodeError> {
        <PermitFromNothingRow as Reads>::read(alloc, decoder, slots)
    }
}

impl<'v> Views<'v> for PermitFromNothing {
    type View = <PermitFromNothingRow as Views<'v>>::View;

    ghost seen = { ⟦<PermitFromNothingRow as Views<'v>>⟧.seen };

    #[inline(always)]
    fn write(view: &Self::View, encoder: &mut Encoder<'_>) -> Result<(), EncodeError> {
        PermitFromNothingRow::write(view, encoder)
    }
}

type PermitAdditions = DefaultedAddition<
    Context<6>,
    BmpText,
    PermitSealDefault,
    DefaultedAddition<Context<7>, Rights, Within<PermitMoreDefault>, End>,
>;

impl Rowed for PermitComponents {
    ghost use Rattle.rasn_oer.specs.Values.{both};

    type Values = <PermitRow as Components>::Values;

    ghost EXTENSIBLE = { ⟦<PermitRow as Components>⟧.EXTENSIBLE };

    const EXTENSIBLE: bool = true;

    ghost row_schema = { ⟦<PermitRow as Components>⟧.schema };

    ghost row_is_schema = { ⟦<PermitRow as Components>⟧.is_schema };

    ghost components = { λ v. both v.rights (both v.mark (both v.place (both v.colour (both v.bits (both v.nothing (both v.seal (both v.more tt))))))) };

    fn from_row(row: Self::Values) -> Self {
        built![PermitComponents from row:
            rights,
            mark,
            place,
            colour,
            bits,
            nothing,
            seal,
            more
        ]
    }
}

impl Takes for PermitComponents {
    ghost Refuses = { ⟦<PermitRow as Reads>⟧.Refuses };

    #[inline(always)]
    fn take(alloc: Global, decoder: &mut Decoder<'_>) -> Result<Self, DecodeError> {
        read_row::<Self, PermitRow>(alloc, decoder)
    }
}

impl Tabled<6, 2> for PermitComponents {
    ghost use Rattle.std.specs.Prelude.{refl};

    const FIELDS: Fields<6> = Fields {
        fields: fields![
            0 Default Context 0 "rights",
            1 Default Context 1 "mark",
            2 Default Context 2 "place",
            3 Default Context 3 "colour",
            4 Default Context 4 "bits",
            5 Default Context 5 "nothing"
        ],
    };

    const EXTENDED_FIELDS: Option<Fields<2>> = Some(Fields {
        fields: fields![
            0 Default Context 6 "seal",
            1 Default Context 7 "more"
        ],
    });

    fn root_fields() -> &'static [Field<'static>] {
        Self::FIELDS.fields
    }

    fn addition_fields() -> &'static [Field<'static>] {
        rows_of!(Self::EXTENDED_FIELDS)
    }

    #[inline(always)]
    fn put(&self, encoder: &mut Encoder<'_>) -> Result<(), EncodeError> {
        let view = views![self:
            rights,
            mark,
            place,
            colour,
            bits,
            nothing,
            seal,
            more
        ];
        PermitRow::write(&view, encoder)
    }

    ghost counts = { (refl, refl) };
}

/// `Folder ::= SEQUENCE { names Names DEFAULT { }, numbers SET (SIZE(0..9)) OF INTEGER DEFAULT { },
/// ..., more Names DEFAULT none }`
pub type Folder = Sequence<FolderComponents, 2, 1>;

pub use folder_components::Folder as FolderComponents;

mod folder_components {
    use super::*;

    /// The components of `Folder`.
    #[derive(Debug, PartialEq, Eq, Drop)]
    pub struct Folder {
        pub names: Names,
        pub numbers: SetOf<Integer>,
        pub more: Names,
    }
}

type FolderRow = Defaulted<
    Context<0>,
    Names,
    IsEmptyList,
    Defaulted<Context<1>, SetOf<Integer>, IsEmptyList, Extensible<FolderAdditions>>,
>;

type FolderAdditions = DefaultedAddition<Context<2>, Names, IsEmptyList, End>;

impl Rowed for FolderComponents {
    ghost use Rattle.rasn_oer.specs.Values.{both};

    type Values = <FolderRow as Components>::Values;

    ghost EXTENSIBLE = { ⟦<FolderRow as Components>⟧.EXTENSIBLE };

    const EXTENSIBLE: bool = true;

    ghost row_schema = { ⟦<FolderRow as Components>⟧.schema };

    ghost row_is_schema = { ⟦<FolderRow as Components>⟧.is_schema };

    ghost components = { λ v. both v.names (both v.numbers (both v.more tt)) };

    fn from_row(row: Self::Values) -> Self {
        built![FolderComponents from row:
            names,
            numbers,
            more
        ]
    }
}

impl Takes for FolderComponents {
    ghost Refuses = { ⟦<FolderRow as Reads>⟧.Refuses };

    #[inline(always)]
    fn take(alloc: Global, decoder: &mut Decoder<'_>) -> Result<Self, DecodeError> {
        read_row::<Self, FolderRow>(alloc, decoder)
    }
}

impl Tabled<2, 1> for FolderComponents {
    ghost use Rattle.std.specs.Prelude.{refl};

    const FIELDS: Fields<2> = Fields {
        fields: fields![
            0 Default Context 0 "names",
            1 Default Context 1 "numbers"
        ],
    };

    const EXTENDED_FIELDS: Option<Fields<1>> = Some(Fields {
        fields: fields![
            0 Default Context 2 "more"
        ],
    });

    fn root_fields() -> &'static [Field<'static>] {
        Self::FIELDS.fields
    }

    fn addition_fields() -> &'static [Field<'static>] {
        rows_of!(Self::EXTENDED_FIELDS)
    }

    #[inline(always)]
    fn put(&self, encoder: &mut Encoder<'_>) -> Result<(), EncodeError> {
        let view = views![self:
            names,
            numbers,
            more
        ];
        FolderRow::write(&view, encoder)
    }

    ghost counts = { (refl, refl) };
}

//! Types of ASN.1 modules, as oergen printed them.

use rasn_oer::prelude::*;
use std::alloc::{AllocError, Global};

/// The default "h""é" of `LabelsTitle`.
pub struct LabelsTitleDefault;

impl DefaultValue<Utf8Text> for LabelsTitleDefault {
    ghost use Rattle.std.specs.Prelude.{◌∷◌, [], refl};
    ghost use Rattle.rasn_oer.specs.Literals.{written, spelled};
    ghost use Rattle.rasn_oer.specs.Spelled.{texts_same};
    ghost use Rattle.rasn_oer.specs.Texts as texts;

    ghost value = { (104 ∷ 34 ∷ 195 ∷ 169 ∷ []) };

    fn value(alloc: Global) -> Result<Utf8Text, AllocError> {
        let octets: [u8; 4] = [0x68, 0x22, 0xC3, 0xA9];
        utf8_from(alloc, &octets)
    }

    fn is_value(other: &Utf8Text) -> bool {
        let octets: [u8; 4] = [0x68, 0x22, 0xC3, 0xA9];
        other.0.as_bytes() == octets.as_slice()
    }

    ghost admitted = { written texts.Utf8 (104 ∷ 34 ∷ 195 ∷ 169 ∷ []) refl (spelled (104 ∷ 34 ∷ 195 ∷ 169 ∷ []) refl) };

    ghost decides = { λ c k v i. texts_same texts.Utf8 c v _ };
}

/// The default "0 1" of `LabelsDigits`.
pub struct LabelsDigitsDefault;

impl DefaultValue<NumericText> for LabelsDigitsDefault {
    ghost use Rattle.std.specs.Prelude.{◌∷◌, [], refl};
    ghost use Rattle.rasn_oer.specs.Literals.{written};
    ghost use Rattle.rasn_oer.specs.Spelled.{texts_same};
    ghost use Rattle.rasn_oer.specs.Texts as texts;

    ghost value = { record { 0 = (48 ∷ 32 ∷ 49 ∷ []) } };

    fn value(alloc: Global) -> Result<NumericText, AllocError> {
        let octets: [u8; 3] = [0x30, 0x20, 0x31];
        let content = NumericString::from_text(alloc, &octets)?;
        Ok(NumericText(content))
    }

    fn is_value(other: &NumericText) -> bool {
        let octets: [u8; 3] = [0x30, 0x20, 0x31];
        other.0.as_bytes() == octets.as_slice()
    }

    ghost admitted = { written texts.Numeric (48 ∷ 32 ∷ 49 ∷ []) refl refl };

    ghost decides = { λ c k v i. texts_same texts.Numeric c v.0 _ };
}

/// The default "A." of `LabelsPlain`.
pub struct LabelsPlainDefault;

impl DefaultValue<PrintableText> for LabelsPlainDefault {
    ghost use Rattle.std.specs.Prelude.{◌∷◌, [], refl};
    ghost use Rattle.rasn_oer.specs.Literals.{written};
    ghost use Rattle.rasn_oer.specs.Spelled.{texts_same};
    ghost use Rattle.rasn_oer.specs.Texts as texts;

    ghost value = { record { 0 = (65 ∷ 46 ∷ []) } };

    fn value(alloc: Global) -> Result<PrintableText, AllocError> {
        let octets: [u8; 2] = [0x41, 0x2E];
        let content = PrintableString::from_text(alloc, &octets)?;
        Ok(PrintableText(content))
    }

    fn is_value(other: &PrintableText) -> bool {
        let octets: [u8; 2] = [0x41, 0x2E];
        other.0.as_bytes() == octets.as_slice()
    }

    ghost admitted = { written texts.Printable (65 ∷ 46 ∷ []) refl refl };

    ghost decides = { λ c k v i. texts_same texts.Printable c v.0 _ };
}

/// The default "~" of `LabelsSeen`.
pub struct LabelsSeenDefault;

impl DefaultValue<VisibleText> for LabelsSeenDefault {
    ghost use Rattle.std.specs.Prelude.{◌∷◌, [], refl};
    ghost use Rattle.rasn_oer.specs.Literals.{written};
    ghost use Rattle.rasn_oer.specs.Spelled.{texts_same};
    ghost use Rattle.rasn_oer.specs.Texts as texts;

    ghost value = { record { 0 = (126 ∷ []) } };

    fn value(alloc: Global) -> Result<VisibleText, AllocError> {
        let octets: [u8; 1] = [0x7E];
        let content = VisibleString::from_text(alloc, &octets)?;
        Ok(VisibleText(content))
    }

    fn is_value(other: &VisibleText) -> bool {
        let octets: [u8; 1] = [0x7E];
        other.0.as_bytes() == octets.as_slice()
    }

    ghost admitted = { written texts.Visible (126 ∷ []) refl refl };

    ghost decides = { λ c k v i. texts_same texts.Visible c v.0 _ };
}

/// The default "" of `LabelsGeneral`.
pub struct LabelsGeneralDefault;

impl DefaultValue<GeneralText> for LabelsGeneralDefault {
    ghost use Rattle.std.specs.Prelude.{◌∷◌, [], refl};
    ghost use Rattle.rasn_oer.specs.Literals.{written};
    ghost use Rattle.rasn_oer.specs.Spelled.{texts_same};
    ghost use Rattle.rasn_oer.specs.Texts as texts;

    ghost value = { record { 0 = ([]) } };

    fn value(alloc: Global) -> Result<GeneralText, AllocError> {
        let octets: [u8; 0] = [];
        let content = GeneralString::from_text(alloc, &octets)?;
        Ok(GeneralText(content))
    }

    fn is_value(other: &GeneralText) -> bool {
        let octets: [u8; 0] = [];
        other.0.as_bytes() == octets.as_slice()
    }

    ghost admitted = { written texts.General ([]) refl tt };

    ghost decides = { λ c k v i. texts_same texts.General c v.0 _ };
}

/// The default "g" of `LabelsGraphic`.
pub struct LabelsGraphicDefault;

impl DefaultValue<GraphicText> for LabelsGraphicDefault {
    ghost use Rattle.std.specs.Prelude.{◌∷◌, [], refl};
    ghost use Rattle.rasn_oer.specs.Literals.{written};
    ghost use Rattle.rasn_oer.specs.Spelled.{texts_same};
    ghost use Rattle.rasn_oer.specs.Texts as texts;

    ghost value = { record { 0 = (103 ∷ []) } };

    fn value(alloc: Global) -> Result<GraphicText, AllocError> {
        let octets: [u8; 1] = [0x67];
        let content = GraphicString::from_text(alloc, &octets)?;
        Ok(GraphicText(content))
    }

    fn is_value(other: &GraphicText) -> bool {
        let octets: [u8; 1] = [0x67];
        other.0.as_bytes() == octets.as_slice()
    }

    ghost admitted = { written texts.Graphic (103 ∷ []) refl tt };

    ghost decides = { λ c k v i. texts_same texts.Graphic c v.0 _ };
}

/// The default "t" of `LabelsTeletex`.
pub struct LabelsTeletexDefault;

impl DefaultValue<TeletexText> for LabelsTeletexDefault {
    ghost use Rattle.std.specs.Prelude.{◌∷◌, [], refl};
    ghost use Rattle.rasn_oer.specs.Literals.{written};
    ghost use Rattle.rasn_oer.specs.Spelled.{texts_same};
    ghost use Rattle.rasn_oer.specs.Texts as texts;

    ghost value = { record { 0 = (116 ∷ []) } };

    fn value(alloc: Global) -> Result<TeletexText, AllocError> {
        let octets: [u8; 1] = [0x74];
        let content = TeletexString::from_text(alloc, &octets)?;
        Ok(TeletexText(content))
    }

    fn is_value(other: &TeletexText) -> bool {
        let octets: [u8; 1] = [0x74];
        other.0.as_bytes() == octets.as_slice()
    }

    ghost admitted = { written texts.Teletex (116 ∷ []) refl tt };

    ghost decides = { λ c k v i. texts_same texts.Teletex c v.0 _ };
}

/// `Labels ::= SEQUENCE { title UTF8String DEFAULT "h""é", digits NumericString (SIZE(1..4))
/// DEFAULT "0 1", plain PrintableString DEFAULT "A.", seen VisibleString DEFAULT "~", general
/// GeneralString DEFAULT "", graphic GraphicString DEFAULT "g", teletex TeletexString DEFAULT "t" }`
pub type Labels = Sequence<LabelsComponents, 7, 0>;

pub use labels_components::Labels as LabelsComponents;

mod labels_components {
    use super::*;

    /// The components of `Labels`.
    #[derive(Debug, PartialEq, Eq, Drop)]
    pub struct Labels {
        pub title: Utf8Text,
        pub digits: Limited<NumericText, SizeBetween<1, 4>>,
        pub plain: PrintableText,
        pub seen: VisibleText,
        pub general: GeneralText,
        pub graphic: GraphicText,
        pub teletex: TeletexText,
    }
}

type LabelsRow = Defaulted<
    Context<0>,
    Utf8Text,
    LabelsTitleDefault,
    Defaulted<
        Context<1>,
        Limited<NumericText, SizeBetween<1, 4>>,
        Within<LabelsDigitsDefault>,
        Defaulted<
            Context<2>,
            PrintableText,
            LabelsPlainDefault,
            Defaulted<
                Context<3>,
                VisibleText,
                LabelsSeenDefault,
                Defaulted<Context<4>, GeneralText, LabelsGeneralDefault, LabelsFromGraphic>,
            >,
        >,
    >,
>;

/// The components of `Labels` from `graphic` on.
pub struct LabelsFromGraphic;

type LabelsFromGraphicRow = Defaulted<
    Context<5>,
    GraphicText,
    LabelsGraphicDefault,
    Defaulted<Context<6>, TeletexText, LabelsTeletexDefault, End>,
>;

impl Components for LabelsFromGraphic {
    type Values = <LabelsFromGraphicRow as Components>::Values;

    ghost EXTENSIBLE = { ⟦<LabelsFromGraphicRow as Components>⟧.EXTENSIBLE };

    const EXTENSIBLE: bool = false;

    ghost schema = { ⟦<LabelsFromGraphicRow as Components>⟧.schema };

    ghost is_schema = { ⟦<LabelsFromGraphicRow as Components>⟧.is_schema };
}

impl Slotted for LabelsFromGraphic {
    type Slots = <LabelsFromGraphicRow as Slotted>::Slots;

    ghost filled = { ⟦<LabelsFromGraphicRow as Slotted>⟧.filled };

    ghost filled_once = { ⟦<LabelsFromGraphicRow as Slotted>⟧.filled_once };

    #[inline(always)]
    fn empty() -> Self::Slots {
        LabelsFromGraphicRow::empty()
    }

    #[inline(always)]
    fn taken(slots: Self::Slots) -> Self::Values {
        LabelsFromGraphicRow::taken(slots)
    }
}

impl Reads for LabelsFromGraphic {
    ghost Refuses = { ⟦<LabelsFromGraphicRow as Reads>⟧.Refuses };

    #[inline(always)]
    fn read(
        alloc: Global,
        decoder: &mut Decoder<'_>,
        slots: &mut Self::Slots,
    ) -> Result<(), DecodeError> {
        <LabelsFromGraphicRow as Reads>::read(alloc, decoder, slots)
    }
}

impl<'v> Views<'v> for LabelsFromGraphic {
    type View = <LabelsFromGraphicRow as Views<'v>>::View;

    ghost seen = { ⟦<LabelsFromGraphicRow as Views<'v>>⟧.seen };

    #[inline(always)]
    fn write(view: &Self::View, encoder: &mut Encoder<'_>) -> Result<(), EncodeError> {
        LabelsFromGraphicRow::write(view, encoder)
    }
}

impl Rowed for LabelsComponents {
    ghost use Rattle.rasn_oer.specs.Values.{both};

    type Values = <LabelsRow as Components>::Values;

    ghost EXTENSIBLE = { ⟦<LabelsRow as Components>⟧.EXTENSIBLE };

    const EXTENSIBLE: bool = false;

    ghost row_schema = { ⟦<LabelsRow as Components>⟧.schema };

    ghost row_is_schema = { ⟦<LabelsRow as Components>⟧.is_schema };

    ghost components = { λ v. both v.title (both v.digits (both v.plain (both v.seen (both v.general (both v.graphic (both v.teletex tt)))))) };

    fn from_row(row: Self::Values) -> Self {
        built![LabelsComponents from row:
            title,
            digits,
            plain,
            seen,
            general,
            graphic,
            teletex
        ]
    }
}

impl Takes for LabelsComponents {
    ghost Refuses = { ⟦<LabelsRow as Reads>⟧.Refuses };

    #[inline(always)]
    fn take(alloc: Global, decoder: &mut Decoder<'_>) -> Result<Self, DecodeError> {
        read_row::<Self, LabelsRow>(alloc, decoder)
    }
}

impl Tabled<7, 0> for LabelsComponents {
    ghost use Rattle.std.specs.Prelude.{refl};

    const FIELDS: Fields<7> = Fields {
        fields: fields![
            0 Default Context 0 "title",
            1 Default Context 1 "digits",
            2 Default Context 2 "plain",
            3 Default Context 3 "seen",
            4 Default Context 4 "general",
            5 Default Context 5 "graphic",
            6 Default Context 6 "teletex"
        ],
    };

    const EXTENDED_FIELDS: Option<Fields<0>> = None;

    fn root_fields() -> &'static [Field<'static>] {
        Self::FIELDS.fields
    }

    fn addition_fields() -> &'static [Field<'static>] {
        rows_of!(Self::EXTENDED_FIELDS)
    }

    #[inline(always)]
    fn put(&self, encoder: &mut Encoder<'_>) -> Result<(), EncodeError> {
        let view = views![self:
            title,
            digits,
            plain,
            seen,
            general,
            graphic,
            teletex
        ];
        LabelsRow::write(&view, encoder)
    }

    ghost counts = { (refl, refl) };
}

/// `Spot ::= SEQUENCE { x INTEGER (0..255), y INTEGER (0..255) }`
pub type Spot = Sequence<SpotComponents, 2, 0>;

pub use spot_components::Spot as SpotComponents;

mod spot_components {
    use super::*;

    /// The components of `Spot`.
    #[derive(Debug, PartialEq, Eq, Drop)]
    pub struct Spot {
        pub x: u8,
        pub y: u8,
    }
}

type SpotRow = Required<Context<0>, u8, Required<Context<1>, u8, End>>;

impl Rowed for SpotComponents {
    ghost use Rattle.rasn_oer.specs.Values.{both};

    type Values = <SpotRow as Components>::Values;

    ghost EXTENSIBLE = { ⟦<SpotRow as Components>⟧.EXTENSIBLE };

    const EXTENSIBLE: bool = false;

    ghost row_schema = { ⟦<SpotRow as Components>⟧.schema };

    ghost row_is_schema = { ⟦<SpotRow as Components>⟧.is_schema };

    ghost components = { λ v. both v.x (both v.y tt) };

    fn from_row(row: Self::Values) -> Self {
        built![SpotComponents from row:
            x,
            y
        ]
    }
}

impl Takes for SpotComponents {
    ghost Refuses = { ⟦<SpotRow as Reads>⟧.Refuses };

    #[inline(always)]
    fn take(alloc: Global, decoder: &mut Decoder<'_>) -> Result<Self, DecodeError> {
        read_row::<Self, SpotRow>(alloc, decoder)
    }
}

impl Tabled<2, 0> for SpotComponents {
    ghost use Rattle.std.specs.Prelude.{refl};

    const FIELDS: Fields<2> = Fields {
        fields: fields![
            0 Required Context 0 "x",
            1 Required Context 1 "y"
        ],
    };

    const EXTENDED_FIELDS: Option<Fields<0>> = None;

    fn root_fields() -> &'static [Field<'static>] {
        Self::FIELDS.fields
    }

    fn addition_fields() -> &'static [Field<'static>] {
        rows_of!(Self::EXTENDED_FIELDS)
    }

    #[inline(always)]
    fn put(&self, encoder: &mut Encoder<'_>) -> Result<(), EncodeError> {
        let view = views![self:
            x,
            y
        ];
        SpotRow::write(&view, encoder)
    }

    ghost counts = { (refl, refl) };
}

/// `SEQUENCE { middle Spot, radius INTEGER (0..65535) }`
pub type AreaRound = Sequence<AreaRoundComponents, 2, 0>;

pub use area_round_components::AreaRound as AreaRoundComponents;

mod area_round_components {
    use super::*;

    /// The components of `AreaRound`.
    #[derive(Debug, PartialEq, Eq, Drop)]
    pub struct AreaRound {
        pub middle: Spot,
        pub radius: u16,
    }
}

type AreaRoundRow = Required<Context<0>, Spot, Required<Context<1>, u16, End>>;

impl Rowed for AreaRoundComponents {
    ghost use Rattle.rasn_oer.specs.Values.{both};

    type Values = <AreaRoundRow as Components>::Values;

    ghost EXTENSIBLE = { ⟦<AreaRoundRow as Components>⟧.EXTENSIBLE };

    const EXTENSIBLE: bool = false;

    ghost row_schema = { ⟦<AreaRoundRow as Components>⟧.schema };

    ghost row_is_schema = { ⟦<AreaRoundRow as Components>⟧.is_schema };

    ghost components = { λ v. both v.middle (both v.radius tt) };

    fn from_row(row: Self::Values) -> Self {
        built![AreaRoundComponents from row:
            middle,
            radius
        ]
    }
}

impl Takes for AreaRoundComponents {
    ghost Refuses = { ⟦<AreaRoundRow as Reads>⟧.Refuses };

    #[inline(always)]
    fn take(alloc: Global, decoder: &mut Decoder<'_>) -> Result<Self, DecodeError> {
        read_row::<Self, AreaRoundRow>(alloc, decoder)
    }
}

impl Tabled<2, 0> for AreaRoundComponents {
    ghost use Rattle.std.specs.Prelude.{refl};

    const FIELDS: Fields<2> = Fields {
        fields: fields![
            0 Required Context 0 "middle",
            1 Required Context 1 "radius"
        ],
    };

    const EXTENDED_FIELDS: Option<Fields<0>> = None;

    fn root_fields() -> &'static [Field<'static>] {
        Self::FIELDS.fields
    }

    fn addition_fields() -> &'static [Field<'static>] {
        rows_of!(Self::EXTENDED_FIELDS)
    }

    #[inline(always)]
    fn put(&self, encoder: &mut Encoder<'_>) -> Result<(), EncodeError> {
        let view = views![self:
            middle,
            radius
        ];
        AreaRoundRow::write(&view, encoder)
    }

    ghost counts = { (refl, refl) };
}

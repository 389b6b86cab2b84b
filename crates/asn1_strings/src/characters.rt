//! Restricted character string types, each by its tag and the octets that its texts may have (X.680, clause 41).
use crate::strings::{CharacterSet, RestrictedString};
use asn1_core::Tag;

/// NumericString: digits and space (X.680, clause 41).
pub type NumericString = RestrictedString<NumericCharacters>;

/// The characters of NumericString.
#[derive(Drop)]
pub enum NumericCharacters {}

impl CharacterSet for NumericCharacters {
    ghost use Rattle.std.specs.Prelude.{refl};
    ghost use Rattle.asn1_core.specs.declared.tag.TheConstants.Tag.{NUMERIC_STRING};
    ghost use Rattle.asn1_core.specs.Texts.{Numeric, is_numeric};
    ghost use Rattle.asn1_strings.specs.Characters.{one_octet_each};

    ghost rule = { Numeric };

    ghost permitted = { is_numeric };

    ghost TAG = { NUMERIC_STRING };

    const TAG: Tag = Tag::NUMERIC_STRING;

    ghost OCTETS_PER_CHARACTER = { 1 };

    const OCTETS_PER_CHARACTER: usize = 1;

    fn permits(octet: u8) -> bool {
        matches!(octet, b'0'..=b'9' | b' ')
    }

    ghost unit = { refl };

    ghost obeys = { one_octet_each is_numeric };
}

/// PrintableString: letters, digits, space and `' ( ) + , - . / : = ?` (X.680, clause 41).
pub type PrintableString = RestrictedString<PrintableCharacters>;

/// The characters of PrintableString.
#[derive(Drop)]
pub enum PrintableCharacters {}

impl CharacterSet for PrintableCharacters {
    ghost use Rattle.std.specs.Prelude.{refl};
    ghost use Rattle.asn1_core.specs.declared.tag.TheConstants.Tag.{PRINTABLE_STRING};
    ghost use Rattle.asn1_core.specs.Texts.{Printable, is_printable};
    ghost use Rattle.asn1_strings.specs.Characters.{one_octet_each};

    ghost rule = { Printable };

    ghost permitted = { is_printable };

    ghost TAG = { PRINTABLE_STRING };

    const TAG: Tag = Tag::PRINTABLE_STRING;

    ghost OCTETS_PER_CHARACTER = { 1 };

    const OCTETS_PER_CHARACTER: usize = 1;

    fn permits(octet: u8) -> bool {
        match octet {
            b'A'..=b'Z' | b'a'..=b'z' | b'0'..=b'9' => true,
            b' ' | b'\'' | b'(' | b')' | b'+' | b',' | b'-' | b'.' | b'/' | b':' | b'=' | b'?' =>
                true,
            _ => false,
        }
    }

    ghost unit = { refl };

    ghost obeys = { one_octet_each is_printable };
}

/// VisibleString: the octets 20 to 7E, ASCII's printing characters and space (X.680, clause 41).
pub type VisibleString = RestrictedString<VisibleCharacters>;

/// The characters of VisibleString.
#[derive(Drop)]
pub enum VisibleCharacters {}

impl CharacterSet for VisibleCharacters {
    ghost use Rattle.std.specs.Prelude.{refl};
    ghost use Rattle.asn1_core.specs.declared.tag.TheConstants.Tag.{VISIBLE_STRING};
    ghost use Rattle.asn1_core.specs.Texts.{Visible, is_visible};
    ghost use Rattle.asn1_strings.specs.Characters.{one_octet_each};

    ghost rule = { Visible };

    ghost permitted = { is_visible };

    ghost TAG = { VISIBLE_STRING };

    const TAG: Tag = Tag::VISIBLE_STRING;

    ghost OCTETS_PER_CHARACTER = { 1 };

    const OCTETS_PER_CHARACTER: usize = 1;

    fn permits(octet: u8) -> bool {
        matches!(octet, b' '..=b'~')
    }

    ghost unit = { refl };

    ghost obeys = { one_octet_each is_visible };
}

/// IA5String: the octets 00 to 7F, ASCII (X.680, clause 41).
pub type Ia5String = RestrictedString<Ia5Characters>;

/// The characters of IA5String.
#[derive(Drop)]
pub enum Ia5Characters {}

impl CharacterSet for Ia5Characters {
    ghost use Rattle.std.specs.Prelude.{refl};
    ghost use Rattle.asn1_core.specs.declared.tag.TheConstants.Tag.{IA5_STRING};
    ghost use Rattle.asn1_core.specs.Texts.{Ia5, is_ia5};
    ghost use Rattle.asn1_strings.specs.Characters.{one_octet_each};

    ghost rule = { Ia5 };

    ghost permitted = { is_ia5 };

    ghost TAG = { IA5_STRING };

    const TAG: Tag = Tag::IA5_STRING;

    ghost OCTETS_PER_CHARACTER = { 1 };

    const OCTETS_PER_CHARACTER: usize = 1;

    fn permits(octet: u8) -> bool {
        octet.is_ascii()
    }

    ghost unit = { refl };

    ghost obeys = { one_octet_each is_ia5 };
}

/// GeneralString: any octets (X.680, clause 41).
pub type GeneralString = RestrictedString<GeneralCharacters>;

/// The characters of GeneralString.
#[derive(Drop)]
pub enum GeneralCharacters {}

impl CharacterSet for GeneralCharacters {
    ghost use Rattle.std.specs.Prelude.{refl, true};
    ghost use Rattle.asn1_core.specs.declared.tag.TheConstants.Tag.{GENERAL_STRING};
    ghost use Rattle.asn1_core.specs.Texts.{General};
    ghost use Rattle.asn1_strings.specs.Characters.{any_octets};

    ghost rule = { General };

    ghost permitted = { λ _. true };

    ghost TAG = { GENERAL_STRING };

    const TAG: Tag = Tag::GENERAL_STRING;

    ghost OCTETS_PER_CHARACTER = { 1 };

    const OCTETS_PER_CHARACTER: usize = 1;

    fn permits(_octet: u8) -> bool {
        true
    }

    ghost unit = { refl };

    ghost obeys = { any_octets };
}

/// GraphicString: any octets (X.680, clause 41).
pub type GraphicString = RestrictedString<GraphicCharacters>;

/// The characters of GraphicString.
#[derive(Drop)]
pub enum GraphicCharacters {}

impl CharacterSet for GraphicCharacters {
    ghost use Rattle.std.specs.Prelude.{refl, true};
    ghost use Rattle.asn1_core.specs.declared.tag.TheConstants.Tag.{GRAPHIC_STRING};
    ghost use Rattle.asn1_core.specs.Texts.{Graphic};
    ghost use Rattle.asn1_strings.specs.Characters.{any_octets};

    ghost rule = { Graphic };

    ghost permitted = { λ _. true };

    ghost TAG = { GRAPHIC_STRING };

    const TAG: Tag = Tag::GRAPHIC_STRING;

    ghost OCTETS_PER_CHARACTER = { 1 };

    const OCTETS_PER_CHARACTER: usize = 1;

    fn permits(_octet: u8) -> bool {
        true
    }

    ghost unit = { refl };

    ghost obeys = { any_octets };
}

/// TeletexString: any octets (X.680, clause 41).
pub type TeletexString = RestrictedString<TeletexCharacters>;

/// The characters of TeletexString.
#[derive(Drop)]
pub enum TeletexCharacters {}

impl CharacterSet for TeletexCharacters {
    ghost use Rattle.std.specs.Prelude.{refl, true};
    ghost use Rattle.asn1_core.specs.declared.tag.TheConstants.Tag.{TELETEX_STRING};
    ghost use Rattle.asn1_core.specs.Texts.{Teletex};
    ghost use Rattle.asn1_strings.specs.Characters.{any_octets};

    ghost rule = { Teletex };

    ghost permitted = { λ _. true };

    ghost TAG = { TELETEX_STRING };

    const TAG: Tag = Tag::TELETEX_STRING;

    ghost OCTETS_PER_CHARACTER = { 1 };

    const OCTETS_PER_CHARACTER: usize = 1;

    fn permits(_octet: u8) -> bool {
        true
    }

    ghost unit = { refl };

    ghost obeys = { any_octets };
}

/// BMPString: 16-bit units, two octets each, the higher one first (X.680, clause 41).
pub type BmpString = RestrictedString<BmpCharacters>;

/// The characters of BMPString.
#[derive(Drop)]
pub enum BmpCharacters {}

impl CharacterSet for BmpCharacters {
    ghost use Rattle.std.specs.Prelude.{refl, true};
    ghost use Rattle.asn1_core.specs.declared.tag.TheConstants.Tag.{BMP_STRING};
    ghost use Rattle.asn1_core.specs.Texts.{Bmp};
    ghost use Rattle.asn1_strings.specs.Characters.{whole_characters};

    ghost rule = { Bmp };

    ghost permitted = { λ _. true };

    ghost TAG = { BMP_STRING };

    const TAG: Tag = Tag::BMP_STRING;

    ghost OCTETS_PER_CHARACTER = { 2 };

    const OCTETS_PER_CHARACTER: usize = 2;

    fn permits(_octet: u8) -> bool {
        true
    }

    ghost unit = { refl };

    ghost obeys = { whole_characters 2 };
}

/// UniversalString: 32-bit units, four octets each, the highest first (X.680, clause 41).
pub type UniversalString = RestrictedString<UniversalCharacters>;

/// The characters of UniversalString.
#[derive(Drop)]
pub enum UniversalCharacters {}

impl CharacterSet for UniversalCharacters {
    ghost use Rattle.std.specs.Prelude.{refl, true};
    ghost use Rattle.asn1_core.specs.declared.tag.TheConstants.Tag.{UNIVERSAL_STRING};
    ghost use Rattle.asn1_core.specs.Texts.{Universal};
    ghost use Rattle.asn1_strings.specs.Characters.{whole_characters};

    ghost rule = { Universal };

    ghost permitted = { λ _. true };

    ghost TAG = { UNIVERSAL_STRING };

    const TAG: Tag = Tag::UNIVERSAL_STRING;

    ghost OCTETS_PER_CHARACTER = { 4 };

    const OCTETS_PER_CHARACTER: usize = 4;

    fn permits(_octet: u8) -> bool {
        true
    }

    ghost unit = { refl };

    ghost obeys = { whole_characters 4 };
}

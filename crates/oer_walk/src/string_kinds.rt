//! What the octets of strings are, and the numbers for it in a table.
ghost use Rattle.std.specs.Prelude.{◌≡◌, ◌<◌, Some};
ghost use Rattle.asn1_core.specs.Texts.{unit_of};
ghost use Rattle.oer_walk.specs.StringKinds.{rule_of, string_kind_numbered, string_kind_number};

/// What the octets of a `Kind::FixedString` or a `Kind::String` are: `text` in a table.
#[derive(Debug, Clone, Copy, PartialEq, Eq)]
pub enum StringKind {
    OctetString,
    Utf8String,
    NumericString,
    PrintableString,
    VisibleString,
    Ia5String,
    GeneralString,
    GraphicString,
    TeletexString,
    BmpString,
    UniversalString,
    ObjectIdentifier,
    UtcTime,
    GeneralizedTime,
    Date,
    /// The octets of an open type.
    Any,
}

impl StringKind {
    /// The kind with that number, if there is one.
    pub fn of(number: u32) -> Option<StringKind>
        ensures { result ≡ string_kind_numbered number }
    {
        match number {
            0 => Some(StringKind::OctetString),
            1 => Some(StringKind::Utf8String),
            2 => Some(StringKind::NumericString),
            3 => Some(StringKind::PrintableString),
            4 => Some(StringKind::VisibleString),
            5 => Some(StringKind::Ia5String),
            6 => Some(StringKind::GeneralString),
            7 => Some(StringKind::GraphicString),
            8 => Some(StringKind::TeletexString),
            9 => Some(StringKind::BmpString),
            10 => Some(StringKind::UniversalString),
            20 => Some(StringKind::ObjectIdentifier),
            21 => Some(StringKind::UtcTime),
            22 => Some(StringKind::GeneralizedTime),
            23 => Some(StringKind::Date),
            24 => Some(StringKind::Any),
            _ => None,
        }
    }

    /// The number that stands for this kind in a table, by which `of` finds it.
    pub fn number(self) -> u32
        ensures number { result ≡ string_kind_number self }
        ensures found { string_kind_numbered result ≡ Some self }
    {
        match self {
            StringKind::OctetString => 0,
            StringKind::Utf8String => 1,
            StringKind::NumericString => 2,
            StringKind::PrintableString => 3,
            StringKind::VisibleString => 4,
            StringKind::Ia5String => 5,
            StringKind::GeneralString => 6,
            StringKind::GraphicString => 7,
            StringKind::TeletexString => 8,
            StringKind::BmpString => 9,
            StringKind::UniversalString => 10,
            StringKind::ObjectIdentifier => 20,
            StringKind::UtcTime => 21,
            StringKind::GeneralizedTime => 22,
            StringKind::Date => 23,
            StringKind::Any => 24,
        }
    }

    /// How many octets a size counts as one: those of a character of a BMPString or a UniversalString, else one.
    pub fn octets_per_character(self) -> usize
        ensures value { result ≡ unit_of (rule_of self) }
        ensures positive { 0 < result }
    {
        match self {
            StringKind::BmpString => 2,
            StringKind::UniversalString => 4,
            _ => 1,
        }
    }
}

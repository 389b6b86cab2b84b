//! Tags: their classes, numbers and order, and the universal tags (X.680, clause 8).
ghost use Rattle.std.specs.Prelude.{◌≡◌};
ghost use Rattle.asn1_core.specs.Tags.{class_number};

/// The class of a tag (X.680, clause 8), in the order of tags (X.680, 8.6).
#[derive(Debug, Clone, Copy, PartialEq, Eq, PartialOrd, Ord)]
pub enum Class {
    Universal,
    Application,
    Context,
    Private,
}

impl Class {
    /// The class's number, which is its place in the order of tags (X.680, 8.6) and the top two bits of a tag's first octet
    /// (X.696, 8.7.2.1): 0 universal, 1 application, 2 context, 3 private.
    #[inline(always)]
    pub fn number(self) -> u8
        ensures { result ≡ class_number self }
    {
        match self {
            Class::Universal => 0,
            Class::Application => 1,
            Class::Context => 2,
            Class::Private => 3,
        }
    }
}

/// A tag: its class and its number (X.680, clause 8).
///
/// Tags are ordered by class, then by number (X.680, 8.6).
#[derive(Debug, Clone, Copy, PartialEq, Eq, PartialOrd, Ord)]
pub struct Tag {
    /// The class.
    pub class: Class,
    /// The number within the class.
    pub value: u32,
}

impl Tag {
    /// No tag of its own: choices and open types.
    pub const EOC: Tag = Tag {
        class: Class::Universal,
        value: 0,
    };
    /// BOOLEAN.
    pub const BOOL: Tag = Tag {
        class: Class::Universal,
        value: 1,
    };
    /// INTEGER.
    pub const INTEGER: Tag = Tag {
        class: Class::Universal,
        value: 2,
    };
    /// BIT STRING.
    pub const BIT_STRING: Tag = Tag {
        class: Class::Universal,
        value: 3,
    };
    /// OCTET STRING.
    pub const OCTET_STRING: Tag = Tag {
        class: Class::Universal,
        value: 4,
    };
    /// NULL.
    pub const NULL: Tag = Tag {
        class: Class::Universal,
        value: 5,
    };
    /// OBJECT IDENTIFIER.
    pub const OBJECT_IDENTIFIER: Tag = Tag {
        class: Class::Universal,
        value: 6,
    };
    /// ENUMERATED.
    pub const ENUMERATED: Tag = Tag {
        class: Class::Universal,
        value: 10,
    };
    /// UTF8String.
    pub const UTF8_STRING: Tag = Tag {
        class: Class::Universal,
        value: 12,
    };
    /// SEQUENCE and SEQUENCE OF.
    pub const SEQUENCE: Tag = Tag {
        class: Class::Universal,
        value: 16,
    };
    /// SET and SET OF.
    pub const SET: Tag = Tag {
        class: Class::Universal,
        value: 17,
    };
    /// NumericString.
    pub const NUMERIC_STRING: Tag = Tag {
        class: Class::Universal,
        value: 18,
    };
    /// PrintableString.
    pub const PRINTABLE_STRING: Tag = Tag {
        class: Class::Universal,
        value: 19,
    };
    /// TeletexString.
    pub const TELETEX_STRING: Tag = Tag {
        class: Class::Universal,
        value: 20,
    };
    /// IA5String.
    pub const IA5_STRING: Tag = Tag {
        class: Class::Universal,
        value: 22,
    };
    /// UTCTime.
    pub const UTC_TIME: Tag = Tag {
        class: Class::Universal,
        value: 23,
    };
    /// GeneralizedTime.
    pub const GENERALIZED_TIME: Tag = Tag {
        class: Class::Universal,
        value: 24,
    };
    /// GraphicString.
    pub const GRAPHIC_STRING: Tag = Tag {
        class: Class::Universal,
        value: 25,
    };
    /// VisibleString.
    pub const VISIBLE_STRING: Tag = Tag {
        class: Class::Universal,
        value: 26,
    };
    /// GeneralString.
    pub const GENERAL_STRING: Tag = Tag {
        class: Class::Universal,
        value: 27,
    };
    /// UniversalString.
    pub const UNIVERSAL_STRING: Tag = Tag {
        class: Class::Universal,
        value: 28,
    };
    /// BMPString.
    pub const BMP_STRING: Tag = Tag {
        class: Class::Universal,
        value: 30,
    };
    /// DATE.
    pub const DATE: Tag = Tag {
        class: Class::Universal,
        value: 31,
    };

    /// The tag of that class and number.
    pub const fn new(class: Class, value: u32) -> Tag
        ensures { result ≡ record { class = class; value = value } }
    {
        Tag { class, value }
    }
}

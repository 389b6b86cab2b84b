//! The kinds of types, and their numbers in a table.
ghost use Rattle.std.specs.Prelude.{◌≡◌, Some};
ghost use Rattle.oer_walk.specs.Kinds.{kind_number, kind_numbered, has_parts};

/// The kind of a type: how it lies in octets, and what its octets are.
#[derive(Debug, Clone, Copy, PartialEq, Eq)]
pub enum Kind {
    Boolean,
    Null,
    /// An INTEGER of so many octets: `octets signed` go with it in a table.
    FixedInteger,
    /// An INTEGER behind a length: `signed`.
    Integer,
    Enumerated,
    /// A BIT STRING of so many bits: `bits`.
    FixedBitString,
    /// A BIT STRING behind a length.
    BitString,
    /// A BIT STRING behind a length, with named bits: 0 bits at its end carry no meaning (X.680, 22.7).
    NamedBitString,
    /// Octets or characters, so many octets: `octets text`, the second by [`StringKind`](crate::StringKind).
    FixedString,
    /// Octets or characters behind a length: `text`.
    String,
    /// A SEQUENCE OF or SET OF: `is_set element`.
    List,
    /// A SEQUENCE or SET: `extensible roots additions`, then `name may_be_absent type` of each.
    Sequence,
    /// `extensible roots additions`, then `name class number type` of each.
    Choice,
}

impl Kind {
    /// The kind with that number, if there is one.
    pub fn of(number: u32) -> Option<Kind>
        ensures { result ≡ kind_numbered number }
    {
        match number {
            0 => Some(Kind::Boolean),
            1 => Some(Kind::Null),
            2 => Some(Kind::FixedInteger),
            3 => Some(Kind::Integer),
            4 => Some(Kind::Enumerated),
            5 => Some(Kind::FixedBitString),
            6 => Some(Kind::BitString),
            7 => Some(Kind::FixedString),
            8 => Some(Kind::String),
            9 => Some(Kind::NamedBitString),
            10 => Some(Kind::List),
            11 => Some(Kind::Sequence),
            12 => Some(Kind::Choice),
            _ => None,
        }
    }

    /// The number that stands for this kind in a table, by which `of` finds it.
    pub fn number(self) -> u32
        ensures number { result ≡ kind_number self }
        ensures found { kind_numbered result ≡ Some self }
    {
        match self {
            Kind::Boolean => 0,
            Kind::Null => 1,
            Kind::FixedInteger => 2,
            Kind::Integer => 3,
            Kind::Enumerated => 4,
            Kind::FixedBitString => 5,
            Kind::BitString => 6,
            Kind::FixedString => 7,
            Kind::String => 8,
            Kind::NamedBitString => 9,
            Kind::List => 10,
            Kind::Sequence => 11,
            Kind::Choice => 12,
        }
    }

    /// Whether a value of this kind has parts.
    pub fn has_parts(self) -> bool
        ensures { result ≡ has_parts self }
    {
        matches!(self, Kind::List | Kind::Sequence | Kind::Choice)
    }
}

//! Types of ASN.1 modules, as oergen printed them.

/// The value `three` of `Samples`.
pub const THREE: i128 = 3;

/// The value `top` of `Levels`.
pub const TOP: i128 = 65535;

/// The value `limit` of `Levels`.
pub const LIMIT: i128 = 65535;

/// The place of the bit `first` of `Bits`.
pub const BITS_FIRST: usize = 0;

/// The place of the bit `last` of `Bits`.
pub const BITS_LAST: usize = 11;

/// The place of the bit `read` of `Rights`.
pub const RIGHTS_READ: usize = 0;

/// The place of the bit `write` of `Rights`.
pub const RIGHTS_WRITE: usize = 1;

/// The number `low` of `Named`.
pub const NAMED_LOW: i8 = -3;

/// The number `high` of `Named`.
pub const NAMED_HIGH: i8 = 3;

/// The place of the bit `urgent` of `Marks`.
pub const MARKS_URGENT: usize = 0;

/// The place of the bit `sealed` of `Marks`.
pub const MARKS_SEALED: usize = 1;

/// The place of the bit `read` of `Marks`.
pub const MARKS_READ: usize = 9;

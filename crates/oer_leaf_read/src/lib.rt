//! Readers of leaves over slices: each answers what the octets at the front spell and what is left, or the first refusal.
//!
//! Each contract names the reading function, which says the value, what is left, or the first refusal with its fields,
//! and the relation between octets and values: what is answered was spelled by the front that was taken, and where a
//! reader refuses, no front spells any value.
#![tactic(auto)]

mod bit_slice;
mod bit_strings;
mod bits;
mod booleans;
mod enums;
mod identifiers;
mod integers;
mod lengths;
mod parts;
mod places;
mod quantities;
mod tags;
mod texts;
mod times;

pub use bit_slice::BitSlice;
pub use bit_strings::{read_bit_string, read_named_bits};
pub use booleans::read_bool;
pub use enums::read_enumerated;
pub use identifiers::read_object_identifier;
pub use integers::{read_integer, read_number_content};
pub use lengths::{read_content, read_length};
pub use parts::{read_octet, read_octets, require_canonical};
pub use places::{read_bitmap, read_preamble, skip_additions};
pub use quantities::read_quantity;
pub use tags::read_tag;
pub use texts::{read_any, read_octet_string, read_text, read_utf8};
pub use times::read_time;

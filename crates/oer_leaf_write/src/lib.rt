//! Writers of leaves: each appends the canonical octets to those of before, or refuses; after a refusal the octets of before are
//! still there, perhaps with more behind them.
//!
//! What is short is written in line. A long form is a call out of line, whose answer is matched, so that the short form's
//! answer isn't a place in memory too.
#![tactic(auto)]

mod bit_strings;
mod booleans;
mod enums;
mod identifiers;
mod integers;
mod lengths;
mod places;
mod quantities;
mod tags;
mod texts;
mod times;

pub use bit_strings::{write_bit_string, write_named_bits};
pub use booleans::write_bool;
pub use enums::write_enumerated;
pub use identifiers::write_object_identifier;
pub use integers::{write_integer, write_wide_integer};
pub use lengths::{write_content, write_length};
pub use places::{write_bitmap, write_preamble};
pub use quantities::write_quantity;
pub use tags::write_tag;
pub use texts::{write_any, write_octet_string, write_text, write_utf8};
pub use times::write_time;

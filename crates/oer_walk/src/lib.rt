//! Where each part of a value lies in its octets: a walk by a table, into nodes that the caller owns. It takes no memory.
#![tactic(auto)]

mod kinds;
mod nodes;
mod places;
mod string_kinds;
mod table;
mod walks;

pub use kinds::Kind;
pub use nodes::Node;
pub use string_kinds::StringKind;
pub use table::kind_in;
pub use walks::{Walked, walk};

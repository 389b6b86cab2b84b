//! Types of rasn's tests that have no word.

mod choices;
mod enums;
mod optionals;
mod pairs;

pub use choices::NestedChoice;
pub use enums::{Colors, MoreColors};
pub use optionals::{Explicit, Untagged};
pub use pairs::{BoxedPair, Chosen, Optional1, Optional2, Optional3};

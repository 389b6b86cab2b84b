//! Types that keep what newer versions of them have: a value by its number, an alternative by its tag and its octets.
#![tactic(auto)]

mod choices;
mod enumerations;
mod knots;

pub use choices::KeptChoice;
pub use enumerations::KeptEnumeration;

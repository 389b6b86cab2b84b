//! The definitions of what octets spell which value (X.696), and their laws.
#![tactic(auto)]

mod choices;
pub mod examples;
pub mod laws;
pub mod leaf;
mod spelled;

pub use choices::is_among;
pub use spelled::{EqualAsSpelled, Spelled};

//! From a value in JSON (X.697) to its canonical octets (X.696), by a table of types.
//!
//! What is read is what `oershow --json` prints of a value. The octets are walked by the same table before they are answered.
#![tactic(auto)]

mod bits;
mod components;
mod hexadecimal;
mod json;
mod leaves;
mod numbers;
mod octets;
mod refusals;
mod tables;
mod values;

pub use json::Json;
pub use octets::{octets_of, octets_of_json};
pub use refusals::{Misfit, Refusal};
pub use tables::{Bounds, DefaultValue, TableError, Tables, ValueName};

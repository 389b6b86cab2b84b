//! Resolves ASN.1 modules to what the octet encoding rules need of them: tags, needs, layouts, Rust names, and an order of use.
#![tactic(auto)]

pub mod bits;
pub mod classes;
pub mod cuts;
pub mod cycles;
pub mod definitions;
pub mod expansion;
pub mod layouts;
pub mod listing;
pub mod macros;
pub mod names;
pub mod numbers;
pub mod objects;
pub mod order;
pub mod parameters;
pub mod parts;
pub mod rows;
pub mod scope;
mod sets;
pub mod unrestricted;
pub mod untagged;
pub mod values;
pub mod visible;

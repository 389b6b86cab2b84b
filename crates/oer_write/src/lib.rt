//! Writing values as canonical octets (COER, X.696): the encoder, and the trait of the types that are written.
#![tactic(auto)]

mod additions;
mod bit_strings;
mod bits;
mod booleans;
mod boxes;
mod choices;
mod component;
mod defaults;
pub mod enc;
pub mod encode;
mod encoder;
mod enums;
mod identifiers;
mod insertions;
mod integers;
mod lists;
mod long;
mod octets;
mod opening;
mod opens;
mod passes;
mod region;
mod rows;
mod rules;
mod scopes;
mod sequences;
mod sets;
mod slots;
mod strings;
mod times;
mod unordered;
mod values;

pub use encode::Encode;
pub use encoder::Encoder;
pub use rules::EncodingRules;

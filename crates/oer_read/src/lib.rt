//! Reading by the octet encoding rules (X.696): the decoder, its scopes, and the trait of types that are read.
#![tactic(auto)]

mod additions;
mod bit_strings;
mod booleans;
mod boxes;
mod choices;
pub mod de;
mod decode;
mod decoder;
mod defaults;
mod enums;
mod identifiers;
mod integers;
mod lists;
mod octets;
mod owned;
mod rows;
mod scopes;
mod sequences;
mod sets;
mod strings;
mod times;
mod unordered;

pub use choices::DecodeChoice;
pub use de::DecoderOptions;
pub use decode::Decode;
pub use decoder::Decoder;
pub use lists::keep;
pub use oer_spec::{Spelled, laws};

//! ASN.1 base values: tags, constraints, tables of components, the traits of types, and the kinds of refusal.
#![tactic(auto)]

mod codec;
mod constraints;
mod error;
mod fields;
pub mod laws;
mod sets;
mod tag;
mod traits;
mod types;

pub use codec::Codec;
pub use constraints::{Bounded, Constraints, Limits};
pub use error::{DecodeError, DecodeErrorKind, EncodeError, EncodeErrorKind};
pub use fields::{Canonised, Field, FieldPresence, Fields, OptionalAndDefaultFields};
pub use sets::SetOf;
pub use tag::{Class, Tag};
pub use traits::{AsnType, Choice, Constructed, Enumerated};
pub use types::{SequenceOf, Utf8String};

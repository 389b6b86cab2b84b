//! The octet encoding rules (X.696): values to octets and octets to values, by the basic rules (`oer`) and by the
//! canonical ones (`coer`), and all that a type or its user names beside them.
#![tactic(auto)]

mod codec_error;
pub mod coer;
mod entry;
mod macros;
pub mod oer;
pub mod open;
pub mod prelude;
mod recode;

#[doc(hidden)]
pub use asn1_base::{Class, Field, FieldPresence, Fields, Tag};
#[doc(hidden)]
pub use oer_choices::Either;
pub use oer_read::{Decode, DecodeChoice, Decoder, DecoderOptions, de};
#[doc(hidden)]
pub use oer_rows::{Both, DefaultValue};
pub use oer_spec::{Spelled, laws};
pub use oer_write::{Encode, Encoder, enc};

//! The values of ASN.1 types that hold times and days, over jiff's civil values.
#![tactic(auto)]

pub mod laws;
mod time_read;
mod time_text;
mod times;

pub use time_text::TimeText;
pub use times::{Date, GeneralizedTime, TimeError, UtcTime};

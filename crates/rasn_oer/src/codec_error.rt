//! The error of a call that reads and writes: what reading refused, or what writing refused.
use asn1_core::{DecodeError, EncodeError};
use thiserror::Error;

/// Why a call that reads and writes refused.
#[derive(Debug, PartialEq, Eq, Drop, Error)]
pub enum CodecError {
    /// What reading refused.
    #[error("reading: {0}")]
    Decode(DecodeError),
    /// What writing refused.
    #[error("writing: {0}")]
    Encode(EncodeError),
}

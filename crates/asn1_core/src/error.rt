//! The kinds of refusal in reading and in writing, with their names and messages, and the errors that hold them.
ghost use Rattle.std.specs.Prelude.{◌≡◌};
ghost use Rattle.asn1_core.specs.Kinds.{decode_kind_name, encode_kind_name};

use crate::codec::Codec;
use crate::tag::{Class, Tag};
use std::alloc::{AllocError, AllocFailed};
use thiserror::Error;

/// Why octets were refused.
///
/// docs/REFUSALS.md has the order in which these are answered, for each thing that is read.
#[derive(Debug, PartialEq, Eq, Drop, Error)]
pub enum DecodeErrorKind {
    /// The present read lacks `needed` more octets.
    #[error("incomplete: {needed} more octets are needed")]
    Incomplete { needed: usize },
    /// The octet 80 stands where a length is read (X.696, 8.6).
    #[error("a length's own length is zero")]
    ZeroLengthOfLength,
    /// A length, a quantity or an enumerated value doesn't fit the platform's width.
    #[error("a length exceeds the platform's width")]
    LengthExceedsPlatformWidth,
    /// Canonical reading met this octet where a BOOLEAN is 00 or FF (X.696, 9).
    #[error("the octet {value} is no canonical boolean")]
    InvalidBool { value: u8 },
    /// The number isn't one of the Rust type.
    #[error("the number is outside the integer type")]
    IntegerOverflow,
    /// An integer, an enumerated value or a quantity of no octets.
    #[error("an integer of no octets")]
    EmptyInteger,
    /// The number is outside a value constraint that isn't extensible.
    #[error("the value constraint isn't satisfied")]
    ValueConstraintNotSatisfied,
    /// The size is outside a size constraint that isn't extensible.
    #[error("the size {size} doesn't satisfy the size constraint")]
    SizeConstraintNotSatisfied { size: usize },
    /// No enumerated value of the type has this number.
    #[error("no enumerated value has the discriminant {discriminant}")]
    DiscriminantValueNotFound { discriminant: isize },
    /// A tag's number begins with a zero group, or is past 4,294,967,295 (X.696, 8.7).
    #[error("invalid tag number")]
    InvalidTagNumberOnChoice,
    /// The tag is none of the choice's alternatives.
    #[error("the tag {value:?} is no alternative of the choice")]
    InvalidTagVariantOnChoice { value: Tag, is_extensible: bool },
    /// A bit string's count of unused bits is above 7, or above 0 with no octets (X.696, 13).
    #[error("invalid bit string")]
    InvalidBitString,
    /// A character outside the type's alphabet.
    #[error("a character is outside the permitted alphabet")]
    PermittedAlphabetError,
    /// Octets that are no UTF-8.
    #[error("the octets are no UTF-8 text")]
    StringConversionFailed,
    /// Octets that are no object identifier (X.690, 8.19).
    #[error("invalid object identifier")]
    InvalidObjectIdentifier,
    /// A text that is no time or date.
    #[error("invalid time")]
    InvalidTime,
    /// A preamble's fill bits are not zero (X.696, 16.2).
    #[error("invalid preamble")]
    InvalidPreamble,
    /// An extension bitmap that is none (X.696, 16.4).
    #[error("invalid extension header")]
    InvalidExtensionHeader,
    /// A required extension addition is missing.
    #[error("the required extension addition {tag:?} is missing")]
    RequiredExtensionNotPresent { tag: Tag },
    /// An addition was asked that the type's table doesn't have.
    #[error("the type has no such extension addition")]
    TypeNotExtensible,
    /// A component was asked out of order, or wasn't asked.
    #[error("the component of class {class:?} and number {value} was asked out of order or not at all")]
    MissingTagClassOrValueInSequenceOrSet { class: Class, value: u32 },
    /// More nested levels than the options allow.
    #[error("the maximal depth is exceeded")]
    ExceedsMaxParseDepth,
    /// A form that canonical reading refuses.
    #[error("not the canonical encoding")]
    NotValidCanonicalEncoding,
    /// A list has more than 65,536 elements without octets.
    #[error("too many elements without octets")]
    TooManyEmptyElements,
    /// A request for memory was refused.
    #[error("out of memory")]
    OutOfMemory,
}

/// A refusal of reading: why, and in which mode the octets were read.
#[derive(Debug, PartialEq, Eq, Drop, Error)]
#[error("{kind}")]
pub struct DecodeError {
    /// Why the octets were refused.
    pub kind: DecodeErrorKind,
    /// The mode that the octets were read in.
    pub codec: Codec,
}

/// Why a value was not written.
///
/// docs/REFUSALS.md has the order in which these are answered, for each thing that is written.
#[derive(Debug, PartialEq, Eq, Drop, Error)]
pub enum EncodeErrorKind {
    /// The number is outside a value constraint that isn't extensible, or outside i128 under one.
    #[error("the value constraint isn't satisfied")]
    ValueConstraintNotSatisfied,
    /// The size is outside a size constraint that isn't extensible.
    #[error("the size {size} doesn't satisfy the size constraint")]
    SizeConstraintNotSatisfied { size: usize },
    /// Arcs that are no object identifier (X.690, 8.19).
    #[error("invalid object identifier")]
    InvalidObjectIdentifier,
    /// A time that has no text.
    #[error("the time is not representable")]
    TimeNotRepresentable,
    /// A list has more than 65,536 elements without octets.
    #[error("too many elements without octets")]
    TooManyEmptyElements,
    /// A string has more than `usize::MAX / 8` octets behind its length, or another length is past `usize::MAX`.
    #[error("a length exceeds the platform's size")]
    LengthExceedsPlatformSize,
    /// A request for memory was refused.
    #[error("out of memory")]
    OutOfMemory,
}

/// A refusal of writing.
#[derive(Debug, PartialEq, Eq, Drop, Error)]
#[error("{kind}")]
pub struct EncodeError {
    /// Why the value was not written.
    pub kind: EncodeErrorKind,
    /// The mode that was written in: always `Coer`.
    pub codec: Codec,
}

impl DecodeErrorKind {
    /// The refusal of this kind in that mode.
    pub fn with_codec(self, codec: Codec) -> DecodeError
        ensures { result ≡ record { kind = self; codec = codec } }
    {
        DecodeError { kind: self, codec }
    }

    /// The kind's name: its variant's, without fields.
    pub fn name(&self) -> &'static str
        ensures { result.now ≡ decode_kind_name self.now }
    {
        match self {
            DecodeErrorKind::Incomplete { .. } => "Incomplete",
            DecodeErrorKind::ZeroLengthOfLength => "ZeroLengthOfLength",
            DecodeErrorKind::LengthExceedsPlatformWidth => "LengthExceedsPlatformWidth",
            DecodeErrorKind::InvalidBool { .. } => "InvalidBool",
            DecodeErrorKind::IntegerOverflow => "IntegerOverflow",
            DecodeErrorKind::EmptyInteger => "EmptyInteger",
            DecodeErrorKind::ValueConstraintNotSatisfied => "ValueConstraintNotSatisfied",
            DecodeErrorKind::SizeConstraintNotSatisfied { .. } => "SizeConstraintNotSatisfied",
            DecodeErrorKind::DiscriminantValueNotFound { .. } => "DiscriminantValueNotFound",
            DecodeErrorKind::InvalidTagNumberOnChoice => "InvalidTagNumberOnChoice",
            DecodeErrorKind::InvalidTagVariantOnChoice { .. } => "InvalidTagVariantOnChoice",
            DecodeErrorKind::InvalidBitString => "InvalidBitString",
            DecodeErrorKind::PermittedAlphabetError => "PermittedAlphabetError",
            DecodeErrorKind::StringConversionFailed => "StringConversionFailed",
            DecodeErrorKind::InvalidObjectIdentifier => "InvalidObjectIdentifier",
            DecodeErrorKind::InvalidTime => "InvalidTime",
            DecodeErrorKind::InvalidPreamble => "InvalidPreamble",
            DecodeErrorKind::InvalidExtensionHeader => "InvalidExtensionHeader",
            DecodeErrorKind::RequiredExtensionNotPresent { .. } => "RequiredExtensionNotPresent",
            DecodeErrorKind::TypeNotExtensible => "TypeNotExtensible",
            DecodeErrorKind::MissingTagClassOrValueInSequenceOrSet { .. } =>
                "MissingTagClassOrValueInSequenceOrSet",
            DecodeErrorKind::ExceedsMaxParseDepth => "ExceedsMaxParseDepth",
            DecodeErrorKind::NotValidCanonicalEncoding => "NotValidCanonicalEncoding",
            DecodeErrorKind::TooManyEmptyElements => "TooManyEmptyElements",
            DecodeErrorKind::OutOfMemory => "OutOfMemory",
        }
    }
}

impl EncodeErrorKind {
    /// The kind's name: its variant's, without fields.
    pub fn name(&self) -> &'static str
        ensures { result.now ≡ encode_kind_name self.now }
    {
        match self {
            EncodeErrorKind::ValueConstraintNotSatisfied => "ValueConstraintNotSatisfied",
            EncodeErrorKind::SizeConstraintNotSatisfied { .. } => "SizeConstraintNotSatisfied",
            EncodeErrorKind::InvalidObjectIdentifier => "InvalidObjectIdentifier",
            EncodeErrorKind::TimeNotRepresentable => "TimeNotRepresentable",
            EncodeErrorKind::TooManyEmptyElements => "TooManyEmptyElements",
            EncodeErrorKind::LengthExceedsPlatformSize => "LengthExceedsPlatformSize",
            EncodeErrorKind::OutOfMemory => "OutOfMemory",
        }
    }
}

impl From<AllocError> for DecodeErrorKind {
    ghost use Rattle.asn1_core.specs.declared.error.DecodeErrorKind.TheVariants.{OutOfMemory};

    ghost from_gives = { λ _ e. e ≡ OutOfMemory };

    fn from(_e: AllocError) -> DecodeErrorKind {
        DecodeErrorKind::OutOfMemory
    }
}

impl<T: Drop> From<AllocFailed<T>> for DecodeErrorKind {
    ghost use Rattle.asn1_core.specs.declared.error.DecodeErrorKind.TheVariants.{OutOfMemory};

    ghost from_gives = { λ _ e. e ≡ OutOfMemory };

    fn from(_e: AllocFailed<T>) -> DecodeErrorKind {
        DecodeErrorKind::OutOfMemory
    }
}

impl From<AllocError> for EncodeErrorKind {
    ghost use Rattle.asn1_core.specs.declared.error.EncodeErrorKind.TheVariants.{OutOfMemory};

    ghost from_gives = { λ _ e. e ≡ OutOfMemory };

    fn from(_e: AllocError) -> EncodeErrorKind {
        EncodeErrorKind::OutOfMemory
    }
}

impl<T: Drop> From<AllocFailed<T>> for EncodeErrorKind {
    ghost use Rattle.asn1_core.specs.declared.error.EncodeErrorKind.TheVariants.{OutOfMemory};

    ghost from_gives = { λ _ e. e ≡ OutOfMemory };

    fn from(_e: AllocFailed<T>) -> EncodeErrorKind {
        EncodeErrorKind::OutOfMemory
    }
}

impl From<EncodeErrorKind> for EncodeError {
    ghost use Rattle.asn1_core.specs.declared.codec.Codec.TheVariants.{Coer};

    ghost from_gives = { λ kind e. e ≡ record { kind = kind; codec = Coer } };

    fn from(kind: EncodeErrorKind) -> EncodeError {
        EncodeError {
            kind,
            codec: Codec::Coer,
        }
    }
}

//! The names and messages of all kinds of refusal.
use asn1_core::{Class, Codec, DecodeError, DecodeErrorKind, EncodeError, EncodeErrorKind, Tag};
use asn1_strings::StringError;
use asn1_times::TimeError;
use rasn_oer::coer::CodecError;
use std::alloc::Global;
use std::process::Abort;
use std::test::Fail;

const TAG: Tag = Tag {
    class: Class::Context,
    value: 3,
};

/// Kinds of leaves, and those without fields.
fn first_kinds() -> [DecodeErrorKind; 13] {
    [
        DecodeErrorKind::Incomplete { needed: 3 },
        DecodeErrorKind::ZeroLengthOfLength,
        DecodeErrorKind::LengthExceedsPlatformWidth,
        DecodeErrorKind::InvalidBool { value: 51 },
        DecodeErrorKind::IntegerOverflow,
        DecodeErrorKind::EmptyInteger,
        DecodeErrorKind::ValueConstraintNotSatisfied,
        DecodeErrorKind::SizeConstraintNotSatisfied { size: 2 },
        DecodeErrorKind::DiscriminantValueNotFound { discriminant: -7 },
        DecodeErrorKind::InvalidTagNumberOnChoice,
        DecodeErrorKind::InvalidTagVariantOnChoice {
            value: TAG,
            is_extensible: true,
        },
        DecodeErrorKind::InvalidBitString,
        DecodeErrorKind::PermittedAlphabetError,
    ]
}

/// The other kinds.
fn last_kinds() -> [DecodeErrorKind; 12] {
    [
        DecodeErrorKind::StringConversionFailed,
        DecodeErrorKind::InvalidObjectIdentifier,
        DecodeErrorKind::InvalidTime,
        DecodeErrorKind::InvalidPreamble,
        DecodeErrorKind::InvalidExtensionHeader,
        DecodeErrorKind::RequiredExtensionNotPresent { tag: TAG },
        DecodeErrorKind::TypeNotExtensible,
        DecodeErrorKind::MissingTagClassOrValueInSequenceOrSet {
            class: Class::Private,
            value: 9,
        },
        DecodeErrorKind::ExceedsMaxParseDepth,
        DecodeErrorKind::NotValidCanonicalEncoding,
        DecodeErrorKind::TooManyEmptyElements,
        DecodeErrorKind::OutOfMemory,
    ]
}

/// A line a kind: its name, and its message.
const DECODING: &str = "\
Incomplete: incomplete: 3 more octets are needed\n\
ZeroLengthOfLength: a length's own length is zero\n\
LengthExceedsPlatformWidth: a length exceeds the platform's width\n\
InvalidBool: the octet 51 is no canonical boolean\n\
IntegerOverflow: the number is outside the integer type\n\
EmptyInteger: an integer of no octets\n\
ValueConstraintNotSatisfied: the value constraint isn't satisfied\n\
SizeConstraintNotSatisfied: the size 2 doesn't satisfy the size constraint\n\
DiscriminantValueNotFound: no enumerated value has the discriminant -7\n\
InvalidTagNumberOnChoice: invalid tag number\n\
InvalidTagVariantOnChoice: the tag Tag { class: Context, value: 3 } is no alternative of the choice\n\
InvalidBitString: invalid bit string\n\
PermittedAlphabetError: a character is outside the permitted alphabet\n\
StringConversionFailed: the octets are no UTF-8 text\n\
InvalidObjectIdentifier: invalid object identifier\n\
InvalidTime: invalid time\n\
InvalidPreamble: invalid preamble\n\
InvalidExtensionHeader: invalid extension header\n\
RequiredExtensionNotPresent: the required extension addition Tag { class: Context, value: 3 } is missing\n\
TypeNotExtensible: the type has no such extension addition\n\
MissingTagClassOrValueInSequenceOrSet: the component of class Private and number 9 was asked out of order or not at all\n\
ExceedsMaxParseDepth: the maximal depth is exceeded\n\
NotValidCanonicalEncoding: not the canonical encoding\n\
TooManyEmptyElements: too many elements without octets\n\
OutOfMemory: out of memory\n";

/// Each kind by its name and message; the error's message is its kind's, in either mode.
fn tell(alloc: Global, told: &mut String, codec: Codec, kind: DecodeErrorKind) -> Result<(), Fail> {
    let line = format!(in alloc; "{}: {}\n", kind.name(), kind)?;
    told.push_str(line.as_str())?;
    let refusal: DecodeError = kind.with_codec(codec);
    let same = format!(in alloc; "{}: {}\n", refusal.kind.name(), refusal)?;
    if same == line {
        Ok(())
    } else {
        Err(Fail::from("the error has another message than its kind"))
    }
}

#[test]
fn kinds_of_decoding_have_their_names_and_messages(rt: HostRuntime) -> Result<(), Fail> {
    let alloc = rt.alloc();
    let mut told = String::new(alloc);
    for kind in first_kinds() {
        tell(alloc, &mut told, Codec::Oer, kind)?;
    }
    for kind in last_kinds() {
        tell(alloc, &mut told, Codec::Coer, kind)?;
    }
    assert_eq!(rt; told.as_str(), DECODING);
    Ok(())
}

const ENCODING: &str = "\
ValueConstraintNotSatisfied: the value constraint isn't satisfied\n\
SizeConstraintNotSatisfied: the size 7 doesn't satisfy the size constraint\n\
InvalidObjectIdentifier: invalid object identifier\n\
TimeNotRepresentable: the time is not representable\n\
TooManyEmptyElements: too many elements without octets\n\
LengthExceedsPlatformSize: a length exceeds the platform's size\n\
OutOfMemory: out of memory\n";

#[test]
fn kinds_of_encoding_have_their_names_and_messages(rt: HostRuntime) -> Result<(), Fail> {
    let alloc = rt.alloc();
    let mut told = String::new(alloc);
    for kind in [
        EncodeErrorKind::ValueConstraintNotSatisfied,
        EncodeErrorKind::SizeConstraintNotSatisfied { size: 7 },
        EncodeErrorKind::InvalidObjectIdentifier,
        EncodeErrorKind::TimeNotRepresentable,
        EncodeErrorKind::TooManyEmptyElements,
        EncodeErrorKind::LengthExceedsPlatformSize,
        EncodeErrorKind::OutOfMemory,
    ] {
        let line = format!(in alloc; "{}: {}\n", kind.name(), kind)?;
        told.push_str(line.as_str())?;
        let refusal = EncodeError {
            kind,
            codec: Codec::Coer,
        };
        let same = format!(in alloc; "{}: {}\n", refusal.kind.name(), refusal)?;
        assert!(rt; same == line);
    }
    assert_eq!(rt; told.as_str(), ENCODING);
    Ok(())
}

const OTHER: &str = "\
a character is outside the permitted alphabet; out of memory; invalid time; the time is not representable; \
reading: invalid time; writing: out of memory";

#[test]
fn other_errors_have_their_messages(rt: HostRuntime) -> Result<(), Fail> {
    let read = CodecError::Decode(DecodeErrorKind::InvalidTime.with_codec(Codec::Oer));
    let write = CodecError::Encode(EncodeErrorKind::OutOfMemory.into());
    let told = format!(in rt.alloc();
        "{}; {}; {}; {}; {}; {}",
        StringError::PermittedAlphabet,
        StringError::OutOfMemory,
        TimeError::InvalidTime,
        TimeError::TimeNotRepresentable,
        read,
        write
    )?;
    assert_eq!(rt; told.as_str(), OTHER);
    Ok(())
}

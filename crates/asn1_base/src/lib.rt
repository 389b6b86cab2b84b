//! All that a type of ASN.1 names: tags, constraints, tables of components, the traits of types, the values of octets,
//! bits, text, identifiers and times, and the kinds of refusal.
#![tactic(auto)]

pub use asn1_core::{
    AsnType, Bounded, Canonised, Choice, Class, Codec, Constraints, Constructed, DecodeError,
    DecodeErrorKind, EncodeError, EncodeErrorKind, Enumerated, Field, FieldPresence, Fields,
    Limits, OptionalAndDefaultFields, SequenceOf, SetOf, Tag, Utf8String, laws,
};
pub use asn1_strings::{
    Any, AnyType, BitString, BmpCharacters, BmpString, CharacterSet, GeneralCharacters,
    GeneralString, GraphicCharacters, GraphicString, Ia5Characters, Ia5String, NamedBits,
    NumericCharacters, NumericString, ObjectIdentifier, OctetContent, OctetString, OctetStringType,
    OctetType, PrintableCharacters, PrintableString, RestrictedString, StringError,
    TeletexCharacters, TeletexString, UniversalCharacters, UniversalString, VisibleCharacters,
    VisibleString, is_identifier, object_identifier_as_bytes, object_identifier_from_bytes,
};
pub use asn1_times::{Date, GeneralizedTime, TimeError, TimeText, UtcTime};

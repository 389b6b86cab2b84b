//! The values of ASN.1 types that hold octets, bits, text and object identifiers.
#![tactic(auto)]

mod bits;
mod characters;
mod identifiers;
pub mod laws;
mod named_bits;
mod octets;
mod strings;
mod units;

pub use bits::{BitString, significant_bits};
pub use characters::{
    BmpCharacters, BmpString, GeneralCharacters, GeneralString, GraphicCharacters, GraphicString,
    Ia5Characters, Ia5String, NumericCharacters, NumericString, PrintableCharacters,
    PrintableString, TeletexCharacters, TeletexString, UniversalCharacters, UniversalString,
    VisibleCharacters, VisibleString,
};
pub use identifiers::{
    ObjectIdentifier, is_identifier, object_identifier_as_bytes, object_identifier_from_bytes,
};
pub use named_bits::NamedBits;
pub use octets::{Any, AnyType, OctetContent, OctetString, OctetStringType, OctetType};
pub use strings::{CharacterSet, RestrictedString, StringError};

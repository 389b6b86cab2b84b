//! The words that X.680 keeps for itself (12.38): none of them is the name of a type.

/// Words that begin types which are read, with `ANY` of the older notation (X.208).
const READ: &str =
    "ANY BIT BMPString BOOLEAN CHOICE DATE ENUMERATED GeneralString GeneralizedTime GraphicString IA5String INTEGER \
ISO646String NULL NumericString OBJECT OCTET PrintableString SEQUENCE SET T61String TeletexString UTCTime UTF8String UniversalString \
VisibleString";

/// Words that are types which aren't read, or classes.
const UNREAD: &str =
    "ABSTRACT-SYNTAX DATE-TIME DURATION EXTERNAL OID-IRI ObjectDescriptor REAL RELATIVE-OID RELATIVE-OID-IRI TIME \
TIME-OF-DAY TYPE-IDENTIFIER VideotexString";

/// Further words that begin no type, or no whole one.
const OTHER: &str =
    "ABSENT ALL APPLICATION AUTOMATIC BEGIN BY CHARACTER CLASS COMPONENT COMPONENTS CONSTRAINED CONTAINING DEFAULT \
DEFINITIONS EMBEDDED ENCODED ENCODING-CONTROL END EXCEPT EXPLICIT EXPORTS EXTENSIBILITY FALSE FROM IDENTIFIER IMPLICIT IMPLIED \
IMPORTS INCLUDES INSTANCE INSTRUCTIONS INTERSECTION MAX MIN MINUS-INFINITY NOT-A-NUMBER OF OPTIONAL PATTERN PDV PLUS-INFINITY \
PRESENT PRIVATE SETTINGS SIZE STRING SYNTAX TAGS TRUE UNION UNIQUE UNIVERSAL WITH";

/// What begins the type that a set of objects stands for, like the CHOICE of what an open type holds, each with the tag of its id's
/// number. No module can have it, since a blank is in it.
pub const OBJECTS: &str = "OBJECT SET";

/// The same of a class with more fields of types, like the SEQUENCE of these.
pub const OBJECTS_BY_FIELD: &str = "OBJECT SETS";

/// Whether a word stands in a list of words.
fn is_in(words: &str, word: &str) -> bool {
    words.split(' ').any(|kept| kept == word)
}

/// Whether a word begins no type that is read, and is no type's name.
pub fn is_unread(word: &str) -> bool {
    is_in(UNREAD, word) || is_in(OTHER, word)
}

/// Whether a word begins a type that is read, and is no type's name.
pub fn begins_type(word: &str) -> bool {
    is_in(READ, word)
}

/// Whether a word is kept for X.680 itself.
pub fn is_reserved(word: &str) -> bool {
    is_in(READ, word) || is_unread(word)
}

/// Whether a word with a capital letter begins a type, or names one or a class.
pub fn is_type(word: &str) -> bool {
    !is_in(OTHER, word)
}

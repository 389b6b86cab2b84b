//! The names of the kinds of refusal, by number, and how a text comes to a caller's octets.
ghost use Rattle.std.specs.Prelude.{◌≡◌};
ghost use Rattle.oer_calls.specs.Names.{IsTold, read_name, write_name, name_for};

/// The name of a kind of refusal of reading; no text if no kind has the number.
pub fn read_kind_name(kind: u32) -> &'static str
    ensures { result.now ≡ read_name kind }
{
    match kind {
        1 => "Incomplete",
        2 => "ZeroLengthOfLength",
        3 => "LengthExceedsPlatformWidth",
        4 => "InvalidBool",
        5 => "IntegerOverflow",
        6 => "EmptyInteger",
        7 => "ValueConstraintNotSatisfied",
        8 => "SizeConstraintNotSatisfied",
        9 => "DiscriminantValueNotFound",
        10 => "InvalidTagNumberOnChoice",
        11 => "InvalidTagVariantOnChoice",
        12 => "InvalidBitString",
        13 => "PermittedAlphabetError",
        14 => "StringConversionFailed",
        15 => "InvalidObjectIdentifier",
        16 => "InvalidTime",
        17 => "InvalidPreamble",
        18 => "InvalidExtensionHeader",
        19 => "RequiredExtensionNotPresent",
        20 => "TypeNotExtensible",
        21 => "MissingTagClassOrValueInSequenceOrSet",
        22 => "ExceedsMaxParseDepth",
        23 => "NotValidCanonicalEncoding",
        24 => "TooManyEmptyElements",
        25 => "OutOfMemory",
        _ => "",
    }
}

/// The name of a kind of refusal of writing; no text if no kind has the number.
pub fn write_kind_name(kind: u32) -> &'static str
    ensures { result.now ≡ write_name kind }
{
    match kind {
        1 => "ValueConstraintNotSatisfied",
        2 => "SizeConstraintNotSatisfied",
        3 => "InvalidObjectIdentifier",
        4 => "TimeNotRepresentable",
        5 => "TooManyEmptyElements",
        6 => "LengthExceedsPlatformSize",
        7 => "OutOfMemory",
        _ => "",
    }
}

/// The name of a kind of refusal beside a status; no text if the status is none of a refusal, or no kind has the number.
pub fn kind_name(status: u32, kind: u32) -> &'static str
    ensures { result.now ≡ name_for status kind }
{
    match status {
        1 | 6 => read_kind_name(kind),
        2 | 7 => write_kind_name(kind),
        _ => "",
    }
}

/// Puts as much of a text as there is room for at the front of the caller's octets, and answers how long it is.
pub fn told(text: &str, out: &mut [u8]) -> usize
    ensures { IsTold text.now out.old result out.new }
{
    let octets = text.as_bytes();
    let count = octets.len().min(out.len());
    out[..count].copy_from_slice(&octets[..count]);
    octets.len()
}

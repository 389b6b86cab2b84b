//! The program's words for types without parts.
use crate::known::OnType;
use asn1_core::Utf8String;
use asn1_ints::Integer;
use asn1_strings::{BitString, ObjectIdentifier, OctetString};
use asn1_times::{Date, GeneralizedTime, UtcTime};
use oer_types::{Enum4, GreatPositive, Small};

/// Does it with the type without parts of that word; the work again where none has it.
pub(super) fn with_leaf<W: OnType>(word: &str, work: W) -> Result<W::Output, W> {
    match word {
        "bool" => Ok(work.on::<bool>()),
        "int" => Ok(work.on::<Integer>()),
        "octets" => Ok(work.on::<OctetString>()),
        "bits" => Ok(work.on::<BitString>()),
        "utf8" => Ok(work.on::<Utf8String>()),
        _ => with_time(word, work),
    }
}

/// An identifier, or a time.
fn with_time<W: OnType>(word: &str, work: W) -> Result<W::Output, W> {
    match word {
        "oid" => Ok(work.on::<ObjectIdentifier>()),
        "utctime" => Ok(work.on::<UtcTime>()),
        "gentime" => Ok(work.on::<GeneralizedTime>()),
        "date" => Ok(work.on::<Date>()),
        _ => with_range(word, work),
    }
}

/// A number of a range, or an enumerated value.
fn with_range<W: OnType>(word: &str, work: W) -> Result<W::Output, W> {
    match word {
        "posbig" => Ok(work.on::<GreatPositive>()),
        "small" => Ok(work.on::<Small>()),
        "enum4" => Ok(work.on::<Enum4>()),
        _ => Err(work),
    }
}

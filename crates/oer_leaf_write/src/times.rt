//! Writes a time or a day by its text (X.696, 29).
ghost use Rattle.std.specs.Prelude.{List, ℕ, None};
ghost use Rattle.oer_spec.specs.TimeTexts.{time_content};
ghost use Rattle.oer_spec.specs.Tree.{Text};
ghost use Rattle.oer_spec.specs.Writing.{AppendsLeaf};

use crate::texts::write_string;
use asn1_core::{Constraints, EncodeErrorKind};
use oer_spec::leaf::TimeType;

/// Appends a time or a day: a length, and the text's octets (X.696, 29).
///
/// Refused where the value has no text, as `TimeNotRepresentable`.
pub fn write_time<T: TimeType>(value: &T, out: &mut Vec<u8>) -> Result<(), EncodeErrorKind>
    ensures { (fields : List ℕ) → AppendsLeaf result (Text T.rule None (time_content (T.text value.now) fields)) out.old.items out.new.items }
{
    let Some(text) = value.to_text() else {
        return Err(EncodeErrorKind::TimeNotRepresentable);
    };
    let octets = text.as_bytes();
    write_string(octets, octets.len(), Constraints::NONE, out)
}

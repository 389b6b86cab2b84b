//! Reads a time or a day by its text (X.696, 29).
ghost use Rattle.std.specs.Prelude.{List, ℕ, None, IfErr};
ghost use Rattle.oer_spec.specs.Leaves.{IsLeafEncoding};
ghost use Rattle.oer_spec.specs.Mode.{mode_of};
ghost use Rattle.oer_spec.specs.Reading.{Gives, seen, ReadsFront, IsNotForMemory};
ghost use Rattle.oer_spec.specs.TimeTexts.{time_at, time_content};
ghost use Rattle.oer_spec.specs.Tree.{Text};

use crate::texts::read_any;
use asn1_core::{Codec, DecodeErrorKind};
use oer_spec::leaf::TimeType;

#[tactic(auto, unfolding(oer_spec::specs::TimeTexts::time_at, oer_spec::specs::ReadingTexts::text_at))]
fn time<T: TimeType>(codec: Codec, input: &[u8]) -> Result<(T, &[u8]), DecodeErrorKind>
    ensures function { Gives (λ x. (T.text x.0, x.1.now)) result (time_at T.is_text codec input.now) }
    ensures memory { IfErr result IsNotForMemory }
{
    let (octets, rest) = read_any(codec, input)?;
    let value = T::of_text(octets).ok_or(DecodeErrorKind::InvalidTime)?;
    Ok((value, rest))
}

/// The time or day at the front, and what is left (X.696, 29): a length, and the text's octets.
///
/// Refused as an octet string without constraints is (`read_octet_string`); then octets that are no text of the type, as
/// `InvalidTime`.
pub fn read_time<T: TimeType>(codec: Codec, input: &[u8]) -> Result<(T, &[u8]), DecodeErrorKind>
    ensures function { Gives (λ x. (T.text x.0, x.1.now)) result (time_at T.is_text codec input.now) }
    ensures relation { (fields : T → List ℕ) → ReadsFront
        (λ o t. IsLeafEncoding (mode_of codec) o (Text T.rule None (time_content (T.text t) (fields t))))
        input.now (seen (λ x. (x.0, x.1.now)) result) }
    ensures memory { IfErr result IsNotForMemory }
{
    time::<T>(codec, input)
}

//! Reads a tag (X.696, 8.7).
ghost use Rattle.std.specs.Prelude.{◌≡◌, IfErr};
ghost use Rattle.oer_spec.specs.Mode.{mode_of};
ghost use Rattle.oer_spec.specs.Reading.{Gives, seen, ReadsFront, IsNotForMemory, class_of, more_groups_at, groups_at, long_tag_at, tag_at, IsTag32};

use crate::parts::{read_octet, require_canonical};
use asn1_core::{Class, Codec, DecodeErrorKind, Tag};

/// The class in the top two bits of an octet (X.696, 8.7.2.1).
fn class_of(bits: u8) -> Class
    ensures { result ≡ class_of bits }
{
    match bits {
        0 => Class::Universal,
        1 => Class::Application,
        2 => Class::Context,
        _ => Class::Private,
    }
}

#[tactic(auto, unfolding(oer_spec::specs::Reading::more_groups_at))]
fn read_more_groups(input: &[u8]) -> Result<(u32, &[u8]), DecodeErrorKind>
    ensures function { Gives (λ x. (x.0, x.1.now)) result (more_groups_at 0 input.now) }
    ensures memory { IfErr result IsNotForMemory }
{
    let mut number: u32 = 0;
    for (i, octet) in input.iter().enumerate() {
        let next = number as u64 * 128 + (*octet % 128) as u64;
        if next > u32::MAX as u64 {
            return Err(DecodeErrorKind::InvalidTagNumberOnChoice);
        }
        number = next as u32;
        if *octet < 128 {
            return Ok((number, &input[i + 1..]));
        }
    }
    Err(DecodeErrorKind::Incomplete { needed: 1 })
}

/// A number in groups of seven bits, the first of which isn't zero (X.696, 8.7.2.3).
#[tactic(auto, unfolding(oer_spec::specs::Reading::groups_at))]
fn read_groups(input: &[u8]) -> Result<(u32, &[u8]), DecodeErrorKind>
    ensures function { Gives (λ x. (x.0, x.1.now)) result (groups_at input.now) }
    ensures memory { IfErr result IsNotForMemory }
{
    let (first, _) = read_octet(input)?;
    if first % 128 == 0 {
        return Err(DecodeErrorKind::InvalidTagNumberOnChoice);
    }
    read_more_groups(input)
}

/// A tag whose class was read, its number in groups.
#[tactic(auto, unfolding(oer_spec::specs::Reading::long_tag_at))]
fn read_long_tag(codec: Codec, class: Class, input: &[u8]) -> Result<(Tag, &[u8]), DecodeErrorKind>
    ensures function { Gives (λ x. (x.0, x.1.now)) result (long_tag_at codec class input.now) }
    ensures memory { IfErr result IsNotForMemory }
{
    let (value, rest) = read_groups(input)?;
    require_canonical(codec, value < 63)?;
    Ok((Tag { class, value }, rest))
}

/// The tag at the front, and what is left (X.696, 8.7).
///
/// Refused, the first that applies: `Incomplete` by 1 where there is no octet; where the number is in groups of seven
/// bits: `Incomplete` by 1 at each missing octet, a first group of zero and a number past 4,294,967,295 (at the octet where
/// it passes) as `InvalidTagNumberOnChoice`, and in canonical reading a number below 63 as `NotValidCanonicalEncoding`.
#[tactic(auto, unfolding(oer_spec::specs::Reading::tag_at))]
pub fn read_tag(codec: Codec, input: &[u8]) -> Result<(Tag, &[u8]), DecodeErrorKind>
    ensures function { Gives (λ x. (x.0, x.1.now)) result (tag_at codec input.now) }
    ensures relation { ReadsFront (IsTag32 (mode_of codec)) input.now (seen (λ x. (x.0, x.1.now)) result) }
    ensures memory { IfErr result IsNotForMemory }
{
    let (first, rest) = read_octet(input)?;
    let class = class_of(first / 64);
    if first % 64 < 63 {
        let value = (first % 64) as u32;
        return Ok((Tag { class, value }, rest));
    }
    read_long_tag(codec, class, rest)
}

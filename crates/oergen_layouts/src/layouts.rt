//! How a type lies in octets, in words: which constraint gives which width, and where a length stands (X.696, clauses 9 to 29).
ghost use Rattle.std.specs.Prelude.{◌≡◌};
ghost use Rattle.std.specs.List.{list_any};
ghost use Rattle.oergen_layouts.specs.Preambles.{has_bit, has_mark, is_mark, octets_of_preamble};
ghost use Rattle.oergen_layouts.specs.Widths.{unit_of};

use crate::definitions::Part;
use crate::numbers::names_of;
use crate::rows::{Position, members_of};
use crate::scope::Scope;
use crate::visible::{Limits, Purpose, limits_of};
use oergen_parse::ast::{Body, Member, Need, Simple, Type};
use oergen_parse::refusal::Refusal;
use std::alloc::{AllocError, Global};

/// How many lists may stand inside one another.
const MAX_LISTS: usize = 64;

/// Whether one of a type's members is an extension mark.
fn has_mark(members: &[Member]) -> bool
    ensures { result ≡ list_any is_mark members.now }
{
    members
        .iter()
        .any(|member| matches!(member, Member::Mark(_)))
}

/// Whether a type has an extension mark.
pub fn is_extensible<'m>(of: &'m Type) -> bool
    ensures { result ≡ has_mark of.now.body }
{
    match members_of(of) {
        Some(members) => has_mark(members),
        None => false,
    }
}

/// Whether the preamble has a bit for a component.
fn is_asked(part: &Part<'_>) -> bool
    ensures { result ≡ has_bit part.now }
{
    match &part.row {
        Some(row) => match (row.position, row.need) {
            (Position::Root, Need::Optional | Need::Default(_)) => true,
            (Position::Root, Need::Required) => false,
            (Position::Addition | Position::Group(_), _) => false,
        },
        None => false,
    }
}

/// How many octets the preamble of a SEQUENCE or a SET has (X.696, 16.2).
pub fn preamble_octets(parts: &[Part<'_>], is_extensible: bool) -> usize
    ensures { result ≡ octets_of_preamble is_extensible parts.now }
{
    let asked = parts.iter().filter(|part| is_asked(*part)).count();
    let extension = if is_extensible { 1 } else { 0 };
    (asked + extension).div_ceil(8)
}

/// The lists around a type, as ASN.1 writes them.
pub fn lists_of(alloc: Global, start: &Type) -> Result<String, AllocError> {
    let mut text = String::new(alloc);
    let mut of = start;
    for _ in 0..MAX_LISTS {
        let Some((element, is_set)) = of.body.list() else {
            break;
        };
        text.push_str(if is_set { "SET OF " } else { "SEQUENCE OF " })?;
        of = element;
    }
    Ok(text)
}

/// A type's layout, with the constraints that give it.
pub fn layout_of<'m>(scope: Scope<'m, '_>, of: &'m Type) -> Result<String, Refusal> {
    let chain = scope.chain_of(of)?;
    let base = chain.last().copied().unwrap_or(of);
    let names = names_of(base);
    match &base.body {
        Body::Integer(_) => {
            let limits = limits_of(scope, chain.as_slice(), names, Purpose::Value)?;
            Ok(integer_text(scope.alloc, limits)?)
        }
        Body::BitString(bits) => {
            let limits = size_of(scope, chain.as_slice())?;
            Ok(bits_text(scope.alloc, limits, !bits.is_empty())?)
        }
        Body::Simple(simple) => match unit_of(*simple) {
            Some(unit) => {
                let limits = size_of(scope, chain.as_slice())?;
                Ok(string_text(scope.alloc, simple_name(*simple), unit, limits)?)
            }
            None => Ok(String::from_str(scope.alloc, simple_name(*simple))?),
        },
        other => Ok(String::from_str(scope.alloc, body_name(other))?),
    }
}

/// The sizes that a string may have.
fn size_of<'m>(scope: Scope<'m, '_>, chain: &[&'m Type]) -> Result<Limits, Refusal> {
    limits_of(scope, chain, &[], Purpose::Size)
}

/// What a type with parts is.
fn body_name(body: &Body) -> &'static str {
    match body {
        Body::Sequence(_) => "SEQUENCE",
        Body::Set(_) => "SET",
        Body::Choice(_) => "CHOICE",
        Body::Enumerated(_, _) =>
            "ENUMERATED, 1 octet from 0 to 127, else a count and signed octets",
        Body::SequenceOf(_) => "SEQUENCE OF, a quantity and elements",
        Body::SetOf(_) => "SET OF, a quantity and elements",
        Body::Simple(_) | Body::Integer(_) | Body::BitString(_) | Body::Reference(_) => "",
    }
}

/// A count of octets.
pub fn octets_text(alloc: Global, count: i128) -> Result<String, AllocError> {
    match count {
        0 => String::from_str(alloc, "no octets"),
        1 => String::from_str(alloc, "1 octet"),
        _ => format!(in alloc; "{count} octets"),
    }
}

/// The limits as ASN.1 writes them; nothing where there are none.
fn range_text(alloc: Global, limits: Limits) -> Result<String, AllocError> {
    if limits.low.is_none() && limits.high.is_none() && !limits.is_extensible {
        return Ok(String::new(alloc));
    }
    let low = match limits.low {
        Some(low) => format!(in alloc; "{low}")?,
        None => String::from_str(alloc, "MIN")?,
    };
    let high = match limits.high {
        Some(high) => format!(in alloc; "{high}")?,
        None => String::from_str(alloc, "MAX")?,
    };
    let mark = if limits.is_extensible { ", ..." } else { "" };
    format!(in alloc; " ({low}..{high}{mark})")
}

fn integer_text(alloc: Global, limits: Limits) -> Result<String, AllocError> {
    let range = range_text(alloc, limits)?;
    let (octets, is_signed) = limits.width();
    let sign = if is_signed { "signed" } else { "unsigned" };
    match octets {
        Some(octets) => {
            let octets = octets_text(alloc, i128::from(octets))?;
            format!(in alloc; "INTEGER{range}, {sign}, {octets}")
        }
        None => format!(in alloc; "INTEGER{range}, {sign}, behind a length"),
    }
}

fn bits_text(alloc: Global, limits: Limits, has_names: bool) -> Result<String, AllocError> {
    let range = range_text(alloc, limits)?;
    match limits.fixed() {
        Some(bits) => {
            let octets = octets_text(alloc, bits.saturating_add(7).checked_div(8).unwrap_or(0))?;
            format!(in alloc; "BIT STRING{range}, {octets}")
        }
        None => {
            let names = if has_names { ", named bits" } else { "" };
            format!(in alloc;
                "BIT STRING{range}{names}, behind a length and the count of unused bits"
            )
        }
    }
}

fn string_text(
    alloc: Global,
    name: &str,
    unit: i128,
    limits: Limits,
) -> Result<String, AllocError> {
    let range = range_text(alloc, limits)?;
    match limits.fixed() {
        Some(size) => {
            let octets = octets_text(alloc, size.saturating_mul(unit))?;
            format!(in alloc; "{name}{range}, {octets}")
        }
        None => format!(in alloc; "{name}{range}, behind a length"),
    }
}

/// The octets of a unit that sizes count; none where no size is seen: for a type without sizes, and for a string whose characters
/// aren't each of one number of octets, which is always behind a length (X.696, 27).
pub fn unit_of(simple: Simple) -> Option<i128>
    ensures { result ≡ unit_of simple }
{
    match simple {
        Simple::Boolean | Simple::Null | Simple::ObjectIdentifier | Simple::Any => None,
        Simple::UtcTime | Simple::GeneralizedTime | Simple::Date => None,
        Simple::Utf8String | Simple::GeneralString => None,
        Simple::GraphicString | Simple::TeletexString => None,
        Simple::BmpString => Some(2),
        Simple::UniversalString => Some(4),
        Simple::OctetString | Simple::NumericString | Simple::PrintableString => Some(1),
        Simple::VisibleString | Simple::Ia5String => Some(1),
    }
}

/// A type's name; where no size is seen with its layout.
fn simple_name(simple: Simple) -> &'static str {
    match simple {
        Simple::Boolean => "BOOLEAN, 1 octet",
        Simple::Null => "NULL, no octets",
        Simple::OctetString => "OCTET STRING",
        Simple::ObjectIdentifier => "OBJECT IDENTIFIER, behind a length",
        Simple::Utf8String => "UTF8String, behind a length",
        Simple::NumericString => "NumericString",
        Simple::PrintableString => "PrintableString",
        Simple::VisibleString => "VisibleString",
        Simple::Ia5String => "IA5String",
        Simple::GeneralString => "GeneralString, behind a length",
        Simple::GraphicString => "GraphicString, behind a length",
        Simple::TeletexString => "TeletexString, behind a length",
        Simple::BmpString => "BMPString",
        Simple::UniversalString => "UniversalString",
        Simple::UtcTime => "UTCTime, behind a length",
        Simple::GeneralizedTime => "GeneralizedTime, behind a length",
        Simple::Date => "DATE, behind a length",
        Simple::Any => "open type, behind a length",
    }
}

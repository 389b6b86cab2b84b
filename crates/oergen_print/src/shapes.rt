//! The Rust type of a type without parts, of a name, and of lists of either.

use crate::items::limits_by_number;
use crate::text::Text;
use oergen_layouts::definitions::{Definition, Part, Tie};
use oergen_layouts::layouts::unit_of;
use oergen_layouts::numbers::names_of;
use oergen_layouts::scope::Scope;
use oergen_layouts::visible::{Limits, Purpose, UNLIMITED, limits_of};
use oergen_parse::ast::{Body, Numbered, Simple, Type};
use oergen_parse::refusal::Refusal;
use std::alloc::Global;

/// How many lists may stand inside one another.
const MAX_LISTS: usize = 64;

/// A Rust type.
#[derive(Drop)]
pub struct Shape {
    pub text: Text,
    /// The limits that are printed beside it, under a name of its own, where it has such.
    pub limits: Option<(Limits, Purpose)>,
}

/// The Rust type of a type without parts.
pub fn simple_type(simple: Simple) -> &'static str {
    match simple {
        Simple::Boolean => "bool",
        Simple::Null => "()",
        Simple::OctetString => "Octets",
        Simple::ObjectIdentifier => "ObjectIdentifier",
        Simple::Utf8String => "Utf8Text",
        Simple::NumericString => "NumericText",
        Simple::PrintableString => "PrintableText",
        Simple::VisibleString => "VisibleText",
        Simple::Ia5String => "Ia5Text",
        Simple::GeneralString => "GeneralText",
        Simple::GraphicString => "GraphicText",
        Simple::TeletexString => "TeletexText",
        Simple::BmpString => "BmpText",
        Simple::UniversalString => "UniversalText",
        Simple::UtcTime => "UtcTime",
        Simple::GeneralizedTime => "GeneralizedTime",
        Simple::Date => "Date",
        Simple::Any => "OpenOctets",
    }
}

/// The Rust type of numbers within limits, with its own limits: those that X.696 writes in as many octets.
fn number_type(limits: Limits) -> (&'static str, Limits) {
    let (name, low, high) = match limits.width() {
        (Some(1), false) => ("u8", 0, 255),
        (Some(2), false) => ("u16", 0, 65535),
        (Some(4), false) => ("u32", 0, 4294967295),
        (Some(8), false) => ("u64", 0, 18446744073709551615),
        (Some(1), true) => ("i8", -128, 127),
        (Some(2), true) => ("i16", -32768, 32767),
        (Some(4), true) => ("i32", -2147483648, 2147483647),
        (Some(8), true) => ("i64", -9223372036854775808, 9223372036854775807),
        _ => return ("Integer", UNLIMITED),
    };
    let own = Limits {
        low: Some(low),
        high: Some(high),
        is_extensible: false,
    };
    (name, own)
}

/// Whether the 0 bits at the end of a BIT STRING carry no meaning: its bits have names (X.680, 22.7), and no fixed size says how many
/// there are.
pub fn drops_zeros(names: &[Numbered], limits: Limits) -> bool {
    !names.is_empty() && limits.fixed().is_none()
}

/// The Rust type of a BIT STRING.
fn bits_type(names: &[Numbered], limits: Limits) -> &'static str {
    if drops_zeros(names, limits) {
        "NamedBits"
    } else {
        "BitString"
    }
}

/// A type that is taken by its name, with a text behind it.
fn plain(alloc: Global, name: &str, behind: &str) -> Shape {
    let text = Text::of(alloc, &[name, behind]);
    Shape { text, limits: None }
}

/// What the limits of a type are of; nothing where it has none.
fn purpose_of(base: &Type) -> Option<Purpose> {
    match &base.body {
        Body::Integer(_) => Some(Purpose::Value),
        Body::BitString(_) => Some(Purpose::Size),
        Body::Simple(simple) if unit_of(*simple).is_some() => Some(Purpose::Size),
        Body::Simple(_) | Body::Enumerated(_, _) | Body::Reference(_) => None,
        Body::Sequence(_) | Body::Set(_) | Body::Choice(_) => None,
        Body::SequenceOf(_) | Body::SetOf(_) => None,
    }
}

/// Whether a type that is named where it is used is taken by its name: nothing is said there that changes its limits.
fn is_plain<'m>(scope: Scope<'m, '_>, chain: &[&'m Type], base: &'m Type) -> Result<bool, Refusal> {
    let Some(purpose) = purpose_of(base) else {
        return Ok(true);
    };
    let names = names_of(base);
    let whole = limits_of(scope, chain, names, purpose)?;
    let (_, behind) = chain.split_at(chain.len().min(1));
    let named = limits_of(scope, behind, names, purpose)?;
    Ok(whole == named)
}

/// What a type is named where it is taken by its name: a type with parts, or one whose limits are those of the name.
fn name_taken<'d>(
    scope: Scope<'_, '_>,
    all: &'d [Definition<'_>],
    target: Option<usize>,
    chain: &[&Type],
    base: &Type,
) -> Result<Option<&'d str>, Refusal> {
    match target.and_then(|t| all.get(t)) {
        Some(definition) if is_plain(scope, chain, base)? => {
            Ok(Some(definition.rust_name.as_str()))
        }
        _ => Ok(None),
    }
}

/// The Rust type at the end of a chain, within its limits; `name` is that of the limits, where they need one.
fn base_shape<'m>(
    scope: Scope<'m, '_>,
    chain: &[&'m Type],
    base: &'m Type,
    name: &str,
) -> Result<Shape, Refusal> {
    let (limits, purpose) = match purpose_of(base) {
        Some(purpose) => (limits_of(scope, chain, names_of(base), purpose)?, purpose),
        None => (UNLIMITED, Purpose::Value),
    };
    let (rust, own) = match &base.body {
        Body::Integer(_) => number_type(limits),
        Body::BitString(names) => (bits_type(names.as_slice(), limits), UNLIMITED),
        Body::Simple(simple) => (simple_type(*simple), UNLIMITED),
        Body::Sequence(_) | Body::Set(_) | Body::Choice(_) => ("", UNLIMITED),
        Body::Enumerated(_, _) | Body::SequenceOf(_) | Body::SetOf(_) => ("", UNLIMITED),
        Body::Reference(_) => ("", UNLIMITED),
    };
    if limits.is_extensible || limits == own {
        return Ok(plain(scope.alloc, rust, ""));
    }
    let mut text = Text::of(scope.alloc, &["Limited<", rust, ", "]);
    let by_number = limits_by_number(scope.alloc, limits, purpose);
    match &by_number {
        Some(own) => text.push_text(own),
        None => text.push_all(&[name, "Limits"]),
    }
    text.push(">");
    let limits = by_number.is_none().then_some((limits, purpose));
    Ok(Shape { text, limits })
}

/// The Rust type of a part that leads back into its cycle, without the lists around it; nothing of another. In a list a knot needs no
/// box, since the elements lie apart.
fn tied_shape(alloc: Global, all: &[Definition<'_>], part: &Part<'_>) -> Option<Shape> {
    match part.tie {
        Tie::Plain => None,
        Tie::Knot if part.lists == 0 => Some(plain(alloc, "Held<K>", "")),
        Tie::Knot => Some(plain(alloc, "Bare<K>", "")),
        Tie::Member(at) => match all.get(at) {
            Some(definition) => Some(plain(alloc, definition.rust_name.as_str(), "Content<K>")),
            None => None,
        },
    }
}

/// The Rust type of a part without the lists around it; `name` is that of its limits, where they need one.
fn inner_shape<'m>(
    scope: Scope<'m, '_>,
    all: &[Definition<'m>],
    part: &Part<'m>,
    name: &str,
) -> Result<Shape, Refusal> {
    if let Some(tied) = tied_shape(scope.alloc, all, part) {
        return Ok(tied);
    }
    let chain = scope.chain_of(part.inner)?;
    let base = chain.last().copied().unwrap_or(part.inner);
    match name_taken(scope, all, part.target, chain.as_slice(), base)? {
        Some(taken) => Ok(plain(scope.alloc, taken, "")),
        None => base_shape(scope, chain.as_slice(), base, name),
    }
}

/// The Rust type of an INTEGER's numbers, whether it stands within limits, and these.
pub fn number_of_octets<'m>(
    scope: Scope<'m, '_>,
    link: &'m Type,
) -> Result<(&'static str, bool, Limits), Refusal> {
    let chain = scope.chain_of(link)?;
    let base = chain.last().copied().unwrap_or(link);
    let limits = limits_of(scope, chain.as_slice(), names_of(base), Purpose::Value)?;
    let (rust, own) = number_type(limits);
    Ok((rust, !limits.is_extensible && limits != own, limits))
}

/// The Rust type of a constant of an INTEGER: that of its numbers, or one of 128 bits, of which an `Integer` is made.
pub fn constant_type<'m>(
    scope: Scope<'m, '_>,
    of: &'m Type,
    number: i128,
) -> Result<&'static str, Refusal> {
    let (_, _, limits) = number_of_octets(scope, of)?;
    match number_type(limits) {
        (
            rust,
            Limits {
                low: Some(low),
                high: Some(high),
                ..
            },
        ) if low <= number && number <= high => { Ok(rust) }
        _ => Ok("i128"),
    }
}

/// Whether the Rust type of a string stands within sizes, and these.
pub fn sizes_of<'m>(scope: Scope<'m, '_>, link: &'m Type) -> Result<(bool, Limits), Refusal> {
    let chain = scope.chain_of(link)?;
    let base = chain.last().copied().unwrap_or(link);
    if purpose_of(base) != Some(Purpose::Size) {
        return Ok((false, UNLIMITED));
    }
    let limits = limits_of(scope, chain.as_slice(), names_of(base), Purpose::Size)?;
    Ok((!limits.is_extensible && limits != UNLIMITED, limits))
}

/// Appends the fronts of the lists around a type, and answers how many there are.
fn push_lists(out: &mut Text, start: &Type) -> usize {
    let mut of = start;
    for count in 0..MAX_LISTS {
        let Some((element, is_set)) = of.body.list() else {
            return count;
        };
        out.push(if is_set { "SetOf<" } else { "ListOf<" });
        of = element;
    }
    MAX_LISTS
}

/// The Rust type of a part; `name` is that of its limits, where they need one.
pub fn shape_of<'m>(
    scope: Scope<'m, '_>,
    all: &[Definition<'m>],
    part: &Part<'m>,
    whole: &'m Type,
    name: &str,
) -> Result<Shape, Refusal> {
    let inner = inner_shape(scope, all, part, name)?;
    let mut text = Text::new(scope.alloc);
    let lists = push_lists(&mut text, whole);
    text.push(if part.is_held { "Held<" } else { "" });
    text.push_text(&inner.text);
    text.push_times(">", lists.saturating_add(if part.is_held { 1 } else { 0 }));
    Ok(Shape {
        text,
        limits: inner.limits,
    })
}

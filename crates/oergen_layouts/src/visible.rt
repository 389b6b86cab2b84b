//! Which values and sizes a type's constraints leave, as far as the octet encoding rules see them (X.696, 8.2).
ghost use Rattle.std.specs.Prelude.{◌≡◌};
ghost use Rattle.oergen_layouts.specs.Widths.{signed_octets, unsigned_octets, width_of};

use crate::numbers::{Spot, names_of, number_of};
use crate::scope::Scope;
use oergen_parse::ast::{Constraint, Element, ElementSet, End, Numbered, Reference, Type, Value};
use oergen_parse::lexer::TokenId;
use oergen_parse::refusal::Refusal;

/// How deep sets of elements are nested, with those of the types in them.
const MAX_NESTING: u32 = 128;

/// The least and the greatest number that is left, where there is one, and whether an extension mark takes the limits away.
#[derive(Clone, Copy, PartialEq, Eq)]
pub struct Limits {
    pub low: Option<i128>,
    pub high: Option<i128>,
    pub is_extensible: bool,
}

/// What a constraint is asked for.
#[derive(Clone, Copy, PartialEq, Eq)]
pub enum Purpose {
    /// The values of an INTEGER.
    Value,
    /// The sizes of a string.
    Size,
}

/// What a constraint is seen with.
#[derive(Clone, Copy)]
struct View<'m, 'a> {
    scope: Scope<'m, 'a>,
    names: &'m [Numbered],
    purpose: Purpose,
    /// Where the constraint begins.
    first: TokenId,
}

/// No limits.
pub const UNLIMITED: Limits = Limits {
    low: None,
    high: None,
    is_extensible: false,
};

/// The lesser or the greater of two limits, where both are there.
fn both(a: Option<i128>, b: Option<i128>, greater: bool) -> Option<i128> {
    match (a, b) {
        (Some(a), Some(b)) => Some(if greater { a.max(b) } else { a.min(b) }),
        _ => None,
    }
}

/// The lesser or the greater of two limits, or the one that is there.
fn either(a: Option<i128>, b: Option<i128>, greater: bool) -> Option<i128> {
    match (a, b) {
        (Some(_), Some(_)) => both(a, b, greater),
        (Some(_), None) => a,
        _ => b,
    }
}

impl Limits {
    /// From the least of both to the greatest: a union is seen without its gaps.
    fn hull(self, other: Limits) -> Limits {
        Limits {
            low: both(self.low, other.low, false),
            high: both(self.high, other.high, true),
            is_extensible: self.is_extensible || other.is_extensible,
        }
    }

    /// What both leave.
    fn common(self, other: Limits) -> Limits {
        Limits {
            low: either(self.low, other.low, true),
            high: either(self.high, other.high, false),
            is_extensible: self.is_extensible || other.is_extensible,
        }
    }

    /// Whether no number is left.
    fn is_empty(self) -> bool {
        match (self.low, self.high) {
            (Some(low), Some(high)) => high < low,
            _ => false,
        }
    }

    /// The one number that is left, where there is one and no mark.
    pub fn fixed(self) -> Option<i128> {
        match (self.low, self.high) {
            (Some(low), Some(high)) if low == high && !self.is_extensible => Some(low),
            _ => None,
        }
    }

    /// The octets of an INTEGER, none behind a length, and whether they are signed (X.696, 10.2 to 10.4).
    pub fn width(self) -> (Option<u8>, bool)
        ensures { result ≡ width_of self.low self.high self.is_extensible }
    {
        if self.is_extensible {
            return (None, true);
        }
        match (self.low, self.high) {
            (Some(low), Some(high)) if low >= 0 => (unsigned_width(high), false),
            (Some(low), Some(high)) => (signed_width(low, high), true),
            (Some(low), None) => (None, low < 0),
            (None, _) => (None, true),
        }
    }
}

/// 1, 2, 4 or 8 unsigned octets for the numbers up to one; none past 64 bits.
fn unsigned_width(high: i128) -> Option<u8>
    ensures { result ≡ unsigned_octets high }
{
    if high <= 255 {
        Some(1)
    } else if high <= 65535 {
        Some(2)
    } else if high <= 4294967295 {
        Some(4)
    } else if high <= 18446744073709551615 {
        Some(8)
    } else {
        None
    }
}

/// 1, 2, 4 or 8 signed octets for the numbers between two; none past 64 bits.
fn signed_width(low: i128, high: i128) -> Option<u8>
    ensures { result ≡ signed_octets low high }
{
    if low >= -128 && high <= 127 {
        Some(1)
    } else if low >= -32768 && high <= 32767 {
        Some(2)
    } else if low >= -2147483648 && high <= 2147483647 {
        Some(4)
    } else if low >= -9223372036854775808 && high <= 9223372036854775807 {
        Some(8)
    } else {
        None
    }
}

/// The limits of a union: none where a part isn't seen.
#[cycle(seen)]
fn see_set<'m>(
    view: View<'m, '_>,
    set: &'m ElementSet,
    levels: u32,
) -> Result<Option<Limits>, Refusal> {
    let mut whole: Option<Limits> = None;
    for parts in set.unions.iter() {
        let Some(part) = see_intersection(view, parts.as_slice(), levels)? else {
            return Ok(None);
        };
        whole = match whole {
            Some(before) => Some(before.hull(part)),
            None => Some(part),
        };
    }
    Ok(whole)
}

/// The limits of an intersection, without the parts that aren't seen; none where none is.
#[cycle(seen)]
fn see_intersection<'m>(
    view: View<'m, '_>,
    parts: &'m [Element],
    levels: u32,
) -> Result<Option<Limits>, Refusal> {
    let mut whole: Option<Limits> = None;
    for part in parts.iter() {
        let part = see_element(view, part, levels)?;
        whole = match (whole, part) {
            (Some(before), Some(limits)) => Some(before.common(limits)),
            (Some(before), None) => Some(before),
            (None, part) => part,
        };
    }
    Ok(whole)
}

/// The limits of an element.
#[cycle(seen)]
fn see_element<'m>(
    view: View<'m, '_>,
    element: &'m Element,
    levels: u32,
) -> Result<Option<Limits>, Refusal> {
    let Some(levels) = levels.checked_sub(1) else {
        return Err(
            view.scope.refused(
                view.first,
                "a constraint at most 128 deep, and without a type that it is of",
            ),
        );
    };
    match element {
        Element::Set(set) => see_set(view, set, levels),
        Element::Size(inner) if view.purpose == Purpose::Size => {
            let view = View {
                purpose: Purpose::Value,
                ..view
            };
            let seen = see_set(view, &inner.set, levels)?;
            Ok(seen.map(|limits| Limits {
                is_extensible: limits.is_extensible || inner.is_extensible,
                ..limits
            }))
        }
        Element::Type(name) => see_type(view, *name, levels),
        Element::Single(_) | Element::Range(_, _) if view.purpose == Purpose::Size => Ok(None),
        Element::Single(value) => {
            let number = number_of(view.scope, spot_of(view, value))?;
            Ok(Some(limits_between(Some(number), Some(number))))
        }
        Element::Range(from, to) => {
            let (low, high) = (see_end(view, from, 1)?, see_end(view, to, -1)?);
            Ok(Some(limits_between(low, high)))
        }
        Element::Size(_) | Element::Unseen => Ok(None),
    }
}

/// The limits of a type that a constraint takes the values of. Refused where it has an extension mark.
#[cycle(seen)]
fn see_type<'m>(
    view: View<'m, '_>,
    name: Reference,
    levels: u32,
) -> Result<Option<Limits>, Refusal> {
    let scope = view.scope;
    let chain = scope.chain_of(scope.find_type(name)?.of)?;
    let names = chain.last().map_or(view.names, |base| names_of(*base));
    let limits = see_chain(View { names, ..view }, chain.as_slice(), levels)?;
    if limits.is_extensible {
        return Err(scope.refused(
            name.name,
            "a type without an extension mark, inside a constraint",
        ));
    }
    Ok(Some(limits))
}

/// Limits without a mark.
fn limits_between(low: Option<i128>, high: Option<i128>) -> Limits {
    Limits {
        low,
        high,
        is_extensible: false,
    }
}

/// A value in a constraint.
fn spot_of<'m>(view: View<'m, '_>, value: &'m Value) -> Spot<'m> {
    Spot {
        value,
        names: view.names,
    }
}

/// The number at an end of a range: the one that is written or, behind or in front of `<`, the next one inwards; none for `MIN` and `MAX`.
fn see_end<'m>(view: View<'m, '_>, end: &'m End, inwards: i128) -> Result<Option<i128>, Refusal> {
    match end {
        End::Open => Ok(None),
        End::At(value) => Ok(Some(number_of(view.scope, spot_of(view, value))?)),
        End::Past(value) => {
            let number = number_of(view.scope, spot_of(view, value))?;
            Ok(Some(number.saturating_add(inwards)))
        }
    }
}

/// The limits behind a further constraint. Its mark counts, and no longer that of the constraints before it (X.680, 50.8).
#[cycle(seen)]
fn see_constraint<'m>(
    view: View<'m, '_>,
    before: Limits,
    constraint: &'m Constraint,
    levels: u32,
) -> Result<Limits, Refusal> {
    let Some(seen) = see_set(view, &constraint.set, levels)? else {
        return Ok(before);
    };
    let is_extensible = seen.is_extensible || constraint.is_extensible;
    let limits = Limits {
        is_extensible,
        ..before.common(seen)
    };
    if limits.is_empty() {
        return Err(
            view.scope.refused(
                constraint.first,
                "a constraint that leaves a number of those before it",
            ),
        );
    }
    Ok(limits)
}

/// The limits behind all constraints of a type that is written.
#[cycle(seen)]
fn see_constraints<'m>(
    view: View<'m, '_>,
    before: Limits,
    of: &'m Type,
    levels: u32,
) -> Result<Limits, Refusal> {
    let mut limits = before;
    for constraint in of.constraints.iter() {
        let view = View {
            first: constraint.first,
            ..view
        };
        limits = see_constraint(view, limits, constraint, levels)?;
    }
    Ok(limits)
}

/// The limits of a type by its chain, from what it stands for up to itself.
#[cycle(seen)]
fn see_chain<'m>(view: View<'m, '_>, chain: &[&'m Type], levels: u32) -> Result<Limits, Refusal> {
    let mut limits = UNLIMITED;
    for of in chain.iter().rev() {
        limits = see_constraints(view, limits, *of, levels)?;
    }
    Ok(limits)
}

/// The limits of a type by its chain, from what it stands for up to itself.
pub fn limits_of<'m>(
    scope: Scope<'m, '_>,
    chain: &[&'m Type],
    names: &'m [Numbered],
    purpose: Purpose,
) -> Result<Limits, Refusal> {
    let Some(of) = chain.first() else {
        return Ok(UNLIMITED);
    };
    let view = View {
        scope,
        names,
        purpose,
        first: of.first,
    };
    see_chain(view, chain, MAX_NESTING)
}

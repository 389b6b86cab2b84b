//! The limits that stand beside a type.

use crate::templates::LIMITS;
use crate::text::{Text, Words};
use oergen_layouts::scope::Scope;
use oergen_layouts::visible::{Limits, Purpose};
use oergen_parse::lexer::TokenId;
use oergen_parse::refusal::Refusal;
use std::alloc::Global;

/// Appends a number as definitions write it: with its sign, or one that is 0 or more.
pub fn push_defined(out: &mut Text, number: i128, has_sign: bool) {
    let (front, digits, behind) = if !has_sign {
        ("", number, "")
    } else if number < 0 {
        ("(negsuc ", (-1i128).saturating_sub(number), ")")
    } else {
        ("(pos ", number, ")")
    };
    out.push(front);
    out.push_number(digits);
    out.push(behind);
}

/// Appends an end of a range, with texts around a number, and with its sign where definitions write one.
fn push_end(out: &mut Text, end: Option<i128>, around: (&str, &str), has_sign: bool) {
    let Some(number) = end else {
        out.push("None");
        return;
    };
    out.push(around.0);
    push_defined(out, number, has_sign);
    out.push(around.1);
}

/// Whether a number can be a parameter of the library's limits.
fn is_parameter(number: i128, purpose: Purpose) -> bool {
    match purpose {
        Purpose::Size => usize::try_from(number).is_ok(),
        Purpose::Value => i64::try_from(number).is_ok(),
    }
}

/// The library's limits that have these numbers; nothing where it has none.
pub fn limits_by_number(alloc: Global, limits: Limits, purpose: Purpose) -> Option<Text> {
    let (name, first, last) = match (purpose, limits.low, limits.high) {
        (Purpose::Size, low, Some(high)) if low == Some(high) => ("FixedSize<", high, None),
        (Purpose::Size, low, Some(high)) => ("SizeBetween<", low.unwrap_or(0), Some(high)),
        (Purpose::Size, Some(low), None) => ("SizeAtLeast<", low, None),
        (Purpose::Value, Some(low), Some(high)) => ("Between<", low, Some(high)),
        (Purpose::Value, Some(low), None) => ("AtLeast<", low, None),
        (Purpose::Value, None, Some(high)) => ("AtMost<", high, None),
        (Purpose::Size | Purpose::Value, None, None) => return None,
    };
    if !is_parameter(first, purpose) || !is_parameter(last.unwrap_or(first), purpose) {
        return None;
    }
    let mut text = Text::of(alloc, &[name]);
    text.push_number(first);
    if let Some(last) = last {
        text.push(", ");
        text.push_number(last);
    }
    text.push(">");
    Some(text)
}

/// Prints limits that the library has no name for, as a type. Refused where they are of sizes.
pub fn push_limits(
    scope: Scope<'_, '_>,
    out: &mut Text,
    name: &str,
    limits: (Limits, Purpose),
    first: TokenId,
) -> Result<(), Refusal> {
    let (limits, purpose) = limits;
    if purpose == Purpose::Size {
        return Err(scope.refused(first, "sizes from 0 to 18446744073709551615"));
    }
    let mut words = Words::new(scope.alloc);
    words.put("NAME", name);
    push_end(words.begin("LOW"), limits.low, ("Some(", ")"), false);
    push_end(words.begin("HIGH"), limits.high, ("Some(", ")"), false);
    push_end(words.begin("GHOST_LOW"), limits.low, ("(Some ", ")"), true);
    push_end(
        words.begin("GHOST_HIGH"),
        limits.high,
        ("(Some ", ")"),
        true,
    );
    out.fill(LIMITS, &words);
    Ok(())
}

//! Macros (X.208): the types that their names stand for.

use crate::cuts::{bracketed, is_at, is_name, range};
use oergen_parse::lengths::type_length;
use oergen_parse::lexer::{Kind, Token};

/// What stands in a macro in front of the type of its values.
const VALUE: [&str; 6] = ["VALUE", "NOTATION", "::=", "value", "(", "VALUE"];

/// Where the value notation stands in a macro.
fn notation_at(of: &[Token<'_>]) -> Option<usize> {
    for at in 0..of.len() {
        if is_at(of, at, "VALUE") && is_at(of, at.saturating_add(1), "NOTATION") {
            return Some(at);
        }
    }
    None
}

/// Whether the words in front of the type of a macro's values stand at a place.
fn begins_values(of: &[Token<'_>], at: usize) -> bool {
    for (offset, text) in VALUE.iter().enumerate() {
        if !is_at(of, at.saturating_add(offset), *text) {
            return false;
        }
    }
    true
}

/// The type of a macro's values, where its value notation is `value (VALUE Type)` and no more. The macro is given from its BEGIN on.
pub fn type_of_values<'t, 'a>(of: &'t [Token<'a>]) -> Option<&'t [Token<'a>]> {
    let at = notation_at(of)?;
    let first = at.saturating_add(VALUE.len());
    let open = first.saturating_sub(2);
    let behind = open.saturating_add(bracketed(range(of, open, of.len())));
    let found = range(of, first, behind.saturating_sub(1));
    let is_end = is_at(of, behind, "END")
        || is_name(of, behind) && is_at(of, behind.saturating_add(1), "::=");
    let is_whole = !found.is_empty() && type_length(found) == found.len();
    if begins_values(of, at) && is_whole && is_end {
        Some(found)
    } else {
        None
    }
}

/// Whether braces are open behind tokens, in what is assigned.
fn is_in_braces(front: &[Token<'_>]) -> bool {
    let mut closed = 0usize;
    for token in front.iter().rev() {
        match token.text {
            "}" | ")" | "]" | "]]" => closed = closed.saturating_add(1),
            "{" | "[[" if closed == 0 => return true,
            "(" | "[" | "::=" if closed == 0 => return false,
            "{" | "(" | "[" | "[[" => closed = closed.saturating_sub(1),
            _ => {}
        }
    }
    false
}

/// Whether a macro's name behind tokens is a type: neither one that is imported, nor what governs a value.
pub fn is_type_behind(front: &[Token<'_>]) -> bool {
    let Some(before) = front.last() else {
        return false;
    };
    match before.text {
        "]" | "IMPLICIT" | "EXPLICIT" | "OF" => true,
        "::=" => !is_at(front, front.len().saturating_sub(2), "MACRO"),
        _ => before.kind == Kind::Word && is_in_braces(front),
    }
}

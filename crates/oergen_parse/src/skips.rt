//! Where an assignment ends, by its signs alone: also one of a class or with parameters, and one that can't be read.

use crate::lengths::{
    body_length, braces_at, is_at, is_kind, macro_length, rest_of, type_length, value_length,
};
use crate::lexer::{Kind, Token};
use crate::reader::Reader;
use crate::words::is_reserved;

/// What an assignment assigns.
#[derive(Clone, Copy, PartialEq, Eq)]
enum Sort {
    /// A type or a class.
    Type,
    Value,
    /// A set of values or of objects.
    Set,
    /// A macro of the older notation (X.208).
    Macro,
}

/// Whether no assignment goes on past a token.
fn is_end(token: Token<'_>) -> bool {
    token.kind == Kind::End || token.text == "END"
}

/// How many tokens an assignment has up to its `::=`, with that.
fn head_length(tokens: &[Token<'_>]) -> usize {
    for (at, token) in tokens.iter().enumerate() {
        if is_end(*token) {
            return at;
        }
        if token.text == "::=" {
            return at.saturating_add(1);
        }
    }
    tokens.len()
}

/// What an assignment assigns, of which the first tokens are so many up to its `::=`, with that.
fn sort_of(tokens: &[Token<'_>], head: usize) -> Sort {
    let behind = braces_at(tokens, 1).saturating_add(2);
    if is_kind(tokens, 0, Kind::Word) {
        Sort::Value
    } else if is_at(tokens, 1, "MACRO") {
        Sort::Macro
    } else if behind == head {
        Sort::Type
    } else {
        Sort::Set
    }
}

/// Whether the head of an assignment stands at the front: a name with its parameters, a type where it is of a value or a set, and `::=`.
fn begins(tokens: &[Token<'_>], first: Token<'_>) -> bool {
    let of = braces_at(tokens, 1).saturating_add(1);
    let assigns = of.saturating_add(type_length(rest_of(tokens, of)));
    let body = assigns.saturating_add(1);
    if !is_at(tokens, assigns, "::=") {
        return false;
    }
    match first.kind {
        Kind::Word => assigns != of,
        Kind::Name if is_reserved(first.text) => false,
        Kind::Name if assigns == of => body_length(rest_of(tokens, body)) != 0,
        Kind::Name => is_at(tokens, body, "{") || is_at(tokens, 1, "MACRO"),
        Kind::Number | Kind::Bits | Kind::Hex | Kind::Text | Kind::Sign | Kind::End => false,
    }
}

/// Whether so many tokens are a whole body: the module ends behind them, or what can be an assignment begins.
fn is_body(tokens: &[Token<'_>], length: usize) -> bool {
    let rest = rest_of(tokens, length);
    match rest.first() {
        Some(next) if length != 0 => {
            is_end(*next) || next.kind == Kind::Word || begins(rest, *next)
        }
        Some(_) | None => false,
    }
}

/// Whether a body can end with a token.
fn ends_body(token: Token<'_>) -> bool {
    match token.kind {
        Kind::Name => !matches!(token.text, "OF" | "BY" | "IMPLICIT" | "EXPLICIT"),
        Kind::Sign => matches!(token.text, "}" | ")"),
        Kind::Word | Kind::Number | Kind::Bits | Kind::Hex | Kind::Text | Kind::End => true,
    }
}

/// Whether an assignment can begin at a place, with a name of that kind.
fn is_start(tokens: &[Token<'_>], at: usize, kind: Kind) -> bool {
    let Some(before) = at.checked_sub(1) else {
        return false;
    };
    match (tokens.get(before), tokens.get(at)) {
        (Some(before), Some(first)) => {
            first.kind == kind && ends_body(*before) && begins(rest_of(tokens, at), *first)
        }
        _ => false,
    }
}

/// The last place in front of the `::=` at a place where an assignment begins with a name of that kind.
fn last_start(tokens: &[Token<'_>], assigns: usize, kind: Kind) -> Option<usize> {
    let front = tokens.get(..assigns).unwrap_or(tokens);
    let mut depth = 0usize;
    for (at, token) in front.iter().enumerate().rev() {
        match token.text {
            "}" | ")" | "]" | "]]" => depth = depth.saturating_add(1),
            "{" | "(" | "[" | "[[" => depth = depth.saturating_sub(1),
            _ if depth == 0 && is_start(tokens, at, kind) => return Some(at),
            _ => {}
        }
    }
    None
}

/// Where the assignment begins of which `::=` stands at a place: at a value's name, else at that of a type or a set, else at any name
/// directly in front.
fn start_of(tokens: &[Token<'_>], assigns: usize) -> Option<usize> {
    let value = last_start(tokens, assigns, Kind::Word);
    if value.is_some() {
        return value;
    }
    let other = last_start(tokens, assigns, Kind::Name);
    if other.is_some() {
        return other;
    }
    let before = assigns.checked_sub(1)?;
    let is_name = is_kind(tokens, before, Kind::Name) || is_kind(tokens, before, Kind::Word);
    if is_name && before != 0 {
        Some(before)
    } else {
        None
    }
}

/// How many tokens stand in front of the next assignment, or of the module's end, where what is assigned isn't whole.
fn searched_length(tokens: &[Token<'_>]) -> usize {
    let mut behind = 0usize;
    for (at, token) in tokens.iter().enumerate() {
        if is_end(*token) {
            return at;
        }
        if token.text == "::=" {
            let length = at.saturating_sub(behind);
            if let Some(start) = start_of(rest_of(tokens, behind), length) {
                return behind.saturating_add(start);
            }
            behind = at.saturating_add(1);
        }
    }
    tokens.len()
}

/// How many tokens a body has: so many, where they are whole, else as many as are found.
fn ended_length(tokens: &[Token<'_>], length: usize) -> usize {
    if is_body(tokens, length) {
        length
    } else {
        searched_length(tokens)
    }
}

/// Passes over an assignment: up to its `::=`, and from there to where the next one begins, or to `END`.
pub fn skip_assignment(reader: &mut Reader<'_>) {
    let tokens = reader.rest();
    let head = head_length(tokens);
    let body = rest_of(tokens, head);
    let length = match sort_of(tokens, head) {
        Sort::Type => ended_length(body, body_length(body)),
        Sort::Value => ended_length(body, value_length(body)),
        Sort::Set => ended_length(body, braces_at(body, 0)),
        Sort::Macro => macro_length(body),
    };
    reader.skip(head.saturating_add(length));
}

/// Whether a macro of that name is defined among the tokens (X.208).
pub fn defines_macro(tokens: &[Token<'_>], name: &str) -> bool {
    for (at, token) in tokens.iter().enumerate() {
        if token.text == name && is_at(tokens, at.saturating_add(1), "MACRO") {
            return true;
        }
    }
    false
}

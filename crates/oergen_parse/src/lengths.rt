//! How many tokens a type, a class, a value or a macro has, by its signs alone: also one that isn't read.

use crate::lexer::{Kind, Token};
use crate::words::is_type;

/// Types of two words.
static PAIRS: [(&str, &str); 5] = [
    ("BIT", "STRING"),
    ("OCTET", "STRING"),
    ("CHARACTER", "STRING"),
    ("OBJECT", "IDENTIFIER"),
    ("EMBEDDED", "PDV"),
];

/// What stands at the front of a type.
#[derive(Clone, Copy, PartialEq, Eq)]
enum Front {
    /// So many tokens with a type behind them: a tag, or that it is a list.
    Leads(usize),
    /// So many tokens that say which type it is.
    Names(usize),
    /// No type.
    Other,
}

/// The tokens from a number on.
pub fn rest_of<'t, 'a>(tokens: &'t [Token<'a>], at: usize) -> &'t [Token<'a>] {
    match tokens.get(at..) {
        Some(rest) => rest,
        None => tokens.split_at(0).0,
    }
}

/// Whether the token at a place has that text.
pub fn is_at(tokens: &[Token<'_>], at: usize, text: &str) -> bool {
    match tokens.get(at) {
        Some(token) => token.text == text,
        None => false,
    }
}

/// Whether the token at a place is of that kind.
pub fn is_kind(tokens: &[Token<'_>], at: usize, kind: Kind) -> bool {
    match tokens.get(at) {
        Some(token) => token.kind == kind,
        None => false,
    }
}

/// How many tokens stand from the bracket at the front to the one that closes it; none where none is there, or none closes it in front
/// of the next `::=`.
fn bracketed(tokens: &[Token<'_>]) -> usize {
    let mut depth = 0usize;
    for (at, token) in tokens.iter().enumerate() {
        depth = token.depth_behind(depth);
        if depth == 0 && at != 0 {
            return at.saturating_add(1);
        }
        if depth == 0 || token.text == "::=" || token.kind == Kind::End {
            break;
        }
    }
    0
}

/// How many tokens the braces have that stand at a place.
pub fn braces_at(tokens: &[Token<'_>], at: usize) -> usize {
    if is_at(tokens, at, "{") {
        bracketed(rest_of(tokens, at))
    } else {
        0
    }
}

/// How many tokens the constraints have that stand at a place.
fn constraints_at(tokens: &[Token<'_>], at: usize) -> usize {
    let mut end = at;
    for _ in 0..tokens.len() {
        if !is_at(tokens, end, "(") {
            break;
        }
        let length = bracketed(rest_of(tokens, end));
        if length == 0 {
            break;
        }
        end = end.saturating_add(length);
    }
    end.saturating_sub(at)
}

/// How many tokens the name of a type or a class has, with its module's, and the names of fields behind it.
fn reference_length(tokens: &[Token<'_>]) -> usize {
    let mut at = 1usize;
    for _ in 0..tokens.len() {
        if !is_at(tokens, at, ".") {
            break;
        }
        let is_field = is_at(tokens, at.saturating_add(1), "&");
        at = at.saturating_add(if is_field { 3 } else { 2 });
    }
    at
}

/// The front of a SEQUENCE or a SET: braces follow, or what its list is of.
fn structure_front(tokens: &[Token<'_>]) -> Front {
    if is_at(tokens, 1, "{") {
        return Front::Names(1);
    }
    let sizes = if is_at(tokens, 1, "SIZE") { 2 } else { 1 };
    let of = constraints_at(tokens, sizes).saturating_add(sizes);
    if !is_at(tokens, of, "OF") {
        return Front::Other;
    }
    let element = of.saturating_add(1);
    let behind = element.saturating_add(1);
    if is_kind(tokens, element, Kind::Word) && !is_at(tokens, behind, "<") {
        Front::Leads(behind)
    } else {
        Front::Leads(element)
    }
}

/// Whether the first two tokens are a type.
fn is_pair(tokens: &[Token<'_>]) -> bool {
    for (first, second) in PAIRS.iter() {
        if is_at(tokens, 0, *first) && is_at(tokens, 1, *second) {
            return true;
        }
    }
    false
}

/// The front of a type of words that X.680 keeps, or of a name.
fn named_front(tokens: &[Token<'_>], first: Token<'_>) -> Front {
    if is_pair(tokens) {
        Front::Names(2)
    } else if first.text == "ANY" && is_at(tokens, 1, "DEFINED") {
        Front::Names(4)
    } else if first.kind == Kind::Name && is_type(first.text) {
        Front::Names(reference_length(tokens))
    } else if first.kind == Kind::Word && is_at(tokens, 1, "<") {
        Front::Leads(2)
    } else {
        Front::Other
    }
}

/// What stands at the front of a type.
fn front_of(tokens: &[Token<'_>]) -> Front {
    let Some(first) = tokens.first() else {
        return Front::Other;
    };
    match first.text {
        "[" => match bracketed(tokens) {
            0 => Front::Other,
            length => Front::Leads(length),
        },
        "IMPLICIT" | "EXPLICIT" => Front::Leads(1),
        "INSTANCE" if is_at(tokens, 1, "OF") => Front::Leads(2),
        "SEQUENCE" | "SET" => structure_front(tokens),
        _ => named_front(tokens, *first),
    }
}

/// How many tokens the type at the front has, with its constraints; none where no type begins there.
pub fn type_length(tokens: &[Token<'_>]) -> usize {
    let mut at = 0usize;
    for _ in 0..tokens.len() {
        match front_of(rest_of(tokens, at)) {
            Front::Leads(length) => at = at.saturating_add(length),
            Front::Names(length) => {
                let named = at.saturating_add(length);
                let end = named.saturating_add(braces_at(tokens, named));
                return end.saturating_add(constraints_at(tokens, end));
            }
            Front::Other => return 0,
        }
    }
    0
}

/// How many tokens the class at the front has, or the type.
pub fn body_length(tokens: &[Token<'_>]) -> usize {
    if !is_at(tokens, 0, "CLASS") {
        return type_length(tokens);
    }
    let fields = braces_at(tokens, 1).saturating_add(1);
    let syntax = fields.saturating_add(2);
    if is_at(tokens, fields, "WITH") && is_at(tokens, fields.saturating_add(1), "SYNTAX") {
        braces_at(tokens, syntax).saturating_add(syntax)
    } else {
        fields
    }
}

/// How many tokens say of a value which alternative or type it is of, as `name:` and `Type:` do (X.680, 29.11, and X.681, 14.6).
pub fn choices_length(tokens: &[Token<'_>]) -> usize {
    let mut at = 0usize;
    for _ in 0..tokens.len() {
        let rest = rest_of(tokens, at);
        let length = if is_kind(rest, 0, Kind::Word) {
            1
        } else {
            type_length(rest)
        };
        if length == 0 || !is_at(rest, length, ":") {
            break;
        }
        at = at.saturating_add(length).saturating_add(1);
    }
    at
}

/// How many tokens the number at the front has.
fn number_length(tokens: &[Token<'_>]) -> usize {
    if is_at(tokens, 1, ".") && is_kind(tokens, 2, Kind::Number) {
        3
    } else {
        1
    }
}

/// How many tokens a value has that begins with a small letter: a name, with parameters or the field of an object, or as macros have
/// it (X.208) with a number.
fn word_length(tokens: &[Token<'_>]) -> usize {
    if is_at(tokens, 1, ".") && is_at(tokens, 2, "&") {
        4
    } else if is_kind(tokens, 1, Kind::Number) {
        2
    } else {
        braces_at(tokens, 1).saturating_add(1)
    }
}

/// How many tokens a value has that begins with a capital letter; none where none begins so.
fn name_length(tokens: &[Token<'_>], first: Token<'_>) -> usize {
    match first.text {
        "TRUE" | "FALSE" | "NULL" | "PLUS-INFINITY" | "MINUS-INFINITY" | "NOT-A-NUMBER" => 1,
        _ if is_at(tokens, 1, ".") && is_kind(tokens, 2, Kind::Word) => 3,
        _ => 0,
    }
}

/// How many tokens the value at the front has; none where none begins there.
fn plain_length(tokens: &[Token<'_>]) -> usize {
    let Some(first) = tokens.first() else {
        return 0;
    };
    match first.kind {
        Kind::Number => number_length(tokens),
        Kind::Bits | Kind::Hex | Kind::Text => 1,
        Kind::Word => word_length(tokens),
        Kind::Name => name_length(tokens, *first),
        Kind::Sign if first.text == "-" && is_kind(tokens, 1, Kind::Number) => {
            number_length(rest_of(tokens, 1)).saturating_add(1)
        }
        Kind::Sign => braces_at(tokens, 0),
        Kind::End => 0,
    }
}

/// How many tokens the value at the front has, also one of a CHOICE or an open type; none where none begins there.
pub fn value_length(tokens: &[Token<'_>]) -> usize {
    let choices = choices_length(tokens);
    match plain_length(rest_of(tokens, choices)) {
        0 => 0,
        length => choices.saturating_add(length),
    }
}

/// How many tokens the macro has of which what is assigned stands at the front: up to its own END, or the name of another.
pub fn macro_length(tokens: &[Token<'_>]) -> usize {
    if !is_at(tokens, 0, "BEGIN") {
        return reference_length(tokens);
    }
    for (at, token) in tokens.iter().enumerate() {
        if token.text == "END" {
            return at.saturating_add(1);
        }
    }
    tokens.len()
}

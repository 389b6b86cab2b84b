//! Types with parameters (X.683): what stands where their dummies are written.

use crate::cuts::{inside, is_at, is_name, push_copied, push_word, range};
use oergen_parse::lexer::{Kind, Token};
use std::alloc::AllocError;

/// What is given for a dummy.
#[derive(Clone, Copy, PartialEq, Eq)]
pub enum Given {
    /// What stands for it as it is written.
    Text,
    /// Values between braces, of the type that governs it.
    Values,
}

/// A parameter of a type, as it is used once.
#[derive(Clone, Copy)]
pub struct Parameter<'t, 'a> {
    /// What stands in front of the dummy's `:`, with what is given for it where it is a dummy itself.
    pub governor: &'t [Token<'a>],
    pub dummy: Token<'a>,
    pub given: &'t [Token<'a>],
    pub is: Given,
}

/// What values that are given for a dummy are where it is written.
#[derive(Clone, Copy)]
enum Use {
    /// A type: the governor's, less all other values.
    Type,
    /// A parameter of another type.
    Actual,
    /// Elements of a constraint, or of values between braces.
    Elements,
}

/// What stands in front of a dummy's `:`; nothing where it has none.
pub fn governor_of<'t, 'a>(declared: &'t [Token<'a>]) -> &'t [Token<'a>] {
    let colon = declared.len().saturating_sub(2);
    if is_at(declared, colon, ":") {
        range(declared, 0, colon)
    } else {
        range(declared, 0, 0)
    }
}

/// Where the bracket stands that is open behind tokens; nothing where none is.
fn opener_of(front: &[Token<'_>]) -> Option<usize> {
    let mut closed = 0usize;
    for (at, token) in front.iter().enumerate().rev() {
        match token.text {
            "}" | ")" | "]" | "]]" => closed = closed.saturating_add(1),
            "{" | "(" | "[" | "[[" if closed == 0 => return Some(at),
            "{" | "(" | "[" | "[[" => closed = closed.saturating_sub(1),
            _ => {}
        }
    }
    None
}

/// Whether identifiers begin what stands between the brackets that are open behind tokens: of components, alternatives, enumerated
/// values, named numbers and named bits.
fn lists_identifiers(front: &[Token<'_>]) -> bool {
    let Some(open) = opener_of(front) else {
        return false;
    };
    if is_at(front, open, "[[") {
        return true;
    }
    let Some(word) = range(front, 0, open).last() else {
        return false;
    };
    is_at(front, open, "{")
        && matches!(
            word.text,
            "SEQUENCE" | "SET" | "CHOICE" | "ENUMERATED" | "INTEGER" | "STRING" | "DEFAULT"
        )
}

/// Whether what stands between the braces that are open behind tokens are names of numbers, of bits or of enumerated values: also one with a
/// capital letter is no dummy there.
fn lists_numbers(front: &[Token<'_>]) -> bool {
    let Some(open) = opener_of(front) else {
        return false;
    };
    match range(front, 0, open).last() {
        Some(word) => is_at(front, open, "{")
            && matches!(word.text, "ENUMERATED" | "INTEGER" | "STRING"),
        None => false,
    }
}

/// Whether the word behind tokens is an identifier, and no name of a value (X.680, 12.3): only names are replaced (X.683, 8).
fn is_identifier(front: &[Token<'_>]) -> bool {
    let Some(before) = front.last() else {
        return false;
    };
    match before.text {
        "OF" | "BY" | "[[" => true,
        "{" | "," => lists_identifiers(front),
        ":" => is_at(front, front.len().saturating_sub(3), "[["),
        _ => false,
    }
}

/// Whether what stands at a place of a type's text is a name by itself, and no part of another: of a field, of another module, or such a
/// module's.
fn is_whole(body: &[Token<'_>], at: usize) -> bool {
    let is_behind = match range(body, 0, at).last() {
        Some(before) => matches!(before.text, "&" | "." | "@"),
        None => false,
    };
    let next = at.saturating_add(1);
    let is_module = is_at(body, next, ".") && !is_at(body, next.saturating_add(1), "&");
    !is_behind && !is_module
}

/// The parameter whose dummy stands at a place of a type's text.
pub fn dummy_at<'t, 'a>(
    parameters: &[Parameter<'t, 'a>],
    body: &[Token<'a>],
    at: usize,
) -> Option<Parameter<'t, 'a>> {
    let token = body.get(at)?;
    for one in parameters.iter() {
        if one.dummy.kind == token.kind && one.dummy.text == token.text {
            let front = range(body, 0, at);
            let is_name = token.kind == Kind::Name && !lists_numbers(front)
                || token.kind == Kind::Word && !is_identifier(front);
            return if is_name && is_whole(body, at) {
                Some(*one)
            } else {
                None
            };
        }
    }
    None
}

/// Whether what stands behind tokens is an actual parameter.
fn is_actual(front: &[Token<'_>]) -> bool {
    match opener_of(front) {
        Some(open) => is_at(front, open, "{") && open > 0 && is_name(front, open.saturating_sub(1)),
        None => false,
    }
}

/// What values are where their dummy stands behind tokens.
fn use_of(front: &[Token<'_>]) -> Use {
    let Some(before) = front.last() else {
        return Use::Type;
    };
    match before.text {
        _ if before.kind == Kind::Word => Use::Type,
        "]" | "IMPLICIT" | "EXPLICIT" | "OF" => Use::Type,
        "{" | "," if is_actual(front) => Use::Actual,
        _ => Use::Elements,
    }
}

/// Puts what is between braces behind others, between parentheses.
pub fn push_elements<'a>(out: &mut Vec<Token<'a>>, braced: &[Token<'a>]) -> Result<(), AllocError> {
    let Some(open) = braced.first() else {
        return Ok(());
    };
    push_word(out, *open, Kind::Sign, "(")?;
    out.extend_from_slice(inside(braced))?;
    push_word(out, *open, Kind::Sign, ")")
}

/// Puts what is given for a dummy behind others, where the dummy stands behind `front` in the type's text.
pub fn push_given<'a>(
    out: &mut Vec<Token<'a>>,
    of: Parameter<'_, 'a>,
    front: &[Token<'a>],
    copy: usize,
) -> Result<(), AllocError> {
    match (of.is, use_of(front)) {
        (Given::Text, _) | (Given::Values, Use::Actual) => out.extend_from_slice(of.given),
        (Given::Values, Use::Elements) => push_elements(out, of.given),
        (Given::Values, Use::Type) => {
            push_copied(out, of.governor, copy)?;
            push_elements(out, of.given)
        }
    }
}

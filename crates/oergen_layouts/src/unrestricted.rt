//! EMBEDDED PDV and CHARACTER STRING: the SEQUENCEs that stand for them (X.680, 36.5 and 44.5; X.696, 25 and 28).

use crate::cuts::{bracketed, inside, is_at, range};
use oergen_parse::lexer::Token;

/// What both begin with, unless it is fixed. X.680 has these types where tags are automatic; of the OPTIONAL `data-value-descriptor`, which is
/// always absent, the encoding has no presence bit.
pub const IDENTIFICATION: &str =
    "identification [0] EXPLICIT CHOICE { syntaxes [0] IMPLICIT SEQUENCE { abstract [0] IMPLICIT OBJECT IDENTIFIER, \
transfer [1] IMPLICIT OBJECT IDENTIFIER }, syntax [1] IMPLICIT OBJECT IDENTIFIER, presentation-context-id [2] IMPLICIT INTEGER, \
context-negotiation [3] IMPLICIT SEQUENCE { presentation-context-id [0] IMPLICIT INTEGER, \
transfer-syntax [1] IMPLICIT OBJECT IDENTIFIER }, transfer-syntax [4] IMPLICIT OBJECT IDENTIFIER, fixed [5] IMPLICIT NULL },";

/// What stands in front of that in an EMBEDDED PDV, and behind it.
pub const EMBEDDED: (&str, &str) = (
    "[UNIVERSAL 11] IMPLICIT SEQUENCE {",
    "data-value [2] IMPLICIT OCTET STRING }",
);

/// The same of a CHARACTER STRING.
pub const CHARACTERS: (&str, &str) = (
    "[UNIVERSAL 29] IMPLICIT SEQUENCE {",
    "string-value [2] IMPLICIT OCTET STRING }",
);

/// The constraint that fixes the identification, without marks that further components follow.
const FIXES: [&str; 15] = [
    "(",
    "WITH",
    "COMPONENTS",
    "{",
    "identification",
    "(",
    "WITH",
    "COMPONENTS",
    "{",
    "fixed",
    "PRESENT",
    "}",
    ")",
    "}",
    ")",
];

/// What constraints say of the identification.
#[derive(Clone, Copy, PartialEq, Eq)]
pub enum Identification {
    /// Nothing: it is written.
    Any,
    /// It is `fixed`, and isn't written.
    Fixed,
    /// What isn't read.
    Other,
}

/// Whether the two words of such a type stand in front.
pub fn is_unrestricted(tokens: &[Token<'_>]) -> bool {
    is_at(tokens, 0, "EMBEDDED") && is_at(tokens, 1, "PDV")
        || is_at(tokens, 0, "CHARACTER") && is_at(tokens, 1, "STRING")
}

/// How many tokens a mark in front has that further components follow, with its comma.
fn mark_length(tokens: &[Token<'_>]) -> usize {
    if is_at(tokens, 0, "...") && is_at(tokens, 1, ",") {
        2
    } else {
        0
    }
}

/// Whether the constraint in front fixes the identification.
fn fixes(tokens: &[Token<'_>]) -> bool {
    let mut at = 0usize;
    for text in FIXES.iter() {
        at = at.saturating_add(mark_length(range(tokens, at, tokens.len())));
        if !is_at(tokens, at, *text) {
            return false;
        }
        at = at.saturating_add(1);
    }
    true
}

/// Whether a constraint, of which all between its parentheses is given, is a size, or one that only words say.
fn is_passed_over(tokens: &[Token<'_>]) -> bool {
    let words = if is_at(tokens, 0, "SIZE") {
        1
    } else if is_at(tokens, 0, "CONSTRAINED") && is_at(tokens, 1, "BY") {
        2
    } else {
        return false;
    };
    let rest = range(tokens, words, tokens.len());
    !rest.is_empty() && bracketed(rest) == rest.len()
}

/// What the constraints in front say of the identification.
pub fn identification_of(tokens: &[Token<'_>]) -> Identification {
    let mut found = Identification::Any;
    let mut at = 0usize;
    for _ in 0..tokens.len() {
        let rest = range(tokens, at, tokens.len());
        if !is_at(rest, 0, "(") {
            break;
        }
        if fixes(rest) {
            found = Identification::Fixed;
        } else if !is_passed_over(inside(rest)) {
            return Identification::Other;
        }
        at = at.saturating_add(bracketed(rest));
    }
    found
}

/// What stands behind the tags in front of a type.
pub fn behind_tags<'t, 'a>(tokens: &'t [Token<'a>]) -> &'t [Token<'a>] {
    let mut rest = tokens;
    for _ in 0..tokens.len() {
        let length = if is_at(rest, 0, "[") {
            bracketed(rest)
        } else if is_at(rest, 0, "IMPLICIT") || is_at(rest, 0, "EXPLICIT") {
            1
        } else {
            break;
        };
        rest = range(rest, length, rest.len());
    }
    rest
}

//! Information objects (X.681): the values of their fields.

use crate::classes::default_of;
use crate::cuts::{bracketed, inside, is_at, range};
use oergen_parse::lexer::Token;
use std::alloc::{AllocError, Global};

/// Where `&name` stands among tokens.
fn field_at(tokens: &[Token<'_>], name: &str) -> Option<usize> {
    for (at, token) in tokens.iter().enumerate() {
        if token.text == "&" && is_at(tokens, at.saturating_add(1), name) {
            return Some(at);
        }
    }
    None
}

/// Where the words begin that end tokens of a class's syntax: behind a field, or a bracket.
fn words_from(front: &[Token<'_>]) -> usize {
    for (at, token) in front.iter().enumerate().rev() {
        let is_field = at > 0 && is_at(front, at.saturating_sub(1), "&");
        if is_field || matches!(token.text, "[" | "]") {
            return at.saturating_add(1);
        }
    }
    0
}

/// What stands in an object in front of a field's value, and what such fronts are made of: words of the class's syntax, none of the field
/// that it begins with, or the field's name where it has none (X.681, 10 and 11). The class is written from its `CLASS` on.
fn front_of<'t, 'a>(
    class: &'t [Token<'a>],
    name: &str,
) -> Option<(&'t [Token<'a>], &'t [Token<'a>])> {
    let behind = range(class, 1, class.len());
    let fields = inside(behind);
    let syntax = range(behind, bracketed(behind), behind.len());
    if !is_at(syntax, 0, "WITH") {
        let at = field_at(fields, name)?;
        return Some((range(fields, at, at.saturating_add(2)), range(fields, 0, 0)));
    }
    let words = inside(range(syntax, 2, syntax.len()));
    let at = field_at(words, name)?;
    let front = range(words, words_from(range(words, 0, at)), at);
    if front.is_empty() && at != 0 {
        None
    } else {
        Some((front, words))
    }
}

/// Whether other tokens stand at a place.
fn stand_at(tokens: &[Token<'_>], at: usize, others: &[Token<'_>]) -> bool {
    for (offset, other) in others.iter().enumerate() {
        if !is_at(tokens, at.saturating_add(offset), other.text) {
            return false;
        }
    }
    true
}

/// Whether a token is one of the words that fronts are made of.
fn is_word(words: &[Token<'_>], token: Option<&Token<'_>>) -> bool {
    match token {
        Some(token) => words.iter().any(|word| word.text == token.text),
        None => false,
    }
}

/// Where the value begins that stands behind a front in an object, outside of brackets, where no further word stands in front of it.
fn behind_front(object: &[Token<'_>], front: &[Token<'_>], words: &[Token<'_>]) -> Option<usize> {
    let mut depth = 0usize;
    for (at, token) in object.iter().enumerate() {
        let is_begun = is_word(words, range(object, 0, at).last());
        if depth == 0 && !is_begun && stand_at(object, at, front) {
            return Some(at.saturating_add(front.len()));
        }
        depth = token.depth_behind(depth);
    }
    None
}

/// Whether a token is one of the words of a class's syntax, and not the name of a field there.
fn is_literal(words: &[Token<'_>], token: &Token<'_>) -> bool {
    for (at, word) in words.iter().enumerate() {
        let is_field = at > 0 && is_at(words, at.saturating_sub(1), "&");
        if word.text == token.text && !is_field && !matches!(word.text, "&" | "[" | "]") {
            return true;
        }
    }
    false
}

/// The tokens in front of a comma, or of a word of a class's syntax.
fn in_front<'t, 'a>(tokens: &'t [Token<'a>], words: &[Token<'_>]) -> &'t [Token<'a>] {
    let mut depth = 0usize;
    for (at, token) in tokens.iter().enumerate() {
        if depth == 0 && (token.text == "," || is_literal(words, token)) {
            return range(tokens, 0, at);
        }
        depth = token.depth_behind(depth);
    }
    tokens
}

/// The type that an object has for a field; nothing where it has none. The object is what stands between its braces, the class is written
/// from its `CLASS` on.
pub fn type_of<'t, 'a>(
    object: &'t [Token<'a>],
    class: &[Token<'a>],
    name: &str,
) -> Option<&'t [Token<'a>]> {
    let (front, words) = front_of(class, name)?;
    let at = behind_front(object, front, words)?;
    let found = in_front(range(object, at, object.len()), words);
    if found.is_empty() { None } else { Some(found) }
}

/// The first value of tokens: a number below zero, what stands between brackets, or a token.
fn first_value<'t, 'a>(tokens: &'t [Token<'a>]) -> &'t [Token<'a>] {
    let length = if is_at(tokens, 0, "-") {
        2
    } else {
        bracketed(tokens)
    };
    range(tokens, 0, length)
}

/// The value of an object's field, or the one that the class has for those that don't say it; nothing where neither does. The object is what
/// stands between its braces, the class is written from its `CLASS` on.
pub fn value_of<'t, 'a>(
    alloc: Global,
    object: &'t [Token<'a>],
    class: &'t [Token<'a>],
    name: &str,
) -> Result<Option<&'t [Token<'a>]>, AllocError> {
    let Some((front, words)) = front_of(class, name) else {
        return Ok(None);
    };
    if let Some(at) = behind_front(object, front, words) {
        return Ok(Some(first_value(range(object, at, object.len()))));
    }
    let fields = inside(range(class, 1, class.len()));
    match default_of(alloc, fields, name)? {
        Some(default) => Ok(Some(first_value(default))),
        None => Ok(None),
    }
}

//! Pieces of tokens: names, brackets, and what stands between commas.

use oergen_parse::lexer::{Kind, Token};
use std::alloc::{AllocError, Global};

/// The tokens from one number up to another.
pub fn range<'t, 'a>(tokens: &'t [Token<'a>], start: usize, end: usize) -> &'t [Token<'a>] {
    match tokens.get(start..end) {
        Some(found) => found,
        None => tokens.split_at(0).0,
    }
}

/// Whether the token at a place has that text.
pub fn is_at(tokens: &[Token<'_>], at: usize, text: &str) -> bool {
    match tokens.get(at) {
        Some(token) => token.text == text,
        None => false,
    }
}

/// Whether the token at a place is a name with a capital letter.
pub fn is_name(tokens: &[Token<'_>], at: usize) -> bool {
    match tokens.get(at) {
        Some(token) => token.kind == Kind::Name,
        None => false,
    }
}

/// How many tokens the name in front has, with the module's where it is one of another module: three; 0 where there is none.
pub fn name_length(tokens: &[Token<'_>]) -> usize {
    if !is_name(tokens, 0) {
        0
    } else if is_at(tokens, 1, ".") && is_name(tokens, 2) {
        3
    } else {
        1
    }
}

/// How many tokens there are up to the bracket that closes the first one, with that; all where none does.
pub fn bracketed(tokens: &[Token<'_>]) -> usize {
    let mut depth = 0usize;
    for (at, token) in tokens.iter().enumerate() {
        depth = token.depth_behind(depth);
        if depth == 0 {
            return at.saturating_add(1);
        }
    }
    tokens.len()
}

/// What stands inside the brackets of which the first token opens one.
pub fn inside<'t, 'a>(tokens: &'t [Token<'a>]) -> &'t [Token<'a>] {
    range(tokens, 1, bracketed(tokens).saturating_sub(1))
}

/// What stands between commas, outside of brackets.
pub fn parts_of<'t, 'a>(
    alloc: Global,
    tokens: &'t [Token<'a>],
) -> Result<Vec<&'t [Token<'a>]>, AllocError> {
    let mut parts = Vec::new(alloc);
    let mut depth = 0usize;
    let mut start = 0usize;
    for (at, token) in tokens.iter().enumerate() {
        if depth == 0 && token.text == "," {
            parts.push(range(tokens, start, at))?;
            start = at.saturating_add(1);
        }
        depth = token.depth_behind(depth);
    }
    if !tokens.is_empty() {
        parts.push(range(tokens, start, tokens.len()))?;
    }
    Ok(parts)
}

/// Puts tokens behind others, as those of a copying.
pub fn push_copied<'a>(
    out: &mut Vec<Token<'a>>,
    tokens: &[Token<'a>],
    copy: usize,
) -> Result<(), AllocError> {
    for token in tokens.iter() {
        out.push(Token { copy, ..*token })?;
    }
    Ok(())
}

/// Puts a sign or word of its own behind others, at the place of a token.
pub fn push_word<'a>(
    out: &mut Vec<Token<'a>>,
    at: Token<'a>,
    kind: Kind,
    text: &'static str,
) -> Result<(), AllocError> {
    out.push(Token { kind, text, ..at })?;
    Ok(())
}

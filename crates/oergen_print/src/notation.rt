//! A type as ASN.1 writes it, from the tokens of its module.

use crate::text::Text;
use oergen_parse::lexer::{Kind, Token};

/// How many characters a line of a comment has at most.
const WIDTH: usize = 110;

/// Whether a token ends a type that no bracket is open in.
fn ends(token: Token<'_>) -> bool {
    match token.kind {
        Kind::Word | Kind::End => true,
        _ => matches!(
            token.text,
            "," | "}" | "]" | ")" | "]]" | "OPTIONAL" | "DEFAULT" | "END"
        ),
    }
}

/// How many of the tokens, from the first on, belong to the type that begins there.
fn length_of(tokens: &[Token<'_>]) -> usize {
    let mut depth = 0usize;
    for (at, token) in tokens.iter().enumerate() {
        let assigns = match tokens.get(at.saturating_add(1)) {
            Some(next) => next.text == "::=",
            None => false,
        };
        if depth == 0 && (ends(*token) || assigns) {
            return at;
        }
        depth = token.depth_behind(depth);
    }
    tokens.len()
}

/// Whether a blank stands between two tokens.
fn is_apart(before: Token<'_>, next: Token<'_>) -> bool {
    match (before.text, next.text) {
        (_, "," | ")" | "]" | ".." | ".") | ("(" | "[" | ".." | "." | "-", _) => false,
        ("SIZE" | "FROM", "(") => false,
        (_, "(") => before.kind != Kind::Word,
        _ => true,
    }
}

/// Appends a type as its tokens write it, behind what stands in its first line: the lines of a doc comment.
pub fn push_notation(out: &mut Text, tokens: &[Token<'_>], start: usize) {
    let mut column = out.len();
    let own = tokens.get(start..).unwrap_or(&[]);
    let mut before: Option<Token<'_>> = None;
    for token in own.iter().take(length_of(own)) {
        let apart = match before {
            Some(before) => is_apart(before, *token),
            None => false,
        };
        let width = token.text.len().saturating_add(1);
        let is_new_line = apart && column.saturating_add(width) > WIDTH;
        if is_new_line {
            column = 4;
        }
        out.push(blank(apart, is_new_line));
        out.push_plain(token.text);
        column = column.saturating_add(width);
        before = Some(*token);
    }
    out.push("`\n");
}

/// What stands in front of a token: a line of its own, a blank or nothing.
fn blank(apart: bool, is_new_line: bool) -> &'static str {
    if is_new_line {
        "\n/// "
    } else if apart {
        " "
    } else {
        ""
    }
}

//! Cuts a module's text into tokens (X.680, clause 12).

use crate::refusal::{Place, Refusal};
use std::alloc::Global;

/// What sort of token it is.
#[derive(Clone, Copy, PartialEq, Eq)]
pub enum Kind {
    /// A name that begins with a capital letter: a type, a module, or a word of ASN.1's own.
    Name,
    /// A name that begins with a small letter: a component, a value.
    Word,
    /// Digits.
    Number,
    /// `'0101'B`, with its quotes and letter.
    Bits,
    /// `'0AF'H`, with its quotes and letter.
    Hex,
    /// `"text"`, with its quotes.
    Text,
    /// A sign, as `::=`, `{` or `..`.
    Sign,
    /// The end of the file.
    End,
}

/// A token: its text as it stands, the comments in lines of their own directly in front of it, where it is, and the number of the
/// copying that put it where it is read, 0 for none.
#[derive(Clone, Copy)]
pub struct Token<'a> {
    pub kind: Kind,
    pub text: &'a str,
    pub note: &'a str,
    pub place: Place,
    pub copy: usize,
}

impl<'a> Token<'a> {
    /// How many brackets are open behind it, where `depth` are in front of it.
    pub fn depth_behind(self, depth: usize) -> usize {
        match self.text {
            "{" | "[" | "(" | "[[" => depth.saturating_add(1),
            "}" | "]" | ")" | "]]" => depth.saturating_sub(1),
            _ => depth,
        }
    }
}

/// A token by its number among those of all files that were handed in.
#[derive(Clone, Copy)]
pub struct TokenId {
    pub index: usize,
}

/// What is left of a text, and where that begins.
#[derive(Clone, Copy)]
struct Cursor<'a> {
    rest: &'a str,
    place: Place,
}

/// What stands for octets that aren't UTF-8.
const NO_CHARACTER: char = '\u{FFFD}';

/// What may stand in front of a text, to say that it is UTF-8: the byte order mark.
const MARK: char = '\u{FEFF}';

/// Signs of more than one character; the longest first.
static LONG_SIGNS: [&str; 5] = ["::=", "...", "..", "[[", "]]"];

/// Whether a character ends a line (X.680, 12.1.6).
fn ends_line(c: char) -> bool {
    matches!(c, '\n' | '\u{0B}' | '\u{0C}' | '\r')
}

/// The place behind a text that begins at `place`. A carriage return and the line feed behind it end one line.
fn behind(place: Place, text: &str) -> Place {
    let mut line = place.line;
    let mut column = place.column;
    let mut before = ' ';
    for c in text.chars() {
        let is_second = before == '\r' && c == '\n';
        before = c;
        if !ends_line(c) {
            column = column.saturating_add(1);
        } else if !is_second {
            line = line.saturating_add(1);
            column = 1;
        }
    }
    Place {
        file: place.file,
        line,
        column,
    }
}

impl<'a> Cursor<'a> {
    /// Takes `count` octets; all that is left where there are fewer, or where a character would be cut.
    fn take(&mut self, count: usize) -> &'a str {
        let whole = self.rest;
        let (taken, rest) = match whole.split_at_checked(count) {
            Some((taken, rest)) => (taken, rest),
            None => (whole, ""),
        };
        self.place = behind(self.place, taken);
        self.rest = rest;
        taken
    }
}

/// The octets of a comment `--`, which ends with its line or with the next `--` (X.680, 12.6.3).
fn line_comment(rest: &str) -> usize {
    let inner = match rest.strip_prefix("--") {
        Some(inner) => inner,
        None => return 0,
    };
    let line = inner.find(|c: char| ends_line(c)).unwrap_or(inner.len());
    match inner.find("--") {
        Some(end) if end < line => end.saturating_add(4),
        _ => line.saturating_add(2),
    }
}

/// The octets of a comment between `/*` and `*/`, which nests (X.680, 12.6.4); nothing where it doesn't end.
fn block_comment(rest: &str) -> Option<usize> {
    let mut depth = 0usize;
    let mut before = b' ';
    for (at, octet) in rest.bytes().enumerate() {
        let opens = before == b'/' && octet == b'*';
        let closes = before == b'*' && octet == b'/';
        before = octet;
        if opens {
            depth = depth.saturating_add(1);
            before = b' ';
        }
        if closes {
            depth = depth.saturating_sub(1);
            before = b' ';
            if depth == 0 {
                return Some(at.saturating_add(1));
            }
        }
    }
    None
}

/// The octets of a name or number at the front: letters, digits and single hyphens, the last no hyphen (X.680, 12.2 and 12.3).
fn word_length(rest: &str) -> usize {
    let end = rest
        .find(|c: char| !(c.is_ascii_alphanumeric() || c == '-'))
        .unwrap_or(rest.len());
    let run = rest.get(..end).unwrap_or("");
    let front = match run.split_once("--") {
        Some((front, _)) => front,
        None => run,
    };
    front.trim_end_matches('-').len()
}

/// The octets of white space, or of a comment, at the front; nothing where a comment doesn't end.
fn blank_length(rest: &str) -> Option<usize> {
    if rest.starts_with("--") {
        Some(line_comment(rest))
    } else if rest.starts_with("/*") {
        block_comment(rest)
    } else {
        Some(rest.len().saturating_sub(rest.trim_start().len()))
    }
}

/// The octets of a text between quotes, in which two quotes stand for one (X.680, 12.14); nothing where it doesn't end.
fn text_length(rest: &str) -> Option<usize> {
    let mut quotes = 0usize;
    let mut end = 0usize;
    for (at, octet) in rest.bytes().enumerate() {
        if octet == b'"' {
            quotes = quotes.wrapping_add(1);
            end = at;
        } else if at == end.saturating_add(1) && quotes % 2 == 0 {
            break;
        }
    }
    if quotes % 2 == 0 {
        Some(end.saturating_add(1))
    } else {
        None
    }
}

/// Whether a text has only binary digits and white space.
fn is_binary(text: &str) -> bool {
    text.chars()
        .all(|c| c == '0' || c == '1' || c.is_whitespace())
}

/// Whether a text has only hexadecimal digits and white space.
fn is_hexadecimal(text: &str) -> bool {
    text.chars()
        .all(|c| c.is_ascii_hexdigit() || c.is_whitespace())
}

/// The octets of `'..'B` or `'..'H` (X.680, 12.10 and 12.12); nothing where it doesn't end so, or has other digits.
fn digits_length(rest: &str) -> Option<(Kind, usize)> {
    let (_, inner) = rest.split_once('\'')?;
    let (digits, after) = inner.split_once('\'')?;
    let length = digits.len().saturating_add(3);
    if after.starts_with('B') && is_binary(digits) {
        Some((Kind::Bits, length))
    } else if after.starts_with('H') && is_hexadecimal(digits) {
        Some((Kind::Hex, length))
    } else {
        None
    }
}

/// The octets of a sign at the front; nothing where none begins there.
fn sign_length(rest: &str, first: char) -> Option<usize> {
    for sign in LONG_SIGNS {
        if rest.starts_with(sign) {
            return Some(sign.len());
        }
    }
    if first.is_ascii_punctuation() && first != '"' {
        Some(1)
    } else {
        None
    }
}

/// The kind and the octets of the token at the front; nothing where none begins there.
fn token_length(rest: &str) -> Option<(Kind, usize)> {
    let first = rest.chars().next()?;
    match first {
        'A'..='Z' => Some((Kind::Name, word_length(rest))),
        'a'..='z' => Some((Kind::Word, word_length(rest))),
        '0'..='9' => {
            let digits = rest.find(|c: char| !c.is_ascii_digit());
            Some((Kind::Number, digits.unwrap_or(rest.len())))
        }
        '"' => Some((Kind::Text, text_length(rest)?)),
        '\'' => digits_length(rest),
        _ => Some((Kind::Sign, sign_length(rest, first)?)),
    }
}

/// Whether a note begins behind what was passed over, in which so many lines end: behind an empty line, and behind the end of a line where
/// there is none so far.
fn begins_note(blank: &str, ends: u32, is_first: bool) -> bool {
    blank.trim().is_empty() && (ends > 1 || ends == 1 && is_first)
}

impl<'a> Cursor<'a> {
    /// Passes over white space and comments, and answers those that a token's note has; nothing where a comment doesn't end.
    fn skip_blank(&mut self) -> Option<&'a str> {
        let is_first = self.place.line == 1 && self.place.column == 1;
        let mut note = if is_first { self.rest } else { "" };
        for _ in 0..self.rest.len() {
            let length = blank_length(self.rest)?;
            if length == 0 {
                break;
            }
            let line = self.place.line;
            let blank = self.take(length);
            let ends = self.place.line.saturating_sub(line);
            if begins_note(blank, ends, note.is_empty()) {
                note = self.rest;
            }
        }
        note.get(..note.len().saturating_sub(self.rest.len()))
    }

    /// The token at the front, behind that note.
    fn token(&mut self, alloc: Global, note: &'a str) -> Result<Token<'a>, Refusal> {
        let place = self.place;
        let Some((kind, length)) = token_length(self.rest) else {
            return Err(Refusal::new(
                alloc,
                place,
                "a character that begins no token",
                "names, numbers, signs, and strings that end and have their digits",
            ));
        };
        let text = self.take(length);
        if text.contains(NO_CHARACTER) {
            return Err(Refusal::new(
                alloc,
                place,
                "a string with octets that aren't UTF-8",
                "UTF-8: other octets only in comments",
            ));
        }
        Ok(Token {
            kind,
            text,
            note,
            place,
            copy: 0,
        })
    }
}

/// The tokens of a file's text, past a byte order mark, and `End` behind them. In the text U+FFFD stands for octets that aren't UTF-8.
/// Refused where a comment or a string doesn't end, where a string has such octets, or a character begins no token.
pub fn tokens(alloc: Global, file: usize, text: &str) -> Result<Vec<Token<'_>>, Refusal> {
    let mut cursor = Cursor {
        rest: text.strip_prefix(MARK).unwrap_or(text),
        place: Place {
            file,
            line: 1,
            column: 1,
        },
    };
    let mut tokens = Vec::new(alloc);
    for _ in 0..text.len() {
        let Some(note) = cursor.skip_blank() else {
            return Err(Refusal::new(
                alloc,
                cursor.place,
                "a comment that doesn't end",
                "its '*/'",
            ));
        };
        if cursor.rest.is_empty() {
            break;
        }
        tokens.push(cursor.token(alloc, note)?)?;
    }
    tokens.push(Token {
        kind: Kind::End,
        text: "",
        note: "",
        place: cursor.place,
        copy: 0,
    })?;
    Ok(tokens)
}

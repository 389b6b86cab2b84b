//! The comments in front of a type or a component, as documentation.

use crate::text::{Text, is_plain};

/// Signs of which a line is drawn.
const FENCE: &str = "-*/=#~_ ";

/// What is blank around words: white space, and what no comment of the language may have.
fn is_blank(c: char) -> bool {
    c.is_whitespace() || !is_plain(c)
}

/// What a line of a comment says, without the signs of the comment: nothing of a line that is drawn.
fn words_of(line: &str) -> &str {
    let line = line.trim_matches(|c: char| is_blank(c));
    let opened = line.strip_prefix("/**").or(line.strip_prefix("/*"));
    let behind = line
        .strip_prefix("--")
        .or(opened)
        .or(line.strip_prefix('*'));
    let words = behind.unwrap_or(line);
    let front = words.strip_suffix("--").or(words.strip_suffix("*/"));
    let words = front.unwrap_or(words).trim_matches(|c: char| is_blank(c));
    if words.chars().all(|c| FENCE.contains(c)) {
        ""
    } else {
        words
    }
}

/// Appends the lines of a note as a doc comment, each behind an indent; between others one line for those that say nothing.
pub fn push_note(out: &mut Text, note: &str, indent: &str) {
    let mut between: [&str; 2] = ["", ""];
    let mut is_begun = false;
    for line in note.lines() {
        let words = words_of(line);
        if words.is_empty() {
            between = if is_begun {
                [indent, "///\n"]
            } else {
                ["", ""]
            };
        } else {
            out.push_all(&between);
            out.push_all(&[indent, "/// "]);
            out.push_plain(words);
            out.push("\n");
            between = ["", ""];
            is_begun = true;
        }
    }
}

/// Appends a note and a line that says nothing, in front of what else is said; to a text that is empty.
pub fn push_noted(out: &mut Text, note: &str) {
    push_note(out, note, "");
    out.push(if out.is_empty() { "" } else { "///\n" });
}

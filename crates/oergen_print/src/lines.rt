//! Lines that are longer than the language lays them out: broken as its formatter breaks them, or marked for it to leave alone.

use crate::text::Text;
use crate::uses::ends_word;
use std::alloc::{AllocError, Global};

/// How many characters a line has at most.
const WIDTH: usize = 100;

/// How often lines are broken: the arguments of a type within the lines of those around it.
const PASSES: usize = 8;

/// What is written before an item whose lines the formatter is to leave alone.
const MARK: &str = "#[rattlefmt::skip]\n";

/// Whether the formatter leaves a line alone, however long it is: a comment, a definition, a clause, or a macro's words.
fn is_free(line: &str) -> bool {
    let text = line.trim_start();
    text.starts_with("//")
        || text.starts_with("ghost ")
        || text.starts_with("ensures ")
        || text.starts_with("tags!")
        || text.starts_with("from_row!")
        || text.starts_with("from_parts!")
}

/// Whether a line is too long.
fn is_long(line: &str) -> bool {
    line.len() > WIDTH && !is_free(line)
}

/// Whether a text has a line that is too long.
fn has_long(text: &str) -> bool {
    text.lines().any(|line| is_long(line))
}

/// How many blanks a line begins with.
fn indent_of(line: &str) -> usize {
    line.len().saturating_sub(line.trim_start().len())
}

/// Whether the arguments of a type close no more brackets than they open.
fn are_arguments(arguments: &str) -> bool {
    let mut depth = 1usize;
    for c in arguments.chars() {
        match c {
            '<' => depth = depth.saturating_add(1),
            '>' => depth = depth.saturating_sub(1),
            _ => {}
        }
        if depth == 0 {
            return false;
        }
    }
    depth == 1
}

/// A type with arguments that ends a line: what stands in front of them, the arguments, and the sign behind.
fn generic_of(line: &str) -> Option<(&str, &str, &'static str)> {
    let (front, rest) = line.split_once('<')?;
    let (arguments, end) = match rest.strip_suffix(">;") {
        Some(arguments) => (arguments, ";"),
        None => (rest.strip_suffix(">,")?, ","),
    };
    if are_arguments(arguments) && front.len() < WIDTH && !front.ends_with(' ') {
        Some((front, arguments, end))
    } else {
        None
    }
}

/// Appends the arguments of a type, a line each.
fn push_arguments(out: &mut Text, arguments: &str, indent: usize) {
    let mut depth = 0usize;
    let mut is_begun = false;
    for c in arguments.chars() {
        match c {
            '<' => depth = depth.saturating_add(1),
            '>' => depth = depth.saturating_sub(1),
            _ => {}
        }
        if c == ',' && depth == 0 {
            out.push(",\n");
            is_begun = false;
        } else if is_begun {
            out.push_char(c);
        } else if c != ' ' {
            out.push_times(" ", indent);
            out.push_char(c);
            is_begun = true;
        }
    }
    out.push(",\n");
}

/// A variant, or a struct of one field: its head, what it holds, and the sign behind.
fn holder_of(line: &str) -> Option<(&str, &str, &'static str)> {
    let (front, rest) = line.split_once('(')?;
    let (held, end) = match rest.strip_suffix(");") {
        Some(held) => (held, ";"),
        None => (rest.strip_suffix("),")?, ","),
    };
    let name = front.trim_start();
    let is_head = name.starts_with("pub struct ") || !name.contains(|c: char| ends_word(c));
    if is_head {
        Some((front, held, end))
    } else {
        None
    }
}

/// A call that writes an alternative: what stands in front of its arguments, these, and the sign behind.
fn call_of(line: &str) -> Option<(&str, &str, &'static str)> {
    let at = line.find("(encoder, ")?;
    let (front, rest) = line.split_at_checked(at)?;
    let arguments = rest.strip_prefix("(")?.strip_suffix("),")?;
    Some((front, arguments, ","))
}

/// Whether what stands behind a `=` goes to a line of its own.
fn goes_below(value: &str) -> bool {
    value.starts_with("tags!")
        || value.starts_with('<') && !value.contains("<K>")
        || !value.contains(|c: char| c == '<' || c == '(')
}

/// A line in two: the second one is indented.
fn halves_of(line: &str) -> Option<(&str, &str, &'static str)> {
    if let Some((front, value)) = line.split_once(" = ") {
        if goes_below(value) {
            return Some((front, value, " ="));
        }
    }
    if !line.starts_with("impl") {
        return None;
    }
    let at = line.rfind(" for ")?;
    let (front, rest) = line.split_at_checked(at)?;
    Some((front, rest.trim_start(), ""))
}

/// Appends what is broken at brackets: what stands in front, the opening one, what is inside, already in lines, the closing one, and the
/// sign behind.
fn push_broken(out: &mut Text, front: &str, brackets: (&str, &str), inside: &Text, end: &str) {
    out.push(front);
    out.push(brackets.0);
    out.push("\n");
    out.push_text(inside);
    out.push_times(" ", indent_of(front));
    out.push(brackets.1);
    out.push(end);
    out.push("\n");
}

/// Appends a line that is too long, broken once where it can be.
fn push_long(out: &mut Text, line: &str) {
    let indent = indent_of(line).saturating_add(4);
    let mut inside = Text::new(out.alloc());
    if let Some((front, arguments, end)) = generic_of(line) {
        push_arguments(&mut inside, arguments, indent);
        push_broken(out, front, ("<", ">"), &inside, end);
    } else if let Some((front, held, end)) = holder_of(line) {
        inside.push_times(" ", indent);
        inside.push(held);
        inside.push(",\n");
        push_broken(out, front, ("(", ")"), &inside, end);
    } else if let Some((front, arguments, end)) = call_of(line) {
        push_arguments(&mut inside, arguments, indent);
        push_broken(out, front, ("(", ")"), &inside, end);
    } else if let Some((front, rest, end)) = halves_of(line) {
        out.push(front);
        out.push(end);
        out.push("\n");
        out.push_times(" ", indent);
        out.push(rest);
        out.push("\n");
    } else {
        out.push(line);
        out.push("\n");
    }
}

/// Appends a line, broken once where it is too long.
fn push_line(out: &mut Text, line: &str) {
    if is_long(line) {
        push_long(out, line);
    } else {
        out.push(line);
        out.push("\n");
    }
}

/// Whether a part of a text, in front of which a line is empty, begins an item.
fn begins_item(part: &str) -> bool {
    !part.starts_with(' ') && !part.starts_with('}')
}

/// Appends an item, marked where it has a line that is too long.
fn push_item(out: &mut Text, item: &Text) {
    if item.is_empty() {
        return;
    }
    out.push(if has_long(item.as_str()) { MARK } else { "" });
    out.push_text(item);
    out.push("\n\n");
}

/// A text whose items are marked where they have lines that are too long.
fn marked(alloc: Global, text: &str) -> Text {
    let mut out = Text::new(alloc);
    let mut item = Text::new(alloc);
    for part in text.trim_end().split("\n\n") {
        if begins_item(part) {
            push_item(&mut out, &item);
            item = Text::new(alloc);
        } else {
            item.push("\n\n");
        }
        item.push(part);
    }
    push_item(&mut out, &item);
    out
}

/// The lines of a text, each too long one broken once.
fn broken(alloc: Global, text: &str) -> Text {
    let mut out = Text::new(alloc);
    for line in text.lines() {
        push_line(&mut out, line);
    }
    out
}

/// Items with an empty line behind each, in the layout that the formatter leaves as it is.
pub fn laid_out(alloc: Global, text: &Text) -> Result<String, AllocError> {
    let mut done = Text::new(alloc);
    done.push_text(text);
    for _ in 0..PASSES {
        if !has_long(done.as_str()) {
            return done.end();
        }
        let mut next = broken(alloc, done.as_str());
        next.heed(&done);
        done = next;
    }
    let mut out = marked(alloc, done.as_str());
    out.heed(&done);
    out.end()
}

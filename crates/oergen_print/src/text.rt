//! Text by pieces, and by templates.

use oergen_layouts::names::{component_name, push_type_name};
use std::alloc::{AllocError, Global};

/// Whether a comment of the language may have a character: it may not have tabs and other controls, ends of lines, and signs that turn
/// the direction of a text.
pub fn is_plain(c: char) -> bool {
    !(c.is_control() || matches!(c, '\u{2028}'..='\u{202E}' | '\u{2066}'..='\u{2069}'))
}

/// A text that is put together. Where memory is refused for a piece, it says so once, at its end: so a function that only appends has no
/// early exits, of which each costs a check about what a call does, and all that is held there besides.
#[derive(Drop)]
pub struct Text {
    alloc: Global,
    text: String,
    is_whole: bool,
}

impl Text {
    /// None yet.
    pub fn new(alloc: Global) -> Text {
        Text {
            alloc,
            text: String::new(alloc),
            is_whole: true,
        }
    }

    /// Pieces, one behind another.
    pub fn of(alloc: Global, pieces: &[&str]) -> Text {
        let mut text = Text::new(alloc);
        text.push_all(pieces);
        text
    }

    /// Where its memory comes from.
    pub fn alloc(&self) -> Global {
        self.alloc
    }

    /// Appends a piece.
    pub fn push(&mut self, piece: &str) {
        if self.text.push_str(piece).is_err() {
            self.is_whole = false;
        }
    }

    /// Appends pieces, one behind another.
    pub fn push_all(&mut self, pieces: &[&str]) {
        for piece in pieces.iter() {
            self.push(*piece);
        }
    }

    /// Appends a character.
    pub fn push_char(&mut self, c: char) {
        if self.text.push(c).is_err() {
            self.is_whole = false;
        }
    }

    /// Appends another text, which may lack a piece.
    pub fn push_text(&mut self, other: &Text) {
        self.push(other.as_str());
        self.is_whole = self.is_whole && other.is_whole;
    }

    /// Appends nothing of another text, but lacks a piece where that does: so that its length may be trusted.
    pub fn heed(&mut self, other: &Text) {
        self.is_whole = self.is_whole && other.is_whole;
    }

    /// Appends a piece, as many times as stated.
    pub fn push_times(&mut self, piece: &str, times: usize) {
        for _ in 0..times {
            self.push(piece);
        }
    }

    /// Appends a number in digits.
    pub fn push_number(&mut self, number: i128) {
        match format!(in self.alloc; "{number}") {
            Ok(digits) => self.push(digits.as_str()),
            Err(_) => self.is_whole = false,
        }
    }

    /// Appends a count in digits.
    pub fn push_count(&mut self, count: usize) {
        self.push_number(i128::try_from(count).unwrap_or(i128::MAX));
    }

    /// Appends an octet in two hexadecimal digits.
    pub fn push_octet(&mut self, octet: u8) {
        match format!(in self.alloc; "{octet:02X}") {
            Ok(digits) => self.push(digits.as_str()),
            Err(_) => self.is_whole = false,
        }
    }

    /// Appends a name as a type's.
    pub fn push_type_name(&mut self, name: &str) {
        if push_type_name(&mut self.text, name).is_err() {
            self.is_whole = false;
        }
    }

    /// Appends a name as a component's.
    pub fn push_component_name(&mut self, name: &str) {
        match component_name(self.alloc, name) {
            Ok(name) => self.push(name.as_str()),
            Err(_) => self.is_whole = false,
        }
    }

    /// Appends a name in capitals.
    pub fn push_upper(&mut self, name: &str) {
        for c in name.chars() {
            self.push_char(c.to_ascii_uppercase());
        }
    }

    /// Appends a name in small letters.
    pub fn push_lower(&mut self, name: &str) {
        for c in name.chars() {
            self.push_char(c.to_ascii_lowercase());
        }
    }

    /// Appends a text of a module to a comment: a blank in the place of each character that no comment may have.
    pub fn push_plain(&mut self, text: &str) {
        for c in text.chars() {
            self.push_char(if is_plain(c) { c } else { ' ' });
        }
    }

    /// Appends a text with another in the place of each mark.
    pub fn push_replaced(&mut self, text: &str, mark: &str, with: &str) {
        for (at, piece) in text.split(mark).enumerate() {
            if at != 0 {
                self.push(with);
            }
            self.push(piece);
        }
    }

    /// Appends a template with its words put in: between two `@` stands a word's name.
    pub fn fill(&mut self, template: &str, words: &Words) {
        let mut is_word = false;
        for piece in template.split('@') {
            self.push(if is_word { words.text_of(piece) } else { piece });
            is_word = !is_word;
        }
        self.is_whole = self.is_whole && words.text.is_whole;
    }

    /// Whether memory was refused for no piece.
    pub fn is_whole(&self) -> bool {
        self.is_whole
    }

    /// What there is so far: the whole text only where it is whole.
    pub fn as_str(&self) -> &str {
        self.text.as_str()
    }

    /// How many octets there are so far.
    pub fn len(&self) -> usize {
        self.text.len()
    }

    /// Whether there are none so far.
    pub fn is_empty(&self) -> bool {
        self.text.is_empty()
    }

    /// The text; refused where memory was refused for a piece.
    pub fn end(self) -> Result<String, AllocError> {
        let Text { text, is_whole, .. } = self;
        if is_whole { Ok(text) } else { Err(AllocError) }
    }
}

/// What stands for the words of a template, one behind another: each word, and where its text begins.
#[derive(Drop)]
pub struct Words {
    text: Text,
    starts: Vec<(&'static str, usize)>,
}

impl Words {
    /// None yet.
    pub fn new(alloc: Global) -> Words {
        Words {
            text: Text::new(alloc),
            starts: Vec::new(alloc),
        }
    }

    /// Begins what stands for a word: all that is appended before the next one.
    pub fn begin(&mut self, word: &'static str) -> &mut Text {
        let start = self.text.len();
        if self.starts.push((word, start)).is_err() {
            self.text.is_whole = false;
        }
        &mut self.text
    }

    /// Says what stands for a word.
    pub fn put(&mut self, word: &'static str, text: &str) {
        self.begin(word).push(text);
    }

    /// Says what stands for words: templates with the words before put in, in turn. By a constant, a function has few steps to check.
    pub fn fill_all(&mut self, all: &[(&'static str, &'static str)]) {
        for (word, template) in all.iter() {
            self.put_filled(*word, *template);
        }
    }

    /// A template with the words put in.
    pub fn filled(&self, template: &str) -> Text {
        let mut text = Text::new(self.text.alloc);
        text.fill(template, self);
        text
    }

    /// Says what stands for a word: a template with the words before put in.
    pub fn put_filled(&mut self, word: &'static str, template: &str) {
        let text = self.filled(template);
        self.begin(word).push_text(&text);
    }

    /// Where its memory comes from.
    pub fn alloc(&self) -> Global {
        self.text.alloc
    }

    /// What stands for a word; nothing where there is none.
    pub fn text_of(&self, name: &str) -> &str {
        let mut end = self.text.len();
        for (word, start) in self.starts.iter().rev() {
            if *word == name {
                return self.text.as_str().get(*start..end).unwrap_or("");
            }
            end = *start;
        }
        ""
    }
}

//! What is shown of a message: a tree, or JSON.

use crate::values::{hex_of, leaf_of, push_quoted};
use anyhow::{Error, Result};
use oer_json::Tables;
use oer_walk::{Kind, Node, Walked, walk};
use std::alloc::Global;

/// The most nodes that are shown of a message.
const MOST_NODES: usize = 1_048_576;
/// Nodes that there is room for at first.
const FIRST_NODES: usize = 256;
/// How many sequences, sets, lists and choices may be nested.
const LEVELS: u32 = 1024;
/// No line of a tree is further to the right than a part so deep.
const MOST_INDENT: u32 = 60;
/// The type of a group of extension additions, which is no part of its own in JSON (X.697).
const GROUP: &str = "group";

const BLANK: Node = Node {
    name: 0,
    type_number: 0,
    kind: 0,
    level: 0,
    around: 0,
    start: 0,
    content: 0,
    end: 0,
};

/// How a tree's line is coloured: where a part lies, its name, its type, its value, and a refusal.
#[derive(Clone, Copy)]
pub struct Colours {
    pub place: &'static str,
    pub name: &'static str,
    pub type_name: &'static str,
    pub value: &'static str,
    pub refused: &'static str,
    pub end: &'static str,
}

/// No colours.
pub const PLAIN: Colours = Colours {
    place: "",
    name: "",
    type_name: "",
    value: "",
    refused: "",
    end: "",
};

/// Those of a terminal.
pub const TERMINAL: Colours = Colours {
    place: "\u{1b}[2m",
    name: "\u{1b}[1m",
    type_name: "\u{1b}[36m",
    value: "\u{1b}[32m",
    refused: "\u{1b}[1;31m",
    end: "\u{1b}[0m",
};

/// A part as a page shows it.
#[derive(Drop)]
pub struct Part {
    pub name: String,
    pub type_name: String,
    pub level: u32,
    pub start: usize,
    pub content: usize,
    /// Its end, or `null`.
    pub end: String,
    pub value: String,
}

/// A message, its nodes, and what the walk came to.
#[derive(Drop)]
pub struct Message<'m> {
    alloc: Global,
    tables: &'m Tables,
    type_number: u32,
    octets: &'m [u8],
    nodes: Vec<Node>,
    walked: Walked,
}

/// Whether a part has parts.
fn is_scope(node: Node) -> bool {
    Kind::of(node.kind).is_some_and(|kind| kind.has_parts())
}

/// Whether octets are all of one value of the type with that number.
pub fn is_whole(tables: &Tables, type_number: u32, octets: &[u8]) -> bool {
    let walked = walk(
        tables.words.as_slice(),
        type_number,
        LEVELS,
        octets,
        &mut [],
    );
    walked.refusal.is_none() && walked.consumed == octets.len()
}

/// Walks a message of the type with that number.
pub fn read_message<'m>(
    alloc: Global,
    tables: &'m Tables,
    type_number: u32,
    octets: &'m [u8],
) -> Result<Message<'m>> {
    let words = tables.words.as_slice();
    let mut nodes = Vec::from_elem(alloc, BLANK, FIRST_NODES)?;
    let mut walked = walk(words, type_number, LEVELS, octets, nodes.as_mut_slice());
    if walked.nodes > MOST_NODES {
        return Err(Error::msg("TooManyParts: a message has more than 1,048,576 parts"));
    }
    if walked.nodes > FIRST_NODES {
        nodes = Vec::from_elem(alloc, BLANK, walked.nodes)?;
        walked = walk(words, type_number, LEVELS, octets, nodes.as_mut_slice());
    }
    nodes.truncate(walked.shown);
    Ok(Message {
        alloc,
        tables,
        type_number,
        octets,
        nodes,
        walked,
    })
}

impl<'m> Message<'m> {
    /// The name of a part: its component's, its alternative's, `[]` of an element, `?` of an addition that the table doesn't
    /// have.
    fn name_of(&self, node: Node) -> &str {
        match self.tables.name(node.name) {
            Some(name) => name,
            None if node.level == 0 => "value",
            None if node.type_number == u32::MAX => "?",
            None => "[]",
        }
    }

    /// The place of the last node without an end: the part that the walk stopped in.
    fn innermost(&self) -> usize {
        let mut innermost = 0;
        for (at, node) in self.nodes.iter().enumerate() {
            if node.end == usize::MAX {
                innermost = at;
            }
        }
        innermost
    }

    /// The places of the part that the walk stopped in and of those around it, the innermost first, without the value's own.
    fn places(&self) -> Result<Vec<usize>> {
        let mut places = Vec::new(self.alloc);
        let mut at = self.innermost();
        for _ in 0..self.nodes.len() {
            match self.nodes.get(at) {
                Some(node) if node.level > 0 => {
                    places.push(at)?;
                    at = node.around;
                }
                _ => break,
            }
        }
        Ok(places)
    }

    /// The names of the part that the walk stopped in and of those around it, as `content.signedData`.
    fn path(&self) -> Result<String> {
        let mut path = String::new(self.alloc);
        for at in self.places()?.iter().rev() {
            if let Some(node) = self.nodes.get(*at) {
                if !path.is_empty() {
                    path.push('.')?;
                }
                path.push_str(self.name_of(*node))?;
            }
        }
        if path.is_empty() {
            path.push_str("value")?;
        }
        Ok(path)
    }

    /// The octets of a part's content.
    fn content(&self, node: Node) -> &[u8] {
        match self.octets.get(node.content..node.end) {
            Some(octets) => octets,
            None => &[],
        }
    }

    /// The value of a part, as a tree shows it; nothing of one that has parts or isn't whole.
    fn value_of(&self, node: Node) -> Result<String> {
        let mut text = String::new(self.alloc);
        if !is_scope(node) && node.end != usize::MAX {
            leaf_of(self.alloc, self.tables, node, self.content(node))?.push_text(
                self.alloc, &mut text,
            )?;
        }
        Ok(text)
    }

    /// The line of a part: where it begins, of how many octets it is, its name, its type, and its value if it has no parts.
    fn line(&self, node: Node, colours: Colours) -> Result<String> {
        let start = node.start;
        let mut line = String::from_str(self.alloc, colours.place)?;
        let place = match node.end {
            usize::MAX => format!(in self.alloc; "{start:6}      ? ")?,
            end => {
                let count = end.saturating_sub(start);
                format!(in self.alloc; "{start:6} {count:6} ")?
            }
        };
        line.push_str(place.as_str())?;
        line.push_str(colours.end)?;
        for _ in 0..node.level.min(MOST_INDENT) {
            line.push_str("  ")?;
        }
        self.push_painted(&mut line, colours.name, colours.end, self.name_of(node))?;
        line.push_str(": ")?;
        let type_name = self.tables.type_name(node.type_number);
        self.push_painted(&mut line, colours.type_name, colours.end, type_name)?;
        let value = self.value_of(node)?;
        if !value.is_empty() {
            line.push(' ')?;
            self.push_painted(&mut line, colours.value, colours.end, value.as_str())?;
        }
        Ok(line)
    }

    fn push_painted(&self, line: &mut String, colour: &str, end: &str, text: &str) -> Result<()> {
        line.push_str(colour)?;
        line.push_str(text)?;
        Ok(line.push_str(end)?)
    }

    /// How it ended: of how many octets the value is, or where and why the message is refused.
    pub fn end(&self) -> Result<String> {
        let consumed = self.walked.consumed;
        match &self.walked.refusal {
            None => {
                let count = self.octets.len();
                Ok(format!(in self.alloc; "{consumed} of {count} octets")?)
            }
            Some(kind) => {
                let path = self.path()?;
                let path = path.as_str();
                let name = kind.name();
                Ok(format!(in self.alloc;
                    "refused at octet {consumed}, in {path}: {name}: {kind}"
                )?)
            }
        }
    }

    /// The tree: a line for each part, and one that says how it ended.
    pub fn tree(&self, colours: Colours) -> Result<String> {
        let mut tree = String::new(self.alloc);
        for node in self.nodes.iter() {
            tree.push_str(self.line(*node, colours)?.as_str())?;
            tree.push('\n')?;
        }
        let end = self.end()?;
        if self.walked.refusal.is_some() {
            self.push_painted(&mut tree, colours.refused, colours.end, end.as_str())?;
        } else {
            tree.push_str(end.as_str())?;
        }
        tree.push('\n')?;
        Ok(tree)
    }

    /// The name of its type.
    pub fn type_name(&self) -> &str {
        self.tables.type_name(self.type_number)
    }

    /// Its octets in hexadecimal.
    pub fn digits(&self) -> Result<String> {
        hex_of(self.alloc, self.octets)
    }

    /// The octet at which it is refused, or `null`.
    pub fn refused_at(&self) -> Result<String> {
        let consumed = self.walked.consumed;
        match &self.walked.refusal {
            Some(_) => Ok(format!(in self.alloc; "{consumed}")?),
            None => Ok(String::from_str(self.alloc, "null")?),
        }
    }

    /// How many parts it has.
    pub fn count(&self) -> usize {
        self.nodes.len()
    }

    /// The part with that number; one without a name past the last.
    pub fn part(&self, at: usize) -> Result<Part> {
        let node = self.nodes.get(at).copied().unwrap_or(BLANK);
        let end = node.end;
        Ok(Part {
            name: String::from_str(self.alloc, self.name_of(node))?,
            type_name: String::from_str(self.alloc, self.tables.type_name(node.type_number))?,
            level: node.level,
            start: node.start,
            content: node.content,
            end: match end {
                usize::MAX => String::from_str(self.alloc, "null")?,
                _ => format!(in self.alloc; "{end}")?,
            },
            value: self.value_of(node)?,
        })
    }

    /// Whether a part is a group of extension additions.
    fn is_group(&self, node: Node) -> bool {
        is_scope(node) && self.tables.type_name(node.type_number) == GROUP
    }

    /// Puts a comma behind what stands in front of a part, and the part's name inside a sequence or a choice.
    fn push_name(&self, out: &mut String, node: Node, around: Option<char>) -> Result<()> {
        if !(out.is_empty() || out.as_str().ends_with("{") || out.as_str().ends_with("[")) {
            out.push(',')?;
        }
        if around == Some('}') || around == Some(' ') {
            push_quoted(self.alloc, &mut *out, self.name_of(node))?;
            out.push(':')?;
        }
        Ok(())
    }

    /// The value as JSON.
    fn value(&self) -> Result<String> {
        let mut out = String::new(self.alloc);
        let mut ends: Vec<char> = Vec::new(self.alloc);
        for node in self.nodes.iter() {
            push_ends(&mut out, &mut ends, node.level as usize)?;
            if self.is_group(*node) {
                ends.push(' ')?;
            } else {
                self.push_name(&mut out, *node, ends.last().copied())?;
                self.push_value(&mut out, &mut ends, *node)?;
            }
        }
        push_ends(&mut out, &mut ends, 0)?;
        Ok(out)
    }

    /// What a part begins with, or all of it if it has no parts.
    fn push_value(&self, out: &mut String, ends: &mut Vec<char>, node: Node) -> Result<()> {
        if !is_scope(node) {
            return leaf_of(self.alloc, self.tables, node, self.content(node))?.push_json(
                self.alloc, &mut *out,
            );
        }
        let is_list = Kind::of(node.kind) == Some(Kind::List);
        out.push(if is_list { '[' } else { '{' })?;
        Ok(ends.push(if is_list { ']' } else { '}' })?)
    }

    /// One line of JSON: the value and of how many octets it is, or where and why the message is refused.
    pub fn json(&self) -> Result<String> {
        let consumed = self.walked.consumed;
        match &self.walked.refusal {
            None => {
                let value = self.value()?;
                let value = value.as_str();
                Ok(format!(in self.alloc; "{{\"octets\":{consumed},\"value\":{value}}}\n")?)
            }
            Some(kind) => {
                let name = kind.name();
                let mut path = String::new(self.alloc);
                push_quoted(self.alloc, &mut path, self.path()?.as_str())?;
                let path = path.as_str();
                Ok(format!(in self.alloc;
                    "{{\"refused\":\"{name}\",\"octet\":{consumed},\"path\":{path}}}\n"
                )?)
            }
        }
    }
}

/// Puts the ends of the scopes that are past a level.
fn push_ends(out: &mut String, ends: &mut Vec<char>, level: usize) -> Result<()> {
    for _ in level..ends.len() {
        match ends.pop() {
            Some(end) if end != ' ' => out.push(end)?,
            _ => (),
        }
    }
    Ok(())
}

//! Tables of types with their names, as `oergen --table` writes them.
ghost use Rattle.std.specs.Prelude.{◌≡◌};
ghost use Rattle.oer_json.specs.Characters.{string_kind_of};
ghost use Rattle.oer_json.specs.Readings.{allows, described, word_of, bounds_of};
ghost use Rattle.oer_walk.specs.Kinds.{kind_numbered};
ghost use Rattle.oer_walk.specs.Tables.{kind_of};

use crate::json::Json;
use oer_walk::{Kind, StringKind, kind_in};
use std::alloc::{AllocError, AllocFailed, Global};
use thiserror::Error;

/// Why lines are no table.
#[derive(Debug, Clone, Copy, PartialEq, Eq, Error)]
pub enum TableError {
    /// A line that begins with none of the words that lines begin with.
    #[error("NoLine: a line of the table is none")]
    NoLine,
    /// A word of the table that is no number below 2^32.
    #[error("NoWord: a word of the table is no number")]
    NoWord,
    /// A line that has too few words.
    #[error("NoParts: a line of the table lacks a part")]
    NoParts,
    /// A number of such a line that is none.
    #[error("NoNumber: a line of the table lacks its number")]
    NoNumber,
    /// A default that is no JSON.
    #[error("NoDefault: a default of the table is no JSON")]
    NoDefault,
    /// Memory was refused.
    #[error("OutOfMemory: out of memory")]
    OutOfMemory,
}

impl From<AllocError> for TableError {
    fn from(_e: AllocError) -> TableError {
        TableError::OutOfMemory
    }
}

impl<T: Drop> From<AllocFailed<T>> for TableError {
    fn from(_e: AllocFailed<T>) -> TableError {
        TableError::OutOfMemory
    }
}

/// A name of a number of a type.
#[derive(Debug, Drop)]
pub struct ValueName {
    pub type_number: u32,
    pub number: i128,
    pub name: String,
}

/// The least and the greatest number or size of a type, where it has them.
#[derive(Debug, Clone, Copy, PartialEq, Eq)]
pub struct Bounds {
    pub type_number: u32,
    pub low: Option<i128>,
    pub high: Option<i128>,
}

impl Bounds {
    /// Those of a type, where some are.
    fn of(all: &[Bounds], type_number: u32) -> Option<Bounds>
        ensures { result ≡ bounds_of all.now type_number }
    {
        for it in all.iter() {
            if it.type_number == type_number {
                return Some(*it);
            }
        }
        None
    }

    /// Whether a number is among them.
    pub fn allows(self, number: i128) -> bool
        ensures { result ≡ allows self number }
    {
        self.low.is_none_or(|low| low <= number) && self.high.is_none_or(|high| number <= high)
    }
}

/// The value of a component that is absent: the number of the sequence or set, that of the component among all of them, and
/// the value.
#[derive(Debug, Drop)]
pub struct DefaultValue {
    pub type_number: u32,
    pub component: usize,
    pub value: Json,
}

/// A component or an alternative.
#[derive(Debug, Clone, Copy, PartialEq, Eq)]
pub struct Part {
    /// The number of its name.
    pub name: u32,
    /// Of a component, whether it is OPTIONAL or has a DEFAULT.
    pub may_be_absent: bool,
    /// Of an alternative, the class of its tag and the number.
    pub class: u32,
    pub number: u32,
    /// The number of its type.
    pub type_number: u32,
}

/// A table of types, and what goes with it by their numbers.
#[derive(Debug, Drop)]
pub struct Tables {
    /// The words of the table, as `oer_walk` takes them.
    pub words: Vec<u32>,
    /// The names of components and alternatives.
    pub names: Vec<String>,
    /// The names of types.
    pub types: Vec<String>,
    pub values: Vec<ValueName>,
    /// The ranges of integers, and the sizes of strings.
    pub ranges: Vec<Bounds>,
    pub sizes: Vec<Bounds>,
    pub defaults: Vec<DefaultValue>,
}

/// The name of the types of groups of extension additions.
const GROUP: &str = "group";

fn push_words(words: &mut Vec<u32>, text: &str) -> Result<(), TableError> {
    for word in text.split(' ') {
        match word.parse::<u32>() {
            Ok(word) => words.push(word)?,
            Err(_) => return Err(TableError::NoWord),
        }
    }
    Ok(())
}

/// Two words and the text behind them.
fn parts_of(text: &str) -> Result<(&str, &str, &str), TableError> {
    let Some((first, rest)) = text.split_once(" ") else {
        return Err(TableError::NoParts);
    };
    match rest.split_once(" ") {
        Some((second, third)) => Ok((first, second, third)),
        None => Err(TableError::NoParts),
    }
}

fn type_number_of(word: &str) -> Result<u32, TableError> {
    match word.parse::<u32>() {
        Ok(number) => Ok(number),
        Err(_) => Err(TableError::NoNumber),
    }
}

/// A type's number, a number and its name.
fn value_name(alloc: Global, text: &str) -> Result<ValueName, TableError> {
    let (type_number, number, name) = parts_of(text)?;
    match number.parse::<i128>() {
        Ok(number) => Ok(ValueName {
            type_number: type_number_of(type_number)?,
            number,
            name: String::from_str(alloc, name)?,
        }),
        Err(_) => Err(TableError::NoNumber),
    }
}

/// A number, or nothing for a word that stands for none.
fn end_of(word: &str, none: &str) -> Result<Option<i128>, TableError> {
    if word == none {
        return Ok(None);
    }
    match word.parse::<i128>() {
        Ok(number) => Ok(Some(number)),
        Err(_) => Err(TableError::NoNumber),
    }
}

/// A type's number and its bounds.
fn bounds_of(text: &str) -> Result<Bounds, TableError> {
    let (type_number, low, high) = parts_of(text)?;
    Ok(Bounds {
        type_number: type_number_of(type_number)?,
        low: end_of(low, "MIN")?,
        high: end_of(high, "MAX")?,
    })
}

/// A type's number, a component's, and its value in JSON.
fn default_value(alloc: Global, text: &str) -> Result<DefaultValue, TableError> {
    let (type_number, component, value) = parts_of(text)?;
    match (
        component.parse::<usize>(),
        Json::read(alloc, value.as_bytes()),
    ) {
        (Ok(component), Ok(value)) => Ok(DefaultValue {
            type_number: type_number_of(type_number)?,
            component,
            value,
        }),
        _ => Err(TableError::NoDefault),
    }
}

impl Tables {
    fn push_line(&mut self, alloc: Global, line: &str) -> Result<(), TableError> {
        match line.split_once(" ") {
            Some(("words", text)) => push_words(&mut self.words, text),
            Some(("name", text)) => Ok(self.names.push(String::from_str(alloc, text)?)?),
            Some(("type", text)) => Ok(self.types.push(String::from_str(alloc, text)?)?),
            Some(("value", text)) => Ok(self.values.push(value_name(alloc, text)?)?),
            Some(("range", text)) => Ok(self.ranges.push(bounds_of(text)?)?),
            Some(("size", text)) => Ok(self.sizes.push(bounds_of(text)?)?),
            Some(("default", text)) => Ok(self.defaults.push(default_value(alloc, text)?)?),
            _ => Err(TableError::NoLine),
        }
    }

    /// The table that a file's lines have: one of `words`, and one of each `name`, `type` and `value`, in the order of their
    /// numbers, each `range`, `size` and `default`. Refused at the first line of another form.
    pub fn of_lines(alloc: Global, text: &str) -> Result<Tables, TableError> {
        let mut tables = Tables {
            words: Vec::new(alloc),
            names: Vec::new(alloc),
            types: Vec::new(alloc),
            values: Vec::new(alloc),
            ranges: Vec::new(alloc),
            sizes: Vec::new(alloc),
            defaults: Vec::new(alloc),
        };
        for line in text.lines() {
            tables.push_line(alloc, line)?;
        }
        Ok(tables)
    }

    /// The number of the type of that name.
    pub fn type_of(&self, name: &str) -> Option<u32> {
        let place = self.types.iter().position(|it| it.as_str() == name)?;
        match u32::try_from(place) {
            Ok(place) => Some(place),
            Err(_) => None,
        }
    }

    /// The name of the type with that number.
    pub fn type_name(&self, number: u32) -> &str {
        match self.types.get(number as usize) {
            Some(name) => name.as_str(),
            None => "unknown",
        }
    }

    /// The name of a component or an alternative with that number, if it has one.
    pub fn name(&self, number: u32) -> Option<&str> {
        self.names.get(number as usize).map(|name| name.as_str())
    }

    /// The name of a type's number.
    pub fn value_name(&self, type_number: u32, number: i128) -> Option<&str> {
        for it in self.values.iter() {
            if it.type_number == type_number && it.number == number {
                return Some(it.name.as_str());
            }
        }
        None
    }

    /// The number of a type that has that name.
    pub fn value_of(&self, type_number: u32, name: &str) -> Option<i128> {
        for it in self.values.iter() {
            if it.type_number == type_number && it.name.as_str() == name {
                return Some(it.number);
            }
        }
        None
    }

    /// A word of a type's description, the number of its kind being the first; nothing where there is none.
    fn described(&self, type_number: u32, index: usize) -> Option<u32>
        ensures { result ≡ described self.now.words.items type_number index }
    {
        if type_number >= self.words.first().copied().unwrap_or(0) {
            return None;
        }
        let place = self.words.get((type_number as usize).saturating_add(1))?;
        let at = (*place as usize).saturating_add(index);
        self.words.get(at).copied()
    }

    /// The kind of a type, if the table has the type.
    pub fn kind_of(&self, type_number: u32) -> Option<Kind>
        ensures { result ≡ kind_numbered (kind_of self.now.words.items type_number) }
    {
        kind_in(self.words.as_slice(), type_number)
    }

    /// A word that goes with a type's kind, the first of them being 0; 0 where there is none.
    pub fn word_of(&self, type_number: u32, index: usize) -> u32
        ensures { result ≡ word_of self.now.words.items type_number index }
    {
        self.described(type_number, index.saturating_add(1))
            .unwrap_or(0)
    }

    /// What a string's octets are, by the word with that index behind its kind; octets, where it says nothing.
    pub fn string_kind(&self, type_number: u32, index: usize) -> StringKind
        ensures { result ≡ string_kind_of self.now.words.items type_number index }
    {
        StringKind::of(self.word_of(type_number, index)).unwrap_or(StringKind::OctetString)
    }

    /// A word that counts parts of a type, which are no more than the table has words.
    pub fn count_of(&self, type_number: u32, index: usize) -> usize {
        (self.word_of(type_number, index) as usize).min(self.words.len())
    }

    /// The component with that number among all of a sequence or set.
    pub fn component(&self, type_number: u32, index: usize) -> Part {
        let at = index.saturating_mul(3).saturating_add(3);
        Part {
            name: self.word_of(type_number, at),
            may_be_absent: self.word_of(type_number, at.saturating_add(1)) != 0,
            class: 0,
            number: 0,
            type_number: self.word_of(type_number, at.saturating_add(2)),
        }
    }

    /// The alternative with that number among all of a choice.
    pub fn alternative(&self, type_number: u32, index: usize) -> Part {
        let at = index.saturating_mul(4).saturating_add(3);
        Part {
            name: self.word_of(type_number, at),
            may_be_absent: false,
            class: self.word_of(type_number, at.saturating_add(1)),
            number: self.word_of(type_number, at.saturating_add(2)),
            type_number: self.word_of(type_number, at.saturating_add(3)),
        }
    }

    /// Whether a type is a group of extension additions.
    pub fn is_group(&self, type_number: u32) -> bool {
        self.kind_of(type_number) == Some(Kind::Sequence) && self.type_name(type_number) == GROUP
    }

    /// The range of a type, where it has one.
    pub fn range_of(&self, type_number: u32) -> Option<Bounds>
        ensures { result ≡ bounds_of self.now.ranges.items type_number }
    {
        Bounds::of(self.ranges.as_slice(), type_number)
    }

    /// The sizes of a type, where it has some.
    pub fn size_of(&self, type_number: u32) -> Option<Bounds>
        ensures { result ≡ bounds_of self.now.sizes.items type_number }
    {
        Bounds::of(self.sizes.as_slice(), type_number)
    }

    /// The value of a component that is absent, where it has one.
    pub fn default_of(&self, type_number: u32, component: usize) -> Option<&Json> {
        for it in self.defaults.iter() {
            if it.type_number == type_number && it.component == component {
                return Some(&it.value);
            }
        }
        None
    }
}

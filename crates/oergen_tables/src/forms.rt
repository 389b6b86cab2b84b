//! The types of a table, and its lines.
ghost use Rattle.std.specs.Prelude.{◌≡◌, []};

use oergen_layouts::visible::{Limits, UNLIMITED};
use std::alloc::{AllocError, Global};

/// A name that a type has for one of its numbers, or for a bit.
#[derive(Drop)]
pub struct ValueName {
    pub number: i128,
    pub name: String,
}

/// The value of a component that is absent, by its number among all of a SEQUENCE or a SET: in JSON (X.697).
#[derive(Drop)]
pub struct DefaultValue {
    pub component: usize,
    pub value: String,
}

/// How a type lies in octets: the number of its kind, and the words that go with it.
#[derive(Drop)]
pub struct Form {
    pub words: Vec<usize>,
    pub values: Vec<ValueName>,
    /// The range of an INTEGER, and the sizes of a string; without limits where there are none.
    pub range: Limits,
    pub size: Limits,
    pub defaults: Vec<DefaultValue>,
}

/// A type of a table.
#[derive(Drop)]
pub struct Entry {
    pub name: String,
    pub form: Form,
    /// The number of the type whose form it has, where that isn't its own.
    pub same: Option<usize>,
}

/// A table of types: the names of components and alternatives, and the types, by their numbers.
#[derive(Drop)]
pub struct Table {
    pub names: Vec<String>,
    pub entries: Vec<Entry>,
}

impl Form {
    /// The form of these words alone.
    pub fn of(alloc: Global, words: Vec<usize>) -> Form
        ensures words { result.words ≡ words }
        ensures values { result.values.items ≡ [] }
        ensures defaults { result.defaults.items ≡ [] }
        ensures range { result.range ≡ UNLIMITED }
        ensures size { result.size ≡ UNLIMITED }
    {
        Form {
            words,
            values: Vec::new(alloc),
            range: UNLIMITED,
            size: UNLIMITED,
            defaults: Vec::new(alloc),
        }
    }
}

/// Puts a line for each name of components and alternatives.
fn push_names(alloc: Global, out: &mut String, names: &[String]) -> Result<(), AllocError> {
    for name in names.iter() {
        out.push_str(format!(in alloc; "name {name}\n")?.as_str())?;
    }
    Ok(())
}

/// Puts a line for each type's name.
fn push_types(alloc: Global, out: &mut String, entries: &[Entry]) -> Result<(), AllocError> {
    for entry in entries.iter() {
        let name = entry.name.as_str();
        out.push_str(format!(in alloc; "type {name}\n")?.as_str())?;
    }
    Ok(())
}

/// Puts numbers, a blank in front of each.
fn push_numbers(alloc: Global, out: &mut String, numbers: &[usize]) -> Result<(), AllocError> {
    for number in numbers.iter() {
        out.push_str(format!(in alloc; " {number}")?.as_str())?;
    }
    Ok(())
}

/// Puts the line of the limits of a type, behind a word; none where it has no limits, or an extension mark.
fn push_limits(
    alloc: Global,
    out: &mut String,
    word: &str,
    number: usize,
    limits: Limits,
) -> Result<(), AllocError> {
    if limits.is_extensible || (limits.low.is_none() && limits.high.is_none()) {
        return Ok(());
    }
    let low = match limits.low {
        Some(low) => format!(in alloc; "{low}")?,
        None => String::from_str(alloc, "MIN")?,
    };
    let high = match limits.high {
        Some(high) => format!(in alloc; "{high}")?,
        None => String::from_str(alloc, "MAX")?,
    };
    out.push_str(format!(in alloc; "{word} {number} {low} {high}\n")?.as_str())
}

/// Puts a line for each name of a type's numbers.
fn push_values(
    alloc: Global,
    out: &mut String,
    number: usize,
    values: &[ValueName],
) -> Result<(), AllocError> {
    for it in values.iter() {
        let (own, name) = (it.number, it.name.as_str());
        out.push_str(format!(in alloc; "value {number} {own} {name}\n")?.as_str())?;
    }
    Ok(())
}

/// Puts a line for each default of a type's components.
fn push_defaults(
    alloc: Global,
    out: &mut String,
    number: usize,
    defaults: &[DefaultValue],
) -> Result<(), AllocError> {
    for it in defaults.iter() {
        let (component, value) = (it.component, it.value.as_str());
        out.push_str(format!(in alloc; "default {number} {component} {value}\n")?.as_str())?;
    }
    Ok(())
}

impl Table {
    /// The form of a type: its own, or that of the type whose form it has.
    fn form_of<'t>(&'t self, entry: &'t Entry) -> &'t Form {
        match entry.same.and_then(|same| self.entries.get(same)) {
            Some(same) => &same.form,
            None => &entry.form,
        }
    }

    /// Where each type's own form lies among the words: behind their count and the places, in turn.
    fn own_places(&self, alloc: Global) -> Result<Vec<usize>, AllocError> {
        let mut places = Vec::new(alloc);
        let mut place = self.entries.len().saturating_add(1);
        for entry in self.entries.iter() {
            places.push(place)?;
            place = place.saturating_add(entry.form.words.len());
        }
        Ok(places)
    }

    /// Where each type's form lies among the words.
    fn places(&self, alloc: Global) -> Result<Vec<usize>, AllocError> {
        let own = self.own_places(alloc)?;
        let mut places = Vec::new(alloc);
        for (at, entry) in self.entries.iter().enumerate() {
            let form = entry.same.unwrap_or(at);
            places.push(own.get(form).copied().unwrap_or(0))?;
        }
        Ok(places)
    }

    /// Puts the line of the words: how many types there are, the place of each one's form, and the forms.
    fn push_words(&self, alloc: Global, out: &mut String) -> Result<(), AllocError> {
        let count = self.entries.len();
        out.push_str(format!(in alloc; "words {count}")?.as_str())?;
        push_numbers(alloc, out, self.places(alloc)?.as_slice())?;
        for entry in self.entries.iter() {
            push_numbers(alloc, out, entry.form.words.as_slice())?;
        }
        out.push('\n')?;
        Ok(())
    }

    /// Puts the lines of the names of numbers.
    fn push_value_lines(&self, alloc: Global, out: &mut String) -> Result<(), AllocError> {
        for (number, entry) in self.entries.iter().enumerate() {
            push_values(alloc, out, number, self.form_of(entry).values.as_slice())?;
        }
        Ok(())
    }

    /// Puts the lines of the ranges.
    fn push_range_lines(&self, alloc: Global, out: &mut String) -> Result<(), AllocError> {
        for (number, entry) in self.entries.iter().enumerate() {
            push_limits(alloc, out, "range", number, entry.form.range)?;
        }
        Ok(())
    }

    /// Puts the lines of the sizes.
    fn push_size_lines(&self, alloc: Global, out: &mut String) -> Result<(), AllocError> {
        for (number, entry) in self.entries.iter().enumerate() {
            push_limits(alloc, out, "size", number, entry.form.size)?;
        }
        Ok(())
    }

    /// Puts the lines of the defaults.
    fn push_standard_lines(&self, alloc: Global, out: &mut String) -> Result<(), AllocError> {
        for (number, entry) in self.entries.iter().enumerate() {
            push_defaults(alloc, out, number, self.form_of(entry).defaults.as_slice())?;
        }
        Ok(())
    }

    /// The table's lines: one of the words; then one for each name, type, name of a number, range, size and default.
    pub fn lines(&self, alloc: Global) -> Result<String, AllocError> {
        let mut out = String::new(alloc);
        self.push_words(alloc, &mut out)?;
        push_names(alloc, &mut out, self.names.as_slice())?;
        push_types(alloc, &mut out, self.entries.as_slice())?;
        self.push_value_lines(alloc, &mut out)?;
        self.push_range_lines(alloc, &mut out)?;
        self.push_size_lines(alloc, &mut out)?;
        self.push_standard_lines(alloc, &mut out)?;
        Ok(out)
    }
}

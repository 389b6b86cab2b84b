//! Tables of components: their rows, and iterators over them in tag order and over those that may be absent.
ghost use Rattle.std.specs.Iterator.{YieldsFirst, item_count};
ghost use Rattle.std.specs.Option.{option_copied};
ghost use Rattle.std.specs.Prelude.{◌≡◌, ◌==◌, length, map, not, Option};
ghost use Rattle.std.specs.Slice.Iter.{iter_rest};
ghost use Rattle.asn1_core.specs.NextRow.{first_after, is_after};
ghost use Rattle.asn1_core.specs.Rows.{may_be_absent, optional_rows, row};
ghost use Rattle.asn1_core.specs.Tables.{canonised_rest, optional_fields, optional_rest};
ghost use Rattle.asn1_core.specs.Tags.{by_tag, tag_le};

use crate::tag::Tag;
use std::slice::Iter;

/// Whether a component has to be there (X.680, 25.5).
#[derive(Debug, Clone, Copy, PartialEq, Eq, PartialOrd, Ord)]
pub enum FieldPresence {
    Required,
    Optional,
    Default,
}

/// One row of a table of components.
#[derive(Debug, Clone, Copy, PartialEq, Eq)]
pub struct Field<'a> {
    /// The row's place in its table, from 0.
    pub index: usize,
    /// The component's tag.
    pub tag: Tag,
    /// Whether the component has to be there.
    pub presence: FieldPresence,
    /// The component's name.
    pub name: &'a str,
}

impl<'a> Field<'a> {
    /// The row of a component that has to be there.
    pub const fn new_required(index: usize, tag: Tag, name: &'a str) -> Field<'a>
        ensures row { row result ≡ record { index = index; tag = tag; presence = FieldPresence.Required } }
        ensures name { result.name.now ≡ name.now }
    {
        Field {
            index,
            tag,
            presence: FieldPresence::Required,
            name,
        }
    }

    /// The row of an OPTIONAL component.
    pub const fn new_optional(index: usize, tag: Tag, name: &'a str) -> Field<'a>
        ensures row { row result ≡ record { index = index; tag = tag; presence = FieldPresence.Optional } }
        ensures name { result.name.now ≡ name.now }
    {
        Field {
            index,
            tag,
            presence: FieldPresence::Optional,
            name,
        }
    }

    /// The row of a component with a DEFAULT.
    pub const fn new_default(index: usize, tag: Tag, name: &'a str) -> Field<'a>
        ensures row { row result ≡ record { index = index; tag = tag; presence = FieldPresence.Default } }
        ensures name { result.name.now ≡ name.now }
    {
        Field {
            index,
            tag,
            presence: FieldPresence::Default,
            name,
        }
    }

    /// Whether the component may be absent.
    pub fn is_optional_or_default(&self) -> bool
        ensures { result ≡ may_be_absent self.now.presence }
    {
        match self.presence {
            FieldPresence::Required => false,
            FieldPresence::Optional | FieldPresence::Default => true,
        }
    }

    /// Whether the component has to be there.
    pub fn is_not_optional_or_default(&self) -> bool
        ensures { result ≡ not (may_be_absent self.now.presence) }
    {
        !self.is_optional_or_default()
    }
}

/// A table of `N` components.
#[derive(Debug, Clone, Copy)]
pub struct Fields<const N: usize> {
    /// The rows, in the order of the type's text.
    pub fields: &'static [Field<'static>],
}

impl<const N: usize> Fields<N> {
    /// The table of these rows.
    pub const fn from_static(fields: &'static [Field<'static>]) -> Fields<N>
        requires { length fields.now ≡ N }
        ensures { result.fields.now ≡ fields.now }
    {
        Fields { fields }
    }

    /// The number of rows.
    pub const fn len(&self) -> usize
        ensures { result ≡ length self.now.fields.now }
    {
        self.fields.len()
    }

    /// Whether there is no row.
    pub fn is_empty(&self) -> bool
        ensures { result ≡ (length self.now.fields.now == 0) }
    {
        self.fields.is_empty()
    }

    /// The rows, in the order of the type's text.
    pub fn iter(&self) -> Iter<'static, Field<'static>>
        ensures { iter_rest result ≡ self.now.fields.now }
    {
        self.fields.iter()
    }

    /// The rows in tag order (X.680, 8.6), those of one tag in the order of the type's text.
    pub fn canonised(&self) -> Canonised
        ensures fields { canonised_rest result ≡ by_tag (λ f. f.tag) self.now.fields.now }
        ensures rows { map row (canonised_rest result) ≡ by_tag (λ r. r.tag) (map row self.now.fields.now) }
    {
        Canonised {
            rows: self.fields,
            last: None,
        }
    }

    /// The rows whose components may be absent, in the order of the type's text.
    pub fn optional_and_default_fields(&self) -> OptionalAndDefaultFields
        ensures fields { optional_rest result ≡ optional_fields self.now.fields.now }
        ensures rows { map row (optional_rest result) ≡ optional_rows (map row self.now.fields.now) }
    {
        OptionalAndDefaultFields { rows: self.fields }
    }

    /// The number of rows whose components may be absent.
    pub fn number_of_optional_and_default_fields(&self) -> usize
        ensures { result ≡ length (optional_fields self.now.fields.now) }
    {
        self.fields
            .iter()
            .filter(|row| row.is_optional_or_default())
            .count()
    }
}

/// The rows of a table whose components may be absent, in the order of the table.
#[derive(Debug, Clone, Copy)]
pub struct OptionalAndDefaultFields {
    rows: &'static [Field<'static>],
}

impl Iterator for OptionalAndDefaultFields {
    type Item = Field<'static>;

    ghost next_gives = { YieldsFirst optional_rest };

    ghost remaining = { item_count optional_rest };

    fn next(&mut self) -> Option<Field<'static>> {
        let mut rows = self.rows;
        while let [first, rest @ ..] = rows {
            rows = rest;
            if first.is_optional_or_default() {
                self.rows = rest;
                return Some(*first);
            }
        }
        self.rows = &[];
        None
    }
}

/// The rows of a table in tag order, those of one tag in the order of the table.
#[derive(Debug, Clone, Copy)]
pub struct Canonised {
    rows: &'static [Field<'static>],
    /// The tag and the place in the table of the row that was answered last.
    last: Option<(Tag, usize)>,
}

impl Iterator for Canonised {
    type Item = Field<'static>;

    ghost next_gives = { YieldsFirst canonised_rest };

    ghost remaining = { item_count canonised_rest };

    fn next(&mut self) -> Option<Field<'static>> {
        let (place, row) = first_after(self.rows, self.last)?;
        self.last = Some((row.tag, place));
        Some(row)
    }
}

/// Of the rows that come after the last answered one the row of the lowest tag, and its place; of several the first.
fn first_after<'a>(rows: &[Field<'a>], last: Option<(Tag, usize)>) -> Option<(usize, Field<'a>)>
    ensures { result ≡ first_after last 0 rows.now Option.None }
{
    let mut found: Option<(usize, Field<'a>)> = None;
    let mut place = 0;
    let mut left = rows;
    while let [row, rest @ ..] = left {
        let is_lower = match &found {
            Some((_, lowest)) => is_below(row.tag, lowest.tag),
            None => true,
        };
        if is_lower && is_after(row.tag, place, last) {
            found = Some((place, *row));
        }
        left = rest;
        place += 1;
    }
    found
}

/// Whether a row comes after the last answered one: it has a higher tag, or the same and a later place.
fn is_after(tag: Tag, place: usize, last: Option<(Tag, usize)>) -> bool
    ensures { result ≡ is_after last tag place }
{
    match last {
        Some((last_tag, last_place)) => {
            is_below(last_tag, tag) || (last_tag == tag && last_place < place)
        }
        None => true,
    }
}

fn is_below(a: Tag, b: Tag) -> bool
    ensures { result ≡ not (tag_le b a) }
{
    a < b
}

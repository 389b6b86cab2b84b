//! Tables of types in words, as `oergen --table` makes them.
//!
//! The first word is the number of types. One word a type follows: the place in the table where the type's kind stands, with
//! what goes with the kind behind it ([`Kind`]). Any words are a table: what isn't there is read as `u32::MAX`.
ghost use Rattle.std.specs.Prelude.{◌≡◌, ◌<◌, ◌^◌, IfSome};
ghost use Rattle.oer_walk.specs.Kinds.{kind_numbered};
ghost use Rattle.oer_walk.specs.Walks.{is_leaf, is_nothing};
ghost use Rattle.oer_walk.specs.Tables.{word, place_of, kind_of, count_at, form_at, form_of, parts_at, component_of, alternative_at, is_of, alternative_of, optionals};

use crate::kinds::Kind;
use asn1_core::Tag;

/// A table.
#[derive(Clone, Copy)]
pub struct Table<'t> {
    words: &'t [u32],
}

/// How a type lies in octets.
#[derive(Debug, Clone, Copy, PartialEq, Eq)]
pub enum Form {
    /// So many octets.
    Fixed(usize),
    /// A length, and so many octets (X.696, 8.6).
    Counted,
    /// An octet below 128, or a count of octets and the octets (X.696, 11).
    Enumerated,
    /// A quantity, and elements of that type (X.696, 17).
    List(u32),
    /// Components (X.696, 16).
    Sequence(Parts),
    /// Alternatives (X.696, 20).
    Choice(Parts),
    /// None: the table has no such type.
    Nothing,
}

impl Form {
    /// Whether a part of this form has no parts.
    pub fn is_leaf(self) -> bool
        ensures { result ≡ is_leaf self }
    {
        match self {
            Form::Fixed(_) | Form::Counted | Form::Enumerated | Form::Nothing => true,
            Form::List(_) | Form::Sequence(_) | Form::Choice(_) => false,
        }
    }

    /// Whether it is no form.
    pub fn is_nothing(self) -> bool
        ensures { result ≡ is_nothing self }
    {
        matches!(self, Form::Nothing)
    }
}

/// The components of a sequence or the alternatives of a choice, no more in the root and none more past it than the table
/// has words.
#[derive(Debug, Clone, Copy, PartialEq, Eq)]
pub struct Parts {
    /// Whether more may follow in a newer version.
    pub is_extensible: bool,
    /// How many are in the root.
    pub roots: u32,
    /// How many are extension additions.
    pub additions: u32,
    /// The place in the table of the type's kind.
    pub place: u32,
}

/// A component.
#[derive(Debug, Clone, Copy, PartialEq, Eq)]
pub struct Component {
    /// The number of its name.
    pub name: u32,
    /// Whether it is OPTIONAL or has a DEFAULT.
    pub may_be_absent: bool,
    /// The number of its type.
    pub type_number: u32,
}

/// An alternative.
#[derive(Debug, Clone, Copy, PartialEq, Eq)]
pub struct Alternative {
    /// The number of its name.
    pub name: u32,
    /// The class of its tag: 0 universal, 1 application, 2 context, 3 private.
    pub class: u32,
    /// The number of its tag.
    pub number: u32,
    /// The number of its type.
    pub type_number: u32,
}

impl Alternative {
    /// Whether it has that tag.
    fn is_of(self, tag: Tag) -> bool
        ensures { result ≡ is_of self tag }
    {
        self.class == u32::from(tag.class.number()) && self.number == tag.value
    }
}

/// The kind of the type with that number in a table, if the table has the type.
pub fn kind_in(table: &[u32], type_number: u32) -> Option<Kind>
    ensures { result ≡ kind_numbered (kind_of table.now type_number) }
{
    Kind::of(Table::new(table).kind_of(type_number))
}

impl<'t> Table<'t> {
    /// The table of these words.
    pub fn new(words: &'t [u32]) -> Table<'t>
        ensures { result.words.now ≡ words.now }
    {
        Table { words }
    }

    fn word(self, at: usize) -> u32
        ensures { result ≡ word self.entry.words.now at }
    {
        match self.words.get(at) {
            Some(word) => *word,
            None => u32::MAX,
        }
    }

    /// The place where a type's kind stands, if the table has the type.
    #[tactic(auto, unfolding(crate::specs::Tables::place_of))]
    fn place_of(self, type_number: u32) -> Option<u32>
        ensures { result ≡ place_of self.entry.words.now type_number }
    {
        if type_number < self.word(0) {
            Some(self.word(type_number as usize + 1))
        } else {
            None
        }
    }

    /// The number of a type's kind; `u32::MAX` if the table has no such type.
    #[tactic(auto, unfolding(crate::specs::Tables::kind_of))]
    pub fn kind_of(self, type_number: u32) -> u32
        ensures { result ≡ kind_of self.entry.words.now type_number }
    {
        match self.place_of(type_number) {
            Some(at) => self.word(at as usize),
            None => u32::MAX,
        }
    }

    /// How a type lies in octets.
    #[tactic(auto, unfolding(crate::specs::Tables::form_of))]
    pub fn form_of(self, type_number: u32) -> Form
        ensures { result ≡ form_of self.entry.words.now type_number }
    {
        match self.place_of(type_number) {
            Some(at) => self.form_at(at),
            None => Form::Nothing,
        }
    }

    #[tactic(auto, unfolding(crate::specs::Tables::form_at))]
    fn form_at(self, at: u32) -> Form
        ensures { result ≡ form_at self.entry.words.now at }
    {
        let first = self.word(at as usize + 1) as usize;
        match Kind::of(self.word(at as usize)) {
            Some(Kind::Boolean) => Form::Fixed(1),
            Some(Kind::Null) => Form::Fixed(0),
            Some(Kind::FixedInteger | Kind::FixedString) => Form::Fixed(first),
            Some(Kind::Integer | Kind::String) => Form::Counted,
            Some(Kind::BitString | Kind::NamedBitString) => Form::Counted,
            Some(Kind::Enumerated) => Form::Enumerated,
            Some(Kind::FixedBitString) => Form::Fixed((first + 7) / 8),
            Some(Kind::List) => Form::List(self.word(at as usize + 2)),
            Some(Kind::Sequence) => Form::Sequence(self.parts_at(at)),
            Some(Kind::Choice) => Form::Choice(self.parts_at(at)),
            None => Form::Nothing,
        }
    }

    /// A word that counts parts of the table, which are no more than its words.
    fn count(self, at: usize) -> u32
        ensures { result ≡ count_at self.entry.words.now at }
    {
        let count = self.word(at);
        if (count as usize) < self.words.len() {
            count
        } else {
            self.words.len() as u32
        }
    }

    #[tactic(auto, unfolding(crate::specs::Tables::parts_at))]
    fn parts_at(self, at: u32) -> Parts
        ensures { result ≡ parts_at self.entry.words.now at }
    {
        Parts {
            is_extensible: self.word(at as usize + 1) == 1,
            roots: self.count(at as usize + 2),
            additions: self.count(at as usize + 3),
            place: at,
        }
    }

    /// The component with that number among all of a sequence.
    #[tactic(auto, unfolding(crate::specs::Tables::component_of))]
    pub fn component(self, parts: Parts, index: usize) -> Component
        requires { index < 2 ^ 33 }
        ensures { result ≡ component_of self.entry.words.now parts index }
    {
        let at = parts.place as usize + 3 * index + 4;
        Component {
            name: self.word(at),
            may_be_absent: self.word(at + 1) != 0,
            type_number: self.word(at + 2),
        }
    }

    /// The alternative with that number among all of a choice.
    #[tactic(auto, unfolding(crate::specs::Tables::alternative_at))]
    pub fn alternative(self, parts: Parts, index: usize) -> Alternative
        requires { index < 2 ^ 33 }
        ensures { result ≡ alternative_at self.entry.words.now parts index }
    {
        let at = parts.place as usize + 4 * index + 4;
        Alternative {
            name: self.word(at),
            class: self.word(at + 1),
            number: self.word(at + 2),
            type_number: self.word(at + 3),
        }
    }

    /// The number of the first alternative with a tag.
    #[tactic(auto, unfolding(crate::specs::Tables::alternative_of))]
    pub fn alternative_of(self, parts: Parts, tag: Tag) -> Option<usize>
        ensures value { result ≡ alternative_of self.entry.words.now parts tag }
        ensures near { IfSome result (λ index. index < 2 ^ 33) }
    {
        for index in 0..parts.roots as usize + parts.additions as usize {
            if self.alternative(parts, index).is_of(tag) {
                return Some(index);
            }
        }
        None
    }

    /// How many root components of a sequence may be absent.
    pub fn optionals(self, parts: Parts) -> usize
        ensures value { result ≡ optionals self.entry.words.now parts parts.roots }
        ensures few { result < 2 ^ 32 }
    {
        let mut count: usize = 0;
        for index in 0..parts.roots as usize {
            if self.component(parts, index).may_be_absent {
                count += 1;
            }
        }
        count
    }
}

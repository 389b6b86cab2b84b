//! Numbers types and names, and gives each type its form.

use crate::defaults::default_text;
use crate::forms::{Entry, Form, Table};
use crate::leaves::{enumerated_form, leaf_form, plain_name};
use crate::rows::{Addition, Field, choice_form, ordered, sequence_form};
use oer_walk::Kind;
use oergen_layouts::definitions::{Definition, Part, free_name};
use oergen_layouts::order::behind_names;
use oergen_layouts::rows::{Position, Row};
use oergen_layouts::scope::Scope;
use oergen_parse::ast::{Body, Need, Type};
use oergen_parse::refusal::Refusal;
use std::alloc::{AllocError, Global};
use std::collections::BTreeMap;

/// How many lists may stand inside one another.
const MAX_LISTS: usize = 64;

/// What a group of extension additions is called, which is a type of its own.
const GROUP: &str = "group";

/// A table that is made, with the numbers of definitions, by their places, and of names.
#[derive(Drop)]
pub struct Builder<'m, 'a, 'd> {
    scope: Scope<'m, 'a>,
    all: &'d [Definition<'m>],
    numbers: Vec<usize>,
    names: BTreeMap<String, usize>,
    table: Table,
}

/// Whether a type has parts: components, alternatives, elements or values.
fn has_parts(body: &Body) -> bool {
    match body {
        Body::Sequence(_) | Body::Set(_) | Body::Choice(_) | Body::Enumerated(_, _) => true,
        Body::SequenceOf(_) | Body::SetOf(_) => true,
        Body::Simple(_) | Body::Integer(_) | Body::BitString(_) | Body::Reference(_) => false,
    }
}

/// Whether a component may be absent: an addition always, which older senders don't have.
fn may_be_absent(row: Row<'_>) -> bool {
    row.position == Position::Addition || !matches!(row.need, Need::Required)
}

impl<'m, 'a, 'd> Builder<'m, 'a, 'd> {
    /// A table of definitions that have no form yet, in this order of their places.
    pub fn new(
        scope: Scope<'m, 'a>,
        all: &'d [Definition<'m>],
        order: &[usize],
    ) -> Result<Builder<'m, 'a, 'd>, AllocError> {
        let table = Table {
            names: Vec::new(scope.alloc),
            entries: Vec::new(scope.alloc),
        };
        let mut builder = Builder {
            scope,
            all,
            numbers: vec![in scope.alloc; 0usize; all.len()]?,
            names: BTreeMap::new(scope.alloc),
            table,
        };
        for place in order.iter() {
            if let Some(definition) = all.get(*place) {
                let number = builder.push_entry(definition.rust_name.as_str())?;
                if let Some(own) = builder.numbers.get_mut(*place) {
                    *own = number;
                }
            }
        }
        Ok(builder)
    }

    /// The table.
    pub fn end(self) -> Table {
        let Builder {
            scope: _,
            all: _,
            numbers: _,
            names: _,
            table,
        } = self;
        table
    }

    fn alloc(&self) -> Global {
        self.scope.alloc
    }

    /// A type of that name without a form, behind the others: its number.
    fn push_entry(&mut self, name: &str) -> Result<usize, AllocError> {
        let alloc = self.alloc();
        let number = self.table.entries.len();
        self.table.entries.push(Entry {
            name: String::from_str(alloc, name)?,
            form: Form::of(alloc, Vec::new(alloc)),
            same: None,
        })?;
        Ok(number)
    }

    /// Gives a type its form.
    fn set_form(&mut self, number: usize, form: Form) {
        if let Some(entry) = self.table.entries.get_mut(number) {
            entry.form = form;
        }
    }

    /// The number of a component's or an alternative's name.
    fn name_number(&mut self, name: &str) -> Result<usize, AllocError> {
        let known = self.names.get(name).copied();
        if let Some(number) = known {
            return Ok(number);
        }
        let number = self.table.names.len();
        let own = String::from_str(self.alloc(), name)?;
        self.table.names.push(own.clone()?)?;
        self.names.insert(own, number)?;
        Ok(number)
    }

    /// The place of the definition that a part leads to; nothing where that is of a type without parts.
    fn scope_of(&self, part: &Part<'m>) -> Option<usize> {
        let target = part.target?;
        let end = self.all.get(behind_names(self.all, target))?;
        if has_parts(&end.of.body) {
            Some(target)
        } else {
            None
        }
    }

    /// The number of the type of a part, without the lists around it: a new one where it has no parts.
    fn inner_number(&mut self, part: &Part<'m>) -> Result<usize, Refusal> {
        if let Some(target) = self.scope_of(part) {
            return Ok(self.numbers.get(target).copied().unwrap_or(0));
        }
        let name = match part.target.and_then(|target| self.all.get(target)) {
            Some(definition) => definition.rust_name.as_str(),
            None => plain_name(&part.inner.body),
        };
        let number = self.push_entry(name)?;
        let form = leaf_form(self.scope, part.inner)?;
        self.set_form(number, form);
        Ok(number)
    }

    /// The number of the type that is written in a list: a new list, or the part's.
    fn element_number(&mut self, part: &Part<'m>, element: &'m Type) -> Result<usize, Refusal> {
        if element.body.list().is_some() {
            return Ok(self.push_entry(plain_name(&element.body))?);
        }
        self.inner_number(part)
    }

    /// Gives lists inside one another their forms, the outermost of which has that number.
    fn set_lists(
        &mut self,
        number: usize,
        part: &Part<'m>,
        whole: &'m Type,
    ) -> Result<(), Refusal> {
        let mut own = number;
        let mut of = whole;
        for _ in 0..MAX_LISTS {
            let Some((element, is_set)) = of.body.list() else {
                break;
            };
            let inner = self.element_number(part, element)?;
            let words = vec![in self.alloc();
                Kind::List.number() as usize,
                usize::from(is_set),
                inner,
            ]?;
            let form = Form::of(self.alloc(), words);
            self.set_form(own, form);
            own = inner;
            of = element;
        }
        Ok(())
    }

    /// The number of the type of a part.
    fn type_number(&mut self, part: &Part<'m>, whole: &'m Type) -> Result<usize, Refusal> {
        if whole.body.list().is_none() {
            return self.inner_number(part);
        }
        let number = self.push_entry(plain_name(&whole.body))?;
        self.set_lists(number, part, whole)?;
        Ok(number)
    }

    /// A component or an alternative of that name.
    fn field_of(&mut self, part: &Part<'m>, row: Row<'m>, name: &str) -> Result<Field, Refusal> {
        Ok(Field {
            name: self.name_number(name)?,
            type_number: self.type_number(part, row.of)?,
            may_be_absent: may_be_absent(row),
            default_value: default_text(self.scope, row)?,
            position: row.position,
            tag: row.tag,
        })
    }

    /// The components or alternatives of a definition, in the order of its text: a name that one before has has a `_` behind it.
    fn fields_of(&mut self, parts: &[Part<'m>]) -> Result<Vec<Field>, Refusal> {
        let alloc = self.alloc();
        let mut names = BTreeMap::new(alloc);
        let mut fields = Vec::new(alloc);
        for part in parts.iter() {
            if let Some(row) = part.row {
                let name = free_name(alloc, &mut names, part.rust_name.as_str())?;
                fields.push(self.field_of(part, row, name.as_str())?)?;
            }
        }
        Ok(fields)
    }

    /// The component that a group of extension additions is: a SEQUENCE that may be absent.
    fn group_field(&mut self, group: usize, fields: &[Field]) -> Result<Field, Refusal> {
        let type_number = self.push_entry(GROUP)?;
        let form = sequence_form(self.alloc(), false, fields.len(), fields)?;
        self.set_form(type_number, form);
        let name = format!(in self.alloc(); "[[{group}]]")?;
        Ok(Field {
            name: self.name_number(name.as_str())?,
            type_number,
            may_be_absent: true,
            default_value: None,
            position: Position::Addition,
            tag: None,
        })
    }

    /// Puts additions behind the components of the root, each group as one.
    fn push_additions(
        &mut self,
        fields: &mut Vec<Field>,
        additions: Vec<Addition>,
    ) -> Result<(), Refusal> {
        for addition in additions {
            let mut own = addition.fields;
            match addition.group {
                Some(number) => fields.push(self.group_field(number, own.as_slice())?)?,
                None => fields.append(&mut own)?,
            }
        }
        Ok(())
    }

    /// The form of a SEQUENCE or a SET.
    fn sequence_of(&mut self, definition: &Definition<'m>) -> Result<Form, Refusal> {
        let is_set = matches!(definition.of.body, Body::Set(_));
        let written = self.fields_of(definition.parts.as_slice())?;
        let components = ordered(self.alloc(), written, is_set)?;
        let mut fields: Vec<Field> = components.roots.into_values().collect(self.alloc())?;
        let roots = fields.len();
        self.push_additions(&mut fields, components.additions)?;
        let is_extensible = definition.is_extensible;
        Ok(sequence_form(self.alloc(), is_extensible, roots, fields.as_slice())?)
    }

    /// The form of a CHOICE.
    fn choice_of(&mut self, definition: &Definition<'m>) -> Result<Form, Refusal> {
        let fields = self.fields_of(definition.parts.as_slice())?;
        let is_extensible = definition.is_extensible;
        Ok(choice_form(self.alloc(), is_extensible, fields.as_slice())?)
    }

    /// Gives a definition its form, or that of the type whose name it is.
    fn set_named(
        &mut self,
        number: usize,
        part: &Part<'m>,
        whole: &'m Type,
    ) -> Result<(), Refusal> {
        if whole.body.list().is_some() {
            return self.set_lists(number, part, whole);
        }
        match self.scope_of(part) {
            Some(target) => {
                let end = behind_names(self.all, target);
                let same = self.numbers.get(end).copied();
                if let Some(entry) = self.table.entries.get_mut(number) {
                    entry.same = same;
                }
            }
            None => {
                let form = leaf_form(self.scope, part.inner)?;
                self.set_form(number, form);
            }
        }
        Ok(())
    }

    /// The form of a type with components, alternatives or values; of another nothing.
    fn own_form(&mut self, definition: &Definition<'m>) -> Result<Option<Form>, Refusal> {
        match &definition.of.body {
            Body::Sequence(_) | Body::Set(_) => Ok(Some(self.sequence_of(definition)?)),
            Body::Choice(_) => Ok(Some(self.choice_of(definition)?)),
            Body::Enumerated(items, mark) => {
                let root = mark.unwrap_or(items.len());
                Ok(Some(enumerated_form(self.scope, items.as_slice(), root)?))
            }
            Body::Simple(_) | Body::Integer(_) | Body::BitString(_) => Ok(None),
            Body::SequenceOf(_) | Body::SetOf(_) | Body::Reference(_) => Ok(None),
        }
    }

    /// Gives the definition at a place its form.
    pub fn describe(&mut self, place: usize) -> Result<(), Refusal> {
        let (Some(definition), Some(number)) = (self.all.get(place), self.numbers.get(place)) else {
            return Ok(());
        };
        let number = *number;
        match definition.parts.first() {
            Some(part) if part.row.is_none() => self.set_named(number, part, definition.of),
            _ => {
                if let Some(form) = self.own_form(definition)? {
                    self.set_form(number, form);
                }
                Ok(())
            }
        }
    }
}

//! The forms of types with parts, by their components or alternatives.
ghost use Rattle.std.specs.Prelude.{◌≡◌, ◌++◌, IfOk, OnOk, map, string_bytes};
ghost use Rattle.oergen_tables.specs.Forms.{alternatives, choice_words, defaults_from, sequence_words};

use crate::forms::{DefaultValue, Form};
use asn1_core::Tag;
use oer_walk::Kind;
use oergen_layouts::rows::Position;
use std::alloc::{AllocError, Global};
use std::collections::BTreeMap;

/// A component or an alternative: the numbers of its name and of its type, and of a component whether it may be absent, and its default
/// in JSON.
#[derive(Drop)]
pub struct Field {
    pub name: usize,
    pub type_number: usize,
    pub may_be_absent: bool,
    pub default_value: Option<String>,
    pub position: Position,
    pub tag: Option<Tag>,
}

/// An addition of a SEQUENCE or a SET: one component, or those of the group of that number.
#[derive(Drop)]
pub struct Addition {
    pub group: Option<usize>,
    pub fields: Vec<Field>,
}

/// The components of a SEQUENCE or a SET: those of the root in the order of their octets, and the additions.
#[derive(Drop)]
pub struct Components {
    pub roots: BTreeMap<(Option<Tag>, usize), Field>,
    pub additions: Vec<Addition>,
}

/// Puts a component behind others: to the last addition, where both are of one group, else as an addition of its own.
fn push_addition(
    alloc: Global,
    additions: &mut Vec<Addition>,
    group: Option<usize>,
    field: Field,
) -> Result<(), AllocError> {
    let last = additions.last().and_then(|last| last.group);
    if group.is_none() || group != last {
        let fields = Vec::new(alloc);
        additions.push(Addition { group, fields })?;
    }
    if let Some(addition) = additions.last_mut() {
        addition.fields.push(field)?;
    }
    Ok(())
}

/// Components in the order of their octets: the root first, that of a SET in the order of its tags (X.696, 18).
pub fn ordered(alloc: Global, fields: Vec<Field>, is_set: bool) -> Result<Components, AllocError> {
    let mut roots = BTreeMap::new(alloc);
    let mut additions = Vec::new(alloc);
    for (at, field) in fields.into_iter().enumerate() {
        match field.position {
            Position::Root => {
                let tag = if is_set { field.tag } else { None };
                roots.insert((tag, at), field)?;
            }
            Position::Addition => push_addition(alloc, &mut additions, None, field)?,
            Position::Group(number) => push_addition(alloc, &mut additions, Some(number), field)?,
        }
    }
    Ok(Components { roots, additions })
}

/// The form of a SEQUENCE or a SET of these components, so many of them in the root.
pub fn sequence_form(
    alloc: Global,
    is_extensible: bool,
    roots: usize,
    fields: &[Field],
) -> Result<Form, AllocError>
    ensures words { IfOk result (λ form. form.words.items ≡ sequence_words is_extensible roots fields.now) }
    ensures defaults { IfOk result (λ form. map (λ one. (one.component, string_bytes one.value)) form.defaults.items ≡ defaults_from 0 fields.now) }
{
    let additions = fields.len().saturating_sub(roots);
    let words = vec![in alloc;
        Kind::Sequence.number() as usize,
        usize::from(is_extensible),
        roots,
        additions,
    ]?;
    let mut form = Form::of(alloc, words);
    for (component, field) in fields.iter().enumerate() {
        form.words.push(field.name)?;
        form.words.push(usize::from(field.may_be_absent))?;
        form.words.push(field.type_number)?;
        if let Some(value) = &field.default_value {
            let value = value.clone()?;
            form.defaults.push(DefaultValue { component, value })?;
        }
    }
    Ok(form)
}

/// Puts the words of the alternatives that are of the root, or of the others.
fn push_alternatives(
    words: &mut Vec<usize>,
    fields: &[Field],
    is_root: bool,
) -> Result<(), AllocError>
    ensures { OnOk result (words.new.items ≡ words.old.items ++ alternatives is_root fields.now) }
{
    for field in fields.iter() {
        if (field.position == Position::Root) == is_root {
            let tag = field.tag.unwrap_or(Tag::EOC);
            words.push(field.name)?;
            words.push(usize::from(tag.class.number()))?;
            words.push(tag.value as usize)?;
            words.push(field.type_number)?;
        }
    }
    Ok(())
}

/// The form of a CHOICE of these alternatives.
pub fn choice_form(alloc: Global, is_extensible: bool, fields: &[Field]) -> Result<Form, AllocError>
    ensures { IfOk result (λ form. form.words.items ≡ choice_words is_extensible fields.now) }
{
    let roots = fields
        .iter()
        .filter(|field| field.position == Position::Root)
        .count();
    let additions = fields.len().saturating_sub(roots);
    let mut words = vec![in alloc;
        Kind::Choice.number() as usize,
        usize::from(is_extensible),
        roots,
        additions,
    ]?;
    push_alternatives(&mut words, fields, true)?;
    push_alternatives(&mut words, fields, false)?;
    Ok(Form::of(alloc, words))
}

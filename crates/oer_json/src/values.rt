//! Values of every type: lists, sequences, sets and choices, and what is in them (X.696, 16 to 20).
ghost use Rattle.oer_json.specs.Readings.{Puts, reading_of};

use crate::components::{
    Member, UNKNOWN, alternative_of, check_members, has_any_of, is_extensible, member, members_of,
};
use crate::hexadecimal::hexadecimal;
use crate::json::Json;
use crate::leaves::put_leaf;
use crate::refusals::{Fault, Misfit, Step};
use crate::tables::{Part, Tables};
use asn1_core::{Class, Tag};
use oer_leaf_write::{write_bitmap, write_content, write_preamble, write_quantity, write_tag};
use oer_walk::Kind;
use std::alloc::Global;

/// The table that values are written by.
#[derive(Clone, Copy)]
pub struct Source<'t> {
    pub alloc: Global,
    pub tables: &'t Tables,
}

/// What parts come to: which are there, and their octets.
#[derive(Drop)]
struct Written {
    bits: Vec<bool>,
    octets: Vec<u8>,
}

impl Written {
    fn new(alloc: Global) -> Written {
        Written {
            bits: Vec::new(alloc),
            octets: Vec::new(alloc),
        }
    }

    /// An addition, behind its length if it is there.
    fn push_addition(&mut self, addition: Option<Vec<u8>>) -> Result<(), Fault> {
        self.bits.push(addition.is_some())?;
        match addition {
            Some(octets) => Ok(write_content(octets.as_slice(), &mut self.octets)?),
            None => Ok(()),
        }
    }

    /// Whether none is there.
    fn is_empty(&self) -> bool {
        !self.bits.iter().any(|bit| *bit)
    }
}

/// Appends a value of the type with that number. Each list, sequence and choice takes a level.
#[cycle(values)]
pub fn put_value(
    source: Source<'_>,
    type_number: u32,
    levels: u32,
    json: &Json,
    path: &mut Vec<Step>,
    out: &mut Vec<u8>,
) -> Result<(), Fault>
    ensures { Puts (reading_of source.entry.tables.now type_number json.now) result out.old.items out.new.items }
{
    let Some(kind) = source.tables.kind_of(type_number) else {
        return Err(Fault::Misfit(Misfit::UnknownType));
    };
    if !kind.has_parts() {
        return put_leaf(source.alloc, source.tables, type_number, kind, json, out);
    }
    if levels == 0 {
        return Err(Fault::Misfit(Misfit::TooDeep));
    }
    match kind {
        Kind::List => put_list(source, type_number, levels - 1, json, path, out),
        Kind::Sequence => put_sequence(
            source,
            type_number,
            levels - 1,
            members_of(json)?,
            path,
            out,
        ),
        _ => put_choice(source, type_number, levels - 1, json, path, out),
    }
}

/// The octets of a part that stands at that step.
#[cycle(values)]
fn octets_at(
    source: Source<'_>,
    step: Step,
    type_number: u32,
    levels: u32,
    json: &Json,
    path: &mut Vec<Step>,
) -> Result<Vec<u8>, Fault> {
    let mut octets = Vec::new(source.alloc);
    path.push(step)?;
    put_value(source, type_number, levels, json, path, &mut octets)?;
    let _step = path.pop();
    Ok(octets)
}

/// The octets of each element.
#[cycle(values)]
fn elements_of(
    source: Source<'_>,
    element: u32,
    levels: u32,
    items: &[Json],
    path: &mut Vec<Step>,
) -> Result<Vec<Vec<u8>>, Fault> {
    let mut elements = Vec::new(source.alloc);
    for (index, item) in items.iter().enumerate() {
        elements.push(octets_at(source, Step::Index(index), element, levels, item, path)?)?;
    }
    Ok(elements)
}

/// Appends each element's octets.
fn put_elements(elements: &[Vec<u8>], out: &mut Vec<u8>) -> Result<(), Fault> {
    for element in elements.iter() {
        out.extend_from_slice(element.as_slice())?;
    }
    Ok(())
}

/// Appends a list: a quantity, and the elements, of a SET OF in the order of their octets.
#[cycle(values)]
fn put_list(
    source: Source<'_>,
    type_number: u32,
    levels: u32,
    json: &Json,
    path: &mut Vec<Step>,
    out: &mut Vec<u8>,
) -> Result<(), Fault> {
    let Json::List(items) = json else {
        return Err(Fault::Misfit(Misfit::WrongSort("a list")));
    };
    let element = source.tables.word_of(type_number, 1);
    let mut elements = elements_of(source, element, levels, items.as_slice(), path)?;
    if source.tables.word_of(type_number, 0) == 1 {
        elements.sort()?;
    }
    write_quantity(elements.len(), out)?;
    put_elements(elements.as_slice(), out)
}

/// The class with that number in a table.
fn class_of(number: u32) -> Class {
    match number {
        0 => Class::Universal,
        1 => Class::Application,
        2 => Class::Context,
        _ => Class::Private,
    }
}

/// Appends a choice: a tag, and the alternative, past the root in an open type.
#[cycle(values)]
fn put_choice(
    source: Source<'_>,
    type_number: u32,
    levels: u32,
    json: &Json,
    path: &mut Vec<Step>,
    out: &mut Vec<u8>,
) -> Result<(), Fault> {
    let [(name, value)] = members_of(json)? else {
        return Err(Fault::Misfit(Misfit::WrongSort("an object of one member")));
    };
    let (part, is_open) = alternative_of(source.alloc, source.tables, type_number, name.as_str())?;
    let step = Step::Name(part.name);
    let octets = octets_at(source, step, part.type_number, levels, value, path)?;
    write_tag(
        Tag {
            class: class_of(part.class),
            value: part.number,
        },
        out,
    )?;
    if is_open {
        return Ok(write_content(octets.as_slice(), out)?);
    }
    Ok(out.extend_from_slice(octets.as_slice())?)
}

/// Whether octets are those of the value that a component has where it is absent.
#[cycle(values)]
fn is_default(
    source: Source<'_>,
    type_number: u32,
    index: usize,
    part: Part,
    levels: u32,
    octets: &[u8],
    path: &mut Vec<Step>,
) -> Result<bool, Fault> {
    let Some(value) = source.tables.default_of(type_number, index) else {
        return Ok(false);
    };
    let step = Step::Name(part.name);
    let default = octets_at(source, step, part.type_number, levels, value, path)?;
    Ok(default.as_slice() == octets)
}

/// The octets of a component; nothing where it is left out. Refused where it has to be there.
#[cycle(values)]
fn component_of(
    source: Source<'_>,
    type_number: u32,
    index: usize,
    levels: u32,
    members: &[Member],
    path: &mut Vec<Step>,
) -> Result<Option<Vec<u8>>, Fault> {
    let part = source.tables.component(type_number, index);
    let step = Step::Name(part.name);
    let name = source.tables.name(part.name).unwrap_or(UNKNOWN);
    let Some(value) = member(members, name) else {
        if part.may_be_absent {
            return Ok(None);
        }
        path.push(step)?;
        return Err(Fault::Misfit(Misfit::MissingComponent));
    };
    let octets = octets_at(source, step, part.type_number, levels, value, path)?;
    if is_default(
        source,
        type_number,
        index,
        part,
        levels,
        octets.as_slice(),
        path,
    )? {
        return Ok(None);
    }
    Ok(Some(octets))
}

/// The components of a root, and the presence bits of those that may be absent.
#[cycle(values)]
fn roots_of(
    source: Source<'_>,
    type_number: u32,
    levels: u32,
    members: &[Member],
    path: &mut Vec<Step>,
) -> Result<Written, Fault> {
    let mut written = Written::new(source.alloc);
    for index in 0..source.tables.count_of(type_number, 1) {
        let component = component_of(source, type_number, index, levels, members, path)?;
        if source.tables.component(type_number, index).may_be_absent {
            written.bits.push(component.is_some())?;
        }
        if let Some(octets) = component {
            written.octets.extend_from_slice(octets.as_slice())?;
        }
    }
    Ok(written)
}

/// The octets of a group of additions, which is a sequence; nothing where all its components are left out.
#[cycle(values)]
fn group_of(
    source: Source<'_>,
    group: u32,
    levels: u32,
    members: &[Member],
    path: &mut Vec<Step>,
) -> Result<Option<Vec<u8>>, Fault> {
    if !has_any_of(source.tables, group, members) {
        return Ok(None);
    }
    let written = roots_of(source, group, levels, members, path)?;
    if written.is_empty() && written.bits.len() == source.tables.count_of(group, 1) {
        return Ok(None);
    }
    let mut octets = Vec::new(source.alloc);
    write_preamble(written.bits.as_slice(), &mut octets)?;
    octets.extend_from_slice(written.octets.as_slice())?;
    Ok(Some(octets))
}

/// The octets of an addition of the table; nothing where it is left out.
#[cycle(values)]
fn addition_of(
    source: Source<'_>,
    type_number: u32,
    index: usize,
    levels: u32,
    members: &[Member],
    path: &mut Vec<Step>,
) -> Result<Option<Vec<u8>>, Fault> {
    let group = source.tables.component(type_number, index).type_number;
    if source.tables.is_group(group) {
        group_of(source, group, levels, members, path)
    } else {
        component_of(source, type_number, index, levels, members, path)
    }
}

/// Appends the additions that the table doesn't have, each right behind the one before it: octets of open types.
fn push_unknown(alloc: Global, members: &[Member], written: &mut Written) -> Result<(), Fault> {
    for it in members.iter() {
        if it.0.as_str() != UNKNOWN {
            continue;
        }
        written.push_addition(Some(hexadecimal(alloc, &it.1)?))?;
    }
    Ok(())
}

/// The additions, and the bits of those that the type has.
#[cycle(values)]
fn additions_of(
    source: Source<'_>,
    type_number: u32,
    levels: u32,
    members: &[Member],
    path: &mut Vec<Step>,
) -> Result<Written, Fault> {
    let mut written = Written::new(source.alloc);
    let roots = source.tables.count_of(type_number, 1);
    for index in 0..source.tables.count_of(type_number, 2) {
        let at = roots.saturating_add(index);
        let addition = addition_of(source, type_number, at, levels, members, path)?;
        written.push_addition(addition)?;
    }
    push_unknown(source.alloc, members, &mut written)?;
    Ok(written)
}

/// Appends a sequence or set: a preamble, the components of the root, and where there are some, a bitmap and the additions.
#[cycle(values)]
fn put_sequence(
    source: Source<'_>,
    type_number: u32,
    levels: u32,
    members: &[Member],
    path: &mut Vec<Step>,
    out: &mut Vec<u8>,
) -> Result<(), Fault> {
    check_members(source.alloc, source.tables, type_number, members)?;
    let roots = roots_of(source, type_number, levels, members, path)?;
    let additions = additions_of(source, type_number, levels, members, path)?;
    let mut preamble = Vec::new(source.alloc);
    if is_extensible(source.tables, type_number) {
        preamble.push(!additions.is_empty())?;
    }
    preamble.extend_from_slice(roots.bits.as_slice())?;
    write_preamble(preamble.as_slice(), out)?;
    out.extend_from_slice(roots.octets.as_slice())?;
    if !additions.is_empty() {
        write_bitmap(additions.bits.as_slice(), out)?;
        out.extend_from_slice(additions.octets.as_slice())?;
    }
    Ok(())
}

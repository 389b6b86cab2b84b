//! The members of an object, beside the components of a sequence or set (X.697).

use crate::json::Json;
use crate::refusals::{Fault, Misfit};
use crate::tables::{Part, Tables};
use std::alloc::Global;

/// What stands for an addition that the table doesn't have.
pub const UNKNOWN: &str = "?";

/// A member of an object.
pub type Member = (String, Json);

/// The value of the member of that name.
pub fn member<'j>(members: &'j [Member], name: &str) -> Option<&'j Json> {
    for it in members.iter() {
        if it.0.as_str() == name {
            return Some(&it.1);
        }
    }
    None
}

/// Whether a part has that name.
pub fn is_named(tables: &Tables, part: Part, name: &str) -> bool {
    tables.name(part.name) == Some(name)
}

/// How many components a sequence or set has.
pub fn count_of(tables: &Tables, type_number: u32) -> usize {
    tables
        .count_of(type_number, 1)
        .saturating_add(tables.count_of(type_number, 2))
}

/// Whether a component of a group of additions has that name.
fn group_has(tables: &Tables, type_number: u32, name: &str) -> bool {
    for index in 0..count_of(tables, type_number) {
        if is_named(tables, tables.component(type_number, index), name) {
            return true;
        }
    }
    false
}

/// Whether a component of a sequence or set, or of a group of its additions, has that name.
pub fn has_component(tables: &Tables, type_number: u32, name: &str) -> bool {
    for index in 0..count_of(tables, type_number) {
        let part = tables.component(type_number, index);
        let is_group = tables.is_group(part.type_number);
        if is_group && group_has(tables, part.type_number, name) {
            return true;
        }
        if !is_group && is_named(tables, part, name) {
            return true;
        }
    }
    false
}

/// Whether any member is a component of a group.
pub fn has_any_of(tables: &Tables, group: u32, members: &[Member]) -> bool {
    for it in members.iter() {
        if group_has(tables, group, it.0.as_str()) {
            return true;
        }
    }
    false
}

/// Whether there may be additions that the table doesn't have.
pub fn is_extensible(tables: &Tables, type_number: u32) -> bool {
    tables.word_of(type_number, 0) == 1
}

fn refused(alloc: Global, misfit: Misfit, name: &str) -> Fault {
    match String::from_str(alloc, name) {
        Ok(name) => Fault::Member(misfit, name),
        Err(_) => Fault::OutOfMemory,
    }
}

/// Refused where a member is no component, or stands there twice.
pub fn check_members(
    alloc: Global,
    tables: &Tables,
    type_number: u32,
    members: &[Member],
) -> Result<(), Fault> {
    for (index, it) in members.iter().enumerate() {
        let name = it.0.as_str();
        if name == UNKNOWN && is_extensible(tables, type_number) {
            continue;
        }
        if !has_component(tables, type_number, name) {
            return Err(refused(alloc, Misfit::UnknownMember, name));
        }
        let before = members.get(..index).unwrap_or(&[]);
        if member(before, name).is_some() {
            return Err(refused(alloc, Misfit::DuplicateMember, name));
        }
    }
    Ok(())
}

/// The members of an object.
pub fn members_of(json: &Json) -> Result<&[Member], Fault> {
    match json {
        Json::Members(members) => Ok(members.as_slice()),
        _ => Err(Fault::Misfit(Misfit::WrongSort("an object"))),
    }
}

/// The alternative of a choice that an object names, and whether it stands past the root.
pub fn alternative_of(
    alloc: Global,
    tables: &Tables,
    type_number: u32,
    name: &str,
) -> Result<(Part, bool), Fault> {
    let roots = tables.count_of(type_number, 1);
    for index in 0..count_of(tables, type_number) {
        let part = tables.alternative(type_number, index);
        if is_named(tables, part, name) {
            return Ok((part, index >= roots));
        }
    }
    Err(refused(alloc, Misfit::UnknownMember, name))
}

//! The Rust names of components and alternatives: where two of a type have one, a `_` stands behind the later, as no name of ASN.1 has it.

use crate::cells::variant_name;
use oergen_layouts::definitions::{Definition, Part, free_name};
use oergen_layouts::rows::Position;
use oergen_layouts::scope::Scope;
use oergen_parse::lexer::Kind;
use oergen_parse::refusal::Refusal;
use std::alloc::{AllocError, Global};
use std::collections::{BTreeMap, BTreeSet};

/// Rust names, each once.
type Names = BTreeMap<String, usize>;

/// The fields of the groups among some components.
fn group_fields(alloc: Global, parts: &[Part<'_>]) -> Result<Names, AllocError> {
    let mut names = BTreeMap::new(alloc);
    for part in parts.iter() {
        if let Some(Position::Group(number)) = part.row.map(|row| row.position) {
            names.insert(format!(in alloc; "group_{number}")?, number)?;
        }
    }
    Ok(names)
}

/// Puts `_` behind the names of the components, or the alternatives, that one before has, or a group; of those in a group behind the names
/// that one in that group has.
fn part_names(alloc: Global, parts: &mut [Part<'_>]) -> Result<(), AllocError> {
    let mut taken = group_fields(alloc, parts)?;
    let mut inside = (0usize, BTreeMap::new(alloc));
    for part in parts.iter_mut() {
        let names = match part.row.map(|row| row.position) {
            Some(Position::Root | Position::Addition) => &mut taken,
            Some(Position::Group(number)) => {
                if number != inside.0 {
                    inside = (number, BTreeMap::new(alloc));
                }
                &mut inside.1
            }
            None => continue,
        };
        part.rust_name = free_name(alloc, names, part.rust_name.as_str())?;
    }
    Ok(())
}

/// Puts `_` behind the names of components that are another's of their type.
pub fn free_parts(alloc: Global, all: &mut Vec<Definition<'_>>) -> Result<(), AllocError> {
    for definition in all.iter_mut() {
        part_names(alloc, definition.parts.as_mut_slice())?;
    }
    Ok(())
}

/// Refuses two components, or two alternatives, of one identifier (X.680, clauses 25 and 29): not those without one (X.208).
pub fn require_identifiers<'m>(scope: Scope<'m, '_>, parts: &[Part<'m>]) -> Result<(), Refusal> {
    const READS: &str = "an identifier that no other component or alternative has";
    let mut seen = BTreeSet::new(scope.alloc);
    for part in parts.iter() {
        if let Some(row) = part.row {
            let (name, text) = (part.name.as_str(), scope.text(row.name));
            let is_new = seen.insert(format!(in scope.alloc; "{name} {text}")?)?;
            if !is_new && scope.token(row.name).kind == Kind::Word {
                return Err(scope.refused(row.name, READS));
            }
        }
    }
    Ok(())
}

/// The names of the variants of a CHOICE, in the order of its parts.
pub fn variant_names(alloc: Global, parts: &[Part<'_>]) -> Result<Vec<String>, AllocError> {
    let mut taken = BTreeMap::new(alloc);
    let mut names = Vec::new(alloc);
    for part in parts.iter() {
        let wanted = variant_name(alloc, part.name.as_str(), "Self First Rest").end()?;
        names.push(free_name(alloc, &mut taken, wanted.as_str())?)?;
    }
    Ok(names)
}

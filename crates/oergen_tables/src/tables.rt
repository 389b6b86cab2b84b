//! The table of modules' types, by their layouts.

use crate::builder::Builder;
use oergen_layouts::definitions::Definition;
use oergen_layouts::expansion::tokens_of;
use oergen_layouts::listing::require_listed;
use oergen_layouts::order::order_of_use;
use oergen_layouts::scope::Scope;
use oergen_layouts::untagged::all_definitions;
use oergen_parse::lexer::Token;
use oergen_parse::modules::read_tree;
use oergen_parse::refusal::Refusal;
use std::alloc::{AllocError, Global};

/// The lines of the table of the modules in the files' texts: the types that modules name come first, in order of use. Refused where the
/// list of their layouts is, with the same words; or for a size that no word of a table is.
pub fn table(alloc: Global, texts: &[&str]) -> Result<String, Refusal> {
    let tokens = tokens_of(alloc, texts)?;
    table_of_tokens(alloc, tokens.as_slice())
}

/// The table of the modules in the files' tokens.
fn table_of_tokens(alloc: Global, tokens: &[Token<'_>]) -> Result<String, Refusal> {
    let tree = read_tree(alloc, tokens, false)?;
    table_of_scope(Scope {
        alloc,
        modules: tree.modules(),
        tokens,
    })
}

/// The table of modules.
fn table_of_scope(scope: Scope<'_, '_>) -> Result<String, Refusal> {
    let all = all_definitions(scope, false)?;
    let order = order_of_use(scope.alloc, all.as_slice())?;
    require_all_listed(scope, all.as_slice(), order.as_slice())?;
    let mut builder = Builder::new(scope, all.as_slice(), order.as_slice())?;
    for place in order.iter() {
        builder.describe(*place)?;
    }
    Ok(builder.end().lines(scope.alloc)?)
}

/// Refuses the first definition that the list of layouts refuses.
fn require_all_listed<'m>(
    scope: Scope<'m, '_>,
    all: &[Definition<'m>],
    order: &[usize],
) -> Result<(), Refusal> {
    for place in order.iter() {
        if let Some(definition) = all.get(*place) {
            require_listed(scope, all, definition)?;
        }
    }
    Ok(())
}

/// A refusal as a line says it: with the name of its file, by these names in the order of the texts.
pub fn refusal_line<'n>(
    alloc: Global,
    program: &'n str,
    names: &[&'n str],
    refusal: &Refusal,
) -> Result<String, AllocError> {
    let file = match refusal {
        Refusal::At { place, .. } => names.get(place.file).copied().unwrap_or(""),
        Refusal::OutOfMemory => program,
    };
    format!(in alloc; "{file}:{refusal}")
}

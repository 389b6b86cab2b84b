//! Reads modules (X.680, clauses 13 and 16).

use crate::ast::{Import, Module, Tagging, TypeAssignment, Unread, ValueAssignment};
use crate::lexer::{Kind, Token, TokenId};
use crate::reader::Reader;
use crate::refusal::Refusal;
use crate::skips::{defines_macro, skip_assignment};
use crate::types::read_whole_type;
use crate::values::{read_any_value, read_parts};
use crate::words::is_reserved;
use std::alloc::Global;

/// What stands where an assignment begins.
const NAME: &str = "a type's or a value's name, or END";

/// What stands there in place of a word that is no name.
const OWN_NAME: &str = "a type's or a value's name that X.680 doesn't keep for itself, or END";

/// Modules that were read. It is let go by a function of its own: else each crate that holds one proves anew how all types of the
/// tree are let go.
pub struct Tree {
    modules: Vec<Module>,
}

impl Tree {
    /// The modules.
    pub fn modules(&self) -> &[Module] {
        self.modules.as_slice()
    }
}

impl Drop for Tree {
    fn drop(self) {
        let Tree { modules } = self;
        drop(modules);
    }
}

/// The modules in the tokens of files, one file behind another, each with its end. Refused at the first token that can't be read; with
/// `leaves_out` an assignment that has such a token is left out, and its module says why.
pub fn read_tree(alloc: Global, tokens: &[Token<'_>], leaves_out: bool) -> Result<Tree, Refusal> {
    let modules = read_modules(alloc, tokens, leaves_out)?;
    Ok(Tree { modules })
}

/// The modules in the tokens of files.
fn read_modules(
    alloc: Global,
    tokens: &[Token<'_>],
    leaves_out: bool,
) -> Result<Vec<Module>, Refusal> {
    let mut all = Vec::new(alloc);
    let Some(end) = tokens.last() else {
        return Ok(all);
    };
    let mut reader = Reader::new(alloc, tokens, *end);
    for _ in 0..tokens.len() {
        if reader.peek().kind == Kind::End {
            let _ = reader.next();
        } else if reader.left() != 0 {
            all.push(read_module(&mut reader, leaves_out)?)?;
        }
    }
    Ok(all)
}

/// What stands between the imports of a module and its end.
#[derive(Drop)]
struct Assignments {
    types: Vec<TypeAssignment>,
    values: Vec<ValueAssignment>,
    unread: Vec<Unread>,
}

/// A module.
fn read_module(reader: &mut Reader<'_>, leaves_out: bool) -> Result<Module, Refusal> {
    let (name, tagging) = read_header(reader)?;
    let exports = read_exports(reader)?;
    let imports = read_imports(reader)?;
    let first = reader.id();
    let start = *reader;
    let Assignments {
        types,
        values,
        unread,
    } = read_assignments(reader, imports.as_slice(), leaves_out)?;
    let parts = read_parts(start, start.left().saturating_sub(reader.left()))?;
    Ok(Module {
        name,
        tagging,
        exports,
        imports,
        first,
        types,
        values,
        parts,
        unread,
    })
}

/// A module's name and how its types are tagged, up to `BEGIN`. The extension marks that are implied stand in its types.
fn read_header(reader: &mut Reader<'_>) -> Result<(TokenId, Tagging), Refusal> {
    let name = reader.takes(Kind::Name, "a module's name")?;
    skip_identifier(reader)?;
    reader.expects("DEFINITIONS")?;
    let tagging = read_tagging(reader)?;
    if reader.eats("EXTENSIBILITY") {
        reader.expects("IMPLIED")?;
    }
    reader.expects("::=")?;
    reader.expects("BEGIN")?;
    Ok((name, tagging))
}

/// Passes over an object identifier between braces, and an international one between quotes.
fn skip_identifier(reader: &mut Reader<'_>) -> Result<(), Refusal> {
    if reader.is("{") {
        reader.skip_brackets()?;
    }
    if reader.peek().kind == Kind::Text {
        let _ = reader.next();
    }
    Ok(())
}

/// How types are tagged: explicitly where nothing is said (X.680, 13.2).
fn read_tagging(reader: &mut Reader<'_>) -> Result<Tagging, Refusal> {
    let tagging = if reader.eats("AUTOMATIC") {
        Tagging::Automatic
    } else if reader.eats("IMPLICIT") {
        Tagging::Implicit
    } else if reader.eats("EXPLICIT") {
        Tagging::Explicit
    } else {
        return Ok(Tagging::Explicit);
    };
    reader.expects("TAGS")?;
    Ok(tagging)
}

/// Names with commas, each with `{}` behind it where it is of what has parameters.
fn read_names(reader: &mut Reader<'_>) -> Result<Vec<TokenId>, Refusal> {
    let mut names = Vec::new(reader.alloc);
    for _ in 0..reader.left() {
        names.push(read_name(reader)?)?;
        if reader.is("{") {
            reader.skip_brackets()?;
        }
        if !reader.eats(",") {
            break;
        }
    }
    Ok(names)
}

/// The name of a type or a value.
fn read_name(reader: &mut Reader<'_>) -> Result<TokenId, Refusal> {
    if reader.peek().kind == Kind::Word {
        return Ok(reader.next());
    }
    reader.takes(Kind::Name, "a type's or a value's name")
}

/// The names that others may import; none for all of them.
fn read_exports(reader: &mut Reader<'_>) -> Result<Option<Vec<TokenId>>, Refusal> {
    if !reader.eats("EXPORTS") {
        return Ok(None);
    }
    if reader.eats("ALL") {
        reader.expects(";")?;
        return Ok(None);
    }
    if reader.eats(";") {
        return Ok(Some(Vec::new(reader.alloc)));
    }
    let names = read_names(reader)?;
    reader.expects(";")?;
    Ok(Some(names))
}

/// The names that are imported, by module.
fn read_imports(reader: &mut Reader<'_>) -> Result<Vec<Import>, Refusal> {
    let mut all = Vec::new(reader.alloc);
    if !reader.eats("IMPORTS") {
        return Ok(all);
    }
    for _ in 0..reader.left() {
        if reader.eats(";") {
            return Ok(all);
        }
        all.push(read_import(reader)?)?;
    }
    Err(reader.refused("';'"))
}

/// Passes over the name of a value that stands for a module's object identifier: behind a name that is imported, what follows is another
/// (X.680, 13.1).
fn skip_defined(reader: &mut Reader<'_>) -> Result<(), Refusal> {
    let kind = reader.peek().kind;
    let behind = reader.second().text;
    if kind == Kind::Name && behind == "." {
        reader.skip(2);
        let _ = reader.takes(Kind::Word, "a value's name")?;
    } else if kind == Kind::Word && !matches!(behind, "," | "FROM" | "{") {
        let _ = reader.next();
    }
    Ok(())
}

/// Names, and the module that they are imported from; whether a later version of it will do is passed over (X.680, 13.16).
fn read_import(reader: &mut Reader<'_>) -> Result<Import, Refusal> {
    let names = read_names(reader)?;
    reader.expects("FROM")?;
    let from = reader.takes(Kind::Name, "a module's name")?;
    skip_identifier(reader)?;
    skip_defined(reader)?;
    if reader.eats("WITH") && !reader.eats("SUCCESSORS") {
        reader.expects("DESCENDANTS")?;
    }
    Ok(Import { names, from })
}

/// Types and values, up to `END`.
fn read_assignments(
    reader: &mut Reader<'_>,
    imports: &[Import],
    leaves_out: bool,
) -> Result<Assignments, Refusal> {
    let mut all = Assignments {
        types: Vec::new(reader.alloc),
        values: Vec::new(reader.alloc),
        unread: Vec::new(reader.alloc),
    };
    for _ in 0..reader.left() {
        if reader.eats("END") {
            return Ok(all);
        }
        let start = *reader;
        match push_assignment(reader, imports, &mut all) {
            Ok(()) => {}
            Err(why) if leaves_out && start.peek().kind != Kind::End => {
                *reader = start;
                all.unread.push(unread(reader, why)?)?;
            }
            Err(why) => return Err(why),
        }
    }
    Err(reader.refused("END"))
}

/// Passes over an assignment that isn't read, and answers its name and why that is so; not where memory was refused.
fn unread(reader: &mut Reader<'_>, why: Refusal) -> Result<Unread, Refusal> {
    if matches!(why, Refusal::OutOfMemory) {
        return Err(why);
    }
    let name = reader.id();
    skip_assignment(reader);
    Ok(Unread { name, why })
}

/// Whether a name stands among others.
fn has_name(reader: &Reader<'_>, names: &[TokenId], name: &str) -> bool {
    names.iter().any(|id| reader.text(*id) == name)
}

/// Whether a module imports a name.
fn is_imported(reader: &Reader<'_>, imports: &[Import], name: &str) -> bool {
    for import in imports.iter() {
        if has_name(reader, import.names.as_slice(), name) {
            return true;
        }
    }
    false
}

/// Whether what stands behind a value's name can be a macro's name (X.208), without small letters: it is defined, or imported.
fn uses_macro(reader: &Reader<'_>, imports: &[Import]) -> bool {
    let name = reader.second().text;
    let is_capital = !name.chars().any(|c| c.is_ascii_lowercase());
    reader.second().kind == Kind::Name
        && is_capital
        && !is_reserved(name)
        && (is_imported(reader, imports, name) || defines_macro(reader.tokens(), name))
}

/// Whether a refusal is of the text, and not of memory.
fn is_unread(why: &Refusal) -> bool {
    match why {
        Refusal::At { .. } => true,
        Refusal::OutOfMemory => false,
    }
}

/// Reads a value and puts it to the others. One of a macro that can't be read is passed over: no octet depends on it.
fn push_value(
    reader: &mut Reader<'_>,
    imports: &[Import],
    all: &mut Assignments,
) -> Result<(), Refusal> {
    let start = *reader;
    match read_value_assignment(reader) {
        Ok(value) => Ok(all.values.push(value)?),
        Err(why) => {
            if !is_unread(&why) || !uses_macro(&start, imports) {
                return Err(why);
            }
            *reader = start;
            skip_assignment(reader);
            Ok(())
        }
    }
}

/// Reads a type or a value, and puts it to the others. Macros are passed over.
fn push_assignment(
    reader: &mut Reader<'_>,
    imports: &[Import],
    all: &mut Assignments,
) -> Result<(), Refusal> {
    if reader.peek().kind == Kind::Word {
        push_value(reader, imports, all)
    } else if reader.second().text == "MACRO" {
        skip_assignment(reader);
        Ok(())
    } else {
        all.types.push(read_type_assignment(reader)?)?;
        Ok(())
    }
}

/// Refuses what can't stand behind an assignment.
fn require_next(reader: &Reader<'_>) -> Result<(), Refusal> {
    match reader.peek().kind {
        Kind::Name | Kind::Word | Kind::End => Ok(()),
        _ => Err(reader.refused(NAME)),
    }
}

/// Passes over the words of a macro in front of a type, up to its SYNTAX, as `TEXTUAL-CONVENTION STATUS current SYNTAX` (X.208; RFC 2579).
fn skip_macro_words(reader: &mut Reader<'_>) {
    let first = reader.peek();
    if first.kind != Kind::Name || is_reserved(first.text) || reader.second().kind != Kind::Name {
        return;
    }
    for (at, token) in reader.rest().iter().enumerate() {
        match token.text {
            "SYNTAX" => {
                reader.skip(at.saturating_add(1));
                return;
            }
            "::=" | "END" => return,
            _ => {}
        }
    }
}

/// `Name ::= Type`
fn read_type_assignment(reader: &mut Reader<'_>) -> Result<TypeAssignment, Refusal> {
    if is_reserved(reader.peek().text) {
        return Err(reader.refused(OWN_NAME));
    }
    let name = reader.takes(Kind::Name, NAME)?;
    reader.expects("::=")?;
    skip_macro_words(reader);
    let of = read_whole_type(reader)?;
    require_next(reader)?;
    Ok(TypeAssignment { name, of })
}

/// `name Type ::= Value`
fn read_value_assignment(reader: &mut Reader<'_>) -> Result<ValueAssignment, Refusal> {
    let name = reader.next();
    let of = read_whole_type(reader)?;
    reader.expects("::=")?;
    let value = read_any_value(reader)?;
    require_next(reader)?;
    Ok(ValueAssignment { name, of, value })
}

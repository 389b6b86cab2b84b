//! The files of the crates that the types are put into.
ghost use Rattle.std.specs.Prelude.{◌≡◌, ◌++◌, IfOk, OnOk, map};
ghost use Rattle.std.specs.List.{All, flat_map};
ghost use Rattle.oergen_print.specs.Sections.{IsSectionOf, listed_name, of_section, type_name};

use crate::constants::constants_of;
use crate::kept::{KEPT_LIBRARY, keep_unknown, use_kept};
use crate::knot_files::{has_knots, push_definition_names, push_proof_files};
use crate::knot_templates::KNOT_USES;
use crate::outputs::{File, push_placed};
use crate::part_names::free_parts;
use crate::printer::{LeftOut, Outcome, Printed, free_names, print_types};
use crate::sections::{Section, sections, types_of};
use crate::sizes::hold_large;
use crate::text::Text;
use crate::uses::{Homes, Paths, names_crate, path_lines, push_path, use_lines};
use oergen_layouts::cycles::find_cycles;
use oergen_layouts::expansion::{tokens_of, tokens_with_sets};
use oergen_layouts::scope::Scope;
use oergen_layouts::untagged::all_definitions;
use oergen_parse::ast::Module;
use oergen_parse::lexer::Token;
use oergen_parse::modules::read_tree;
use oergen_parse::refusal::Refusal;
use std::alloc::{AllocError, Global};
use std::collections::BTreeMap;

/// The library that each printed crate uses.
const LIBRARY: &str = "rasn_oer";

/// Those that a crate with types that contain themselves uses.
const KNOT_LIBRARIES: &str = "rasn_oer oer_write asn1_core";

/// The module of a crate's first file.
const FIRST_MODULE: &str = "types_01";

/// The first line of each file: by it a later print knows an earlier one.
pub const HEAD: &str = "//! Types of ASN.1 modules, as oergen printed them.\n";

/// A type by its name, the crate that has it, and whether values of it have octets: it is no set of objects.
#[derive(Drop)]
pub struct Named {
    pub library: String,
    pub name: String,
    pub is_coded: bool,
}

/// What is written: files, lines of `crates.txt`, and a line for each type that was left out; and the types that the files have.
#[derive(Drop)]
pub struct Output {
    pub files: Vec<File>,
    pub lines: String,
    pub types: Vec<Named>,
}

/// Puts the names of a type to the homes of others.
fn push_homes(homes: &mut Homes, one: &Printed, section: &Section) -> Result<(), AllocError> {
    for name in one.names.iter() {
        let home = (section.library.clone()?, section.module.clone()?);
        homes.insert(name.clone()?, home)?;
    }
    Ok(())
}

/// Puts the names of a section's types to the homes of others.
fn push_all_homes(
    homes: &mut Homes,
    types: &[Printed],
    section: &Section,
) -> Result<(), AllocError> {
    for one in types.iter() {
        push_homes(homes, one, section)?;
    }
    Ok(())
}

/// Where each name stands.
fn homes_of(alloc: Global, types: &[Printed], all: &[Section]) -> Result<Homes, AllocError> {
    let mut homes = BTreeMap::new(alloc);
    for section in all.iter() {
        push_all_homes(&mut homes, types_of(types, section), section)?;
    }
    Ok(homes)
}

/// The texts of types, one behind another.
fn body_of(alloc: Global, types: &[Printed]) -> Result<String, AllocError> {
    let mut body = Text::new(alloc);
    for one in types.iter() {
        body.push(one.text.as_str());
    }
    body.end()
}

/// Appends what stands behind a mark: the home of the name there, and the rest.
fn push_behind_mark(out: &mut Text, piece: &str, homes: &Homes) {
    let Some((name, rest)) = piece.split_once('@') else {
        out.push(piece);
        return;
    };
    if let Some((library, module)) = homes.get(name) {
        out.push_all(&[library.as_str(), ".specs.declared.", module.as_str()]);
    }
    out.push(rest);
}

/// Appends a text with the homes of names in the place of their marks: `@HOME:NAME@`.
fn push_with_homes(out: &mut Text, text: &str, homes: &Homes) {
    for (at, piece) in text.split("@HOME:").enumerate() {
        if at == 0 {
            out.push(piece);
        } else {
            push_behind_mark(out, piece, homes);
        }
    }
}

/// The text of a section's file: its types, behind the names that they take from elsewhere.
fn section_text(
    alloc: Global,
    types: &[Printed],
    homes: &Homes,
    section: &Section,
) -> Result<String, AllocError> {
    let library = section.library.as_str();
    let module = section.module.as_str();
    let has_knot = has_knots(types_of(types, section));
    let types = body_of(alloc, types_of(types, section))?;
    let uses = use_lines(alloc, types.as_str(), homes, library, module)?;
    let mut body = Text::new(alloc);
    push_placed(&mut body, types.as_str().trim_end(), library, module);
    let mut out = Text::of(alloc, &[HEAD, if has_knot { KNOT_USES } else { "" }, "\n"]);
    out.push_all(&[uses.as_str(), "\n"]);
    push_with_homes(&mut out, body.as_str(), homes);
    out.push("\n");
    body.end()?;
    out.end()
}

/// A section's file.
fn section_file(
    alloc: Global,
    types: &[Printed],
    homes: &Homes,
    section: &Section,
) -> Result<File, AllocError> {
    let text = section_text(alloc, types, homes, section)?;
    let path = [
        section.library.as_str(),
        "/src/",
        section.module.as_str(),
        ".rt",
    ];
    File::at(alloc, &path, text)
}

/// Puts the paths of a type's names to others.
fn push_paths(
    alloc: Global,
    one: &Printed,
    module: &str,
    paths: &mut Paths,
) -> Result<(), AllocError> {
    for name in one.names.iter() {
        push_path(alloc, paths, module, name.as_str())?;
    }
    Ok(())
}

/// Puts the paths of the names of a section's types to others.
fn push_all_paths(
    alloc: Global,
    types: &[Printed],
    section: &Section,
    paths: &mut Paths,
) -> Result<(), AllocError> {
    for one in types_of(types, section).iter() {
        push_paths(alloc, one, section.module.as_str(), paths)?;
    }
    Ok(())
}

/// Appends the modules of a crate.
fn push_modules(out: &mut Text, all: &[Section], library: &str) {
    for section in all.iter() {
        if section.library.as_str() == library {
            out.push_all(&["mod ", section.module.as_str(), ";\n"]);
        }
    }
}

/// The lines that hand on the names of a crate's types.
fn name_lines(
    alloc: Global,
    types: &[Printed],
    all: &[Section],
    library: &str,
) -> Result<String, AllocError> {
    let mut paths: Paths = BTreeMap::new(alloc);
    for section in all.iter() {
        if section.library.as_str() == library {
            push_all_paths(alloc, types, section, &mut paths)?;
        }
    }
    path_lines(alloc, "pub use", &paths)
}

/// A crate's root file.
fn root_file(
    alloc: Global,
    types: &[Printed],
    all: &[Section],
    library: &str,
    has_constants: bool,
) -> Result<File, AllocError> {
    let names = name_lines(alloc, types, all, library)?;
    let mut text = Text::of(alloc, &[HEAD, "#![tactic(auto)]\n\n"]);
    push_modules(&mut text, all, library);
    text.push(if has_constants {
        "pub mod values;\n"
    } else {
        ""
    });
    text.push_all(&["\n", names.as_str()]);
    File::at(alloc, &[library, "/src/lib.rt"], text.end()?)
}

/// The file that names a crate's definitions; nothing where it has none.
fn definitions_root(
    alloc: Global,
    types: &[Printed],
    all: &[Section],
    library: &str,
) -> Result<Option<File>, AllocError> {
    let mut text = Text::new(alloc);
    for section in all.iter() {
        if section.library.as_str() == library {
            push_definition_names(&mut text, types_of(types, section));
        }
    }
    let text = text.end()?;
    if text.is_empty() {
        return Ok(None);
    }
    Ok(Some(File::at(alloc, &[library, "/specs/Lib.antt"], text)?))
}

/// The file of constants.
fn constants_file(alloc: Global, library: &str, constants: &str) -> Result<File, AllocError> {
    let text = Text::of(alloc, &[HEAD, "\n", constants.trim_end(), "\n"]);
    File::at(alloc, &[library, "/src/values.rt"], text.end()?)
}

/// Puts the root files of a crate behind others.
fn push_root_files(
    alloc: Global,
    files: &mut Vec<File>,
    types: &[Printed],
    all: &[Section],
    library: &str,
    constants: &str,
) -> Result<(), AllocError> {
    let has_constants = !constants.is_empty();
    files.push(root_file(alloc, types, all, library, has_constants)?)?;
    if has_constants {
        files.push(constants_file(alloc, library, constants)?)?;
    }
    if let Some(root) = definitions_root(alloc, types, all, library)? {
        files.push(root)?;
    }
    Ok(())
}

/// The files of all crates; the first crate has the constants.
fn crate_files(
    alloc: Global,
    types: &[Printed],
    all: &[Section],
    constants: &str,
) -> Result<Vec<File>, AllocError> {
    let homes = homes_of(alloc, types, all)?;
    let mut files = Vec::new(alloc);
    let mut left = constants;
    for section in all.iter() {
        files.push(section_file(alloc, types, &homes, section)?)?;
        let place = (section.library.as_str(), section.module.as_str());
        push_proof_files(alloc, &mut files, types_of(types, section), place)?;
        if section.module.as_str() == FIRST_MODULE {
            push_root_files(
                alloc,
                &mut files,
                types,
                all,
                section.library.as_str(),
                left,
            )?;
            left = "";
        }
    }
    Ok(files)
}

/// Appends the libraries that a crate uses beside those that are printed.
fn push_libraries(out: &mut Text, types: &[Printed], all: &[Section], library: &str) {
    let needs_knots = all.iter().any(|section| section.library.as_str() == library
        && has_knots(types_of(types, section)));
    let needs_kept = all.iter().any(|section| section.library.as_str() == library
        && use_kept(types_of(types, section)));
    out.push(if needs_knots { KNOT_LIBRARIES } else { LIBRARY });
    if needs_kept {
        out.push_all(&[" ", KEPT_LIBRARY]);
    }
    out.push("\n");
}

/// Whether a file of a crate names another crate.
fn uses_crate(files: &[File], library: &str, other: &str) -> bool {
    files.iter().any(|file| file.is_of(library) && names_crate(file.text.as_str(), other))
}

/// Appends the printed crates below one that its files name, lowest first.
fn push_lower(out: &mut Text, all: &[Section], files: &[File], library: &str) {
    for section in all.iter() {
        let other = section.library.as_str();
        if other == library {
            return;
        }
        if section.module.as_str() == FIRST_MODULE && uses_crate(files, library, other) {
            out.push_all(&[other, " "]);
        }
    }
}

/// Appends the lines of `crates.txt`, lowest first: so that crates of which none uses the other can be proved side by side.
fn push_crates(out: &mut Text, types: &[Printed], all: &[Section], files: &[File]) {
    for section in all.iter() {
        if section.module.as_str() == FIRST_MODULE {
            let library = section.library.as_str();
            out.push_all(&[library, ": "]);
            push_lower(out, all, files, library);
            push_libraries(out, types, all, library);
        }
    }
}

/// Puts the types of a crate to others.
fn push_named(
    alloc: Global,
    named: &mut Vec<Named>,
    types: &[Printed],
    library: &str,
) -> Result<(), AllocError>
    ensures { OnOk result (map listed_name named.new.items ≡ map listed_name named.old.items ++ map type_name types.now) }
{
    for one in types.iter() {
        named.push(Named {
            library: String::from_str(alloc, library)?,
            name: one.name.clone()?,
            is_coded: one.is_coded,
        })?;
    }
    Ok(())
}

/// The types of all crates.
fn named_types(alloc: Global, types: &[Printed], all: &[Section]) -> Result<Vec<Named>, AllocError>
    ensures { flat_map (of_section types.now) all.now ≡ types.now → All (IsSectionOf types.now) all.now → IfOk result (λ named. map listed_name named.items ≡ map type_name types.now) }
{
    let mut named = Vec::new(alloc);
    for section in all.iter() {
        push_named(
            alloc,
            &mut named,
            types_of(types, section),
            section.library.as_str(),
        )?;
    }
    Ok(named)
}

/// What is asked for: the name of the crate, the names of the files that were handed in, whether what can't be read or printed is left
/// out, and whether types keep what newer versions of them have.
#[derive(Clone, Copy)]
pub struct Wish<'w> {
    pub name: &'w str,
    pub files: &'w [&'w str],
    pub leaves_out: bool,
    pub keeps_unknown: bool,
    pub clones: bool,
}

/// The name of the file that a refusal speaks of.
fn file_of<'w>(why: &Refusal, files: &[&'w str]) -> &'w str {
    match why {
        Refusal::At { place, .. } => files.get(place.file).copied().unwrap_or(""),
        Refusal::OutOfMemory => "",
    }
}

/// Appends a line that says why a name was left out.
fn push_why(out: &mut Text, name: &str, why: &Refusal, files: &[&str]) -> Result<(), AllocError> {
    let file = file_of(why, files);
    let why = format!(in out.alloc(); "{why}")?;
    out.push_all(&["# left out: ", name, ", ", file, ":", why.as_str(), "\n"]);
    Ok(())
}

/// Appends a line for each type that was left out.
fn push_left_out(out: &mut Text, left_out: &[LeftOut], files: &[&str]) -> Result<(), AllocError> {
    for one in left_out.iter() {
        push_why(out, one.name.as_str(), &one.why, files)?;
    }
    Ok(())
}

/// Appends a line for each assignment that a module has and that isn't read.
fn push_unread(
    scope: Scope<'_, '_>,
    out: &mut Text,
    module: &Module,
    files: &[&str],
) -> Result<(), AllocError> {
    for one in module.unread.iter() {
        push_why(out, scope.text(one.name), &one.why, files)?;
    }
    Ok(())
}

/// Appends a line for each assignment that isn't read.
fn push_all_unread(scope: Scope<'_, '_>, out: &mut Text, files: &[&str]) -> Result<(), AllocError> {
    for module in scope.modules.iter() {
        push_unread(scope, out, module, files)?;
    }
    Ok(())
}

/// What is written of types that are printed or left out: each type that is printed, once.
fn output_of(
    scope: Scope<'_, '_>,
    outcome: &Outcome,
    constants: &str,
    wish: Wish<'_>,
) -> Result<Output, AllocError>
    ensures { IfOk result (λ output. map listed_name output.types.items ≡ map type_name outcome.now.printed.items) }
{
    let alloc = scope.alloc;
    let types = outcome.printed.as_slice();
    let all = sections(alloc, wish.name, types)?;
    let files = crate_files(alloc, types, all.as_slice(), constants)?;
    let mut lines = Text::new(alloc);
    push_crates(&mut lines, types, all.as_slice(), files.as_slice());
    push_all_unread(scope, &mut lines, wish.files)?;
    push_left_out(&mut lines, outcome.left_out.as_slice(), wish.files)?;
    Ok(Output {
        files,
        lines: lines.end()?,
        types: named_types(alloc, types, all.as_slice())?,
    })
}

/// The crates of modules that were resolved.
fn crates_of_scope(scope: Scope<'_, '_>, wish: Wish<'_>) -> Result<Output, Refusal> {
    let mut all = all_definitions(scope, wish.leaves_out)?;
    let order = find_cycles(scope.alloc, &mut all)?;
    hold_large(scope.alloc, &mut all, order.as_slice())?;
    if wish.keeps_unknown {
        keep_unknown(&mut all);
    }
    free_parts(scope.alloc, &mut all)?;
    free_names(scope, &mut all)?;
    let (types, order) = (all.as_slice(), order.as_slice());
    let outcome = print_types(scope, types, order, wish.leaves_out, wish.clones)?;
    let constants = constants_of(scope, types)?;
    Ok(output_of(scope, &outcome, constants.as_str(), wish)?)
}

/// The crates of the modules in tokens.
fn crates_of_tokens(
    alloc: Global,
    tokens: &[Token<'_>],
    wish: Wish<'_>,
) -> Result<Output, Refusal> {
    let tree = read_tree(alloc, tokens, wish.leaves_out)?;
    let scope = Scope {
        alloc,
        modules: tree.modules(),
        tokens,
    };
    crates_of_scope(scope, wish)
}

/// What is written, with a line more that says why sets of objects were left out.
fn without_sets(
    alloc: Global,
    output: Output,
    why: &Refusal,
    files: &[&str],
) -> Result<Output, AllocError> {
    let mut lines = Text::of(alloc, &[output.lines.as_str()]);
    push_why(&mut lines, "sets of objects", why, files)?;
    Ok(Output {
        lines: lines.end()?,
        ..output
    })
}

/// The crates of the modules in the files' texts. Refused at the first place that can't be read, resolved or printed; where that is
/// wished, assignments that can't be read, and types that can't be resolved or printed, are left out, and each has a line that says why.
/// Where nothing but sets of objects can't be printed, all of these are left out, with such a line.
pub fn crates_of(alloc: Global, texts: &[&str], wish: Wish<'_>) -> Result<Output, Refusal> {
    let tokens = tokens_with_sets(alloc, texts)?;
    match crates_of_tokens(alloc, tokens.as_slice(), wish) {
        Ok(output) => Ok(output),
        Err(Refusal::OutOfMemory) => Err(Refusal::OutOfMemory),
        Err(why) => {
            let tokens = tokens_of(alloc, texts)?;
            let output = crates_of_tokens(alloc, tokens.as_slice(), wish)?;
            Ok(without_sets(alloc, output, &why, wish.files)?)
        }
    }
}

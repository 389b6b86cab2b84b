//! The crate of the static library: its files, and its line of `crates.txt`.
ghost use Rattle.std.specs.Prelude.{◌≡◌, ◌≢◌, ◌≤◌, ◌+◌, [], IfOk, OnOk, length, take};

use crate::export_templates::{BOTH, ROOT, USES};
use crate::files::{HEAD, Named, Output};
use crate::headers::header_file;
use crate::outputs::File;
use crate::text::{Text, Words};
use std::alloc::{AllocError, Global};

/// How many characters a line has at most.
const WIDTH: usize = 100;

/// How many types a file has at most.
const TYPES_A_FILE: usize = 10;

/// The libraries that the crate uses beside those of the types.
const LIBRARIES: &str = "oer_calls rasn_oer oer_read oer_spec asn1_core";

/// Appends the call of a function for a type, broken as the formatter breaks it.
fn push_call(alloc: Global, out: &mut Text, function: &str, path: &str, arguments: &str) {
    let head = Text::of(alloc, &["    *answer = ", function, "::<"]);
    let width = head.len().saturating_add(path.len()).saturating_add(2);
    out.push_text(&head);
    if width > WIDTH {
        out.push_all(&["\n        ", path, ",\n    >(", arguments, ");"]);
    } else if width.saturating_add(arguments.len()).saturating_add(2) > WIDTH {
        out.push_all(&[path, ">(\n        ", arguments, ",\n    );"]);
    } else {
        out.push_all(&[path, ">(", arguments, ");"]);
    }
}

/// Appends the two functions of a type.
fn push_both(alloc: Global, out: &mut Text, name: &str, one: &Named) {
    let path = Text::of(alloc, &[one.library.as_str(), "::", one.name.as_str()]);
    let mut words = Words::new(alloc);
    words.put("NAME", name);
    words.put("TYPE", one.name.as_str());
    words.begin("PATH").push_text(&path);
    push_call(
        alloc,
        words.begin("CANONICALISES"),
        "canonicalise_by_numbers",
        path.as_str(),
        "alloc, mode, levels, input, out",
    );
    push_call(
        alloc,
        words.begin("CHECKS"),
        "check_by_numbers",
        path.as_str(),
        "alloc, mode, levels, input",
    );
    out.fill(BOTH, &words);
}

/// Appends the name of a module by its number, from 1.
fn push_module(out: &mut Text, number: usize) {
    out.push(if number < 10 { "types_0" } else { "types_" });
    out.push_count(number);
}

/// A file of types.
fn types_file(
    alloc: Global,
    name: &str,
    number: usize,
    types: &[Named],
) -> Result<File, AllocError> {
    let mut text = Text::of(alloc, &[HEAD, USES]);
    for one in types.iter().filter(|one| one.is_coded) {
        push_both(alloc, &mut text, name, one);
    }
    let mut module = Text::new(alloc);
    push_module(&mut module, number);
    let module = module.end()?;
    let path = [name, "_c/src/", module.as_str(), ".rt"];
    File::at(alloc, &path, text.end()?)
}

/// The crate's root file, which names so many modules.
fn root_file(alloc: Global, name: &str, count: usize) -> Result<File, AllocError> {
    let mut words = Words::new(alloc);
    words.put("NAME", name);
    let mut text = Text::of(alloc, &[HEAD]);
    text.fill(ROOT, &words);
    for at in 0..count {
        text.push("mod ");
        push_module(&mut text, at.saturating_add(1));
        text.push(";\n");
    }
    File::at(alloc, &[name, "_c/src/lib.rt"], text.end()?)
}

/// The files of the static library of types.
fn export_files(alloc: Global, name: &str, types: &[Named]) -> Result<Vec<File>, AllocError>
    ensures { IfOk result (λ files. 2 ≤ length files.items) }
{
    let mut files = Vec::new(alloc);
    for some in types.chunks(TYPES_A_FILE) {
        let number = files.len().saturating_add(1);
        files.push(types_file(alloc, name, number, some)?)?;
    }
    files.push(root_file(alloc, name, files.len())?)?;
    files.push(header_file(alloc, name, types)?)?;
    Ok(files)
}

/// The static library's line of `crates.txt`.
fn export_line(alloc: Global, name: &str, types: &[Named]) -> Result<String, AllocError> {
    let mut line = Text::of(alloc, &[name, "_c staticlib: "]);
    let mut last = "";
    for one in types.iter() {
        let library = one.library.as_str();
        if one.is_coded && library != last {
            line.push_all(&[library, " "]);
            last = library;
        }
    }
    line.push_all(&[LIBRARIES, "\n"]);
    line.end()
}

/// Puts the static library of the printed types behind what is printed: two functions for each type, called by the name and the
/// type's own, as `NAME_Type_canonicalise` and `NAME_Type_check`; none for a set of objects. Where no type is printed there is none.
pub fn push_exports(alloc: Global, name: &str, output: &mut Output) -> Result<(), AllocError>
    ensures types { OnOk result (output.new.types ≡ output.old.types) }
    ensures kept { OnOk result (take (length output.old.files.items) output.new.files.items ≡ output.old.files.items) }
    ensures more { OnOk result (output.old.types.items ≢ [] → length output.old.files.items + 2 ≤ length output.new.files.items) }
{
    if output.types.is_empty() {
        return Ok(());
    }
    let mut files = export_files(alloc, name, output.types.as_slice())?;
    let line = export_line(alloc, name, output.types.as_slice())?;
    output.lines.push_str(line.as_str())?;
    output.files.append(&mut files)?;
    Ok(())
}

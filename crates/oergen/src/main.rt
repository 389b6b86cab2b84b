//! `oergen --list MODULE.asn..` reads ASN.1 modules, and prints each type in order of use with its layout, `oergen --table` the table that
//! walks through octets go by;
//! `oergen --out FOLDER --name NAME MODULE.asn..` writes crates of these types, and with `--c` a library of them for C.
#![tactic(auto)]

mod earlier;
mod writing;

use clap::{Arg, ArgAction, ArgMatches, Command};
use earlier::fault_of;
use oergen_layouts::listing::list;
use oergen_parse::refusal::Refusal;
use oergen_print::exports::push_exports;
use oergen_print::files::{Output, Wish, crates_of};
use oergen_tables::tables::{refusal_line, table};
use std::alloc::{AllocError, Global};
use std::process::ExitCode;
use std::rt::{Env, Files};
use std::{env, fs, io};
use writing::writes_files;

/// How the program is called.
const USAGE: &str = "oergen --list MODULE.asn..
       oergen --table MODULE.asn..
       oergen --out FOLDER --name NAME [--leave-out] [--keep-unknown] [--clone] [--c] MODULE.asn..";

/// What the program does, and what it answers.
const ABOUT: &str =
    "Reads ASN.1 modules (X.680), and prints their types for the octet encoding rules (X.696)";

/// What is said behind the words' help.
const STATUS: &str =
    "Status 0; 1 where a module, or a folder to write into, is refused, with a line that says where and why: then \
nothing is printed or written; 2 where the words aren't of these forms.";

/// A word that stands by itself, as `--list`.
fn flag<'a>(alloc: Global, name: &'a str, help: &'a str) -> Arg<'a> {
    Arg::new(alloc, name)
        .long(name)
        .help(help)
        .action(ArgAction::SetTrue)
}

/// A word with another behind it, as `--out FOLDER`.
fn option<'a>(alloc: Global, word: &'a str, value: &'a str, help: &'a str) -> Arg<'a> {
    Arg::new(alloc, value)
        .long(word)
        .help(help)
        .action(ArgAction::Set)
}

/// The files.
fn files<'a>(alloc: Global) -> Arg<'a> {
    Arg::new(alloc, "MODULE.asn")
        .help("files of one module or more, each with all that they import")
        .required(true)
        .action(ArgAction::Append)
}

/// The words' form.
fn command<'a>(alloc: Global) -> Result<Command<'a>, AllocError> {
    let list = "prints each type with its layout, in order of use";
    let table = "prints the table of the types, for oershow and for walks through octets";
    let out = "writes crates of the types below this folder, and prints their lines for crates.txt";
    let name = "what the crate is called, or with _1, _2 and so on behind it the crates";
    let leave_out = "leaves out what can't be read or printed, with a line that says why";
    let keep_unknown = "keeps alternatives and enumerated values of newer versions";
    let clone = "lets types derive Clone, which takes the check longer";
    let c =
        "writes beside them the crate NAME_c, a static library with two functions for each type, and its header";
    Command::new(alloc, "oergen")
        .about(ABOUT)
        .after_help(STATUS)
        .override_usage(USAGE)
        .arg(flag(alloc, "list", list))?
        .arg(flag(alloc, "table", table))?
        .arg(option(alloc, "out", "FOLDER", out))?
        .arg(option(alloc, "name", "NAME", name))?
        .arg(flag(alloc, "leave-out", leave_out))?
        .arg(flag(alloc, "keep-unknown", keep_unknown))?
        .arg(flag(alloc, "clone", clone))?
        .arg(flag(alloc, "c", c))?
        .arg(files(alloc))
}

/// The program's words, its own name first.
fn words<R: Env + AllocGlobal>(rt: &R) -> io::Result<Vec<String>> {
    let mut words = Vec::new(rt.alloc());
    for word in env::args(rt)? {
        words.push(word)?;
    }
    Ok(words)
}

/// The text of a file, in which U+FFFD stands for octets that aren't UTF-8.
fn text_of<R: Files + AllocGlobal>(rt: &R, name: &str) -> io::Result<String> {
    let octets = fs::read(rt, name)?;
    Ok(String::from_utf8_lossy(rt.alloc(), octets.as_slice())?)
}

/// The text of each file; nothing where one can't be read, which is said on standard error.
fn texts_of<R: Files + Eprint + AllocGlobal>(
    rt: &R,
    names: &[&str],
) -> io::Result<Option<Vec<String>>> {
    let mut texts = Vec::new(rt.alloc());
    for name in names {
        match text_of(rt, *name) {
            Ok(text) => texts.push(text)?,
            Err(fault) => {
                eprintln!(rt; "{name}: can't be read: {fault}")?;
                return Ok(None);
            }
        }
    }
    Ok(Some(texts))
}

/// The texts, lent.
fn strs_of<'t>(alloc: Global, texts: &'t [String]) -> Result<Vec<&'t str>, AllocError> {
    let mut all = Vec::new(alloc);
    for text in texts.iter() {
        all.push(text.as_str())?;
    }
    Ok(all)
}

/// What is printed of the modules in the texts: the list of their types' layouts, or the table of these.
fn printed(alloc: Global, texts: &[String], is_table: bool) -> Result<String, Refusal> {
    let all = strs_of(alloc, texts)?;
    if is_table {
        table(alloc, all.as_slice())
    } else {
        list(alloc, all.as_slice())
    }
}

/// Says a refusal on standard error: status 1.
fn refuse<R: Eprint + AllocGlobal>(rt: &R, names: &[&str], refusal: &Refusal) -> io::Result<u8> {
    let text = refusal_line(rt.alloc(), "oergen", names, refusal)?;
    eprintln!(rt; "{text}")?;
    Ok(1)
}

/// Reads the files and prints the list or the table of their types: status 0, or 1 with a refusal on standard error.
fn print_files<R: Files + Print + Eprint + AllocGlobal>(
    rt: &R,
    names: &[&str],
    is_table: bool,
) -> io::Result<u8> {
    let Some(texts) = texts_of(rt, names)? else {
        return Ok(1);
    };
    match printed(rt.alloc(), texts.as_slice(), is_table) {
        Ok(text) => {
            print!(rt; "{text}")?;
            Ok(0)
        }
        Err(refusal) => refuse(rt, names, &refusal),
    }
}

/// The crates of the modules in the texts, and where that is asked for a static library of them for C.
fn output_of(
    alloc: Global,
    texts: &[String],
    wish: Wish<'_>,
    for_c: bool,
) -> Result<Output, Refusal> {
    let all = strs_of(alloc, texts)?;
    let mut output = crates_of(alloc, all.as_slice(), wish)?;
    if for_c {
        push_exports(alloc, wish.name, &mut output)?;
    }
    Ok(output)
}

/// Names that a crate can't have: libraries that printed crates may use.
const LIBRARIES: [&str; 9] = [
    "std",
    "core",
    "rasn_oer",
    "oer_write",
    "asn1_core",
    "oer_calls",
    "oer_read",
    "oer_spec",
    "oer_kept",
];

/// Whether it can be the name of a crate.
fn is_name(name: &str) -> bool {
    let is_begun = match name.chars().next() {
        Some(first) => first.is_ascii_lowercase(),
        None => false,
    };
    is_begun
        && name.chars().all(|c| c.is_ascii_lowercase() || c.is_ascii_digit() || c == '_')
        && !LIBRARIES.contains(&name)
}

/// Writes crates below a folder and prints the lines of `crates.txt`: status 0, or 1 with a refusal on standard error, and nothing is
/// written.
fn write_output<R: Files + Print + Eprint + AllocGlobal + Clone + Drop>(
    rt: &R,
    folder: &str,
    name: &str,
    output: &Output,
) -> io::Result<u8> {
    if let Some(fault) = fault_of(rt, folder, name, output.files.as_slice())? {
        eprintln!(rt; "{fault}")?;
        return Ok(1);
    }
    if !writes_files(rt, folder, output.files.as_slice())? {
        return Ok(1);
    }
    let lines = output.lines.as_str();
    print!(rt; "{lines}")?;
    Ok(0)
}

/// Reads the files, writes their crates below a folder and prints the lines of `crates.txt`: status 0, or 1 with a refusal on
/// standard error, and nothing is written.
fn write_crates<R: Files + Print + Eprint + AllocGlobal + Clone + Drop>(
    rt: &R,
    folder: &str,
    wish: Wish<'_>,
    for_c: bool,
) -> io::Result<u8> {
    let Some(texts) = texts_of(rt, wish.files)? else {
        return Ok(1);
    };
    match output_of(rt.alloc(), texts.as_slice(), wish, for_c) {
        Ok(output) => write_output(rt, folder, wish.name, &output),
        Err(refusal) => refuse(rt, wish.files, &refusal),
    }
}

/// Does what the words ask for: status 2 where they name neither a list nor a table, nor a folder and a crate.
fn run<R: Files + Print + Eprint + AllocGlobal + Clone + Drop>(
    rt: &R,
    matches: &ArgMatches<'_>,
) -> io::Result<u8> {
    let files = matches.get_strs("MODULE.asn").unwrap_or(&[]);
    let lists = matches.get_flag("list");
    let is_table = matches.get_flag("table");
    match (matches.get_str("FOLDER"), matches.get_str("NAME")) {
        (None, None) if lists != is_table => print_files(rt, files, is_table),
        (Some(folder), Some(name)) if is_name(name) && !lists && !is_table => {
            let wish = Wish {
                name,
                files,
                leaves_out: matches.get_flag("leave-out"),
                keeps_unknown: matches.get_flag("keep-unknown"),
                clones: matches.get_flag("clone"),
            };
            write_crates(rt, folder, wish, matches.get_flag("c"))
        }
        _ => {
            eprintln!(rt;
                "oergen: give --list, --table, or --out FOLDER and --name NAME, of small letters, digits and _, no library's; see --help"
            )?;
            Ok(2)
        }
    }
}

/// Runs on the words: status 2 where they aren't of the form, and 0 where they ask for help.
fn run_words<R: Files + Print + Eprint + AllocGlobal + Clone + Drop>(
    rt: &R,
    words: &[String],
) -> io::Result<u8> {
    let command = command(rt.alloc())?;
    match command.try_get_matches_from(words) {
        Ok(matches) => run(rt, &matches),
        Err(e) => {
            e.print(rt)?;
            Ok(if e.use_stderr() { 2 } else { 0 })
        }
    }
}

fn main(rt: HostRuntime) -> io::Result<ExitCode> {
    let words = words(&rt)?;
    Ok(ExitCode::from(run_words(&rt, words.as_slice())?))
}

//! The table that messages are read by: that of a file, or one that is made of ASN.1 modules.

use crate::words::Wish;
use anyhow::{Error, Result};
use oer_json::Tables;
use oergen_tables::tables::{refusal_line, table};
use std::alloc::Global;
use std::{fs, io};

/// What the system says of a file, under a name of its own.
pub fn at_file<T: Drop>(alloc: Global, name: &str, file: &str, answer: io::Result<T>) -> Result<T> {
    match answer {
        Ok(it) => Ok(it),
        Err(error) => {
            let message = format!(in alloc; "{name}: {file}: {error}")?;
            Err(Error::msg(message))
        }
    }
}

/// The table in a file.
fn read_table(rt: &HostRuntime, file: &str) -> Result<Tables> {
    let text = at_file(rt.alloc(), "NoTable", file, fs::read_to_string(rt, file))?;
    Ok(Tables::of_lines(rt.alloc(), text.as_str())?)
}

/// The texts of modules, in which U+FFFD stands for octets that aren't UTF-8.
fn texts_of(rt: &HostRuntime, files: &[&str]) -> Result<Vec<String>> {
    let mut texts = Vec::new(rt.alloc());
    for file in files.iter() {
        let octets = at_file(rt.alloc(), "NoModule", *file, fs::read(rt, *file))?;
        texts.push(String::from_utf8_lossy(rt.alloc(), octets.as_slice())?)?;
    }
    Ok(texts)
}

/// The texts, lent.
fn lent(alloc: Global, texts: &[String]) -> Result<Vec<&str>> {
    let mut all = Vec::new(alloc);
    for text in texts.iter() {
        all.push(text.as_str())?;
    }
    Ok(all)
}

/// The table of the modules in files; nothing where they are refused, which is said on standard error as `oergen` says it.
fn made_table(rt: &HostRuntime, files: &[String]) -> Result<Option<Tables>> {
    let alloc = rt.alloc();
    let names = lent(alloc, files)?;
    let texts = texts_of(rt, names.as_slice())?;
    match table(alloc, lent(alloc, texts.as_slice())?.as_slice()) {
        Ok(lines) => Ok(Some(Tables::of_lines(alloc, lines.as_str())?)),
        Err(refusal) => {
            let line = refusal_line(alloc, "oershow", names.as_slice(), &refusal)?;
            eprintln!(rt; "{line}")?;
            Ok(None)
        }
    }
}

/// The table that a wish names; nothing where its modules are refused.
pub fn tables_of(rt: &HostRuntime, wish: &Wish<'_>) -> Result<Option<Tables>> {
    if wish.modules.is_empty() {
        return Ok(Some(read_table(rt, wish.table)?));
    }
    made_table(rt, wish.modules)
}

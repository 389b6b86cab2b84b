//! What stands in the folders that crates are to be written into: only crates of an earlier print may, and of these no more than is
//! printed again.

use oergen_print::files::HEAD;
use oergen_print::outputs::File;
use std::alloc::AllocError;
use std::rt::Files;
use std::{fs, io};

/// The folders of a crate that oergen writes into.
const FOLDERS: [&str; 4] = ["src", "specs", "proofs", "include"];

/// Whether a file is there and begins as each one that oergen prints.
fn is_printed<R: Files + AllocGlobal>(rt: &R, path: &str) -> io::Result<bool> {
    if !fs::exists(rt, path)? {
        return Ok(false);
    }
    let octets = fs::read(rt, path)?;
    Ok(octets.as_slice().starts_with(HEAD.as_bytes()))
}

/// Puts the files and the folders of a folder to others; none where there is no such folder.
fn push_entries<R: Files + AllocGlobal + Clone + Drop>(
    rt: &R,
    folder: &str,
    files: &mut Vec<String>,
    folders: &mut Vec<String>,
) -> io::Result<()> {
    if !fs::exists(rt, folder)? {
        return Ok(());
    }
    for entry in fs::read_dir(rt, folder)? {
        let entry = entry?;
        let name = entry.file_name();
        let path = format!(in rt.alloc(); "{folder}/{name}")?;
        if entry.file_type()?.is_dir() {
            folders.push(path)?;
        } else {
            files.push(path)?;
        }
    }
    Ok(())
}

/// The paths of all files below a folder.
fn files_below<R: Files + AllocGlobal + Clone + Drop>(
    rt: &R,
    folder: &str,
) -> io::Result<Vec<String>> {
    let mut files = Vec::new(rt.alloc());
    let mut folders = Vec::new(rt.alloc());
    folders.push(String::from_str(rt.alloc(), folder)?)?;
    for _ in 0..u64::MAX {
        let Some(next) = folders.pop() else {
            break;
        };
        push_entries(rt, next.as_str(), &mut files, &mut folders)?;
    }
    Ok(files)
}

/// Whether a path below a folder is that of one of the files.
fn is_among(folder: &str, path: &str, files: &[File]) -> bool {
    files.iter().any(|file| {
        match path.strip_prefix(folder) {
            Some(rest) => rest.strip_prefix("/") == Some(file.path.as_str()),
            None => false,
        }
    })
}

/// What is said of a file that would be left; nothing where all are written again.
fn left_file<R: Files + AllocGlobal + Clone + Drop>(
    rt: &R,
    folder: &str,
    home: &str,
    files: &[File],
) -> io::Result<Option<String>> {
    for path in files_below(rt, home)? {
        if !is_among(folder, path.as_str(), files) {
            let text = format!(in rt.alloc();
                "{path}: met a file that isn't printed now; can write where it is removed"
            )?;
            return Ok(Some(text));
        }
    }
    Ok(None)
}

/// What is said of a crate's files that would be left.
fn left_files<R: Files + AllocGlobal + Clone + Drop>(
    rt: &R,
    folder: &str,
    library: &str,
    files: &[File],
) -> io::Result<Option<String>> {
    for part in FOLDERS {
        let home = format!(in rt.alloc(); "{folder}/{library}/{part}")?;
        let left = left_file(rt, folder, home.as_str(), files)?;
        if left.is_some() {
            return Ok(left);
        }
    }
    Ok(None)
}

/// Whether a crate is printed: one of the files is below its folder.
fn has_crate(library: &str, files: &[File]) -> bool {
    files.iter().any(|file| match file.path.as_str().split_once('/') {
        Some((first, _)) => first == library,
        None => false,
    })
}

/// Why a crate's folder isn't written into, or must go first; nothing where it may stay.
fn crate_fault<R: Files + AllocGlobal + Clone + Drop>(
    rt: &R,
    folder: &str,
    library: &str,
    files: &[File],
) -> io::Result<Option<String>> {
    let alloc = rt.alloc();
    let home = format!(in alloc; "{folder}/{library}")?;
    let root = format!(in alloc; "{folder}/{library}/src/lib.rt")?;
    let is_wanted = has_crate(library, files);
    if !fs::exists(rt, home.as_str())? {
        return Ok(None);
    }
    match (is_printed(rt, root.as_str())?, is_wanted) {
        (true, true) => left_files(rt, folder, library, files),
        (true, false) => Ok(Some(format!(in alloc;
            "{home}: met a crate of an earlier print; can write where it is removed"
        )?)),
        (false, true) => Ok(Some(format!(in alloc;
            "{home}: met a folder that oergen didn't write; can write a new one, or a crate that it printed before"
        )?)),
        (false, false) => Ok(None),
    }
}

/// The name of a crate by its number; without one where that is 0.
fn numbered<R: AllocGlobal>(rt: &R, name: &str, number: usize) -> Result<String, AllocError> {
    if number == 0 {
        String::from_str(rt.alloc(), name)
    } else {
        format!(in rt.alloc(); "{name}_{number}")
    }
}

/// Why files aren't written below a folder, as crates of a name: a folder there isn't oergen's, or has more of an earlier print.
pub fn fault_of<R: Files + AllocGlobal + Clone + Drop>(
    rt: &R,
    folder: &str,
    name: &str,
    files: &[File],
) -> io::Result<Option<String>> {
    for number in 0..files.len().saturating_add(2) {
        let library = numbered(rt, name, number)?;
        let fault = crate_fault(rt, folder, library.as_str(), files)?;
        if fault.is_some() {
            return Ok(fault);
        }
    }
    let for_c = format!(in rt.alloc(); "{name}_c")?;
    crate_fault(rt, folder, for_c.as_str(), files)
}

//! Writes files below a folder.

use oergen_print::outputs::File;
use std::rt::Files;
use std::{fs, io};

/// The folder of a path.
fn folder_of(path: &str) -> &str {
    match path.rsplit_once('/') {
        Some((folder, _)) => folder,
        None => "",
    }
}

/// Writes a file, and the folders that it is in.
fn write_file<R: Files>(rt: &R, path: &str, text: &str) -> io::Result<()> {
    fs::create_dir_all(rt, folder_of(path))?;
    fs::write(rt, path, text)
}

/// Writes the files below a folder; false where one can't be written, which is said on standard error.
pub fn writes_files<R: Files + Eprint + AllocGlobal>(
    rt: &R,
    folder: &str,
    files: &[File],
) -> io::Result<bool> {
    for file in files.iter() {
        let path = file.path.as_str();
        let path = format!(in rt.alloc(); "{folder}/{path}")?;
        if let Err(fault) = write_file(rt, path.as_str(), file.text.as_str()) {
            eprintln!(rt; "{path}: can't be written: {fault}")?;
            return Ok(false);
        }
    }
    Ok(true)
}

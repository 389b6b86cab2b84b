//! Files that are written, and what names their place.

use crate::text::Text;
use std::alloc::{AllocError, Global};

/// A file: its path below the folder of crates, and its text.
#[derive(Drop)]
pub struct File {
    pub path: String,
    pub text: String,
}

impl File {
    /// The file of a path in pieces.
    pub fn at(alloc: Global, path: &[&str], text: String) -> Result<File, AllocError> {
        let whole = Text::of(alloc, path);
        Ok(File {
            path: whole.end()?,
            text,
        })
    }

    /// Whether it stands in the folder of a crate.
    pub fn is_of(&self, library: &str) -> bool {
        match self.path.as_str().strip_prefix(library) {
            Some(rest) => rest.starts_with('/'),
            None => false,
        }
    }
}

/// Appends a text with what names its place, a module of a crate, for the marks: `@HOME@`, `@CRATE@` and `@MODULE@`.
pub fn push_placed(out: &mut Text, text: &str, library: &str, module: &str) {
    let home = Text::of(out.alloc(), &[library, ".specs.declared.", module]);
    let mut with_home = Text::new(out.alloc());
    with_home.push_replaced(text, "@HOME@", home.as_str());
    let mut with_crate = Text::new(out.alloc());
    with_crate.push_replaced(with_home.as_str(), "@CRATE@", library);
    out.push_replaced(with_crate.as_str(), "@MODULE@", module);
    out.heed(&home);
    out.heed(&with_home);
    out.heed(&with_crate);
}

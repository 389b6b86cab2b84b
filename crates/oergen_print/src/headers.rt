//! The header that declares the functions.

use crate::export_templates::{DECLARATION, HEADER};
use crate::files::Named;
use crate::outputs::File;
use crate::text::{Text, Words};
use std::alloc::{AllocError, Global};

/// Appends what is declared of each type.
fn push_declarations(alloc: Global, out: &mut Text, name: &str, types: &[Named]) {
    for one in types.iter().filter(|one| one.is_coded) {
        let mut words = Words::new(alloc);
        words.put("NAME", name);
        words.put("TYPE", one.name.as_str());
        out.fill(DECLARATION, &words);
    }
}

/// The header of the types' functions.
pub fn header_file(alloc: Global, name: &str, types: &[Named]) -> Result<File, AllocError> {
    let mut words = Words::new(alloc);
    words.put("NAME", name);
    words.begin("UPPER").push_upper(name);
    push_declarations(alloc, words.begin("DECLARATIONS"), name, types);
    let mut text = Text::new(alloc);
    text.fill(HEADER, &words);
    File::at(alloc, &[name, "_c/include/", name, "_c.h"], text.end()?)
}

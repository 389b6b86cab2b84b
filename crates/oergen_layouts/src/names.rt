//! Rust names: types as they are, components in snake case, keywords mended.

use std::alloc::{AllocError, Global};

/// Words that Rust or Rattle keeps.
const KEYWORDS: &str =
    "abstract as async await become box break const continue crate do dyn else ensures enum extern false fn \
final for gen ghost if impl in let loop macro match mod move mut override priv pub ref requires result return self static struct \
super trait true try type typeof union unsafe unsized use virtual where while yield";

/// A type's name: as it is, without hyphens, a letter behind one made a capital.
pub fn type_name(alloc: Global, name: &str) -> Result<String, AllocError> {
    let mut out = String::new(alloc);
    push_type_name(&mut out, name)?;
    Ok(out)
}

/// Appends a name without hyphens, its first letter and those behind hyphens made capitals.
pub fn push_type_name(out: &mut String, name: &str) -> Result<(), AllocError> {
    let mut begins = true;
    for c in name.chars() {
        if c == '-' {
            begins = true;
        } else {
            out.push(if begins { c.to_ascii_uppercase() } else { c })?;
            begins = false;
        }
    }
    Ok(())
}

/// A name in snake case: a word begins at a hyphen, and at a capital behind a letter or digit that is none.
pub fn snake(alloc: Global, name: &str) -> Result<String, AllocError> {
    let mut out = String::new(alloc);
    let mut before = '-';
    for c in name.chars() {
        if c == '-' {
            out.push('_')?;
        } else {
            if c.is_ascii_uppercase() && before != '-' && !before.is_ascii_uppercase() {
                out.push('_')?;
            }
            out.push(c.to_ascii_lowercase())?;
        }
        before = c;
    }
    Ok(out)
}

/// A component's name in snake case. A keyword gets `r_` in front.
pub fn component_name(alloc: Global, name: &str) -> Result<String, AllocError> {
    let out = snake(alloc, name)?;
    if KEYWORDS.split(' ').any(|word| word == out.as_str()) {
        return format!(in alloc; "r_{out}");
    }
    Ok(out)
}

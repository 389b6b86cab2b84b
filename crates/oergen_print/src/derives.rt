//! What printed types derive.

use crate::text::Text;
use std::alloc::{AllocError, Global};

/// What a type with parts derives.
const DERIVES: &str = "#[derive(Debug, PartialEq, Eq, Drop)]";

/// The same with `Clone`.
const CLONES: &str = "#[derive(Clone, Debug, PartialEq, Eq, Drop)]";

/// A text in which what types with parts derive has `Clone` among it.
pub fn with_clone(alloc: Global, text: &str) -> Result<String, AllocError> {
    let mut out = Text::new(alloc);
    for (number, piece) in text.split(DERIVES).enumerate() {
        out.push(if number == 0 { "" } else { CLONES });
        out.push(piece);
    }
    out.end()
}

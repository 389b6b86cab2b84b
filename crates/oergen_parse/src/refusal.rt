//! Why a module isn't taken: where, what was met, and what could be read there.
ghost use Rattle.std.specs.Prelude.{◌≡◌};
ghost use Rattle.oergen_parse.specs.declared.refusal.Refusal.TheVariants.{OutOfMemory};

use crate::lexer::{Kind, Token};
use std::alloc::{AllocError, AllocFailed, Global};
use std::error::Error;
use std::fmt;

/// A place in a file: the file by its number in the order handed in, line and column from 1, in characters.
#[derive(Clone, Copy, Debug)]
pub struct Place {
    pub file: usize,
    pub line: u32,
    pub column: u32,
}

impl Place {
    /// Whether it stands in front of another.
    pub fn is_before(self, other: Place) -> bool {
        if self.file != other.file {
            self.file < other.file
        } else if self.line != other.line {
            self.line < other.line
        } else {
            self.column < other.column
        }
    }
}

/// A refusal.
#[derive(Debug, Drop)]
pub enum Refusal {
    /// Memory was refused.
    OutOfMemory,
    /// What was met at a place, and what can be read there.
    At {
        place: Place,
        met: String,
        reads: String,
    },
}

impl Refusal {
    /// A refusal at `place`, where `met` stands and `reads` can be read; `OutOfMemory` where its texts can't be kept.
    pub fn new(alloc: Global, place: Place, met: &str, reads: &str) -> Refusal {
        match (String::from_str(alloc, met), String::from_str(alloc, reads)) {
            (Ok(met), Ok(reads)) => Refusal::At { place, met, reads },
            _ => Refusal::OutOfMemory,
        }
    }

    /// The refusal of a token, where `reads` can be read.
    pub fn of(alloc: Global, token: Token<'_>, reads: &str) -> Refusal {
        if token.kind == Kind::End {
            return Refusal::new(alloc, token.place, "the end of the file", reads);
        }
        let text = token.text;
        match format!(in alloc; "'{text}'") {
            Ok(met) => Refusal::new(alloc, token.place, met.as_str(), reads),
            Err(_) => Refusal::OutOfMemory,
        }
    }
}

impl fmt::Display for Refusal {
    fn fmt<W: fmt::Write>(&self, f: &mut fmt::Formatter<W>) -> fmt::Result {
        match self {
            Refusal::OutOfMemory => write!(f, "out of memory"),
            Refusal::At { place, met, reads } => {
                let line = place.line;
                let column = place.column;
                write!(f, "{line}:{column}: met {met}; can read {reads}")
            }
        }
    }
}

impl Error for Refusal {}

impl From<AllocError> for Refusal {
    ghost from_gives = { λ _ e. e ≡ OutOfMemory };

    fn from(_e: AllocError) -> Refusal {
        Refusal::OutOfMemory
    }
}

impl<T: Drop> From<AllocFailed<T>> for Refusal {
    ghost from_gives = { λ _ e. e ≡ OutOfMemory };

    fn from(_e: AllocFailed<T>) -> Refusal {
        Refusal::OutOfMemory
    }
}

//! Choices whose alternatives are said once, as a type: a row, from which their tags, their trees, what reads them and what
//! writes them are derived.
#![tactic(auto)]

mod alternatives;
mod choices;
mod enumerations;
mod parts;
mod views;

pub use alternatives::{Alternative, Alternatives, Either, ReadsAlternatives};
pub use choices::{Alternating, OneOf, TakesAlternative, read_alternative};
pub use enumerations::{Enumeration, Numbered};
pub use oer_rows::{Application, Context, End, Extensible, Place, Private, Universal};
pub use parts::{ChoicePart, HoldsTags, Part, PutsPart, ReadsPart, read_part};
pub use views::{AlternativeViews, put_alternative};

//! The values of a row, one behind another.

/// The value of a row's first component, and those of the others, at the end `()`.
///
/// A struct, since what a check writes of a pair doubles with each pair within it.
#[derive(Drop)]
pub struct Both<A, B>(pub A, pub B);

//! The forms of X.696: what octets spell which value, the laws of that relation, and the readers and writers of leaves.
#![tactic(auto)]

pub mod leaf;

pub use oer_spec::{EqualAsSpelled, Spelled, examples, laws};

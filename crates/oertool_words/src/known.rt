//! The program's words for types.

mod leaves;
mod scopes;

use leaves::with_leaf;
use oer_write::Encode;
use rasn_oer::Decode;
use scopes::{with_list_or_choice, with_sequence};
use std::fmt::Debug;

/// What is done with the type that a word names.
pub trait OnType {
    type Output;

    fn on<T: Decode + Encode + Debug + PartialEq>(self) -> Self::Output;
}

/// Does it with the type of that word; none where no type has it.
pub fn with_type<W: OnType + Drop>(word: &str, work: W) -> Option<W::Output> {
    let work = match with_leaf(word, work) {
        Ok(output) => return Some(output),
        Err(work) => work,
    };
    let work = match with_sequence(word, work) {
        Ok(output) => return Some(output),
        Err(work) => work,
    };
    match with_list_or_choice(word, work) {
        Ok(output) => Some(output),
        Err(_) => None,
    }
}

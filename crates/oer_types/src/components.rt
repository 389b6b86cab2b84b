//! The components of each sequence and set that is written by its row.

use crate::groups;
use crate::nests::Nest;
use crate::pairs::Pair;
use crate::wrappers::HashedId3;
use rasn_oer::prelude::*;

/// The components of a `Nested` of this crate.
#[derive(Debug, PartialEq, Eq, Drop)]
pub struct Nested {
    pub a: bool,
    pub b: Pair,
}

/// The components of a `Sequence4` of this crate.
#[derive(Debug, PartialEq, Eq, Drop)]
pub struct Sequence4 {
    pub a: bool,
}

/// The components of a `Sequence3` of this crate.
#[derive(Debug, PartialEq, Eq, Drop)]
pub struct Sequence3 {
    pub a: bool,
    pub b: Option<groups::Sequence4>,
}

/// The components of a `Group6` of this crate.
#[derive(Debug, PartialEq, Eq, Drop)]
pub struct Group6 {
    pub a: Option<bool>,
}

/// The components of a `Sequence6` of this crate.
#[derive(Debug, PartialEq, Eq, Drop)]
pub struct Sequence6 {
    pub a: bool,
    pub b: Option<groups::Group6>,
}

/// The components of a `SequenceDuplicatesExtended` of this crate.
#[derive(Debug, PartialEq, Eq, Drop)]
pub struct SequenceDuplicatesExtended {
    pub it: Integer,
    pub is: Option<Octets>,
    pub late: Option<Integer>,
    pub today: Octets,
}

/// The components of a `ConstrainedOptions` of this crate.
#[derive(Debug, PartialEq, Eq, Drop)]
pub struct ConstrainedOptions {
    pub a: Option<HashedId3>,
}

/// The components of a `DeepDefault` of this crate.
#[derive(Debug, PartialEq, Eq, Drop)]
pub struct DeepDefault {
    pub n: Nest,
}

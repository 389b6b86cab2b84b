//! The functions of README.md with their tests; tests of the types of docs/OWN_TYPE.md, and of example_closures; and of the calls that
//! read and write, by their public paths and by closures of their own. Calls of one value each are rows of test_memory, octets that
//! are refused rows of test_vectors, and versions rows of test_types.
//!
//! All of it is read with the tests alone: a crate that has more is proved twice.
#![tactic(auto)]

#[cfg(test)]
mod clones;
#[cfg(test)]
mod closures;
#[cfg(test)]
mod defaults;
#[cfg(test)]
mod kept;
#[cfg(test)]
mod kept_cycles;
#[cfg(test)]
mod lent;
#[cfg(test)]
mod limits;
#[cfg(test)]
mod long_rows;
#[cfg(test)]
mod messages;
#[cfg(test)]
mod octets;
#[cfg(test)]
mod open_types;
#[cfg(test)]
mod own_closures;
#[cfg(test)]
mod own_types;
#[cfg(test)]
mod readme;
#[cfg(test)]
mod readme_calls;
#[cfg(test)]
mod recursion;
#[cfg(test)]
mod refused;
#[cfg(test)]
mod scopes;
#[cfg(test)]
mod surface;
#[cfg(test)]
mod types;
#[cfg(test)]
mod within;

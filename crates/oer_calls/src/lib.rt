//! Calls over octets that the caller owns: canonical octets, whether octets are canonical, and those of another version.
//! They are made to be exported to C.
#![tactic(auto)]

pub mod answer;
pub mod calls;
pub mod names;
pub mod numbers;

//! The program's words for types, further words for types under constraints, and the program over any writer.
#![tactic(auto)]

pub mod constrained;
pub mod known;
pub mod run;

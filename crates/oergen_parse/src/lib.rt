//! Reads ASN.1 modules (X.680), and resolves what stands in them to what the octet encoding rules (X.696) need.
#![tactic(auto)]

pub mod ast;
pub mod constraints;
pub mod instead;
pub mod lengths;
pub mod lexer;
pub mod marks;
pub mod modules;
pub mod reader;
pub mod refusal;
pub mod skips;
pub mod types;
pub mod values;
pub mod words;

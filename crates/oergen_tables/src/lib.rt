//! Makes of ASN.1 modules the table of types that walks through octets go by. How a type lies in octets is what `oergen_layouts` says.
#![tactic(auto)]

pub mod builder;
pub mod defaults;
pub mod forms;
pub mod leaves;
pub mod rows;
pub mod tables;

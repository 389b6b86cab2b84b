//! Types of messages of one's own by closures (docs/OWN_TYPE.md): a sequence, a set and a choice.
#![tactic(auto)]

mod commands;
mod reports;
mod statuses;

pub use commands::Command;
pub use reports::Report;
pub use statuses::Status;

//! Types of messages of one's own, each by its row, as docs/OWN_TYPE.md shows them.
#![tactic(auto)]

mod messages;
mod notices;
mod reports;
mod signals;

pub use messages::{Key, Message, MessageComponents, OfThree};
pub use notices::{Closing, ClosingComponents, Notice, NoticeComponents};
pub use reports::{Report, ReportComponents};
pub use signals::{Signal, SignalAlternatives};

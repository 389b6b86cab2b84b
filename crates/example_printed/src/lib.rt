//! Types of ASN.1 modules, as oergen printed them.
#![tactic(auto)]

mod types_01;
mod types_02;
mod types_03;
mod types_04;
mod types_05;
mod types_06;
mod types_07;
mod types_08;
mod types_09;
pub mod values;

pub use types_01::{
    Bag, BagComponents, Below, Bits, Colour, ColourValues, Key, Name, Names, Narrow, Percent, Row,
    RowComponents, RowGroup1, RowGroup1Components, RowInner, RowInnerComponents,
};
pub use types_02::{
    Letter, LetterComponents, LetterGroup1, LetterGroup1Components, LetterHead,
    LetterHeadComponents, Rights, Signal, SignalAlternatives,
};
pub use types_03::{Folder, FolderComponents, Permit, PermitComponents};
pub use types_04::{
    AreaRound, AreaRoundComponents, Labels, LabelsComponents, Spot, SpotComponents,
};
pub use types_05::{
    Area, AreaAlternatives, AreaBoxes, AreaBoxesComponents, Event, EventAlternatives, EventPart1,
    EventPart2, EventPart3, Named,
};
pub use types_06::{
    Colours, ColoursAlternatives, Level, Plain, PlainComponents, Taken, TakenComponents, Then,
    ThenComponents,
};
pub use types_07::{
    Leaves, LeavesComponents, Numbers, NumbersComponents, Ranges, RangesComponents, Strings,
    StringsComponents,
};
pub use types_08::{
    Both, BothB, BothBAlternatives, BothComponents, Card, CardComponents, Marks, Reply,
    ReplyAlternatives, Title, TitleAlternatives,
};
pub use types_09::{Person, PersonComponents};

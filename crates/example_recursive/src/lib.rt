//! Types of ASN.1 modules, as oergen printed them.
#![tactic(auto)]

mod types_01;
mod types_02;
mod types_03;
mod types_04;
mod types_05;
mod types_06;
mod types_07;
mod types_08;
pub mod values;

pub use types_01::{
    Body, BodyAlternatives, BodyContent, Envelope, EnvelopeComponents, EnvelopeContent, Node,
    NodeComponents, NodeContent, Serial,
};
pub use types_02::{
    Forest, ForestContent, Group, GroupComponents, GroupContent, Nest, NestContent, Tree,
    TreeComponents, TreeContent,
};
pub use types_03::{
    Bag, BagContent, Filter, FilterAlternatives, FilterContent, Query, QueryAlternatives,
    QueryContent, State, StateValues,
};
pub use types_04::{
    Mark, MarkAlternatives, Post, PostComponents, Range, RangeComponents, RangeKindDefault, Way,
    WayAlternatives,
};
pub use types_05::{
    Extra, ExtraComponents, ExtraId, Extras, Setting, SettingComponents,
    SettingLastDefaultKindDefault, SettingMarkDefault, SettingRangeDefaultKindDefault,
};
pub use types_06::{
    Wide, WideComponents, WideFromB31Slots, WideFromB31Values, WideFromB31View, WideFromB32Slots,
    WideFromB32Values, WideFromB32View,
};
pub use types_07::{
    Newest, NewestComponents, NewestFromB31Slots, NewestFromB31Values, NewestFromB31View,
};
pub use types_08::{Branch, BranchComponents, BranchContent, BranchFromLeft, BranchFromRight};

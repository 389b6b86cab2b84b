//! Types of ASN.1 modules, as oergen printed them.
#![tactic(auto)]

mod types_01;
mod types_02;
mod types_03;
mod types_04;
mod types_05;
mod types_06;
mod types_07;
mod types_08;

pub use types_01::{Bush, BushComponents, BushContent, Node, NodeComponents, NodeContent};
pub use types_02::{
    Chain, ChainComponents, ChainContent, Link, LinkChoice, LinkChoiceAlternatives,
    LinkChoiceContent, LinkComponents, LinkContent,
};
pub use types_03::{
    DefaultInteger, DefaultIntegerComponents, Empty, EmptyComponents, Enum3, Enum3Values, Enum4,
    Enum4Values, OneToEight, TestChoice, TestChoiceAlternatives, TestChoiceContent, TopLevel,
    TopLevelComponents, TopLevelContent,
};
pub use types_04::{
    AllDefault, AllDefaultComponents, AllOptional, AllOptionalComponents, DefaultAndOptional,
    DefaultAndOptionalComponents, ManyOptional, ManyOptionalComponents,
};
pub use types_05::{
    AddDef, AddDefComponents, EmptyExtensible, EmptyExtensibleComponents, Omitted,
    OmittedComponents, Outer, OuterComponents, Sequence2, Sequence2Components,
};
pub use types_06::{
    ExtendedOptional, ExtendedOptionalComponents, Foo, FooComponents, MixedSet, MixedSetComponents,
};
pub use types_07::{
    BoolChoice, BoolChoiceAlternatives, Mixed, MixedComponents, MixedSet2, MixedSet2Components,
    OnlyChoice, OnlyChoiceAlternatives, PriorityChoice, PriorityChoiceAlternatives, WideChoice,
    WideChoiceAlternatives,
};
pub use types_08::{
    Holder1, Holder1Components, Holder2, Holder2Components, Sequence1, Sequence1Components,
    Sequence5, Sequence5Components,
};

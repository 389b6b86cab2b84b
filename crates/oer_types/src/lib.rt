//! The types of the program's words. Those that an ASN.1 module can say are printed: they are `example_words`, and named here too.
//! By hand are those that `oergen` prints otherwise or not at all:
//!
//! - a name twice in a type, or a group's name and tags: `Sequence3`, `Sequence6`, `Sequence7`
//! - a required addition, which is printed as one that older senders leave out: `Sure`, `SequenceDuplicatesExtended`
//! - a default of a type that contains itself, and that type, which says how it is compared: `DeepDefault`, `Nest`
//! - a struct around a type of the library, and what holds one: `Positive`, `Negative`, `HashedId3`, `ConstrainedOptions`
//! - a number of a range that is an `Integer`: `GreatPositive`, `Small`
//! - any type as a parameter: `Holding`, `Adding`
//! - closures in place of a row, and what holds such a type: `Pair`, `Nested`
#![tactic(auto)]

pub mod components;
mod constrained;
mod deep_defaults;
mod groups;
mod holders;
mod nested;
mod nests;
mod pairs;
mod ranges;
mod required_additions;
mod versions;
mod wrappers;

pub use constrained::ConstrainedOptions;
pub use deep_defaults::DeepDefault;
pub use example_words::AddDef;
pub use example_words::AddDefComponents;
pub use example_words::AllDefault;
pub use example_words::AllDefaultComponents;
pub use example_words::AllOptional;
pub use example_words::AllOptionalComponents;
pub use example_words::BoolChoice;
pub use example_words::BoolChoiceAlternatives;
pub use example_words::Bush;
pub use example_words::BushComponents;
pub use example_words::BushContent;
pub use example_words::Chain;
pub use example_words::ChainComponents;
pub use example_words::ChainContent;
pub use example_words::DefaultAndOptional;
pub use example_words::DefaultAndOptionalComponents;
pub use example_words::DefaultInteger;
pub use example_words::DefaultIntegerComponents;
pub use example_words::Empty;
pub use example_words::EmptyComponents;
pub use example_words::EmptyExtensible;
pub use example_words::EmptyExtensibleComponents;
pub use example_words::Enum3;
pub use example_words::Enum3Values;
pub use example_words::Enum4;
pub use example_words::Enum4Values;
pub use example_words::ExtendedOptional;
pub use example_words::ExtendedOptionalComponents;
pub use example_words::Foo;
pub use example_words::FooComponents;
pub use example_words::Holder1;
pub use example_words::Holder1Components;
pub use example_words::Holder2;
pub use example_words::Holder2Components;
pub use example_words::Link;
pub use example_words::LinkChoice;
pub use example_words::LinkChoiceAlternatives;
pub use example_words::LinkChoiceContent;
pub use example_words::LinkComponents;
pub use example_words::LinkContent;
pub use example_words::ManyOptional;
pub use example_words::ManyOptionalComponents;
pub use example_words::Mixed;
pub use example_words::MixedComponents;
pub use example_words::MixedSet;
pub use example_words::MixedSet2;
pub use example_words::MixedSet2Components;
pub use example_words::MixedSetComponents;
pub use example_words::Node;
pub use example_words::NodeComponents;
pub use example_words::NodeContent;
pub use example_words::Omitted;
pub use example_words::OmittedComponents;
pub use example_words::OneToEight;
pub use example_words::OnlyChoice;
pub use example_words::OnlyChoiceAlternatives;
pub use example_words::Outer;
pub use example_words::OuterComponents;
pub use example_words::PriorityChoice;
pub use example_words::PriorityChoiceAlternatives;
pub use example_words::Sequence1;
pub use example_words::Sequence1Components;
pub use example_words::Sequence2;
pub use example_words::Sequence2Components;
pub use example_words::Sequence5;
pub use example_words::Sequence5Components;
pub use example_words::TestChoice;
pub use example_words::TestChoiceAlternatives;
pub use example_words::TestChoiceContent;
pub use example_words::TopLevel;
pub use example_words::TopLevelComponents;
pub use example_words::TopLevelContent;
pub use example_words::WideChoice;
pub use example_words::WideChoiceAlternatives;
pub use groups::Group6;
pub use groups::Sequence3;
pub use groups::Sequence4;
pub use groups::Sequence6;
pub use holders::Adding;
pub use holders::AddingComponents;
pub use holders::Holding;
pub use holders::HoldingComponents;
pub use nested::Nested;
pub use nests::Nest;
pub use nests::NestContent;
pub use pairs::Pair;
pub use ranges::FiveAroundZero;
pub use ranges::FromZeroTo64Bits;
pub use ranges::GreatPositive;
pub use ranges::Small;
pub use rasn_oer::prelude::Bare;
pub use rasn_oer::prelude::Held;
pub use rasn_oer::prelude::ListOf;
pub use rasn_oer::prelude::OneOf;
pub use rasn_oer::prelude::Sequence;
pub use rasn_oer::prelude::Set;
pub use required_additions::SequenceDuplicatesExtended;
pub use required_additions::Sure;
pub use required_additions::SureComponents;
pub use versions::Addition7;
pub use versions::Addition7Components;
pub use versions::Sequence7;
pub use versions::Sequence7Components;
pub use wrappers::HashedId3;
pub use wrappers::Negative;
pub use wrappers::Positive;

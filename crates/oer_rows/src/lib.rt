//! Sequences whose components are said once, as a type: a row, from which their trees, what reads them and what writes
//! them are derived.
#![tactic(auto)]

mod additions;
mod both;
mod components;
mod defaults;
mod held_octets;
mod held_texts;
mod limited;
mod lists;
mod literals;
mod more_additions;
mod more_texts;
mod places;
mod ranges;
mod reading;
mod rowed;
mod sequences;
mod sets;
mod slots;
mod views;
mod writing;

pub use additions::{Additions, Extensible, OptionalAddition, ReadsAdditions, read_addition};
pub use both::Both;
pub use components::{Components, Defaulted, End, Optional, Reads, Required};
pub use defaults::read_default;
pub use held_octets::{Octets, OpenOctets};
pub use held_texts::{Ia5Text, NumericText, PrintableText, Utf8Text, VisibleText};
pub use limited::{Limited, Limits};
pub use lists::{IsEmptyList, ListOf};
pub use literals::{are_bits, bits_from, bmp_from, universal_from, utf8_from};
pub use more_additions::{AdditionGroup, DefaultedAddition, RequiredAddition};
pub use more_texts::{BmpText, GeneralText, GraphicText, TeletexText, UniversalText};
pub use places::{
    Application, Context, DefaultValue, IsFalse, IsNull, IsNumber, IsTrue, Place, Private,
    Universal, Within,
};
pub use ranges::{AtLeast, AtMost, Between, FixedSize, SizeAtLeast, SizeBetween};
pub use reading::{decode_row, read_row};
pub use rowed::{Rowed, Schemed, Takes};
pub use sequences::{Sequence, Tabled};
pub use sets::{InTagOrder, Set, TextOrder};
pub use slots::{Slotted, SlottedAdditions};
pub use views::{AdditionViews, Views};
pub use writing::{
    Writes, encode_rows, put_default, put_default_addition, put_group, put_optional,
    put_optional_addition, put_required, put_required_addition,
};

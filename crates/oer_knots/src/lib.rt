//! Types that contain themselves, by their rows.
#![tactic(auto)]

mod additions;
mod cells;
mod choices;
mod held;
mod knots;
mod lists;
mod own_lists;
mod plain_additions;
mod reading;
mod rows;
mod sequences;
mod sets;
mod ties;
mod unordered;

pub use additions::{KnotAdditions, OptionalAdditionKnot, ReadsKnotAdditions};
pub use cells::{OptionalKnot, RequiredKnot};
pub use choices::{
    AlternativeKnot, KnotAlternating, KnotAlternatives, ReadsKnotAlternatives,
    TakesKnotAlternative, read_knot_alternative,
};
pub use held::{Bare, Held};
pub use knots::{Knot, Layered, decode_knotted, layer_of};
pub use own_lists::decode_list_of_itself;
pub use reading::ReadsKnot;
pub use rows::KnotRow;
pub use sequences::{KnotRowed, TakesKnot, read_knot_row};
pub use ties::{DecodeInside, DecodeKnot, HoldsKnot};

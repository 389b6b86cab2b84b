//! Where components are put as they are read.
ghost use Rattle.std.specs.Prelude.{◌≡◌};

use crate::additions::Additions;
use crate::components::Components;

/// A row whose components have places, which they are read into.
pub trait Slotted: Components {
    /// A place for the first component and those for the others, at the end `()`. So none is moved as those behind it are read.
    type Slots;

    /// What the places hold once these values are read.
    ghost filled: { Self.Values → Self.Slots };

    /// They hold no other values.
    ghost filled_once: { (v w : Self.Values) → filled v ≡ filled w → v ≡ w };

    /// Places that hold nothing.
    fn empty() -> Self::Slots;

    /// The values that the places hold.
    fn taken(slots: Self::Slots) -> Self::Values
        requires { (v : Self.Values) × (slots ≡ filled v) }
        ensures { slots ≡ filled result };
}

/// Additions that have places, as `Slotted` has them.
pub trait SlottedAdditions: Additions {
    /// A place for the first addition and those for the others, at the end `()`.
    type Slots;

    /// What the places hold once these values are read.
    ghost filled: { Self.More → Self.Slots };

    /// They hold no other values.
    ghost filled_once: { (v w : Self.More) → filled v ≡ filled w → v ≡ w };

    /// Places that hold nothing.
    fn empty() -> Self::Slots;

    /// The values that the places hold.
    fn taken(slots: Self::Slots) -> Self::More
        requires { (v : Self.More) × (slots ≡ filled v) }
        ensures { slots ≡ filled result };
}

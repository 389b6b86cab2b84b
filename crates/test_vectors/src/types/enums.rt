//! Enumerated types of small numbers.
ghost use Rattle.std.specs.Prelude.{pos, [], ◌∷◌, refl};

use rasn_oer::prelude::*;

/// `ENUMERATED { green, red, blue }`
pub type Colors = Enumeration<ColorValues>;

/// The values of `Colors`.
#[derive(Debug, Clone, Copy, PartialEq, Eq)]
pub enum ColorValues {
    Green = 0,
    Red = 1,
    Blue = 2,
}

/// `ENUMERATED { red, blue, green, ..., yellow, purple }`
pub type MoreColors = Enumeration<MoreColorValues>;

/// The values of `MoreColors`.
#[derive(Debug, Clone, Copy, PartialEq, Eq)]
pub enum MoreColorValues {
    Red = 0,
    Blue = 1,
    Green = 2,
    Yellow = 3,
    Purple = 4,
}

impl Numbered for ColorValues {
    ghost use Rattle.test_vectors.specs.declared.types.enums.ColorValues.TheVariants.{Green, Red, Blue};

    ghost number = { elim [ Green ↦ pos 0 | Red ↦ pos 1 | Blue ↦ pos 2 ] };

    ghost values = { Green ∷ Red ∷ Blue ∷ [] };

    ghost listed = { elim [ Green ↦ (refl, refl) | Red ↦ (refl, refl) | Blue ↦ (refl, refl) ] };

    fn number(self) -> isize {
        self as isize
    }

    fn values() -> &'static [ColorValues] {
        &[ColorValues::Green, ColorValues::Red, ColorValues::Blue]
    }
}

impl Numbered for MoreColorValues {
    ghost use Rattle.test_vectors.specs.declared.types.enums.MoreColorValues.TheVariants.{Red, Blue, Green, Yellow, Purple};

    ghost number = { elim [ Red ↦ pos 0 | Blue ↦ pos 1 | Green ↦ pos 2 | Yellow ↦ pos 3 | Purple ↦ pos 4 ] };

    ghost values = { Red ∷ Blue ∷ Green ∷ Yellow ∷ Purple ∷ [] };

    ghost listed = { elim [ Red ↦ (refl, refl) | Blue ↦ (refl, refl) | Green ↦ (refl, refl) | Yellow ↦ (refl, refl) | Purple ↦ (refl, refl) ] };

    fn number(self) -> isize {
        self as isize
    }

    fn values() -> &'static [MoreColorValues] {
        &[
            MoreColorValues::Red,
            MoreColorValues::Blue,
            MoreColorValues::Green,
            MoreColorValues::Yellow,
            MoreColorValues::Purple,
        ]
    }
}

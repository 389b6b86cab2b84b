//! The laws of the definitions: for all octets, trees, levels and modes.
//!
//! These functions do nothing; what counts is that their contracts are proved.
ghost use Rattle.oer_spec.specs.Laws.{Unambiguous, IsWithin, SkipsAdditions, IsCanonical, Lifts};

/// No encoding begins another of a tree that could be of the same type: octets spell one tree at most.
pub fn unambiguous()
    ensures { Unambiguous }
{}

/// What is a canonical encoding with bitmaps of the own size is a canonical one, and what is canonical is lenient.
pub fn within()
    ensures { IsWithin }
{}

/// A tree that can be written has one own-sized canonical encoding, which is what is written; equal trees have the
/// same, and none is a proper front of that of an alike tree.
pub fn canonical()
    ensures { IsCanonical }
{}

/// An older type reads what a newer sender wrote, as the value less the additions that it doesn't know.
pub fn skips()
    ensures { SkipsAdditions }
{}

/// A newer type reads what an older sender wrote, with its further additions absent.
pub fn lifts()
    ensures { Lifts }
{}

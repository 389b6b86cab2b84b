//! Types that hold values of a knot: of the type in which a cycle of types is cut.

use asn1_core::{DecodeError, Tag};
use oer_read::Decoder;
use oer_spec::Spelled;
use std::alloc::Global;

/// A type that holds values of `K`: how its trees and its admitted values follow from those of `K`, whatever they are.
pub trait HoldsKnot<K> {
    ghost use Rattle.std.specs.Prelude.{ℕ};
    ghost use Rattle.oer_rows.specs.Schema.{Typed};
    ghost use Rattle.oer_knots.specs.Ties.{Ties};

    ghost tied: { Typed K → Typed Self };

    /// The most that a value of `K` weighs in a value.
    ghost weight: { (K → ℕ) → Self → ℕ };

    ghost ties: { Ties tied weight };
}

/// A type that is read, where what reads a value of `K` is handed in.
pub trait DecodeKnot<K: Spelled>: Spelled {
    ghost use Rattle.oer_knots.specs.Answering.{Answering};
    ghost use Rattle.oer_knots.specs.Reading.{ReadsKnots};
    ghost use Rattle.oer_read.specs.Law.{Decodes};
    ghost use Rattle.oer_read.specs.Lists.{FnReturnsAtMut};

    /// What the type promises of its answers beside the law, as `Answered` of `Decode`, by what is said of the knots' answers.
    ghost answering: { Answering K Self };

    /// Reads a value, under the handed-in tag and the type's own constraints; each value of `K` in it by `knot`, which is
    /// called within no more levels than are left.
    ///
    /// Refused as the type refuses, and as `knot` does.
    fn decode_knot<F: Fn(&mut Decoder<'_>) -> Result<K, DecodeError>>(
        alloc: Global,
        decoder: &mut Decoder<'_>,
        tag: Tag,
        knot: &F,
    ) -> Result<Self, DecodeError>
        requires { ReadsKnots F.Fn knot.now (K.tree K.CONSTRAINTS) K.IsValue decoder.old.levels }
        ensures law { Decodes (Self.tree Self.CONSTRAINTS) Self.IsValue decoder.old result decoder.new }
        ensures answered { Self.answering.Answered (FnReturnsAtMut F.Fn knot.now) decoder.old result decoder.new };
}

/// A type that opens a scope, within which each value of `K` in it is read.
pub trait DecodeInside<K: Spelled>: DecodeKnot<K> {
    ghost use Rattle.oer_knots.specs.Reading.{ReadsInside};
    ghost use Rattle.oer_read.specs.Law.{Decodes};
    ghost use Rattle.oer_read.specs.Lists.{FnReturnsAtMut};

    /// Reads a value as `decode_knot` does, and calls `knot` within fewer levels than are left.
    ///
    /// Refused as `decode_knot` refuses.
    fn decode_inside<F: Fn(&mut Decoder<'_>) -> Result<K, DecodeError>>(
        alloc: Global,
        decoder: &mut Decoder<'_>,
        tag: Tag,
        knot: &F,
    ) -> Result<Self, DecodeError>
        requires { ReadsInside F.Fn knot.now (K.tree K.CONSTRAINTS) K.IsValue decoder.old.levels }
        ensures law { Decodes (Self.tree Self.CONSTRAINTS) Self.IsValue decoder.old result decoder.new }
        ensures answered { Self.answering.Answered (FnReturnsAtMut F.Fn knot.now) decoder.old result decoder.new };
}

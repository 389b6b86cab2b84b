//! Types that contain themselves.
ghost use Rattle.std.specs.Prelude.{◌<◌, Result, OnOk, IfErr};
ghost use Rattle.asn1_core.specs.declared.error.EncodeError.{EncodeError};
ghost use Rattle.oer_write.specs.Written.{Written, Encodes, Refused};
ghost use Rattle.oer_read.specs.Law.{Decodes};
ghost use Rattle.oer_knots.specs.Answering.{KnotAnswers, within};

use crate::ties::DecodeInside;
use asn1_core::{DecodeError, Tag};
use oer_read::Decoder;
use oer_spec::Spelled;
use std::alloc::Global;

/// A type that contains itself: a struct of one field, `C`, which holds values of the type.
pub trait Knot<C: Spelled>: Spelled {
    ghost use Rattle.std.specs.Prelude.{◌≡◌};
    ghost use Rattle.oer_knots.specs.Knots.{IsLayered};

    ghost content: { Self → C };

    /// The value that has this content.
    fn from_content(inner: C) -> Self
        ensures { content result ≡ inner };

    /// Its trees and its admitted values are those of its content.
    ghost layered: { IsLayered (Self.tree Self.CONSTRAINTS) Self.IsValue content (C.tree C.CONSTRAINTS) C.IsValue };
}

/// A type that contains itself, one layer of it seen: what its `Encode` needs of its trees.
pub trait Layered: Spelled {
    ghost use Rattle.oer_rows.specs.Schema.{Typed};
    ghost use Rattle.oer_knots.specs.Knots.{IsLayered};

    ghost inner: { Typed Self };

    ghost layers: { IsLayered (Self.tree Self.CONSTRAINTS) Self.IsValue (λ v. v) inner.tree inner.IsPart };
}

/// Brings to the prover that what was written, or refused, of a value's layer was of the value: what a type's `Encode` calls.
pub fn layer_of<K: Layered>(_value: &K)
    ensures done { (r : Result (Unit {0}) EncodeError) (e f : Written) → OnOk r (Encodes (K.inner.tree _value.now) e f) → OnOk r (Encodes (K.tree K.CONSTRAINTS _value.now) e f) }
    ensures value { (r : Result (Unit {0}) EncodeError) → OnOk r (K.inner.IsPart _value.now) → OnOk r (K.IsValue _value.now) }
    ensures refused { (r : Result (Unit {0}) EncodeError) (e f : Written) → IfErr r (λ x. Refused (K.inner.tree _value.now) x e f) → IfErr r (λ x. Refused (K.tree K.CONSTRAINTS _value.now) x e f) }
{}

/// Reads a value of a type that contains itself, within the levels left: each value in it within fewer.
///
/// Refused as its content refuses.
#[cycle(decode_knotted)]
pub fn decode_knotted<C: DecodeInside<K>, K: Knot<C>>(
    alloc: Global,
    decoder: &mut Decoder<'_>,
    tag: Tag,
) -> Result<K, DecodeError>
    ensures law { Decodes (K.tree K.CONSTRAINTS) K.IsValue decoder.old result decoder.new }
    ensures answered { KnotAnswers K.content C.answering decoder.old result decoder.new }
{
    let levels = decoder.levels();
    let read = |inner: &mut Decoder<'_>| -> Result<K, DecodeError>
        requires { inner.old.levels < levels }
        ensures law { Decodes (K.tree K.CONSTRAINTS) K.IsValue inner.old result inner.new }
        ensures answered { within K.content C.answering levels inner.old result inner.new }
    {
        let _bound = levels;
        decode_knotted::<C, K>(alloc, inner, K::TAG)
    };
    let content = C::decode_inside(alloc, decoder, tag, &read)?;
    Ok(K::from_content(content))
}

//! Alternatives, written from references.
ghost use Rattle.oer_choices.specs.Putting.{PutsOne};

use crate::alternatives::{Alternative, Alternatives, Either};
use asn1_core::{Choice, EncodeError, Tag};
use oer_rows::{End, Extensible, Place};
use oer_write::{Encode, Encoder};

/// Writes the alternative of the choice `E` with that tag, which holds the value (X.696, 20): `Ok` only for an admitted
/// value.
///
/// Refused by what the value is refused by, or for want of memory.
#[inline(always)]
pub fn put_alternative<E: Choice, T: Encode>(
    encoder: &mut Encoder<'_>,
    tag: Tag,
    value: &T,
) -> Result<(), EncodeError>
    ensures { PutsOne E.root_tags E.addition_tags tag (T.tree T.CONSTRAINTS value.now) (T.IsValue value.now) encoder.old result encoder.new }
{
    encoder.encode_alternative::<E, T>(tag, value)
}

/// A row whose alternatives are written from references to what they hold.
pub trait AlternativeViews<'v>: Alternatives {
    /// A reference to a value: in the place of that value. The end of a row is none.
    type View;

    /// Whether the value that is referred to is such a one; of the end of a row nothing is asked.
    ghost SeesOne: { Self.View → (Self.Values → Type 0) → Type 0 };

    /// Writes the alternative of the choice `E` that is there: `Ok` only for an admitted value. At the end of a row nothing
    /// is written.
    ///
    /// Refused by what the value is refused by, or for want of memory.
    fn write_alternative<E: Choice>(
        view: &Self::View,
        encoder: &mut Encoder<'_>,
    ) -> Result<(), EncodeError>
        ensures { SeesOne view.now (λ v. PutsOne E.root_tags E.addition_tags (Self.choices.tag_of v) (Self.choices.child v) (Self.choices.IsValue v) encoder.old result encoder.new) };
}

impl<'v> AlternativeViews<'v> for End {
    type View = ();

    ghost use Rattle.std.specs.Prelude.{⊤};

    ghost SeesOne = { λ v P. ⊤ };

    #[inline(always)]
    fn write_alternative<E: Choice>(
        _view: &(),
        _encoder: &mut Encoder<'_>,
    ) -> Result<(), EncodeError> {
        Ok(())
    }
}

impl<'v, G: Place, B: Encode + 'v, R: AlternativeViews<'v>> AlternativeViews<'v>
    for Alternative<G, B, R> {
    type View = Either<&'v B, R::View>;

    ghost use Rattle.oer_choices.specs.declared.alternatives.Either.TheVariants.{First, Rest};

    ghost SeesOne = { elim [ First b ↦ λ P. P (First b.now) | Rest r ↦ λ P. R.SeesOne r (λ v. P (Rest v)) ] };

    #[inline(always)]
    fn write_alternative<E: Choice>(
        view: &Either<&'v B, R::View>,
        encoder: &mut Encoder<'_>,
    ) -> Result<(), EncodeError> {
        match view {
            Either::First(value) => { put_alternative::<E, B>(encoder, G::tag(), *value) }
            Either::Rest(rest) => R::write_alternative::<E>(rest, encoder),
        }
    }
}

impl<'v, R: AlternativeViews<'v>> AlternativeViews<'v> for Extensible<R> {
    type View = R::View;

    ghost SeesOne = { λ v P. R.SeesOne v P };

    #[inline(always)]
    fn write_alternative<E: Choice>(
        view: &R::View,
        encoder: &mut Encoder<'_>,
    ) -> Result<(), EncodeError> {
        R::write_alternative::<E>(view, encoder)
    }
}

//! Alternatives: the trait of rows, and the cell of an alternative.
ghost use Rattle.std.specs.Prelude.{◌≡◌, ◌++◌, true, false, IfErr};
ghost use Rattle.asn1_core.specs.Tags.{AreDistinct};
ghost use Rattle.oer_read.specs.Law.{Decodes};

use asn1_core::{Choice, DecodeError, Tag};
use oer_read::{Decode, Decoder};
use oer_rows::{End, Extensible, Place};
use oer_spec::Spelled;
use std::alloc::Global;
use std::convert::Infallible;
use std::marker::PhantomData;

/// A value of the first alternative of a row, or of one of the others; of a row of parts one of its first part, or of the others.
#[derive(Debug, PartialEq, Eq, Drop)]
pub enum Either<B, R> {
    /// What the first alternative holds, or a value of the first part.
    First(B),
    /// A value of the row behind it.
    Rest(R),
}

/// The alternatives of a choice, from one on, as a type: a row.
///
/// A row is built of cells, each of which names an alternative and the row behind it. No value of a row is ever made. From
/// the impls of the cells the tags, the trees and the admitted values of a choice are derived, and what reads and writes
/// it.
pub trait Alternatives {
    ghost use Rattle.oer_choices.specs.Choosing.{Choices, AreChoices};

    /// Their values: of the first one, or of the others.
    type Values;

    ghost choices: { Choices Self.Values };

    ghost are_choices: { AreChoices choices };
}

/// A row whose alternatives are read.
pub trait ReadsAlternatives: Alternatives {
    ghost use Rattle.asn1_core.specs.declared.error.DecodeError.{DecodeError};
    ghost use Rattle.asn1_core.specs.declared.tag.Tag.{Tag};
    ghost use Rattle.oer_read.specs.State.{State};

    /// Why reading the alternative with that tag is refused: what its type refuses, or that there is none.
    ghost Refuses: { Tag → State → DecodeError → Type 0 };

    /// Reads what the alternative with that tag holds (X.696, 20): the value is an admitted one, and of that alternative.
    ///
    /// Refused: a tag of no alternative, as `InvalidTagVariantOnChoice` of the choice `D`; else what the alternative's type
    /// refuses.
    fn read<D: Choice>(
        alloc: Global,
        decoder: &mut Decoder<'_>,
        tag: Tag,
    ) -> Result<Self::Values, DecodeError>
        requires distinct { AreDistinct (Self.choices.roots ++ Self.choices.additions) }
        ensures law { Decodes Self.choices.child (λ v. Self.choices.IsValue v × (Self.choices.tag_of v ≡ tag)) decoder.old result decoder.new }
        ensures refused { IfErr result (λ e. Self.Refuses tag decoder.old e) };
}

/// An alternative of type `B` with the tag `G`, and the row `R` after it.
pub struct Alternative<G, B, R>(PhantomData<(G, B, R)>);

/// Whether two tags are one.
fn is_same(a: Tag, b: Tag) -> bool
    ensures same { result ≡ true → a ≡ b }
    ensures other { result ≡ false → a ≡ b → ⊥ }
{
    a == b
}

impl Alternatives for End {
    ghost use Rattle.oer_choices.specs.Choosing.{no_choice, no_choice_is};

    type Values = Infallible;

    ghost choices = { no_choice };

    ghost are_choices = { no_choice_is };
}

impl ReadsAlternatives for End {
    ghost use Rattle.oer_choices.specs.Refusals.{NoAlternative};

    ghost Refuses = { λ g s e. NoAlternative g s e };

    fn read<D: Choice>(
        _alloc: Global,
        decoder: &mut Decoder<'_>,
        tag: Tag,
    ) -> Result<Infallible, DecodeError> {
        Err(decoder.unknown_tag::<D>(tag))
    }
}

impl<G: Place, B: Spelled, R: Alternatives> Alternatives for Alternative<G, B, R> {
    ghost use Rattle.oer_choices.specs.Choosing.{one_of, one_of_is};
    ghost use Rattle.oer_rows.specs.Schema.{typed, typed_is};

    type Values = Either<B, R::Values>;

    ghost choices = { one_of G.tag (typed B.tree B.CONSTRAINTS B.IsValue) R.choices };

    ghost are_choices = { one_of_is G.tag (typed B.tree B.CONSTRAINTS B.IsValue) R.choices (typed_is B.tree B.IsValue B.is_tree B.alike B.CONSTRAINTS B.consistent) R.are_choices };
}

impl<G: Place, B: Decode, R: ReadsAlternatives> ReadsAlternatives for Alternative<G, B, R> {
    ghost use Rattle.oer_choices.specs.Refusals.{AlternativeRefused};

    ghost Refuses = { λ g s e. AlternativeRefused G.tag (B.Answered B.CONSTRAINTS) R.Refuses g s e };

    fn read<D: Choice>(
        alloc: Global,
        decoder: &mut Decoder<'_>,
        tag: Tag,
    ) -> Result<Self::Values, DecodeError> {
        if is_same(G::tag(), tag) {
            match B::decode(alloc, decoder) {
                Ok(value) => Ok(Either::First(value)),
                Err(e) => Err(e),
            }
        } else {
            match R::read::<D>(alloc, decoder, tag) {
                Ok(rest) => Ok(Either::Rest(rest)),
                Err(e) => Err(e),
            }
        }
    }
}

/// The root alternatives end here, and the alternatives of `R` are extension additions.
impl<R: Alternatives> Alternatives for Extensible<R> {
    ghost use Rattle.oer_choices.specs.Choosing.{adding, adding_is};

    type Values = R::Values;

    ghost choices = { adding R.choices };

    ghost are_choices = { adding_is R.choices R.are_choices };
}

impl<R: ReadsAlternatives> ReadsAlternatives for Extensible<R> {
    ghost Refuses = { R.Refuses };

    fn read<D: Choice>(
        alloc: Global,
        decoder: &mut Decoder<'_>,
        tag: Tag,
    ) -> Result<R::Values, DecodeError> {
        R::read::<D>(alloc, decoder, tag)
    }
}

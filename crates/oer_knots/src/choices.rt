//! Choices with alternatives that hold knots.
ghost use Rattle.std.specs.Prelude.{◌≡◌, ◌++◌, true, false, IfErr};
ghost use Rattle.asn1_core.specs.Tags.{AreDistinct};
ghost use Rattle.oer_choices.specs.Choosing.{are_apart, IsOneOf};
ghost use Rattle.oer_choices.specs.Putting.{PutsOne};
ghost use Rattle.oer_read.specs.Law.{Decodes, Promised};
ghost use Rattle.oer_read.specs.Lists.{FnReturnsAtMut};
ghost use Rattle.oer_knots.specs.Reading.{ReadsKnots};

use crate::ties::{DecodeInside, DecodeKnot, HoldsKnot};
use asn1_core::{AsnType, Choice, DecodeError, EncodeError, Tag};
use oer_choices::{
    Alternating, Alternative, AlternativeViews, Alternatives, Either, OneOf, ReadsAlternatives,
    put_alternative,
};
use oer_read::{Decode, Decoder};
use oer_rows::{End, Extensible, Place};
use oer_spec::Spelled;
use oer_write::{Encode, Encoder};
use std::alloc::Global;
use std::convert::Infallible;
use std::marker::PhantomData;

/// An alternative of type `B`, which holds knots, with the tag `G`, and the row `R` after it.
pub struct AlternativeKnot<G, B, R>(PhantomData<(G, B, R)>);

/// Alternatives by the values of `K` that they hold.
pub trait KnotAlternatives<K> {
    ghost use Rattle.std.specs.Prelude.{ℕ};
    ghost use Rattle.oer_rows.specs.Schema.{Typed};
    ghost use Rattle.oer_choices.specs.Choosing.{Choices};
    ghost use Rattle.oer_knots.specs.Choices.{TiesChoice};

    /// The values of the row.
    type Values;

    ghost choices: { Typed K → Choices Self.Values };

    /// The most that a value of `K` weighs in a value.
    ghost weight: { (K → ℕ) → Self.Values → ℕ };

    ghost ties: { TiesChoice choices weight };
}

impl<K> KnotAlternatives<K> for End {
    ghost use Rattle.oer_choices.specs.Choosing.{no_choice};
    ghost use Rattle.oer_knots.specs.Choices.{no_choice_ties};

    type Values = Infallible;

    ghost choices = { λ of. no_choice };

    ghost weight = { λ size v. 0 };

    ghost ties = { no_choice_ties };
}

impl<K, G: Place, B: Spelled, R: KnotAlternatives<K>> KnotAlternatives<K> for Alternative<G, B, R> {
    ghost use Rattle.oer_rows.specs.Schema.{typed, typed_is};
    ghost use Rattle.oer_choices.specs.Choosing.{one_of};
    ghost use Rattle.oer_knots.specs.Choices.{alternative_weight, alternative_ties};

    type Values = Either<B, R::Values>;

    ghost choices = { λ of. one_of G.tag (typed B.tree B.CONSTRAINTS B.IsValue) (R.choices of) };

    ghost weight = { alternative_weight G.tag (typed B.tree B.CONSTRAINTS B.IsValue) R.choices R.weight R.ties };

    ghost ties = { alternative_ties G.tag (typed B.tree B.CONSTRAINTS B.IsValue) R.choices R.weight R.ties (typed_is B.tree B.IsValue B.is_tree B.alike B.CONSTRAINTS B.consistent) };
}

impl<K, G: Place, B: HoldsKnot<K>, R: KnotAlternatives<K>> KnotAlternatives<K>
    for AlternativeKnot<G, B, R> {
    ghost use Rattle.oer_choices.specs.Choosing.{one_of};
    ghost use Rattle.oer_knots.specs.Choices.{knot_weight, knot_ties};

    type Values = Either<B, R::Values>;

    ghost choices = { λ of. one_of G.tag (B.tied of) (R.choices of) };

    ghost weight = { knot_weight G.tag B.tied B.weight R.choices R.weight B.ties R.ties };

    ghost ties = { knot_ties G.tag B.tied B.weight R.choices R.weight B.ties R.ties };
}

impl<K, R: KnotAlternatives<K>> KnotAlternatives<K> for Extensible<R> {
    ghost use Rattle.oer_choices.specs.Choosing.{adding};
    ghost use Rattle.oer_knots.specs.Choices.{adding_ties};

    type Values = R::Values;

    ghost choices = { λ of. adding (R.choices of) };

    ghost weight = { R.weight };

    ghost ties = { adding_ties R.choices R.weight R.ties };
}

impl<G: Place, B: Spelled, R: Alternatives> Alternatives for AlternativeKnot<G, B, R> {
    ghost use Rattle.oer_choices.specs.Choosing.{one_of, one_of_is};
    ghost use Rattle.oer_rows.specs.Schema.{typed, typed_is};

    type Values = Either<B, R::Values>;

    ghost choices = { one_of G.tag (typed B.tree B.CONSTRAINTS B.IsValue) R.choices };

    ghost are_choices = { one_of_is G.tag (typed B.tree B.CONSTRAINTS B.IsValue) R.choices (typed_is B.tree B.IsValue B.is_tree B.alike B.CONSTRAINTS B.consistent) R.are_choices };
}

impl<G: Place, B: Decode, R: ReadsAlternatives> ReadsAlternatives for AlternativeKnot<G, B, R> {
    ghost use Rattle.oer_choices.specs.Refusals.{AlternativeRefused};

    ghost Refuses = { λ g s e. AlternativeRefused G.tag (B.Answered B.CONSTRAINTS) R.Refuses g s e };

    fn read<D: Choice>(
        alloc: Global,
        decoder: &mut Decoder<'_>,
        tag: Tag,
    ) -> Result<Self::Values, DecodeError> {
        if is_same(G::tag(), tag) {
            match B::decode(alloc, decoder) {
                Ok(value) => Ok(Either::First(value)),
                Err(e) => Err(e),
            }
        } else {
            match R::read::<D>(alloc, decoder, tag) {
                Ok(rest) => Ok(Either::Rest(rest)),
                Err(e) => Err(e),
            }
        }
    }
}

impl<'v, G: Place, B: Encode + 'v, R: AlternativeViews<'v>> AlternativeViews<'v>
    for AlternativeKnot<G, B, R> {
    type View = Either<&'v B, R::View>;

    ghost use Rattle.oer_choices.specs.declared.alternatives.Either.TheVariants.{First, Rest};

    ghost SeesOne = { elim [ First b ↦ λ P. P (First b.now) | Rest r ↦ λ P. R.SeesOne r (λ v. P (Rest v)) ] };

    #[inline(always)]
    fn write_alternative<E: Choice>(
        view: &Either<&'v B, R::View>,
        encoder: &mut Encoder<'_>,
    ) -> Result<(), EncodeError> {
        match view {
            Either::First(value) => { put_alternative::<E, B>(encoder, G::tag(), *value) }
            Either::Rest(rest) => R::write_alternative::<E>(rest, encoder),
        }
    }
}

/// Whether two tags are one.
fn is_same(a: Tag, b: Tag) -> bool
    ensures same { result ≡ true → a ≡ b }
    ensures other { result ≡ false → a ≡ b → ⊥ }
{
    a == b
}

/// Alternatives that are read, each knot in them by what is handed in.
pub trait ReadsKnotAlternatives<K: Spelled>: Alternatives {
    ghost use Rattle.asn1_core.specs.declared.tag.Tag.{Tag};
    ghost use Rattle.oer_knots.specs.Answering.{Refusing};

    /// Why reading the alternative with that tag is refused, as `Refuses` of `ReadsAlternatives`, by what is said of the knots'
    /// answers.
    ghost refusing: { Tag → Refusing K };

    /// Reads what the alternative with that tag holds (X.696, 20), each value of `K` in it by `knot`.
    ///
    /// Refused as `ReadsAlternatives::read` refuses, and as `knot` does.
    fn read_knots<D: Choice, F: Fn(&mut Decoder<'_>) -> Result<K, DecodeError>>(
        alloc: Global,
        decoder: &mut Decoder<'_>,
        tag: Tag,
        knot: &F,
    ) -> Result<Self::Values, DecodeError>
        requires distinct { AreDistinct (Self.choices.roots ++ Self.choices.additions) }
        requires knots { ReadsKnots F.Fn knot.now (K.tree K.CONSTRAINTS) K.IsValue decoder.old.levels }
        ensures law { Decodes Self.choices.child (λ v. Self.choices.IsValue v × (Self.choices.tag_of v ≡ tag)) decoder.old result decoder.new }
        ensures refused { IfErr result (λ e. (Self.refusing tag).Refuses (FnReturnsAtMut F.Fn knot.now) decoder.old e) };
}

impl<K: Spelled> ReadsKnotAlternatives<K> for End {
    ghost use Rattle.oer_choices.specs.Refusals.{NoAlternative};
    ghost use Rattle.oer_knots.specs.Answering.{unknotted};

    ghost refusing = { λ g. unknotted (NoAlternative g) };

    fn read_knots<D: Choice, F: Fn(&mut Decoder<'_>) -> Result<K, DecodeError>>(
        _alloc: Global,
        decoder: &mut Decoder<'_>,
        tag: Tag,
        _knot: &F,
    ) -> Result<Infallible, DecodeError> {
        Err(decoder.unknown_tag::<D>(tag))
    }
}

impl<K: Spelled, G: Place, B: Decode, R: ReadsKnotAlternatives<K>> ReadsKnotAlternatives<K>
    for Alternative<G, B, R> {
    ghost use Rattle.oer_knots.specs.Answering.{plain, alternative_before};

    ghost refusing = { alternative_before G.tag (plain (B.Answered B.CONSTRAINTS)) R.refusing };

    fn read_knots<D: Choice, F: Fn(&mut Decoder<'_>) -> Result<K, DecodeError>>(
        alloc: Global,
        decoder: &mut Decoder<'_>,
        tag: Tag,
        knot: &F,
    ) -> Result<Self::Values, DecodeError> {
        if is_same(G::tag(), tag) {
            match B::decode(alloc, decoder) {
                Ok(value) => Ok(Either::First(value)),
                Err(e) => Err(e),
            }
        } else {
            match R::read_knots::<D, F>(alloc, decoder, tag, knot) {
                Ok(rest) => Ok(Either::Rest(rest)),
                Err(e) => Err(e),
            }
        }
    }
}

impl<K: Spelled, G: Place, B: DecodeKnot<K>, R: ReadsKnotAlternatives<K>> ReadsKnotAlternatives<K>
    for AlternativeKnot<G, B, R> {
    ghost use Rattle.oer_knots.specs.Answering.{alternative_before};

    ghost refusing = { alternative_before G.tag B.answering R.refusing };

    fn read_knots<D: Choice, F: Fn(&mut Decoder<'_>) -> Result<K, DecodeError>>(
        alloc: Global,
        decoder: &mut Decoder<'_>,
        tag: Tag,
        knot: &F,
    ) -> Result<Self::Values, DecodeError> {
        if is_same(G::tag(), tag) {
            match B::decode_knot(alloc, decoder, B::TAG, knot) {
                Ok(value) => Ok(Either::First(value)),
                Err(e) => Err(e),
            }
        } else {
            match R::read_knots::<D, F>(alloc, decoder, tag, knot) {
                Ok(rest) => Ok(Either::Rest(rest)),
                Err(e) => Err(e),
            }
        }
    }
}

impl<K: Spelled, R: ReadsKnotAlternatives<K>> ReadsKnotAlternatives<K> for Extensible<R> {
    ghost refusing = { R.refusing };

    fn read_knots<D: Choice, F: Fn(&mut Decoder<'_>) -> Result<K, DecodeError>>(
        alloc: Global,
        decoder: &mut Decoder<'_>,
        tag: Tag,
        knot: &F,
    ) -> Result<R::Values, DecodeError> {
        R::read_knots::<D, F>(alloc, decoder, tag, knot)
    }
}

/// The alternatives of a type that holds knots: how their trees and values follow from those of the knot.
pub trait KnotAlternating<K> {
    ghost use Rattle.std.specs.Prelude.{◌≡◌, ℕ};
    ghost use Rattle.oer_rows.specs.Schema.{Typed};
    ghost use Rattle.oer_choices.specs.Choosing.{Choices};
    ghost use Rattle.oer_knots.specs.Choices.{TiesChoice};

    /// The values of the row.
    type KnotValues;

    ghost knot_choices: { Typed K → Choices Self.KnotValues };

    ghost knot_weight: { (K → ℕ) → Self.KnotValues → ℕ };

    ghost knot_ties: { TiesChoice knot_choices knot_weight };

    ghost knot_alternative: { Self → Self.KnotValues };

    /// The most that a value of `K` weighs in a value, by its variant.
    ghost variant_weight: { (K → ℕ) → Self → ℕ };

    ghost weighs: { (size : K → ℕ) (v : Self) → knot_weight size (knot_alternative v) ≡ variant_weight size v };
}

/// A type that is read by its row, where what reads a knot is handed in.
pub trait TakesKnotAlternative<K: Spelled>: Alternating {
    ghost use Rattle.asn1_core.specs.declared.tag.Tag.{Tag};
    ghost use Rattle.oer_knots.specs.Answering.{Refusing};

    /// Why reading the alternative with that tag is refused (`ReadsKnotAlternatives::refusing` of the row).
    ghost refusing: { Tag → Refusing K };

    /// Reads what the alternative with that tag holds (X.696, 20): `read_knot_alternative`.
    ///
    /// Refused as `ReadsKnotAlternatives::read_knots` refuses, with the choice `D`.
    fn take_knot<D: Choice, F: Fn(&mut Decoder<'_>) -> Result<K, DecodeError>>(
        alloc: Global,
        decoder: &mut Decoder<'_>,
        tag: Tag,
        knot: &F,
    ) -> Result<Self, DecodeError>
        requires { ReadsKnots F.Fn knot.now (K.tree K.CONSTRAINTS) K.IsValue decoder.old.levels }
        ensures law { Decodes (λ v. Self.row_choices.child (Self.alternative v)) (λ v. IsOneOf Self.row_choices (Self.alternative v) × (Self.row_choices.tag_of (Self.alternative v) ≡ tag)) decoder.old result decoder.new }
        ensures refused { IfErr result (λ e. (Self.refusing tag).Refuses (FnReturnsAtMut F.Fn knot.now) decoder.old e) };
}

/// Reads what the alternative with that tag holds (X.696, 20), by the row `R` of `T`: what `TakesKnotAlternative::take_knot`
/// calls.
///
/// Refused as `ReadsKnotAlternatives::read_knots` refuses.
pub fn read_knot_alternative<
    K: Spelled,
    T: Alternating,
    R: ReadsKnotAlternatives<K, Values = T::Values>,
    D: Choice,
    F: Fn(&mut Decoder<'_>) -> Result<K, DecodeError>,
>(alloc: Global, decoder: &mut Decoder<'_>, tag: Tag, knot: &F) -> Result<T, DecodeError>
    requires apart { are_apart (R.choices.roots ++ R.choices.additions) ≡ true }
    requires knots { ReadsKnots F.Fn knot.now (K.tree K.CONSTRAINTS) K.IsValue decoder.old.levels }
    ensures law { Decodes (λ v. R.choices.child (T.alternative v)) (λ v. IsOneOf R.choices (T.alternative v) × (R.choices.tag_of (T.alternative v) ≡ tag)) decoder.old result decoder.new }
    ensures refused { IfErr result (λ e. (R.refusing tag).Refuses (FnReturnsAtMut F.Fn knot.now) decoder.old e) }
{
    match R::read_knots::<D, F>(alloc, decoder, tag, knot) {
        Ok(value) => Ok(T::from_alternative(value)),
        Err(e) => Err(e),
    }
}

impl<K, T: KnotAlternating<K>> HoldsKnot<K> for OneOf<T> {
    ghost use Rattle.oer_knots.specs.Choices.{choice_tied, choice_ties};

    ghost tied = { choice_tied T.knot_choices T.knot_weight (λ v. T.knot_alternative v.0) };

    ghost weight = { λ size v. T.variant_weight size v.0 };

    ghost ties = { choice_ties T.knot_choices T.knot_weight (λ v. T.knot_alternative v.0) T.knot_ties (λ size v. T.variant_weight size v.0) (λ size v. T.weighs size v.0) };
}

impl<K: Spelled, T: TakesKnotAlternative<K>> DecodeKnot<K> for OneOf<T> {
    ghost use Rattle.std.specs.Prelude.{◌≡◌};
    ghost use Rattle.oer_choices.specs.Choosing.{IsOneOf};
    ghost use Rattle.oer_knots.specs.Answering.{of_choice};

    ghost answering = { of_choice (λ v. T.row_choices.child (T.alternative v.0)) (λ g v. IsOneOf T.row_choices (T.alternative v.0) × (T.row_choices.tag_of (T.alternative v.0) ≡ g)) T.row_choices.roots T.row_choices.additions T.row_choices.is_extensible T.refusing };

    fn decode_knot<F: Fn(&mut Decoder<'_>) -> Result<K, DecodeError>>(
        alloc: Global,
        decoder: &mut Decoder<'_>,
        tag: Tag,
        knot: &F,
    ) -> Result<OneOf<T>, DecodeError> {
        Self::decode_inside::<F>(alloc, decoder, tag, knot)
    }
}

impl<K: Spelled, T: TakesKnotAlternative<K>> DecodeInside<K> for OneOf<T> {
    fn decode_inside<F: Fn(&mut Decoder<'_>) -> Result<K, DecodeError>>(
        alloc: Global,
        decoder: &mut Decoder<'_>,
        _tag: Tag,
        knot: &F,
    ) -> Result<OneOf<T>, DecodeError> {
        decoder.decode_choice_with::<OneOf<T>, _>(
            OneOf::<T>::CONSTRAINTS,
            |inner: &mut Decoder<'_>, tag: Tag| -> Result<OneOf<T>, DecodeError>
                requires { ReadsKnots F.Fn knot.now (K.tree K.CONSTRAINTS) K.IsValue inner.old.levels }
                ensures { Promised (λ v. T.row_choices.child (T.alternative v.0)) (λ v. IsOneOf T.row_choices (T.alternative v.0) × (T.row_choices.tag_of (T.alternative v.0) ≡ tag)) (λ s r t. IfErr r (λ e. (T.refusing tag).Refuses (FnReturnsAtMut F.Fn knot.entry.now) s e)) inner.old result inner.new }
            {
                match T::take_knot::<OneOf<T>, F>(alloc, inner, tag, knot) {
                    Ok(value) => Ok(OneOf(value)),
                    Err(e) => Err(e),
                }
            },
        )
    }
}

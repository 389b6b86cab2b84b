//! An ENUMERATED that keeps the numbers of values that it doesn't know.
ghost use Rattle.std.specs.Prelude.{◌≡◌, true, cond, Some, None, IfErr};
ghost use Rattle.asn1_core.specs.Numbers.{in_isize};
ghost use Rattle.asn1_core.specs.Octets.{AreOctets};
ghost use Rattle.oer_choices.specs.Numbered.{value_among};
ghost use Rattle.oer_kept.specs.KeptNumbers.{kept_at, kept_number, kept_of, is_kept};
ghost use Rattle.oer_read.specs.Answers.{Took};
ghost use Rattle.oer_spec.specs.Reading.{Gives, IsNotForMemory};

use asn1_core::{
    AsnType, Codec, Constraints, DecodeError, DecodeErrorKind, EncodeError, EncodeErrorKind,
    Enumerated, Tag,
};
use oer_choices::{Enumeration, Numbered};
use oer_leaf_read::read_enumerated;
use oer_read::{Decode, Decoder};
use oer_spec::{EqualAsSpelled, Spelled};
use oer_write::{Encode, Encoder};
use std::alloc::Global;

/// The ENUMERATED type (X.680, clause 20) of the values of `T`, and of those that newer versions of it have: each is read and
/// written by its number (X.696, 11).
#[derive(Clone, Copy, Debug)]
pub enum KeptEnumeration<T> {
    /// A value of this version.
    Known(T),
    /// The number of another value. With a number of this version it is no value, and isn't written.
    Other(isize),
}

/// The value of `T` with that number, where there is one.
fn value_of<T: Numbered>(number: isize) -> Option<T>
    ensures { result ≡ value_among T.number T.values number }
{
    match Enumeration::<T>::from_discriminant(number) {
        Some(value) => Some(value.0),
        None => None,
    }
}

impl<T: Numbered> KeptEnumeration<T> {
    /// The value of a number: `Known` where this version has it.
    pub fn from_number(number: isize) -> KeptEnumeration<T>
        ensures { result ≡ kept_of T.number T.values number }
    {
        match value_of::<T>(number) {
            Some(value) => KeptEnumeration::Known(value),
            None => KeptEnumeration::Other(number),
        }
    }

    /// The number.
    pub fn number(&self) -> isize
        ensures { result ≡ kept_number T.number self.now }
    {
        match self {
            KeptEnumeration::Known(value) => value.number(),
            KeptEnumeration::Other(number) => *number,
        }
    }

    /// Whether it is a value: not the number of one of this version as that of another.
    pub fn is_value(&self) -> bool
        ensures { result ≡ is_kept T.number T.values self.now }
    {
        match self {
            KeptEnumeration::Known(_value) => true,
            KeptEnumeration::Other(number) => value_of::<T>(*number).is_none(),
        }
    }
}

/// Equal where the numbers are.
impl<T: Numbered> PartialEq for KeptEnumeration<T> {
    ghost use Rattle.std.specs.Cmp.{partial_equiv_from_equiv};
    ghost use Rattle.oer_choices.specs.Numbered.{same_number, same_number_equiv};
    ghost use Rattle.oer_kept.specs.KeptNumbers.{kept_number};

    ghost eq = { same_number (λ v. kept_number T.number v) };

    ghost laws = { partial_equiv_from_equiv (same_number_equiv (λ v. kept_number T.number v)) };

    fn eq(&self, other: &KeptEnumeration<T>) -> bool {
        self.number() == other.number()
    }
}

impl<T: Numbered> Eq for KeptEnumeration<T> {
    ghost use Rattle.oer_choices.specs.Numbered.{same_number_equiv};
    ghost use Rattle.oer_kept.specs.KeptNumbers.{kept_number};

    ghost laws = { same_number_equiv (λ v. kept_number T.number v) };
}

impl<T: Numbered> AsnType for KeptEnumeration<T> {
    ghost use Rattle.std.specs.Prelude.{refl};
    ghost use Rattle.asn1_core.specs.declared.tag.TheConstants.Tag.{ENUMERATED};
    ghost use Rattle.asn1_core.specs.declared.constraints.TheConstants.Constraints.{NONE};

    ghost TAG = { ENUMERATED };

    const TAG: Tag = Tag::ENUMERATED;

    ghost CONSTRAINTS = { NONE };

    const CONSTRAINTS: Constraints = Constraints::NONE;

    ghost consistent = { refl };

    // said again, since the trait's own would ask that a `T` is not too large
    const IS_CHOICE: bool = false;
}

impl<T: Numbered> Spelled for KeptEnumeration<T> {
    ghost use Rattle.oer_kept.specs.KeptNumbers.{kept_tree, IsKept, kept_is, kept_alike};

    ghost tree = { λ c v. kept_tree T.number T.values v };

    ghost IsValue = { λ v. IsKept T.number T.values v };

    ghost is_tree = { λ c k v i. kept_is T.number T.values v i };

    ghost alike = { λ c k v w i j. kept_alike T.number T.values v w i j };
}

impl<T: Numbered> EqualAsSpelled for KeptEnumeration<T> {
    ghost use Rattle.oer_kept.specs.KeptNumbers.{kept_same};

    ghost eq_is_same = { λ c k v w i j. kept_same T.number T.values v w i j };
}

/// Written by its number, as `Encoder::encode_enumerated` writes.
///
/// Refused: an `Other` with a number of this version, as `ValueConstraintNotSatisfied`; or for want of memory.
impl<T: Numbered> Encode for KeptEnumeration<T> {
    #[inline(always)]
    fn encode_with_tag_and_constraints(
        &self,
        encoder: &mut Encoder<'_>,
        tag: Tag,
        _constraints: Constraints,
    ) -> Result<(), EncodeError> {
        if !self.is_value() {
            return Err(EncodeError::from(EncodeErrorKind::ValueConstraintNotSatisfied));
        }
        encoder.encode_enumerated_number(tag, self.number())
    }
}

/// The value at the front, and what is left.
#[tactic(auto, unfolding(crate::specs::KeptNumbers::kept_at))]
fn read_kept<T: Numbered>(
    codec: Codec,
    input: &[u8],
) -> Result<(KeptEnumeration<T>, &[u8]), DecodeErrorKind>
    ensures function { Gives (λ x. (x.0, x.1.now)) result (kept_at T.number T.values codec input.now) }
    ensures memory { IfErr result IsNotForMemory }
{
    let (number, rest) = read_enumerated(codec, input)?;
    Ok((KeptEnumeration::from_number(number), rest))
}

/// The octets that are left, each of which is one.
pub(crate) fn octets<'input>(decoder: &Decoder<'input>) -> &'input [u8]
    ensures input { result.now ≡ decoder.now.input }
    ensures octets { AreOctets decoder.now.input }
{
    let input: &'input [u8] = decoder.remaining();
    input
}

/// Goes on behind what was read, or answers the refusal in the decoder's mode.
fn take<'input, V>(
    decoder: &mut Decoder<'input>,
    answer: Result<(V, &'input [u8]), DecodeErrorKind>,
) -> Result<V, DecodeError>
    ensures { Took answer.entry decoder.old result decoder.new }
{
    match answer {
        Ok((value, rest)) => {
            decoder.set_remaining(rest);
            Ok(value)
        }
        Err(kind) => Err(kind.with_codec(decoder.codec())),
    }
}

/// Read by its number: any number of isize is that of a value.
///
/// Refused as `Decoder::decode_enumerated` refuses, but never by `DiscriminantValueNotFound`.
impl<T: Numbered> Decode for KeptEnumeration<T> {
    ghost use Rattle.std.specs.Prelude.{false};
    ghost use Rattle.oer_kept.specs.KeptNumbers.{kept_at};
    ghost use Rattle.oer_read.specs.Answers.{LeafAnswers};

    ghost Answered = { λ c s r t. LeafAnswers (λ v. v) false s r t (kept_at T.number T.values s.codec s.input) };

    fn decode_with_tag_and_constraints(
        _alloc: Global,
        decoder: &mut Decoder<'_>,
        _tag: Tag,
        _constraints: Constraints,
    ) -> Result<KeptEnumeration<T>, DecodeError> {
        let answer = read_kept::<T>(decoder.codec(), octets(decoder));
        take(decoder, answer)
    }
}

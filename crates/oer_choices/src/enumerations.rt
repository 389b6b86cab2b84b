//! Enumerated types by the list of their values: every impl of a codec's traits is the library's.
ghost use Rattle.std.specs.Prelude.{◌≡◌};
ghost use Rattle.oer_choices.specs.Numbered.{value_among};

use asn1_core::{AsnType, Constraints, DecodeError, EncodeError, Enumerated, Tag};
use oer_read::{Decode, Decoder};
use oer_spec::{EqualAsSpelled, Spelled};
use oer_write::{Encode, Encoder};
use std::alloc::Global;
use std::fmt;
use std::fmt::{Debug, Formatter};

/// A type whose values have numbers and stand in a list: what it says to be the content of an `Enumeration`.
pub trait Numbered: Copy + 'static {
    ghost use Rattle.std.specs.Prelude.{ℤ, List};
    ghost use Rattle.oer_choices.specs.Numbered.{IsListed};

    ghost number: { Self → ℤ };

    ghost values: { List Self };

    /// Each value stands in the list, no other one before it has its number, and that is one of isize.
    ghost listed: { (v : Self) → IsListed number values v };

    /// The number of the value.
    fn number(self) -> isize
        ensures { result ≡ number self };

    /// The values.
    fn values() -> &'static [Self]
        ensures { result.now ≡ values };
}

/// The ENUMERATED type (X.680, clause 20) of the values of `T`.
#[derive(Clone, Copy)]
pub struct Enumeration<T>(pub T);

/// Equal where the numbers are.
impl<T: Numbered> PartialEq for Enumeration<T> {
    ghost use Rattle.std.specs.Cmp.{partial_equiv_from_equiv};
    ghost use Rattle.oer_choices.specs.Numbered.{same_number, same_number_equiv};

    ghost eq = { same_number (λ v. T.number v.0) };

    ghost laws = { partial_equiv_from_equiv (same_number_equiv (λ v. T.number v.0)) };

    fn eq(&self, other: &Enumeration<T>) -> bool {
        self.0.number() == other.0.number()
    }
}

impl<T: Numbered> Eq for Enumeration<T> {
    ghost use Rattle.oer_choices.specs.Numbered.{same_number_equiv};

    ghost laws = { same_number_equiv (λ v. T.number v.0) };
}

/// As the value's.
impl<T: Debug> Debug for Enumeration<T> {
    fn fmt<W: fmt::Write>(&self, f: &mut Formatter<W>) -> fmt::Result {
        Debug::fmt(&self.0, f)
    }
}

/// The value with that number, where there is one.
fn value_of<T: Numbered>(number: isize) -> Option<T>
    ensures { result ≡ value_among T.number T.values number }
{
    for value in T::values() {
        if value.number() == number {
            return Some(*value);
        }
    }
    None
}

impl<T: Numbered> AsnType for Enumeration<T> {
    ghost use Rattle.std.specs.Prelude.{refl};
    ghost use Rattle.asn1_core.specs.declared.tag.TheConstants.Tag.{ENUMERATED};
    ghost use Rattle.asn1_core.specs.declared.constraints.TheConstants.Constraints.{NONE};

    ghost TAG = { ENUMERATED };

    const TAG: Tag = Tag::ENUMERATED;

    ghost CONSTRAINTS = { NONE };

    const CONSTRAINTS: Constraints = Constraints::NONE;

    ghost consistent = { refl };

    // said again, since the trait's own would ask that a `T` is not too large
    const IS_CHOICE: bool = false;
}

impl<T: Numbered> Enumerated for Enumeration<T> {
    ghost use Rattle.std.specs.Prelude.{option_map, refl};
    ghost use Rattle.std.proofs.Common.{ap};
    ghost use Rattle.oer_choices.specs.Numbered.{value_among_as, value_among_as-number};

    ghost number = { λ v. T.number v.0 };

    ghost of_number = { value_among_as (λ v. record { 0 = v }) T.number T.values };

    #[inline(always)]
    fn discriminant(&self) -> isize {
        self.0.number()
    }

    fn from_discriminant(discriminant: isize) -> Option<Enumeration<T>> {
        match value_of::<T>(discriminant) {
            Some(value) => Some(Enumeration(value)),
            None => None,
        }
    }

    ghost fits = { λ v. (T.listed v.0).0 };

    ghost known = { λ v. ap (option_map (λ w. record { 0 = w })) (T.listed v.0).1 };

    ghost back = { λ n v e. value_among_as-number (λ w. record { 0 = w }) T.number T.values (λ w. w.0) (λ w. refl) n v e };
}

impl<T: Numbered> Spelled for Enumeration<T> {
    ghost use Rattle.oer_spec.specs.Spelled.{IsAny, enumerated, enumerated_alike, enumerated_is};

    ghost tree = { λ c v. enumerated (T.number v.0) };

    ghost IsValue = { IsAny };

    ghost is_tree = { λ c k v i. enumerated_is (T.number v.0) (T.listed v.0).0 };

    ghost alike = { λ c k v w i j. enumerated_alike (T.number v.0) (T.number w.0) };
}

impl<T: Numbered> EqualAsSpelled for Enumeration<T> {
    ghost use Rattle.oer_choices.specs.Numbered.{numbers_same};

    ghost eq_is_same = { λ c k v w i j. numbers_same (T.number v.0) (T.number w.0) };
}

impl<T: Numbered> Encode for Enumeration<T> {
    #[inline(always)]
    fn encode_with_tag_and_constraints(
        &self,
        encoder: &mut Encoder<'_>,
        tag: Tag,
        _constraints: Constraints,
    ) -> Result<(), EncodeError> {
        encoder.encode_enumerated(tag, self)
    }
}

impl<T: Numbered> Decode for Enumeration<T> {
    ghost use Rattle.std.specs.Prelude.{false};
    ghost use Rattle.oer_choices.specs.Numbered.{value_among_as};
    ghost use Rattle.oer_read.specs.Answers.{LeafAnswers};
    ghost use Rattle.oer_read.specs.Enumerated.{value_at};

    ghost Answered = { λ c s r t. LeafAnswers (λ v. v) false s r t (value_at (value_among_as (λ v. record { 0 = v }) T.number T.values) s.codec s.input) };

    fn decode_with_tag_and_constraints(
        _alloc: Global,
        decoder: &mut Decoder<'_>,
        tag: Tag,
        _constraints: Constraints,
    ) -> Result<Enumeration<T>, DecodeError> {
        decoder.decode_enumerated(tag)
    }
}

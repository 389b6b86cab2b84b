//! Types with limits: the values or the sizes that a constraint allows.
ghost use Rattle.std.specs.Prelude.{◌≡◌};

use asn1_core::{AsnType, Constraints, DecodeError, EncodeError, Tag};
use oer_read::{Decode, Decoder};
use oer_spec::{EqualAsSpelled, Spelled};
use oer_write::{Encode, Encoder};
use std::alloc::Global;
use std::fmt::{self, Debug};
use std::marker::PhantomData;

/// The constraints of a type, as a type: each of their ranges holds a number.
pub trait Limits {
    ghost use Rattle.asn1_core.specs.declared.constraints.Constraints.{Constraints};
    ghost use Rattle.asn1_core.specs.Bounds.{is_consistent};
    ghost use Rattle.std.specs.Prelude.{◌≡◌, true};

    ghost LIMITS: { Constraints };

    /// The constraints.
    const LIMITS: Constraints;

    ghost consistent: { is_consistent LIMITS ≡ true };
}

/// A value of `T` that is written and read under the constraints `L`.
///
/// Constraints that are handed in are not looked at: `L` has all of the type's own. A value that they don't allow can be
/// made, and is refused when it is written.
#[derive_where(Clone, PartialEq, Eq; T)]
#[derive(Drop)]
pub struct Limited<T, L>(pub T, pub PhantomData<L>);

/// As what is within the limits.
impl<T: Debug, L> Debug for Limited<T, L> {
    fn fmt<W: fmt::Write>(&self, f: &mut fmt::Formatter<W>) -> fmt::Result {
        self.0.fmt(f)
    }
}

impl<T, L> Limited<T, L> {
    /// A value, be it within the limits or not.
    pub fn new(content: T) -> Limited<T, L>
        ensures { result.0 ≡ content }
    {
        Limited(content, PhantomData)
    }
}

impl<T: AsnType, L: Limits> AsnType for Limited<T, L> {
    ghost TAG = { T.TAG };

    const TAG: Tag = T::TAG;

    ghost CONSTRAINTS = { L.LIMITS };

    const CONSTRAINTS: Constraints = L::LIMITS;

    ghost consistent = { L.consistent };

    // said again, since the trait's own would ask that a `T` is not too large
    const IS_CHOICE: bool = false;
}

impl<T: Spelled, L: Limits> Spelled for Limited<T, L> {
    ghost tree = { λ c v. T.tree L.LIMITS v.0 };

    ghost IsValue = { λ v. T.IsValue v.0 };

    ghost is_tree = { λ c k v i. T.is_tree L.LIMITS L.consistent v.0 i };

    ghost alike = { λ c k v w i j. T.alike L.LIMITS L.consistent v.0 w.0 i j };
}

impl<T: EqualAsSpelled, L: Limits> EqualAsSpelled for Limited<T, L> {
    ghost use Rattle.oer_spec.specs.Spelled.{beside_nothing};

    ghost eq_is_same = { λ c k v w i j. beside_nothing (T.eq v.0 w.0) (T.eq_is_same L.LIMITS L.consistent v.0 w.0 i j) };
}

impl<T: Encode, L: Limits> Encode for Limited<T, L> {
    #[inline(always)]
    fn encode_with_tag_and_constraints(
        &self,
        encoder: &mut Encoder<'_>,
        tag: Tag,
        _constraints: Constraints,
    ) -> Result<(), EncodeError> {
        self.0
            .encode_with_tag_and_constraints(encoder, tag, L::LIMITS)
    }
}

impl<T: Decode, L: Limits> Decode for Limited<T, L> {
    ghost use Rattle.std.specs.Result.{result_map_both};

    ghost Answered = { λ c s r t. T.Answered L.LIMITS s (result_map_both (λ v. v.0) (λ e. e) r) t };

    #[inline(always)]
    fn decode_with_tag_and_constraints(
        alloc: Global,
        decoder: &mut Decoder<'_>,
        tag: Tag,
        _constraints: Constraints,
    ) -> Result<Limited<T, L>, DecodeError> {
        match T::decode_with_tag_and_constraints(alloc, decoder, tag, L::LIMITS) {
            Ok(content) => Ok(Limited(content, PhantomData)),
            Err(e) => Err(e),
        }
    }
}

//! Lists as components, and the empty list as a default.
//!
//! A `Vec` can't stand in a row of components yet, since no bound that holds one is stated; a struct of it can. Contracts see the
//! struct as the list of its items, so that a definition can name a value of it, as the empty list.
ghost use Rattle.std.specs.Prelude.{◌≡◌, ◌==◌, length};

use crate::places::DefaultValue;
use asn1_core::{AsnType, Constraints, DecodeError, EncodeError, SetOf, Tag};
use oer_read::{Decode, Decoder};
use oer_spec::{EqualAsSpelled, Spelled};
use oer_write::{Encode, Encoder};
use std::alloc::{AllocError, Global};
use std::fmt::{self, Debug};
use std::marker::Model;

/// `SEQUENCE OF T`
#[derive(Drop)]
pub struct ListOf<T>(pub Vec<T>);

/// As the list.
impl<T: Debug> Debug for ListOf<T> {
    fn fmt<W: fmt::Write>(&self, f: &mut fmt::Formatter<W>) -> fmt::Result {
        self.0.fmt(f)
    }
}

impl<T> Model for ListOf<T> {
    ghost use Rattle.std.specs.Prelude.{List};

    ghost Value = { List T };

    ghost view = { λ l. l.0.items };
}

impl<T: Clone> Clone for ListOf<T> {
    ghost use Rattle.std.specs.List.{AllZip};

    ghost is_clone = { AllZip T.is_clone };

    /// Clones of the items.
    fn clone(&self) -> Result<ListOf<T>, AllocError> {
        let items = self.0.clone()?;
        Ok(ListOf(items))
    }
}

impl<T> ListOf<T> {
    /// Whether there is no item.
    pub fn is_empty(&self) -> bool
        ensures { result ≡ (length self.now == 0) }
    {
        self.0.is_empty()
    }
}

impl<T: PartialEq> PartialEq for ListOf<T> {
    ghost use Rattle.std.specs.Cmp.Lexicographic.{pointwise, lists_per};

    ghost eq = { pointwise T.eq };

    ghost laws = { lists_per T.laws };

    fn eq(&self, other: &ListOf<T>) -> bool {
        self.0 == other.0
    }
}

impl<T: Eq> Eq for ListOf<T> {
    ghost use Rattle.std.specs.Cmp.Lexicographic.{lists_equiv};

    ghost laws = { lists_equiv T.Eq.laws };
}

impl<T: AsnType> AsnType for ListOf<T> {
    ghost use Rattle.std.specs.Prelude.{false, refl};
    ghost use Rattle.asn1_core.specs.declared.tag.TheConstants.Tag.{SEQUENCE};
    ghost use Rattle.asn1_core.specs.declared.constraints.TheConstants.Constraints.{NONE};

    ghost TAG = { SEQUENCE };

    const TAG: Tag = Tag::SEQUENCE;

    ghost CONSTRAINTS = { NONE };

    const CONSTRAINTS: Constraints = Constraints::NONE;

    ghost consistent = { refl };
}

impl<T: Spelled> Spelled for ListOf<T> {
    ghost use Rattle.std.specs.Prelude.{true};
    ghost use Rattle.oer_spec.specs.Spelled.{EachValue, list_of, list_is, lists_alike};

    ghost tree = { λ c vs. list_of true (T.tree T.CONSTRAINTS) vs };

    ghost IsValue = { λ vs. EachValue T.IsValue vs };

    ghost is_tree = { λ c k vs i. list_is (T.tree T.CONSTRAINTS) T.IsValue true (T.is_tree T.CONSTRAINTS T.consistent) vs i };

    ghost alike = { λ c k vs ws i j. lists_alike (T.tree T.CONSTRAINTS) T.IsValue true (T.alike T.CONSTRAINTS T.consistent) vs ws i j };
}

impl<T: EqualAsSpelled> EqualAsSpelled for ListOf<T> {
    ghost use Rattle.oer_spec.specs.Spelled.{lists_same};

    ghost eq_is_same = { λ c k vs ws i j. lists_same (T.tree T.CONSTRAINTS) T.IsValue T.eq (T.eq_is_same T.CONSTRAINTS T.consistent) vs ws i j };
}

impl<T: Encode> Encode for ListOf<T> {
    #[inline(always)]
    fn encode_with_tag_and_constraints(
        &self,
        encoder: &mut Encoder<'_>,
        tag: Tag,
        constraints: Constraints,
    ) -> Result<(), EncodeError> {
        self.0
            .encode_with_tag_and_constraints(encoder, tag, constraints)
    }
}

impl<T: Decode> Decode for ListOf<T> {
    ghost use Rattle.oer_read.specs.Law.{Promised};
    ghost use Rattle.oer_read.specs.Lists.{ListAnswers};

    ghost Answered = { λ c s r t. ListAnswers (Promised (T.tree T.CONSTRAINTS) T.IsValue (T.Answered T.CONSTRAINTS)) s (λ vs. vs) r t };

    #[inline(always)]
    fn decode_with_tag_and_constraints(
        alloc: Global,
        decoder: &mut Decoder<'_>,
        tag: Tag,
        constraints: Constraints,
    ) -> Result<ListOf<T>, DecodeError> {
        match decoder.decode_sequence_of::<T>(alloc, tag, constraints) {
            Ok(content) => Ok(ListOf(content)),
            Err(e) => Err(e),
        }
    }
}

/// The default `{}` of a list.
pub struct IsEmptyList;

impl<T: Spelled + PartialEq> DefaultValue<ListOf<T>> for IsEmptyList {
    ghost use Rattle.std.specs.Prelude.{[], false};
    ghost use Rattle.oer_rows.specs.EmptyLists.{empty_listed};

    ghost value = { [] };

    ghost wants_memory = { false };

    fn value(alloc: Global) -> Result<ListOf<T>, AllocError> {
        Ok(ListOf(Vec::new(alloc)))
    }

    #[tactic(auto, using(crate::specs::EmptyLists::none_listed))]
    fn is_value(other: &ListOf<T>) -> bool {
        other.is_empty()
    }

    ghost admitted = { tt };

    ghost decides = { λ c k vs i. empty_listed (T.tree T.CONSTRAINTS) T.eq vs };
}

impl<T: Spelled + Eq> DefaultValue<SetOf<T>> for IsEmptyList {
    ghost use Rattle.std.specs.Prelude.{[], false};
    ghost use Rattle.oer_rows.specs.EmptyLists.{empty_gathered};

    ghost value = { [] };

    ghost wants_memory = { false };

    fn value(alloc: Global) -> Result<SetOf<T>, AllocError> {
        Ok(SetOf::from_vec(Vec::new(alloc)))
    }

    #[tactic(auto, using(crate::specs::EmptyLists::none_gathered))]
    fn is_value(other: &SetOf<T>) -> bool {
        other.is_empty()
    }

    ghost admitted = { tt };

    ghost decides = { λ c k vs i. empty_gathered (T.tree T.CONSTRAINTS) T.eq T.Eq.laws vs };
}

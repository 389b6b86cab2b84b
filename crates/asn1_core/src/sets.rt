//! SET OF: a list whose order doesn't count when it is compared.
ghost use Rattle.std.specs.Prelude.{◌≡◌, ◌==◌, ◌++◌, ◌∷◌, [], IfOk, List, OnErr, OnOk, count_by, length, map};
ghost use Rattle.std.specs.Slice.Iter.{iter_rest};
ghost use Rattle.asn1_core.specs.Multisets.{agree_on};

use std::alloc::AllocError;
use std::marker::Model;
use std::slice::Iter;

/// SET OF: a list whose order doesn't count.
#[derive(Debug, Drop)]
pub struct SetOf<T> {
    items: Vec<T>,
}

impl<T> Model for SetOf<T> {
    ghost use Rattle.std.specs.Prelude.{List};

    ghost Value = { List T };

    ghost view = { λ s. s.items.items };
}

impl<T: Clone> Clone for SetOf<T> {
    ghost use Rattle.std.specs.List.{AllZip};

    ghost is_clone = { AllZip T.is_clone };

    /// Clones of the items, as these stand.
    fn clone(&self) -> Result<SetOf<T>, AllocError> {
        let items = self.items.clone()?;
        Ok(SetOf { items })
    }
}

impl<T> SetOf<T> {
    /// The list of these items.
    pub fn from_vec(items: Vec<T>) -> SetOf<T>
        ensures { result ≡ items.items }
    {
        SetOf { items }
    }

    /// The items, as they stand; refused where there is no memory.
    pub fn to_vec(&self) -> Result<Vec<&T>, AllocError>
        ensures { IfOk result (λ v. map (λ item. item.now) v.items ≡ self.now) }
    {
        self.items.iter().collect(*self.items.allocator())
    }

    /// The items, as they stand.
    pub fn iter(&self) -> Iter<'_, T>
        ensures { iter_rest result ≡ self.now }
    {
        self.items.iter()
    }

    /// The number of items.
    pub fn len(&self) -> usize
        ensures { result ≡ length self.now }
    {
        self.items.len()
    }

    /// Whether there is no item.
    pub fn is_empty(&self) -> bool
        ensures { result ≡ (length self.now == 0) }
    {
        self.items.is_empty()
    }
}

impl<T: Drop> SetOf<T> {
    /// Puts an item to the others. Where there is no memory the list stays as it was, and the item is dropped.
    pub fn insert(&mut self, item: T) -> Result<(), AllocError>
        ensures ok { OnOk result (self.new ≡ self.old ++ item ∷ []) }
        ensures err { OnErr result (self.new ≡ self.old) }
    {
        self.items.push(item)?;
        Ok(())
    }
}

impl<T: PartialEq> PartialEq for SetOf<T> {
    ghost use Rattle.asn1_core.specs.Multisets.{same_items};
    ghost use Rattle.asn1_core.specs.MultisetLaws.{same_items-partial};

    ghost eq = { same_items T.eq };

    /// Whether both have the same items, each as often.
    fn eq(&self, other: &SetOf<T>) -> bool {
        let own = self.items.as_slice();
        let others = other.items.as_slice();
        own == others || counts_agree(own, others, own) && counts_agree(own, others, others)
    }

    ghost laws = { same_items-partial T.eq T.laws };
}

impl<T: Eq> Eq for SetOf<T> {
    ghost use Rattle.asn1_core.specs.MultisetLaws.{same_items-equivalence};

    ghost laws = { same_items-equivalence T.eq T.PartialEq.laws };
}

/// Whether each of the items equals as many of `own` as of `others`.
fn counts_agree<T: PartialEq>(own: &[T], others: &[T], items: &[T]) -> bool
    ensures { result ≡ agree_on T.eq own.now others.now items.now }
{
    items
        .iter()
        .all(|item| count_of(item, own) == count_of(item, others))
}

/// How many of the items equal this one.
fn count_of<T: PartialEq>(item: &T, items: &[T]) -> usize
    ensures { result ≡ count_by (T.eq item.now) items.now }
{
    items.iter().filter(|other| *item == **other).count()
}

//! What the definitions mean, as contracts of functions that do nothing.
ghost use Rattle.std.specs.Prelude.{◌≡◌, ◌∷◌, [], ℕ, List, map};
ghost use Rattle.asn1_core.specs.TagOrder.{IsSortedByTag, IsTagOrder};
ghost use Rattle.asn1_core.specs.declared.fields.Field.{Field};
ghost use Rattle.asn1_core.specs.declared.constraints.Constraints.{Constraints};
ghost use Rattle.asn1_core.specs.Narrowing.{AllowsAlike, IsFixedWhereAlone, KeepsItself, KeepsNone, Narrows};
ghost use Rattle.asn1_core.specs.Multisets.{AreSameItems, same_items};
ghost use Rattle.std.specs.Bool.{Decides};

use crate::tag::{Class, Tag};

/// The universal tags and their numbers (X.680, 8.4). `Tag::EOC` stands for no tag of its own.
pub fn universal_tags()
    ensures { Tag.EOC ∷ Tag.BOOL ∷ Tag.INTEGER ∷ Tag.BIT_STRING ∷ Tag.OCTET_STRING ∷ Tag.NULL ∷
        Tag.OBJECT_IDENTIFIER ∷ Tag.ENUMERATED ∷ Tag.UTF8_STRING ∷ Tag.SEQUENCE ∷ Tag.SET ∷
        Tag.NUMERIC_STRING ∷ Tag.PRINTABLE_STRING ∷ Tag.TELETEX_STRING ∷ Tag.IA5_STRING ∷
        Tag.UTC_TIME ∷ Tag.GENERALIZED_TIME ∷ Tag.GRAPHIC_STRING ∷ Tag.VISIBLE_STRING ∷
        Tag.GENERAL_STRING ∷ Tag.UNIVERSAL_STRING ∷ Tag.BMP_STRING ∷ Tag.DATE ∷ []
        ≡ map (λ n. record { class = Class.Universal; value = n })
        (0 ∷ 1 ∷ 2 ∷ 3 ∷ 4 ∷ 5 ∷ 6 ∷ 10 ∷ 12 ∷ 16 ∷ 17 ∷ 18 ∷ 19 ∷ 20 ∷ 22 ∷ 23 ∷ 24 ∷ 25 ∷ 26 ∷ 27 ∷ 28 ∷ 30 ∷ 31 ∷ []) }
{}

/// Tags are ordered by class, universal, application, context, private, and then by number (X.680, 8.6): a total order
/// that agrees with equality.
pub fn tag_order()
    ensures { IsTagOrder ⟦<Class as Ord>⟧.cmp ⟦<Tag as Ord>⟧.cmp ⟦<Tag as PartialOrd>⟧.partial_cmp ⟦<Tag as PartialEq>⟧.eq }
{}

/// `Fields::canonised` gives the rows in tag order, those of one tag in the order of the table.
pub fn canonised_rows()
    ensures { (fields : List Field) → IsSortedByTag fields }
{}

/// `Constraints::narrowed` keeps consistency, allows exactly what both allow where that is something, else what its
/// own constraints allow, and leaves constraints as they are where the other ones are absent or the same.
pub fn narrowing()
    ensures narrows { (own other : Constraints) → Narrows own other }
    ensures none { (own : Constraints) → KeepsNone own }
    ensures itself { (own : Constraints) → KeepsItself own }
{}

/// The ranges that trees have of constraints allow what the constraints do.
pub fn ranges()
    ensures { (c : Constraints) → AllowsAlike c }
{}

/// `Constraints::fixed_size` is the size that is allowed where no other is.
pub fn fixed_sizes()
    ensures { (c : Constraints) (n : ℕ) → IsFixedWhereAlone c n }
{}

/// `==` of a `SetOf` is equality as multisets: whatever is counted stands in both as often.
pub fn equal_sets<T: PartialEq>()
    ensures { (xs ys : List T) → Decides (same_items T.eq xs ys) (AreSameItems T.eq xs ys) }
{}

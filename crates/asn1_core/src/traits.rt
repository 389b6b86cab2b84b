//! The traits of ASN.1 types: of each type, of ENUMERATED, of CHOICE, and of SEQUENCE, SET and addition groups.
use crate::constraints::Constraints;
use crate::fields::{Field, Fields};
use crate::tag::Tag;

/// What is known of each ASN.1 type.
pub trait AsnType {
    ghost use Rattle.asn1_core.specs.declared.constraints.Constraints.{Constraints};
    ghost use Rattle.asn1_core.specs.declared.tag.Tag.{Tag};
    ghost use Rattle.asn1_core.specs.Bounds.{is_consistent};
    ghost use Rattle.std.specs.Prelude.{◌≡◌, true};

    ghost TAG: { Tag };

    /// The type's tag; `Tag::EOC` where it has none of its own.
    const TAG: Tag;

    ghost CONSTRAINTS: { Constraints };

    /// The type's own constraints: each of their ranges holds a number.
    const CONSTRAINTS: Constraints;

    ghost consistent: { is_consistent CONSTRAINTS ≡ true };

    /// Whether the type is a choice: a choice says so itself, each other type leaves it out.
    const IS_CHOICE: bool = false;
}

/// An ENUMERATED type (X.680, clause 20).
pub trait Enumerated: AsnType {
    ghost use Rattle.std.specs.Prelude.{◌≡◌, ℤ, Option, Some, true};
    ghost use Rattle.asn1_core.specs.Numbers.{in_isize};

    /// The value's number, and the value of a number.
    ghost number: { Self → ℤ };

    ghost of_number: { ℤ → Option Self };

    /// The value's number.
    fn discriminant(&self) -> isize
        ensures { result ≡ number self.now };

    /// The value with that number, where the type has one.
    fn from_discriminant(discriminant: isize) -> Option<Self>
        ensures { result ≡ of_number discriminant };

    /// A number is one of isize.
    ghost fits: { (v : Self) → in_isize (number v) ≡ true };

    /// The two are inverse.
    ghost known: { (v : Self) → of_number (number v) ≡ Some v };

    ghost back: { (n : ℤ) (v : Self) → of_number n ≡ Some v → number v ≡ n };
}

/// A CHOICE (X.680, clause 29): the tags of its alternatives.
pub trait Choice: AsnType {
    ghost use Rattle.asn1_core.specs.declared.tag.Tag.{Tag};
    ghost use Rattle.asn1_core.specs.Tags.{AreDistinct};
    ghost use Rattle.std.specs.Prelude.{◌≡◌, ◌++◌, List, [], Bool, is_some};
    ghost use Rattle.std.specs.Option.{option_map_or};

    ghost root_tags: { List Tag };

    ghost addition_tags: { List Tag };

    ghost is_extensible: { Bool };

    /// The tags of the root alternatives.
    const VARIANTS: &'static [Tag];

    /// The tags of the extension additions, where the type is extensible.
    const EXTENDED_VARIANTS: Option<&'static [Tag]>;

    /// `VARIANTS`, as clauses see them.
    fn root_tags() -> &'static [Tag]
        ensures { result.now ≡ root_tags };

    /// `EXTENDED_VARIANTS`, as clauses see them.
    fn addition_tags() -> Option<&'static [Tag]>
        ensures is { is_some result ≡ is_extensible }
        ensures tags { option_map_or (λ t. t.now) result [] ≡ addition_tags };

    /// No tag stands twice.
    ghost distinct: { AreDistinct (root_tags ++ addition_tags) };
}

/// A SEQUENCE, a SET or an addition group: its two tables of components.
pub trait Constructed<const RC: usize, const EC: usize> {
    ghost use Rattle.asn1_core.specs.Rows.{Row, row, AreTables};
    ghost use Rattle.std.specs.Prelude.{◌≡◌, List, Bool, map};

    /// Whether it is a set.
    ghost is_set: { Bool };

    ghost root_rows: { List Row };

    ghost addition_rows: { List Row };

    ghost IS_EXTENSIBLE: { Bool };

    /// Whether the type is extensible.
    const IS_EXTENSIBLE: bool;

    /// The root components, in the order of the type's text.
    const FIELDS: Fields<RC>;

    /// The extension additions, where the type is extensible.
    const EXTENDED_FIELDS: Option<Fields<EC>>;

    /// The rows of `FIELDS`, as clauses see them.
    fn root_fields() -> &'static [Field<'static>]
        ensures { map row result.now ≡ root_rows };

    /// The rows of `EXTENDED_FIELDS`, none where it is absent, as clauses see them.
    fn addition_fields() -> &'static [Field<'static>]
        ensures { map row result.now ≡ addition_rows };

    /// As many rows as stated, indexes counted from 0, additions only where extensible, a set's root tags distinct.
    ghost tables: { AreTables is_set IS_EXTENSIBLE RC EC root_rows addition_rows };
}

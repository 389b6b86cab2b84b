//! Types of one component that stands under its type's own tag, read by each method of `Decoder` that asks it; and a set by
//! a closure.
ghost use Rattle.std.specs.Prelude.{◌≡◌, OnErr, OnOk};
ghost use Rattle.oer_read.specs.Law.{IsRear};

use asn1_core::{AsnType, Constructed, DecodeError, Field, FieldPresence, Fields, Tag};
use asn1_ints::Integer;
use oer_types::{Foo, FooComponents, Set};
use rasn_oer::{Decode, Decoder};
use std::alloc::Global;

const OPTIONAL: &'static [Field<'static>] = &[Field {
    index: 0,
    tag: Tag::INTEGER,
    presence: FieldPresence::Optional,
    name: "n",
}];

const DEFAULT: &'static [Field<'static>] = &[Field {
    index: 0,
    tag: Tag::INTEGER,
    presence: FieldPresence::Default,
    name: "n",
}];

/// `SEQUENCE { n INTEGER OPTIONAL }`
#[derive(Debug, Drop)]
pub struct OneOptional {
    pub n: Option<Integer>,
}

/// `SEQUENCE { n INTEGER DEFAULT 7 }`
#[derive(Debug, Drop)]
pub struct OneDefault {
    pub n: Integer,
}

/// `SEQUENCE { ..., n INTEGER OPTIONAL }`
#[derive(Debug, Drop)]
pub struct OneAddition {
    pub n: Option<Integer>,
}

impl Constructed<1, 0> for OneOptional {
    ghost use Rattle.std.specs.Prelude.{false, refl, []};
    ghost use Rattle.asn1_core.specs.declared.fields.FieldPresence.TheVariants.{Optional};
    ghost use Rattle.test_memory.specs.OneRow.{one_row};

    ghost is_set = { false };

    ghost root_rows = { one_row Optional };

    ghost addition_rows = { [] };

    ghost IS_EXTENSIBLE = { false };

    const IS_EXTENSIBLE: bool = false;

    const FIELDS: Fields<1> = Fields { fields: OPTIONAL };

    const EXTENDED_FIELDS: Option<Fields<0>> = None;

    fn root_fields() -> &'static [Field<'static>] {
        Self::FIELDS.fields
    }

    fn addition_fields() -> &'static [Field<'static>] {
        &[]
    }

    ghost tables = { record { root_count = refl; addition_count = refl; root_indexes = (refl, tt); addition_indexes = tt; only = λ e. refl; distinct = λ e. absurd (cc e) } };
}

impl Constructed<1, 0> for OneDefault {
    ghost use Rattle.std.specs.Prelude.{false, refl, []};
    ghost use Rattle.asn1_core.specs.declared.fields.FieldPresence.TheVariants.{Default};
    ghost use Rattle.test_memory.specs.OneRow.{one_row};

    ghost is_set = { false };

    ghost root_rows = { one_row Default };

    ghost addition_rows = { [] };

    ghost IS_EXTENSIBLE = { false };

    const IS_EXTENSIBLE: bool = false;

    const FIELDS: Fields<1> = Fields { fields: DEFAULT };

    const EXTENDED_FIELDS: Option<Fields<0>> = None;

    fn root_fields() -> &'static [Field<'static>] {
        Self::FIELDS.fields
    }

    fn addition_fields() -> &'static [Field<'static>] {
        &[]
    }

    ghost tables = { record { root_count = refl; addition_count = refl; root_indexes = (refl, tt); addition_indexes = tt; only = λ e. refl; distinct = λ e. absurd (cc e) } };
}

impl Constructed<0, 1> for OneAddition {
    ghost use Rattle.std.specs.Prelude.{false, true, refl, []};
    ghost use Rattle.asn1_core.specs.declared.fields.FieldPresence.TheVariants.{Optional};
    ghost use Rattle.test_memory.specs.OneRow.{one_row};

    ghost is_set = { false };

    ghost root_rows = { [] };

    ghost addition_rows = { one_row Optional };

    ghost IS_EXTENSIBLE = { true };

    const IS_EXTENSIBLE: bool = true;

    const FIELDS: Fields<0> = Fields { fields: &[] };

    const EXTENDED_FIELDS: Option<Fields<1>> = Some(Fields { fields: OPTIONAL });

    fn root_fields() -> &'static [Field<'static>] {
        &[]
    }

    fn addition_fields() -> &'static [Field<'static>] {
        OPTIONAL
    }

    ghost tables = { record { root_count = refl; addition_count = refl; root_indexes = tt; addition_indexes = (refl, tt); only = λ e. absurd (cc e); distinct = λ e. absurd (cc e) } };
}

/// What a method that reads or asks hands in, besides a default.
#[derive(Clone, Copy, PartialEq, Eq)]
pub enum Way {
    /// Nothing.
    Plain,
    /// A tag.
    ByTag,
    /// Constraints.
    ByConstraints,
    /// A tag and constraints.
    ByBoth,
    /// The tag of an explicit prefix; a default has no such method, and is asked by its tag.
    ByPrefix,
}

fn optional(
    alloc: Global,
    decoder: &mut Decoder<'_>,
    way: Way,
) -> Result<Option<Integer>, DecodeError>
    ensures { OnOk result (IsRear decoder.old.input decoder.new.input) }
{
    let (tag, constraints) = (Tag::INTEGER, Integer::CONSTRAINTS);
    match way {
        Way::Plain => decoder.decode_optional(alloc),
        Way::ByTag => decoder.decode_optional_with_tag(alloc, tag),
        Way::ByConstraints => decoder.decode_optional_with_constraints(alloc, constraints),
        Way::ByBoth => { decoder.decode_optional_with_tag_and_constraints(alloc, tag, constraints) }
        Way::ByPrefix => decoder.decode_optional_with_explicit_prefix(alloc, tag),
    }
}

fn default(alloc: Global, decoder: &mut Decoder<'_>, way: Way) -> Result<Integer, DecodeError>
    ensures { OnOk result (IsRear decoder.old.input decoder.new.input) }
{
    let seven = Integer::from_i128(7);
    let (tag, constraints) = (Tag::INTEGER, Integer::CONSTRAINTS);
    match way {
        Way::Plain => decoder.decode_default(alloc, seven),
        Way::ByTag | Way::ByPrefix => decoder.decode_default_with_tag(alloc, tag, seven),
        Way::ByConstraints => decoder.decode_default_with_constraints(alloc, constraints, seven),
        Way::ByBoth => {
            decoder.decode_default_with_tag_and_constraints(alloc, tag, constraints, seven)
        }
    }
}

fn tagged_addition(alloc: Global, decoder: &mut Decoder<'_>) -> Result<Option<Integer>, DecodeError>
    ensures { OnOk result (IsRear decoder.old.input decoder.new.input) }
{
    decoder.decode_extension_addition_with_tag_and_constraints(
        alloc,
        Tag::INTEGER,
        Integer::CONSTRAINTS,
    )
}

fn prefixed_addition(
    alloc: Global,
    decoder: &mut Decoder<'_>,
) -> Result<Option<Integer>, DecodeError>
    ensures { OnOk result (IsRear decoder.old.input decoder.new.input) }
{
    decoder.decode_extension_addition_with_explicit_tag_and_constraints(
        alloc,
        Tag::INTEGER,
        Integer::CONSTRAINTS,
    )
}

fn default_addition(alloc: Global, decoder: &mut Decoder<'_>) -> Result<Integer, DecodeError>
    ensures { OnOk result (IsRear decoder.old.input decoder.new.input) }
{
    decoder.decode_extension_addition_default(
        alloc,
        Tag::INTEGER,
        Integer::CONSTRAINTS,
        Integer::from_i128(7),
    )
}

fn addition(
    alloc: Global,
    decoder: &mut Decoder<'_>,
    has_prefix: bool,
) -> Result<Option<Integer>, DecodeError>
    ensures { OnOk result (IsRear decoder.old.input decoder.new.input) }
{
    if has_prefix {
        prefixed_addition(alloc, decoder)
    } else {
        tagged_addition(alloc, decoder)
    }
}

/// Reads a sequence of an optional component, as `decode_sequence` does.
///
/// A refusal leaves the decoder as it was.
pub fn read_optional(
    alloc: Global,
    decoder: &mut Decoder<'_>,
    way: Way,
) -> Result<OneOptional, DecodeError>
    ensures unchanged { OnErr result (decoder.new ≡ decoder.old) }
    ensures rear { OnOk result (IsRear decoder.old.input decoder.new.input) }
{
    decoder.decode_sequence::<1, 0, OneOptional, _>(
        Tag::SEQUENCE,
        |inner: &mut Decoder<'_>| -> Result<OneOptional, DecodeError>
            ensures { OnOk result (IsRear inner.old.input inner.new.input) }
        {
            let n = optional(alloc, inner, way)?;
            Ok(OneOptional { n })
        },
    )
}

/// Reads a sequence of a component with the default 7, as `decode_sequence` does.
///
/// A refusal leaves the decoder as it was.
pub fn read_default(
    alloc: Global,
    decoder: &mut Decoder<'_>,
    way: Way,
) -> Result<OneDefault, DecodeError>
    ensures unchanged { OnErr result (decoder.new ≡ decoder.old) }
    ensures rear { OnOk result (IsRear decoder.old.input decoder.new.input) }
{
    decoder.decode_sequence::<1, 0, OneDefault, _>(
        Tag::SEQUENCE,
        |inner: &mut Decoder<'_>| -> Result<OneDefault, DecodeError>
            ensures { OnOk result (IsRear inner.old.input inner.new.input) }
        {
            let n = default(alloc, inner, way)?;
            Ok(OneDefault { n })
        },
    )
}

/// Reads a sequence of an extension addition, by the method with an explicit prefix or by the one without, as
/// `decode_sequence` does.
///
/// A refusal leaves the decoder as it was.
pub fn read_addition(
    alloc: Global,
    decoder: &mut Decoder<'_>,
    has_prefix: bool,
) -> Result<OneAddition, DecodeError>
    ensures unchanged { OnErr result (decoder.new ≡ decoder.old) }
    ensures rear { OnOk result (IsRear decoder.old.input decoder.new.input) }
{
    decoder.decode_sequence::<0, 1, OneAddition, _>(
        Tag::SEQUENCE,
        |inner: &mut Decoder<'_>| -> Result<OneAddition, DecodeError>
            ensures { OnOk result (IsRear inner.old.input inner.new.input) }
        {
            let n = addition(alloc, inner, has_prefix)?;
            Ok(OneAddition { n })
        },
    )
}

/// Reads a sequence of an extension addition, for which 7 stands where it is absent, as `decode_sequence` does.
///
/// A refusal leaves the decoder as it was.
pub fn read_default_addition(
    alloc: Global,
    outer: &mut Decoder<'_>,
) -> Result<OneAddition, DecodeError>
    ensures unchanged { OnErr result (outer.new ≡ outer.old) }
    ensures rear { OnOk result (IsRear outer.old.input outer.new.input) }
{
    outer.decode_sequence::<0, 1, OneAddition, _>(
        Tag::SEQUENCE,
        |inner: &mut Decoder<'_>| -> Result<OneAddition, DecodeError>
            ensures { OnOk result (IsRear inner.old.input inner.new.input) }
        {
            let n = default_addition(alloc, inner)?;
            Ok(OneAddition { n: Some(n) })
        },
    )
}

/// A component of a `Foo` by the number of its tag.
type Numbered = (u32, Integer);

/// The set of these components; `c` is each that is neither `a` nor `b`.
fn foo_of(fields: Vec<Numbered>) -> Foo {
    let mut foo = FooComponents {
        a: None,
        b: None,
        c: None,
    };
    for (number, value) in fields {
        match number {
            444 => foo.a = Some(value),
            5 => foo.b = Some(value),
            _ => foo.c = Some(value),
        }
    }
    Set(foo)
}

/// Reads a set by a closure that is asked for each component, as `decode_set` does.
///
/// A refusal leaves the decoder as it was.
pub fn read_set(alloc: Global, decoder: &mut Decoder<'_>) -> Result<Foo, DecodeError>
    ensures unchanged { OnErr result (decoder.new ≡ decoder.old) }
    ensures rear { OnOk result (IsRear decoder.old.input decoder.new.input) }
{
    decoder.decode_set::<3, 0, Numbered, Foo, _, _>(
        alloc,
        Tag::SET,
        |inner: &mut Decoder<'_>, _index: usize, tag: Tag| -> Result<Numbered, DecodeError>
            ensures { OnOk result (IsRear inner.old.input inner.new.input) }
        {
            let value = Integer::decode(alloc, inner)?;
            Ok((tag.value, value))
        },
        |fields: Vec<Numbered>| -> Result<Foo, DecodeError> { Ok(foo_of(fields)) },
    )
}

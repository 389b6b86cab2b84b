//! Open types (X.696, 30): a value behind its length, which has a slot in front of it or, where nothing is open within the value, an
//! octet.
ghost use Rattle.std.specs.Prelude.{◌≡◌, ◌+◌, ◌<◌, ◌≤◌, ◌^◌, ◌⊎◌, true, false, [], ◌∷◌, ◌++◌, take, drop, length, OnOk, OnErr, IfOk, IfErr};
ghost use Rattle.asn1_core.specs.declared.codec.Codec.TheVariants.{Coer};
ghost use Rattle.asn1_core.specs.declared.error.EncodeErrorKind.TheVariants.{OutOfMemory};
ghost use Rattle.oer_spec.specs.Encoding.{IsEncodable, canonical_octets};
ghost use Rattle.oer_spec.specs.Failures.{Fails};
ghost use Rattle.oer_spec.specs.Lengths.{behind_length};
ghost use Rattle.oer_spec.specs.Spelled.{IsConsistent};
ghost use Rattle.oer_spec.specs.Writing.{BeginsWith};
ghost use Rattle.oer_write.specs.Held.{Kept};
ghost use Rattle.oer_write.specs.Layout.{Adds, Ascends};
ghost use Rattle.oer_write.specs.Rows.{IsOpenEncodable, open_type};

use crate::bits::Packed;
use crate::encode::Encode;
use crate::insertions::Insertions;
use crate::opens::{close_open, long_length};
use crate::scopes::{close_scope, open_scope};
use crate::values::{append_value, append_within};
use asn1_core::{Class, Constraints, EncodeError, EncodeErrorKind, Tag};
use std::alloc::Global;

/// Whether a type with this tag has no components, so that nothing is open within its values: as its universal tag says, if it has
/// one. For speed alone: the same octets are written either way.
#[inline(always)]
pub(crate) fn is_leaf(tag: Tag) -> bool {
    match tag.class {
        Class::Universal => {
            tag.value != Tag::EOC.value
                && tag.value != Tag::SEQUENCE.value
                && tag.value != Tag::SET.value
        }
        Class::Application | Class::Context | Class::Private => false,
    }
}

/// How a value is written as an open type (X.696, 30).
pub(crate) trait WritesOpen {
    /// Appends the value behind its length.
    fn write<E: Encode>(
        alloc: Global,
        is_inside: bool,
        tag: Tag,
        constraints: Constraints,
        value: &E,
        out: &mut Vec<u8>,
        insertions: &mut Insertions,
    ) -> Result<(), EncodeError>
        requires consistent { IsConsistent constraints }
        requires alone { is_inside ≡ false → insertions.old ≡ [] }
        requires ascends { Ascends 0 insertions.old (length out.old.items) }
        ensures short { OnOk result (IsOpenEncodable (E.tree constraints value.now)) }
        ensures done { OnOk result (Adds (open_type (canonical_octets (E.tree constraints value.now))) out.old.items insertions.old out.new.items insertions.new) }
        ensures value { OnOk result (E.IsValue value.now) }
        ensures refused { IfErr result (λ x. (x.kind ≡ OutOfMemory) ⊎ Fails (E.tree constraints value.now) x.kind) }
        ensures mode { IfErr result (λ x. x.codec ≡ Coer) }
        ensures kept { Kept out.old.items insertions.old out.new.items insertions.new }
        ensures alone { is_inside ≡ false → OnOk result (insertions.new ≡ []) };
}

/// A value that may open scopes: the length's slot comes before theirs.
pub(crate) struct Composite;

impl WritesOpen for Composite {
    #[inline(always)]
    fn write<E: Encode>(
        alloc: Global,
        is_inside: bool,
        tag: Tag,
        constraints: Constraints,
        value: &E,
        out: &mut Vec<u8>,
        insertions: &mut Insertions,
    ) -> Result<(), EncodeError> {
        let start = out.len();
        let slot = insertions.len();
        let before = insertions.inserted();
        open_scope(alloc, is_inside, &mut *out, &mut *insertions)?;
        append_within(alloc, tag, constraints, value, &mut *out, &mut *insertions)?;
        close_open(is_inside, start, slot, before, out, insertions)?;
        Ok(())
    }
}

/// A value within which nothing is open. A length has a last octet, which stands in front of the value from the start: only one
/// of 128 or more has octets to be inserted.
pub(crate) struct Leaf;

impl WritesOpen for Leaf {
    #[inline(always)]
    fn write<E: Encode>(
        alloc: Global,
        is_inside: bool,
        tag: Tag,
        constraints: Constraints,
        value: &E,
        out: &mut Vec<u8>,
        insertions: &mut Insertions,
    ) -> Result<(), EncodeError> {
        let start = out.len();
        append_leaf(alloc, tag, constraints, value, &mut *out)?;
        let size = out.len() - start - 1;
        if size < 128 {
            out[start] = size as u8;
            return Ok(());
        }
        put_length(alloc, is_inside, start, out, insertions)?;
        Ok(())
    }
}

/// Appends an open type; where it refuses, the octets and the insertions are as before.
#[inline(always)]
pub(crate) fn put_open<E: Encode, W: WritesOpen>(
    alloc: Global,
    is_inside: bool,
    tag: Tag,
    constraints: Constraints,
    value: &E,
    out: &mut Vec<u8>,
    insertions: &mut Insertions,
) -> Result<(), EncodeError>
    requires consistent { IsConsistent constraints }
    requires alone { is_inside ≡ false → insertions.old ≡ [] }
    requires ascends { Ascends 0 insertions.old (length out.old.items) }
    ensures short { OnOk result (IsOpenEncodable (E.tree constraints value.now)) }
    ensures done { OnOk result (Adds (open_type (canonical_octets (E.tree constraints value.now))) out.old.items insertions.old out.new.items insertions.new) }
    ensures value { OnOk result (E.IsValue value.now) }
    ensures refused { IfErr result (λ x. (x.kind ≡ OutOfMemory) ⊎ Fails (E.tree constraints value.now) x.kind) }
    ensures mode { IfErr result (λ x. x.codec ≡ Coer) }
    ensures unchanged { OnErr result (out.new.items ≡ out.old.items) }
    ensures kept { OnErr result (insertions.new ≡ insertions.old) }
    ensures alone { is_inside ≡ false → OnOk result (insertions.new ≡ []) }
{
    let start = out.len();
    let slot = insertions.len();
    match W::write(
        alloc,
        is_inside,
        tag,
        constraints,
        value,
        &mut *out,
        &mut *insertions,
    ) {
        Ok(()) => Ok(()),
        Err(e) => {
            out.truncate(start);
            insertions.cut_apart(alloc, slot);
            Err(e)
        }
    }
}

/// Keeps an octet free for the last one of a length, and appends the value.
#[inline(always)]
fn append_leaf<E: Encode>(
    alloc: Global,
    tag: Tag,
    constraints: Constraints,
    value: &E,
    out: &mut Vec<u8>,
) -> Result<(), EncodeError>
    requires consistent { IsConsistent constraints }
    ensures done { OnOk result (IsEncodable (E.tree constraints value.now) × (out.new.items ≡ out.old.items ++ (0 ∷ canonical_octets (E.tree constraints value.now)))) }
    ensures value { OnOk result (E.IsValue value.now) }
    ensures refused { IfErr result (λ x. (x.kind ≡ OutOfMemory) ⊎ Fails (E.tree constraints value.now) x.kind) }
    ensures mode { IfErr result (λ x. x.codec ≡ Coer) }
    ensures begins { BeginsWith out.old.items out.new.items }
{
    keep_octet(out)?;
    let mut none = Insertions::new(alloc);
    append_value(alloc, tag, constraints, value, out, &mut none)
}

/// Appends an octet that is filled later.
#[inline(always)]
fn keep_octet(out: &mut Vec<u8>) -> Result<(), EncodeErrorKind>
    ensures done { OnOk result (out.new.items ≡ out.old.items ++ (0 ∷ [])) }
    ensures refused { IfErr result (λ k. (k ≡ OutOfMemory) × (out.new.items ≡ out.old.items)) }
{
    out.push(0)?;
    Ok(())
}

/// Puts a length of 128 or more in front of the octets behind `start`, where its last octet belongs; the others are inserted.
#[inline(never)]
fn put_length(
    alloc: Global,
    is_inside: bool,
    start: usize,
    out: &mut Vec<u8>,
    insertions: &mut Insertions,
) -> Result<(), EncodeErrorKind>
    requires start { start < length out.old.items }
    requires many { 128 ≤ length (drop (start + 1) out.old.items) }
    requires alone { is_inside ≡ false → insertions.old ≡ [] }
    ensures done { OnOk result (Adds (behind_length (drop (start + 1) out.old.items)) (take start out.old.items) insertions.old out.new.items insertions.new) }
    ensures refused { IfErr result (λ k. k ≡ OutOfMemory) }
    ensures kept { Kept (take start out.old.items) insertions.old out.new.items insertions.new }
    ensures alone { is_inside ≡ false → OnOk result (insertions.new ≡ []) }
{
    let octets = long_length(out.len() - start - 1)?;
    let slot = insertions.len();
    if is_inside {
        insertions.open(alloc, start)?;
    }
    out[start] = (octets.number % 256) as u8;
    let front = Packed {
        number: octets.number / 256,
        octets: octets.octets - 1,
    };
    close_scope(is_inside, start, slot, front, out, insertions)
}

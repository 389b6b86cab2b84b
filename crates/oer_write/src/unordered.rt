//! Unordered lists: the elements in the order of their octets.
ghost use Rattle.std.specs.Prelude.{◌≡◌, ℕ, ◌+◌, ◌<◌, List, [], ◌∷◌, ◌++◌, ◌⊎◌, cond, length, Bool, true, false, map, sum, OnOk, IfOk, IfErr};
ghost use Rattle.asn1_core.specs.Octets.{joined};
ghost use Rattle.asn1_core.specs.declared.codec.Codec.TheVariants.{Coer};
ghost use Rattle.asn1_core.specs.declared.error.EncodeErrorKind.TheVariants.{OutOfMemory, TooManyEmptyElements};
ghost use Rattle.oer_spec.specs.Failures.{Fails};
ghost use Rattle.oer_spec.specs.Lengths.{quantity_octets};
ghost use Rattle.oer_spec.specs.Places.{sorted};
ghost use Rattle.oer_spec.specs.Spelled.{list_of, EachValue};
ghost use Rattle.oer_spec.specs.Writing.{AppendsOrMemory, BeginsWith};
ghost use Rattle.oer_write.specs.Lists.{IsByFirst};
ghost use Rattle.oer_write.specs.Unordered.{octets_in, parts, Gathered, OneMore, OneRefused, IsSameInAnyWalk};
ghost use Rattle.oer_write.specs.Written.{append, Keeps, Encodes, Refused};

use crate::encode::Encode;
use crate::encoder::Encoder;
use crate::insertions::Insertions;
use crate::lists::MAX_EMPTY_ELEMENTS;
use crate::values::append_value;
use asn1_core::{Constraints, EncodeError, EncodeErrorKind, SetOf, Tag};
use oer_leaf_write::write_quantity;
use std::alloc::Global;

/// The count of elements without octets, with one more element.
fn next_count(is_empty: bool, count: u32) -> Result<u32, EncodeErrorKind>
    requires few { count < 65537 }
    ensures done { IfOk result (λ n. (n ≡ count + cond is_empty 1 0) × (n < 65537)) }
    ensures refused { IfErr result (λ k. (k ≡ TooManyEmptyElements) × (is_empty ≡ true) × (count ≡ 65536)) }
{
    if !is_empty {
        return Ok(count);
    }
    if count == MAX_EMPTY_ELEMENTS {
        return Err(EncodeErrorKind::TooManyEmptyElements);
    }
    Ok(count + 1)
}

/// Elements' octets one behind the other, and how many each has.
#[derive(Drop)]
pub(crate) struct Contents {
    octets: Vec<u8>,
    sizes: Vec<usize>,
}

/// No sizes yet, and room for those of so many elements.
fn sizes_for(alloc: Global, count: usize) -> Result<Vec<usize>, EncodeErrorKind>
    ensures done { IfOk result (λ sizes. sizes.items ≡ []) }
    ensures refused { IfErr result (λ k. k ≡ OutOfMemory) }
{
    let mut sizes = Vec::new(alloc);
    sizes.reserve(count)?;
    Ok(sizes)
}

/// Records how many octets an element has.
fn push_size(sizes: &mut Vec<usize>, size: usize) -> Result<(), EncodeErrorKind>
    ensures done { OnOk result (sizes.new.items ≡ sizes.old.items ++ size ∷ []) }
    ensures refused { IfErr result (λ k. k ≡ OutOfMemory) }
{
    sizes.push(size)?;
    Ok(())
}

/// Writes one element behind the others, and counts those without octets.
fn put_one<E: Encode>(
    alloc: Global,
    x: &E,
    count: u32,
    octets: &mut Vec<u8>,
    sizes: &mut Vec<usize>,
    insertions: &mut Insertions,
) -> Result<u32, EncodeError>
    requires few { count < 65537 }
    requires none { insertions.old ≡ [] }
    requires whole { sum sizes.old.items ≡ length octets.old.items }
    ensures done { IfOk result (λ n. OneMore (E.tree E.CONSTRAINTS) E.IsValue x.now (parts sizes.old.items octets.old.items) (parts sizes.new.items octets.new.items) count n) }
    ensures whole { OnOk result (sum sizes.new.items ≡ length octets.new.items) }
    ensures refused { IfErr result (λ e. OneRefused (E.tree E.CONSTRAINTS x.now) count e.kind) }
    ensures mode { IfErr result (λ e. e.codec ≡ Coer) }
    ensures none { insertions.new ≡ [] }
{
    let before = octets.len();
    append_value(alloc, E::TAG, E::CONSTRAINTS, x, octets, insertions)?;
    let size = octets.len() - before;
    let next = next_count(size == 0, count)?;
    push_size(sizes, size)?;
    Ok(next)
}

/// Each element's octets, in the elements' order; one list serves the insertions of all.
fn contents_of<E: Encode>(alloc: Global, elements: &SetOf<E>) -> Result<Contents, EncodeError>
    ensures done { IfOk result (λ contents. (count : ℕ) × Gathered (E.tree E.CONSTRAINTS) E.IsValue elements.now (parts contents.sizes.items contents.octets.items) count) }
    ensures refused { IfErr result (λ x. (x.kind ≡ OutOfMemory) ⊎ Fails (list_of false (E.tree E.CONSTRAINTS) elements.now) x.kind) }
    ensures mode { IfErr result (λ x. x.codec ≡ Coer) }
    ensures first { IfErr result (λ x. IsByFirst (E.tree E.CONSTRAINTS) elements.now x) }
{
    let mut octets = Vec::new(alloc);
    let mut sizes = sizes_for(alloc, elements.len())?;
    let mut insertions = Insertions::new(alloc);
    let mut empty_count: u32 = 0;
    for x in elements.iter() {
        empty_count = put_one(
            alloc,
            x,
            empty_count,
            &mut octets,
            &mut sizes,
            &mut insertions,
        )?;
    }
    Ok(Contents { octets, sizes })
}

/// Where each element's octets lie.
fn parts_of<'octets>(
    alloc: Global,
    octets: &'octets [u8],
    sizes: &[usize],
) -> Result<Vec<&'octets [u8]>, EncodeErrorKind>
    ensures done { IfOk result (λ contents. map octets_in contents.items ≡ parts sizes.now octets.now) }
    ensures refused { IfErr result (λ k. k ≡ OutOfMemory) }
{
    let mut contents = Vec::new(alloc);
    contents.reserve(sizes.len())?;
    let mut rest = octets;
    for size in sizes {
        let (content, more) = rest.split_at((*size).min(rest.len()));
        contents.push(content)?;
        rest = more;
    }
    Ok(contents)
}

/// Sorts octets.
fn arrange_octets(contents: &mut Vec<&[u8]>) -> Result<(), EncodeErrorKind>
    ensures done { OnOk result (map octets_in contents.new.items ≡ sorted (map octets_in contents.old.items)) }
    ensures refused { IfErr result (λ k. k ≡ OutOfMemory) }
{
    contents.sort()?;
    Ok(())
}

/// Appends each content.
fn put_contents(contents: &[&[u8]], out: &mut Vec<u8>) -> Result<(), EncodeErrorKind>
    ensures done { OnOk result (out.new.items ≡ out.old.items ++ joined (map octets_in contents.now)) }
    ensures refused { IfErr result (λ k. k ≡ OutOfMemory) }
    ensures begins { BeginsWith out.old.items out.new.items }
{
    for content in contents {
        out.extend_from_slice(content)?;
    }
    Ok(())
}

/// Appends a quantity and each content.
fn write_contents(
    contents: &[&[u8]],
    count: usize,
    out: &mut Vec<u8>,
) -> Result<(), EncodeErrorKind>
    ensures { AppendsOrMemory result (quantity_octets count ++ joined (map octets_in contents.now)) out.old.items out.new.items }
{
    write_quantity(count, out)?;
    put_contents(contents, out)
}

impl<'buffer> Encoder<'buffer> {
    /// Writes a SET OF (X.696, 19): its quantity, and the elements' octets in ascending order, each element under its type's
    /// own constraints.
    ///
    /// Whatever the order in which the elements stand, the octets are the same. Refused by what the first element is refused
    /// by that is refused, at the 65,537th element without octets by `TooManyEmptyElements`, whichever comes first; or for
    /// want of memory.
    #[tactic(auto, using(crate::proofs::Gathering::any_walk))]
    pub fn encode_set_of<E: Encode>(
        &mut self,
        _tag: Tag,
        _constraints: Constraints,
        value: &SetOf<E>,
    ) -> Result<(), EncodeError>
        ensures done { OnOk result (Encodes (list_of false (E.tree E.CONSTRAINTS) value.now) self.old self.new) }
        ensures value { OnOk result (EachValue E.IsValue value.now) }
        ensures refused { IfErr result (λ x. Refused (list_of false (E.tree E.CONSTRAINTS) value.now) x self.old self.new) }
        ensures first { IfErr result (λ x. IsByFirst (E.tree E.CONSTRAINTS) value.now x) }
        ensures any_order { IsSameInAnyWalk (E.tree E.CONSTRAINTS) }
    {
        self.put_unordered(value)
    }

    fn put_unordered<E: Encode>(&mut self, elements: &SetOf<E>) -> Result<(), EncodeError>
        ensures done { OnOk result (Encodes (list_of false (E.tree E.CONSTRAINTS) elements.now) self.old self.new) }
        ensures value { OnOk result (EachValue E.IsValue elements.now) }
        ensures refused { IfErr result (λ x. Refused (list_of false (E.tree E.CONSTRAINTS) elements.now) x self.old self.new) }
        ensures first { IfErr result (λ x. IsByFirst (E.tree E.CONSTRAINTS) elements.now x) }
    {
        let contents = contents_of(self.alloc, elements)?;
        self.put_sorted(&contents, elements.len())?;
        Ok(())
    }

    /// Writes a quantity, and contents in ascending order.
    #[tactic(auto, using(crate::proofs::Regions::more_shown, crate::proofs::Regions::more_within))]
    fn put_sorted(&mut self, contents: &Contents, count: usize) -> Result<(), EncodeErrorKind>
        ensures done { OnOk result (self.new ≡ append (quantity_octets count ++ joined (sorted (parts contents.now.sizes.items contents.now.octets.items))) self.old) }
        ensures refused { IfErr result (λ k. (k ≡ OutOfMemory) × Keeps self.old self.new) }
    {
        let mut contents = parts_of(
            self.alloc,
            contents.octets.as_slice(),
            contents.sizes.as_slice(),
        )?;
        arrange_octets(&mut contents)?;
        write_contents(contents.as_slice(), count, &mut *self.output)?;
        Ok(())
    }
}

impl<T: Encode> Encode for SetOf<T> {
    fn encode_with_tag_and_constraints(
        &self,
        encoder: &mut Encoder<'_>,
        tag: Tag,
        constraints: Constraints,
    ) -> Result<(), EncodeError> {
        encoder.encode_set_of(tag, constraints, self)
    }
}

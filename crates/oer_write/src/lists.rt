//! Lists: a quantity and the elements, written straight behind the octets of before.
ghost use Rattle.std.specs.Prelude.{◌≡◌, ◌+◌, ◌<◌, ◌⊎◌, Bool, true, false, List, [], ◌++◌, length, Contains, Err, OnOk, IfOk, IfErr};
ghost use Rattle.asn1_core.specs.Octets.{Octets};
ghost use Rattle.asn1_core.specs.declared.error.EncodeErrorKind.TheVariants.{OutOfMemory};
ghost use Rattle.oer_spec.specs.Lengths.{quantity_octets};
ghost use Rattle.oer_spec.specs.Spelled.{list_of, EachValue};
ghost use Rattle.oer_spec.specs.Tree.{Tree};
ghost use Rattle.oer_spec.specs.Writing.{BeginsWith};
ghost use Rattle.oer_write.specs.Layout.{Adds, Ascends};
ghost use Rattle.oer_write.specs.Lists.{ByLaw, is_nil, TakesElement, PromiseAt, WroteElement, IsOrderlyAt, IsOrderlyHere, ElementDone, ElementTooMany, ElementsDone, ElementsBroken, ListDone, ListBroken, IsKnownToWriteAt, IsByFirst};
ghost use Rattle.oer_write.specs.Written.{append, no_scope, Keeps, Encodes, Refused, WritesTree};

use crate::encode::Encode;
use crate::encoder::Encoder;
use crate::insertions::Insertions;
use asn1_core::{Constraints, EncodeError, EncodeErrorKind, Tag};
use oer_leaf_write::write_quantity;
use std::alloc::Global;

/// At most so many elements of one list may take no octets (the project's own choice).
pub(crate) const MAX_EMPTY_ELEMENTS: u32 = 65536;

/// Room that a list asks for at once is at most so many octets.
const MOST_ROOM: usize = 65536;

/// Lends an encoder and an element to a closure.
#[inline(always)]
fn lend_at<E, F: Fn(&mut Encoder<'_>, &E) -> Result<(), EncodeError>>(
    encoder: &mut Encoder<'_>,
    f: &F,
    x: &E,
) -> Result<(), EncodeError>
    requires callable { TakesElement F.Fn f.now x.now }
    requires shut { encoder.old.frame.is_open ≡ false }
    ensures { PromiseAt F.Fn f.now x.now encoder.old result encoder.new }
{
    f(encoder, x)
}

/// Writes one element, and says whether it took no octets.
#[inline(always)]
fn put_alone<E, F: Fn(&mut Encoder<'_>, &E) -> Result<(), EncodeError>>(
    encoder: &mut Encoder<'_>,
    f: &F,
    x: &E,
) -> Result<bool, EncodeError>
    requires callable { TakesElement F.Fn f.now x.now }
    requires shut { encoder.old.frame.is_open ≡ false }
    requires orderly { IsOrderlyHere (PromiseAt F.Fn f.now x.now) }
    ensures done { IfOk result (λ empty. (o : Octets) × WroteElement (PromiseAt F.Fn f.now x.now) o × (encoder.new.octets ≡ encoder.old.octets ++ o) × (empty ≡ is_nil o)) }
    ensures refused { IfErr result (λ y. PromiseAt F.Fn f.now x.now encoder.old (Err y) encoder.new) }
    ensures keeps { Keeps encoder.old encoder.new }
{
    let before = encoder.written();
    lend_at(encoder, f, x)?;
    Ok(encoder.written() == before)
}

/// Writes one element, and counts those that take no octets.
#[inline(always)]
fn put_element<E, F: Fn(&mut Encoder<'_>, &E) -> Result<(), EncodeError>>(
    encoder: &mut Encoder<'_>,
    f: &F,
    x: &E,
    count: u32,
) -> Result<u32, EncodeError>
    requires callable { TakesElement F.Fn f.now x.now }
    requires shut { encoder.old.frame.is_open ≡ false }
    requires orderly { IsOrderlyHere (PromiseAt F.Fn f.now x.now) }
    requires few { count < 65537 }
    ensures done { IfOk result (λ n. ElementDone (PromiseAt F.Fn f.now x.now) encoder.old.octets encoder.new.octets count n) }
    ensures refused { IfErr result (λ y. PromiseAt F.Fn f.now x.now encoder.old (Err y) encoder.new ⊎ ElementTooMany (PromiseAt F.Fn f.now x.now) count y) }
    ensures keeps { Keeps encoder.old encoder.new }
{
    if !put_alone(encoder, f, x)? {
        return Ok(count);
    }
    if count == MAX_EMPTY_ELEMENTS {
        return Err(EncodeError::from(EncodeErrorKind::TooManyEmptyElements));
    }
    Ok(count + 1)
}

/// Writes the elements in turn.
#[inline(always)]
fn put_elements<E, F: Fn(&mut Encoder<'_>, &E) -> Result<(), EncodeError>>(
    encoder: &mut Encoder<'_>,
    elements: &[E],
    f: &F,
) -> Result<(), EncodeError>
    requires callable { (x : E) → Contains elements.now x → TakesElement F.Fn f.now x }
    requires shut { encoder.old.frame.is_open ≡ false }
    requires orderly { IsOrderlyAt (PromiseAt F.Fn f.now) elements.now }
    ensures done { OnOk result (ElementsDone (PromiseAt F.Fn f.now) elements.now encoder.old.octets encoder.new.octets) }
    ensures refused { IfErr result (λ x. ElementsBroken (PromiseAt F.Fn f.now) elements.now x) }
    ensures keeps { Keeps encoder.old encoder.new }
{
    let mut empty_count: u32 = 0;
    for x in elements {
        empty_count = put_element(encoder, f, x, empty_count)?;
    }
    Ok(())
}

/// Writes one element by its type, and counts those that take no octets.
#[inline(always)]
fn put_value<E: Encode>(encoder: &mut Encoder<'_>, x: &E, count: u32) -> Result<u32, EncodeError>
    requires few { count < 65537 }
    ensures done { IfOk result (λ n. ElementDone (ByLaw (E.tree E.CONSTRAINTS) E.IsValue x.now) encoder.old.octets encoder.new.octets count n) }
    ensures left { OnOk result (encoder.new ≡ record encoder.old { octets = encoder.new.octets }) }
    ensures refused { IfErr result (λ y. Refused (E.tree E.CONSTRAINTS x.now) y encoder.old encoder.new ⊎ ElementTooMany (ByLaw (E.tree E.CONSTRAINTS) E.IsValue x.now) count y) }
    ensures keeps { Keeps encoder.old encoder.new }
{
    let before = encoder.written();
    x.encode(encoder)?;
    if encoder.written() != before {
        return Ok(count);
    }
    if count == MAX_EMPTY_ELEMENTS {
        return Err(EncodeError::from(EncodeErrorKind::TooManyEmptyElements));
    }
    Ok(count + 1)
}

/// Writes the elements in turn, each by its type, straight behind what is written.
#[inline(always)]
fn put_values<E: Encode>(encoder: &mut Encoder<'_>, elements: &[E]) -> Result<(), EncodeError>
    ensures done { OnOk result ((encoder.new ≡ record encoder.old { octets = encoder.new.octets }) × ElementsDone (ByLaw (E.tree E.CONSTRAINTS) E.IsValue) elements.now encoder.old.octets encoder.new.octets) }
    ensures refused { IfErr result (λ x. ElementsBroken (ByLaw (E.tree E.CONSTRAINTS) E.IsValue) elements.now x) }
    ensures keeps { Keeps encoder.old encoder.new }
{
    let mut empty_count: u32 = 0;
    for x in elements {
        empty_count = put_value(encoder, x, empty_count)?;
    }
    Ok(())
}

/// Lends an encoder with no scope open, for each element, over an output.
#[inline(never)]
fn put_elements_into<E, F: Fn(&mut Encoder<'_>, &E) -> Result<(), EncodeError>>(
    alloc: Global,
    is_inside: bool,
    value: &[E],
    f: &F,
    out: &mut Vec<u8>,
    insertions: &mut Insertions,
) -> Result<(), EncodeError>
    requires callable { (x : E) → Contains value.now x → TakesElement F.Fn f.now x }
    requires orderly { IsOrderlyAt (PromiseAt F.Fn f.now) value.now }
    requires alone { is_inside ≡ false → insertions.old ≡ [] }
    requires ascends { Ascends 0 insertions.old (length out.old.items) }
    ensures done { OnOk result ((o : Octets) × ElementsDone (PromiseAt F.Fn f.now) value.now [] o × Adds o out.old.items insertions.old out.new.items insertions.new) }
    ensures refused { IfErr result (λ x. ElementsBroken (PromiseAt F.Fn f.now) value.now x) }
    ensures grown { (o : Octets) × Adds o out.old.items insertions.old out.new.items insertions.new }
    ensures alone { is_inside ≡ false → insertions.new ≡ [] }
{
    let empty = Insertions::new(alloc);
    let pieces = std::mem::replace(&mut *insertions, empty);
    let mut inner = Encoder::lent(alloc, is_inside, pieces, &mut *out);
    let answer = put_elements(&mut inner, value, f);
    let (octets, pieces) = inner.into_parts();
    *out = octets;
    *insertions = pieces;
    answer
}

impl<'buffer> Encoder<'buffer> {
    /// Writes a list (X.696, 17): its quantity, and each element by the closure.
    ///
    /// What the closure appends at each element, in an encoder with no scope open, is what is appended. Refused, at the first
    /// element where it applies, by what the closure refused, at the 65,537th without octets by `TooManyEmptyElements`; or
    /// for want of memory.
    #[inline(always)]
    pub fn encode_sequence_of_with<E, F: Fn(&mut Encoder<'_>, &E) -> Result<(), EncodeError>>(
        &mut self,
        _tag: Tag,
        _constraints: Constraints,
        value: &[E],
        f: F,
    ) -> Result<(), EncodeError>
        requires callable { (x : E) → Contains value.now x → TakesElement F.Fn f x }
        requires orderly { IsOrderlyAt (PromiseAt F.Fn f) value.now }
        ensures done { OnOk result (ListDone (PromiseAt F.Fn f) value.now self.old self.new) }
        ensures refused { IfErr result (λ x. ListBroken (PromiseAt F.Fn f) value.now x self.old self.new) }
        ensures tree { (tree : E → Tree) → IsKnownToWriteAt (PromiseAt F.Fn f) value.now tree → OnOk result (Encodes (list_of true tree value.now) self.old self.new) }
        ensures tree_refused { (tree : E → Tree) → IsKnownToWriteAt (PromiseAt F.Fn f) value.now tree → IfErr result (λ x. Refused (list_of true tree value.now) x self.old self.new) }
        ensures tree_first { (tree : E → Tree) → IsKnownToWriteAt (PromiseAt F.Fn f) value.now tree → IfErr result (λ x. IsByFirst tree value.now x) }
    {
        self.list(value, &f)
    }

    #[inline(always)]
    fn list<E, F: Fn(&mut Encoder<'_>, &E) -> Result<(), EncodeError>>(
        &mut self,
        value: &[E],
        f: &F,
    ) -> Result<(), EncodeError>
        requires callable { (x : E) → Contains value.now x → TakesElement F.Fn f.now x }
        requires orderly { IsOrderlyAt (PromiseAt F.Fn f.now) value.now }
        ensures done { OnOk result (ListDone (PromiseAt F.Fn f.now) value.now self.old self.new) }
        ensures refused { IfErr result (λ x. ListBroken (PromiseAt F.Fn f.now) value.now x self.old self.new) }
    {
        self.put_quantity(value.len())?;
        self.put_all(value, f)
    }

    /// Writes a quantity, and makes room for an octet of each element.
    #[tactic(auto, using(crate::proofs::Regions::more_shown, crate::proofs::Regions::more_within))]
    #[inline(always)]
    fn put_quantity(&mut self, count: usize) -> Result<(), EncodeErrorKind>
        ensures done { OnOk result (self.new ≡ append (quantity_octets count) self.old) }
        ensures refused { IfErr result (λ k. (k ≡ OutOfMemory) × Keeps self.old self.new) }
    {
        self.output.reserve(count.min(MOST_ROOM))?;
        write_quantity(count, &mut *self.output)?;
        Ok(())
    }

    /// Writes each element behind the quantity.
    fn put_all<E, F: Fn(&mut Encoder<'_>, &E) -> Result<(), EncodeError>>(
        &mut self,
        value: &[E],
        f: &F,
    ) -> Result<(), EncodeError>
        requires callable { (x : E) → Contains value.now x → TakesElement F.Fn f.now x }
        requires orderly { IsOrderlyAt (PromiseAt F.Fn f.now) value.now }
        ensures done { OnOk result (ElementsDone (PromiseAt F.Fn f.now) value.now self.old.octets self.new.octets) }
        ensures refused { IfErr result (λ x. ElementsBroken (PromiseAt F.Fn f.now) value.now x) }
        ensures begins { BeginsWith self.old.octets self.new.octets }
        ensures left { self.new ≡ record self.old { octets = self.new.octets } }
    {
        let empty = Insertions::new(self.alloc);
        let mut pieces = std::mem::replace(&mut self.insertions, empty);
        let answer = put_elements_into(
            self.alloc,
            self.is_inside,
            value,
            f,
            &mut *self.output,
            &mut pieces,
        );
        self.insertions = pieces;
        answer
    }
}

impl<'buffer> Encoder<'buffer> {
    /// Writes a SEQUENCE OF (X.696, 17): its quantity, and each element under its type's own constraints.
    ///
    /// Refused by what the first element is refused by that is refused, at the 65,537th element without octets by
    /// `TooManyEmptyElements`, whichever comes first; or for want of memory.
    #[inline(always)]
    pub fn encode_sequence_of<E: Encode>(
        &mut self,
        _tag: Tag,
        _constraints: Constraints,
        value: &[E],
    ) -> Result<(), EncodeError>
        ensures done { OnOk result (Encodes (list_of true (E.tree E.CONSTRAINTS) value.now) self.old self.new) }
        ensures value { OnOk result (EachValue E.IsValue value.now) }
        ensures refused { IfErr result (λ x. Refused (list_of true (E.tree E.CONSTRAINTS) value.now) x self.old self.new) }
        ensures first { IfErr result (λ x. IsByFirst (E.tree E.CONSTRAINTS) value.now x) }
    {
        self.values(value)
    }

    /// Writes a list's quantity and its elements, each by its type.
    #[inline(always)]
    fn values<E: Encode>(&mut self, value: &[E]) -> Result<(), EncodeError>
        ensures done { OnOk result (ListDone (ByLaw (E.tree E.CONSTRAINTS) E.IsValue) value.now self.old self.new) }
        ensures refused { IfErr result (λ x. ListBroken (ByLaw (E.tree E.CONSTRAINTS) E.IsValue) value.now x self.old self.new) }
    {
        self.put_quantity(value.len())?;
        put_values(self, value)
    }
}

impl<T: Encode> Encode for Vec<T> {
    #[inline(always)]
    fn encode_with_tag_and_constraints(
        &self,
        encoder: &mut Encoder<'_>,
        tag: Tag,
        constraints: Constraints,
    ) -> Result<(), EncodeError> {
        encoder.encode_sequence_of(tag, constraints, self)
    }
}

//! Unordered lists, whose elements ascend by their octets in canonical mode: a closure reads each on a decoder that the list lends.

ghost use Rattle.std.specs.Prelude.{◌≡◌, ◌++◌, ◌<◌, ◌≤◌, length, not, true, false, IfOk, IfErr, OnErr, OnOk, Ok, List, ℕ};
ghost use Rattle.asn1_core.specs.Octets.{Octets};
ghost use Rattle.oer_spec.specs.Encoding.{empties};
ghost use Rattle.oer_spec.specs.Orders.{octets_le};
ghost use Rattle.oer_spec.specs.Spelled.{EachValue, list_of};
ghost use Rattle.oer_read.specs.Law.{Decodes, IsRear, Promised};
ghost use Rattle.oer_read.specs.Lists.{lent_element, FnTakesAtMut, FnReturnsAtMut};
ghost use Rattle.oer_read.specs.State.{State};
ghost use Rattle.oer_read.specs.Unordered.{SoFar, Lends, NextRead, NextRefused, ElementsStopped, UnorderedLends, UnorderedRead, UnorderedRefused, UnorderedAnswers};

use crate::decode::Decode;
use crate::decoder::Decoder;
use crate::lists::keep;
use asn1_core::{Codec, Constraints, DecodeError, DecodeErrorKind, SetOf, Tag};
use std::alloc::Global;

/// Whether octets are less than others: octet by octet, a front before what is longer.
fn is_less(octets: &[u8], others: &[u8]) -> bool
    ensures { result ≡ not (octets_le others.now octets.now) }
{
    octets.cmp(others).is_lt()
}

/// The octets in front of the last ones.
fn front_of<'a>(octets: &'a [u8], rest: &[u8]) -> &'a [u8]
    requires { IsRear octets.now rest.now }
    ensures { octets.entry.now ≡ result.now ++ rest.now }
{
    &octets[..octets.len() - rest.len()]
}

impl<'input> Decoder<'input> {
    /// Canonically an element's octets are no less than those of the one before.
    fn require_order(&self, last: &[u8], octets: &[u8]) -> Result<(), DecodeError>
        ensures ok { OnOk result (self.now.codec ≡ Codec.Coer → octets_le last.now octets.now ≡ true) }
        ensures err { IfErr result (λ e. (self.now.codec ≡ Codec.Coer) × (octets_le last.now octets.now ≡ false) × (e ≡ record { kind = DecodeErrorKind.NotValidCanonicalEncoding; codec = self.now.codec })) }
    {
        match self.codec() {
            Codec::Coer if is_less(octets, last) => {
                Err(self.refusal(DecodeErrorKind::NotValidCanonicalEncoding))
            }
            Codec::Coer | Codec::Oer => Ok(()),
        }
    }
}

impl<'input> Decoder<'input> {
    /// Reads the next element by `f` on the decoder that the list lends, behind `empties` elements without octets and one of the
    /// octets `last`: the element, its octets, and how many elements without octets there are now.
    #[inline(always)]
    fn next_element<D, F>(
        &self,
        lent: &mut Decoder<'input>,
        last: &[u8],
        empties: usize,
        f: &F,
    ) -> Result<(D, &'input [u8], usize), DecodeError>
    where
        D: Drop,
        F: Fn(&mut Decoder<'_>) -> Result<D, DecodeError>,
        requires level { 0 < self.now.levels }
        requires few { empties ≤ 65536 }
        requires lent { lent.old ≡ lent_element self.now lent.old.input }
        requires callable { FnTakesAtMut F.Fn f.now (lent_element self.now lent.old.input) }
        requires keeps { (v : _) (after : State) → FnReturnsAtMut F.Fn f.now (lent_element self.now lent.old.input) (Ok v) after → IsRear lent.old.input after.input }
        ensures ok { IfOk result (λ p. NextRead (FnReturnsAtMut F.Fn f.now) self.now empties last.now lent.old.input p.0 p.1.now lent.new.input p.2) }
        ensures lent { OnOk result (lent.new ≡ lent_element self.now lent.new.input) }
        ensures err { IfErr result (λ e. NextRefused (FnReturnsAtMut F.Fn f.now) self.now empties last.now lent.old.input e) }
    {
        let rest: &'input [u8] = lent.remaining();
        let item = self.read_element(lent, f)?;
        let left: &'input [u8] = lent.remaining();
        let octets: &'input [u8] = front_of(rest, left);
        let count = self.count_empty(empties, rest, left)?;
        self.require_order(last, octets)?;
        Ok((item, octets, count))
    }

    /// Reads that many elements in turn.
    #[inline(always)]
    fn read_unordered<D, F>(
        &self,
        alloc: Global,
        quantity: usize,
        start: &'input [u8],
        f: F,
    ) -> Result<(Vec<D>, &'input [u8]), DecodeError>
    where
        D: Drop,
        F: Fn(&mut Decoder<'_>) -> Result<D, DecodeError>,
        requires level { 0 < self.now.levels }
        requires callable { (end : Octets) → Lends (FnReturnsAtMut F.Fn f) self.now quantity start.now end → FnTakesAtMut F.Fn f (lent_element self.now end) }
        requires keeps { (end : Octets) (v : _) (after : State) → Lends (FnReturnsAtMut F.Fn f) self.now quantity start.now end → FnReturnsAtMut F.Fn f (lent_element self.now end) (Ok v) after → IsRear end after.input }
        ensures ok { IfOk result (λ p. (length p.0.items ≡ quantity) × ((elements : List Octets) × SoFar (FnReturnsAtMut F.Fn f) self.now start.entry.now p.0.items elements p.1.now)) }
        ensures err { IfErr result (λ e. ElementsStopped (FnReturnsAtMut F.Fn f) self.now quantity start.entry.now e) }
    {
        let mut items = Vec::new(alloc);
        let mut lent: Decoder<'input> = self.element(start);
        let mut last: &'input [u8] = &[];
        let mut empties = 0;
        for i in 0..quantity {
            let there = lent.remaining().len();
            match self.next_element(&mut lent, last, empties, &f) {
                Err(e) => return Err(e),
                Ok((item, octets, count)) => {
                    let left = lent.remaining().len();
                    match keep(&mut items, item, quantity, there, left) {
                        Err(_) => return Err(self.want_of_memory()),
                        Ok(()) => {
                            last = octets;
                            empties = count;
                        }
                    }
                }
            }
        }
        Ok((items, lent.remaining()))
    }

    /// Reads a SET OF (X.696, 19) whose elements are read by `f`, each on a decoder of what is left, within one level less: a
    /// quantity, and the elements in turn. In canonical mode their octets ascend.
    ///
    /// Room is made as `decode_sequence_of_with` makes it.
    ///
    /// Refused, the first that applies: no level is left, as `ExceedsMaxParseDepth`, before anything is read; the quantity
    /// as `read_quantity` refuses it; in turn for each element, what `f` refuses, the 65,537th element without octets
    /// as `TooManyEmptyElements`, and in canonical mode octets that are less than those of the element before, as they
    /// stand, as `NotValidCanonicalEncoding`. Memory may be refused for an element that was read, as `OutOfMemory`.
    pub fn decode_set_of_with<D, F>(
        &mut self,
        alloc: Global,
        _tag: Tag,
        _constraints: Constraints,
        f: F,
    ) -> Result<SetOf<D>, DecodeError>
    where
        D: Drop,
        F: Fn(&mut Decoder<'_>) -> Result<D, DecodeError>,
        requires callable { (rest : Octets) → UnorderedLends (FnReturnsAtMut F.Fn f) self.old rest → FnTakesAtMut F.Fn f (lent_element self.old rest) }
        // what the closure leaves is a rear part of what it was lent
        requires keeps { (rest : Octets) (v : _) (after : State) → UnorderedLends (FnReturnsAtMut F.Fn f) self.old rest → FnReturnsAtMut F.Fn f (lent_element self.old rest) (Ok v) after → IsRear rest after.input }
        ensures read { IfOk result (λ vs. UnorderedRead (FnReturnsAtMut F.Fn f) self.old vs self.new) }
        ensures refused { IfErr result (λ e. UnorderedRefused (FnReturnsAtMut F.Fn f) self.old e) }
        ensures unchanged { OnErr result (self.new ≡ self.old) }
        ensures rear { OnOk result (IsRear self.old.input self.new.input) }
    {
        match self.open_list() {
            Err(kind) => Err(self.refusal(kind)),
            Ok((quantity, start)) => match self.read_unordered(alloc, quantity, start, f) {
                Err(e) => Err(e),
                Ok((items, rest)) => {
                    self.set_remaining(rest);
                    Ok(SetOf::from_vec(items))
                }
            },
        }
    }
}

impl<'input> Decoder<'input> {
    /// Reads a SET OF (X.696, 19) of the type's own elements, as `decode_set_of_with` does; an element is refused with the very
    /// error that its type answers.
    pub fn decode_set_of<D: Decode>(
        &mut self,
        alloc: Global,
        tag: Tag,
        constraints: Constraints,
    ) -> Result<SetOf<D>, DecodeError>
        ensures law { Decodes (λ v. list_of false (D.tree D.CONSTRAINTS) v) (λ v. EachValue D.IsValue v) self.old result self.new }
        ensures answered { UnorderedAnswers (Promised (D.tree D.CONSTRAINTS) D.IsValue (D.Answered D.CONSTRAINTS)) self.old result self.new }
        ensures unchanged { OnErr result (self.new ≡ self.old) }
        ensures rear { OnOk result (IsRear self.old.input self.new.input) }
    {
        self.decode_set_of_with::<D, _>(
            alloc,
            tag,
            constraints,
            |inner: &mut Decoder<'_>| -> Result<D, DecodeError>
                ensures { Promised (D.tree D.CONSTRAINTS) D.IsValue (D.Answered D.CONSTRAINTS) inner.old result inner.new }
            { D::decode(alloc, inner) },
        )
    }
}

impl<T: Decode> Decode for SetOf<T> {
    ghost use Rattle.oer_read.specs.Law.{Promised};
    ghost use Rattle.oer_read.specs.Unordered.{UnorderedAnswers};

    ghost Answered = { λ c s r t. UnorderedAnswers (Promised (T.tree T.CONSTRAINTS) T.IsValue (T.Answered T.CONSTRAINTS)) s r t };

    fn decode_with_tag_and_constraints(
        alloc: Global,
        decoder: &mut Decoder<'_>,
        tag: Tag,
        constraints: Constraints,
    ) -> Result<SetOf<T>, DecodeError> {
        decoder.decode_set_of::<T>(alloc, tag, constraints)
    }
}

//! Lists: a closure reads each element on a decoder that the list lends.

ghost use Rattle.std.specs.Prelude.{◌≡◌, ℕ, ◌+◌, ◌<◌, ◌≤◌, ◌++◌, ◌∷◌, [], length, List, true, IfOk, IfErr, OnErr, OnOk, Ok, Err};
ghost use Rattle.asn1_core.specs.Octets.{Octets, AreOctets};
ghost use Rattle.oer_spec.specs.Reading.{Gives};
ghost use Rattle.oer_spec.specs.Spelled.{EachValue, list_of};
ghost use Rattle.oer_read.specs.Law.{Decodes, IsRear, Promised, WantsMemory};
ghost use Rattle.oer_spec.specs.Elements.{TakesOctets};
ghost use Rattle.oer_read.specs.Lists.{lent_element, list_opened_at, count_empty, FnTakesAtMut, FnReturnsAtMut, RanEach, SoFar, ListLends, ListRead, ElementsStopped, ListRefused, ListAnswers};
ghost use Rattle.oer_read.specs.State.{State};

use crate::decode::Decode;
use crate::decoder::Decoder;
use crate::scopes::{OpenScope, one_level_less};
use asn1_core::{Constraints, DecodeError, DecodeErrorKind, Tag};
use oer_leaf_read::{BitSlice, read_quantity};
use std::alloc::{AllocError, Global};

/// The number of elements of one list that may take no octets.
const MOST_EMPTY: usize = 65536;

/// The most elements that a list makes room for before it has them.
const MOST_AT_ONCE: usize = 1024;

/// How many elements a list makes room for at its first one, which left so many of the octets that were there: as many as
/// those would hold, were each as long as the first, but no more than are stated, nor than 1,024.
#[inline(always)]
fn room_for(quantity: usize, there: usize, left: usize) -> usize
    ensures stated { result ≤ quantity }
    ensures octets { result ≤ there }
    ensures few { result ≤ 1024 }
{
    let taken = there.saturating_sub(left);
    if taken == 0 {
        return 0;
    }
    let most = quantity.min(MOST_AT_ONCE);
    if most <= 1 {
        return most;
    }
    (there / taken).min(most)
}

/// Puts an element that was read behind the others of a list of so many, and makes room for others at the first. `there` and
/// `left` are how many octets there were in front of the element and behind it. Refused where memory is: then none is put there.
#[inline(always)]
pub fn keep<D: Drop>(
    items: &mut Vec<D>,
    item: D,
    quantity: usize,
    there: usize,
    left: usize,
) -> Result<(), AllocError>
    ensures kept { OnOk result (items.new.items ≡ items.old.items ++ item ∷ []) }
    ensures unchanged { OnErr result (items.new.items ≡ items.old.items) }
{
    if items.is_empty() {
        items.reserve_exact(room_for(quantity, there, left))?;
    }
    items.push(item)?;
    Ok(())
}

impl<'input> Decoder<'input> {
    /// How many elements the list at the front has, and what is left (X.696, 17.2).
    ///
    /// Refused, the first that applies: no level is left, as `ExceedsMaxParseDepth`; the quantity as `read_quantity` refuses it.
    #[inline(always)]
    #[tactic(auto, unfolding(crate::specs::Lists::list_opened_at))]
    pub fn open_list(&self) -> Result<(usize, &'input [u8]), DecodeErrorKind>
        ensures quantity { Gives (λ x. (x.0, x.1.now)) result (list_opened_at self.now) }
        ensures level { OnOk result (0 < self.now.levels) }
        ensures octets { AreOctets self.now.input }
    {
        let input: &'input [u8] = self.remaining();
        one_level_less(self.levels)?;
        let (quantity, rest) = read_quantity(self.codec, input)?;
        Ok((quantity, rest))
    }

    /// A decoder for the elements, within one level less.
    #[inline(always)]
    pub(crate) fn element(&self, rest: &'input [u8]) -> Decoder<'input>
        requires { 0 < self.now.levels }
        ensures { result ≡ lent_element self.now rest.entry.now }
    {
        Decoder {
            input: rest,
            codec: self.codec,
            levels: self.levels - 1,
            scope: OpenScope::closed(),
        }
    }

    /// Is what a list lends again, whose decoder is handed in: what is left stays, and no scope is open.
    #[inline(always)]
    fn lend_again(&mut self, list: &Decoder<'input>)
        requires { 0 < list.now.levels }
        ensures { self.new ≡ lent_element list.now self.old.input }
    {
        self.codec = list.codec;
        self.levels = list.levels - 1;
        self.scope.close();
    }

    /// A refusal of memory.
    #[inline(always)]
    pub(crate) fn want_of_memory(&self) -> DecodeError
        ensures { WantsMemory self.now result }
    {
        self.refusal(DecodeErrorKind::OutOfMemory)
    }

    /// Reads one element on the decoder that the list lends, and makes that ready to be lent again.
    #[inline(always)]
    pub(crate) fn read_element<D, F>(
        &self,
        lent: &mut Decoder<'input>,
        f: &F,
    ) -> Result<D, DecodeError>
    where
        F: Fn(&mut Decoder<'_>) -> Result<D, DecodeError>,
        requires level { 0 < self.now.levels }
        requires lent { lent.old ≡ lent_element self.now lent.old.input }
        requires callable { FnTakesAtMut F.Fn f.now (lent_element self.now lent.old.input) }
        ensures ok { IfOk result (λ v. (after : _) × FnReturnsAtMut F.Fn f.now (lent_element self.now lent.old.input) (Ok v) after × (lent.new ≡ lent_element self.now after.input)) }
        ensures err { IfErr result (λ e. (after : _) × FnReturnsAtMut F.Fn f.now (lent_element self.now lent.old.input) (Err e) after) }
    {
        let item = f(lent)?;
        lent.lend_again(self);
        Ok(item)
    }

    /// One more element without octets, where as many octets are left as before; at most 65,536.
    #[inline(always)]
    pub(crate) fn count_empty(
        &self,
        empties: usize,
        before: &[u8],
        after: &[u8],
    ) -> Result<usize, DecodeError>
        requires { empties ≤ 65536 }
        ensures ok { IfOk result (λ n. (n ≡ count_empty empties before.now after.now) × (n ≤ 65536)) }
        ensures err { IfErr result (λ e. (empties ≡ 65536) × (length after.now ≡ length before.now) × (e ≡ record { kind = DecodeErrorKind.TooManyEmptyElements; codec = self.now.codec })) }
    {
        if before.len() != after.len() {
            return Ok(empties);
        }
        if empties == MOST_EMPTY {
            return Err(self.refusal(DecodeErrorKind::TooManyEmptyElements));
        }
        Ok(empties + 1)
    }

    /// Reads that many elements in turn.
    #[inline(always)]
    fn read_elements<D, F>(
        &self,
        alloc: Global,
        quantity: usize,
        start: &'input [u8],
        f: F,
    ) -> Result<(Vec<D>, &'input [u8]), DecodeError>
    where
        D: Drop,
        F: Fn(&mut Decoder<'_>) -> Result<D, DecodeError>,
        requires level { 0 < self.now.levels }
        requires callable { (before : List D) (end : Octets) (empties : ℕ) → SoFar (FnReturnsAtMut F.Fn f) self.now quantity start.now before end empties → FnTakesAtMut F.Fn f (lent_element self.now end) }
        ensures ok { IfOk result (λ p. (length p.0.items ≡ quantity) × ((empties : ℕ) × RanEach (FnReturnsAtMut F.Fn f) self.now start.entry.now 0 p.0.items p.1.now empties × (empties ≤ 65536))) }
        ensures err { IfErr result (λ e. ElementsStopped (FnReturnsAtMut F.Fn f) self.now quantity start.entry.now e) }
    {
        let mut items = Vec::new(alloc);
        let mut lent: Decoder<'input> = self.element(start);
        let mut empties = 0;
        for i in 0..quantity {
            let before = lent.remaining();
            let item = self.read_element(&mut lent, &f)?;
            let left = lent.remaining();
            empties = self.count_empty(empties, before, left)?;
            match keep(&mut items, item, quantity, before.len(), left.len()) {
                Ok(()) => {}
                Err(_) => return Err(self.want_of_memory()),
            }
        }
        Ok((items, lent.remaining()))
    }

    /// Reads a SEQUENCE OF (X.696, 17) whose elements are read by `f`, each on a decoder of what is left, within one level less.
    ///
    /// Nothing is reserved by the stated quantity alone: at the first element room is made for as many as the octets that
    /// are there would hold, were each as long as the first, at most the quantity and at most 1,024; then the list grows as
    /// elements come.
    ///
    /// Refused, the first that applies: no level is left, as `ExceedsMaxParseDepth`, before anything is read; the quantity
    /// as `read_quantity` refuses it; in turn for each element, what `f` refuses, and the 65,537th element without octets
    /// as `TooManyEmptyElements`. Memory may be refused for an element that was read, as `OutOfMemory`.
    pub fn decode_sequence_of_with<D, F>(
        &mut self,
        alloc: Global,
        _tag: Tag,
        _constraints: Constraints,
        f: F,
    ) -> Result<Vec<D>, DecodeError>
    where
        D: Drop,
        F: Fn(&mut Decoder<'_>) -> Result<D, DecodeError>,
        requires callable { (rest : Octets) → ListLends (FnReturnsAtMut F.Fn f) self.old rest → FnTakesAtMut F.Fn f (lent_element self.old rest) }
        // what the closure leaves is a rear part of what it was lent
        requires keeps { (rest : Octets) (v : _) (after : State) → ListLends (FnReturnsAtMut F.Fn f) self.old rest → FnReturnsAtMut F.Fn f (lent_element self.old rest) (Ok v) after → IsRear rest after.input }
        ensures read { IfOk result (λ v. ListRead (FnReturnsAtMut F.Fn f) self.old v.items self.new) }
        ensures refused { IfErr result (λ e. ListRefused (FnReturnsAtMut F.Fn f) self.old e) }
        ensures unchanged { OnErr result (self.new ≡ self.old) }
        ensures rear { OnOk result (IsRear self.old.input self.new.input) }
    {
        match self.open_list() {
            Err(kind) => Err(self.refusal(kind)),
            Ok((quantity, start)) => match self.read_elements(alloc, quantity, start, f) {
                Err(e) => Err(e),
                Ok((items, rest)) => {
                    self.set_remaining(rest);
                    Ok(items)
                }
            },
        }
    }
}

impl<'input> Decoder<'input> {
    /// Reads a SEQUENCE OF (X.696, 17) of the type's own elements, as `decode_sequence_of_with` does; an element is refused
    /// with the very error that its type answers. Where each encoding of an element has octets, there are at most as many
    /// elements as octets that were read.
    pub fn decode_sequence_of<D: Decode>(
        &mut self,
        alloc: Global,
        tag: Tag,
        constraints: Constraints,
    ) -> Result<Vec<D>, DecodeError>
        ensures law { Decodes (λ v. list_of true (D.tree D.CONSTRAINTS) v.items) (λ v. EachValue D.IsValue v.items) self.old result self.new }
        ensures answered { ListAnswers (Promised (D.tree D.CONSTRAINTS) D.IsValue (D.Answered D.CONSTRAINTS)) self.old (λ v. v.items) result self.new }
        ensures few { TakesOctets (D.tree D.CONSTRAINTS) D.IsValue → IfOk result (λ v. length v.items + length self.new.input ≤ length self.old.input) }
    {
        self.decode_sequence_of_with::<D, _>(
            alloc,
            tag,
            constraints,
            |inner: &mut Decoder<'_>| -> Result<D, DecodeError>
                ensures { Promised (D.tree D.CONSTRAINTS) D.IsValue (D.Answered D.CONSTRAINTS) inner.old result inner.new }
            { D::decode(alloc, inner) },
        )
    }
}

impl<T: Decode> Decode for Vec<T> {
    ghost use Rattle.oer_read.specs.Law.{Promised};
    ghost use Rattle.oer_read.specs.Lists.{ListAnswers};

    ghost Answered = { λ c s r t. ListAnswers (Promised (T.tree T.CONSTRAINTS) T.IsValue (T.Answered T.CONSTRAINTS)) s (λ v. v.items) r t };

    fn decode_with_tag_and_constraints(
        alloc: Global,
        decoder: &mut Decoder<'_>,
        tag: Tag,
        constraints: Constraints,
    ) -> Result<Vec<T>, DecodeError> {
        decoder.decode_sequence_of::<T>(alloc, tag, constraints)
    }
}

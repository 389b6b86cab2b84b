//! Sets: one closure reads each component on a decoder of the set's own, in tag order, and another makes the set of them.

ghost use Rattle.std.specs.Prelude.{◌≡◌, ◌+◌, ◌<◌, ◌^◌, ◌++◌, ◌∷◌, [], ◌⊎◌, length, map, IfOk, IfErr, OnErr, OnOk, Ok, Err, List};
ghost use Rattle.asn1_core.specs.Octets.{AreOctets};
ghost use Rattle.asn1_core.specs.Rows.{row};
ghost use Rattle.asn1_core.specs.Tables.{canonised_rest};
ghost use Rattle.oer_spec.specs.Reading.{Gives};
ghost use Rattle.oer_leaf_read.specs.Views.{bits_left};
ghost use Rattle.oer_read.specs.Law.{IsRear, WantsMemoryIn};
ghost use Rattle.oer_read.specs.Sets.{Call, is_there, bits_behind, root_calls, addition_calls, set_calls, set_opened_at, FieldReturns, FieldTakes, FieldsTaken, FieldsMake, RanInTurn, RefusedInTurn, CalledInTurn, AnsweredOne, SetLends, SetHands, SetRead, SetRefused};
ghost use Rattle.oer_read.specs.State.{State};

use crate::decoder::Decoder;
use crate::scopes::{OpenScope, bits_for, next_bit, one_level_less, split_extension};
use asn1_core::{
    Canonised, Codec, Constructed, DecodeError, DecodeErrorKind, Field, FieldPresence, Fields, Tag,
};
use oer_leaf_read::{BitSlice, read_preamble};
use std::alloc::Global;

/// Whether a row's component is there, and the presence bits behind it.
fn take_presence(presence: FieldPresence, bits: BitSlice<'_>) -> (bool, BitSlice<'_>)
    ensures there { result.0 ≡ is_there presence (bits_left bits.entry) }
    ensures rest { bits_left result.1 ≡ bits_behind presence (bits_left bits.entry) }
{
    match presence {
        FieldPresence::Required => (true, bits),
        FieldPresence::Optional | FieldPresence::Default => next_bit(bits),
    }
}

/// Reads one component, and puts it to the others; want of memory is answered in the mode that the set is read in.
fn read_field<V, D>(
    inner: &mut Decoder<'_>,
    index: usize,
    tag: Tag,
    decode_fn: &D,
    fields: &mut Vec<V>,
    codec: Codec,
) -> Result<(), DecodeError>
where
    V: Drop,
    D: Fn(&mut Decoder<'_>, usize, Tag) -> Result<V, DecodeError>,
    requires callable { FieldTakes D.Fn decode_fn.now (record { index = index; tag = tag }) inner.old }
    ensures ok { OnOk result ((v : V) × FieldReturns D.Fn decode_fn.now (record { index = index; tag = tag }) inner.old (Ok v) inner.new × (fields.new.items ≡ fields.old.items ++ v ∷ [])) }
    ensures err { IfErr result (λ e. (WantsMemoryIn codec e × ((v : V) × (after : State) × FieldReturns D.Fn decode_fn.now (record { index = index; tag = tag }) inner.old (Ok v) after)) ⊎ ((after : State) × FieldReturns D.Fn decode_fn.now (record { index = index; tag = tag }) inner.old (Err e) after)) }
{
    match decode_fn(inner, index, tag) {
        Err(e) => Err(e),
        Ok(value) => match fields.push(value) {
            Err(_) => Err(DecodeErrorKind::OutOfMemory.with_codec(codec)),
            Ok(()) => Ok(()),
        },
    }
}

/// Reads the root components that are there, in tag order.
fn read_roots<V, D>(
    inner: &mut Decoder<'_>,
    rows: Canonised,
    presence: BitSlice<'_>,
    decode_fn: &D,
    fields: &mut Vec<V>,
    codec: Codec,
) -> Result<(), DecodeError>
where
    V: Drop,
    D: Fn(&mut Decoder<'_>, usize, Tag) -> Result<V, DecodeError>,
    requires callable { (c : Call) (s : State) → CalledInTurn (FieldReturns D.Fn decode_fn.now) inner.old (root_calls (map row (canonised_rest rows)) (bits_left presence)) c s → FieldTakes D.Fn decode_fn.now c s }
    ensures ok { OnOk result ((vs : List V) × RanInTurn (FieldReturns D.Fn decode_fn.now) inner.old (root_calls (map row (canonised_rest rows)) (bits_left presence.entry)) vs inner.new × (fields.new.items ≡ fields.old.items ++ vs)) }
    ensures err { IfErr result (λ e. (WantsMemoryIn codec e × AnsweredOne (FieldReturns D.Fn decode_fn.now) inner.old (root_calls (map row (canonised_rest rows)) (bits_left presence.entry))) ⊎ RefusedInTurn (FieldReturns D.Fn decode_fn.now) inner.old (root_calls (map row (canonised_rest rows)) (bits_left presence.entry)) e) }
{
    let mut rows = rows;
    let mut bits = presence;
    while let Some(field) = rows.next() {
        let (is_there, rest) = take_presence(field.presence, bits);
        bits = rest;
        if is_there {
            read_field(
                &mut *inner,
                field.index,
                field.tag,
                decode_fn,
                &mut *fields,
                codec,
            )?;
        }
    }
    Ok(())
}

/// Reads the additions, in the order of the table; their indexes count from `first`.
fn read_additions<V, D>(
    inner: &mut Decoder<'_>,
    first: usize,
    additions: &[Field<'_>],
    decode_fn: &D,
    fields: &mut Vec<V>,
    codec: Codec,
) -> Result<(), DecodeError>
where
    V: Drop,
    D: Fn(&mut Decoder<'_>, usize, Tag) -> Result<V, DecodeError>,
    requires callable { (c : Call) (s : State) → CalledInTurn (FieldReturns D.Fn decode_fn.now) inner.old (addition_calls first (map row additions.now)) c s → FieldTakes D.Fn decode_fn.now c s }
    requires fits { first + length additions.now < 2 ^ 64 }
    ensures ok { OnOk result ((vs : List V) × RanInTurn (FieldReturns D.Fn decode_fn.now) inner.old (addition_calls first (map row additions.now)) vs inner.new × (fields.new.items ≡ fields.old.items ++ vs)) }
    ensures err { IfErr result (λ e. (WantsMemoryIn codec e × AnsweredOne (FieldReturns D.Fn decode_fn.now) inner.old (addition_calls first (map row additions.now))) ⊎ RefusedInTurn (FieldReturns D.Fn decode_fn.now) inner.old (addition_calls first (map row additions.now)) e) }
{
    let mut index = first;
    for field in additions {
        read_field(
            &mut *inner,
            index,
            field.tag,
            decode_fn,
            &mut *fields,
            codec,
        )?;
        index += 1;
    }
    Ok(())
}

/// Reads the components that `set_calls` names.
fn read_fields<const RC: usize, V, D>(
    alloc: Global,
    inner: &mut Decoder<'_>,
    roots: &'static [Field<'static>],
    presence: BitSlice<'_>,
    additions: &[Field<'_>],
    decode_fn: &D,
    codec: Codec,
) -> Result<Vec<V>, DecodeError>
where
    V: Drop,
    D: Fn(&mut Decoder<'_>, usize, Tag) -> Result<V, DecodeError>,
    requires callable { (c : Call) (s : State) → CalledInTurn (FieldReturns D.Fn decode_fn.now) inner.old (set_calls (map row roots.now) (map row additions.now) (bits_left presence)) c s → FieldTakes D.Fn decode_fn.now c s }
    ensures ok { IfOk result (λ vs. RanInTurn (FieldReturns D.Fn decode_fn.now) inner.old (set_calls (map row roots.now) (map row additions.now) (bits_left presence.entry)) vs.items inner.new) }
    ensures err { IfErr result (λ e. (WantsMemoryIn codec e × AnsweredOne (FieldReturns D.Fn decode_fn.now) inner.old (set_calls (map row roots.now) (map row additions.now) (bits_left presence.entry))) ⊎ RefusedInTurn (FieldReturns D.Fn decode_fn.now) inner.old (set_calls (map row roots.now) (map row additions.now) (bits_left presence.entry)) e) }
{
    let rows: Canonised = Fields::<RC> { fields: roots }.canonised();
    let first = roots.len();
    let _size = additions.len();
    let mut fields = Vec::new(alloc);
    read_roots(&mut *inner, rows, presence, decode_fn, &mut fields, codec)?;
    read_additions(&mut *inner, first, additions, decode_fn, &mut fields, codec)?;
    Ok(fields)
}

impl<'input> Decoder<'input> {
    /// A decoder behind the preamble, within one level less, and the presence bits, which are in tag order.
    #[tactic(auto, unfolding(crate::specs::Sets::set_opened_at))]
    fn open_set(
        &self,
        roots: &[Field<'_>],
        extensible: bool,
        additions: &'input [Field<'input>],
    ) -> Result<(Decoder<'input>, BitSlice<'input>), DecodeErrorKind>
        ensures state { Gives (λ p. (p.0, bits_left p.1)) result (set_opened_at self.now extensible (map row roots.now) (map row additions.entry.now)) }
        ensures octets { AreOctets self.now.input }
    {
        let input: &'input [u8] = self.remaining();
        let levels = one_level_less(self.levels)?;
        let (bits, rest): (BitSlice<'input>, &'input [u8]) = read_preamble(
            bits_for(extensible, roots),
            input,
        )?;
        let (extended, presence): (bool, BitSlice<'input>) = split_extension(extensible, bits);
        Ok((
            Decoder {
                input: rest,
                codec: self.codec,
                levels,
                scope: OpenScope {
                    is_set: true,
                    roots: &[],
                    presence: BitSlice::new(&[], 0),
                    extensible,
                    extended,
                    additions,
                    bitmap: None,
                },
            },
            presence,
        ))
    }

    /// Reads a SET (X.696, 18): the preamble, then the components by `decode_fn` on a decoder of the set's own, then what is
    /// left of the extension bitmap and of the additions, which are skipped; `field_fn` makes the set of all components.
    ///
    /// `decode_fn` is called with an index and a tag: once for each root component that is there, in the order of tags
    /// (X.680, 8.6), and then once for each addition of the table, in the order of the table, where it asks the addition; an
    /// addition's index counts on from the number of root rows. A component with a default is compared with it by
    /// `decode_fn`, right after its value, by `refuse_default`.
    ///
    /// Refused, the first that applies: no level is left, as `ExceedsMaxParseDepth`, before anything is read;
    /// `Incomplete` where the preamble's octets are missing; nonzero fill bits, as `InvalidPreamble`; what `decode_fn`
    /// refuses, in the order of its calls; an addition that was not asked, as `MissingTagClassOrValueInSequenceOrSet` with
    /// its tag; the bitmap, where it was not yet read, and the skipped additions as `read_bitmap` and `skip_additions`
    /// refuse them; what `field_fn` refuses. Memory may be refused for a component that was read, as `OutOfMemory`.
    pub fn decode_set<const RC: usize, const EC: usize, FIELDS, SET, D, F>(
        &mut self,
        alloc: Global,
        _tag: Tag,
        decode_fn: D,
        field_fn: F,
    ) -> Result<SET, DecodeError>
    where
        FIELDS: Drop,
        SET: Constructed<RC, EC> + Drop,
        D: Fn(&mut Decoder<'_>, usize, Tag) -> Result<FIELDS, DecodeError>,
        F: FnOnce(Vec<FIELDS>) -> Result<SET, DecodeError>,
        requires callable { (c : Call) (s : State) → SetLends (FieldReturns D.Fn decode_fn) SET.IS_EXTENSIBLE SET.root_rows SET.addition_rows self.old c s → FieldTakes D.Fn decode_fn c s }
        requires makes { (fields : List FIELDS) → SetHands (FieldReturns D.Fn decode_fn) SET.IS_EXTENSIBLE SET.root_rows SET.addition_rows self.old fields → FieldsTaken F.FnOnce field_fn fields }
        // what the closure leaves is a rear part of what it was lent
        requires keeps { (c : Call) (s after : State) (v : _) → SetLends (FieldReturns D.Fn decode_fn) SET.IS_EXTENSIBLE SET.root_rows SET.addition_rows self.old c s → FieldReturns D.Fn decode_fn c s (Ok v) after → IsRear s.input after.input }
        ensures read { IfOk result (λ v. SetRead (FieldReturns D.Fn decode_fn) (FieldsMake F.FnOnce field_fn) SET.IS_EXTENSIBLE SET.root_rows SET.addition_rows self.old v self.new) }
        ensures refused { IfErr result (λ e. SetRefused (FieldReturns D.Fn decode_fn) (FieldsMake F.FnOnce field_fn) SET.IS_EXTENSIBLE SET.root_rows SET.addition_rows self.old e) }
        ensures unchanged { OnErr result (self.new ≡ self.old) }
        ensures rear { OnOk result (IsRear self.old.input self.new.input) }
    {
        let roots: &'static [Field<'static>] = SET::root_fields();
        let additions: &'input [Field<'input>] = SET::addition_fields();
        match self.open_set(roots, SET::IS_EXTENSIBLE, additions) {
            Err(kind) => Err(self.refusal(kind)),
            Ok((mut inner, presence)) => {
                let fields = read_fields::<RC, FIELDS, D>(
                    alloc,
                    &mut inner,
                    roots,
                    presence,
                    additions,
                    &decode_fn,
                    self.codec(),
                )?;
                match inner.close() {
                    Err(kind) => Err(self.refusal(kind)),
                    Ok(rest) => {
                        let set = field_fn(fields)?;
                        self.set_remaining(rest);
                        Ok(set)
                    }
                }
            }
        }
    }
}

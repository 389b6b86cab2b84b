//! Sequences: a closure reads the components on a decoder of its own, whose frame holds the rows that are to be asked.

ghost use Rattle.std.specs.Prelude.{◌≡◌, true, None, map, IfOk, IfErr, OnErr, OnOk, Ok};
ghost use Rattle.std.specs.Fn.{FnOnceReturnsAtMut, FnOnceTakesAtMut};
ghost use Rattle.asn1_core.specs.Octets.{AreOctets};
ghost use Rattle.asn1_core.specs.Rows.{row};
ghost use Rattle.oer_spec.specs.Reading.{Gives};
ghost use Rattle.oer_spec.specs.ReadingBits.{skipped_at};
ghost use Rattle.oer_leaf_read.specs.Views.{bits_left};
ghost use Rattle.oer_read.specs.Law.{IsRear};
ghost use Rattle.oer_read.specs.Scopes.{opened_at, closed_at, all_asked, tail_at, unknown_at, SequenceRead, SequenceRefused};
ghost use Rattle.oer_read.specs.State.{State};

use crate::decoder::Decoder;
use crate::scopes::{OpenScope, bits_for, missing, next_marked, one_level_less, split_extension};
use asn1_core::{Codec, Constructed, DecodeError, DecodeErrorKind, Field, Tag};
use oer_leaf_read::{BitSlice, read_bitmap, read_preamble, skip_additions};

/// What is left behind additions, as `skip_additions` answers it, by a call whose answer lies in a place of this function's.
#[inline(always)]
#[tactic(auto, using(crate::proofs::Skips::none_skipped))]
fn skip_left<'a>(
    codec: Codec,
    bits: BitSlice<'_>,
    input: &'a [u8],
) -> Result<&'a [u8], DecodeErrorKind>
    ensures { Gives (λ x. x.now) result (skipped_at codec (bits_left bits.entry) input.now) }
{
    if bits.is_empty() {
        return Ok(input);
    }
    match skip_additions(codec, bits, input) {
        Ok(rest) => Ok(rest),
        Err(kind) => Err(kind),
    }
}

/// What is left behind a bitmap and all of its additions.
#[inline(never)]
fn skip_mapped<'a>(codec: Codec, input: &'a [u8]) -> Result<&'a [u8], DecodeErrorKind>
    ensures { Gives (λ x. x.now) result (tail_at codec true None input.now) }
{
    let (bits, rest) = read_bitmap(codec, input)?;
    skip_additions(codec, bits, rest)
}

/// The same, by a call whose answer lies in a place of this function's.
#[inline(always)]
fn skip_all<'a>(codec: Codec, input: &'a [u8]) -> Result<&'a [u8], DecodeErrorKind>
    ensures { Gives (λ x. x.now) result (tail_at codec true None input.now) }
{
    match skip_mapped(codec, input) {
        Ok(rest) => Ok(rest),
        Err(kind) => Err(kind),
    }
}

impl<'input> Decoder<'input> {
    /// A decoder behind the preamble, within one level less, whose frame holds the rows.
    #[inline(always)]
    #[tactic(auto, unfolding(crate::specs::Scopes::opened_at))]
    fn open(
        &self,
        roots: &'input [Field<'input>],
        extensible: bool,
        additions: &'input [Field<'input>],
    ) -> Result<Decoder<'input>, DecodeErrorKind>
        ensures state { Gives (λ d. d) result (opened_at self.now extensible (map row roots.entry.now) (map row additions.entry.now)) }
        ensures octets { AreOctets self.now.input }
    {
        let input: &'input [u8] = self.remaining();
        let levels = one_level_less(self.levels)?;
        let (bits, rest): (BitSlice<'input>, &'input [u8]) = read_preamble(
            bits_for(extensible, roots),
            input,
        )?;
        let (extended, presence): (bool, BitSlice<'input>) = split_extension(extensible, bits);
        Ok(Decoder {
            input: rest,
            codec: self.codec,
            levels,
            scope: OpenScope {
                is_set: false,
                roots,
                presence,
                extensible,
                extended,
                additions,
                bitmap: None,
            },
        })
    }

    /// Every row was asked, else the first that was not is missing.
    #[inline(always)]
    fn require_all_asked(&self) -> Result<(), DecodeErrorKind>
        ensures { Gives (λ x. x) result (all_asked self.now.frame.asks self.now.frame.additions) }
    {
        if let Some((field, _)) = next_marked(self.scope.roots) {
            return Err(missing(field.tag));
        }
        match self.scope.additions {
            [] => Ok(()),
            [field, ..] => Err(missing(field.tag)),
        }
    }

    /// What is left behind the additions that were not asked.
    #[inline(always)]
    fn skip_unknown(&self) -> Result<&'input [u8], DecodeErrorKind>
        ensures { Gives (λ x. x.now) result (unknown_at self.now) }
    {
        match self.scope.bitmap {
            Some(bits) => skip_left(self.codec, bits, self.input),
            None if self.scope.extended => skip_all(self.codec, self.input),
            None => Ok(self.input),
        }
    }

    /// What is left behind the scope, after its closure.
    #[inline(always)]
    #[tactic(auto, unfolding(crate::specs::Scopes::closed_at))]
    pub(crate) fn close(&self) -> Result<&'input [u8], DecodeErrorKind>
        ensures { Gives (λ x. x.now) result (closed_at self.now) }
    {
        self.require_all_asked()?;
        let rest = self.skip_unknown()?;
        Ok(rest)
    }
}

impl<'input> Decoder<'input> {
    /// Reads a SEQUENCE (X.696, 16): the preamble, then the components by `f` on a decoder of their own, then what is left
    /// of the extension bitmap and of the additions, which are skipped.
    ///
    /// The closure asks the optional and default root components, and then the additions, in the order of the tables,
    /// each once; required root components it reads directly.
    ///
    /// Refused, the first that applies: no level is left, as `ExceedsMaxParseDepth`, before anything is read;
    /// `Incomplete` where the preamble's octets are missing; nonzero fill bits, as `InvalidPreamble`; what `f` refuses; a
    /// row that was not asked, as `MissingTagClassOrValueInSequenceOrSet` with its tag, root rows first; the bitmap, where
    /// it was not yet read, and the skipped additions as `read_bitmap` and `skip_additions` refuse them.
    #[inline(always)]
    pub fn decode_sequence<const RC: usize, const EC: usize, D, F>(
        &mut self,
        _tag: Tag,
        f: F,
    ) -> Result<D, DecodeError>
    where
        D: Constructed<RC, EC> + Drop,
        F: FnOnce(&mut Decoder<'_>) -> Result<D, DecodeError>,
        requires callable { (lent : State) → opened_at self.old D.IS_EXTENSIBLE D.root_rows D.addition_rows ≡ Ok lent → FnOnceTakesAtMut F.FnOnce f lent }
        // what the closure leaves is a rear part of what it was lent
        requires keeps { (lent after : State) (v : _) → opened_at self.old D.IS_EXTENSIBLE D.root_rows D.addition_rows ≡ Ok lent → FnOnceReturnsAtMut F.FnOnce f lent (Ok v) after → IsRear lent.input after.input }
        ensures read { IfOk result (λ v. SequenceRead (FnOnceReturnsAtMut F.FnOnce f) D.IS_EXTENSIBLE D.root_rows D.addition_rows self.old v self.new) }
        ensures refused { IfErr result (λ e. SequenceRefused (FnOnceReturnsAtMut F.FnOnce f) D.IS_EXTENSIBLE D.root_rows D.addition_rows self.old e) }
        ensures unchanged { OnErr result (self.new ≡ self.old) }
        ensures rear { OnOk result (IsRear self.old.input self.new.input) }
    {
        let roots: &'input [Field<'input>] = D::root_fields();
        let additions: &'input [Field<'input>] = D::addition_fields();
        match self.open(roots, D::IS_EXTENSIBLE, additions) {
            Err(kind) => Err(self.refusal(kind)),
            Ok(mut inner) => match f(&mut inner) {
                Err(e) => Err(e),
                Ok(value) => match inner.close() {
                    Err(kind) => Err(self.refusal(kind)),
                    Ok(rest) => {
                        self.input = rest;
                        Ok(value)
                    }
                },
            },
        }
    }
}

//! Extension additions: each is asked by its bit of the extension bitmap, in the order of the table.

ghost use Rattle.std.specs.Prelude.{◌≡◌, ◌≢◌, [], OnOk, not, get_or, false, drop, List, Bool, Option, Some, None, map, Ok, Err, IfOk, IfErr, true};
ghost use Rattle.std.specs.Fn.{FnOnceTakesAtMut, FnOnceReturnsAtMut};
ghost use Rattle.std.specs.Option.{option_map};
ghost use Rattle.asn1_core.specs.Octets.{Octets, AreOctets};
ghost use Rattle.asn1_core.specs.Rows.{row, may_be_absent};
ghost use Rattle.oer_spec.specs.Reading.{Gives};
ghost use Rattle.oer_spec.specs.Spelled.{IsConsistent};
ghost use Rattle.oer_leaf_read.specs.Views.{bits_left};
ghost use Rattle.oer_read.specs.Additions.{row_present, all_present, with_bitmap, bitmap_first, mapped_at, next_place, open_content, addition_at, past_place, inside, OpenRead, OpenRefused, Adds};
ghost use Rattle.oer_read.specs.Law.{Decodes};
ghost use Rattle.oer_read.specs.State.{State, places_of};
ghost use Rattle.oer_read.specs.Defaults.{AddsDefault};

use crate::decode::Decode;
use crate::decoder::Decoder;
use crate::scopes::{OpenScope, missing, next_bit};
use asn1_core::{
    Codec, Constraints, Constructed, DecodeError, DecodeErrorKind, Field, FieldPresence, Tag,
};
use oer_leaf_read::{BitSlice, read_bitmap, read_content};
use oer_spec::Spelled;
use std::alloc::Global;

/// An addition whose bit is not set has to be one that may be absent.
#[inline(always)]
fn require_row(field: &Field<'_>, bit: bool) -> Result<(), DecodeErrorKind>
    ensures { Gives (λ x. x) result (row_present (record { tag = field.now.tag; needed = not (may_be_absent field.now.presence) }) bit) }
{
    match field.presence {
        FieldPresence::Required if !bit => {
            Err(DecodeErrorKind::RequiredExtensionNotPresent { tag: field.tag })
        }
        FieldPresence::Required | FieldPresence::Optional | FieldPresence::Default => Ok(()),
    }
}

/// Each required addition has its bit set, else the first that has not is missing.
#[inline(always)]
fn require_present(rows: &[Field<'_>], bits: BitSlice<'_>) -> Result<(), DecodeErrorKind>
    ensures { Gives (λ x. x) result (all_present (places_of (map row rows.now)) (bits_left bits.entry)) }
{
    let mut left = rows;
    let mut bits = bits;
    while let [field, later @ ..] = left {
        let (bit, rest) = next_bit(bits);
        require_row(field, bit)?;
        left = later;
        bits = rest;
    }
    Ok(())
}

/// The row of the next addition, which has to have that tag.
#[inline(always)]
fn require_next<'a>(
    tag: Option<Tag>,
    extensible: bool,
    rows: &'a [Field<'a>],
) -> Result<(), DecodeErrorKind>
    ensures { Gives (λ x. x) result (next_place tag extensible (places_of (map row rows.now))) }
{
    match (extensible, rows) {
        (true, [field, ..]) => match tag {
            Some(tag) if field.tag != tag => Err(missing(tag)),
            Some(_) | None => Ok(()),
        },
        (true, []) | (false, _) => Err(DecodeErrorKind::TypeNotExtensible),
    }
}

/// What an addition's row finds: its octets, where its bit is set, and the bits and the octets behind it.
#[derive(Clone, Copy)]
struct Found<'input> {
    content: Option<&'input [u8]>,
    bits: BitSlice<'input>,
    rest: &'input [u8],
}

impl<'input> Decoder<'input> {
    /// The bits of the bitmap that are left, which is read where it was not yet, and what is left behind it.
    #[inline(always)]
    #[tactic(auto, unfolding(crate::specs::Additions::mapped_at))]
    fn mapped(&self) -> Result<(BitSlice<'input>, &'input [u8]), DecodeErrorKind>
        ensures { Gives (λ x. with_bitmap self.now (bits_left x.0) x.1.now) result (mapped_at self.now) }
    {
        match self.scope.bitmap {
            Some(bits) => Ok((bits, self.input)),
            None if self.scope.extended => {
                let (bits, rest): (BitSlice<'input>, &'input [u8]) = read_bitmap(
                    self.codec, self.input,
                )?;
                require_present(self.scope.additions, bits)?;
                Ok((bits, rest))
            }
            None => {
                let bits: BitSlice<'input> = BitSlice::new(&[], 0);
                require_present(self.scope.additions, bits)?;
                Ok((bits, self.input))
            }
        }
    }

    /// The next addition's octets, where its bit is set, and what is behind it.
    #[inline(always)]
    fn open_content(
        &self,
        bits: BitSlice<'input>,
        rest: &'input [u8],
    ) -> Result<Found<'input>, DecodeErrorKind>
        ensures { Gives (λ x. (option_map (λ o. o.now) x.content, past_place self.now (bits_left x.bits) x.rest.now)) result
            (open_content (with_bitmap self.now (bits_left bits.entry) rest.entry.now) (get_or (bits_left bits.entry) 0 false)) }
    {
        let (bit, bits): (bool, BitSlice<'input>) = next_bit(bits);
        if bit {
            let (content, rest): (&'input [u8], &'input [u8]) = read_content(self.codec(), rest)?;
            Ok(Found {
                content: Some(content),
                bits,
                rest,
            })
        } else {
            Ok(Found {
                content: None,
                bits,
                rest,
            })
        }
    }

    /// The next addition: its row, the bitmap, and its octets, where its bit is set.
    #[inline(always)]
    #[tactic(auto, unfolding(crate::specs::Additions::addition_at))]
    fn next_addition(&self, tag: Option<Tag>) -> Result<Found<'input>, DecodeErrorKind>
        ensures { Gives (λ x. (option_map (λ o. o.now) x.content, past_place self.now (bits_left x.bits) x.rest.now)) result (addition_at self.now tag) }
    {
        require_next(tag, self.scope.extensible, self.scope.additions)?;
        let (bits, rest): (BitSlice<'input>, &'input [u8]) = self.mapped()?;
        let found: Found<'input> = self.open_content(bits, rest)?;
        Ok(found)
    }

    /// Goes on behind the next addition's row, with these bits and octets.
    #[inline(always)]
    fn pass_place(&mut self, bits: BitSlice<'input>, rest: &'input [u8])
        ensures { self.new ≡ past_place self.old (bits_left bits.entry) rest.entry.now }
    {
        let additions: &'input [Field<'input>] = match self.scope.additions {
            [] => self.scope.additions,
            [_, later @ ..] => later,
        };
        self.input = rest;
        self.scope.additions = additions;
        self.scope.bitmap = Some(bits);
    }

    /// A decoder of an open type's octets.
    #[inline(always)]
    pub(crate) fn inside(&self, content: &'input [u8]) -> Decoder<'input>
        ensures { result ≡ inside self.now content.entry.now }
    {
        Decoder {
            input: content,
            codec: self.codec,
            levels: self.levels,
            scope: OpenScope::closed(),
        }
    }

    /// Canonically no octets of an open type are left over.
    #[inline(always)]
    pub(crate) fn require_whole(&self, rest: &[u8]) -> Result<(), DecodeError>
        ensures ok { OnOk result (self.now.codec ≡ Codec.Coer → rest.now ≡ []) }
        ensures err { IfErr result (λ e. (rest.now ≢ []) × (self.now.codec ≡ Codec.Coer) × (e ≡ record { kind = DecodeErrorKind.NotValidCanonicalEncoding; codec = self.now.codec })) }
    {
        match (self.codec(), rest) {
            (Codec::Coer, [_, ..]) => {
                Err(self.refusal(DecodeErrorKind::NotValidCanonicalEncoding))
            }
            (Codec::Coer, []) | (Codec::Oer, _) => Ok(()),
        }
    }

    /// The value that `f` reads in an open type's octets, of which canonically none may be left over.
    #[inline(always)]
    fn open_type<D, F>(
        &self,
        content: &'input [u8],
        _constraints: Constraints,
        f: F,
    ) -> Result<D, DecodeError>
    where
        D: Spelled,
        F: FnOnce(&mut Decoder<'_>) -> Result<D, DecodeError>,
        requires callable { FnOnceTakesAtMut F.FnOnce f (inside self.now content.now) }
        requires law { (r : _) (t : State) → FnOnceReturnsAtMut F.FnOnce f (inside self.now content.now) r t → Decodes (D.tree _constraints) D.IsValue (inside self.now content.now) r t }
        ensures ok { IfOk result (OpenRead (D.tree _constraints) D.IsValue (λ s r t. FnOnceReturnsAtMut F.FnOnce f s r t) self.now content.entry.now) }
        ensures err { IfErr result (OpenRefused (D.tree _constraints) D.IsValue (λ s r t. FnOnceReturnsAtMut F.FnOnce f s r t) self.now content.entry.now) }
    {
        let mut inner: Decoder<'input> = self.inside(content);
        let value = f(&mut inner)?;
        self.require_whole(inner.remaining())?;
        Ok(value)
    }

    /// An addition, asked by its tag or, for a group, by its row alone, whose value `f` reads.
    #[inline(always)]
    fn addition_with<D, F>(
        &mut self,
        asked: Option<Tag>,
        constraints: Constraints,
        f: F,
    ) -> Result<Option<D>, DecodeError>
    where
        D: Spelled,
        F: FnOnce(&mut Decoder<'_>) -> Result<D, DecodeError>,
        requires callable { (content : Octets) (next : State) → addition_at self.old asked ≡ Ok (Some content, next) → FnOnceTakesAtMut F.FnOnce f (inside self.old content) }
        requires law { (content : Octets) (next : State) (r : _) (t : State) → addition_at self.old asked ≡ Ok (Some content, next) → FnOnceReturnsAtMut F.FnOnce f (inside self.old content) r t → Decodes (D.tree constraints) D.IsValue (inside self.old content) r t }
        ensures { Adds (D.tree constraints) D.IsValue (λ s r t. FnOnceReturnsAtMut F.FnOnce f s r t) self.old asked result self.new }
    {
        let _octets = self.octets();
        match self.next_addition(asked) {
            Err(kind) => Err(self.refusal(kind)),
            Ok(found) => match found.content {
                None => {
                    self.pass_place(found.bits, found.rest);
                    Ok(None)
                }
                Some(content) => match self.open_type::<D, F>(content, constraints, f) {
                    Err(e) => Err(e),
                    Ok(value) => {
                        self.pass_place(found.bits, found.rest);
                        Ok(Some(value))
                    }
                },
            },
        }
    }

    /// The value of a type in an open type's octets, of which canonically none may be left over.
    #[inline(always)]
    fn open_typed<D: Decode>(
        &self,
        alloc: Global,
        content: &'input [u8],
        tag: Tag,
        constraints: Constraints,
    ) -> Result<D, DecodeError>
        requires { IsConsistent constraints }
        ensures ok { IfOk result (OpenRead (D.tree constraints) D.IsValue (D.Answered constraints) self.now content.entry.now) }
        ensures err { IfErr result (OpenRefused (D.tree constraints) D.IsValue (D.Answered constraints) self.now content.entry.now) }
    {
        let mut inner: Decoder<'input> = self.inside(content);
        let value = D::decode_with_tag_and_constraints(alloc, &mut inner, tag, constraints)?;
        self.require_whole(inner.remaining())?;
        Ok(value)
    }

    /// An addition of a type that is read, asked by its tag or, for a group, by its row alone. It calls no closure: one that
    /// isn't inlined would have the constraints and a decoder in memory.
    #[inline(always)]
    fn addition<D: Decode>(
        &mut self,
        alloc: Global,
        asked: Option<Tag>,
        tag: Tag,
        constraints: Constraints,
    ) -> Result<Option<D>, DecodeError>
        requires { IsConsistent constraints }
        ensures { Adds (D.tree constraints) D.IsValue (D.Answered constraints) self.old asked result self.new }
    {
        let _octets = self.octets();
        match self.next_addition(asked) {
            Err(kind) => Err(self.refusal(kind)),
            Ok(found) => match found.content {
                None => {
                    self.pass_place(found.bits, found.rest);
                    Ok(None)
                }
                Some(content) => match self.open_typed::<D>(alloc, content, tag, constraints) {
                    Err(e) => Err(e),
                    Ok(value) => {
                        self.pass_place(found.bits, found.rest);
                        Ok(Some(value))
                    }
                },
            },
        }
    }
}

impl<'input> Decoder<'input> {
    /// Reads an extension addition under the handed-in tag and constraints (X.696, 16.4 and 30): none where its bit of the
    /// extension bitmap is 0. The bitmap is read at the first such call.
    ///
    /// Refused, the first that applies: a type that isn't extensible, or no addition is left to ask, as
    /// `TypeNotExtensible`; the next one has another tag, as `MissingTagClassOrValueInSequenceOrSet` with `tag`; at the first
    /// such call the bitmap as `read_bitmap` refuses it, and then a required addition without a set bit, as
    /// `RequiredExtensionNotPresent` with its tag; the open type's octets as `read_content` refuses them; what the type
    /// refuses of the value in them; octets left over in canonical mode, as `NotValidCanonicalEncoding`.
    #[inline(always)]
    pub fn decode_extension_addition_with_tag_and_constraints<D: Decode>(
        &mut self,
        alloc: Global,
        tag: Tag,
        constraints: Constraints,
    ) -> Result<Option<D>, DecodeError>
        requires { IsConsistent constraints }
        ensures { Adds (D.tree constraints) D.IsValue (D.Answered constraints) self.old (Some tag) result self.new }
    {
        self.addition(alloc, Some(tag), tag, constraints)
    }

    /// Reads an extension addition's value by `f` (X.696, 16.4 and 30): none where its bit of the extension bitmap is 0.
    /// `f` is handed a decoder of the open type's octets.
    ///
    /// Refused as `decode_extension_addition_with_tag_and_constraints` refuses, with what `f` does.
    #[inline(always)]
    pub fn decode_extension_addition_with<D, F>(
        &mut self,
        tag: Tag,
        f: F,
    ) -> Result<Option<D>, DecodeError>
    where
        D: Spelled,
        F: FnOnce(&mut Decoder<'_>) -> Result<D, DecodeError>,
        requires callable { (content : Octets) (next : State) → addition_at self.old (Some tag) ≡ Ok (Some content, next) → FnOnceTakesAtMut F.FnOnce f (inside self.old content) }
        requires law { (content : Octets) (next : State) (r : _) (t : State) → addition_at self.old (Some tag) ≡ Ok (Some content, next) → FnOnceReturnsAtMut F.FnOnce f (inside self.old content) r t → Decodes (D.tree D.CONSTRAINTS) D.IsValue (inside self.old content) r t }
        ensures { Adds (D.tree D.CONSTRAINTS) D.IsValue (λ s r t. FnOnceReturnsAtMut F.FnOnce f s r t) self.old (Some tag) result self.new }
    {
        self.addition_with::<D, F>(Some(tag), D::CONSTRAINTS, f)
    }

    /// Reads an extension addition with an explicit prefix, which adds no octets (X.696, 8.7), as
    /// `decode_extension_addition_with_tag_and_constraints` does.
    pub fn decode_extension_addition_with_explicit_tag_and_constraints<D: Decode>(
        &mut self,
        alloc: Global,
        tag: Tag,
        constraints: Constraints,
    ) -> Result<Option<D>, DecodeError>
        requires { IsConsistent constraints }
        ensures { Adds (D.tree constraints) D.IsValue (D.Answered constraints) self.old (Some tag) result self.new }
    {
        self.decode_extension_addition_with_tag_and_constraints(alloc, tag, constraints)
    }

    /// Reads an extension addition group, a sequence in one open type (X.696, 16.4), as
    /// `decode_extension_addition_with_tag_and_constraints` does; it has no tag, and is the next row whatever its tag.
    pub fn decode_extension_addition_group<const RC: usize, const EC: usize, D>(
        &mut self,
        alloc: Global,
    ) -> Result<Option<D>, DecodeError>
    where
        D: Decode + Constructed<RC, EC>,
        ensures { Adds (D.tree D.CONSTRAINTS) D.IsValue (D.Answered D.CONSTRAINTS) self.old None result self.new }
    {
        self.addition(alloc, None, D::TAG, D::CONSTRAINTS)
    }

    /// Reads an extension addition with a default under the handed-in tag and constraints (X.696, 16.4 and 30): `default`
    /// where its bit of the extension bitmap is 0.
    ///
    /// Refused as `decode_extension_addition_with_tag_and_constraints` refuses; then a value that is equal to `default` in
    /// canonical mode, as `NotValidCanonicalEncoding`.
    pub fn decode_extension_addition_default<D: Decode + PartialEq>(
        &mut self,
        alloc: Global,
        tag: Tag,
        constraints: Constraints,
        default: D,
    ) -> Result<D, DecodeError>
        requires { IsConsistent constraints }
        ensures { AddsDefault (D.tree constraints) D.IsValue (D.Answered constraints) D.eq self.old tag default result self.new }
    {
        let before = self.mark();
        let found = self.decode_extension_addition_with_tag_and_constraints::<D>(
            alloc,
            tag,
            constraints,
        )?;
        match found {
            None => Ok(default),
            Some(value) => match self.refuse_default(&value, &default) {
                Err(e) => {
                    self.go_back(before);
                    Err(e)
                }
                Ok(()) => Ok(value),
            },
        }
    }
}

//! Choices: a tag, and the alternative that the closure writes.
ghost use Rattle.std.specs.Prelude.{◌≡◌, ◌^◌, ◌<◌, ◌++◌, ◌⊎◌, [], List, Bool, true, false, length, OnOk, OnErr, IfErr};
ghost use Rattle.asn1_core.specs.declared.tag.Tag.{Tag as Label};
ghost use Rattle.std.specs.Fn.{FnOnceTakesAtMut};
ghost use Rattle.asn1_core.specs.Octets.{Octets};
ghost use Rattle.asn1_core.specs.Tags.{holds};
ghost use Rattle.oer_spec.specs.Lengths.{behind_length, tag_octets};
ghost use Rattle.oer_spec.specs.Tree.{Tree, Choice};
ghost use Rattle.oer_spec.specs.Writing.{BeginsWith};
ghost use Rattle.oer_write.specs.Held.{Kept};
ghost use Rattle.oer_write.specs.Layout.{Adds, Ascends};
ghost use Rattle.asn1_core.specs.declared.codec.Codec.TheVariants.{Coer};
ghost use Rattle.asn1_core.specs.declared.error.EncodeErrorKind.TheVariants.{OutOfMemory};
ghost use Rattle.oer_spec.specs.Encoding.{canonical_octets};
ghost use Rattle.oer_spec.specs.Failures.{Fails};
ghost use Rattle.oer_write.specs.Rows.{IsOpenEncodable, open_type};
ghost use Rattle.oer_write.specs.Choices.{PromisePick, PicksTag, ContentDone, ContentRefused, Appended, AppendedOpen, alternative_octets, ChoiceDone, ChoiceBroken, IsKnownToPick};
ghost use Rattle.oer_write.specs.Written.{Written, Keeps, Encodes, Refused, WantsMemory, append};

use crate::encode::Encode;
use crate::encoder::Encoder;
use crate::insertions::Insertions;
use crate::opening::{Composite, Leaf, WritesOpen, is_leaf, put_open};
use crate::opens::close_open;
use crate::scopes::open_scope;
use asn1_core::{Choice, Constraints, EncodeError, EncodeErrorKind, Tag};
use oer_leaf_write::write_tag;
use oer_spec::is_among;
use std::alloc::Global;

/// Lends an encoder to a closure that answers a tag.
#[inline(always)]
fn lend_pick<F: FnOnce(&mut Encoder<'_>) -> Result<Tag, EncodeError>>(
    encoder: &mut Encoder<'_>,
    f: F,
) -> Result<Tag, EncodeError>
    requires callable { FnOnceTakesAtMut F.FnOnce f encoder.old }
    ensures { PromisePick F.FnOnce f encoder.old result encoder.new }
{
    f(encoder)
}

/// Lends an encoder with no scope open to a closure that answers a tag.
#[inline(always)]
fn pick<F: FnOnce(&mut Encoder<'_>) -> Result<Tag, EncodeError>>(
    encoder: &mut Encoder<'_>,
    tag: Tag,
    f: F,
) -> Result<(), EncodeError>
    requires callable { FnOnceTakesAtMut F.FnOnce f encoder.old }
    requires picks { PicksTag (PromisePick F.FnOnce f) tag }
    requires shut { encoder.old.frame.is_open ≡ false }
    ensures done { OnOk result (Appended (PromisePick F.FnOnce f) encoder.old.octets encoder.new.octets) }
    ensures refused { IfErr result (λ x. ContentRefused (PromisePick F.FnOnce f) x) }
    ensures keeps { Keeps encoder.old encoder.new }
{
    lend_pick(encoder, f)?;
    Ok(())
}

/// Lends an encoder with no scope open, over an output.
#[inline(always)]
fn pick_into<F: FnOnce(&mut Encoder<'_>) -> Result<Tag, EncodeError>>(
    alloc: Global,
    is_inside: bool,
    tag: Tag,
    f: F,
    out: &mut Vec<u8>,
    insertions: &mut Insertions,
) -> Result<(), EncodeError>
    requires callable { (lent : Written) → lent.frame.is_open ≡ false → FnOnceTakesAtMut F.FnOnce f lent }
    requires picks { PicksTag (PromisePick F.FnOnce f) tag }
    requires alone { is_inside ≡ false → insertions.old ≡ [] }
    requires ascends { Ascends 0 insertions.old (length out.old.items) }
    ensures done { OnOk result ((o : Octets) × ContentDone (PromisePick F.FnOnce f) o × Adds o out.old.items insertions.old out.new.items insertions.new) }
    ensures refused { IfErr result (λ x. ContentRefused (PromisePick F.FnOnce f) x) }
    ensures kept { Kept out.old.items insertions.old out.new.items insertions.new }
    ensures alone { is_inside ≡ false → insertions.new ≡ [] }
{
    let empty = Insertions::new(alloc);
    let pieces = std::mem::replace(&mut *insertions, empty);
    let mut inner = Encoder::lent(alloc, is_inside, pieces, &mut *out);
    let answer = pick(&mut inner, tag, f);
    let (octets, pieces) = inner.into_parts();
    *out = octets;
    *insertions = pieces;
    answer
}

/// Appends an open type: what a closure writes, and in front of it its length (X.696, 30).
#[inline(always)]
fn pick_open<F: FnOnce(&mut Encoder<'_>) -> Result<Tag, EncodeError>>(
    alloc: Global,
    is_inside: bool,
    tag: Tag,
    f: F,
    out: &mut Vec<u8>,
    insertions: &mut Insertions,
) -> Result<(), EncodeError>
    requires callable { (lent : Written) → lent.frame.is_open ≡ false → FnOnceTakesAtMut F.FnOnce f lent }
    requires picks { PicksTag (PromisePick F.FnOnce f) tag }
    requires alone { is_inside ≡ false → insertions.old ≡ [] }
    requires ascends { Ascends 0 insertions.old (length out.old.items) }
    ensures done { OnOk result ((o : Octets) × ContentDone (PromisePick F.FnOnce f) o × (length o < 2 ^ 64) × Adds (behind_length o) out.old.items insertions.old out.new.items insertions.new) }
    ensures refused { IfErr result (λ x. WantsMemory x ⊎ ContentRefused (PromisePick F.FnOnce f) x) }
    ensures kept { Kept out.old.items insertions.old out.new.items insertions.new }
    ensures alone { is_inside ≡ false → OnOk result (insertions.new ≡ []) }
{
    let start = out.len();
    let slot = insertions.len();
    let before = insertions.inserted();
    open_scope(alloc, is_inside, &mut *out, &mut *insertions)?;
    pick_into(alloc, true, tag, f, &mut *out, &mut *insertions)?;
    close_open(is_inside, start, slot, before, out, insertions)?;
    Ok(())
}

/// Writes a tag, and behind it a root alternative as it is, another as an open type.
#[inline(always)]
fn write_choice<F: FnOnce(&mut Encoder<'_>) -> Result<Tag, EncodeError>>(
    alloc: Global,
    is_inside: bool,
    tag: Tag,
    is_root: bool,
    f: F,
    out: &mut Vec<u8>,
    insertions: &mut Insertions,
) -> Result<(), EncodeError>
    requires callable { (lent : Written) → lent.frame.is_open ≡ false → FnOnceTakesAtMut F.FnOnce f lent }
    requires picks { PicksTag (PromisePick F.FnOnce f) tag }
    requires alone { is_inside ≡ false → insertions.old ≡ [] }
    requires ascends { Ascends 0 insertions.old (length out.old.items) }
    ensures done { OnOk result ((o : Octets) × ContentDone (PromisePick F.FnOnce f) o × (is_root ≡ false → length o < 2 ^ 64) × Adds (tag_octets tag ++ alternative_octets is_root o) out.old.items insertions.old out.new.items insertions.new) }
    ensures refused { IfErr result (λ x. WantsMemory x ⊎ ContentRefused (PromisePick F.FnOnce f) x) }
    ensures kept { Kept out.old.items insertions.old out.new.items insertions.new }
    ensures alone { is_inside ≡ false → OnOk result (insertions.new ≡ []) }
{
    write_tag(tag, out)?;
    if is_root {
        return pick_into(alloc, is_inside, tag, f, out, insertions);
    }
    pick_open(alloc, is_inside, tag, f, out, insertions)
}

/// Writes a choice; where it refuses, the output and the insertions are as before.
#[inline(always)]
fn put_choice<F: FnOnce(&mut Encoder<'_>) -> Result<Tag, EncodeError>>(
    alloc: Global,
    is_inside: bool,
    tag: Tag,
    is_root: bool,
    f: F,
    out: &mut Vec<u8>,
    insertions: &mut Insertions,
) -> Result<(), EncodeError>
    requires callable { (lent : Written) → lent.frame.is_open ≡ false → FnOnceTakesAtMut F.FnOnce f lent }
    requires picks { PicksTag (PromisePick F.FnOnce f) tag }
    requires alone { is_inside ≡ false → insertions.old ≡ [] }
    requires ascends { Ascends 0 insertions.old (length out.old.items) }
    ensures done { OnOk result ((o : Octets) × ContentDone (PromisePick F.FnOnce f) o × (is_root ≡ false → length o < 2 ^ 64) × Adds (tag_octets tag ++ alternative_octets is_root o) out.old.items insertions.old out.new.items insertions.new) }
    ensures refused { IfErr result (λ x. WantsMemory x ⊎ ContentRefused (PromisePick F.FnOnce f) x) }
    ensures unchanged { OnErr result (out.new.items ≡ out.old.items) }
    ensures kept { OnErr result (insertions.new ≡ insertions.old) }
    ensures alone { is_inside ≡ false → OnOk result (insertions.new ≡ []) }
{
    let start = out.len();
    let slot = insertions.len();
    match write_choice(
        alloc,
        is_inside,
        tag,
        is_root,
        f,
        &mut *out,
        &mut *insertions,
    ) {
        Ok(()) => Ok(()),
        Err(e) => {
            out.truncate(start);
            insertions.cut_apart(alloc, slot);
            Err(e)
        }
    }
}

/// Appends a value as an open type under its type's own constraints: out of line, where these are folded away.
#[inline(never)]
fn put_own<T: Encode, W: WritesOpen>(
    alloc: Global,
    is_inside: bool,
    tag: Tag,
    value: &T,
    out: &mut Vec<u8>,
    insertions: &mut Insertions,
) -> Result<(), EncodeError>
    requires alone { is_inside ≡ false → insertions.old ≡ [] }
    requires ascends { Ascends 0 insertions.old (length out.old.items) }
    ensures short { OnOk result (IsOpenEncodable (T.tree T.CONSTRAINTS value.now)) }
    ensures done { OnOk result (Adds (open_type (canonical_octets (T.tree T.CONSTRAINTS value.now))) out.old.items insertions.old out.new.items insertions.new) }
    ensures value { OnOk result (T.IsValue value.now) }
    ensures refused { IfErr result (λ x. (x.kind ≡ OutOfMemory) ⊎ Fails (T.tree T.CONSTRAINTS value.now) x.kind) }
    ensures mode { IfErr result (λ x. x.codec ≡ Coer) }
    ensures unchanged { OnErr result (out.new.items ≡ out.old.items) }
    ensures kept { OnErr result (insertions.new ≡ insertions.old) }
    ensures alone { is_inside ≡ false → OnOk result (insertions.new ≡ []) }
{
    put_open::<T, W>(
        alloc,
        is_inside,
        tag,
        T::CONSTRAINTS,
        value,
        out,
        insertions,
    )
}

/// The same by the value's sort: each has a call of its own, so that a value is inlined once.
#[inline(always)]
fn put_own_by_sort<T: Encode>(
    alloc: Global,
    is_inside: bool,
    tag: Tag,
    value: &T,
    out: &mut Vec<u8>,
    insertions: &mut Insertions,
) -> Result<(), EncodeError>
    requires alone { is_inside ≡ false → insertions.old ≡ [] }
    requires ascends { Ascends 0 insertions.old (length out.old.items) }
    ensures short { OnOk result (IsOpenEncodable (T.tree T.CONSTRAINTS value.now)) }
    ensures done { OnOk result (Adds (open_type (canonical_octets (T.tree T.CONSTRAINTS value.now))) out.old.items insertions.old out.new.items insertions.new) }
    ensures value { OnOk result (T.IsValue value.now) }
    ensures refused { IfErr result (λ x. (x.kind ≡ OutOfMemory) ⊎ Fails (T.tree T.CONSTRAINTS value.now) x.kind) }
    ensures mode { IfErr result (λ x. x.codec ≡ Coer) }
    ensures unchanged { OnErr result (out.new.items ≡ out.old.items) }
    ensures kept { OnErr result (insertions.new ≡ insertions.old) }
    ensures alone { is_inside ≡ false → OnOk result (insertions.new ≡ []) }
{
    if is_leaf(T::TAG) {
        return put_own::<T, Leaf>(alloc, is_inside, tag, value, out, insertions);
    }
    put_own::<T, Composite>(alloc, is_inside, tag, value, out, insertions)
}

impl<'buffer> Encoder<'buffer> {
    /// Writes a CHOICE (X.696, 20): the tag, and the alternative that the closure writes, which answers that tag.
    ///
    /// What the closure appends in an encoder with no scope open is what stands behind the tag: as it is where the tag is
    /// one of the root alternatives, else as an open type. Refused by what the closure refused, or for want of memory.
    #[inline(always)]
    pub fn encode_choice<E: Choice, F: FnOnce(&mut Encoder<'_>) -> Result<Tag, EncodeError>>(
        &mut self,
        _constraints: Constraints,
        tag: Tag,
        f: F,
    ) -> Result<(), EncodeError>
        requires callable { (lent : Written) → lent.frame.is_open ≡ false → FnOnceTakesAtMut F.FnOnce f lent }
        requires picks { PicksTag (PromisePick F.FnOnce f) tag }
        ensures done { OnOk result (ChoiceDone (PromisePick F.FnOnce f) (holds E.root_tags tag) tag self.old self.new) }
        ensures refused { IfErr result (λ x. ChoiceBroken (PromisePick F.FnOnce f) x self.old self.new) }
        ensures tree { (t : Tree) → IsKnownToPick (PromisePick F.FnOnce f) tag t → OnOk result (Encodes (Choice E.root_tags E.addition_tags tag t) self.old self.new) }
        ensures tree_refused { (t : Tree) → IsKnownToPick (PromisePick F.FnOnce f) tag t → IfErr result (λ x. Refused (Choice E.root_tags E.addition_tags tag t) x self.old self.new) }
    {
        self.choice(tag, is_among(E::root_tags(), tag), f)
    }

    #[inline(always)]
    fn choice<F: FnOnce(&mut Encoder<'_>) -> Result<Tag, EncodeError>>(
        &mut self,
        tag: Tag,
        is_root: bool,
        f: F,
    ) -> Result<(), EncodeError>
        requires callable { (lent : Written) → lent.frame.is_open ≡ false → FnOnceTakesAtMut F.FnOnce f lent }
        requires picks { PicksTag (PromisePick F.FnOnce f) tag }
        ensures done { OnOk result (ChoiceDone (PromisePick F.FnOnce f) is_root tag self.old self.new) }
        ensures refused { IfErr result (λ x. ChoiceBroken (PromisePick F.FnOnce f) x self.old self.new) }
        ensures unchanged { OnErr result (self.new ≡ self.old) }
    {
        let empty = Insertions::new(self.alloc);
        let mut pieces = std::mem::replace(&mut self.insertions, empty);
        let answer = put_choice(
            self.alloc,
            self.is_inside,
            tag,
            is_root,
            f,
            &mut *self.output,
            &mut pieces,
        );
        self.insertions = pieces;
        answer?;
        Ok(())
    }

    #[tactic(auto, using(crate::proofs::Regions::more_shown, crate::proofs::Regions::more_within))]
    #[inline(always)]
    fn put_tag(&mut self, tag: Tag) -> Result<(), EncodeErrorKind>
        ensures done { OnOk result (self.new ≡ append (tag_octets tag) self.old) }
        ensures refused { IfErr result (λ k. (k ≡ OutOfMemory) × Keeps self.old self.new) }
    {
        write_tag(tag, &mut *self.output)
    }

    /// Writes a CHOICE (X.696, 20) whose alternative with that tag is the value: a root alternative straight behind the tag,
    /// another as an open type. `Ok` only for an admitted value.
    ///
    /// Refused by what the value is refused by, or for want of memory.
    #[inline(always)]
    pub fn encode_alternative<E: Choice, T: Encode>(
        &mut self,
        tag: Tag,
        value: &T,
    ) -> Result<(), EncodeError>
        ensures done { OnOk result (Encodes (Choice E.root_tags E.addition_tags tag (T.tree T.CONSTRAINTS value.now)) self.old self.new) }
        ensures value { OnOk result (T.IsValue value.now) }
        ensures refused { IfErr result (λ x. Refused (Choice E.root_tags E.addition_tags tag (T.tree T.CONSTRAINTS value.now)) x self.old self.new) }
    {
        self.put_tag(tag)?;
        if is_among(E::root_tags(), tag) {
            return value.encode(self);
        }
        self.put_own_open(tag, value)
    }

    /// Writes a value as an open type (X.696, 30), by a call to which the list of insertions is lent.
    #[inline(always)]
    fn put_own_open<T: Encode>(&mut self, tag: Tag, value: &T) -> Result<(), EncodeError>
        ensures short { OnOk result (IsOpenEncodable (T.tree T.CONSTRAINTS value.now)) }
        ensures done { OnOk result (self.new ≡ append (open_type (canonical_octets (T.tree T.CONSTRAINTS value.now))) self.old) }
        ensures value { OnOk result (T.IsValue value.now) }
        ensures refused { IfErr result (λ x. Refused (T.tree T.CONSTRAINTS value.now) x self.old self.new) }
    {
        let empty = Insertions::new(self.alloc);
        let mut pieces = std::mem::replace(&mut self.insertions, empty);
        let answer = put_own_by_sort(
            self.alloc,
            self.is_inside,
            tag,
            value,
            &mut *self.output,
            &mut pieces,
        );
        self.insertions = pieces;
        answer?;
        Ok(())
    }
}

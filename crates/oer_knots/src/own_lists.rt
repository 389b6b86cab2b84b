//! Lists of themselves.
ghost use Rattle.std.specs.Prelude.{◌≡◌, ◌<◌, ◌≤◌, ◌-◌, suc, [], length, IfOk, IfErr};
ghost use Rattle.oer_read.specs.Law.{Decodes};
ghost use Rattle.oer_read.specs.Lists.{ListRead, ListRefused};
ghost use Rattle.oer_read.specs.State.{apart};
ghost use Rattle.oer_knots.specs.Answering.{KnotAnswers};
ghost use Rattle.oer_knots.specs.OwnLists.{own_list, OwnElement, LiesWithin, Pushed, NotPushed};

use crate::held::Bare;
use crate::knots::Knot;
use asn1_core::{Codec, DecodeError, DecodeErrorKind, Tag};
use oer_read::{Decoder, keep};
use oer_rows::ListOf;
use oer_spec::Spelled;
use std::alloc::Global;

impl<K: Spelled> Knot<K> for Bare<K> {
    ghost use Rattle.oer_knots.specs.Knots.{bare_layered};

    ghost content = { λ h. h.0 };

    fn from_content(inner: K) -> Bare<K> {
        Bare(inner)
    }

    ghost layered = { bare_layered (K.tree K.CONSTRAINTS) K.IsValue };
}

/// Reads a value of a type that is a list of itself (X.696, 17), within the levels left: each element within fewer.
///
/// `decode_knotted` reads the same, and takes longer: there a value is taken apart and put together at each level.
///
/// Refused, the first that applies: no level is left, as `ExceedsMaxParseDepth`; the quantity of elements as the decoder's
/// `read_quantity` refuses it; in turn for each element, what it refuses. Memory may be refused for an element that was read,
/// as `OutOfMemory`.
pub fn decode_list_of_itself<B: Knot<K>, K: Knot<ListOf<B>>>(
    alloc: Global,
    decoder: &mut Decoder<'_>,
    _tag: Tag,
) -> Result<K, DecodeError>
    ensures law { Decodes (K.tree K.CONSTRAINTS) K.IsValue decoder.old result decoder.new }
    ensures answered { KnotAnswers K.content (own_list (B.tree B.CONSTRAINTS) B.IsValue B.content) decoder.old result decoder.new }
{
    let mut own: Vec<B> = Vec::new(alloc);
    match read_own::<B, K>(alloc, decoder, &mut own) {
        Err(error) => Err(error),
        Ok(rest) => {
            decoder.set_remaining(rest);
            Ok(K::from_content(ListOf(own)))
        }
    }
}

/// Reads the elements of the list at the front, each within fewer levels, into `own`, which has none yet, and answers what is
/// left. It is inlined, so that no function is handed the decoder.
///
/// Refused as `decode_list_of_itself` refuses. An element takes octets for its own quantity, so none counts as empty.
#[inline(always)]
#[cycle(own_elements)]
fn read_own<'a, B: Knot<K>, K: Knot<ListOf<B>>>(
    alloc: Global,
    list: &Decoder<'a>,
    own: &mut Vec<B>,
) -> Result<&'a [u8], DecodeError>
    requires { own.old.items ≡ [] }
    ensures read { IfOk result (λ rest. ListRead (OwnElement (B.tree B.CONSTRAINTS) B.IsValue B.content K.content list.now.levels) list.now own.new.items (record list.now { input = rest.now })) }
    ensures takes { IfOk result (λ rest. length rest.now < length list.now.input) }
    ensures refused { IfErr result (λ e. ListRefused (OwnElement (B.tree B.CONSTRAINTS) B.IsValue B.content K.content list.now.levels) list.now e) }
{
    let codec = list.codec();
    let levels = list.levels();
    match list.open_list() {
        Err(kind) => Err(kind.with_codec(codec)),
        Ok((count, start)) => {
            let mut lent: Decoder<'a> = Decoder::apart(start, codec, levels - 1);
            for i in 0..count {
                let rest = lent.remaining();
                match push_element::<B, K>(alloc, codec, levels - 1, rest, own, count) {
                    Err(e) => return Err(e),
                    Ok(left) => lent.set_remaining(left),
                }
            }
            Ok(lent.remaining())
        }
    }
}

/// How many lists of one list each stand around the innermost list at the front of these octets, and the octets from that one on.
/// A list that is refused stops the search: who reads it says why.
#[inline(never)]
fn seek_innermost<'a>(codec: Codec, levels: usize, input: &'a [u8]) -> (usize, &'a [u8])
    ensures within { LiesWithin (apart codec levels input.entry.now) result.0 (apart codec (levels - result.0) result.1.now) }
    ensures levels { result.0 ≤ levels }
    ensures takes { length result.1.now ≤ length input.entry.now }
{
    let mut inner: &'a [u8] = input;
    for around in 0..levels {
        match Decoder::apart(inner, codec, levels - around).open_list() {
            Ok((1, start)) => inner = start,
            _ => return (around, inner),
        }
    }
    (levels, inner)
}

/// The same. What doesn't begin as canonical octets of such a list is taken for the innermost: it is read as well, by a call more.
#[inline(always)]
fn find_innermost<'a>(codec: Codec, levels: usize, input: &'a [u8]) -> (usize, &'a [u8])
    ensures within { LiesWithin (apart codec levels input.entry.now) result.0 (apart codec (levels - result.0) result.1.now) }
    ensures levels { result.0 ≤ levels }
    ensures takes { length result.1.now ≤ length input.entry.now }
{
    match input {
        [1, 1, ..] => seek_innermost(codec, levels, input),
        _ => (0, input),
    }
}

/// Reads a value from the front of these octets, as an element of a list of so many, puts it behind those that were read, and
/// answers what is left. No decoder and no value is handed on, since both would lie in memory at each level.
///
/// Lists of one list each are gone through by loops, there and back: a call for each would take longer than all the rest.
///
/// Refused as `decode_list_of_itself` refuses, and as `OutOfMemory` for the value that was read.
#[cycle(own_elements)]
fn push_element<'a, B: Knot<K>, K: Knot<ListOf<B>>>(
    alloc: Global,
    codec: Codec,
    levels: usize,
    input: &'a [u8],
    items: &mut Vec<B>,
    quantity: usize,
) -> Result<&'a [u8], DecodeError>
    ensures read { IfOk result (λ rest. Pushed (OwnElement (B.tree B.CONSTRAINTS) B.IsValue B.content K.content (suc levels)) (apart codec levels input.entry.now) items.old.items items.new.items (apart codec levels rest.now)) }
    ensures takes { IfOk result (λ rest. length rest.now < length input.entry.now) }
    ensures refused { IfErr result (λ e. NotPushed (OwnElement (B.tree B.CONSTRAINTS) B.IsValue B.content K.content (suc levels)) (apart codec levels input.entry.now) e) }
{
    let (around, inner) = find_innermost(codec, levels, input);
    let list: Decoder<'a> = Decoder::apart(inner, codec, levels - around);
    let mut own: Vec<B> = Vec::new(alloc);
    match read_own::<B, K>(alloc, &list, &mut own) {
        Err(e) => Err(e),
        Ok(rest) => {
            for i in 0..around {
                let lone = B::from_content(K::from_content(ListOf(own)));
                own = Vec::new(alloc);
                match keep(&mut own, lone, 1, 1, 0) {
                    Ok(()) => {}
                    Err(_) => return Err(DecodeErrorKind::OutOfMemory.with_codec(codec)),
                }
            }
            let element = B::from_content(K::from_content(ListOf(own)));
            match keep(items, element, quantity, input.len(), rest.len()) {
                Ok(()) => Ok(rest),
                Err(_) => Err(DecodeErrorKind::OutOfMemory.with_codec(codec)),
            }
        }
    }
}

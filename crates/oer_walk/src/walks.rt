//! The walk.
ghost use Rattle.std.specs.Prelude.{◌≡◌, ◌<◌, ◌≤◌, ◌-◌, ◌^◌, ◌&&◌, false, IfOk, Ok, Err, length, drop, get_or, min};
ghost use Rattle.asn1_core.specs.Octets.{Octets};
ghost use Rattle.oer_leaf_read.specs.Views.{bits_left};
ghost use Rattle.oer_spec.specs.Reading.{Gives};
ghost use Rattle.oer_walk.specs.Described.{TakesEncodings};
ghost use Rattle.oer_walk.specs.Parts.{ArePlaced};
ghost use Rattle.oer_walk.specs.Shown.{ShowsEncodings};
ghost use Rattle.oer_walk.specs.Tables.{nothing};
ghost use Rattle.oer_walk.specs.Walks.{IsWalk, IsAnswer, overlay, walk_of, most_of, inside, node_of, part_if, part_at, within_by, behind_length_at, open_by, leaf_at, value_at, scope_by, list_by, elements_by, tagged_at, choice_by, sequence_by, body_by, components_by, additions_by, known_by, unknown_by, with_empty, extension_count, is_present, later_bits};
ghost use Rattle.oer_walk.specs.declared.places.Stop.{Stop};

use crate::nodes::{Node, put};
use crate::places::{Place, Scope, Stop};
use crate::table::{Component, Form, Parts, Table};
use asn1_core::{Codec, DecodeErrorKind};
use oer_leaf_read::{
    BitSlice, read_bitmap, read_enumerated, read_length, read_octets, read_preamble, read_quantity,
    read_tag,
};

/// What a walk came to.
#[derive(Debug, PartialEq, Eq, Drop)]
pub struct Walked {
    /// How many nodes there are, of which those stand in the room that it has room for.
    pub nodes: usize,
    /// How many of them stand in the room.
    pub shown: usize,
    /// How many octets the value takes; if the walk stopped, where the innermost part begins that it stopped in.
    pub consumed: usize,
    /// Why it stopped, if it did.
    pub refusal: Option<DecodeErrorKind>,
}

/// Walks the value of the type with that number at the front of the input, as lenient reading takes it, within that many
/// levels. Nodes stand in the order of the octets, each behind the node around it. Takes no memory.
///
/// Refused where octets lack, or their form is none of the type's; it doesn't judge what values are. Past 65,536 nodes and 16
/// for each octet it is refused as `TooManyEmptyElements`.
#[tactic(auto, unfolding(crate::specs::Walks::walk_of))]
pub fn walk(table: &[u32], type_number: u32, levels: u32, input: &[u8], room: &mut [Node]) -> Walked
    ensures answer { IsAnswer (length input.now) (walk_of table.now type_number levels input.now) result }
    ensures nodes { room.new ≡ overlay room.old 0 (walk_of table.now type_number levels input.now).nodes }
    ensures shown { result.shown ≡ min result.nodes (length room.new) }
    ensures parts { ArePlaced (length input.now) result.shown room.new }
    ensures takes { TakesEncodings table.now type_number levels input.now result }
    ensures shows { ShowsEncodings table.now type_number levels input.now result room.new }
{
    let size = room.len();
    let place = Place {
        name: u32::MAX,
        type_number,
        level: 0,
        around: usize::MAX,
        is_open: false,
        end: input.len(),
        most: most_nodes(input.len()),
    };
    let mut count: usize = 0;
    let walked = walk_part(
        Table::new(table),
        place,
        levels,
        input,
        &mut count,
        &mut *room,
    );
    let shown = count.min(size);
    match walked {
        Ok(rest) => Walked {
            nodes: count,
            shown,
            consumed: input.len().saturating_sub(rest.len()),
            refusal: None,
        },
        Err(stop) => Walked {
            nodes: count,
            shown,
            consumed: stop.place,
            refusal: Some(stop.kind),
        },
    }
}

/// The most nodes of so many octets: what is past them takes no octets, and may be without end by the table.
fn most_nodes(octets: usize) -> usize
    ensures { result ≡ most_of octets }
{
    octets.saturating_mul(16).saturating_add(65_536)
}

/// The next bit and those behind it; past the last a zero bit.
fn next_bit(bits: BitSlice<'_>) -> (bool, BitSlice<'_>)
    ensures first { result.0 ≡ get_or (bits_left bits.entry) 0 false }
    ensures rest { bits_left result.1 ≡ drop 1 (bits_left bits.entry) }
{
    match bits.split_first() {
        Some((bit, later)) => (bit, later),
        None => (false, bits),
    }
}

/// What is in a part: where its content begins, where that ends, and what is behind the part. In an open type the content may end
/// before the part does: lenient reading passes over what is left.
#[derive(Clone, Copy)]
struct Extent<'a> {
    content: usize,
    end: usize,
    after: &'a [u8],
}

/// The node of a part whose content is there.
fn whole_node(table: Table<'_>, place: Place, start: usize, content: usize, end: usize) -> Node
    ensures { (rest : Octets) → result ≡ node_of table.entry.words.now place start (Ok (content, end, rest)) }
{
    Node {
        name: place.name,
        type_number: place.type_number,
        kind: table.kind_of(place.type_number),
        level: place.level,
        around: place.around,
        start,
        content,
        end,
    }
}

/// The node of a part in which the walk stopped.
fn cut_node(table: Table<'_>, place: Place, start: usize) -> Node
    ensures { (stop : Stop) → result ≡ node_of table.entry.words.now place start (Err stop) }
{
    Node {
        name: place.name,
        type_number: place.type_number,
        kind: table.kind_of(place.type_number),
        level: place.level,
        around: place.around,
        start,
        content: start,
        end: usize::MAX,
    }
}

/// A part of a value, of any type: answers what is behind it.
#[cycle(walks)]
#[tactic(auto, unfolding(crate::specs::Walks::part_by))]
fn walk_part<'a>(
    table: Table<'_>,
    place: Place,
    levels: u32,
    rest: &'a [u8],
    count: &mut usize,
    room: &mut [Node],
) -> Result<&'a [u8], Stop>
    ensures { IsWalk (λ x. x.now) result count.old count.new room.old room.new (part_at table.entry.words.now levels place count.old rest.now) }
{
    let start = place.end.saturating_sub(rest.len());
    let node = *count;
    if node >= place.most {
        return Err(Stop {
            place: start,
            kind: DecodeErrorKind::TooManyEmptyElements,
        });
    }
    *count = node + 1;
    match walk_within(table, place, levels, rest, &mut *count, &mut *room) {
        Ok(extent) => {
            put(
                &mut *room,
                node,
                whole_node(table, place, start, extent.content, extent.end),
            );
            Ok(extent.after)
        }
        Err(stop) => {
            put(&mut *room, node, cut_node(table, place, start));
            Err(stop)
        }
    }
}

/// What is in a part whose node is the one before these.
#[cycle(walks)]
#[tactic(auto, unfolding(crate::specs::Walks::within_by))]
fn walk_within<'a>(
    table: Table<'_>,
    place: Place,
    levels: u32,
    rest: &'a [u8],
    count: &mut usize,
    room: &mut [Node],
) -> Result<Extent<'a>, Stop>
    requires { 0 < count.old }
    ensures { IsWalk (λ x. (x.content, x.end, x.after.now)) result count.old count.new room.old room.new (within_by (value_at table.entry.words.now levels) table.entry.words.now place (count.old - 1) rest.now) }
{
    let scope = place.scope(*count - 1, place.end.saturating_sub(rest.len()));
    if place.is_open {
        return walk_open(table, scope, levels, rest, &mut *count, &mut *room);
    }
    let (content, after) = walk_value(table, scope, levels, rest, &mut *count, &mut *room)?;
    Ok(Extent {
        content,
        end: scope.end.saturating_sub(after.len()),
        after,
    })
}

/// The octets behind a length at the front; what is behind the length; and what is behind the octets.
#[tactic(auto, unfolding(crate::specs::Walks::behind_length_at))]
fn read_open(rest: &[u8]) -> Result<(&[u8], &[u8], &[u8]), DecodeErrorKind>
    ensures { Gives (λ x. (x.0.now, x.1.now, x.2.now)) result (behind_length_at rest.now) }
{
    let (count, behind) = read_length(Codec::Oer, rest)?;
    let (octets, after) = read_octets(count, behind)?;
    Ok((octets, behind, after))
}

/// An open type: a length, and a value in so many octets (X.696, 30); octets if the table doesn't have its type.
#[cycle(walks)]
#[tactic(auto, unfolding(crate::specs::Walks::open_by, crate::specs::Walks::open_content))]
fn walk_open<'a>(
    table: Table<'_>,
    scope: Scope,
    levels: u32,
    rest: &'a [u8],
    count: &mut usize,
    room: &mut [Node],
) -> Result<Extent<'a>, Stop>
    ensures { IsWalk (λ x. (x.content, x.end, x.after.now)) result count.old count.new room.old room.new (open_by (value_at table.entry.words.now levels) table.entry.words.now scope count.old rest.now) }
{
    match read_open(rest) {
        Ok((octets, behind, after)) => {
            let end = scope.end.saturating_sub(after.len());
            if table.form_of(scope.type_number).is_nothing() {
                let content = scope.end.saturating_sub(behind.len());
                return Ok(Extent {
                    content,
                    end,
                    after,
                });
            }
            let inner = scope.up_to(end);
            let (content, left) = walk_value(
                table,
                inner,
                levels,
                octets,
                &mut *count,
                &mut *room,
            )?;
            Ok(Extent {
                content,
                end: end.saturating_sub(left.len()),
                after,
            })
        }
        Err(kind) => Err(scope.stop(kind)),
    }
}

/// A value without what stands around it: answers where its content begins, and what is behind it.
#[cycle(walks)]
fn walk_value<'a>(
    table: Table<'_>,
    scope: Scope,
    levels: u32,
    rest: &'a [u8],
    count: &mut usize,
    room: &mut [Node],
) -> Result<(usize, &'a [u8]), Stop>
    ensures { IsWalk (λ x. (x.0, x.1.now)) result count.old count.new room.old room.new (value_at table.entry.words.now levels scope count.old rest.now) }
{
    let form = table.form_of(scope.type_number);
    if form.is_leaf() {
        return match read_leaf(form, rest) {
            Ok((behind, after)) => Ok((scope.end.saturating_sub(behind.len()), after)),
            Err(kind) => Err(scope.stop(kind)),
        };
    }
    if levels == 0 {
        return Err(scope.stop(DecodeErrorKind::ExceedsMaxParseDepth));
    }
    walk_scope(
        table,
        scope,
        form,
        levels - 1,
        rest,
        &mut *count,
        &mut *room,
    )
}

/// What is behind a leaf: what is behind the length in front of it, and what is behind it all.
#[tactic(auto, unfolding(crate::specs::Walks::leaf_at))]
fn read_leaf(form: Form, rest: &[u8]) -> Result<(&[u8], &[u8]), DecodeErrorKind>
    ensures { Gives (λ x. (x.0.now, x.1.now)) result (leaf_at form rest.now) }
{
    match form {
        Form::Fixed(size) => {
            let (_octets, after) = read_octets(size, rest)?;
            Ok((rest, after))
        }
        Form::Counted => {
            let (_octets, behind, after) = read_open(rest)?;
            Ok((behind, after))
        }
        Form::Enumerated => {
            let (_number, after) = read_enumerated(Codec::Oer, rest)?;
            Ok((rest, after))
        }
        _ => Err(DecodeErrorKind::TypeNotExtensible),
    }
}

/// What is inside a list, a sequence or a choice: where its content begins, and what is behind it.
#[cycle(walks)]
#[tactic(auto, unfolding(crate::specs::Walks::scope_by))]
fn walk_scope<'a>(
    table: Table<'_>,
    scope: Scope,
    form: Form,
    levels: u32,
    rest: &'a [u8],
    count: &mut usize,
    room: &mut [Node],
) -> Result<(usize, &'a [u8]), Stop>
    ensures { IsWalk (λ x. (x.0, x.1.now)) result count.old count.new room.old room.new (scope_by (part_at table.entry.words.now levels) table.entry.words.now form scope count.old rest.now) }
{
    match form {
        Form::List(element) => walk_list(
            table,
            scope,
            element,
            levels,
            rest,
            &mut *count,
            &mut *room,
        ),
        Form::Sequence(parts) => walk_sequence(
            table,
            scope,
            parts,
            levels,
            rest,
            &mut *count,
            &mut *room,
        ),
        Form::Choice(parts) => walk_choice(
            table,
            scope,
            parts,
            levels,
            rest,
            &mut *count,
            &mut *room,
        ),
        _ => Err(scope.stop(DecodeErrorKind::TypeNotExtensible)),
    }
}

/// A list: a quantity, and the elements (X.696, 17).
#[cycle(walks)]
#[tactic(auto, unfolding(crate::specs::Walks::list_by))]
fn walk_list<'a>(
    table: Table<'_>,
    scope: Scope,
    element: u32,
    levels: u32,
    rest: &'a [u8],
    count: &mut usize,
    room: &mut [Node],
) -> Result<(usize, &'a [u8]), Stop>
    ensures { IsWalk (λ x. (x.0, x.1.now)) result count.old count.new room.old room.new (list_by (part_at table.entry.words.now levels) element scope count.old rest.now) }
{
    match read_quantity(Codec::Oer, rest) {
        Ok((quantity, behind)) => {
            let after = walk_elements(
                table,
                scope,
                element,
                levels,
                quantity,
                behind,
                &mut *count,
                &mut *room,
            )?;
            Ok((scope.end.saturating_sub(behind.len()), after))
        }
        Err(kind) => Err(scope.stop(kind)),
    }
}

/// The elements of a list.
#[cycle(walks)]
fn walk_elements<'a>(
    table: Table<'_>,
    scope: Scope,
    element: u32,
    levels: u32,
    quantity: usize,
    rest: &'a [u8],
    count: &mut usize,
    room: &mut [Node],
) -> Result<&'a [u8], Stop>
    ensures { IsWalk (λ x. x.now) result count.old count.new room.old room.new (elements_by (part_at table.entry.words.now levels) scope (inside scope element nothing false) quantity 0 count.old rest.now) }
{
    let place = scope.inside(element, u32::MAX, false);
    let mut rest = rest;
    let mut empty: u32 = 0;
    for _index in 0..quantity {
        let after = walk_part(table, place, levels, rest, &mut *count, &mut *room)?;
        match with_empty(after.len() == rest.len(), empty) {
            Some(more) => empty = more,
            None => return Err(scope.stop(DecodeErrorKind::TooManyEmptyElements)),
        }
        rest = after;
    }
    Ok(rest)
}

/// How many elements without octets there are with one more, of which no more than 65,536 are read.
fn with_empty(is_empty: bool, empty: u32) -> Option<u32>
    ensures { result ≡ with_empty is_empty empty }
{
    if !is_empty {
        return Some(empty);
    }
    if empty < 65_536 {
        Some(empty + 1)
    } else {
        None
    }
}

/// A choice: a tag, and the alternative, past the root in an open type (X.696, 20).
#[cycle(walks)]
#[tactic(auto, unfolding(crate::specs::Walks::choice_by))]
fn walk_choice<'a>(
    table: Table<'_>,
    scope: Scope,
    parts: Parts,
    levels: u32,
    rest: &'a [u8],
    count: &mut usize,
    room: &mut [Node],
) -> Result<(usize, &'a [u8]), Stop>
    ensures { IsWalk (λ x. (x.0, x.1.now)) result count.old count.new room.old room.new (choice_by (part_at table.entry.words.now levels) table.entry.words.now parts scope count.old rest.now) }
{
    match read_alternative(table, parts, rest) {
        Ok((index, behind)) => {
            let alternative = table.alternative(parts, index);
            let is_open = parts.roots as usize <= index;
            let place = scope.inside(alternative.type_number, alternative.name, is_open);
            let after = walk_part(table, place, levels, behind, &mut *count, &mut *room)?;
            Ok((scope.end.saturating_sub(behind.len()), after))
        }
        Err(kind) => Err(scope.stop(kind)),
    }
}

/// The number of the alternative whose tag is at the front, and what is behind the tag.
#[tactic(auto, unfolding(crate::specs::Walks::tagged_at))]
fn read_alternative<'a>(
    table: Table<'_>,
    parts: Parts,
    rest: &'a [u8],
) -> Result<(usize, &'a [u8]), DecodeErrorKind>
    ensures function { Gives (λ x. (x.0, x.1.now)) result (tagged_at table.entry.words.now parts rest.now) }
    ensures near { IfOk result (λ x. x.0 < 2 ^ 33) }
{
    let (tag, behind) = read_tag(Codec::Oer, rest)?;
    match table.alternative_of(parts, tag) {
        Some(index) => Ok((index, behind)),
        None => Err(DecodeErrorKind::InvalidTagVariantOnChoice {
            value: tag,
            is_extensible: parts.is_extensible,
        }),
    }
}

/// A sequence: a preamble, the components of the root, and additions (X.696, 16).
#[cycle(walks)]
#[tactic(auto, unfolding(crate::specs::Walks::sequence_by))]
fn walk_sequence<'a>(
    table: Table<'_>,
    scope: Scope,
    parts: Parts,
    levels: u32,
    rest: &'a [u8],
    count: &mut usize,
    room: &mut [Node],
) -> Result<(usize, &'a [u8]), Stop>
    ensures { IsWalk (λ x. (x.0, x.1.now)) result count.old count.new room.old room.new (sequence_by (part_at table.entry.words.now levels) table.entry.words.now parts scope count.old rest.now) }
{
    match read_preamble(extension_count(parts) + table.optionals(parts), rest) {
        Ok((bits, behind)) => {
            let after = walk_body(
                table,
                scope,
                parts,
                levels,
                bits,
                behind,
                &mut *count,
                &mut *room,
            )?;
            Ok((scope.end.saturating_sub(behind.len()), after))
        }
        Err(kind) => Err(scope.stop(kind)),
    }
}

/// How many extension bits a preamble has.
fn extension_count(parts: Parts) -> usize
    ensures value { result ≡ extension_count parts }
    ensures few { result ≤ 1 }
{
    if parts.is_extensible { 1 } else { 0 }
}

/// Whether additions follow, and the presence bits.
fn split_extension(parts: Parts, bits: BitSlice<'_>) -> (bool, BitSlice<'_>)
    ensures first { result.0 ≡ (parts.is_extensible && get_or (bits_left bits.entry) 0 false) }
    ensures rest { bits_left result.1 ≡ drop (extension_count parts) (bits_left bits.entry) }
{
    if parts.is_extensible {
        next_bit(bits)
    } else {
        (false, bits)
    }
}

/// Whether a component is there, and the bits behind its own.
fn presence(component: Component, bits: BitSlice<'_>) -> (bool, BitSlice<'_>)
    ensures first { result.0 ≡ is_present component (bits_left bits.entry) }
    ensures rest { bits_left result.1 ≡ later_bits component (bits_left bits.entry) }
{
    if component.may_be_absent {
        next_bit(bits)
    } else {
        (true, bits)
    }
}

/// What follows a preamble with these bits.
#[cycle(walks)]
#[tactic(auto, unfolding(crate::specs::Walks::body_by))]
fn walk_body<'a>(
    table: Table<'_>,
    scope: Scope,
    parts: Parts,
    levels: u32,
    bits: BitSlice<'_>,
    rest: &'a [u8],
    count: &mut usize,
    room: &mut [Node],
) -> Result<&'a [u8], Stop>
    ensures { IsWalk (λ x. x.now) result count.old count.new room.old room.new (body_by (part_at table.entry.words.now levels) table.entry.words.now parts scope (bits_left bits.entry) count.old rest.now) }
{
    let (is_extended, bits) = split_extension(parts, bits);
    let rest = walk_components(
        table,
        scope,
        parts,
        levels,
        bits,
        rest,
        &mut *count,
        &mut *room,
    )?;
    if is_extended {
        walk_additions(table, scope, parts, levels, rest, &mut *count, &mut *room)
    } else {
        Ok(rest)
    }
}

/// The components of the root, by their presence bits.
#[cycle(walks)]
fn walk_components<'a>(
    table: Table<'_>,
    scope: Scope,
    parts: Parts,
    levels: u32,
    bits: BitSlice<'_>,
    rest: &'a [u8],
    count: &mut usize,
    room: &mut [Node],
) -> Result<&'a [u8], Stop>
    ensures { IsWalk (λ x. x.now) result count.old count.new room.old room.new (components_by (part_at table.entry.words.now levels) table.entry.words.now parts scope parts.roots 0 (bits_left bits.entry) count.old rest.now) }
{
    let mut rest = rest;
    let mut bits = bits;
    for index in 0..parts.roots as usize {
        let component = table.component(parts, index);
        let (is_there, later) = presence(component, bits);
        bits = later;
        let place = scope.inside(component.type_number, component.name, false);
        rest = walk_if(
            table,
            is_there,
            place,
            levels,
            rest,
            &mut *count,
            &mut *room,
        )?;
    }
    Ok(rest)
}

/// A part, if it is there.
#[cycle(walks)]
fn walk_if<'a>(
    table: Table<'_>,
    is_there: bool,
    place: Place,
    levels: u32,
    rest: &'a [u8],
    count: &mut usize,
    room: &mut [Node],
) -> Result<&'a [u8], Stop>
    ensures { IsWalk (λ x. x.now) result count.old count.new room.old room.new (part_if is_there (part_at table.entry.words.now levels) place count.old rest.now) }
{
    if is_there {
        walk_part(table, place, levels, rest, &mut *count, &mut *room)
    } else {
        Ok(rest)
    }
}

/// The additions of a sequence: a bitmap, and open types.
#[cycle(walks)]
#[tactic(auto, unfolding(crate::specs::Walks::additions_by))]
fn walk_additions<'a>(
    table: Table<'_>,
    scope: Scope,
    parts: Parts,
    levels: u32,
    rest: &'a [u8],
    count: &mut usize,
    room: &mut [Node],
) -> Result<&'a [u8], Stop>
    ensures { IsWalk (λ x. x.now) result count.old count.new room.old room.new (additions_by (part_at table.entry.words.now levels) table.entry.words.now parts scope count.old rest.now) }
{
    match read_bitmap(Codec::Oer, rest) {
        Ok((bits, behind)) => walk_known(
            table,
            scope,
            parts,
            levels,
            bits,
            behind,
            &mut *count,
            &mut *room,
        ),
        Err(kind) => Err(scope.stop(kind)),
    }
}

/// The additions whose bits are set: those of the table, and those behind them.
#[cycle(walks)]
fn walk_known<'a>(
    table: Table<'_>,
    scope: Scope,
    parts: Parts,
    levels: u32,
    bits: BitSlice<'_>,
    rest: &'a [u8],
    count: &mut usize,
    room: &mut [Node],
) -> Result<&'a [u8], Stop>
    ensures { IsWalk (λ x. x.now) result count.old count.new room.old room.new (known_by (part_at table.entry.words.now levels) table.entry.words.now parts scope parts.additions 0 (bits_left bits.entry) count.old rest.now) }
{
    let mut rest = rest;
    let mut bits = bits;
    for index in 0..parts.additions as usize {
        let component = table.component(parts, parts.roots as usize + index);
        let (bit, later) = next_bit(bits);
        bits = later;
        let place = scope.inside(component.type_number, component.name, true);
        rest = walk_if(table, bit, place, levels, rest, &mut *count, &mut *room)?;
    }
    walk_unknown(table, scope, levels, bits, rest, &mut *count, &mut *room)
}

/// The additions that the table doesn't have: nodes without names.
#[cycle(walks)]
fn walk_unknown<'a>(
    table: Table<'_>,
    scope: Scope,
    levels: u32,
    bits: BitSlice<'_>,
    rest: &'a [u8],
    count: &mut usize,
    room: &mut [Node],
) -> Result<&'a [u8], Stop>
    ensures { IsWalk (λ x. x.now) result count.old count.new room.old room.new (unknown_by (part_at table.entry.words.now levels) scope (bits_left bits.entry) count.old rest.now) }
{
    let place = scope.inside(u32::MAX, u32::MAX, true);
    let mut rest = rest;
    let mut bits = bits;
    while let Some((bit, later)) = bits.split_first() {
        rest = walk_if(table, bit, place, levels, rest, &mut *count, &mut *room)?;
        bits = later;
    }
    Ok(rest)
}

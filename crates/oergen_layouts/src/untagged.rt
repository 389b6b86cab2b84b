//! CHOICEs without a tag in a CHOICE (X.680, 31, and X.696, 20): no octet of the outer one is written, so their alternatives stand in its
//! place. In a SET (X.696, 18) they count by the least tag of their root alternatives.
ghost use Rattle.std.specs.Prelude.{◌≡◌, ◌≢◌, ◌++◌, ◌∷◌, ◌||◌, ◌⊎◌, [], true, false, Bool, List, Some, None, Ok, IfErr, IfOk, IfSome, OnOk, MatchOption, MatchResult, map, length, drop, replicate};
ghost use Rattle.std.specs.List.{All, AllZip, cons_option, filter_map, flat_map, list_any, zip};
ghost use Rattle.std.specs.Option.{option_map};
ghost use Rattle.oergen_parse.specs.declared.refusal.Refusal.TheVariants.{OutOfMemory};
ghost use Rattle.oergen_layouts.specs.Definitions.{AreDefined, AreDefinitionsOf, HasMany};
ghost use Rattle.oergen_layouts.specs.Preambles.{has_mark};
ghost use Rattle.oergen_layouts.specs.declared.definitions.Definition.{Definition};
ghost use Rattle.oergen_layouts.specs.Untagged.{AreInSet, ArePlaceable, ArePlaced, AreResolved, CanBeInSet, FindsTag, HaveApartTags, HaveOwnPartTags, IsAtPlaces, IsCountable, IsFound, IsInSet, IsLeastOf, IsPlaceable, IsResolvable, IsRootInSet, IsSettled, IsUntaggedChoice, all_taken_up, alternatives, extends, extends_by, extends_with, first_refusal, in_place, is_put, lacks_tag, marked, new_place, part_tag, parts_with, places_from, refusal_in, root_place, root_row, root_tag, root_tags, taken_up, type_behind, unnamed, unnamed_with, used_of};

use crate::definitions::{Definition, Part, definitions};
use crate::layouts::is_extensible;
use crate::names::component_name;
use crate::order::behind_names;
use crate::rows::{Position, Row, tag_text};
use crate::scope::Scope;
use asn1_core::Tag;
use asn1_core::laws::tag_order;
use oergen_parse::ast::Body;
use oergen_parse::lexer::TokenId;
use oergen_parse::refusal::Refusal;
use std::alloc::{AllocError, Global};

/// How many of them may stand inside one another.
const MAX_UNTAGGED: u32 = 64;

/// What a CHOICE or a SET has, and whether it has an extension mark.
#[derive(Drop)]
struct Flat<'m> {
    parts: Vec<Part<'m>>,
    is_extensible: bool,
}

/// A part with another name, and with that tag.
fn named<'m>(
    alloc: Global,
    part: &Part<'m>,
    name: String,
    tag: Option<Tag>,
) -> Result<Part<'m>, AllocError>
    ensures { IfOk result (λ made. unnamed made ≡ unnamed_with part.now tag) }
{
    Ok(Part {
        row: match part.row {
            Some(row) => Some(Row { tag, ..row }),
            None => None,
        },
        rust_name: component_name(alloc, name.as_str())?,
        name,
        lists: part.lists,
        inner: part.inner,
        target: part.target,
        tie: part.tie,
        is_held: part.is_held,
    })
}

/// The tag of a part; nothing where it has none.
fn tag_of(part: &Part<'_>) -> Option<Tag>
    ensures { result ≡ part_tag part.now }
{
    match part.row {
        Some(row) => row.tag,
        None => None,
    }
}

/// The part that has a tag.
fn same_tag<'p, 'm>(parts: &'p [Part<'m>], tag: Option<Tag>) -> Option<&'p Part<'m>>
    ensures { FindsTag part_tag parts.now tag (option_map (λ one. one.now) result) }
{
    for part in parts.iter() {
        if tag_of(part) == tag {
            return Some(part);
        }
    }
    None
}

/// Puts a part behind others. Refused at a token where one has its tag.
fn push_own<'m>(
    scope: Scope<'m, '_>,
    parts: &mut Vec<Part<'m>>,
    part: Part<'m>,
    at: TokenId,
) -> Result<(), Refusal>
    ensures pushed { OnOk result (parts.new.items ≡ parts.old.items ++ part.entry ∷ []) }
    ensures own { OnOk result (All (λ other. part_tag other ≢ part_tag part.entry) parts.old.items) }
    ensures refused { All (λ other. part_tag other ≢ part_tag part.entry) parts.old.items → IfErr result (λ e. e ≡ OutOfMemory) }
{
    let tag = tag_of(&part);
    if let Some(other) = same_tag(parts.as_slice(), tag) {
        return Err(scope.refused_beside(
            at,
            "a component with a tag of its own",
            (part.name.as_str(), other.name.as_str()),
            tag_text(scope.alloc, tag)?.as_str(),
        ));
    }
    parts.push(part)?;
    Ok(())
}

/// The type that a part is of, past names.
fn type_of<'m, 'd>(all: &'d [Definition<'m>], part: &Part<'m>) -> Option<&'d Definition<'m>>
    ensures { MatchOption result (type_behind all.now part.now ≡ None) (λ one. type_behind all.now part.now ≡ Some one.now) }
{
    match part.target {
        Some(target) => all.get(behind_names(all, target)),
        None => None,
    }
}

/// The CHOICE without a tag that a part is of, past names.
fn choice_of<'m, 'd>(
    scope: Scope<'m, '_>,
    all: &'d [Definition<'m>],
    part: &Part<'m>,
    row: Row<'m>,
) -> Result<&'d Definition<'m>, Refusal>
    ensures found { IfOk result (λ choice. type_behind all.now part.now ≡ Some choice.now) }
    ensures refused { MatchResult result (λ _. IsUntaggedChoice all.now part.now row.entry) (λ _. ¬ IsUntaggedChoice all.now part.now row.entry) }
{
    match type_of(all, part) {
        Some(choice) if choice.fault.is_some() => {
            Err(scope.refused(part.inner.first, "a type that is printed"))
        }
        Some(choice) if matches!(choice.of.body, Body::Choice(_)) => {
            if row.position == Position::Root {
                return Ok(choice);
            }
            Err(scope.refused(
                row.name,
                "an alternative with a tag: an untagged choice behind an extension mark isn't read",
            ))
        }
        Some(_) | None => Err(scope.refused(
            row.name,
            "a component with a tag: an untagged open type isn't read here",
        )),
    }
}

/// Puts a part behind others; in the place of a CHOICE without a tag its alternatives, each with that name and a hyphen in front.
#[cycle(untagged)]
fn push_part<'m>(
    scope: Scope<'m, '_>,
    all: &[Definition<'m>],
    flat: &mut Flat<'m>,
    part: &Part<'m>,
    row: Row<'m>,
    levels: u32,
) -> Result<(), Refusal>
    ensures in_place { part.now.row ≡ Some row.entry → OnOk result (map unnamed flat.new.parts.items ≡ map unnamed flat.old.parts.items ++ in_place levels all.now part.now row.entry) }
    ensures tags { part.now.row ≡ Some row.entry → HaveOwnPartTags flat.old.parts.items → OnOk result (HaveOwnPartTags flat.new.parts.items) }
    ensures extends { part.now.row ≡ Some row.entry → OnOk result (flat.new.is_extensible ≡ (flat.old.is_extensible || extends_by levels all.now part.now row.entry)) }
    ensures placeable { OnOk result (IsPlaceable levels all.now part.now row.entry) }
    ensures refused { part.now.row ≡ Some row.entry → IsPlaceable levels all.now part.now row.entry → HaveApartTags (map unnamed flat.old.parts.items ++ in_place levels all.now part.now row.entry) → IfErr result (λ e. e ≡ OutOfMemory) }
{
    if row.tag.is_some() {
        let name = part.name.clone()?;
        let part = named(scope.alloc, part, name, row.tag)?;
        return push_own(scope, &mut flat.parts, part, row.name);
    }
    let choice = choice_of(scope, all, part, row)?;
    let inner = flat_choice(scope, all, choice, levels, row.name)?;
    flat.is_extensible = flat.is_extensible || inner.is_extensible;
    let front = part.name.as_str();
    for one in inner.parts.iter() {
        let behind = one.name.as_str();
        let name = format!(in scope.alloc; "{front}-{behind}")?;
        let one = named(scope.alloc, one, name, tag_of(one))?;
        push_own(scope, &mut flat.parts, one, row.name)?;
    }
    Ok(())
}

/// The alternatives of a CHOICE, with those of choices without a tag in their place. Refused at a token where these are too deep.
#[cycle(untagged)]
fn flat_choice<'m>(
    scope: Scope<'m, '_>,
    all: &[Definition<'m>],
    choice: &Definition<'m>,
    levels: u32,
    at: TokenId,
) -> Result<Flat<'m>, Refusal>
    ensures alternatives { IfOk result (λ flat. map unnamed flat.parts.items ≡ alternatives levels all.now choice.now.parts.items) }
    ensures tags { IfOk result (λ flat. HaveOwnPartTags flat.parts.items) }
    ensures extends { IfOk result (λ flat. flat.is_extensible ≡ extends levels all.now choice.now) }
    ensures placeable { OnOk result (ArePlaceable levels all.now choice.now.parts.items) }
    ensures refused { ArePlaceable levels all.now choice.now.parts.items → HaveApartTags (alternatives levels all.now choice.now.parts.items) → IfErr result (λ e. e ≡ OutOfMemory) }
{
    let Some(levels) = levels.checked_sub(1) else {
        return Err(scope.refused(
            at,
            "at most 64 untagged choices inside one another, and none inside itself",
        ));
    };
    let mut flat = Flat {
        parts: Vec::new(scope.alloc),
        is_extensible: is_extensible(choice.of),
    };
    for part in choice.parts.iter() {
        if let Some(row) = part.row {
            push_part(scope, all, &mut flat, part, row, levels)?;
        }
    }
    if flat.parts.is_empty() {
        return Err(scope.refused(at, "a choice with an alternative"));
    }
    Ok(flat)
}

/// The tag of a component or an alternative of the root.
fn root_tag(part: &Part<'_>) -> Option<Tag>
    ensures { result ≡ root_tag part.now.row }
{
    match part.row {
        Some(row) => match row.position {
            Position::Root => row.tag,
            Position::Addition | Position::Group(_) => None,
        },
        None => None,
    }
}

/// The lesser one of the least of some tags, and of one more.
fn lesser(least: Option<Tag>, own: Option<Tag>) -> Option<Tag>
    ensures { (tags : List Tag) → IsLeastOf tags least → IsLeastOf (tags ++ cons_option own []) result }
{
    tag_order();
    match (least, own) {
        (Some(before), Some(own)) => Some(before.min(own)),
        (None, own) => own,
        (before, None) => before,
    }
}

/// The least tag of root alternatives; nothing where there are none.
fn least_tag(parts: &[Part<'_>]) -> Option<Tag>
    ensures { IsLeastOf (root_tags parts.now) result }
{
    let mut least: Option<Tag> = None;
    for part in parts.iter() {
        least = lesser(least, root_tag(part));
    }
    least
}

/// The tag that a component counts by: its own, or the least of the root alternatives in its place, which stand behind so many parts.
fn counted_tag(row: Row<'_>, parts: &[Part<'_>], before: usize) -> Option<Tag>
    ensures { MatchOption row.entry.tag (IsLeastOf (root_tags (drop before parts.now)) result) (λ own. result ≡ Some own) }
{
    match row.tag {
        Some(tag) => Some(tag),
        None => least_tag(parts.get(before..).unwrap_or(&[])),
    }
}

/// A root component of a SET with its tag, behind what stands for others in `taken`.
fn set_part<'m>(
    scope: Scope<'m, '_>,
    all: &[Definition<'m>],
    taken: &mut Flat<'m>,
    part: &Part<'m>,
    row: Row<'m>,
) -> Result<Part<'m>, Refusal>
    ensures made { part.now.row ≡ Some row.entry → IfOk result (λ made. IsRootInSet all.now part.now row.entry made) }
    ensures place { part.now.row ≡ Some row.entry → OnOk result (map unnamed taken.new.parts.items ≡ map unnamed taken.old.parts.items ++ in_place 64 all.now part.now row.entry) }
    ensures tags { part.now.row ≡ Some row.entry → HaveOwnPartTags taken.old.parts.items → OnOk result (HaveOwnPartTags taken.new.parts.items) }
    ensures countable { part.now.row ≡ Some row.entry → OnOk result (IsCountable all.now part.now row.entry) }
    ensures refused { part.now.row ≡ Some row.entry → IsCountable all.now part.now row.entry → HaveApartTags (map unnamed taken.old.parts.items ++ in_place 64 all.now part.now row.entry) → IfErr result (λ e. e ≡ OutOfMemory) }
{
    let before = taken.parts.len();
    push_part(scope, all, taken, part, row, MAX_UNTAGGED)?;
    let tag = counted_tag(row, taken.parts.as_slice(), before);
    if tag.is_none() {
        return Err(scope.refused(row.name, "a choice with an alternative of its root"));
    }
    Ok(named(scope.alloc, part, part.name.clone()?, tag)?)
}

/// A component of the root; nothing of another.
fn root_of<'m>(part: &Part<'m>) -> Option<Row<'m>>
    ensures { result ≡ root_row part.now.row }
{
    match part.row {
        Some(row) if row.is_root() => Some(row),
        Some(_) | None => None,
    }
}

/// What a SET has for a component, behind what stands for others in `taken`.
fn in_set<'m>(
    scope: Scope<'m, '_>,
    all: &[Definition<'m>],
    taken: &mut Flat<'m>,
    part: &Part<'m>,
) -> Result<Part<'m>, Refusal>
    ensures made { IfOk result (λ made. IsInSet all.now part.now made) }
    ensures place { OnOk result (map unnamed taken.new.parts.items ≡ map unnamed taken.old.parts.items ++ root_place all.now part.now) }
    ensures tags { HaveOwnPartTags taken.old.parts.items → OnOk result (HaveOwnPartTags taken.new.parts.items) }
    ensures countable { OnOk result (CanBeInSet all.now part.now) }
    ensures refused { CanBeInSet all.now part.now → HaveApartTags (map unnamed taken.old.parts.items ++ root_place all.now part.now) → IfErr result (λ e. e ≡ OutOfMemory) }
{
    match root_of(part) {
        Some(row) => set_part(scope, all, taken, part, row),
        None => Ok(named(scope.alloc, part, part.name.clone()?, tag_of(part))?),
    }
}

/// The components of a SET, those of its root with tags.
fn flat_set<'m>(
    scope: Scope<'m, '_>,
    all: &[Definition<'m>],
    set: &Definition<'m>,
) -> Result<Flat<'m>, Refusal>
    ensures parts { IfOk result (λ flat. AreInSet all.now set.now.parts.items flat.parts.items) }
    ensures extends { IfOk result (λ flat. flat.is_extensible ≡ has_mark set.now.of.now.body) }
    ensures countable { OnOk result (All (CanBeInSet all.now) set.now.parts.items) }
    ensures refused { All (CanBeInSet all.now) set.now.parts.items → HaveApartTags (flat_map (root_place all.now) set.now.parts.items) → IfErr result (λ e. e ≡ OutOfMemory) }
{
    let mut parts = Vec::new(scope.alloc);
    let mut taken = Flat {
        parts: Vec::new(scope.alloc),
        is_extensible: false,
    };
    for part in set.parts.iter() {
        parts.push(in_set(scope, all, &mut taken, part)?)?;
    }
    Ok(Flat {
        parts,
        is_extensible: is_extensible(set.of),
    })
}

/// What a definition has in the place of its parts; nothing where these stay.
fn flat_of<'m>(
    scope: Scope<'m, '_>,
    all: &[Definition<'m>],
    definition: &Definition<'m>,
) -> Result<Option<Flat<'m>>, Refusal>
    ensures stays { list_any lacks_tag definition.now.parts.items ≡ false → result ≡ Ok None }
    ensures extends { IfOk result (λ found. IfSome found (λ flat. flat.is_extensible ≡ extends_with all.now definition.now)) }
    ensures placed { IfOk result (λ found. ArePlaced all.now definition.now (parts_with definition.now found)) }
    ensures refused { MatchResult result (λ _. IsResolvable all.now definition.now) (λ e. IsResolvable all.now definition.now → e ≡ OutOfMemory) }
{
    match &definition.of.body {
        Body::Choice(_) if has_untagged(definition) => {
            Ok(Some(flat_choice(scope, all, definition, MAX_UNTAGGED, definition.of.first)?))
        }
        Body::Set(_) if has_untagged(definition) => Ok(Some(flat_set(scope, all, definition)?)),
        Body::Choice(_) | Body::Set(_) | Body::Sequence(_) | Body::Enumerated(_, _) => Ok(None),
        Body::Simple(_) | Body::Integer(_) | Body::BitString(_) | Body::Reference(_) => Ok(None),
        Body::SequenceOf(_) | Body::SetOf(_) => Ok(None),
    }
}

/// Whether a component or an alternative has no tag.
fn has_untagged(definition: &Definition<'_>) -> bool
    ensures { result ≡ list_any lacks_tag definition.now.parts.items }
{
    definition
        .parts
        .iter()
        .any(|part| part.row.is_some() && tag_of(part).is_none())
}

/// What each definition has in the place of its parts; nothing where these stay.
fn all_flat<'m>(
    scope: Scope<'m, '_>,
    all: &[Definition<'m>],
) -> Result<Vec<Result<Option<Flat<'m>>, Refusal>>, AllocError>
    ensures { IfOk result (λ made. AllZip (IsFound all.now) all.now made.items) }
{
    let mut made = Vec::new(scope.alloc);
    for definition in all.iter() {
        made.push(flat_of(scope, all, definition))?;
    }
    Ok(made)
}

/// The place of the CHOICE that is written in an alternative, and has no tag; nothing of another alternative.
fn taken_up(part: &Part<'_>) -> Option<usize>
    ensures { result ≡ taken_up part.now }
{
    match part.inner.body {
        Body::Choice(_) if tag_of(part).is_none() => part.target,
        _ => None,
    }
}

/// Says of the choices that are written in a CHOICE, and have no tag, that nothing uses them any more.
fn put_unused(definition: &Definition<'_>, unused: &mut Vec<bool>)
    ensures { unused.new.items ≡ marked (filter_map taken_up definition.now.parts.items) unused.old.items }
{
    for part in definition.parts.iter() {
        if let Some(place) = taken_up(part) {
            if place < unused.len() {
                unused[place] = true;
            }
        }
    }
}

/// Whether what is found for a definition stands in the place of a CHOICE's alternatives.
fn is_put(definition: &Definition<'_>, found: &Result<Option<Flat<'_>>, Refusal>) -> bool
    ensures { result ≡ is_put definition.now found.now }
{
    match found {
        Ok(Some(_)) => matches!(definition.of.body, Body::Choice(_)),
        Ok(None) | Err(_) => false,
    }
}

/// Of each definition, whether it stands only in the place of a choice.
fn unused_of(
    alloc: Global,
    all: &[Definition<'_>],
    found: &[Result<Option<Flat<'_>>, Refusal>],
) -> Result<Vec<bool>, AllocError>
    ensures { IfOk result (λ unused. unused.items ≡ marked (all_taken_up all.now found.now) (replicate (length all.now) false)) }
{
    let mut unused = vec![in alloc; false; all.len()]?;
    for (at, definition) in all.iter().enumerate() {
        if let Some(one) = found.get(at) {
            if is_put(definition, one) {
                put_unused(definition, &mut unused);
            }
        }
    }
    Ok(unused)
}

/// Puts what is found for a definition. Refused where that is a refusal; with `keeps_faults` the definition keeps it, but for want of
/// memory.
fn put_found<'m>(
    alloc: Global,
    definition: &mut Definition<'m>,
    found: Result<Option<Flat<'m>>, Refusal>,
    keeps_faults: bool,
) -> Result<(), Refusal>
    ensures settled { OnOk result (IsSettled definition.old found.entry definition.new) }
    ensures refused { MatchResult result (λ _. refusal_in keeps_faults found.entry ≡ None) (λ e. refusal_in keeps_faults found.entry ≡ Some e) }
{
    definition.is_extensible = is_extensible(definition.of);
    match found {
        Ok(None) => {}
        Ok(Some(flat)) => {
            definition.parts = flat.parts;
            definition.is_extensible = flat.is_extensible;
        }
        Err(why) if keeps_faults && !matches!(why, Refusal::OutOfMemory) => {
            definition.parts = Vec::new(alloc);
            definition.fault = Some(why);
        }
        Err(why) => return Err(why),
    }
    Ok(())
}

/// Definitions with what is found for each. Refused at the first that is refused; with `keeps_faults` for want of memory alone.
fn settled<'m>(
    alloc: Global,
    all: Vec<Definition<'m>>,
    found: Vec<Result<Option<Flat<'m>>, Refusal>>,
    keeps_faults: bool,
) -> Result<Vec<Definition<'m>>, Refusal>
    ensures settled { IfOk result (λ settled. AllZip (λ both now. IsSettled both.0 both.1 now) (zip all.entry.items found.entry.items) settled.items) }
    ensures refused { length all.entry.items ≡ length found.entry.items → MatchResult result (λ _. first_refusal keeps_faults found.entry.items ≡ None) (λ e. (e ≡ OutOfMemory) ⊎ (first_refusal keeps_faults found.entry.items ≡ Some e)) }
{
    let mut settled = Vec::new(alloc);
    for (mut definition, one) in all.into_iter().zip(found) {
        put_found(alloc, &mut definition, one, keeps_faults)?;
        settled.push(definition)?;
    }
    Ok(settled)
}

/// The places that definitions have without the unused ones; nothing for these.
fn places_of(alloc: Global, unused: &[bool]) -> Result<Vec<Option<usize>>, AllocError>
    ensures { IfOk result (λ places. places.items ≡ places_from 0 unused.now) }
{
    let mut places = Vec::new(alloc);
    let mut count = 0usize;
    for is_unused in unused.iter() {
        places.push(if *is_unused { None } else { Some(count) })?;
        count = count.saturating_add(usize::from(!*is_unused));
    }
    Ok(places)
}

/// The new place of a target; nothing where it has none.
fn new_place(places: &[Option<usize>], target: Option<usize>) -> Option<usize>
    ensures { result ≡ new_place places.now target }
{
    match target {
        Some(target) => places.get(target).copied().unwrap_or(None),
        None => None,
    }
}

/// Gives the parts of a definition their targets' new places.
fn place_targets(definition: &mut Definition<'_>, places: &[Option<usize>])
    ensures { IsAtPlaces places.now definition.old definition.new }
{
    for part in definition.parts.iter_mut() {
        part.target = new_place(places, part.target);
    }
}

/// Puts a definition with its parts' targets at their new places behind those that are kept, but for an unused one.
fn push_used<'m>(
    kept: &mut Vec<Definition<'m>>,
    mut definition: Definition<'m>,
    is_unused: bool,
    places: &[Option<usize>],
) -> Result<(), AllocError>
    ensures { OnOk result ((before : List (Definition × Bool)) → AllZip (IsAtPlaces places.now) (used_of before) kept.old.items → AllZip (IsAtPlaces places.now) (used_of (before ++ (definition.entry, is_unused) ∷ [])) kept.new.items) }
{
    if is_unused {
        return Ok(());
    }
    place_targets(&mut definition, places);
    kept.push(definition)?;
    Ok(())
}

/// The definitions without the unused ones.
fn used<'m>(
    alloc: Global,
    all: Vec<Definition<'m>>,
    unused: &[bool],
) -> Result<Vec<Definition<'m>>, AllocError>
    ensures { IfOk result (λ kept. AllZip (IsAtPlaces (places_from 0 unused.now)) (used_of (zip all.entry.items unused.now)) kept.items) }
{
    let places = places_of(alloc, unused)?;
    let mut kept = Vec::new(alloc);
    for (definition, is_unused) in all.into_iter().zip(unused.iter()) {
        push_used(&mut kept, definition, *is_unused, places.as_slice())?;
    }
    Ok(kept)
}

/// Definitions as they are written, with what stands in the place of choices without a tag; those that stand only there aren't among them.
fn resolved<'m>(
    scope: Scope<'m, '_>,
    written: Vec<Definition<'m>>,
    keeps_faults: bool,
) -> Result<Vec<Definition<'m>>, Refusal>
    ensures kept { IfOk result (λ kept. AreResolved keeps_faults written.entry.items kept.items) }
    ensures refused { (keeps_faults ≡ true) ⊎ All (IsResolvable written.entry.items) written.entry.items → IfErr result (λ e. e ≡ OutOfMemory) }
{
    let alloc = scope.alloc;
    let found = all_flat(scope, written.as_slice())?;
    let unused = unused_of(alloc, written.as_slice(), found.as_slice())?;
    let settled = settled(alloc, written, found, keeps_faults)?;
    Ok(used(alloc, settled, unused.as_slice())?)
}

/// All definitions, with the alternatives of choices without a tag in their place; the types that stand only there aren't among them.
/// Refused at the first that can't be resolved; with `keeps_faults` that one says why.
pub fn all_definitions<'m>(
    scope: Scope<'m, '_>,
    keeps_faults: bool,
) -> Result<Vec<Definition<'m>>, Refusal>
    ensures kept { IfOk result (λ kept. AreDefinitionsOf keeps_faults scope.entry.modules.now kept.items) }
    ensures refused { keeps_faults ≡ true → IfErr result (λ e. (e ≡ OutOfMemory) ⊎ HasMany scope.entry.modules.now) }
{
    resolved(scope, definitions(scope, keeps_faults)?, keeps_faults)
}

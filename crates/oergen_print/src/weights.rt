//! What knots weigh in the values of a cycle's types, as definitions say it.

use crate::cells::variant_name;
use crate::knot_templates::WEIGHTS;
use crate::knots::{knot_name, owner_words, push_components_module};
use crate::sequences::{in_text_order, root_places};
use crate::text::Text;
use oergen_layouts::definitions::{Definition, Part, Tie};
use oergen_layouts::rows::{Position, Row};
use oergen_layouts::scope::Scope;
use oergen_parse::ast::{Body, Need};
use std::alloc::{AllocError, Global};

/// What begins the weight of a choice that keeps alternatives of newer versions: a name that no weight of a type has.
const KEPT_WEIGHT: &str = "weight-kept (";

/// What the definitions of a cycle have of one of its types: the names that they take from elsewhere, and their lines.
#[derive(Drop)]
pub struct Weights {
    pub uses: Text,
    pub lines: Text,
}

/// What the definitions of a cycle have of its knot: its name, and what its content weighs.
#[derive(Drop)]
pub struct Knot {
    pub name: String,
    pub weight: Text,
}

/// A type of a cycle, and whether it keeps what newer versions of it have.
#[derive(Clone, Copy)]
struct Owner<'d> {
    name: &'d str,
    keeps_unknown: bool,
}

impl<'d> Owner<'d> {
    fn of(definition: &'d Definition<'_>) -> Owner<'d> {
        Owner {
            name: definition.rust_name.as_str(),
            keeps_unknown: definition.keeps_unknown,
        }
    }
}

/// What a part leads to past lists: how many these are, and the type of the cycle there; nothing for the knot.
#[derive(Clone, Copy)]
struct Reach<'d> {
    lists: usize,
    owner: Option<Owner<'d>>,
}

/// The element of the list that a part leads to.
fn element_of<'d, 'm>(all: &'d [Definition<'m>], tie: Tie) -> Option<&'d Part<'m>> {
    let Tie::Member(at) = tie else {
        return None;
    };
    match all.get(at).and_then(|definition| definition.parts.first()) {
        Some(part) if part.row.is_none() => Some(part),
        _ => None,
    }
}

/// What a part leads to past lists, also those that have names.
fn reach_of<'d>(all: &'d [Definition<'_>], part: &Part<'_>) -> Reach<'d> {
    let mut lists = part.lists;
    let mut tie = part.tie;
    for _ in 0..all.len() {
        let Some(element) = element_of(all, tie) else {
            break;
        };
        lists = lists.saturating_add(element.lists);
        tie = element.tie;
    }
    let owner = match tie {
        Tie::Member(at) => all.get(at).map(|definition| Owner::of(definition)),
        Tie::Plain | Tie::Knot => None,
    };
    Reach { lists, owner }
}

/// Appends what a value weighs that is no list: of a knot what is in its box, where it has one.
fn push_leaf(out: &mut Text, owner: Option<Owner<'_>>, size: &str, of: &str, knot: &str) {
    match owner {
        Some(owner) if owner.keeps_unknown => {
            out.push(KEPT_WEIGHT);
            out.push_component_name(owner.name);
            out.push_all(&["_weight ", size, ") ", of]);
        }
        Some(owner) => {
            out.push_component_name(owner.name);
            out.push_all(&["_weight ", size, " ", of, ".0"]);
        }
        None => out.push_all(&[size, " ", of, knot]),
    }
}

/// Appends what a value weighs: of a list the most that one of its elements does.
fn push_weight(out: &mut Text, reach: Reach<'_>, size: &str, of: &str) {
    out.push_times("most (λ h. ", reach.lists);
    let (leaf, knot) = if reach.lists == 0 {
        (of, ".0.value")
    } else {
        ("h", ".0")
    };
    push_leaf(out, reach.owner, size, leaf, knot);
    out.push_times(") h", reach.lists.saturating_sub(1));
    if reach.lists != 0 {
        out.push_all(&[") ", of]);
    }
}

/// Appends what a field weighs.
fn push_field(out: &mut Text, reach: Reach<'_>, field: &Text, row: Row<'_>) {
    if matches!(row.need, Need::Required) {
        push_weight(out, reach, "size", field.as_str());
    } else {
        out.push("option_weight (λ w. ");
        push_weight(out, reach, "size", "w");
        out.push_all(&[") ", field.as_str()]);
    }
    out.heed(field);
}

/// Appends what a component weighs; the most that it and those behind it do is open. False where it holds no knots.
fn push_component(out: &mut Text, all: &[Definition<'_>], part: &Part<'_>, is_first: bool) -> bool {
    let (Some(row), true) = (part.row, part.tie != Tie::Plain) else {
        return false;
    };
    let field = Text::of(out.alloc(), &["v.", part.rust_name.as_str()]);
    out.push(if is_first { "max (" } else { "(max (" });
    push_field(out, reach_of(all, part), &field, row);
    out.push(") ");
    true
}

/// Appends what the components at some places weigh, behind so many that hold knots; how many these are then.
fn push_components_at(
    out: &mut Text,
    all: &[Definition<'_>],
    parts: &[Part<'_>],
    places: &[usize],
    before: usize,
) -> usize {
    let mut count = before;
    for at in places.iter() {
        if let Some(part) = parts.get(*at) {
            if push_component(out, all, part, count == 0) {
                count = count.saturating_add(1);
            }
        }
    }
    count
}

/// Appends what the components weigh, in the order of the row: those of the root, and behind them the additions.
fn push_components(
    alloc: Global,
    out: &mut Text,
    all: &[Definition<'_>],
    parts: &[Part<'_>],
    is_set: bool,
) -> Result<(), AllocError> {
    let roots = root_places(alloc, parts, is_set)?;
    let count = push_components_at(out, all, parts, roots.as_slice(), 0);
    let additions = in_text_order(alloc, parts, Position::Addition)?;
    let count = push_components_at(out, all, parts, additions.as_slice(), count);
    out.push("0");
    out.push_times(")", count.saturating_sub(1));
    Ok(())
}

/// Appends the head of a line that says what a value weighs.
fn push_head(out: &mut Text, owner: &str, of: &str) {
    out.push_component_name(owner);
    out.push_all(&["_weight size ", of, " = "]);
}

/// The name of an alternative's variant; nothing where it holds no knots.
fn held_variant(scope: Scope<'_, '_>, part: &Part<'_>) -> Option<Text> {
    match (part.row, part.tie) {
        (None, _) | (_, Tie::Plain) => None,
        (Some(_), _) => Some(variant_name(scope.alloc, part.name.as_str(), "Self First Rest")),
    }
}

/// Appends the line of what an alternative weighs; nothing where it holds no knots.
fn push_alternative(
    scope: Scope<'_, '_>,
    out: &mut Text,
    all: &[Definition<'_>],
    owner: &str,
    part: &Part<'_>,
) {
    let Some(variant) = held_variant(scope, part) else {
        return;
    };
    let of = Text::of(scope.alloc, &["(", owner, variant.as_str(), " x)"]);
    push_head(out, owner, of.as_str());
    push_weight(out, reach_of(all, part), "size", "x");
    out.push("\n");
    out.heed(&of);
    out.heed(&variant);
}

/// Appends what the alternatives weigh, a line each, and one for those that hold no knots.
fn push_alternatives(
    scope: Scope<'_, '_>,
    out: &mut Text,
    all: &[Definition<'_>],
    owner: &str,
    parts: &[Part<'_>],
) {
    for part in parts.iter() {
        push_alternative(scope, out, all, owner, part);
    }
    if parts.iter().any(|part| part.tie == Tie::Plain) {
        push_head(out, owner, "_");
        out.push("0\n");
    }
}

/// Appends the names of the alternatives that hold knots, each under one that no other type's has.
fn push_variants(scope: Scope<'_, '_>, out: &mut Text, owner: &str, parts: &[Part<'_>]) {
    let mut between = "";
    for part in parts.iter() {
        if let Some(variant) = held_variant(scope, part) {
            out.push(between);
            out.push_text(&variant);
            out.push_all(&[" as ", owner, variant.as_str()]);
            between = ", ";
        }
    }
}

/// Appends what begins the definition of a type's values' weight, but for where the struct of its components, or the enum of its
/// alternatives, stands.
fn push_signature(out: &mut Weights, owner: &str, kind: &str) {
    out.lines.push("abbrev pub ");
    out.lines.push_component_name(owner);
    out.lines.push_all(&[
        "_weight : {K : Type 0} → (K → ℕ) → ",
        owner,
        kind,
        " K → ℕ\n",
    ]);
}

/// Appends what a SEQUENCE's or a SET's values weigh.
fn push_sequence(
    alloc: Global,
    out: &mut Weights,
    all: &[Definition<'_>],
    definition: &Definition<'_>,
) -> Result<(), AllocError> {
    let owner = definition.rust_name.as_str();
    out.uses.push("use Rattle.@HOME@.");
    push_components_module(&mut out.uses, owner);
    out.uses
        .push_all(&[".", owner, ".{", owner, " as ", owner, "Components}\n"]);
    push_signature(out, owner, "Components");
    push_head(&mut out.lines, owner, "v");
    let is_set = matches!(definition.of.body, Body::Set(_));
    push_components(
        alloc,
        &mut out.lines,
        all,
        definition.parts.as_slice(),
        is_set,
    )?;
    out.lines.push("\n\n");
    Ok(())
}

/// Appends what a CHOICE's values weigh.
fn push_choice(
    scope: Scope<'_, '_>,
    out: &mut Weights,
    all: &[Definition<'_>],
    definition: &Definition<'_>,
) {
    let owner = definition.rust_name.as_str();
    let parts = definition.parts.as_slice();
    out.uses.push_all(&[
        "use Rattle.@HOME@.",
        owner,
        "Alternatives.{",
        owner,
        "Alternatives}\n",
    ]);
    push_signature(out, owner, "Alternatives");
    out.uses.push_all(&["use Rattle.@HOME@.", owner, "Alternatives.TheVariants.{"]);
    push_variants(scope, &mut out.uses, owner, parts);
    out.uses.push("}\n");
    push_alternatives(scope, &mut out.lines, all, owner, parts);
    out.lines.push("\n");
}

/// What the values of a cycle's type weigh: nothing of a type in no cycle, and of a list, whose elements say it.
pub fn weights_of(
    scope: Scope<'_, '_>,
    all: &[Definition<'_>],
    definition: &Definition<'_>,
) -> Result<Weights, AllocError> {
    let alloc = scope.alloc;
    let mut out = Weights {
        uses: Text::new(alloc),
        lines: Text::new(alloc),
    };
    if definition.cycle.is_none() {
        return Ok(out);
    }
    match definition.of.body {
        Body::Sequence(_) | Body::Set(_) => push_sequence(alloc, &mut out, all, definition)?,
        Body::Choice(_) => push_choice(scope, &mut out, all, definition),
        Body::SequenceOf(_) | Body::SetOf(_) | Body::Reference(_) | Body::Enumerated(_, _) => {}
        Body::Simple(_) | Body::Integer(_) | Body::BitString(_) => {}
    }
    Ok(out)
}

/// What a knot's content weighs.
fn content_weight(alloc: Global, all: &[Definition<'_>], definition: &Definition<'_>) -> Text {
    let owner = Owner::of(definition);
    let name = owner.name;
    let size = Text::of(alloc, &["size-", name]);
    let of = Text::of(alloc, &["(out-", name, " v).0"]);
    let mut out = Text::new(alloc);
    match definition.parts.first() {
        Some(part) if part.row.is_none() => {
            push_weight(&mut out, reach_of(all, part), size.as_str(), of.as_str());
        }
        _ => push_leaf(&mut out, Some(owner), size.as_str(), of.as_str(), ""),
    }
    out.heed(&size);
    out.heed(&of);
    out
}

/// What the definitions of a cycle have of its knot: nothing of another type.
pub fn knot_of(
    alloc: Global,
    all: &[Definition<'_>],
    definition: &Definition<'_>,
) -> Result<Option<Knot>, AllocError> {
    if knot_name(all, definition) != Some(definition.rust_name.as_str()) {
        return Ok(None);
    }
    Ok(Some(Knot {
        name: definition.rust_name.clone()?,
        weight: content_weight(alloc, all, definition),
    }))
}

/// Appends lines by which definitions take names that they need.
fn push_word_uses(out: &mut Text, lines: &str) {
    if lines.contains("most ") {
        out.push("use denote.Param.Weighed.{most}\n");
    }
    if lines.contains("option_weight ") {
        out.push("use Rattle.rasn_oer.specs.Ties.{option_weight}\n");
    }
    if lines.contains(KEPT_WEIGHT) {
        out.push("use Rattle.oer_kept.specs.KeptKnots.{kept_weight as weight-kept}\n");
    }
}

/// Appends the definitions of a cycle, by those of its types.
pub fn push_definitions(out: &mut Text, knot: &Knot, uses: &Text, lines: &Text) {
    let mut whole = Text::new(out.alloc());
    whole.push_text(lines);
    whole.push_text(&knot.weight);
    let mut words = owner_words(out.alloc(), "", knot.name.as_str(), None);
    let needed = words.begin("USES");
    push_word_uses(needed, whole.as_str());
    needed.push_text(uses);
    needed.heed(&whole);
    words.begin("WEIGHT").push_text(&knot.weight);
    let has_max = lines.as_str().contains("max ");
    words.put("MAX", if has_max { ", max" } else { "" });
    words.begin("WEIGHTS").push_text(lines);
    out.fill(WEIGHTS, &words);
}

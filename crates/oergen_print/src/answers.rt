//! What the prover is told: of `put` of the enums of a CHOICE, how each variant is written; of a piece of a long row, what its structs hold.

use crate::chains::{HOLDING, PART};
use crate::knots::knot_name;
use crate::objects::objects_of;
use crate::part_names::variant_names;
use crate::parts::push_part_name;
use crate::piece_templates::{HELD_READ_ANSWER, HELD_TAKEN_ANSWER};
use crate::templates::{PART_ANSWER, PUT_ANSWER};
use crate::text::{Text, Words};
use oergen_layouts::definitions::{Definition, Part};
use oergen_layouts::rows::Position;
use oergen_layouts::scope::Scope;
use oergen_parse::ast::Body;
use std::alloc::{AllocError, Global};

/// Of how many alternatives of a CHOICE in a cycle the prover finds itself how `put` writes them: the tenth it doesn't.
const MAX_FOUND: usize = 9;

/// The answers for a function of an impl.
#[derive(Drop)]
pub struct Answers {
    /// The name of the impl, as proofs have it.
    pub name: Text,
    pub function: &'static str,
    pub text: Text,
}

impl Answers {
    /// The answers for `put` of an enum.
    fn of_put(name: Text, text: Text) -> Answers {
        Answers {
            name,
            function: "put",
            text,
        }
    }
}

/// Answers by a template, one for each name, of which the first ones have none: nor has a single one, of which the prover asks nothing.
fn filled(alloc: Global, template: &str, names: &[Text], found: usize) -> Text {
    let mut out = Text::new(alloc);
    let found = if names.len() < 2 { 1 } else { found };
    for (at, name) in names.iter().enumerate().skip(found) {
        let mut words = Words::new(alloc);
        words.put("VARIANT", name.as_str());
        let within = words.begin("IN");
        if at != 0 {
            within.push_all(&["-in-", name.as_str()]);
        }
        out.fill(template, &words);
    }
    out
}

/// The names of variants in the order of the row: those of the root, and those of the additions.
fn row_names(alloc: Global, parts: &[Part<'_>]) -> Result<(Vec<Text>, Vec<Text>), AllocError> {
    let names = variant_names(alloc, parts)?;
    let mut roots = Vec::new(alloc);
    let mut additions = Vec::new(alloc);
    for (part, name) in parts.iter().zip(names.iter()) {
        let is_root = part.row.map(|row| row.position) == Some(Position::Root);
        let row = if is_root { &mut roots } else { &mut additions };
        row.push(Text::of(alloc, &[name.as_str()]))?;
    }
    Ok((roots, additions))
}

/// Puts the answers of the parts with some alternatives behind others, and the name of each part behind others.
fn push_part_answers(
    alloc: Global,
    answers: &mut Vec<Answers>,
    owner: &str,
    names: &[Text],
    parts: &mut Vec<Text>,
) -> Result<(), AllocError> {
    for part in names.chunks(PART) {
        let mut name = Text::new(alloc);
        push_part_name(&mut name, owner, parts.len());
        name.push("PutsPart");
        let mut variant = Text::new(alloc);
        push_part_name(&mut variant, "", parts.len());
        let text = filled(alloc, PUT_ANSWER, part, 0);
        answers.push(Answers::of_put(name, text))?;
        parts.push(variant)?;
    }
    Ok(())
}

/// The answers of a CHOICE, by the names of its root alternatives and of the others: of very many those of each part, and of what hands
/// a value on to its part.
fn choice_answers(
    alloc: Global,
    owner: &str,
    mut roots: Vec<Text>,
    additions: Vec<Text>,
    found: usize,
) -> Result<Vec<Answers>, AllocError> {
    let mut answers = Vec::new(alloc);
    let name = Text::of(alloc, &[owner, "AlternativesAlternating"]);
    let text = if roots.len().saturating_add(additions.len()) > HOLDING {
        let mut parts = Vec::new(alloc);
        push_part_answers(alloc, &mut answers, owner, roots.as_slice(), &mut parts)?;
        push_part_answers(alloc, &mut answers, owner, additions.as_slice(), &mut parts)?;
        filled(alloc, PART_ANSWER, parts.as_slice(), 0)
    } else {
        for name in additions.into_iter() {
            roots.push(name)?;
        }
        filled(alloc, PUT_ANSWER, roots.as_slice(), found)
    };
    answers.push(Answers::of_put(name, text))?;
    Ok(answers)
}

/// What the prover is told of what writes a CHOICE: nothing of the first alternatives in a cycle, where what it would rewrite by that is
/// too large, or of another type.
pub fn answers_of(
    scope: Scope<'_, '_>,
    all: &[Definition<'_>],
    definition: &Definition<'_>,
) -> Result<Vec<Answers>, AllocError> {
    let alloc = scope.alloc;
    let parts = definition.parts.as_slice();
    let is_choice = matches!(definition.of.body, Body::Choice(_));
    let is_set = objects_of(scope, definition).is_some();
    if !is_choice || is_set {
        return Ok(Vec::new(alloc));
    }
    let found = match knot_name(all, definition) {
        Some(_) => MAX_FOUND,
        None => 0,
    };
    let (roots, additions) = row_names(alloc, parts)?;
    choice_answers(
        alloc,
        definition.rust_name.as_str(),
        roots,
        additions,
        found,
    )
}

/// The piece of a long row of whose places a line is the struct, and the trait of these; of another line none.
fn held_piece(line: &str) -> Option<(&str, &str)> {
    let (name, of) = line.strip_prefix("pub struct ")?.split_once("Slots(pub <")?;
    let (_, slotted) = of.strip_suffix(">::Slots);")?.split_once(" as ")?;
    Some((name, slotted))
}

/// Puts what the prover is told of the pieces of a long row behind other answers: of those that structs hold in the text of a type.
pub fn push_held_answers(
    alloc: Global,
    text: &str,
    answers: &mut Vec<Answers>,
) -> Result<(), AllocError> {
    for (name, slotted) in text.split('\n').filter_map(held_piece) {
        let (reads, read, others) = if slotted == "Slotted" {
            ("Reads", "read", "x.2, x.3, x.4")
        } else {
            ("ReadsAdditions", "read_additions", "x.2, x.3")
        };
        answers.push(Answers {
            name: Text::of(alloc, &[name, slotted]),
            function: "taken",
            text: Text::of(alloc, &[HELD_TAKEN_ANSWER]),
        })?;
        let mut words = Words::new(alloc);
        words.put("READ", read);
        words.put("OTHERS", others);
        answers.push(Answers {
            name: Text::of(alloc, &[name, reads]),
            function: read,
            text: words.filled(HELD_READ_ANSWER),
        })?;
    }
    Ok(())
}

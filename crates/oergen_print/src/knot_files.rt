//! The files beside a crate's types: definitions and proofs of those that contain themselves, and answers of wide CHOICEs and long rows.

use crate::answers::Answers;
use crate::knot_templates::ANSWERS;
use crate::knots::owner_words;
use crate::outputs::{File, push_placed};
use crate::printer::Printed;
use crate::text::Text;
use crate::weights::{Knot, push_definitions};
use std::alloc::{AllocError, Global};

/// Whether one of some types is a knot.
pub fn has_knots(types: &[Printed]) -> bool {
    types.iter().any(|one| one.knot.is_some())
}

/// The file of a cycle's definitions.
fn definitions_file(
    alloc: Global,
    place: (&str, &str),
    knot: &Knot,
    uses: &Text,
    lines: &Text,
) -> Result<File, AllocError> {
    let (library, module) = place;
    let mut text = Text::new(alloc);
    push_definitions(&mut text, knot, uses, lines);
    let mut placed = Text::new(alloc);
    push_placed(&mut placed, text.as_str(), library, module);
    placed.heed(&text);
    let path = [library, "/specs/", knot.name.as_str(), "Weights.antt"];
    File::at(alloc, &path, placed.end()?)
}

/// The file of the proof that a knot writes what it says.
fn proof_file(alloc: Global, place: (&str, &str), knot: &Knot) -> Result<File, AllocError> {
    let (library, module) = place;
    let mut words = owner_words(alloc, "", knot.name.as_str(), None);
    words.put("CRATE", library);
    words.put("MODULE", module);
    let mut text = Text::new(alloc);
    text.fill(ANSWERS, &words);
    let path = [
        library,
        "/proofs/",
        module,
        "/",
        knot.name.as_str(),
        "Encode/+encode_with_tag_and_constraints/Answers.antt",
    ];
    File::at(alloc, &path, text.end()?)
}

/// Puts the files of answers behind others: none where there are no answers.
fn push_answer_files(
    alloc: Global,
    files: &mut Vec<File>,
    place: (&str, &str),
    answers: &[Answers],
) -> Result<(), AllocError> {
    let (library, module) = place;
    for one in answers.iter() {
        let (name, function) = (one.name.as_str(), one.function);
        let front = ["use Rattle.", library, ".proofs.", module, ".", name];
        let mut text = Text::of(alloc, &front);
        text.push(".");
        text.push(function);
        text.push(".Goals as goal\n");
        text.push_text(&one.text);
        let mut path = Text::of(alloc, &[library, "/proofs/", module, "/", name, "/"]);
        path.push(function);
        path.push("/Answers.antt");
        let path = path.end()?;
        if !one.text.is_empty() || !one.text.is_whole() {
            files.push(File::at(alloc, &[path.as_str()], text.end()?)?)?;
        }
    }
    Ok(())
}

/// Puts the files of definitions and proofs of the types of a module behind others.
pub fn push_proof_files(
    alloc: Global,
    files: &mut Vec<File>,
    types: &[Printed],
    place: (&str, &str),
) -> Result<(), AllocError> {
    let mut uses = Text::new(alloc);
    let mut lines = Text::new(alloc);
    for one in types.iter() {
        push_answer_files(alloc, files, place, one.answers.as_slice())?;
        uses.push_text(&one.weights.uses);
        lines.push_text(&one.weights.lines);
        if let Some(knot) = &one.knot {
            files.push(definitions_file(alloc, place, knot, &uses, &lines)?)?;
            files.push(proof_file(alloc, place, knot)?)?;
            uses = Text::new(alloc);
            lines = Text::new(alloc);
        }
    }
    Ok(())
}

/// Appends the names of the definitions of the cycles among types.
pub fn push_definition_names(out: &mut Text, types: &[Printed]) {
    for one in types.iter() {
        if let Some(knot) = &one.knot {
            out.push_all(&["pub mod ", knot.name.as_str(), "Weights\n"]);
        }
    }
}

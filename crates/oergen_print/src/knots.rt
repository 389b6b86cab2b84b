//! What the types of a cycle have beside those that don't contain themselves.

use crate::knot_templates::{
    IS_CHOICE, KNOT, KNOT_IMPLS, LIST_READER, MEMBER, OWN_USES, READER, TIED, WEIGHED,
};
use crate::text::{Text, Words};
use oergen_layouts::definitions::{Definition, Tie};
use oergen_parse::ast::Body;
use std::alloc::Global;

/// The name of the knot of a type's cycle.
pub fn knot_name<'d>(all: &'d [Definition<'_>], definition: &Definition<'_>) -> Option<&'d str> {
    let at = definition.cycle.and_then(|cycle| cycle.knot)?;
    match all.get(at) {
        Some(knot) => Some(knot.rust_name.as_str()),
        None => None,
    }
}

/// Appends the name of the module in which the struct of a type's components stands.
pub fn push_components_module(out: &mut Text, owner: &str) {
    let name = Text::of(out.alloc(), &[owner, "Components"]);
    out.push_component_name(name.as_str());
    out.heed(&name);
}

/// What stands for the words that the templates of a type have in common: of one that holds knots its parameter and that one's bounds too,
/// and in front of its type a struct of the knot, else what it is with the knot in the parameter's place.
pub fn owner_words(alloc: Global, doc: &str, owner: &str, knot: Option<&str>) -> Words {
    const INSIDE: &[(&str, &str)] = &[
        ("K", "<K>"),
        ("TURBO", "::<K>"),
        ("WRITES", "<K: Encode>"),
        ("READS", "<K: Encode + Decode>"),
        ("CONTENT", "Content<K>"),
    ];
    let mut words = Words::new(alloc);
    words.put("NAME", owner);
    words.put("DOC", doc);
    words.put("HOME", "@HOME@");
    words.put("CRATE", "@CRATE@");
    words.begin("SNAKE").push_component_name(owner);
    push_components_module(words.begin("COMPONENTS"), owner);
    let Some(knot) = knot else {
        words.put("HEAD", doc);
        return words;
    };
    words.put("KNOT", knot);
    words.fill_all(INSIDE);
    words.put_filled("HEAD", if owner == knot { KNOT } else { MEMBER });
    words
}

/// Whether a knot is a list of itself, and no more.
fn is_list_of_itself(definition: &Definition<'_>) -> bool {
    match (&definition.of.body, definition.parts.first()) {
        (Body::SequenceOf(_), Some(part)) => part.lists == 1 && matches!(part.tie, Tie::Knot),
        _ => false,
    }
}

/// Prints what a knot has of the codec's traits.
pub fn push_knot(alloc: Global, out: &mut Text, definition: &Definition<'_>) {
    let mut words = owner_words(alloc, "", definition.rust_name.as_str(), None);
    let (tag, is_choice) = match definition.of.body {
        Body::Choice(_) => ("EOC", IS_CHOICE),
        Body::Set(_) | Body::SetOf(_) => ("SET", ""),
        _ => ("SEQUENCE", ""),
    };
    words.put("TAG", tag);
    words.put("IS_CHOICE", is_choice);
    words.put_filled("USES", OWN_USES);
    words.put_filled("TIED", TIED);
    words.put_filled("WEIGHED", WEIGHED);
    let reader = if is_list_of_itself(definition) {
        LIST_READER
    } else {
        READER
    };
    words.put_filled("READER", reader);
    out.fill(KNOT_IMPLS, &words);
}

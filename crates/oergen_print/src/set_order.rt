//! The root components of a SET in the order of its text, beside its row, which has them in the order of their tags.

use crate::chains::Chain;
use crate::choices::push_table_name;
use crate::text::{Text, Words};
use std::alloc::{AllocError, Global};
use std::collections::BTreeMap;

/// Where each of a SET's numbers stands, the least number first; of another type nothing.
pub fn text_order(
    alloc: Global,
    is_set: bool,
    numbers: &[usize],
) -> Result<Vec<usize>, AllocError> {
    let mut places = BTreeMap::new(alloc);
    for (at, number) in numbers.iter().enumerate() {
        if is_set {
            places.insert(*number, at)?;
        }
    }
    places.values().copied().collect(alloc)
}

/// The table of the root components in the order of the text.
fn push_text_table(out: &mut Text, of: Chain<'_>) {
    if of.in_text.is_empty() {
        out.push("&[]");
        return;
    }
    out.push("fields![");
    for (index, at) in of.in_text.iter().enumerate() {
        out.push(if index == 0 { "\n    " } else { ",\n    " });
        out.push_count(index);
        out.push_all(&[
            " ",
            of.roots().get(*at).map_or("", |cell| cell.entry.as_str()),
        ]);
    }
    out.push("\n]");
}

/// The places in the text of the root components of the row, as a list of definitions.
fn push_places(out: &mut Text, places: &[usize]) {
    for place in places.iter() {
        out.push_count(*place);
        out.push(" ∷ ");
    }
    out.push("[]");
}

/// Says where the components of a SET stand in its text, and what names their table.
pub fn put_set_order(words: &mut Words, of: Chain<'_>) {
    const TEXT: &str = "IN_TEXT_ORDER";
    push_table_name(words.begin("TEXT"), of.owner, TEXT);
    push_text_table(words.begin("TEXT_TABLE"), of);
    if of.knot.is_some() {
        push_table_name(words.begin("SET_FIELDS"), of.owner, TEXT);
    } else {
        words.put("SET_FIELDS", "Self::SET_FIELDS.fields");
    }
    push_places(words.begin("PLACES"), of.places);
}

//! The `use` lines of a file, from the words of its text, and the crates that a text names.

use crate::text::Text;
use std::alloc::{AllocError, Global};
use std::collections::{BTreeMap, BTreeSet};

/// How many characters a line has at most.
const WIDTH: usize = 100;

/// The library whose names printed text takes, all in one line.
const PRELUDE: &str = "rasn_oer::prelude";

/// The names that printed text takes from elsewhere, each by its path.
pub const KNOWN: &str =
    "oer_kept::KeptChoice oer_kept::KeptEnumeration std::alloc::AllocError std::alloc::Global std::marker::PhantomData";

/// The part of a line that can take names from elsewhere: none of a comment, a ghost member or clause, the type of an impl, or a
/// list of variants; of a variant what it holds.
fn code_of(line: &str) -> &str {
    let text = line.trim_start();
    let is_other = text.starts_with("//")
        || text.starts_with("ghost ")
        || text.starts_with("ensures ")
        || text.contains("_row!(")
        || text.contains("from_parts!(")
        || line.starts_with("    type ");
    if is_other { "" } else { behind_variant(line) }
}

/// A line behind the name of the variant that it declares; where it declares none, the whole.
fn behind_variant(line: &str) -> &str {
    let Some(text) = line.strip_prefix("    ") else {
        return line;
    };
    let Some((name, _)) = text.split_once(|c: char| !c.is_ascii_alphanumeric()) else {
        return line;
    };
    match text.strip_prefix(name) {
        Some(rest) if rest.starts_with('(') || rest.starts_with(" = ") => rest,
        _ => line,
    }
}

/// Whether a character ends a word.
pub fn ends_word(c: char) -> bool {
    !(c.is_ascii_alphanumeric() || c == '_')
}

/// What stands behind the word that a text begins with.
fn behind_word(text: &str) -> &str {
    match text.split_once(|c: char| ends_word(c)) {
        Some((_, rest)) => rest,
        None => "",
    }
}

/// Whether a word can be a type's name: others are left out, since they are many.
fn is_type_name(word: &str) -> bool {
    match word.chars().next() {
        Some(first) => first.is_ascii_uppercase(),
        None => false,
    }
}

/// Puts the words of a text that can be names of types to others.
fn push_words<'t>(words: &mut BTreeSet<&'t str>, text: &'t str) -> Result<(), AllocError> {
    for word in text.split(|c: char| ends_word(c)) {
        if is_type_name(word) {
            let _ = words.insert(word)?;
        }
    }
    Ok(())
}

/// Puts the words of a line to others, but for those that stand behind a colon, as in a path.
fn push_line_words<'t>(words: &mut BTreeSet<&'t str>, line: &'t str) -> Result<(), AllocError> {
    for (at, piece) in line.split(':').enumerate() {
        push_words(words, if at == 0 { piece } else { behind_word(piece) })?;
    }
    Ok(())
}

/// The words of a text's code that can be names of types.
fn words_of<'t>(alloc: Global, body: &'t str) -> Result<BTreeSet<&'t str>, AllocError> {
    let mut words = BTreeSet::new(alloc);
    for line in body.lines() {
        push_line_words(&mut words, code_of(line))?;
    }
    Ok(words)
}

/// Paths to names, in the order in which rustfmt has them.
pub type Paths = BTreeMap<String, (String, String)>;

/// How many digits a text begins with.
fn digits_of(text: &str) -> usize {
    text.find(|c: char| !c.is_ascii_digit())
        .unwrap_or(text.len())
}

/// Appends a name as it stands, with each run of digits brought to twenty: so that texts sort as names do.
fn push_sortable(out: &mut Text, name: &str) {
    const DIGITS: usize = 20;
    let mut in_run = false;
    for (at, c) in name.char_indices() {
        if c.is_ascii_digit() && !in_run {
            let digits = digits_of(name.get(at..).unwrap_or(""));
            out.push_times("0", DIGITS.saturating_sub(digits));
        }
        in_run = c.is_ascii_digit();
        out.push_char(c);
    }
}

/// What sorts a name by its path as rustfmt does.
fn sort_key(alloc: Global, home: &str, name: &str) -> Result<String, AllocError> {
    let mut key = Text::new(alloc);
    if home != "crate" {
        push_sortable(&mut key, home);
    }
    key.push("::");
    push_sortable(&mut key, name);
    key.end()
}

/// Puts a name's path to others.
pub fn push_path(
    alloc: Global,
    paths: &mut Paths,
    home: &str,
    name: &str,
) -> Result<(), AllocError> {
    let path = (
        String::from_str(alloc, home)?,
        String::from_str(alloc, name)?,
    );
    paths.insert(sort_key(alloc, home, name)?, path)?;
    Ok(())
}

/// Appends names in lines, as rustfmt lays out a list that one line doesn't hold.
fn push_broken(out: &mut Text, names: &[&str]) {
    out.push("   ");
    let mut column = 3usize;
    let last = names.len().saturating_sub(1);
    let mut is_first_line = true;
    for (at, name) in names.iter().enumerate() {
        column = column.saturating_add(name.len()).saturating_add(2);
        let fills = is_first_line && at == last;
        let room = if fills { WIDTH } else { WIDTH - 1 };
        let is_new_line = column > room;
        if is_new_line {
            column = name.len().saturating_add(5);
            is_first_line = false;
        }
        out.push_all(&[if is_new_line { "\n    " } else { " " }, *name, ","]);
    }
}

/// Appends names in one line.
fn push_list(out: &mut Text, names: &[&str]) {
    for (at, name) in names.iter().enumerate() {
        out.push_all(&[if at == 0 { "" } else { ", " }, *name]);
    }
}

/// One line of names, or several; none where there are no names.
fn push_line(alloc: Global, out: &mut Text, word: &str, home: &str, names: &[&str]) {
    if names.is_empty() {
        return;
    }
    let mut line = Text::of(alloc, &[word, " ", home, "::"]);
    push_list(&mut line, names);
    out.heed(&line);
    let (open, close) = if names.len() == 1 {
        ("", ";\n")
    } else if line.len().saturating_add(5) <= WIDTH {
        ("{", "};\n")
    } else {
        ("{\n", "\n};\n")
    };
    out.push_all(&[word, " ", home, "::"]);
    out.push(open);
    if open == "{\n" {
        push_broken(out, names);
    } else {
        push_list(out, names);
    }
    out.push(close);
}

/// The lines `use home::names`, or `pub use`, for paths.
pub fn path_lines(alloc: Global, word: &str, paths: &Paths) -> Result<String, AllocError> {
    let mut out = Text::new(alloc);
    let mut home = String::new(alloc);
    let mut names: Vec<&str> = Vec::new(alloc);
    for (module, name) in paths.values() {
        if module.as_str() != home.as_str() {
            push_line(alloc, &mut out, word, home.as_str(), names.as_slice());
            home = module.clone()?;
            names.clear();
        }
        names.push(name.as_str())?;
    }
    push_line(alloc, &mut out, word, home.as_str(), names.as_slice());
    out.end()
}

/// The crate and the module of each printed name.
pub type Homes = BTreeMap<String, (String, String)>;

/// Puts the paths of those names from elsewhere that stand among words.
fn push_known(alloc: Global, paths: &mut Paths, words: &BTreeSet<&str>) -> Result<(), AllocError> {
    for path in KNOWN.split(' ') {
        if let Some((home, name)) = path.rsplit_once("::") {
            if words.contains(&name) {
                push_path(alloc, paths, home, name)?;
            }
        }
    }
    Ok(())
}

/// The `use` lines of a text, which stands in that crate and module.
pub fn use_lines(
    alloc: Global,
    body: &str,
    homes: &Homes,
    library: &str,
    module: &str,
) -> Result<String, AllocError> {
    let words = words_of(alloc, body)?;
    let mut paths: Paths = BTreeMap::new(alloc);
    push_path(alloc, &mut paths, PRELUDE, "*")?;
    push_known(alloc, &mut paths, &words)?;
    for word in words.iter() {
        if let Some((home, file)) = homes.get(*word) {
            if home.as_str() != library {
                push_path(alloc, &mut paths, home.as_str(), *word)?;
            } else if file.as_str() != module {
                push_path(alloc, &mut paths, "crate", *word)?;
            }
        }
    }
    path_lines(alloc, "use", &paths)
}

/// Whether a text goes on with a crate's name, and with what leads from there into the crate.
fn leads_into(text: &str, library: &str, way: &str) -> bool {
    match text.strip_prefix(library) {
        Some(rest) => rest.starts_with(way),
        None => false,
    }
}

/// Whether a line names a crate: in a `use`, or by its definitions. A comment names none.
fn line_names(line: &str, library: &str) -> bool {
    let code = line.trim_start();
    if code.starts_with("//") {
        return false;
    }
    let is_used = match code.strip_prefix("use ") {
        Some(path) => leads_into(path, library, "::"),
        None => false,
    };
    is_used
        || code
            .split("Rattle.")
            .skip(1)
            .any(|path| leads_into(path, library, ".specs."))
}

/// Whether a file's text names a crate.
pub fn names_crate(text: &str, library: &str) -> bool {
    text.lines().any(|line| line_names(line, library))
}

/// The name under which a line shows what stands in a module.
fn shown_as(line: &str) -> Option<&str> {
    let (_, name) = line.strip_prefix("pub use ")?.split_once(" as ")?;
    name.strip_suffix(';')
}

/// The name that a line declares, and whether others may use it.
fn declared(line: &str) -> Option<(&str, bool)> {
    if let Some(name) = shown_as(line) {
        return Some((name, true));
    }
    let (rest, is_public) = match line.strip_prefix("pub ") {
        Some(rest) => (rest, true),
        None => (line, false),
    };
    let (sort, after) = rest.split_once(' ')?;
    if sort != "struct" && sort != "enum" && sort != "type" {
        return None;
    }
    let (name, _) = after.split_once(|c: char| ends_word(c))?;
    let is_limits = sort == "enum" && line.ends_with("{}");
    let is_default = sort == "struct" && after.strip_prefix(name) == Some(";");
    let is_shown = is_public && !is_limits && !is_default;
    Some((name, is_shown))
}

/// The names that a text declares, and whether others may use each.
pub fn declared_names(alloc: Global, body: &str) -> Result<Vec<(String, bool)>, AllocError> {
    let mut names = Vec::new(alloc);
    for line in body.lines() {
        if let Some((name, is_shown)) = declared(line) {
            names.push((String::from_str(alloc, name)?, is_shown))?;
        }
    }
    Ok(names)
}

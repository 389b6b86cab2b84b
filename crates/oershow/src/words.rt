//! What the words of the program ask for.

pub const USAGE: &str =
    "usage: oershow [--json|--check|--html FILE] [--base64] TABLE TYPE [OCTETS..]
       oershow [--json|--check|--html FILE] --binary TABLE TYPE [FILE..]
       oershow --from-json [--binary] TABLE TYPE [JSON..]
OCTETS are in hexadecimal, or in base64; without them each line of standard input is a message. With `-` for TYPE each line has
its type in front, and may have --json or --from-json, and --base64 before it. --binary takes each file, or standard input, as
one message. --from-json takes values in JSON, and writes their canonical octets in hexadecimal.
TABLE is what `oergen --table` prints of modules. In its place these may be given, as words that end in .asn or .asn1.";

/// What comes of messages.
#[derive(Clone, Copy, PartialEq, Eq)]
pub enum Output {
    /// A tree each.
    Tree,
    /// A line of JSON each.
    Json,
    /// A line of each that isn't whole, and their counts.
    Check,
    /// A page of HTML.
    Page,
    /// Of a value in JSON a line of octets each.
    Octets,
}

/// What the words ask for.
#[derive(Drop)]
pub struct Wish<'w> {
    pub output: Output,
    /// The file that the page goes to.
    pub file: &'w str,
    pub is_base64: bool,
    pub is_binary: bool,
    /// The table's file, where there are no modules.
    pub table: &'w str,
    pub modules: &'w [String],
    pub type_name: &'w str,
    pub messages: &'w [String],
}

/// The words in front of the table.
#[derive(Clone, Copy)]
struct Options<'w> {
    output: Output,
    file: &'w str,
    is_base64: bool,
    is_binary: bool,
}

/// The options with the one that words begin with, and the words behind it; nothing where they begin with none.
fn with_option<'w>(
    options: Options<'w>,
    words: &'w [String],
) -> Option<(Options<'w>, &'w [String])> {
    let [first, rest @ ..] = words else {
        return None;
    };
    let mut options = options;
    match first.as_str() {
        "--json" => options.output = Output::Json,
        "--check" => options.output = Output::Check,
        "--from-json" => options.output = Output::Octets,
        "--base64" => options.is_base64 = true,
        "--binary" => options.is_binary = true,
        "--html" => {
            let [file, behind @ ..] = rest else {
                return None;
            };
            options.output = Output::Page;
            options.file = file.as_str();
            return Some((options, behind));
        }
        _ => return None,
    }
    Some((options, rest))
}

/// Whether a word is a file of ASN.1 modules.
pub fn is_module(word: &str) -> bool {
    word.ends_with(".asn") || word.ends_with(".asn1")
}

/// The table and the words behind it; no table where there are modules in its place.
fn with_table<'w>(words: &'w [String], modules: &[String]) -> Option<(&'w str, &'w [String])> {
    if !modules.is_empty() {
        return Some(("", words));
    }
    match words {
        [table, rest @ ..] if !table.as_str().starts_with("--") => Some((table.as_str(), rest)),
        _ => None,
    }
}

/// The wish that words say, without the program's own and the modules; nothing where they are of another form.
pub fn wish_of<'w>(words: &'w [String], modules: &'w [String]) -> Option<Wish<'w>> {
    let mut options = Options {
        output: Output::Tree,
        file: "",
        is_base64: false,
        is_binary: false,
    };
    let mut rest = words;
    for _ in 0..words.len() {
        match with_option(options, rest) {
            Some((more, behind)) => {
                options = more;
                rest = behind;
            }
            None => break,
        }
    }
    let (table, rest) = with_table(rest, modules)?;
    match rest {
        [type_name, messages @ ..] if !type_name.as_str().starts_with("--") => Some(Wish {
            output: options.output,
            file: options.file,
            is_base64: options.is_base64,
            is_binary: options.is_binary,
            table,
            modules,
            type_name: type_name.as_str(),
            messages,
        }),
        _ => None,
    }
}

/// Whether a word begins a line, and the line without it.
pub fn asked<'l>(line: &'l str, word: &str) -> (bool, &'l str) {
    match line.strip_prefix(word) {
        Some(rest) => (true, rest),
        None => (false, line),
    }
}

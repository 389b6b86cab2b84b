//! What a default with parts has for the fields of its struct, and the words that print it.

use crate::defaults::{Default, put_decides};
use crate::text::{Text, Words};
use oergen_layouts::rows::Position;
use std::alloc::{AllocError, Global};

/// What definitions take from elsewhere for any default with parts.
const USES: &str = "ghost use Rattle.std.specs.Prelude.{◌∷◌, [], None, Some, false, true, refl};
    ghost use Rattle.rasn_oer.specs.Chosen.{alternative_same, chosen_same, other_alternative};
    ghost use Rattle.rasn_oer.specs.Compared.{absent_same, also_same, default_by, given_same, no_rows_by, nothing_same, omitted_same, optional_by, parts_same, present_same, required_by, struct_by};
    ghost use Rattle.rasn_oer.specs.EmptyLists.{empty_listed};
    ghost use Rattle.rasn_oer.specs.Literals.{spelled, written};
    ghost use Rattle.rasn_oer.specs.Numbered.{numbers_same};
    ghost use Rattle.rasn_oer.specs.Spelled.{beside_nothing, bit_strings_same, booleans_same, integers_same, named_bit_strings_same, naturals_same, nulls_same, texts_same};
    ghost use Rattle.rasn_oer.specs.Texts as texts;@OTHERS@";

/// What shows which values of a struct are equal to its default.
const FIELDS_SAME: &str =
    "let @ASKED@ = i in parts_same @SAME@ (struct_by @ROOT_BY@ @MORE_BY@) (λ @COMPARED@. (@ROOT_KNOWN@, @MORE_KNOWN@)) (λ (@ROOT_NAMES@, @MORE_NAMES@). @COMPARED@)";

/// The same of one without fields.
const NO_FIELD_SAME: &str =
    "parts_same nothing_same (struct_by no_rows_by no_rows_by) (λ x. (tt, tt)) (λ x. tt)";

/// What shows which values of a CHOICE are equal to its default.
const CHOSEN_SAME: &str =
    "chosen_same (⟦<@TYPE@ as Spelled>⟧.tree @AT@) ⟦<@TYPE@ as Spelled>⟧.IsValue ⟦<@TYPE@ as PartialEq>⟧.eq (@GHOST@) (elim [ @CASES@ ])";

/// The same of the values of its alternative.
const ALTERNATIVE_SAME: &str =
    "λ (e, i). alternative_same _ _ _ _ _ _ (given_same @TREE@ @IS_VALUE@ @EQ@ (@VALUE@) (@DECIDES@) held i)";

/// What stands for the words of the template of a CHOICE's default.
const ALTERNATIVE_TEXTS: &[(&str, &str)] = &[
    ("VALUES", ""),
    ("PARAMETER", "<const ALTERNATIVE: usize>"),
    ("USES", USES),
    ("ARGUMENT", "<@PLACE@>"),
    (
        "GHOST",
        "record { 0 = @OWNER@Alternatives.@VARIANT@ (@VALUE@) }",
    ),
    (
        "CODE",
        "alternative_value![OneOf @OWNER@Alternatives::@VARIANT@ in @ALLOC@: @PART@]",
    ),
    (
        "TEST",
        "is_alternative![other: @OWNER@Alternatives::@VARIANT@ @PART@]",
    ),
    ("ADMITTED", "(refl, @HELD@)"),
];

/// The words for the cells of the root: what shows that values are admitted, names for that, what is known of them, names for that, and lemmas.
const ROOT: [&str; 5] = [
    "ROOT_ADMITTED",
    "ROOT_ASKED",
    "ROOT_KNOWN",
    "ROOT_NAMES",
    "ROOT_BY",
];

/// Those for the cells of the additions.
const ADDITIONS: [&str; 5] = [
    "MORE_ADMITTED",
    "MORE_ASKED",
    "MORE_KNOWN",
    "MORE_NAMES",
    "MORE_BY",
];

/// How a field stands in a default.
#[derive(Clone, Copy, PartialEq, Eq)]
pub enum Presence {
    Absent,
    Required,
    Optional,
    /// With the component's own default.
    Default,
}

/// The templates of a field: its value in definitions, its default in code, what shows that its type admits it, and what shows which of its
/// values are equal to it; and the lemma for its cell.
#[derive(Clone, Copy)]
struct FieldText {
    value: &'static str,
    code: &'static str,
    admitted: &'static str,
    same: &'static str,
    lemma: &'static str,
}

const ABSENT: FieldText = FieldText {
    value: "@FIELD@ = None",
    code: "@FIELD@ [none @TYPED@]",
    admitted: "tt",
    same: "absent_same @TREE@ @EQ@ v.0.@FIELD@",
    lemma: "optional_by",
};

const REQUIRED: FieldText = FieldText {
    value: "@FIELD@ = @VALUE@",
    code: "@FIELD@ [@NAME@ as @TYPED@]",
    admitted: "@ADMITTED@",
    same: "given_same @TREE@ @IS_VALUE@ @EQ@ (@VALUE@) (@DECIDES@) v.0.@FIELD@",
    lemma: "required_by",
};

const OPTIONAL: FieldText = FieldText {
    value: "@FIELD@ = Some (@VALUE@)",
    code: "@FIELD@ [some @NAME@ as @TYPED@]",
    admitted: "@ADMITTED@",
    same: "present_same @TREE@ @EQ@ @IS_VALUE@ (@VALUE@) (@DECIDES@) v.0.@FIELD@",
    lemma: "optional_by",
};

const OMITTED: FieldText = FieldText {
    value: "@FIELD@ = @VALUE@",
    code: "@FIELD@ [@NAME@ as @TYPED@]",
    admitted: "record { value = @ADMITTED@; is_tree = ⟦<@RUST@ as Spelled>⟧.is_tree @CONSTRAINTS@ refl; alike = ⟦<@RUST@ as Spelled>⟧.alike @CONSTRAINTS@ refl; decides = @DECIDES@ }, (λ e. @ADMITTED@)",
    same: "omitted_same (@EQ@ v.0.@FIELD@ (@VALUE@)) (@TREE@ v.0.@FIELD@)",
    lemma: "default_by",
};

impl Presence {
    /// The templates.
    fn texts(self) -> FieldText {
        match self {
            Presence::Absent => ABSENT,
            Presence::Required => REQUIRED,
            Presence::Optional => OPTIONAL,
            Presence::Default => OMITTED,
        }
    }
}

/// What a default with parts has for a field.
#[derive(Drop)]
pub struct FieldDefault {
    presence: Presence,
    /// The field and its value, in definitions.
    value: Text,
    /// The field and its default, in code.
    code: Text,
    /// What shows that its type admits it.
    admitted: Text,
    /// What shows which of the field's values are equal to it: of a required and an optional one in front of what shows that such a value is
    /// admitted.
    same: Text,
    /// What definitions take from elsewhere for it.
    uses: Text,
}

/// The words of a field: its name, its Rust type, and what definitions say of that.
fn field_words(alloc: Global, field: &str, rust: &str) -> Words {
    let mut words = Words::new(alloc);
    words.put("FIELD", field);
    words.put("RUST", rust);
    // where a macro reads it, Rust takes `<-` for one token
    words.begin("TYPED").push_replaced(rust, "<-", "< -");
    words.put_filled("CONSTRAINTS", "⟦<@RUST@ as AsnType>⟧.CONSTRAINTS");
    words.put_filled("TREE", "(⟦<@RUST@ as Spelled>⟧.tree @CONSTRAINTS@)");
    words.put_filled("IS_VALUE", "⟦<@RUST@ as Spelled>⟧.IsValue");
    words.put_filled("EQ", "⟦<@RUST@ as PartialEq>⟧.eq");
    words
}

/// The words of a part: those of its field, and its default.
fn part_words(field: &str, rust: &str, of: &Default) -> Words {
    let mut words = field_words(of.name.alloc(), field, rust);
    words.begin("NAME").push_text(&of.name);
    words.begin("VALUE").push_text(&of.value);
    words.begin("ADMITTED").push_text(&of.admitted);
    words.begin("DECIDES").push_text(&of.decides);
    words.begin("OTHERS").push_text(&of.uses);
    words
}

impl FieldDefault {
    /// One by its words.
    fn of(words: &Words, presence: Presence) -> FieldDefault {
        let alloc = words.alloc();
        let texts = presence.texts();
        let mut own = FieldDefault {
            presence,
            value: Text::new(alloc),
            code: Text::new(alloc),
            admitted: Text::new(alloc),
            same: Text::new(alloc),
            uses: Text::new(alloc),
        };
        own.value.fill(texts.value, words);
        own.code.fill(texts.code, words);
        own.admitted.fill(texts.admitted, words);
        own.same.fill(texts.same, words);
        own.uses.fill("@OTHERS@", words);
        own
    }

    /// That of a field that is absent, of a component of a Rust type.
    pub fn absent(alloc: Global, field: &str, rust: &str) -> FieldDefault {
        FieldDefault::of(&field_words(alloc, field, rust), Presence::Absent)
    }

    /// That of an addition group of a type, which is absent.
    pub fn no_group(alloc: Global, owner: &str, number: usize) -> FieldDefault {
        let mut field = Text::of(alloc, &["group_"]);
        field.push_count(number);
        let mut rust = Text::of(alloc, &[owner, "Group"]);
        rust.push_count(number);
        let mut own = FieldDefault::absent(alloc, field.as_str(), rust.as_str());
        own.uses.heed(&field);
        own.uses.heed(&rust);
        own
    }

    /// That of a component of a Rust type, by the default that is its value, or its own.
    pub fn given(field: &str, rust: &str, of: Default, presence: Presence) -> FieldDefault {
        FieldDefault::of(&part_words(field, rust, &of), presence)
    }
}

/// What a default has for the fields of a struct, those of the root first.
#[derive(Drop)]
pub struct Fields {
    all: Vec<FieldDefault>,
    root_count: usize,
    is_in_root: bool,
    /// The number of the last group.
    group: usize,
    is_set: bool,
}

/// Appends the lines of a text that another lacks.
fn push_new_lines(out: &mut Text, lines: &str) {
    for line in lines.lines() {
        if !line.is_empty() && !out.as_str().contains(line) {
            out.push_all(&["\n", line]);
        }
    }
}

/// Appends one of so many texts, each but the last beside all behind it: with what opens a pair, and what stands between.
fn push_nested(out: &mut Text, at: usize, around: (&str, &str), count: usize, text: &Text) {
    let is_last = at.saturating_add(1) == count;
    out.push(if is_last { "" } else { around.0 });
    out.push_text(text);
    out.push(if is_last { "" } else { around.1 });
    out.push_times(if is_last { ")" } else { "" }, at);
}

/// Appends a text and a number.
fn push_numbered(out: &mut Text, front: &str, at: usize) {
    out.push(front);
    out.push_count(at);
}

impl Fields {
    /// None yet, of a SET or a SEQUENCE: those of the root are first.
    pub fn new(alloc: Global, is_set: bool) -> Fields {
        Fields {
            all: Vec::new(alloc),
            root_count: 0,
            is_in_root: true,
            group: 0,
            is_set,
        }
    }

    /// Whether one at that position is among those that are put now.
    pub fn takes(&self, position: Position) -> bool {
        (position == Position::Root) == self.is_in_root
    }

    /// Puts one behind the others, that of a group once.
    pub fn push(&mut self, field: FieldDefault, position: Position) -> Result<(), AllocError> {
        if let Position::Group(number) = position {
            if number == self.group {
                return Ok(());
            }
            self.group = number;
        }
        self.all.push(field)?;
        Ok(())
    }

    /// Ends those of the root: those of the additions follow.
    pub fn end_root(&mut self) {
        self.root_count = self.all.len();
        self.is_in_root = false;
    }

    /// How many there are.
    pub fn len(&self) -> usize {
        self.all.len()
    }

    /// Whether code takes memory for them.
    pub fn take_memory(&self) -> bool {
        self.all
            .iter()
            .any(|field| field.presence != Presence::Absent)
    }

    /// Says what definitions take from elsewhere.
    fn put_uses(&self, words: &mut Words) {
        let mut others = Text::new(words.alloc());
        for field in self.all.iter() {
            push_new_lines(&mut others, field.uses.as_str());
            others.heed(&field.uses);
        }
        words.begin("OTHERS").push_text(&others);
        words.put_filled("USES", USES);
    }

    /// Says the value in definitions.
    fn put_ghost(&self, words: &mut Words) {
        let out = words.begin("GHOST");
        out.push("record { 0 = record { ");
        for (at, field) in self.all.iter().enumerate() {
            out.push(if at == 0 { "" } else { "; " });
            out.push_text(&field.value);
        }
        out.push(" } }");
    }

    /// Says the value in code, and what tests it.
    fn put_code(&self, words: &mut Words) {
        let out = words.begin("CELLS");
        for (at, field) in self.all.iter().enumerate() {
            out.push(if at == 0 {
                "\n            "
            } else {
                ",\n            "
            });
            out.push_text(&field.code);
        }
        words.put_filled(
            "CODE",
            "parts_value![@KIND@ @OWNER@Components in @ALLOC@:@CELLS@\n        ]",
        );
        words.put_filled("TEST", "parts_are![other:@CELLS@\n        ]");
    }

    /// The fields of the root, or of the additions, as they are compared.
    fn fields(&self, is_root: bool) -> &[FieldDefault] {
        let (roots, additions) = self.all.split_at(self.root_count.min(self.all.len()));
        if is_root { roots } else { additions }
    }

    /// Appends what shows that the values of some cells are admitted, of fields at those places.
    fn push_admitted(&self, out: &mut Text, cells: &[usize]) {
        for at in cells.iter() {
            if let Some(field) = self.all.get(*at) {
                out.push("(");
                out.push_text(&field.admitted);
                out.push(", ");
            }
        }
        out.push("tt");
        out.push_times(")", cells.len());
    }

    /// Appends names for what shows that a value's fields are admitted, of those at those places.
    fn push_asked(&self, out: &mut Text, cells: &[usize]) {
        for at in cells.iter() {
            let presence = self.all.get(*at).map(|field| field.presence);
            let is_default = presence == Some(Presence::Default);
            out.push(if is_default { "(_, " } else { "(" });
            push_numbered(out, "i", *at);
            out.push(", ");
        }
        out.push("_");
        out.push_times(")", cells.len());
    }

    /// Appends names for what is known of some fields, and an end.
    fn push_known(&self, out: &mut Text, is_root: bool, end: &str) {
        let first = if is_root { 0 } else { self.root_count };
        let fields = self.fields(is_root);
        for at in 0..fields.len() {
            push_numbered(out, "(x", first.saturating_add(at));
            out.push(", ");
        }
        out.push(end);
        out.push_times(")", fields.len());
    }

    /// Appends the lemmas of some fields, each of which takes that behind it.
    fn push_lemmas(&self, out: &mut Text, is_root: bool) {
        let fields = self.fields(is_root);
        for field in fields.iter() {
            out.push_all(&["(", field.presence.texts().lemma, " "]);
        }
        out.push("no_rows_by");
        out.push_times(")", fields.len());
    }

    /// Appends names for what is known of the fields, in the order in which they are compared.
    fn push_compared(&self, out: &mut Text) {
        let count = self.all.len();
        for at in 0..count {
            let mut name = Text::new(out.alloc());
            push_numbered(&mut name, "x", at);
            push_nested(out, at, ("(", ", "), count, &name);
        }
    }

    /// Appends what shows which values of the fields are equal to the default's, in the order in which they are compared.
    fn push_same(&self, out: &mut Text) {
        for (at, field) in self.all.iter().enumerate() {
            let mut own = Text::of(out.alloc(), &["("]);
            own.push_text(&field.same);
            if matches!(field.presence, Presence::Required | Presence::Optional) {
                push_numbered(&mut own, " i", at);
            }
            own.push(")");
            push_nested(out, at, ("(also_same ", " "), self.all.len(), &own);
        }
    }

    /// Says what is shown of the fields' values, which stand in their row in that order.
    fn put_shown(&self, words: &mut Words, order: &[usize]) {
        let (roots, additions) = order.split_at(self.root_count.min(order.len()));
        for (is_root, cells, names) in [(true, roots, ROOT), (false, additions, ADDITIONS)] {
            self.push_admitted(words.begin(names[0]), cells);
            self.push_asked(words.begin(names[1]), cells);
            self.push_known(words.begin(names[2]), is_root, "tt");
            self.push_known(words.begin(names[3]), is_root, "_");
            self.push_lemmas(words.begin(names[4]), is_root);
        }
        self.push_compared(words.begin("COMPARED"));
        self.push_same(words.begin("SAME"));
    }

    /// Says what shows that its type admits the value, and which values are equal to it.
    fn put_laws(&self, words: &mut Words) {
        let (admitted, asked) = if self.is_set {
            (
                "record { in_order = refl; is_of = (@ROOT_ADMITTED@, @MORE_ADMITTED@) }",
                "record { in_order = _; is_of = (@ROOT_ASKED@, @MORE_ASKED@) }",
            )
        } else {
            (
                "(@ROOT_ADMITTED@, @MORE_ADMITTED@)",
                "(@ROOT_ASKED@, @MORE_ASKED@)",
            )
        };
        words.put_filled("ADMITTED", admitted);
        words.put_filled("ASKED", asked);
        let decides = if self.all.is_empty() {
            NO_FIELD_SAME
        } else {
            FIELDS_SAME
        };
        put_decides(words, decides, ("", ""));
    }

    /// Says what stands for the words of the template; the fields stand in their row in that order.
    pub fn put_words(&self, words: &mut Words, order: &[usize]) {
        words.put("KIND", if self.is_set { "Set" } else { "Sequence" });
        self.put_uses(words);
        self.put_ghost(words);
        self.put_code(words);
        self.put_shown(words, order);
        self.put_laws(words);
    }
}

/// Appends what shows which values of a CHOICE are equal to the default: of each alternative its own.
fn push_cases(out: &mut Text, owner: &str, names: &[String], at: usize, own: &Text) {
    for (index, name) in names.iter().enumerate() {
        let between = if index == 0 { "" } else { " | " };
        out.push_all(&[between, owner, "Alternatives.", name.as_str(), " held ↦ "]);
        if index == at {
            out.push_text(own);
        } else {
            out.push("λ i. other_alternative _ _ _ _ _ _ refl");
        }
    }
}

/// Says what stands for the words of the template of a CHOICE's default, by the default of its alternative and the alternatives' names.
pub fn put_alternative(words: &mut Words, of: &Default, rust: &str, names: &[String], at: usize) {
    let part = part_words("", rust, of);
    let own = part.filled(ALTERNATIVE_SAME);
    let owner = words.filled("@OWNER@");
    let owner = owner.as_str();
    words.put("VARIANT", names.get(at).map_or("", |name| name.as_str()));
    words.put("HELD", of.admitted.as_str());
    words.put("VALUE", of.value.as_str());
    let others = words.begin("OTHERS");
    others.push_all(&[
        "\n    ghost use Rattle.@HOME:",
        owner,
        "Alternatives@.",
        owner,
    ]);
    others.push_all(&["Alternatives.TheVariants as ", owner, "Alternatives;"]);
    others.push_text(&of.uses);
    push_cases(words.begin("CASES"), owner, names, at, &own);
    words.begin("PLACE").push_count(at);
    words
        .begin("PART")
        .push_text(&part.filled("@NAME@ as @TYPED@"));
    words.fill_all(ALTERNATIVE_TEXTS);
    let inside = words.filled("⟦<@TYPE@ as AsnType>⟧.CONSTRAINTS");
    put_decides(words, CHOSEN_SAME, ("c", inside.as_str()));
}

//! What is printed of the pieces of a row: between two `@` stands a word that is put in.

/// A piece of a row behind its first one: a type of its own, since the check of a row takes the longer the more its text says at once.
pub const PIECE: &str = r#"pub struct @NAME@@K@@HOLDS@;

"#;

/// The parameter of a piece that holds knots, and its bounds.
pub const KNOT_PARAMETER: &[(&str, &str)] = &[
    ("K", "<K>"),
    ("TURBO", "::<K>"),
    ("HOLDS", "(PhantomData<K>)"),
    ("WRITING", "<K: Encode>"),
    ("READING", "<K: Encode + Decode>"),
    ("VIEWED", ", K: Encode + 'v"),
];

/// The traits of a piece of root components, and what they have.
pub const ROOT_WORDS: &[(&str, &str)] = &[
    ("ROWED", "Components"),
    ("VALUES", "Values"),
    ("SCHEMA", "schema"),
    ("THROUGH", "through"),
    ("IF_EXTENSIBLE", "⟦<@ROW@ as Components>⟧.EXTENSIBLE "),
    ("EXTENSIBLE", EXTENSIBLE),
    ("KNOT_EXTENSIBLE", KNOT_EXTENSIBLE),
    ("SLOTTED", "Slotted"),
    ("READS", "Reads"),
    ("READ", "read"),
    ("VIEWS", "Views"),
    ("VIEW", "View"),
    ("WRITE", "write"),
    ("KNOT_ROWED", "KnotRow"),
    ("READS_KNOT", "ReadsKnot"),
    ("READ_KNOT", "read"),
    (
        "SIGNATURE",
        "(view: &Self::View, encoder: &mut Encoder<'_>) -> Result<(), EncodeError>",
    ),
];

/// Whether a row is extensible.
const EXTENSIBLE: &str = r#"    ghost EXTENSIBLE = { ⟦<@ROW@ as Components>⟧.EXTENSIBLE };

    const EXTENSIBLE: bool = @EXT@;

"#;

/// Whether one that holds knots is.
const KNOT_EXTENSIBLE: &str = r#"    ghost EXTENSIBLE = { ⟦<@ROW@ as KnotRow<K>>⟧.EXTENSIBLE };

    const EXTENSIBLE: bool = @EXT@;

"#;

/// The traits of a piece of additions, and what they have.
pub const ADDITION_WORDS: &[(&str, &str)] = &[
    ("ROWED", "Additions"),
    ("VALUES", "More"),
    ("SCHEMA", "table"),
    ("THROUGH", "under"),
    ("SLOTTED", "SlottedAdditions"),
    ("READS", "ReadsAdditions"),
    ("READ", "read_additions"),
    ("VIEWS", "AdditionViews"),
    ("VIEW", "MoreView"),
    ("WRITE", "write_additions"),
    ("KNOT_ROWED", "KnotAdditions"),
    ("READS_KNOT", "ReadsKnotAdditions"),
    ("READ_KNOT", "read_knot_additions"),
    (
        "SIGNATURE",
        "(\n        view: &Self::MoreView,\n        encoder: &mut Encoder<'_>,\n    ) -> Result<(), EncodeError>",
    ),
];

/// What a piece is by the row of its own cells.
pub const PIECE_WORDS: &[(&str, &str)] = &[
    ("IS_SCHEMA", "⟦<@ROW@ as @ROWED@>⟧.is_@SCHEMA@"),
    ("OWN_SCHEMA", "⟦<@ROW@ as @ROWED@>⟧.@SCHEMA@"),
    ("OWN_VALUES", "<@ROW@ as @ROWED@>::@VALUES@"),
    ("OWN_SLOTS", "<@ROW@ as @SLOTTED@>::Slots"),
    ("OWN_VIEW", "<@ROW@ as @VIEWS@<'v>>::@VIEW@"),
    ("FILLED", "⟦<@ROW@ as @SLOTTED@>⟧.filled"),
    ("FILLED_ONCE", "@FILLED@_once"),
    ("SEEN", "⟦<@ROW@ as @VIEWS@<'v>>⟧.seen"),
    ("EMPTY", "@NAME@Row@TURBO@::empty()"),
    ("TAKEN", "@NAME@Row@TURBO@::taken(slots)"),
    ("SLOTS", "slots"),
    ("SEES", "view"),
];

/// What it is where structs hold that.
pub const HELD_WORDS: &[(&str, &str)] = &[
    (
        "USES_SCHEMA",
        "    ghost use Rattle.rasn_oer.specs.Schema.{@THROUGH@, @THROUGH@_is};\n\n",
    ),
    (
        "USES_SLOTS",
        "    ghost use Rattle.std.proofs.Common.{ap};\n\n",
    ),
    (
        "IS_SCHEMA",
        "@THROUGH@_is (λ v. v.0) @OWN_SCHEMA@ @IF_EXTENSIBLE@@IS_SCHEMA@",
    ),
    ("OWN_SCHEMA", "@THROUGH@ (λ v. v.0) @OWN_SCHEMA@"),
    ("OWN_VALUES", "@NAME@Values"),
    ("OWN_SLOTS", "@NAME@Slots"),
    ("OWN_VIEW", "@NAME@View<'v>"),
    (
        "FILLED_ONCE",
        "λ v w e. ap (λ z. record { 0 = z }) (@FILLED_ONCE@ v.0 w.0 (ap (λ z. z.0) e))",
    ),
    ("FILLED", "λ v. record { 0 = @FILLED@ v.0 }"),
    ("SEEN", "λ v. record { 0 = @SEEN@ v.0 }"),
    ("EMPTY", "@NAME@Slots(@EMPTY@)"),
    (
        "TAKEN",
        "let @NAME@Slots(slots) = slots;\n        @NAME@Values(@TAKEN@)",
    ),
    ("SLOTS", "&mut slots.0"),
    ("SEES", "&view.0"),
];

/// What holds a piece of a long row: a struct of its values, one of its places, and one of references to its values. So what holds the
/// whole row has fewer types in one another.
pub const HELD_PIECE: &str = r#"/// The values of `@NAME@`.
#[derive(Drop)]
pub struct @NAME@Values(pub @OWN_VALUES@);

/// The places of `@NAME@`.
#[derive(Drop)]
pub struct @NAME@Slots(pub @OWN_SLOTS@);

/// References to the values of `@NAME@`.
#[derive(Drop)]
pub struct @NAME@View<'v>(pub @OWN_VIEW@);

"#;

/// The impls of a piece.
pub const PIECE_IMPLS: &str = r#"impl@WRITING@ @ROWED@ for @NAME@@K@ {
@USES_SCHEMA@    type @VALUES@ = @OWN_VALUES@;

@EXTENSIBLE@    ghost @SCHEMA@ = { @OWN_SCHEMA@ };

    ghost is_@SCHEMA@ = { @IS_SCHEMA@ };
}

impl@WRITING@ @SLOTTED@ for @NAME@@K@ {
@USES_SLOTS@    type Slots = @OWN_SLOTS@;

    ghost filled = { @FILLED@ };

    ghost filled_once = { @FILLED_ONCE@ };

    #[inline(always)]
    fn empty() -> Self::Slots {
        @EMPTY@
    }

    #[inline(always)]
    fn taken(slots: Self::Slots) -> Self::@VALUES@ {
        @TAKEN@
    }
}

impl@READING@ @READS@ for @NAME@@K@ {
    ghost Refuses = { ⟦<@ROW@ as @READS@>⟧.Refuses };

    #[inline(always)]
    fn @READ@(
        alloc: Global,
        decoder: &mut Decoder<'_>,
        slots: &mut Self::Slots,
    ) -> Result<(), DecodeError> {
        <@ROW@ as @READS@>::@READ@(alloc, decoder, @SLOTS@)
    }
}

impl<'v@VIEWED@> @VIEWS@<'v> for @NAME@@K@ {
    type @VIEW@ = @OWN_VIEW@;

    ghost seen = { @SEEN@ };

    #[inline(always)]
    fn @WRITE@@SIGNATURE@ {
        @NAME@Row@TURBO@::@WRITE@(@SEES@, encoder)
    }
}

"#;

/// The impls of one in a cycle, by the knots that it holds.
pub const KNOT_PIECE_IMPLS: &str = r#"impl<K> @KNOT_ROWED@<K> for @NAME@@K@ {
    type @VALUES@ = <@ROW@ as @KNOT_ROWED@<K>>::@VALUES@;

@KNOT_EXTENSIBLE@    ghost @SCHEMA@ = { ⟦<@ROW@ as @KNOT_ROWED@<K>>⟧.@SCHEMA@ };

    ghost weight = { ⟦<@ROW@ as @KNOT_ROWED@<K>>⟧.weight };

    ghost ties = { ⟦<@ROW@ as @KNOT_ROWED@<K>>⟧.ties };
}

impl<K: Encode> @READS_KNOT@<K> for @NAME@@K@ {
    ghost refusing = { ⟦<@ROW@ as @READS_KNOT@<K>>⟧.refusing };

    fn @READ_KNOT@<F: Fn(&mut Decoder<'_>) -> Result<K, DecodeError>>(
        alloc: Global,
        decoder: &mut Decoder<'_>,
        slots: &mut Self::Slots,
        knot: &F,
    ) -> Result<(), DecodeError> {
        <@ROW@ as @READS_KNOT@<K>>::@READ_KNOT@(alloc, decoder, slots, knot)
    }
}

"#;

/// The answer of what takes the values out of the places of a piece of a long row.
pub const HELD_TAKEN_ANSWER: &str = r#"use Rattle.std.proofs.Common.{ap}

pub taken-requires : goal.taken-requires
taken-requires c = (c.requires.0.0, ap (λ z. z.0) c.requires.1)
"#;

/// The answer of what reads them.
pub const HELD_READ_ANSWER: &str = r#"use Rattle.std.proofs.Common.{ap}
use Rattle.std.proofs.lemmas.Result.{on_ok_weaker}

pub returns-clause-read : goal.returns-clause-read
returns-clause-read c = on_ok_weaker c.@READ@.result (λ x. (record { 0 = x.0 }, ap (λ z. record { 0 = z }) x.1, @OTHERS@)) c.@READ@.ensures.read
"#;

//! What is printed of each sort of item: between two `@` stands a word that is put in.

/// A SEQUENCE or a SET, and the struct of its components: in a module of its own, so that `Debug` shows it by the type's name.
pub const TYPE: &str = r#"@HEAD@pub type @NAME@@CONTENT@ = @KIND@<@NAME@Components@K@, @RC@, @EC@>;

pub use @COMPONENTS@::@NAME@ as @NAME@Components;

mod @COMPONENTS@ {
    use super::*;

    /// The components of `@NAME@`.
    #[derive(Debug, PartialEq, Eq, Drop)]
    pub struct @NAME@@K@ {@FIELDS@}
}

"#;

/// What the components of a struct as a row name, but for none.
pub const USES_BOTH: &str = r#"    ghost use Rattle.rasn_oer.specs.Values.{both};

"#;

/// The components of a struct as a row.
pub const MEMBERS: &str = r#"impl@WRITES@ Rowed for @NAME@Components@K@ {
@USES@    type Values = <@NAME@Row@K@ as Components>::Values;

    ghost EXTENSIBLE = { ⟦<@NAME@Row@K@ as Components>⟧.EXTENSIBLE };

    const EXTENSIBLE: bool = @EXT@;

    ghost row_schema = { ⟦<@NAME@Row@K@ as Components>⟧.schema };

    ghost row_is_schema = { ⟦<@NAME@Row@K@ as Components>⟧.is_schema };

    ghost components = { λ v. @PAIRS@ };

    fn from_row(row: Self::Values) -> Self {
        built![@NAME@Components from row:
@LIST@
        ]
    }
}

impl@READS@ Takes for @NAME@Components@K@ {
    ghost Refuses = { ⟦<@NAME@Row@K@ as Reads>⟧.Refuses };

    #[inline(always)]
    fn take(alloc: Global, decoder: &mut Decoder<'_>) -> Result<Self, DecodeError> {
        read_row::<Self, @NAME@Row@K@>(alloc, decoder)
    }
}

"#;

/// The tables of components, and how they are written. Those of what holds knots are constants of the module, since no constant of a
/// generic impl is known to the check.
pub const TABLES: &str = r#"@CONSTANTS@impl@WRITES@ Tabled<@RC@, @EC@> for @NAME@Components@K@ {
    ghost use Rattle.std.specs.Prelude.{refl};

    const FIELDS: Fields<@RC@> = @ROOTS@;

    const EXTENDED_FIELDS: Option<Fields<@EC@>> = @ADDITIONS@;

    fn root_fields() -> &'static [Field<'static>] {
        @ROOT_FIELDS@
    }

    fn addition_fields() -> &'static [Field<'static>] {
        @ADDITION_FIELDS@
    }

    #[inline(always)]
    fn put(&self, encoder: &mut Encoder<'_>) -> Result<(), EncodeError> {
        let view = views![self:
@LIST@
        ];
        @NAME@Row@TURBO@::write(&view, encoder)
    }

    ghost counts = { (refl, refl) };
}

"#;

/// Where the components of a SET stand in its text, and that its row has them in the order of their tags.
pub const IN_TAG_ORDER: &str = r#"const @TEXT@: &'static [Field<'static>] = @TEXT_TABLE@;

impl@K@ TextOrder for @NAME@Components@K@ {
    ghost use Rattle.std.specs.Prelude.{[], ◌∷◌};

    ghost places = { @PLACES@ };
}

impl@WRITES@ InTagOrder<@RC@, @EC@> for @NAME@Components@K@ {
    ghost use Rattle.std.specs.Prelude.{refl};

    ghost in_order = { refl };

    const SET_FIELDS: Fields<@RC@> = Fields {
        fields: @TEXT@,
    };

    fn text_fields() -> &'static [Field<'static>] {
        @SET_FIELDS@
    }
}

"#;

/// Limits of a type that the library has no name for.
pub const LIMITS: &str = r#"/// The limits of `@NAME@`.
#[derive(Drop)]
pub enum @NAME@Limits {}

impl Limits for @NAME@Limits {
    ghost use Rattle.std.specs.Prelude.{None, Some, false, negsuc, pos, refl};
    ghost use Rattle.rasn_oer.specs.Bounded.{Range};

    ghost LIMITS = { record { value = Some (Range @GHOST_LOW@ @GHOST_HIGH@, false); size = None } };

    const LIMITS: Constraints = Constraints {
        value: Some((
            Bounded::Range {
                start: @LOW@,
                end: @HIGH@,
            },
            false,
        )),
        size: None,
    };

    ghost consistent = { refl };
}

"#;

/// The default of a component, as a type.
pub const DEFAULT: &str = r#"/// The default @TEXT@ of `@NAME@`.
pub struct @NAME@Default@PARAMETER@;

impl DefaultValue<@TYPE@> for @NAME@Default@ARGUMENT@ {
    @USES@

    ghost value = { @GHOST@ };

    fn value(@ALLOC@: Global) -> Result<@TYPE@, AllocError> {
        @CODE@
    }

    fn is_value(other: &@TYPE@) -> bool {
        @TEST@
    }

    ghost admitted = { @ADMITTED@ };

    ghost decides = { λ c k@VALUES@. @DECIDES@ };
}

"#;

/// A name of a type.
pub const ALIAS: &str = r#"@HEAD@pub type @NAME@@CONTENT@ = @TYPE@;

"#;

/// A CHOICE, and the enum of its alternatives.
pub const CHOICE: &str = r#"@HEAD@pub type @NAME@@CONTENT@ = @HOLDER@<@NAME@Alternatives@K@>;

/// The alternatives of `@NAME@`.
#[derive(Debug, PartialEq, Eq, Drop)]
pub enum @NAME@Alternatives@K@ {
@VARIANTS@}

"#;

/// The tables of a CHOICE, and what its alternatives have.
pub const CHOICE_IMPLS: &str = r#"impl@WRITES@ Alternating for @NAME@Alternatives@K@ {
    ghost use Rattle.std.specs.Prelude.{refl};
    ghost use Rattle.rasn_oer.specs.Alternative.{First, Rest};
    ghost use Rattle.@HOME@.@NAME@Alternatives.TheVariants.{@LIST@};
@PARTS@
    type Values = <@NAME@Row@K@ as Alternatives>::Values;

    ghost row_choices = { ⟦<@NAME@Row@K@ as Alternatives>⟧.choices };

    ghost row_are_choices = { ⟦<@NAME@Row@K@ as Alternatives>⟧.are_choices };

    ghost alternative = { elim [ @CASES@ ] };

    const VARIANTS: &'static [Tag] = @ROOTS@;

    const EXTENDED_VARIANTS: Option<&'static [Tag]> = @ADDITIONS@;

    fn root_tags() -> &'static [Tag] {
        @ROOT_TAGS@
    }

    fn addition_tags() -> Option<&'static [Tag]> {
        @ADDITION_TAGS@
    }

    fn from_alternative(value: Self::Values) -> Self {
        @FROM@(value => @NAME@Alternatives: @NAMES@)
    }

    #[inline(always)]
    fn put<E: Choice>(&self, encoder: &mut Encoder<'_>) -> Result<(), EncodeError> {
        match self {
@PUTS@        }
    }

    ghost apart = { refl };
}

impl@READS@ TakesAlternative for @NAME@Alternatives@K@ {
    ghost Refuses = { ⟦<@NAME@Row@K@ as ReadsAlternatives>⟧.Refuses };

    fn take<D: Choice>(
        alloc: Global,
        decoder: &mut Decoder<'_>,
        tag: Tag,
    ) -> Result<Self, DecodeError> {
        read_alternative::<Self, @NAME@Row@K@, D>(alloc, decoder, tag)
    }
}

"#;

/// The enum of a part of a CHOICE's alternatives.
pub const PART_TYPE: &str = r#"@DOC@#[derive(@DERIVES@)]
pub enum @NAME@ {
@VARIANTS@}

"#;

/// What a part has by its row.
pub const PART_IMPLS: &str = r#"impl ChoicePart for @NAME@ {
    ghost use Rattle.rasn_oer.specs.Alternative.{First, Rest};
    ghost use Rattle.@HOME@.@NAME@.TheVariants.{@LIST@};

    type Values = <@NAME@Row as Alternatives>::Values;

    ghost row_choices = { ⟦<@NAME@Row as Alternatives>⟧.choices };

    ghost row_are_choices = { ⟦<@NAME@Row as Alternatives>⟧.are_choices };

    ghost alternative = { elim [ @CASES@ ] };

    fn from_alternative(value: Self::Values) -> Self {
        from_row!(value => @NAME@: @LIST@)
    }
}

impl ReadsPart for @NAME@ {
    ghost Refuses = { ⟦<@NAME@Row as ReadsAlternatives>⟧.Refuses };

    fn has(tag: Tag) -> bool {
        @NAME@Row::holds(tag)
    }

    fn take<D: Choice>(
        alloc: Global,
        decoder: &mut Decoder<'_>,
        tag: Tag,
    ) -> Result<Self, DecodeError> {
        read_part::<Self, @NAME@Row, D>(alloc, decoder, tag)
    }
}

"#;

/// What writes a part that a CHOICE's own enum holds.
pub const PART_PUTS: &str = r#"impl PutsPart for @NAME@ {
    fn put<E: Choice>(&self, encoder: &mut Encoder<'_>) -> Result<(), EncodeError> {
        match self {
@PUTS@        }
    }
}

"#;

/// The answer of the goal of a variant that holds a part in `put`.
pub const PART_ANSWER: &str = r#"
pub returns-in-@VARIANT@ : goal.returns-in-@VARIANT@
returns-in-@VARIANT@ g c = rw c.in-@VARIANT@.is c.put@IN@.ensures
"#;

/// The answer of a variant's goal in `put`.
pub const PUT_ANSWER: &str = r#"
pub returns-in-@VARIANT@ : goal.returns-in-@VARIANT@
returns-in-@VARIANT@ g c = rw c.in-@VARIANT@.is (rw c.tag@IN@.ensures at c.put_alternative@IN@.ensures)
"#;

/// An ENUMERATED, and the enum of its values.
pub const ENUMERATED: &str = r#"@DOC@pub type @NAME@ = @HOLDER@<@NAME@Values>;

/// The values of `@NAME@`.
#[derive(Debug, Clone, Copy, PartialEq, Eq)]
pub enum @NAME@Values {
@VARIANTS@}

impl Numbered for @NAME@Values {
    ghost use Rattle.std.specs.Prelude.{pos, negsuc, [], ◌∷◌, refl};
    ghost use Rattle.@HOME@.@NAME@Values.TheVariants.{@LIST@};

    ghost number = { elim [ @NUMBERS@ ] };

    ghost values = { @CHAIN@[] };

    ghost listed = { elim [ @LISTED@ ↦ (refl, refl) ] };

    fn number(self) -> isize {
        self as isize
    }

    fn values() -> &'static [@NAME@Values] {
        @PATHS@
    }
}

"#;

/// A set of objects: the enum of what open types hold, and what reads it.
pub const OBJECTS_TYPE: &str = r#"@DOC@#[derive(Debug, PartialEq, Eq, Drop)]
pub enum @NAME@ {
@VARIANTS@    /// The octets under an id that the set doesn't have.
    Other(OpenOctets),
}

impl @NAME@ {
    ghost use Rattle.std.specs.Prelude.{◌≡◌, ◌≢◌};
    ghost use Rattle.rasn_oer.specs.Open.{IsObject, IsOther};
    ghost use Rattle.@HOME@.@NAME@.TheVariants as @NAME@;

    /// Reads the octets of an open type as the type that the id stands for, all of them in canonical reading.
    ///
    /// Refused as `decode_open_type` refuses them, and for want of memory.
    pub fn read(
        alloc: Global,
        options: DecoderOptions,
        id: u32,
        octets: &OpenOctets,
    ) -> Result<@NAME@, DecodeError>
@CLAUSES@        ensures other { @ELSE@IsOther @NAME@.Other octets.now options.codec result }
    {
        match id {
@CASES@            _ => match other_octets(options, octets) {
                Ok(octets) => Ok(@NAME@::Other(octets)),
                Err(e) => Err(e),
            },
        }
    }
}

"#;

/// A variant of it.
pub const OBJECT_VARIANT: &str = r#"@NOTE@    /// Under the id @NUMBER@.
    @VARIANT@(@TYPE@),
"#;

/// What is promised of an object's id.
pub const OBJECT_CLAUSE: &str =
    r#"        ensures in_@VARIANT@ { id ≡ @NUMBER@ → IsObject (⟦<@TYPE@ as Spelled>⟧.tree ⟦<@TYPE@ as AsnType>⟧.CONSTRAINTS) ⟦<@TYPE@ as Spelled>⟧.IsValue @NAME@.@VARIANT@ (⟦<@TYPE@ as Decode>⟧.Answered ⟦<@TYPE@ as AsnType>⟧.CONSTRAINTS) options.codec options.levels octets.now.0 result }
"#;

/// How it is read.
pub const OBJECT_CASE: &str =
    r#"            @NUMBER@ => match decode_open_type(alloc, options, octets) {
                Ok(value) => Ok(@NAME@::@VARIANT@(value)),
                Err(e) => Err(e),
            },
"#;

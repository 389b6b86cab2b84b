//! What is printed of types that contain one another: between two `@` stands a word that is put in.

/// The type that a cycle is cut at.
pub const KNOT: &str = r#"@DOC@#[derive(Debug, PartialEq, Eq, Drop)]
pub struct @NAME@(pub @NAME@Content<@NAME@>);

/// What a `@NAME@` holds.
"#;

/// Another type of a cycle.
pub const MEMBER: &str = r#"@DOC@pub type @NAME@ = @NAME@Content<@KNOT@>;

/// A `@NAME@` with `K` in the place of `@KNOT@`.
"#;

/// The components of a struct as a row, by the knots that they hold.
pub const KNOT_ROWED: &str = r#"impl<K> KnotRowed<K> for @NAME@Components<K> {
    ghost use Rattle.rasn_oer.specs.Values.{both};

    type KnotValues = <@NAME@Row<K> as KnotRow<K>>::Values;

    ghost extended = { ⟦<@NAME@Row<K> as KnotRow<K>>⟧.EXTENSIBLE };

    ghost knot_schema = { ⟦<@NAME@Row<K> as KnotRow<K>>⟧.schema };

    ghost knot_weight = { ⟦<@NAME@Row<K> as KnotRow<K>>⟧.weight };

    ghost knot_ties = { ⟦<@NAME@Row<K> as KnotRow<K>>⟧.ties };

    ghost knot_components = { λ v. @PAIRS@ };
}

impl<K: Encode> TakesKnot<K> for @NAME@Components<K> {
    ghost refusing = { ⟦<@NAME@Row<K> as ReadsKnot<K>>⟧.refusing };

    fn take_knot<F: Fn(&mut Decoder<'_>) -> Result<K, DecodeError>>(
        alloc: Global,
        decoder: &mut Decoder<'_>,
        knot: &F,
    ) -> Result<Self, DecodeError> {
        read_knot_row::<K, Self, @NAME@Row<K>, F>(alloc, decoder, knot)
    }
}

"#;

/// The alternatives of an enum as a row, by the knots that they hold.
pub const KNOT_ALTERNATING: &str = r#"impl<K> KnotAlternating<K> for @NAME@Alternatives<K> {
    ghost use Rattle.std.specs.Prelude.{refl};
    ghost use Rattle.rasn_oer.specs.Alternative.{First, Rest};
    ghost use Rattle.@CRATE@.specs.@KNOT@Weights.{@SNAKE@_weight};
    ghost use Rattle.@HOME@.@NAME@Alternatives.TheVariants.{@LIST@};

    type KnotValues = <@NAME@Row<K> as KnotAlternatives<K>>::Values;

    ghost knot_choices = { ⟦<@NAME@Row<K> as KnotAlternatives<K>>⟧.choices };

    ghost knot_weight = { ⟦<@NAME@Row<K> as KnotAlternatives<K>>⟧.weight };

    ghost knot_ties = { ⟦<@NAME@Row<K> as KnotAlternatives<K>>⟧.ties };

    ghost knot_alternative = { elim [ @CASES@ ] };

    ghost variant_weight = { @SNAKE@_weight };

    ghost weighs = { λ size. elim [ @WEIGHED@ ] };
}

impl<K: Encode> TakesKnotAlternative<K> for @NAME@Alternatives<K> {
    ghost refusing = { ⟦<@NAME@Row<K> as ReadsKnotAlternatives<K>>⟧.refusing };

    fn take_knot<D: Choice, F: Fn(&mut Decoder<'_>) -> Result<K, DecodeError>>(
        alloc: Global,
        decoder: &mut Decoder<'_>,
        tag: Tag,
        knot: &F,
    ) -> Result<Self, DecodeError> {
        read_knot_alternative::<K, Self, @NAME@Row<K>, D, F>(alloc, decoder, tag, knot)
    }
}

"#;

/// What the file of a knot names in front of its types.
pub const KNOT_USES: &str = r#"ghost use Rattle.std.specs.Prelude.{OnOk, IfErr};
ghost use Rattle.oer_write.specs.Written.{Encodes, Refused};
ghost use Rattle.asn1_core.specs.declared.constraints.TheConstants.Constraints.{NONE};
"#;

/// What a knot has of the codec's traits.
pub const KNOT_IMPLS: &str = r#"impl AsnType for @NAME@ {
    ghost use Rattle.std.specs.Prelude.{refl};
    ghost use Rattle.asn1_core.specs.declared.tag.TheConstants.Tag.{@TAG@};
    ghost use Rattle.asn1_core.specs.declared.constraints.TheConstants.Constraints.{NONE};

    ghost TAG = { @TAG@ };

    const TAG: Tag = Tag::@TAG@;

    ghost CONSTRAINTS = { NONE };

    const CONSTRAINTS: Constraints = Constraints::NONE;

    ghost consistent = { refl };
@IS_CHOICE@}

impl Spelled for @NAME@ {
    ghost use Rattle.rasn_oer.specs.Knots.{knot_tree, IsKnot, knot_typed};
@USES@
    ghost tree = { λ c v. knot_tree @TIED@ v };

    ghost IsValue = { IsKnot @TIED@ };

    ghost is_tree = { λ c k v i. (knot_typed @WEIGHED@).is v i };

    ghost alike = { λ c k v w i j. (knot_typed @WEIGHED@).like v w i j };
}

impl Layered for @NAME@ {
    ghost use Rattle.rasn_oer.specs.Knots.{knot, knot_layers, layer};
@USES@
    ghost inner = { layer @TIED@ (knot @TIED@) };

    ghost layers = { knot_layers @WEIGHED@ };
}

/// Writes what a `@NAME@` holds.
#[inline(always)]
fn encode_@SNAKE@<K: Encode>(
    inner: &@NAME@Content<K>,
    encoder: &mut Encoder<'_>,
    tag: Tag,
) -> Result<(), EncodeError>
    ensures done { OnOk result (Encodes (⟦<@NAME@Content<K> as Spelled>⟧.tree NONE inner.now) encoder.old encoder.new) }
    ensures value { OnOk result (⟦<@NAME@Content<K> as Spelled>⟧.IsValue inner.now) }
    ensures refused { IfErr result (λ x. Refused (⟦<@NAME@Content<K> as Spelled>⟧.tree NONE inner.now) x encoder.old encoder.new) }
{
    inner.encode_with_tag(encoder, tag)
}

impl Encode for @NAME@ {
    #[inline(always)]
    fn encode_with_tag_and_constraints(
        &self,
        encoder: &mut Encoder<'_>,
        tag: Tag,
        _constraints: Constraints,
    ) -> Result<(), EncodeError> {
        layer_of::<@NAME@>(self);
        encode_@SNAKE@::<@NAME@>(&self.0, encoder, tag)
    }
}

impl Knot<@NAME@Content<@NAME@>> for @NAME@ {
    ghost use Rattle.rasn_oer.specs.Knots.{knot_layered};
@USES@
    ghost content = { λ v. (out-@NAME@ v).0 };

    fn from_content(inner: @NAME@Content<@NAME@>) -> @NAME@ {
        @NAME@(inner)
    }

    ghost layered = { knot_layered @WEIGHED@ };
}

impl Decode for @NAME@ {
    ghost use Rattle.rasn_oer.specs.Answering.{KnotAnswers};

    ghost Answered = { λ c s r t. KnotAnswers ⟦<@NAME@ as Knot<@NAME@Content<@NAME@>>>⟧.content ⟦<@NAME@Content<@NAME@> as DecodeKnot<@NAME@>>⟧.answering s r t };

    fn decode_with_tag_and_constraints(
        alloc: Global,
        decoder: &mut Decoder<'_>,
        tag: Tag,
        _constraints: Constraints,
    ) -> Result<@NAME@, DecodeError> {
        @READER@(alloc, decoder, tag)
    }
}

"#;

/// What reads a knot by its content.
pub const READER: &str = "decode_knotted::<@NAME@Content<Self>, Self>";

/// What reads a knot that is a list of itself.
pub const LIST_READER: &str = "decode_list_of_itself::<Bare<Self>, Self>";

/// That a knot is a CHOICE.
pub const IS_CHOICE: &str = r#"
    const IS_CHOICE: bool = true;
"#;

/// What the definitions of a knot name.
pub const OWN_USES: &str = r#"    ghost use Rattle.@CRATE@.specs.@NAME@Weights.{@SNAKE@_smaller};
    ghost use Rattle.@HOME@.@NAME@.{out-@NAME@, size-@NAME@};
"#;

/// How a knot's trees follow from those of what it holds.
pub const TIED: &str =
    "size-@NAME@ (λ v. (out-@NAME@ v).0) ⟦<@NAME@Content<@NAME@> as HoldsKnot<@NAME@>>⟧.tied";

/// The same, with what a value's content weighs.
pub const WEIGHED: &str =
    "@TIED@ ⟦<@NAME@Content<@NAME@> as HoldsKnot<@NAME@>>⟧.weight (record { ties = ⟦<@NAME@Content<@NAME@> as HoldsKnot<@NAME@>>⟧.ties; smaller = @SNAKE@_smaller })";

/// The definitions of a cycle: what its values weigh.
pub const WEIGHTS: &str = r#"-- What a value of `@NAME@` holds weighs less than it does.
use Rattle.std.specs.Prelude.{◌<◌, ℕ@MAX@}
use Rattle.std.proofs.Common.{arith}
@USES@use Rattle.@HOME@.@NAME@.{@NAME@, out-@NAME@, size-@NAME@, size_is-@NAME@}

@WEIGHTS@pub @SNAKE@_smaller : (v : @NAME@) → @WEIGHT@ < size-@NAME@ v
@SNAKE@_smaller v = grind (arith, size_is-@NAME@ v)
"#;

/// The proof that a knot writes what it says.
pub const ANSWERS: &str =
    r#"use Rattle.@CRATE@.proofs.@MODULE@.@NAME@Encode.+encode_with_tag_and_constraints.Goals as goal

pub returns-clause-done : goal.returns-clause-done
returns-clause-done t c = c.layer_of.ensures.done _ _ _ c.encode_@SNAKE@.ensures.done

pub returns-clause-value : goal.returns-clause-value
returns-clause-value t c = c.layer_of.ensures.value _ c.encode_@SNAKE@.ensures.value

pub returns-clause-refused : goal.returns-clause-refused
returns-clause-refused t c = c.layer_of.ensures.refused _ _ _ c.encode_@SNAKE@.ensures.refused
"#;

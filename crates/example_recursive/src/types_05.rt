//! Types of ASN.1 modules, as oergen printed them.

use crate::{Mark, MarkAlternatives, Node, Range, RangeComponents, Serial, State, StateValues};
use oer_kept::KeptEnumeration;
use rasn_oer::prelude::*;
use std::alloc::{AllocError, Global};

/// The default -1 of `SettingRangeDefaultLow`.
pub struct SettingRangeDefaultLowDefault;

impl DefaultValue<i8> for SettingRangeDefaultLowDefault {
    ghost use Rattle.std.specs.Prelude.{negsuc, pos, refl};
    ghost use Rattle.rasn_oer.specs.Spelled.{integers_same};

    ghost value = { (negsuc 0) };

    fn value(_alloc: Global) -> Result<i8, AllocError> {
        Ok(-1)
    }

    fn is_value(other: &i8) -> bool {
        *other == -1
    }

    ghost admitted = { refl };

    ghost decides = { λ c k v i. integers_same c v _ };
}

/// The default read of `SettingRangeDefaultState`.
pub struct SettingRangeDefaultStateDefault;

impl DefaultValue<State> for SettingRangeDefaultStateDefault {
    ghost use Rattle.example_recursive.specs.declared.types_03.StateValues.TheVariants.{Read};
    ghost use Rattle.std.specs.Prelude.{refl};
    ghost use Rattle.oer_kept.specs.KeptNumbers.{kept_same};
    ghost use Rattle.oer_kept.specs.declared.enumerations.KeptEnumeration.TheVariants.{Known};

    ghost value = { Known Read };

    fn value(_alloc: Global) -> Result<State, AllocError> {
        Ok(KeptEnumeration::Known(StateValues::Read))
    }

    fn is_value(other: &State) -> bool {
        *other == KeptEnumeration::Known(StateValues::Read)
    }

    ghost admitted = { (refl, refl) };

    ghost decides = { λ c k v i. kept_same ⟦<StateValues as Numbered>⟧.number ⟦<StateValues as Numbered>⟧.values v (Known Read) i (refl, refl) };
}

/// The default none : NULL of `SettingRangeDefaultKind`.
pub struct SettingRangeDefaultKindDefault<const ALTERNATIVE: usize>;

impl DefaultValue<Mark> for SettingRangeDefaultKindDefault<0> {
    ghost use Rattle.std.specs.Prelude.{◌∷◌, [], None, Some, false, true, refl};
    ghost use Rattle.rasn_oer.specs.Chosen.{alternative_same, chosen_same, other_alternative};
    ghost use Rattle.rasn_oer.specs.Compared.{absent_same, also_same, default_by, given_same, no_rows_by, nothing_same, omitted_same, optional_by, parts_same, present_same, required_by, struct_by};
    ghost use Rattle.rasn_oer.specs.EmptyLists.{empty_listed};
    ghost use Rattle.rasn_oer.specs.Literals.{spelled, written};
    ghost use Rattle.rasn_oer.specs.Numbered.{numbers_same};
    ghost use Rattle.rasn_oer.specs.Spelled.{beside_nothing, bit_strings_same, booleans_same, integers_same, named_bit_strings_same, naturals_same, nulls_same, texts_same};
    ghost use Rattle.rasn_oer.specs.Texts as texts;
    ghost use Rattle.example_recursive.specs.declared.types_04.MarkAlternatives.TheVariants as MarkAlternatives;

    ghost value = { record { 0 = MarkAlternatives.None (tt) } };

    fn value(alloc: Global) -> Result<Mark, AllocError> {
        alternative_value![OneOf MarkAlternatives::None in alloc: IsNull as ()]
    }

    fn is_value(other: &Mark) -> bool {
        is_alternative![other: MarkAlternatives::None IsNull as ()]
    }

    ghost admitted = { (refl, tt) };

    ghost decides = { λ c k. chosen_same (⟦<Mark as Spelled>⟧.tree c) ⟦<Mark as Spelled>⟧.IsValue ⟦<Mark as PartialEq>⟧.eq (record { 0 = MarkAlternatives.None (tt) }) (elim [ MarkAlternatives.None held ↦ λ (e, i). alternative_same _ _ _ _ _ _ (given_same (⟦<() as Spelled>⟧.tree ⟦<() as AsnType>⟧.CONSTRAINTS) ⟦<() as Spelled>⟧.IsValue ⟦<() as PartialEq>⟧.eq (tt) (λ v i. (λ e. nulls_same v tt, λ s. refl)) held i) | MarkAlternatives.Text held ↦ λ i. other_alternative _ _ _ _ _ _ refl | MarkAlternatives.Number held ↦ λ i. other_alternative _ _ _ _ _ _ refl ]) };
}

/// The default { low -1, state read } of `SettingRange`.
pub struct SettingRangeDefault;

impl DefaultValue<Range> for SettingRangeDefault {
    ghost use Rattle.std.specs.Prelude.{◌∷◌, [], None, Some, false, true, refl};
    ghost use Rattle.rasn_oer.specs.Chosen.{alternative_same, chosen_same, other_alternative};
    ghost use Rattle.rasn_oer.specs.Compared.{absent_same, also_same, default_by, given_same, no_rows_by, nothing_same, omitted_same, optional_by, parts_same, present_same, required_by, struct_by};
    ghost use Rattle.rasn_oer.specs.EmptyLists.{empty_listed};
    ghost use Rattle.rasn_oer.specs.Literals.{spelled, written};
    ghost use Rattle.rasn_oer.specs.Numbered.{numbers_same};
    ghost use Rattle.rasn_oer.specs.Spelled.{beside_nothing, bit_strings_same, booleans_same, integers_same, named_bit_strings_same, naturals_same, nulls_same, texts_same};
    ghost use Rattle.rasn_oer.specs.Texts as texts;
    ghost use Rattle.oer_kept.specs.KeptNumbers.{kept_same};
    ghost use Rattle.example_recursive.specs.declared.types_04.MarkAlternatives.TheVariants as MarkAlternatives;

    ghost value = { record { 0 = record { high = None; low = record { 0 = ⟦<SettingRangeDefaultLowDefault as DefaultValue<i8>>⟧.value; 1 = record {} }; state = ⟦<SettingRangeDefaultStateDefault as DefaultValue<State>>⟧.value; kind = ⟦<SettingRangeDefaultKindDefault<0> as DefaultValue<Mark>>⟧.value } } };

    fn value(alloc: Global) -> Result<Range, AllocError> {
        parts_value![Set RangeComponents in alloc:
            high [none u8],
            low [Within<SettingRangeDefaultLowDefault> as Limited<i8, Between< -8, 7>>],
            state [SettingRangeDefaultStateDefault as State],
            kind [SettingRangeDefaultKindDefault<0> as Mark]
        ]
    }

    fn is_value(other: &Range) -> bool {
        parts_are![other:
            high [none u8],
            low [Within<SettingRangeDefaultLowDefault> as Limited<i8, Between< -8, 7>>],
            state [SettingRangeDefaultStateDefault as State],
            kind [SettingRangeDefaultKindDefault<0> as Mark]
        ]
    }

    ghost admitted = { record { in_order = refl; is_of = ((refl, (tt, ((refl, refl), (record { value = (refl, tt); is_tree = ⟦<Mark as Spelled>⟧.is_tree ⟦<Mark as AsnType>⟧.CONSTRAINTS refl; alike = ⟦<Mark as Spelled>⟧.alike ⟦<Mark as AsnType>⟧.CONSTRAINTS refl; decides = chosen_same (⟦<Mark as Spelled>⟧.tree ⟦<Mark as AsnType>⟧.CONSTRAINTS) ⟦<Mark as Spelled>⟧.IsValue ⟦<Mark as PartialEq>⟧.eq (record { 0 = MarkAlternatives.None (tt) }) (elim [ MarkAlternatives.None held ↦ λ (e, i). alternative_same _ _ _ _ _ _ (given_same (⟦<() as Spelled>⟧.tree ⟦<() as AsnType>⟧.CONSTRAINTS) ⟦<() as Spelled>⟧.IsValue ⟦<() as PartialEq>⟧.eq (tt) (λ v i. (λ e. nulls_same v tt, λ s. refl)) held i) | MarkAlternatives.Text held ↦ λ i. other_alternative _ _ _ _ _ _ refl | MarkAlternatives.Number held ↦ λ i. other_alternative _ _ _ _ _ _ refl ]) }, (λ e. (refl, tt)), tt)))), tt) } };

    ghost decides = { λ c k v i. let record { in_order = _; is_of = ((i1, (i0, (i2, (_, i3, _)))), _) } = i in parts_same (also_same (absent_same (⟦<u8 as Spelled>⟧.tree ⟦<u8 as AsnType>⟧.CONSTRAINTS) ⟦<u8 as PartialEq>⟧.eq v.0.high) (also_same (given_same (⟦<Limited<i8, Between<-8, 7>> as Spelled>⟧.tree ⟦<Limited<i8, Between<-8, 7>> as AsnType>⟧.CONSTRAINTS) ⟦<Limited<i8, Between<-8, 7>> as Spelled>⟧.IsValue ⟦<Limited<i8, Between<-8, 7>> as PartialEq>⟧.eq (record { 0 = ⟦<SettingRangeDefaultLowDefault as DefaultValue<i8>>⟧.value; 1 = record {} }) (λ v i. beside_nothing _ (let v = v.0 in integers_same _ v _)) v.0.low i1) (also_same (given_same (⟦<State as Spelled>⟧.tree ⟦<State as AsnType>⟧.CONSTRAINTS) ⟦<State as Spelled>⟧.IsValue ⟦<State as PartialEq>⟧.eq (⟦<SettingRangeDefaultStateDefault as DefaultValue<State>>⟧.value) (λ v i. kept_same ⟦<StateValues as Numbered>⟧.number ⟦<StateValues as Numbered>⟧.values v ⟦<SettingRangeDefaultStateDefault as DefaultValue<State>>⟧.value i (refl, refl)) v.0.state i2) (omitted_same (⟦<Mark as PartialEq>⟧.eq v.0.kind (⟦<SettingRangeDefaultKindDefault<0> as DefaultValue<Mark>>⟧.value)) ((⟦<Mark as Spelled>⟧.tree ⟦<Mark as AsnType>⟧.CONSTRAINTS) v.0.kind))))) (struct_by (optional_by (required_by (required_by (default_by no_rows_by)))) no_rows_by) (λ (x0, (x1, (x2, x3))). ((x0, (x1, (x2, (x3, tt)))), tt)) (λ ((x0, (x1, (x2, (x3, _)))), _). (x0, (x1, (x2, x3)))) };
}

/// The default "e" of `SettingMarkDefaultText`.
pub struct SettingMarkDefaultTextDefault;

impl DefaultValue<Utf8Text> for SettingMarkDefaultTextDefault {
    ghost use Rattle.std.specs.Prelude.{◌∷◌, [], refl};
    ghost use Rattle.rasn_oer.specs.Literals.{written, spelled};
    ghost use Rattle.rasn_oer.specs.Spelled.{texts_same};
    ghost use Rattle.rasn_oer.specs.Texts as texts;

    ghost value = { (101 ∷ []) };

    fn value(alloc: Global) -> Result<Utf8Text, AllocError> {
        let octets: [u8; 1] = [0x65];
        utf8_from(alloc, &octets)
    }

    fn is_value(other: &Utf8Text) -> bool {
        let octets: [u8; 1] = [0x65];
        other.0.as_bytes() == octets.as_slice()
    }

    ghost admitted = { written texts.Utf8 (101 ∷ []) refl (spelled (101 ∷ []) refl) };

    ghost decides = { λ c k v i. texts_same texts.Utf8 c v _ };
}

/// The default text : "e" of `SettingMark`.
pub struct SettingMarkDefault<const ALTERNATIVE: usize>;

#[rattlefmt::skip]
impl DefaultValue<Mark> for SettingMarkDefault<1> {
    ghost use Rattle.std.specs.Prelude.{◌∷◌, [], None, Some, false, true, refl};
    ghost use Rattle.rasn_oer.specs.Chosen.{alternative_same, chosen_same, other_alternative};
    ghost use Rattle.rasn_oer.specs.Compared.{absent_same, also_same, default_by, given_same, no_rows_by, nothing_same, omitted_same, optional_by, parts_same, present_same, required_by, struct_by};
    ghost use Rattle.rasn_oer.specs.EmptyLists.{empty_listed};
    ghost use Rattle.rasn_oer.specs.Literals.{spelled, written};
    ghost use Rattle.rasn_oer.specs.Numbered.{numbers_same};
    ghost use Rattle.rasn_oer.specs.Spelled.{beside_nothing, bit_strings_same, booleans_same, integers_same, named_bit_strings_same, naturals_same, nulls_same, texts_same};
    ghost use Rattle.rasn_oer.specs.Texts as texts;
    ghost use Rattle.example_recursive.specs.declared.types_04.MarkAlternatives.TheVariants as MarkAlternatives;

    ghost value = { record { 0 = MarkAlternatives.Text (⟦<SettingMarkDefaultTextDefault as DefaultValue<Utf8Text>>⟧.value) } };

    fn value(alloc: Global) -> Result<Mark, AllocError> {
        alternative_value![OneOf MarkAlternatives::Text in alloc: SettingMarkDefaultTextDefault as Utf8Text]
    }

    fn is_value(other: &Mark) -> bool {
        is_alternative![other: MarkAlternatives::Text SettingMarkDefaultTextDefault as Utf8Text]
    }

    ghost admitted = { (refl, written texts.Utf8 (101 ∷ []) refl (spelled (101 ∷ []) refl)) };

    ghost decides = { λ c k. chosen_same (⟦<Mark as Spelled>⟧.tree c) ⟦<Mark as Spelled>⟧.IsValue ⟦<Mark as PartialEq>⟧.eq (record { 0 = MarkAlternatives.Text (⟦<SettingMarkDefaultTextDefault as DefaultValue<Utf8Text>>⟧.value) }) (elim [ MarkAlternatives.None held ↦ λ i. other_alternative _ _ _ _ _ _ refl | MarkAlternatives.Text held ↦ λ (e, i). alternative_same _ _ _ _ _ _ (given_same (⟦<Utf8Text as Spelled>⟧.tree ⟦<Utf8Text as AsnType>⟧.CONSTRAINTS) ⟦<Utf8Text as Spelled>⟧.IsValue ⟦<Utf8Text as PartialEq>⟧.eq (⟦<SettingMarkDefaultTextDefault as DefaultValue<Utf8Text>>⟧.value) (λ v i. texts_same texts.Utf8 _ v _) held i) | MarkAlternatives.Number held ↦ λ i. other_alternative _ _ _ _ _ _ refl ]) };
}

/// The default 9 of `SettingLastDefaultHigh`.
pub struct SettingLastDefaultHighDefault;

impl DefaultValue<u8> for SettingLastDefaultHighDefault {
    ghost use Rattle.std.specs.Prelude.{negsuc, pos, refl};
    ghost use Rattle.rasn_oer.specs.Spelled.{naturals_same};

    ghost value = { 9 };

    fn value(_alloc: Global) -> Result<u8, AllocError> {
        Ok(9)
    }

    fn is_value(other: &u8) -> bool {
        *other == 9
    }

    ghost admitted = { refl };

    ghost decides = { λ c k v i. naturals_same c v _ };
}

/// The default 7 of `SettingLastDefaultLow`.
pub struct SettingLastDefaultLowDefault;

impl DefaultValue<i8> for SettingLastDefaultLowDefault {
    ghost use Rattle.std.specs.Prelude.{negsuc, pos, refl};
    ghost use Rattle.rasn_oer.specs.Spelled.{integers_same};

    ghost value = { (pos 7) };

    fn value(_alloc: Global) -> Result<i8, AllocError> {
        Ok(7)
    }

    fn is_value(other: &i8) -> bool {
        *other == 7
    }

    ghost admitted = { refl };

    ghost decides = { λ c k v i. integers_same c v _ };
}

/// The default sent of `SettingLastDefaultState`.
pub struct SettingLastDefaultStateDefault;

impl DefaultValue<State> for SettingLastDefaultStateDefault {
    ghost use Rattle.example_recursive.specs.declared.types_03.StateValues.TheVariants.{Sent};
    ghost use Rattle.std.specs.Prelude.{refl};
    ghost use Rattle.oer_kept.specs.KeptNumbers.{kept_same};
    ghost use Rattle.oer_kept.specs.declared.enumerations.KeptEnumeration.TheVariants.{Known};

    ghost value = { Known Sent };

    fn value(_alloc: Global) -> Result<State, AllocError> {
        Ok(KeptEnumeration::Known(StateValues::Sent))
    }

    fn is_value(other: &State) -> bool {
        *other == KeptEnumeration::Known(StateValues::Sent)
    }

    ghost admitted = { (refl, refl) };

    ghost decides = { λ c k v i. kept_same ⟦<StateValues as Numbered>⟧.number ⟦<StateValues as Numbered>⟧.values v (Known Sent) i (refl, refl) };
}

/// The default none : NULL of `SettingLastDefaultKind`.
pub struct SettingLastDefaultKindDefault<const ALTERNATIVE: usize>;

impl DefaultValue<Mark> for SettingLastDefaultKindDefault<0> {
    ghost use Rattle.std.specs.Prelude.{◌∷◌, [], None, Some, false, true, refl};
    ghost use Rattle.rasn_oer.specs.Chosen.{alternative_same, chosen_same, other_alternative};
    ghost use Rattle.rasn_oer.specs.Compared.{absent_same, also_same, default_by, given_same, no_rows_by, nothing_same, omitted_same, optional_by, parts_same, present_same, required_by, struct_by};
    ghost use Rattle.rasn_oer.specs.EmptyLists.{empty_listed};
    ghost use Rattle.rasn_oer.specs.Literals.{spelled, written};
    ghost use Rattle.rasn_oer.specs.Numbered.{numbers_same};
    ghost use Rattle.rasn_oer.specs.Spelled.{beside_nothing, bit_strings_same, booleans_same, integers_same, named_bit_strings_same, naturals_same, nulls_same, texts_same};
    ghost use Rattle.rasn_oer.specs.Texts as texts;
    ghost use Rattle.example_recursive.specs.declared.types_04.MarkAlternatives.TheVariants as MarkAlternatives;

    ghost value = { record { 0 = MarkAlternatives.None (tt) } };

    fn value(alloc: Global) -> Result<Mark, AllocError> {
        alternative_value![OneOf MarkAlternatives::None in alloc: IsNull as ()]
    }

    fn is_value(other: &Mark) -> bool {
        is_alternative![other: MarkAlternatives::None IsNull as ()]
    }

    ghost admitted = { (refl, tt) };

    ghost decides = { λ c k. chosen_same (⟦<Mark as Spelled>⟧.tree c) ⟦<Mark as Spelled>⟧.IsValue ⟦<Mark as PartialEq>⟧.eq (record { 0 = MarkAlternatives.None (tt) }) (elim [ MarkAlternatives.None held ↦ λ (e, i). alternative_same _ _ _ _ _ _ (given_same (⟦<() as Spelled>⟧.tree ⟦<() as AsnType>⟧.CONSTRAINTS) ⟦<() as Spelled>⟧.IsValue ⟦<() as PartialEq>⟧.eq (tt) (λ v i. (λ e. nulls_same v tt, λ s. refl)) held i) | MarkAlternatives.Text held ↦ λ i. other_alternative _ _ _ _ _ _ refl | MarkAlternatives.Number held ↦ λ i. other_alternative _ _ _ _ _ _ refl ]) };
}

/// The default { high 9, low 7, state sent } of `SettingLast`.
pub struct SettingLastDefault;

impl DefaultValue<Range> for SettingLastDefault {
    ghost use Rattle.std.specs.Prelude.{◌∷◌, [], None, Some, false, true, refl};
    ghost use Rattle.rasn_oer.specs.Chosen.{alternative_same, chosen_same, other_alternative};
    ghost use Rattle.rasn_oer.specs.Compared.{absent_same, also_same, default_by, given_same, no_rows_by, nothing_same, omitted_same, optional_by, parts_same, present_same, required_by, struct_by};
    ghost use Rattle.rasn_oer.specs.EmptyLists.{empty_listed};
    ghost use Rattle.rasn_oer.specs.Literals.{spelled, written};
    ghost use Rattle.rasn_oer.specs.Numbered.{numbers_same};
    ghost use Rattle.rasn_oer.specs.Spelled.{beside_nothing, bit_strings_same, booleans_same, integers_same, named_bit_strings_same, naturals_same, nulls_same, texts_same};
    ghost use Rattle.rasn_oer.specs.Texts as texts;
    ghost use Rattle.oer_kept.specs.KeptNumbers.{kept_same};
    ghost use Rattle.example_recursive.specs.declared.types_04.MarkAlternatives.TheVariants as MarkAlternatives;

    ghost value = { record { 0 = record { high = Some (⟦<SettingLastDefaultHighDefault as DefaultValue<u8>>⟧.value); low = record { 0 = ⟦<SettingLastDefaultLowDefault as DefaultValue<i8>>⟧.value; 1 = record {} }; state = ⟦<SettingLastDefaultStateDefault as DefaultValue<State>>⟧.value; kind = ⟦<SettingLastDefaultKindDefault<0> as DefaultValue<Mark>>⟧.value } } };

    fn value(alloc: Global) -> Result<Range, AllocError> {
        parts_value![Set RangeComponents in alloc:
            high [some SettingLastDefaultHighDefault as u8],
            low [Within<SettingLastDefaultLowDefault> as Limited<i8, Between< -8, 7>>],
            state [SettingLastDefaultStateDefault as State],
            kind [SettingLastDefaultKindDefault<0> as Mark]
        ]
    }

    fn is_value(other: &Range) -> bool {
        parts_are![other:
            high [some SettingLastDefaultHighDefault as u8],
            low [Within<SettingLastDefaultLowDefault> as Limited<i8, Between< -8, 7>>],
            state [SettingLastDefaultStateDefault as State],
            kind [SettingLastDefaultKindDefault<0> as Mark]
        ]
    }

    ghost admitted = { record { in_order = refl; is_of = ((refl, (refl, ((refl, refl), (record { value = (refl, tt); is_tree = ⟦<Mark as Spelled>⟧.is_tree ⟦<Mark as AsnType>⟧.CONSTRAINTS refl; alike = ⟦<Mark as Spelled>⟧.alike ⟦<Mark as AsnType>⟧.CONSTRAINTS refl; decides = chosen_same (⟦<Mark as Spelled>⟧.tree ⟦<Mark as AsnType>⟧.CONSTRAINTS) ⟦<Mark as Spelled>⟧.IsValue ⟦<Mark as PartialEq>⟧.eq (record { 0 = MarkAlternatives.None (tt) }) (elim [ MarkAlternatives.None held ↦ λ (e, i). alternative_same _ _ _ _ _ _ (given_same (⟦<() as Spelled>⟧.tree ⟦<() as AsnType>⟧.CONSTRAINTS) ⟦<() as Spelled>⟧.IsValue ⟦<() as PartialEq>⟧.eq (tt) (λ v i. (λ e. nulls_same v tt, λ s. refl)) held i) | MarkAlternatives.Text held ↦ λ i. other_alternative _ _ _ _ _ _ refl | MarkAlternatives.Number held ↦ λ i. other_alternative _ _ _ _ _ _ refl ]) }, (λ e. (refl, tt)), tt)))), tt) } };

    ghost decides = { λ c k v i. let record { in_order = _; is_of = ((i1, (i0, (i2, (_, i3, _)))), _) } = i in parts_same (also_same (present_same (⟦<u8 as Spelled>⟧.tree ⟦<u8 as AsnType>⟧.CONSTRAINTS) ⟦<u8 as PartialEq>⟧.eq ⟦<u8 as Spelled>⟧.IsValue (⟦<SettingLastDefaultHighDefault as DefaultValue<u8>>⟧.value) (λ v i. naturals_same _ v _) v.0.high i0) (also_same (given_same (⟦<Limited<i8, Between<-8, 7>> as Spelled>⟧.tree ⟦<Limited<i8, Between<-8, 7>> as AsnType>⟧.CONSTRAINTS) ⟦<Limited<i8, Between<-8, 7>> as Spelled>⟧.IsValue ⟦<Limited<i8, Between<-8, 7>> as PartialEq>⟧.eq (record { 0 = ⟦<SettingLastDefaultLowDefault as DefaultValue<i8>>⟧.value; 1 = record {} }) (λ v i. beside_nothing _ (let v = v.0 in integers_same _ v _)) v.0.low i1) (also_same (given_same (⟦<State as Spelled>⟧.tree ⟦<State as AsnType>⟧.CONSTRAINTS) ⟦<State as Spelled>⟧.IsValue ⟦<State as PartialEq>⟧.eq (⟦<SettingLastDefaultStateDefault as DefaultValue<State>>⟧.value) (λ v i. kept_same ⟦<StateValues as Numbered>⟧.number ⟦<StateValues as Numbered>⟧.values v ⟦<SettingLastDefaultStateDefault as DefaultValue<State>>⟧.value i (refl, refl)) v.0.state i2) (omitted_same (⟦<Mark as PartialEq>⟧.eq v.0.kind (⟦<SettingLastDefaultKindDefault<0> as DefaultValue<Mark>>⟧.value)) ((⟦<Mark as Spelled>⟧.tree ⟦<Mark as AsnType>⟧.CONSTRAINTS) v.0.kind))))) (struct_by (optional_by (required_by (required_by (default_by no_rows_by)))) no_rows_by) (λ (x0, (x1, (x2, x3))). ((x0, (x1, (x2, (x3, tt)))), tt)) (λ ((x0, (x1, (x2, (x3, _)))), _). (x0, (x1, (x2, x3)))) };
}

/// Defaults with parts: of a SET whose tags have another order than its text, and of a CHOICE; one has a component's own default.
///
/// `Setting ::= SEQUENCE { range Range DEFAULT { low -1, state read }, mark Mark DEFAULT text : "e", ...,
/// last Range DEFAULT { high 9, low 7, state sent } }`
pub type Setting = Sequence<SettingComponents, 2, 1>;

pub use setting_components::Setting as SettingComponents;

mod setting_components {
    use super::*;

    /// The components of `Setting`.
    #[derive(Clone, Debug, PartialEq, Eq, Drop)]
    pub struct Setting {
        pub range: Range,
        pub mark: Mark,
        pub last: Range,
    }
}

type SettingRow = Defaulted<
    Context<0>,
    Range,
    SettingRangeDefault,
    Defaulted<Context<1>, Mark, SettingMarkDefault<1>, Extensible<SettingAdditions>>,
>;

type SettingAdditions = DefaultedAddition<Context<2>, Range, SettingLastDefault, End>;

impl Rowed for SettingComponents {
    ghost use Rattle.rasn_oer.specs.Values.{both};

    type Values = <SettingRow as Components>::Values;

    ghost EXTENSIBLE = { ⟦<SettingRow as Components>⟧.EXTENSIBLE };

    const EXTENSIBLE: bool = true;

    ghost row_schema = { ⟦<SettingRow as Components>⟧.schema };

    ghost row_is_schema = { ⟦<SettingRow as Components>⟧.is_schema };

    ghost components = { λ v. both v.range (both v.mark (both v.last tt)) };

    fn from_row(row: Self::Values) -> Self {
        built![SettingComponents from row:
            range,
            mark,
            last
        ]
    }
}

impl Takes for SettingComponents {
    ghost Refuses = { ⟦<SettingRow as Reads>⟧.Refuses };

    #[inline(always)]
    fn take(alloc: Global, decoder: &mut Decoder<'_>) -> Result<Self, DecodeError> {
        read_row::<Self, SettingRow>(alloc, decoder)
    }
}

impl Tabled<2, 1> for SettingComponents {
    ghost use Rattle.std.specs.Prelude.{refl};

    const FIELDS: Fields<2> = Fields {
        fields: fields![
            0 Default Context 0 "range",
            1 Default Context 1 "mark"
        ],
    };

    const EXTENDED_FIELDS: Option<Fields<1>> = Some(Fields {
        fields: fields![
            0 Default Context 2 "last"
        ],
    });

    fn root_fields() -> &'static [Field<'static>] {
        Self::FIELDS.fields
    }

    fn addition_fields() -> &'static [Field<'static>] {
        rows_of!(Self::EXTENDED_FIELDS)
    }

    #[inline(always)]
    fn put(&self, encoder: &mut Encoder<'_>) -> Result<(), EncodeError> {
        let view = views![self:
            range,
            mark,
            last
        ];
        SettingRow::write(&view, encoder)
    }

    ghost counts = { (refl, refl) };
}

/// `ExtraId ::= INTEGER (0..255)`
pub type ExtraId = u8;

/// An open type, whose id says what it holds.
///
/// `Extra ::= SEQUENCE { id ExtraId, content ANY }`
pub type Extra = Sequence<ExtraComponents, 2, 0>;

pub use extra_components::Extra as ExtraComponents;

mod extra_components {
    use super::*;

    /// The components of `Extra`.
    #[derive(Clone, Debug, PartialEq, Eq, Drop)]
    pub struct Extra {
        pub id: ExtraId,
        pub content: OpenOctets,
    }
}

type ExtraRow = Required<Context<0>, ExtraId, Required<Context<1>, OpenOctets, End>>;

impl Rowed for ExtraComponents {
    ghost use Rattle.rasn_oer.specs.Values.{both};

    type Values = <ExtraRow as Components>::Values;

    ghost EXTENSIBLE = { ⟦<ExtraRow as Components>⟧.EXTENSIBLE };

    const EXTENSIBLE: bool = false;

    ghost row_schema = { ⟦<ExtraRow as Components>⟧.schema };

    ghost row_is_schema = { ⟦<ExtraRow as Components>⟧.is_schema };

    ghost components = { λ v. both v.id (both v.content tt) };

    fn from_row(row: Self::Values) -> Self {
        built![ExtraComponents from row:
            id,
            content
        ]
    }
}

impl Takes for ExtraComponents {
    ghost Refuses = { ⟦<ExtraRow as Reads>⟧.Refuses };

    #[inline(always)]
    fn take(alloc: Global, decoder: &mut Decoder<'_>) -> Result<Self, DecodeError> {
        read_row::<Self, ExtraRow>(alloc, decoder)
    }
}

impl Tabled<2, 0> for ExtraComponents {
    ghost use Rattle.std.specs.Prelude.{refl};

    const FIELDS: Fields<2> = Fields {
        fields: fields![
            0 Required Context 0 "id",
            1 Required Context 1 "content"
        ],
    };

    const EXTENDED_FIELDS: Option<Fields<0>> = None;

    fn root_fields() -> &'static [Field<'static>] {
        Self::FIELDS.fields
    }

    fn addition_fields() -> &'static [Field<'static>] {
        rows_of!(Self::EXTENDED_FIELDS)
    }

    #[inline(always)]
    fn put(&self, encoder: &mut Encoder<'_>) -> Result<(), EncodeError> {
        let view = views![self:
            id,
            content
        ];
        ExtraRow::write(&view, encoder)
    }

    ghost counts = { (refl, refl) };
}

/// What newer versions may add to.
///
/// What an open type of the objects `Extras` holds, by the id beside it.
#[derive(Clone, Debug, PartialEq, Eq, Drop)]
pub enum Extras {
    /// Under the id 1.
    Node(Node),
    /// Under the id 7.
    Stamp(Serial),
    /// how often it was sent
    ///
    /// Under the id 9.
    Id9(u8),
    /// The octets under an id that the set doesn't have.
    Other(OpenOctets),
}

impl Extras {
    ghost use Rattle.std.specs.Prelude.{◌≡◌, ◌≢◌};
    ghost use Rattle.rasn_oer.specs.Open.{IsObject, IsOther};
    ghost use Rattle.example_recursive.specs.declared.types_05.Extras.TheVariants as Extras;

    /// Reads the octets of an open type as the type that the id stands for, all of them in canonical reading.
    ///
    /// Refused as `decode_open_type` refuses them, and for want of memory.
    pub fn read(
        alloc: Global,
        options: DecoderOptions,
        id: u32,
        octets: &OpenOctets,
    ) -> Result<Extras, DecodeError>
        ensures in_Node { id ≡ 1 → IsObject (⟦<Node as Spelled>⟧.tree ⟦<Node as AsnType>⟧.CONSTRAINTS) ⟦<Node as Spelled>⟧.IsValue Extras.Node (⟦<Node as Decode>⟧.Answered ⟦<Node as AsnType>⟧.CONSTRAINTS) options.codec options.levels octets.now.0 result }
        ensures in_Stamp { id ≡ 7 → IsObject (⟦<Serial as Spelled>⟧.tree ⟦<Serial as AsnType>⟧.CONSTRAINTS) ⟦<Serial as Spelled>⟧.IsValue Extras.Stamp (⟦<Serial as Decode>⟧.Answered ⟦<Serial as AsnType>⟧.CONSTRAINTS) options.codec options.levels octets.now.0 result }
        ensures in_Id9 { id ≡ 9 → IsObject (⟦<u8 as Spelled>⟧.tree ⟦<u8 as AsnType>⟧.CONSTRAINTS) ⟦<u8 as Spelled>⟧.IsValue Extras.Id9 (⟦<u8 as Decode>⟧.Answered ⟦<u8 as AsnType>⟧.CONSTRAINTS) options.codec options.levels octets.now.0 result }
        ensures other { id ≢ 1 → id ≢ 7 → id ≢ 9 → IsOther Extras.Other octets.now options.codec result }
    {
        match id {
            1 => match decode_open_type(alloc, options, octets) {
                Ok(value) => Ok(Extras::Node(value)),
                Err(e) => Err(e),
            },
            7 => match decode_open_type(alloc, options, octets) {
                Ok(value) => Ok(Extras::Stamp(value)),
                Err(e) => Err(e),
            },
            9 => match decode_open_type(alloc, options, octets) {
                Ok(value) => Ok(Extras::Id9(value)),
                Err(e) => Err(e),
            },
            _ => match other_octets(options, octets) {
                Ok(octets) => Ok(Extras::Other(octets)),
                Err(e) => Err(e),
            },
        }
    }
}

//! Components with a default: one that equals it is recorded as absent.
ghost use Rattle.std.specs.Prelude.{◌≡◌, true, false, OnOk, IfErr};
ghost use Rattle.oer_spec.specs.Spelled.{IsConsistent};
ghost use Rattle.oer_spec.specs.Tree.{NoRows, present_unless};
ghost use Rattle.oer_write.specs.Rows.{InSequence, InSet, defaulted};

use crate::encode::Encode;
use crate::encoder::Encoder;
use asn1_core::{Constraints, EncodeError, Tag};

impl<'buffer> Encoder<'buffer> {
    /// Writes a component, or nothing where it equals its default, under constraints that stand in place of the type's own.
    ///
    /// Refused by what the value is refused by.
    #[inline(always)]
    pub fn encode_default_with_tag_and_constraints<E: Encode + PartialEq>(
        &mut self,
        tag: Tag,
        constraints: Constraints,
        value: &E,
        default: &E,
    ) -> Result<(), EncodeError>
        requires { IsConsistent constraints }
        ensures in_sequence { InSequence (defaulted tag (E.tree constraints default.now) (present_unless (E.eq value.now default.now) (E.tree constraints value.now))) NoRows self.old result self.new }
        ensures in_set { InSet (defaulted tag (E.tree constraints default.now) (present_unless (E.eq value.now default.now) (E.tree constraints value.now))) NoRows self.old result self.new }
        ensures value { E.eq value.now default.now ≡ false → OnOk result (E.IsValue value.now) }
    {
        if *value == *default {
            self.encode_none_with_tag(tag)
        } else {
            self.encode_some_with_tag_and_constraints(tag, constraints, value)
        }
    }

    /// Writes a component, or nothing where it equals its default, with the type's own tag and constraints.
    ///
    /// Refused by what the value is refused by.
    #[inline(always)]
    pub fn encode_default<E: Encode + PartialEq>(
        &mut self,
        value: &E,
        default: &E,
    ) -> Result<(), EncodeError>
        ensures in_sequence { InSequence (defaulted E.TAG (E.tree E.CONSTRAINTS default.now) (present_unless (E.eq value.now default.now) (E.tree E.CONSTRAINTS value.now))) NoRows self.old result self.new }
        ensures in_set { InSet (defaulted E.TAG (E.tree E.CONSTRAINTS default.now) (present_unless (E.eq value.now default.now) (E.tree E.CONSTRAINTS value.now))) NoRows self.old result self.new }
        ensures value { E.eq value.now default.now ≡ false → OnOk result (E.IsValue value.now) }
    {
        self.encode_default_with_tag_and_constraints(E::TAG, E::CONSTRAINTS, value, default)
    }
}

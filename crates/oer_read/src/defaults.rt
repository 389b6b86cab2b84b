//! Components with a default: it stands for what isn't spelled, and canonically a value that is equal to it isn't spelled.

ghost use Rattle.std.specs.Prelude.{◌≡◌, true, false, OnOk, IfErr};
ghost use Rattle.oer_spec.specs.Spelled.{IsConsistent};
ghost use Rattle.oer_read.specs.Defaults.{only_lenient, AsksDefault};

use crate::decode::Decode;
use crate::decoder::Decoder;
use asn1_core::{Codec, Constraints, DecodeError, DecodeErrorKind, Tag};
use std::alloc::Global;

impl<'input> Decoder<'input> {
    /// Tests that a component's value isn't equal to its default, which canonically isn't spelled (X.696, 16.2 and 18).
    ///
    /// A set's closure asks this of each such value that it read; the methods `decode_default..` do it themselves.
    /// Refused: equal values in canonical mode, as `NotValidCanonicalEncoding`.
    #[inline(always)]
    pub fn refuse_default<D: PartialEq>(&self, value: &D, default: &D) -> Result<(), DecodeError>
        ensures ok { OnOk result (self.now.codec ≡ Codec.Coer → D.eq value.now default.now ≡ false) }
        ensures err { IfErr result (λ e. (self.now.codec ≡ Codec.Coer) × (D.eq value.now default.now ≡ true) × (e ≡ only_lenient self.now)) }
    {
        match self.codec() {
            Codec::Oer => Ok(()),
            Codec::Coer => {
                if *value == *default {
                    Err(self.refusal(DecodeErrorKind::NotValidCanonicalEncoding))
                } else {
                    Ok(())
                }
            }
        }
    }

    /// Reads a component with a default under the handed-in tag and constraints: `default` where the next presence bit is 0.
    ///
    /// Refused, the first that applies: no root row is left to ask, or the next one has another tag, as
    /// `MissingTagClassOrValueInSequenceOrSet` with `tag`; what the type refuses of the value; a value that is equal to
    /// `default` in canonical mode, as `NotValidCanonicalEncoding`.
    #[inline(always)]
    pub fn decode_default_with_tag_and_constraints<D: Decode + PartialEq>(
        &mut self,
        alloc: Global,
        tag: Tag,
        constraints: Constraints,
        default: D,
    ) -> Result<D, DecodeError>
        requires { IsConsistent constraints }
        ensures { AsksDefault (D.tree constraints) D.IsValue (D.Answered constraints) D.eq self.old tag default result self.new }
    {
        let before = self.mark();
        let found = self.decode_optional_with_tag_and_constraints::<D>(alloc, tag, constraints)?;
        match found {
            None => Ok(default),
            Some(value) => match self.refuse_default(&value, &default) {
                Err(e) => {
                    self.go_back(before);
                    Err(e)
                }
                Ok(()) => Ok(value),
            },
        }
    }

    /// Reads a component with a default under its type's tag and constraints, as `decode_default_with_tag_and_constraints`
    /// does.
    pub fn decode_default<D: Decode + PartialEq>(
        &mut self,
        alloc: Global,
        default: D,
    ) -> Result<D, DecodeError>
        ensures { AsksDefault (D.tree D.CONSTRAINTS) D.IsValue (D.Answered D.CONSTRAINTS) D.eq self.old D.TAG default result self.new }
    {
        self.decode_default_with_tag_and_constraints(alloc, D::TAG, D::CONSTRAINTS, default)
    }

    /// Reads a component with a default under the handed-in tag and its type's constraints, as
    /// `decode_default_with_tag_and_constraints` does.
    #[inline(always)]
    pub fn decode_default_with_tag<D: Decode + PartialEq>(
        &mut self,
        alloc: Global,
        tag: Tag,
        default: D,
    ) -> Result<D, DecodeError>
        ensures { AsksDefault (D.tree D.CONSTRAINTS) D.IsValue (D.Answered D.CONSTRAINTS) D.eq self.old tag default result self.new }
    {
        self.decode_default_with_tag_and_constraints(alloc, tag, D::CONSTRAINTS, default)
    }

    /// Reads a component with a default under its type's tag and the handed-in constraints, as
    /// `decode_default_with_tag_and_constraints` does.
    pub fn decode_default_with_constraints<D: Decode + PartialEq>(
        &mut self,
        alloc: Global,
        constraints: Constraints,
        default: D,
    ) -> Result<D, DecodeError>
        requires { IsConsistent constraints }
        ensures { AsksDefault (D.tree constraints) D.IsValue (D.Answered constraints) D.eq self.old D.TAG default result self.new }
    {
        self.decode_default_with_tag_and_constraints(alloc, D::TAG, constraints, default)
    }
}

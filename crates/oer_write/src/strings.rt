//! Character strings are written under the size constraint.
ghost use Rattle.std.specs.Prelude.{◌≡◌, string_bytes, OnOk, IfErr};
ghost use Rattle.asn1_core.specs.Octets.{AreOctets};
ghost use Rattle.asn1_core.specs.Texts.{Utf8, Visible, General, Graphic, Ia5, Printable, Numeric, Teletex, Bmp};
ghost use Rattle.oer_spec.specs.Spelled.{IsTextOf, text};
ghost use Rattle.asn1_core.specs.Bounds.{size_bounds};
ghost use Rattle.oer_spec.specs.Tree.{Text, InOctets};
ghost use Rattle.oer_write.specs.Written.{Encodes, Refused, RefusedLeaf};

use crate::encode::Encode;
use crate::encoder::Encoder;
use asn1_core::{Constraints, EncodeError, Tag, Utf8String};
use asn1_strings::{
    BmpCharacters, BmpString, CharacterSet, GeneralCharacters, GeneralString, GraphicCharacters,
    GraphicString, Ia5Characters, Ia5String, NumericCharacters, NumericString, PrintableCharacters,
    PrintableString, RestrictedString, TeletexCharacters, TeletexString, VisibleCharacters,
    VisibleString,
};
use oer_leaf_write::{write_text, write_utf8};

/// The text, whose octets obey the rule of texts.
fn text_of(value: &Utf8String) -> &str
    ensures value { result.now ≡ string_bytes value.now }
    ensures obeys { IsTextOf Utf8 (string_bytes value.now) }
{
    let _octets = octets_of(value.as_bytes());
    value.as_str()
}

/// The same octets: a clause then knows that each is a whole number below 256.
fn octets_of(octets: &[u8]) -> &[u8]
    ensures value { result.now ≡ octets.now }
    ensures octets { AreOctets octets.now }
{
    octets
}

impl<'buffer> Encoder<'buffer> {
    /// Writes a UTF8String (X.696, 27), whose size counts octets.
    ///
    /// Refused, the first that applies: a size that a constraint that isn't extensible doesn't allow, by
    /// `SizeConstraintNotSatisfied` with the size; more than `usize::MAX / 8` octets behind a length, by
    /// `LengthExceedsPlatformSize`.
    #[inline(always)]
    pub fn encode_utf8_string(
        &mut self,
        _tag: Tag,
        constraints: Constraints,
        value: &str,
    ) -> Result<(), EncodeError>
        ensures done { OnOk result (Encodes (text Utf8 constraints value.now) self.old self.new) }
        ensures refused { IfErr result (λ x. RefusedLeaf (Text Utf8 (size_bounds constraints) (InOctets value.now)) x self.old self.new) }
        ensures law { IfErr result (λ x. Refused (text Utf8 constraints value.now) x self.old self.new) }
    {
        self.put_utf8(constraints, value)
    }

    #[tactic(auto, using(crate::proofs::Regions::more_shown, crate::proofs::Regions::more_within), unfolding(oer_spec::specs::Spelled::text, oer_spec::specs::Encoding::canonical_octets, oer_spec::specs::Encoding::fails))]
    #[inline(always)]
    fn put_utf8(&mut self, constraints: Constraints, value: &str) -> Result<(), EncodeError>
        ensures done { OnOk result (Encodes (text Utf8 constraints value.now) self.old self.new) }
        ensures refused { IfErr result (λ x. RefusedLeaf (Text Utf8 (size_bounds constraints) (InOctets value.now)) x self.old self.new) }
    {
        write_utf8(constraints, value, &mut *self.output)?;
        Ok(())
    }

    /// Writes a VisibleString (X.696, 27).
    ///
    /// Refused, the first that applies: a size that a constraint that isn't extensible doesn't allow, by
    /// `SizeConstraintNotSatisfied` with the size; more than `usize::MAX / 8` octets behind a length, by
    /// `LengthExceedsPlatformSize`.
    #[inline(always)]
    pub fn encode_visible_string(
        &mut self,
        _tag: Tag,
        constraints: Constraints,
        value: &VisibleString,
    ) -> Result<(), EncodeError>
        ensures done { OnOk result (Encodes (text Visible constraints value.now) self.old self.new) }
        ensures refused { IfErr result (λ x. RefusedLeaf (Text Visible (size_bounds constraints) (InOctets value.now)) x self.old self.new) }
        ensures law { IfErr result (λ x. Refused (text Visible constraints value.now) x self.old self.new) }
    {
        self.put_text::<VisibleCharacters>(constraints, value)
    }

    /// Writes a GeneralString (X.696, 27).
    ///
    /// Refused, the first that applies: a size that a constraint that isn't extensible doesn't allow, by
    /// `SizeConstraintNotSatisfied` with the size; more than `usize::MAX / 8` octets behind a length, by
    /// `LengthExceedsPlatformSize`.
    #[inline(always)]
    pub fn encode_general_string(
        &mut self,
        _tag: Tag,
        constraints: Constraints,
        value: &GeneralString,
    ) -> Result<(), EncodeError>
        ensures done { OnOk result (Encodes (text General constraints value.now) self.old self.new) }
        ensures refused { IfErr result (λ x. RefusedLeaf (Text General (size_bounds constraints) (InOctets value.now)) x self.old self.new) }
        ensures law { IfErr result (λ x. Refused (text General constraints value.now) x self.old self.new) }
    {
        self.put_text::<GeneralCharacters>(constraints, value)
    }

    /// Writes a GraphicString (X.696, 27).
    ///
    /// Refused, the first that applies: a size that a constraint that isn't extensible doesn't allow, by
    /// `SizeConstraintNotSatisfied` with the size; more than `usize::MAX / 8` octets behind a length, by
    /// `LengthExceedsPlatformSize`.
    #[inline(always)]
    pub fn encode_graphic_string(
        &mut self,
        _tag: Tag,
        constraints: Constraints,
        value: &GraphicString,
    ) -> Result<(), EncodeError>
        ensures done { OnOk result (Encodes (text Graphic constraints value.now) self.old self.new) }
        ensures refused { IfErr result (λ x. RefusedLeaf (Text Graphic (size_bounds constraints) (InOctets value.now)) x self.old self.new) }
        ensures law { IfErr result (λ x. Refused (text Graphic constraints value.now) x self.old self.new) }
    {
        self.put_text::<GraphicCharacters>(constraints, value)
    }

    /// Writes an Ia5String (X.696, 27).
    ///
    /// Refused, the first that applies: a size that a constraint that isn't extensible doesn't allow, by
    /// `SizeConstraintNotSatisfied` with the size; more than `usize::MAX / 8` octets behind a length, by
    /// `LengthExceedsPlatformSize`.
    #[inline(always)]
    pub fn encode_ia5_string(
        &mut self,
        _tag: Tag,
        constraints: Constraints,
        value: &Ia5String,
    ) -> Result<(), EncodeError>
        ensures done { OnOk result (Encodes (text Ia5 constraints value.now) self.old self.new) }
        ensures refused { IfErr result (λ x. RefusedLeaf (Text Ia5 (size_bounds constraints) (InOctets value.now)) x self.old self.new) }
        ensures law { IfErr result (λ x. Refused (text Ia5 constraints value.now) x self.old self.new) }
    {
        self.put_text::<Ia5Characters>(constraints, value)
    }

    /// Writes a PrintableString (X.696, 27).
    ///
    /// Refused, the first that applies: a size that a constraint that isn't extensible doesn't allow, by
    /// `SizeConstraintNotSatisfied` with the size; more than `usize::MAX / 8` octets behind a length, by
    /// `LengthExceedsPlatformSize`.
    #[inline(always)]
    pub fn encode_printable_string(
        &mut self,
        _tag: Tag,
        constraints: Constraints,
        value: &PrintableString,
    ) -> Result<(), EncodeError>
        ensures done { OnOk result (Encodes (text Printable constraints value.now) self.old self.new) }
        ensures refused { IfErr result (λ x. RefusedLeaf (Text Printable (size_bounds constraints) (InOctets value.now)) x self.old self.new) }
        ensures law { IfErr result (λ x. Refused (text Printable constraints value.now) x self.old self.new) }
    {
        self.put_text::<PrintableCharacters>(constraints, value)
    }

    /// Writes a NumericString (X.696, 27).
    ///
    /// Refused, the first that applies: a size that a constraint that isn't extensible doesn't allow, by
    /// `SizeConstraintNotSatisfied` with the size; more than `usize::MAX / 8` octets behind a length, by
    /// `LengthExceedsPlatformSize`.
    #[inline(always)]
    pub fn encode_numeric_string(
        &mut self,
        _tag: Tag,
        constraints: Constraints,
        value: &NumericString,
    ) -> Result<(), EncodeError>
        ensures done { OnOk result (Encodes (text Numeric constraints value.now) self.old self.new) }
        ensures refused { IfErr result (λ x. RefusedLeaf (Text Numeric (size_bounds constraints) (InOctets value.now)) x self.old self.new) }
        ensures law { IfErr result (λ x. Refused (text Numeric constraints value.now) x self.old self.new) }
    {
        self.put_text::<NumericCharacters>(constraints, value)
    }

    /// Writes a TeletexString (X.696, 27).
    ///
    /// Refused, the first that applies: a size that a constraint that isn't extensible doesn't allow, by
    /// `SizeConstraintNotSatisfied` with the size; more than `usize::MAX / 8` octets behind a length, by
    /// `LengthExceedsPlatformSize`.
    #[inline(always)]
    pub fn encode_teletex_string(
        &mut self,
        _tag: Tag,
        constraints: Constraints,
        value: &TeletexString,
    ) -> Result<(), EncodeError>
        ensures done { OnOk result (Encodes (text Teletex constraints value.now) self.old self.new) }
        ensures refused { IfErr result (λ x. RefusedLeaf (Text Teletex (size_bounds constraints) (InOctets value.now)) x self.old self.new) }
        ensures law { IfErr result (λ x. Refused (text Teletex constraints value.now) x self.old self.new) }
    {
        self.put_text::<TeletexCharacters>(constraints, value)
    }

    /// Writes a BMPString (X.696, 27), whose size counts characters of two octets.
    ///
    /// Refused, the first that applies: a size that a constraint that isn't extensible doesn't allow, by
    /// `SizeConstraintNotSatisfied` with the size; more than `usize::MAX / 8` octets behind a length, by
    /// `LengthExceedsPlatformSize`.
    #[inline(always)]
    pub fn encode_bmp_string(
        &mut self,
        _tag: Tag,
        constraints: Constraints,
        value: &BmpString,
    ) -> Result<(), EncodeError>
        ensures done { OnOk result (Encodes (text Bmp constraints value.now) self.old self.new) }
        ensures refused { IfErr result (λ x. RefusedLeaf (Text Bmp (size_bounds constraints) (InOctets value.now)) x self.old self.new) }
        ensures law { IfErr result (λ x. Refused (text Bmp constraints value.now) x self.old self.new) }
    {
        self.put_text::<BmpCharacters>(constraints, value)
    }

    #[tactic(auto, using(crate::proofs::Regions::more_shown, crate::proofs::Regions::more_within), unfolding(oer_spec::specs::Spelled::text, oer_spec::specs::Encoding::canonical_octets, oer_spec::specs::Encoding::fails))]
    #[inline(always)]
    fn put_text<C: CharacterSet>(
        &mut self,
        constraints: Constraints,
        value: &RestrictedString<C>,
    ) -> Result<(), EncodeError>
        ensures done { OnOk result (Encodes (text C.rule constraints value.now) self.old self.new) }
        ensures refused { IfErr result (λ x. RefusedLeaf (Text C.rule (size_bounds constraints) (InOctets value.now)) x self.old self.new) }
    {
        write_text(constraints, value, &mut *self.output)?;
        Ok(())
    }

    /// Writes a restricted character string of any character set.
    pub(crate) fn put_restricted<C: CharacterSet>(
        &mut self,
        constraints: Constraints,
        value: &RestrictedString<C>,
    ) -> Result<(), EncodeError>
        ensures done { OnOk result (Encodes (text C.rule constraints value.now) self.old self.new) }
        ensures law { IfErr result (λ x. Refused (text C.rule constraints value.now) x self.old self.new) }
    {
        self.put_text(constraints, value)
    }
}

impl Encode for Utf8String {
    #[inline(always)]
    fn encode_with_tag_and_constraints(
        &self,
        encoder: &mut Encoder<'_>,
        tag: Tag,
        constraints: Constraints,
    ) -> Result<(), EncodeError> {
        encoder.encode_utf8_string(tag, constraints, text_of(self))
    }
}

/// A restricted character string of any character set.
impl<C: CharacterSet> Encode for RestrictedString<C> {
    #[inline(always)]
    fn encode_with_tag_and_constraints(
        &self,
        encoder: &mut Encoder<'_>,
        _tag: Tag,
        constraints: Constraints,
    ) -> Result<(), EncodeError> {
        let _octets = self.as_bytes();
        encoder.put_restricted(constraints, self)
    }
}

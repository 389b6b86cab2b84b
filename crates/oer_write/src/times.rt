//! Times and days, by their texts.
ghost use Rattle.std.specs.Prelude.{ℕ, List, None, OnOk, IfErr};
ghost use Rattle.asn1_core.specs.Texts.{Utc, Generalized, Date as DateRule};
ghost use Rattle.asn1_times.specs.Times.{utc_text, generalized_text, date_text};
ghost use Rattle.oer_spec.specs.Spelled.{date, day_fields, generalized_time, moment_fields, time, utc_time};
ghost use Rattle.oer_spec.specs.TimeTexts.{time_content};
ghost use Rattle.oer_spec.specs.Tree.{Text};
ghost use Rattle.oer_write.specs.Written.{Encodes, Refused, RefusedLeaf};

use crate::encode::Encode;
use crate::encoder::Encoder;
use asn1_core::{Constraints, EncodeError, Tag};
use asn1_times::{Date, GeneralizedTime, UtcTime};
use oer_leaf_write::write_time;
use oer_spec::leaf::TimeType;

impl<'buffer> Encoder<'buffer> {
    /// Writes a UTCTime (X.696, 29): a length, and the text.
    ///
    /// A time that has no text is refused by `TimeNotRepresentable`.
    #[tactic(auto, using(crate::proofs::Refusals::time_by_law))]
    pub fn encode_utc_time(&mut self, _tag: Tag, value: &UtcTime) -> Result<(), EncodeError>
        ensures done { OnOk result (Encodes (utc_time value.now) self.old self.new) }
        ensures refused { IfErr result (λ x. RefusedLeaf (Text Utc None (time_content (utc_text value.now) (moment_fields value.now))) x self.old self.new) }
        ensures law { IfErr result (λ x. Refused (utc_time value.now) x self.old self.new) }
    {
        self.put_time::<UtcTime>(value)
    }

    /// Writes a GeneralizedTime (X.696, 29): a length, and the text.
    ///
    /// A time that has no text is refused by `TimeNotRepresentable`.
    #[tactic(auto, using(crate::proofs::Refusals::time_by_law))]
    pub fn encode_generalized_time(
        &mut self,
        _tag: Tag,
        value: &GeneralizedTime,
    ) -> Result<(), EncodeError>
        ensures done { OnOk result (Encodes (generalized_time value.now) self.old self.new) }
        ensures refused { IfErr result (λ x. RefusedLeaf (Text Generalized None (time_content (generalized_text value.now) (moment_fields value.now))) x self.old self.new) }
        ensures law { IfErr result (λ x. Refused (generalized_time value.now) x self.old self.new) }
    {
        self.put_time::<GeneralizedTime>(value)
    }

    /// Writes a DATE (X.696, 29): a length, and the text.
    ///
    /// A day that has no text is refused by `TimeNotRepresentable`.
    #[tactic(auto, using(crate::proofs::Refusals::time_by_law))]
    pub fn encode_date(&mut self, _tag: Tag, value: &Date) -> Result<(), EncodeError>
        ensures done { OnOk result (Encodes (date value.now) self.old self.new) }
        ensures refused { IfErr result (λ x. RefusedLeaf (Text DateRule None (time_content (date_text value.now) (day_fields value.now))) x self.old self.new) }
        ensures law { IfErr result (λ x. Refused (date value.now) x self.old self.new) }
    {
        self.put_time::<Date>(value)
    }

    /// Writes a value by its text.
    #[tactic(auto, using(crate::proofs::Regions::more_shown, crate::proofs::Regions::more_within), unfolding(oer_spec::specs::Spelled::time, oer_spec::specs::Encoding::canonical_octets, oer_spec::specs::Encoding::fails))]
    fn put_time<T: TimeType>(&mut self, value: &T) -> Result<(), EncodeError>
        ensures done { (fields : List ℕ) → OnOk result (Encodes (time T.rule (T.text value.now) fields) self.old self.new) }
        ensures refused { (fields : List ℕ) → IfErr result (λ x. RefusedLeaf (Text T.rule None (time_content (T.text value.now) fields)) x self.old self.new) }
    {
        write_time(value, &mut *self.output)?;
        Ok(())
    }
}

impl Encode for UtcTime {
    fn encode_with_tag_and_constraints(
        &self,
        encoder: &mut Encoder<'_>,
        tag: Tag,
        _constraints: Constraints,
    ) -> Result<(), EncodeError> {
        encoder.encode_utc_time(tag, self)
    }
}

impl Encode for GeneralizedTime {
    fn encode_with_tag_and_constraints(
        &self,
        encoder: &mut Encoder<'_>,
        tag: Tag,
        _constraints: Constraints,
    ) -> Result<(), EncodeError> {
        encoder.encode_generalized_time(tag, self)
    }
}

impl Encode for Date {
    fn encode_with_tag_and_constraints(
        &self,
        encoder: &mut Encoder<'_>,
        tag: Tag,
        _constraints: Constraints,
    ) -> Result<(), EncodeError> {
        encoder.encode_date(tag, self)
    }
}

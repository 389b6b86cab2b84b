//! Reading times and days.

ghost use Rattle.std.specs.Prelude.{IfErr};
ghost use Rattle.asn1_core.specs.Texts.{is_date, is_generalized, is_utc};
ghost use Rattle.asn1_times.specs.Times.{date_text, generalized_text, utc_text};
ghost use Rattle.oer_spec.specs.Spelled.{IsAny, date, generalized_time, utc_time};
ghost use Rattle.oer_spec.specs.TimeTexts.{time_at};
ghost use Rattle.oer_read.specs.Answers.{Answers};
ghost use Rattle.oer_read.specs.Law.{Decodes, IsForMemory};

use crate::decode::Decode;
use crate::decoder::Decoder;
use asn1_core::{Constraints, DecodeError, Tag};
use asn1_times::{Date, GeneralizedTime, UtcTime};
use oer_leaf_read::read_time;
use std::alloc::Global;

impl<'input> Decoder<'input> {
    /// Reads a UTCTime (X.696, 29): a length and the octets of `YYMMDDhhmmssZ`. No memory is taken.
    ///
    /// Refused as `decode_octet_string` does without constraints; then `InvalidTime` where the octets are no such text.
    #[inline(always)]
    pub fn decode_utc_time(&mut self, _tag: Tag) -> Result<UtcTime, DecodeError>
        ensures function { Answers utc_text self.old result self.new (time_at is_utc self.old.codec self.old.input) }
        ensures no_memory { IfErr result (λ e. IsForMemory e → ⊥) }
        ensures law { Decodes utc_time IsAny self.old result self.new }
    {
        let utc_time = read_time(self.codec(), self.remaining());
        self.take(utc_time)
    }

    /// Reads a GeneralizedTime (X.696, 29): a length and the octets of `YYYYMMDDhhmmssZ`, with a point and the digits of
    /// parts of a second before the `Z`. No memory is taken.
    ///
    /// Refused as `decode_octet_string` does without constraints; then `InvalidTime` where the octets are no such text.
    #[inline(always)]
    pub fn decode_generalized_time(&mut self, _tag: Tag) -> Result<GeneralizedTime, DecodeError>
        ensures function { Answers generalized_text self.old result self.new (time_at is_generalized self.old.codec self.old.input) }
        ensures no_memory { IfErr result (λ e. IsForMemory e → ⊥) }
        ensures law { Decodes generalized_time IsAny self.old result self.new }
    {
        let generalized_time = read_time(self.codec(), self.remaining());
        self.take(generalized_time)
    }

    /// Reads a DATE (X.696, 29): a length and the octets of `YYYYMMDD`. No memory is taken.
    ///
    /// Refused as `decode_octet_string` does without constraints; then `InvalidTime` where the octets are no such text.
    #[inline(always)]
    pub fn decode_date(&mut self, _tag: Tag) -> Result<Date, DecodeError>
        ensures function { Answers date_text self.old result self.new (time_at is_date self.old.codec self.old.input) }
        ensures no_memory { IfErr result (λ e. IsForMemory e → ⊥) }
        ensures law { Decodes date IsAny self.old result self.new }
    {
        let date = read_time(self.codec(), self.remaining());
        self.take(date)
    }
}

impl Decode for UtcTime {
    ghost use Rattle.std.specs.Prelude.{false};
    ghost use Rattle.asn1_core.specs.Texts.{is_utc};
    ghost use Rattle.asn1_times.specs.Times.{utc_text};
    ghost use Rattle.oer_spec.specs.TimeTexts.{time_at};
    ghost use Rattle.oer_read.specs.Answers.{LeafAnswers};

    ghost Answered = { λ c s r t. LeafAnswers utc_text false s r t (time_at is_utc s.codec s.input) };

    #[inline(always)]
    fn decode_with_tag_and_constraints(
        _alloc: Global,
        decoder: &mut Decoder<'_>,
        tag: Tag,
        _constraints: Constraints,
    ) -> Result<UtcTime, DecodeError> {
        decoder.decode_utc_time(tag)
    }
}

impl Decode for GeneralizedTime {
    ghost use Rattle.std.specs.Prelude.{false};
    ghost use Rattle.asn1_core.specs.Texts.{is_generalized};
    ghost use Rattle.asn1_times.specs.Times.{generalized_text};
    ghost use Rattle.oer_spec.specs.TimeTexts.{time_at};
    ghost use Rattle.oer_read.specs.Answers.{LeafAnswers};

    ghost Answered = { λ c s r t. LeafAnswers generalized_text false s r t (time_at is_generalized s.codec s.input) };

    #[inline(always)]
    fn decode_with_tag_and_constraints(
        _alloc: Global,
        decoder: &mut Decoder<'_>,
        tag: Tag,
        _constraints: Constraints,
    ) -> Result<GeneralizedTime, DecodeError> {
        decoder.decode_generalized_time(tag)
    }
}

impl Decode for Date {
    ghost use Rattle.std.specs.Prelude.{false};
    ghost use Rattle.asn1_core.specs.Texts.{is_date};
    ghost use Rattle.asn1_times.specs.Times.{date_text};
    ghost use Rattle.oer_spec.specs.TimeTexts.{time_at};
    ghost use Rattle.oer_read.specs.Answers.{LeafAnswers};

    ghost Answered = { λ c s r t. LeafAnswers date_text false s r t (time_at is_date s.codec s.input) };

    #[inline(always)]
    fn decode_with_tag_and_constraints(
        _alloc: Global,
        decoder: &mut Decoder<'_>,
        tag: Tag,
        _constraints: Constraints,
    ) -> Result<Date, DecodeError> {
        decoder.decode_date(tag)
    }
}

//! UTCTime, GeneralizedTime and DATE: civil values, made of texts and written as texts (X.680, clauses 38, 46 and 47).
ghost use Rattle.std.specs.Prelude.{◌≡◌, ◌≢◌, ◌<◌, Some, is_ok, IfOk, IfErr, OnErr};
ghost use Rattle.std.specs.Option.{ok_or};
ghost use Rattle.asn1_core.specs.Texts.{is_utc, is_generalized, is_date};
ghost use Rattle.asn1_times.specs.Times.{utc_text, generalized_text, date_text};
ghost use Rattle.jiff_core.specs.declared.civil.datetime.DateTime.{DateTime as PlainTime};
ghost use Rattle.jiff_core.specs.declared.civil.date.Date.{Date as PlainDate};

use crate::time_read::{date_of, generalized_of, utc_of};
use crate::time_text::TimeText;
use asn1_core::{AsnType, Constraints, Tag};
use jiff::civil;
use std::marker::Model;
use thiserror::Error;

/// Why there is no time, or no text.
#[derive(Debug, PartialEq, Eq, Drop, Error)]
pub enum TimeError {
    /// The text is that of no time of the type.
    #[error("invalid time")]
    InvalidTime,
    /// The time has no text of the type.
    #[error("the time is not representable")]
    TimeNotRepresentable,
}

/// UTCTime (X.680, clause 47): a date and a time of day in UTC.
#[derive(Clone, Debug, PartialEq, Eq, Drop)]
pub struct UtcTime {
    value: civil::DateTime,
}

impl Model for UtcTime {
    ghost use Rattle.jiff_core.specs.declared.civil.datetime.DateTime.{DateTime as Plain};

    ghost Value = { Plain };

    ghost view = { λ t. t.value };

    ghost inverse = { λ v. record { value = v } };
}

impl AsnType for UtcTime {
    ghost use Rattle.asn1_core.specs.declared.tag.TheConstants.Tag.{UTC_TIME};
    ghost use Rattle.asn1_core.specs.declared.constraints.TheConstants.Constraints.{NONE};
    ghost use Rattle.std.specs.Prelude.{false, refl};

    ghost TAG = { UTC_TIME };

    const TAG: Tag = Tag::UTC_TIME;

    ghost CONSTRAINTS = { NONE };

    const CONSTRAINTS: Constraints = Constraints::NONE;

    ghost consistent = { refl };
}

impl UtcTime {
    /// The time, whether it has a text or not.
    pub fn new(value: civil::DateTime) -> UtcTime
        ensures { result ≡ value }
    {
        UtcTime { value }
    }

    /// The civil value.
    pub fn value(&self) -> civil::DateTime
        ensures { result ≡ self.now }
    {
        self.value
    }

    /// The time of the text `YYMMDDhhmmssZ`; years 00 to 49 are 2000 to 2049, and 50 to 99 are 1950 to 1999.
    ///
    /// Takes no memory, and refuses by `InvalidTime` alone.
    pub fn from_text(text: &[u8]) -> Result<UtcTime, TimeError>
        ensures accepts { is_ok result ≡ is_utc text.now }
        ensures ok { IfOk result (λ t. utc_text t ≡ Some text.now) }
        ensures err { IfErr result (λ e. e ≡ TimeError.InvalidTime) }
        ensures none { OnErr result ((t : PlainTime) → utc_text t ≢ Some text.now) }
    {
        match utc_of(text) {
            Some(value) => Ok(UtcTime { value }),
            None => Err(TimeError::InvalidTime),
        }
    }

    /// The text `YYMMDDhhmmssZ`, which the time has from 1950 to 2049 without parts of a second.
    ///
    /// Takes no memory, and refuses by `TimeNotRepresentable` alone.
    pub fn to_text(&self) -> Result<TimeText, TimeError>
        ensures { result ≡ ok_or (utc_text self.now) TimeError.TimeNotRepresentable }
    {
        let civil = self.value.to_plain();
        let (date, time) = (civil.date, civil.time);
        if date.year < 1950 || date.year > 2049 || time.subsec_nanosecond != 0 {
            return Err(TimeError::TimeNotRepresentable);
        }
        let mut text = TimeText::of_pairs(&[
            (date.year % 100) as u8,
            date.month,
            date.day,
            time.hour,
            time.minute,
            time.second,
        ]);
        text.push(b'Z');
        Ok(text)
    }
}

/// GeneralizedTime (X.680, clause 46): a date and a time of day in UTC.
#[derive(Clone, Debug, PartialEq, Eq, Drop)]
pub struct GeneralizedTime {
    value: civil::DateTime,
}

impl Model for GeneralizedTime {
    ghost use Rattle.jiff_core.specs.declared.civil.datetime.DateTime.{DateTime as Plain};

    ghost Value = { Plain };

    ghost view = { λ t. t.value };

    ghost inverse = { λ v. record { value = v } };
}

impl AsnType for GeneralizedTime {
    ghost use Rattle.asn1_core.specs.declared.tag.TheConstants.Tag.{GENERALIZED_TIME};
    ghost use Rattle.asn1_core.specs.declared.constraints.TheConstants.Constraints.{NONE};
    ghost use Rattle.std.specs.Prelude.{false, refl};

    ghost TAG = { GENERALIZED_TIME };

    const TAG: Tag = Tag::GENERALIZED_TIME;

    ghost CONSTRAINTS = { NONE };

    const CONSTRAINTS: Constraints = Constraints::NONE;

    ghost consistent = { refl };
}

impl GeneralizedTime {
    /// The time, whether it has a text or not.
    pub fn new(value: civil::DateTime) -> GeneralizedTime
        ensures { result ≡ value }
    {
        GeneralizedTime { value }
    }

    /// The civil value.
    pub fn value(&self) -> civil::DateTime
        ensures { result ≡ self.now }
    {
        self.value
    }

    /// The time of the text `YYYYMMDDhhmmssZ`, or with a point and one to nine digits, the last not 0, before the `Z`.
    ///
    /// Takes no memory, and refuses by `InvalidTime` alone.
    pub fn from_text(text: &[u8]) -> Result<GeneralizedTime, TimeError>
        ensures accepts { is_ok result ≡ is_generalized text.now }
        ensures ok { IfOk result (λ t. generalized_text t ≡ Some text.now) }
        ensures err { IfErr result (λ e. e ≡ TimeError.InvalidTime) }
        ensures none { OnErr result ((t : PlainTime) → generalized_text t ≢ Some text.now) }
    {
        match generalized_of(text) {
            Some(value) => Ok(GeneralizedTime { value }),
            None => Err(TimeError::InvalidTime),
        }
    }

    /// The text `YYYYMMDDhhmmssZ`, with a point and the digits of parts of a second before the `Z`; a time has it in the
    /// years 0 to 9999.
    ///
    /// Takes no memory, and refuses by `TimeNotRepresentable` alone.
    pub fn to_text(&self) -> Result<TimeText, TimeError>
        ensures { result ≡ ok_or (generalized_text self.now) TimeError.TimeNotRepresentable }
    {
        let civil = self.value.to_plain();
        let (date, time) = (civil.date, civil.time);
        if date.year < 0 {
            return Err(TimeError::TimeNotRepresentable);
        }
        let mut text = TimeText::of_pairs(&[
            (date.year / 100) as u8,
            (date.year % 100) as u8,
            date.month,
            date.day,
            time.hour,
            time.minute,
            time.second,
        ]);
        text.push_fraction(time.subsec_nanosecond);
        text.push(b'Z');
        Ok(text)
    }
}

/// DATE (X.680, clause 38): a day.
#[derive(Clone, Debug, PartialEq, Eq, Drop)]
pub struct Date {
    value: civil::Date,
}

impl Model for Date {
    ghost use Rattle.jiff_core.specs.declared.civil.date.Date.{Date as Plain};

    ghost Value = { Plain };

    ghost view = { λ t. t.value };

    ghost inverse = { λ v. record { value = v } };
}

impl AsnType for Date {
    ghost use Rattle.asn1_core.specs.declared.tag.TheConstants.Tag.{DATE};
    ghost use Rattle.asn1_core.specs.declared.constraints.TheConstants.Constraints.{NONE};
    ghost use Rattle.std.specs.Prelude.{false, refl};

    ghost TAG = { DATE };

    const TAG: Tag = Tag::DATE;

    ghost CONSTRAINTS = { NONE };

    const CONSTRAINTS: Constraints = Constraints::NONE;

    ghost consistent = { refl };
}

impl Date {
    /// The day, whether it has a text or not.
    pub fn new(value: civil::Date) -> Date
        ensures { result ≡ value }
    {
        Date { value }
    }

    /// The civil value.
    pub fn value(&self) -> civil::Date
        ensures { result ≡ self.now }
    {
        self.value
    }

    /// The day of the eight digits `YYYYMMDD`.
    ///
    /// Takes no memory, and refuses by `InvalidTime` alone.
    pub fn from_text(text: &[u8]) -> Result<Date, TimeError>
        ensures accepts { is_ok result ≡ is_date text.now }
        ensures ok { IfOk result (λ t. date_text t ≡ Some text.now) }
        ensures err { IfErr result (λ e. e ≡ TimeError.InvalidTime) }
        ensures none { OnErr result ((t : PlainDate) → date_text t ≢ Some text.now) }
    {
        match date_of(text) {
            Some(value) => Ok(Date { value }),
            None => Err(TimeError::InvalidTime),
        }
    }

    /// The eight digits `YYYYMMDD`, which the day has in the years 0 to 9999.
    ///
    /// Takes no memory, and refuses by `TimeNotRepresentable` alone.
    pub fn to_text(&self) -> Result<TimeText, TimeError>
        ensures { result ≡ ok_or (date_text self.now) TimeError.TimeNotRepresentable }
    {
        let date = self.value.to_plain();
        if date.year < 0 {
            return Err(TimeError::TimeNotRepresentable);
        }
        Ok(TimeText::of_pairs(&[
            (date.year / 100) as u8,
            (date.year % 100) as u8,
            date.month,
            date.day,
        ]))
    }
}

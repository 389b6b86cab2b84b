//! The trees of times and days: their texts, and where there is none their civil fields.

use crate::spelled::{EqualAsSpelled, Spelled};
use asn1_times::{Date, GeneralizedTime, UtcTime};

impl Spelled for UtcTime {
    ghost use Rattle.asn1_core.specs.Texts.{Utc};
    ghost use Rattle.asn1_times.specs.Times.{utc_text};
    ghost use Rattle.oer_spec.specs.Spelled.{IsAny, moment_fields, times_alike, utc_time, utc_time_is};

    ghost tree = { λ c t. utc_time t };

    ghost IsValue = { IsAny };

    ghost is_tree = { λ c k t i. utc_time_is t };

    ghost alike = { λ c k t u i j. times_alike Utc (utc_text t) (utc_text u) (moment_fields t) (moment_fields u) };
}

impl Spelled for GeneralizedTime {
    ghost use Rattle.asn1_core.specs.Texts.{Generalized};
    ghost use Rattle.asn1_times.specs.Times.{generalized_text};
    ghost use Rattle.oer_spec.specs.Spelled.{IsAny, generalized_time, generalized_time_is, moment_fields, times_alike};

    ghost tree = { λ c t. generalized_time t };

    ghost IsValue = { IsAny };

    ghost is_tree = { λ c k t i. generalized_time_is t };

    ghost alike = { λ c k t u i j. times_alike Generalized (generalized_text t) (generalized_text u) (moment_fields t) (moment_fields u) };
}

impl Spelled for Date {
    ghost use Rattle.asn1_core.specs.Texts.{Date as DateRule};
    ghost use Rattle.asn1_times.specs.Times.{date_text};
    ghost use Rattle.oer_spec.specs.Spelled.{IsAny, date, date_is, day_fields, times_alike};

    ghost tree = { λ c d. date d };

    ghost IsValue = { IsAny };

    ghost is_tree = { λ c k d i. date_is d };

    ghost alike = { λ c k d e i j. times_alike DateRule (date_text d) (date_text e) (day_fields d) (day_fields e) };
}

impl EqualAsSpelled for UtcTime {
    ghost use Rattle.oer_spec.specs.SpelledTimes.{utc_times_same};

    ghost eq_is_same = { λ c k t u i j. utc_times_same t u };
}

impl EqualAsSpelled for GeneralizedTime {
    ghost use Rattle.oer_spec.specs.SpelledTimes.{generalized_times_same};

    ghost eq_is_same = { λ c k t u i j. generalized_times_same t u };
}

impl EqualAsSpelled for Date {
    ghost use Rattle.oer_spec.specs.SpelledTimes.{dates_same};

    ghost eq_is_same = { λ c k t u i j. dates_same t u };
}

//! The trait of types of times and of days: the text of a value, and the value of a text (X.696, 29).
use asn1_times::{Date, GeneralizedTime, TimeText, UtcTime};

/// A type of times or of days, whose values have texts (X.696, 29; the project's own choice of one text each).
pub trait TimeType: Drop {
    ghost use Rattle.std.specs.Prelude.{◌≡◌, ◌↔◌, Bool, true, Option, Some, List, ℕ, is_some, IfSome};
    ghost use Rattle.asn1_core.specs.Texts.{Rule, Obeys, unit_of};

    /// The rule that the type's texts obey, the test for it, and the text of a value, where it has one.
    ghost rule: { Rule };

    ghost is_text: { List ℕ → Bool };

    ghost text: { Self → Option (List ℕ) };

    /// The value that has this text, where one has it.
    fn of_text(octets: &[u8]) -> Option<Self>
        ensures accepts { is_some result ≡ is_text octets.now }
        ensures value { IfSome result (λ t. text t ≡ Some octets.now) };

    /// The value's text, where it has one.
    fn to_text(&self) -> Option<TimeText>
        ensures { result ≡ text self.now };

    /// A text's size counts octets.
    ghost unit: { unit_of rule ≡ 1 };

    ghost tells: { (o : List ℕ) → (is_text o ≡ true) ↔ Obeys rule o };

    ghost obeys: { (t : Self) (o : List ℕ) → text t ≡ Some o → is_text o ≡ true };
}

impl TimeType for UtcTime {
    ghost use Rattle.std.specs.Prelude.{refl};
    ghost use Rattle.asn1_core.specs.Texts.{Utc, is_utc};
    ghost use Rattle.asn1_times.specs.Times.{utc_text};
    ghost use Rattle.oer_spec.specs.TimeLaws.{same_test, utc_obeys};

    ghost rule = { Utc };

    ghost is_text = { is_utc };

    ghost text = { utc_text };

    fn of_text(octets: &[u8]) -> Option<UtcTime> {
        UtcTime::from_text(octets).ok()
    }

    fn to_text(&self) -> Option<TimeText> {
        UtcTime::to_text(self).ok()
    }

    ghost unit = { refl };

    ghost tells = { same_test is_utc };

    ghost obeys = { utc_obeys };
}

impl TimeType for GeneralizedTime {
    ghost use Rattle.std.specs.Prelude.{refl};
    ghost use Rattle.asn1_core.specs.Texts.{Generalized, is_generalized};
    ghost use Rattle.asn1_times.specs.Times.{generalized_text};
    ghost use Rattle.oer_spec.specs.TimeLaws.{same_test, generalized_obeys};

    ghost rule = { Generalized };

    ghost is_text = { is_generalized };

    ghost text = { generalized_text };

    fn of_text(octets: &[u8]) -> Option<GeneralizedTime> {
        GeneralizedTime::from_text(octets).ok()
    }

    fn to_text(&self) -> Option<TimeText> {
        GeneralizedTime::to_text(self).ok()
    }

    ghost unit = { refl };

    ghost tells = { same_test is_generalized };

    ghost obeys = { generalized_obeys };
}

impl TimeType for Date {
    ghost use Rattle.std.specs.Prelude.{refl};
    ghost use Rattle.asn1_core.specs.Texts.{Date as DateRule, is_date};
    ghost use Rattle.asn1_times.specs.Times.{date_text};
    ghost use Rattle.oer_spec.specs.TimeLaws.{same_test, date_obeys};

    ghost rule = { DateRule };

    ghost is_text = { is_date };

    ghost text = { date_text };

    fn of_text(octets: &[u8]) -> Option<Date> {
        Date::from_text(octets).ok()
    }

    fn to_text(&self) -> Option<TimeText> {
        Date::to_text(self).ok()
    }

    ghost unit = { refl };

    ghost tells = { same_test is_date };

    ghost obeys = { date_obeys };
}

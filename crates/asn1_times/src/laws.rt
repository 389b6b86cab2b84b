//! What the definitions mean, as contracts of functions that do nothing.
ghost use Rattle.std.specs.Prelude.{List, ℕ};
ghost use Rattle.jiff_core.specs.declared.civil.date.Date.{Date as PlainDate};
ghost use Rattle.jiff_core.specs.declared.civil.datetime.DateTime.{DateTime as PlainTime};
ghost use Rattle.asn1_times.specs.Times.{UtcObeys, GeneralizedObeys, DateObeys, UtcOnce, GeneralizedOnce, DateOnce};

/// The texts of times and days obey the rules of their types, and no two times or days have one text; that each text
/// which obeys a rule is the text of a time or a day is said by `from_text`.
pub fn texts()
    ensures utc { (t : PlainTime) (text : List ℕ) → UtcObeys t text }
    ensures generalized { (t : PlainTime) (text : List ℕ) → GeneralizedObeys t text }
    ensures date { (d : PlainDate) (text : List ℕ) → DateObeys d text }
    ensures one_utc { (t u : PlainTime) (text : List ℕ) → UtcOnce t u text }
    ensures one_generalized { (t u : PlainTime) (text : List ℕ) → GeneralizedOnce t u text }
    ensures one_date { (d e : PlainDate) (text : List ℕ) → DateOnce d e text }
{}

//! Reads the texts of UTCTime, GeneralizedTime and DATE.
ghost use Rattle.std.specs.Prelude.{◌≡◌, ◌+◌, ◌≤◌, ◌<◌, ◌^◌, ◌++◌, ◌∷◌, [], true, Some, length, take, is_some, IfSome};
ghost use Rattle.std.specs.List.{list_all};
ghost use Rattle.asn1_core.specs.Texts.{is_digit, digits_at, is_day, is_clock, full_year, is_fraction, is_ending, is_utc, is_generalized, is_date};
ghost use Rattle.asn1_times.specs.Times.{utc_text, generalized_text, date_text, is_day_at, is_clock_at, fraction, HasDay, HasClock};

use jiff::civil;

/// The time of a UTCTime's text.
pub(crate) fn utc_of(text: &[u8]) -> Option<civil::DateTime>
    ensures found { is_some result ≡ is_utc text.now }
    ensures value { IfSome result (λ t. utc_text t ≡ Some text.now) }
{
    if text.len() != 13 || !are_digits(&text[..12]) || text[12] != b'Z' {
        return None;
    }
    let date = day_at(full_year(two_at(text, 0)), text, 2)?;
    let time = clock_at(text, 6, 0)?;
    Some(civil::DateTime::from_parts(date, time))
}

/// The time of a GeneralizedTime's text.
pub(crate) fn generalized_of(text: &[u8]) -> Option<civil::DateTime>
    ensures found { is_some result ≡ is_generalized text.now }
    ensures value { IfSome result (λ t. generalized_text t ≡ Some text.now) }
{
    if text.len() < 15 || !are_digits(&text[..14]) {
        return None;
    }
    let nanosecond = nanosecond_of(&text[14..])?;
    let date = day_at(year_at(text), text, 4)?;
    let time = clock_at(text, 8, nanosecond)?;
    Some(civil::DateTime::from_parts(date, time))
}

/// The day of a DATE's text.
pub(crate) fn date_of(text: &[u8]) -> Option<civil::Date>
    ensures found { is_some result ≡ is_date text.now }
    ensures value { IfSome result (λ d. date_text d ≡ Some text.now) }
{
    if text.len() != 8 || !are_digits(text) {
        return None;
    }
    day_at(year_at(text), text, 4)
}

/// Whether each octet is a decimal digit.
fn are_digits(octets: &[u8]) -> bool
    ensures { result ≡ list_all is_digit octets.now }
{
    octets.iter().all(|octet| octet.is_ascii_digit())
}

/// The number of the two digits from that place on.
fn two_at(text: &[u8], start: usize) -> u16
    requires { start + 2 ≤ length text.now }
    ensures { result ≡ digits_at text.now start 2 }
{
    text[start].saturating_sub(b'0') as u16 * 10 + text[start + 1].saturating_sub(b'0') as u16
}

/// The day of that year whose month and day are written from that place on; none where the calendar has no such day.
fn day_at(year: u16, text: &[u8], start: usize) -> Option<civil::Date>
    requires room { start + 4 ≤ length text.now }
    requires year { year < 10000 }
    ensures found { is_some result ≡ is_day_at year text.now start }
    ensures parts { IfSome result (λ d. HasDay d year (digits_at text.now start 2) (digits_at text.now (start + 2) 2)) }
{
    day_of(year, two_at(text, start), two_at(text, start + 2))
}

/// The time with that fraction whose hour, minute and second are written from that place on; none where a clock shows
/// no such time.
fn clock_at(text: &[u8], start: usize, nanosecond: u32) -> Option<civil::Time>
    requires room { start + 6 ≤ length text.now }
    requires nanosecond { nanosecond < 1_000_000_000 }
    ensures found { is_some result ≡ is_clock_at text.now start }
    ensures parts { IfSome result (λ t. HasClock t (digits_at text.now start 2) (digits_at text.now (start + 2) 2)
        (digits_at text.now (start + 4) 2) nanosecond) }
{
    time_of(
        two_at(text, start),
        two_at(text, start + 2),
        two_at(text, start + 4),
        nanosecond,
    )
}

/// The day with these numbers, where the calendar has it.
fn day_of(year: u16, month: u16, day: u16) -> Option<civil::Date>
    requires { year < 10000 }
    ensures found { is_some result ≡ is_day year month day }
    ensures parts { IfSome result (λ d. HasDay d year month day) }
{
    if month > 12 || day > 31 {
        return None;
    }
    civil::Date::new(year as i16, month as i8, day as i8).ok()
}

/// The time with these numbers, where a clock shows it.
fn time_of(hour: u16, minute: u16, second: u16, nanosecond: u32) -> Option<civil::Time>
    requires { nanosecond < 1_000_000_000 }
    ensures found { is_some result ≡ is_clock hour minute second }
    ensures parts { IfSome result (λ t. HasClock t hour minute second nanosecond) }
{
    if hour > 23 || minute > 59 || second > 59 {
        return None;
    }
    civil::Time::new(hour as i8, minute as i8, second as i8, nanosecond as i32).ok()
}

/// The year whose last two digits these are: 00 to 49 are 2000 to 2049, 50 to 99 are 1950 to 1999.
fn full_year(two: u16) -> u16
    requires { two < 10000 }
    ensures { result ≡ full_year two }
{
    if two < 50 { 2000 + two } else { 1900 + two }
}

/// The year of the first four digits.
fn year_at(text: &[u8]) -> u16
    requires long { 4 ≤ length text.now }
    requires digits { list_all is_digit (take 4 text.now) ≡ true }
    ensures value { result ≡ digits_at text.now 0 4 }
    ensures bound { result < 10000 }
{
    two_at(text, 0) * 100 + two_at(text, 2)
}

/// The nanoseconds that a time's ending says: `Z`, or a point, one to nine digits of which the last is no 0, and `Z`.
fn nanosecond_of(ending: &[u8]) -> Option<u32>
    ensures found { is_some result ≡ is_ending ending.now }
    ensures value { IfSome result (λ n. (n < 1_000_000_000) × (fraction n ++ (0x5A ∷ []) ≡ ending.now)) }
{
    match ending {
        [b'Z'] => Some(0),
        [b'.', digits @ .., b'Z'] => fraction_of(digits),
        _ => None,
    }
}

/// The nanoseconds of a fraction's digits; none where they aren't one to nine, or the last is 0.
fn fraction_of(digits: &[u8]) -> Option<u32>
    ensures found { is_some result ≡ is_fraction digits.now }
    ensures value { IfSome result (λ n. (n < 1_000_000_000) × (fraction n ≡ 0x2E ∷ digits.now)) }
{
    let [.., last] = digits else {
        return None;
    };
    if digits.len() > 9 || !are_digits(digits) || *last == b'0' {
        return None;
    }
    Some(number_of(digits) * 10u32.pow(9 - digits.len() as u32))
}

/// The number of at most nine digits.
fn number_of(digits: &[u8]) -> u32
    requires few { length digits.now ≤ 9 }
    requires digits { list_all is_digit digits.now ≡ true }
    ensures value { result ≡ digits_at digits.now 0 (length digits.now) }
    ensures bound { result < 10 ^ length digits.now }
{
    let mut number = 0;
    for digit in digits {
        number = number * 10 + (*digit - b'0') as u32;
    }
    number
}

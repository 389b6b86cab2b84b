//! The text of a time or a day in an array of its own, and how digits are appended to it.
ghost use Rattle.std.specs.Prelude.{◌≡◌, ◌+◌, ◌≤◌, ◌<◌, ◌∷◌, ◌++◌, [], length};
ghost use Rattle.asn1_times.specs.Times.{decimal, pairs, without_zeros, fraction};

use std::marker::Model;

/// The octets of a time's text, at most 25: 14 digits, a point, nine digits and `Z`. They take no memory of their own.
#[derive(Debug, Drop)]
pub struct TimeText {
    octets: [u8; 25],
    length: usize,
}

impl Model for TimeText {
    ghost use Rattle.std.specs.Prelude.{◌≤◌, List, ℕ, take};

    ghost Value = { List ℕ };

    ghost view = { λ t. take t.length t.octets };

    ghost invariant = { λ t. t.length ≤ 25 };
}

impl TimeText {
    /// Two digits of each of these numbers, which are below 100.
    pub(crate) fn of_pairs(numbers: &[u8]) -> TimeText
        requires { length numbers.now ≤ 12 }
        ensures { result ≡ pairs numbers.now }
    {
        let mut text = TimeText {
            octets: [0; 25],
            length: 0,
        };
        for number in numbers {
            text.push(b'0' + *number / 10 % 10);
            text.push(b'0' + *number % 10);
        }
        text
    }

    /// Appends an octet.
    pub(crate) fn push(&mut self, octet: u8)
        requires { length self.old < 25 }
        ensures { self.new ≡ self.old ++ octet ∷ [] }
    {
        self.octets[self.length] = octet;
        self.length += 1;
    }

    /// Appends a point and the digits of a second's fraction, nothing where there is none.
    pub(crate) fn push_fraction(&mut self, nanosecond: u32)
        requires { length self.old + 10 ≤ 25 }
        ensures { self.new ≡ self.old ++ fraction nanosecond }
    {
        if nanosecond > 0 {
            self.push(b'.');
            self.push_without_zeros(9, nanosecond);
        }
    }

    /// Appends the digits of a number that has so many, without the zeros at the end.
    fn push_without_zeros(&mut self, count: usize, number: u32)
        requires { length self.old + count ≤ 25 }
        ensures { self.new ≡ self.old ++ without_zeros count number }
    {
        if count > 0 && number % 10 == 0 {
            self.push_without_zeros(count - 1, number / 10);
        } else {
            self.push_decimal(count, number);
        }
    }

    /// Appends that many of a number's lowest digits.
    fn push_decimal(&mut self, count: usize, number: u32)
        requires { length self.old + count ≤ 25 }
        ensures { self.new ≡ self.old ++ decimal count number }
    {
        if count > 0 {
            self.push_decimal(count - 1, number / 10);
            self.push(b'0' + (number % 10) as u8);
        }
    }

    /// The text's octets.
    pub fn as_bytes(&self) -> &[u8]
        ensures { result.now ≡ self.now }
    {
        &self.octets[..self.length]
    }
}

//! Reading enumerated values.

ghost use Rattle.std.specs.Prelude.{IfErr};
ghost use Rattle.oer_spec.specs.Reading.{Gives, IsNotForMemory};
ghost use Rattle.oer_spec.specs.Spelled.{IsAny, enumerated};
ghost use Rattle.oer_read.specs.Answers.{Answers};
ghost use Rattle.oer_read.specs.Enumerated.{value_at};
ghost use Rattle.oer_read.specs.Law.{Decodes, IsForMemory};

use crate::decoder::Decoder;
use asn1_core::{Codec, DecodeError, DecodeErrorKind, Enumerated, Tag};
use oer_leaf_read::read_enumerated;

/// The value at the front, and what is left.
#[tactic(auto, unfolding(crate::specs::Enumerated::value_at))]
fn read_value<E: Enumerated>(codec: Codec, input: &[u8]) -> Result<(E, &[u8]), DecodeErrorKind>
    ensures function { Gives (λ x. (x.0, x.1.now)) result (value_at E.of_number codec input.now) }
    ensures memory { IfErr result IsNotForMemory }
{
    let (discriminant, rest) = read_enumerated(codec, input)?;
    let value = E::from_discriminant(discriminant).ok_or(
        DecodeErrorKind::DiscriminantValueNotFound { discriminant },
    )?;
    Ok((value, rest))
}

impl<'input> Decoder<'input> {
    /// Reads an ENUMERATED (X.696, 11): a number from 0 to 127 in one octet, else a count of octets with the top bit set,
    /// and the number. No memory is taken.
    ///
    /// Refused, the first that applies: `Incomplete`; of a counted number no octets by `EmptyInteger`, a superfluous first
    /// octet in canonical mode by `NotValidCanonicalEncoding`, outside isize by `LengthExceedsPlatformWidth`, one of 0 to
    /// 127 in canonical mode by `NotValidCanonicalEncoding`; `DiscriminantValueNotFound` with the number.
    #[inline(always)]
    pub fn decode_enumerated<E: Enumerated>(&mut self, _tag: Tag) -> Result<E, DecodeError>
        ensures function { Answers (λ v. v) self.old result self.new (value_at E.of_number self.old.codec self.old.input) }
        ensures no_memory { IfErr result (λ e. IsForMemory e → ⊥) }
        ensures law { Decodes (λ v. enumerated (E.number v)) IsAny self.old result self.new }
    {
        let answer = read_value(self.codec(), self.octets());
        self.take(answer)
    }
}

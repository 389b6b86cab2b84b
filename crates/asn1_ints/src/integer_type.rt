//! The trait of types that an INTEGER is held in: from the octets of a number, and to its shortest octets (X.696, 10).
ghost use Rattle.std.specs.Prelude.{◌≡◌, ℤ, pos, Bool, true, false, int_lt};
ghost use Rattle.asn1_core.specs.Octets.{signed, unsigned};
ghost use Rattle.asn1_core.specs.Numbers.{signed_octets, unsigned_octets};
ghost use Rattle.asn1_ints.specs.Numbers.{if_in_i128};
ghost use Rattle.asn1_ints.specs.Octets.{Appends};
ghost use Rattle.asn1_ints.specs.Reading.{ReadsNumber};

use asn1_core::{AsnType, Codec, DecodeError};
use std::alloc::{AllocError, Global};

/// A type that an INTEGER (X.696, 10) is held in.
pub trait IntegerType: AsnType + Drop {
    /// The number of a value, and the numbers of the type.
    ghost number: { Self → ℤ };

    ghost admits: { ℤ → Bool };

    ghost TAKES_MEMORY: { Bool };

    /// Whether a value may own memory; reading one that doesn't never answers `OutOfMemory`.
    const TAKES_MEMORY: bool;

    /// The number of octets in two's complement, highest octet first.
    ///
    /// Refuses no octets by `EmptyInteger`, and a number that isn't one of the type by `IntegerOverflow`.
    fn try_from_signed_bytes(
        alloc: Global,
        octets: &[u8],
        codec: Codec,
    ) -> Result<Self, DecodeError>
        ensures { ReadsNumber number admits TAKES_MEMORY octets.now (signed octets.now) codec result };

    /// The number of unsigned octets, highest octet first.
    ///
    /// Refuses no octets by `EmptyInteger`, and a number that isn't one of the type by `IntegerOverflow`.
    fn try_from_unsigned_bytes(
        alloc: Global,
        octets: &[u8],
        codec: Codec,
    ) -> Result<Self, DecodeError>
        ensures { ReadsNumber number admits TAKES_MEMORY octets.now (pos (unsigned octets.now)) codec result };

    /// The number, where it is one of i128.
    fn to_i128(&self) -> Option<i128>
        ensures value { result ≡ if_in_i128 (number self.now) }
        ensures admitted { admits (number self.now) ≡ true };

    /// Whether the number is below zero.
    fn is_negative(&self) -> bool
        ensures value { result ≡ int_lt (number self.now) (pos 0) }
        ensures admitted { admits (number self.now) ≡ true };

    /// Appends the shortest octets in two's complement, highest octet first.
    ///
    /// Where memory is refused, `out` begins with what it was.
    fn write_signed_bytes_be(&self, out: &mut Vec<u8>) -> Result<(), AllocError>
        ensures { Appends result (signed_octets (number self.now)) out.old.items out.new.items };

    /// Appends the shortest unsigned octets of a number that isn't negative, highest octet first.
    ///
    /// Where memory is refused, `out` begins with what it was.
    fn write_unsigned_bytes_be(&self, out: &mut Vec<u8>) -> Result<(), AllocError>
        requires { int_lt (number self.now) (pos 0) ≡ false }
        ensures { Appends result (unsigned_octets (number self.now)) out.old.items out.new.items };
}

//! BMPString and UniversalString: made of units of 16 and of 32 bits, the highest octet of each first.
ghost use Rattle.std.specs.Prelude.{◌≡◌, IfOk};
ghost use Rattle.std.specs.Int.{w16, w32};
ghost use Rattle.std.specs.List.{flat_map};
ghost use Rattle.asn1_strings.specs.Characters.{units_octets};

use crate::characters::{BmpString, UniversalString};
use std::alloc::{AllocError, Global};
use std::mem::size_of_val;

/// A unit of a text.
trait Unit: Copy {
    ghost use Rattle.std.specs.Prelude.{◌≡◌, ◌++◌, List, ℕ, OnOk};

    /// The octets that stand for the unit.
    ghost octets: { Self → List ℕ };

    /// Writes the unit at the end of the octets.
    fn put(self, text: &mut Vec<u8>) -> Result<(), AllocError>
        ensures { OnOk result (text.new.items ≡ text.old.items ++ octets self) };
}

impl Unit for u16 {
    ghost use Rattle.std.specs.Int.{w16, to_be_bytes};

    ghost octets = { to_be_bytes w16 };

    fn put(self, text: &mut Vec<u8>) -> Result<(), AllocError> {
        text.extend_from_slice(&u16::to_be_bytes(self))
    }
}

impl Unit for u32 {
    ghost use Rattle.std.specs.Int.{w32, to_be_bytes};

    ghost octets = { to_be_bytes w32 };

    fn put(self, text: &mut Vec<u8>) -> Result<(), AllocError> {
        text.extend_from_slice(&u32::to_be_bytes(self))
    }
}

/// The octets of the units, one unit after the other.
fn octets_of<U: Unit>(alloc: Global, units: &[U]) -> Result<Vec<u8>, AllocError>
    ensures { IfOk result (λ v. v.items ≡ flat_map U.octets units.now) }
{
    let mut octets = Vec::with_capacity(alloc, size_of_val(units))?;
    for unit in units {
        unit.put(&mut octets)?;
    }
    Ok(octets)
}

impl BmpString {
    /// The text of these 16-bit units.
    pub fn from_units(alloc: Global, units: &[u16]) -> Result<BmpString, AllocError>
        ensures { IfOk result (λ s. s ≡ units_octets w16 units.now) }
    {
        Ok(BmpString::from_vec(octets_of(alloc, units)?))
    }
}

impl UniversalString {
    /// The text of these 32-bit units: of a `char` its number.
    pub fn from_units(alloc: Global, units: &[u32]) -> Result<UniversalString, AllocError>
        ensures { IfOk result (λ s. s ≡ units_octets w32 units.now) }
    {
        Ok(UniversalString::from_vec(octets_of(alloc, units)?))
    }
}

//! OBJECT IDENTIFIER: its arcs, and the contents octets that they are written as and read from (X.690, 8.19).
ghost use Rattle.std.specs.Prelude.{◌≡◌, ◌≤◌, ◌++◌, ◌⊎◌, List, ℕ, true, false, if◌then◌else◌, IfOk, IfErr, OnOk};
ghost use Rattle.std.specs.Option.{option_map};
ghost use Rattle.std.specs.List.{flat_map};
ghost use Rattle.asn1_core.specs.Octets.{Appends};
ghost use Rattle.asn1_strings.specs.Identifiers.{is_start, is_identifier, arcs_octets, high_groups, part_octets, is_zero_group, arcs_of, last_part, part_arcs, SpellsIdentifier};

use asn1_core::{
    AsnType, Codec, Constraints, DecodeError, DecodeErrorKind, EncodeError, EncodeErrorKind, Tag,
};
use std::alloc::{AllocError, Global};
use std::marker::Model;

/// OBJECT IDENTIFIER (X.680, clause 32): at least two arcs, of which the first is 0, 1 or 2, and the second below 40
/// unless the first is 2.
#[derive(Debug, Drop)]
pub struct ObjectIdentifier {
    arcs: Vec<u32>,
}

impl Model for ObjectIdentifier {
    ghost use Rattle.std.specs.Prelude.{◌≡◌, List, ℕ, true};
    ghost use Rattle.asn1_strings.specs.Identifiers.{is_identifier};

    ghost Value = { List ℕ };

    ghost view = { λ i. i.arcs.items };

    ghost invariant = { λ i. is_identifier i.arcs.items ≡ true };
}

impl PartialEq for ObjectIdentifier {
    ghost use Rattle.std.specs.Prelude.{nat_eq};
    ghost use Rattle.std.specs.Cmp.Lexicographic.{pointwise, nat_list_eq_equiv};
    ghost use Rattle.std.specs.Cmp.{partial_equiv_from_equiv};

    ghost eq = { pointwise nat_eq };

    ghost laws = { partial_equiv_from_equiv nat_list_eq_equiv };

    fn eq(&self, other: &ObjectIdentifier) -> bool {
        self.arcs == other.arcs
    }
}

impl Eq for ObjectIdentifier {
    ghost use Rattle.std.specs.Cmp.Lexicographic.{nat_list_eq_equiv};

    ghost laws = { nat_list_eq_equiv };
}

impl AsnType for ObjectIdentifier {
    ghost use Rattle.asn1_core.specs.declared.tag.TheConstants.Tag.{OBJECT_IDENTIFIER};
    ghost use Rattle.asn1_core.specs.declared.constraints.TheConstants.Constraints.{NONE};
    ghost use Rattle.std.specs.Prelude.{false, refl};

    ghost TAG = { OBJECT_IDENTIFIER };

    const TAG: Tag = Tag::OBJECT_IDENTIFIER;

    ghost CONSTRAINTS = { NONE };

    const CONSTRAINTS: Constraints = Constraints::NONE;

    ghost consistent = { refl };
}

impl Clone for ObjectIdentifier {
    ghost is_clone = { λ x y. y ≡ x };

    /// The same arcs.
    fn clone(&self) -> Result<ObjectIdentifier, AllocError> {
        let arcs = Vec::from_slice(*self.arcs.allocator(), self.arcs.as_slice())?;
        Ok(ObjectIdentifier { arcs })
    }
}

impl ObjectIdentifier {
    /// The identifier with these arcs; none where they are none.
    pub fn new(arcs: Vec<u32>) -> Option<ObjectIdentifier>
        ensures { result ≡ (if is_identifier arcs.items then Some arcs.items else None) }
    {
        if is_identifier(arcs.as_slice()) {
            Some(ObjectIdentifier { arcs })
        } else {
            None
        }
    }

    /// The arcs.
    pub fn arcs(&self) -> &[u32]
        ensures value { result.now ≡ self.now }
        ensures identifier { is_identifier self.now ≡ true }
    {
        self.arcs.as_slice()
    }
}

/// Whether the arcs are an object identifier.
pub fn is_identifier(arcs: &[u32]) -> bool
    ensures { result ≡ is_identifier arcs.now }
{
    match arcs {
        [first, second, ..] => is_start(*first, *second),
        _ => false,
    }
}

/// Whether an identifier may begin with these arcs.
fn is_start(first: u32, second: u32) -> bool
    ensures { result ≡ is_start first second }
{
    first < 2 && second < 40 || first == 2
}

/// Appends the contents octets of the object identifier with these arcs (X.690, 8.19).
///
/// `InvalidObjectIdentifier` where they are none. The error's mode is `Coer`, as of all writing. What memory was
/// refused for may be appended in part.
pub fn object_identifier_as_bytes(
    arcs: &[u32],
    _codec: Codec,
    out: &mut Vec<u8>,
) -> Result<(), EncodeError>
    ensures octets { Appends result (arcs_octets arcs.now) out.old.items out.new.items }
    ensures ok { OnOk result (is_identifier arcs.now ≡ true) }
    ensures unchanged { is_identifier arcs.now ≡ false → out.new ≡ out.old }
    ensures err { IfErr result (λ e. (e.codec ≡ Codec.Coer) × (e.kind ≡
        (if is_identifier arcs.now then EncodeErrorKind.OutOfMemory else EncodeErrorKind.InvalidObjectIdentifier))) }
{
    match arcs {
        [first, second, rest @ ..] if is_identifier(arcs) => {
            write_part(*first as u64 * 40 + *second as u64, out)?;
            write_parts(rest, out)?;
            Ok(())
        }
        _ => Err(EncodeError::from(EncodeErrorKind::InvalidObjectIdentifier)),
    }
}

/// Appends the octets of each part.
fn write_parts(parts: &[u32], out: &mut Vec<u8>) -> Result<(), EncodeErrorKind>
    ensures octets { Appends result (flat_map part_octets parts.now) out.old.items out.new.items }
    ensures err { IfErr result (λ e. e ≡ EncodeErrorKind.OutOfMemory) }
{
    for part in parts {
        write_part(*part as u64, out)?;
    }
    Ok(())
}

/// Appends the groups of seven bits of a part, the highest first.
fn write_part(part: u64, out: &mut Vec<u8>) -> Result<(), EncodeErrorKind>
    ensures octets { Appends result (part_octets part) out.old.items out.new.items }
    ensures err { IfErr result (λ e. e ≡ EncodeErrorKind.OutOfMemory) }
{
    write_high_groups(part / 128, out)?;
    out.push((part % 128) as u8)?;
    Ok(())
}

/// Appends the groups of seven bits of a number, the highest first, each with its top bit set; none of zero.
fn write_high_groups(number: u64, out: &mut Vec<u8>) -> Result<(), EncodeErrorKind>
    ensures octets { Appends result (high_groups number) out.old.items out.new.items }
    ensures err { IfErr result (λ e. e ≡ EncodeErrorKind.OutOfMemory) }
{
    if number == 0 {
        return Ok(());
    }
    write_high_groups(number / 128, out)?;
    out.push((number % 128) as u8 + 128)?;
    Ok(())
}

/// The object identifier of these contents octets (X.690, 8.19).
///
/// `InvalidObjectIdentifier` where they are those of none: no octets, a part that begins with the octet 80, a last
/// octet with its top bit set, or an arc past `u32::MAX`. `codec` is the mode that an error names.
pub fn object_identifier_from_bytes(
    alloc: Global,
    octets: &[u8],
    codec: Codec,
) -> Result<ObjectIdentifier, DecodeError>
    ensures ok { IfOk result (λ arcs. SpellsIdentifier octets.now arcs) }
    ensures codec { IfErr result (λ e. e.codec ≡ codec) }
    ensures err { IfErr result (λ e. (e.kind ≡ DecodeErrorKind.OutOfMemory)
        ⊎ (e.kind ≡ DecodeErrorKind.InvalidObjectIdentifier)
        × ((arcs : List ℕ) → SpellsIdentifier octets.now arcs → ⊥)) }
{
    match arcs_of(alloc, octets) {
        Ok(Some(arcs)) => Ok(ObjectIdentifier { arcs }),
        Ok(None) => Err(DecodeError {
            kind: DecodeErrorKind::InvalidObjectIdentifier,
            codec,
        }),
        Err(_) => Err(DecodeError {
            kind: DecodeErrorKind::OutOfMemory,
            codec,
        }),
    }
}

/// The arcs of an identifier's octets; none where they are those of none.
fn arcs_of(alloc: Global, octets: &[u8]) -> Result<Option<Vec<u32>>, AllocError>
    ensures { IfOk result (λ arcs. option_map (λ v. v.items) arcs ≡ arcs_of octets.now) }
{
    let mut arcs = Vec::new(alloc);
    let mut part = 0;
    let mut inside = false;
    for octet in octets {
        if is_zero_group(inside, *octet) {
            return Ok(None);
        }
        part = part * 128 + (*octet % 128) as u64;
        if part > last_part(arcs.as_slice()) {
            return Ok(None);
        }
        if *octet < 128 {
            push_part(&mut arcs, part)?;
            part = 0;
            inside = false;
        } else {
            inside = true;
        }
    }
    if inside || arcs.is_empty() {
        return Ok(None);
    }
    Ok(Some(arcs))
}

/// Whether a part begins with a group of zero bits, which says nothing.
fn is_zero_group(inside: bool, octet: u8) -> bool
    ensures { result ≡ is_zero_group inside octet }
{
    !inside && octet == 0x80
}

/// The greatest part that gives arcs of `u32`, behind these arcs.
fn last_part(arcs: &[u32]) -> u64
    ensures { result ≡ last_part arcs.now }
{
    match arcs {
        [] => 80 + u32::MAX as u64,
        _ => u32::MAX as u64,
    }
}

/// Appends the arcs of a part: two of the first one.
fn push_part(arcs: &mut Vec<u32>, part: u64) -> Result<(), AllocError>
    requires { part ≤ last_part arcs.old.items }
    ensures { OnOk result (arcs.new.items ≡ arcs.old.items ++ part_arcs arcs.old.items part) }
{
    if !arcs.is_empty() {
        arcs.push(part as u32)?;
        return Ok(());
    }
    let first = (part / 40).min(2);
    arcs.push(first as u32)?;
    arcs.push((part - first * 40) as u32)?;
    Ok(())
}

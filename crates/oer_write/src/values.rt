//! A value's octets behind those of before, by an encoder that is lent.
ghost use Rattle.std.specs.Prelude.{◌≡◌, [], ◌++◌, ◌⊎◌, length, OnOk, IfErr};
ghost use Rattle.asn1_core.specs.declared.codec.Codec.TheVariants.{Coer};
ghost use Rattle.asn1_core.specs.declared.error.EncodeErrorKind.TheVariants.{OutOfMemory};
ghost use Rattle.oer_spec.specs.Encoding.{IsEncodable, canonical_octets};
ghost use Rattle.oer_spec.specs.Spelled.{IsConsistent};
ghost use Rattle.oer_spec.specs.Failures.{Fails};
ghost use Rattle.oer_spec.specs.Writing.{BeginsWith};
ghost use Rattle.oer_write.specs.Held.{Kept};
ghost use Rattle.oer_write.specs.Layout.{Adds, Ascends};

use crate::encode::Encode;
use crate::encoder::Encoder;
use crate::insertions::Insertions;
use asn1_core::{Constraints, EncodeError, Tag};
use std::alloc::Global;

/// Appends a value's octets to those of before, where nothing is open; the list of insertions is lent, and left empty.
#[inline(always)]
pub(crate) fn append_value<E: Encode>(
    alloc: Global,
    tag: Tag,
    constraints: Constraints,
    value: &E,
    out: &mut Vec<u8>,
    insertions: &mut Insertions,
) -> Result<(), EncodeError>
    requires consistent { IsConsistent constraints }
    requires none { insertions.old ≡ [] }
    ensures done { OnOk result (IsEncodable (E.tree constraints value.now) × (out.new.items ≡ out.old.items ++ canonical_octets (E.tree constraints value.now))) }
    ensures value { OnOk result (E.IsValue value.now) }
    ensures refused { IfErr result (λ x. (x.kind ≡ OutOfMemory) ⊎ Fails (E.tree constraints value.now) x.kind) }
    ensures mode { IfErr result (λ x. x.codec ≡ Coer) }
    ensures begins { BeginsWith out.old.items out.new.items }
    ensures none { insertions.new ≡ [] }
{
    let empty = Insertions::new(alloc);
    let pieces = std::mem::replace(&mut *insertions, empty);
    let mut encoder = Encoder::lent(alloc, false, pieces, &mut *out);
    let answer = value.encode_with_tag_and_constraints(&mut encoder, tag, constraints);
    let (octets, pieces) = encoder.into_parts();
    *out = octets;
    *insertions = pieces;
    answer
}

/// Appends a value's octets to those of before, within what is open.
#[inline(always)]
pub(crate) fn append_within<E: Encode>(
    alloc: Global,
    tag: Tag,
    constraints: Constraints,
    value: &E,
    out: &mut Vec<u8>,
    insertions: &mut Insertions,
) -> Result<(), EncodeError>
    requires consistent { IsConsistent constraints }
    requires ascends { Ascends 0 insertions.old (length out.old.items) }
    ensures done { OnOk result (IsEncodable (E.tree constraints value.now) × Adds (canonical_octets (E.tree constraints value.now)) out.old.items insertions.old out.new.items insertions.new) }
    ensures value { OnOk result (E.IsValue value.now) }
    ensures refused { IfErr result (λ x. (x.kind ≡ OutOfMemory) ⊎ Fails (E.tree constraints value.now) x.kind) }
    ensures mode { IfErr result (λ x. x.codec ≡ Coer) }
    ensures kept { Kept out.old.items insertions.old out.new.items insertions.new }
{
    let empty = Insertions::new(alloc);
    let pieces = std::mem::replace(&mut *insertions, empty);
    let mut encoder = Encoder::lent(alloc, true, pieces, &mut *out);
    let answer = value.encode_with_tag_and_constraints(&mut encoder, tag, constraints);
    let (octets, pieces) = encoder.into_parts();
    *out = octets;
    *insertions = pieces;
    answer
}

//! The root components of a set, whose octets lie one behind another.
ghost use Rattle.std.specs.Prelude.{◌≡◌, ◌+◌, ◌*◌, ◌^◌, ◌<◌, ◌++◌, [], ◌∷◌, ◌⊎◌, true, take, drop, length, OnOk, OnErr, IfErr};
ghost use Rattle.asn1_core.specs.Octets.{Octets};
ghost use Rattle.asn1_core.specs.Tags.{class_number};
ghost use Rattle.asn1_core.specs.declared.codec.Codec.TheVariants.{Coer};
ghost use Rattle.asn1_core.specs.declared.error.EncodeErrorKind.TheVariants.{OutOfMemory};
ghost use Rattle.oer_spec.specs.Encoding.{IsEncodable, canonical_octets};
ghost use Rattle.oer_spec.specs.Failures.{Fails};
ghost use Rattle.oer_spec.specs.Places.{absent};
ghost use Rattle.oer_spec.specs.Spelled.{IsConsistent};

use crate::encode::Encode;
use crate::insertions::Insertions;
use crate::values::append_value;
use asn1_core::{Constraints, EncodeError, EncodeErrorKind, Tag};
use std::alloc::Global;
use std::marker::Model;

/// A root component of a set.
#[derive(Drop)]
pub(crate) struct Component {
    pub(crate) tag: Tag,
    /// The tag as one number, in the order of tags.
    pub(crate) key: u64,
    /// Whether the preamble has a bit for it.
    pub(crate) marked: bool,
    /// Whether it is present.
    pub(crate) bit: bool,
    /// Where its octets begin, and how many it has.
    pub(crate) start: usize,
    pub(crate) size: usize,
    ghost keyed: { key ≡ class_number tag.class * 2 ^ 32 + tag.value },
    ghost small: { tag.value < 2 ^ 32 },
}

/// A number that orders tags as they are ordered: by class, then by number.
fn tag_key(tag: Tag) -> u64
    ensures { result ≡ class_number tag.class * 2 ^ 32 + tag.value }
{
    u64::from(tag.class.number()) * 0x1_0000_0000 + tag.value as u64
}

impl Component {
    pub(crate) fn new(tag: Tag, marked: bool, bit: bool, start: usize, size: usize) -> Component
        ensures tag { result.tag ≡ tag }
        ensures marked { result.marked ≡ marked }
        ensures bit { result.bit ≡ bit }
        ensures start { result.start ≡ start }
        ensures size { result.size ≡ size }
    {
        Component {
            tag,
            key: tag_key(tag),
            marked,
            bit,
            start,
            size,
        }
    }
}

/// The root components of an open set, in the order handed in.
#[derive(Drop)]
pub(crate) struct Components {
    pub(crate) places: Vec<Component>,
    pub(crate) octets: Vec<u8>,
    /// The one list that serves the insertions of each component: none is left between two of them.
    pub(crate) insertions: Insertions,
}

impl Model for Components {
    ghost use Rattle.std.specs.Prelude.{List};
    ghost use Rattle.oer_spec.specs.Places.{Item};

    ghost Value = { List Item };

    ghost use Rattle.oer_write.specs.Kept.{kept, AreWithin};

    ghost view = { kept };

    ghost invariant = { AreWithin };
}

impl Components {
    /// No components. Takes no memory.
    #[inline(always)]
    pub(crate) fn new(alloc: Global) -> Components
        ensures { result ≡ [] }
    {
        Components {
            places: Vec::new(alloc),
            octets: Vec::new(alloc),
            insertions: Insertions::new(alloc),
        }
    }

    /// Records a component that is absent.
    #[inline(never)]
    pub(crate) fn push_absent(&mut self, tag: Tag) -> Result<(), EncodeErrorKind>
        ensures done { OnOk result (self.new ≡ self.old ++ (absent tag ∷ [])) }
        ensures refused { IfErr result (λ k. k ≡ OutOfMemory) }
    {
        self.places.push(Component::new(tag, true, false, 0, 0))?;
        Ok(())
    }

    /// Writes a component behind the others.
    #[inline(never)]
    pub(crate) fn push_value<E: Encode>(
        &mut self,
        alloc: Global,
        tag: Tag,
        constraints: Constraints,
        marked: bool,
        value: &E,
    ) -> Result<(), EncodeError>
        requires { IsConsistent constraints }
        ensures encodable { OnOk result (IsEncodable (E.tree constraints value.now)) }
        ensures done { OnOk result (self.new ≡ self.old ++ (record { tag = tag; marked = marked; bit = true; octets = canonical_octets (E.tree constraints value.now) } ∷ [])) }
        ensures value { OnOk result (E.IsValue value.now) }
        ensures refused { IfErr result (λ x. (x.kind ≡ OutOfMemory) ⊎ Fails (E.tree constraints value.now) x.kind) }
        ensures mode { IfErr result (λ x. x.codec ≡ Coer) }
    {
        let start = self.octets.len();
        append_value(
            alloc,
            tag,
            constraints,
            value,
            &mut self.octets,
            &mut self.insertions,
        )?;
        let size = self.octets.len() - start;
        push_place(
            &mut self.places,
            Component::new(tag, marked, true, start, size),
        )?;
        Ok(())
    }
}

/// Records a component's place.
pub(crate) fn push_place(
    places: &mut Vec<Component>,
    place: Component,
) -> Result<(), EncodeErrorKind>
    ensures done { OnOk result (places.new.items ≡ places.old.items ++ (place ∷ [])) }
    ensures refused { IfErr result (λ k. k ≡ OutOfMemory) }
    ensures unchanged { OnErr result (places.new.items ≡ places.old.items) }
{
    places.push(place)?;
    Ok(())
}

/// The octets of a component.
pub(crate) fn body_of<'octets>(component: &Component, octets: &'octets [u8]) -> &'octets [u8]
    ensures { result.now ≡ take component.now.size (drop component.now.start octets.now) }
{
    let (_, rest) = octets.split_at(component.start.min(octets.len()));
    rest.split_at(component.size.min(rest.len())).0
}

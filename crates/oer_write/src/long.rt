//! The octets of insertions that have more than eight.
ghost use Rattle.std.specs.Prelude.{◌≡◌, [], ◌++◌, length, OnOk, IfErr};
ghost use Rattle.asn1_core.specs.declared.error.EncodeErrorKind.TheVariants.{OutOfMemory};

use asn1_core::EncodeErrorKind;
use std::alloc::Global;
use std::marker::Model;

/// Octets one behind another. They are rare, so that they take two words of what holds them, and memory once there are some.
#[derive(Drop)]
pub(crate) struct LongOctets {
    held: Option<Box<Vec<u8>>>,
}

impl Model for LongOctets {
    ghost use Rattle.asn1_core.specs.Octets.{Octets};

    ghost Value = { Octets };

    ghost use Rattle.oer_write.specs.Slotted.{long_seen};

    ghost view = { long_seen };
}

impl LongOctets {
    /// No octets. Takes no memory.
    #[inline(always)]
    pub(crate) fn new() -> LongOctets
        ensures { result ≡ [] }
    {
        LongOctets { held: None }
    }

    /// How many there are.
    pub(crate) fn len(&self) -> usize
        ensures { result ≡ length self.now }
    {
        self.as_slice().len()
    }

    /// All of them.
    #[inline(always)]
    pub(crate) fn as_slice(&self) -> &[u8]
        ensures { result.now ≡ self.now }
    {
        match &self.held {
            None => &[],
            Some(octets) => octets.as_slice(),
        }
    }

    /// Appends some.
    pub(crate) fn append(&mut self, alloc: Global, more: &[u8]) -> Result<(), EncodeErrorKind>
        ensures done { OnOk result (self.new ≡ self.old ++ more.now) }
        ensures refused { IfErr result (λ k. (k ≡ OutOfMemory) × (self.new ≡ self.old)) }
    {
        if let Some(octets) = &mut self.held {
            octets.extend_from_slice(more)?;
            return Ok(());
        }
        let mut first = Vec::new(alloc);
        first.extend_from_slice(more)?;
        self.held = Some(Box::new(alloc, first)?);
        Ok(())
    }

    /// Leaves none.
    #[inline(always)]
    pub(crate) fn clear(&mut self)
        ensures { self.new ≡ [] }
    {
        if let Some(octets) = &mut self.held {
            octets.clear();
        }
    }
}

//! How a value lies in octets that hold it.

use anyhow::{Error, Result};
use std::alloc::Global;

/// What a value lies in.
#[derive(Clone, Copy)]
pub enum Nest {
    /// Nothing.
    Plain,
    /// A box.
    Boxed,
    /// A sequence, as its only component.
    Held,
    /// A list, twice.
    Listed,
    /// An unordered list, twice.
    Unordered,
    /// A sequence, as its addition, behind a boolean.
    Added,
}

/// All in which there is something around the value.
pub const AROUND: [Nest; 5] = [
    Nest::Boxed,
    Nest::Held,
    Nest::Listed,
    Nest::Unordered,
    Nest::Added,
];

impl Nest {
    /// The octets that hold a value of these octets, of which an addition takes at most 127.
    pub fn around(self, alloc: Global, inner: &[u8]) -> Result<Vec<u8>> {
        let mut octets = Vec::new(alloc);
        match self {
            Nest::Plain | Nest::Boxed | Nest::Held => {}
            Nest::Listed | Nest::Unordered => {
                octets.extend_from_slice(&[1, 2])?;
                octets.extend_from_slice(inner)?;
            }
            Nest::Added => {
                if inner.len() > 127 {
                    return Err(Error::msg("too long for an addition"));
                }
                octets.extend_from_slice(&[0x80, 0xff, 0x02, 0x07, 0x80, inner.len() as u8])?;
            }
        }
        octets.extend_from_slice(inner)?;
        Ok(octets)
    }
}

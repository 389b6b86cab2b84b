//! Marks: requests of sizes that nothing else makes. What is asked for between the two is counted, and refused, by
//! scripts/memory.
use anyhow::{Error, Result};
use std::alloc::Global;

/// The octets of the mark that counting begins behind.
const FIRST: usize = 54_321;

/// The octets of the mark that ends it.
const LAST: usize = 54_323;

/// Asks for so many octets, and lets them go.
fn ask(alloc: Global, size: usize) -> Result<()> {
    let mut octets: Vec<u8> = Vec::with_capacity(alloc, size)?;
    octets.push(1)?;
    if octets.len() == 1 {
        Ok(())
    } else {
        Err(Error::msg("no mark"))
    }
}

/// Counting begins.
pub fn begin(alloc: Global) -> Result<()> {
    ask(alloc, FIRST)
}

/// Counting ends.
pub fn end(alloc: Global) -> Result<()> {
    ask(alloc, LAST)
}

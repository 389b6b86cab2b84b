//! What is measured of a value.

use anyhow::Result;
use oer_write::Encode;
use oertool_words::known::OnType;
use rasn_oer::{Decode, coer, oer};
use std::alloc::Global;
use std::fmt::Debug;
use std::rt::Clock;
use std::time::Instant;

/// What is done with the value.
#[derive(Clone, Copy)]
pub(crate) enum Way {
    /// It is written in canonical octets.
    Encode,
    /// These are read canonically.
    Decode,
    /// These are read leniently.
    Lenient,
}

/// What is done with the value, and how often.
#[derive(Drop)]
pub(crate) struct Plan {
    pub(crate) way: Way,
    pub(crate) times: u32,
}

/// The octets of the value, and the nanoseconds of one run.
#[derive(Drop)]
pub(crate) struct Figures {
    pub(crate) octets: usize,
    pub(crate) nanoseconds: u128,
}

/// Writes the value, or reads its octets.
fn once<T: Encode + Decode>(alloc: Global, way: Way, value: &T, octets: &[u8]) -> Result<()> {
    match way {
        Way::Encode => {
            let _octets = coer::encode(alloc, value)?;
        }
        Way::Decode => {
            let _value: T = coer::decode(alloc, octets)?;
        }
        Way::Lenient => {
            let _value: T = oer::decode(alloc, octets)?;
        }
    }
    Ok(())
}

/// Writes the value, or reads its octets, as often as the plan says.
pub(crate) fn measure<C: Clock, T: Encode + Decode>(
    clock: &C,
    alloc: Global,
    plan: &Plan,
    value: &T,
) -> Result<Option<Figures>> {
    let octets = coer::encode(alloc, value)?;
    let start = Instant::now(clock)?;
    for _ in 0..plan.times {
        once(alloc, plan.way, value, octets.as_slice())?;
    }
    let spent = start.elapsed(clock)?.as_nanos();
    let times = u128::from(plan.times);
    Ok(Some(Figures {
        octets: octets.len(),
        nanoseconds: if times == 0 { 0 } else { spent / times },
    }))
}

/// Octets of the value that is measured.
#[derive(Drop)]
pub(crate) struct Octets<'a, C: Clock> {
    pub(crate) clock: &'a C,
    pub(crate) alloc: Global,
    pub(crate) plan: Plan,
    pub(crate) octets: &'a [u8],
}

impl<'a, C: Clock> OnType for Octets<'a, C> {
    type Output = Result<Option<Figures>>;

    fn on<T: Decode + Encode + Debug + PartialEq>(self) -> Result<Option<Figures>> {
        // leniently: so the elements of an unordered list can be handed in in any order
        let value: T = oer::decode(self.alloc, self.octets)?;
        measure(self.clock, self.alloc, &self.plan, &value)
    }
}

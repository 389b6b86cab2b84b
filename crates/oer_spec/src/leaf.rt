//! What the readers and the writers of leaves share: layouts of integers, counts of octets, types of times.

mod bits;
mod time_type;
mod widths;

pub use bits::{least_size, octets_for, unused_for};
pub use time_type::TimeType;
pub use widths::{IntegerWidth, is_in_range, width_of};

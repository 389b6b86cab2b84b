//! Whole numbers of any size, and the types that ASN.1's INTEGER is held in.
#![tactic(auto)]

mod constrained;
mod integer;
mod integer_type;
mod number;
mod octets;
mod primitive;
mod short;

pub use constrained::{ConstrainedInteger, IntegerRange};
pub use integer::Integer;
pub use integer_type::IntegerType;
pub use octets::{has_superfluous_sign, has_superfluous_zero, i128_of, shortest_signed};
pub use primitive::PrimitiveInteger;

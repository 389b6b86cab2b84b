//! Tests of the crates of values, of the readers and writers of leaves, by the two crates that hand them on, and of octets from
//! JSON: a row of text has what goes in, and behind `=>` what is answered.
#![tactic(auto)]

#[cfg(test)]
mod base;
#[cfg(test)]
mod integers;
#[cfg(test)]
mod json;
#[cfg(test)]
mod leaves;
#[cfg(test)]
mod numbers;
#[cfg(test)]
mod values;

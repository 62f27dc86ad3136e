//! The verdict on a source text: the typed program that it is, or the refusal by the first rule that it breaks.
#![tactic(auto)]

mod accepted;
mod coarrays;
mod laws;
#[cfg(test)]
mod tests;
mod verdict;

pub use accepted::Accepted;
pub use laws::{never_accepted_and_refused, one_program, one_refusal};
pub use verdict::compile;

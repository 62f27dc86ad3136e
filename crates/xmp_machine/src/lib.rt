//! The machine of a node that meets others: what it says to them, how it goes on, and its run from stop to stop.
#![tactic(auto)]

mod going;
mod heard;
mod left;
mod machine;
mod moving;
mod reducing;
mod resuming;
mod running;
mod saying;
mod tasks;
mod telling;

pub use left::Left;
pub use machine::Machine;

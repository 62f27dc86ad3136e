//! Loop directives at the nodes' stores.
//!
//! `run_parts` promises the definition's step: each node begins its reduction variables, does the body for the index tuples
//! whose point it owns, in order and up to its first trap, and says how its part ended; the ends joined give the trap of
//! the iteration that comes first, or the values of the reduction variables at every node. No node goes through the
//! iterations of others: from a turn that isn't its own it jumps to the next position that it owns (`Axis`). A node's turns
//! are counted by its tuples before the part, so that a trap doesn't change the count.
#![tactic(auto)]

mod axis;
mod beginning;
mod closing;
mod counting;
mod end;
mod lists;
mod loops;
mod nest;
mod part;
mod places;
mod turns;
mod walking;
mod words;

pub use loops::run_parts;

//! Tasks over the stores of all nodes.
//!
//! `run_tasks` lets each node run the tasks of which it is a member, on its own store; the least node of each set tells
//! the others how its task ended, and node 0 prints what the tasks printed, up to the first in the text that ended
//! early, whose end is the end of all. It promises the definition's step, the words that are sent included.
#![tactic(auto)]

mod ends;
mod own;
mod sets;
mod tasks;
mod telling;

pub use tasks::run_tasks;

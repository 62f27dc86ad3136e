//! Plans: what a program does to the copies of its data, as a tree of events, and the paths through that tree.
//! `check` finds the first place at which some path reads a copy that may be out of date.
//!
//! Contracts see a tree as a plan (`plan_of`), a plan by its paths, which are lists of events, and a broken rule by a
//! path that breaks it. The code goes through the tree once, and once more in each loop; it keeps one table of the
//! copies that may be out of date, and a trail by which a change of the table is undone.
#![tactic(auto)]

mod copies;
mod event;
mod laws;
mod node_sets;
mod verdict;
mod walk;

pub use event::{Event, Flow};
pub use laws::{one_verdict, safe_along_paths, safe_or_broken};
pub use verdict::check;

#[cfg(test)]
mod tests;

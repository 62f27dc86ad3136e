//! The nodes run: a program of one view on the stores of its nodes.
//!
//! `run_stores` goes through a program in step: each node does its statements on its own store, where its own cells lie
//! packed, and at a directive the nodes exchange words. It promises the world that the definition of the nodes in step
//! comes to, also where the program traps, and that this world stands for the program.
#![tactic(auto)]

mod ending;
mod lockstep;
mod run;
mod words;

pub use run::run_stores;

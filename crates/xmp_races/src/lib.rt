//! The rules of coarray programs: no two images race, no image is missed, and phases end where they may.
//!
//! `check` gives the first rule that breaks on the paths through a program, exactly, by its one clause.
#![tactic(auto)]

mod access;
mod expressions;
mod guards;
mod laws;
mod loops;
mod plain;
mod program;
mod rules;
mod setting;
mod spots;
mod statements;
mod stops;
mod whose;

pub use laws::programs_have_answers;
pub use program::check;

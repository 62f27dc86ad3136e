//! The rules on copies that are out of date: the events of each form of statement, and the plan of a program.
#![tactic(auto)]

mod directive;
mod elements;
mod expressions;
mod laws;
mod plain;
mod program;
mod ready;
mod scalars;
mod setting;
mod statements;

pub use laws::{forms_of_plans, reads_of_forms};
pub use program::check;

//! What a program means with its directives erased.
#![tactic(auto)]

mod assign;
mod beginning;
mod callee;
mod calls;
mod declared;
mod eval;
mod exec;
mod frame;
mod gmove;
mod laying;
mod layout;
mod lines;
mod lists;
mod located;
mod outcome;
mod outside;
mod packing;
mod plain;
mod program;
mod rows;
mod sections;
mod state;

pub use layout::Layout;
pub use outside::{Interpreter, step_up};
pub use program::serial;
pub use sections::Chosen;
pub use state::State;
pub use xmp_meaning::Outcome;

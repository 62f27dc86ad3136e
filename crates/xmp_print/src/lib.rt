//! What `printf` writes for the formats of the language.
#![tactic(auto)]

mod printf;

pub use printf::print;

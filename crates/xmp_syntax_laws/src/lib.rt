//! Laws of the grammar: each reading of finished tokens ends, and its depths count open parts.
#![tactic(auto)]

mod laws;

pub use laws::{depths_count_open_parts, every_finished_text_is_a_program_or_refused};

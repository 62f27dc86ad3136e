//! Laws of texts: each has a tree, or is refused by a rule of text, macros or syntax.
#![tactic(auto)]

mod laws;

pub use laws::{every_finished_text_is_parsed_or_refused, every_text_has_a_tree_or_a_refusal};

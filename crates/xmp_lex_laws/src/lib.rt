//! Laws of the tokens of texts: each text is judged.
#![tactic(auto)]

mod laws;

pub use laws::{every_closed_text_is_expanded_or_refused, every_text_is_cut_or_refused};

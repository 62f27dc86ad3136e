//! Laws of the verdict: each text has one.
#![tactic(auto)]

mod laws;

pub use laws::every_text_is_judged;

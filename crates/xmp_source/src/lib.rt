//! From the text of a program to its tree, or to the first rule of text, macros or syntax that it breaks.
//! Tests stand in xmp_text_tests.
#![tactic(auto)]

mod laws;
mod source;

pub use laws::{never_tree_and_refused, one_source_refusal, one_source_tree};
pub use source::tree_of;

//! Laws of the parts of a tree: each tree has a verdict, and parts where no rule of names or mappings breaks.
#![tactic(auto)]

mod laws;

pub use laws::every_tree_is_judged;

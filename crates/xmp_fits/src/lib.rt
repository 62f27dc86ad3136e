//! The theorem that the parts of the typed program of a tree fit: where no rule of names and none of mappings breaks, a `Prog` can be made of
//! what `elaborate_parts` gives.
#![tactic(auto)]

mod laws;

pub use laws::parts_fit;

//! From the tree of a program to the parts of the typed program, or to the rule that it is refused for: the first rule of names
//! that it breaks, or, where it breaks none, the first rule of mappings.
//!
//! The walk over the tree is below, in xmp_walk. Here are the verdict, and the grid, the templates and the maps that are made where no rule breaks.
#![tactic(auto)]

mod elaborated;
mod grids;
mod homes;
mod verdict;

pub use elaborated::elaborate_parts;

//! Grids of nodes, templates over them and the maps of arrays: who owns a cell, who holds it, and where.
#![tactic(auto)]

mod align;
mod aligned;
mod array_map;
mod fault;
mod grid;
mod holding;
mod numbers;
mod reach;
mod spread_dim;
mod spreads;
mod template;

pub use aligned::{AlignedDim, Target};
pub use array_map::{ArrayMap, Cell};
pub use fault::MapError;
pub use grid::{Grid, NodeSet};
pub use spread_dim::SpreadDim;
pub use template::Template;

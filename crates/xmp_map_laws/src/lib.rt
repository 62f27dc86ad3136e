//! Laws of maps: where nothing is wrong with their parts, there are grids, templates and maps.
#![tactic(auto)]

mod laws;

pub use laws::{some_grid, some_map, some_template};

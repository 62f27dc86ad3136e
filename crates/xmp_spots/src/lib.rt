//! Accesses of coarrays: what each image touches by them, and which may fall in one phase.
//!
//! Contracts see an access as the spots that it touches, a set of accesses as a list, and what may meet by the paths
//! through a plan. The code looks at no pair: it keeps a set by what its accesses touch, and joins sets where the plan
//! joins paths.
#![tactic(auto)]

mod accesses;
mod asking;
mod entering;
mod events;
mod expressions;
mod gathering;
mod images;
mod keys;
mod laws;
mod nearest;
mod order;
mod summary;
mod table;
mod touches;
mod variables;
mod verdict;
mod writes;

pub use accesses::Accesses;
pub use events::{Course, Event};
pub use expressions::image_values;
pub use gathering::add_spot;
pub use laws::{meetings, plans_have_answers, races, spots_as_one};
pub use touches::{By, Spot, Subscripts, Touch};
pub use variables::{Variables, image_variables, in_type};
pub use verdict::judge;

#[cfg(test)]
mod tests;

//! One dimension of a template: which node owns which of its positions, and how a node numbers its own.
//!
//! A position is a coordinate less the lower bound of the dimension, so positions begin at 0.
#![tactic(auto)]

mod chunks;
mod dimension;
mod form;

pub use dimension::Dim;
pub use form::{DimError, Dist, Lengths};

//! What all nodes do in step, and the theorem that it is what the program means.
//!
//! Definitions and laws, and no code but `has_axes`, which goes through a program's maps for what their types say. Each
//! node has a state of its own with its arrays packed; all go through the program in step, and exchange words at its
//! directives (specs Lockstep, and one file for each directive). `nodes_carry_out` promises that what they come to stands
//! for every accepted program: end, output, stores and counts; `worlds_answer` that a world that stands for a program
//! answers as the program does. There are no tests: the definitions were tried on reports that are computed elsewhere
//! (docs/MEANING.md).
#![tactic(auto)]

mod axes;
mod laws;

pub use axes::has_axes;
pub use laws::{nodes_carry_out, nodes_run_alone, worlds_answer};

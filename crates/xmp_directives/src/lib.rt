//! The lines of directives where they stand: mapping directives, loop directives with the nests under them, sets of nodes,
//! tasks, reflect, barrier, bcast and gmove. Each resolves its names there, keeps what the rules of mappings judge later, and
//! notes the rules that break in it; what it does to the world is the step of its definition. The rows that show it are texts:
//! xmp_elab/src/mapping_texts.rt, docs/LANGUAGE.md.
#![tactic(auto)]

mod align_lines;
mod directives;
mod indices;
mod loop_lines;
mod mapping_lines;
mod moves;
mod points;
mod tasks;

pub use directives::{barrier, bcast, reflect};
pub use loop_lines::{LoopParts, judged_loop, loop_line, nest_of};
pub use mapping_lines::keep_mapping;
pub use moves::gmove;
pub use tasks::task_line;

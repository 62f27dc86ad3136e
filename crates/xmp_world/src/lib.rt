//! A world: what a run of all nodes comes to, and what is read off it.
//!
//! `World` has how the run ended, what node 0 printed, each node's store, and the counts of turns and of words sent.
//! `answer_of` gathers what a world answers, each cell from the store of its owner, and `report_of` writes the line of
//! each node. A `Watch` is told of worlds; its meaning `kept` is the last one, where the object tells it.
#![tactic(auto)]

mod bases;
mod ended;
mod gather;
mod laws;
mod places;
mod report;
mod watch;
mod worlds;

pub use ended::End;
pub use gather::answer_of;
pub use laws::{rows_are_read_back, worlds_report};
pub use report::report_of;
pub use watch::{LastWorld, NoWatch, Watch};
pub use worlds::World;

//! The code of a node: its instructions and what each does, which codes are valid, what nodes say to each other where
//! they meet, and how a code is listed.
#![tactic(auto)]

mod code;
mod depths;
mod formats;
mod instr;
mod laws;
mod listing;
mod meeting;
mod meetings;
mod moves;
mod parts;
mod ranges;
mod same;
mod stop;
mod tables;
mod test;

pub use code::NodeCode;
pub use instr::Instr;
pub use laws::{muted_nodes_are_alike, nodes_are_stuck_there_only, nodes_fit};
pub use listing::list;
pub use meeting::{Meeting, Reduced};
pub use parts::{BadCode, CodeParts, Guard};
pub use stop::Stop;

//! Transfers between the stores of nodes: what each node sends and fills when shadows are reflected, and when a section is
//! assigned under `gmove`.
#![tactic(auto)]

mod axis;
mod faults;
mod gather;
mod kind;
mod laws;
mod leg;
mod numbers;
mod pick;
mod plan;
mod reach;
mod side;
mod sums;
mod words;

pub use faults::move_fault;
pub use kind::{Fault, MoveKind, Side, SidePart};
pub use laws::{
    cells_are_kept, gmoves_are_meant, gmoves_are_whole, gmoves_assign, reflects_are_whole,
    transfers,
};
pub use plan::{MoveError, Plan, pack, plan_of, unpack};
pub use words::{pack_slots, unpack_slots};

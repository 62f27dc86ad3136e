//! The stores of all nodes, and what the nodes do each by itself.
//!
//! `Nodes` has each node's state with its arrays packed, how many turns of loop directives each made and how many words
//! each sent. `Together` has the nodes' layouts; its `all_do` lets every node do a deed on its own store, and promises
//! the definition's step, in which node 0's answer counts; `each_does` collects what each node gives. `say` and
//! `raise_turns` count up to the greatest number of 64 bits.
#![tactic(auto)]

mod beginning;
mod counts;
mod deed;
mod doing;
mod each;
mod layouts;
mod lists;
mod nodes;
mod together;

pub use counts::{Counts, Saying, raise_turns, say};
pub use deed::{Deed, Entering, Holding, Inside, Plainly, Starting, SteppingUp, TakingStep};
pub use each::Share;
pub use layouts::layouts_of;
pub use nodes::Nodes;
pub use together::Together;

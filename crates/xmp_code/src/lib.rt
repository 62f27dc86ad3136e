//! The machine of a node: a state that goes through a code, one instruction at a time, from stop to stop, as the
//! definitions of the code say. Its answers, its text and its store are those of the node that stands there.
#![tactic(auto)]

mod acting;
mod action;
mod advancing;
mod beginning;
mod control;
mod controlling;
mod deciding;
mod ends;
mod points;
mod printing;
mod running;
mod serving;
mod shared;
mod stack;
mod standing;
mod state;
mod values;
mod words;

pub use ends::{TrapSaid, end_words, loop_end_read, task_end_read};
pub use stack::Stack;
pub use state::{Data, Frame, Mode, Moving, Note, State, Talk};
pub use words::word_at;

//! A ring: a queue of four entries that hands the messages of one stream from one thread to another, in order.
//!
//! A stream is a list of messages that contracts alone see. A ring is made for one. What has been taken off it, with
//! what lies on it, is at every moment a piece of the stream: its first messages, and perhaps one stop word behind them.
//! No clause says that a call returns, or how long it waits.
#![tactic(auto)]

mod ends;
mod laws;
mod received;
mod rule;
#[cfg(test)]
mod tests;

pub use ends::{Receiver, Sender, pair};
pub use laws::{after_stop, stop_is_last};
pub use received::Received;
pub use rule::Streams;

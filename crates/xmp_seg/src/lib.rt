//! A segment of shared words, and a seat for each image that reads and writes them by a script.
//!
//! A script says for each phase and image which words are read and written, in order; contracts alone see it. Each call of a
//! seat is one atomic step, takes no lock and never waits. In every order of the steps of all images, a read finds what
//! the image sees by the script, and at the end the segment has the script's final words.
#![tactic(auto)]

mod look;
mod making;
mod rule;
mod seat;
mod segment;
#[cfg(test)]
mod tests;

pub use rule::Script;
pub use seat::ImageSeat;
pub use segment::Segment;

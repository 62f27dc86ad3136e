//! What a typed program means: the definitions that every later step is measured by, their types, and their laws.
#![tactic(auto)]

mod ends;
mod laws;
mod location;
mod outcome;
mod rows;
mod traffic_laws;

pub use ends::{End, Flow, Halt};
pub use laws::{
    accesses_apart, blocks_join, calls_take_steps, counted_turns, ends_are_final, formats_are_read,
    loops_unroll, more_steps, notes_apart, only_what_is_named, output_grows, parts_of_one_node,
    phases_of_one_image, sequences_associate, turns_add, turns_are_counted, writes_are_said_once,
};
pub use location::Location;
pub use outcome::Outcome;
pub use rows::{
    a_number_is_read_and_printed, an_array_is_shifted_and_summed, corners_are_summed,
    ten_turns_take_ten_steps, two_images_put_and_get,
};
pub use traffic_laws::{
    cells_are_numbered, ends_are_read_back, messages_are_as_due, notes_are_added, stores_are_laid,
};

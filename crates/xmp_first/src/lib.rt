//! Programs of the first form: what they mean with their directives erased, the reader of their text, and their run on nodes.
//!
//! A program of this form fills an array by an expression of the index, adds its cells up and prints
//! the sum. Array and loops are spread over the nodes in blocks.
#![tactic(auto)]

mod blocks;
mod first;
mod first_item;
mod first_items;
mod first_running;
mod first_serial;
#[cfg(test)]
mod first_tests;
mod first_value;
mod items;
mod layout;
mod nodes;
mod numbers;
mod program;
mod read;
mod sum;
#[cfg(test)]
mod tests;
mod world;

pub use first::First;
pub use first_item::Item;
pub use first_items::Items;
pub use first_serial::serial_first;
pub use layout::{FOOT, HEAD, TO_FIRST_LOOP, TO_NODES, TO_SECOND_LOOP, TO_TEMPLATE, TO_VALUE};
pub use nodes::run_first;
pub use read::read_first;
pub use world::FirstWorld;

//! What the nodes say to each other at bcasts, reflects and gmoves, over the stores of all nodes.
//!
//! `cast_all`, `reflect_all` and `gmove_all` do the definitions' steps to the letter: what is said is read at all nodes before it
//! is written at any, its words are counted where they go from one node to another, and the ends of a gmove are node 0's.
//! None needs anything of its caller: want of memory is answered also where the nodes aren't as many as the program's or where a
//! side isn't laid out, which is so for no program whose parts fit.
#![tactic(auto)]

mod aims;
mod cast;
mod exchange;
mod gmove;
mod laid;
mod leader;
mod many;
mod numbers;
mod packing;
mod plans;
mod reflect;
mod side;
mod told;
mod transfer;
mod unpacked;
mod unpacking;
mod values;
mod words;

pub use cast::cast_all;
pub use gmove::gmove_all;
pub use reflect::reflect_all;

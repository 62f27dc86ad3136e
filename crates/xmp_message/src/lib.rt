//! What one node sends to another.
#![tactic(auto)]

use xmp_base::{Bytes, Words};

/// What one node sends to another at an exchange: numbers, and text that it printed. Contracts see two lists.
#[derive(Drop)]
pub struct Message {
    pub words: Words,
    pub text: Bytes,
}

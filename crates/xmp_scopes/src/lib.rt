//! The symbol table: what a name means at a place of the text, by nested scopes.
//!
//! Contracts see the open scopes as plain lists, the innermost first, and look a name up by walking them. The code
//! keeps one entry for each name and a log by which closing a scope brings back what its declarations hid, so a
//! look-up and a declaration take constant time on average, and closing a scope that for each of its declarations.
#![tactic(auto)]

mod current;
mod scopes;

pub use scopes::Scopes;

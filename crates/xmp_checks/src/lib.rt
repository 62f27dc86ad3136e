//! The tests of the small crates at the bottom, in one crate above them: their libraries are not proved again for a
//! test, and a change of a test proves nothing but this crate. Expected values come from rows of the language's pages,
//! from C programs, and from plain programs that walk and count.
#![tactic(auto)]

#[cfg(test)]
mod base;
#[cfg(test)]
mod dist;
#[cfg(test)]
mod lex;
#[cfg(test)]
mod map;
#[cfg(test)]
mod num;
#[cfg(test)]
mod scopes;

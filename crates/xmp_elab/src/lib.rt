//! The typed program of a tree: a `Prog`, or the rule that the tree is refused for, the first rule of names that it breaks, or, where it breaks
//! none, the first rule of mappings.
#![tactic(auto)]

#[cfg(test)]
mod built;
mod laws;
#[cfg(test)]
mod mapping_texts;
#[cfg(test)]
mod name_texts;
#[cfg(test)]
mod tests;
#[cfg(test)]
mod texts;
mod typed;
#[cfg(test)]
mod value_texts;

pub use laws::text_numbers_lie;
pub use typed::elaborate;

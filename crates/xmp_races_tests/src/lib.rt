//! Tests of the rules of coarray programs (xmp_races): texts, and the first rule that breaks in each.
#![tactic(auto)]

#[cfg(test)]
mod rows;

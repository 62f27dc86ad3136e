//! Tests of the text layer: which texts are programs and where the others cease to be (xmp_source), how deep parts may
//! stand, and that the tokens of a tree are those of its text (xmp_tree).
#![tactic(auto)]

#[cfg(test)]
mod depths;
#[cfg(test)]
mod lines;
#[cfg(test)]
mod spelled;
#[cfg(test)]
mod texts;

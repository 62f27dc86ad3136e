//! Tests of what the interpreter offers from outside (xmp_serial): stores of the cells that a node holds, and the parts of a run one by one.
#![tactic(auto)]

#[cfg(test)]
mod packed;
#[cfg(test)]
mod parts;
#[cfg(test)]
mod texts;

//! Tests of the code of a node (xmp_instr): which parts make a code, and how a code is listed.
#![tactic(auto)]

#[cfg(test)]
mod codes;

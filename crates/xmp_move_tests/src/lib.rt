//! Tests of transfers: that a few of them move exactly the cells that a plain program moves, at every node and in any order of
//! the messages; what a plan sends and fills; where a gmove traps. A transfer is had from the code of a node, so that it is laid
//! out.
#![tactic(auto)]

#[cfg(test)]
mod codes;
#[cfg(test)]
mod plain;
#[cfg(test)]
mod plans;
#[cfg(test)]
mod rows;
#[cfg(test)]
mod runs;
#[cfg(test)]
mod shapes;
#[cfg(test)]
mod traps;

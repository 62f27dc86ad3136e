// The parts of a node's code.

use crate::instr::Instr;
use crate::meeting::Meeting;
use sqlite_items::Items;
use xmp_base::Bytes;
use xmp_map::{ArrayMap, Template};

/// Where a trap goes on while a guard is open, and the slots of the indices that are noted with it, the outermost first.
#[derive(Clone, Copy)]
pub struct Guard {
    pub target: u32,
    pub indices: [Option<u32>; 3],
}

/// The parts of the code of one node.
#[derive(Drop)]
pub struct CodeParts {
    /// the number of the node
    pub node: u32,
    /// how many nodes there are: 1 to `NODE_LIMIT`
    pub nodes: u32,
    /// how many steps of uncounted loops may be taken
    pub steps: u64,
    /// how many words the node's store has
    pub words: u32,
    /// how many coarray cells an image has, in a coarray program
    pub image: Option<u32>,
    /// the most values that one call has on the stack
    pub depth: u32,
    /// the instructions
    pub instrs: Items<Instr>,
    /// how many values the open call has on the stack before each instruction
    pub depths: Items<u32>,
    /// the most calls that are open at once
    pub calls: u32,
    /// the formats of prints
    pub formats: Items<Bytes>,
    /// the maps of arrays
    pub maps: Items<ArrayMap>,
    /// the templates
    pub templates: Items<Template>,
    /// the meetings of exchanges
    pub meetings: Items<Meeting>,
    /// the guards
    pub guards: Items<Guard>,
}

/// Parts that do not make a code.
#[derive(Drop)]
pub struct BadCode(pub CodeParts);

// The code of a node.
ghost use Rattle.std.specs.Prelude.{◌≡◌, ◌↔◌, ◌≤◌, ◌<◌, IsTrue, IfErr, IfOk, length};
ghost use Rattle.xmp_base.specs.Limits.{node_limit};
ghost use Rattle.xmp_instr.specs.Valid.{IsValid, HasDepths, HasNodes, HasSteps, HasTables};

use crate::depths::{are_fine, is_depth};
use crate::meetings::meetings_fit;
use crate::parts::{BadCode, CodeParts};
use crate::ranges::{Ranges, is_closed};
use crate::tables::{Depths, Formats, Guards, Maps, Templates};
use crate::test::all;
use std::marker::Model;
use xmp_base::NODE_LIMIT;

fn has_nodes(parts: &CodeParts) -> bool
    ensures { IsTrue result ↔ HasNodes parts.now }
{
    parts.nodes >= 1 && parts.nodes <= NODE_LIMIT && parts.node < parts.nodes
}

fn has_tables(parts: &CodeParts) -> bool
    requires { parts.now.node < parts.now.nodes }
    ensures { IsTrue result ↔ HasTables parts.now }
{
    all::<Maps>(parts, parts.maps.as_slice())
        && all::<Templates>(parts, parts.templates.as_slice())
        && all::<Formats>(parts, parts.formats.as_slice())
        && meetings_fit(parts)
        && all::<Guards>(parts, parts.guards.as_slice())
}

fn has_depths(parts: &CodeParts) -> bool
    ensures { IsTrue result ↔ HasDepths parts.now }
{
    parts.depths.len() == parts.instrs.len()
        && all::<Depths>(parts, parts.depths.as_slice())
        && is_depth(parts, 0, 0)
}

fn has_steps(parts: &CodeParts) -> bool
    ensures { IsTrue result ↔ HasSteps parts.now }
{
    all::<Ranges>(parts, parts.instrs.as_slice())
        && has_depths(parts)
        && are_fine(parts)
        && is_closed(parts)
}

fn is_valid(parts: &CodeParts) -> bool
    ensures { IsTrue result ↔ IsValid parts.now }
{
    has_nodes(parts) && has_tables(parts) && has_steps(parts)
}

/// The code of a node. Contracts see it as its parts, which make a code.
#[derive(Drop)]
pub struct NodeCode {
    parts: CodeParts,
}

impl Model for NodeCode {
    ghost use Rattle.xmp_instr.specs.declared.parts.CodeParts.{CodeParts};
    ghost use Rattle.xmp_instr.specs.Valid.{IsValid};

    ghost Value = { CodeParts };

    ghost view = { λ c. c.parts };

    ghost invariant = { λ c. IsValid c.parts };
}

impl NodeCode {
    /// The code of these parts, or the parts back where they make none.
    pub fn new(parts: CodeParts) -> Result<NodeCode, BadCode>
        ensures ok { IfOk result (λ c. (c ≡ parts) × IsValid parts) }
        ensures bad { IfErr result (λ b. (b.0 ≡ parts) × (IsValid parts → ⊥)) }
    {
        if is_valid(&parts) {
            Ok(NodeCode { parts })
        } else {
            Err(BadCode(parts))
        }
    }

    /// The parts that the code was made of.
    pub fn parts(&self) -> &CodeParts
        ensures parts { result.now ≡ self.now }
        ensures valid { IsValid result.now }
    {
        &self.parts
    }

    /// How many words the node's store has.
    pub fn words(&self) -> u32
        ensures { result ≡ self.now.words }
    {
        self.parts.words
    }

    /// How many coarray cells an image has, in a coarray program.
    pub fn image(&self) -> Option<u32>
        ensures { result ≡ self.now.image }
    {
        self.parts.image
    }

    /// How many nodes there are.
    pub fn nodes(&self) -> u32
        ensures { result ≡ self.now.nodes }
    {
        self.parts.nodes
    }
}

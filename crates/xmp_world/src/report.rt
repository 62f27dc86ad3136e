// The report on a run of all nodes.
ghost use Rattle.std.specs.Prelude.{◌≡◌, ◌<◌, ◌++◌, IfOk, OnOk, length};
ghost use Rattle.xmp_nodes.specs.Nodes.{bounded};
ghost use Rattle.xmp_world.specs.Reports.{counts_in, line_text, report_of};

use crate::worlds::World;
use std::alloc::Global;
use xmp_base::{Bytes, NoMemory};

/// How many words a node sent to all others, up to the greatest `u64`.
fn sent_by(world: &World, node: u32, count: u32) -> u64
    requires node { node < count }
    requires count { count ≡ length world.now.stores }
    ensures { result ≡ bounded (counts_in world.now node).sent }
{
    let mut all = 0u64;
    for to in 0..count {
        all = all.saturating_add(world.sent(node, to));
    }
    all
}

/// Appends the line of a node.
fn push_line(
    alloc: Global,
    out: &mut Bytes,
    node: u32,
    words: usize,
    turns: u64,
    sent: u64,
) -> Result<(), NoMemory>
    ensures { OnOk result (out.new ≡ out.old ++ line_text node words turns sent) }
{
    let line = format!(in alloc; "node {node} words {words} turns {turns} sent {sent}\n")?;
    out.push_all(line.as_bytes())
}

/// The report on a world: a line for each node with its number, how many words it has, how many turns of loop directives
/// it made, and how many words it sent.
pub fn report_of(alloc: Global, world: &World) -> Result<Bytes, NoMemory>
    ensures { IfOk result (λ text. text ≡ report_of world.now) }
{
    let mut out = Bytes::new(alloc);
    let count = world.nodes();
    for node in 0..count {
        let sent = sent_by(world, node, count);
        push_line(
            alloc,
            &mut out,
            node,
            world.store(node).len(),
            world.turns(node),
            sent,
        )?;
    }
    Ok(out)
}

// Where the nodes' stores keep their cells.
ghost use Rattle.std.specs.Prelude.{◌≡◌, ◌+◌, ◌<◌, ◌^◌, length, IfOk};
ghost use Rattle.xmp_prog.specs.Fits.{node_count};
ghost use Rattle.xmp_stores.specs.Layouts.{AreLayouts};

use crate::lists::push;
use std::alloc::Global;
use xmp_base::NoMemory;
use xmp_prog::ProgParts;
use xmp_serial::Layout;

/// The packed layouts of a program, one for each node.
pub fn layouts_of<'p>(alloc: Global, program: &'p ProgParts) -> Result<Vec<Layout<'p>>, NoMemory>
    ensures many { IfOk result (λ all. length all.items ≡ node_count program.now) }
    ensures few { IfOk result (λ all. length all.items < 2 ^ 32) }
    ensures packed { IfOk result (λ all. AreLayouts program.now 0 all.items) }
{
    let mut all = Vec::new(alloc);
    'nodes: for node in 0..program.grid.count() {
        push_layout(alloc, program, node, &mut all)?;
    }
    Ok(all)
}

/// The layout of the next node.
fn push_layout<'p>(
    alloc: Global,
    program: &'p ProgParts,
    node: u32,
    all: &mut Vec<Layout<'p>>,
) -> Result<(), NoMemory>
    requires next { length all.old.items ≡ node }
    requires packed { AreLayouts program.now 0 all.old.items }
    ensures next { IfOk result (λ _. length all.new.items ≡ node + 1) }
    ensures packed { IfOk result (λ _. AreLayouts program.now 0 all.new.items) }
{
    let layout = Layout::packed(alloc, program, node)?;
    push(all, layout)
}

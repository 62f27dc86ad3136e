// What the nodes are run against.
ghost use Rattle.std.specs.Prelude.{◌≡◌, ◌<◌, ◌^◌, length};
ghost use Rattle.xmp_prog.specs.Fits.{node_count};
ghost use Rattle.xmp_stores.specs.Layouts.{AreLayouts};
ghost use Rattle.xmp_stores.specs.LayoutProps.{layouts_prop};

use std::alloc::Global;
use xmp_prog::ProgParts;
use xmp_serial::Layout;

/// The program, the packed layout of each node's store, in the order of the nodes, and the input.
#[derive(Drop)]
pub struct Together<'a, 'p> {
    pub alloc: Global,
    pub program: &'p ProgParts,
    pub layouts: &'a [Layout<'p>],
    pub input: &'a [u8],
    ghost many: { length layouts.now ≡ node_count program.now },
    ghost few: { length layouts.now < 2 ^ 32 },
    ghost packed: { AreLayouts program.now 0 layouts.now } by { layouts_prop _ _ _ },
}

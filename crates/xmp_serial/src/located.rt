ghost use Rattle.std.specs.Prelude.{◌<◌};
ghost use Rattle.xmp_map.specs.Held.{node_count};

use xmp_map::ArrayMap;

/// A dimension of a distributed array at a node.
#[derive(Clone, Copy)]
pub struct Located {
    pub map: ArrayMap,
    pub node: u32,
    pub dimension: u32,
    ghost node_is: { node < node_count map },
    ghost dimension_is: { dimension < map.dims },
}

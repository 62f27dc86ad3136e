// What the code's types say of a program's maps.
ghost use Rattle.xmp_move.specs.Kept.{IsOfCode};
ghost use Rattle.xmp_nodes.specs.Lists.{HasAxes};

use xmp_prog::{Home, ProgParts};

/// Each list of a map has three items.
fn items_are_three(home: &Home)
    ensures { IsOfCode home.now }
{
    if let Home::Spread(_, map) = home {
        let _aligned = map.aligned[2];
        let _spread = map.template.spread[2];
        let _sizes = map.template.grid.sizes[2];
    }
}

/// The map of each distributed array has three dimensions, and its template and its grid too, as the code's types say.
pub fn has_axes(p: &ProgParts)
    ensures { HasAxes p.now }
{
    let arrays = p.arrays.as_slice();
    'arrays: for array in arrays {
        items_are_three(&array.home);
    }
}

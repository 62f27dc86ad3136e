// Each call beside a plain program that walks all cells and counts, and rows of the language's table.

ghost use Rattle.std.specs.Prelude.{IfSome};
ghost use Rattle.xmp_map.specs.Held.{IsCell};

use xmp_dist::{Dim, Dist, Lengths};
use xmp_map::{ArrayMap, Cell, Grid, MapError, NodeSet, Target, Template};

// The cell with these subscripts, where they are inside.
fn cell_of(map: &ArrayMap, x: u32, y: u32, z: u32) -> Option<Cell>
    ensures { IfSome result (λ c. IsCell map.now c.at) }
{
    let aligned = map.aligned.as_slice();
    let [a, b, c] = aligned else {
        return None;
    };
    if x < a.extent && y < b.extent && z < c.extent {
        Some(Cell { at: [x, y, z] })
    } else {
        None
    }
}

// Whether a node owns subscript `x` of dimension `d`: its number along the dimension of the template is the owner's.
fn owns(map: &ArrayMap, node: u32, d: usize, x: u32) -> bool {
    let (Some(aligned), true) = (map.aligned.get(d), node < map.template.grid.count()) else {
        return false;
    };
    let Some(dim) = aligned.target.dim else {
        return true;
    };
    dim < map.template.dims()
        && map
            .template
            .dim(dim)
            .owner(x as i64 + aligned.target.offset as i64)
            == map.template.at(node, dim)
}

// Whether `g` is at most `low` below, or `high` above, positions of the node.
fn is_near(dim: &Dim, c: u32, low: u32, high: u32, g: i64) -> bool {
    let mut reached_up = false;
    let mut reached_down = false;
    for y in 0..dim.size() {
        if dim.owner(y as i64) == c {
            reached_up = reached_up || y as i64 - low as i64 <= g;
            reached_down = reached_down || g <= y as i64 + high as i64;
        }
    }
    reached_up && reached_down
}

fn holds(map: &ArrayMap, node: u32, d: usize, x: u32) -> bool {
    let (Some(aligned), true) = (map.aligned.get(d), node < map.template.grid.count()) else {
        return false;
    };
    let Some(dim) = aligned.target.dim else {
        return true;
    };
    if owns(map, node, d, x) {
        return true;
    }
    if dim >= map.template.dims() || (aligned.low == 0 && aligned.high == 0) {
        return false;
    }
    is_near(
        map.template.dim(dim),
        map.template.at(node, dim),
        aligned.low,
        aligned.high,
        x as i64 + aligned.target.offset as i64,
    )
}

fn dims_agree(map: &ArrayMap, node: u32) -> bool {
    if node >= map.template.grid.count() {
        return false;
    }
    for d in 0..map.dims() {
        let mut count = 0_u32;
        for x in 0..map.extent(d) {
            let is_held = holds(map, node, d as usize, x);
            if map.local(node, d, x) != if is_held { Some(count) } else { None } {
                return false;
            }
            if is_held {
                count = count.saturating_add(1);
            }
        }
        if map.held(node, d) != count {
            return false;
        }
    }
    true
}

// Whether the calls at one cell are what the plain program says, where `before` cells are held before it.
fn cell_agrees(map: &ArrayMap, node: u32, x: u32, y: u32, z: u32, before: u32) -> bool {
    let (Some(cell), true) = (cell_of(map, x, y, z), node < map.template.grid.count()) else {
        return false;
    };
    let is_held = holds(map, node, 0, x) && holds(map, node, 1, y) && holds(map, node, 2, z);
    let is_owned = owns(map, node, 0, x) && owns(map, node, 1, y) && owns(map, node, 2, z);
    map.holds(node, &cell) == is_held
        && map.slot(node, &cell) == (if is_held { Some(before) } else { None })
        && (map.owner_of(&cell) == node) == is_owned
}

// Whether all calls are what walking over all cells gives.
fn agrees(map: &ArrayMap) -> bool {
    let [a, b, c] = &map.aligned;
    for node in 0..map.template.grid.count() {
        let mut before = 0_u32;
        for x in 0..a.extent {
            for y in 0..b.extent {
                for z in 0..c.extent {
                    if !cell_agrees(map, node, x, y, z, before) {
                        return false;
                    }
                    if holds(map, node, 0, x) && holds(map, node, 1, y) && holds(map, node, 2, z) {
                        before = before.saturating_add(1);
                    }
                }
            }
        }
        if map.words(node) != before || !dims_agree(map, node) {
            return false;
        }
    }
    true
}

fn at(dim: u32, offset: i32) -> Target {
    Target {
        dim: Some(dim),
        offset,
    }
}

const FREE: Target = Target {
    dim: None,
    offset: 0,
};

// Arrays of one dimension over a template of one: valid ones agree, and the others are refused.
#[tactic(auto, unfolding(xmp_map::specs::RowMajor::product))]
fn lines_agree(grid: &Grid, size: u32, dist: Dist) -> bool {
    let Ok(template) = Template::new(grid, &[size], &[dist]) else {
        return false;
    };
    let is_chunked = match dist {
        Dist::Block | Dist::Gblock(_) => true,
        _ => false,
    };
    for extent in 1..5_u32 {
        for offset in 0..3_u32 {
            for widths in 0..9_u32 {
                let (low, high) = (widths / 3, widths % 3);
                let made = ArrayMap::new(
                    &template,
                    &[extent],
                    &[at(0, offset as i32)],
                    &[(low, high)],
                );
                let is_right = match made {
                    Ok(map) => extent + offset <= size
                        && (is_chunked || widths == 0)
                        && agrees(&map),
                    Err(MapError::Align) => extent + offset > size,
                    Err(MapError::Shadow) => extent + offset <= size && !is_chunked && widths != 0,
                    Err(_) => false,
                };
                if !is_right {
                    return false;
                }
            }
        }
    }
    true
}

// Arrays of two dimensions over a template of three, of which the middle one is undistributed.
#[tactic(auto, unfolding(xmp_map::specs::RowMajor::product))]
fn boxes_agree(grid: &Grid, first: Dist, last: Dist, width: u32) -> bool {
    let Ok(template) = Template::new(grid, &[3, 2, 4], &[first, Dist::Whole, last]) else {
        return false;
    };
    let widths = (width, width);
    for (a, b, c) in [
        (at(0, 0), at(2, 1), FREE),
        (at(2, 0), at(0, 1), at(1, 0)),
        (FREE, at(0, 0), at(2, 0)),
    ] {
        let shadow = [
            if a.dim == Some(0) || a.dim == Some(2) {
                widths
            } else {
                (0, 0)
            },
            if b.dim == Some(0) || b.dim == Some(2) {
                widths
            } else {
                (0, 0)
            },
            if c.dim == Some(2) { widths } else { (0, 0) },
        ];
        match ArrayMap::new(&template, &[2, 2, 2], &[a, b, c], &shadow) {
            Ok(map) => {
                if !agrees(&map) {
                    return false;
                }
            }
            Err(_) => return false,
        }
    }
    true
}

fn gblock(first: u32, second: u32, third: u32) -> Dist {
    let mut values = [0; 16];
    values[0] = first;
    values[1] = second;
    values[2] = third;
    Dist::Gblock(Lengths { values, count: 3 })
}

fn gblock4(first: u32, second: u32, third: u32, fourth: u32) -> Dist {
    let mut values = [0; 16];
    values[0] = first;
    values[1] = second;
    values[2] = third;
    values[3] = fourth;
    Dist::Gblock(Lengths { values, count: 4 })
}

#[test]
fn calls_are_what_walking_all_cells_gives(rt: HostRuntime) {
    for nodes in 1..4_u32 {
        let Ok(grid) = Grid::new(&[nodes]) else {
            assert!(&rt; false);
            return;
        };
        for size in 1..6_u32 {
            assert!(&rt; lines_agree(&grid, size, Dist::Block));
            assert!(&rt; lines_agree(&grid, size, Dist::Cyclic(1)));
            assert!(&rt; lines_agree(&grid, size, Dist::Cyclic(2)));
        }
        if nodes == 3 {
            assert!(&rt; lines_agree(&grid, 4, gblock(0, 3, 1)));
            assert!(&rt; lines_agree(&grid, 4, gblock(2, 0, 2)));
            assert!(&rt; lines_agree(&grid, 5, gblock(1, 4, 0)));
        }
    }
    let Ok(grid) = Grid::new(&[2, 2]) else {
        assert!(&rt; false);
        return;
    };
    for width in 0..3_u32 {
        assert!(&rt; boxes_agree(&grid, Dist::Block, Dist::Block, width));
    }
    assert!(&rt; boxes_agree(&grid, Dist::Block, Dist::Cyclic(1), 0));
    assert!(&rt; boxes_agree(&grid, Dist::Cyclic(2), Dist::Block, 0));
}

// How many cells a node holds, whether it holds a cell, and where it keeps it.
fn stored(map: &ArrayMap, node: u32, x: u32, y: u32) -> Option<(u32, Option<u32>)> {
    let (Some(cell), true) = (cell_of(map, x, y, 0), node < map.template.grid.count()) else {
        return None;
    };
    Some((map.words(node), map.slot(node, &cell)))
}

#[test]
#[tactic(auto, unfolding(xmp_map::specs::RowMajor::product))]
fn rows(rt: HostRuntime) {
    let (Ok(line), Ok(square)) = (Grid::new(&[4]), Grid::new(&[2, 2])) else {
        assert!(&rt; false);
        return;
    };
    let (Ok(eight), Ok(uneven), Ok(field)) = (
        Template::new(&line, &[8], &[Dist::Block]),
        Template::new(&line, &[8], &[gblock4(0, 5, 0, 3)]),
        Template::new(&square, &[4, 4], &[Dist::Block, Dist::Block]),
    ) else {
        assert!(&rt; false);
        return;
    };
    let (Ok(a), Ok(b), Ok(c)) = (
        ArrayMap::new(&eight, &[8], &[at(0, 0)], &[(1, 1)]),
        ArrayMap::new(&uneven, &[8], &[at(0, 0)], &[(1, 1)]),
        ArrayMap::new(&field, &[4, 4], &[at(0, 0), at(1, 0)], &[(1, 1), (1, 1)]),
    ) else {
        assert!(&rt; false);
        return;
    };
    for (x, slot) in [
        (0, None),
        (1, Some(0)),
        (2, Some(1)),
        (4, Some(3)),
        (5, None),
    ] {
        assert!(&rt; stored(&a, 1, x, 0) == Some((4, slot)));
    }
    for (node, words) in [(0, 0), (1, 6), (2, 0), (3, 4)] {
        assert!(&rt; matches!(stored(&b, node, 0, 0), Some((held, _)) if held == words));
    }
    assert!(&rt; stored(&c, 0, 2, 2) == Some((9, Some(8))));
    assert!(&rt; a.template().dims() == 1 && a.dims() == 1 && c.dims() == 2);
    assert!(&rt;
        1 <= c.dims() && c.extent(0) == 4 && c.target(0) == at(0, 0) && c.shadow(0) == (1, 1)
    );

    let box_of_three = NodeSet {
        first: [1, 0, 0],
        many: [1, 2, 1],
    };
    for (node, is_inside) in [(0, false), (1, false), (2, true), (3, true)] {
        assert!(&rt; node < square.count() && box_of_three.has(&square, node) == is_inside);
    }
    assert!(&rt; 3 < square.count() && field.dims() == 2 && field.owns(3, &[9, 2]));
    assert!(&rt; matches!(Grid::new(&[4, 5]), Err(MapError::Nodes)));
    assert!(&rt; matches!(Template::new(&line, &[0], &[]), Err(MapError::Size)));
    assert!(&rt;
        matches!(
            Template::new(&line, &[8], &[Dist::Whole]),
            Err(MapError::Spread)
        )
    );
    for dist in [gblock4(0, 5, 0, 4), Dist::Cyclic(0)] {
        assert!(&rt; matches!(Template::new(&line, &[8], &[dist]), Err(MapError::Chunk)));
    }
    assert!(&rt;
        matches!(
            ArrayMap::new(&eight, &[8], &[at(0, 1)], &[(4_194_305, 0)]),
            Err(MapError::Align)
        )
    );
    assert!(&rt;
        matches!(
            ArrayMap::new(&eight, &[8], &[at(0, 0)], &[(4_194_305, 0)]),
            Err(MapError::Shadow)
        )
    );
}

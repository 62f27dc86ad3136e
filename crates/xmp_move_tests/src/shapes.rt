// The arrays of the tests: where their cells lie, and where a node keeps them.
ghost use Rattle.std.specs.Prelude.{◌*◌, ◌≡◌, ◌≤◌, ◌<◌, [], ◌∷◌, IsTrue, IfSome, MatchOption, length};
ghost use Rattle.std.specs.List.{list_all};
ghost use Rattle.xmp_base.specs.Limits.{cell_limit};
ghost use Rattle.xmp_dist.specs.Valid.{is_extent};
ghost use Rattle.xmp_map.specs.RowMajor.{product};
ghost use Rattle.xmp_map.specs.Held.{IsCell};

use sqlite_items::Items;
use std::alloc::Global;
use xmp_base::{CELL_LIMIT, SIZE_LIMIT};
use xmp_dist::{Dist, Lengths};
use xmp_map::{ArrayMap, Cell, Grid, Target, Template};
use xmp_move::{Side, SidePart};
use xmp_prog::Home;

// Why a test stops.
#[derive(Clone, Copy)]
pub enum Stop {
    Memory,
    Shape,
    Cell,
    Code,
    Trap,
    Slot,
}

// Where an array lies.
#[derive(Clone, Copy)]
pub enum Form {
    // on every node
    Copied,
    // ten over four nodes in blocks with a shadow, dealt out by one, by two, and in chunks of 3, 0, 5 and 2
    Blocks,
    Cyclic,
    ByTwo,
    Gblock,
    // ten at the end of twelve dealt out by three, and eight at the end of ten in blocks
    ByThree,
    Shifted,
    // ten on one node, and eight over three
    Alone,
    Eight,
    // rows that are whole at each node
    Columns,
    // over two by two nodes
    Square,
    Mixed,
    Cube,
}

// A side: the form of its array, its extents, and what is named of each dimension.
#[derive(Clone, Copy)]
pub struct Shape(pub Form, pub &'static [u32], pub &'static [SidePart]);

// The first extent, and those behind it.
#[tactic(auto, using(std::proofs::lemmas::List::nil_from_length))]
fn split(extents: &[u32]) -> Option<(&u32, &[u32])>
    ensures { MatchOption result (extents.now ≡ [])
        (λ p. extents.now ≡ p.0.now ∷ p.1.now) }
{
    extents.split_first()
}

fn are_extents(extents: &[u32]) -> bool
    ensures { result ≡ list_all is_extent extents.now }
{
    'extents: for extent in extents {
        if *extent < 1 || *extent > SIZE_LIMIT {
            return false;
        }
    }
    true
}

// The product of two counts, where it can be counted.
fn times(extent: u32, count: u32) -> Option<u32>
    ensures { IfSome result (λ n. n ≡ extent * count) }
{
    extent.checked_mul(count)
}

// How many cells there are, where they can be counted.
fn cell_count(extents: &[u32]) -> Option<u32>
    ensures { IfSome result (λ n. n ≡ product extents.now) }
{
    match split(extents) {
        None => Some(1),
        Some((extent, behind)) => times(*extent, cell_count(behind)?),
    }
}

fn are_few(extents: &[u32]) -> bool
    ensures { IsTrue result → product extents.now ≤ cell_limit }
{
    match cell_count(extents) {
        Some(count) => count <= CELL_LIMIT,
        None => false,
    }
}

// One to three extents, and not too many cells.
fn fit(extents: &[u32]) -> bool
    ensures some { IsTrue result → 1 ≤ length extents.now }
    ensures most { IsTrue result → length extents.now ≤ 3 }
    ensures sizes { IsTrue result → IsTrue (list_all is_extent extents.now) }
    ensures cells { IsTrue result → product extents.now ≤ cell_limit }
{
    extents.len() >= 1 && extents.len() <= 3 && are_extents(extents) && are_few(extents)
}

fn spread(
    grid: &[u32],
    sizes: &[u32],
    dists: &[Dist],
    targets: &[Target],
    shadow: &[(u32, u32)],
    extents: &[u32],
) -> Option<ArrayMap> {
    let grid = Grid::new(grid).ok()?;
    let template = Template::new(&grid, sizes, dists).ok()?;
    if targets.len() == extents.len() && shadow.len() == extents.len() && fit(extents) {
        ArrayMap::new(&template, extents, targets, shadow).ok()
    } else {
        None
    }
}

fn to(dim: u32, offset: i32) -> Target {
    Target {
        dim: Some(dim),
        offset,
    }
}

fn line(
    nodes: u32,
    size: u32,
    dist: Dist,
    offset: i32,
    shadow: (u32, u32),
    extents: &[u32],
) -> Option<ArrayMap> {
    spread(
        &[nodes],
        &[size],
        &[dist],
        &[to(0, offset)],
        &[shadow],
        extents,
    )
}

fn chunks() -> Dist {
    Dist::Gblock(Lengths {
        values: [3, 0, 5, 2, 0, 0, 0, 0, 0, 0, 0, 0, 0, 0, 0, 0],
        count: 4,
    })
}

fn columns(extents: &[u32]) -> Option<ArrayMap> {
    let free = Target {
        dim: None,
        offset: 0,
    };
    spread(
        &[4],
        &[6],
        &[Dist::Block],
        &[free, to(0, 0)],
        &[(0, 0), (1, 1)],
        extents,
    )
}

fn plane(
    sizes: &[u32],
    first: Dist,
    high: (u32, u32),
    wide: (u32, u32),
    extents: &[u32],
) -> Option<ArrayMap> {
    spread(
        &[2, 2],
        sizes,
        &[first, Dist::Block],
        &[to(0, 0), to(1, 0)],
        &[high, wide],
        extents,
    )
}

fn cube(extents: &[u32]) -> Option<ArrayMap> {
    spread(
        &[2, 2],
        &[3, 4, 3],
        &[Dist::Block, Dist::Whole, Dist::Cyclic(1)],
        &[to(0, 0), to(1, 0), to(2, 0)],
        &[(1, 1), (0, 0), (0, 0)],
        extents,
    )
}

fn map_of(form: Form, extents: &[u32]) -> Option<ArrayMap> {
    match form {
        Form::Copied => None,
        Form::Blocks => line(4, 10, Dist::Block, 0, (1, 2), extents),
        Form::Cyclic => line(4, 10, Dist::Cyclic(1), 0, (0, 0), extents),
        Form::ByTwo => line(4, 10, Dist::Cyclic(2), 0, (0, 0), extents),
        Form::Gblock => line(4, 10, chunks(), 0, (2, 1), extents),
        Form::ByThree => line(4, 12, Dist::Cyclic(3), 2, (0, 0), extents),
        Form::Shifted => line(4, 10, Dist::Block, 2, (1, 1), extents),
        Form::Alone => line(1, 10, Dist::Block, 0, (1, 1), extents),
        Form::Eight => line(3, 8, Dist::Block, 0, (0, 0), extents),
        Form::Columns => columns(extents),
        Form::Square => plane(&[4, 4], Dist::Block, (1, 1), (1, 1), extents),
        Form::Mixed => plane(&[5, 6], Dist::Cyclic(2), (0, 0), (1, 0), extents),
        Form::Cube => cube(extents),
    }
}

pub fn home_of(shape: &Shape) -> Result<Home, Stop> {
    match shape.0 {
        Form::Copied => Ok(Home::Copy),
        form => match map_of(form, shape.1) {
            Some(map) => Ok(Home::Spread(0, map)),
            None => Err(Stop::Shape),
        },
    }
}

pub fn side_of(alloc: Global, shape: &Shape, base: u32) -> Result<Side, Stop> {
    let home = home_of(shape)?;
    let Ok(extents) = Items::from_slice(alloc, shape.1) else {
        return Err(Stop::Memory);
    };
    let Ok(parts) = Items::from_slice(alloc, shape.2) else {
        return Err(Stop::Memory);
    };
    Ok(Side {
        home,
        extents,
        base,
        parts,
    })
}

// How many cells an array has.
pub fn cells(extents: &[u32]) -> u32 {
    let mut all = 1u32;
    for extent in extents {
        all = all.saturating_mul(*extent);
    }
    all
}

// The cell with these subscripts, where it is one.
fn cell_at(map: &ArrayMap, x: u32, y: u32, z: u32) -> Option<Cell>
    ensures { IfSome result (λ c. IsCell map.now c.at) }
{
    let aligned = map.aligned.as_slice();
    let [a, b, c] = aligned else {
        return None;
    };
    if x < a.extent && y < b.extent && z < c.extent {
        Some(Cell { at: [x, y, z] })
    } else {
        None
    }
}

// A cell by its number.
fn cell_of(map: &ArrayMap, n: u32) -> Option<Cell>
    ensures { IfSome result (λ c. IsCell map.now c.at) }
{
    let [_, second, third] = &map.aligned;
    let z = n.checked_rem(third.extent)?;
    let rest = n.checked_div(third.extent)?;
    let y = rest.checked_rem(second.extent)?;
    let x = rest.checked_div(second.extent)?;
    cell_at(map, x, y, z)
}

// How many words a node has of an array.
pub fn words_of(home: &Home, extents: &[u32], node: u32) -> Result<u32, Stop> {
    match home {
        Home::Spread(_, map) => {
            if node < map.template.grid.count() {
                Ok(map.words(node))
            } else {
                Err(Stop::Shape)
            }
        }
        _ => Ok(cells(extents)),
    }
}

fn map_slot(map: &ArrayMap, node: u32, n: u32) -> Result<Option<u32>, Stop> {
    match cell_of(map, n) {
        None => Err(Stop::Cell),
        Some(cell) => {
            if node < map.template.grid.count() {
                Ok(map.slot(node, &cell))
            } else {
                Err(Stop::Cell)
            }
        }
    }
}

// Where a node keeps a cell among them.
pub fn slot_of(home: &Home, node: u32, n: u32) -> Result<Option<u32>, Stop> {
    match home {
        Home::Spread(_, map) => map_slot(map, node, n),
        _ => Ok(Some(n)),
    }
}

// Whether a node owns a cell; what is on every node is each node's own.
pub fn owns(home: &Home, node: u32, n: u32) -> Result<bool, Stop> {
    match home {
        Home::Spread(_, map) => match cell_of(map, n) {
            Some(cell) => Ok(map.owner_of(&cell) == node),
            None => Err(Stop::Cell),
        },
        _ => Ok(true),
    }
}

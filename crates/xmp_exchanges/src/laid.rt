// Whether a transfer is laid out for a node, as its plan asks.
ghost use Rattle.std.specs.Prelude.{◌≡◌, ◌≤◌, ◌+◌, ◌^◌, IfSome, IsTrue, map, length};
ghost use Rattle.std.specs.List.{count_by, list_all, sum_by};
ghost use Rattle.std.specs.Option.{option_map};
ghost use Rattle.xmp_dist.specs.Valid.{is_extent};
ghost use Rattle.xmp_map.specs.RowMajor.{product};
ghost use Rattle.xmp_prog.specs.Tests.{is_image, is_spread};
ghost use Rattle.xmp_move.specs.Kinds.{numbers_of};
ghost use Rattle.xmp_move.specs.Laid.{AreOfOneGrid, IsLaidOut, MapFits, grid_of, is_section};
ghost use Rattle.xmp_move.specs.Numbers.{asked};
ghost use Rattle.xmp_move.specs.Plans.{peers_of, source_of, target_of};
ghost use Rattle.xmp_move.specs.Sides.{words_in};
ghost use Rattle.xmp_exchanges.specs.Laid.{FitTogether, IsLaidSide};

use xmp_base::{CELL_LIMIT, NODE_LIMIT, SIZE_LIMIT, first_and_rest};
use xmp_map::AlignedDim;
use xmp_move::{MoveKind, Side, SidePart};
use xmp_prog::Home;

// ---- one side

/// Whether dimensions have these extents.
fn agree(dims: &[AlignedDim], extents: &[u32]) -> bool
    ensures { IsTrue result → map (λ l. l.extent) dims.now ≡ extents.now }
{
    match first_and_rest(dims) {
        None => extents.is_empty(),
        Some((dim, dims)) => match first_and_rest(extents) {
            None => false,
            Some((extent, extents)) => dim.extent == *extent && agree(dims, extents),
        },
    }
}

/// Whether the extents are those of the map.
fn map_fits(home: &Home, extents: &[u32]) -> bool
    ensures { IsTrue result → MapFits home.now extents.now }
{
    match home {
        Home::Spread(_, map) => {
            let _three = map.aligned[2];
            map.dims <= 3 && agree(&map.aligned[..map.dims as usize], extents)
        }
        _ => true,
    }
}

/// Whether each is an extent.
fn are_extents(extents: &[u32]) -> bool
    ensures { result ≡ list_all is_extent extents.now }
{
    match first_and_rest(extents) {
        None => true,
        Some((extent, rest)) => 1 <= *extent && *extent <= SIZE_LIMIT && are_extents(rest),
    }
}

/// How many cells a box with these extents has, where 64 bits hold it.
#[tactic(auto, unfolding(xmp_map::specs::RowMajor::product))]
fn cells(extents: &[u32]) -> Option<u64>
    ensures { IfSome result (λ n. n ≡ product extents.now) }
{
    match first_and_rest(extents) {
        None => Some(1),
        Some((extent, rest)) => {
            let behind = cells(rest)?;
            u64::from(*extent).checked_mul(behind)
        }
    }
}

/// Whether a box with these extents is small enough for an array.
fn is_small(extents: &[u32]) -> bool
    ensures { IsTrue result → product extents.now ≤ 4194304 }
{
    match cells(extents) {
        None => false,
        Some(count) => count <= u64::from(CELL_LIMIT),
    }
}

/// How many words a node has of a side.
fn words_in(side: &Side, node: u32) -> Option<u64>
    ensures { IfSome result (λ n. n ≡ words_in side.now node) }
{
    match &side.home {
        Home::Spread(_, map) => {
            if node < map.template.grid.count() {
                Some(u64::from(map.words(node)))
            } else {
                None
            }
        }
        _ => cells(side.extents.as_slice()),
    }
}

/// Whether these words have numbers below 2^32.
fn are_numbered(side: &Side, node: u32) -> bool
    ensures { IsTrue result → side.now.base + words_in side.now node ≤ 2 ^ 32 }
{
    match words_in(side, node) {
        None => false,
        Some(words) => words <= 4_294_967_296 - u64::from(side.base),
    }
}

fn is_image(home: &Home) -> bool
    ensures { result ≡ is_image home.now }
{
    match home {
        Home::Image => true,
        Home::Copy | Home::Spread(_, _) => false,
    }
}

/// Whether a side is laid out for a node.
fn is_laid_side(side: &Side, node: u32) -> bool
    ensures { IsTrue result → IsLaidSide side.now node }
{
    let extents = side.extents.as_slice();
    !is_image(&side.home)
        && map_fits(&side.home, extents)
        && extents.len() <= 3
        && are_extents(extents)
        && is_small(extents)
        && are_numbered(side, node)
}

// ---- both

/// Whether two maps have one grid.
fn are_of_one_grid(target: &Home, source: &Home) -> bool
    ensures { IsTrue result → AreOfOneGrid (grid_of target.now) (grid_of source.now) }
{
    match target {
        Home::Spread(_, map) => match source {
            Home::Spread(_, other) => map.template.grid == other.template.grid,
            _ => true,
        },
        _ => true,
    }
}

/// How many sections a side has.
fn sections(parts: &[SidePart]) -> usize
    ensures { result ≡ count_by is_section parts.now }
{
    match first_and_rest(parts) {
        None => 0,
        Some((part, rest)) => match part {
            SidePart::One => sections(rest),
            SidePart::Many => 1 + sections(rest),
        },
    }
}

/// Whether each side has a part for each dimension, and a source with a section as many of them as its target.
fn parts_fit(target: &Side, source: &Side) -> bool
    ensures { IsTrue result → FitTogether target.now source.now }
{
    let given = sections(source.parts.as_slice());
    target.parts.len() == target.extents.len()
        && source.parts.len() == source.extents.len()
        && (given == 0 || given == sections(target.parts.as_slice()))
}

/// Whether a transfer is laid out for a node.
pub fn is_laid(kind: &MoveKind, node: u32) -> bool
    ensures { IsTrue result → IsLaidOut kind.now node }
{
    match kind {
        MoveKind::Reflect { array } => is_spread(&array.home) && is_laid_side(array, node),
        MoveKind::Gmove { target, source, .. } => {
            is_laid_side(target, node)
                && is_laid_side(source, node)
                && are_of_one_grid(&target.home, &source.home)
                && parts_fit(target, source)
        }
    }
}

fn is_spread(home: &Home) -> bool
    ensures { result ≡ is_spread home.now }
{
    match home {
        Home::Spread(_, _) => true,
        Home::Copy | Home::Image => false,
    }
}

// ---- its numbers and its nodes

/// How many numbers a part takes.
fn asked(part: SidePart) -> u64
    ensures { result ≡ asked part }
{
    match part {
        SidePart::One => 1,
        SidePart::Many => 3,
    }
}

/// How many numbers a side takes, where 64 bits hold it.
fn asked_of(parts: &[SidePart]) -> Option<u64>
    ensures { IfSome result (λ n. n ≡ sum_by asked parts.now) }
{
    match first_and_rest(parts) {
        None => Some(0),
        Some((part, rest)) => asked(*part).checked_add(asked_of(rest)?),
    }
}

/// How many a transfer takes.
fn numbers_of(kind: &MoveKind) -> Option<u64>
    ensures { IfSome result (λ n. n ≡ numbers_of kind.now) }
{
    match kind {
        MoveKind::Reflect { .. } => Some(0),
        MoveKind::Gmove { target, source, .. } => {
            let given = asked_of(target.parts.as_slice())?;
            given.checked_add(asked_of(source.parts.as_slice())?)
        }
    }
}

/// Whether these are as many numbers as a transfer takes.
pub fn has_numbers(kind: &MoveKind, args: &[i64]) -> bool
    ensures { IsTrue result → length args.now ≡ numbers_of kind.now }
{
    match numbers_of(kind) {
        None => false,
        Some(count) => count == args.len() as u64,
    }
}

/// How many nodes there are under a map.
fn nodes_of(home: &Home) -> Option<u32>
    ensures { result ≡ option_map (λ g. product g.sizes) (grid_of home.now) }
{
    match home {
        Home::Spread(_, map) => Some(map.template.grid.count()),
        _ => None,
    }
}

fn target_of(kind: &MoveKind) -> &Home
    ensures { result.now ≡ (target_of kind.now).home }
{
    match kind {
        MoveKind::Reflect { array } => &array.home,
        MoveKind::Gmove { target, .. } => &target.home,
    }
}

fn source_of(kind: &MoveKind) -> &Home
    ensures { result.now ≡ (source_of kind.now).home }
{
    match kind {
        MoveKind::Reflect { array } => &array.home,
        MoveKind::Gmove { source, .. } => &source.home,
    }
}

/// How many nodes a transfer has to do with.
pub fn peers_of(kind: &MoveKind) -> u32
    ensures { result ≡ peers_of kind.now }
{
    match nodes_of(target_of(kind)) {
        Some(count) => count,
        None => nodes_of(source_of(kind)).unwrap_or(NODE_LIMIT),
    }
}

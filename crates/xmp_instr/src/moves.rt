// Transfers that are laid out for a node.
ghost use Rattle.std.specs.Prelude.{◌≡◌, ◌↔◌, ◌+◌, ◌<◌, ◌≤◌, ◌⊎◌, IsTrue, MatchOption, length, map, take};
ghost use Rattle.std.specs.List.{count_by, list_all};
ghost use Rattle.xmp_base.specs.Limits.{cell_limit};
ghost use Rattle.xmp_dist.specs.Valid.{is_extent};
ghost use Rattle.xmp_map.specs.RowMajor.{product};
ghost use Rattle.xmp_map.specs.Held as held;
ghost use Rattle.xmp_prog.specs.Tests.{is_spread};
ghost use Rattle.xmp_move.specs.Laid.{AreOfOneGrid, IsOneArray, ShareNoWord, grid_of, is_section, sections};
ghost use Rattle.xmp_move.specs.Sides.{words_in};
ghost use Rattle.xmp_instr.specs.Sides.{Lies, PairFits, SideFits};
ghost use Rattle.xmp_instr.specs.Valid.{MapOver, MoveFits};

use crate::parts::CodeParts;
use crate::same::{is_same_grid, is_same_list, is_same_map};
use xmp_base::{CELL_LIMIT, SIZE_LIMIT};
use xmp_map::{AlignedDim, ArrayMap};
use xmp_move::{MoveKind, Side, SidePart};
use xmp_prog::Home;

// ---- one side

fn are_extents(extents: &[u32]) -> bool
    ensures { result ≡ list_all is_extent extents.now }
{
    'extents: for extent in extents {
        if *extent < 1 || *extent > SIZE_LIMIT {
            return false;
        }
    }
    true
}

/// How many cells there are, where they aren't too many.
fn cells(extents: &[u32]) -> Option<u32>
    requires { IsTrue (list_all is_extent extents.now) }
    ensures { MatchOption result (cell_limit < product extents.now)
        (λ n. (n ≡ product extents.now) × (n ≤ cell_limit)) }
{
    let mut count = 1u32;
    'extents: for extent in extents {
        let more = u64::from(count) * u64::from(*extent);
        if more > u64::from(CELL_LIMIT) {
            return None;
        }
        count = more as u32;
    }
    Some(count)
}

fn extents_of(dims: &[AlignedDim; 3]) -> [u32; 3]
    ensures { result ≡ map (λ l. l.extent) dims.now }
{
    let [first, second, third] = dims;
    [first.extent, second.extent, third.extent]
}

fn has_extents(map: &ArrayMap, extents: &[u32]) -> bool
    ensures { IsTrue result ↔ (take map.now.dims (held.extents map.now) ≡ extents.now) }
{
    let all = extents_of(&map.aligned);
    &all[..map.dims as usize] == extents
}

fn is_over(parts: &CodeParts, map: &ArrayMap) -> bool
    ensures { IsTrue result ↔ MapOver parts.now.nodes map.now }
{
    map.template.grid.count() == parts.nodes
}

/// How many words a side has at the node, where its array lies on the nodes and fits its map.
fn words_at(parts: &CodeParts, side: &Side, cells: u32) -> Option<u32>
    requires node { parts.now.node < parts.now.nodes }
    requires cells { cells ≡ product side.now.extents }
    ensures { MatchOption result (Lies parts.now side.now → ⊥)
        (λ n. Lies parts.now side.now × (n ≡ words_in side.now parts.now.node)) }
{
    match &side.home {
        Home::Copy => Some(cells),
        Home::Image => None,
        Home::Spread(_, map) => {
            if is_over(parts, map) && has_extents(map, side.extents.as_slice()) {
                Some(map.words(parts.node))
            } else {
                None
            }
        }
    }
}

fn words_below(parts: &CodeParts, side: &Side, cells: u32) -> Option<u32>
    requires node { parts.now.node < parts.now.nodes }
    requires cells { cells ≡ product side.now.extents }
    ensures { MatchOption result
        (Lies parts.now side.now × (side.now.base + words_in side.now parts.now.node ≤ parts.now.words) → ⊥)
        (λ n. Lies parts.now side.now × (side.now.base + words_in side.now parts.now.node ≤ parts.now.words)
        × (n ≡ words_in side.now parts.now.node)) }
{
    let words = words_at(parts, side, cells)?;
    if u64::from(side.base) + u64::from(words) <= u64::from(parts.words) {
        Some(words)
    } else {
        None
    }
}

/// How many words a side has at the node, where it fits.
fn side_words(parts: &CodeParts, side: &Side) -> Option<u32>
    requires { parts.now.node < parts.now.nodes }
    ensures { MatchOption result (SideFits parts.now side.now → ⊥)
        (λ n. SideFits parts.now side.now × (n ≡ words_in side.now parts.now.node)) }
{
    let extents = side.extents.as_slice();
    if extents.len() > 3 || !are_extents(extents) {
        return None;
    }
    match cells(extents) {
        Some(cells) => words_below(parts, side, cells),
        None => None,
    }
}

// ---- two sides

fn is_one_grid(target: &Home, source: &Home) -> bool
    ensures { IsTrue result ↔ AreOfOneGrid (grid_of target.now) (grid_of source.now) }
{
    match (target, source) {
        (Home::Spread(_, a), Home::Spread(_, b)) => {
            is_same_grid(&a.template.grid, &b.template.grid)
        }
        _ => true,
    }
}

fn is_same_home(a: &Home, b: &Home) -> bool
    ensures { IsTrue result ↔ (a.now ≡ b.now) }
{
    match (a, b) {
        (Home::Copy, Home::Copy) => true,
        (Home::Image, Home::Image) => true,
        (Home::Spread(t, m), Home::Spread(u, n)) => *t == *u && is_same_map(m, n),
        _ => false,
    }
}

fn is_section(part: SidePart) -> bool
    ensures { result ≡ is_section part }
{
    match part {
        SidePart::One => false,
        SidePart::Many => true,
    }
}

fn sections(side: &Side) -> usize
    ensures { result ≡ sections side.now }
{
    let parts = side.parts.as_slice();
    let mut count = 0usize;
    'parts: for part in parts {
        if is_section(*part) {
            count += 1;
        }
    }
    count
}

fn sections_fit(target: &Side, source: &Side) -> bool
    ensures { IsTrue result ↔ ((sections source.now ≡ 0) ⊎ (sections source.now ≡ sections target.now)) }
{
    let count = sections(source);
    count == 0 || count == sections(target)
}

fn is_one_array(a: &Side, b: &Side) -> bool
    ensures { IsTrue result ↔ IsOneArray a.now b.now }
{
    a.base == b.base
        && is_same_list(a.extents.as_slice(), b.extents.as_slice())
        && is_same_home(&a.home, &b.home)
}

fn share_no_word(parts: &CodeParts, a: &Side, b: &Side, a_words: u32, b_words: u32) -> bool
    requires a { a_words ≡ words_in a.now parts.now.node }
    requires b { b_words ≡ words_in b.now parts.now.node }
    ensures { IsTrue result ↔ ShareNoWord a.now b.now parts.now.node }
{
    u64::from(a.base) + u64::from(a_words) <= u64::from(b.base)
        || u64::from(b.base) + u64::from(b_words) <= u64::from(a.base)
}

fn arrays_fit(parts: &CodeParts, a: &Side, b: &Side, a_words: u32, b_words: u32) -> bool
    requires a { a_words ≡ words_in a.now parts.now.node }
    requires b { b_words ≡ words_in b.now parts.now.node }
    ensures { IsTrue result ↔ (IsOneArray a.now b.now ⊎ ShareNoWord a.now b.now parts.now.node) }
{
    is_one_array(a, b) || share_no_word(parts, a, b, a_words, b_words)
}

fn has_parts(side: &Side) -> bool
    ensures { IsTrue result ↔ (length side.now.parts ≡ length side.now.extents) }
{
    side.parts.len() == side.extents.len()
}

fn pair_fits(parts: &CodeParts, a: &Side, b: &Side, a_words: u32, b_words: u32) -> bool
    requires a { a_words ≡ words_in a.now parts.now.node }
    requires b { b_words ≡ words_in b.now parts.now.node }
    ensures { IsTrue result ↔ PairFits parts.now a.now b.now }
{
    is_one_grid(&a.home, &b.home)
        && has_parts(a)
        && has_parts(b)
        && sections_fit(a, b)
        && arrays_fit(parts, a, b, a_words, b_words)
}

// ---- transfers

fn gmove_fits(parts: &CodeParts, target: &Side, source: &Side) -> bool
    requires { parts.now.node < parts.now.nodes }
    ensures { IsTrue result ↔ (SideFits parts.now target.now × SideFits parts.now source.now
        × PairFits parts.now target.now source.now) }
{
    match (side_words(parts, target), side_words(parts, source)) {
        (Some(a), Some(b)) => pair_fits(parts, target, source, a, b),
        _ => false,
    }
}

fn is_spread(home: &Home) -> bool
    ensures { result ≡ is_spread home.now }
{
    matches!(home, Home::Spread(..))
}

/// Whether a transfer is laid out for the node, over grids of all nodes, with its words in the store.
pub fn move_fits(parts: &CodeParts, kind: &MoveKind) -> bool
    requires { parts.now.node < parts.now.nodes }
    ensures { IsTrue result ↔ MoveFits parts.now kind.now }
{
    let _words = parts.words;
    match kind {
        MoveKind::Reflect { array } => {
            is_spread(&array.home) && side_words(parts, array).is_some()
        }
        MoveKind::Gmove { target, source, .. } => gmove_fits(parts, target, source),
    }
}

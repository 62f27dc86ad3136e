// Directives with no statement inside: reflect, barrier and bcast, and sets of nodes.
ghost use Rattle.std.specs.Prelude.{◌≡◌, ◌==◌, ◌&&◌, ◌||◌, IfOk, None, int_le, length, not, pos, slice_get};
ghost use Rattle.std.specs.List.{list_all};
ghost use Rattle.std.specs.Option.{unwrap_or};
ghost use Rattle.xmp_names.specs.Walk.{Does, Gave, each};
ghost use Rattle.xmp_names.specs.Lists.{listed, notation, parts};
ghost use Rattle.xmp_directives.specs.Directives.{array_name, barrier_of, bcast_of, box_of, dimensions_of, index_name, is_box, is_one, judged_set, match_nodes, node_number, nodes_from, nodes_sizes, nodes_take, piece_of, range_of, range_right, ranges, ranges_right, reflect_of, scalar_name, second_of, set_of, slot_or_zero};
ghost use Rattle.xmp_names.specs.Sizes.{line_sizes};

use sqlite_items::Items;
use std::alloc::{AllocError, Global};
use xmp_base::{NODE_LIMIT, Place};
use xmp_map::NodeSet;
use xmp_names::{
    NodesLine, Notation, Rule, World, given_or_one, is_same, line_sizes, notation, part_at,
};
use xmp_num::Ty;
use xmp_prog as prog;
use xmp_syntax::{CommaList, DirectiveLine, Expr, Name, NodesSet, Piece, Several};

// The slot of a scalar, 0 where the name is of none.
fn slot_or_zero(scalar: Option<(u32, Ty)>) -> u32
    ensures { result ≡ slot_or_zero scalar }
{
    match scalar {
        Some((slot, _)) => slot,
        None => 0,
    }
}

/// A scalar by its name.
pub(crate) fn scalar_name(world: &mut World, name: &Name) -> Result<prog::Name, AllocError>
    ensures { Does (scalar_name name.now world.old) result world.new }
{
    let scalar = world.scalar_of(name)?;
    Ok(prog::Name {
        number: slot_or_zero(scalar),
        at: name.at,
    })
}

/// An int scalar by its name.
pub(crate) fn index_name(world: &mut World, name: &Name) -> Result<u32, AllocError>
    ensures { Does (index_name name.now world.old) result world.new }
{
    match world.index_of(name)? {
        Some(slot) => Ok(slot),
        None => Ok(0),
    }
}

fn array_name(world: &mut World, name: &Name) -> Result<prog::Name, AllocError>
    ensures { Does (array_name name.now world.old) result world.new }
{
    match world.array_of(name)? {
        Some(number) => Ok(prog::Name {
            number,
            at: name.at,
        }),
        None => Ok(prog::Name {
            number: 0,
            at: name.at,
        }),
    }
}

fn array_names(
    world: &mut World,
    alloc: Global,
    names: &CommaList<Name>,
) -> Result<Items<prog::Name>, AllocError>
    ensures { Does (each array_name (listed names.now) world.old) result world.new }
{
    let mut done = Items::new(alloc);
    let first = array_name(world, &names.first)?;
    done.push(first)?;
    'more: for next in names.more.as_slice() {
        let name = array_name(world, &next.item)?;
        done.push(name)?;
    }
    Ok(done)
}

fn scalar_names(
    world: &mut World,
    alloc: Global,
    names: &CommaList<Name>,
) -> Result<Items<prog::Name>, AllocError>
    ensures { Does (each scalar_name (listed names.now) world.old) result world.new }
{
    let mut done = Items::new(alloc);
    let first = scalar_name(world, &names.first)?;
    done.push(first)?;
    'more: for next in names.more.as_slice() {
        let name = scalar_name(world, &next.item)?;
        done.push(name)?;
    }
    Ok(done)
}

// ---- sets of nodes

/// The second number of a range or a piece.
pub(crate) fn second_of(
    world: &mut World,
    alloc: Global,
    x: &Option<(Place, Expr)>,
) -> Result<Option<i64>, AllocError>
    ensures { Does (second_of x.now world.old) result world.new }
{
    match x {
        Some((_, x)) => {
            let value = world.constant(alloc, x)?;
            Ok(Some(value))
        }
        None => Ok(None),
    }
}

// The nodes of a piece, counted from 0: the first and how many there are.
fn nodes_from(written: Notation, first: i64, second: Option<i64>) -> (i128, i128)
    ensures { result ≡ nodes_from written first second }
{
    let b = i128::from(first);
    match (written, second) {
        (Notation::Brackets, None) => (b, 1),
        (Notation::Brackets, Some(count)) => (b, i128::from(count)),
        (Notation::Parens, None) => (b - 1, 1),
        (Notation::Parens, Some(last)) => (b - 1, i128::from(last) - b + 1),
    }
}

// A piece of a set: nothing for `:`.
fn piece_of(
    world: &mut World,
    alloc: Global,
    written: Notation,
    x: &Piece,
) -> Result<Option<(i128, i128)>, AllocError>
    ensures { Does (piece_of written x.now world.old) result world.new }
{
    match x {
        Piece::All(_) => Ok(None),
        Piece::Numbers(first, second) => {
            let first = world.constant(alloc, first)?;
            let second = second_of(world, alloc, second)?;
            Ok(Some(nodes_from(written, first, second)))
        }
    }
}

fn pieces_of(
    world: &mut World,
    alloc: Global,
    list: &Several<Piece, Piece>,
) -> Result<Items<Option<(i128, i128)>>, AllocError>
    ensures { Does (each (piece_of (notation list.now)) (parts list.now) world.old) result world.new }
{
    let written = notation(list);
    let mut done = Items::new(alloc);
    'list: while let Some(x) = part_at(list, done.len()) {
        let piece = piece_of(world, alloc, written, x)?;
        done.push(piece)?;
    }
    Ok(done)
}

fn dimensions_of(line: &NodesLine) -> usize
    ensures { result ≡ dimensions_of line.now.sizes }
{
    match &line.sizes {
        Some(sizes) => sizes.len(),
        None => 1,
    }
}

// Whether a nodes array has so many dimensions, and is written so in its own directive.
fn nodes_take(world: &World, written: Notation, count: usize, number: u32) -> bool
    ensures { result ≡ nodes_take written count (slice_get world.now.mappings.nodes number) }
{
    match world.mappings.nodes.get(number as usize) {
        Some(line) => count == dimensions_of(line) && is_same(written, line.notation),
        None => false,
    }
}

// A nodes array has a piece for each dimension, and is written as in its own directive; or it has none.
fn match_nodes(
    world: &mut World,
    number: Option<u32>,
    written: Notation,
    count: usize,
    at: Place,
) -> Result<(), AllocError>
    ensures { Does (match_nodes number written count at world.old) result world.new }
{
    match number {
        Some(number) => {
            let right = count == 0 || nodes_take(world, written, count, number);
            world.judge(right, Rule::N3, at)
        }
        None => Ok(()),
    }
}

// The sizes of a nodes array.
fn nodes_sizes(world: &World, alloc: Global, number: Option<u32>) -> Result<Items<i64>, AllocError>
    ensures { IfOk result (λ sizes. nodes_sizes number world.now ≡ Gave sizes world.now) }
{
    match number {
        Some(number) => match world.mappings.nodes.get(number as usize) {
            Some(line) => line_sizes(alloc, given_or_one(world), line),
            None => Ok(Items::new(alloc)),
        },
        None => Ok(Items::new(alloc)),
    }
}

// What a set breaks, and its box, by the pieces that are written.
fn judged_set(
    world: &mut World,
    alloc: Global,
    one_node: bool,
    word: Place,
    number: Option<u32>,
    pieces: &[Option<(i128, i128)>],
) -> Result<NodeSet, AllocError>
    ensures { Does (judged_set one_node word number pieces.now world.old) result world.new }
{
    let sizes = nodes_sizes(world, alloc, number)?;
    let rs = ranges(alloc, sizes.as_slice(), pieces)?;
    let right = set_right(one_node, sizes.as_slice(), rs.as_slice());
    world.judge(right, Rule::M8, word)?;
    Ok(box_of(sizes.as_slice(), rs.as_slice()))
}

/// A set of nodes. Its rule breaks at the directive's word.
pub fn node_set(
    world: &mut World,
    alloc: Global,
    one_node: bool,
    word: Place,
    x: &NodesSet,
) -> Result<NodeSet, AllocError>
    ensures { Does (set_of one_node word x.now world.old) result world.new }
{
    let number = world.nodes_array_of(&x.name)?;
    let pieces = pieces_of(world, alloc, &x.pieces)?;
    let written = notation(&x.pieces);
    match_nodes(world, number, written, pieces.len(), x.name.at)?;
    judged_set(world, alloc, one_node, word, number, pieces.as_slice())
}

// ---- reflect, barrier, bcast

/// `reflect`
pub fn reflect(
    world: &mut World,
    alloc: Global,
    line: DirectiveLine,
    names: &CommaList<Name>,
) -> Result<prog::Stmt, AllocError>
    ensures { Does (reflect_of line names.now world.old) result world.new }
{
    world.directive_at(line.word)?;
    let arrays = array_names(world, alloc, names)?;
    Ok(prog::Stmt::Plain(prog::Plain::Reflect {
        arrays,
        at: line.word,
    }))
}

/// `barrier`
pub fn barrier(world: &mut World, line: DirectiveLine) -> Result<prog::Stmt, AllocError>
    ensures { Does (barrier_of line world.old) result world.new }
{
    world.directive_at(line.word)?;
    Ok(prog::Stmt::Plain(prog::Plain::Barrier { at: line.word }))
}

/// `bcast`
pub fn bcast(
    world: &mut World,
    alloc: Global,
    line: DirectiveLine,
    names: &CommaList<Name>,
    set: &NodesSet,
) -> Result<prog::Stmt, AllocError>
    ensures { Does (bcast_of line names.now set.now world.old) result world.new }
{
    world.directive_at(line.word)?;
    let variables = scalar_names(world, alloc, names)?;
    let from = node_set(world, alloc, true, line.word, set)?;
    Ok(prog::Stmt::Plain(prog::Plain::Cast {
        variables,
        from,
        at: line.word,
    }))
}

fn range_of(size: i64, piece: Option<(i128, i128)>) -> (i128, i128)
    ensures { result ≡ range_of size piece }
{
    match piece {
        Some(range) => range,
        None => (0, i128::from(size)),
    }
}

fn piece_at(pieces: &[Option<(i128, i128)>], dimension: usize) -> Option<(i128, i128)>
    ensures { result ≡ unwrap_or (slice_get pieces.now dimension) None }
{
    match pieces.get(dimension) {
        Some(piece) => *piece,
        None => None,
    }
}

// The box of a set: a set without subscripts is the whole array.
fn ranges(
    alloc: Global,
    sizes: &[i64],
    pieces: &[Option<(i128, i128)>],
) -> Result<Items<(i128, i128)>, AllocError>
    ensures { IfOk result (λ rs. rs ≡ ranges sizes.now pieces.now) }
{
    let mut done = Items::new(alloc);
    'sizes: for (i, size) in sizes.iter().enumerate() {
        done.push(range_of(*size, piece_at(pieces, i)))?;
    }
    Ok(done)
}

fn range_right(size: i64, range: (i128, i128)) -> bool
    ensures { result ≡ range_right size range }
{
    let (first, many) = range;
    let size = i128::from(size);
    if 0 <= first && 1 <= many {
        many <= size && first <= size - many
    } else {
        false
    }
}

fn ranges_right(sizes: &[i64], ranges: &[(i128, i128)]) -> bool
    ensures { result ≡ ranges_right sizes.now ranges.now }
{
    'sizes: for (i, size) in sizes.iter().enumerate() {
        let Some(range) = ranges.get(i) else {
            return true;
        };
        if !range_right(*size, *range) {
            return false;
        }
    }
    true
}

fn is_one(ranges: &[(i128, i128)]) -> bool
    ensures { result ≡ is_one ranges.now }
{
    'list: for range in ranges {
        if 1 < range.1 {
            return false;
        }
    }
    true
}

// Whether a set stays in the nodes array, and has one node where one is asked for.
fn set_right(one_node: bool, sizes: &[i64], ranges: &[(i128, i128)]) -> bool
    ensures { result ≡ (ranges_right sizes.now ranges.now && (not one_node || is_one ranges.now)) }
{
    ranges_right(sizes, ranges) && (!one_node || is_one(ranges))
}

// A number of nodes, 0 where there are not so many.
fn node_number(n: i128) -> u32
    ensures { result ≡ node_number n }
{
    if 0 <= n && n <= i128::from(NODE_LIMIT) {
        n as u32
    } else {
        0
    }
}

fn are_small(sizes: &[i64]) -> bool
    ensures { result ≡ list_all (λ n. int_le n (pos 16)) sizes.now }
{
    'sizes: for size in sizes {
        if i64::from(NODE_LIMIT) < *size {
            return false;
        }
    }
    true
}

fn is_box(sizes: &[i64], ranges: &[(i128, i128)]) -> bool
    ensures { result ≡ is_box sizes.now ranges.now }
{
    ranges_right(sizes, ranges) && are_small(sizes) && sizes.len() <= 3
}

// The range in a dimension; the first node's in one that the nodes array hasn't.
fn range_at(ranges: &[(i128, i128)], dimension: usize) -> (i128, i128)
    ensures { result ≡ unwrap_or (slice_get ranges.now dimension) (pos 0, pos 1) }
{
    match ranges.get(dimension) {
        Some(range) => *range,
        None => (0, 1),
    }
}

// The box that stands in the typed program; the first node's where a rule breaks.
fn box_of(sizes: &[i64], ranges: &[(i128, i128)]) -> NodeSet
    ensures { result ≡ box_of sizes.now ranges.now }
{
    if !is_box(sizes, ranges) {
        return NodeSet {
            first: [0, 0, 0],
            many: [1, 1, 1],
        };
    }
    let a = range_at(ranges, 0);
    let b = range_at(ranges, 1);
    let c = range_at(ranges, 2);
    NodeSet {
        first: [node_number(a.0), node_number(b.0), node_number(c.0)],
        many: [node_number(a.1), node_number(b.1), node_number(c.1)],
    }
}

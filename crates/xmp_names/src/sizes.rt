// Which numbers are extents and sizes, and the sizes of what is declared.
ghost use Rattle.std.specs.Prelude.{◌≡◌, FitsSigned, IfOk, slice_get};
ghost use Rattle.std.specs.Int.{w32};
ghost use Rattle.xmp_names.specs.Sizes.{extents_in, given_or_one, held, is_bound, is_extent, is_small, line_sizes, lower_at, range_size};

use crate::mappings::NodesLine;
use crate::world::World;
use sqlite_items::Items;
use std::alloc::{AllocError, Global};
use xmp_base::{OFFSET_LIMIT, SIZE_LIMIT};

/// Whether a number is an extent or a size: 1 to 4,194,304.
pub fn is_extent(n: i64) -> bool
    ensures { result ≡ is_extent n }
{
    1 <= n && n <= i64::from(SIZE_LIMIT)
}

/// Whether a constant is at most 4,194,304 in size.
pub fn is_small(c: i64) -> bool
    ensures { result ≡ is_small c }
{
    c <= i64::from(SIZE_LIMIT) && -i64::from(SIZE_LIMIT) <= c
}

/// Whether a template's bound is at most 8,388,608 in size.
fn is_bound(b: i64) -> bool
    ensures { result ≡ is_bound b }
{
    b <= i64::from(OFFSET_LIMIT) && -i64::from(OFFSET_LIMIT) <= b
}

/// How many coordinates lie from one bound to another; none where a bound is beyond 8,388,608 in size.
pub fn range_size(lower: i64, upper: i64) -> i64
    ensures { result ≡ range_size lower upper }
{
    if is_bound(lower) && is_bound(upper) {
        upper - lower + 1
    } else {
        0
    }
}

/// The lower bound of a dimension; 0 of one that isn't there.
pub fn lower_at(lowers: &[i64], k: usize) -> i64
    ensures { result ≡ lower_at lowers.now k }
{
    match lowers.get(k) {
        Some(lower) => *lower,
        None => 0,
    }
}

/// A constant less the lower bound of its dimension; 0 where one of them is beyond 4,194,304 in size.
pub fn held(lower: i64, c: i64) -> i32
    ensures value { result ≡ held lower c }
    ensures range { FitsSigned w32 result }
{
    if is_small(lower) && is_small(c) {
        (c - lower) as i32
    } else {
        0
    }
}

/// The given number of nodes, or 1.
pub fn given_or_one(w: &World) -> u32
    ensures { result ≡ given_or_one w.now }
{
    match w.given {
        Some(given) => given,
        None => 1,
    }
}

/// The sizes of a nodes array; `[*]` has the given number of nodes.
pub fn line_sizes(alloc: Global, given: u32, line: &NodesLine) -> Result<Items<i64>, AllocError>
    ensures { IfOk result (λ sizes. sizes ≡ line_sizes given line.now) }
{
    match &line.sizes {
        Some(sizes) => Items::from_slice(alloc, sizes.as_slice()),
        None => {
            let mut sizes = Items::new(alloc);
            sizes.push(i64::from(given))?;
            Ok(sizes)
        }
    }
}

/// The extents of an array by its number.
pub fn extents_in(w: &World, array: u32) -> &[u32]
    ensures { result.now ≡ extents_in (slice_get w.now.names.arrays array) }
{
    match w.names.arrays.get(array as usize) {
        Some(array) => array.extents.as_slice(),
        None => &[],
    }
}

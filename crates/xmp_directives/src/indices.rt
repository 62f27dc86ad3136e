// Whether the names of a loop directive are the indices of its nest, and stand in its points.
ghost use Rattle.std.specs.Prelude.{◌≡◌, ◌==◌, IfOk};
ghost use Rattle.std.specs.List.{count_by, list_all};
ghost use Rattle.xmp_prog.specs.Numbers.{is_in};
ghost use Rattle.xmp_prog.specs.Statements.{indices_of};
ghost use Rattle.xmp_directives.specs.Directives.{is_small_point, loop_right, same_numbers, slots_of_points};

use sqlite_items::Items;
use std::alloc::{AllocError, Global};
use xmp_names::is_small;
use xmp_prog::LoopHead;

/// The slots of the indices in points.
pub(crate) fn slots_of_points(
    alloc: Global,
    points: &[Option<(u32, i64)>],
) -> Result<Items<u32>, AllocError>
    ensures { IfOk result (λ slots. slots ≡ slots_of_points points.now) }
{
    let mut done = Items::new(alloc);
    'points: for point in points {
        if let Some((slot, _)) = *point {
            done.push(slot)?;
        }
    }
    Ok(done)
}

fn same_indices(names: &[u32], nest: &[LoopHead]) -> bool
    ensures { result ≡ same_numbers names.now (indices_of nest.now) }
{
    'names: for (i, name) in names.iter().enumerate() {
        let Some(head) = nest.get(i) else {
            return false;
        };
        if *name != head.index.number {
            return false;
        }
    }
    nest.len() <= names.len()
}

fn is_in(numbers: &[u32], n: u32) -> bool
    ensures { result ≡ is_in numbers.now n }
{
    'numbers: for number in numbers {
        if *number == n {
            return true;
        }
    }
    false
}

fn count_of(numbers: &[u32], n: u32) -> usize
    ensures { result ≡ count_by (λ j. j == n) numbers.now }
{
    let mut count = 0usize;
    'numbers: for number in numbers {
        if *number == n {
            count += 1;
        }
    }
    count
}

fn each_in_one(names: &[u32], slots: &[u32]) -> bool
    ensures { result ≡ list_all (λ i. count_by (λ j. j == i) slots.now == 1) names.now }
{
    'names: for name in names {
        if count_of(slots, *name) != 1 {
            return false;
        }
    }
    true
}

fn all_in(names: &[u32], slots: &[u32]) -> bool
    ensures { result ≡ list_all (is_in names.now) slots.now }
{
    'slots: for slot in slots {
        if !is_in(names, *slot) {
            return false;
        }
    }
    true
}

fn is_small_point(point: Option<(u32, i64)>) -> bool
    ensures { result ≡ is_small_point point }
{
    match point {
        Some((_, offset)) => is_small(offset),
        None => true,
    }
}

fn all_small(points: &[Option<(u32, i64)>]) -> bool
    ensures { result ≡ list_all is_small_point points.now }
{
    'points: for point in points {
        if !is_small_point(*point) {
            return false;
        }
    }
    true
}

/// Whether a loop directive goes with the nest under it.
pub(crate) fn loop_right(
    alloc: Global,
    names: &[u32],
    points: &[Option<(u32, i64)>],
    nest: &[LoopHead],
) -> Result<bool, AllocError>
    ensures { IfOk result (λ right. right ≡ loop_right names.now points.now nest.now) }
{
    let slots = slots_of_points(alloc, points)?;
    let right = same_indices(names, nest)
        && each_in_one(names, slots.as_slice())
        && all_in(names, slots.as_slice())
        && all_small(points);
    Ok(right)
}

// Whole arrays, and the assignment of a section cell by cell.
ghost use Rattle.std.specs.Prelude.{◌≡◌, ◌++◌, [], ◌∷◌, IfOk};

use crate::shapes::{Stop, cells};
use std::alloc::Global;
use xmp_move::SidePart;
use xmp_num::{Ty, convert};

// The subscripts of a dimension that are named: the first, how many, and the step.
type Named = (i64, i64, i64);

pub fn push<T: Drop>(all: &mut Vec<T>, item: T) -> Result<(), Stop>
    ensures { IfOk result (λ _. all.new.items ≡ all.old.items ++ item ∷ []) }
{
    match all.push(item) {
        Ok(()) => Ok(()),
        Err(failed) => {
            drop(failed);
            Err(Stop::Memory)
        }
    }
}

// Another array with the same values.
pub fn copy_of(alloc: Global, array: &[i64]) -> Result<Vec<i64>, Stop> {
    match Vec::from_slice(alloc, array) {
        Ok(copy) => Ok(copy),
        Err(_) => Err(Stop::Memory),
    }
}

fn number(args: &[i64], at: usize) -> Result<i64, Stop> {
    match args.get(at) {
        Some(v) => Ok(*v),
        None => Err(Stop::Code),
    }
}

// What is named of each of three dimensions, from the number with this place on; and the place behind.
fn named(parts: &[SidePart], args: &[i64], from: usize) -> Result<([Named; 3], usize), Stop> {
    let mut all = [(0, 1, 1), (0, 1, 1), (0, 1, 1)];
    let mut at = from;
    for (d, part) in parts.iter().enumerate() {
        if d >= 3 || at > 100 {
            return Err(Stop::Code);
        }
        match part {
            SidePart::One => {
                all[d] = (number(args, at)?, 1, 1);
                at += 1;
            }
            SidePart::Many => {
                all[d] = (
                    number(args, at)?,
                    number(args, at + 1)?,
                    number(args, at + 2)?,
                );
                at += 3;
            }
        }
    }
    Ok((all, at))
}

fn subscript(named: &Named, k: i64) -> i64 {
    named.0.saturating_add(k.saturating_mul(named.2))
}

fn extent(extents: &[u32], d: usize) -> i64 {
    match extents.get(d) {
        Some(e) => i64::from(*e),
        None => 1,
    }
}

// The numbers of the cells that are named, in row-major order.
fn numbers(alloc: Global, extents: &[u32], named: &[Named; 3]) -> Result<Vec<usize>, Stop> {
    let [a, b, c] = named;
    let mut all = Vec::new(alloc);
    for i in 0..a.1.clamp(0, 100) {
        for j in 0..b.1.clamp(0, 100) {
            for k in 0..c.1.clamp(0, 100) {
                let row = subscript(a, i)
                    .saturating_mul(extent(extents, 1))
                    .saturating_add(subscript(b, j));
                let n = row
                    .saturating_mul(extent(extents, 2))
                    .saturating_add(subscript(c, k));
                if n < 0 || n > 1000 {
                    return Err(Stop::Cell);
                }
                push(&mut all, n as usize)?;
            }
        }
    }
    Ok(all)
}

// The values of these cells.
fn values(alloc: Global, array: &[i64], at: &[usize]) -> Result<Vec<i64>, Stop> {
    let mut all = Vec::new(alloc);
    for n in at {
        match array.get(*n) {
            Some(v) => push(&mut all, *v)?,
            None => return Err(Stop::Cell),
        }
    }
    Ok(all)
}

// The target, after each of its cells got the value beside it, or the one value.
fn write(target: &mut Vec<i64>, at: &[usize], values: &[i64], ty: Ty) -> Result<(), Stop> {
    for (k, n) in at.iter().enumerate() {
        let from = if values.len() == 1 { 0 } else { k };
        match (values.get(from), *n < target.len()) {
            (Some(v), true) => target[*n] = convert(*v, ty),
            _ => return Err(Stop::Cell),
        }
    }
    Ok(())
}

// An array whose cell with number `n` is `first + n * step`.
pub fn array(alloc: Global, extents: &[u32], first: i64, step: i64) -> Result<Vec<i64>, Stop> {
    let mut all = Vec::new(alloc);
    for n in 0..cells(extents) {
        push(
            &mut all,
            first.saturating_add(step.saturating_mul(i64::from(n))),
        )?;
    }
    Ok(all)
}

// A section of the target is assigned a section of the source: all is read before anything is written.
pub fn assign(
    alloc: Global,
    target: &mut Vec<i64>,
    source: &[i64],
    target_side: (&[u32], &[SidePart]),
    source_side: (&[u32], &[SidePart]),
    args: &[i64],
    ty: Ty,
) -> Result<(), Stop> {
    let (to, behind) = named(target_side.1, args, 0)?;
    let (from, _) = named(source_side.1, args, behind)?;
    let to = numbers(alloc, target_side.0, &to)?;
    let from = numbers(alloc, source_side.0, &from)?;
    let read = values(alloc, source, from.as_slice())?;
    write(target, to.as_slice(), read.as_slice(), ty)
}

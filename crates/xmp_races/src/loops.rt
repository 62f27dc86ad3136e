// The counted loops round an access whose bounds are image expressions.
ghost use Rattle.std.specs.Prelude.{◌≡◌, ◌≤◌, ◌&&◌, ◌++◌, pos, nat_lt, true, map, OnOk, IfOk};
ghost use Rattle.std.specs.Option.{option_copied};
ghost use Rattle.xmp_num.specs.declared.types.Ty.TheVariants.{Int};
ghost use Rattle.xmp_num.specs.Arithmetic.{wrap};
ghost use Rattle.xmp_meaning.specs.Expressions.{natural};
ghost use Rattle.xmp_meaning.specs.Loops.{is_inside};
ghost use Rattle.xmp_races.specs.Footprints.{beyond, bound_on, first_on, in_step, is_image, is_turn, leaves, left_of_step, loop_of, loops_in};

use crate::setting::LoopImages;
use sqlite_items::Items;
use std::alloc::{AllocError, Global};
use xmp_base::{NoMemory, Words};
use xmp_prog::LoopHead;

/// A value of the type int.
pub fn int(value: i64) -> i32
    ensures { result ≡ wrap Int value }
{
    (value.rem_euclid(1 << 32) as u32).cast_signed()
}

// Values converted to int.
fn ints(alloc: Global, values: &[i64]) -> Result<Items<i32>, AllocError>
    ensures { IfOk result (λ found. found ≡ map (wrap Int) values.now) }
{
    let mut found = Items::new(alloc);
    'values: for value in values {
        found.push(int(*value))?;
    }
    Ok(found)
}

impl LoopImages {
    // The same loop.
    fn copy(&self, alloc: Global) -> Result<LoopImages, AllocError>
        ensures { IfOk result (λ copy. copy ≡ self.now) }
    {
        let from = Items::from_slice(alloc, self.from.as_slice())?;
        let to = Items::from_slice(alloc, self.to.as_slice())?;
        Ok(LoopImages {
            index: self.index,
            from,
            to,
            inclusive: self.inclusive,
            step: self.step,
        })
    }

    // The first value of the index on an image.
    fn first_on(&self, image: u32) -> i32
        ensures { result ≡ first_on self.now image }
    {
        match self.from.get(image as usize) {
            Some(value) => *value,
            None => 0,
        }
    }

    // Its bound on an image.
    fn bound_on(&self, image: u32) -> i32
        ensures { result ≡ bound_on self.now image }
    {
        match self.to.get(image as usize) {
            Some(value) => *value,
            None => 0,
        }
    }

    /// Whether a number is a value of the index on an image.
    pub fn is_turn(&self, image: u32, value: u32) -> bool
        ensures { result ≡ is_turn self.now image (pos value) }
    {
        let first = i64::from(self.first_on(image));
        let value = i64::from(value);
        self.step > 0
            && (first <= value
                && (is_inside(self.inclusive, value, i64::from(self.bound_on(image)))
                    && in_step(value, first, self.step)))
    }

    /// Whether the index has a value on an image that is the number of none of so many images.
    pub fn leaves(&self, count: u32, image: u32) -> bool
        ensures { result ≡ leaves count self.now image }
    {
        let first = i64::from(self.first_on(image));
        let bound = i64::from(self.bound_on(image));
        self.step > 0
            && (is_inside(self.inclusive, first, bound)
                && (!is_image(count, first)
                    || is_inside(self.inclusive, beyond(count, first, self.step), bound)))
    }
}

// Whether two numbers are so many whole steps apart.
fn in_step(a: i64, b: i64, step: u32) -> bool
    requires { nat_lt 0 step ≡ true }
    ensures { result ≡ in_step a b step }
{
    let step = i64::from(step);
    a.rem_euclid(step) == b.rem_euclid(step)
}

// Whether an index is inside a bound.
fn is_inside(inclusive: bool, index: i64, bound: i64) -> bool
    ensures { result ≡ is_inside inclusive index bound }
{
    if inclusive {
        index <= bound
    } else {
        index < bound
    }
}

/// Whether a number is that of one of so many images.
pub fn is_image(count: u32, value: i64) -> bool
    ensures { result ≡ is_image count value }
{
    0 <= value && value < i64::from(count)
}

/// A number, and 0 for one below it.
pub fn natural(value: i64) -> u64
    ensures { result ≡ natural value }
{
    if value < 0 { 0 } else { value as u64 }
}

// From an image's number, the first at so many steps that is none.
fn beyond(count: u32, from: i64, step: u32) -> i64
    requires image { is_image count from ≡ true }
    requires step { nat_lt 0 step ≡ true }
    ensures { result ≡ beyond count from step }
{
    let rest = left_of_step(u64::from(count) - natural(from), step);
    (u64::from(count) + rest) as i64
}

// What is left of a step after a distance.
fn left_of_step(distance: u64, step: u32) -> u64
    requires { nat_lt 0 step ≡ true }
    ensures value { result ≡ left_of_step distance step }
    ensures bound { result ≤ step }
{
    let rest = distance % u64::from(step);
    if rest == 0 { 0 } else { u64::from(step) - rest }
}

/// The innermost of these loops with an index.
pub fn loop_of(loops: &[LoopImages], slot: u32) -> Option<&LoopImages>
    ensures { option_copied result ≡ loop_of loops.now slot }
{
    'loops: for l in loops {
        if l.index == slot {
            return Some(l);
        }
    }
    None
}

// Adds copies of loops to a list.
fn copies(
    alloc: Global,
    loops: &[LoopImages],
    all: &mut Items<LoopImages>,
) -> Result<(), AllocError>
    ensures { OnOk result (all.new ≡ all.old ++ loops.now) }
{
    'loops: for l in loops {
        let copy = l.copy(alloc)?;
        all.push(copy)?;
    }
    Ok(())
}

/// The same loops.
pub fn copies_of(alloc: Global, loops: &[LoopImages]) -> Result<Items<LoopImages>, AllocError>
    ensures { IfOk result (λ all. all ≡ loops.now) }
{
    let mut all = Items::new(alloc);
    copies(alloc, loops, &mut all)?;
    Ok(all)
}

/// The loops round the body of a counted loop, from those round the loop and the values of its bounds.
pub fn loops_in(
    alloc: Global,
    loops: &[LoopImages],
    head: &LoopHead,
    from: &Option<Words>,
    to: &Option<Words>,
) -> Result<Items<LoopImages>, NoMemory>
    ensures { IfOk result (λ all. all ≡ loops_in loops.now head.now from.now to.now) }
{
    let mut all = Items::new(alloc);
    if let Some(from) = from {
        if let Some(to) = to {
            let from = ints(alloc, from.as_slice())?;
            let to = ints(alloc, to.as_slice())?;
            all.push(LoopImages {
                index: head.index.number,
                from,
                to,
                inclusive: head.inclusive,
                step: head.step,
            })?;
        }
    }
    copies(alloc, loops, &mut all)?;
    Ok(all)
}

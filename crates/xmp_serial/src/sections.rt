// Which cells of an array the parts of a side of a gmove name.
ghost use Rattle.std.specs.Prelude.{◌≡◌, ◌+◌, ◌*◌, ◌++◌, ◌∷◌, [], nat_lt, map, IfOk, IfSome, OnOk};
ghost use Rattle.std.specs.List.{flat_map};
ghost use Rattle.xmp_meaning.specs.Sections.{all_subscripts, cells_from, fit, in_range, lengths, progression, subscripts};
ghost use Rattle.xmp_serial.specs.Moves.{Checks, all_of, chosen_of, counted, is_last_inside, range_of, subscripts_of};

use crate::eval::{natural, within};
use crate::lists::split;
use sqlite_items::Items;
use std::alloc::Global;
use xmp_base::{NoMemory, Place};
use xmp_meaning::{End, Halt};
use xmp_num::TrapKind;

/// A subscript, or the base, the length and the step of a section.
#[derive(Clone, Copy)]
pub enum Chosen {
    One(i64),
    Many { base: i64, length: i64, step: i64 },
}

// ---- which subscripts are meant

fn counted(value: i64) -> Option<u64>
    ensures { result ≡ counted value }
{
    if value >= 0 { Some(value as u64) } else { None }
}

/// Whether a sum and product of numbers is below an extent.
fn is_below(extent: u32, base: u64, more: u64, step: u64) -> bool
    ensures { result ≡ nat_lt (base + more * step) extent }
{
    match more.checked_mul(step) {
        None => false,
        Some(way) => match base.checked_add(way) {
            None => false,
            Some(last) => last < u64::from(extent),
        },
    }
}

fn is_last_inside(extent: u32, base: Option<u64>, length: u64, step: u64) -> bool
    ensures { result ≡ is_last_inside extent base length step }
{
    match base {
        None => false,
        Some(base) => is_below(extent, base, length.saturating_sub(1), step),
    }
}

fn range_of(extent: u32, base: Option<u64>, length: Option<u64>, step: Option<u64>) -> bool
    ensures { result ≡ range_of extent base length step }
{
    match (length, step) {
        (Some(length), Some(step)) => {
            step >= 1 && (length == 0 || is_last_inside(extent, base, length, step))
        }
        _ => false,
    }
}

#[tactic(auto, using(crate::proofs::Ranges::range_is))]
fn in_range(extent: u32, base: i64, length: i64, step: i64) -> bool
    ensures { result ≡ in_range extent base length step }
{
    range_of(extent, counted(base), counted(length), counted(step))
}

/// Whether the subscripts of one dimension lie in it.
fn check_part(at: Place, extent: u32, c: Chosen) -> Result<(), Halt>
    ensures { Checks (subscripts at extent (chosen_of c)) (subscripts_of (chosen_of c)) result }
{
    match c {
        Chosen::One(v) => match within(v, extent) {
            Some(_) => Ok(()),
            None => Err(Halt::End(End::Trapped(TrapKind::Subscript, at))),
        },
        Chosen::Many { base, length, step } => {
            if in_range(extent, base, length, step) {
                Ok(())
            } else {
                Err(Halt::End(End::Trapped(TrapKind::Section, at)))
            }
        }
    }
}

/// The same of each dimension in order.
pub fn check_all(at: Place, extents: &[u32], cs: &[Chosen]) -> Result<(), Halt>
    ensures { Checks (all_subscripts at extents.now (map chosen_of cs.now)) (all_of extents.now (map chosen_of cs.now)) result }
{
    match split(extents) {
        None => Ok(()),
        Some((extent, extents)) => match split(cs) {
            None => Ok(()),
            Some((c, cs)) => {
                check_part(at, *extent, *c)?;
                check_all(at, extents, cs)
            }
        },
    }
}

// ---- the numbers of their cells

fn place(base: u64, k: u64, step: u64) -> Option<u64>
    ensures { IfSome result (λ x. x ≡ base + k * step) }
{
    k.checked_mul(step)?.checked_add(base)
}

fn number(so_far: usize, extent: u32, x: u64) -> Option<usize>
    ensures { IfSome result (λ n. n ≡ so_far * extent + x) }
{
    so_far.checked_mul(extent as usize)?.checked_add(x as usize)
}

/// Adds the row-major numbers of the cells with these subscripts, the last dimension fastest; the dimensions before give
/// `so_far`. Want of memory is answered also where 64 bits don't hold a number.
#[cycle(cells)]
pub fn push_cells(
    so_far: usize,
    extents: &[u32],
    cs: &[Chosen],
    all: &mut Items<usize>,
) -> Result<(), NoMemory>
    ensures { OnOk result (all.new ≡ all.old ++ cells_from so_far extents.now (all_of extents.now (map chosen_of cs.now))) }
{
    match split(extents) {
        None => push_number(all, so_far),
        Some((extent, extents)) => match split(cs) {
            None => push_number(all, so_far),
            Some((c, cs)) => push_chosen(so_far, *extent, *c, extents, cs, all),
        },
    }
}

#[cycle(cells)]
fn push_chosen(
    so_far: usize,
    extent: u32,
    c: Chosen,
    extents: &[u32],
    cs: &[Chosen],
    all: &mut Items<usize>,
) -> Result<(), NoMemory>
    ensures { OnOk result (all.new ≡ all.old ++ flat_map (λ x. cells_from (so_far * extent + x) extents.now (all_of extents.now (map chosen_of cs.now))) (subscripts_of (chosen_of c))) }
{
    match c {
        Chosen::One(v) => { push_each(so_far, extent, natural(v), 0, 1, extents, cs, all) }
        Chosen::Many { base, length, step } => push_each(
            so_far,
            extent,
            natural(base),
            natural(step),
            natural(length),
            extents,
            cs,
            all,
        ),
    }
}

#[cycle(cells)]
fn push_each(
    so_far: usize,
    extent: u32,
    base: u64,
    step: u64,
    length: u64,
    extents: &[u32],
    cs: &[Chosen],
    all: &mut Items<usize>,
) -> Result<(), NoMemory>
    ensures { OnOk result (all.new ≡ all.old ++ flat_map (λ x. cells_from (so_far * extent + x) extents.now (all_of extents.now (map chosen_of cs.now))) (progression base step length)) }
{
    'cells: for k in 0..length {
        match place(base, k, step) {
            Some(x) => push_at(so_far, extent, x, extents, cs, all)?,
            None => return Err(NoMemory),
        }
    }
    Ok(())
}

#[cycle(cells)]
fn push_at(
    so_far: usize,
    extent: u32,
    x: u64,
    extents: &[u32],
    cs: &[Chosen],
    all: &mut Items<usize>,
) -> Result<(), NoMemory>
    ensures { OnOk result (all.new ≡ all.old ++ cells_from (so_far * extent + x) extents.now (all_of extents.now (map chosen_of cs.now))) }
{
    match number(so_far, extent, x) {
        Some(number) => push_cells(number, extents, cs, all),
        None => Err(NoMemory),
    }
}

fn push_number(all: &mut Items<usize>, number: usize) -> Result<(), NoMemory>
    ensures { OnOk result (all.new ≡ all.old ++ number ∷ []) }
{
    all.push(number).map_err(|_| NoMemory)
}

// ---- whether sections fit each other

/// The lengths of a side's sections.
pub fn lengths(alloc: Global, cs: &[Chosen]) -> Result<Items<i64>, NoMemory>
    ensures { IfOk result (λ all. all ≡ lengths (map chosen_of cs.now)) }
{
    let mut all = Items::new(alloc);
    push_lengths(cs, &mut all)?;
    Ok(all)
}

#[tactic(auto, using(std::proofs::lemmas::List::append_assoc))]
fn push_lengths(cs: &[Chosen], all: &mut Items<i64>) -> Result<(), NoMemory>
    ensures { OnOk result (all.new ≡ all.old ++ lengths (map chosen_of cs.now)) }
{
    match split(cs) {
        None => Ok(()),
        Some((c, behind)) => match c {
            Chosen::One(_) => push_lengths(behind, all),
            Chosen::Many { length, .. } => match all.push(*length) {
                Ok(()) => push_lengths(behind, all),
                Err(_) => Err(NoMemory),
            },
        },
    }
}

/// Whether lengths are pairwise equal. A source without a section fits any target.
pub fn fit(target: &[i64], source: &[i64]) -> bool
    ensures { result ≡ fit target.now source.now }
{
    let mut left = target;
    'lengths: for n in source {
        match split(left) {
            None => return true,
            Some((m, behind)) => {
                if *m != *n {
                    return false;
                }
                left = behind;
            }
        }
    }
    true
}

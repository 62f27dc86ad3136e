// The first number of a gmove that breaks a rule.
ghost use Rattle.std.specs.Prelude.{◌≡◌, ◌+◌, ◌*◌, nat_lt, is_some, Some, None, if◌then◌else◌};
ghost use Rattle.xmp_meaning.specs.Expressions.{within};
ghost use Rattle.xmp_meaning.specs.Sections.{fit, in_range, lengths};
ghost use Rattle.xmp_move.specs.Numbers.{chosen_by, source_chosen, target_chosen};
ghost use Rattle.xmp_move.specs.Choices.{chosen_of, counted, is_last_inside, range_of};
ghost use Rattle.xmp_move.specs.Faults.{first_fault, move_fault, part_fault, side_fault};

use crate::kind::{Fault, MoveKind, Side, SidePart};
use crate::numbers::{Chosen, behind, first, first_extent, first_length};
use xmp_num::TrapKind;

// ---- one dimension

fn counted(value: i64) -> Option<u64>
    ensures { result ≡ counted value }
{
    if value >= 0 { Some(value as u64) } else { None }
}

/// Whether a sum and product of numbers is below an extent.
fn is_below(extent: u32, base: u64, more: u64, step: u64) -> bool
    ensures { result ≡ nat_lt (base + more * step) extent }
{
    match more.checked_mul(step) {
        None => false,
        Some(way) => match base.checked_add(way) {
            None => false,
            Some(last) => last < u64::from(extent),
        },
    }
}

fn is_last_inside(extent: u32, base: Option<u64>, length: u64, step: u64) -> bool
    ensures { result ≡ is_last_inside extent base length step }
{
    match base {
        None => false,
        Some(base) => is_below(extent, base, length.saturating_sub(1), step),
    }
}

fn range_of(extent: u32, base: Option<u64>, length: Option<u64>, step: Option<u64>) -> bool
    ensures { result ≡ range_of extent base length step }
{
    match (length, step) {
        (Some(length), Some(step)) => {
            step >= 1 && (length == 0 || is_last_inside(extent, base, length, step))
        }
        _ => false,
    }
}

#[tactic(auto, using(crate::proofs::Ranges::range_is))]
fn in_range(extent: u32, base: i64, length: i64, step: i64) -> bool
    ensures { result ≡ in_range extent base length step }
{
    range_of(extent, counted(base), counted(length), counted(step))
}

fn is_inside(value: i64, extent: u32) -> bool
    ensures { result ≡ is_some (within value extent) }
{
    value >= 0 && value < i64::from(extent)
}

fn unless(holds: bool, kind: TrapKind, source: bool) -> Option<Fault>
    ensures { result ≡ (if holds then None else Some (record { kind = kind; source = source })) }
{
    if holds {
        None
    } else {
        Some(Fault { kind, source })
    }
}

fn part_fault(source: bool, extent: u32, chosen: Chosen) -> Option<Fault>
    ensures { result ≡ part_fault source extent (chosen_of chosen) }
{
    match chosen {
        Chosen::One(v) => unless(is_inside(v, extent), TrapKind::Subscript, source),
        Chosen::Many { base, length, step } => {
            unless(
                in_range(extent, base, length, step),
                TrapKind::Section,
                source,
            )
        }
    }
}

// ---- a side, and both

/// The first dimension of a side that has a fault.
fn side_fault(source: bool, extents: &[u32], parts: &[SidePart], numbers: &[i64]) -> Option<Fault>
    ensures { result ≡ side_fault source extents.now (chosen_by parts.now numbers.now) }
{
    let (extent, extents) = first_extent(extents)?;
    let (chosen, parts, numbers) = first(parts, numbers)?;
    match part_fault(source, extent, chosen) {
        Some(fault) => Some(fault),
        None => side_fault(source, extents, parts, numbers),
    }
}

fn fault_on(source: bool, side: &Side, numbers: &[i64]) -> Option<Fault>
    ensures { result ≡ side_fault source side.now.extents (chosen_by side.now.parts numbers.now) }
{
    side_fault(
        source,
        side.extents.as_slice(),
        side.parts.as_slice(),
        numbers,
    )
}

/// Whether the lengths of the sections are pairwise equal. A source without a section fits any target.
fn fits(target: &[SidePart], source: &[SidePart], given: &[i64], taken: &[i64]) -> bool
    ensures { result ≡ fit (lengths (chosen_by target.now given.now)) (lengths (chosen_by source.now taken.now)) }
{
    match first_length(source, taken) {
        None => true,
        Some((n, source, taken)) => match first_length(target, given) {
            None => true,
            Some((m, target, given)) => m == n && fits(target, source, given, taken),
        },
    }
}

/// Where a gmove traps: the first of its numbers that breaks a rule. The target's dimensions come first, then the source's, then
/// the lengths of the sections. A reflect never traps.
pub fn move_fault(kind: &MoveKind, args: &[i64]) -> Option<Fault>
    ensures { result ≡ move_fault kind.now args.now }
{
    match kind {
        MoveKind::Reflect { .. } => None,
        MoveKind::Gmove { target, source, .. } => gmove_fault(target, source, args),
    }
}

fn gmove_fault(target: &Side, source: &Side, args: &[i64]) -> Option<Fault>
    ensures { result ≡ first_fault target.now.extents (target_chosen target.now args.now)
        source.now.extents (source_chosen target.now source.now args.now) }
{
    let taken = behind(target.parts.as_slice(), args);
    if let Some(fault) = fault_on(false, target, args) {
        return Some(fault);
    }
    if let Some(fault) = fault_on(true, source, taken) {
        return Some(fault);
    }
    unless(
        fits(
            target.parts.as_slice(),
            source.parts.as_slice(),
            args,
            taken,
        ),
        TrapKind::Section,
        false,
    )
}

// The slots due between two nodes, gathered dimension by dimension.
ghost use Rattle.std.specs.Prelude.{◌≡◌, ◌<◌, ◌≤◌, ◌+◌, ◌^◌, ◌&&◌, ℕ, false, List, [], ◌∷◌, length, map, MatchOption, IfOk, IsTrue, All};
ghost use Rattle.xmp_base.specs.Limits.{size_limit};
ghost use Rattle.xmp_move.specs.declared.axis.Axis.{Axis};
ghost use Rattle.xmp_move.specs.Picks.{counts};
ghost use Rattle.xmp_move.specs.Reaches.{reaches};
ghost use Rattle.xmp_move.specs.Axes.{AxesFit, adds, picks, tests};
ghost use Rattle.xmp_move.specs.Legs.{LegFits, share_of};
ghost use Rattle.xmp_move.specs.Sums.{due_shares, due_slots, sums};
ghost use Rattle.xmp_move.specs.Gathers.{FollowsIt, IsFollowed, IsLeg};

use crate::axis::{Axis, next_section, singles_pass, singles_total};
use crate::leg::{Leg, Walk};
use crate::pick::Pick;
use crate::reach::Reach;
use crate::sums::sums_from;
use sqlite_items::Items;
use std::alloc::Global;
use xmp_base::{NoMemory, SIZE_LIMIT, first_and_rest};

const EACH: Walk = Walk { first: 0, step: 1 };

const ALL: Reach = Reach::Span {
    from: 0,
    to: SIZE_LIMIT,
};

/// A dimension in which each place passes and adds nothing.
const NEUTRAL: Axis = Axis {
    extent: SIZE_LIMIT,
    pick: Pick::Single(0),
    reach: ALL,
    weight: 0,
};

/// A missing section: one place, which passes and adds nothing.
const MISSING: Leg = Leg {
    count: 1,
    target: EACH,
    needs: ALL,
    source: EACH,
    gives: ALL,
    slots: EACH,
    side: ALL,
    extents: (SIZE_LIMIT, SIZE_LIMIT, SIZE_LIMIT),
    weight: 0,
};

/// The first section of a side that follows another, or the neutral one where it has none.
fn followed(count: u32, axes: &[Axis]) -> (Walk, Axis, &[Axis])
    requires fits { AxesFit axes.now }
    requires small { count ≤ size_limit }
    ensures { IsFollowed count axes.now result.0 result.1 result.2.now }
{
    match next_section(axes) {
        None => (EACH, NEUTRAL, axes),
        Some((_, walk, axis, axes)) => (walk, axis, axes),
    }
}

/// The first section of a transfer, and the dimensions behind it.
fn next_leg<'a>(
    target: &'a [Axis],
    source: &'a [Axis],
    slots: &'a [Axis],
) -> Option<(Leg, &'a [Axis], &'a [Axis], &'a [Axis])>
    requires target { AxesFit target.now }
    requires source { AxesFit source.now }
    requires slots { AxesFit slots.now }
    requires source_fits { FollowsIt (counts (picks target.now)) (counts (picks source.now)) }
    requires slots_fit { FollowsIt (counts (picks target.now)) (counts (picks slots.now)) }
    ensures { MatchOption result (counts (picks target.now) ≡ [])
        (λ p. IsLeg target.now source.now slots.now p.0 p.1.now p.2.now p.3.now) }
{
    let (count, walk, needs, target) = next_section(target)?;
    let (source_walk, gives, source) = followed(count, source);
    let (slot_walk, side, slots) = followed(count, slots);
    let leg = Leg {
        count,
        target: walk,
        needs: needs.reach,
        source: source_walk,
        gives: gives.reach,
        slots: slot_walk,
        side: side.reach,
        extents: (needs.extent, gives.extent, side.extent),
        weight: side.weight,
    };
    Some((leg, target, source, slots))
}

/// The sections of a transfer, behind missing ones.
fn three_legs(target: &[Axis], source: &[Axis], slots: &[Axis]) -> (Leg, Leg, Leg)
    requires target { AxesFit target.now }
    requires source { AxesFit source.now }
    requires slots { AxesFit slots.now }
    requires source_fits { FollowsIt (counts (picks target.now)) (counts (picks source.now)) }
    requires slots_fit { FollowsIt (counts (picks target.now)) (counts (picks slots.now)) }
    requires few { length target.now ≤ 3 }
    ensures first { LegFits result.0 }
    ensures second { LegFits result.1 }
    ensures third { LegFits result.2 }
    ensures sums { sums (share_of result.0 ∷ share_of result.1 ∷ share_of result.2 ∷ [])
        ≡ sums (due_shares (picks target.now) (picks source.now) (picks slots.now) (tests target.now) (tests source.now) (adds slots.now)) }
{
    match next_leg(target, source, slots) {
        None => (MISSING, MISSING, MISSING),
        Some((a, target, source, slots)) => match next_leg(target, source, slots) {
            None => (MISSING, MISSING, a),
            Some((b, target, source, slots)) => match next_leg(target, source, slots) {
                None => (MISSING, a, b),
                Some((c, _, _, _)) => (a, b, c),
            },
        },
    }
}

/// Whether two intervals have no subscript in common.
fn are_apart(a: &Reach, b: &Reach) -> bool
    ensures { IsTrue result → (x : ℕ) → (reaches a.now x && reaches b.now x) ≡ false }
{
    match (*a, *b) {
        (
            Reach::Span { from, to },
            Reach::Span {
                from: start,
                to: end,
            },
        ) => { to <= start || end <= from }
        _ => false,
    }
}

/// Whether the first dimensions of two sides name the same subscripts, of which none passes on both: then nothing is due.
fn never_meet(target: &[Axis], source: &[Axis]) -> bool
    ensures { IsTrue result → (slots : List Axis)
        → due_slots (picks target.now) (picks source.now) (picks slots) (tests target.now) (tests source.now) (adds slots) ≡ [] }
{
    match (first_and_rest(target), first_and_rest(source)) {
        (Some((a, _)), Some((b, _))) => match (a.pick, b.pick) {
            (
                Pick::Section { first, step, .. },
                Pick::Section {
                    first: start,
                    step: by,
                    ..
                },
            ) => {
                if first == start {
                    if step == by {
                        are_apart(&a.reach, &b.reach)
                    } else {
                        false
                    }
                } else {
                    false
                }
            }
            _ => false,
        },
        _ => false,
    }
}

/// The slots of one side that are due, where both sides may have subscripts in common.
fn met_slots(
    alloc: Global,
    base: u32,
    target: &[Axis],
    source: &[Axis],
    slots: &[Axis],
) -> Result<Items<u32>, NoMemory>
    requires target { AxesFit target.now }
    requires source { AxesFit source.now }
    requires slots { AxesFit slots.now }
    requires source_fits { FollowsIt (counts (picks target.now)) (counts (picks source.now)) }
    requires slots_fit { FollowsIt (counts (picks target.now)) (counts (picks slots.now)) }
    requires few { length target.now ≤ 3 }
    requires few_slots { length slots.now ≤ 3 }
    requires small { All (λ r. base + r < 2 ^ 32)
        (due_slots (picks target.now) (picks source.now) (picks slots.now) (tests target.now) (tests source.now) (adds slots.now)) }
    ensures { IfOk result (λ list. list ≡ map (λ r. base + r)
        (due_slots (picks target.now) (picks source.now) (picks slots.now) (tests target.now) (tests source.now) (adds slots.now))) }
{
    if !singles_pass(target) || !singles_pass(source) {
        return Ok(Items::new(alloc));
    }
    let start = base.saturating_add(singles_total(slots));
    let (a, b, c) = three_legs(target, source, slots);
    let zs = c.share(alloc)?;
    if zs.is_empty() {
        return Ok(Items::new(alloc));
    }
    let ys = b.share(alloc)?;
    let xs = a.share(alloc)?;
    let list = sums_from(alloc, start, &xs, &ys, &zs)?;
    Ok(Items::from_vec(list))
}

/// The slots of one side that are due, from `base` on, in row-major order of the target's cells.
pub fn slots_from(
    alloc: Global,
    base: u32,
    target: &[Axis],
    source: &[Axis],
    slots: &[Axis],
) -> Result<Items<u32>, NoMemory>
    requires target { AxesFit target.now }
    requires source { AxesFit source.now }
    requires slots { AxesFit slots.now }
    requires source_fits { FollowsIt (counts (picks target.now)) (counts (picks source.now)) }
    requires slots_fit { FollowsIt (counts (picks target.now)) (counts (picks slots.now)) }
    requires few { length target.now ≤ 3 }
    requires few_slots { length slots.now ≤ 3 }
    requires small { All (λ r. base + r < 2 ^ 32)
        (due_slots (picks target.now) (picks source.now) (picks slots.now) (tests target.now) (tests source.now) (adds slots.now)) }
    ensures { IfOk result (λ list. list ≡ map (λ r. base + r)
        (due_slots (picks target.now) (picks source.now) (picks slots.now) (tests target.now) (tests source.now) (adds slots.now))) }
{
    if never_meet(target, source) {
        Ok(Items::new(alloc))
    } else {
        met_slots(alloc, base, target, source, slots)
    }
}

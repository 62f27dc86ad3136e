// The dimensions of a side at a node.
ghost use Rattle.std.specs.Prelude.{◌≡◌, ◌≤◌, ◌*◌, [], length, MatchOption};
ghost use Rattle.xmp_base.specs.Limits.{cell_limit};
ghost use Rattle.xmp_move.specs.Picks.{counts, singles_pass, singles_total};
ghost use Rattle.xmp_move.specs.Axes.{AxesFit, IsSection, adds, picks, tests};

use crate::leg::Walk;
use crate::pick::Pick;
use crate::reach::Reach;
use xmp_base::first_and_rest;

/// A dimension of a side at a node: how many subscripts it has, what is named of it, which subscripts pass, and what each
/// smaller one that passes adds to the slot of a cell.
#[derive(Clone, Copy)]
pub struct Axis {
    pub extent: u32,
    pub pick: Pick,
    pub reach: Reach,
    pub weight: u32,
}

/// The first section of a side: how many subscripts it names, which ones, and its dimension; and the dimensions behind it.
pub fn next_section(axes: &[Axis]) -> Option<(u32, Walk, Axis, &[Axis])>
    requires { AxesFit axes.now }
    ensures { MatchOption result (counts (picks axes.now) ≡ []) (λ p. IsSection axes.now p.0 p.1 p.2 p.3.now) }
{
    match first_and_rest(axes) {
        None => None,
        Some((axis, axes)) => match axis.pick {
            Pick::Single(_) => next_section(axes),
            Pick::Section { first, count, step } => {
                Some((count, Walk { first, step }, *axis, axes))
            }
        },
    }
}

/// Whether the single subscripts of a side pass.
pub fn singles_pass(axes: &[Axis]) -> bool
    requires { AxesFit axes.now }
    ensures { result ≡ singles_pass (picks axes.now) (tests axes.now) }
{
    match first_and_rest(axes) {
        None => true,
        Some((axis, axes)) => match axis.pick {
            Pick::Single(x) => axis.reach.has(axis.extent, x) && singles_pass(axes),
            Pick::Section { .. } => singles_pass(axes),
        },
    }
}

/// What they add to the slot of a cell; below 2^32 where there are at most three.
pub fn singles_total(axes: &[Axis]) -> u32
    requires fits { AxesFit axes.now }
    requires few { length axes.now ≤ 3 }
    ensures total { result ≡ singles_total (picks axes.now) (adds axes.now) }
    ensures small { result ≤ length axes.now * cell_limit }
{
    match first_and_rest(axes) {
        None => 0,
        Some((axis, axes)) => match axis.pick {
            Pick::Single(x) => {
                axis.reach.position(axis.extent, x) * axis.weight + singles_total(axes)
            }
            Pick::Section { .. } => singles_total(axes),
        },
    }
}

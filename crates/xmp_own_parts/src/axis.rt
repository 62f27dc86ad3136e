// The turns of a loop in which a node owns the position of the index.
ghost use Rattle.std.specs.Prelude.{◌≡◌, ◌≢◌, ◌<◌, ◌≤◌, ◌+ℤ◌, ◌≤ℤ◌, ◌^◌, pos, negsuc, ℕ};
ghost use Rattle.xmp_dist.specs.Owner.{owner};
ghost use Rattle.xmp_own_parts.specs.Nests.{IsPassed};
ghost use Rattle.xmp_own_parts.specs.Turns.{position_in_turn};

use crate::turns::Turns;
use xmp_dist::Dim;

/// A dimension, which of its nodes a node is, and what is added to an index for its position there.
#[derive(Drop)]
pub struct Axis<'a> {
    pub dim: &'a Dim,
    pub node: u32,
    pub offset: i32,
}

/// The turns of a loop, and the dimension that its index goes through, where there is one.
#[derive(Drop)]
pub struct OwnTurns<'a> {
    pub turns: Turns,
    pub axis: Option<Axis<'a>>,
}

impl OwnTurns<'_> {
    /// The next turn from `from` on that isn't known to be another node's, or the number of turns.
    pub fn next(&self, from: u64) -> u64
        requires { from ≤ self.now.turns.count }
        ensures from { from ≤ result }
        ensures upto { result ≤ self.now.turns.count }
        ensures passed { (k : ℕ) → from ≤ k → k < result → IsPassed self.now.axis self.now.turns k }
    {
        match &self.axis {
            Some(axis) => axis.next(&self.turns, from),
            None => from,
        }
    }
}

impl Axis<'_> {
    /// The next turn from `from` on in which the node owns the index's position, or the number of turns where there is none.
    pub fn next(&self, turns: &Turns, from: u64) -> u64
        requires { from ≤ turns.now.count }
        ensures from { from ≤ result }
        ensures upto { result ≤ turns.now.count }
        ensures least { (k : ℕ) → from ≤ k → k < result → owner self.now.dim.now (position_in_turn turns.now self.now.offset k) ≢ self.now.node }
    {
        if self.node >= self.dim.nodes() {
            return turns.count;
        }
        let mut k = from;
        'turns: while k < turns.count {
            if self.dim.owner(self.position(turns, k)) == self.node {
                return k;
            }
            k = self.behind(turns, k);
        }
        k
    }

    /// The turn behind one in which another node owns the position, up to which this node owns none.
    fn behind(&self, turns: &Turns, k: u64) -> u64
        requires node { self.now.node < self.now.dim.now.nodes }
        requires inside { k < turns.now.count }
        requires other { owner self.now.dim.now (position_in_turn turns.now self.now.offset k) ≢ self.now.node }
        ensures from { k < result }
        ensures upto { result ≤ turns.now.count }
        ensures least { (j : ℕ) → k ≤ j → j < result → owner self.now.dim.now (position_in_turn turns.now self.now.offset j) ≢ self.now.node }
    {
        let here = self.position(turns, k);
        let end = self.position(turns, turns.count);
        let next = self.dim.next_owned(self.node, here, end);
        k + distance(here, next).div_ceil(u64::from(turns.step))
    }

    /// The position of the index in turn `k`.
    fn position(&self, turns: &Turns, k: u64) -> i64
        requires { k ≤ turns.now.count }
        ensures value { result ≡ position_in_turn turns.now self.now.offset k }
        ensures low { negsuc (2 ^ 33) ≤ℤ result }
        ensures high { result ≤ℤ pos (2 ^ 34) }
    {
        turns.value(k) + i64::from(self.offset)
    }
}

/// How far one position is behind another.
fn distance(here: i64, there: i64) -> u64
    requires order { here ≤ℤ there }
    requires low { negsuc (2 ^ 33) ≤ℤ here }
    requires high { there ≤ℤ pos (2 ^ 34) }
    ensures { there ≡ here +ℤ pos result }
{
    (there - here) as u64
}

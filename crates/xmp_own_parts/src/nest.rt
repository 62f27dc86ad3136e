// The nest of a loop directive at a node.
ghost use Rattle.std.specs.Prelude.{◌≡◌, ◌<◌, ◌+◌, ◌-◌, ◌*◌, ◌+ℤ◌, ◌++◌, [], ◌∷◌, ℕ, ℤ, List, length, pos, unwrap_or, slice_get, IfSome, IsTrue};
ghost use Rattle.xmp_dist.specs.Owner.{owner};
ghost use Rattle.xmp_meaning.specs.Loops.{turn_count};
ghost use Rattle.xmp_meaning_laws.specs.Laws.{bound_value};
ghost use Rattle.xmp_meaning_laws.specs.Tuples.{index_in_turn, turns_by};
ghost use Rattle.xmp_prog.specs.declared.statements.LoopHead.{LoopHead};
ghost use Rattle.xmp_num.specs.Arithmetic.{wrap};
ghost use Rattle.xmp_num.specs.declared.types.Ty.TheVariants.{Int};
ghost use Rattle.xmp_own_parts.specs.Nests.{IsPassed, own_from, own_turns, owns_in, reading};
ghost use Rattle.xmp_own_parts.specs.Turns.{value_in_turn};

use crate::axis::{Axis, OwnTurns};
use crate::places::{axis_of, chosen_or, is_apart, owns};
use crate::turns::{Turns, turns_of};
use sqlite_items::at;
use xmp_map::Template;
use xmp_num::{Ty, binary, convert};
use xmp_prog::{Expr, LoopHead, Point};

/// A loop directive's template and points, where the node stands in the grid, the heads of the nest, and the values of the
/// scalars by which its bounds are known.
#[derive(Drop)]
pub struct Nest<'a> {
    pub template: &'a Template,
    pub at: [u32; 3],
    pub points: &'a [Point],
    pub heads: &'a [LoopHead],
    pub scalars: &'a [i64],
}

impl Nest<'_> {
    /// Whether the node owns the point of a tuple.
    pub fn owns(&self, tuple: &[i32]) -> bool
        ensures { result ≡ owns_in self.now tuple.now }
    {
        owns(
            &self.at,
            &self.template.spread,
            self.points,
            self.heads,
            tuple,
        )
    }

    /// The value of a scalar, where the outer indices are chosen.
    fn read(&self, chosen: &[i32], slot: u32) -> i64
        ensures { result ≡ reading self.now chosen.now slot }
    {
        let value = match at(self.scalars, slot as usize) {
            Some(value) => *value,
            None => 0,
        };
        chosen_or(self.heads, chosen, value, slot)
    }

    /// The value of a bound.
    fn bound(&self, e: &Expr, chosen: &[i32]) -> i64
        ensures { result ≡ bound_value (reading self.now chosen.now) e.now }
    {
        match e {
            Expr::Const(value, _) => *value,
            Expr::Scalar(slot, _) => self.read(chosen, *slot),
            Expr::Binary(op, ty, a, b, _) => {
                let x = self.bound(a.get(), chosen);
                let y = self.bound(b.get(), chosen);
                binary(*op, *ty, x, y).unwrap_or(0)
            }
            Expr::Convert(ty, a) => convert(self.bound(a.get(), chosen), *ty),
            _ => 0,
        }
    }

    /// The turns of a loop, behind the chosen indices: in those that are passed the node has no tuple.
    pub fn own_turns(&self, head: &LoopHead, chosen: &[i32]) -> OwnTurns<'_>
        requires { slice_get self.now.heads.now (length chosen.now) ≡ Some head.now }
        ensures all { (heads : List LoopHead) → own_from self.now chosen.now (head.now ∷ heads) ≡ own_turns self.now chosen.now result.turns heads 0 }
        ensures passed { (k : ℕ) → k < result.turns.count → IsPassed result.axis result.turns k → (heads : List LoopHead) → own_from self.now (chosen.now ++ value_in_turn result.turns k ∷ []) heads ≡ [] }
    {
        let turns = self.turns(head, chosen);
        let axis = self.axis(chosen.len(), head);
        OwnTurns { turns, axis }
    }

    /// The turns of one of its loops.
    fn turns(&self, head: &LoopHead, chosen: &[i32]) -> Turns
        ensures count { result.count ≡ turns_by (reading self.now chosen.now) head.now }
        ensures values { (k : ℕ) → k < result.count → value_in_turn result k ≡ index_in_turn (reading self.now chosen.now) head.now k }
    {
        let from = to_int(self.bound(&head.from, chosen));
        let to = to_int(self.bound(&head.to, chosen));
        turns_of(from, to, head.inclusive, head.step)
    }

    /// The dimension that the index of one of its loops goes through, where there is one.
    fn axis(&self, depth: usize, head: &LoopHead) -> Option<Axis<'_>>
        requires { slice_get self.now.heads.now depth ≡ Some head.now }
        ensures { IfSome result (λ axis. (outer inner : List ℤ) (v : ℤ) → length outer ≡ depth → IsTrue (owns_in self.now (outer ++ v ∷ inner)) → owner axis.dim.now (v +ℤ axis.offset) ≡ axis.node) }
    {
        if !is_apart(self.heads, depth, head.index.number) {
            return None;
        }
        axis_of(
            &self.at,
            &self.template.spread,
            self.points,
            head.index.number,
        )
    }
}

/// A value converted to `int`.
#[tactic(auto, using(crate::proofs::Bounds::converted))]
fn to_int(value: i64) -> i32
    ensures { result ≡ wrap Int value }
{
    convert(value, Ty::Int) as i32
}

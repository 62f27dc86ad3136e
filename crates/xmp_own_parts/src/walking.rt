// The body of a loop directive for each tuple of a node.
ghost use Rattle.std.specs.Prelude.{◌≡◌, ◌<◌, ◌+◌, ◌-◌, ◌++◌, [], ◌∷◌, length, drop, slice_get, Some, OnOk};
ghost use Rattle.xmp_meaning.specs.Runs.{Does};
ghost use Rattle.xmp_meaning_laws.specs.Tuples.{at_tuple, for_each};
ghost use Rattle.xmp_prog.specs.Statements.{indices_of};
ghost use Rattle.xmp_own_parts.specs.Nests.{own_from, own_turns};
ghost use Rattle.xmp_own_parts.specs.Walks.{body_by};

use crate::lists::{push, split};
use crate::nest::Nest;
use sqlite_items::{Items, at};
use xmp_meaning::{Flow, Halt};
use xmp_prog::{LoopHead, Stmt};
use xmp_serial::{Interpreter, State};

/// A nest at a node, its body, and what the body is run against.
#[derive(Drop)]
pub struct Walk<'a, 'b, 'p> {
    pub nest: Nest<'a>,
    pub body: &'a Stmt,
    pub at: &'a Interpreter<'b, 'p>,
}

impl Walk<'_, '_, '_> {
    /// The body for each tuple of the node that begins with the chosen values, in order.
    #[cycle(walk)]
    pub fn over(&self, chosen: &mut Items<i32>, state: &mut State) -> Result<Flow, Halt>
        ensures chosen { OnOk result (chosen.new ≡ chosen.old) }
        ensures does { Does (for_each (indices_of self.now.nest.heads.now) (own_from self.now.nest chosen.old (drop (length chosen.old) self.now.nest.heads.now)) (body_by self.now) state.old) result state.new }
    {
        match at(self.nest.heads, chosen.len()) {
            Some(head) => self.over_turns(head, chosen, state),
            None => self.at_tuple(chosen.as_slice(), state),
        }
    }

    /// The same, turn after turn of the next loop.
    #[cycle(walk)]
    fn over_turns(
        &self,
        head: &LoopHead,
        chosen: &mut Items<i32>,
        state: &mut State,
    ) -> Result<Flow, Halt>
        requires { slice_get self.now.nest.heads.now (length chosen.old) ≡ Some head.now }
        ensures chosen { OnOk result (chosen.new ≡ chosen.old) }
        ensures does { Does (for_each (indices_of self.now.nest.heads.now) (own_from self.now.nest chosen.old (drop (length chosen.old) self.now.nest.heads.now)) (body_by self.now) state.old) result state.new }
    {
        let own = self.nest.own_turns(head, chosen.as_slice());
        let mut k = own.next(0);
        'turns: while k < own.turns.count {
            match self.over_turn(own.turns.index(k), chosen, state) {
                Ok(Flow::Next) => {}
                Ok(Flow::Returned(value)) => return Ok(Flow::Returned(value)),
                Err(halt) => return Err(halt),
            }
            k = own.next(k + 1);
        }
        Ok(Flow::Next)
    }

    /// The same in a turn with this value of the index.
    #[cycle(walk)]
    fn over_turn(
        &self,
        value: i32,
        chosen: &mut Items<i32>,
        state: &mut State,
    ) -> Result<Flow, Halt>
        requires { length chosen.old < length self.now.nest.heads.now }
        ensures chosen { OnOk result (chosen.new ≡ chosen.old) }
        ensures does { Does (for_each (indices_of self.now.nest.heads.now) (own_from self.now.nest (chosen.old ++ value ∷ []) (drop (length chosen.old + 1) self.now.nest.heads.now)) (body_by self.now) state.old) result state.new }
    {
        push(chosen, value)?;
        let flow = self.over(chosen, state)?;
        chosen.pop();
        Ok(flow)
    }

    /// The body at a whole tuple, where the node owns its point.
    fn at_tuple(&self, tuple: &[i32], state: &mut State) -> Result<Flow, Halt>
        ensures { Does (for_each (indices_of self.now.nest.heads.now) (own_from self.now.nest tuple.now []) (body_by self.now) state.old) result state.new }
    {
        if !self.nest.owns(tuple) {
            return Ok(Flow::Next);
        }
        set_indices(self.nest.heads, tuple, state);
        self.at.statement(self.body, state)
    }
}

/// The indices of a nest at a tuple.
fn set_indices(heads: &[LoopHead], tuple: &[i32], state: &mut State)
    ensures { state.new ≡ at_tuple (indices_of heads.now) tuple.now state.old }
{
    if let (Some((head, heads)), Some((value, tuple))) = (split(heads), split(tuple)) {
        state.set_scalar(head.index.number, i64::from(*value));
        set_indices(heads, tuple, state);
    }
}

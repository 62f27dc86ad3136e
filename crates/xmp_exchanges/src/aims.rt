// Every node finds what is meant by a gmove.
ghost use Rattle.std.specs.Prelude.{◌++◌, map};
ghost use Rattle.xmp_meaning.specs.Runs.{Does};
ghost use Rattle.xmp_serial.specs.Moves.{chosen_of};
ghost use Rattle.xmp_exchanges.specs.Aims.{aimed, checked, flat};

use crate::numbers::{both, place_of};
use sqlite_items::Items;
use std::alloc::Global;
use xmp_meaning::{End, Halt};
use xmp_move::{MoveKind, move_fault};
use xmp_prog::MoveSide;
use xmp_serial::{Chosen, Interpreter, State};
use xmp_stores::Deed;

/// All numbers are evaluated, the target's and then the source's, and then they are checked.
#[derive(Drop)]
pub struct Aiming<'a> {
    pub alloc: Global,
    pub kind: &'a MoveKind,
    pub target: &'a MoveSide,
    pub source: &'a MoveSide,
}

impl Aiming<'_> {
    /// The numbers, or the trap of the first that breaks a rule.
    fn checked(&self, to: &[Chosen], from: &[Chosen], state: &State) -> Result<Items<i64>, Halt>
        ensures { Does (checked self.now.kind.now self.now.target.now self.now.source.now (flat (map chosen_of to.now) ++ flat (map chosen_of from.now)) state.now) result state.now }
    {
        let Ok(args) = both(self.alloc, to, from) else {
            return Err(Halt::NoMemory);
        };
        match move_fault(self.kind, args.as_slice()) {
            None => Ok(args),
            Some(fault) => {
                drop(args);
                let at = place_of(self.target, self.source, fault);
                Err(Halt::End(End::Trapped(fault.kind, at)))
            }
        }
    }
}

impl Deed for Aiming<'_> {
    type Gives = Items<i64>;

    ghost does = { λ d node c. aimed d.kind.now c d.target.now d.source.now };

    fn run(&self, node: u32, at: &Interpreter, state: &mut State) -> Result<Items<i64>, Halt> {
        let to = at.numbers(self.target, state)?;
        let from = at.numbers(self.source, state)?;
        self.checked(to.as_slice(), from.as_slice(), state)
    }
}

// A node from stop to stop.
ghost use Rattle.std.specs.Prelude.{◌≡◌, ℕ, IsSome, Some, IfOk, OnErr};
ghost use Rattle.xmp_steps.specs.Machine.{Comes, Ends, Is, within};
ghost use Rattle.xmp_steps.specs.Once.{Ends-prop};
ghost use Rattle.xmp_instr.specs.Effects.{next};
ghost use Rattle.xmp_instr.specs.Valid.{IsValid};
ghost use Rattle.xmp_code.specs.States.{node_of};
ghost use Rattle.xmp_code.specs.Fitting.{StateFits};
ghost use Rattle.xmp_code.specs.Running.{MayLack};

use crate::state::State;
use std::alloc::Global;
use xmp_base::NoMemory;
use xmp_instr::{CodeParts, Stop};

impl State {
    /// Runs to the next stop, which comes within so many steps; or to where memory lacks.
    fn run_within(
        &mut self,
        alloc: Global,
        code: &CodeParts,
        input: &[u8],
    ) -> Result<Stop, NoMemory>
        ghost steps: { ℕ }
        requires valid { IsValid code.now }
        requires state { StateFits code.now self.old }
        requires comes { IsSome (within (next code.now input.now) steps (node_of self.old)) }
        ensures stop { IfOk result (λ p. within (next code.now input.now) steps (node_of self.old) ≡ Some (p, node_of self.new)) }
        ensures came { Comes (next code.now input.now) (Is (node_of self.new)) (node_of self.old) }
        ensures again { IsSome (within (next code.now input.now) steps (node_of self.new)) }
        ensures fits { StateFits code.now self.new }
        ensures lacks { OnErr result (MayLack code.now (node_of self.new)) }
        ensures muted { self.new.data.muted ≡ self.old.data.muted }
    {
        'steps: loop {
            match self.advance(alloc, code, input) {
                Ok(Some(stop)) => return Ok(stop),
                Ok(None) => {}
                Err(NoMemory) => return Err(NoMemory),
            }
        }
    }

    /// Runs to the next stop, or to where memory lacks. A stop comes.
    pub fn run(&mut self, alloc: Global, code: &CodeParts, input: &[u8]) -> Result<Stop, NoMemory>
        requires valid { IsValid code.now }
        requires state { StateFits code.now self.old }
        requires comes { (n : ℕ) × IsSome (within (next code.now input.now) n (node_of self.old)) }
        ensures stop { IfOk result
            (λ p. (n : ℕ) × (within (next code.now input.now) n (node_of self.old) ≡ Some (p, node_of self.new))) }
        ensures came { Comes (next code.now input.now) (Is (node_of self.new)) (node_of self.old) }
        ensures again { (n : ℕ) × IsSome (within (next code.now input.now) n (node_of self.new)) }
        ensures fits { StateFits code.now self.new }
        ensures lacks { OnErr result (MayLack code.now (node_of self.new)) }
        ensures muted { self.new.data.muted ≡ self.old.data.muted }
    {
        let going = Going {
            state: self,
            code,
            input,
        };
        run_going(alloc, going)
    }
}

/// A state to which a stop comes.
struct Going<'m, 'c> {
    state: &'m mut State,
    code: &'c CodeParts,
    input: &'c [u8],
    ghost ends: { Ends (next code.now input.now) (node_of state.now) } by { Ends-prop (next code.now input.now) (node_of state.now) },
}

fn run_going(alloc: Global, going: Going) -> Result<Stop, NoMemory>
    ghost steps: { ℕ }
    requires steps { steps ≡ going.ends.0 }
    requires valid { IsValid going.code.now }
    requires state { StateFits going.code.now going.state.now }
    ensures stop { IfOk result (λ p. within (next going.entry.code.now going.entry.input.now) steps (node_of going.entry.state.now)
        ≡ Some (p, node_of going.exit.0.now)) }
    ensures came { Comes (next going.entry.code.now going.entry.input.now) (Is (node_of going.exit.0.now)) (node_of going.entry.state.now) }
    ensures again { IsSome (within (next going.entry.code.now going.entry.input.now) steps (node_of going.exit.0.now)) }
    ensures fits { StateFits going.entry.code.now going.exit.0.now }
    ensures lacks { OnErr result (MayLack going.entry.code.now (node_of going.exit.0.now)) }
    ensures muted { going.exit.0.now.data.muted ≡ going.entry.state.now.data.muted }
{
    let Going { state, code, input } = going;
    state.run_within(alloc, code, input)
}

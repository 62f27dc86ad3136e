// A state from stop to stop.
ghost use Rattle.std.specs.Prelude.{◌≡◌, ℕ, IsSome, Some, IfOk, OnErr, slice_get};
ghost use Rattle.xmp_steps.specs.Machine.{Comes, Is, within};
ghost use Rattle.xmp_instr.specs.Effects.{next};
ghost use Rattle.xmp_instr.specs.Valid.{IsValid};
ghost use Rattle.xmp_code.specs.declared.state.Mode.TheVariants as mode;
ghost use Rattle.xmp_code.specs.States.{node_of};
ghost use Rattle.xmp_code.specs.Actions.{MayLackAt};
ghost use Rattle.xmp_code.specs.Fitting.{StateFits};

use std::alloc::Global;
use xmp_base::NoMemory;
use xmp_code::{Mode, State};
use xmp_instr::{CodeParts, Stop};

/// Runs to the next stop, or to an instruction for which memory lacks. A stop comes. A state that came to stand at a meeting has
/// come to its stop.
pub fn run_on(
    alloc: Global,
    state: &mut State,
    code: &CodeParts,
    input: &[u8],
) -> Result<Stop, NoMemory>
    requires valid { IsValid code.now }
    requires state { StateFits code.now state.old }
    requires comes { (n : ℕ) × IsSome (within (next code.now input.now) n (node_of state.old)) }
    ensures stop { IfOk result (λ p. (n : ℕ) × (within (next code.now input.now) n (node_of state.old) ≡ Some (p, node_of state.new))) }
    ensures came { Comes (next code.now input.now) (Is (node_of state.new)) (node_of state.old) }
    ensures again { (n : ℕ) × IsSome (within (next code.now input.now) n (node_of state.new)) }
    ensures fits { StateFits code.now state.new }
    ensures going { OnErr result (state.new.talk.mode ≡ mode.Going) }
    ensures lacks { OnErr result (MayLackAt code.now (slice_get code.now.instrs state.new.place) (node_of state.new)) }
    ensures muted { state.new.data.muted ≡ state.old.data.muted }
{
    match state.run(alloc, code, input) {
        Ok(stop) => Ok(stop),
        Err(NoMemory) => match state.talk.mode {
            Mode::Going => Err(NoMemory),
            Mode::Meets(e, _) => Ok(Stop::Exchange(e)),
            Mode::Over(..) => unreachable!(),
        },
    }
}

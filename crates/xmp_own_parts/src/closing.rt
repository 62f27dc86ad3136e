// What follows the end of a loop directive.
ghost use Rattle.std.specs.Prelude.{◌≡◌, map};
ghost use Rattle.xmp_meaning.specs.LoopEnds.{closed, set_all};
ghost use Rattle.xmp_meaning.specs.Runs.{Does, Gave};

use crate::end::PartEnd;
use crate::lists::split;
use xmp_meaning::{Flow, Halt};
use xmp_prog::Reduction;
use xmp_serial::State;

/// The run ends as the parts did, or the combined values go into the reduction variables.
pub fn close(reductions: &[Reduction], end: &PartEnd, state: &mut State) -> Result<Flow, Halt>
    ensures { Does (closed reductions.now end.now state.old) result state.new }
{
    match end.ended {
        Some(why) => Err(Halt::End(why)),
        None => {
            set_all(reductions, end.values.as_slice(), state);
            Ok(Flow::Next)
        }
    }
}

/// The values into the reduction variables, in order.
fn set_all(reductions: &[Reduction], values: &[i64], state: &mut State)
    ensures { set_all (map (λ r. r.variable) reductions.now) values.now state.old ≡ Gave Flow.Next state.new }
{
    if let (Some((r, reductions)), Some((value, values))) = (split(reductions), split(values)) {
        state.set_scalar(r.variable.number, *value);
        set_all(reductions, values, state);
    }
}

// The first rule that breaks on a path through a tree.
ghost use Rattle.std.specs.Prelude.{IfOk};
ghost use Rattle.xmp_base.specs.First.{IsFirst};
ghost use Rattle.xmp_paths.specs.Flows.{plan_of};
ghost use Rattle.xmp_paths.specs.Rules.{Breaks, in_phase};

use crate::copies::Copies;
use crate::event::Flow;
use crate::walk::inspect;
use std::alloc::Global;
use xmp_base::{NoMemory, Phase, Refusal};

/// The first rule that breaks on a path through the tree, where all copies are current at the start: a read of a copy
/// that is out of date, or what is wrong whatever came before. The phase is put into the refusal, and decides nothing.
pub fn check(alloc: Global, flow: &Flow, phase: Phase) -> Result<Option<Refusal>, NoMemory>
    ensures { IfOk result (λ found. IsFirst (in_phase phase (Breaks (plan_of flow.now))) found) }
{
    let mut copies = Copies::new(alloc);
    match inspect(alloc, phase, flow, &mut copies) {
        Ok(found) => Ok(found),
        Err(_) => Err(NoMemory),
    }
}

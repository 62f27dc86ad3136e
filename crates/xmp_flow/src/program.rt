// The plan of a program, and the first rule of the phase Flow that breaks in it.
ghost use Rattle.std.specs.Prelude.{◌≡◌, [], IfOk, None};
ghost use Rattle.xmp_base.specs.First.{IsFirst};
ghost use Rattle.xmp_paths.specs.Flows.{plan_of};
ghost use Rattle.xmp_loops.specs.Loopers.{loopers_from};
ghost use Rattle.xmp_flow.specs.Program.{FlowBreaks, outermost, plan_of_program};
ghost use Rattle.xmp_flow.specs.Views.{KnowsAll, setting_of};

use crate::setting::Around;
use crate::statements::events;
use std::alloc::{AllocError, Global};
use xmp_base::{NoMemory, Phase, Refusal};
use xmp_loops::{Numbers, Roles, loopers, nodes_of};
use xmp_paths::Flow;
use xmp_prog::{LoopDirective, Prog, ProgParts};

// The body of main: all nodes execute it, with nothing round it.
fn outermost<'a>(
    p: &'a ProgParts,
    roles: &'a Roles,
    written: &'a Numbers,
    loops: &'a [bool],
    over: Option<&'a LoopDirective>,
) -> Around<'a>
    requires roles { roles.now ≡ [] }
    requires written { written.now ≡ [] }
    requires over { over ≡ None }
    ensures all { KnowsAll result }
    ensures setting { loops.now ≡ loopers_from p.now [] p.now.functions → setting_of result ≡ outermost p.now }
{
    let all = nodes_of(&p.grid);
    Around {
        program: p,
        nodes: all,
        all,
        inside: false,
        over,
        roles,
        written,
        loops,
        moving: false,
    }
}

// The plan of a program in which these functions loop.
fn plan_by<'a>(
    alloc: Global,
    p: &'a ProgParts,
    roles: &'a Roles,
    written: &'a Numbers,
    loops: &'a [bool],
) -> Result<Flow, AllocError>
    requires roles { roles.now ≡ [] }
    requires written { written.now ≡ [] }
    requires loops { loops.now ≡ loopers_from p.now [] p.now.functions }
    ensures { IfOk result (λ flow. plan_of flow ≡ plan_of_program p.now) }
{
    let s = outermost(p, roles, written, loops, None);
    events(alloc, &s, &p.body)
}

// The plan of a program.
fn plan(alloc: Global, p: &ProgParts) -> Result<Flow, AllocError>
    ensures { IfOk result (λ flow. plan_of flow ≡ plan_of_program p.now) }
{
    let loops = loopers(alloc, p)?;
    let roles = Roles::new(alloc);
    let written = Numbers::new(alloc);
    plan_by(alloc, p, &roles, &written, loops.as_slice())
}

/// The first rule of the phase Flow that a global-view program breaks, or none.
pub fn check(alloc: Global, p: &Prog) -> Result<Option<Refusal>, NoMemory>
    ensures { IfOk result (λ found. IsFirst (FlowBreaks p.now) found) }
{
    match plan(alloc, p.parts()) {
        Ok(flow) => xmp_paths::check(alloc, &flow, Phase::Flow),
        Err(_) => Err(NoMemory),
    }
}

// What stands ready for the body of a loop directive, and the events round those of its body.
ghost use Rattle.std.specs.Prelude.{◌≡◌, ◌++◌, ◌∷◌, [], ℕ, map, OnOk, IfOk};
ghost use Rattle.xmp_paths.specs.Plans.{in_order, loop};
ghost use Rattle.xmp_paths.specs.Flows.{plan_of};
ghost use Rattle.xmp_prog.specs.declared.statements.Stmt.{Stmt};
ghost use Rattle.xmp_meaning.specs.Writes.{arrays_written, scalars_written};
ghost use Rattle.xmp_prog.specs.Numbers.{is_in};
ghost use Rattle.xmp_prog.specs.Statements.{indices_of};
ghost use Rattle.xmp_loops.specs.Objects.{scalar_object};
ghost use Rattle.xmp_flow.specs.Setting.{stale_on_all};
ghost use Rattle.xmp_flow.specs.LoopEvents.{at_bounds, loop_events, nest_events};
ghost use Rattle.xmp_loops.specs.Roles.{before_iterations, own_scalars, role_in};
ghost use Rattle.xmp_loops.specs.Tables.{role_at};
ghost use Rattle.xmp_flow.specs.Ready.{IsReady, before_turns, ends_with, turn_of};
ghost use Rattle.xmp_flow.specs.Views.{KnowsAll, setting_of};

use crate::directive::{
    current_reductions, nest_events, own_scalars, put_indices, reduction_events, stale_scalars,
    stale_shadows,
};
use crate::expressions::with;
use crate::scalars::wrong_where;
use crate::setting::Around;
use sqlite_items::Items;
use std::alloc::{AllocError, Global};
use xmp_loops::{Numbers, Roles, arrays_written, bound_roles, indices, roles_in, scalars_written};
use xmp_paths::Flow;
use xmp_prog::{LoopDirective, Stmt};

/// The scalars and arrays that the body writes, what each scalar is to the directive in the iterations and at the bounds
/// of the nest, by slot, and whether the body writes each array.
#[derive(Drop)]
pub struct Ready {
    pub scalars: Items<u32>,
    pub arrays: Items<u32>,
    pub roles: Roles,
    pub before: Roles,
    pub written: Numbers,
}

// The scalars that a body writes.
fn scalars_in(alloc: Global, body: &Stmt) -> Result<Items<u32>, AllocError>
    ensures { IfOk result (λ scalars. scalars ≡ scalars_written body.now) }
{
    let mut scalars = Items::new(alloc);
    scalars_written(body, &mut scalars)?;
    Ok(scalars)
}

// The arrays that a body writes.
fn arrays_in(alloc: Global, body: &Stmt) -> Result<Items<u32>, AllocError>
    ensures { IfOk result (λ arrays. arrays ≡ arrays_written body.now) }
{
    let mut arrays = Items::new(alloc);
    arrays_written(body, &mut arrays)?;
    Ok(arrays)
}

// The set of some numbers.
#[tactic(auto, using(crate::proofs::ReadyLaws::in_either))]
fn set_of(alloc: Global, numbers: &[u32]) -> Result<Numbers, AllocError>
    ensures { IfOk result (λ set. (n : ℕ) → is_in set n ≡ is_in numbers.now n) }
{
    let mut set = Numbers::new(alloc);
    set.put_all(numbers)?;
    Ok(set)
}

// What stands ready, from the scalars that the body writes and the roles of scalars.
fn with_arrays(
    alloc: Global,
    d: &LoopDirective,
    body: &Stmt,
    scalars: Items<u32>,
    roles: Roles,
    before: Roles,
) -> Result<Ready, AllocError>
    requires scalars { scalars ≡ scalars_written body.now }
    requires roles { (n : ℕ) → role_at roles n ≡ role_in d.now body.now n }
    requires before { (n : ℕ) → role_at before n ≡ before_iterations (role_in d.now body.now n) }
    ensures { IfOk result (λ r. IsReady r d.now body.now) }
{
    let arrays = arrays_in(alloc, body)?;
    let written = set_of(alloc, arrays.as_slice())?;
    Ok(Ready {
        scalars,
        arrays,
        roles,
        before,
        written,
    })
}

/// What stands ready for a body.
pub fn make_ready(alloc: Global, d: &LoopDirective, body: &Stmt) -> Result<Ready, AllocError>
    ensures { IfOk result (λ r. IsReady r d.now body.now) }
{
    let scalars = scalars_in(alloc, body)?;
    let roles = roles_in(alloc, d, scalars.as_slice())?;
    let before = bound_roles(alloc, d)?;
    with_arrays(alloc, d, body, scalars, roles, before)
}

// One iteration: own scalars out of date, and then the body.
fn turn(alloc: Global, s: &Around, own: &[u32], body: Flow) -> Result<Flow, AllocError>
    requires { KnowsAll s.now }
    ensures { IfOk result (λ flow. plan_of flow ≡ turn_of (setting_of s.now) own.now (plan_of body)) }
{
    let mut parts = Items::new(alloc);
    match stale_scalars(s, own, &mut parts) {
        Ok(()) => with(parts, body),
        Err(e) => {
            std::mem::drop(body);
            Err(e)
        }
    }
}

// The iterations.
fn turns(alloc: Global, s: &Around, own: &[u32], body: Flow) -> Result<Flow, AllocError>
    requires { KnowsAll s.now }
    ensures { IfOk result (λ flow. plan_of flow ≡ loop (turn_of (setting_of s.now) own.now (plan_of body))) }
{
    let turn = turn(alloc, s, own, body)?;
    Flow::turns(alloc, turn)
}

// The indices of the nest are out of date on all nodes.
fn stale_indices(
    alloc: Global,
    s: &Around,
    d: &LoopDirective,
    parts: &mut Items<Flow>,
) -> Result<(), AllocError>
    requires { KnowsAll s.now }
    ensures { OnOk result (map plan_of parts.new
        ≡ map plan_of parts.old ++ map (λ slot. stale_on_all (setting_of s.now) (scalar_object slot)) (indices_of d.now.nest)) }
{
    let mut slots = Items::new(alloc);
    indices(d.nest.as_slice(), &mut slots)?;
    stale_scalars(s, slots.as_slice(), parts)
}

// What the directive leaves.
fn ends(
    alloc: Global,
    s: &Around,
    d: &LoopDirective,
    own: &[u32],
    arrays: &[u32],
) -> Result<Flow, AllocError>
    requires { KnowsAll s.now }
    ensures { IfOk result (λ flow. plan_of flow ≡ in_order (ends_with (setting_of s.now) d.now own.now arrays.now)) }
{
    let mut parts = Items::new(alloc);
    stale_scalars(s, own, &mut parts)?;
    stale_indices(alloc, s, d, &mut parts)?;
    current_reductions(s, d.reductions.as_slice(), &mut parts)?;
    stale_shadows(alloc, s, arrays, &mut parts)?;
    Ok(Flow::all(parts))
}

// All scalars that the directive writes.
#[tactic(auto, using(crate::proofs::NestLaws::set_of))]
fn written_of(alloc: Global, d: &LoopDirective, r: &Ready) -> Result<Numbers, AllocError>
    ensures { IfOk result (λ written. (m : ℕ) → is_in written m ≡ is_in (indices_of d.now.nest ++ r.now.scalars) m) }
{
    let mut written = Numbers::new(alloc);
    put_indices(d.nest.as_slice(), &mut written)?;
    written.put_all(r.scalars.as_slice())?;
    Ok(written)
}

// The heads of its nest.
fn heads(alloc: Global, bounds: &Around, d: &LoopDirective, r: &Ready) -> Result<Flow, AllocError>
    requires { KnowsAll bounds.now }
    ensures { IfOk result (λ flow. plan_of flow
        ≡ in_order (nest_events (setting_of bounds.now) [] (indices_of d.now.nest ++ r.now.scalars) d.now.nest)) }
{
    let written = written_of(alloc, d, r)?;
    let nest = nest_events(alloc, bounds, &written, d.nest.as_slice())?;
    Ok(Flow::all(nest))
}

// What stands before the iterations.
fn head(
    alloc: Global,
    s: &Around,
    bounds: &Around,
    d: &LoopDirective,
    r: &Ready,
) -> Result<Items<Flow>, AllocError>
    requires here { KnowsAll s.now }
    requires at_bounds { KnowsAll bounds.now }
    ensures { IfOk result (λ parts. (body : Stmt) → IsReady r.now d.now body
        → setting_of bounds.now ≡ at_bounds d.now body (setting_of s.now)
        → map plan_of parts ≡ before_turns (setting_of s.now) d.now body) }
{
    let mut parts = Items::new(alloc);
    parts.push(wrong_where(alloc, s.inside, 10, d.at))?;
    let nest = heads(alloc, bounds, d, r)?;
    parts.push(nest)?;
    let reductions = reduction_events(alloc, s, d.reductions.as_slice())?;
    parts.push(Flow::all(reductions))?;
    Ok(parts)
}

// What stands before the iterations, these, and what the directive leaves.
fn joined(
    alloc: Global,
    s: &Around,
    d: &LoopDirective,
    own: &[u32],
    arrays: &[u32],
    mut parts: Items<Flow>,
    turns: Flow,
) -> Result<Flow, AllocError>
    requires { KnowsAll s.now }
    ensures { IfOk result (λ flow. plan_of flow
        ≡ in_order (map plan_of parts ++ plan_of turns ∷ in_order (ends_with (setting_of s.now) d.now own.now arrays.now) ∷ [])) }
{
    parts.push(turns)?;
    match ends(alloc, s, d, own, arrays) {
        Ok(ends) => with(parts, ends),
        Err(e) => {
            std::mem::drop(parts);
            Err(e)
        }
    }
}

// The events of a directive whose iterations have these own scalars.
fn around_own(
    alloc: Global,
    s: &Around,
    bounds: &Around,
    d: &LoopDirective,
    r: &Ready,
    own: &[u32],
    body: Flow,
) -> Result<Flow, AllocError>
    requires here { KnowsAll s.now }
    requires at_bounds { KnowsAll bounds.now }
    ensures { IfOk result (λ flow. (x : Stmt) → IsReady r.now d.now x
        → own.now ≡ own_scalars d.now x
        → setting_of bounds.now ≡ at_bounds d.now x (setting_of s.now)
        → plan_of flow ≡ loop_events d.now x (λ s. plan_of body) (setting_of s.now)) }
{
    let turns = turns(alloc, s, own, body)?;
    match head(alloc, s, bounds, d, r) {
        Ok(parts) => joined(alloc, s, d, own, r.arrays.as_slice(), parts, turns),
        Err(e) => {
            std::mem::drop(turns);
            Err(e)
        }
    }
}

/// The events of a directive round those of its body.
pub fn around(
    alloc: Global,
    s: &Around,
    bounds: &Around,
    d: &LoopDirective,
    r: &Ready,
    body: Flow,
) -> Result<Flow, AllocError>
    requires here { KnowsAll s.now }
    requires at_bounds { KnowsAll bounds.now }
    ensures { IfOk result (λ flow. (x : Stmt) → IsReady r.now d.now x
        → setting_of bounds.now ≡ at_bounds d.now x (setting_of s.now)
        → plan_of flow ≡ loop_events d.now x (λ s. plan_of body) (setting_of s.now)) }
{
    match own_scalars(alloc, &r.roles, r.scalars.as_slice()) {
        Ok(own) => {
            let flow = around_own(alloc, s, bounds, d, r, own.as_slice(), body);
            std::mem::drop(own);
            flow
        }
        Err(e) => {
            std::mem::drop(body);
            Err(e)
        }
    }
}

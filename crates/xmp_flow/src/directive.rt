// The events of a loop directive round its body.
ghost use Rattle.std.specs.Prelude.{◌≡◌, ◌==◌, ◌||◌, ◌++◌, ◌∷◌, [], ℕ, map, not, OnOk, IfOk};
ghost use Rattle.std.specs.List.{filter};
ghost use Rattle.xmp_paths.specs.Plans.{emit, in_order};
ghost use Rattle.xmp_paths.specs.declared.event.Event.TheVariants.{Read};
ghost use Rattle.xmp_prog.specs.Numbers.{is_in};
ghost use Rattle.xmp_prog.specs.Statements.{indices_of};
ghost use Rattle.xmp_paths.specs.Flows.{plan_of};
ghost use Rattle.xmp_loops.specs.Objects.{all_nodes, scalar_object};
ghost use Rattle.xmp_flow.specs.Setting.{current_on_all, stale_on_all, wrong_where};
ghost use Rattle.xmp_flow.specs.LoopEvents.{head_events, nest_events, reduction_events, shadow_stale};
ghost use Rattle.xmp_loops.specs.Bounds.{is_bound};
ghost use Rattle.xmp_loops.specs.Roles.{is_own};
ghost use Rattle.xmp_flow.specs.Reads.{reads_of};
ghost use Rattle.xmp_flow.specs.Views.{KnowsAll, setting_of};
ghost use Rattle.xmp_loops.specs.Tables.{role_at};

use crate::elements::home_of;
use crate::expressions::{reads, with};
use crate::scalars::wrong_where;
use crate::setting::Around;
use sqlite_items::Items;
use std::alloc::{AllocError, Global};
use xmp_base::Place;
use xmp_loops::{Numbers, Role, Roles, is_bound};
use xmp_paths::{Event, Flow};
use xmp_prog::{Expr, Home, LoopHead, Reduction};

// A bound of a loop of the nest: what it reads, and that it is built as a bound has to be.
fn push_bound(
    alloc: Global,
    s: &Around,
    outer: &[u32],
    written: &Numbers,
    bound: &Expr,
    at: Place,
    parts: &mut Items<Flow>,
) -> Result<(), AllocError>
    requires { KnowsAll s.now }
    ensures { OnOk result (map plan_of parts.new ≡ map plan_of parts.old
        ++ reads_of bound.now (setting_of s.now) ∷ wrong_where (not (is_bound outer.now written.now bound.now)) 12 at ∷ []) }
{
    let reads = reads(alloc, s, bound)?;
    parts.push(reads)?;
    parts.push(wrong_where(alloc, !is_bound(outer, written, bound), 12, at))
}

// The head of a loop of the nest: its bounds, and its index.
fn head_events(
    alloc: Global,
    s: &Around,
    outer: &[u32],
    written: &Numbers,
    h: &LoopHead,
) -> Result<Flow, AllocError>
    requires { KnowsAll s.now }
    ensures { IfOk result (λ flow. plan_of flow ≡ head_events (setting_of s.now) outer.now written.now h.now) }
{
    let mut parts = Items::new(alloc);
    push_bound(alloc, s, outer, written, &h.from, h.from_at, &mut parts)?;
    push_bound(alloc, s, outer, written, &h.to, h.to_at, &mut parts)?;
    let reduced = matches!(s.roles.at(h.index.number), Role::Reduced(_));
    with(parts, wrong_where(alloc, reduced, 5, h.index.at))
}

// One more head of a nest, with its index among those round the loops in it.
fn push_head(
    alloc: Global,
    s: &Around,
    outer: &mut Items<u32>,
    written: &Numbers,
    h: &LoopHead,
    parts: &mut Items<Flow>,
) -> Result<(), AllocError>
    requires { KnowsAll s.now }
    ensures outer { OnOk result (outer.new ≡ outer.old ++ h.now.index.number ∷ []) }
    ensures parts { OnOk result (map plan_of parts.new
        ≡ map plan_of parts.old ++ head_events (setting_of s.now) outer.old written.now h.now ∷ []) }
{
    let part = head_events(alloc, s, outer.as_slice(), written, h)?;
    parts.push(part)?;
    outer.push(h.index.number)
}

/// The heads of a nest, the outermost first.
pub fn nest_events(
    alloc: Global,
    s: &Around,
    written: &Numbers,
    nest: &[LoopHead],
) -> Result<Items<Flow>, AllocError>
    requires { KnowsAll s.now }
    ensures { IfOk result (λ parts. map plan_of parts ≡ nest_events (setting_of s.now) [] written.now nest.now) }
{
    let mut outer = Items::new(alloc);
    let mut parts = Items::new(alloc);
    'items: for h in nest {
        push_head(alloc, s, &mut outer, written, h, &mut parts)?;
    }
    Ok(parts)
}

/// Puts the indices of a nest into a set.
pub fn put_indices(nest: &[LoopHead], out: &mut Numbers) -> Result<(), AllocError>
    ensures { OnOk result ((m : ℕ) → is_in out.new m ≡ (is_in (indices_of nest.now) m || is_in out.old m)) }
{
    'items: for h in nest {
        out.put(h.index.number)?;
    }
    Ok(())
}

// One more reduction variable: it is read, and may not be among those before it.
fn push_reduction(
    alloc: Global,
    s: &Around,
    before: &mut Numbers,
    r: &Reduction,
    parts: &mut Items<Flow>,
) -> Result<(), AllocError>
    requires { KnowsAll s.now }
    ensures before { OnOk result ((m : ℕ) → is_in before.new m ≡ ((r.now.variable.number == m) || is_in before.old m)) }
    ensures parts { OnOk result (map plan_of parts.new ≡ map plan_of parts.old
        ++ emit (Read (scalar_object r.now.variable.number) (all_nodes (setting_of s.now).program) 1 r.now.variable.at)
        ∷ wrong_where (is_in before.old r.now.variable.number) 5 r.now.variable.at ∷ []) }
{
    parts.push(Flow::one(Event::Read {
        object: 2 * r.variable.number as u64,
        nodes: s.all,
        rule: 1,
        at: r.variable.at,
    }))?;
    let again = before.has(r.variable.number);
    parts.push(wrong_where(alloc, again, 5, r.variable.at))?;
    before.put(r.variable.number)
}

/// The reduction variables: each is read, and named once.
pub fn reduction_events(
    alloc: Global,
    s: &Around,
    reductions: &[Reduction],
) -> Result<Items<Flow>, AllocError>
    requires { KnowsAll s.now }
    ensures { IfOk result (λ parts. map plan_of parts ≡ reduction_events (setting_of s.now) [] reductions.now) }
{
    let mut before = Numbers::new(alloc);
    let mut parts = Items::new(alloc);
    'items: for r in reductions {
        push_reduction(alloc, s, &mut before, r, &mut parts)?;
    }
    Ok(parts)
}

fn is_own(roles: &Roles, slot: u32) -> bool
    ensures { result ≡ is_own (role_at roles.now slot) }
{
    matches!(roles.at(slot), Role::Own)
}

/// Those of the scalars that are the iterations' own.
pub fn own_scalars(alloc: Global, roles: &Roles, written: &[u32]) -> Result<Items<u32>, AllocError>
    ensures { IfOk result (λ own. own ≡ filter (λ slot. is_own (role_at roles.now slot)) written.now) }
{
    let mut own = Items::new(alloc);
    'items: for slot in written {
        if is_own(roles, *slot) {
            own.push(*slot)?;
        }
    }
    Ok(own)
}

/// Scalars that are out of date on all nodes.
pub fn stale_scalars(s: &Around, slots: &[u32], parts: &mut Items<Flow>) -> Result<(), AllocError>
    requires { KnowsAll s.now }
    ensures { OnOk result (map plan_of parts.new
        ≡ map plan_of parts.old ++ map (λ slot. stale_on_all (setting_of s.now) (scalar_object slot)) slots.now) }
{
    'items: for slot in slots {
        parts.push(Flow::one(Event::Mark {
            object: 2 * *slot as u64,
            current: 0,
            stale: s.all,
        }))?;
    }
    Ok(())
}

/// Reduction variables, which are current on all nodes behind the directive.
pub fn current_reductions(
    s: &Around,
    reductions: &[Reduction],
    parts: &mut Items<Flow>,
) -> Result<(), AllocError>
    requires { KnowsAll s.now }
    ensures { OnOk result (map plan_of parts.new
        ≡ map plan_of parts.old ++ map (λ r. current_on_all (setting_of s.now) (scalar_object r.variable.number)) reductions.now) }
{
    'items: for r in reductions {
        parts.push(Flow::one(Event::Mark {
            object: 2 * r.variable.number as u64,
            current: s.all,
            stale: 0,
        }))?;
    }
    Ok(())
}

// The shadow of a distributed array is out of date on all nodes.
fn shadow_stale(alloc: Global, s: &Around, array: u32) -> Flow
    requires { KnowsAll s.now }
    ensures { plan_of result ≡ shadow_stale (setting_of s.now) array }
{
    match home_of(s, array) {
        Some(Home::Spread(_, _)) => Flow::one(Event::Mark {
            object: 2 * array as u64 + 1,
            current: 0,
            stale: s.all,
        }),
        _ => Flow::nothing(alloc),
    }
}

/// The shadows of arrays.
pub fn stale_shadows(
    alloc: Global,
    s: &Around,
    arrays: &[u32],
    parts: &mut Items<Flow>,
) -> Result<(), AllocError>
    requires { KnowsAll s.now }
    ensures { OnOk result (map plan_of parts.new ≡ map plan_of parts.old ++ map (shadow_stale (setting_of s.now)) arrays.now) }
{
    'items: for array in arrays {
        parts.push(shadow_stale(alloc, s, *array))?;
    }
    Ok(())
}

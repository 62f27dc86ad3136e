// Going through a tree: which copies may be out of date after it, and the first rule that breaks in it.
ghost use Rattle.std.specs.Prelude.{◌≡◌, map, OnOk, IfOk};
ghost use Rattle.xmp_base.specs.First.{IsFirst};
ghost use Rattle.xmp_paths.specs.Plans.{emit, in_order, branch, loop};
ghost use Rattle.xmp_paths.specs.Flows.{plan_of};
ghost use Rattle.xmp_paths.specs.Rules.{in_phase};
ghost use Rattle.xmp_paths.specs.May.{BreaksAt, BreaksFrom};
ghost use Rattle.xmp_paths.specs.Copies.{may_be_stale, CarriesOver, Returns};

use crate::copies::Copies;
use crate::event::{Event, Flow};
use crate::node_sets::meets;
use sqlite_items::Items;
use std::alloc::{AllocError, Global};
use xmp_base::{Phase, Refusal, earlier};

// Goes through a tree: the copies that may be out of date after it, from those that may be before it. In a branch it
// goes left, and from the same start right, and joins both ends.
#[cycle(carry)]
pub fn carry(alloc: Global, flow: &Flow, copies: &mut Copies) -> Result<(), AllocError>
    ensures carries { OnOk result (CarriesOver (plan_of flow.now) copies.old copies.new) }
    ensures returns { OnOk result (Returns copies.old copies.new) }
{
    match flow {
        Flow::Emit(event) => copies.mark(event),
        Flow::Sequence(parts) => carry_all(alloc, parts.as_slice(), copies),
        Flow::Branch(left, right) => {
            let start = copies.reached();
            carry(alloc, left.get(), copies)?;
            let changes = copies.go_back(alloc, start)?;
            carry(alloc, right.get(), copies)?;
            copies.join(alloc, start, changes)?;
            Ok(())
        }
        Flow::Loop(body) => carry_turns(alloc, body.get(), copies),
    }
}

// Goes through the parts in order.
#[cycle(carry)]
fn carry_all(alloc: Global, parts: &[Flow], copies: &mut Copies) -> Result<(), AllocError>
    ensures carries { OnOk result (CarriesOver (in_order (map plan_of parts.now)) copies.old copies.new) }
    ensures returns { OnOk result (Returns copies.old copies.new) }
{
    'parts: for part in parts {
        carry(alloc, part, copies)?;
    }
    Ok(())
}

// Goes through the body once, and joins its end with the start: a second turn adds nothing.
#[cycle(carry)]
fn carry_turns(alloc: Global, body: &Flow, copies: &mut Copies) -> Result<(), AllocError>
    ensures carries { OnOk result (CarriesOver (loop (plan_of body.now)) copies.old copies.new) }
    ensures returns { OnOk result (Returns copies.old copies.new) }
{
    let start = copies.reached();
    carry(alloc, body, copies)?;
    copies.join(alloc, start, Items::new(alloc))
}

// The rule that breaks at an event, where one does.
fn judge(phase: Phase, event: &Event, copies: &Copies) -> Option<Refusal>
    ensures { IsFirst (in_phase phase (BreaksAt event.now (may_be_stale copies.now))) result }
{
    match *event {
        Event::Read {
            object,
            nodes,
            rule,
            at,
        } if meets(nodes, copies.get(object)) => Some(Refusal { phase, rule, at }),
        Event::Wrong { rule, at } => Some(Refusal { phase, rule, at }),
        _ => None,
    }
}

// Judges an event, and marks the copies.
fn inspect_event(
    phase: Phase,
    event: &Event,
    copies: &mut Copies,
) -> Result<Option<Refusal>, AllocError>
    ensures first { IfOk result (λ found. IsFirst (in_phase phase (BreaksAt event.now (may_be_stale copies.old))) found) }
    ensures carries { OnOk result (CarriesOver (emit event.now) copies.old copies.new) }
    ensures returns { OnOk result (Returns copies.old copies.new) }
{
    let found = judge(phase, event, copies);
    copies.mark(event)?;
    Ok(found)
}

// Goes through a tree as `carry` does, and judges its events.
#[cycle(inspect)]
pub fn inspect(
    alloc: Global,
    phase: Phase,
    flow: &Flow,
    copies: &mut Copies,
) -> Result<Option<Refusal>, AllocError>
    ensures first { IfOk result (λ found.
        IsFirst (in_phase phase (BreaksFrom (plan_of flow.now) (may_be_stale copies.old))) found) }
    ensures carries { OnOk result (CarriesOver (plan_of flow.now) copies.old copies.new) }
    ensures returns { OnOk result (Returns copies.old copies.new) }
{
    match flow {
        Flow::Emit(event) => inspect_event(phase, event, copies),
        Flow::Sequence(parts) => inspect_all(alloc, phase, parts.as_slice(), copies),
        Flow::Branch(left, right) => {
            let start = copies.reached();
            let first = inspect(alloc, phase, left.get(), copies)?;
            let changes = copies.go_back(alloc, start)?;
            let second = inspect(alloc, phase, right.get(), copies)?;
            copies.join(alloc, start, changes)?;
            Ok(earlier(first, second))
        }
        Flow::Loop(body) => inspect_turns(alloc, phase, body.get(), copies),
    }
}

// Goes through the parts in order.
#[cycle(inspect)]
fn inspect_all(
    alloc: Global,
    phase: Phase,
    parts: &[Flow],
    copies: &mut Copies,
) -> Result<Option<Refusal>, AllocError>
    ensures first { IfOk result (λ found.
        IsFirst (in_phase phase (BreaksFrom (in_order (map plan_of parts.now)) (may_be_stale copies.old))) found) }
    ensures carries { OnOk result (CarriesOver (in_order (map plan_of parts.now)) copies.old copies.new) }
    ensures returns { OnOk result (Returns copies.old copies.new) }
{
    let mut found = None;
    'parts: for part in parts {
        let next = inspect(alloc, phase, part, copies)?;
        found = earlier(found, next);
    }
    Ok(found)
}

// Goes through the body once for the copies that may be out of date at the head of a turn, and once more to judge it.
#[cycle(inspect)]
fn inspect_turns(
    alloc: Global,
    phase: Phase,
    body: &Flow,
    copies: &mut Copies,
) -> Result<Option<Refusal>, AllocError>
    ensures first { IfOk result (λ found.
        IsFirst (in_phase phase (BreaksFrom (loop (plan_of body.now)) (may_be_stale copies.old))) found) }
    ensures carries { OnOk result (CarriesOver (loop (plan_of body.now)) copies.old copies.new) }
    ensures returns { OnOk result (Returns copies.old copies.new) }
{
    carry_turns(alloc, body, copies)?;
    let head = copies.reached();
    let found = inspect(alloc, phase, body, copies)?;
    copies.undo(head)?;
    Ok(found)
}

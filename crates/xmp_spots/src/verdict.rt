// The first rule that breaks on the paths through a course.
ghost use Rattle.std.specs.Prelude.{◌≡◌, map, IfOk};
ghost use Rattle.xmp_base.specs.First.{IsFirst};
ghost use Rattle.xmp_paths.specs.Plans.{Plan, emit, branch, loop};
ghost use Rattle.xmp_spots.specs.declared.events.Event.{Event};
ghost use Rattle.xmp_spots.specs.Courses.{in_sequence, plan_of};
ghost use Rattle.xmp_spots.specs.PlanRaces.{BreaksIn};
ghost use Rattle.xmp_spots.specs.Summaries.{Sums};

use crate::events::{Course, Event};
use crate::summary::Summary;
use std::alloc::Global;
use xmp_base::{NoMemory, Refusal};

// The summary of an event.
fn of_event(alloc: Global, event: &Event) -> Result<Summary, NoMemory>
    ensures { IfOk result (λ s. Sums (emit event.now) s) }
{
    match event {
        Event::Touches(touch) => Summary::of_touch(alloc, touch),
        Event::Sync => Ok(Summary::of_sync(alloc)),
        Event::Wrong { rule, at } => Ok(Summary::of_wrong(alloc, *rule, *at)),
    }
}

// The summary of two branches.
fn either(alloc: Global, mut one: Summary, other: Summary) -> Result<Summary, NoMemory>
    ensures { IfOk result (λ s. (p q : Plan Event) → Sums p one → Sums q other → Sums (branch p q) s) }
{
    match one.or(alloc, other) {
        Ok(()) => Ok(one),
        Err(e) => {
            std::mem::drop(one);
            Err(e)
        }
    }
}

// That of a loop.
fn turns(alloc: Global, mut body: Summary) -> Result<Summary, NoMemory>
    ensures { IfOk result (λ s. (p : Plan Event) → Sums p body → Sums (loop p) s) }
{
    match body.turn(alloc) {
        Ok(()) => Ok(body),
        Err(e) => {
            std::mem::drop(body);
            Err(e)
        }
    }
}

// The summary of a course.
#[cycle(summary)]
fn summary_of(alloc: Global, course: &Course) -> Result<Summary, NoMemory>
    ensures { IfOk result (λ s. Sums (plan_of course.now) s) }
{
    match course {
        Course::Emit(event) => of_event(alloc, event),
        Course::Sequence(parts) => summary_of_all(alloc, parts.as_slice()),
        Course::Branch(left, right) => {
            let one = summary_of(alloc, left.get())?;
            match summary_of(alloc, right.get()) {
                Ok(other) => either(alloc, one, other),
                Err(e) => {
                    std::mem::drop(one);
                    Err(e)
                }
            }
        }
        Course::Loop(body) => turns(alloc, summary_of(alloc, body.get())?),
    }
}

// That of the parts in order.
#[cycle(summary)]
fn summary_of_all(alloc: Global, parts: &[Course]) -> Result<Summary, NoMemory>
    ensures { IfOk result (λ s. Sums (in_sequence (map plan_of parts.now)) s) }
{
    let mut all = Summary::nothing(alloc);
    'parts: for part in parts {
        let next = match summary_of(alloc, part) {
            Ok(next) => next,
            Err(e) => {
                std::mem::drop(all);
                return Err(e);
            }
        };
        match all.follow(alloc, next) {
            Ok(()) => {}
            Err(e) => {
                std::mem::drop(all);
                return Err(e);
            }
        }
    }
    Ok(all)
}

/// The first rule that breaks on the paths through a course, or none: rule 2 at an access that clashes with another
/// which may fall in one phase with it, and what is wrong where it stands. No two accesses are compared: the time grows
/// with the number of accesses, and of their spots.
pub fn judge(alloc: Global, course: &Course) -> Result<Option<Refusal>, NoMemory>
    ensures { IfOk result (λ found. IsFirst (BreaksIn (plan_of course.now)) found) }
{
    let summary = summary_of(alloc, course)?;
    Ok(summary.found)
}

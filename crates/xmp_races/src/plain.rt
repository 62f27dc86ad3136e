// What happens in statements that hold no statement.
ghost use Rattle.std.specs.Prelude.{◌≡◌, ◌++◌, ◌∷◌, [], map, OnOk, IfOk, true};
ghost use Rattle.xmp_paths.specs.Plans.{emit};
ghost use Rattle.xmp_spots.specs.Courses.{in_sequence, plan_of};
ghost use Rattle.xmp_spots.specs.declared.events.Event.TheVariants.{Sync, Wrong};
ghost use Rattle.xmp_races.specs.Accesses.{events_of, events_of_all, events_of_option};
ghost use Rattle.xmp_races.specs.Statements.{plain_events, target_parts, target_written};
ghost use Rattle.xmp_races.specs.Views.{setting_of};

use crate::access::access_events;
use crate::expressions::{events, events_of_call, events_of_each, events_of_parts};
use crate::rules::wrong;
use crate::setting::Site;
use sqlite_items::Items;
use std::alloc::Global;
use xmp_base::{NoMemory, Place};
use xmp_prog::{Expr, Plain, Target};
use xmp_spots::{Course, Event};

// What happens in the parts of a target.
fn target_parts(alloc: Global, s: &Site<'_>, to: &Target) -> Result<Items<Course>, NoMemory>
    ensures { IfOk result (λ parts. map plan_of parts ≡ target_parts (setting_of s.now) to.now) }
{
    match to {
        Target::Scalar(_, _) => Ok(Items::new(alloc)),
        Target::Cell(a) => events_of_parts(alloc, s, a),
    }
}

// Adds what happens where a target is written.
fn target_written(
    alloc: Global,
    s: &Site<'_>,
    to: &Target,
    parts: &mut Items<Course>,
) -> Result<(), NoMemory>
    ensures { OnOk result (map plan_of parts.new ≡ map plan_of parts.old ++ target_written (setting_of s.now) to.now) }
{
    match to {
        Target::Scalar(_, _) => Ok(()),
        Target::Cell(a) => access_events(alloc, s, true, a, parts),
    }
}

// What happens in the parts of a target, then something else, and then the target is written.
fn written(alloc: Global, s: &Site<'_>, to: &Target, between: Course) -> Result<Course, NoMemory>
    ensures { IfOk result (λ course. plan_of course ≡ in_sequence (target_parts (setting_of s.now) to.now
        ++ (plan_of between ∷ target_written (setting_of s.now) to.now))) }
{
    let mut parts = match target_parts(alloc, s, to) {
        Ok(parts) => parts,
        Err(e) => {
            std::mem::drop(between);
            return Err(e);
        }
    };
    parts.push(between)?;
    match target_written(alloc, s, to, &mut parts) {
        Ok(()) => Ok(Course::all(parts)),
        Err(e) => {
            std::mem::drop(parts);
            Err(e)
        }
    }
}

// What happens in an expression that may be missing.
fn option_events(
    alloc: Global,
    s: &Site<'_>,
    value: &Option<Expr>,
) -> Result<Items<Course>, NoMemory>
    ensures { IfOk result (λ parts. map plan_of parts ≡ events_of_option value.now (setting_of s.now)) }
{
    let mut parts = Items::new(alloc);
    if let Some(e) = value {
        let part = events(alloc, s, e)?;
        parts.push(part)?;
    }
    Ok(parts)
}

// An assignment.
fn set_events(alloc: Global, s: &Site<'_>, to: &Target, value: &Expr) -> Result<Course, NoMemory>
    ensures { IfOk result (λ course. plan_of course ≡ in_sequence (target_parts (setting_of s.now) to.now
        ++ (events_of value.now (setting_of s.now) ∷ target_written (setting_of s.now) to.now))) }
{
    let between = events(alloc, s, value)?;
    written(alloc, s, to, between)
}

/// What happens in a statement that holds no statement.
pub fn plain_events(alloc: Global, s: &Site<'_>, p: &Plain) -> Result<Course, NoMemory>
    ensures { IfOk result (λ course. plan_of course ≡ plain_events p.now (setting_of s.now)) }
{
    match p {
        Plain::Declare { value, .. } => {
            let parts = option_events(alloc, s, value)?;
            Ok(Course::all(parts))
        }
        Plain::Set { target, value, .. } => set_events(alloc, s, target, value),
        Plain::Return(value) => events(alloc, s, value),
        Plain::Call {
            function,
            arguments,
            at,
        } => events_of_call(alloc, s, arguments.as_slice(), *function, *at),
        Plain::Print { arguments, .. } => {
            let parts = events_of_each(alloc, s, arguments.as_slice())?;
            Ok(Course::all(parts))
        }
        Plain::Scan { target, at } => written(alloc, s, target, wrong(5, *at)),
        Plain::Sync { .. } => Ok(Course::one(Event::Sync)),
        Plain::Reflect { at, .. } => Ok(wrong(5, *at)),
        Plain::Barrier { at } => Ok(wrong(5, *at)),
        Plain::Cast { at, .. } => Ok(wrong(5, *at)),
        Plain::Gmove { at, .. } => Ok(wrong(5, *at)),
    }
}

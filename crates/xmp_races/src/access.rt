// What happens where an element is read or written.
ghost use Rattle.std.specs.Prelude.{◌≡◌, ◌++◌, ◌∷◌, [], map, OnOk, IfOk};
ghost use Rattle.xmp_paths.specs.Plans.{emit};
ghost use Rattle.xmp_spots.specs.declared.events.Event.TheVariants.{Touches};
ghost use Rattle.xmp_races.specs.Setting.{wrong_where};
ghost use Rattle.xmp_meaning.specs.Declarations.{is_coarray};
ghost use Rattle.xmp_spots.specs.Courses.{plan_of};
ghost use Rattle.xmp_races.specs.Accesses.{access_events, touch_of, whose_at};
ghost use Rattle.xmp_races.specs.Views.{setting_of, whose_of};

use crate::rules::wrong_where;
use crate::setting::Site;
use crate::spots::{spots, values_of_each};
use crate::whose::{Whose, is_elsewhere, means};
use sqlite_items::Items;
use std::alloc::Global;
use xmp_base::NoMemory;
use xmp_prog::{Access, Home, ProgParts};
use xmp_spots::{Course, Event, Touch};

// Whether an array is a coarray.
fn is_coarray(p: &ProgParts, array: u32) -> bool
    ensures { result ≡ is_coarray p.now array }
{
    match p.arrays.get(array as usize) {
        Some(a) => matches!(a.home, Home::Image),
        None => false,
    }
}

// What an access touches that means these images.
fn touch_of(
    alloc: Global,
    s: &Site<'_>,
    writes: bool,
    a: &Access,
    w: &Whose<'_>,
) -> Result<Touch, NoMemory>
    requires { whose_of w.now ≡ whose_at (setting_of s.now) a.now }
    ensures { IfOk result (λ touch. touch ≡ touch_of (setting_of s.now) writes a.now) }
{
    let subscripts = values_of_each(alloc, s, a.subscripts.as_slice())?;
    let spots = spots(alloc, s.count, s.counts, w, subscripts.as_slice())?;
    Ok(Touch {
        array: a.array,
        writes,
        spots,
        at: a.at,
    })
}

/// Adds what happens where an element is read or written, its parts apart.
pub fn access_events(
    alloc: Global,
    s: &Site<'_>,
    writes: bool,
    a: &Access,
    parts: &mut Items<Course>,
) -> Result<(), NoMemory>
    ensures { OnOk result (map plan_of parts.new ≡ map plan_of parts.old ++ access_events (setting_of s.now) writes a.now) }
{
    if !is_coarray(s.program, a.array) {
        return Ok(());
    }
    let w = means(alloc, s, &a.image)?;
    let touch = touch_of(alloc, s, writes, a, &w)?;
    let elsewhere = is_elsewhere(s.count, s.counts, &w);
    add_access(alloc, elsewhere, touch, parts)
}

// The rule that breaks, where one does, and the access.
fn add_access(
    alloc: Global,
    elsewhere: bool,
    touch: Touch,
    parts: &mut Items<Course>,
) -> Result<(), NoMemory>
    ensures { OnOk result (map plan_of parts.new
        ≡ map plan_of parts.old ++ wrong_where elsewhere 3 touch.at ∷ emit (Touches touch) ∷ []) }
{
    match parts.push(wrong_where(alloc, elsewhere, 3, touch.at)) {
        Ok(()) => {}
        Err(_) => {
            std::mem::drop(touch);
            return Err(NoMemory);
        }
    }
    parts.push(Course::one(Event::Touches(touch)))?;
    Ok(())
}

// What happens where an element of an array is read or written.
ghost use Rattle.std.specs.Prelude.{◌≡◌};
ghost use Rattle.std.specs.Option.{option_copied};
ghost use Rattle.xmp_paths.specs.Plans.{emit};
ghost use Rattle.xmp_paths.specs.Flows.{plan_of};
ghost use Rattle.xmp_paths.specs.declared.event.Event.TheVariants.{Wrong};
ghost use Rattle.xmp_flow.specs.Elements.{element_read, element_write, home_of, offset_events, spread_events};
ghost use Rattle.xmp_flow.specs.Views.{KnowsAll, events_of_reach, setting_of};

use crate::setting::Around;
use std::alloc::Global;
use xmp_base::Place;
use xmp_loops::{Reach, offsets_of};
use xmp_map::ArrayMap;
use xmp_paths::{Event, Flow};
use xmp_prog::{Expr, Home};

/// Where the cells of an array lie.
pub fn home_of<'a>(s: &Around<'a>, array: u32) -> Option<&'a Home>
    ensures { option_copied result ≡ home_of (setting_of s.now) array }
{
    match s.program.arrays.get(array as usize) {
        Some(a) => Some(&a.home),
        None => None,
    }
}

fn wrong(rule: u16, at: Place) -> Flow
    ensures { plan_of result ≡ emit (Wrong rule at) }
{
    Flow::one(Event::Wrong { rule, at })
}

// An element at these offsets.
fn offset_events(alloc: Global, s: &Around, array: u32, at: Place, reach: Option<Reach>) -> Flow
    requires { KnowsAll s.now }
    ensures { plan_of result ≡ events_of_reach (setting_of s.now) array at reach }
{
    let Some(reach) = reach else {
        return wrong(2, at);
    };
    if reach.own {
        return Flow::nothing(alloc);
    }
    if s.written.has(array) {
        return wrong(4, at);
    }
    if !reach.within {
        return wrong(3, at);
    }
    Flow::one(Event::Read {
        object: 2 * array as u64 + 1,
        nodes: s.all,
        rule: 3,
        at,
    })
}

// An element of an array over a template.
fn spread_events(
    alloc: Global,
    s: &Around,
    array: u32,
    template: u32,
    map: &ArrayMap,
    subscripts: &[Expr],
    at: Place,
) -> Flow
    requires { KnowsAll s.now }
    ensures { plan_of result ≡ spread_events (setting_of s.now) array template map.now subscripts.now at (setting_of s.now).over }
{
    match s.over {
        Some(d) => {
            if template == d.template {
                let reach = offsets_of(d, map, subscripts);
                offset_events(alloc, s, array, at, reach)
            } else {
                wrong(2, at)
            }
        }
        None => wrong(2, at),
    }
}

/// An element is read.
pub fn element_read(alloc: Global, s: &Around, array: u32, subscripts: &[Expr], at: Place) -> Flow
    requires { KnowsAll s.now }
    ensures { plan_of result ≡ element_read (setting_of s.now) array subscripts.now at }
{
    match home_of(s, array) {
        Some(Home::Copy) => {
            if s.written.has(array) {
                return Flow::nothing(alloc);
            }
            Flow::one(Event::Read {
                object: 2 * array as u64 + 1,
                nodes: s.nodes,
                rule: 1,
                at,
            })
        }
        Some(Home::Spread(template, map)) => {
            if s.moving {
                return Flow::nothing(alloc);
            }
            spread_events(alloc, s, array, *template, map, subscripts, at)
        }
        _ => Flow::nothing(alloc),
    }
}

/// An element is written.
pub fn element_write(alloc: Global, s: &Around, array: u32, subscripts: &[Expr], at: Place) -> Flow
    requires { KnowsAll s.now }
    ensures { plan_of result ≡ element_write (setting_of s.now) array subscripts.now at }
{
    match home_of(s, array) {
        Some(Home::Copy) => {
            if s.over.is_some() {
                return wrong(6, at);
            }
            Flow::one(Event::Mark {
                object: 2 * array as u64 + 1,
                current: 0,
                stale: s.all ^ s.nodes,
            })
        }
        Some(Home::Spread(template, map)) => {
            spread_events(alloc, s, array, *template, map, subscripts, at)
        }
        _ => Flow::nothing(alloc),
    }
}

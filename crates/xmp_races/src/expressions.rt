// What happens where an expression is evaluated.
ghost use Rattle.std.specs.Prelude.{◌≡◌, ◌++◌, ◌∷◌, [], map, OnOk, IfOk, true, false};
ghost use Rattle.xmp_paths.specs.Plans.{skip, branch};
ghost use Rattle.xmp_spots.specs.Courses.{in_sequence, plan_of};
ghost use Rattle.xmp_races.specs.Setting.{where_chosen, wrong_where};
ghost use Rattle.xmp_races.specs.Accesses.{access_events, events_of, events_of_all, parts_of};
ghost use Rattle.xmp_races.specs.Views.{setting_of};

use crate::access::access_events;
use crate::guards::counts_where;
use crate::rules::wrong_where;
use crate::setting::Site;
use sqlite_items::Items;
use std::alloc::Global;
use xmp_base::{NoMemory, Place};
use xmp_loops::flag;
use xmp_prog::{Access, Expr};
use xmp_spots::Course;

/// What happens in an expression.
#[cycle(events)]
pub fn events(alloc: Global, s: &Site<'_>, e: &Expr) -> Result<Course, NoMemory>
    ensures { IfOk result (λ course. plan_of course ≡ events_of e.now (setting_of s.now)) }
{
    match e {
        Expr::Const(_, _) | Expr::Scalar(_, _) | Expr::Node | Expr::Nodes => {
            Ok(Course::nothing(alloc))
        }
        Expr::Cell(access) => events_of_cell(alloc, s, access),
        Expr::Binary(_, _, a, b, _) => events_of_two(alloc, s, a.get(), b.get()),
        Expr::Both(a, b) | Expr::Either(a, b) => events_with_more(alloc, s, a.get(), b.get()),
        Expr::Choose(a, b, c) => events_of_choice(alloc, s, a.get(), b.get(), c.get()),
        Expr::Convert(_, a) => events(alloc, s, a.get()),
        Expr::Call(function, arguments, at) => {
            events_of_call(alloc, s, arguments.as_slice(), *function, *at)
        }
    }
}

// What happens in two expressions.
#[cycle(events)]
fn events_of_two(alloc: Global, s: &Site<'_>, a: &Expr, b: &Expr) -> Result<Course, NoMemory>
    ensures { IfOk result (λ course. plan_of course
        ≡ in_sequence (events_of a.now (setting_of s.now) ∷ events_of b.now (setting_of s.now) ∷ [])) }
{
    let first = events(alloc, s, a)?;
    match events(alloc, s, b) {
        Ok(second) => both(alloc, first, second),
        Err(e) => {
            std::mem::drop(first);
            Err(e)
        }
    }
}

// What happens in an expression, or nothing.
#[cycle(events)]
fn events_or_none(alloc: Global, s: &Site<'_>, a: &Expr) -> Result<Course, NoMemory>
    ensures { IfOk result (λ course. plan_of course ≡ branch (events_of a.now (setting_of s.now)) skip) }
{
    let events = events(alloc, s, a)?;
    either(alloc, events, Course::nothing(alloc))
}

// What happens in an expression, and then in another or nothing.
#[cycle(events)]
fn events_with_more(alloc: Global, s: &Site<'_>, a: &Expr, b: &Expr) -> Result<Course, NoMemory>
    ensures { IfOk result (λ course. plan_of course
        ≡ in_sequence (events_of a.now (setting_of s.now) ∷ branch (events_of b.now (setting_of s.now)) skip ∷ [])) }
{
    let first = events(alloc, s, a)?;
    match events_or_none(alloc, s, b) {
        Ok(more) => both(alloc, first, more),
        Err(e) => {
            std::mem::drop(first);
            Err(e)
        }
    }
}

// What happens in a condition, and then in either of two expressions.
#[cycle(events)]
fn events_of_choice(
    alloc: Global,
    s: &Site<'_>,
    test: &Expr,
    a: &Expr,
    b: &Expr,
) -> Result<Course, NoMemory>
    ensures { IfOk result (λ course. plan_of course
        ≡ in_sequence (events_of test.now (setting_of s.now)
        ∷ branch (events_of a.now (where_chosen (setting_of s.now) test.now true)) (events_of b.now (where_chosen (setting_of s.now) test.now false)) ∷ [])) }
{
    let first = events(alloc, s, test)?;
    match events_of_either(alloc, s, test, a, b) {
        Ok(either) => both(alloc, first, either),
        Err(e) => {
            std::mem::drop(first);
            Err(e)
        }
    }
}

// What happens in an expression where a condition holds, or in another where it fails.
#[cycle(events)]
fn events_of_either(
    alloc: Global,
    s: &Site<'_>,
    test: &Expr,
    a: &Expr,
    b: &Expr,
) -> Result<Course, NoMemory>
    ensures { IfOk result (λ course. plan_of course
        ≡ branch (events_of a.now (where_chosen (setting_of s.now) test.now true)) (events_of b.now (where_chosen (setting_of s.now) test.now false))) }
{
    let left = events_where(alloc, s, a, test, true)?;
    match events_where(alloc, s, b, test, false) {
        Ok(right) => either(alloc, left, right),
        Err(e) => {
            std::mem::drop(left);
            Err(e)
        }
    }
}

// What happens in an expression where a condition holds, or where it fails.
#[cycle(events)]
fn events_where(
    alloc: Global,
    s: &Site<'_>,
    e: &Expr,
    test: &Expr,
    holding: bool,
) -> Result<Course, NoMemory>
    ensures { IfOk result (λ course. plan_of course ≡ events_of e.now (where_chosen (setting_of s.now) test.now holding)) }
{
    let counts = counts_where(alloc, s, test, holding)?;
    let inner = Site {
        program: s.program,
        count: s.count,
        values: s.values,
        looping: s.looping,
        counts: counts.as_slice(),
        loops: s.loops,
    };
    events(alloc, &inner, e)
}

/// What happens in the arguments of a call, and what is wrong with the call.
#[cycle(events)]
pub fn events_of_call(
    alloc: Global,
    s: &Site<'_>,
    arguments: &[Expr],
    function: u32,
    at: Place,
) -> Result<Course, NoMemory>
    ensures { IfOk result (λ course. plan_of course
        ≡ in_sequence (events_of_all arguments.now (setting_of s.now) ++ wrong_where ((setting_of s.now).looping function) 4 at ∷ [])) }
{
    let parts = events_of_each(alloc, s, arguments)?;
    with(parts, wrong_where(alloc, flag(s.looping, function), 4, at))
}

// An element that is read: what happens in its parts, and then its own.
#[cycle(events)]
fn events_of_cell(alloc: Global, s: &Site<'_>, a: &Access) -> Result<Course, NoMemory>
    ensures { IfOk result (λ course. plan_of course
        ≡ in_sequence (parts_of a.now (setting_of s.now) ++ access_events (setting_of s.now) false a.now)) }
{
    let mut parts = events_of_parts(alloc, s, a)?;
    match access_events(alloc, s, false, a, &mut parts) {
        Ok(()) => Ok(Course::all(parts)),
        Err(e) => {
            std::mem::drop(parts);
            Err(e)
        }
    }
}

/// What happens in the subscripts and the image of an element.
#[cycle(events)]
pub fn events_of_parts(alloc: Global, s: &Site<'_>, a: &Access) -> Result<Items<Course>, NoMemory>
    ensures { IfOk result (λ parts. map plan_of parts ≡ parts_of a.now (setting_of s.now)) }
{
    let parts = events_of_each(alloc, s, a.subscripts.as_slice())?;
    match &a.image {
        None => Ok(parts),
        Some(e) => match events(alloc, s, e.get()) {
            Ok(image) => one_more(parts, image),
            Err(e) => {
                std::mem::drop(parts);
                Err(e)
            }
        },
    }
}

// Parts, with one more behind them.
fn one_more(mut parts: Items<Course>, last: Course) -> Result<Items<Course>, NoMemory>
    ensures { IfOk result (λ all. map plan_of all ≡ map plan_of parts ++ plan_of last ∷ []) }
{
    parts.push(last)?;
    Ok(parts)
}

/// What happens in expressions, one by one.
#[cycle(events)]
pub fn events_of_each(alloc: Global, s: &Site<'_>, es: &[Expr]) -> Result<Items<Course>, NoMemory>
    ensures { IfOk result (λ parts. map plan_of parts ≡ events_of_all es.now (setting_of s.now)) }
{
    let mut parts = Items::new(alloc);
    'items: for e in es {
        let part = events(alloc, s, e)?;
        parts.push(part)?;
    }
    Ok(parts)
}

/// Parts in order, with one more behind them.
pub fn with(mut parts: Items<Course>, last: Course) -> Result<Course, NoMemory>
    ensures { IfOk result (λ course. plan_of course ≡ in_sequence (map plan_of parts ++ plan_of last ∷ [])) }
{
    parts.push(last)?;
    Ok(Course::all(parts))
}

/// Two parts in order.
pub fn both(alloc: Global, first: Course, second: Course) -> Result<Course, NoMemory>
    ensures { IfOk result (λ course. plan_of course ≡ in_sequence (plan_of first ∷ plan_of second ∷ [])) }
{
    match Course::both(alloc, first, second) {
        Ok(course) => Ok(course),
        Err(_) => Err(NoMemory),
    }
}

/// Either of two parts.
pub fn either(alloc: Global, left: Course, right: Course) -> Result<Course, NoMemory>
    ensures { IfOk result (λ course. plan_of course ≡ branch (plan_of left) (plan_of right)) }
{
    match Course::either(alloc, left, right) {
        Ok(course) => Ok(course),
        Err(_) => Err(NoMemory),
    }
}

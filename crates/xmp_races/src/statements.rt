// What happens in every statement.
ghost use Rattle.std.specs.Prelude.{◌≡◌, ◌++◌, ◌∷◌, [], map, OnOk, IfOk, true, false};
ghost use Rattle.xmp_paths.specs.Plans.{Plan, branch, emit, loop};
ghost use Rattle.xmp_spots.specs.Courses.{in_sequence, plan_of};
ghost use Rattle.xmp_spots.specs.declared.events.Event.TheVariants.{Wrong};
ghost use Rattle.xmp_races.specs.Setting.{where_chosen, within};
ghost use Rattle.xmp_races.specs.Accesses.{events_of};
ghost use Rattle.xmp_races.specs.Statements.{counted_events, directive_events, happens, in_nest, nest_bounds, while_events};
ghost use Rattle.xmp_races.specs.Views.{setting_of};

use crate::expressions::{both, either, events, with};
use crate::guards::counts_where;
use crate::loops::{copies_of, loops_in};
use crate::plain::plain_events;
use crate::rules::wrong;
use crate::setting::{LoopImages, Site};
use sqlite_items::Items;
use std::alloc::Global;
use xmp_base::{NoMemory, Place};
use xmp_prog::{Expr, LoopDirective, LoopHead, Stmt, Task};
use xmp_spots::{Course, image_values};

// A part any number of times.
fn turns(alloc: Global, turn: Course) -> Result<Course, NoMemory>
    ensures { IfOk result (λ course. plan_of course ≡ loop (plan_of turn)) }
{
    match Course::turns(alloc, turn) {
        Ok(course) => Ok(course),
        Err(_) => Err(NoMemory),
    }
}

// The turns of a loop in whose turns this happens, behind an expression.
fn turns_of(alloc: Global, s: &Site<'_>, test: &Expr, turn: Course) -> Result<Course, NoMemory>
    ensures { IfOk result (λ course. plan_of course
        ≡ loop (in_sequence (events_of test.now (setting_of s.now) ∷ plan_of turn ∷ []))) }
{
    match events(alloc, s, test) {
        Ok(first) => {
            let turn = both(alloc, first, turn)?;
            turns(alloc, turn)
        }
        Err(e) => {
            std::mem::drop(turn);
            Err(e)
        }
    }
}

// A first part, these turns, and what happens in an expression.
fn round(
    alloc: Global,
    s: &Site<'_>,
    first: Course,
    turns: Course,
    last: &Expr,
) -> Result<Course, NoMemory>
    ensures { IfOk result (λ course. plan_of course
        ≡ in_sequence (plan_of first ∷ plan_of turns ∷ events_of last.now (setting_of s.now) ∷ [])) }
{
    let mut parts = Items::new(alloc);
    match parts.push(first) {
        Ok(()) => parts.push(turns)?,
        Err(_) => {
            std::mem::drop(turns);
            return Err(NoMemory);
        }
    }
    match events(alloc, s, last) {
        Ok(last) => with(parts, last),
        Err(e) => {
            std::mem::drop(parts);
            Err(e)
        }
    }
}

// An uncounted loop in whose turns this happens.
fn while_events(
    alloc: Global,
    s: &Site<'_>,
    test: &Expr,
    turn: Course,
    at: Place,
) -> Result<Course, NoMemory>
    ensures { IfOk result (λ course. plan_of course ≡ while_events test.now (plan_of turn) at (setting_of s.now)) }
{
    let turns = turns_of(alloc, s, test, turn)?;
    round(alloc, s, wrong(4, at), turns, test)
}

// A counted loop in whose turns this happens.
fn counted_events(
    alloc: Global,
    s: &Site<'_>,
    h: &LoopHead,
    turn: Course,
) -> Result<Course, NoMemory>
    ensures { IfOk result (λ course. plan_of course ≡ counted_events h.now (plan_of turn) (setting_of s.now)) }
{
    let turns = turns_of(alloc, s, &h.to, turn)?;
    match events(alloc, s, &h.from) {
        Ok(first) => round(alloc, s, first, turns, &h.to),
        Err(e) => {
            std::mem::drop(turns);
            Err(e)
        }
    }
}

// The loops round the body of a counted loop.
fn loops_within(
    alloc: Global,
    s: &Site<'_>,
    loops: &[LoopImages],
    h: &LoopHead,
) -> Result<Items<LoopImages>, NoMemory>
    ensures { IfOk result (λ all. all ≡ (within (record (setting_of s.now) { loops = loops.now }) h.now).loops) }
{
    let from = image_values(alloc, s.count, s.values, &h.from)?;
    let to = image_values(alloc, s.count, s.values, &h.to)?;
    loops_in(alloc, loops, h, &from, &to)
}

// Adds what happens in the bounds of a loop.
fn add_bounds(
    alloc: Global,
    s: &Site<'_>,
    h: &LoopHead,
    parts: &mut Items<Course>,
) -> Result<(), NoMemory>
    ensures { OnOk result (map plan_of parts.new ≡ map plan_of parts.old
        ++ events_of h.now.from (setting_of s.now) ∷ events_of h.now.to (setting_of s.now) ∷ []) }
{
    let from = events(alloc, s, &h.from)?;
    parts.push(from)?;
    let to = events(alloc, s, &h.to)?;
    parts.push(to)?;
    Ok(())
}

// Adds what happens in the bounds of a nest, and gives the loops round its body.
#[tactic(auto, using(crate::proofs::NestLaws::bounds_next, crate::proofs::NestLaws::in_next))]
fn nest_bounds(
    alloc: Global,
    s: &Site<'_>,
    nest: &[LoopHead],
    parts: &mut Items<Course>,
) -> Result<Items<LoopImages>, NoMemory>
    ensures bounds { OnOk result (map plan_of parts.new ≡ map plan_of parts.old ++ nest_bounds (setting_of s.now) nest.now) }
    ensures loops { IfOk result (λ loops. record (setting_of s.now) { loops = loops } ≡ in_nest (setting_of s.now) nest.now) }
{
    let mut loops = copies_of(alloc, s.loops)?;
    'heads: for h in nest {
        let here = Site {
            program: s.program,
            count: s.count,
            values: s.values,
            looping: s.looping,
            counts: s.counts,
            loops: loops.as_slice(),
        };
        add_bounds(alloc, &here, h, parts)?;
        loops = loops_within(alloc, s, loops.as_slice(), h)?;
    }
    Ok(loops)
}

// The events of a directive whose bounds and whose body are these.
fn directive_events(
    alloc: Global,
    d: &LoopDirective,
    bounds: Items<Course>,
    body: Course,
) -> Result<Course, NoMemory>
    ensures { IfOk result (λ course. plan_of course
        ≡ in_sequence (emit (Wrong 5 d.now.at) ∷ loop (in_sequence (map plan_of bounds ++ plan_of body ∷ [])) ∷ [])) }
{
    let turn = with(bounds, body)?;
    let turns = turns(alloc, turn)?;
    both(alloc, wrong(5, d.at), turns)
}

// One part, and then either of two.
fn choice(alloc: Global, first: Course, left: Course, right: Course) -> Result<Course, NoMemory>
    ensures { IfOk result (λ course. plan_of course
        ≡ in_sequence (plan_of first ∷ branch (plan_of left) (plan_of right) ∷ [])) }
{
    match either(alloc, left, right) {
        Ok(either) => both(alloc, first, either),
        Err(e) => {
            std::mem::drop(first);
            Err(e)
        }
    }
}

// An `if` whose parts have these events.
fn if_events(
    alloc: Global,
    s: &Site<'_>,
    test: &Expr,
    left: Course,
    right: Course,
) -> Result<Course, NoMemory>
    ensures { IfOk result (λ course. plan_of course
        ≡ in_sequence (events_of test.now (setting_of s.now) ∷ branch (plan_of left) (plan_of right) ∷ [])) }
{
    match events(alloc, s, test) {
        Ok(first) => choice(alloc, first, left, right),
        Err(e) => {
            std::mem::drop(left);
            std::mem::drop(right);
            Err(e)
        }
    }
}

/// What happens in a statement where it stands.
#[cycle(happens)]
pub fn happens(alloc: Global, s: &Site<'_>, x: &Stmt) -> Result<Course, NoMemory>
    ensures { IfOk result (λ course. plan_of course ≡ happens x.now (setting_of s.now)) }
{
    match x {
        Stmt::Plain(p) => plain_events(alloc, s, p),
        Stmt::Block(all) => block_events(alloc, s, all.as_slice()),
        Stmt::If(test, a, b) => happens_in_if(alloc, s, test, a.get(), b.get()),
        Stmt::While(test, body, at) => happens_in_while(alloc, s, test, body.get(), *at),
        Stmt::Counted(head, body) => happens_in_counted(alloc, s, head, body.get()),
        Stmt::Loop(d, body) => happens_in_nest(alloc, s, body.get(), d),
        Stmt::Tasks(all, at) => tasks_events(alloc, s, all.as_slice(), *at),
    }
}

// What happens in an `if`.
#[cycle(happens)]
fn happens_in_if(
    alloc: Global,
    s: &Site<'_>,
    test: &Expr,
    a: &Stmt,
    b: &Stmt,
) -> Result<Course, NoMemory>
    ensures { IfOk result (λ course. plan_of course ≡ in_sequence (events_of test.now (setting_of s.now)
        ∷ branch (happens a.now (where_chosen (setting_of s.now) test.now true)) (happens b.now (where_chosen (setting_of s.now) test.now false)) ∷ [])) }
{
    let left = happens_where(alloc, s, a, test, true)?;
    match happens_where(alloc, s, b, test, false) {
        Ok(right) => if_events(alloc, s, test, left, right),
        Err(e) => {
            std::mem::drop(left);
            Err(e)
        }
    }
}

// What happens in an uncounted loop.
#[cycle(happens)]
fn happens_in_while(
    alloc: Global,
    s: &Site<'_>,
    test: &Expr,
    body: &Stmt,
    at: Place,
) -> Result<Course, NoMemory>
    ensures { IfOk result (λ course. plan_of course ≡ while_events test.now (happens body.now (setting_of s.now)) at (setting_of s.now)) }
{
    let turn = happens(alloc, s, body)?;
    while_events(alloc, s, test, turn, at)
}

// What happens in a counted loop.
#[cycle(happens)]
fn happens_in_counted(
    alloc: Global,
    s: &Site<'_>,
    h: &LoopHead,
    body: &Stmt,
) -> Result<Course, NoMemory>
    ensures { IfOk result (λ course. plan_of course ≡ counted_events h.now (happens body.now (within (setting_of s.now) h.now)) (setting_of s.now)) }
{
    let turn = happens_within(alloc, s, body, h)?;
    counted_events(alloc, s, h, turn)
}

// What happens in a statement where a condition holds, or where it fails.
#[cycle(happens)]
fn happens_where(
    alloc: Global,
    s: &Site<'_>,
    x: &Stmt,
    test: &Expr,
    holding: bool,
) -> Result<Course, NoMemory>
    ensures { IfOk result (λ course. plan_of course ≡ happens x.now (where_chosen (setting_of s.now) test.now holding)) }
{
    let counts = counts_where(alloc, s, test, holding)?;
    let inner = Site {
        program: s.program,
        count: s.count,
        values: s.values,
        looping: s.looping,
        counts: counts.as_slice(),
        loops: s.loops,
    };
    happens(alloc, &inner, x)
}

// What happens in the body of a counted loop.
#[cycle(happens)]
fn happens_within(alloc: Global, s: &Site<'_>, x: &Stmt, h: &LoopHead) -> Result<Course, NoMemory>
    ensures { IfOk result (λ course. plan_of course ≡ happens x.now (within (setting_of s.now) h.now)) }
{
    let loops = loops_within(alloc, s, s.loops, h)?;
    let inner = Site {
        program: s.program,
        count: s.count,
        values: s.values,
        looping: s.looping,
        counts: s.counts,
        loops: loops.as_slice(),
    };
    happens(alloc, &inner, x)
}

// What happens in a loop directive round this body.
#[cycle(happens)]
fn happens_in_nest(
    alloc: Global,
    s: &Site<'_>,
    x: &Stmt,
    d: &LoopDirective,
) -> Result<Course, NoMemory>
    ensures { IfOk result (λ course. plan_of course ≡ directive_events d.now (happens x.now) (setting_of s.now)) }
{
    let mut bounds = Items::new(alloc);
    let loops = match nest_bounds(alloc, s, d.nest.as_slice(), &mut bounds) {
        Ok(loops) => loops,
        Err(e) => {
            std::mem::drop(bounds);
            return Err(e);
        }
    };
    let inner = Site {
        program: s.program,
        count: s.count,
        values: s.values,
        looping: s.looping,
        counts: s.counts,
        loops: loops.as_slice(),
    };
    match happens(alloc, &inner, x) {
        Ok(body) => directive_events(alloc, d, bounds, body),
        Err(e) => {
            std::mem::drop(bounds);
            Err(e)
        }
    }
}

#[cycle(happens)]
fn block_events(alloc: Global, s: &Site<'_>, all: &[Stmt]) -> Result<Course, NoMemory>
    ensures { IfOk result (λ course. plan_of course ≡ in_sequence (map (λ x. happens x (setting_of s.now)) all.now)) }
{
    let mut parts = Items::new(alloc);
    'items: for x in all {
        let part = happens(alloc, s, x)?;
        parts.push(part)?;
    }
    Ok(Course::all(parts))
}

// What happens in a task.
#[cycle(happens)]
fn task_events(alloc: Global, s: &Site<'_>, t: &Task) -> Result<Course, NoMemory>
    ensures { IfOk result (λ course. plan_of course
        ≡ in_sequence (emit (Wrong 5 t.now.at) ∷ happens t.now.body (setting_of s.now) ∷ [])) }
{
    let body = happens(alloc, s, &t.body)?;
    both(alloc, wrong(5, t.at), body)
}

#[cycle(happens)]
fn tasks_events(alloc: Global, s: &Site<'_>, all: &[Task], at: Place) -> Result<Course, NoMemory>
    ensures { IfOk result (λ course. plan_of course ≡ in_sequence (emit (Wrong 5 at)
        ∷ map (λ t. in_sequence (emit (Wrong 5 t.at) ∷ happens t.body (setting_of s.now) ∷ [])) all.now)) }
{
    let mut parts = Items::new(alloc);
    parts.push(wrong(5, at))?;
    'items: for t in all {
        let part = task_events(alloc, s, t)?;
        parts.push(part)?;
    }
    Ok(Course::all(parts))
}

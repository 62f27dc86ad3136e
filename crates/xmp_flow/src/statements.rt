// The events of every statement.
ghost use Rattle.std.specs.Prelude.{◌≡◌, ◌++◌, ◌∷◌, [], map, IfOk, Some};
ghost use Rattle.std.specs.Option.{option_map};
ghost use Rattle.xmp_paths.specs.Plans.{branch, in_order, loop};
ghost use Rattle.xmp_paths.specs.Flows.{plan_of};
ghost use Rattle.xmp_prog.specs.declared.statements.Stmt.{out-Stmt};
ghost use Rattle.xmp_flow.specs.Setting.{assigned, in_task, is_reduced, wrong_where};
ghost use Rattle.xmp_loops.specs.Forms.{is_nothing};
ghost use Rattle.xmp_flow.specs.Reads.{reads_of};
ghost use Rattle.xmp_flow.specs.PlainEvents.{in_form};
ghost use Rattle.xmp_flow.specs.LoopEvents.{loop_events};
ghost use Rattle.xmp_flow.specs.Statements.{counted_events, events_of, form_of_if, if_form, while_events};
ghost use Rattle.xmp_flow.specs.Ready.{IsReady};
ghost use Rattle.xmp_flow.specs.Views.{KnowsAll, setting_of};
ghost use Rattle.xmp_loops.specs.Views.{read_by};

use crate::expressions::{reads, with};
use crate::plain::{form_reads, plain_events};
use crate::ready::{Ready, around, make_ready};
use crate::scalars::{assigned, wrong_where};
use crate::setting::Around;
use sqlite_items::Items;
use std::alloc::{AllocError, Global};
use xmp_base::Place;
use xmp_loops::{Form, Role, guarded_form, nodes_in};
use xmp_paths::Flow;
use xmp_prog::{Expr, LoopDirective, LoopHead, Plain, Stmt, Target, Task};

// Whether a statement is an empty block.
fn is_nothing(x: &Stmt) -> bool
    ensures { result ≡ is_nothing (out-Stmt x.now) }
{
    match x {
        Stmt::Block(all) => all.is_empty(),
        _ => false,
    }
}

// The form of an assignment `v = x;` under the condition.
fn form_of_assignment<'a>(s: &Around, test: &'a Expr, v: u32, x: &'a Expr) -> Form<'a>
    ensures { read_by result ≡ form_of_if (setting_of s.now) test.now (Some (v, x.now)) }
{
    match s.roles.at(v) {
        Role::Reduced(r) => guarded_form(s.program, v, r, test, x),
        _ => Form::Beside,
    }
}

// The form of an `if`.
fn if_form<'a>(s: &Around, test: &'a Expr, a: &'a Stmt, b: &Stmt) -> Form<'a>
    ensures { read_by result ≡ if_form (setting_of s.now) test.now a.now b.now }
{
    if !is_nothing(b) {
        return Form::Beside;
    }
    match a {
        Stmt::Plain(
            Plain::Set {
                target: Target::Scalar(v, _),
                compound: None,
                value,
            },
        ) => form_of_assignment(s, test, *v, value),
        _ => Form::Beside,
    }
}

// The condition of an `if`, and then either part.
fn choice(alloc: Global, first: Flow, left: Flow, right: Flow) -> Result<Flow, AllocError>
    ensures { IfOk result (λ flow. plan_of flow ≡ in_order (plan_of first ∷ branch (plan_of left) (plan_of right) ∷ [])) }
{
    let either = Flow::either(alloc, left, right)?;
    Flow::both(alloc, first, either)
}

// An `if` whose parts have these events: it may be a reduction form.
fn if_events(
    alloc: Global,
    s: &Around,
    test: &Expr,
    form: Form<'_>,
    left: Flow,
    right: Flow,
) -> Result<Flow, AllocError>
    requires { KnowsAll s.now }
    ensures { IfOk result (λ flow. plan_of flow ≡ in_form (setting_of s.now)
        (in_order (reads_of test.now (setting_of s.now) ∷ branch (plan_of left) (plan_of right) ∷ [])) (read_by form.entry)) }
{
    let whole = match reads(alloc, s, test) {
        Ok(first) => choice(alloc, first, left, right)?,
        Err(e) => {
            std::mem::drop(left);
            std::mem::drop(right);
            return Err(e);
        }
    };
    match form_reads(alloc, s, form) {
        Ok(Some(flow)) => {
            std::mem::drop(whole);
            Ok(flow)
        }
        Ok(None) => Ok(whole),
        Err(e) => {
            std::mem::drop(whole);
            Err(e)
        }
    }
}

// The turns of an uncounted loop whose body has these events.
fn while_turns(alloc: Global, s: &Around, test: &Expr, body: Flow) -> Result<Flow, AllocError>
    requires { KnowsAll s.now }
    ensures { IfOk result (λ flow. plan_of flow ≡ loop (in_order (reads_of test.now (setting_of s.now) ∷ plan_of body ∷ []))) }
{
    match reads(alloc, s, test) {
        Ok(first) => {
            let turn = Flow::both(alloc, first, body)?;
            Flow::turns(alloc, turn)
        }
        Err(e) => {
            std::mem::drop(body);
            Err(e)
        }
    }
}

// An uncounted loop whose body has these events.
fn while_events(
    alloc: Global,
    s: &Around,
    test: &Expr,
    body: Flow,
    at: Place,
) -> Result<Flow, AllocError>
    requires { KnowsAll s.now }
    ensures { IfOk result (λ flow. plan_of flow ≡ while_events test.now (λ s. plan_of body) at (setting_of s.now)) }
{
    let turns = while_turns(alloc, s, test, body)?;
    let mut parts = Items::new(alloc);
    match parts.push(wrong_where(alloc, s.inside, 9, at)) {
        Ok(()) => parts.push(turns)?,
        Err(e) => {
            std::mem::drop(turns);
            return Err(e);
        }
    }
    let last = reads(alloc, s, test)?;
    with(parts, last)
}

// Parts in order, and two more behind them.
fn with_two(mut parts: Items<Flow>, second: Flow, last: Flow) -> Result<Flow, AllocError>
    ensures { IfOk result (λ flow. plan_of flow ≡ in_order (map plan_of parts ++ plan_of second ∷ plan_of last ∷ [])) }
{
    match parts.push(second) {
        Ok(()) => with(parts, last),
        Err(e) => {
            std::mem::drop(last);
            Err(e)
        }
    }
}

// Three parts in order.
fn three(alloc: Global, first: Flow, second: Flow, last: Flow) -> Result<Flow, AllocError>
    ensures { IfOk result (λ flow. plan_of flow ≡ in_order (plan_of first ∷ plan_of second ∷ plan_of last ∷ [])) }
{
    let mut parts = Items::new(alloc);
    match parts.push(first) {
        Ok(()) => with_two(parts, second, last),
        Err(e) => {
            std::mem::drop(second);
            std::mem::drop(last);
            Err(e)
        }
    }
}

// A turn of a counted loop whose body has these events.
fn counted_turn(alloc: Global, s: &Around, head: &LoopHead, body: Flow) -> Result<Flow, AllocError>
    requires { KnowsAll s.now }
    ensures { IfOk result (λ flow. plan_of flow ≡ in_order (reads_of head.now.to (setting_of s.now)
        ∷ plan_of body ∷ assigned (setting_of s.now) head.now.index.number ∷ [])) }
{
    match reads(alloc, s, &head.to) {
        Ok(to) => three(alloc, to, body, assigned(s, head.index.number)),
        Err(e) => {
            std::mem::drop(body);
            Err(e)
        }
    }
}

// What stands before the turns of a counted loop.
fn counted_head(alloc: Global, s: &Around, head: &LoopHead) -> Result<Items<Flow>, AllocError>
    requires { KnowsAll s.now }
    ensures { IfOk result (λ parts. map plan_of parts
        ≡ wrong_where (is_reduced ((setting_of s.now).roles head.now.index.number)) 5 head.now.index.at
        ∷ reads_of head.now.from (setting_of s.now) ∷ assigned (setting_of s.now) head.now.index.number ∷ []) }
{
    let mut parts = Items::new(alloc);
    let reduced = matches!(s.roles.at(head.index.number), Role::Reduced(_));
    parts.push(wrong_where(alloc, reduced, 5, head.index.at))?;
    let from = reads(alloc, s, &head.from)?;
    parts.push(from)?;
    parts.push(assigned(s, head.index.number))?;
    Ok(parts)
}

// A counted loop with these turns.
fn counted_round(
    alloc: Global,
    s: &Around,
    head: &LoopHead,
    turns: Flow,
) -> Result<Flow, AllocError>
    requires { KnowsAll s.now }
    ensures { IfOk result (λ flow. plan_of flow
        ≡ in_order (wrong_where (is_reduced ((setting_of s.now).roles head.now.index.number)) 5 head.now.index.at
        ∷ reads_of head.now.from (setting_of s.now) ∷ assigned (setting_of s.now) head.now.index.number
        ∷ plan_of turns ∷ reads_of head.now.to (setting_of s.now) ∷ [])) }
{
    let mut parts = match counted_head(alloc, s, head) {
        Ok(parts) => parts,
        Err(e) => {
            std::mem::drop(turns);
            return Err(e);
        }
    };
    parts.push(turns)?;
    let to = reads(alloc, s, &head.to)?;
    with(parts, to)
}

// A counted loop whose body has these events.
fn counted_events(
    alloc: Global,
    s: &Around,
    head: &LoopHead,
    body: Flow,
) -> Result<Flow, AllocError>
    requires { KnowsAll s.now }
    ensures { IfOk result (λ flow. plan_of flow ≡ counted_events head.now (λ s. plan_of body) (setting_of s.now)) }
{
    let turn = counted_turn(alloc, s, head, body)?;
    let turns = Flow::turns(alloc, turn)?;
    counted_round(alloc, s, head, turns)
}

/// The events of a statement where it stands.
#[cycle(events)]
pub fn events(alloc: Global, s: &Around, x: &Stmt) -> Result<Flow, AllocError>
    requires { KnowsAll s.now }
    ensures { IfOk result (λ flow. plan_of flow ≡ events_of x.now (setting_of s.now)) }
{
    match x {
        Stmt::Plain(p) => plain_events(alloc, s, p),
        Stmt::Block(all) => block_events(alloc, s, all.as_slice()),
        Stmt::If(test, a, b) => events_of_if(alloc, s, test, a.get(), b.get()),
        Stmt::While(test, body, at) => events_of_while(alloc, s, test, body.get(), *at),
        Stmt::Counted(head, body) => events_of_counted(alloc, s, head, body.get()),
        Stmt::Loop(d, body) => directive_events(alloc, s, d, body.get()),
        Stmt::Tasks(all, at) => tasks_events(alloc, s, all.as_slice(), *at),
    }
}

// The events of an `if`.
#[cycle(events)]
fn events_of_if(
    alloc: Global,
    s: &Around,
    test: &Expr,
    a: &Stmt,
    b: &Stmt,
) -> Result<Flow, AllocError>
    requires { KnowsAll s.now }
    ensures { IfOk result (λ flow. plan_of flow ≡ in_form (setting_of s.now)
        (in_order (reads_of test.now (setting_of s.now) ∷ branch (events_of a.now (setting_of s.now)) (events_of b.now (setting_of s.now)) ∷ []))
        (if_form (setting_of s.now) test.now a.now b.now)) }
{
    let left = events(alloc, s, a)?;
    match events(alloc, s, b) {
        Ok(right) => if_events(alloc, s, test, if_form(s, test, a, b), left, right),
        Err(e) => {
            std::mem::drop(left);
            Err(e)
        }
    }
}

// The events of an uncounted loop.
#[cycle(events)]
fn events_of_while(
    alloc: Global,
    s: &Around,
    test: &Expr,
    body: &Stmt,
    at: Place,
) -> Result<Flow, AllocError>
    requires { KnowsAll s.now }
    ensures { IfOk result (λ flow. plan_of flow ≡ while_events test.now (events_of body.now) at (setting_of s.now)) }
{
    let turn = events(alloc, s, body)?;
    while_events(alloc, s, test, turn, at)
}

// The events of a counted loop.
#[cycle(events)]
fn events_of_counted(
    alloc: Global,
    s: &Around,
    head: &LoopHead,
    body: &Stmt,
) -> Result<Flow, AllocError>
    requires { KnowsAll s.now }
    ensures { IfOk result (λ flow. plan_of flow ≡ counted_events head.now (events_of body.now) (setting_of s.now)) }
{
    let turn = events(alloc, s, body)?;
    counted_events(alloc, s, head, turn)
}

#[cycle(events)]
fn block_events(alloc: Global, s: &Around, all: &[Stmt]) -> Result<Flow, AllocError>
    requires { KnowsAll s.now }
    ensures { IfOk result (λ flow. plan_of flow ≡ in_order (map (λ x. events_of x (setting_of s.now)) all.now)) }
{
    let mut parts = Items::new(alloc);
    'items: for x in all {
        let part = events(alloc, s, x)?;
        parts.push(part)?;
    }
    Ok(Flow::all(parts))
}

#[cycle(events)]
fn directive_events(
    alloc: Global,
    s: &Around,
    d: &LoopDirective,
    body: &Stmt,
) -> Result<Flow, AllocError>
    requires { KnowsAll s.now }
    ensures { IfOk result (λ flow. plan_of flow ≡ loop_events d.now body.now (events_of body.now) (setting_of s.now)) }
{
    let ready = make_ready(alloc, d, body)?;
    let flow = events_ready(alloc, s, d, body, &ready);
    std::mem::drop(ready);
    flow
}

// The events of a loop directive for whose body this stands ready.
#[cycle(events)]
fn events_ready(
    alloc: Global,
    s: &Around,
    d: &LoopDirective,
    body: &Stmt,
    ready: &Ready,
) -> Result<Flow, AllocError>
    requires here { KnowsAll s.now }
    requires ready { IsReady ready.now d.now body.now }
    ensures { IfOk result (λ flow. plan_of flow ≡ loop_events d.now body.now (events_of body.now) (setting_of s.now)) }
{
    let bounds = Around {
        program: s.program,
        nodes: s.all,
        all: s.all,
        inside: true,
        over: Some(d),
        roles: &ready.before,
        written: &ready.written,
        loops: s.loops,
        moving: s.moving,
    };
    let inner = Around {
        roles: &ready.roles,
        ..bounds
    };
    let turn = events(alloc, &inner, body)?;
    around(alloc, s, &bounds, d, ready, turn)
}

#[cycle(events)]
fn task_events(alloc: Global, s: &Around, t: &Task) -> Result<Flow, AllocError>
    requires { KnowsAll s.now }
    ensures { IfOk result (λ flow. plan_of flow ≡ events_of t.now.body (in_task (setting_of s.now) t.now.nodes)) }
{
    let inner = Around {
        nodes: nodes_in(&s.program.grid, &t.nodes),
        inside: true,
        ..*s
    };
    events(alloc, &inner, &t.body)
}

#[cycle(events)]
fn tasks_events(alloc: Global, s: &Around, all: &[Task], at: Place) -> Result<Flow, AllocError>
    requires { KnowsAll s.now }
    ensures { IfOk result (λ flow. plan_of flow ≡ in_order (wrong_where (setting_of s.now).inside 10 at
        ∷ map (λ t. events_of t.body (in_task (setting_of s.now) t.nodes)) all.now)) }
{
    let mut parts = Items::new(alloc);
    parts.push(wrong_where(alloc, s.inside, 10, at))?;
    'items: for t in all {
        let part = task_events(alloc, s, t)?;
        parts.push(part)?;
    }
    Ok(Flow::all(parts))
}

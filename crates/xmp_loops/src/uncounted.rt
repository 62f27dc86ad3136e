// Which functions have a loop that isn't counted, or call one that has.
ghost use Rattle.std.specs.Prelude.{◌≡◌, [], IfOk};
ghost use Rattle.std.specs.List.{list_any, flat_map};
ghost use Rattle.xmp_prog.specs.Terms.{terms_of, terms_of_access, terms_of_list};
ghost use Rattle.xmp_prog.specs.Statements.{terms_of_head, terms_of_part, terms_of_plain, terms_of_side, terms_of_target};
ghost use Rattle.xmp_loops.specs.Tables.{flag_at};
ghost use Rattle.xmp_loops.specs.Loopers.{calls_looping, loopers_from, loops_in};

use crate::tables::flag;
use sqlite_items::Items;
use std::alloc::{AllocError, Global};
use xmp_prog::{Access, Expr, LoopHead, MoveSide, Part, Plain, ProgParts, Stmt, Target, Task};

// Whether an expression calls a function that loops.
#[cycle(calls)]
#[tactic(auto, using(crate::proofs::LoopingLaws::calls_of_call))]
fn calls(p: &ProgParts, loops: &[bool], e: &Expr) -> bool
    ensures { result ≡ list_any (calls_looping (flag_at loops.now)) (terms_of p.now e.now) }
{
    match e {
        Expr::Const(_, _) | Expr::Scalar(_, _) | Expr::Node | Expr::Nodes => false,
        Expr::Cell(a) => access_calls(p, loops, a),
        Expr::Binary(_, _, a, b, _) => calls(p, loops, a.get()) || calls(p, loops, b.get()),
        Expr::Both(a, b) => calls(p, loops, a.get()) || calls(p, loops, b.get()),
        Expr::Either(a, b) => calls(p, loops, a.get()) || calls(p, loops, b.get()),
        Expr::Choose(a, b, c) => {
            calls(p, loops, a.get()) || (calls(p, loops, b.get()) || calls(p, loops, c.get()))
        }
        Expr::Convert(_, a) => calls(p, loops, a.get()),
        Expr::Call(function, arguments, _) => {
            flag(loops, *function) || any_calls(p, loops, arguments.as_slice())
        }
    }
}

#[cycle(calls)]
#[tactic(auto, using(crate::proofs::LoopingLaws::calls_of_access))]
fn access_calls(p: &ProgParts, loops: &[bool], a: &Access) -> bool
    ensures { result ≡ list_any (calls_looping (flag_at loops.now)) (terms_of_access p.now a.now) }
{
    if any_calls(p, loops, a.subscripts.as_slice()) {
        return true;
    }
    match &a.image {
        Some(e) => calls(p, loops, e.get()),
        None => false,
    }
}

#[cycle(calls)]
#[tactic(auto, using(crate::proofs::LoopingLaws::any_more))]
fn any_calls(p: &ProgParts, loops: &[bool], es: &[Expr]) -> bool
    ensures { result ≡ list_any (calls_looping (flag_at loops.now)) (terms_of_list p.now es.now) }
{
    'items: for e in es {
        if calls(p, loops, e) {
            return true;
        }
    }
    false
}

fn part_calls(p: &ProgParts, loops: &[bool], part: &Part) -> bool
    ensures { result ≡ list_any (calls_looping (flag_at loops.now)) (terms_of_part p.now part.now) }
{
    match part {
        Part::One(n) => calls(p, loops, &n.value),
        Part::Many { base, length, step } => {
            calls(p, loops, &base.value)
                || (calls(p, loops, &length.value) || calls(p, loops, &step.value))
        }
    }
}

fn side_calls(p: &ProgParts, loops: &[bool], side: &MoveSide) -> bool
    ensures { result ≡ list_any (calls_looping (flag_at loops.now)) (terms_of_side p.now side.now) }
{
    match side {
        MoveSide::Scalar(_) => false,
        MoveSide::Array(_, parts) => parts_call(p, loops, parts.as_slice()),
    }
}

#[tactic(auto, using(crate::proofs::LoopingLaws::any_more))]
fn parts_call(p: &ProgParts, loops: &[bool], parts: &[Part]) -> bool
    ensures { result ≡ list_any (calls_looping (flag_at loops.now)) (flat_map (terms_of_part p.now) parts.now) }
{
    'items: for part in parts {
        if part_calls(p, loops, part) {
            return true;
        }
    }
    false
}

fn target_calls(p: &ProgParts, loops: &[bool], target: &Target) -> bool
    ensures { result ≡ list_any (calls_looping (flag_at loops.now)) (terms_of_target p.now target.now) }
{
    match target {
        Target::Scalar(_, _) => false,
        Target::Cell(a) => access_calls(p, loops, a),
    }
}

fn plain_calls(p: &ProgParts, loops: &[bool], plain: &Plain) -> bool
    ensures { result ≡ list_any (calls_looping (flag_at loops.now)) (terms_of_plain p.now plain.now) }
{
    match plain {
        Plain::Declare { value, .. } => match value {
            Some(e) => calls(p, loops, e),
            None => false,
        },
        Plain::Set { target, value, .. } => {
            target_calls(p, loops, target) || calls(p, loops, value)
        }
        Plain::Return(value) => calls(p, loops, value),
        Plain::Call {
            function,
            arguments,
            ..
        } => flag(loops, *function) || any_calls(p, loops, arguments.as_slice()),
        Plain::Print { arguments, .. } => any_calls(p, loops, arguments.as_slice()),
        Plain::Scan { target, .. } => target_calls(p, loops, target),
        Plain::Gmove { target, source, .. } => {
            side_calls(p, loops, target) || side_calls(p, loops, source)
        }
        _ => false,
    }
}

fn head_calls(p: &ProgParts, loops: &[bool], h: &LoopHead) -> bool
    ensures { result ≡ list_any (calls_looping (flag_at loops.now)) (terms_of_head p.now h.now) }
{
    calls(p, loops, &h.from) || calls(p, loops, &h.to)
}

#[tactic(auto, using(crate::proofs::LoopingLaws::any_more))]
fn heads_call(p: &ProgParts, loops: &[bool], nest: &[LoopHead]) -> bool
    ensures { result ≡ list_any (calls_looping (flag_at loops.now)) (flat_map (terms_of_head p.now) nest.now) }
{
    'items: for h in nest {
        if head_calls(p, loops, h) {
            return true;
        }
    }
    false
}

/// Whether an uncounted loop, or a call of a function that has one, stands in a statement.
#[cycle(looping)]
#[tactic(auto, using(crate::proofs::LoopingLaws::looping_plain, crate::proofs::LoopingLaws::looping_block, crate::proofs::LoopingLaws::looping_if, crate::proofs::LoopingLaws::looping_while, crate::proofs::LoopingLaws::looping_counted, crate::proofs::LoopingLaws::looping_loop, crate::proofs::LoopingLaws::looping_tasks))]
pub fn loops_in(p: &ProgParts, loops: &[bool], x: &Stmt) -> bool
    ensures { result ≡ loops_in p.now (flag_at loops.now) x.now }
{
    match x {
        Stmt::Plain(plain) => plain_calls(p, loops, plain),
        Stmt::Block(all) => some_loops(p, loops, all.as_slice()),
        Stmt::If(test, a, b) => {
            calls(p, loops, test) || (loops_in(p, loops, a.get()) || loops_in(p, loops, b.get()))
        }
        Stmt::While(_, _, _) => true,
        Stmt::Counted(head, body) => head_calls(p, loops, head) || loops_in(p, loops, body.get()),
        Stmt::Loop(d, body) => {
            heads_call(p, loops, d.nest.as_slice()) || loops_in(p, loops, body.get())
        }
        Stmt::Tasks(all, _) => some_task_loops(p, loops, all.as_slice()),
    }
}

#[cycle(looping)]
fn some_loops(p: &ProgParts, loops: &[bool], all: &[Stmt]) -> bool
    ensures { result ≡ list_any (loops_in p.now (flag_at loops.now)) all.now }
{
    'items: for x in all {
        if loops_in(p, loops, x) {
            return true;
        }
    }
    false
}

#[cycle(looping)]
fn some_task_loops(p: &ProgParts, loops: &[bool], all: &[Task]) -> bool
    ensures { result ≡ list_any (λ t. loops_in p.now (flag_at loops.now) t.body) all.now }
{
    'items: for t in all {
        if loops_in(p, loops, &t.body) {
            return true;
        }
    }
    false
}

/// Whether each function loops, or calls one that does, by number.
pub fn loopers(alloc: Global, p: &ProgParts) -> Result<Items<bool>, AllocError>
    ensures { IfOk result (λ loops. loops ≡ loopers_from p.now [] p.now.functions) }
{
    let mut loops = Items::new(alloc);
    'items: for f in p.functions.as_slice() {
        let looping = loops_in(p, loops.as_slice(), &f.body);
        loops.push(looping)?;
    }
    Ok(loops)
}

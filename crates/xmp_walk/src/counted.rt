// What a loop has to leave as it is to be counted: on typed expressions and statements.
ghost use Rattle.std.specs.Prelude.{◌≡◌, map, MatchOption, None, Some};
ghost use Rattle.std.specs.List.{list_any};
ghost use Rattle.xmp_prog.specs.declared.expressions.Expr.{out-Expr};
ghost use Rattle.xmp_walk.specs.Counted.{access_reads, added_to, any, bound_of, is_bound, is_counted, is_kept, is_scalar, plain_writes, reads, side_writes, step_size, target_writes, task_writes_any, writes_any};
ghost use Rattle.xmp_prog.specs.Counted.{is_bound_operator, is_small_constant};

use xmp_num::{BinOp, Ty};
use xmp_prog::{Access, Expr, LoopHead, MoveSide, Plain, Stmt, Target, Task};

/// Whether an expression reads a scalar.
#[cycle(reads)]
pub(crate) fn reads(e: &Expr, slot: u32) -> bool
    ensures { result ≡ reads e.now slot }
{
    match e {
        Expr::Const(_, _) => false,
        Expr::Scalar(number, _) => *number == slot,
        Expr::Cell(access) => access_reads(access, slot),
        Expr::Binary(_, _, a, b, _) => reads(a.get(), slot) || reads(b.get(), slot),
        Expr::Both(a, b) => reads(a.get(), slot) || reads(b.get(), slot),
        Expr::Either(a, b) => reads(a.get(), slot) || reads(b.get(), slot),
        Expr::Choose(a, b, c) => {
            reads(a.get(), slot) || reads(b.get(), slot) || reads(c.get(), slot)
        }
        Expr::Convert(_, a) => reads(a.get(), slot),
        Expr::Call(_, arguments, _) => some_reads(arguments.as_slice(), slot),
        Expr::Node => false,
        Expr::Nodes => false,
    }
}

#[cycle(reads)]
fn access_reads(a: &Access, slot: u32) -> bool
    ensures { result ≡ access_reads a.now slot }
{
    let inside = some_reads(a.subscripts.as_slice(), slot);
    match &a.image {
        Some(image) => inside || reads(image.get(), slot),
        None => inside,
    }
}

#[cycle(reads)]
fn some_reads(es: &[Expr], slot: u32) -> bool
    ensures { result ≡ any (map (λ e. reads e slot) es.now) }
{
    'items: for e in es {
        if reads(e, slot) {
            return true;
        }
    }
    false
}

// Whether a scalar is the index of a loop, or its bound reads it.
fn is_kept(index: u32, to: &Expr, slot: u32) -> bool
    ensures { result ≡ is_kept index to.now slot }
{
    slot == index || reads(to, slot)
}

fn target_writes(target: &Target, index: u32, to: &Expr) -> bool
    ensures { result ≡ target_writes (is_kept index to.now) target.now }
{
    match target {
        Target::Scalar(slot, _) => is_kept(index, to, *slot),
        Target::Cell(_) => false,
    }
}

fn side_writes(side: &MoveSide, index: u32, to: &Expr) -> bool
    ensures { result ≡ side_writes (is_kept index to.now) side.now }
{
    match side {
        MoveSide::Scalar(name) => is_kept(index, to, name.number),
        MoveSide::Array(_, _) => false,
    }
}

fn plain_writes(plain: &Plain, index: u32, to: &Expr) -> bool
    ensures { result ≡ plain_writes (is_kept index to.now) plain.now }
{
    match plain {
        Plain::Declare { slot, .. } => is_kept(index, to, *slot),
        Plain::Set { target, .. } => target_writes(target, index, to),
        Plain::Scan { target, .. } => target_writes(target, index, to),
        Plain::Sync { status, .. } => is_kept(index, to, status.number),
        Plain::Gmove { target, .. } => side_writes(target, index, to),
        _ => false,
    }
}

fn nest_writes(nest: &[LoopHead], index: u32, to: &Expr) -> bool
    ensures { result ≡ list_any (λ h. is_kept index to.now h.index.number) nest.now }
{
    'heads: for head in nest {
        if is_kept(index, to, head.index.number) {
            return true;
        }
    }
    false
}

/// Whether a statement writes the index of a loop or a scalar of its bound.
#[cycle(writes)]
pub(crate) fn writes(s: &Stmt, index: u32, to: &Expr) -> bool
    ensures { result ≡ writes_any (is_kept index to.now) s.now }
{
    match s {
        Stmt::Plain(plain) => plain_writes(plain, index, to),
        Stmt::Block(all) => some_writes(all.as_slice(), index, to),
        Stmt::If(_, a, b) => writes(a.get(), index, to) || writes(b.get(), index, to),
        Stmt::While(_, body, _) => writes(body.get(), index, to),
        Stmt::Counted(head, body) => {
            is_kept(index, to, head.index.number) || writes(body.get(), index, to)
        }
        Stmt::Loop(directive, body) => {
            nest_writes(directive.nest.as_slice(), index, to) || writes(body.get(), index, to)
        }
        Stmt::Tasks(all, _) => some_task_writes(all.as_slice(), index, to),
    }
}

#[cycle(writes)]
fn some_writes(all: &[Stmt], index: u32, to: &Expr) -> bool
    ensures { result ≡ any (map (writes_any (is_kept index to.now)) all.now) }
{
    'items: for s in all {
        if writes(s, index, to) {
            return true;
        }
    }
    false
}

#[cycle(writes)]
fn some_task_writes(all: &[Task], index: u32, to: &Expr) -> bool
    ensures { result ≡ any (map (task_writes_any (is_kept index to.now)) all.now) }
{
    'items: for task in all {
        if writes(&task.body, index, to) {
            return true;
        }
    }
    false
}

fn is_bound_operator(op: BinOp) -> bool
    ensures { result ≡ is_bound_operator op }
{
    match op {
        BinOp::Add => true,
        BinOp::Sub => true,
        BinOp::Mul => true,
        _ => false,
    }
}

// Whether an expression is built of int constants and scalars by `+`, `-` and `*`.
#[cycle(bound)]
fn is_bound(e: &Expr) -> bool
    ensures { result ≡ is_bound e.now }
{
    match e {
        Expr::Const(_, ty) => *ty == Ty::Int,
        Expr::Scalar(_, _) => true,
        Expr::Binary(op, ty, a, b, _) => {
            is_bound_operator(*op) && *ty == Ty::Int && is_bound(a.get()) && is_bound(b.get())
        }
        _ => false,
    }
}

fn is_small_constant(e: &Expr) -> bool
    ensures { result ≡ is_small_constant e.now }
{
    match e {
        Expr::Const(v, _) => *v <= 1_073_741_823,
        _ => false,
    }
}

fn is_scalar(slot: u32, e: &Expr) -> bool
    ensures { result ≡ is_scalar slot (out-Expr e.now) }
{
    match e {
        Expr::Scalar(number, _) => *number == slot,
        _ => false,
    }
}

/// What a loop compares its index with, and whether that is included.
pub(crate) fn bound_of(index: u32, test: &Expr) -> Option<(&Expr, bool)>
    ensures { MatchOption result (bound_of index (out-Expr test.now) ≡ None) (λ x. bound_of index (out-Expr test.now) ≡ Some (x.0.now, x.1)) }
{
    match test {
        Expr::Binary(BinOp::Less, Ty::Int, a, b, _) => {
            if is_scalar(index, a.get()) {
                Some((b.get(), false))
            } else {
                None
            }
        }
        Expr::Binary(BinOp::LessEq, Ty::Int, a, b, _) => {
            if is_scalar(index, a.get()) {
                Some((b.get(), true))
            } else {
                None
            }
        }
        _ => None,
    }
}

fn step_size(e: &Expr) -> Option<u32>
    ensures { result ≡ step_size (out-Expr e.now) }
{
    match e {
        Expr::Const(v, _) => {
            let step = *v;
            if 1 <= step && step <= 1_073_741_823 {
                Some(step as u32)
            } else {
                None
            }
        }
        _ => None,
    }
}

/// What an assignment adds to an index.
pub(crate) fn added_to(index: u32, target: &Target, value: &Expr) -> Option<u32>
    ensures { result ≡ added_to index target.now value.now }
{
    match target {
        Target::Scalar(slot, _) => {
            if *slot == index {
                step_size(value)
            } else {
                None
            }
        }
        Target::Cell(_) => None,
    }
}

/// Whether the body of a loop leaves the index and the bound as they are, and bound and step are of a counted loop's form.
pub(crate) fn is_counted(index: u32, to: &Expr, inclusive: bool, by_one: bool, body: &Stmt) -> bool
    ensures { result ≡ is_counted index to.now inclusive by_one body.now }
{
    is_bound(to)
        && !reads(to, index)
        && !writes(body, index, to)
        && ((by_one && !inclusive) || is_small_constant(to))
}

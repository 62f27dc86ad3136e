// Statements with no statement inside.
ghost use Rattle.std.specs.Prelude.{◌≡◌, ◌||◌, IfOk, map, not};
ghost use Rattle.xmp_prog.specs.declared.statements.Stmt.TheVariants as stmt;
ghost use Rattle.xmp_prog.specs.declared.statements.Plain.TheVariants as plain;
ghost use Rattle.xmp_names.specs.Walk.{Does, finished_all, is_main, typed_all};
ghost use Rattle.xmp_walk.specs.Statements.{call_statement, compound_of, is_scalar_target, one, print_of, return_of, returned, scan_of, set, simple_of, sync_of, target_name, target_of};

use sqlite_items::{Boxed, Items};
use std::alloc::{AllocError, Global};
use std::mem::drop;
use xmp_base::{Bytes, Place};
use xmp_lex::Mark;
use xmp_names::{
    Operand, Operator, Parts, Region, Rule, Value, World, as_type, first_place, fits_format,
    is_known, is_main, is_scan_format, joint, no_notes, value_type,
};
use xmp_num::{BinOp, Ty};
use xmp_prog as prog;
use xmp_syntax::{Call, Expr, Format, Next, Placed, Reference, Simple};

// What an assignment writes.
fn target_of(made: prog::Expr) -> prog::Target
    ensures { result ≡ target_of made }
{
    match made {
        prog::Expr::Scalar(slot, at) => prog::Target::Scalar(slot, at),
        prog::Expr::Cell(access) => prog::Target::Cell(access),
        _ => prog::Target::Scalar(0, Place { line: 0, column: 0 }),
    }
}

fn compound_of(mark: Mark) -> Option<Operator>
    ensures { result ≡ compound_of mark }
{
    match mark {
        Mark::AddAssign => Some(Operator::Arithmetic(BinOp::Add)),
        Mark::Increment => Some(Operator::Arithmetic(BinOp::Add)),
        Mark::SubAssign => Some(Operator::Arithmetic(BinOp::Sub)),
        Mark::Decrement => Some(Operator::Arithmetic(BinOp::Sub)),
        Mark::MulAssign => Some(Operator::Arithmetic(BinOp::Mul)),
        Mark::DivAssign => Some(Operator::Arithmetic(BinOp::Div)),
        Mark::RemAssign => Some(Operator::Arithmetic(BinOp::Rem)),
        Mark::AndAssign => Some(Operator::Arithmetic(BinOp::And)),
        Mark::OrAssign => Some(Operator::Arithmetic(BinOp::Or)),
        Mark::XorAssign => Some(Operator::Arithmetic(BinOp::Xor)),
        Mark::ShlAssign => Some(Operator::Shift(BinOp::Shl)),
        Mark::ShrAssign => Some(Operator::Shift(BinOp::Shr)),
        _ => None,
    }
}

fn assigned(target: prog::Expr, compound: Option<prog::Compound>, value: prog::Expr) -> prog::Stmt
    ensures { result ≡ stmt.Plain (plain.Set (target_of target) compound value) }
{
    prog::Stmt::Plain(prog::Plain::Set {
        target: target_of(target),
        compound,
        value,
    })
}

// An assignment with its operator.
pub(crate) fn set(
    alloc: Global,
    op: Option<Operator>,
    at: Place,
    target: Operand,
    value: Operand,
) -> Result<prog::Stmt, AllocError>
    ensures { IfOk result (λ s. s ≡ set op at target value) }
{
    match op {
        Some(Operator::Arithmetic(op)) => {
            let ty = value_type(joint(target.ty, value.ty));
            match as_type(alloc, ty, value) {
                Ok(value) => {
                    let compound = Some(prog::Compound { op, ty, at });
                    Ok(assigned(target.made, compound, value))
                }
                Err(e) => {
                    drop(target);
                    Err(e)
                }
            }
        }
        Some(Operator::Shift(op)) => {
            let ty = value_type(target.ty);
            let compound = Some(prog::Compound { op, ty, at });
            Ok(assigned(target.made, compound, value.made))
        }
        _ => Ok(assigned(target.made, None, value.made)),
    }
}

fn one() -> Operand
    ensures { result ≡ one }
{
    Operand {
        made: prog::Expr::Const(1, Ty::Int),
        ty: Some(Ty::Int),
        value: Value::Known(1),
    }
}

// A call as a statement.
fn call_statement(alloc: Global, made: prog::Expr) -> prog::Stmt
    ensures { result ≡ call_statement made }
{
    match made {
        prog::Expr::Call(function, arguments, at) => prog::Stmt::Plain(prog::Plain::Call {
            function,
            arguments,
            at,
        }),
        _ => prog::Stmt::Block(Items::new(alloc)),
    }
}

/// An assignment, an increment or decrement, or a call.
pub fn simple(world: &mut World, alloc: Global, x: &Simple) -> Result<prog::Stmt, AllocError>
    ensures { Does (simple_of x.now world.old) result world.new }
{
    match x {
        Simple::Assign(r, op, value) => assign(world, alloc, r, *op, value),
        Simple::Postfix(r, op) => postfix(world, alloc, r, *op),
        Simple::Prefix(op, r) => prefix(world, alloc, *op, r),
        Simple::Call(call) => called(world, alloc, call),
    }
}

fn assign(
    world: &mut World,
    alloc: Global,
    r: &Reference<Boxed<Expr>>,
    op: Placed<Mark>,
    value: &Expr,
) -> Result<prog::Stmt, AllocError>
    ensures { Does (simple_of (Simple.Assign r.now op value.now) world.old) result world.new }
{
    let target = world.typed_reference(alloc, r)?;
    let value = world.typed(alloc, value)?;
    let made = set(alloc, compound_of(op.what), op.at, target, value)?;
    Ok(made)
}

fn postfix(
    world: &mut World,
    alloc: Global,
    r: &Reference<Boxed<Expr>>,
    op: Placed<Mark>,
) -> Result<prog::Stmt, AllocError>
    ensures { Does (simple_of (Simple.Postfix r.now op) world.old) result world.new }
{
    let target = world.typed_reference(alloc, r)?;
    let made = set(alloc, compound_of(op.what), op.at, target, one())?;
    Ok(made)
}

fn prefix(
    world: &mut World,
    alloc: Global,
    op: Placed<Mark>,
    r: &Reference<Boxed<Expr>>,
) -> Result<prog::Stmt, AllocError>
    ensures { Does (simple_of (Simple.Prefix op r.now) world.old) result world.new }
{
    let target = world.typed_reference(alloc, r)?;
    let made = set(alloc, compound_of(op.what), op.at, target, one())?;
    Ok(made)
}

fn called(
    world: &mut World,
    alloc: Global,
    call: &Call<Boxed<Expr>>,
) -> Result<prog::Stmt, AllocError>
    ensures { Does (simple_of (Simple.Call call.now) world.old) result world.new }
{
    let Operand { made, .. } = world.typed_call(alloc, call)?;
    Ok(call_statement(alloc, made))
}

/// `return`, and whether it is the last statement of its function.
pub fn return_of(
    world: &mut World,
    alloc: Global,
    is_last: bool,
    at: Place,
    x: &Expr,
) -> Result<prog::Stmt, AllocError>
    ensures { Does (return_of is_last at x.now world.old) result world.new }
{
    let right = may_return(world.names.region, is_last);
    world.judge(right, Rule::N7, at)?;
    let value = returned(world, alloc, x)?;
    Ok(return_statement(value))
}

// The value of a `return`.
fn returned(world: &mut World, alloc: Global, x: &Expr) -> Result<Operand, AllocError>
    ensures { Does (returned x.now world.old) result world.new }
{
    let main = is_main(world.names.region);
    let typed = world.typed(alloc, x)?;
    match world.judge(!main || is_known(typed.value), Rule::N4, first_place(x)) {
        Ok(()) => Ok(typed),
        Err(e) => {
            drop(typed);
            Err(e)
        }
    }
}

// The arguments of a `printf`.
fn typed_all(world: &mut World, alloc: Global, list: &[Next<Expr>]) -> Result<Parts, AllocError>
    ensures { Does (typed_all list.now world.old) result world.new }
{
    let Parts { made, types, notes } = world.names.values(alloc, list)?;
    world.note(notes)?;
    Ok(Parts {
        made,
        types,
        notes: no_notes(alloc),
    })
}

/// `printf`
pub fn print(
    world: &mut World,
    alloc: Global,
    at: Place,
    format: &Format,
    list: &[Next<Expr>],
) -> Result<prog::Stmt, AllocError>
    ensures { Does (print_of at format.now list.now world.old) result world.new }
{
    world.not_in_function(at)?;
    let Parts { made, types, .. } = typed_all(world, alloc, list)?;
    let fits = fits_format(alloc, format.text.as_slice(), types.as_slice())?;
    world.judge(fits, Rule::N6, format.at)?;
    let text = copied(alloc, format.text.as_slice())?;
    Ok(prog::Stmt::Plain(prog::Plain::Print {
        format: text,
        arguments: made,
        at,
    }))
}

/// `scanf`
pub fn scan(
    world: &mut World,
    alloc: Global,
    at: Place,
    format: &Format,
    r: &Reference<Boxed<Expr>>,
) -> Result<prog::Stmt, AllocError>
    ensures { Does (scan_of at format.now r.now world.old) result world.new }
{
    world.not_in_function(at)?;
    let Operand { made, ty, .. } = world.typed_reference(alloc, r)?;
    let fits = is_scan_format(format.text.as_slice(), ty);
    match world.judge(fits, Rule::N6, format.at) {
        Ok(()) => Ok(prog::Stmt::Plain(prog::Plain::Scan {
            target: target_of(made),
            at,
        })),
        Err(e) => {
            drop(made);
            Err(e)
        }
    }
}

/// `xmp_sync_all`
pub fn sync(
    world: &mut World,
    alloc: Global,
    at: Place,
    r: &Reference<Boxed<Expr>>,
) -> Result<prog::Stmt, AllocError>
    ensures { Does (sync_of at r.now world.old) result world.new }
{
    let known = world.names.coarray;
    world.judge(known, Rule::N1, at)?;
    world.not_in_function(at)?;
    let Operand { made, .. } = world.typed_reference(alloc, r)?;
    let target = target_of(made);
    world.judge(is_scalar_target(&target), Rule::N3, r.name.at)?;
    Ok(prog::Stmt::Plain(prog::Plain::Sync {
        status: target_name(&target),
        at,
    }))
}

// Whether a `return` stands where it may: main's is its last statement.
fn may_return(region: Region, is_last: bool) -> bool
    ensures { result ≡ (not (is_main region) || is_last) }
{
    !is_main(region) || is_last
}

fn return_statement(value: Operand) -> prog::Stmt
    ensures { result ≡ stmt.Plain (plain.Return value.made) }
{
    let Operand { made, .. } = value;
    prog::Stmt::Plain(prog::Plain::Return(made))
}

fn copied(alloc: Global, bytes: &[u8]) -> Result<Bytes, AllocError>
    ensures { IfOk result (λ b. b ≡ bytes.now) }
{
    let mut copy = Bytes::new(alloc);
    match copy.push_all(bytes) {
        Ok(()) => Ok(copy),
        Err(_) => Err(AllocError),
    }
}

fn is_scalar_target(target: &prog::Target) -> bool
    ensures { result ≡ is_scalar_target target.now }
{
    match target {
        prog::Target::Scalar(_, _) => true,
        prog::Target::Cell(_) => false,
    }
}

fn target_name(target: &prog::Target) -> prog::Name
    ensures { result ≡ target_name target.now }
{
    match target {
        prog::Target::Scalar(slot, at) => prog::Name {
            number: *slot,
            at: *at,
        },
        prog::Target::Cell(_) => prog::Name {
            number: 0,
            at: Place { line: 0, column: 0 },
        },
    }
}

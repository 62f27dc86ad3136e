// Which scalars and arrays a statement writes.
ghost use Rattle.std.specs.Prelude.{◌≡◌, ◌++◌, map, OnOk};
ghost use Rattle.std.specs.List.{concat};
ghost use Rattle.xmp_prog.specs.Statements.{indices_of, plain_writes, arrays_of_side, slots_of_side, slots_of_target};
ghost use Rattle.xmp_meaning.specs.Writes.{arrays_written, plain_arrays, scalars_written, target_arrays};
ghost use Rattle.xmp_loops.specs.Written.{task_arrays, task_scalars};

use sqlite_items::Items;
use std::alloc::AllocError;
use xmp_prog::{LoopHead, MoveSide, Plain, Stmt, Target, Task};

fn target_scalars(target: &Target, out: &mut Items<u32>) -> Result<(), AllocError>
    ensures { OnOk result (out.new ≡ out.old ++ slots_of_target target.now) }
{
    match target {
        Target::Scalar(slot, _) => out.push(*slot),
        Target::Cell(_) => Ok(()),
    }
}

fn target_arrays(target: &Target, out: &mut Items<u32>) -> Result<(), AllocError>
    ensures { OnOk result (out.new ≡ out.old ++ target_arrays target.now) }
{
    match target {
        Target::Scalar(_, _) => Ok(()),
        Target::Cell(a) => out.push(a.array),
    }
}

fn side_scalars(side: &MoveSide, out: &mut Items<u32>) -> Result<(), AllocError>
    ensures { OnOk result (out.new ≡ out.old ++ slots_of_side side.now) }
{
    match side {
        MoveSide::Scalar(name) => out.push(name.number),
        MoveSide::Array(_, _) => Ok(()),
    }
}

fn side_arrays(side: &MoveSide, out: &mut Items<u32>) -> Result<(), AllocError>
    ensures { OnOk result (out.new ≡ out.old ++ arrays_of_side side.now) }
{
    match side {
        MoveSide::Scalar(_) => Ok(()),
        MoveSide::Array(name, _) => out.push(name.number),
    }
}

fn plain_scalars(plain: &Plain, out: &mut Items<u32>) -> Result<(), AllocError>
    ensures { OnOk result (out.new ≡ out.old ++ plain_writes plain.now) }
{
    match plain {
        Plain::Declare { slot, .. } => out.push(*slot),
        Plain::Set { target, .. } => target_scalars(target, out),
        Plain::Scan { target, .. } => target_scalars(target, out),
        Plain::Sync { status, .. } => out.push(status.number),
        Plain::Gmove { target, .. } => side_scalars(target, out),
        _ => Ok(()),
    }
}

fn plain_arrays(plain: &Plain, out: &mut Items<u32>) -> Result<(), AllocError>
    ensures { OnOk result (out.new ≡ out.old ++ plain_arrays plain.now) }
{
    match plain {
        Plain::Set { target, .. } => target_arrays(target, out),
        Plain::Scan { target, .. } => target_arrays(target, out),
        Plain::Gmove { target, .. } => side_arrays(target, out),
        _ => Ok(()),
    }
}

/// The indices of a nest, the outermost first.
pub fn indices(nest: &[LoopHead], out: &mut Items<u32>) -> Result<(), AllocError>
    ensures { OnOk result (out.new ≡ out.old ++ indices_of nest.now) }
{
    'items: for head in nest {
        out.push(head.index.number)?;
    }
    Ok(())
}

/// The scalars that a statement writes.
#[cycle(scalars)]
pub fn scalars_written(x: &Stmt, out: &mut Items<u32>) -> Result<(), AllocError>
    ensures { OnOk result (out.new ≡ out.old ++ scalars_written x.now) }
{
    match x {
        Stmt::Plain(plain) => plain_scalars(plain, out),
        Stmt::Block(all) => scalars_of_all(all.as_slice(), out),
        Stmt::If(_, a, b) => {
            scalars_written(a.get(), out)?;
            scalars_written(b.get(), out)
        }
        Stmt::While(_, body, _) => scalars_written(body.get(), out),
        Stmt::Counted(head, body) => {
            out.push(head.index.number)?;
            scalars_written(body.get(), out)
        }
        Stmt::Loop(directive, body) => {
            indices(directive.nest.as_slice(), out)?;
            scalars_written(body.get(), out)
        }
        Stmt::Tasks(all, _) => scalars_of_tasks(all.as_slice(), out),
    }
}

#[cycle(scalars)]
fn scalars_of_all(all: &[Stmt], out: &mut Items<u32>) -> Result<(), AllocError>
    ensures { OnOk result (out.new ≡ out.old ++ concat (map scalars_written all.now)) }
{
    'items: for x in all {
        scalars_written(x, out)?;
    }
    Ok(())
}

#[cycle(scalars)]
fn scalars_of_tasks(all: &[Task], out: &mut Items<u32>) -> Result<(), AllocError>
    ensures { OnOk result (out.new ≡ out.old ++ concat (map task_scalars all.now)) }
{
    'items: for task in all {
        scalars_written(&task.body, out)?;
    }
    Ok(())
}

/// The arrays of which a statement writes cells.
#[cycle(arrays)]
pub fn arrays_written(x: &Stmt, out: &mut Items<u32>) -> Result<(), AllocError>
    ensures { OnOk result (out.new ≡ out.old ++ arrays_written x.now) }
{
    match x {
        Stmt::Plain(plain) => plain_arrays(plain, out),
        Stmt::Block(all) => arrays_of_all(all.as_slice(), out),
        Stmt::If(_, a, b) => {
            arrays_written(a.get(), out)?;
            arrays_written(b.get(), out)
        }
        Stmt::While(_, body, _) => arrays_written(body.get(), out),
        Stmt::Counted(_, body) => arrays_written(body.get(), out),
        Stmt::Loop(_, body) => arrays_written(body.get(), out),
        Stmt::Tasks(all, _) => arrays_of_tasks(all.as_slice(), out),
    }
}

#[cycle(arrays)]
fn arrays_of_all(all: &[Stmt], out: &mut Items<u32>) -> Result<(), AllocError>
    ensures { OnOk result (out.new ≡ out.old ++ concat (map arrays_written all.now)) }
{
    'items: for x in all {
        arrays_written(x, out)?;
    }
    Ok(())
}

#[cycle(arrays)]
fn arrays_of_tasks(all: &[Task], out: &mut Items<u32>) -> Result<(), AllocError>
    ensures { OnOk result (out.new ≡ out.old ++ concat (map task_arrays all.now)) }
{
    'items: for task in all {
        arrays_written(&task.body, out)?;
    }
    Ok(())
}

// The image variables of a program, with their values on each image.
ghost use Rattle.std.specs.Prelude.{◌≡◌, ◌==◌, [], map, fold, flat_map, slice_get, slice_set, if◌then◌else◌, OnOk, IfOk};
ghost use Rattle.std.specs.Option.{option_copied};
ghost use Rattle.xmp_num.specs.Arithmetic.{wrap};
ghost use Rattle.xmp_meaning.specs.Declarations.{scalar_type};
ghost use Rattle.xmp_spots.specs.Images.{image_values};
ghost use Rattle.xmp_spots.specs.Variables.{declared_by_plain, declared_in, file_scope, image_variables, times_written, with_declaration, with_row};
ghost use Rattle.xmp_spots.specs.Writes.{IsCounted};

use crate::expressions::image_values;
use crate::writes::Writes;
use sqlite_items::Items;
use std::alloc::{AllocError, Global};
use std::marker::Model;
use xmp_base::{NoMemory, Words};
use xmp_loops::scalar_type;
use xmp_num::{Ty, convert};
use xmp_prog::{Expr, Plain, Prog, ProgParts, Stmt, Task};

/// The values of image variables, by slot: on each image in order, and none for a scalar that is no image variable.
/// Contracts see them as a list of rows.
#[derive(Drop)]
pub struct Variables {
    rows: Items<Words>,
}

impl Model for Variables {
    ghost use Rattle.std.specs.Prelude.{List, ℤ};

    ghost Value = { List (List ℤ) };

    ghost view = { λ v. v.rows };
}

impl Variables {
    // None of these scalars is one.
    fn new(alloc: Global, scalars: &[Ty]) -> Result<Variables, AllocError>
        ensures { IfOk result (λ values. values ≡ map (λ ty. []) scalars.now) }
    {
        let mut rows = Items::new(alloc);
        'scalars: for _ty in scalars {
            rows.push(Words::new(alloc))?;
        }
        Ok(Variables { rows })
    }

    /// The values of a scalar, where it has a slot.
    pub fn row(&self, slot: usize) -> Option<&[i64]>
        ensures { option_copied result ≡ slice_get self.now slot }
    {
        match self.rows.get(slot) {
            Some(row) => Some(row.as_slice()),
            None => None,
        }
    }

    // The values of a scalar, where it has a slot.
    fn set(&mut self, slot: usize, row: Words)
        ensures { self.new ≡ slice_set self.old slot row }
    {
        if slot < self.rows.len() {
            self.rows.set(slot, row);
        } else {
            std::mem::drop(row);
        }
    }
}

/// Values converted to a type.
pub fn in_type(alloc: Global, ty: Ty, values: &[i64]) -> Result<Words, NoMemory>
    ensures { IfOk result (λ found. found ≡ map (wrap ty) values.now) }
{
    let mut found = Words::new(alloc);
    'values: for value in values {
        found.push(convert(*value, ty))?;
    }
    Ok(found)
}

// The values of one more initialiser, where it is an image expression.
fn put(
    alloc: Global,
    p: &ProgParts,
    writes: &Writes,
    values: &mut Variables,
    slot: u32,
    row: Option<Words>,
) -> Result<(), NoMemory>
    requires { IsCounted p.now writes.now }
    ensures { OnOk result (values.new ≡ with_row p.now values.old slot row) }
{
    let Some(row) = row else {
        return Ok(());
    };
    if writes.is_once(slot) {
        let row = in_type(alloc, scalar_type(p, slot), row.as_slice())?;
        values.set(slot as usize, row);
    }
    Ok(())
}

// One more declaration.
fn declare(
    alloc: Global,
    p: &ProgParts,
    writes: &Writes,
    values: &mut Variables,
    slot: u32,
    value: &Expr,
) -> Result<(), NoMemory>
    requires { IsCounted p.now writes.now }
    ensures { OnOk result (values.new ≡ with_declaration p.now values.old (record { slot = slot; value = value.now })) }
{
    let row = image_values(alloc, p.grid.count(), values, value)?;
    put(alloc, p, writes, values, slot, row)
}

// Those at file scope.
fn declare_starts(
    alloc: Global,
    p: &ProgParts,
    writes: &Writes,
    values: &mut Variables,
) -> Result<(), NoMemory>
    requires { IsCounted p.now writes.now }
    ensures { OnOk result (values.new ≡ fold (with_declaration p.now) values.old (file_scope p.now)) }
{
    'starts: for s in p.start.as_slice() {
        declare(alloc, p, writes, values, s.slot, &s.value)?;
    }
    Ok(())
}

// That of a statement that holds no statement.
fn declare_plain(
    alloc: Global,
    p: &ProgParts,
    writes: &Writes,
    plain: &Plain,
    values: &mut Variables,
) -> Result<(), NoMemory>
    requires { IsCounted p.now writes.now }
    ensures { OnOk result (values.new ≡ fold (with_declaration p.now) values.old (declared_by_plain plain.now)) }
{
    match plain {
        Plain::Declare { slot, value, .. } => match value {
            Some(value) => declare(alloc, p, writes, values, *slot, value),
            None => Ok(()),
        },
        _ => Ok(()),
    }
}

// Those of a statement.
#[cycle(declare)]
#[tactic(auto, using(crate::proofs::DeclareLaws::declared_plain, crate::proofs::DeclareLaws::declared_block, crate::proofs::DeclareLaws::declared_if, crate::proofs::DeclareLaws::declared_while, crate::proofs::DeclareLaws::declared_counted, crate::proofs::DeclareLaws::declared_loop, crate::proofs::DeclareLaws::declared_tasks))]
fn declare_stmt(
    alloc: Global,
    p: &ProgParts,
    writes: &Writes,
    x: &Stmt,
    values: &mut Variables,
) -> Result<(), NoMemory>
    requires { IsCounted p.now writes.now }
    ensures { OnOk result (values.new ≡ fold (with_declaration p.now) values.old (declared_in x.now)) }
{
    match x {
        Stmt::Plain(plain) => declare_plain(alloc, p, writes, plain, values),
        Stmt::Block(all) => declare_all(alloc, p, writes, all.as_slice(), values),
        Stmt::If(_, a, b) => {
            declare_stmt(alloc, p, writes, a.get(), values)?;
            declare_stmt(alloc, p, writes, b.get(), values)
        }
        Stmt::While(_, body, _) => declare_stmt(alloc, p, writes, body.get(), values),
        Stmt::Counted(_, body) => declare_stmt(alloc, p, writes, body.get(), values),
        Stmt::Loop(_, body) => declare_stmt(alloc, p, writes, body.get(), values),
        Stmt::Tasks(all, _) => declare_tasks(alloc, p, writes, all.as_slice(), values),
    }
}

#[cycle(declare)]
#[tactic(auto, using(crate::proofs::DeclareLaws::declared_more))]
fn declare_all(
    alloc: Global,
    p: &ProgParts,
    writes: &Writes,
    all: &[Stmt],
    values: &mut Variables,
) -> Result<(), NoMemory>
    requires { IsCounted p.now writes.now }
    ensures { OnOk result (values.new ≡ fold (with_declaration p.now) values.old (flat_map declared_in all.now)) }
{
    'items: for x in all {
        declare_stmt(alloc, p, writes, x, values)?;
    }
    Ok(())
}

#[cycle(declare)]
#[tactic(auto, using(crate::proofs::DeclareLaws::declared_more))]
fn declare_tasks(
    alloc: Global,
    p: &ProgParts,
    writes: &Writes,
    all: &[Task],
    values: &mut Variables,
) -> Result<(), NoMemory>
    requires { IsCounted p.now writes.now }
    ensures { OnOk result (values.new ≡ fold (with_declaration p.now) values.old (flat_map (λ t. declared_in t.body) all.now)) }
{
    'items: for t in all {
        declare_stmt(alloc, p, writes, &t.body, values)?;
    }
    Ok(())
}

// The declarations at file scope, and then those of main.
fn declare_program(
    alloc: Global,
    p: &ProgParts,
    writes: &Writes,
    values: &mut Variables,
) -> Result<(), NoMemory>
    requires counted { IsCounted p.now writes.now }
    requires none { values.now ≡ map (λ ty. []) p.now.scalars }
    ensures { OnOk result (values.new ≡ image_variables p.now) }
{
    declare_starts(alloc, p, writes, values)?;
    declare_stmt(alloc, p, writes, &p.body, values)
}

// The image variables of a program that writes its scalars so often.
fn by_writes(alloc: Global, p: &ProgParts, writes: &Writes) -> Result<Variables, NoMemory>
    requires { IsCounted p.now writes.now }
    ensures { IfOk result (λ values. values ≡ image_variables p.now) }
{
    let mut values = match Variables::new(alloc, p.scalars.as_slice()) {
        Ok(values) => values,
        Err(_) => return Err(NoMemory),
    };
    match declare_program(alloc, p, writes, &mut values) {
        Ok(()) => Ok(values),
        Err(e) => {
            std::mem::drop(values);
            Err(e)
        }
    }
}

/// The image variables of a program: in the order of the declarations, file scope first, each scalar whose initialiser is
/// an image expression with the image variables so far, and that is written nowhere else.
pub fn image_variables(alloc: Global, p: &ProgParts) -> Result<Variables, NoMemory>
    ensures { IfOk result (λ values. values ≡ image_variables p.now) }
{
    let writes = Writes::of_program(alloc, p)?;
    let values = by_writes(alloc, p, &writes);
    std::mem::drop(writes);
    values
}

// What a program prints.
ghost use Rattle.std.specs.Prelude.{◌≡◌, ◌+ℤ◌, IfOk};
ghost use Rattle.xmp_num.specs.Arithmetic.{wrap};
ghost use Rattle.xmp_first.specs.FirstMeaning.{total, IsPrinted};
ghost use Rattle.xmp_first.specs.FirstTree.{tree_of};

use crate::first::First;
use std::alloc::Global;
use xmp_base::{Bytes, NoMemory};
use xmp_num::{RedOp, Ty, combine, render};

#[tactic(auto, unfolding(xmp_num::specs::Reduction::combine_of))]
fn added(a: i64, b: i64) -> i64
    ensures { result ≡ wrap Ty.Int (a +ℤ b) }
{
    combine(RedOp::Add, Ty::Int, a, b)
}

/// The sum of the cells.
fn total(p: &First) -> i64
    ensures { result ≡ total (tree_of p.now.value) p.now.size }
{
    let mut sum = 0;
    for index in 0..p.size {
        sum = added(sum, p.cell(index));
    }
    sum
}

/// What the program prints with its directives erased.
pub fn serial_first(alloc: Global, p: &First) -> Result<Bytes, NoMemory>
    ensures { IfOk result (λ out. IsPrinted p.now.size p.now.value out) }
{
    let mut out = Bytes::new(alloc);
    render(alloc, &mut out, total(p), 0)?;
    out.push(b'\n')?;
    Ok(out)
}

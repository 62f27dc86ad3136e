// All sums of one number from each of three lists.
ghost use Rattle.std.specs.Prelude.{◌≡◌, ◌<◌, ◌+◌, ◌^◌, ◌++◌, map, IfOk, All};
ghost use Rattle.xmp_move.specs.Sums.{pair_sums, three_sums};

use std::alloc::Global;
use xmp_base::NoMemory;

/// One number for each `z`, at the end of `out`.
fn push_row(out: &mut Vec<u32>, base: u32, x: u32, y: u32, zs: &[u32]) -> Result<(), NoMemory>
    requires { All (λ z. base + (x + (y + z)) < 2 ^ 32) zs.now }
    ensures { IfOk result (λ _. out.new.items ≡ out.old.items ++ map (λ z. base + (x + (y + z))) zs.now) }
{
    for z in zs {
        out.push(base + (x + (y + *z)))?;
    }
    Ok(())
}

fn push_rows(out: &mut Vec<u32>, base: u32, x: u32, ys: &[u32], zs: &[u32]) -> Result<(), NoMemory>
    requires { All (λ r. base + (x + r) < 2 ^ 32) (pair_sums ys.now zs.now) }
    ensures { IfOk result (λ _. out.new.items ≡ out.old.items ++ map (λ r. base + (x + r)) (pair_sums ys.now zs.now)) }
{
    for y in ys {
        push_row(out, base, x, *y, zs)?;
    }
    Ok(())
}

/// `base` and all sums of three, the last list's number changing fastest.
pub fn sums_from(
    alloc: Global,
    base: u32,
    xs: &[u32],
    ys: &[u32],
    zs: &[u32],
) -> Result<Vec<u32>, NoMemory>
    requires { All (λ r. base + r < 2 ^ 32) (three_sums xs.now ys.now zs.now) }
    ensures { IfOk result (λ v. v.items ≡ map (λ r. base + r) (three_sums xs.now ys.now zs.now)) }
{
    let mut out = Vec::new(alloc);
    for x in xs {
        push_rows(&mut out, base, *x, ys, zs)?;
    }
    Ok(out)
}

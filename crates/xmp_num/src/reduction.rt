ghost use Rattle.std.specs.Prelude.{◌≡◌};
ghost use Rattle.xmp_num.specs.Arithmetic.{FitsType};
ghost use Rattle.xmp_num.specs.Reduction.{IsCommutativeMonoid, combine_of, unit_of};

use crate::arithmetic::convert;
use crate::types::{RedOp, Ty};

/// One step of a reduction over values of the type, which can be combined in any order and in any
/// groups.
#[tactic(auto, using(crate::proofs::Wraps::wrapped), unfolding(crate::specs::Reduction::combine_of))]
pub fn combine(op: RedOp, ty: Ty, a: i64, b: i64) -> i64
    ensures value { result ≡ combine_of op ty a b }
    ensures laws { IsCommutativeMonoid (FitsType ty) (combine_of op ty) (unit_of op ty) }
{
    match op {
        RedOp::Add => convert(a.wrapping_add(b), ty),
        RedOp::Mul => convert(a.wrapping_mul(b), ty),
        RedOp::And => a & b,
        RedOp::Or => a | b,
        RedOp::Xor => a ^ b,
        RedOp::Max => a.max(b),
        RedOp::Min => a.min(b),
    }
}

/// The value of the type that changes no value that it is combined with.
pub fn unit(op: RedOp, ty: Ty) -> i64
    ensures { result ≡ unit_of op ty }
{
    match op {
        RedOp::Add | RedOp::Or | RedOp::Xor => 0,
        RedOp::Mul => 1,
        RedOp::And => -1,
        RedOp::Max => least(ty),
        RedOp::Min => greatest(ty),
    }
}

fn least(ty: Ty) -> i64
    ensures { result ≡ unit_of RedOp.Max ty }
{
    match ty {
        Ty::Int => i32::MIN as i64,
        Ty::Long => i64::MIN,
    }
}

fn greatest(ty: Ty) -> i64
    ensures { result ≡ unit_of RedOp.Min ty }
{
    match ty {
        Ty::Int => i32::MAX as i64,
        Ty::Long => i64::MAX,
    }
}

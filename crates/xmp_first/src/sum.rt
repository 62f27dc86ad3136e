ghost use Rattle.std.specs.Prelude.{◌≡◌, ◌+ℤ◌};
ghost use Rattle.xmp_num.specs.Arithmetic.{wrap};

use xmp_num::{RedOp, Ty, combine};

/// One step of a reduction with `+` over `int`.
#[tactic(auto, unfolding(xmp_num::specs::Reduction::combine_of))]
pub fn added(a: i64, b: i64) -> i64
    ensures { result ≡ wrap Ty.Int (a +ℤ b) }
{
    combine(RedOp::Add, Ty::Int, a, b)
}

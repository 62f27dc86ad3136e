// The value of an expression as far as it is read.
ghost use Rattle.std.specs.Prelude.{◌≡◌, ℤ, pos};
ghost use Rattle.std.specs.Result.{result_unwrap_or};
ghost use Rattle.xmp_num.specs.Arithmetic.{binary_of};
ghost use Rattle.xmp_first.specs.FirstGrammar.{Operand, Sum};
ghost use Rattle.xmp_first.specs.FirstMeaning.{operand_value, sum_value};
ghost use Rattle.xmp_first.specs.FirstTree.{extended};
ghost use Rattle.xmp_first.specs.FirstRunning.{running_of};

use xmp_num::{BinOp, Ty, binary};

/// A product, or a sum, an operator and a product: the last product is kept apart, since a `*` may
/// follow it.
#[derive(Clone, Copy)]
pub enum Running {
    Product(i64),
    Joined(i64, BinOp, i64),
}

/// What an operator gives at `int`, where it doesn't trap.
fn applied(op: BinOp, a: i64, b: i64) -> i64
    ensures { result ≡ result_unwrap_or (binary_of op Ty.Int a b) (pos 0) }
{
    match binary(op, Ty::Int, a, b) {
        Ok(value) => value,
        Err(_) => 0,
    }
}

impl Running {
    /// The value where nothing follows.
    pub fn value(self) -> i64
        ensures { (t : Sum) (i : ℤ) → self ≡ running_of t i → result ≡ sum_value t i }
    {
        match self {
            Running::Product(product) => product,
            Running::Joined(sum, op, product) => applied(op, sum, product),
        }
    }

    /// With the last product times an operand.
    fn times(self, operand: i64) -> Self
        ensures { (t : Sum) (x : Operand) (i : ℤ) → self ≡ running_of t i
            → operand ≡ operand_value x i → result ≡ running_of (extended t BinOp.Mul x) i }
    {
        match self {
            Running::Product(product) => Running::Product(applied(BinOp::Mul, product, operand)),
            Running::Joined(sum, op, product) => {
                Running::Joined(sum, op, applied(BinOp::Mul, product, operand))
            }
        }
    }

    /// With an operator and an operand behind it.
    pub fn extended(self, op: BinOp, operand: i64) -> Self
        ensures { (t : Sum) (x : Operand) (i : ℤ) → self ≡ running_of t i
            → operand ≡ operand_value x i → result ≡ running_of (extended t op x) i }
    {
        match op {
            BinOp::Mul => self.times(operand),
            BinOp::Add => Running::Joined(self.value(), BinOp::Add, operand),
            BinOp::Sub => Running::Joined(self.value(), BinOp::Sub, operand),
            _ => self,
        }
    }
}

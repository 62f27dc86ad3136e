ghost use Rattle.std.specs.Prelude.{◌≡◌, pos};
ghost use Rattle.xmp_num.specs.Arithmetic.{binary_of, bits_of, wrap};

use crate::types::{BinOp, TrapKind, Ty};

/// The value of the type that is equal to `v` modulo the type's range, as C converts an integer
/// (ISO C11 6.3.1.3, with wrapping where C leaves the choice).
pub fn convert(v: i64, to: Ty) -> i64
    ensures { result ≡ wrap to v }
{
    match to {
        Ty::Int => i64::from((v.rem_euclid(1 << 32) as u32).cast_signed()),
        Ty::Long => v,
    }
}

/// What an operator gives for two operands of the type, or the trap that it ends in. `ty` is the
/// type of the operands, of a shift that of its left operand; a shift's count may be any number.
#[tactic(auto, using(crate::proofs::Wraps::wrapped), unfolding(crate::specs::Arithmetic::binary_of))]
pub fn binary(op: BinOp, ty: Ty, a: i64, b: i64) -> Result<i64, TrapKind>
    ensures { result ≡ binary_of op ty a b }
{
    match op {
        BinOp::Add => Ok(convert(a.wrapping_add(b), ty)),
        BinOp::Sub => Ok(convert(a.wrapping_sub(b), ty)),
        BinOp::Mul => Ok(convert(a.wrapping_mul(b), ty)),
        BinOp::Div => divide(ty, a, b),
        BinOp::Rem => remainder(ty, a, b),
        BinOp::Shl => shift_left(ty, a, b),
        BinOp::Shr => shift_right(ty, a, b),
        BinOp::And => Ok(a & b),
        BinOp::Or => Ok(a | b),
        BinOp::Xor => Ok(a ^ b),
        BinOp::Less => Ok(i64::from(a < b)),
        BinOp::LessEq => Ok(i64::from(a <= b)),
        BinOp::Greater => Ok(i64::from(a > b)),
        BinOp::GreaterEq => Ok(i64::from(a >= b)),
        BinOp::Equal => Ok(i64::from(a == b)),
        BinOp::Differ => Ok(i64::from(a != b)),
    }
}

#[tactic(auto, using(crate::proofs::Wraps::wrapped), unfolding(crate::specs::Arithmetic::binary_of))]
fn divide(ty: Ty, a: i64, b: i64) -> Result<i64, TrapKind>
    ensures { result ≡ binary_of BinOp.Div ty a b }
{
    if b == 0 {
        return Err(TrapKind::Zero);
    }
    Ok(convert(a.wrapping_div(b), ty))
}

#[tactic(auto, using(crate::proofs::Wraps::wrapped), unfolding(crate::specs::Arithmetic::binary_of))]
fn remainder(ty: Ty, a: i64, b: i64) -> Result<i64, TrapKind>
    ensures { result ≡ binary_of BinOp.Rem ty a b }
{
    if b == 0 {
        return Err(TrapKind::Zero);
    }
    Ok(convert(a.wrapping_rem(b), ty))
}

fn width(ty: Ty) -> i64
    ensures { result ≡ pos (bits_of ty) }
{
    match ty {
        Ty::Int => 32,
        Ty::Long => 64,
    }
}

#[tactic(auto, using(crate::proofs::Wraps::wrapped), unfolding(crate::specs::Arithmetic::binary_of))]
fn shift_left(ty: Ty, a: i64, b: i64) -> Result<i64, TrapKind>
    ensures { result ≡ binary_of BinOp.Shl ty a b }
{
    if b < 0 || b >= width(ty) {
        return Err(TrapKind::Shift);
    }
    Ok(convert(a.wrapping_shl(b as u32), ty))
}

#[tactic(auto, using(crate::proofs::Wraps::wrapped), unfolding(crate::specs::Arithmetic::binary_of))]
fn shift_right(ty: Ty, a: i64, b: i64) -> Result<i64, TrapKind>
    ensures { result ≡ binary_of BinOp.Shr ty a b }
{
    if b < 0 || b >= width(ty) {
        return Err(TrapKind::Shift);
    }
    Ok(a >> b)
}

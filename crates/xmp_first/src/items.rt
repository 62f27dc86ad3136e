// The items of an expression at the front of a text.
ghost use Rattle.std.specs.Prelude.{◌≡◌, ◌<◌, ◌≤◌, ◌++◌, ℕ, List, [], ◌∷◌, true, false, length, IfOk, IfSome, IfNone};
ghost use Rattle.xmp_num.specs.declared.types.BinOp.{BinOp};
ghost use Rattle.xmp_first.specs.declared.first_item.Item.{Item};
ghost use Rattle.xmp_first.specs.First.{is_operator};
ghost use Rattle.xmp_first.specs.Layout.{operator_text};
ghost use Rattle.xmp_first.specs.Reading.{NoDigit, NoMore, IsOperandAt, IsTailAt};

use crate::first_item::Item;
use crate::first_items::Items;
use crate::numbers::number_at;
use std::alloc::Global;
use xmp_base::NoMemory;
use xmp_num::BinOp;

/// Whether a digit stands at the front.
fn starts_with_digit(text: &[u8]) -> bool
    ensures no { result ≡ false → NoDigit text.now }
    ensures yes { result ≡ true → NoDigit text.now → ⊥ }
{
    match text {
        [b, ..] => b.is_ascii_digit(),
        [] => false,
    }
}

/// Whether a space stands at the front.
fn starts_with_space(text: &[u8]) -> bool
    ensures no { result ≡ false → NoDigit text.now → NoMore text.now }
    ensures yes { result ≡ true → NoMore text.now → ⊥ }
{
    match text {
        [b, ..] => *b == b' ',
        [] => false,
    }
}

/// What stands behind a prefix.
pub(crate) fn after<'a>(text: &'a [u8], prefix: &[u8]) -> Option<&'a [u8]>
    ensures some { IfSome result (λ rest. text.now ≡ prefix.now ++ rest.now) }
    ensures none { IfNone result ((rest : List ℕ) → text.now ≡ prefix.now ++ rest → ⊥) }
{
    text.strip_prefix(prefix)
}

/// The index or a number at the front, and what follows it.
pub(crate) fn operand_at(text: &[u8]) -> Option<(Item, &[u8])>
    ensures some { IfSome result (λ x. IsOperandAt text.now x.0 x.1.now) }
    ensures none { IfNone result ((item : Item) (rest : List ℕ) → IsOperandAt text.now item rest → ⊥) }
{
    if let Some(rest) = after(text, b"i") {
        if starts_with_digit(rest) {
            return None;
        }
        return Some((Item::Index, rest));
    }
    match number_at(text) {
        Some((n, rest)) => Some((Item::Number(n as i32), rest)),
        None => None,
    }
}

/// An operator at the front, and what follows it.
fn op_at(text: &[u8]) -> Option<(BinOp, &[u8])>
    ensures some { IfSome result (λ x. (is_operator x.0 ≡ true) × (text.now ≡ operator_text x.0 ++ x.1.now)) }
    ensures none { IfNone result ((o : BinOp) (rest : List ℕ) → is_operator o ≡ true
        → text.now ≡ operator_text o ++ rest → ⊥) }
{
    if let Some(rest) = text.strip_prefix(b" + ") {
        return Some((BinOp::Add, rest));
    }
    if let Some(rest) = text.strip_prefix(b" - ") {
        return Some((BinOp::Sub, rest));
    }
    if let Some(rest) = text.strip_prefix(b" * ") {
        return Some((BinOp::Mul, rest));
    }
    None
}

/// Adds the operators at the front and their operands, at most so many, and gives what follows them.
pub(crate) fn tail_at<'a>(
    items: &mut Items,
    most: u32,
    text: &'a [u8],
) -> Result<Option<&'a [u8]>, NoMemory>
    requires { NoDigit text.now }
    ensures some { IfOk result (λ r. IfSome r (λ rest. (tail : List Item)
        × (items.new ≡ items.old ++ tail) × IsTailAt text.now most tail rest.now)) }
    ensures none { IfOk result (λ r. IfNone r ((tail : List Item) (rest : List ℕ)
        → IsTailAt text.now most tail rest → ⊥)) }
{
    if !starts_with_space(text) {
        return Ok(Some(text));
    }
    let Some((op, rest)) = op_at(text) else {
        return Ok(None);
    };
    let Some((item, rest)) = operand_at(rest) else {
        return Ok(None);
    };
    if most == 0 {
        return Ok(None);
    }
    items.push(Item::Op(op))?;
    items.push(item)?;
    tail_at(items, most - 1, rest)
}

// The whole text.
ghost use Rattle.std.specs.Prelude.{◌≡◌, ◌<◌, ◌≤◌, ◌++◌, ℕ, List, true, length, IfOk, IfSome, IfNone};
ghost use Rattle.std.specs.Fmt.{decimal};
ghost use Rattle.xmp_first.specs.declared.first_item.Item.{Item};
ghost use Rattle.xmp_first.specs.First.{is_expression};
ghost use Rattle.xmp_first.specs.Reading.{NoMore};
ghost use Rattle.xmp_first.specs.Layout.{value_text, middle, foot, Spells, IsNoProgram};

use crate::first::First;
use crate::first_items::Items;
use crate::items::{after, operand_at, tail_at};
use crate::layout::{FOOT, HEAD, TO_FIRST_LOOP, TO_NODES, TO_SECOND_LOOP, TO_TEMPLATE, TO_VALUE};
use crate::numbers::number_at;
use std::alloc::Global;
use xmp_base::{Bytes, NoMemory};
use xmp_num::render;

const MOST_CELLS: u32 = 4_194_304;

const MOST_NODES: u32 = 16;

fn middle_of(alloc: Global, size: u32) -> Result<Bytes, NoMemory>
    ensures { IfOk result (λ bytes. bytes ≡ middle size) }
{
    let mut all = Bytes::new(alloc);
    all.push_all(TO_TEMPLATE)?;
    render(alloc, &mut all, i64::from(size), 0)?;
    all.push_all(TO_FIRST_LOOP)?;
    render(alloc, &mut all, i64::from(size), 0)?;
    all.push_all(TO_VALUE)?;
    Ok(all)
}

fn foot_of(alloc: Global, size: u32) -> Result<Bytes, NoMemory>
    ensures { IfOk result (λ bytes. bytes ≡ foot size) }
{
    let mut all = Bytes::new(alloc);
    all.push_all(TO_SECOND_LOOP)?;
    render(alloc, &mut all, i64::from(size), 0)?;
    all.push_all(FOOT)?;
    Ok(all)
}

/// The expression at the front, and what follows it.
fn value_at(alloc: Global, text: &[u8]) -> Result<Option<(Items, &[u8])>, NoMemory>
    ensures some { IfOk result (λ r. IfSome r (λ x.
        (is_expression x.0 ≡ true) × (text.now ≡ value_text x.0 ++ x.1.now) × NoMore x.1.now)) }
    ensures none { IfOk result (λ r. IfNone r ((value : List Item) (rest : List ℕ)
        → is_expression value ≡ true → text.now ≡ value_text value ++ rest → NoMore rest → ⊥)) }
{
    let mut items = Items::new(alloc);
    let Some((item, rest)) = operand_at(text) else {
        return Ok(None);
    };
    items.push(item)?;
    match tail_at(&mut items, 100, rest)? {
        Some(rest) => Ok(Some((items, rest))),
        None => Ok(None),
    }
}

/// The value, where the text behind the number of nodes is that of a program.
pub(crate) fn after_nodes(alloc: Global, size: u32, text: &[u8]) -> Result<Option<Items>, NoMemory>
    ensures some { IfOk result (λ r. IfSome r (λ value. (is_expression value ≡ true)
        × (text.now ≡ middle size ++ (value_text value ++ foot size)))) }
    ensures none { IfOk result (λ r. IfNone r ((value : List Item) → is_expression value ≡ true
        → text.now ≡ middle size ++ (value_text value ++ foot size) → ⊥)) }
{
    let front = middle_of(alloc, size)?;
    let Some(behind) = after(text, front.as_slice()) else {
        return Ok(None);
    };
    let Some((value, rest)) = value_at(alloc, behind)? else {
        return Ok(None);
    };
    let end = foot_of(alloc, size)?;
    if rest == end.as_slice() {
        Ok(Some(value))
    } else {
        Ok(None)
    }
}

/// The program that the text is, or none.
pub(crate) fn program_at(alloc: Global, text: &[u8]) -> Result<Option<First>, NoMemory>
    ensures some { IfOk result (λ r. IfSome r (λ p. Spells p.size p.nodes p.value text.now)) }
    ensures none { IfOk result (λ r. IfNone r (IsNoProgram text.now)) }
{
    let Some(at_size) = after(text, HEAD) else {
        return Ok(None);
    };
    let Some((size, behind_size)) = number_at(at_size) else {
        return Ok(None);
    };
    if size < 1 {
        return Ok(None);
    }
    if size > MOST_CELLS {
        return Ok(None);
    }
    let Some(at_nodes) = after(behind_size, TO_NODES) else {
        return Ok(None);
    };
    let Some((nodes, rest)) = number_at(at_nodes) else {
        return Ok(None);
    };
    if nodes < 1 {
        return Ok(None);
    }
    if nodes > MOST_NODES {
        return Ok(None);
    }
    match after_nodes(alloc, size, rest)? {
        Some(value) => Ok(Some(First { size, nodes, value })),
        None => Ok(None),
    }
}

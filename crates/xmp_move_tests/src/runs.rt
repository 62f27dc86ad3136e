// A transfer at all nodes: what each store shows after all packed and each unpacked.
ghost use Rattle.std.specs.Prelude.{◌≡◌, ◌<◌, IsTrue, All, length};

use crate::codes::{Moves, arrays, code_of, nodes_of, plan_in, source_base, target_asks};
use crate::plain::{array, assign, copy_of, push};
use crate::shapes::{Shape, Stop, home_of, owns, slot_of, words_of};
use std::alloc::Global;
use xmp_base::Words;
use xmp_move::{Plan, pack, unpack};
use xmp_num::Ty;
use xmp_prog::Home;

// A transfer with its numbers, and the type of its target.
#[derive(Clone, Copy)]
pub struct Row {
    pub moves: Moves,
    pub args: &'static [i64],
    pub ty: Ty,
}

// Writes what a node holds of an array into its store; `None` where it is to hold nothing that counts.
fn put(
    store: &mut Vec<i64>,
    home: &Home,
    node: u32,
    base: u32,
    array: &[i64],
    own: bool,
) -> Result<(), Stop> {
    for (n, v) in array.iter().enumerate() {
        if n > 1000 {
            return Err(Stop::Cell);
        }
        if let Some(s) = slot_of(home, node, n as u32)? {
            let at = (base as usize).saturating_add(s as usize);
            if at >= store.len() {
                return Err(Stop::Slot);
            }
            store[at] = if own && !owns(home, node, n as u32)? {
                -7
            } else {
                *v
            };
        }
    }
    Ok(())
}

// The store of a node before; of a reflect its copies are out of date.
fn store_of(
    alloc: Global,
    row: &Row,
    node: u32,
    target: &[i64],
    source: &[i64],
) -> Result<Vec<i64>, Stop> {
    let (shape, other) = arrays(&row.moves);
    let home = home_of(&shape)?;
    let mut words = words_of(&home, shape.1, node)?;
    if let Some(other) = other {
        words = words.saturating_add(words_of(&home_of(&other)?, other.1, node)?);
    }
    let mut store = Vec::new(alloc);
    for _ in 0..words {
        push(&mut store, -9)?;
    }
    put(
        &mut store,
        &home,
        node,
        0,
        target,
        matches!(row.moves, Moves::Reflect(_)),
    )?;
    if let Some(other) = other {
        put(
            &mut store,
            &home_of(&other)?,
            node,
            source_base(&row.moves, node)?,
            source,
            false,
        )?;
    }
    Ok(store)
}

fn all_below(slots: &[u32], bound: usize) -> bool
    ensures { IsTrue result → All (λ s. s < bound) slots.now }
{
    'slots: for s in slots {
        if *s as usize >= bound {
            return false;
        }
    }
    true
}

fn pack_to(alloc: Global, plan: &Plan, store: &[i64], to: u32) -> Result<Words, Stop>
    requires { to < length plan.now.sends }
{
    if all_below(plan.sends(to), store.len()) {
        match pack(alloc, plan, store, to) {
            Ok(words) => Ok(words),
            Err(_) => Err(Stop::Memory),
        }
    } else {
        Err(Stop::Slot)
    }
}

// What a node says to each.
fn said(
    alloc: Global,
    row: &Row,
    node: u32,
    store: &[i64],
    all: &mut Vec<Words>,
) -> Result<(), Stop> {
    let count = store.len();
    if count > 1000 {
        return Err(Stop::Slot);
    }
    let code = code_of(alloc, &row.moves, row.ty, node, count as u32)?;
    let plan = plan_in(alloc, &code, target_asks(&row.moves), row.args)?;
    for to in 0..code.nodes() {
        let words = pack_to(alloc, &plan, store, to)?;
        push(all, words)?;
    }
    Ok(())
}

fn unpack_from(
    plan: &Plan,
    store: &mut Vec<i64>,
    from: u32,
    words: &[i64],
    ty: Ty,
) -> Result<(), Stop>
    requires { from < length plan.now.fills }
{
    let slots = plan.fills(from);
    if all_below(slots, store.len()) && words.len() == slots.len() {
        unpack(plan, store.as_mut_slice(), from, words, ty);
        Ok(())
    } else {
        Err(Stop::Slot)
    }
}

// The peers in rising order, in falling order, or the odd ones first.
fn peer(order: u32, k: u32, nodes: u32) -> u32 {
    let odd = nodes / 2;
    match order {
        0 => k,
        1 => nodes.saturating_sub(1).saturating_sub(k),
        _ => {
            if k < odd {
                k.saturating_mul(2).saturating_add(1)
            } else {
                k.saturating_sub(odd).saturating_mul(2)
            }
        }
    }
}

// The store of a node after it unpacked what all said, in one of three orders.
fn heard(
    alloc: Global,
    row: &Row,
    node: u32,
    store: &[i64],
    said: &[Words],
    order: u32,
) -> Result<Vec<i64>, Stop> {
    let count = store.len();
    if count > 1000 {
        return Err(Stop::Slot);
    }
    let code = code_of(alloc, &row.moves, row.ty, node, count as u32)?;
    let plan = plan_in(alloc, &code, target_asks(&row.moves), row.args)?;
    let mut new = copy_of(alloc, store)?;
    let nodes = code.nodes();
    for k in 0..nodes {
        let from = peer(order, k, nodes);
        let at = (from as usize)
            .saturating_mul(nodes as usize)
            .saturating_add(node as usize);
        match said.get(at) {
            Some(words) if from < nodes => unpack_from(
                &plan,
                &mut new,
                from,
                words.as_slice(),
                row.ty,
            )?,
            _ => return Err(Stop::Slot),
        }
    }
    Ok(new)
}

// Whether a node shows an array in the cells that it holds; in those that it doesn't own, what it had before.
fn shows(
    new: &[i64],
    old: &[i64],
    home: &Home,
    node: u32,
    base: u32,
    array: &[i64],
    all: bool,
) -> Result<bool, Stop> {
    for (n, v) in array.iter().enumerate() {
        if n > 1000 {
            return Err(Stop::Cell);
        }
        if let Some(s) = slot_of(home, node, n as u32)? {
            let at = (base as usize).saturating_add(s as usize);
            let want = if all || owns(home, node, n as u32)? {
                Some(v)
            } else {
                old.get(at)
            };
            if want != new.get(at) {
                return Ok(false);
            }
        }
    }
    Ok(true)
}

// Whether a node's store is right after, in each order.
fn is_right(
    alloc: Global,
    row: &Row,
    node: u32,
    old: &[i64],
    said: &[Words],
    target: &[i64],
    source: &[i64],
) -> Result<bool, Stop> {
    let (shape, other) = arrays(&row.moves);
    let new = heard(alloc, row, node, old, said, 0)?;
    let falling = heard(alloc, row, node, old, said, 1)?;
    let mixed = heard(alloc, row, node, old, said, 2)?;
    if new.as_slice() != falling.as_slice() || new.as_slice() != mixed.as_slice() {
        return Ok(false);
    }
    if !shows(
        new.as_slice(),
        old,
        &home_of(&shape)?,
        node,
        0,
        target,
        matches!(row.moves, Moves::Reflect(_)),
    )? {
        return Ok(false);
    }
    match other {
        Some(other) => shows(
            new.as_slice(),
            old,
            &home_of(&other)?,
            node,
            source_base(&row.moves, node)?,
            source,
            true,
        ),
        None => Ok(true),
    }
}

// The target after, by the plain assignment.
fn after(alloc: Global, row: &Row, before: &[i64], source: &[i64]) -> Result<Vec<i64>, Stop> {
    let mut target = copy_of(alloc, before)?;
    match row.moves {
        Moves::Reflect(_) => {}
        Moves::Between(to, from) => assign(
            alloc,
            &mut target,
            source,
            (to.1, to.2),
            (from.1, from.2),
            row.args,
            row.ty,
        )?,
        Moves::Within(shape, parts) => assign(
            alloc,
            &mut target,
            before,
            (shape.1, shape.2),
            (shape.1, parts),
            row.args,
            row.ty,
        )?,
    }
    Ok(target)
}

// The arrays before: the target's cells, and the source's with values beyond `int`.
fn before(alloc: Global, row: &Row) -> Result<(Vec<i64>, Vec<i64>), Stop> {
    let (shape, other) = arrays(&row.moves);
    let target = array(alloc, shape.1, 100, 1)?;
    let source = array(alloc, other.unwrap_or(shape).1, 4294967296, 1000)?;
    Ok((target, source))
}

// The first node whose store is wrong after the transfer.
pub fn wrong_node(alloc: Global, row: &Row) -> Result<Option<u32>, Stop> {
    let (target, source) = before(alloc, row)?;
    let nodes = nodes_of(&row.moves)?;
    let mut said_all = Vec::new(alloc);
    for node in 0..nodes {
        let store = store_of(alloc, row, node, target.as_slice(), source.as_slice())?;
        said(alloc, row, node, store.as_slice(), &mut said_all)?;
    }
    let new = after(alloc, row, target.as_slice(), source.as_slice())?;
    for node in 0..nodes {
        let store = store_of(alloc, row, node, target.as_slice(), source.as_slice())?;
        if !is_right(
            alloc,
            row,
            node,
            store.as_slice(),
            said_all.as_slice(),
            new.as_slice(),
            source.as_slice(),
        )? {
            return Ok(Some(node));
        }
    }
    Ok(None)
}

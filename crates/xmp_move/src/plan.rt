// The plan of a node: what it sends to each node, and what it fills from each.
ghost use Rattle.std.specs.Prelude.{◌≡◌, ◌<◌, ◌+◌, [], if◌then◌else◌, length, map, slice_get, All, IfOk, IfErr, IfSome, Some, None, ℕ};
ghost use Rattle.std.specs.List.{range_with_len};
ghost use Rattle.std.specs.Option.{option_map};
ghost use Rattle.xmp_map.specs.RowMajor.{product};
ghost use Rattle.xmp_num.specs.Arithmetic.{wrap};
ghost use Rattle.xmp_move.specs.Faults.{move_fault};
ghost use Rattle.xmp_move.specs.Kinds.{numbers_of};
ghost use Rattle.xmp_move.specs.Kept.{IsOfCode};
ghost use Rattle.xmp_move.specs.Laid.{IsLaidOut, grid_of};
ghost use Rattle.xmp_move.specs.Picks.{picks_of, whole_picks};
ghost use Rattle.xmp_move.specs.Ends.{HomeFits, IsAxes, held_tests, owned_tests};
ghost use Rattle.xmp_move.specs.Stores.{packed, write_all};
ghost use Rattle.xmp_move.specs.Gathers.{CanGather, gathered};
ghost use Rattle.xmp_map.specs.Nodes.{filled};
ghost use Rattle.xmp_move.specs.Plans.{IsPlanOf, Lists, error_of, fills_from, gives_over, may_give, needed_tests, peers_of, sends_to, source_of, source_picks, target_of, target_picks};

use crate::axis::Axis;
use crate::faults::move_fault;
use crate::gather::slots_from;
use crate::kind::{MoveKind, Side};
use crate::numbers::behind;
use crate::pick::{Pick, picks_of, whole_picks};
use crate::side::{held_axes, owned_axes, three_extents, weighted};
use crate::words::{pack_slots, unpack_slots};
use sqlite_items::Items;
use std::alloc::Global;
use std::marker::Model;
use xmp_base::{NODE_LIMIT, NoMemory, Words};
use xmp_num::{TrapKind, Ty};
use xmp_prog::Home;

/// Why there is no plan: the numbers break a rule on subscripts or on sections, on the source's side or on the target's; or
/// memory ran out.
#[derive(Clone, Copy, Debug, PartialEq, Eq)]
pub enum MoveError {
    Trap { kind: TrapKind, source: bool },
    NoMemory,
}

/// The slots that a node sends to each node, and those that it fills from each; of itself its own copies.
#[derive(Drop)]
pub struct Plan {
    sends: Items<Items<u32>>,
    fills: Items<Items<u32>>,
}

impl Model for Plan {
    ghost Value = { Lists };

    ghost view = { λ p. record { sends = p.sends; fills = p.fills } };
}

// ---- the sides

/// The side that is written.
fn target_of(kind: &MoveKind) -> &Side
    ensures { result.now ≡ target_of kind.now }
{
    match kind {
        MoveKind::Reflect { array } => array,
        MoveKind::Gmove { target, .. } => target,
    }
}

/// The side that is read.
fn source_of(kind: &MoveKind) -> &Side
    ensures { result.now ≡ source_of kind.now }
{
    match kind {
        MoveKind::Reflect { array } => array,
        MoveKind::Gmove { source, .. } => source,
    }
}

/// What is named of the target's dimensions.
fn target_picks(kind: &MoveKind, args: &[i64]) -> [Pick; 3]
    ensures { result ≡ target_picks kind.now args.now }
{
    match kind {
        MoveKind::Reflect { array } => whole_picks(array.extents.as_slice()),
        MoveKind::Gmove { target, .. } => picks_of(target.parts.as_slice(), args),
    }
}

/// What is named of the source's dimensions.
fn source_picks(kind: &MoveKind, args: &[i64]) -> [Pick; 3]
    ensures { result ≡ source_picks kind.now args.now }
{
    match kind {
        MoveKind::Reflect { array } => whole_picks(array.extents.as_slice()),
        MoveKind::Gmove { target, source, .. } => picks_of(
            source.parts.as_slice(),
            behind(target.parts.as_slice(), args),
        ),
    }
}

/// The number of nodes of a side's map.
fn nodes_of(home: &Home) -> Option<u32>
    ensures { result ≡ option_map (λ g. product g.sizes) (grid_of home.now) }
{
    match home {
        Home::Spread(_, map) => Some(map.template.grid.count()),
        _ => None,
    }
}

/// How many nodes a transfer has to do with.
fn peers_of(kind: &MoveKind) -> u32
    ensures { result ≡ peers_of kind.now }
{
    match nodes_of(&target_of(kind).home) {
        Some(count) => count,
        None => nodes_of(&source_of(kind).home).unwrap_or(NODE_LIMIT),
    }
}

/// Each list of a map has three items, as the code's types say.
fn items_are_three(home: &Home)
    ensures { IsOfCode home.now }
{
    if let Home::Spread(_, map) = home {
        let _aligned = map.aligned[2];
        let _spread = map.template.spread[2];
        let _sizes = map.template.grid.sizes[2];
    }
}

// ---- between two nodes

/// Whether a node may give another anything.
fn may_give(kind: &MoveKind, from: u32, to: u32) -> bool
    ensures { result ≡ may_give kind.now from to }
{
    match kind {
        MoveKind::Reflect { .. } => from != to,
        MoveKind::Gmove { source, .. } => match source.home {
            Home::Spread(_, _) => true,
            _ => from == to,
        },
    }
}

/// The dimensions of both sides: their extents, and what is named of each.
#[derive(Clone, Copy)]
struct Named {
    target: [Pick; 3],
    source: [Pick; 3],
    target_extents: [u32; 3],
    source_extents: [u32; 3],
}

/// The target's dimensions with the subscripts that a node needs.
fn needed(kind: &MoveKind, named: &Named, node: u32) -> [Axis; 3]
    requires { HomeFits (target_of kind.now).home named.now.target_extents node }
    ensures { IsAxes result named.now.target_extents named.now.target (needed_tests kind.now node) }
{
    match kind {
        MoveKind::Reflect { array } => {
            held_axes(&array.home, &named.target_extents, &named.target, node)
        }
        MoveKind::Gmove { target, .. } => {
            owned_axes(&target.home, &named.target_extents, &named.target, node)
        }
    }
}

/// The source's dimensions with the subscripts that a node owns.
fn given(kind: &MoveKind, named: &Named, node: u32) -> [Axis; 3]
    requires { HomeFits (source_of kind.now).home named.now.source_extents node }
    ensures { IsAxes result named.now.source_extents named.now.source (owned_tests (source_of kind.now).home node) }
{
    owned_axes(
        &source_of(kind).home,
        &named.source_extents,
        &named.source,
        node,
    )
}

/// The extents of both sides, and what is named of them.
fn named_of(kind: &MoveKind, args: &[i64]) -> Named
    ensures target { result.target ≡ target_picks kind.now args.now }
    ensures source { result.source ≡ source_picks kind.now args.now }
    ensures target_extents { result.target_extents ≡ filled 1 (target_of kind.now).extents }
    ensures source_extents { result.source_extents ≡ filled 1 (source_of kind.now).extents }
{
    Named {
        target: target_picks(kind, args),
        source: source_picks(kind, args),
        target_extents: three_extents(target_of(kind).extents.as_slice()),
        source_extents: three_extents(source_of(kind).extents.as_slice()),
    }
}

/// The slots that are due from a base on, where any are.
fn due_list(
    alloc: Global,
    is_due: bool,
    base: u32,
    needs: &[Axis; 3],
    gives: &[Axis; 3],
    slots: &[Axis; 3],
) -> Result<Items<u32>, NoMemory>
    requires { CanGather is_due base needs.now gives.now slots.now }
    ensures { IfOk result (λ list. list ≡ (if is_due then gathered base needs.now gives.now slots.now else [])) }
{
    if is_due {
        slots_from(alloc, base, needs, gives, slots)
    } else {
        Ok(Items::new(alloc))
    }
}

/// The slots that a node sends to each node.
fn all_sends(
    alloc: Global,
    kind: &MoveKind,
    args: &[i64],
    node: u32,
) -> Result<Items<Items<u32>>, NoMemory>
    requires laid { IsLaidOut kind.now node }
    requires numbers { length args.now ≡ numbers_of kind.now }
    requires node { node < peers_of kind.now }
    requires good { move_fault kind.now args.now ≡ None }
    ensures { IfOk result (λ lists. lists ≡ map (sends_to kind.now args.now node) (range_with_len 0 (peers_of kind.now))) }
{
    let side = source_of(kind);
    items_are_three(&target_of(kind).home);
    items_are_three(&side.home);
    let named = named_of(kind, args);
    let gives = given(kind, &named, node);
    let held = held_axes(&side.home, &named.source_extents, &named.source, node);
    let slots = weighted(&held);
    let mut lists = Items::new(alloc);
    for to in 0..peers_of(kind) {
        let needs = needed(kind, &named, to);
        let is_due = may_give(kind, node, to);
        let list = due_list(alloc, is_due, side.base, &needs, &gives, &slots)?;
        lists.push(list)?;
    }
    Ok(lists)
}

/// The slots that it fills from each node.
fn all_fills(
    alloc: Global,
    kind: &MoveKind,
    args: &[i64],
    node: u32,
) -> Result<Items<Items<u32>>, NoMemory>
    requires laid { IsLaidOut kind.now node }
    requires numbers { length args.now ≡ numbers_of kind.now }
    requires node { node < peers_of kind.now }
    requires good { move_fault kind.now args.now ≡ None }
    ensures { IfOk result (λ lists. lists ≡ map (fills_from kind.now args.now node) (range_with_len 0 (peers_of kind.now))) }
{
    let side = target_of(kind);
    items_are_three(&side.home);
    items_are_three(&source_of(kind).home);
    let named = named_of(kind, args);
    let needs = needed(kind, &named, node);
    let held = held_axes(&side.home, &named.target_extents, &named.target, node);
    let slots = weighted(&held);
    let mut lists = Items::new(alloc);
    for from in 0..peers_of(kind) {
        let gives = given(kind, &named, from);
        let is_due = may_give(kind, from, node);
        let list = due_list(alloc, is_due, side.base, &needs, &gives, &slots)?;
        lists.push(list)?;
    }
    Ok(lists)
}

// ---- the plan

fn good_plan(alloc: Global, kind: &MoveKind, args: &[i64], node: u32) -> Result<Plan, NoMemory>
    requires laid { IsLaidOut kind.now node }
    requires numbers { length args.now ≡ numbers_of kind.now }
    requires node { node < peers_of kind.now }
    requires good { move_fault kind.now args.now ≡ None }
    ensures { IfOk result (λ p. IsPlanOf kind.now args.now node p) }
{
    items_are_three(&target_of(kind).home);
    items_are_three(&source_of(kind).home);
    let sends = all_sends(alloc, kind, args, node)?;
    match all_fills(alloc, kind, args, node) {
        Ok(fills) => Ok(Plan { sends, fills }),
        Err(NoMemory) => {
            drop(sends);
            Err(NoMemory)
        }
    }
}

/// The plan of a node for a transfer. The numbers are the target's, then the source's. It traps exactly where `move_fault` says,
/// and by that fault, so a reflect never does; where there is none, the one error is want of memory.
pub fn plan_of(alloc: Global, kind: &MoveKind, args: &[i64], node: u32) -> Result<Plan, MoveError>
    requires laid { IsLaidOut kind.now node }
    requires numbers { length args.now ≡ numbers_of kind.now }
    requires node { node < peers_of kind.now }
    ensures plan { IfOk result (λ p. IsPlanOf kind.now args.now node p) }
    ensures good { IfOk result (λ _. move_fault kind.now args.now ≡ None) }
    ensures error { IfErr result (λ e. e ≡ error_of (move_fault kind.now args.now)) }
{
    match move_fault(kind, args) {
        Some(fault) => Err(MoveError::Trap {
            kind: fault.kind,
            source: fault.source,
        }),
        None => match good_plan(alloc, kind, args, node) {
            Ok(plan) => Ok(plan),
            Err(NoMemory) => Err(MoveError::NoMemory),
        },
    }
}

impl Plan {
    /// The slots that the node sends to another, in row-major order of the target's cells.
    pub fn sends(&self, to: u32) -> &[u32]
        requires { to < length self.now.sends }
        ensures { slice_get self.now.sends to ≡ Some result.now }
    {
        self.sends.as_slice()[to as usize].as_slice()
    }

    /// The slots that it fills from another, in the same order.
    pub fn fills(&self, from: u32) -> &[u32]
        requires { from < length self.now.fills }
        ensures { slice_get self.now.fills from ≡ Some result.now }
    {
        self.fills.as_slice()[from as usize].as_slice()
    }
}

/// The words that a node sends to another: those in its store's slots.
pub fn pack(alloc: Global, plan: &Plan, store: &[i64], to: u32) -> Result<Words, NoMemory>
    requires node { to < length plan.now.sends }
    requires inside { IfSome (slice_get plan.now.sends to) (λ slots. All (λ s. s < length store.now) slots) }
    ensures { IfOk result (λ words. IfSome (slice_get plan.now.sends to) (λ slots. words ≡ packed store.now slots)) }
{
    pack_slots(alloc, store, plan.sends(to))
}

/// Writes the words from another node, each converted to a type, into the slots that are filled from it.
pub fn unpack(plan: &Plan, store: &mut [i64], from: u32, words: &[i64], ty: Ty)
    requires node { from < length plan.now.fills }
    requires inside { IfSome (slice_get plan.now.fills from) (λ slots. All (λ s. s < length store.old) slots) }
    requires long { IfSome (slice_get plan.now.fills from) (λ slots. length words.now ≡ length slots) }
    ensures { IfSome (slice_get plan.now.fills from)
        (λ slots. store.new ≡ write_all store.old slots (map (wrap ty) words.now)) }
{
    unpack_slots(store, plan.fills(from), words, ty);
}

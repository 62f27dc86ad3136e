// Transfers in the code of a node, which are laid out.
ghost use Rattle.std.specs.Prelude.{◌≡◌, ◌≤◌, ◌<◌, [], ◌∷◌, IsTrue, IfOk, IfSome, MatchOption, length};
ghost use Rattle.std.specs.List.{sum_by};
ghost use Rattle.xmp_move.specs.Numbers.{asked};
ghost use Rattle.xmp_move.specs.Kinds.{numbers_of};
ghost use Rattle.xmp_instr.specs.Valid.{IsValid, MoveFits};

use crate::shapes::{Form, Shape, Stop, home_of, side_of, words_of};
use sqlite_items::Items;
use std::alloc::Global;
use xmp_base::Place;
use xmp_instr::{CodeParts, Instr, Meeting, NodeCode};
use xmp_move::{MoveError, MoveKind, Plan, SidePart, plan_of};
use xmp_num::Ty;
use xmp_prog::Home;

const AT: Place = Place { line: 1, column: 1 };

// A reflect of an array, or a gmove between two, or within one.
#[derive(Clone, Copy)]
pub enum Moves {
    Reflect(Shape),
    Between(Shape, Shape),
    Within(Shape, &'static [SidePart]),
}

// The target, and the source where it is another array.
pub fn arrays(moves: &Moves) -> (Shape, Option<Shape>) {
    match *moves {
        Moves::Reflect(shape) => (shape, None),
        Moves::Between(target, source) => (target, Some(source)),
        Moves::Within(shape, _) => (shape, None),
    }
}

// The source stands behind the target's words.
pub fn source_base(moves: &Moves, node: u32) -> Result<u32, Stop> {
    match *moves {
        Moves::Between(target, _) => words_of(&home_of(&target)?, target.1, node),
        _ => Ok(0),
    }
}

fn gmove_of(
    alloc: Global,
    target: &Shape,
    source: &Shape,
    base: u32,
    ty: Ty,
) -> Result<MoveKind, Stop> {
    let target = side_of(alloc, target, 0)?;
    match side_of(alloc, source, base) {
        Ok(source) => Ok(MoveKind::Gmove { target, source, ty }),
        Err(stop) => {
            drop(target);
            Err(stop)
        }
    }
}

fn kind_of(alloc: Global, moves: &Moves, ty: Ty, node: u32) -> Result<MoveKind, Stop> {
    match *moves {
        Moves::Reflect(shape) => {
            let array = side_of(alloc, &shape, 0)?;
            Ok(MoveKind::Reflect { array })
        }
        Moves::Between(target, source) => {
            let base = source_base(moves, node)?;
            gmove_of(alloc, &target, &source, base, ty)
        }
        Moves::Within(shape, parts) => {
            gmove_of(alloc, &shape, &Shape(shape.0, shape.1, parts), 0, ty)
        }
    }
}

// How many nodes an array has, where it doesn't lie on every node.
fn nodes_under(shape: &Shape) -> Result<Option<u32>, Stop> {
    match home_of(shape)? {
        Home::Spread(_, map) => Ok(Some(map.template.grid.count())),
        _ => Ok(None),
    }
}

// How many nodes there are.
pub fn nodes_of(moves: &Moves) -> Result<u32, Stop> {
    let (target, source) = arrays(moves);
    let source = source.unwrap_or(Shape(Form::Copied, &[], &[]));
    match (nodes_under(&target)?, nodes_under(&source)?) {
        (Some(nodes), _) => Ok(nodes),
        (None, Some(nodes)) => Ok(nodes),
        (None, None) => Ok(3),
    }
}

fn meetings(alloc: Global, kind: MoveKind) -> Result<Items<Meeting>, Stop> {
    let mut all = Items::new(alloc);
    let meeting = Meeting::Move {
        kind,
        target_at: AT,
        source_at: AT,
    };
    match all.push(meeting) {
        Ok(()) => Ok(all),
        Err(failed) => {
            drop(failed);
            drop(all);
            Err(Stop::Memory)
        }
    }
}

fn end(alloc: Global) -> Result<(Items<Instr>, Items<u32>), Stop> {
    let Ok(instrs) = Items::from_slice(alloc, &[Instr::End]) else {
        return Err(Stop::Memory);
    };
    let Ok(depths) = Items::from_slice(alloc, &[0]) else {
        return Err(Stop::Memory);
    };
    Ok((instrs, depths))
}

// The code of a node with one transfer, and nothing else.
fn parts_of(
    alloc: Global,
    kind: MoveKind,
    node: u32,
    nodes: u32,
    words: u32,
) -> Result<CodeParts, Stop> {
    let meetings = meetings(alloc, kind)?;
    let both = match end(alloc) {
        Ok(both) => both,
        Err(stop) => {
            drop(meetings);
            return Err(stop);
        }
    };
    Ok(CodeParts {
        node,
        nodes,
        steps: 0,
        words,
        image: None,
        depth: 0,
        instrs: both.0,
        depths: both.1,
        calls: 0,
        formats: Items::new(alloc),
        maps: Items::new(alloc),
        templates: Items::new(alloc),
        meetings,
        guards: Items::new(alloc),
    })
}

pub fn code_of(
    alloc: Global,
    moves: &Moves,
    ty: Ty,
    node: u32,
    words: u32,
) -> Result<NodeCode, Stop> {
    let nodes = nodes_of(moves)?;
    let kind = kind_of(alloc, moves, ty, node)?;
    match NodeCode::new(parts_of(alloc, kind, node, nodes, words)?) {
        Ok(code) => Ok(code),
        Err(bad) => {
            drop(bad);
            Err(Stop::Code)
        }
    }
}

// The transfer of a code, where it has this one meeting.
fn kind_in(code: &NodeCode) -> Option<&MoveKind>
    ensures { IfSome result (λ kind. MoveFits code.now kind.now) }
{
    match code.parts().meetings.as_slice() {
        [Meeting::Move { kind, .. }] => Some(kind),
        _ => None,
    }
}

fn asked(part: SidePart) -> usize
    ensures { result ≡ asked part }
{
    match part {
        SidePart::One => 1,
        SidePart::Many => 3,
    }
}

// How many numbers the target's side takes.
pub fn target_asks(moves: &Moves) -> usize {
    let (target, _) = arrays(moves);
    let mut all = 0usize;
    for part in target.2 {
        all = all.saturating_add(asked(*part));
    }
    all
}

// The first part, and those behind it.
#[tactic(auto, using(std::proofs::lemmas::List::nil_from_length))]
fn split(parts: &[SidePart]) -> Option<(&SidePart, &[SidePart])>
    ensures { MatchOption result (parts.now ≡ []) (λ p. parts.now ≡ p.0.now ∷ p.1.now) }
{
    parts.split_first()
}

// Whether so many numbers are asked for.
fn ask_for(parts: &[SidePart], count: usize) -> bool
    ensures { IsTrue result → sum_by asked parts.now ≡ count }
{
    match split(parts) {
        None => count == 0,
        Some((part, behind)) => match count.checked_sub(asked(*part)) {
            None => false,
            Some(left) => ask_for(behind, left),
        },
    }
}

fn asks_for(kind: &MoveKind, to: usize, count: usize) -> bool
    ensures { IsTrue result → count ≡ numbers_of kind.now }
{
    match kind {
        MoveKind::Reflect { .. } => count == 0,
        MoveKind::Gmove { target, source, .. } => {
            to <= count
                && ask_for(target.parts.as_slice(), to)
                && ask_for(source.parts.as_slice(), count - to)
        }
    }
}

// The plan in a code. The first so many of the numbers are the target's.
pub fn plan_in(alloc: Global, code: &NodeCode, to: usize, args: &[i64]) -> Result<Plan, Stop>
    ensures sends { IfOk result (λ p. code.now.nodes ≤ length p.sends) }
    ensures fills { IfOk result (λ p. code.now.nodes ≤ length p.fills) }
{
    match kind_in(code) {
        None => Err(Stop::Code),
        Some(kind) => {
            if asks_for(kind, to, args.len()) {
                match plan_of(alloc, kind, args, code.parts().node) {
                    Ok(plan) => Ok(plan),
                    Err(MoveError::Trap { .. }) => Err(Stop::Trap),
                    Err(MoveError::NoMemory) => Err(Stop::Memory),
                }
            } else {
                Err(Stop::Code)
            }
        }
    }
}

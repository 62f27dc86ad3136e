// How many values the open call has on the stack, before each instruction and along its steps.
ghost use Rattle.std.specs.Prelude.{◌≡◌, ◌↔◌, ◌+◌, ◌-◌, ◌^◌, ◌<◌, ◌≤◌, IsTrue, MatchOption, length, slice_get};
ghost use Rattle.std.specs.List.{sum_by};
ghost use Rattle.xmp_move.specs.Numbers as numbers;
ghost use Rattle.xmp_move.specs.Kinds.{numbers_of};
ghost use Rattle.xmp_instr.specs.Depths.{Agrees, IsDepth, IsFine, IsTarget, finds, format_needs, leaves, meeting_needs, needs};
ghost use Rattle.xmp_instr.specs.Effects.{numbers_for};
ghost use Rattle.xmp_instr.specs.Valid.{AreFine, FineAt};

use crate::formats::asked;
use crate::instr::Instr;
use crate::meeting::Meeting;
use crate::parts::CodeParts;
use xmp_move::{MoveKind, SidePart};

/// Whether there are `d` values before the instruction with number `p`.
pub fn is_depth(parts: &CodeParts, p: usize, d: u64) -> bool
    ensures { IsTrue result ↔ IsDepth parts.now p d }
{
    match parts.depths.get(p) {
        Some(depth) => u64::from(*depth) == d,
        None => false,
    }
}

// ---- what is below the values that an instruction finds

fn asked_by(part: SidePart) -> u64
    ensures { result ≡ numbers.asked part }
{
    match part {
        SidePart::One => 1,
        SidePart::Many => 3,
    }
}

/// What is left of so many values once a side has its numbers.
fn without_side(side: &[SidePart], d: u64) -> Option<u64>
    ensures { MatchOption result (d < sum_by numbers.asked side.now)
        (λ left. left + sum_by numbers.asked side.now ≡ d) }
{
    let mut left = d;
    'parts: for part in side {
        match left.checked_sub(asked_by(*part)) {
            Some(rest) => left = rest,
            None => return None,
        }
    }
    Some(left)
}

fn without_numbers(meeting: &Meeting, d: u64) -> Option<u64>
    ensures { MatchOption result (d < numbers_for meeting.now) (λ left. left + numbers_for meeting.now ≡ d) }
{
    match meeting {
        Meeting::Barrier => Some(d),
        Meeting::Cast { .. } => Some(d),
        Meeting::Move { kind, .. } => without_move(kind, d),
        Meeting::LoopEnd(_) => Some(d),
        Meeting::TaskEnd(_) => Some(d),
    }
}

fn without_move(kind: &MoveKind, d: u64) -> Option<u64>
    ensures { MatchOption result (d < numbers_of kind.now) (λ left. left + numbers_of kind.now ≡ d) }
{
    match kind {
        MoveKind::Reflect { .. } => Some(d),
        MoveKind::Gmove { target, source, .. } => {
            let left = without_side(target.parts.as_slice(), d)?;
            without_side(source.parts.as_slice(), left)
        }
    }
}

fn finds(instr: Instr) -> u64
    ensures { result ≡ finds instr }
{
    match instr {
        Instr::SaveAt(..) | Instr::Fold(_) | Instr::Bin(..) | Instr::NextMine(..) | Instr::Put => 2,
        Instr::Drop
        | Instr::Dup
        | Instr::Save(_)
        | Instr::LoadAt(..)
        | Instr::Bound(..)
        | Instr::Local(..)
        | Instr::Conv(_)
        | Instr::JumpZero(_)
        | Instr::Return
        | Instr::Scan(_)
        | Instr::Get
        | Instr::Lift(_) => 1,
        Instr::Mine(_, n) => u64::from(n),
        _ => 0,
    }
}

fn leaves(instr: Instr) -> u64
    ensures count { result ≡ leaves instr }
    ensures most { result ≤ 2 }
{
    match instr {
        Instr::Dup => 2,
        Instr::Push(_)
        | Instr::Load(_)
        | Instr::LoadAt(..)
        | Instr::Bound(..)
        | Instr::Fold(_)
        | Instr::Local(..)
        | Instr::Bin(..)
        | Instr::Conv(_)
        | Instr::Call(_)
        | Instr::Return
        | Instr::Mine(..)
        | Instr::NextMine(..)
        | Instr::Noted
        | Instr::Get => 1,
        _ => 0,
    }
}

/// What is left of so many values below those that an instruction finds.
fn below(parts: &CodeParts, instr: Instr, d: u64) -> Option<u64>
    ensures { MatchOption result (d < needs parts.now instr) (λ left. left + needs parts.now instr ≡ d) }
{
    match instr {
        Instr::Print(f) => match parts.formats.get(f as usize) {
            Some(format) => d.checked_sub(asked(format.as_slice()) as u64),
            None => Some(d),
        },
        Instr::Exchange(e) => match parts.meetings.get(e as usize) {
            Some(meeting) => without_numbers(meeting, d),
            None => Some(d),
        },
        _ => d.checked_sub(finds(instr)),
    }
}

// ---- along the steps

fn is_target(parts: &CodeParts, g: usize) -> bool
    ensures { IsTrue result ↔ IsTarget parts.now (slice_get parts.now.guards g) }
{
    match parts.guards.get(g) {
        Some(guard) => is_depth(parts, guard.target as usize, 0),
        None => false,
    }
}

/// Whether the depths agree along the steps of an instruction, which leaves so many values below those that it finds.
fn agrees(parts: &CodeParts, p: usize, d: u64, left: u64, instr: Instr) -> bool
    requires place { p < length parts.now.instrs }
    requires depth { d < 2 ^ 32 }
    requires left { left + needs parts.now instr ≡ d }
    ensures { IsTrue result ↔ Agrees parts.now p d instr }
{
    let _count = parts.instrs.len();
    match instr {
        Instr::Jump(k) => is_depth(parts, k as usize, d),
        Instr::JumpZero(k) => is_depth(parts, k as usize, left) && is_depth(parts, p + 1, left),
        Instr::Call(k) => is_depth(parts, k as usize, 0) && is_depth(parts, p + 1, d + 1),
        Instr::Return => d == 1,
        Instr::Guard(g) => is_target(parts, g as usize) && is_depth(parts, p + 1, d),
        Instr::End => true,
        _ => is_depth(parts, p + 1, left + leaves(instr)),
    }
}

fn is_fine(parts: &CodeParts, p: usize, d: u64, instr: Instr) -> bool
    requires place { p < length parts.now.instrs }
    requires depth { d < 2 ^ 32 }
    ensures { IsTrue result ↔ IsFine parts.now p d instr }
{
    match below(parts, instr, d) {
        Some(left) => agrees(parts, p, d, left, instr),
        None => false,
    }
}

fn is_fine_at(parts: &CodeParts, p: usize, instr: Instr) -> bool
    requires place { p < length parts.now.instrs }
    ensures { IsTrue result ↔ FineAt parts.now p instr }
{
    match parts.depths.get(p) {
        Some(d) => is_fine(parts, p, u64::from(*d), instr),
        None => true,
    }
}

/// Whether each instruction finds its values, and the depths agree along its steps.
pub fn are_fine(parts: &CodeParts) -> bool
    ensures { IsTrue result ↔ AreFine parts.now }
{
    let instrs = parts.instrs.as_slice();
    'steps: for (p, instr) in instrs.iter().enumerate() {
        if !is_fine_at(parts, p, *instr) {
            return false;
        }
    }
    true
}

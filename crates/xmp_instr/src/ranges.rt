// What instructions name.
ghost use Rattle.std.specs.Prelude.{◌↔◌, ◌+◌, ◌≤◌, IsTrue, slice_get, ◌<◌, length};
ghost use Rattle.xmp_instr.specs.Valid.{Closes, HasAxis, HasDimension, HasDimensions, InRange};
ghost use Rattle.std.specs.List.{last_or};
ghost use Rattle.std.specs.Prelude.{None, Some};

use crate::instr::Instr;
use crate::parts::CodeParts;
use crate::test::Test;

fn has_dimension(parts: &CodeParts, m: u32, d: u32) -> bool
    ensures { IsTrue result ↔ HasDimension (slice_get parts.now.maps m) d }
{
    match parts.maps.get(m as usize) {
        Some(map) => d < map.dims(),
        None => false,
    }
}

fn has_axis(parts: &CodeParts, t: u32, d: u32) -> bool
    ensures { IsTrue result ↔ HasAxis (slice_get parts.now.templates t) d }
{
    match parts.templates.get(t as usize) {
        Some(template) => d < template.dims(),
        None => false,
    }
}

fn has_dimensions(parts: &CodeParts, t: u32, n: u32) -> bool
    ensures { IsTrue result ↔ HasDimensions (slice_get parts.now.templates t) n }
{
    match parts.templates.get(t as usize) {
        Some(template) => n == template.dims(),
        None => false,
    }
}

fn is_slice(parts: &CodeParts, base: u32, length: u32) -> bool
    ensures { IsTrue result ↔ (base + length ≤ parts.now.words) }
{
    u64::from(base) + u64::from(length) <= u64::from(parts.words)
}

fn is_place(parts: &CodeParts, k: u32) -> bool
    ensures { IsTrue result ↔ (k < length parts.now.instrs) }
{
    (k as usize) < parts.instrs.len()
}

/// What instructions name is there.
pub struct Ranges;

impl Test for Ranges {
    type Item = Instr;

    ghost holds = { InRange };

    fn passes(parts: &CodeParts, instr: &Instr) -> bool {
        match *instr {
            Instr::Load(slot) => slot < parts.words,
            Instr::Save(slot) => slot < parts.words,
            Instr::LoadAt(base, length) => is_slice(parts, base, length),
            Instr::SaveAt(base, length) => is_slice(parts, base, length),
            Instr::Local(m, d) => has_dimension(parts, m, d),
            Instr::Jump(k) => is_place(parts, k),
            Instr::JumpZero(k) => is_place(parts, k),
            Instr::Call(k) => is_place(parts, k),
            Instr::Mine(t, n) => has_dimensions(parts, t, n),
            Instr::NextMine(t, d) => has_axis(parts, t, d),
            Instr::Guard(g) => (g as usize) < parts.guards.len(),
            Instr::Print(f) => (f as usize) < parts.formats.len(),
            Instr::Exchange(e) => (e as usize) < parts.meetings.len(),
            _ => true,
        }
    }
}

fn closes(instr: Instr) -> bool
    ensures { IsTrue result ↔ Closes (Some instr) }
{
    match instr {
        Instr::End => true,
        Instr::Return => true,
        Instr::Jump(_) => true,
        _ => false,
    }
}

/// Whether the last instruction ends the code, returns or jumps.
pub fn is_closed(parts: &CodeParts) -> bool
    ensures { IsTrue result ↔ Closes (last_or None parts.now.instrs) }
{
    match parts.instrs.as_slice().last() {
        Some(instr) => closes(*instr),
        None => false,
    }
}

// The lines that an answer writes.
ghost use Rattle.std.specs.Prelude.{◌≡◌, ◌++◌, [], ◌∷◌, IfOk, OnOk};
ghost use Rattle.xmp_top.specs.Lines.{at_place, decimal, letter_of, line, place_text, refused_text, trap_word, trapped_text};

use std::alloc::Global;
use xmp_base::{Bytes, NoMemory, Phase, Place, Refusal};
use xmp_num::{TrapKind, render};

/// The letter of a phase's rules.
fn letter_of(phase: Phase) -> &'static [u8]
    ensures { result.now ≡ letter_of phase }
{
    match phase {
        Phase::Lex => b"L",
        Phase::Macro => b"E",
        Phase::Syntax => b"S",
        Phase::Procedure => b"Q",
        Phase::Subset => b"P",
        Phase::Names => b"N",
        Phase::Mapping => b"M",
        Phase::Flow => b"F",
        Phase::Coarray => b"C",
        Phase::Script => b"O",
    }
}

fn trap_word(kind: TrapKind) -> &'static [u8]
    ensures { result.now ≡ trap_word kind }
{
    match kind {
        TrapKind::Zero => b"zero",
        TrapKind::Subscript => b"subscript",
        TrapKind::Shift => b"shift",
        TrapKind::Section => b"section",
    }
}

fn push_number(alloc: Global, out: &mut Bytes, number: u32) -> Result<(), NoMemory>
    ensures { OnOk result (out.new ≡ out.old ++ decimal number) }
{
    render(alloc, out, number as i64, 0)
}

// As `13:40`.
fn push_place(alloc: Global, out: &mut Bytes, at: Place) -> Result<(), NoMemory>
    ensures { OnOk result (out.new ≡ out.old ++ place_text at) }
{
    push_number(alloc, out, at.line)?;
    out.push_all(b":")?;
    push_number(alloc, out, at.column)
}

// As ` at 13:40` and a line feed.
fn push_end(alloc: Global, out: &mut Bytes, at: Place) -> Result<(), NoMemory>
    ensures { OnOk result (out.new ≡ out.old ++ line (at_place at)) }
{
    out.push_all(b" at ")?;
    push_place(alloc, out, at)?;
    out.push(b'\n')
}

/// As `refused N1 at 1:27` and a line feed.
pub fn refused_line(alloc: Global, refusal: Refusal) -> Result<Bytes, NoMemory>
    ensures { IfOk result (λ b. b ≡ line (refused_text refusal)) }
{
    let mut out = Bytes::new(alloc);
    out.push_all(b"refused ")?;
    out.push_all(letter_of(refusal.phase))?;
    push_number(alloc, &mut out, refusal.rule as u32)?;
    push_end(alloc, &mut out, refusal.at)?;
    Ok(out)
}

/// As `trapped zero at 8:79` and a line feed.
pub fn trapped_line(alloc: Global, kind: TrapKind, at: Place) -> Result<Bytes, NoMemory>
    ensures { IfOk result (λ b. b ≡ line (trapped_text kind at)) }
{
    let mut out = Bytes::new(alloc);
    out.push_all(b"trapped ")?;
    out.push_all(trap_word(kind))?;
    push_end(alloc, &mut out, at)?;
    Ok(out)
}

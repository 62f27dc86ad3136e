// The three words by which a node says how a part or a task ended, written and read.
ghost use Rattle.std.specs.Prelude.{◌≡◌, ◌≤◌, ◌+◌, ◌-◌, ◌∷◌, [], ◌+ℤ◌, ◌*ℤ◌, pos, MatchOption, length, ◌≢◌};
ghost use Rattle.std.specs.Int.{int_rem_euclid, int_div_euclid};
ghost use Rattle.std.specs.Option.{option_map};
ghost use Rattle.xmp_num.specs.Arithmetic.{wrap};
ghost use Rattle.xmp_num.specs.declared.types.Ty.TheVariants.{Int, Long};
ghost use Rattle.xmp_meaning.specs.Expressions.{natural};
ghost use Rattle.xmp_meaning.specs.TrapWords.{both_halves, high_half, kind_number, kind_of_number, low_half, trap_of_words, trap_said, trap_words};
ghost use Rattle.xmp_instr.specs.Resumed.{loop_end_read, read_back, task_end_read, without_indices, words_of};
ghost use Rattle.xmp_code.specs.Ends.{said_of, said_of_each};

use xmp_base::Place;
use xmp_num::{TrapKind, Ty, convert};

/// A trap that was said, with three indices.
#[derive(Clone, Copy)]
pub struct TrapSaid {
    pub kind: TrapKind,
    pub at: Place,
    pub first: i64,
    pub second: i64,
    pub third: i64,
}

const HALF: i64 = 1 << 32;

#[tactic(auto, using(xmp_num::proofs::Wraps::wrapped))]
fn product(a: i64, b: i64) -> i64
    ensures { result ≡ wrap Long (a *ℤ b) }
{
    convert(a.wrapping_mul(b), Ty::Long)
}

#[tactic(auto, using(xmp_num::proofs::Wraps::wrapped))]
fn sum(a: i64, b: i64) -> i64
    ensures { result ≡ wrap Long (a +ℤ b) }
{
    convert(a.wrapping_add(b), Ty::Long)
}

/// `a * n + b`, wrapping.
pub fn folded(a: i64, n: i64, b: i64) -> i64
    ensures { result ≡ wrap Long ((a *ℤ n) +ℤ b) }
{
    sum(product(a, n), b)
}

fn low_half(z: i64) -> i64
    ensures { result ≡ low_half z }
{
    z.rem_euclid(HALF)
}

/// The value modulo 2^32.
fn low_number(z: i64) -> u32
    ensures number { result ≡ natural (low_half z) }
    ensures value { pos result ≡ low_half z }
{
    z.rem_euclid(HALF) as u32
}

fn high_half(z: i64) -> i64
    ensures { result ≡ high_half z }
{
    z.div_euclid(HALF)
}

fn both_halves(high: i64, low: i64) -> i64
    ensures { result ≡ both_halves high low }
{
    folded(high, HALF, low_half(low))
}

/// The number of a kind: 0 to 3.
pub fn kind_number(kind: TrapKind) -> u32
    ensures number { result ≡ kind_number kind }
    ensures most { result ≤ 3 }
{
    match kind {
        TrapKind::Zero => 0,
        TrapKind::Subscript => 1,
        TrapKind::Shift => 2,
        TrapKind::Section => 3,
    }
}

/// The kind with a number.
pub fn kind_of_number(number: u64) -> TrapKind
    ensures { result ≡ kind_of_number number }
{
    match number {
        0 => TrapKind::Zero,
        1 => TrapKind::Subscript,
        2 => TrapKind::Shift,
        _ => TrapKind::Section,
    }
}

// ---- written

fn first_word(kind: TrapKind, third: i64) -> i64
    ensures { result ≡ pos (1 + kind_number kind) +ℤ (pos 8 *ℤ low_half third) }
{
    let kind = 1 + u64::from(kind_number(kind));
    (kind + 8 * u64::from(low_number(third))) as i64
}

fn place_word(at: Place) -> i64
    ensures { result ≡ both_halves (pos at.line) (pos at.column) }
{
    both_halves(i64::from(at.line), i64::from(at.column))
}

/// The words of a trap.
pub fn trap_words(t: TrapSaid) -> [i64; 3]
    ensures { result ≡ trap_words t.kind t.at t.first t.second t.third }
{
    [
        first_word(t.kind, t.third),
        both_halves(t.first, t.second),
        place_word(t.at),
    ]
}

/// The words of a trap, or of none.
pub fn end_words(trap: Option<TrapSaid>) -> [i64; 3]
    ensures { result ≡ words_of (option_map said_of trap) }
{
    match trap {
        Some(t) => trap_words(t),
        None => [0, 0, 0],
    }
}

// ---- read

fn kind_said(a: i64) -> TrapKind
    ensures { result ≡ kind_of_number (natural (int_rem_euclid a (pos 8)) - 1) }
{
    kind_of_number((a.rem_euclid(8) as u64).saturating_sub(1))
}

fn place_said(c: i64) -> Place
    ensures { result ≡ record { line = natural (low_half (high_half c)); column = natural (low_half c) } }
{
    Place {
        line: low_number(high_half(c)),
        column: low_number(c),
    }
}

fn second_said(b: i64) -> i64
    ensures { result ≡ wrap Int (low_half b) }
{
    convert(low_half(b), Ty::Int)
}

fn third_said(a: i64) -> i64
    ensures { result ≡ wrap Int (int_div_euclid a (pos 8)) }
{
    convert(a.div_euclid(8), Ty::Int)
}

fn trap_of_words(a: i64, b: i64, c: i64) -> TrapSaid
    ensures { said_of result ≡ trap_of_words a b c }
{
    TrapSaid {
        kind: kind_said(a),
        at: place_said(c),
        first: high_half(b),
        second: second_said(b),
        third: third_said(a),
    }
}

fn trap_said(a: i64, b: i64, c: i64) -> Option<TrapSaid>
    ensures { option_map said_of result ≡ trap_said (a ∷ b ∷ c ∷ []) }
{
    if a == 0 {
        return None;
    }
    Some(trap_of_words(a, b, c))
}

fn without_indices(trap: Option<TrapSaid>) -> Option<TrapSaid>
    ensures { option_map said_of result ≡ option_map without_indices (option_map said_of trap) }
{
    let t = trap?;
    Some(TrapSaid {
        first: 0,
        second: 0,
        third: 0,
        ..t
    })
}

/// What was read, where the words are those of it.
fn read_back(trap: Option<TrapSaid>, words: &[i64]) -> Option<Option<TrapSaid>>
    ensures { said_of_each result ≡ read_back (option_map said_of trap) words.now }
{
    let due = end_words(trap);
    if due.as_slice() == words {
        Some(trap)
    } else {
        None
    }
}

/// Three words, where there are just so many.
fn three(words: &[i64]) -> Option<(i64, i64, i64)>
    ensures { MatchOption result (length words.now ≢ 3) (λ p. words.now ≡ p.0 ∷ p.1 ∷ p.2 ∷ []) }
{
    if words.len() != 3 {
        return None;
    }
    Some((words[0], words[1], words[2]))
}

/// The trap that three words of a loop's end say, or that there was none; nothing where they are no such words.
pub fn loop_end_read(words: &[i64]) -> Option<Option<TrapSaid>>
    ensures { said_of_each result ≡ loop_end_read words.now }
{
    match three(words) {
        Some((a, b, c)) => read_back(trap_said(a, b, c), words),
        None => None,
    }
}

/// The same of three words of a task's end, which have no index.
pub fn task_end_read(words: &[i64]) -> Option<Option<TrapSaid>>
    ensures { said_of_each result ≡ task_end_read words.now }
{
    match three(words) {
        Some((a, b, c)) => read_back(without_indices(trap_said(a, b, c)), words),
        None => None,
    }
}

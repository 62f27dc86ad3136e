// The syncs of a program in order, and the first of them at which rule C1 breaks.
ghost use Rattle.std.specs.Prelude.{◌≡◌, ◌++◌, ◌≤◌, ◌+◌, true, min, Some, map, FitsSigned, OnOk, IfOk};
ghost use Rattle.std.specs.Int.{w32};
ghost use Rattle.xmp_base.specs.First.{IsFirst};
ghost use Rattle.xmp_num.specs.declared.types.Ty.TheVariants.{Int};
ghost use Rattle.xmp_num.specs.Arithmetic.{wrap};
ghost use Rattle.xmp_meaning.specs.Loops.{turn_count};
ghost use Rattle.xmp_races.specs.Syncs.{BreaksAtStop, all_stops, breaks_at, gap, in_loop, misplaced, most, one_value, outermost_rounds, plain_stops, stopped_at, stops_of, turns_between, turns_of};

use crate::loops::natural;
use sqlite_items::{Items, at};
use std::alloc::Global;
use xmp_base::{NoMemory, Phase, Place, Refusal, Words, earlier};
use xmp_num::{Ty, convert};
use xmp_prog::{LoopHead, Plain, Stmt, Task};
use xmp_spots::{Variables, image_values};

// The most phases of a program.
const MOST: u64 = 4_294_967_296;

/// What stands round a statement: whether it is blocks and counted loops with the same turns on each image alone, and how
/// often these loops come to it, at most 4,294,967,296 times.
#[derive(Clone, Copy)]
pub struct Rounds {
    pub placed: bool,
    pub turns: u64,
}

/// An `xmp_sync_all`: the place of its word, and what stands round it.
#[derive(Clone, Copy)]
pub struct Stop {
    pub at: Place,
    pub rounds: Rounds,
}

// The one value that all images have.
fn one_value(values: &Option<Words>) -> Option<i64>
    ensures { result ≡ one_value values.now }
{
    match values {
        Some(values) => same_value(values.as_slice()),
        None => None,
    }
}

// The value of all of these.
fn same_value(values: &[i64]) -> Option<i64>
    ensures { result ≡ one_value (Some values.now) }
{
    let first = match at(values, 0) {
        Some(first) => *first,
        None => return None,
    };
    'values: for value in values {
        if *value != first {
            return None;
        }
    }
    Some(first)
}

// A value of the type int.
#[tactic(auto, using(crate::proofs::StopLaws::int_fits))]
fn to_int(value: i64) -> i64
    ensures value { result ≡ wrap Int value }
    ensures fits { FitsSigned w32 result }
{
    convert(value, Ty::Int)
}

// How far a bound is above the first value.
fn gap(from: i64, to: i64, inclusive: bool) -> i64
    requires from { FitsSigned w32 from }
    requires to { FitsSigned w32 to }
    ensures { result ≡ gap from to inclusive }
{
    to - from + i64::from(inclusive)
}

// How many turns a counted loop makes at most: none where its step is 0.
fn turn_count(from: i64, to: i64, inclusive: bool, step: u32) -> u64
    requires from { FitsSigned w32 from }
    requires to { FitsSigned w32 to }
    ensures { result ≡ turn_count from to inclusive step }
{
    if step == 0 {
        return 0;
    }
    (natural(gap(from, to, inclusive)) + (u64::from(step) - 1)) / u64::from(step)
}

// The turns of a counted loop, where they are the same on each image.
fn turns_of(
    alloc: Global,
    count: u32,
    values: &Variables,
    h: &LoopHead,
) -> Result<Option<u64>, NoMemory>
    ensures { IfOk result (λ turns. turns ≡ turns_of count values.now h.now) }
{
    let from = one_value(&image_values(alloc, count, values, &h.from)?);
    let to = one_value(&image_values(alloc, count, values, &h.to)?);
    Ok(turns_between(h, from, to))
}

fn turns_between(h: &LoopHead, from: Option<i64>, to: Option<i64>) -> Option<u64>
    ensures { result ≡ turns_between h.now from to }
{
    match (from, to) {
        (Some(from), Some(to)) => {
            Some(turn_count(to_int(from), to_int(to), h.inclusive, h.step))
        },
        _ => None,
    }
}

// A number, at most the most phases.
fn at_most(number: u64) -> u64
    ensures value { result ≡ min number most }
    ensures bound { result ≤ most }
{
    if number < MOST { number } else { MOST }
}

impl Rounds {
    // Something else stands round it too.
    fn misplaced(self) -> Rounds
        ensures { result ≡ misplaced self }
    {
        Rounds {
            placed: false,
            turns: self.turns,
        }
    }

    // A counted loop stands round it too.
    fn in_loop(self, turns: Option<u64>) -> Rounds
        ensures { result ≡ in_loop self turns }
    {
        match turns {
            Some(turns) => Rounds {
                placed: self.placed,
                turns: at_most(self.turns.saturating_mul(turns)),
            },
            None => self.misplaced(),
        }
    }
}

// Adds the sync that a statement is.
fn plain_stops(p: &Plain, r: Rounds, out: &mut Items<Stop>) -> Result<(), NoMemory>
    ensures { OnOk result (out.new ≡ out.old ++ plain_stops p.now r) }
{
    match p {
        Plain::Sync { at, .. } => out.push(Stop { at: *at, rounds: r })?,
        _ => {}
    }
    Ok(())
}

// Adds the syncs of a statement, in order.
#[cycle(stops)]
#[tactic(auto, using(crate::proofs::StopLaws::stops_plain, crate::proofs::StopLaws::stops_block, crate::proofs::StopLaws::stops_if, crate::proofs::StopLaws::stops_while, crate::proofs::StopLaws::stops_counted, crate::proofs::StopLaws::stops_loop, crate::proofs::StopLaws::stops_tasks))]
fn stops_of(
    alloc: Global,
    count: u32,
    values: &Variables,
    x: &Stmt,
    r: Rounds,
    out: &mut Items<Stop>,
) -> Result<(), NoMemory>
    ensures { OnOk result (out.new ≡ out.old ++ stops_of count values.now x.now r) }
{
    match x {
        Stmt::Plain(p) => plain_stops(p, r, out),
        Stmt::Block(all) => stops_of_all(alloc, count, values, all.as_slice(), r, out),
        Stmt::If(_, a, b) => {
            stops_of(alloc, count, values, a.get(), r.misplaced(), out)?;
            stops_of(alloc, count, values, b.get(), r.misplaced(), out)
        }
        Stmt::While(_, body, _) => stops_of(alloc, count, values, body.get(), r.misplaced(), out),
        Stmt::Counted(head, body) => {
            let turns = turns_of(alloc, count, values, head)?;
            stops_of(alloc, count, values, body.get(), r.in_loop(turns), out)
        }
        Stmt::Loop(_, body) => stops_of(alloc, count, values, body.get(), r.misplaced(), out),
        Stmt::Tasks(all, _) => {
            stops_of_tasks(alloc, count, values, all.as_slice(), r.misplaced(), out)
        }
    }
}

#[cycle(stops)]
#[tactic(auto, using(crate::proofs::StopLaws::next_stops))]
fn stops_of_all(
    alloc: Global,
    count: u32,
    values: &Variables,
    all: &[Stmt],
    r: Rounds,
    out: &mut Items<Stop>,
) -> Result<(), NoMemory>
    ensures { OnOk result (out.new ≡ out.old ++ all_stops (map (stops_of count values.now) all.now) r) }
{
    'items: for x in all {
        stops_of(alloc, count, values, x, r, out)?;
    }
    Ok(())
}

#[cycle(stops)]
#[tactic(auto, using(crate::proofs::StopLaws::next_stops))]
fn stops_of_tasks(
    alloc: Global,
    count: u32,
    values: &Variables,
    all: &[Task],
    r: Rounds,
    out: &mut Items<Stop>,
) -> Result<(), NoMemory>
    ensures { OnOk result (out.new ≡ out.old ++ all_stops (map (λ t. stops_of count values.now t.body) all.now) r) }
{
    'items: for t in all {
        stops_of(alloc, count, values, &t.body, r, out)?;
    }
    Ok(())
}

// The refusal at a sync.
fn stopped_at(s: Stop) -> Refusal
    ensures { result ≡ stopped_at s }
{
    Refusal {
        phase: Phase::Coarray,
        rule: 1,
        at: s.at,
    }
}

/// The first sync at which rule C1 breaks: it is misplaced, or with it there are more phases than may be.
pub fn first_stop(
    alloc: Global,
    count: u32,
    values: &Variables,
    body: &Stmt,
) -> Result<Option<Refusal>, NoMemory>
    ensures { IfOk result (λ found. IsFirst (BreaksAtStop 0 (stops_of count values.now body.now outermost_rounds)) found) }
{
    let mut stops = Items::new(alloc);
    let outermost = Rounds {
        placed: true,
        turns: 1,
    };
    stops_of(alloc, count, values, body, outermost, &mut stops)?;
    Ok(first_of_stops(stops.as_slice()))
}

// How many phases end up to a sync, from those that end before it.
fn phases_with(before: u64, s: Stop) -> u64
    ensures { result ≡ min (before + s.rounds.turns) most }
{
    at_most(before.saturating_add(s.rounds.turns))
}

// Whether the rule breaks at a sync.
fn breaks_at(before: u64, s: Stop) -> bool
    ensures { result ≡ breaks_at before s }
{
    !s.rounds.placed || phases_with(before, s) >= MOST
}

// The refusal, where it does.
fn found_at(before: u64, s: Stop) -> Option<Refusal>
    ensures { IsFirst (λ r. (breaks_at before s ≡ true) × (stopped_at s ≡ r)) result }
{
    if breaks_at(before, s) {
        Some(stopped_at(s))
    } else {
        None
    }
}

// The first of these syncs at which it breaks.
fn first_of_stops(stops: &[Stop]) -> Option<Refusal>
    ensures { IsFirst (BreaksAtStop 0 stops.now) result }
{
    let mut before: u64 = 0;
    let mut found = None;
    'stops: for s in stops {
        found = earlier(found, found_at(before, *s));
        before = phases_with(before, *s);
    }
    found
}

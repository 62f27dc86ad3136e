// What a run comes to.
ghost use Rattle.std.specs.Prelude.{◌≡◌, [], ◌∷◌, ◌++◌, IfOk, OnOk, drop, take};
ghost use Rattle.xmp_meaning.specs.Programs.{cut, told, told_of};
ghost use Rattle.xmp_serial.specs.Outcomes.{IsOutcome};

use crate::declared::{cell_count, node_count};
use crate::lists::split;
use crate::state::State;
use sqlite_items::Items;
use std::alloc::Global;
use xmp_base::{NoMemory, Table, Words};
use xmp_meaning::{End, Flow, Halt, Outcome};
use xmp_prog::{Array, Home, ProgParts};

/// What a run comes to, with the output and the arrays at its end.
pub fn outcome_of(
    alloc: Global,
    p: &ProgParts,
    ended: Result<Flow, Halt>,
    state: State,
) -> Result<Outcome, NoMemory>
    ensures { IfOk result (λ outcome. IsOutcome p.now ended state outcome) }
{
    let (out, arrays) = state.into_parts();
    match ended {
        Ok(_) | Err(Halt::End(End::PhaseEnd)) => {
            let arrays = told(alloc, p, arrays.as_slice())?;
            Ok(Outcome::Ended { out, arrays })
        }
        Err(Halt::End(End::Trapped(kind, at))) => Ok(Outcome::Trapped { out, kind, at }),
        Err(Halt::End(End::OutOfSteps)) => Ok(Outcome::OutOfSteps { out }),
        Err(Halt::NoMemory) => Err(NoMemory),
    }
}

/// The rows that are told: those of distributed arrays, and of coarrays that of each image.
fn told(alloc: Global, p: &ProgParts, rows: &[Items<i64>]) -> Result<Table, NoMemory>
    ensures { IfOk result (λ all. all ≡ told p.now p.now.arrays rows.now) }
{
    let mut all = Table::new(alloc);
    let mut left = rows;
    let arrays = p.arrays.as_slice();
    'arrays: for a in arrays {
        let Some((cells, behind)) = split(left) else {
            return Ok(all);
        };
        tell(alloc, p, a, cells.as_slice(), &mut all)?;
        left = behind;
    }
    Ok(all)
}

/// Adds the rows of an array that are told.
fn tell(
    alloc: Global,
    p: &ProgParts,
    a: &Array,
    cells: &[i64],
    all: &mut Table,
) -> Result<(), NoMemory>
    ensures { OnOk result (all.new ≡ all.old ++ told_of p.now a.now a.now.home cells.now) }
{
    match &a.home {
        Home::Copy => Ok(()),
        Home::Spread(_, _) => push_row(alloc, cells, all),
        Home::Image => match cell_count(a.extents.as_slice()) {
            Some(many) => push_rows(alloc, node_count(p), many, cells, all),
            None => Err(NoMemory),
        },
    }
}

/// Adds the rows of images, so many cells for each.
fn push_rows(
    alloc: Global,
    images: u32,
    many: usize,
    cells: &[i64],
    all: &mut Table,
) -> Result<(), NoMemory>
    ensures { OnOk result (all.new ≡ all.old ++ cut images many cells.now) }
{
    if images == 0 {
        return Ok(());
    }
    let (front, behind) = cut_at(cells, many);
    push_row(alloc, front, all)?;
    push_rows(alloc, images - 1, many, behind, all)?;
    Ok(())
}

/// So many cells from the front, and those behind them.
#[tactic(auto, using(std::proofs::lemmas::List::take_all, std::proofs::lemmas::List::drop_all))]
fn cut_at(cells: &[i64], many: usize) -> (&[i64], &[i64])
    ensures front { result.0.now ≡ take many cells.now }
    ensures behind { result.1.now ≡ drop many cells.now }
{
    if many <= cells.len() {
        cells.split_at(many)
    } else {
        (cells, &[])
    }
}

/// Adds a row.
fn push_row(alloc: Global, cells: &[i64], all: &mut Table) -> Result<(), NoMemory>
    ensures { OnOk result (all.new ≡ all.old ++ cells.now ∷ []) }
{
    let row = row_of(alloc, cells)?;
    all.push(row).map_err(|_| NoMemory)
}

fn row_of(alloc: Global, cells: &[i64]) -> Result<Words, NoMemory>
    ensures { IfOk result (λ row. row ≡ cells.now) }
{
    let mut row = Words::new(alloc);
    'cells: for cell in cells {
        row.push(*cell)?;
    }
    Ok(row)
}

// How a part ends, and the ends of all joined.
ghost use Rattle.std.specs.Prelude.{◌≡◌, ◌++◌, [], ◌∷◌, map, IfOk};
ghost use Rattle.xmp_num.specs.Reduction.{combine_of};
ghost use Rattle.xmp_meaning.specs.Declarations.{scalar_type};
ghost use Rattle.xmp_meaning.specs.Exchanges.{values_of};
ghost use Rattle.xmp_meaning.specs.LoopEnds.{all_joined, combined, comes_before, joined, no_turn, units};
ghost use Rattle.xmp_prog.specs.Statements.{indices_of};

use crate::beginning::scalar_type;
use crate::lists::split;
use sqlite_items::Items;
use std::alloc::Global;
use std::marker::Model;
use xmp_base::NoMemory;
use xmp_meaning::End;
use xmp_num::{combine, unit};
use xmp_prog::{LoopHead, ProgParts, Reduction};
use xmp_serial::State;

/// Why a part ended early, where it did, the indices of the nest at its end, and the values of the reduction variables.
#[derive(Drop)]
pub struct PartEnd {
    pub ended: Option<End>,
    pub indices: Items<i64>,
    pub values: Items<i64>,
}

impl Model for PartEnd {
    ghost use Rattle.xmp_meaning.specs.Exchanges.{PartEnd};

    ghost Value = { PartEnd };

    ghost view = { λ e. record { ended = e.ended; indices = e.indices; values = e.values } };
}

/// The values of the indices of a nest.
pub fn indices_at(alloc: Global, heads: &[LoopHead], state: &State) -> Result<Items<i64>, NoMemory>
    ensures { IfOk result (λ vs. vs ≡ values_of state.now (indices_of heads.now)) }
{
    let mut values = Items::new(alloc);
    'heads: for head in heads {
        push(&mut values, state.scalar(head.index.number))?;
    }
    Ok(values)
}

/// The values of reduction variables.
pub fn values_at(
    alloc: Global,
    reductions: &[Reduction],
    state: &State,
) -> Result<Items<i64>, NoMemory>
    ensures { IfOk result (λ vs. vs ≡ values_of state.now (map (λ r. r.variable.number) reductions.now)) }
{
    let mut values = Items::new(alloc);
    'reductions: for reduction in reductions {
        push(&mut values, state.scalar(reduction.variable.number))?;
    }
    Ok(values)
}

/// The units of reductions.
fn units(alloc: Global, p: &ProgParts, reductions: &[Reduction]) -> Result<Items<i64>, NoMemory>
    ensures { IfOk result (λ vs. vs ≡ units p.now reductions.now) }
{
    let mut values = Items::new(alloc);
    'reductions: for r in reductions {
        push(&mut values, unit(r.op, scalar_type(p, r.variable.number)))?;
    }
    Ok(values)
}

/// Two values of a reduction variable combined.
fn combined_one(p: &ProgParts, r: &Reduction, x: &i64, y: &i64) -> i64
    ensures { result ≡ combine_of r.now.op (scalar_type p.now r.now.variable.number) x.now y.now }
{
    combine(r.op, scalar_type(p, r.variable.number), *x, *y)
}

/// The values so far, and the values of two parts combined behind them, variable by variable.
fn combined(
    p: &ProgParts,
    reductions: &[Reduction],
    a: &[i64],
    b: &[i64],
    mut values: Items<i64>,
) -> Result<Items<i64>, NoMemory>
    ensures { IfOk result (λ vs. vs ≡ values ++ combined p.now reductions.now a.now b.now) }
{
    match (split(reductions), split(a), split(b)) {
        (Some((r, reductions)), Some((x, a)), Some((y, b))) => {
            push(&mut values, combined_one(p, r, x, y))?;
            combined(p, reductions, a, b, values)
        }
        _ => Ok(values),
    }
}

/// Whether an iteration comes before another in the order of the loops.
fn comes_before(a: &[i64], b: &[i64]) -> bool
    ensures { result ≡ comes_before a.now b.now }
{
    match (split(a), split(b)) {
        (Some((x, a)), Some((y, b))) => { if x == y { comes_before(a, b) } else { x < y } }
        _ => false,
    }
}

/// Two ends joined.
fn joined(
    alloc: Global,
    p: &ProgParts,
    reductions: &[Reduction],
    a: PartEnd,
    b: PartEnd,
) -> Result<PartEnd, NoMemory>
    ensures { IfOk result (λ end. end ≡ joined p.now reductions.now a b) }
{
    match (a.ended, b.ended) {
        (None, None) => {
            let (x, y) = (a.values.as_slice(), b.values.as_slice());
            let values = combined(p, reductions, x, y, Items::new(alloc))?;
            Ok(PartEnd {
                ended: None,
                indices: a.indices,
                values,
            })
        }
        (None, Some(_)) => Ok(b),
        (Some(_), None) => Ok(a),
        (Some(_), Some(_)) => {
            if comes_before(b.indices.as_slice(), a.indices.as_slice()) {
                Ok(b)
            } else {
                Ok(a)
            }
        }
    }
}

/// All ends joined, in the order of the nodes.
pub fn all_joined(
    alloc: Global,
    p: &ProgParts,
    reductions: &[Reduction],
    ends: Vec<PartEnd>,
) -> Result<PartEnd, NoMemory>
    ensures { IfOk result (λ end. end ≡ all_joined p.now reductions.now (no_turn p.now reductions.now) ends.items) }
{
    let mut so_far = PartEnd {
        ended: None,
        indices: Items::new(alloc),
        values: units(alloc, p, reductions)?,
    };
    'ends: for end in ends {
        so_far = joined(alloc, p, reductions, so_far, end)?;
    }
    Ok(so_far)
}

/// Adds a value at the end.
fn push(values: &mut Items<i64>, value: i64) -> Result<(), NoMemory>
    ensures { IfOk result (λ _. values.new ≡ values.old ++ value ∷ []) }
{
    match values.push(value) {
        Ok(()) => Ok(()),
        Err(_) => Err(NoMemory),
    }
}

// The numbers of a gmove.
ghost use Rattle.std.specs.Prelude.{◌≡◌, ◌++◌, ◌∷◌, [], IfOk, OnOk, map};
ghost use Rattle.xmp_meaning.specs.Sections.{name_of};
ghost use Rattle.xmp_move.specs.Meant.{place_of};
ghost use Rattle.xmp_serial.specs.Moves.{chosen_of};
ghost use Rattle.xmp_exchanges.specs.Aims.{flat};

use sqlite_items::Items;
use std::alloc::Global;
use xmp_base::{NoMemory, Place};
use xmp_move::Fault;
use xmp_prog::MoveSide;
use xmp_serial::Chosen;

fn push(all: &mut Items<i64>, number: i64) -> Result<(), NoMemory>
    ensures { OnOk result (all.new ≡ all.old ++ number ∷ []) }
{
    all.push(number).map_err(|_| NoMemory)
}

/// Adds the numbers of a part.
fn push_chosen(all: &mut Items<i64>, chosen: Chosen) -> Result<(), NoMemory>
    ensures { OnOk result (all.new ≡ all.old ++ flat (chosen_of chosen ∷ [])) }
{
    match chosen {
        Chosen::One(value) => push(all, value),
        Chosen::Many { base, length, step } => {
            push(all, base)?;
            push(all, length)?;
            push(all, step)
        }
    }
}

/// Adds the numbers of all parts, one behind the other.
fn push_all(all: &mut Items<i64>, parts: &[Chosen]) -> Result<(), NoMemory>
    ensures { OnOk result (all.new ≡ all.old ++ flat (map chosen_of parts.now)) }
{
    'parts: for chosen in parts {
        push_chosen(all, *chosen)?;
    }
    Ok(())
}

/// The numbers of both sides, the target's first.
pub fn both(alloc: Global, to: &[Chosen], from: &[Chosen]) -> Result<Items<i64>, NoMemory>
    ensures { IfOk result (λ all. all ≡ flat (map chosen_of to.now) ++ flat (map chosen_of from.now)) }
{
    let mut all = Items::new(alloc);
    push_all(&mut all, to)?;
    push_all(&mut all, from)?;
    Ok(all)
}

/// The place of a side's name.
fn place_of_name(side: &MoveSide) -> Place
    ensures { result ≡ (name_of side.now).at }
{
    match side {
        MoveSide::Scalar(name) => name.at,
        MoveSide::Array(name, _) => name.at,
    }
}

/// The place of a fault: the name of its side.
pub fn place_of(target: &MoveSide, source: &MoveSide, fault: Fault) -> Place
    ensures { result ≡ place_of target.now source.now fault }
{
    if fault.source {
        place_of_name(source)
    } else {
        place_of_name(target)
    }
}

// The values of scalars.
ghost use Rattle.std.specs.Prelude.{◌≡◌, ◌++◌, ◌∷◌, [], IfOk, OnOk};
ghost use Rattle.xmp_prog.specs.Statements.{slots_of_names};
ghost use Rattle.xmp_meaning.specs.Exchanges.{values_of};
ghost use Rattle.xmp_meaning.specs.LoopEnds.{set_all};
ghost use Rattle.xmp_meaning.specs.Runs.{Gave};

use sqlite_items::Items;
use std::alloc::Global;
use xmp_base::{NoMemory, first_and_rest};
use xmp_meaning::Flow;
use xmp_prog::Name;
use xmp_serial::State;

/// Sets variables in order.
pub fn set_all(variables: &[Name], mut values: &[i64], state: &mut State) -> Flow
    ensures { set_all variables.now values.entry.now state.old ≡ Gave result state.new }
{
    'variables: for name in variables {
        match first_and_rest(values) {
            None => return Flow::Next,
            Some((value, rest)) => {
                state.set_scalar(name.number, *value);
                values = rest;
            }
        }
    }
    Flow::Next
}

/// The values of variables.
pub fn values_of(alloc: Global, state: &State, variables: &[Name]) -> Result<Items<i64>, NoMemory>
    ensures { IfOk result (λ values. values ≡ values_of state.now (slots_of_names variables.now)) }
{
    let mut values = Items::new(alloc);
    'variables: for name in variables {
        push(&mut values, state.scalar(name.number))?;
    }
    Ok(values)
}

fn push(values: &mut Items<i64>, value: i64) -> Result<(), NoMemory>
    ensures { OnOk result (values.new ≡ values.old ++ value ∷ []) }
{
    values.push(value).map_err(|_| NoMemory)
}

// What reduction variables begin at.
ghost use Rattle.std.specs.Prelude.{◌≡◌};
ghost use Rattle.xmp_meaning.specs.Declarations.{scalar_type};
ghost use Rattle.xmp_meaning.specs.Parts.{begin};
ghost use Rattle.xmp_meaning.specs.Runs.{Gave};

use crate::lists::split;
use xmp_num::{Ty, unit};
use xmp_prog::{ProgParts, Reduction};
use xmp_serial::State;

/// The type of a scalar, or int where there is none.
pub fn scalar_type(p: &ProgParts, slot: u32) -> Ty
    ensures { result ≡ scalar_type p.now slot }
{
    match p.scalars.get(slot as usize) {
        Some(ty) => *ty,
        None => Ty::Int,
    }
}

/// On node 0 reduction variables begin at their old values, on the others at the units.
pub fn begin(p: &ProgParts, node: u32, reductions: &[Reduction], state: &mut State)
    ensures { begin p.now node reductions.now state.old ≡ Gave tt state.new }
{
    if let Some((first, rest)) = split(reductions) {
        if node != 0 {
            let slot = first.variable.number;
            state.set_scalar(slot, unit(first.op, scalar_type(p, slot)));
        }
        begin(p, node, rest, state);
    }
}

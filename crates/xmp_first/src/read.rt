// The verdict on a text.
ghost use Rattle.std.specs.Prelude.{◌≡◌, ◌⊎◌, IfOk, IfErr};
ghost use Rattle.xmp_first.specs.Layout.{Spells, IsNoProgram};
ghost use Rattle.xmp_first.specs.Accepts.{refused_at_start};

use crate::first::First;
use crate::program::program_at;
use std::alloc::Global;
use xmp_base::{Fault, NoMemory, Phase, Place, Refusal};

/// The program that a text is. A text that no program has is refused at its first byte.
pub fn read_first(alloc: Global, text: &[u8]) -> Result<First, Fault>
    ensures ok { IfOk result (λ p. Spells p.size p.nodes p.value text.now) }
    // want of memory aside, a text that no program has is refused, and no other one is
    ensures err { IfErr result (λ fault.
        (fault ≡ Fault.NoMemory) ⊎ ((fault ≡ refused_at_start) × IsNoProgram text.now)) }
{
    match program_at(alloc, text) {
        Ok(Some(p)) => Ok(p),
        Ok(None) => Err(Fault::Refused(Refusal {
            phase: Phase::Syntax,
            rule: 1,
            at: Place { line: 1, column: 1 },
        })),
        Err(NoMemory) => Err(Fault::NoMemory),
    }
}

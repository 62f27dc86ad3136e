// Which scalars a program writes once, and which more often.
ghost use Rattle.std.specs.Prelude.{◌≡◌, ◌==◌, ◌&&◌, ◌||◌, ◌++◌, ℕ, map, OnOk, IfOk};
ghost use Rattle.xmp_prog.specs.declared.parts.ProgParts.{ProgParts};
ghost use Rattle.xmp_prog.specs.Numbers.{is_in};
ghost use Rattle.xmp_prog.specs.Fits.{slots_of_starts};
ghost use Rattle.xmp_meaning.specs.Writes.{scalars_written};
ghost use Rattle.xmp_spots.specs.Variables.{times_written, written_by};
ghost use Rattle.xmp_spots.specs.Writes.{IsCounted, CountsIn};

use sqlite_items::Items;
use std::alloc::{AllocError, Global};
use xmp_base::NoMemory;
use xmp_loops::{Numbers, scalars_written};
use xmp_prog::{ProgParts, Start};

// The scalars that are written, and those that are written more than once.
#[derive(Drop)]
pub(crate) struct Writes {
    pub(crate) some: Numbers,
    pub(crate) more: Numbers,
}

// The scalars of the file scope's initialisers.
fn starts(start: &[Start], out: &mut Items<u32>) -> Result<(), AllocError>
    ensures { OnOk result (out.new ≡ out.old ++ map (λ s. s.slot) start.now) }
{
    'items: for s in start {
        out.push(s.slot)?;
    }
    Ok(())
}

// All scalars that a program writes, each as often as it does.
fn written(alloc: Global, p: &ProgParts) -> Result<Items<u32>, AllocError>
    ensures { IfOk result (λ slots. slots ≡ written_by p.now) }
{
    let mut out = Items::new(alloc);
    starts(p.start.as_slice(), &mut out)?;
    scalars_written(&p.body, &mut out)?;
    Ok(out)
}

impl Writes {
    // One write more.
    fn note(&mut self, slot: u32) -> Result<(), AllocError>
        ensures some { OnOk result ((n : ℕ) → is_in self.new.some n ≡ ((slot == n) || is_in self.old.some n)) }
        ensures more { OnOk result ((n : ℕ) → is_in self.new.more n
            ≡ (((slot == n) && is_in self.old.some n) || is_in self.old.more n)) }
    {
        if self.some.has(slot) {
            return self.more.put(slot);
        }
        self.some.put(slot)
    }

    // Those of these scalars.
    fn of_slots(alloc: Global, slots: &[u32]) -> Result<Writes, AllocError>
        ensures { IfOk result (λ writes. CountsIn slots.now writes) }
    {
        let mut writes = Writes {
            some: Numbers::new(alloc),
            more: Numbers::new(alloc),
        };
        'slots: for slot in slots {
            writes.note(*slot)?;
        }
        Ok(writes)
    }

    // Those of a program: at file scope, and by main's statements, declarations included.
    pub(crate) fn of_program(alloc: Global, p: &ProgParts) -> Result<Writes, NoMemory>
        ensures { IfOk result (λ writes. IsCounted p.now writes) }
    {
        match written(alloc, p) {
            Ok(slots) => match Writes::of_slots(alloc, slots.as_slice()) {
                Ok(writes) => Ok(writes),
                Err(_) => Err(NoMemory),
            },
            Err(_) => Err(NoMemory),
        }
    }

    // Whether a scalar is written once.
    #[tactic(auto, using(crate::proofs::WriteLaws::once_is))]
    pub(crate) fn is_once(&self, slot: u32) -> bool
        ensures { (p : ProgParts) → IsCounted p self.now → result ≡ (times_written p slot == 1) }
    {
        self.some.has(slot) && !self.more.has(slot)
    }
}

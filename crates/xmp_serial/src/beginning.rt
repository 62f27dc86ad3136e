// What a run begins with.
ghost use Rattle.std.specs.Prelude.{◌≡◌, IfOk};
ghost use Rattle.xmp_meaning.specs.Programs.{beginning, no_writes};
ghost use Rattle.xmp_serial.specs.Lines.{layout_of};

use crate::layout::Layout;
use crate::rows::{Rows, zeros};
use crate::state::State;
use std::alloc::Global;
use xmp_base::{Bytes, NoMemory};

/// Every cell is 0 at first.
fn no_writes(alloc: Global, layout: &Layout) -> Result<Rows, NoMemory>
    ensures { IfOk result (λ rows. rows ≡ no_writes (layout_of layout.now.packed) layout.now.program.now) }
{
    let mut rows = Rows::new(alloc);
    let lines = layout.lines.as_slice();
    'lines: for line in lines {
        if rows.push_zeros(alloc, line.length).is_err() {
            return Err(NoMemory);
        }
    }
    Ok(rows)
}

impl State {
    /// What a program begins with, in a store of a layout: every scalar and every cell is 0, and nothing is printed or read.
    pub fn beginning(alloc: Global, layout: &Layout, steps: u64) -> Result<State, NoMemory>
        ensures { IfOk result (λ state. state ≡ beginning (layout_of layout.now.packed) layout.now.program.now steps tt) }
    {
        let scalars = zeros(alloc, layout.program.scalars.len())?;
        let arrays = no_writes(alloc, layout)?;
        Ok(State::new(scalars, arrays, Bytes::new(alloc), steps))
    }
}

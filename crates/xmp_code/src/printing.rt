// Prints carried out.
ghost use Rattle.std.specs.Prelude.{◌≡◌, false, Some, None, OnOk, OnErr};
ghost use Rattle.xmp_steps.specs.Machine.{Goes};
ghost use Rattle.xmp_meaning.specs.Formats.{printed};
ghost use Rattle.xmp_instr.specs.Data.{with_text};
ghost use Rattle.xmp_instr.specs.Effects.{printed_by};
ghost use Rattle.xmp_instr.specs.Tables.{asked};
ghost use Rattle.xmp_code.specs.States.{data_of, node_of};
ghost use Rattle.xmp_code.specs.Acting.{HasRoom, Keeps};

use crate::state::{Data, State};
use std::alloc::Global;
use xmp_base::{Bytes, NoMemory};
use xmp_print::print;

impl Data {
    /// Adds what a format writes for these values, unless text is dropped; or changes nothing.
    fn add_text(&mut self, alloc: Global, format: &[u8], values: &[i64]) -> Result<(), NoMemory>
        ensures ok { OnOk result (data_of None self.new ≡ with_text (printed format.now values.now) (data_of None self.old)) }
        ensures err { OnErr result (data_of None self.new ≡ data_of None self.old) }
        ensures lacks { OnErr result (self.old.muted ≡ false) }
        ensures muted { self.new.muted ≡ self.old.muted }
    {
        if self.muted {
            return Ok(());
        }
        let mut text = Bytes::new(alloc);
        match print(alloc, &mut text, format, values) {
            Ok(()) => {}
            Err(NoMemory) => return Err(NoMemory),
        }
        match self.out.extend_from_slice(text.as_slice()) {
            Ok(()) => Ok(()),
            Err(_) => Err(NoMemory),
        }
    }
}

impl State {
    /// Prints by a format, which asks for so many values, and goes on; or changes nothing.
    pub fn print(&mut self, alloc: Global, format: &[u8], n: usize) -> Result<(), NoMemory>
        requires count { n ≡ asked format.now }
        requires room { HasRoom self.old (printed_by (Some format.now) (node_of self.old)) }
        ensures goes { OnOk result (printed_by (Some format.now) (node_of self.old) ≡ Goes (node_of self.new)) }
        ensures keeps { Keeps self.old self.new }
        ensures talk { self.new.talk ≡ self.old.talk }
        ensures err { OnErr result (node_of self.new ≡ node_of self.old) }
        ensures lacks { OnErr result (self.old.data.muted ≡ false) }
    {
        let Some(values) = self.stack.many(n) else {
            unreachable!();
        };
        match self.data.add_text(alloc, format, values) {
            Ok(()) => {}
            Err(NoMemory) => return Err(NoMemory),
        }
        self.stack.take(n);
        self.place += 1;
        Ok(())
    }
}

// The machine of a node.
ghost use Rattle.std.specs.Prelude.{◌≡◌};

use crate::going::resume;
use crate::left::{Left, left_of};
use crate::running::run_on;
use crate::telling::{says, words_due};
use std::alloc::Global;
use std::marker::Model;
use xmp_base::NoMemory;
use xmp_code::State;
use xmp_instr::{NodeCode, Stop};
use xmp_message::Message;

/// A node that goes through its code, with its input. Contracts see a node.
#[derive(Drop)]
pub struct Machine<'a> {
    alloc: Global,
    code: &'a NodeCode,
    input: &'a [u8],
    state: State,
}

impl<'a> Model for Machine<'a> {
    ghost use Rattle.xmp_code.specs.States.{node_of};
    ghost use Rattle.xmp_code.specs.Fitting.{StateFits};
    ghost use Rattle.xmp_code.specs.Running.{Run};

    ghost Value = { Run };

    ghost view = { λ m. record { code = m.code.now; input = m.input.now; node = node_of m.state } };

    ghost invariant = { λ m. StateFits m.code.now m.state };
}

impl<'a> Machine<'a> {
    ghost use Rattle.std.specs.Prelude.{◌⊎◌, ◌<◌, ◌↔◌, true, length, min, Some, IsTrue, IsOk, IfOk, OnErr, slice_get, slice_index};
    ghost use Rattle.xmp_instr.specs.declared.instr.Instr.TheVariants as i;
    ghost use Rattle.xmp_instr.specs.Node.{Going, beginning};
    ghost use Rattle.xmp_instr.specs.Meetings.{says, words_due};
    ghost use Rattle.xmp_instr.specs.Serving.{AtMeeting, ComesTo, MayHear, MayRun, MayTell, answered, heard, muted, passed, told};
    ghost use Rattle.xmp_code.specs.Running.{MayLack};
    ghost use Rattle.xmp_machine.specs.Machines.{Came, MeetsNever, sixteen};

    /// The node before its first instruction.
    pub fn new(alloc: Global, code: &'a NodeCode, input: &'a [u8]) -> Result<Machine<'a>, NoMemory>
        ensures { IfOk result (λ m. m ≡ record { code = code.now; input = input.now; node = beginning code.now }) }
    {
        let state = State::new(alloc, code.parts())?;
        Ok(Machine {
            alloc,
            code,
            input,
            state,
        })
    }

    /// Goes on from a meeting where all others are heard, and runs to the next stop. Want of memory is answered only where the node then
    /// stands at a print or at an exchange that may want memory; it may be run again.
    pub fn run(&mut self) -> Result<Stop, NoMemory>
        requires { MayRun self.old.code self.old.input self.old.node }
        ensures stop { IfOk result (λ p. ComesTo self.old.code self.old.input self.old.node p self.new.node) }
        ensures came { OnErr result (Came self.old.code self.old.input self.old.node self.new.node) }
        ensures lacks { OnErr result (MayLack self.old.code self.new.node) }
        ensures again { OnErr result (MayRun self.old.code self.old.input self.new.node) }
        ensures silent { MeetsNever self.old.code → self.old.node.state.muted ≡ true → IsOk result }
        ensures same { (self.new.code ≡ self.old.code) × (self.new.input ≡ self.old.input) }
    {
        let code = self.code.parts();
        match resume(self.alloc, &mut self.state, code) {
            Ok(()) => run_on(self.alloc, &mut self.state, code, self.input),
            Err(NoMemory) => Err(NoMemory),
        }
    }

    /// From now on text is dropped.
    pub fn mute(&mut self)
        ensures { self.new ≡ record self.old { node = muted self.old.node } }
    {
        self.state.mute();
    }

    /// What the node, which stands at a meeting, says to another, and that it is out; or nothing changes.
    pub fn outgoing(&mut self, to: u32) -> Result<Message, NoMemory>
        requires { AtMeeting self.old.node.stage (λ m. MayTell self.old.code m to) }
        ensures ok { IfOk result (λ x. AtMeeting self.old.node.stage (λ m. (x ≡ says self.old.code self.old.node m to)
            × (self.new ≡ record self.old { node = told self.old.node to x }))) }
        ensures err { OnErr result (self.new ≡ self.old) }
    {
        let message = says(self.alloc, &self.state, self.code.parts(), to)?;
        self.state.tell(to, &message);
        Ok(message)
    }

    /// Whether a message of another node has as many words as its exchange says.
    pub fn awaits(&self, from: u32, message: &Message) -> bool
        requires { AtMeeting self.now.node.stage (λ m. MayHear self.now.code m from) }
        ensures { AtMeeting self.now.node.stage (λ m. IsTrue result ↔ (length message.now.words ≡ words_due self.now.code m from)) }
    {
        message.words.as_slice().len() == words_due(&self.state, self.code.parts(), from)
    }

    /// Keeps the message of another node.
    pub fn incoming(&mut self, from: u32, message: Message)
        requires may { AtMeeting self.old.node.stage (λ m. MayHear self.old.code m from) }
        requires due { AtMeeting self.old.node.stage (λ m. length message.words ≡ words_due self.old.code m from) }
        ensures { self.new ≡ record self.old { node = heard self.old.node from message } }
    {
        self.state.hear(from, message);
    }

    /// Goes on with the shared word that it asked for.
    pub fn answer(&mut self, v: i64)
        requires going { self.old.node.stage ≡ Going }
        requires get { slice_get self.old.code.instrs self.old.node.place ≡ Some i.Get }
        ensures { self.new ≡ record self.old { node = answered self.old.node v } }
    {
        self.state.answer(self.code.parts(), v);
    }

    /// Goes on behind a put or a sync.
    pub fn pass(&mut self)
        requires going { self.old.node.stage ≡ Going }
        requires pass { (slice_get self.old.code.instrs self.old.node.place ≡ Some i.Put)
            ⊎ (slice_get self.old.code.instrs self.old.node.place ≡ Some i.Sync) }
        ensures { self.new ≡ record self.old { node = passed self.old.code self.old.node } }
    {
        self.state.pass(self.code.parts());
    }

    /// The text that was printed and not sent away.
    pub fn out(&self) -> &[u8]
        ensures { result.now ≡ self.now.node.state.out }
    {
        self.state.text()
    }

    /// The words of the store.
    pub fn store(&self) -> &[i64]
        ensures { result.now ≡ self.now.node.state.words }
    {
        self.state.data.words.as_slice()
    }

    /// How many turns of loop directives were counted.
    pub fn turns(&self) -> u64
        ensures { result ≡ self.now.node.state.turns }
    {
        self.state.data.turns
    }

    /// How many words were sent to a node.
    pub fn sent(&self, to: u32) -> u64
        requires { to < self.now.code.nodes }
        ensures { result ≡ slice_index self.now.node.sent to }
    {
        self.state.sent[to as usize]
    }

    /// What the machine leaves.
    pub fn leave(self) -> Left
        ensures out { result.out ≡ self.entry.node.state.out }
        ensures store { result.store ≡ self.entry.node.state.words }
        ensures turns { result.turns ≡ self.entry.node.state.turns }
        ensures sent { result.sent ≡ sixteen self.entry.node.sent }
    {
        let Machine { state, .. } = self;
        left_of(state)
    }
}

// What is done to a node from outside while it stands.
ghost use Rattle.std.specs.Prelude.{◌≡◌, ◌⊎◌, ◌↔◌, ◌<◌, length, IsTrue, Some, slice_get};
ghost use Rattle.xmp_instr.specs.declared.instr.Instr.TheVariants as i;
ghost use Rattle.xmp_instr.specs.Serving.{AtMeeting, answered, heard, muted, passed, put_done, sync_done, told, words_sent};
ghost use Rattle.xmp_instr.specs.Meetings.{words_due};
ghost use Rattle.xmp_instr.specs.declared.parts.CodeParts.{CodeParts};
ghost use Rattle.xmp_instr.specs.Valid.{IsValid};
ghost use Rattle.xmp_code.specs.declared.state.Mode.TheVariants as mode;
ghost use Rattle.xmp_code.specs.States.{node_of};
ghost use Rattle.xmp_code.specs.Fitting.{SameBut, StateFits};

use crate::state::{Mode, State};
use xmp_instr::{CodeParts, Instr};
use xmp_message::Message;

/// How many words a message counts as: a text counts one for each eight bytes begun.
fn words_sent(message: &Message) -> u64
    ensures { result ≡ words_sent message.now }
{
    let words = message.words.as_slice().len() as u64;
    let bytes = message.text.as_slice().len() as u64;
    words + (bytes + 7) / 8
}

impl State {
    fn note_told(&mut self, to: u32, message: &Message)
        requires told { to < length self.old.talk.told.items }
        requires sent { to < length self.old.sent.items }
        ensures node { node_of self.new ≡ told (node_of self.old) to message.now }
        ensures same { SameBut self.old self.new }
    {
        self.talk.told[to as usize] = true;
        let sent = self.sent[to as usize];
        self.sent[to as usize] = sent.saturating_add(words_sent(message));
    }

    /// Notes that a message to another node is out.
    pub fn tell(&mut self, to: u32, message: &Message)
        requires told { to < length self.old.talk.told.items }
        requires sent { to < length self.old.sent.items }
        ensures node { node_of self.new ≡ told (node_of self.old) to message.now }
        ensures fits { (c : CodeParts) → StateFits c self.old → StateFits c self.new }
    {
        self.note_told(to, message);
    }

    fn note_heard(&mut self, from: u32, message: Message)
        requires { from < length self.old.talk.heard.items }
        ensures node { node_of self.new ≡ heard (node_of self.old) from message }
        ensures same { SameBut self.old self.new }
    {
        self.talk.heard[from as usize] = Some(message);
    }

    /// Keeps the message of another node.
    pub fn hear(&mut self, from: u32, message: Message)
        requires { from < length self.old.talk.heard.items }
        ensures node { node_of self.new ≡ heard (node_of self.old) from message }
        ensures fits { (c : CodeParts) → StateFits c self.old
            → AtMeeting (node_of self.old).stage (λ m. length message.words ≡ words_due c m from) → StateFits c self.new }
    {
        self.note_heard(from, message);
    }

    /// Goes on with the shared word that it asked for.
    pub fn answer(&mut self, code: &CodeParts, v: i64)
        requires valid { IsValid code.now }
        requires state { StateFits code.now self.old }
        requires going { self.old.talk.mode ≡ mode.Going }
        requires get { slice_get code.now.instrs self.old.place ≡ Some i.Get }
        ensures node { node_of self.new ≡ answered (node_of self.old) v }
        ensures fits { StateFits code.now self.new }
    {
        let _count = code.instrs.len();
        self.stack.set_top(v);
        self.place += 1;
    }

    fn is_at_put(&self, code: &CodeParts) -> bool
        ensures { IsTrue result ↔ (slice_get code.now.instrs self.now.place ≡ Some i.Put) }
    {
        match code.instrs.get(self.place) {
            Some(instr) => matches!(*instr, Instr::Put),
            None => false,
        }
    }

    fn end_put(&mut self, code: &CodeParts)
        requires valid { IsValid code.now }
        requires state { StateFits code.now self.old }
        requires going { self.old.talk.mode ≡ mode.Going }
        requires put { slice_get code.now.instrs self.old.place ≡ Some i.Put }
        ensures node { node_of self.new ≡ put_done (node_of self.old) }
        ensures fits { StateFits code.now self.new }
    {
        let _count = code.instrs.len();
        self.stack.take(2);
        self.place += 1;
    }

    fn end_sync(&mut self, code: &CodeParts)
        requires valid { IsValid code.now }
        requires state { StateFits code.now self.old }
        requires going { self.old.talk.mode ≡ mode.Going }
        requires sync { slice_get code.now.instrs self.old.place ≡ Some i.Sync }
        ensures node { node_of self.new ≡ sync_done (node_of self.old) }
        ensures fits { StateFits code.now self.new }
    {
        let _count = code.instrs.len();
        self.place += 1;
    }

    /// Goes on behind a put or a sync.
    pub fn pass(&mut self, code: &CodeParts)
        requires valid { IsValid code.now }
        requires state { StateFits code.now self.old }
        requires going { self.old.talk.mode ≡ mode.Going }
        requires pass { (slice_get code.now.instrs self.old.place ≡ Some i.Put) ⊎ (slice_get code.now.instrs self.old.place ≡ Some i.Sync) }
        ensures node { node_of self.new ≡ passed code.now (node_of self.old) }
        ensures fits { StateFits code.now self.new }
    {
        if self.is_at_put(code) {
            self.end_put(code)
        } else {
            self.end_sync(code)
        }
    }

    /// Drops text from now on.
    pub fn mute(&mut self)
        ensures node { node_of self.new ≡ muted (node_of self.old) }
        ensures fits { (c : CodeParts) → StateFits c self.old → StateFits c self.new }
    {
        self.data.muted = true;
    }

    /// The text that was printed and not sent away.
    pub fn text(&self) -> &[u8]
        ensures { result.now ≡ (node_of self.now).state.out }
    {
        let out = self.data.out.as_slice();
        match self.talk.mode {
            Mode::Meets(_, Some(mark)) => &out[..mark.min(out.len())],
            _ => out,
        }
    }
}

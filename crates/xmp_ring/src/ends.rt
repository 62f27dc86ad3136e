// The two ends of a ring.
use crate::received::{Port, Received};
use crate::rule::{Line, Number, Popped, Pushed, Roles, Streams};
use crossbeam_queue::Pass;
use crossbeam_utils::Backoff;
use std::alloc::{AllocError, Global};
use std::marker::{Brand, Model};
use std::sync::{Arc, Wait};
use xmp_base::NoMemory;
use xmp_message::Message;

/// The end that puts the messages of the stream. Contracts see its ring and what it has put.
#[derive(Drop)]
pub struct Sender<S: Streams> {
    queue: Arc<Line<S>>,
    pass: Pass<Received, Port>,
}

impl<S: Streams> Model for Sender<S> {
    ghost use Rattle.std.specs.Prelude.{◌≡◌, true, false};
    ghost use Rattle.std.specs.Arc.{arc_value};
    ghost use Rattle.crossbeam_queue.specs.Passes.{view as known, IsPassOf};
    ghost use Rattle.xmp_ring.specs.Pieces.{End, IsFront};

    ghost Value = { End };

    ghost view = { λ s. record { ring = (known s.pass).ring; entries = (known s.pass).entries } };

    ghost invariant = { λ s. IsPassOf (arc_value s.queue) s.pass
        × ((known s.pass).sends ≡ true) × ((known s.pass).receives ≡ false)
        × IsFront (S.stream (known s.pass).ring) (known s.pass).entries };
}

/// The end that takes them. Contracts see its ring and what it has taken.
#[derive(Drop)]
pub struct Receiver<S: Streams> {
    queue: Arc<Line<S>>,
    pass: Pass<Received, Port>,
    // whether the last entry that it took is the stop word
    stopped: bool,
}

impl<S: Streams> Model for Receiver<S> {
    ghost use Rattle.std.specs.Prelude.{◌≡◌, ◌↔◌, true, false, IsTrue};
    ghost use Rattle.std.specs.Arc.{arc_value};
    ghost use Rattle.crossbeam_queue.specs.Passes.{view as known, IsPassOf};
    ghost use Rattle.xmp_ring.specs.Pieces.{End, IsStopped};

    ghost Value = { End };

    ghost view = { λ r. record { ring = (known r.pass).ring; entries = (known r.pass).entries } };

    ghost invariant = { λ r. IsPassOf (arc_value r.queue) r.pass
        × ((known r.pass).receives ≡ true) × ((known r.pass).sends ≡ false)
        × (IsTrue r.stopped ↔ IsStopped (known r.pass).entries) };
}

ghost use Rattle.std.specs.Prelude.{◌≡◌, ◌↔◌, ℕ, ◌∷◌, ◌++◌, [], true, false, IfOk, IsTrue, MatchOption, MatchResult};
ghost use Rattle.crossbeam_queue.specs.Passes.{view as known, IsPassOf};
ghost use Rattle.xmp_ring.specs.Pieces.{IsFront, IsNext, IsNextEntry, IsPiece, IsReceived, IsStopped, fresh, more};
ghost use Rattle.xmp_ring.specs.Rule.{with_entry};
ghost use Rattle.xmp_ring.specs.declared.received.Received.TheVariants.{Data, Stop};

// Puts an entry behind which the sender's entries are a piece of the stream, where there is room.
fn put<S: Streams>(
    queue: &Line<S>,
    pass: &mut Pass<Received, Port>,
    entry: Received,
) -> Result<(), Received>
    requires queue { IsPassOf queue.now pass.old }
    requires sends { (known pass.old).sends ≡ true }
    requires receives { (known pass.old).receives ≡ false }
    requires piece { IsPiece (S.stream (known pass.old).ring) ((known pass.old).entries ++ entry ∷ []) }
    ensures queue { IsPassOf queue.now pass.new }
    ensures put { MatchResult result
        (λ _. known pass.new ≡ with_entry (known pass.old) entry)
        (λ back. (back ≡ entry) × (known pass.new ≡ known pass.old)) }
{
    queue.try_push_as::<Pushed>(pass, entry)
}

// Puts the stop word behind the messages that the sender has put, once there is room.
fn put_stop<S: Streams, R: Wait>(queue: &Line<S>, pass: &mut Pass<Received, Port>, rt: &R)
    requires queue { IsPassOf queue.now pass.old }
    requires sends { (known pass.old).sends ≡ true }
    requires receives { (known pass.old).receives ≡ false }
    requires front { IsFront (S.stream (known pass.old).ring) (known pass.old).entries }
    ensures queue { IsPassOf queue.now pass.new }
    ensures put { known pass.new ≡ with_entry (known pass.old) Stop }
{
    let backoff = Backoff::new();
    for _ in rt.forever() {
        match put(queue, pass, Received::Stop) {
            Ok(()) => return,
            Err(_) => backoff.snooze(),
        }
    }
    unreachable!()
}

impl<S: Streams> Sender<S> {
    // Puts the stream's next message, where there is room.
    fn try_send(&mut self, entry: Received) -> Result<(), Received>
        requires { IsNextEntry (S.stream self.old.ring) self.old.entries entry }
        ensures { MatchResult result (λ _. self.new ≡ more self.old entry) (λ back. (back ≡ entry) × (self.new ≡ self.old)) }
    {
        put(&self.queue, &mut self.pass, entry)
    }

    /// Puts the stream's next message, once there is room.
    pub fn send<R: Wait>(&mut self, rt: &R, m: Message)
        requires next { IsNext (S.stream self.old.ring) self.old.entries m }
        ensures sent { self.new ≡ more self.old (Data m) }
    {
        let backoff = Backoff::new();
        let mut entry = Received::Data(m);
        for _ in rt.forever() {
            match self.try_send(entry) {
                Ok(()) => return,
                Err(back) => entry = back,
            }
            backoff.snooze();
        }
        unreachable!()
    }

    /// Puts the stop word last, once there is room.
    pub fn stop<R: Wait>(self, rt: &R) {
        let Sender { queue, mut pass } = self;
        put_stop(&queue, &mut pass, rt);
    }
}

impl<S: Streams> Receiver<S> {
    // Takes the entry at the front, where there is one.
    #[tactic(auto, using(crate::proofs::Entries::message_not_last, crate::proofs::Entries::stop_last))]
    fn take(&mut self) -> Option<Received>
        ensures { MatchOption result (self.new ≡ self.old)
            (λ x. (self.new ≡ more self.old x) × IsPiece (S.stream self.old.ring) (self.old.entries ++ x ∷ [])) }
    {
        match self.queue.try_pop_as::<Popped<S>>(&mut self.pass) {
            None => None,
            Some(Received::Stop) => {
                self.stopped = true;
                Some(Received::Stop)
            }
            Some(Received::Data(m)) => {
                self.stopped = false;
                Some(Received::Data(m))
            }
        }
    }

    // Whether the last entry that it took is the stop word.
    fn has_stopped(&self) -> bool
        ensures { IsTrue result ↔ IsStopped self.now.entries }
    {
        self.stopped
    }

    /// Takes the stream's next message, or the stop word, once there is one. Where the stop word was taken before, it is
    /// the answer again.
    pub fn receive<R: Wait>(&mut self, rt: &R) -> Received
        ensures received { IsReceived (S.stream self.old.ring) self.old result self.new }
    {
        if self.has_stopped() {
            return Received::Stop;
        }
        let backoff = Backoff::new();
        for _ in rt.forever() {
            match self.take() {
                Some(entry) => return entry,
                None => backoff.snooze(),
            }
        }
        unreachable!()
    }
}

// A ring whose number is K's.
#[tactic(auto, using(crate::proofs::Entries::none_not_stopped))]
fn pair_at<S: Streams, K: Number>(
    alloc: Global,
    ring: u32,
) -> Result<(Sender<S>, Receiver<S>), AllocError>
    requires { ring ≡ K.number }
    ensures sender { IfOk result (λ p. p.0 ≡ fresh ring) }
    ensures receiver { IfOk result (λ p. p.1 ≡ fresh ring) }
{
    let (queue, mut pass) = Line::<S>::ruled(alloc, 4)?;
    let queue = Arc::new(alloc, queue)?;
    let other = Arc::try_clone(&queue)?;
    let theirs = queue.another::<Roles<K>>(&mut pass);
    Ok((
        Sender { queue, pass },
        Receiver {
            queue: other,
            pass: theirs,
            stopped: false,
        },
    ))
}

/// The two ends of a ring with room for four entries, for the stream of this number.
pub fn pair<S: Streams>(alloc: Global, ring: u32) -> Result<(Sender<S>, Receiver<S>), NoMemory>
    ensures sender { IfOk result (λ p. p.0 ≡ fresh ring) }
    ensures receiver { IfOk result (λ p. p.1 ≡ fresh ring) }
{
    pair_at::<S, Brand>(alloc, ring).map_err(|_| NoMemory)
}

// The rule of a ring, and its kinds of step: a push, a pop, and the split of the maker's pass. No call joins passes.
ghost use Rattle.std.specs.Prelude.{ℕ, List};
ghost use Rattle.xmp_message.specs.declared.Message.{Message};

use crate::received::{Port, Received};
use crossbeam_queue::RuledArrayQueue;
use crossbeam_queue::protocol::{Outcome, Protocol, Split};
use std::marker::{Brand, PhantomData};

/// A stream for each number of a ring, which contracts alone see.
pub trait Streams {
    ghost stream: { ℕ → List Message };
}

/// With this type a caller names the streams at the call, in its proof.
impl Streams for Brand {
    ghost use Rattle.std.specs.Prelude.{[]};

    ghost stream = { λ ring. [] };
}

/// The rule of a ring.
pub struct InStream<S>(PhantomData<S>);

impl<S: Streams> Protocol<Received, Port> for InStream<S> {
    ghost use Rattle.std.specs.Prelude.{true, []};
    ghost use Rattle.xmp_ring.specs.Rule.{port, Ruled};

    ghost holds = { Ruled S.stream };

    ghost first = { port true true 0 [] };
}

/// The number of the ring that is being made.
pub trait Number {
    ghost number: { ℕ };
}

impl Number for Brand {
    ghost number = { 0 };
}

/// The maker's pass becomes the sender's, and the new one is the receiver's.
pub struct Roles<K>(PhantomData<K>);

impl<K: Number> Split<Port> for Roles<K> {
    ghost use Rattle.std.specs.Prelude.{true, false, []};
    ghost use Rattle.xmp_ring.specs.Rule.{port};

    ghost left = { λ v. port true false K.number [] };

    ghost right = { λ v. port false true K.number [] };
}

/// A push: the entry joins those that the sender has put.
pub struct Pushed;

impl Outcome<Received, Port> for Pushed {
    ghost use Rattle.std.specs.Prelude.{◌≡◌};
    ghost use Rattle.xmp_ring.specs.Rule.{with_entry};

    ghost then = { λ v x w. w ≡ with_entry v x };
}

/// A pop: the entry joins those that the receiver has taken, which stay a piece of the stream.
pub struct Popped<S>(PhantomData<S>);

impl<S: Streams> Outcome<Received, Port> for Popped<S> {
    ghost use Rattle.std.specs.Prelude.{◌≡◌};
    ghost use Rattle.xmp_ring.specs.Pieces.{IsPiece};
    ghost use Rattle.xmp_ring.specs.Rule.{with_entry};

    ghost then = { λ v x w. (w ≡ with_entry v x) × IsPiece (S.stream v.ring) w.entries };
}

/// The queue of a ring.
pub type Line<S> = RuledArrayQueue<Received, Port, InStream<S>>;

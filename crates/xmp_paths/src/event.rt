// Events, and the tree of events that a program comes to.
ghost use Rattle.std.specs.Prelude.{◌≡◌, [], ◌∷◌, map, IfOk};
ghost use Rattle.xmp_paths.specs.Plans.{emit, branch, loop, in_order};
ghost use Rattle.xmp_paths.specs.Flows.{plan_of};

use sqlite_items::{Boxed, Items};
use std::alloc::{AllocError, Global};
use xmp_base::Place;

/// What happens to the nodes' copies of an object. A set of nodes is a `u16`: node `k` is in it where bit `k` is 1.
#[derive(Clone, Copy)]
pub enum Event {
    /// The object is read at each of these nodes. Where a copy there is out of date, the rule breaks at the place.
    Read {
        object: u64,
        nodes: u16,
        rule: u16,
        at: Place,
    },
    /// The rule breaks at the place, whatever came before.
    Wrong {
        rule: u16,
        at: Place,
    },
    /// The object's copies go out of date on the nodes of `stale`, and are made current on the others of `current`.
    Mark {
        object: u64,
        current: u16,
        stale: u16,
    },
}

/// Events in order, with branches and loops.
#[cycle(flow)]
#[derive(Drop)]
pub enum Flow {
    /// one event
    Emit(Event),
    /// the parts, one after another
    Sequence(Items<Flow>),
    /// either of the two
    Branch(Boxed<Flow>, Boxed<Flow>),
    /// the body, any number of times
    Loop(Boxed<Flow>),
}

impl Flow {
    /// Nothing happens.
    pub fn nothing(alloc: Global) -> Flow
        ensures { plan_of result ≡ in_order [] }
    {
        Flow::Sequence(Items::new(alloc))
    }

    /// One event.
    pub fn one(event: Event) -> Flow
        ensures { plan_of result ≡ emit event }
    {
        Flow::Emit(event)
    }

    /// The parts, one after another.
    pub fn all(parts: Items<Flow>) -> Flow
        ensures { plan_of result ≡ in_order (map plan_of parts) }
    {
        Flow::Sequence(parts)
    }

    /// Two parts, one after the other.
    pub fn both(alloc: Global, first: Flow, second: Flow) -> Result<Flow, AllocError>
        ensures { IfOk result (λ flow. plan_of flow ≡ in_order (plan_of first ∷ plan_of second ∷ [])) }
    {
        let mut parts = Items::new(alloc);
        parts.push(first)?;
        parts.push(second)?;
        Ok(Flow::all(parts))
    }

    /// Either of the two.
    pub fn either(alloc: Global, left: Flow, right: Flow) -> Result<Flow, AllocError>
        ensures { IfOk result (λ flow. plan_of flow ≡ branch (plan_of left) (plan_of right)) }
    {
        let left = Boxed::new(alloc, left)?;
        let right = Boxed::new(alloc, right)?;
        Ok(Flow::Branch(left, right))
    }

    /// The body, any number of times.
    pub fn turns(alloc: Global, body: Flow) -> Result<Flow, AllocError>
        ensures { IfOk result (λ flow. plan_of flow ≡ loop (plan_of body)) }
    {
        Ok(Flow::Loop(Boxed::new(alloc, body)?))
    }
}

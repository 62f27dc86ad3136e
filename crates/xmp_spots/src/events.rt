// What happens in a coarray program, and the tree of what happens on its paths.
ghost use Rattle.std.specs.Prelude.{◌≡◌, [], ◌∷◌, map, IfOk};
ghost use Rattle.xmp_paths.specs.Plans.{emit, branch, loop};
ghost use Rattle.xmp_spots.specs.Courses.{in_sequence, plan_of};

use crate::touches::Touch;
use sqlite_items::{Boxed, Items};
use std::alloc::{AllocError, Global};
use xmp_base::Place;

/// What happens in a coarray program: an access, the end of a phase, or a rule that breaks at a place, whatever came
/// before.
#[derive(Drop)]
pub enum Event {
    Touches(Touch),
    Sync,
    Wrong { rule: u16, at: Place },
}

/// Events in order, with branches and loops.
#[cycle(course)]
#[derive(Drop)]
pub enum Course {
    /// one event
    Emit(Event),
    /// the parts, one after another
    Sequence(Items<Course>),
    /// either of the two
    Branch(Boxed<Course>, Boxed<Course>),
    /// the body, any number of times
    Loop(Boxed<Course>),
}

impl Course {
    /// Nothing happens.
    pub fn nothing(alloc: Global) -> Course
        ensures { plan_of result ≡ in_sequence [] }
    {
        Course::Sequence(Items::new(alloc))
    }

    /// One event.
    pub fn one(event: Event) -> Course
        ensures { plan_of result ≡ emit event }
    {
        Course::Emit(event)
    }

    /// The parts, one after another.
    pub fn all(parts: Items<Course>) -> Course
        ensures { plan_of result ≡ in_sequence (map plan_of parts) }
    {
        Course::Sequence(parts)
    }

    /// Two parts, one after the other.
    pub fn both(alloc: Global, first: Course, second: Course) -> Result<Course, AllocError>
        ensures { IfOk result (λ course. plan_of course ≡ in_sequence (plan_of first ∷ plan_of second ∷ [])) }
    {
        let mut parts = Items::new(alloc);
        parts.push(first)?;
        parts.push(second)?;
        Ok(Course::all(parts))
    }

    /// Either of the two.
    pub fn either(alloc: Global, left: Course, right: Course) -> Result<Course, AllocError>
        ensures { IfOk result (λ course. plan_of course ≡ branch (plan_of left) (plan_of right)) }
    {
        let left = Boxed::new(alloc, left)?;
        let right = Boxed::new(alloc, right)?;
        Ok(Course::Branch(left, right))
    }

    /// The body, any number of times.
    pub fn turns(alloc: Global, body: Course) -> Result<Course, AllocError>
        ensures { IfOk result (λ course. plan_of course ≡ loop (plan_of body)) }
    {
        Ok(Course::Loop(Boxed::new(alloc, body)?))
    }
}

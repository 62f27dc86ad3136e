// Single events.
ghost use Rattle.std.specs.Prelude.{◌≡◌};
ghost use Rattle.xmp_spots.specs.Courses.{plan_of};
ghost use Rattle.xmp_races.specs.Setting.{wrong_where};
ghost use Rattle.xmp_paths.specs.Plans.{emit};
ghost use Rattle.xmp_spots.specs.declared.events.Event.TheVariants.{Wrong};

use std::alloc::Global;
use xmp_base::Place;
use xmp_spots::{Course, Event};

/// The rule breaks here.
pub fn wrong(rule: u16, at: Place) -> Course
    ensures { plan_of result ≡ emit (Wrong rule at) }
{
    Course::one(Event::Wrong { rule, at })
}

/// The rule breaks here, where the test holds.
pub fn wrong_where(alloc: Global, test: bool, rule: u16, at: Place) -> Course
    ensures { plan_of result ≡ wrong_where test rule at }
{
    if test {
        wrong(rule, at)
    } else {
        Course::nothing(alloc)
    }
}

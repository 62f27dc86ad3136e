// Laws of meetings.
ghost use Rattle.std.specs.Prelude.{◌↔◌, ◌≡◌, List, Option};
ghost use Rattle.xmp_base.specs.First.{IsFirst};
ghost use Rattle.std.specs.List.{list_any};
ghost use Rattle.xmp_base.specs.declared.refusal.Refusal.{Refusal};
ghost use Rattle.xmp_paths.specs.Plans.{Plan};
ghost use Rattle.xmp_spots.specs.declared.touches.Touch.{Touch};
ghost use Rattle.xmp_spots.specs.declared.touches.Spot.{Spot};
ghost use Rattle.xmp_spots.specs.Clashes.{spots_clash};
ghost use Rattle.xmp_spots.specs.Gathered.{gathered};
ghost use Rattle.xmp_spots.specs.declared.events.Event.{Event};
ghost use Rattle.xmp_spots.specs.Meetings.{Reached, MayMeet};
ghost use Rattle.xmp_spots.specs.Joins.{IsEarly, Meet};
ghost use Rattle.xmp_spots.specs.PlanRaces.{BreaksIn, Races, RacesIn};

/// Which accesses are reached before any sync, and which may fall in one phase, is what the recursion on the plan says.
pub fn meetings()
    ensures early { (plan : Plan Event) (t : Touch) → IsEarly plan t ↔ Reached plan t }
    ensures meet { (plan : Plan Event) (a b : Touch) → Meet plan a b ↔ MayMeet plan a b }
{}

/// Two lists of spots clash exactly where they do once spots of the same cells are one, touched by the images of all.
pub fn spots_as_one()
    ensures { (xs ys : List Spot) → list_any (λ s. list_any (spots_clash s) (gathered ys)) (gathered xs)
        ≡ list_any (λ s. list_any (spots_clash s) ys) xs }
{}

/// Where rule 2 breaks in a plan, by two accesses that may fall in one phase and clash, is what the recursion on the plan
/// says: it judges the accesses of each part, and those of two parts against each other.
pub fn races()
    ensures { (plan : Plan Event) (r : Refusal) → RacesIn plan r ↔ Races plan r }
{}

/// Each plan has an answer: a first rule that breaks, or that none does.
pub fn plans_have_answers()
    ensures { (plan : Plan Event) → (found : Option Refusal) × IsFirst (BreaksIn plan) found }
{}

// What the accesses of a part of a course may meet outside it, and the first rule that breaks within it.
ghost use Rattle.std.specs.Prelude.{◌≡◌, ◌↔◌, ◌⊎◌, ◌&&◌, ◌||◌, [], Option, Contains, OnOk, IfOk, IsTrue, true, false};
ghost use Rattle.xmp_base.specs.declared.refusal.Refusal.{Refusal};
ghost use Rattle.xmp_base.specs.First.{IsFirst, first_of};
ghost use Rattle.xmp_paths.specs.Plans.{Plan, skip, emit, sequence, branch, loop};
ghost use Rattle.xmp_spots.specs.declared.touches.Touch.{Touch};
ghost use Rattle.xmp_spots.specs.declared.events.Event.{Event};
ghost use Rattle.xmp_spots.specs.declared.events.Event.TheVariants.{Touches, Sync, Wrong};
ghost use Rattle.xmp_spots.specs.Races.{ClashBetween};
ghost use Rattle.xmp_spots.specs.PlanRaces.{BreaksWithin};
ghost use Rattle.xmp_spots.specs.Summaries.{Sums, late_of};

use crate::accesses::Accesses;
use crate::touches::Touch;
use std::alloc::Global;
use xmp_base::{NoMemory, Phase, Place, Refusal, earlier};

// Whether no phase ends in the part: then all its accesses are early, and none is kept as late. Whether some path
// through it has no sync; whether a loop round it adds nothing. The accesses that some path comes to before any sync,
// those that fall in one phase with what comes behind, and the first rule that breaks.
#[derive(Drop)]
pub(crate) struct Summary {
    pub(crate) quiet: bool,
    pub(crate) passes: bool,
    pub(crate) turned: bool,
    pub(crate) early: Accesses,
    pub(crate) late: Accesses,
    pub(crate) found: Option<Refusal>,
}

// Whether one of two tests holds.
fn either(one: bool, other: bool) -> bool
    ensures { result ≡ (one || other) }
{
    one || other
}

// Adds the accesses of a set to another, where a test holds.
fn absorb_where(
    alloc: Global,
    set: &mut Accesses,
    test: bool,
    more: Accesses,
) -> Result<(), NoMemory>
    ensures { OnOk result ((t : Touch) → Contains set.new t ↔ (Contains set.old t ⊎ ((test ≡ true) × Contains more t))) }
{
    if test {
        return set.absorb(alloc, more);
    }
    std::mem::drop(more);
    Ok(())
}

impl Summary {
    // Nothing happens.
    pub(crate) fn nothing(alloc: Global) -> Summary
        ensures { Sums skip result }
    {
        Summary {
            quiet: true,
            passes: true,
            turned: false,
            early: Accesses::new(alloc),
            late: Accesses::new(alloc),
            found: None,
        }
    }

    // An access.
    pub(crate) fn of_touch(alloc: Global, touch: &Touch) -> Result<Summary, NoMemory>
        ensures { IfOk result (λ s. Sums (emit (Touches touch.now)) s) }
    {
        let mut early = Accesses::new(alloc);
        early.add_copy(alloc, touch)?;
        let found = early.ask(touch);
        Ok(Summary {
            quiet: true,
            passes: true,
            turned: false,
            early,
            late: Accesses::new(alloc),
            found,
        })
    }

    // The end of a phase.
    pub(crate) fn of_sync(alloc: Global) -> Summary
        ensures { Sums (emit Sync) result }
    {
        Summary {
            quiet: false,
            passes: false,
            turned: false,
            early: Accesses::new(alloc),
            late: Accesses::new(alloc),
            found: None,
        }
    }

    // A rule that breaks.
    pub(crate) fn of_wrong(alloc: Global, rule: u16, at: Place) -> Summary
        ensures { Sums (emit (Wrong rule at)) result }
    {
        Summary {
            quiet: true,
            passes: true,
            turned: false,
            early: Accesses::new(alloc),
            late: Accesses::new(alloc),
            found: Some(Refusal {
                phase: Phase::Coarray,
                rule,
                at,
            }),
        }
    }

    // The late accesses.
    fn late(&self) -> &Accesses
        ensures { result.now ≡ late_of self.now }
    {
        if self.quiet { &self.early } else { &self.late }
    }

    // Whether it has neither an access nor the end of a phase.
    fn is_blank(&self) -> bool
        ensures { IsTrue result ↔ ((self.now.quiet ≡ true) × (self.now.early ≡ [])) }
    {
        self.quiet && self.early.touches().is_empty()
    }

    // Whether no phase ends in either of two parts.
    fn is_quiet_with(&self, next: &Summary) -> bool
        ensures { result ≡ (self.now.quiet && next.now.quiet) }
    {
        self.quiet && next.quiet
    }

    // The early accesses.
    fn into_early(self) -> Accesses
        ensures { result ≡ self.early }
    {
        self.early
    }

    // Late accesses are kept.
    fn keep_late(&mut self, alloc: Global) -> Result<(), NoMemory>
        ensures late { OnOk result (self.new.late ≡ late_of self.old) }
        ensures loud { OnOk result (self.new.quiet ≡ false) }
        ensures rest { OnOk result ((self.new.early ≡ self.old.early) × (self.new.passes ≡ self.old.passes)
            × (self.new.turned ≡ self.old.turned) × (self.new.found ≡ self.old.found)) }
    {
        if self.quiet {
            self.late = self.early.copy(alloc)?;
            self.quiet = false;
        }
        Ok(())
    }

    // The accesses of a part in which no phase ends, before or behind another such part, or in another branch.
    fn gather(
        &mut self,
        alloc: Global,
        next: Summary,
        found: Option<Refusal>,
    ) -> Result<(), NoMemory>
        ensures early { OnOk result ((t : Touch) → Contains self.new.early t ↔ (Contains self.old.early t ⊎ Contains next.early t)) }
        ensures rest { OnOk result ((self.new.quiet ≡ self.old.quiet) × (self.new.passes ≡ self.old.passes)
            × (self.new.turned ≡ false) × (self.new.found ≡ found)) }
    {
        self.turned = false;
        self.found = found;
        self.early.absorb(alloc, next.into_early())
    }

    // The accesses of a part that follows.
    fn append(
        &mut self,
        alloc: Global,
        next: Summary,
        found: Option<Refusal>,
    ) -> Result<(), NoMemory>
        ensures early { OnOk result ((t : Touch) → Contains self.new.early t
            ↔ (Contains self.old.early t ⊎ ((self.old.passes ≡ true) × Contains next.early t))) }
        ensures late { OnOk result ((t : Touch) → Contains self.new.late t
            ↔ (Contains next.late t ⊎ ((next.passes ≡ true) × Contains self.old.late t))) }
        ensures rest { OnOk result ((self.new.quiet ≡ self.old.quiet) × (self.new.passes ≡ (self.old.passes && next.passes))
            × (self.new.turned ≡ false) × (self.new.found ≡ found)) }
    {
        let passes = next.passes;
        let Summary {
            early,
            mut late,
            ..
        } = next;
        std::mem::swap(&mut self.late, &mut late);
        match absorb_where(alloc, &mut self.early, self.passes, early) {
            Ok(()) => {}
            Err(e) => {
                std::mem::drop(late);
                return Err(e);
            }
        }
        self.passes = self.passes && passes;
        self.turned = false;
        self.found = found;
        absorb_where(alloc, &mut self.late, passes, late)
    }

    // The accesses of another branch.
    fn unite(
        &mut self,
        alloc: Global,
        next: Summary,
        found: Option<Refusal>,
    ) -> Result<(), NoMemory>
        ensures early { OnOk result ((t : Touch) → Contains self.new.early t ↔ (Contains self.old.early t ⊎ Contains next.early t)) }
        ensures late { OnOk result ((t : Touch) → Contains self.new.late t
            ↔ ((Contains self.old.late t ⊎ Contains next.late t)
            ⊎ (((self.old.passes || next.passes) ≡ true) × (Contains self.old.early t ⊎ Contains next.early t)))) }
        ensures rest { OnOk result ((self.new.quiet ≡ self.old.quiet) × (self.new.passes ≡ (self.old.passes || next.passes))
            × (self.new.turned ≡ false) × (self.new.found ≡ found)) }
    {
        let passes = either(self.passes, next.passes);
        self.passes = passes;
        self.turned = false;
        self.found = found;
        let Summary { early, late, .. } = next;
        match self.early.absorb(alloc, early) {
            Ok(()) => {}
            Err(e) => {
                std::mem::drop(late);
                return Err(e);
            }
        }
        self.late.absorb(alloc, late)?;
        if passes {
            self.repeat_early(alloc)?;
        }
        Ok(())
    }

    // The early accesses are late ones too.
    fn repeat_early(&mut self, alloc: Global) -> Result<(), NoMemory>
        ensures late { OnOk result ((t : Touch) → Contains self.new.late t ↔ (Contains self.old.late t ⊎ Contains self.old.early t)) }
        ensures rest { OnOk result ((self.new.early ≡ self.old.early) × (self.new.quiet ≡ self.old.quiet)
            × (self.new.passes ≡ self.old.passes) × (self.new.turned ≡ self.old.turned) × (self.new.found ≡ self.old.found)) }
    {
        let copy = self.early.copy(alloc)?;
        self.late.absorb(alloc, copy)
    }

    // The first rule that breaks in two parts, or between accesses of the first and early ones of the second.
    fn found_with(&self, ours: &Accesses, next: &Summary) -> Option<Refusal>
        ensures { (across : Option Refusal) × IsFirst (ClashBetween ours.now next.now.early) across
            × (result ≡ first_of (first_of self.now.found next.now.found) across) }
    {
        let both = earlier(self.found, next.found);
        earlier(both, ours.between(&next.early))
    }

    // Another part follows.
    pub(crate) fn follow(&mut self, alloc: Global, mut next: Summary) -> Result<(), NoMemory>
        ensures { OnOk result ((p q : Plan Event) → Sums p self.old → Sums q next → Sums (sequence p q) self.new) }
    {
        let found = self.found_with(self.late(), &next);
        if next.is_blank() {
            self.found = found;
            std::mem::drop(next);
            return Ok(());
        }
        if self.is_blank() {
            std::mem::swap(self, &mut next);
            self.found = found;
            std::mem::drop(next);
            return Ok(());
        }
        if self.is_quiet_with(&next) {
            return self.gather(alloc, next, found);
        }
        self.follow_apart(alloc, next, found)
    }

    // Another part follows, and a phase ends in one of them.
    fn follow_apart(
        &mut self,
        alloc: Global,
        mut next: Summary,
        found: Option<Refusal>,
    ) -> Result<(), NoMemory>
        ensures { OnOk result ((p q : Plan Event) → Sums p self.old → Sums q next → IsFirst (BreaksWithin (sequence p q)) found
            → Sums (sequence p q) self.new) }
    {
        match keep_both(alloc, self, &mut next) {
            Ok(()) => self.append(alloc, next, found),
            Err(e) => {
                std::mem::drop(next);
                Err(e)
            }
        }
    }

    // Another branch.
    pub(crate) fn or(&mut self, alloc: Global, mut next: Summary) -> Result<(), NoMemory>
        ensures { OnOk result ((p q : Plan Event) → Sums p self.old → Sums q next → Sums (branch p q) self.new) }
    {
        let found = self.found_with(&self.early, &next);
        if self.is_quiet_with(&next) {
            return self.gather(alloc, next, found);
        }
        match keep_both(alloc, self, &mut next) {
            Ok(()) => self.unite(alloc, next, found),
            Err(e) => {
                std::mem::drop(next);
                Err(e)
            }
        }
    }

    // Any number of times.
    pub(crate) fn turn(&mut self, alloc: Global) -> Result<(), NoMemory>
        ensures { OnOk result ((p : Plan Event) → Sums p self.old → Sums (loop p) self.new) }
    {
        if either(self.quiet, self.turned) {
            self.passes = true;
            return Ok(());
        }
        self.found = earlier(self.found, self.late.between(&self.early));
        self.repeat_early(alloc)?;
        self.passes = true;
        self.turned = true;
        Ok(())
    }
}

// Late accesses are kept of both.
fn keep_both(alloc: Global, one: &mut Summary, other: &mut Summary) -> Result<(), NoMemory>
    ensures { OnOk result ((p q : Plan Event) → Sums p one.old → Sums q other.old
        → (Sums p one.new × (one.new.quiet ≡ false)) × (Sums q other.new × (other.new.quiet ≡ false))) }
{
    one.keep_late(alloc)?;
    other.keep_late(alloc)
}

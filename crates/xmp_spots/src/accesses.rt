// A set of accesses.
ghost use Rattle.std.specs.Prelude.{◌≡◌, ◌&&◌, ◌++◌, [], ◌∷◌, IfOk, OnOk, OnErr};
ghost use Rattle.xmp_base.specs.First.{IsFirst};
ghost use Rattle.std.specs.Prelude.{List, filter, reverse};
ghost use Rattle.std.specs.List.Sorted.{IsPermutation};
ghost use Rattle.xmp_spots.specs.declared.touches.Touch.{Touch};
ghost use Rattle.xmp_spots.specs.Clashes.{clash};
ghost use Rattle.xmp_spots.specs.Races.{refused, IsAtOne, ClashesWith, ClashBetween};
ghost use Rattle.xmp_spots.specs.Sets.{Finds};

use crate::table::Table;
use crate::touches::Touch;
use sqlite_items::Items;
use std::alloc::{AllocError, Global};
use std::marker::Model;
use xmp_base::{NoMemory, Phase, Refusal, earlier};

/// Accesses, found by what they touch. Contracts see them as a list.
#[derive(Drop)]
pub struct Accesses {
    touches: Items<Touch>,
    all: Table,
    writers: Table,
}

impl Model for Accesses {
    ghost use Rattle.std.specs.Prelude.{List};
    ghost use Rattle.xmp_spots.specs.declared.touches.Touch.{Touch};
    ghost use Rattle.xmp_spots.specs.Sets.{FindBoth};

    ghost Value = { List Touch };

    ghost view = { λ a. a.touches };

    ghost invariant = { λ a. FindBoth a.touches a.all a.writers };
}

// The refusal at an access that clashes with another.
fn refused(touch: &Touch) -> Refusal
    ensures { result ≡ refused touch.now }
{
    Refusal {
        phase: Phase::Coarray,
        rule: 2,
        at: touch.at,
    }
}

// Notes an access in a table.
fn note(table: &mut Table, touch: &Touch) -> Result<(), AllocError>
    ensures { (touches : List Touch) → Finds table.old touches
        → OnOk result (Finds table.new (touches ++ touch.now ∷ [])) }
{
    table.note_spots(touch.array, touch.spots.as_slice(), refused(touch))
}

// Notes an access in a table where it writes.
fn note_writer(table: &mut Table, touch: &Touch) -> Result<(), AllocError>
    ensures { (touches : List Touch) → Finds table.old (filter (λ t. t.writes) touches)
        → OnOk result (Finds table.new (filter (λ t. t.writes) (touches ++ touch.now ∷ []))) }
{
    if touch.writes {
        note(table, touch)?;
    }
    Ok(())
}

impl Accesses {
    /// No access.
    pub fn new(alloc: Global) -> Accesses
        ensures { result ≡ [] }
    {
        Accesses {
            touches: Items::new(alloc),
            all: Table::new(alloc),
            writers: Table::new(alloc),
        }
    }

    /// The accesses.
    pub fn touches(&self) -> &[Touch]
        ensures { result.now ≡ self.now }
    {
        self.touches.as_slice()
    }

    /// One access more. Where memory runs out none is left.
    pub fn add(&mut self, alloc: Global, touch: Touch) -> Result<(), NoMemory>
        ensures ok { OnOk result (self.new ≡ self.old ++ touch ∷ []) }
        ensures err { OnErr result (self.new ≡ []) }
    {
        let (Ok(()), Ok(())) = (
            note(&mut self.all, &touch),
            note_writer(&mut self.writers, &touch),
        ) else {
            std::mem::drop(touch);
            *self = Accesses::new(alloc);
            return Err(NoMemory);
        };
        match self.touches.push(touch) {
            Ok(()) => Ok(()),
            Err(_) => {
                *self = Accesses::new(alloc);
                Err(NoMemory)
            }
        }
    }

    /// A copy of an access more. Where memory runs out none is left.
    pub fn add_copy(&mut self, alloc: Global, touch: &Touch) -> Result<(), NoMemory>
        ensures ok { OnOk result (self.new ≡ self.old ++ touch.now ∷ []) }
        ensures err { OnErr result (self.new ≡ []) }
    {
        match touch.copy(alloc) {
            Ok(copy) => self.add(alloc, copy),
            Err(_) => {
                *self = Accesses::new(alloc);
                Err(NoMemory)
            }
        }
    }

    /// The same accesses.
    pub fn copy(&self, alloc: Global) -> Result<Accesses, NoMemory>
        ensures { IfOk result (λ copy. copy ≡ self.now) }
    {
        let mut copy = Accesses::new(alloc);
        'touches: for touch in self.touches() {
            copy.add_copy(alloc, touch)?;
        }
        Ok(copy)
    }

    /// The first place at which an access or one of the set breaks rule 2: the two are of one cell on behalf of two images,
    /// and one of them writes. Takes as long as the access has spots.
    pub fn ask(&self, touch: &Touch) -> Option<Refusal>
        ensures { IsFirst (ClashesWith touch.now self.now) result }
    {
        match self.partner(touch) {
            None => None,
            Some(other) => earlier(Some(other), Some(refused(touch))),
        }
    }

    /// The first place at which an access of one set and one of the other break rule 2. The accesses of the smaller set are
    /// asked.
    pub fn between(&self, other: &Accesses) -> Option<Refusal>
        ensures { IsFirst (ClashBetween self.now other.now) result }
    {
        if self.touches.len() <= other.touches.len() {
            return other.ask_each(self.touches());
        }
        self.ask_each(other.touches())
    }

    /// The accesses of both sets, in some order. Those of the smaller are added to the larger. Where memory runs out none
    /// is left.
    pub fn absorb(&mut self, alloc: Global, mut other: Accesses) -> Result<(), NoMemory>
        ensures ok { OnOk result (IsPermutation (self.old ++ other) self.new) }
        ensures err { OnErr result (self.new ≡ []) }
    {
        if self.touches.len() < other.touches.len() {
            std::mem::swap(self, &mut other);
            return self.extend(alloc, other.into_touches());
        }
        self.extend(alloc, other.into_touches())
    }

    // The first place at which one of these accesses and one of the set break rule 2.
    fn ask_each(&self, touches: &[Touch]) -> Option<Refusal>
        ensures { IsFirst (ClashBetween touches.now self.now) result }
    {
        let mut found = None;
        'touches: for touch in touches {
            found = earlier(found, self.ask(touch));
        }
        found
    }

    // These accesses more, the last first.
    fn extend(&mut self, alloc: Global, mut more: Items<Touch>) -> Result<(), NoMemory>
        ensures ok { OnOk result (self.new ≡ self.old ++ reverse more) }
        ensures err { OnErr result (self.new ≡ []) }
    {
        'more: while let Some(touch) = more.pop() {
            if let Err(NoMemory) = self.add(alloc, touch) {
                std::mem::drop(more);
                return Err(NoMemory);
            }
        }
        Ok(())
    }

    // The accesses.
    fn into_touches(self) -> Items<Touch>
        ensures { result ≡ self }
    {
        self.touches
    }

    // The first of the set that clashes with the access.
    fn partner(&self, touch: &Touch) -> Option<Refusal>
        ensures { IsFirst (IsAtOne (clash touch.now) self.now) result }
    {
        let spots = touch.spots.as_slice();
        if touch.writes {
            return self.all.ask_spots(touch.array, spots);
        }
        self.writers.ask_spots(touch.array, spots)
    }
}

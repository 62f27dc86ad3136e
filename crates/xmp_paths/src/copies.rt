// Which copies may be out of date: a table of sets of nodes by object, and the trail of its changes.
ghost use Rattle.std.specs.Prelude.{◌≡◌, ◌||◌, ℕ, [], false, length, map, take, drop, OnOk, IfOk, if◌then◌else◌, ◌==◌};
ghost use Rattle.xmp_paths.specs.NodeSets.{has};
ghost use Rattle.xmp_paths.specs.Plans.{emit};
ghost use Rattle.xmp_paths.specs.Copies.{set_of, set_before, put_at, add_at, change_now, change_joined, may_be_stale, CarriesOver, Returns, ReturnsTo};

use crate::event::Event;
use crate::node_sets::marked;
use sqlite_items::Items;
use std::alloc::{AllocError, Global};

// An object and a set of nodes: in the trail the set before a change, in a list of changes the one after it.
#[derive(Clone, Copy)]
pub struct Change {
    pub object: u64,
    pub nodes: u16,
}

// The sets of nodes whose copies may be out of date, by object, and none for an object past the end of the table.
#[derive(Drop)]
pub struct Copies {
    pub sets: Vec<u16>,
    pub trail: Items<Change>,
}

impl Copies {
    // All copies are current.
    pub fn new(alloc: Global) -> Copies
        ensures { (object node : ℕ) → may_be_stale result object node ≡ false }
    {
        Copies {
            sets: Vec::new(alloc),
            trail: Items::new(alloc),
        }
    }

    pub fn get(&self, object: u64) -> u16
        ensures { result ≡ set_of self.now object }
    {
        self.sets.get(object as usize).copied().unwrap_or(0)
    }

    // A table with this set, with no entry in the trail. It grows where it has to.
    fn set(&mut self, object: u64, nodes: u16) -> Result<(), AllocError>
        ensures sets { OnOk result ((other : ℕ) → set_of self.new other
            ≡ (if object == other then nodes else set_of self.old other)) }
        ensures trail { self.new.trail ≡ self.old.trail }
    {
        let at = object as usize;
        if at >= self.sets.len() {
            let count = at.checked_add(1).ok_or(AllocError)?;
            self.sets.resize(count, 0)?;
        }
        self.sets[at] = nodes;
        Ok(())
    }

    // Only a set that differs goes into the trail: so what a loop does again leaves no second entry.
    fn write(&mut self, object: u64, nodes: u16) -> Result<(), AllocError>
        ensures sets { OnOk result ((other : ℕ) → set_of self.new other
            ≡ (if object == other then nodes else set_of self.old other)) }
        ensures returns { OnOk result (Returns self.old self.new) }
    {
        let was = self.get(object);
        if was != nodes {
            self.trail.push(Change { object, nodes: was })?;
            self.set(object, nodes)?;
        }
        Ok(())
    }

    // What an event makes of the copies.
    pub fn mark(&mut self, event: &Event) -> Result<(), AllocError>
        ensures carries { OnOk result (CarriesOver (emit event.now) self.old self.new) }
        ensures returns { OnOk result (Returns self.old self.new) }
    {
        match event {
            Event::Read { .. } | Event::Wrong { .. } => Ok(()),
            Event::Mark {
                object,
                current,
                stale,
            } => {
                let nodes = marked(self.get(*object), *current, *stale);
                self.write(*object, nodes)
            }
        }
    }

    // How many changes stand in the trail.
    pub fn reached(&self) -> usize
        ensures { result ≡ length self.now.trail }
    {
        self.trail.len()
    }

    // Undoes all changes but the first so many.
    pub fn undo(&mut self, to: usize) -> Result<(), AllocError>
        ensures sets { OnOk result ((object : ℕ) → set_of self.new object ≡ set_before self.old to object) }
        ensures trail { OnOk result (self.new.trail ≡ take to self.old.trail) }
    {
        while self.trail.len() > to {
            if let Some(change) = self.trail.pop() {
                self.set(change.object, change.nodes)?;
            }
        }
        Ok(())
    }

    // The objects changed since then, each with its set now.
    fn changed(&self, alloc: Global, since: usize) -> Result<Items<Change>, AllocError>
        ensures { IfOk result (λ changes. changes ≡ map (change_now self.now) (drop since self.now.trail)) }
    {
        let mut changes = Items::new(alloc);
        'entries: for entry in self.since(since) {
            changes.push(Change {
                object: entry.object,
                nodes: self.get(entry.object),
            })?;
        }
        Ok(changes)
    }

    // The entries of the trail but for the first so many.
    fn since(&self, since: usize) -> &[Change]
        ensures { result.now ≡ drop since self.now.trail }
    {
        let trail = self.trail.as_slice();
        if since < trail.len() {
            &trail[since..]
        } else {
            &[]
        }
    }

    // Undoes all changes but the first so many, and says what they had made of the objects.
    pub fn go_back(&mut self, alloc: Global, to: usize) -> Result<Items<Change>, AllocError>
        ensures changes { IfOk result (λ changes. changes ≡ map (change_now self.old) (drop to self.old.trail)) }
        ensures sets { OnOk result ((object : ℕ) → set_of self.new object ≡ set_before self.old to object) }
        ensures trail { OnOk result (self.new.trail ≡ take to self.old.trail) }
    {
        let changes = self.changed(alloc, to)?;
        self.undo(to)?;
        Ok(changes)
    }

    // The changes, each set with the nodes that its object has now.
    fn joined(&self, alloc: Global, changes: &[Change]) -> Result<Items<Change>, AllocError>
        ensures { IfOk result (λ both. both ≡ map (change_joined self.now) changes.now) }
    {
        let mut both = Items::new(alloc);
        'changes: for change in changes {
            both.push(Change {
                object: change.object,
                nodes: change.nodes | self.get(change.object),
            })?;
        }
        Ok(both)
    }

    // Makes the changes, the first first.
    fn put(&mut self, changes: &[Change]) -> Result<(), AllocError>
        ensures sets { OnOk result ((object : ℕ) → set_of self.new object
            ≡ put_at object changes.now (set_of self.old object)) }
        ensures returns { OnOk result (Returns self.old self.new) }
    {
        'changes: for change in changes {
            self.write(change.object, change.nodes)?;
        }
        Ok(())
    }

    // Adds the changes' nodes to the sets of their objects.
    fn add(&mut self, changes: &[Change]) -> Result<(), AllocError>
        ensures sets { OnOk result ((object : ℕ) → set_of self.new object
            ≡ add_at object changes.now (set_of self.old object)) }
        ensures returns { OnOk result (Returns self.old self.new) }
    {
        'changes: for change in changes {
            let nodes = self.get(change.object);
            self.write(change.object, nodes | change.nodes)?;
        }
        Ok(())
    }

    // The copies that may be out of date now, and those that may be after the changes, made where the trail had so many
    // entries.
    pub fn join(
        &mut self,
        alloc: Global,
        start: usize,
        changes: Items<Change>,
    ) -> Result<(), AllocError>
        ensures sets { OnOk result ((object node : ℕ) → may_be_stale self.new object node
            ≡ (has (put_at object changes (set_before self.old start object)) node || may_be_stale self.old object node)) }
        ensures returns { OnOk result (ReturnsTo (take start self.old.trail) (set_before self.old start) self.new) }
    {
        let both = self.joined(alloc, changes.as_slice())?;
        let others = self.go_back(alloc, start)?;
        self.add(others.as_slice())?;
        self.put(both.as_slice())?;
        Ok(())
    }
}

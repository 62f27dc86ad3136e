// The open scopes.
ghost use Rattle.std.specs.Prelude.{◌≡◌, ◌↔◌, OnOk, OnErr, IsNone, [], ◌∷◌, drop, length};
ghost use Rattle.xmp_scopes.specs.Names.{declare, nearest, depth_of, is_declared_here, IsUndeclared};

use crate::current::{Current, Held};
use std::alloc::Global;
use std::marker::Model;
use xmp_base::NoMemory;

// A scope was opened; or the name at a place of the table was declared, which until then had the declaration that is now hidden.
#[derive(Drop)]
pub(crate) enum Entry<M> {
    Opened,
    Declared {
        at: usize,
        meaning: M,
        hidden: Option<Held<M>>,
    },
}

/// The open scopes, each with its declarations: a name, as its bytes, and what it means.
/// A name may be any bytes, the empty ones too.
#[derive(Drop)]
pub struct Scopes<M> {
    current: Current<M>,
    steps: Vec<Entry<M>>,
    depth: usize,
}

impl<M> Model for Scopes<M> {
    ghost use Rattle.std.specs.Prelude.{List, reverse};
    ghost use Rattle.xmp_scopes.specs.Words.{Name};

    ghost Value = { List (List (Name × M)) };

    ghost use Rattle.xmp_scopes.specs.Log.{scopes_of, steps_of, Agrees};

    ghost view = { λ s. scopes_of (steps_of s.current (reverse s.steps.items)) };

    ghost invariant = { λ s. Agrees s.current s.depth (reverse s.steps.items) };
}

impl<M: Copy> Scopes<M> {
    /// No scope is open.
    pub fn new(alloc: Global) -> Scopes<M>
        ensures { result ≡ [] }
    {
        Scopes {
            current: Current::new(alloc),
            steps: Vec::new(alloc),
            depth: 0,
        }
    }

    /// How many scopes are open.
    pub fn depth(&self) -> usize
        ensures { result ≡ length self.now }
    {
        self.depth
    }

    /// What a name means: its innermost declaration, and in one scope the latest. Takes constant time on average.
    pub fn look_up(&self, name: &[u8]) -> Option<M>
        ensures nearest { result ≡ nearest name.now self.now }
        ensures none { IsNone result ↔ IsUndeclared name.now self.now }
    {
        match self.current.get(name) {
            Some(held) => Some(held.meaning),
            None => None,
        }
    }

    /// How many scopes are open where the innermost declaration of a name stands, its own scope included: 1 is the
    /// outermost. Takes constant time on average.
    pub fn depth_of(&self, name: &[u8]) -> Option<usize>
        ensures { result ≡ depth_of name.now self.now }
    {
        match self.current.get(name) {
            Some(held) => Some(held.depth),
            None => None,
        }
    }

    /// Whether the innermost scope declares a name. Takes constant time on average.
    pub fn is_declared_here(&self, name: &[u8]) -> bool
        ensures { result ≡ is_declared_here name.now self.now }
    {
        match self.current.get(name) {
            Some(held) => held.depth == self.depth,
            None => false,
        }
    }

    /// Opens a scope inside the others, or changes nothing.
    pub fn open(&mut self) -> Result<(), NoMemory>
        ensures ok { OnOk result (self.new ≡ [] ∷ self.old) }
        ensures err { OnErr result (self.new ≡ self.old) }
    {
        let Ok(()) = self.steps.push(Entry::Opened) else {
            return Err(NoMemory);
        };
        // No more scopes are open than there are steps, and their number fits.
        let _steps = self.steps.len();
        self.depth += 1;
        Ok(())
    }

    /// Declares a name in the innermost scope, which it opens where none is open, or changes nothing. It hides every
    /// other declaration of the name, also one in the same scope. Takes constant time on average.
    pub fn declare(&mut self, alloc: Global, name: &[u8], meaning: M) -> Result<(), NoMemory>
        ensures ok { OnOk result (self.new ≡ declare name.now meaning self.old) }
        ensures err { OnErr result (self.new ≡ self.old) }
    {
        let hidden = self.current.get(name);
        let at = self.current.place(alloc, name)?;
        let step = Entry::Declared {
            at,
            meaning,
            hidden,
        };
        let Ok(()) = self.steps.push(step) else {
            return Err(NoMemory);
        };
        let depth = self.depth.max(1);
        self.current.put(at, Some(Held { depth, meaning }));
        self.depth = depth;
        Ok(())
    }

    /// Closes the innermost scope, or does nothing where none is open. Takes as many steps as the scope has
    /// declarations.
    pub fn close(&mut self)
        ensures { self.new ≡ drop 1 self.old }
    {
        'steps: while let Some(step) = self.steps.pop() {
            match step {
                Entry::Opened => break,
                Entry::Declared { at, hidden, .. } => {
                    self.current.put(at, hidden);
                }
            }
        }
        self.depth = self.depth.saturating_sub(1);
    }
}

// The definitions of a text, and the names that are hidden in a replacement.
ghost use Rattle.std.specs.Prelude.{◌≡◌, ◌++◌, [], ◌∷◌, List, ℕ, Option, None, Some, OnOk, option_map, map, false};
ghost use Rattle.std.specs.List.{list_any};
ghost use Rattle.xmp_lex.specs.Expand.{Definition, same, body_of};

use crate::token::{Token, TokenKind};
use indexmap::{IndexMap, IndexSet};
use std::alloc::Global;
use std::marker::Model;
use xmp_base::NoMemory;

/// The names that are defined so far, each with its tokens.
#[derive(Drop)]
pub struct Definitions {
    bodies: IndexMap<Vec<u8>, Vec<Token>>,
}

impl Model for Definitions {
    ghost use Rattle.std.specs.Prelude.{List, map};
    ghost use Rattle.xmp_lex.specs.Expand.{Definition};

    ghost Value = { List Definition };

    ghost view = { λ d. map (λ e. (e.0.items, e.1.items)) d.bodies.entries };
}

impl Definitions {
    pub fn new(alloc: Global) -> Self
        ensures { result ≡ [] }
    {
        Definitions {
            bodies: IndexMap::new(alloc),
        }
    }

    /// The tokens that a name is defined as.
    pub fn body_of(&self, name: &[u8]) -> Option<&[Token]>
        ensures { option_map (λ b. b.now) result ≡ body_of self.now name.now }
    {
        match self.bodies.get(name) {
            Some(body) => Some(body.as_slice()),
            None => None,
        }
    }

    /// Defines a name that isn't defined yet.
    pub fn add(&mut self, alloc: Global, name: &[u8], body: Vec<Token>) -> Result<(), NoMemory>
        requires { body_of self.old name.now ≡ None }
        ensures { OnOk result (self.new ≡ self.old ++ (name.now, body.items) ∷ []) }
    {
        let Ok(key) = Vec::from_slice(alloc, name) else {
            return Err(NoMemory);
        };
        match self.bodies.insert(key, body) {
            Ok(_) => Ok(()),
            Err(_) => Err(NoMemory),
        }
    }
}

/// The names that are hidden: those of the uses that stand open, the outermost first.
#[derive(Drop)]
pub struct Hidden<'a> {
    names: IndexSet<&'a [u8]>,
}

impl<'a> Model for Hidden<'a> {
    ghost use Rattle.std.specs.Prelude.{List, ℕ, map};

    ghost Value = { List (List ℕ) };

    ghost view = { λ h. map (λ n. n.now) h.names.keys };
}

impl<'a> Hidden<'a> {
    pub fn new(alloc: Global) -> Self
        ensures { result ≡ [] }
    {
        Hidden {
            names: IndexSet::new(alloc),
        }
    }

    pub fn has(&self, name: &[u8]) -> bool
        ensures { result ≡ list_any (same name.now) self.now }
    {
        self.names.contains(name)
    }

    /// Hides a name that isn't hidden yet.
    pub fn hide(&mut self, name: &'a [u8]) -> Result<(), NoMemory>
        requires { list_any (same name.now) self.old ≡ false }
        ensures { OnOk result (self.new ≡ self.old ++ name.now ∷ []) }
    {
        match self.names.insert(name) {
            Ok(_) => Ok(()),
            Err(_) => Err(NoMemory),
        }
    }

    /// Shows the name that was hidden last, if there is one.
    pub fn show_last(&mut self)
        ensures { (names : List (List ℕ)) (last : List ℕ) → self.old ≡ names ++ last ∷ [] → self.new ≡ names }
    {
        let _last = self.names.pop();
    }
}

/// A name that is replaced, and its tokens.
#[derive(Clone, Copy)]
pub struct Use<'a> {
    pub name: &'a [u8],
    pub rest: &'a [Token],
}

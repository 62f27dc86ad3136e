// Tables by number: roles, and sets of numbers.
ghost use Rattle.std.specs.Prelude.{◌≡◌, ◌==◌, ◌||◌, ℕ, OnOk, IfOk, []};
ghost use Rattle.std.specs.Prelude.{if◌then◌else◌};
ghost use Rattle.xmp_prog.specs.Numbers.{is_in};
ghost use Rattle.xmp_loops.specs.Tables.{flag_at, role_at};

use crate::role::Role;
use indexmap::{IndexMap, IndexSet};
use std::alloc::{AllocError, Global};
use std::marker::Model;

/// A role for each scalar by its slot: those that were put, and shared for all others.
#[derive(Drop)]
pub struct Roles {
    table: IndexMap<u32, Role>,
}

impl Model for Roles {
    ghost use Rattle.std.specs.Prelude.{ℕ, List};
    ghost use Rattle.xmp_loops.specs.declared.role.Role.{Role};

    ghost Value = { List (ℕ × Role) };

    ghost view = { λ r. r.table.entries };
}

impl Roles {
    pub fn new(alloc: Global) -> Roles
        ensures { result ≡ [] }
    {
        Roles {
            table: IndexMap::new(alloc),
        }
    }

    /// The role of a scalar.
    pub fn at(&self, slot: u32) -> Role
        ensures { result ≡ role_at self.now slot }
    {
        match self.table.get(&slot) {
            Some(role) => *role,
            None => Role::Shared,
        }
    }

    /// Puts a role at a slot.
    pub fn put(&mut self, slot: u32, role: Role) -> Result<(), AllocError>
        ensures { OnOk result ((n : ℕ) → role_at self.new n ≡ (if slot == n then role else role_at self.old n)) }
    {
        match self.table.insert(slot, role) {
            Ok(_) => Ok(()),
            Err(_) => Err(AllocError),
        }
    }
}

/// A set of numbers.
#[derive(Drop)]
pub struct Numbers {
    keys: IndexSet<u32>,
}

impl Model for Numbers {
    ghost use Rattle.std.specs.Prelude.{ℕ, List};

    ghost Value = { List ℕ };

    ghost view = { λ s. s.keys.keys };
}

impl Numbers {
    pub fn new(alloc: Global) -> Numbers
        ensures { result ≡ [] }
    {
        Numbers {
            keys: IndexSet::new(alloc),
        }
    }

    /// Whether a number is in it.
    pub fn has(&self, n: u32) -> bool
        ensures { result ≡ is_in self.now n }
    {
        self.keys.contains(&n)
    }

    /// Puts a number into it.
    pub fn put(&mut self, n: u32) -> Result<(), AllocError>
        ensures { OnOk result ((m : ℕ) → is_in self.new m ≡ ((n == m) || is_in self.old m)) }
    {
        match self.keys.insert(n) {
            Ok(_) => Ok(()),
            Err(_) => Err(AllocError),
        }
    }

    /// Puts all numbers of a list into it.
    pub fn put_all(&mut self, numbers: &[u32]) -> Result<(), AllocError>
        ensures { OnOk result ((m : ℕ) → is_in self.new m ≡ (is_in numbers.now m || is_in self.old m)) }
    {
        'items: for n in numbers {
            self.put(*n)?;
        }
        Ok(())
    }
}

/// The flag of a number, false where there is none.
pub fn flag(flags: &[bool], n: u32) -> bool
    ensures { result ≡ flag_at flags.now n }
{
    match flags.get(n as usize) {
        Some(flag) => *flag,
        None => false,
    }
}

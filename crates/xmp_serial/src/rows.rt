// The cells of arrays while a program runs.
ghost use Rattle.std.specs.Prelude.{◌≡◌, [], ◌∷◌, ◌++◌, OnOk, OnErr, length, replicate, ℤ, pos, slice_get, slice_set, unwrap_or, IfOk, map};
ghost use Rattle.xmp_meaning.specs.Cells.{cell_in, row_in, with_cell};

use sqlite_items::Items;
use std::alloc::Global;
use std::marker::Model;
use std::mem::swap;
use xmp_base::NoMemory;

/// Rows of cells, one for each array, which contracts see as a list of lists.
#[derive(Drop)]
pub struct Rows {
    rows: Vec<Items<i64>>,
}

impl Model for Rows {
    ghost use Rattle.std.specs.Prelude.{List, ℤ};

    ghost Value = { List (List ℤ) };

    ghost view = { λ t. t.rows.items };
}

impl Rows {
    pub fn new(alloc: Global) -> Rows
        ensures { result ≡ [] }
    {
        Rows {
            rows: Vec::new(alloc),
        }
    }

    /// Adds a row of so many cells, each 0, or changes nothing.
    pub fn push_zeros(&mut self, alloc: Global, count: usize) -> Result<(), NoMemory>
        ensures ok { OnOk result (self.new ≡ self.old ++ replicate count (pos 0) ∷ []) }
        ensures err { OnErr result (self.new ≡ self.old) }
    {
        let zeros = zeros(alloc, count)?;
        self.rows.push(zeros).map_err(|_| NoMemory)
    }

    /// A cell, or 0 where there is none.
    pub fn cell(&self, row: usize, at: usize) -> i64
        ensures { result ≡ cell_in self.now row at }
    {
        match self.rows.get(row) {
            Some(cells) => match cells.get(at) {
                Some(value) => *value,
                None => 0,
            },
            None => 0,
        }
    }

    /// Writes a cell, where there is one.
    pub fn set_cell(&mut self, row: usize, at: usize, value: i64)
        ensures { self.new ≡ with_cell self.old row at value }
    {
        if row < self.rows.len() {
            put(&mut self.rows[row], at, value);
        }
    }

    /// A row; there is none outside.
    pub fn row(&self, row: usize) -> &[i64]
        ensures { result.now ≡ row_in self.now row }
    {
        match self.rows.get(row) {
            Some(cells) => cells.as_slice(),
            None => &[],
        }
    }

    /// Exchanges a row for another, where there is one.
    pub fn swap_row(&mut self, row: usize, other: &mut Items<i64>)
        ensures rows { self.new ≡ slice_set self.old row other.old }
        ensures other { other.new ≡ unwrap_or (slice_get self.old row) other.old }
    {
        if row < self.rows.len() {
            swap(&mut self.rows[row], other);
        }
    }

    /// The rows in order.
    pub fn as_slice(&self) -> &[Items<i64>]
        ensures { result.now ≡ self.now }
    {
        self.rows.as_slice()
    }
}

/// So many numbers, each 0.
pub fn zeros(alloc: Global, count: usize) -> Result<Items<i64>, NoMemory>
    ensures { IfOk result (λ all. all ≡ replicate count (pos 0)) }
{
    match vec![in alloc; 0i64; count] {
        Ok(all) => Ok(Items::from_vec(all)),
        Err(_) => Err(NoMemory),
    }
}

/// Writes a number, where there is one.
pub fn put(cells: &mut Items<i64>, at: usize, value: i64)
    ensures { cells.new ≡ slice_set cells.old at value }
{
    if at < cells.len() {
        cells.set(at, value);
    }
}

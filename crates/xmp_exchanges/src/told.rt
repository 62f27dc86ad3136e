// What the nodes say by tables of words.
ghost use Rattle.xmp_exchanges.specs.Told.{told};

use xmp_base::Table;
use xmp_stores::Saying;

/// For each node a table of what it says to each.
#[derive(Drop)]
pub struct Told<'a> {
    pub tables: &'a [Table],
}

impl Saying for Told<'_> {
    ghost said = { λ t from to. told t.tables.now from to };

    fn words(&self, from: usize, to: usize) -> u64 {
        match self.tables.get(from) {
            None => 0,
            Some(table) => match table.row(to) {
                None => 0,
                Some(words) => words.len() as u64,
            },
        }
    }
}

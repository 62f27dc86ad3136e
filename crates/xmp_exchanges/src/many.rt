// Whether there are as many nodes as a program has.
ghost use Rattle.std.specs.Prelude.{◌≡◌, IsTrue};
ghost use Rattle.xmp_exchanges.specs.Told.{AreMany, are_long};

use xmp_base::first_and_rest;
use xmp_stores::{Counts, Nodes};

/// Whether each row has so many numbers.
fn are_long(rows: &[Counts], count: usize) -> bool
    ensures { result ≡ are_long count rows.now }
{
    match first_and_rest(rows) {
        None => true,
        Some((row, rest)) => row.as_slice().len() == count && are_long(rest, count),
    }
}

/// Whether there are so many nodes, each with a count of words for each.
pub fn are_many(nodes: &Nodes, count: usize) -> bool
    ensures { IsTrue result → AreMany nodes.now count }
{
    nodes.stores.len() == count
        && nodes.sent.len() == count
        && are_long(nodes.sent.as_slice(), count)
}

// How many cells the arrays of a program have.
ghost use Rattle.std.specs.Prelude.{◌≡◌, ◌++◌, ◌+◌, ◌*◌, ◌&&◌, OnOk, min, nat_lt};
ghost use Rattle.xmp_dist.specs.Valid.{is_extent};
ghost use Rattle.xmp_map.specs.RowMajor.{product};
ghost use Rattle.xmp_map.specs.Spread.{sizes_fit};
ghost use Rattle.xmp_names.specs.Sizes.{most_cells};
ghost use Rattle.xmp_mapping_rules.specs.MappingRules.{cell_rules, copies, nodes_of, number_of_nodes};

use crate::lines::Lines;
use crate::nodes_rules::{TOO_MANY, judge, limited_product, node_product};
use sqlite_items::Items;
use std::alloc::AllocError;
use xmp_base::SIZE_LIMIT;
use xmp_names::{Broken, Rule};

// How many cells an array of these extents has, or 4,194,305 where it has more.
fn cells_in(extents: &[u32]) -> u64
    ensures { result ≡ min (product extents.now) (most_cells + 1) }
{
    let mut product = 1;
    'extents: for extent in extents {
        product = limited_product(product, u64::from(*extent));
    }
    product
}

fn fits_extent(n: u32) -> bool
    ensures { result ≡ is_extent n }
{
    1 <= n && n <= SIZE_LIMIT
}

// Whether there are one to three extents, each of 1 to 4,194,304.
fn sizes_fit(extents: &[u32]) -> bool
    ensures { result ≡ sizes_fit extents.now }
{
    match extents {
        [a] => fits_extent(*a),
        [a, b] => fits_extent(*a) && fits_extent(*b),
        [a, b, c] => fits_extent(*a) && fits_extent(*b) && fits_extent(*c),
        _ => false,
    }
}

// Whether an array can be counted, and so many cells so many times aren't too many.
fn cells_right(extents: &[u32], cells: u64, times: u64) -> bool
    ensures { result ≡ (sizes_fit extents.now && nat_lt (min (cells * times) (most_cells + 1)) (most_cells + 1)) }
{
    sizes_fit(extents) && limited_product(cells, times) < TOO_MANY
}

fn number_of_nodes(lines: &Lines) -> u64
    ensures { result ≡ min (number_of_nodes lines.now) (most_cells + 1) }
{
    match lines.world().given {
        Some(given) => u64::from(given).min(TOO_MANY),
        None => node_product(lines.nodes()),
    }
}

// How many copies of its arrays the program has, or 4,194,305 where it has more.
fn copies(lines: &Lines) -> u64
    ensures { result ≡ min (copies lines.now) (most_cells + 1) }
{
    if lines.world().names.coarray {
        number_of_nodes(lines)
    } else {
        1
    }
}

/// The rule that arrays break which have too many cells together with those before them.
pub(crate) fn cell_rules(lines: &Lines, broken: &mut Items<Broken>) -> Result<(), AllocError>
    ensures { OnOk result (broken.new ≡ broken.old ++ cell_rules lines.now) }
{
    let times = copies(lines);
    let mut before = 0u64;
    let arrays = lines.world().names.arrays.as_slice();
    'arrays: for array in arrays {
        let extents = array.extents.as_slice();
        let cells = (before + cells_in(extents)).min(TOO_MANY);
        let right = cells_right(extents, cells, times);
        judge(broken, right, Rule::M10, array.at)?;
        before = cells;
    }
    Ok(())
}

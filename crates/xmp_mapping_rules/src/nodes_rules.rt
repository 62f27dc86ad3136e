// The rules of the nodes array.
ghost use Rattle.std.specs.Prelude.{◌≡◌, ◌++◌, ◌∷◌, [], ◌+◌, ◌*◌, ◌&&◌, IfOk, OnOk, int_le, min, nat_le, pos};
ghost use Rattle.std.specs.List.{list_all};
ghost use Rattle.xmp_names.specs.Rules.{unless};
ghost use Rattle.xmp_names.specs.Sizes.{most_cells, given_or_one, line_sizes, natural};
ghost use Rattle.xmp_mapping_rules.specs.MappingRules.{first_nodes, has_nodes, is_given, node_product, nodes_of, nodes_right, nodes_rule, nodes_rules, one_to_three};

use crate::numbers::is_at;
use sqlite_items::Items;
use std::alloc::{AllocError, Global};
use xmp_base::{CELL_LIMIT, NODE_LIMIT, Place};
use xmp_names::{Broken, NodesLine, Rule, World, given_or_one, line_sizes};

/// A rule breaks at a place unless the test holds.
pub(crate) fn judge(
    broken: &mut Items<Broken>,
    test: bool,
    rule: Rule,
    at: Place,
) -> Result<(), AllocError>
    ensures { OnOk result (broken.new ≡ broken.old ++ unless test rule at) }
{
    if !test {
        broken.push(Broken { rule, at })?;
    }
    Ok(())
}

// The least number of cells or nodes that is too many.
pub(crate) const TOO_MANY: u64 = CELL_LIMIT as u64 + 1;

/// A product of two numbers, or 4,194,305 where it is more.
pub(crate) fn limited_product(a: u64, b: u64) -> u64
    ensures { result ≡ min (a * b) (most_cells + 1) }
{
    a.saturating_mul(b).min(TOO_MANY)
}

/// A number, or 0 where it is negative.
pub(crate) fn natural(n: i64) -> u64
    ensures { result ≡ natural n }
{
    if n < 0 { 0 } else { n as u64 }
}

/// How many nodes an array of these sizes has, or 4,194,305 where it has more.
pub(crate) fn node_product(sizes: &[i64]) -> u64
    ensures { result ≡ min (node_product sizes.now) (most_cells + 1) }
{
    let mut product = 1;
    'sizes: for size in sizes {
        product = limited_product(product, natural(*size));
    }
    product
}

fn is_given(given: Option<u32>, count: u64) -> bool
    ensures { result ≡ is_given given count }
{
    match given {
        Some(given) => count == u64::from(given),
        None => true,
    }
}

/// Whether something has one to three dimensions.
pub(crate) fn one_to_three(count: usize) -> bool
    ensures { result ≡ one_to_three count }
{
    1 <= count && count <= 3
}

fn all_positive(sizes: &[i64]) -> bool
    ensures { result ≡ list_all (λ n. int_le (pos 1) n) sizes.now }
{
    'sizes: for size in sizes {
        if *size < 1 {
            return false;
        }
    }
    true
}

// Whether the product is one of at most 16 nodes and the given one.
fn product_right(given: Option<u32>, sizes: &[i64]) -> bool
    ensures { result ≡ (nat_le (node_product sizes.now) 16 && is_given given (node_product sizes.now)) }
{
    let count = node_product(sizes);
    count <= u64::from(NODE_LIMIT) && is_given(given, count)
}

fn nodes_right(given: Option<u32>, sizes: &[i64]) -> bool
    ensures { result ≡ nodes_right given sizes.now }
{
    one_to_three(sizes.len()) && all_positive(sizes) && product_right(given, sizes)
}

/// The place of the nodes array of a program among its `nodes` lines: the first that is no part of another.
pub(crate) fn first_nodes(w: &World) -> Option<usize>
    ensures { result ≡ first_nodes w.now }
{
    let lines = w.mappings.nodes.as_slice();
    'lines: for (i, line) in lines.iter().enumerate() {
        if !line.part {
            return Some(i);
        }
    }
    None
}

fn nodes_rule(
    alloc: Global,
    w: &World,
    broken: &mut Items<Broken>,
    first: Option<usize>,
    i: usize,
    line: &NodesLine,
) -> Result<(), AllocError>
    requires { first ≡ first_nodes w.now }
    ensures { OnOk result (broken.new ≡ broken.old ++ nodes_rule w.now (i, line.now)) }
{
    if line.part {
        return judge(broken, false, Rule::N9, line.at);
    }
    let sizes = line_sizes(alloc, given_or_one(w), line)?;
    let right = is_at(i, first) && nodes_right(w.given, sizes.as_slice());
    judge(broken, right, Rule::M1, line.at)
}

fn has_nodes(
    broken: &mut Items<Broken>,
    found: Option<usize>,
    first: Option<Place>,
) -> Result<(), AllocError>
    ensures { OnOk result (broken.new ≡ broken.old ++ has_nodes found first) }
{
    match first {
        Some(at) => judge(broken, found.is_some(), Rule::M1, at),
        None => Ok(()),
    }
}

/// The rules that nodes arrays break.
pub(crate) fn nodes_rules(
    alloc: Global,
    w: &World,
    broken: &mut Items<Broken>,
) -> Result<(), AllocError>
    ensures { OnOk result (broken.new ≡ broken.old ++ nodes_rules w.now) }
{
    let first = first_nodes(w);
    let lines = w.mappings.nodes.as_slice();
    'lines: for (i, line) in lines.iter().enumerate() {
        nodes_rule(alloc, w, broken, first, i, line)?;
    }
    has_nodes(broken, first, w.mappings.first_directive)
}

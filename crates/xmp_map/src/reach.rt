// Which subscripts a node holds, in one dimension of an array over one of a template.

ghost use Rattle.std.specs.Prelude.{◌≡◌, ◌≤◌, ◌<◌, ◌+◌, ◌↔◌, ◌⊎◌, IsTrue, Some, None, if◌then◌else◌, true, ℕ};
ghost use Rattle.xmp_dist.specs.Count.{count_below};
ghost use Rattle.xmp_base.specs.Limits.{size_limit};
ghost use Rattle.xmp_map.specs.Shadow.{has_shadow, holds_at};

use xmp_dist::{Dim, Dist};

// How many subscripts below `n` node `c` of the dimension holds, where subscript `x` lies at
// position `x + offset`.
pub fn held_below(dim: &Dim, c: u32, low: u32, high: u32, offset: u32, n: u32) -> u32
    requires node { c < dim.now.nodes }
    requires inside { n + offset ≤ dim.now.size }
    requires low_fits { low ≤ size_limit }
    requires high_fits { high ≤ size_limit }
    requires shadow { (has_shadow dim.now.dist ≡ true) ⊎ ((low ≡ 0) × (high ≡ 0)) }
    ensures { result ≡ count_below (λ x. holds_at dim.now c low high (x + offset)) n }
{
    match dim.dist() {
        Dist::Cyclic(_) => dim.owned_below(c, n + offset) - dim.owned_below(c, offset),
        _ => {
            let (start, end) = dim.interval(c);
            if start < end {
                n.min((end + high).saturating_sub(offset))
                    - n.min(start.saturating_sub(low + offset))
            } else {
                0
            }
        }
    }
}

// The local position of subscript `x` at node `c`, or `None` where it does not hold `x`.
pub fn local_of(dim: &Dim, c: u32, low: u32, high: u32, offset: u32, x: u32) -> Option<u32>
    requires node { c < dim.now.nodes }
    requires inside { x + offset < dim.now.size }
    requires low_fits { low ≤ size_limit }
    requires high_fits { high ≤ size_limit }
    requires shadow { (has_shadow dim.now.dist ≡ true) ⊎ ((low ≡ 0) × (high ≡ 0)) }
    ensures { result
        ≡ (if holds_at dim.now c low high (x + offset)
        then Some (count_below (λ x. holds_at dim.now c low high (x + offset)) x)
        else None) }
{
    let below = held_below(dim, c, low, high, offset, x);
    if below < held_below(dim, c, low, high, offset, x + 1) {
        Some(below)
    } else {
        None
    }
}

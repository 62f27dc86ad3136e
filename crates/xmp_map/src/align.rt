// Whether the dimensions of an array fit a template.

ghost use Rattle.std.specs.List.{list_all};
ghost use Rattle.std.specs.Prelude.{true, ◌≡◌, ◌≤◌, ◌∷◌, [], ◌==◌, ◌&&◌, ◌||◌, nat_le, length};
ghost use Rattle.xmp_base.specs.Limits.{size_limit};
ghost use Rattle.xmp_map.specs.Spread.{is_whole};
ghost use Rattle.xmp_map.specs.Shadow.{has_shadow};
ghost use Rattle.xmp_map.specs.Align.{under, named, names_fit, positions_fit, is_target, is_chunked_under, is_shadow, map_fault, aligned_dim, aligned_dims};

use crate::aligned::{AlignedDim, Target};
use crate::fault::MapError;
use crate::spread_dim::SpreadDim;
use crate::template::Template;
use xmp_base::SIZE_LIMIT;
use xmp_dist::Dist;

const UNUSED: AlignedDim = AlignedDim {
    target: Target {
        dim: None,
        offset: 0,
    },
    extent: 1,
    low: 0,
    high: 0,
};

fn aligned_dim(extent: u32, target: Target, widths: (u32, u32)) -> AlignedDim
    ensures { result ≡ aligned_dim extent target widths }
{
    AlignedDim {
        target,
        extent,
        low: widths.0,
        high: widths.1,
    }
}

// The dimensions of an array, filled up to three.
pub fn aligned_dims(
    extents: &[u32],
    targets: &[Target],
    shadow: &[(u32, u32)],
) -> (AlignedDim, AlignedDim, AlignedDim)
    requires targets { length targets.now ≡ length extents.now }
    requires shadows { length shadow.now ≡ length extents.now }
    requires most { length extents.now ≤ 3 }
    ensures { aligned_dims extents.now targets.now shadow.now ≡ result.0 ∷ result.1 ∷ result.2 ∷ [] }
{
    match (extents, targets, shadow) {
        ([e], [t], [w]) => (aligned_dim(*e, *t, *w), UNUSED, UNUSED),
        ([e, f], [t, u], [w, x]) => (aligned_dim(*e, *t, *w), aligned_dim(*f, *u, *x), UNUSED),
        ([e, f, g], [t, u, v], [w, x, y]) => (
            aligned_dim(*e, *t, *w),
            aligned_dim(*f, *u, *x),
            aligned_dim(*g, *v, *y),
        ),
        _ => (UNUSED, UNUSED, UNUSED),
    }
}

// The dimension of the template under a dimension of the array.
#[tactic(auto, using(crate::proofs::AlignLaws::under_laws))]
pub fn under(template: &Template, dim: &AlignedDim) -> Option<SpreadDim>
    ensures { result ≡ under template.now.spread dim.now.target.dim }
{
    match dim.target.dim {
        Some(d) if d < 3 => Some(template.spread[d as usize]),
        _ => None,
    }
}

// How many dimensions of the array name dimension `k` of the template.
fn named(dims: &[AlignedDim], k: u32) -> usize
    ensures { result ≡ named dims.now k }
{
    dims.iter()
        .filter(|l| match l.target.dim {
            Some(d) => d == k,
            None => false,
        })
        .count()
}

fn name_fits(dims: &[AlignedDim], spread: &SpreadDim, k: u32) -> bool
    ensures { result ≡ (nat_le (named dims.now k) 1
        && (is_whole spread.now.dim.dist || (named dims.now k == 1))) }
{
    let many = named(dims, k);
    match spread.dim.dist() {
        Dist::Whole => many <= 1,
        _ => many == 1,
    }
}

fn names_fit(dims: &[AlignedDim], spread: &[SpreadDim; 3]) -> bool
    ensures { result ≡ names_fit dims.now spread.now 0 }
{
    let [a, b, c] = spread;
    name_fits(dims, a, 0) && name_fits(dims, b, 1) && name_fits(dims, c, 2)
}

fn positions_fit(offset: i32, extent: u32, under: Option<SpreadDim>) -> bool
    requires { extent ≤ size_limit }
    ensures { result ≡ positions_fit offset extent under }
{
    match under {
        None => false,
        Some(spread) => offset >= 0 && offset as u32 + extent <= spread.dim.size(),
    }
}

fn is_target(template: &Template, dim: &AlignedDim) -> bool
    requires { dim.now.extent ≤ size_limit }
    ensures { result ≡ is_target template.now.dims template.now.spread dim.now }
{
    match dim.target.dim {
        None => true,
        Some(d) => {
            d < template.dims && positions_fit(dim.target.offset, dim.extent, under(template, dim))
        }
    }
}

fn is_chunked(under: Option<SpreadDim>) -> bool
    ensures { result ≡ is_chunked_under under }
{
    match under {
        None => false,
        Some(spread) => match spread.dim.dist() {
            Dist::Block | Dist::Gblock(_) => true,
            _ => false,
        },
    }
}

fn is_shadow(template: &Template, dim: &AlignedDim) -> bool
    ensures { result ≡ is_shadow template.now.spread dim.now }
{
    if dim.low > SIZE_LIMIT || dim.high > SIZE_LIMIT {
        return false;
    }
    if dim.low == 0 && dim.high == 0 {
        return true;
    }
    is_chunked(under(template, dim))
}

// The first reason that refuses a map.
pub fn fault(template: &Template, dims: &[AlignedDim; 3]) -> Option<MapError>
    requires { list_all (λ l. nat_le l.extent size_limit) dims.now ≡ true }
    ensures { result ≡ map_fault template.now.dims template.now.spread dims.now }
{
    let [a, b, c] = dims;
    if !names_fit(dims, &template.spread)
        || !is_target(template, a)
        || !is_target(template, b)
        || !is_target(template, c)
    {
        Some(MapError::Align)
    } else if !is_shadow(template, a) || !is_shadow(template, b) || !is_shadow(template, c) {
        Some(MapError::Shadow)
    } else {
        None
    }
}

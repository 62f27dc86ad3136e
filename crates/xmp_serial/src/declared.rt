// What a program's lists tell of the numbers in it.
ghost use Rattle.std.specs.Prelude.{◌≡◌, IfSome};
ghost use Rattle.xmp_map.specs.RowMajor.{product};
ghost use Rattle.xmp_meaning.specs.Declarations.{array_type, extents, scalar_type};
ghost use Rattle.xmp_prog.specs.Fits.{node_count};
ghost use Rattle.xmp_prog.specs.Tests.{is_image};

use crate::lists::split;
use xmp_num::Ty;
use xmp_prog::{Home, ProgParts};

/// The type of a scalar, or int where there is none.
pub fn scalar_type(p: &ProgParts, slot: u32) -> Ty
    ensures { result ≡ scalar_type p.now slot }
{
    match p.scalars.get(slot as usize) {
        Some(ty) => *ty,
        None => Ty::Int,
    }
}

/// The type of an array's cells, or int where there is none.
pub fn array_type(p: &ProgParts, array: u32) -> Ty
    ensures { result ≡ array_type p.now array }
{
    match p.arrays.get(array as usize) {
        Some(a) => a.ty,
        None => Ty::Int,
    }
}

/// How many subscripts each dimension of an array has.
pub fn extents(p: &ProgParts, array: u32) -> &[u32]
    ensures { result.now ≡ extents p.now array }
{
    match p.arrays.get(array as usize) {
        Some(a) => a.extents.as_slice(),
        None => &[],
    }
}

/// Whether cells lie at each image.
pub fn is_image(home: &Home) -> bool
    ensures { result ≡ is_image home.now }
{
    match home {
        Home::Image => true,
        Home::Copy | Home::Spread(_, _) => false,
    }
}

/// How many nodes there are.
pub fn node_count(p: &ProgParts) -> u32
    ensures { result ≡ node_count p.now }
{
    p.grid.count()
}

/// How many cells a box with these extents has, where 64 bits hold it.
#[tactic(auto, unfolding(xmp_map::specs::RowMajor::product))]
pub fn cell_count(extents: &[u32]) -> Option<usize>
    ensures { IfSome result (λ n. n ≡ product extents.now) }
{
    match split(extents) {
        None => Some(1),
        Some((extent, rest)) => {
            let behind = cell_count(rest)?;
            (*extent as usize).checked_mul(behind)
        }
    }
}

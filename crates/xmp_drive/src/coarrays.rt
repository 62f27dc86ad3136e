// Coarray programs, which are refused as yet.
ghost use Rattle.std.specs.Prelude.{◌≡◌, IfOk};
ghost use Rattle.xmp_drive.specs.Verdict.{arrays_of, first_coarray};

use std::alloc::{AllocError, Global};
use xmp_base::Place;
use xmp_syntax::Tree;
use xmp_walk::{Array, walk_program};

// The name of the first coarray of these.
fn first_coarray(arrays: &[Array]) -> Option<Place>
    ensures { result ≡ first_coarray arrays.now }
{
    let (first, more) = arrays.split_first()?;
    if first.coarray {
        Some(first.at)
    } else {
        first_coarray(more)
    }
}

/// The name of the first coarray of a program.
pub fn coarray_of(alloc: Global, t: &Tree, given: Option<u32>) -> Result<Option<Place>, AllocError>
    ensures { IfOk result (λ at. at ≡ first_coarray (arrays_of t.now given)) }
{
    let (body, world) = walk_program(alloc, t, given)?;
    let found = first_coarray(world.names.arrays.as_slice());
    std::mem::drop(body);
    std::mem::drop(world);
    Ok(found)
}

// Whose cells an access means.
ghost use Rattle.std.specs.Prelude.{◌≡◌, pos, slice_get, unwrap_or, filter, IfOk};
ghost use Rattle.std.specs.List.{list_any, range_with_len};
ghost use Rattle.xmp_races.specs.Footprints.{comes, is_elsewhere, misses, whose, whose_scalar};
ghost use Rattle.xmp_races.specs.Setting.{Setting};
ghost use Rattle.xmp_races.specs.Views.{setting_of, whose_of};

use crate::guards::comes;
use crate::loops::{is_image, loop_of};
use crate::setting::{LoopImages, Site};
use sqlite_items::Boxed;
use std::alloc::Global;
use xmp_base::{NoMemory, Words};
use xmp_prog::Expr;
use xmp_spots::image_values;

/// An image's own; those of the values of an image expression; those of the values of a loop's index; or none that can
/// be told.
#[derive(Drop)]
pub enum Whose<'a> {
    Own,
    Given(Words),
    Turning(&'a LoopImages),
    Unknown,
}

// Those that an expression means which is no image expression.
fn whose_scalar<'a>(loops: &'a [LoopImages], e: &Expr) -> Whose<'a>
    ensures { whose_of result ≡ whose_scalar loops.now e.now }
{
    match e {
        Expr::Scalar(slot, _) => match loop_of(loops, *slot) {
            Some(l) => Whose::Turning(l),
            None => Whose::Unknown,
        },
        _ => Whose::Unknown,
    }
}

/// Those that an access means by its image, where one is written.
pub fn means<'a>(
    alloc: Global,
    s: &Site<'a>,
    image: &Option<Boxed<Expr>>,
) -> Result<Whose<'a>, NoMemory>
    ensures { IfOk result (λ w. whose_of w
        ≡ whose (setting_of s.now).count (setting_of s.now).values (setting_of s.now).loops image.now) }
{
    let Some(e) = image else {
        return Ok(Whose::Own);
    };
    match image_values(alloc, s.count, s.values, e.get())? {
        Some(values) => Ok(Whose::Given(values)),
        None => Ok(whose_scalar(s.loops, e.get())),
    }
}

/// The value on an image.
pub fn value_on(values: &[i64], image: u32) -> i64
    ensures { result ≡ unwrap_or (slice_get values.now image) (pos 0) }
{
    match values.get(image as usize) {
        Some(value) => *value,
        None => 0,
    }
}

// Whether an image means one that there isn't.
fn misses(count: u32, w: &Whose<'_>, image: u32) -> bool
    ensures { result ≡ misses count (whose_of w.now) image }
{
    match w {
        Whose::Given(values) => !is_image(count, value_on(values.as_slice(), image)),
        Whose::Turning(l) => l.leaves(count, image),
        _ => false,
    }
}

// Whether one of the images that come there does.
#[tactic(auto, using(crate::proofs::GuardLaws::any_next, crate::proofs::GuardLaws::any_end))]
fn some_misses(count: u32, counts: &[bool], w: &Whose<'_>) -> bool
    ensures { result ≡ list_any (misses count (whose_of w.now)) (filter (comes counts.now) (range_with_len 0 count)) }
{
    'images: for image in 0..count {
        if comes(counts, image) && misses(count, w, image) {
            return true;
        }
    }
    false
}

/// Whether an access means an image that there isn't, on an image that comes to it, or none that can be told.
pub fn is_elsewhere(count: u32, counts: &[bool], w: &Whose<'_>) -> bool
    ensures { result ≡ is_elsewhere count counts.now (whose_of w.now) }
{
    match w {
        Whose::Unknown => true,
        _ => some_misses(count, counts, w),
    }
}

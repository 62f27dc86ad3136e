// Spots of the same cells, as one.
ghost use Rattle.std.specs.Prelude.{◌≡◌, ◌++◌, ◌∷◌, ◌<◌, [], length, slice_get, slice_set, Some, OnOk, IfSome, IfNone};
ghost use Rattle.xmp_spots.specs.declared.touches.Spot.{Spot};
ghost use Rattle.xmp_spots.specs.Gathered.{both_by, same_cells, same_number, with_spot};

use crate::touches::{By, Spot};
use sqlite_items::Items;
use std::alloc::AllocError;

// Whether two subscripts are the same number, or both none.
fn same_number(a: Option<i64>, b: Option<i64>) -> bool
    ensures { result ≡ same_number a b }
{
    match (a, b) {
        (None, None) => true,
        (Some(x), Some(y)) => x == y,
        _ => false,
    }
}

// Whether two spots are of the same cells.
fn same_cells(s: Spot, t: Spot) -> bool
    ensures { result ≡ same_cells s t }
{
    s.on == t.on
        && (same_number(s.subscripts.first, t.subscripts.first)
            && (same_number(s.subscripts.second, t.subscripts.second)
                && same_number(s.subscripts.third, t.subscripts.third)))
}

// The images of both.
fn both_by(a: By, b: By) -> By
    ensures { result ≡ both_by a b }
{
    match (a, b) {
        (By::One(x), By::One(y)) if x == y => By::One(x),
        _ => By::Several,
    }
}

// Where there is a spot of the same cells.
fn place_of(spots: &[Spot], s: Spot) -> Option<usize>
    ensures found { IfSome result (λ k. (k < length spots.now) × ((t : Spot) → slice_get spots.now k ≡ Some t
        → with_spot spots.now s ≡ slice_set spots.now k (record t { by = both_by t.by s.by }))) }
    ensures none { IfNone result (with_spot spots.now s ≡ spots.now ++ s ∷ []) }
{
    'spots: for (k, t) in spots.iter().enumerate() {
        if same_cells(*t, s) {
            return Some(k);
        }
    }
    None
}

/// One spot more: where there is one of the same cells, the images of both touch that.
pub fn add_spot(spots: &mut Items<Spot>, s: Spot) -> Result<(), AllocError>
    ensures { OnOk result (spots.new ≡ with_spot spots.old s) }
{
    match place_of(spots.as_slice(), s) {
        Some(k) => {
            if let Some(t) = spots.get(k) {
                let both = Spot {
                    by: both_by(t.by, s.by),
                    ..*t
                };
                spots.set(k, both);
            }
            Ok(())
        }
        None => spots.push(s),
    }
}

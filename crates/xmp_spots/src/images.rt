// The images that touch a spot.
ghost use Rattle.std.specs.Prelude.{◌≡◌};
ghost use Rattle.xmp_spots.specs.Clashes.{by_two};

use crate::touches::By;

// Whether one image is of these and another of those.
pub(crate) fn by_two(a: By, b: By) -> bool
    ensures { result ≡ by_two a b }
{
    match (a, b) {
        (By::One(x), By::One(y)) => x != y,
        _ => true,
    }
}

// The first of some refusals, by the images that they are for.
ghost use Rattle.std.specs.Prelude.{IsTrue};
ghost use Rattle.xmp_spots.specs.Nearest.{leads};

use crate::images::by_two;
use crate::order::is_before;
use crate::touches::By;
use xmp_base::{Refusal, earlier};

// The first refusal, the images that it is for, and the first of those that are for another image. Where the first is
// for several, it is the one for each image.
#[derive(Clone, Copy)]
pub(crate) struct Nearest {
    pub(crate) by: By,
    pub(crate) first: Refusal,
    pub(crate) other: Option<Refusal>,
    ghost ordered: { IsTrue (leads first other) },
}

impl Nearest {
    ghost use Rattle.std.specs.Prelude.{◌≡◌, None, false};
    ghost use Rattle.xmp_base.specs.First.{comes_first};
    ghost use Rattle.xmp_spots.specs.declared.touches.By.{By};
    ghost use Rattle.xmp_spots.specs.Clashes.{by_two};
    ghost use Rattle.xmp_spots.specs.Nearest.{noted};
    ghost use Rattle.xmp_spots.specs.Seen.{seen_by};

    // The one refusal.
    pub(crate) fn new(by: By, refusal: Refusal) -> Nearest
        ensures { (q : By) → seen_by result q ≡ noted (by_two q by) refusal None }
    {
        Nearest {
            by,
            first: refusal,
            other: None,
        }
    }

    // The first refusal that is for an image other than one of these.
    pub(crate) fn seen_by(&self, images: By) -> Option<Refusal>
        ensures { result ≡ seen_by self.now images }
    {
        if by_two(images, self.by) {
            Some(self.first)
        } else {
            self.other
        }
    }

    // One refusal more.
    pub(crate) fn with(self, by: By, refusal: Refusal) -> Nearest
        ensures { (q : By) → seen_by result q ≡ noted (by_two q by) refusal (seen_by self q) }
    {
        if is_before(refusal, self.first) {
            self.led(by, refusal)
        } else {
            self.followed(by, refusal)
        }
    }

    // One refusal more, before the first.
    #[tactic(auto, using(crate::proofs::NearestLaws::leads_wide, crate::proofs::NearestLaws::leads_same))]
    fn led(self, by: By, refusal: Refusal) -> Nearest
        requires { comes_first self.first refusal ≡ false }
        ensures { (q : By) → seen_by result q ≡ noted (by_two q by) refusal (seen_by self q) }
    {
        if by_two(by, self.by) {
            return Nearest {
                by,
                first: refusal,
                other: Some(self.first),
            };
        }
        Nearest {
            by: self.by,
            first: refusal,
            other: self.other,
        }
    }

    // One refusal more, not before the first.
    fn followed(self, by: By, refusal: Refusal) -> Nearest
        requires { IsTrue (comes_first self.first refusal) }
        ensures { (q : By) → seen_by result q ≡ noted (by_two q by) refusal (seen_by self q) }
    {
        if by_two(by, self.by) {
            Nearest {
                by: self.by,
                first: self.first,
                other: earlier(self.other, Some(refusal)),
            }
        } else {
            self
        }
    }
}

// What an access touches.
ghost use Rattle.std.specs.Prelude.{◌≡◌, pos, fold, map, OnOk, IfOk};
ghost use Rattle.xmp_spots.specs.declared.touches.By.TheVariants.{One};
ghost use Rattle.xmp_spots.specs.Gathered.{with_spot};
ghost use Rattle.xmp_races.specs.Footprints.{Turning, spots, spots_on, subscript_on, subscripts_on};
ghost use Rattle.xmp_races.specs.Setting.{values_at};
ghost use Rattle.xmp_races.specs.Views.{setting_of, whose_of};

use crate::guards::comes;
use crate::setting::{LoopImages, Site};
use crate::whose::{Whose, value_on};
use sqlite_items::Items;
use std::alloc::{AllocError, Global};
use xmp_base::{NoMemory, Words};
use xmp_prog::Expr;
use xmp_spots::{By, Spot, Subscripts, add_spot, image_values};

// The subscript of a dimension on an image, where it is a number.
fn subscript_on(subscripts: &[Option<Words>], dimension: usize, image: u32) -> Option<i64>
    ensures { result ≡ subscript_on subscripts.now dimension image }
{
    match subscripts.get(dimension) {
        Some(Some(values)) => values.as_slice().get(image as usize).copied(),
        _ => None,
    }
}

// The spot of an image whose access means the cells of another.
fn spot_of(subscripts: &[Option<Words>], image: u32, on: i64) -> Spot
    ensures { result ≡ record { by = One image; on = on; subscripts = subscripts_on subscripts.now image } }
{
    Spot {
        by: By::One(image),
        on,
        subscripts: Subscripts {
            first: subscript_on(subscripts, 0, image),
            second: subscript_on(subscripts, 1, image),
            third: subscript_on(subscripts, 2, image),
        },
    }
}

// The spots of an image by a loop's index.
#[tactic(auto, using(crate::proofs::SpotLaws::turn_next))]
fn add_turns(
    count: u32,
    l: &LoopImages,
    subscripts: &[Option<Words>],
    image: u32,
    spots: &mut Items<Spot>,
) -> Result<(), AllocError>
    ensures { OnOk result (spots.new ≡ fold with_spot spots.old (spots_on count (Turning l.now) subscripts.now image)) }
{
    'images: for k in 0..count {
        if l.is_turn(image, k) {
            add_spot(spots, spot_of(subscripts, image, i64::from(k)))?;
        }
    }
    Ok(())
}

// The spots of an image.
fn add_spots(
    count: u32,
    w: &Whose<'_>,
    subscripts: &[Option<Words>],
    image: u32,
    spots: &mut Items<Spot>,
) -> Result<(), AllocError>
    ensures { OnOk result (spots.new ≡ fold with_spot spots.old (spots_on count (whose_of w.now) subscripts.now image)) }
{
    match w {
        Whose::Own => add_spot(spots, spot_of(subscripts, image, i64::from(image))),
        Whose::Given(values) => {
            let on = value_on(values.as_slice(), image);
            add_spot(spots, spot_of(subscripts, image, on))
        }
        Whose::Turning(l) => add_turns(count, l, subscripts, image, spots),
        Whose::Unknown => Ok(()),
    }
}

/// The spots of an access, each once, of the images that come to it.
#[tactic(auto, using(crate::proofs::SpotLaws::image_next))]
pub fn spots(
    alloc: Global,
    count: u32,
    counts: &[bool],
    w: &Whose<'_>,
    subscripts: &[Option<Words>],
) -> Result<Items<Spot>, AllocError>
    ensures { IfOk result (λ found. found ≡ spots count counts.now (whose_of w.now) subscripts.now) }
{
    let mut found = Items::new(alloc);
    'images: for image in 0..count {
        if comes(counts, image) {
            add_spots(count, w, subscripts, image, &mut found)?;
        }
    }
    Ok(found)
}

/// The values of expressions on each image, where they are image expressions.
pub fn values_of_each(
    alloc: Global,
    s: &Site<'_>,
    es: &[Expr],
) -> Result<Items<Option<Words>>, NoMemory>
    ensures { IfOk result (λ found. found ≡ map (values_at (setting_of s.now)) es.now) }
{
    let mut found = Items::new(alloc);
    'items: for e in es {
        let values = image_values(alloc, s.count, s.values, e)?;
        found.push(values)?;
    }
    Ok(found)
}

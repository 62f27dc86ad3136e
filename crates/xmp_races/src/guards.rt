// The images that come to an expression or a statement.
ghost use Rattle.std.specs.Prelude.{◌≡◌, slice_get, IfOk};
ghost use Rattle.xmp_races.specs.Footprints.{comes, goes_on, those_from, those_of};
ghost use Rattle.xmp_races.specs.Setting.{where_chosen};
ghost use Rattle.xmp_races.specs.Views.{setting_of};

use crate::setting::Site;
use sqlite_items::{Items, at};
use std::alloc::{AllocError, Global};
use xmp_base::{NoMemory, Words};
use xmp_prog::Expr;
use xmp_spots::image_values;

/// Whether an image comes there.
pub fn comes(counts: &[bool], image: u32) -> bool
    ensures { result ≡ comes counts.now image }
{
    match counts.get(image as usize) {
        Some(on) => *on,
        None => false,
    }
}

// Whether an image goes on where a condition holds, or where it fails, by the condition's values.
fn goes_on(values: &[i64], image: usize, came: bool, holding: bool) -> bool
    ensures { result ≡ goes_on holding came (slice_get values.now image) }
{
    match at(values, image) {
        Some(value) => came && (*value == 0) != holding,
        None => came,
    }
}

// Those that go on, by the condition's values.
fn chosen(
    alloc: Global,
    counts: &[bool],
    values: &[i64],
    holding: bool,
) -> Result<Items<bool>, AllocError>
    ensures { IfOk result (λ found. found ≡ those_from 0 counts.now values.now holding) }
{
    let mut found = Items::new(alloc);
    'counts: for (image, came) in counts.iter().enumerate() {
        found.push(goes_on(values, image, *came, holding))?;
    }
    Ok(found)
}

// Of the images that come to a condition, those that go on where it holds, or where it fails: all, where it is no image
// expression.
fn those_of(
    alloc: Global,
    counts: &[bool],
    test: &Option<Words>,
    holding: bool,
) -> Result<Items<bool>, AllocError>
    ensures { IfOk result (λ found. found ≡ those_of counts.now test.now holding) }
{
    match test {
        Some(values) => chosen(alloc, counts, values.as_slice(), holding),
        None => Items::from_slice(alloc, counts),
    }
}

/// Of the images that come to a condition, those that go on where it holds, or where it fails.
pub fn counts_where(
    alloc: Global,
    s: &Site<'_>,
    test: &Expr,
    holding: bool,
) -> Result<Items<bool>, NoMemory>
    ensures { IfOk result (λ counts. counts ≡ (where_chosen (setting_of s.now) test.now holding).counts) }
{
    let values = image_values(alloc, s.count, s.values, test)?;
    let counts = those_of(alloc, s.counts, &values, holding)?;
    Ok(counts)
}

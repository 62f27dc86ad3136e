// What a side names in each of three dimensions, in small numbers.
ghost use Rattle.std.specs.Prelude.{◌≡◌, [], ◌∷◌, map, MatchOption};
ghost use Rattle.xmp_map.specs.Nodes.{filled};
ghost use Rattle.xmp_move.specs.declared.pick.Pick.TheVariants.{Section, Single};
ghost use Rattle.xmp_move.specs.Numbers.{chosen_by};
ghost use Rattle.xmp_move.specs.Choices.{chosen_of};
ghost use Rattle.xmp_move.specs.Picks.{narrow, pick_of, picks_of, section_of, whole_picks};

use crate::kind::SidePart;
use crate::numbers::{Chosen, first, first_extent};

/// A subscript, or a section by its first subscript, how many there are, and the step.
#[derive(Clone, Copy)]
pub enum Pick {
    Single(u32),
    Section { first: u32, count: u32, step: u32 },
}

const NONE: Pick = Pick::Single(0);

fn narrow(value: i64) -> u32
    ensures { result ≡ narrow value }
{
    if value >= 0 && value < 4_294_967_296 {
        value as u32
    } else {
        0
    }
}

fn section_of(base: u32, length: u32, step: u32) -> Pick
    ensures { result ≡ section_of base length step }
{
    let (first, count, step) = match length {
        0 => (0, 0, 1),
        1 => (base, 1, 1),
        _ => (base, length, step),
    };
    Pick::Section { first, count, step }
}

fn pick_of(chosen: Chosen) -> Pick
    ensures { result ≡ pick_of (chosen_of chosen) }
{
    match chosen {
        Chosen::One(v) => Pick::Single(narrow(v)),
        Chosen::Many { base, length, step } => {
            section_of(narrow(base), narrow(length), narrow(step))
        }
    }
}

/// What a side names in its first dimension, and the parts and the numbers behind it.
fn first_pick<'a>(
    parts: &'a [SidePart],
    numbers: &'a [i64],
) -> Option<(Pick, &'a [SidePart], &'a [i64])>
    ensures { MatchOption result (chosen_by parts.now numbers.now ≡ [])
        (λ p. map pick_of (chosen_by parts.now numbers.now) ≡ p.0 ∷ map pick_of (chosen_by p.1.now p.2.now)) }
{
    let (chosen, parts, numbers) = first(parts, numbers)?;
    Some((pick_of(chosen), parts, numbers))
}

/// What a side names in three dimensions; in those that its array doesn't have the subscript is 0.
pub fn picks_of(parts: &[SidePart], numbers: &[i64]) -> [Pick; 3]
    ensures { result ≡ picks_of (chosen_by parts.now numbers.now) }
{
    match first_pick(parts, numbers) {
        None => [NONE, NONE, NONE],
        Some((a, parts, numbers)) => match first_pick(parts, numbers) {
            None => [a, NONE, NONE],
            Some((b, parts, numbers)) => match first_pick(parts, numbers) {
                None => [a, b, NONE],
                Some((c, _, _)) => [a, b, c],
            },
        },
    }
}

fn whole(extent: u32) -> Pick
    ensures { result ≡ Section 0 extent 1 }
{
    Pick::Section {
        first: 0,
        count: extent,
        step: 1,
    }
}

/// All subscripts of each dimension.
pub fn whole_picks(extents: &[u32]) -> [Pick; 3]
    ensures { result ≡ whole_picks extents.now }
{
    match first_extent(extents) {
        None => [NONE, NONE, NONE],
        Some((a, extents)) => match first_extent(extents) {
            None => [whole(a), NONE, NONE],
            Some((b, extents)) => match first_extent(extents) {
                None => [whole(a), whole(b), NONE],
                Some((c, _)) => [whole(a), whole(b), whole(c)],
            },
        },
    }
}

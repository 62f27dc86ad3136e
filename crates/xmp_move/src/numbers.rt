// The numbers of a side, part by part.
ghost use Rattle.std.specs.Prelude.{◌≡◌, ◌<◌, ◌+◌, [], ◌∷◌, length, drop, MatchOption, IfSome};
ghost use Rattle.std.specs.List.{sum_by};
ghost use Rattle.xmp_meaning.specs.Sections.{lengths};
ghost use Rattle.xmp_move.specs.Numbers.{asked, chosen_by};
ghost use Rattle.xmp_move.specs.Choices.{chosen_of};

use crate::kind::SidePart;

/// A subscript, or the base, the length and the step of a section.
#[derive(Clone, Copy)]
pub enum Chosen {
    One(i64),
    Many { base: i64, length: i64, step: i64 },
}

/// The first item, and those behind it.
#[tactic(auto, using(std::proofs::lemmas::List::nil_from_length))]
fn split<T>(items: &[T]) -> Option<(&T, &[T])>
    ensures { MatchOption result (items.now ≡ []) (λ p. items.now ≡ p.0.now ∷ p.1.now) }
{
    items.split_first()
}

/// An extent, and those behind it.
pub fn first_extent(extents: &[u32]) -> Option<(u32, &[u32])>
    ensures { MatchOption result (extents.now ≡ []) (λ p. extents.now ≡ p.0 ∷ p.1.now) }
{
    let (extent, behind) = split(extents)?;
    Some((*extent, behind))
}

/// A number, and those behind it.
fn first_number(numbers: &[i64]) -> Option<(i64, &[i64])>
    ensures { MatchOption result (numbers.now ≡ []) (λ p. numbers.now ≡ p.0 ∷ p.1.now) }
{
    let (number, behind) = split(numbers)?;
    Some((*number, behind))
}

/// What the numbers of a side choose for its first part, and the parts and the numbers behind it.
pub fn first<'a>(
    parts: &'a [SidePart],
    numbers: &'a [i64],
) -> Option<(Chosen, &'a [SidePart], &'a [i64])>
    ensures choice { MatchOption result (chosen_by parts.now numbers.now ≡ [])
        (λ p. chosen_by parts.now numbers.now ≡ chosen_of p.0 ∷ chosen_by p.1.now p.2.now) }
    ensures fewer { IfSome result (λ p. length p.1.now + 1 ≡ length parts.now) }
{
    let (part, behind) = split(parts)?;
    match *part {
        SidePart::One => {
            let (v, numbers) = first_number(numbers)?;
            Some((Chosen::One(v), behind, numbers))
        }
        SidePart::Many => {
            let (base, numbers) = first_number(numbers)?;
            let (length, numbers) = first_number(numbers)?;
            let (step, numbers) = first_number(numbers)?;
            Some((Chosen::Many { base, length, step }, behind, numbers))
        }
    }
}

/// How many numbers a part takes.
fn asked(part: SidePart) -> usize
    ensures { result ≡ asked part }
{
    match part {
        SidePart::One => 1,
        SidePart::Many => 3,
    }
}

/// All numbers but the first `count`.
fn skip(numbers: &[i64], count: usize) -> &[i64]
    ensures { result.now ≡ drop count numbers.now }
{
    if count <= numbers.len() {
        &numbers[count..]
    } else {
        &[]
    }
}

/// The numbers behind those of a side.
pub fn behind<'a>(parts: &[SidePart], numbers: &'a [i64]) -> &'a [i64]
    ensures { result.now ≡ drop (sum_by asked parts.now) numbers.now }
{
    match split(parts) {
        None => numbers,
        Some((part, parts)) => behind(parts, skip(numbers, asked(*part))),
    }
}

/// The first length of a side's sections, and the parts and the numbers behind that section.
pub fn first_length<'a>(
    parts: &'a [SidePart],
    numbers: &'a [i64],
) -> Option<(i64, &'a [SidePart], &'a [i64])>
    ensures length { MatchOption result (lengths (chosen_by parts.now numbers.now) ≡ [])
        (λ p. lengths (chosen_by parts.now numbers.now) ≡ p.0 ∷ lengths (chosen_by p.1.now p.2.now)) }
    ensures fewer { IfSome result (λ p. length p.1.now < length parts.now) }
{
    match first(parts, numbers) {
        None => None,
        Some((Chosen::One(_), parts, numbers)) => first_length(parts, numbers),
        Some((Chosen::Many { length, .. }, parts, numbers)) => Some((length, parts, numbers)),
    }
}
